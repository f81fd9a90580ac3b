//! Strokes whose joins and caps have edges of no length: these are left out. The paths, widths, caps and joins are
//! those of the Rust crate's own test.

ghost use Rattle.std.specs.Prelude.{◌≡◌};
ghost use Rattle.mesh_stroke.specs.Styles.{stroke_style_of};

use crate::styles::widened;
use i_overlay_mesh::stroke::builder::StrokeBuilder;
use i_overlay_mesh::stroke::offset::IntStrokeOffset;
use mesh_join::arc::ArcOptions;
use mesh_join::style::{
    DEFAULT_MITER_MIN_TURN, IntLineCap, IntLineJoin, IntStrokeStyle, MathMode, StrokeSide,
};
use mesh_num::num::{Angle, OverlayInt};
use mesh_num::shape::segment::Segment;
use mesh_test_support::compared::{expect_equal, expect_that};
use mesh_test_support::edges::edges_of_segments;
use mesh_test_support::plain::is_balanced;
use std::alloc::{AllocError, Global};
use std::fmt::Debug;
use std::rc::RcSlice;
use std::test::Fail;

/// The caps of the test by their number: stock ones, and an arrow's head that begins with a repeated point.
fn cap<I: OverlayInt + From<i16>>(
    alloc: Global,
    number: u8,
    radius: i16,
) -> Result<IntLineCap<I>, AllocError> {
    Ok(match number {
        0 => IntLineCap::Butt,
        1 => IntLineCap::Square,
        2 => IntLineCap::Round(ArcOptions::default()),
        _ => {
            let low = radius.wrapping_neg();
            let points = widened(alloc, &[(0, low), (0, low), (radius, 0), (0, radius)])?;
            IntLineCap::Custom(RcSlice::from_vec(points)?)
        }
    })
}

/// The joins of the test by their number.
fn join(number: u8) -> IntLineJoin {
    match number {
        0 => IntLineJoin::Bevel,
        1 => IntLineJoin::Miter(Angle::from_bits(67_108_864)),
        2 => IntLineJoin::Miter(Angle::from_bits(2_000_000_000)),
        _ => IntLineJoin::Round(ArcOptions::default()),
    }
}

/// The style of this width with the cap and the join of these numbers.
fn style<I: OverlayInt + From<i16>>(
    alloc: Global,
    width: i16,
    radius: i16,
    number: u8,
    kind: u8,
) -> Result<IntStrokeStyle<I>, AllocError> {
    Ok(IntStrokeStyle {
        width: I::from(width),
        start_cap: cap(alloc, number, radius)?,
        end_cap: cap(alloc, number, radius)?,
        join: join(kind),
        miter_min_turn: Angle::from_bits(DEFAULT_MITER_MIN_TURN),
        math: MathMode::Integer,
        side: StrokeSide::Both,
    })
}

/// The builder of the style adds proper segments alone, which close up, and some if and only if the
/// stroke is drawn. The form is whether the path is closed, and whether it is drawn.
fn expect_proper<I: OverlayInt + From<i16> + Debug>(
    alloc: Global,
    builder: &mut StrokeBuilder<'_, I>,
    style: &IntStrokeStyle<I>,
    form: (bool, bool),
    end: (i16, i16),
) -> Result<(), Fail>
    requires { builder.old ≡ stroke_style_of I.value style.now }
    ensures { builder.new ≡ builder.old }
{
    let points = widened(alloc, &[(0, 0), (0, 0), (10, 0), end])?;
    points.validate_stroke(style)?;
    let mut segments = Vec::new(alloc);
    builder.build(&points, form.0, &mut segments)?;
    expect_proper_segments(alloc, &segments, form.1, style)
}

/// The segments are proper and close up, and there are some if and only if a stroke is drawn.
fn expect_proper_segments<I: OverlayInt + Debug>(
    alloc: Global,
    segments: &[Segment<I>],
    is_drawn: bool,
    style: &IntStrokeStyle<I>,
) -> Result<(), Fail> {
    for segment in segments {
        let is_proper = segment.x_segment.a < segment.x_segment.b;
        expect_that(is_proper, &(segment, style))?;
    }
    expect_equal(&segments.is_empty(), &!is_drawn, style)?;
    let edges = edges_of_segments(alloc, segments)?;
    expect_that(is_balanced(&edges), style)
}

/// Whether the path is closed, and where it ends.
const FORMS: [(bool, (i16, i16)); 6] = [
    (false, (10, 10)),
    (false, (0, 0)),
    (false, (20, 1)),
    (true, (10, 10)),
    (true, (0, 0)),
    (true, (20, 1)),
];

/// One builder of the style, for paths that turn, turn back and run nearly straight on, open and closed.
fn expect_all_proper<I: OverlayInt + From<i16> + Debug>(
    alloc: Global,
    style: &IntStrokeStyle<I>,
    is_drawn: bool,
) -> Result<(), Fail> {
    let mut builder = StrokeBuilder::new(alloc, style);
    for (is_closed, end) in &FORMS {
        expect_proper(alloc, &mut builder, style, (*is_closed, is_drawn), *end)?;
    }
    Ok(())
}

/// All caps and joins with this width; half of it, rounded up, is the radius.
fn expect_width<I: OverlayInt + From<i16> + Debug>(
    alloc: Global,
    width: i16,
    radius: i16,
) -> Result<(), Fail> {
    for number in 0..4u8 {
        for kind in 0..4u8 {
            let style = style(alloc, width, radius, number, kind)?;
            expect_all_proper::<I>(alloc, &style, width > 2)?;
        }
    }
    Ok(())
}

/// Widths and their radii.
const WIDTHS: [(i16, i16); 5] = [(0, 0), (1, 1), (2, 1), (4, 2), (1024, 512)];

#[test]
fn joins_and_caps_skip_collapsed_edges(rt: HostRuntime) -> Result<(), Fail> {
    for (width, radius) in &WIDTHS {
        expect_width::<i16>(rt.alloc(), *width, *radius)?;
        expect_width::<i32>(rt.alloc(), *width, *radius)?;
    }
    Ok(())
}
