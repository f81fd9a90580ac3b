//! The calls one by one: defaults, segments added in parts, the other width, what stays, and what is no list to
//! resolve.

use crate::answers::{Row, expect, expect_resolvable, overlay_of};
use mesh_below::below::{ContourDirection, FillRule, IntOverlayOptions, Overlay, OverlayRule};
use mesh_below::checks::are_resolvable;
use mesh_num::num::IntPoint;
use mesh_num::shape::buffer::FlatContoursBuffer;
use mesh_num::shape::segment::{Segment, SubjectSegments, XSegment};
use mesh_test_support::compared::{
    are_same_segments, are_shapes, expect_equal, expect_that, holds, is_contour,
};
use mesh_test_support::lists::segments;
use mesh_test_support::outer;
use std::alloc::{AllocError, Global};
use std::test::Fail;

const SQUARE: Row = outer!(0, 0, 4, 4);

const OTHER: Row = outer!(2, 2, 6, 6);

const BOTH: Row = &[
    (0, 0),
    (4, 0),
    (4, 2),
    (6, 2),
    (6, 6),
    (2, 6),
    (2, 4),
    (0, 4),
];

#[test]
fn defaults(rt: HostRuntime) -> Result<(), Fail> {
    let options = IntOverlayOptions::<u32>::default();
    let onward = ContourDirection::CounterClockwise;
    expect_equal(&options.min_output_area, &0, &"the default options")?;
    expect_equal(&options.output_direction, &onward, &"the default options")?;
    expect_equal(&ContourDirection::default(), &onward, &"the default")?;
    expect_that(!options.preserve_output_collinear, &"the default options")?;
    let overlay: Overlay<i32> = Overlay::with_segments(Vec::new(rt.alloc()));
    let options = overlay.options;
    expect_equal(&options.min_output_area, &0, &"an overlay's options")?;
    expect_equal(&options.output_direction, &onward, &"an overlay's options")?;
    expect_that(!options.preserve_output_collinear, &"an overlay's options")
}

#[test]
fn what_is_the_default(_rt: HostRuntime) -> Result<(), Fail> {
    let plain = IntOverlayOptions::<u32>::new();
    expect_that(plain.is_default(), &"the default options")?;
    let mut options = plain;
    options.min_output_area = 1;
    expect_that(!options.is_default(), &"a least area")?;
    options = plain;
    options.output_direction = ContourDirection::Clockwise;
    expect_that(!options.is_default(), &"the direction")?;
    options = plain;
    options.preserve_output_collinear = true;
    expect_that(!options.is_default(), &"straight-through vertices")
}

#[test]
fn segments_in_two_parts(rt: HostRuntime) -> Result<(), Fail> {
    let mut overlay = overlay_of(rt.alloc(), &[SQUARE])?;
    overlay.options.min_output_area = 28;
    expect(&overlay, FillRule::Positive, &[])?;
    let more = overlay_of(rt.alloc(), &[OTHER])?;
    overlay.add_segments(&more.segments)?;
    expect_equal(&overlay.segments.len(), &8, &"two squares")?;
    expect(&overlay, FillRule::Positive, &[&[BOTH]])?;
    overlay.options.min_output_area = 29;
    expect(&overlay, FillRule::Positive, &[])
}

/// A square that reaches the ends of the safe range of `i16`, and the same moved past it.
#[test]
fn numbers_of_16_bits(rt: HostRuntime) -> Result<(), Fail> {
    let past = segments::<i16>(rt.alloc(), &[outer!(-16383, -16383, 16384, 16383)])?;
    assert!(rt; !are_resolvable(rt.alloc(), &past)?);
    let square: &[&[(i16, i16)]] = &[outer!(-16383, -16383, 16383, 16383)];
    let overlay = Overlay::with_segments(segments(rt.alloc(), square)?);
    expect_resolvable(&overlay)?;
    let shapes = overlay.overlay(OverlayRule::Subject, FillRule::Positive)?;
    expect_that(are_shapes(&shapes, &[square]), &shapes)
}

/// The overlay stays as it was. The buffer has the answer, or what it had: a refusal comes only in a run that is made
/// to refuse memory.
#[test]
fn answers_leave_the_overlay_as_it_was(rt: HostRuntime) -> Result<(), Fail> {
    let overlay = overlay_of(rt.alloc(), &[SQUARE, OTHER])?;
    let before = overlay.segments.clone()?;
    expect_resolvable(&overlay)?;
    let mut buffer = FlatContoursBuffer::new(rt.alloc());
    buffer.points.push(IntPoint::new(7, 7))?;
    let done = overlay.overlay_into(OverlayRule::Subject, FillRule::Positive, &mut buffer);
    assert!(rt; are_same_segments(&overlay.segments, &before));
    if let Err(refused) = done {
        assert!(rt; is_contour(&buffer.points, &[(7, 7)]));
        assert!(rt; buffer.ranges.is_empty());
        return Err(refused.into());
    }
    assert!(rt; holds(&buffer, &[&[BOTH]]));
    Ok(())
}

/// The ends of a segment, its count, and whether it makes a list to resolve with the other sides of a square.
const FIRST_SIDES: &[((i32, i32), (i32, i32), i32, bool)] = &[
    ((0, 0), (4, 0), 1, true),
    ((0, 0), (4, 0), -1, false),
    ((0, 0), (4, 0), 2, false),
    ((4, 0), (0, 0), -1, false),
    ((0, 0), (4, 1), 1, false),
    ((-1, 0), (4, 0), 1, false),
];

/// Three sides of a square, and the segment of these ends and this count.
fn with_first_side(
    alloc: Global,
    a: (i32, i32),
    b: (i32, i32),
    count: i32,
) -> Result<Vec<Segment<i32>>, AllocError> {
    let mut segments = Vec::new(alloc);
    let a = IntPoint::new(a.0, a.1);
    let b = IntPoint::new(b.0, b.1);
    segments.push(Segment {
        x_segment: XSegment { a, b },
        count,
    })?;
    segments.push_non_degenerate(IntPoint::new(4, 0), IntPoint::new(4, 4))?;
    segments.push_non_degenerate(IntPoint::new(4, 4), IntPoint::new(0, 4))?;
    segments.push_non_degenerate(IntPoint::new(0, 4), IntPoint::new(0, 0))?;
    Ok(segments)
}

#[test]
fn what_is_no_list_to_resolve(rt: HostRuntime) -> Result<(), Fail> {
    for row in FIRST_SIDES {
        let (a, b, count, want) = *row;
        let segments = with_first_side(rt.alloc(), a, b, count)?;
        expect_equal(&are_resolvable(rt.alloc(), &segments)?, &want, row)?;
    }
    Ok(())
}
