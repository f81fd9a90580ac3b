//! Outlines for which memory is refused.

ghost use Rattle.std.specs.Prelude.{◌≡◌};
ghost use Rattle.mesh_join.specs.Styles.{style_of, outer as outer_of};

use crate::calls::{Answers, Fills, TellsNearness, expect_answered, expect_filled, expect_told};
use i_overlay_mesh::outline::builder::OutlineBuilder;
use i_overlay_mesh::outline::kind::{ContourKind, contour_kinds};
use i_overlay_mesh::outline::offset::IntOutlineOffset;
use i_overlay_mesh::{IntNearnessError, IntOutlineError};
use mesh_below::below::IntOverlayOptions;
use mesh_below::nearness::{NearShapes, SplitCount};
use mesh_join::arc::ArcOptions;
use mesh_join::join::Join;
use mesh_join::style::{DEFAULT_MITER_MIN_TURN, IntLineJoin, IntOutlineStyle, MathMode};
use mesh_num::num::{Angle, IntPoint, OverlayInt};
use mesh_num::shape::buffer::{FlatContoursBuffer, IntShapes};
use mesh_num::shape::segment::Segment;
use mesh_test_support::lists::{path, paths};
use mesh_test_support::refused::{expect_added, one_segment};
use mesh_test_support::{inner, marks, outer};
use std::alloc::{AllocError, Global};
use std::test::Fail;

const REFUSED: &IntOutlineError = &IntOutlineError::OutOfMemory;

const OUT_OF_MEMORY: &IntNearnessError = &IntNearnessError::OutOfMemory;

/// A square with a square hole, and a contour of area 0.
const CONTOURS: &[&[(i32, i32)]] = &[
    outer!(0, 0, 40, 40),
    inner!(10, 10, 30, 30),
    &[(0, 0), (5, 5)],
];

/// Outwards by 4, round the corners, and holes by 3.
fn round() -> IntOutlineStyle<i32> {
    IntOutlineStyle {
        outer_offset: 4,
        inner_offset: 3,
        join: IntLineJoin::Round(ArcOptions::default()),
        miter_min_turn: Angle::from_bits(DEFAULT_MITER_MIN_TURN),
        math: MathMode::Integer,
    }
}

/// The outline of the contours in this style, by the call that takes options or the one that takes none.
#[derive(Drop)]
struct Drawing {
    contours: Vec<Vec<IntPoint<i32>>>,
    style: IntOutlineStyle<i32>,
    is_custom: bool,
}

impl Answers<IntShapes<i32>, IntOutlineError> for Drawing {
    fn answer(&self, alloc: Global) -> Result<IntShapes<i32>, IntOutlineError> {
        let (contours, style) = (&self.contours, &self.style);
        contours.validate_outline(style)?;
        if self.is_custom {
            contours.outline_custom(alloc, style, IntOverlayOptions::new())
        } else {
            contours.outline(alloc, style)
        }
    }
}

impl Fills<IntOutlineError> for Drawing {
    fn fill(
        &self,
        alloc: Global,
        buffer: &mut FlatContoursBuffer<i32>,
    ) -> Result<(), IntOutlineError> {
        let (contours, style) = (&self.contours, &self.style);
        contours.validate_outline(style)?;
        if self.is_custom {
            contours.outline_custom_into(alloc, style, IntOverlayOptions::new(), buffer)
        } else {
            contours.outline_into(alloc, style, buffer)
        }
    }
}

impl TellsNearness<IntNearnessError> for Drawing {
    fn tell(
        &self,
        alloc: Global,
        count: &mut SplitCount,
    ) -> Result<NearShapes<i32>, IntNearnessError> {
        let (contours, style) = (&self.contours, &self.style);
        contours.validate_outline(style)?;
        contours.outline_with_nearness(alloc, style, IntOverlayOptions::new(), count)
    }
}

/// The contours in the round style.
fn drawn(alloc: Global, is_custom: bool) -> Result<Drawing, AllocError> {
    Ok(Drawing {
        contours: paths(alloc, CONTOURS)?,
        style: round(),
        is_custom,
    })
}

#[test]
fn outline(rt: HostRuntime) -> Result<(), Fail> {
    expect_answered(rt.alloc(), &drawn(rt.alloc(), false)?, REFUSED)
}

#[test]
fn outline_custom(rt: HostRuntime) -> Result<(), Fail> {
    expect_answered(rt.alloc(), &drawn(rt.alloc(), true)?, REFUSED)
}

#[test]
fn outline_into(rt: HostRuntime) -> Result<(), Fail> {
    expect_filled(rt.alloc(), &drawn(rt.alloc(), false)?, REFUSED)
}

#[test]
fn outline_custom_into(rt: HostRuntime) -> Result<(), Fail> {
    expect_filled(rt.alloc(), &drawn(rt.alloc(), true)?, REFUSED)
}

#[test]
fn outline_with_nearness(rt: HostRuntime) -> Result<(), Fail> {
    expect_told(rt.alloc(), &drawn(rt.alloc(), true)?, OUT_OF_MEMORY)
}

/// Contours whose kinds are asked.
#[derive(Drop)]
struct Asked {
    contours: Vec<Vec<IntPoint<i32>>>,
}

impl Answers<Vec<ContourKind>, IntOutlineError> for Asked {
    fn answer(&self, alloc: Global) -> Result<Vec<ContourKind>, IntOutlineError> {
        contour_kinds(&self.contours, alloc)
    }
}

#[test]
fn kinds(rt: HostRuntime) -> Result<(), Fail> {
    let contours = paths(rt.alloc(), CONTOURS)?;
    expect_answered(rt.alloc(), &Asked { contours }, REFUSED)
}

/// A builder for outer boundaries in this style.
fn builder<I: OverlayInt>(alloc: Global, style: &IntOutlineStyle<I>) -> OutlineBuilder<I>
    ensures { result ≡ outer_of (style_of I.value style.now) }
{
    let join = Join::new(alloc, style.join, style.miter_min_turn);
    OutlineBuilder::new(style.outer_offset, join)
}

/// Adds the edges of the contour's outline, which the builder draws.
fn add<I: OverlayInt>(
    builder: &mut OutlineBuilder<I>,
    contour: &Vec<IntPoint<I>>,
    style: &IntOutlineStyle<I>,
    segments: &mut Vec<Segment<I>>,
) -> Result<(), IntOutlineError>
    requires { builder.old ≡ outer_of (style_of I.value style.now) }
    ensures { builder.new ≡ builder.old }
{
    contour.validate_outline(style)?;
    builder.build(contour, segments)?;
    Ok(())
}

/// Memory is refused for the edges of the contour's outline, and then they are added by the same builder. What is wanted
/// comes from another one, since a builder keeps a buffer for its arcs.
fn expect_built_again(
    alloc: Global,
    contour: &Vec<IntPoint<i32>>,
    style: &IntOutlineStyle<i32>,
    wanted: &[Segment<i32>],
    segments: &mut Vec<Segment<i32>>,
) -> Result<(), Fail> {
    let mut builder = builder(alloc, style);
    marks::begin(alloc)?;
    let first = add(&mut builder, contour, style, segments);
    marks::end(alloc)?;
    expect_added(first.is_ok(), segments, wanted)?;
    segments.truncate(1);
    add(&mut builder, contour, style, segments)?;
    expect_added(true, segments, wanted)
}

#[test]
fn building(rt: HostRuntime) -> Result<(), Fail> {
    let (contour, style) = (path(rt.alloc(), CONTOURS[0])?, round());
    let (mut wanted, mut segments) = (one_segment(rt.alloc())?, one_segment(rt.alloc())?);
    let mut other = builder(rt.alloc(), &style);
    add(&mut other, &contour, &style, &mut wanted)?;
    expect_built_again(rt.alloc(), &contour, &style, &wanted, &mut segments)
}
