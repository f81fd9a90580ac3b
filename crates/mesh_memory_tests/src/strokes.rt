//! Strokes for which memory is refused.

use crate::calls::{Answers, Fills, TellsNearness, expect_answered, expect_filled, expect_told};
use i_overlay_mesh::stroke::builder::StrokeBuilder;
use i_overlay_mesh::stroke::offset::IntStrokeOffset;
use i_overlay_mesh::{IntNearnessError, IntOutlineError};
use mesh_below::below::IntOverlayOptions;
use mesh_below::nearness::{NearShapes, SplitCount};
use mesh_join::arc::ArcOptions;
use mesh_join::style::{
    DEFAULT_MITER_MIN_TURN, IntLineCap, IntLineJoin, IntStrokeStyle, MathMode, StrokeSide,
};
use mesh_num::num::{Angle, IntPoint};
use mesh_num::shape::buffer::{FlatContoursBuffer, IntShapes};
use mesh_num::shape::segment::Segment;
use mesh_test_support::compared::{are_same_edges, expect_equal, expect_that};
use mesh_test_support::edges::edges_of_segments;
use mesh_test_support::lists::{path, paths};
use mesh_test_support::marks;
use mesh_test_support::refused::{expect_added, one_segment};
use std::alloc::{AllocError, Global};
use std::rc::RcSlice;
use std::test::Fail;

const REFUSED: &IntOutlineError = &IntOutlineError::OutOfMemory;

const OUT_OF_MEMORY: &IntNearnessError = &IntNearnessError::OutOfMemory;

/// Lines that cross, one of them with a corner.
const LINES: &[&[(i32, i32)]] = &[&[(-50, 0), (50, 0), (50, 50)], &[(0, -50), (0, 50)]];

/// Round joins, a round cap at the start, and an arrow's head at the end.
fn pointed(alloc: Global) -> Result<IntStrokeStyle<i32>, AllocError> {
    let head = RcSlice::from_vec(path(alloc, &[(0, -6), (6, 0), (0, 6)])?)?;
    Ok(styled(
        8,
        IntLineJoin::Round(ArcOptions::default()),
        IntLineCap::Round(ArcOptions::default()),
        IntLineCap::Custom(head),
    ))
}

// The checker takes long for a style that is changed step by step, so its fields are named at once.
/// The style with this width, these joins, and these caps at the start and at the end.
fn styled(
    width: i32,
    join: IntLineJoin,
    start_cap: IntLineCap<i32>,
    end_cap: IntLineCap<i32>,
) -> IntStrokeStyle<i32> {
    IntStrokeStyle {
        width,
        start_cap,
        end_cap,
        join,
        miter_min_turn: Angle::from_bits(DEFAULT_MITER_MIN_TURN),
        math: MathMode::Integer,
        side: StrokeSide::Both,
    }
}

/// The strokes of the lines in this style, by the call that takes options or the one that takes none.
#[derive(Drop)]
struct Drawing {
    lines: Vec<Vec<IntPoint<i32>>>,
    style: IntStrokeStyle<i32>,
    is_closed: bool,
    is_custom: bool,
}

impl Answers<IntShapes<i32>, IntOutlineError> for Drawing {
    fn answer(&self, alloc: Global) -> Result<IntShapes<i32>, IntOutlineError> {
        let (lines, style) = (&self.lines, &self.style);
        lines.validate_stroke(style)?;
        if self.is_custom {
            lines.stroke_custom(alloc, style, self.is_closed, IntOverlayOptions::new())
        } else {
            lines.stroke(alloc, style, self.is_closed)
        }
    }
}

impl Fills<IntOutlineError> for Drawing {
    fn fill(
        &self,
        alloc: Global,
        buffer: &mut FlatContoursBuffer<i32>,
    ) -> Result<(), IntOutlineError> {
        let (lines, style) = (&self.lines, &self.style);
        lines.validate_stroke(style)?;
        if self.is_custom {
            let options = IntOverlayOptions::new();
            lines.stroke_custom_into(alloc, style, self.is_closed, options, buffer)
        } else {
            lines.stroke_into(alloc, style, self.is_closed, buffer)
        }
    }
}

impl TellsNearness<IntNearnessError> for Drawing {
    fn tell(
        &self,
        alloc: Global,
        count: &mut SplitCount,
    ) -> Result<NearShapes<i32>, IntNearnessError> {
        let (lines, style) = (&self.lines, &self.style);
        lines.validate_stroke(style)?;
        lines.stroke_with_nearness(
            alloc,
            style,
            self.is_closed,
            IntOverlayOptions::new(),
            count,
        )
    }
}

/// The lines in the pointed style, open by the call that takes no options, and closed by the other.
fn drawn(alloc: Global, is_custom: bool) -> Result<Drawing, AllocError> {
    Ok(Drawing {
        lines: paths(alloc, LINES)?,
        style: pointed(alloc)?,
        is_closed: is_custom,
        is_custom,
    })
}

#[test]
fn stroke(rt: HostRuntime) -> Result<(), Fail> {
    expect_answered(rt.alloc(), &drawn(rt.alloc(), false)?, REFUSED)
}

#[test]
fn stroke_custom(rt: HostRuntime) -> Result<(), Fail> {
    expect_answered(rt.alloc(), &drawn(rt.alloc(), true)?, REFUSED)
}

#[test]
fn stroke_into(rt: HostRuntime) -> Result<(), Fail> {
    expect_filled(rt.alloc(), &drawn(rt.alloc(), false)?, REFUSED)
}

#[test]
fn stroke_custom_into(rt: HostRuntime) -> Result<(), Fail> {
    expect_filled(rt.alloc(), &drawn(rt.alloc(), true)?, REFUSED)
}

#[test]
fn stroke_with_nearness(rt: HostRuntime) -> Result<(), Fail> {
    expect_told(rt.alloc(), &drawn(rt.alloc(), false)?, OUT_OF_MEMORY)
}

/// Adds the edges of the line's stroke, by a builder of their own.
fn add(
    alloc: Global,
    line: &Vec<IntPoint<i32>>,
    style: &IntStrokeStyle<i32>,
    is_closed: bool,
    segments: &mut Vec<Segment<i32>>,
) -> Result<(), IntOutlineError> {
    line.validate_stroke(style)?;
    StrokeBuilder::new(alloc, style).build(line, is_closed, segments)?;
    Ok(())
}

/// Memory is refused for the edges of the line's stroke, and then they are added by the same builder. What is wanted
/// comes from another one, since a builder keeps a buffer for its arcs.
fn expect_built_again(
    alloc: Global,
    line: &Vec<IntPoint<i32>>,
    style: &IntStrokeStyle<i32>,
    wanted: &[Segment<i32>],
    segments: &mut Vec<Segment<i32>>,
) -> Result<(), Fail> {
    line.validate_stroke(style)?;
    let mut builder = StrokeBuilder::new(alloc, style);
    marks::begin(alloc)?;
    let first = builder.build(line, false, segments);
    marks::end(alloc)?;
    expect_added(first.is_ok(), segments, wanted)?;
    segments.truncate(1);
    builder.build(line, false, segments)?;
    expect_added(true, segments, wanted)
}

#[test]
fn building(rt: HostRuntime) -> Result<(), Fail> {
    let (line, style) = (path(rt.alloc(), LINES[0])?, pointed(rt.alloc())?);
    let (mut wanted, mut segments) = (one_segment(rt.alloc())?, one_segment(rt.alloc())?);
    add(rt.alloc(), &line, &style, false, &mut wanted)?;
    expect_built_again(rt.alloc(), &line, &style, &wanted, &mut segments)
}

/// Three sides of a square, and all four where the path is closed.
const SQUARE: &[(i32, i32)] = &[(0, 0), (100, 0), (100, 100), (0, 100)];

/// Square caps, and miters that are clipped at right angles, so that each corner is joined by three edges.
fn clipped() -> IntStrokeStyle<i32> {
    let join = IntLineJoin::Miter(Angle::from_bits(1_610_612_736));
    styled(40, join, IntLineCap::Square, IntLineCap::Square)
}

/// Whatever memory is refused, the square's stroke of so many edges is built in a vector that has this room. Then the
/// vector has the edges that are drawn with memory at hand, and its room still. A vector with no room is built in
/// beside it, which needs memory.
fn expect_built_in_room(
    alloc: Global,
    is_closed: bool,
    room: usize,
    count: usize,
) -> Result<(), Fail> {
    let (line, style) = (path(alloc, SQUARE)?, clipped());
    let mut wanted = Vec::new(alloc);
    add(alloc, &line, &style, is_closed, &mut wanted)?;
    let (mut segments, mut others) = (Vec::with_capacity(alloc, room)?, Vec::new(alloc));
    marks::begin(alloc)?;
    let first = add(alloc, &line, &style, is_closed, &mut segments);
    let second = add(alloc, &line, &style, is_closed, &mut others);
    marks::end(alloc)?;
    expect_that(first.is_ok(), &"room for the edges")?;
    expect_that(
        second.is_ok() || others.is_empty(),
        &"no room for the edges",
    )?;
    let found = (segments.len(), segments.capacity());
    expect_equal(&found, &(count, room), &"edges and room")?;
    let edges = edges_of_segments(alloc, &segments)?;
    let is_same = are_same_edges(edges, edges_of_segments(alloc, &wanted)?)?;
    expect_that(is_same, &segments)
}

/// Seven segments for each of three sides, and six more: two edges a side, five a corner, three a cap.
#[test]
fn building_open_in_room(rt: HostRuntime) -> Result<(), Fail> {
    expect_built_in_room(rt.alloc(), false, 7 * 3 + 6, 22)
}

/// Seven segments for each of four sides, which are all taken, and six more.
#[test]
fn building_closed_in_room(rt: HostRuntime) -> Result<(), Fail> {
    expect_built_in_room(rt.alloc(), true, 7 * 4 + 6, 28)
}
