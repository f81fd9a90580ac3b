//! Strokes of variable width for which memory is refused.

use crate::calls::{Answers, Fills, TellsNearness, expect_answered, expect_filled, expect_told};
use i_overlay_mesh::variable_stroke::builder::VariableStrokeBuilder;
use i_overlay_mesh::variable_stroke::offset::IntVariableStrokeOffset;
use i_overlay_mesh::{IntNearnessError, IntVariableStrokeError};
use mesh_below::below::IntOverlayOptions;
use mesh_below::nearness::{NearShapes, SplitCount};
use mesh_join::arc::ArcOptions;
use mesh_join::style::{IntStrokeVertex, IntVariableStrokeStyle};
use mesh_num::num::{IntPoint, OverlayInt};
use mesh_num::shape::buffer::{FlatContoursBuffer, IntShapes};
use mesh_num::shape::segment::Segment;
use mesh_test_support::marks;
use mesh_test_support::refused::{expect_added, one_segment};
use std::alloc::{AllocError, Global};
use std::test::Fail;

const REFUSED: &IntVariableStrokeError = &IntVariableStrokeError::OutOfMemory;

const OUT_OF_MEMORY: &IntNearnessError = &IntNearnessError::OutOfMemory;

/// Two paths, of three chains: the second vertex of the second path holds the third.
fn tapered(alloc: Global) -> Result<Vec<Vec<IntStrokeVertex<i32>>>, AllocError> {
    let corner = vertices(alloc, &[(0, 0, 8), (40, 0, 8), (40, 40, 4)])?;
    let line = vertices(alloc, &[(0, 20, 4), (40, 20, 20), (42, 20, 4), (90, 20, 4)])?;
    let mut paths = Vec::with_capacity(alloc, 2)?;
    paths.push(corner)?;
    paths.push(line)?;
    Ok(paths)
}

/// A vertex at each of these points, of these widths.
fn vertices(
    alloc: Global,
    vertices: &[(i32, i32, i32)],
) -> Result<Vec<IntStrokeVertex<i32>>, AllocError> {
    let mut path = Vec::new(alloc);
    for (x, y, width) in vertices {
        path.push(IntStrokeVertex::new(IntPoint::new(*x, *y), *width))?;
    }
    Ok(path)
}

/// Arcs of eight steps a turn.
fn eighths() -> IntVariableStrokeStyle {
    IntVariableStrokeStyle::new().arc(ArcOptions::default())
}

/// The strokes of the paths, by the call that takes options or the one that takes none.
#[derive(Drop)]
struct Drawing {
    paths: Vec<Vec<IntStrokeVertex<i32>>>,
    is_custom: bool,
}

impl Answers<IntShapes<i32>, IntVariableStrokeError> for Drawing {
    fn answer(&self, alloc: Global) -> Result<IntShapes<i32>, IntVariableStrokeError> {
        self.paths.validate_variable_stroke()?;
        if self.is_custom {
            let options = IntOverlayOptions::new();
            self.paths.variable_stroke_custom(alloc, eighths(), options)
        } else {
            self.paths.variable_stroke(alloc, eighths())
        }
    }
}

impl Fills<IntVariableStrokeError> for Drawing {
    fn fill(
        &self,
        alloc: Global,
        buffer: &mut FlatContoursBuffer<i32>,
    ) -> Result<(), IntVariableStrokeError> {
        self.paths.validate_variable_stroke()?;
        if self.is_custom {
            let options = IntOverlayOptions::new();
            self.paths
                .variable_stroke_custom_into(alloc, eighths(), options, buffer)
        } else {
            self.paths.variable_stroke_into(alloc, eighths(), buffer)
        }
    }
}

impl TellsNearness<IntNearnessError> for Drawing {
    fn tell(
        &self,
        alloc: Global,
        count: &mut SplitCount,
    ) -> Result<NearShapes<i32>, IntNearnessError> {
        self.paths.validate_variable_stroke()?;
        let options = IntOverlayOptions::new();
        self.paths
            .variable_stroke_with_nearness(alloc, eighths(), options, count)
    }
}

/// The tapered paths.
fn drawn(alloc: Global, is_custom: bool) -> Result<Drawing, AllocError> {
    Ok(Drawing {
        paths: tapered(alloc)?,
        is_custom,
    })
}

#[test]
fn variable_stroke(rt: HostRuntime) -> Result<(), Fail> {
    expect_answered(rt.alloc(), &drawn(rt.alloc(), false)?, REFUSED)
}

#[test]
fn variable_stroke_custom(rt: HostRuntime) -> Result<(), Fail> {
    expect_answered(rt.alloc(), &drawn(rt.alloc(), true)?, REFUSED)
}

#[test]
fn variable_stroke_into(rt: HostRuntime) -> Result<(), Fail> {
    expect_filled(rt.alloc(), &drawn(rt.alloc(), false)?, REFUSED)
}

#[test]
fn variable_stroke_custom_into(rt: HostRuntime) -> Result<(), Fail> {
    expect_filled(rt.alloc(), &drawn(rt.alloc(), true)?, REFUSED)
}

#[test]
fn variable_stroke_with_nearness(rt: HostRuntime) -> Result<(), Fail> {
    expect_told(rt.alloc(), &drawn(rt.alloc(), true)?, OUT_OF_MEMORY)
}

/// Adds the edges of the path's stroke.
fn add<I: OverlayInt>(
    builder: &mut VariableStrokeBuilder<I>,
    path: &Vec<IntStrokeVertex<I>>,
    segments: &mut Vec<Segment<I>>,
) -> Result<(), IntVariableStrokeError> {
    path.validate_variable_stroke()?;
    builder.build(path, segments)?;
    Ok(())
}

/// Memory is refused for the edges of the path's stroke, and then they are added by the same builder. What is wanted
/// comes from another one, since a builder keeps a buffer for its arcs.
fn expect_built_again(
    alloc: Global,
    path: &Vec<IntStrokeVertex<i32>>,
    wanted: &[Segment<i32>],
    segments: &mut Vec<Segment<i32>>,
) -> Result<(), Fail> {
    let mut builder = VariableStrokeBuilder::new(alloc, eighths());
    marks::begin(alloc)?;
    let first = add(&mut builder, path, segments);
    marks::end(alloc)?;
    expect_added(first.is_ok(), segments, wanted)?;
    segments.truncate(1);
    add(&mut builder, path, segments)?;
    expect_added(true, segments, wanted)
}

#[test]
fn building(rt: HostRuntime) -> Result<(), Fail> {
    let path = vertices(rt.alloc(), &[(0, 0, 8), (40, 0, 8), (40, 40, 4)])?;
    let (mut wanted, mut segments) = (one_segment(rt.alloc())?, one_segment(rt.alloc())?);
    let mut other = VariableStrokeBuilder::new(rt.alloc(), eighths());
    add(&mut other, &path, &mut wanted)?;
    expect_built_again(rt.alloc(), &path, &wanted, &mut segments)
}
