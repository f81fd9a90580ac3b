//! The edges of strokes, as the builder adds them.

use crate::values::{style, vertices};
use i_overlay_mesh::variable_stroke::builder::VariableStrokeBuilder;
use i_overlay_mesh::variable_stroke::offset::IntVariableStrokeOffset;
use mesh_join::style::{IntStrokeVertex, IntVariableStrokeStyle};
use mesh_num::num::OverlayInt;
use mesh_num::shape::segment::Segment;
use mesh_test_support::edges::edges_of_segments;
use mesh_test_support::plain::Edge;
use std::alloc::Global;
use std::test::Fail;

/// Adds the edges of the stroke of a path to the segments that the vector holds.
fn add_stroke<I: OverlayInt>(
    alloc: Global,
    path: &Vec<IntStrokeVertex<I>>,
    style: IntVariableStrokeStyle,
    segments: &mut Vec<Segment<I>>,
) -> Result<(), Fail> {
    path.validate_variable_stroke()?;
    VariableStrokeBuilder::new(alloc, style).build(path, segments)?;
    Ok(())
}

/// The edges of the stroke of a path, which one field lists, with the arcs of another.
pub fn drawn<I: OverlayInt>(alloc: Global, path: &str, arc: &str) -> Result<Vec<Edge>, Fail> {
    let path = vertices::<I>(alloc, path)?;
    let mut segments = Vec::new(alloc);
    add_stroke(alloc, &path, style(alloc, arc)?, &mut segments)?;
    Ok(edges_of_segments(alloc, &segments)?)
}
