//! The edges of strokes, as the builder adds them.

use crate::styles::{StyleRow, widened};
use i_overlay_mesh::stroke::builder::StrokeBuilder;
use i_overlay_mesh::stroke::offset::IntStrokeOffset;
use mesh_join::style::IntStrokeStyle;
use mesh_num::num::{IntPoint, OverlayInt};
use mesh_num::shape::segment::Segment;
use mesh_test_support::edges::edges_of_segments;
use mesh_test_support::plain::{Edge, Point, closed};
use std::alloc::{AllocError, Global};
use std::test::Fail;

/// The segments of the stroke of a path, after those that the vector holds.
pub fn add_stroke<I: OverlayInt>(
    alloc: Global,
    path: &Vec<IntPoint<I>>,
    is_closed: bool,
    style: &IntStrokeStyle<I>,
    segments: &mut Vec<Segment<I>>,
) -> Result<(), Fail> {
    path.validate_stroke(style)?;
    StrokeBuilder::new(alloc, style).build(path, is_closed, segments)?;
    Ok(())
}

/// The edges of the stroke of a path of the width `I`.
pub fn drawn<I: OverlayInt + From<i16>>(
    alloc: Global,
    spots: &[(i16, i16)],
    is_closed: bool,
    row: StyleRow,
) -> Result<Vec<Edge>, Fail> {
    let points = widened::<I>(alloc, spots)?;
    let style = row.style::<I>(alloc)?;
    let mut segments = Vec::new(alloc);
    add_stroke(alloc, &points, is_closed, &style, &mut segments)?;
    Ok(edges_of_segments(alloc, &segments)?)
}

/// The edges round closed lists of points.
pub fn loops(alloc: Global, lists: &[&[Point]]) -> Result<Vec<Edge>, AllocError> {
    let mut edges = Vec::new(alloc);
    for points in lists {
        for edge in &closed(alloc, points)? {
            edges.push(*edge)?;
        }
    }
    Ok(edges)
}
