//! The plain edges of tables, segments and shapes.

use crate::plain::{Edge, Point};
use mesh_num::num::{IntNumber, IntPoint, WideNumber};
use mesh_num::shape::buffer::IntShapes;
use mesh_num::shape::segment::Segment;
use std::alloc::{AllocError, Global};

/// A coordinate.
pub fn wide<I: IntNumber>(number: I) -> i128 {
    number.to_wide().to_i128()
}

/// A point of the grid.
pub fn plain_point<I: IntNumber>(point: IntPoint<I>) -> Point {
    (wide(point.x), wide(point.y))
}

/// The points of a table's contour.
pub fn plain_points<I: IntNumber>(
    alloc: Global,
    spots: &[(I, I)],
) -> Result<Vec<Point>, AllocError> {
    let mut points = Vec::new(alloc);
    for (x, y) in spots {
        points.push((wide(*x), wide(*y)))?;
    }
    Ok(points)
}

/// The edges that segments stand for.
pub fn edges_of_segments<I: IntNumber>(
    alloc: Global,
    segments: &[Segment<I>],
) -> Result<Vec<Edge>, AllocError> {
    let mut edges = Vec::new(alloc);
    for segment in segments {
        let a = plain_point(segment.x_segment.a);
        let b = plain_point(segment.x_segment.b);
        edges.push(if segment.count > 0 { (a, b) } else { (b, a) })?;
    }
    Ok(edges)
}

fn push_contour<I: IntNumber>(
    edges: &mut Vec<Edge>,
    contour: &[IntPoint<I>],
) -> Result<(), AllocError> {
    let Some(last) = contour.last() else {
        return Ok(());
    };
    let mut before = plain_point(*last);
    for point in contour {
        let next = plain_point(*point);
        edges.push((before, next))?;
        before = next;
    }
    Ok(())
}

/// The edges of the contours of shapes.
pub fn edges_of_shapes<I: IntNumber>(
    alloc: Global,
    shapes: &IntShapes<I>,
) -> Result<Vec<Edge>, AllocError> {
    let mut edges = Vec::new(alloc);
    for shape in shapes {
        for contour in shape {
            push_contour(&mut edges, contour)?;
        }
    }
    Ok(edges)
}
