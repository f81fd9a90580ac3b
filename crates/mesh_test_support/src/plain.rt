//! Crossings, windings and balance, plainly. The numbers of the tests are far from the ends of 128 bits, so no operation
//! wraps.

use std::alloc::{AllocError, Global};

/// A point of a grid.
pub type Point = (i128, i128);

/// A directed edge: its start and its end.
pub type Edge = (Point, Point);

/// The point, moved by the vector.
pub fn plus(p: Point, v: Point) -> Point {
    (p.0.wrapping_add(v.0), p.1.wrapping_add(v.1))
}

/// The vector from the second point to the first.
pub fn minus(p: Point, q: Point) -> Point {
    (p.0.wrapping_sub(q.0), p.1.wrapping_sub(q.1))
}

/// The cross product: above 0 where `w` points to the left of `v`.
pub fn cross(v: Point, w: Point) -> i128 {
    v.0.wrapping_mul(w.1).wrapping_sub(v.1.wrapping_mul(w.0))
}

/// The dot product.
pub fn dot(v: Point, w: Point) -> i128 {
    v.0.wrapping_mul(w.0).wrapping_add(v.1.wrapping_mul(w.1))
}

/// The point on the grid that is `m` times finer.
pub fn refined(m: i128, p: Point) -> Point {
    (m.wrapping_mul(p.0), m.wrapping_mul(p.1))
}

/// How an edge crosses the ray to the east from the point `q` of the grid that is `m` times finer.
pub fn crossing(m: i128, q: Point, edge: Edge) -> i128 {
    let (start, end) = (refined(m, edge.0), refined(m, edge.1));
    let turn = cross(minus(end, start), minus(q, start));
    if start.1 <= q.1 && q.1 < end.1 && turn > 0 {
        1
    } else if end.1 <= q.1 && q.1 < start.1 && turn < 0 {
        -1
    } else {
        0
    }
}

pub fn winding(m: i128, q: Point, edges: &[Edge]) -> i128 {
    let mut sum = 0i128;
    for edge in edges {
        sum = sum.wrapping_add(crossing(m, q, *edge));
    }
    sum
}

/// The edges from each point to the next one, last to first included.
pub fn closed(alloc: Global, points: &[Point]) -> Result<Vec<Edge>, AllocError> {
    let mut edges = Vec::new(alloc);
    let Some(last) = points.last() else {
        return Ok(edges);
    };
    let mut before = *last;
    for point in points {
        edges.push((before, *point))?;
        before = *point;
    }
    Ok(edges)
}

/// Whether each end of an edge is the start of as many edges as it is the end.
pub fn is_balanced(edges: &[Edge]) -> bool {
    for edge in edges {
        if !is_even(edge.0, edges) || !is_even(edge.1, edges) {
            return false;
        }
    }
    true
}

fn is_even(point: Point, edges: &[Edge]) -> bool {
    let mut starts = 0usize;
    let mut ends = 0usize;
    for edge in edges {
        if edge.0 == point {
            starts = starts.wrapping_add(1);
        }
        if edge.1 == point {
            ends = ends.wrapping_add(1);
        }
    }
    starts == ends
}
