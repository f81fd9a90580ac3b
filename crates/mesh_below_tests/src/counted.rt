//! What split segments are, in plain words: how often they wind, how much more is counted from a point than to it,
//! whether two of them meet, and which edges may have been bent.

use mesh_below::lattice::{CountedSegment, LatticeEdge};
use mesh_test_support::plain::{Edge, Point, cross, crossing, minus, refined};
use std::alloc::{AllocError, Global};

/// An edge, and how often it counts.
pub type Counted = (Edge, i128);

/// The edge, plainly.
pub fn plain(e: LatticeEdge) -> Edge {
    let ((a, b), (c, d)) = e;
    (
        (i128::from(a), i128::from(b)),
        (i128::from(c), i128::from(d)),
    )
}

/// The plain edges.
pub fn plain_edges(alloc: Global, edges: &[LatticeEdge]) -> Result<Vec<Edge>, AllocError> {
    let mut found = Vec::new(alloc);
    for e in edges {
        found.push(plain(*e))?;
    }
    Ok(found)
}

/// Each edge as one that counts once.
pub fn once_each(alloc: Global, edges: &[Edge]) -> Result<Vec<Counted>, AllocError> {
    let mut found = Vec::new(alloc);
    for e in edges {
        found.push((*e, 1))?;
    }
    Ok(found)
}

/// The plain edges of segments, with their counts.
pub fn counted(alloc: Global, segments: &[CountedSegment]) -> Result<Vec<Counted>, AllocError> {
    let mut found = Vec::new(alloc);
    for s in segments {
        found.push((plain(s.0), s.1))?;
    }
    Ok(found)
}

/// Whether two segments share a point that isn't an end of both, by the shares of both where their lines cross.
pub fn meet(s: Edge, t: Edge) -> bool {
    let (a, b) = if s.0 < s.1 { s } else { (s.1, s.0) };
    let (p, r) = if t.0 < t.1 { t } else { (t.1, t.0) };
    let (v, w, gap) = (minus(b, a), minus(r, p), minus(p, a));
    let whole = cross(v, w);
    if whole == 0 {
        return cross(gap, v) == 0 && p < b && a < r;
    }
    let size = whole.wrapping_mul(whole.signum());
    let first = cross(gap, w).wrapping_mul(whole.signum());
    let second = cross(gap, v).wrapping_mul(whole.signum());
    let at_ends = (first == 0 || first == size) && (second == 0 || second == size);
    0 <= first && first <= size && 0 <= second && second <= size && !at_ends
}

/// How much more is counted from a point than to it.
pub fn excess(segments: &[Counted], v: Point) -> i128 {
    let mut sum = 0i128;
    for s in segments {
        if s.0.0 == v {
            sum = sum.wrapping_add(s.1);
        }
        if s.0.1 == v {
            sum = sum.wrapping_sub(s.1);
        }
    }
    sum
}

/// How often the segments wind round a point of the grid 2.
pub fn counted_winding(segments: &[Counted], q: Point) -> i128 {
    let mut sum = 0i128;
    for s in segments {
        sum = sum.wrapping_add(crossing(2, q, s.0).wrapping_mul(s.1));
    }
    sum
}

fn is_between(a: i128, z: i128, b: i128) -> bool {
    (a <= z && z <= b) || (b <= z && z <= a)
}

fn is_in_box(e: Edge, p: Point) -> bool {
    is_between(e.0.0, p.0, e.1.0) && is_between(e.0.1, p.1, e.1.1)
}

/// Whether a segment lies in the box of one of the edges.
pub fn is_boxed(edges: &[Edge], s: Edge) -> bool {
    for e in edges {
        if is_in_box(*e, s.0) && is_in_box(*e, s.1) {
            return true;
        }
    }
    false
}

/// Whether a segment lies in the box of an edge, but not on its line.
fn is_beside(e: Edge, s: Edge) -> bool {
    let v = minus(e.1, e.0);
    let is_on_line = cross(v, minus(s.0, e.0)) == 0 && cross(v, minus(s.1, e.0)) == 0;
    is_in_box(e, s.0) && is_in_box(e, s.1) && !is_on_line
}

/// Whether one of the segments lies in the box of an edge, but not on its line.
fn has_beside(e: Edge, segments: &[Counted]) -> bool {
    for s in segments {
        if is_beside(e, s.0) {
            return true;
        }
    }
    false
}

/// The edges that may have been bent: of the others, all segments in their boxes lie on their lines.
pub fn bent(alloc: Global, edges: &[Edge], segments: &[Counted]) -> Result<Vec<Edge>, AllocError> {
    let mut bent = Vec::new(alloc);
    for e in edges {
        if has_beside(*e, segments) {
            bent.push(*e)?;
        }
    }
    Ok(bent)
}

/// Whether a point of the grid 2 is in the box of one of the edges.
pub fn is_near(edges: &[Edge], q: Point) -> bool {
    for e in edges {
        if is_in_box((refined(2, e.0), refined(2, e.1)), q) {
            return true;
        }
    }
    false
}
