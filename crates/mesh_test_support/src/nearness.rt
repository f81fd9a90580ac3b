//! How near points lie to edges, plainly. Distance is the greater of both coordinates' differences, in 64ths of a grid
//! unit.

use crate::plain::{Edge, Point, cross, minus, refined};

/// The sum of the sizes of a vector's components.
fn extent(v: Point) -> i128 {
    let (x, y) = (
        v.0.wrapping_mul(v.0.signum()),
        v.1.wrapping_mul(v.1.signum()),
    );
    x.wrapping_add(y)
}

/// Whether a coordinate lies between two others, or passes them by at most `reach` 64ths.
fn is_between(reach: i128, first: i128, last: i128, at: i128) -> bool {
    let least = first.min(last).wrapping_sub(at).wrapping_mul(64);
    let past = at.wrapping_sub(first.max(last)).wrapping_mul(64);
    least <= reach && past <= reach
}

/// Whether the point of the grid `m` lies within `k` 64ths of the edge: in its box widened by so much, and in the band
/// beside its line. These six half-planes are the edge with a square round each of its points.
pub fn is_near_edge(k: u64, m: i128, edge: Edge, q: Point) -> bool {
    let (start, end) = (refined(m, edge.0), refined(m, edge.1));
    let reach = i128::from(k).wrapping_mul(m);
    let way = minus(end, start);
    let turn = cross(way, minus(q, start)).wrapping_mul(64);
    let beside = turn.wrapping_mul(turn.signum());
    is_between(reach, start.0, end.0, q.0)
        && is_between(reach, start.1, end.1, q.1)
        && beside <= reach.wrapping_mul(extent(way))
}

/// Whether the point of the grid `m` lies within `k` 64ths of one of the edges.
pub fn is_near_some(k: u64, m: i128, edges: &[Edge], q: Point) -> bool {
    for edge in edges {
        if is_near_edge(k, m, *edge, q) {
            return true;
        }
    }
    false
}
