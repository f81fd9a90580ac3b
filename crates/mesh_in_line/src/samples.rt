//! Whether many edges lie in line.

use mesh_lattice::lattice::LatticeEdge;

/// In so many parts of all edges the longest level one and the longest upright one are looked at. Each part costs a look at
/// all edges.
const PARTS: usize = 3;

/// Of fewer edges all pairs are found and cut soon, in line or not.
const FEW_EDGES: usize = 64;

/// Cutting in line serves where so many edges lie in line with a long one, itself among them.
const MANY_IN_LINE: usize = 5;

/// A level edge and an upright one. Where there is none, both ends are one point.
#[derive(Copy, Clone)]
struct LongEdges {
    level: LatticeEdge,
    upright: LatticeEdge,
}

/// The longest of the level edges, and of the upright ones.
fn long_edges(edges: &[LatticeEdge]) -> LongEdges {
    let mut found = LongEdges {
        level: ((0, 0), (0, 0)),
        upright: ((0, 0), (0, 0)),
    };
    let mut level: u32 = 0;
    let mut upright: u32 = 0;
    for e in edges {
        if e.0.1 == e.1.1 {
            let length = e.0.0.abs_diff(e.1.0);
            if length > level {
                level = length;
                found.level = *e;
            }
        } else if e.0.0 == e.1.0 {
            let length = e.0.1.abs_diff(e.1.1);
            if length > upright {
                upright = length;
                found.upright = *e;
            }
        }
    }
    found
}

/// Whether many edges share more than a point with one of two. No edge does with one whose ends are one point.
fn has_many(edges: &[LatticeEdge], long: LongEdges) -> bool {
    let LongEdges { level, upright } = long;
    if level.0.0 == level.1.0 && upright.0.1 == upright.1.1 {
        return false;
    }
    let (west, east) = (level.0.0.min(level.1.0), level.0.0.max(level.1.0));
    let (south, north) = (upright.0.1.min(upright.1.1), upright.0.1.max(upright.1.1));
    let mut levels: usize = 0;
    let mut uprights: usize = 0;
    for e in edges {
        if e.0.1 == e.1.1 {
            if e.0.1 == level.0.1 && e.0.0.min(e.1.0) < east && west < e.0.0.max(e.1.0) {
                levels = levels.saturating_add(1);
            }
        } else if e.0.0 == e.1.0 && e.0.0 == upright.0.0 {
            if e.0.1.min(e.1.1) < north && south < e.0.1.max(e.1.1) {
                uprights = uprights.saturating_add(1);
            }
        }
    }
    levels >= MANY_IN_LINE || uprights >= MANY_IN_LINE
}

/// Whether many edges lie in line, as a few long ones tell.
pub fn are_many_in_line(edges: &[LatticeEdge]) -> bool {
    if edges.len() < FEW_EDGES {
        return false;
    }
    let size = edges.len() / PARTS;
    for part in 0..PARTS {
        let long = long_edges(&edges[part * size..part * size + size]);
        if has_many(edges, long) {
            return true;
        }
    }
    false
}
