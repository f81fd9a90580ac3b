//! Boxes along the axes, and whether two of them keep a distance.

ghost use Rattle.std.specs.Prelude.{pos, ◌+ℤ◌, ◌≤ℤ◌, IsTrue};
ghost use Rattle.std.specs.List.{All};
ghost use Rattle.mesh_plane.specs.Plane.{Edge, Point};
ghost use Rattle.mesh_clearance.specs.Boxes.{IsBoxed, IsIn};
ghost use Rattle.mesh_nets.specs.Private.Outlines.{AreBoxesFar};

use mesh_lattice::lattice::{LatticeEdge, LatticePoint};

/// A box: its least corner, then its greatest.
pub type LatticeBox = (LatticePoint, LatticePoint);

/// The box that holds nothing.
const NOTHING: LatticeBox = ((i32::MAX, i32::MAX), (i32::MIN, i32::MIN));

/// The least box with all of a box and a point.
fn with_point(b: LatticeBox, p: LatticePoint) -> LatticeBox
    ensures holds { IsIn result p }
    ensures grows { (q : Point) → IsIn b q → IsIn result q }
{
    (
        (b.0.0.min(p.0), b.0.1.min(p.1)),
        (b.1.0.max(p.0), b.1.1.max(p.1)),
    )
}

/// The least box with all of a box and an edge.
fn with_edge(b: LatticeBox, e: LatticeEdge) -> LatticeBox
    ensures holds { IsBoxed result e }
    ensures grows { (f : Edge) → IsBoxed b f → IsBoxed result f }
{
    with_point(with_point(b, e.0), e.1)
}

/// The least box that holds edges.
pub fn box_around(edges: &[LatticeEdge]) -> LatticeBox
    ensures { All (IsBoxed result) edges.now }
{
    let mut around = NOTHING;
    for edge in edges {
        around = with_edge(around, *edge);
    }
    around
}

/// Whether a box lies so far beyond another one in x or in y. Then no two points of them are nearer.
pub fn are_far(b: LatticeBox, c: LatticeBox, distance: u32) -> bool
    ensures { IsTrue result → AreBoxesFar distance b c }
{
    if is_beyond(b.1.0, c.0.0, distance) {
        return true;
    }
    if is_beyond(c.1.0, b.0.0, distance) {
        return true;
    }
    if is_beyond(b.1.1, c.0.1, distance) {
        return true;
    }
    is_beyond(c.1.1, b.0.1, distance)
}

/// Whether a number is by at least the distance above another one.
fn is_beyond(low: i32, high: i32, distance: u32) -> bool
    ensures { IsTrue result → (low +ℤ pos distance) ≤ℤ high }
{
    low as i64 + distance as i64 <= high as i64
}
