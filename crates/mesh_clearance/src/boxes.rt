//! Boxes along the axes, and how far edges in two of them are apart at least.

ghost use Rattle.std.specs.Prelude.{◌^◌};
ghost use Rattle.std.specs.List.{All};
ghost use Rattle.mesh_plane.specs.Bounds.{IsSafe, IsSmall};
ghost use Rattle.mesh_plane.specs.Plane.{Edge, Point};
ghost use Rattle.mesh_clearance.specs.Boxes.{AreBoxesApart, IsBoxed, IsGap, IsIn};

use crate::distance::{is_less, square};
use mesh_lattice::exact::{Vector, minus};
use mesh_lattice::lattice::{LatticeEdge, LatticePoint};

/// A box: its least corner, then its greatest.
pub type LatticeBox = (LatticePoint, LatticePoint);

/// The box that holds nothing.
const NOTHING: LatticeBox = ((i32::MAX, i32::MAX), (i32::MIN, i32::MIN));

/// The least box with all of a box and a point.
fn with_point(b: LatticeBox, p: LatticePoint) -> LatticeBox
    ensures holds { IsIn result p }
    ensures grows { (q : Point) → IsIn b q → IsIn result q }
{
    (
        (b.0.0.min(p.0), b.0.1.min(p.1)),
        (b.1.0.max(p.0), b.1.1.max(p.1)),
    )
}

/// The least box with all of a box and an edge.
fn with_edge(b: LatticeBox, e: LatticeEdge) -> LatticeBox
    ensures holds { IsBoxed result e }
    ensures grows { (f : Edge) → IsBoxed b f → IsBoxed result f }
{
    with_point(with_point(b, e.0), e.1)
}

/// The box of an edge.
pub fn box_of(e: LatticeEdge) -> LatticeBox
    ensures { IsBoxed result e }
{
    with_edge(NOTHING, e)
}

/// The least box that holds edges.
pub fn box_around(edges: &[LatticeEdge]) -> LatticeBox
    ensures { All (IsBoxed result) edges.now }
{
    let mut around = NOTHING;
    for edge in edges {
        around = with_edge(around, *edge);
    }
    around
}

/// What is nearest to 0 of the numbers from `least` to `most`.
fn gap(least: i128, most: i128) -> i128
    requires least_small { IsSmall (2 ^ 32) least }
    requires most_small { IsSmall (2 ^ 32) most }
    ensures value { IsGap least most result }
    ensures size { IsSmall (2 ^ 32) result }
{
    if is_less(0, least) {
        return least;
    }
    if is_less(most, 0) {
        return most;
    }
    0
}

/// What is nearest to 0, in each coordinate, of the ways from `least` to `most`.
fn shortest(least: Vector, most: Vector) -> Vector
    requires least_small { IsSafe (2 ^ 32) least }
    requires most_small { IsSafe (2 ^ 32) most }
    ensures x { IsGap least.0 most.0 result.0 }
    ensures y { IsGap least.1 most.1 result.1 }
    ensures size { IsSafe (2 ^ 32) result }
{
    (gap(least.0, most.0), gap(least.1, most.1))
}

/// The squared distance of two boxes.
pub fn box_distance(b: LatticeBox, c: LatticeBox) -> u128
    ensures { AreBoxesApart result b c }
{
    square(shortest(minus(c.0, b.1), minus(c.1, b.0)))
}
