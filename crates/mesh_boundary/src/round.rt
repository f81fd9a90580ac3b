//! The ends at a point where two segments end, or where two cross, in their order round it.

ghost use Rattle.std.specs.Prelude.{◌≡◌, ◌↔◌, ◌<◌, List, length, IfSome, IsTrue};
ghost use Rattle.std.specs.List.{All};
ghost use Rattle.mesh_plane.specs.Plane.{Edge};
ghost use Rattle.mesh_regions.specs.Star.{IsToLeft};
ghost use Rattle.mesh_boundary.specs.Private.Rounds.{AreFourRound, AreTurning, AreTwoRound};
ghost use Rattle.mesh_boundary.specs.Private.Stars.{AreAllAt, CountSplit, leaving};

use crate::stars::{End, edge_leaving};
use mesh_lattice::exact::{same_point, turn};
use mesh_lattice::lattice::{CountedSegment, LatticeEdge, LatticePoint};

/// The segment as it leaves a point at an end, if it leaves that point.
#[inline]
fn leaving_at(segments: &[CountedSegment], x: End, p: LatticePoint) -> Option<LatticeEdge>
    requires { x.0 < length segments.now }
    ensures edge { IfSome result (λ e. e ≡ (leaving segments.now x).0) }
    ensures start { IfSome result (λ e. e.0 ≡ p) }
{
    let e = edge_leaving(segments, x);
    if !same_point(e.0, p) {
        return None;
    }
    Some(e)
}

/// Both ends at a point where two segments end and no other.
pub fn two_round(segments: &[CountedSegment], star: &[End], p: LatticePoint) -> Option<(End, End)>
    requires { All (λ x. x.0 < length segments.now) star.now }
    ensures first { IfSome result (λ o. o.0.0 < length segments.now) }
    ensures second { IfSome result (λ o. o.1.0 < length segments.now) }
    ensures round { IfSome result (λ o. (es : List Edge) → CountSplit es segments.now
        → AreAllAt es segments.now p star.now → AreTwoRound es segments.now o.0 o.1) }
{
    if star.len() != 2 {
        return None;
    }
    let (x, y) = (star[0], star[1]);
    let _first = leaving_at(segments, x, p)?;
    let _second = leaving_at(segments, y, p)?;
    Some((x, y))
}

/// Whether the second of two segments that leave a point points to the left of the first.
#[inline]
fn is_to_left(e: LatticeEdge, f: LatticeEdge) -> bool
    ensures { IsTrue result ↔ IsToLeft e f }
{
    turn(e.0, e.1, f.1) > 0
}

/// Whether of four segments that leave a point each has the next one on its left, and the last one the first.
#[inline]
fn are_turning(a: LatticeEdge, b: LatticeEdge, c: LatticeEdge, d: LatticeEdge) -> bool
    ensures { IsTrue result → AreTurning a b c d }
{
    if !is_to_left(a, b) {
        return false;
    }
    if !is_to_left(b, c) {
        return false;
    }
    if !is_to_left(c, d) {
        return false;
    }
    is_to_left(d, a)
}

/// The four ends at a point where two segments cross and no other ends, counterclockwise. Of two that cross, the pieces are
/// listed one after the other, mostly.
pub fn four_round(
    segments: &[CountedSegment],
    star: &[End],
    p: LatticePoint,
) -> Option<(End, End, End, End)>
    requires { All (λ x. x.0 < length segments.now) star.now }
    ensures first { IfSome result (λ o. o.0.0 < length segments.now) }
    ensures second { IfSome result (λ o. o.1.0 < length segments.now) }
    ensures third { IfSome result (λ o. o.2.0 < length segments.now) }
    ensures fourth { IfSome result (λ o. o.3.0 < length segments.now) }
    ensures round { IfSome result (λ o. (es : List Edge) → CountSplit es segments.now
        → AreAllAt es segments.now p star.now → AreFourRound es segments.now o.0 o.1 o.2 o.3) }
{
    if star.len() != 4 {
        return None;
    }
    let (x, y, z, w) = (star[0], star[1], star[2], star[3]);
    let a = leaving_at(segments, x, p)?;
    let b = leaving_at(segments, y, p)?;
    let c = leaving_at(segments, z, p)?;
    let d = leaving_at(segments, w, p)?;
    if are_turning(a, c, b, d) {
        return Some((x, z, y, w));
    }
    if are_turning(a, d, b, c) {
        return Some((x, w, y, z));
    }
    None
}
