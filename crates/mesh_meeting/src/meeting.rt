//! Where two edges meet. The crossing is guessed with floats, and the guess taken where its remainder shows that it is
//! right.

ghost use Rattle.std.specs.Prelude.{◌≡◌, ◌↔◌, ◌^◌, ◌*◌, ◌<◌, ◌≤ℤ◌, false, ℤ, pos, neg_ℤ, ◌+ℤ◌, ◌-ℤ◌, ◌*ℤ◌, unsigned_abs};
ghost use Rattle.std.specs.Prelude.{IsTrue, IfSome, MatchOption};
ghost use Rattle.mesh_plane.specs.Bounds.{IsSmall, IsSafe};
ghost use Rattle.mesh_plane.specs.Plane.{minus, cross, turn};
ghost use Rattle.mesh_lattice.specs.Split.{AreClear, AreOpposite, IsBetween, IsInBox, IsInside, Meets};
ghost use Rattle.mesh_lattice.specs.Split.{crossing_at, rounded_crossing};
ghost use Rattle.mesh_meeting.specs.Small.{HasSmallEnds};

use crate::small::has_small_ends;
use crate::vectors::{cross, minus};
use mesh_lattice::exact;
use mesh_lattice::exact::is_end;
use mesh_lattice::lattice::{LatticeEdge, LatticePoint};
use std::num::{nearest_i64_to_f64, saturating_f64_to_i32};

/// How far the two ends of an edge lie beside the line of another, as turns.
type Sides = (i64, i64);

/// Those of the second edge beside the first. `turned` is the cross product of both.
fn sides_of(e: LatticeEdge, f: LatticeEdge, turned: i64) -> Sides
    requires first { HasSmallEnds e }
    requires second { HasSmallEnds f }
    requires turned { turned ≡ cross (minus e.1 e.0) (minus f.1 f.0) }
    ensures value { result ≡ (turn e.0 e.1 f.0, turn e.0 e.1 f.1) }
    ensures size { IsSafe (2 ^ 63) result }
{
    let start = cross(minus(e.1, e.0), minus(f.0, e.0));
    (start, start + turned)
}

fn are_opposite(s: Sides) -> bool
    ensures { IsTrue result ↔ AreOpposite s.0 s.1 }
{
    (s.0 < 0) != (s.1 < 0) && s.0 != 0 && s.1 != 0
}

fn is_in_range(low: i32, z: i32, high: i32) -> bool
    ensures { IsTrue result ↔ (low ≤ℤ z) × (z ≤ℤ high) }
{
    if z < low {
        return false;
    }
    z <= high
}

fn is_between(a: i32, z: i32, b: i32) -> bool
    ensures { IsTrue result ↔ IsBetween a z b }
{
    if b < a {
        return is_in_range(b, z, a);
    }
    is_in_range(a, z, b)
}

fn is_in_box(e: LatticeEdge, c: LatticePoint) -> bool
    ensures { IsTrue result ↔ IsInBox e c }
{
    if !is_between(e.0.0, c.0, e.1.0) {
        return false;
    }
    is_between(e.0.1, c.1, e.1.1)
}

/// Whether a point that lies so far beside an edge's line lies on the edge and is none of its ends.
fn is_inside(e: LatticeEdge, c: LatticePoint, beside: i64) -> bool
    requires { beside ≡ turn e.0 e.1 c }
    ensures { IsTrue result ↔ IsInside e c }
{
    if beside != 0 {
        return false;
    }
    if !is_in_box(e, c) {
        return false;
    }
    if is_end(c, e) {
        return false;
    }
    true
}

/// Whether `guess` is nearer to `way * height / whole` than a half.
fn is_nearest(way: i64, height: i64, whole: i64, guess: i32) -> bool
    requires way { IsSmall (2 ^ 31) way }
    requires height { IsSmall (2 ^ 63) height }
    requires whole { IsSmall (2 ^ 63) whole }
    ensures { IsTrue result → 2 * unsigned_abs ((way *ℤ height) -ℤ (guess *ℤ whole)) < unsigned_abs whole }
{
    let rest = way as i128 * height as i128 - guess as i128 * whole as i128;
    2 * rest.unsigned_abs() < whole.unsigned_abs() as u128
}

/// A coordinate of the crossing of an edge from `a` to `b` whose ends lie so far beside a line. It is about such a part of
/// the way along, and told where that suffices.
fn crossing_at(a: i32, b: i32, s: Sides, part: f64) -> Option<i32>
    requires a_small { IsSmall (2 ^ 30) a }
    requires b_small { IsSmall (2 ^ 30) b }
    requires parted { AreOpposite s.0 s.1 }
    requires height { IsSmall (2 ^ 63) s.0 }
    requires whole { IsSmall (2 ^ 63) (s.0 -ℤ s.1) }
    ensures { IfSome result (λ z. z ≡ crossing_at a b s.0 (s.0 -ℤ s.1)) }
{
    let way = b as i64 - a as i64;
    let near = part * nearest_i64_to_f64(way);
    let guess = saturating_f64_to_i32(near + if near < 0.0 { -0.5 } else { 0.5 });
    if is_nearest(way, s.0, s.0 - s.1, guess) {
        return Some((a as i64 + guess as i64) as i32);
    }
    None
}

/// Where two edges cross, if floats suffice to tell. The ends of the first lie so far beside the second.
fn rounded_crossing(e: LatticeEdge, s: Sides) -> Option<LatticePoint>
    requires small { HasSmallEnds e }
    requires parted { AreOpposite s.0 s.1 }
    requires height { IsSmall (2 ^ 63) s.0 }
    requires whole { IsSmall (2 ^ 63) (s.0 -ℤ s.1) }
    ensures { IfSome result (λ p. p ≡ (crossing_at e.0.0 e.1.0 s.0 (s.0 -ℤ s.1), crossing_at e.0.1 e.1.1 s.0 (s.0 -ℤ s.1))) }
{
    let part = nearest_i64_to_f64(s.0) / nearest_i64_to_f64(s.0 - s.1);
    let x = crossing_at(e.0.0, e.1.0, s, part)?;
    let y = crossing_at(e.0.1, e.1.1, s, part)?;
    Some((x, y))
}

/// Where two edges are to be split since they share a point inside one of them, if they do.
pub fn meeting(e: LatticeEdge, f: LatticeEdge) -> Option<LatticePoint>
    requires first { HasSmallEnds e }
    requires second { HasSmallEnds f }
    ensures { MatchOption result (AreClear e f) (Meets e f) }
{
    let turned = cross(minus(e.1, e.0), minus(f.1, f.0));
    let second = sides_of(e, f, turned);
    let first = sides_of(f, e, -turned);
    if are_opposite(second) && are_opposite(first) {
        if let Some(c) = rounded_crossing(e, first) {
            return Some(c);
        }
        return exact::meeting(e, f);
    }
    if is_inside(e, f.0, second.0) {
        return Some(f.0);
    }
    if is_inside(e, f.1, second.1) {
        return Some(f.1);
    }
    if is_inside(f, e.0, first.0) {
        return Some(e.0);
    }
    if is_inside(f, e.1, first.1) {
        return Some(e.1);
    }
    None
}

/// The same for any edges: in 64 bits where both have small coordinates, else in 128.
pub fn any_meeting(e: LatticeEdge, f: LatticeEdge) -> Option<LatticePoint>
    ensures { MatchOption result (AreClear e f) (Meets e f) }
{
    if has_small_ends(e) && has_small_ends(f) {
        return meeting(e, f);
    }
    exact::meeting(e, f)
}
