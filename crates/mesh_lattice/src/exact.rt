//! Exact tests of edges against each other. Coordinates may be any `i32`; no value passes 128 bits.

ghost use Rattle.std.specs.Prelude.{◌≡◌, ◌↔◌, ◌⊎◌, ◌≤ℤ◌, ◌<ℤ◌, ◌+◌, ◌*◌, ◌/◌, ◌^◌, ◌<◌, ℤ, pos, ◌+ℤ◌, ◌-ℤ◌, ◌*ℤ◌};
ghost use Rattle.std.specs.Prelude.{unsigned_abs};
ghost use Rattle.std.specs.Prelude.{IsTrue, MatchOption};
ghost use Rattle.mesh_plane.specs.Bounds.{IsSmall, IsSafe};
ghost use Rattle.mesh_plane.specs.Order.{point_lt};
ghost use Rattle.mesh_plane.specs.Plane.{Point, minus, cross, turn};
ghost use Rattle.mesh_plane.specs.Winding.{same_point};
ghost use Rattle.mesh_lattice.specs.Split.{same_edge, is_end, IsBetween, IsInBox, IsInside, AreOpposite, IsCrossing};
ghost use Rattle.mesh_lattice.specs.Split.{rounded_quotient, crossing_at, rounded_crossing, Meets};
ghost use Rattle.mesh_lattice.specs.Split.{AreClear};

use crate::lattice::{LatticeEdge, LatticePoint};

/// A vector between two points.
pub type Vector = (i128, i128);

fn difference(a: i32, b: i32) -> i128
    ensures value { result ≡ a -ℤ b }
    ensures size { IsSmall (2 ^ 32) result }
{
    a as i128 - b as i128
}

/// The way from `q` to `p`.
pub fn minus(p: LatticePoint, q: LatticePoint) -> Vector
    ensures value { result ≡ minus p q }
    ensures size { IsSafe (2 ^ 32) result }
{
    (difference(p.0, q.0), difference(p.1, q.1))
}

/// The product of two coordinates of ways, each of at most 2^32 grid units, without a wrap.
pub fn product(a: i128, b: i128) -> i128
    requires a_small { IsSmall (2 ^ 32) a }
    requires b_small { IsSmall (2 ^ 32) b }
    ensures value { result ≡ a *ℤ b }
    ensures size { IsSmall (2 ^ 64) result }
{
    a * b
}

/// Above 0 where `w` points to the left of `v`, 0 where they are parallel. No component is above 2^32 grid units.
pub fn cross(v: Vector, w: Vector) -> i128
    requires v_small { IsSafe (2 ^ 32) v }
    requires w_small { IsSafe (2 ^ 32) w }
    ensures value { result ≡ cross v w }
    ensures size { IsSmall (2 ^ 65) result }
{
    product(v.0, w.1) - product(v.1, w.0)
}

/// Above 0 where `q` lies to the left of the line from `p` to `r`, 0 on the line.
pub fn turn(p: LatticePoint, r: LatticePoint, q: LatticePoint) -> i128
    ensures value { result ≡ turn p r q }
    ensures size { IsSmall (2 ^ 65) result }
{
    cross(minus(r, p), minus(q, p))
}

fn is_between(a: i32, z: i32, b: i32) -> bool
    ensures { IsTrue result ↔ IsBetween a z b }
{
    if b < a {
        return is_in_range(b, z, a);
    }
    is_in_range(a, z, b)
}

fn is_in_range(low: i32, z: i32, high: i32) -> bool
    ensures { IsTrue result ↔ (low ≤ℤ z) × (z ≤ℤ high) }
{
    if z < low {
        return false;
    }
    z <= high
}

fn is_in_box(e: LatticeEdge, c: LatticePoint) -> bool
    ensures { IsTrue result ↔ IsInBox e c }
{
    if !is_between(e.0.0, c.0, e.1.0) {
        return false;
    }
    is_between(e.0.1, c.1, e.1.1)
}

/// Whether the range from `a` to `b` lies below that from `p` to `r`.
fn is_range_below(a: i32, b: i32, p: i32, r: i32) -> bool
    ensures { IsTrue result → (z : ℤ) → IsBetween a z b → IsBetween p z r → ⊥ }
{
    a.max(b) < p.min(r)
}

/// Whether the range from `a` to `b` and that from `p` to `r` have no number in common.
fn are_ranges_apart(a: i32, b: i32, p: i32, r: i32) -> bool
    ensures { IsTrue result → (z : ℤ) → IsBetween a z b → IsBetween p z r → ⊥ }
{
    if is_range_below(a, b, p, r) {
        return true;
    }
    is_range_below(p, r, a, b)
}

/// Whether the boxes of two edges have no point in common.
pub fn are_boxes_apart(e: LatticeEdge, f: LatticeEdge) -> bool
    ensures { IsTrue result → (c : Point) → IsInBox e c → IsInBox f c → ⊥ }
{
    if are_ranges_apart(e.0.0, e.1.0, f.0.0, f.1.0) {
        return true;
    }
    are_ranges_apart(e.0.1, e.1.1, f.0.1, f.1.1)
}

/// Whether two points are one.
pub fn same_point(p: LatticePoint, q: LatticePoint) -> bool
    ensures { result ≡ same_point p q }
{
    p.0 == q.0 && p.1 == q.1
}

/// Whether two edges have the same start and the same end.
pub fn same_edge(e: LatticeEdge, f: LatticeEdge) -> bool
    ensures { result ≡ same_edge e f }
{
    same_point(e.0, f.0) && same_point(e.1, f.1)
}

/// Whether the first point comes before the second, by `x`, then `y`.
pub fn is_before(p: LatticePoint, q: LatticePoint) -> bool
    ensures { result ≡ point_lt p q }
{
    p.0 < q.0 || (p.0 == q.0 && p.1 < q.1)
}

/// Whether the point is one of the edge's ends.
pub fn is_end(c: LatticePoint, e: LatticeEdge) -> bool
    ensures { result ≡ is_end c e }
{
    same_point(c, e.0) || same_point(c, e.1)
}

/// Whether a point that lies so far beside an edge's line lies on the edge and is none of its ends.
fn is_inside(e: LatticeEdge, c: LatticePoint, beside: i128) -> bool
    requires { beside ≡ turn e.0 e.1 c }
    ensures { IsTrue result ↔ IsInside e c }
{
    if beside != 0 {
        return false;
    }
    if !is_in_box(e, c) {
        return false;
    }
    if is_end(c, e) {
        return false;
    }
    true
}

/// How far the two ends of an edge lie beside a line, as turns.
type Sides = (i128, i128);

fn sides_of(e: LatticeEdge, f: LatticeEdge) -> Sides
    ensures value { result ≡ (turn e.0 e.1 f.0, turn e.0 e.1 f.1) }
    ensures size { IsSafe (2 ^ 65) result }
{
    (turn(e.0, e.1, f.0), turn(e.0, e.1, f.1))
}

fn are_opposite(s: Sides) -> bool
    ensures { IsTrue result ↔ AreOpposite s.0 s.1 }
{
    if s.0 < 0 {
        return s.1 > 0;
    }
    if s.0 == 0 {
        return false;
    }
    s.1 < 0
}

/// Whether both ends lie on one side, and none on the line.
fn are_alike(s: Sides) -> bool
    ensures { IsTrue result → ((pos 0 <ℤ s.0) × (pos 0 <ℤ s.1)) ⊎ ((s.0 <ℤ pos 0) × (s.1 <ℤ pos 0)) }
{
    (s.0 > 0 && s.1 > 0) || (s.0 < 0 && s.1 < 0)
}

/// Whether the line of each edge parts the ends of the other.
pub fn do_cross(e: LatticeEdge, f: LatticeEdge) -> bool
    ensures { IsTrue result ↔ IsCrossing e f }
{
    if !are_opposite(sides_of(e, f)) {
        return false;
    }
    are_opposite(sides_of(f, e))
}

fn rounded_size(n: u128, d: u128) -> u128
    requires n_small { n < 2 ^ 100 }
    requires d_small { d < 2 ^ 100 }
    requires nonzero { 0 < d }
    ensures { result ≡ (2 * n + d) / (2 * d) }
{
    (2 * n + d) / (2 * d)
}

/// A number and what it is to be divided by.
type Ratio = (i128, i128);

fn rounded(r: Ratio) -> i128
    requires small { IsSafe (2 ^ 100) r }
    requires nonzero { 0 < unsigned_abs r.1 }
    ensures { result ≡ rounded_quotient r.0 r.1 }
{
    let size = rounded_size(r.0.unsigned_abs(), r.1.unsigned_abs()) as i128;
    if (r.0 < 0) == (r.1 < 0) { size } else { -size }
}

fn long_product(a: i128, b: i128) -> i128
    requires a_small { IsSmall (2 ^ 32) a }
    requires b_small { IsSmall (2 ^ 66) b }
    ensures value { result ≡ a *ℤ b }
    ensures size { IsSmall (2 ^ 98) result }
{
    a * b
}

fn crossing_ratio(a: i32, b: i32, s: Sides) -> Ratio
    requires { IsSafe (2 ^ 65) s }
    ensures value { result ≡ ((a *ℤ (s.0 -ℤ s.1)) +ℤ ((b -ℤ a) *ℤ s.0), s.0 -ℤ s.1) }
    ensures size { IsSafe (2 ^ 100) result }
{
    let d = s.0 - s.1;
    (
        long_product(a as i128, d) + long_product(difference(b, a), s.0),
        d,
    )
}

fn crossing_at(a: i32, b: i32, s: Sides) -> i32
    requires parted { AreOpposite s.0 s.1 }
    requires small { IsSafe (2 ^ 65) s }
    ensures { result ≡ crossing_at a b s.0 (s.0 -ℤ s.1) }
{
    rounded(crossing_ratio(a, b, s)) as i32
}

/// Where two edges that cross do so, each coordinate rounded to the nearest, halves away from zero. The ends of the
/// first lie so far beside the second.
fn rounded_crossing(e: LatticeEdge, f: LatticeEdge, s: Sides) -> LatticePoint
    requires parted { AreOpposite s.0 s.1 }
    requires sides { s ≡ (turn f.0 f.1 e.0, turn f.0 f.1 e.1) }
    requires small { IsSafe (2 ^ 65) s }
    ensures { result ≡ rounded_crossing e f }
{
    (crossing_at(e.0.0, e.1.0, s), crossing_at(e.0.1, e.1.1, s))
}

/// Where two edges are to be split since they share a point inside one of them, if they do.
pub fn meeting(e: LatticeEdge, f: LatticeEdge) -> Option<LatticePoint>
    ensures { MatchOption result (AreClear e f) (Meets e f) }
{
    if are_boxes_apart(e, f) {
        return None;
    }
    let second = sides_of(e, f);
    if are_alike(second) {
        return None;
    }
    let first = sides_of(f, e);
    if is_inside(e, f.0, second.0) {
        return Some(f.0);
    }
    if is_inside(e, f.1, second.1) {
        return Some(f.1);
    }
    if is_inside(f, e.0, first.0) {
        return Some(e.0);
    }
    if is_inside(f, e.1, first.1) {
        return Some(e.1);
    }
    if !are_opposite(second) {
        return None;
    }
    if !are_opposite(first) {
        return None;
    }
    Some(rounded_crossing(e, f, first))
}
