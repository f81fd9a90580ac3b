//! Exact geometry on the grid that is twice as fine, on which the midpoints of segments stand.

ghost use Rattle.std.specs.Prelude.{◌≡◌, ◌^◌, ◌&&◌, true, ℤ, pos, ◌+ℤ◌, ◌-ℤ◌, ◌*ℤ◌, int_le, int_lt, IsTrue};
ghost use Rattle.mesh_plane.specs.Bounds.{IsSmall, IsSafe};
ghost use Rattle.mesh_plane.specs.Plane.{minus, cross, turn};
ghost use Rattle.mesh_plane.specs.Winding.{crossing, refined};
ghost use Rattle.mesh_lattice.specs.Boundary.{middle};

use crate::lattice::{LatticeEdge, LatticePoint};
use std::marker::Model;

/// A point on the fine grid. Contracts see the pair of its coordinates, each below 2^33 in size.
#[derive(Copy, Clone, PartialEq, Eq, PartialOrd, Ord)]
pub struct FinePoint {
    x: i64,
    y: i64,
}

impl Model for FinePoint {
    ghost use Rattle.std.specs.Prelude.{ℤ, ◌^◌};
    ghost use Rattle.mesh_plane.specs.Bounds.{IsSafe};

    ghost Value = { ℤ × ℤ };

    ghost view = { λ p. (p.x, p.y) };

    ghost invariant = { λ p. IsSafe (2 ^ 33) (p.x, p.y) };

    ghost inverse = { λ v. record { x = v.0; y = v.1 } };
}

impl FinePoint {
    /// The point's height.
    pub fn height(self) -> i64
        ensures { result ≡ self.1 }
    {
        self.y
    }
}

/// A vector between two points of the fine grid.
type FineVector = (i128, i128);

fn twice(a: i32) -> i64
    ensures value { result ≡ pos 2 *ℤ a }
    ensures size { IsSmall (2 ^ 33) result }
{
    2 * a as i64
}

fn sum(a: i32, b: i32) -> i64
    ensures value { result ≡ a +ℤ b }
    ensures size { IsSmall (2 ^ 33) result }
{
    a as i64 + b as i64
}

/// The point on the fine grid.
pub fn doubled(p: LatticePoint) -> FinePoint
    ensures { result ≡ refined 2 p }
{
    FinePoint {
        x: twice(p.0),
        y: twice(p.1),
    }
}

/// The midpoint of an edge.
pub fn middle(e: LatticeEdge) -> FinePoint
    ensures { result ≡ middle e }
{
    FinePoint {
        x: sum(e.0.0, e.1.0),
        y: sum(e.0.1, e.1.1),
    }
}

fn difference(a: i64, b: i64) -> i128
    requires a_small { IsSmall (2 ^ 33) a }
    requires b_small { IsSmall (2 ^ 33) b }
    ensures value { result ≡ a -ℤ b }
    ensures size { IsSmall (2 ^ 34) result }
{
    a as i128 - b as i128
}

fn minus(p: FinePoint, q: FinePoint) -> FineVector
    ensures value { result ≡ minus p q }
    ensures size { IsSafe (2 ^ 34) result }
{
    (difference(p.x, q.x), difference(p.y, q.y))
}

fn product(a: i128, b: i128) -> i128
    requires a_small { IsSmall (2 ^ 34) a }
    requires b_small { IsSmall (2 ^ 34) b }
    ensures value { result ≡ a *ℤ b }
    ensures size { IsSmall (2 ^ 68) result }
{
    a * b
}

fn cross(v: FineVector, w: FineVector) -> i128
    requires v_small { IsSafe (2 ^ 34) v }
    requires w_small { IsSafe (2 ^ 34) w }
    ensures value { result ≡ cross v w }
    ensures size { IsSmall (2 ^ 69) result }
{
    product(v.0, w.1) - product(v.1, w.0)
}

fn turn(p: FinePoint, r: FinePoint, q: FinePoint) -> i128
    ensures value { result ≡ turn p r q }
    ensures size { IsSmall (2 ^ 69) result }
{
    cross(minus(r, p), minus(q, p))
}

/// Whether the height of the point lies in the range from the height of `p` up to that of `r`, the latter excluded.
fn spans(p: FinePoint, q: FinePoint, r: FinePoint) -> bool
    ensures { result ≡ (int_le p.1 q.1 && int_lt q.1 r.1) }
{
    p.y <= q.y && q.y < r.y
}

fn lies_west(q: FinePoint, p: FinePoint, r: FinePoint) -> bool
    ensures { result ≡ (int_lt q.0 p.0 && int_lt q.0 r.0) }
{
    q.x < p.x && q.x < r.x
}

fn lies_east(q: FinePoint, p: FinePoint, r: FinePoint) -> bool
    ensures { result ≡ (int_le p.0 q.0 && int_le r.0 q.0) }
{
    p.x <= q.x && r.x <= q.x
}

/// Whether the line from `p` up to `r`, which passes the height of the point, passes it to the east. Where both ends
/// lie to one side of the point, that tells, without a product.
fn is_west_of(q: FinePoint, p: FinePoint, r: FinePoint) -> bool
    requires { (int_le p.1 q.1 && int_lt q.1 r.1) ≡ true }
    ensures { result ≡ int_lt (pos 0) (turn p r q) }
{
    if lies_west(q, p, r) {
        return true;
    }
    if lies_east(q, p, r) {
        return false;
    }
    turn(p, r, q) > 0
}

/// Whether the point is at least as high as `p`.
fn is_low(q: FinePoint, p: FinePoint) -> bool
    ensures { result ≡ int_le p.1 q.1 }
{
    p.y <= q.y
}

/// Whether both ends of an edge are above the point, or neither is. So it is with most edges, and they cross nothing.
fn is_past(q: FinePoint, p: FinePoint, r: FinePoint) -> bool
    ensures { IsTrue result → crossing q p r ≡ pos 0 }
{
    if is_low(q, p) {
        return is_low(q, r);
    }
    !is_low(q, r)
}

/// How the edge from `p` to `r` crosses the ray from the point to the east: 1 upwards, -1 downwards, else 0.
pub fn crossing(q: FinePoint, p: FinePoint, r: FinePoint) -> i128
    ensures value { result ≡ crossing q p r }
    ensures size { IsSmall 2 result }
{
    if is_past(q, p, r) {
        return 0;
    }
    if spans(p, q, r) {
        if is_west_of(q, p, r) {
            return 1;
        }
        return 0;
    }
    if spans(r, q, p) {
        if is_west_of(q, r, p) {
            return -1;
        }
        return 0;
    }
    0
}
