//! Squared distances between points and edges, exactly. Coordinates may be any `i32`; no value passes 128 bits.

ghost use Rattle.std.specs.Prelude.{◌≡◌, ◌↔◌, ◌+◌, ◌*◌, ◌^◌, ◌<◌, ◌≤◌, pos, ◌+ℤ◌, ◌≤ℤ◌, ◌<ℤ◌, IsTrue};
ghost use Rattle.mesh_plane.specs.Bounds.{IsSafe, IsSmall};
ghost use Rattle.mesh_plane.specs.Plane.{dot, minus};
ghost use Rattle.mesh_clearance.specs.Clearance.{IsSeparation};

use mesh_lattice::exact::{Vector, do_cross, minus, product};
use mesh_lattice::lattice::{LatticeEdge, LatticePoint};

fn dot(v: Vector, w: Vector) -> i128
    requires v_small { IsSafe (2 ^ 32) v }
    requires w_small { IsSafe (2 ^ 32) w }
    ensures value { result ≡ dot v w }
    ensures size { IsSmall (2 ^ 65) result }
{
    product(v.0, w.0) + product(v.1, w.1)
}

/// The square of a vector's length.
pub fn square(v: Vector) -> u128
    requires { IsSafe (2 ^ 32) v }
    ensures value { pos result ≡ dot v v }
    ensures size { result < 2 ^ 65 }
{
    dot(v, v).unsigned_abs()
}

/// The square of `along` by `length`, rounded up.
fn square_by(along: u128, length: u128) -> u128
    requires some { 0 < length }
    requires small { along < 2 ^ 64 }
    ensures least { along * along ≤ result * length }
    ensures most { result * length < along * along + length }
{
    let square = along * along;
    let quotient = square / length;
    if quotient * length < square {
        quotient + 1
    } else {
        quotient
    }
}

/// The squared distance of a point from an edge, rounded down, where the edge's end is not nearer than its start. With
/// the foot of the point on the edge it is the squared distance from the start less the square of the way to the foot.
fn from_start(p: LatticePoint, e: LatticeEdge) -> u128
    requires { (dot (minus e.1 e.0) (minus p e.0) +ℤ dot (minus e.1 e.0) (minus p e.0)) ≤ℤ dot (minus e.1 e.0) (minus e.1 e.0) }
    ensures { IsSeparation (p, p) e result }
{
    let line = minus(e.1, e.0);
    let way = minus(p, e.0);
    let along = dot(line, way);
    if !is_less(0, along) {
        return square(way);
    }
    square(way) - square_by(along.unsigned_abs(), square(line))
}

pub fn is_less(a: i128, b: i128) -> bool
    ensures { IsTrue result ↔ a <ℤ b }
{
    a < b
}

/// The squared distance of a point from an edge, rounded down.
fn from_point(p: LatticePoint, e: LatticeEdge) -> u128
    ensures { IsSeparation (p, p) e result }
{
    let ahead = dot(minus(e.1, e.0), minus(p, e.0));
    let behind = dot(minus(e.0, e.1), minus(p, e.1));
    if is_less(behind, ahead) {
        return from_start(p, (e.1, e.0));
    }
    from_start(p, e)
}

/// The squared distance of two edges, rounded down. Edges that do not cross are as far apart as one of their ends is
/// from the other edge.
pub fn separation(e: LatticeEdge, f: LatticeEdge) -> u128
    ensures { IsSeparation e f result }
{
    if do_cross(e, f) {
        return 0;
    }
    let first = from_point(e.0, f).min(from_point(e.1, f));
    let second = from_point(f.0, e).min(from_point(f.1, e));
    first.min(second)
}
