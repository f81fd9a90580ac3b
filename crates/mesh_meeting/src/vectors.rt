//! Vectors between points whose coordinates are below 2^30 in size, so that cross products fit in 64 bits.

ghost use Rattle.std.specs.Prelude.{◌≡◌, ◌^◌, ◌-ℤ◌, ◌*ℤ◌};
ghost use Rattle.mesh_plane.specs.Bounds.{IsSmall, IsSafe};
ghost use Rattle.mesh_plane.specs.Plane.{minus, cross};

use mesh_lattice::lattice::LatticePoint;

/// A vector between two points.
pub type Vector = (i64, i64);

fn difference(a: i32, b: i32) -> i64
    requires a_small { IsSmall (2 ^ 30) a }
    requires b_small { IsSmall (2 ^ 30) b }
    ensures value { result ≡ a -ℤ b }
    ensures size { IsSmall (2 ^ 31) result }
{
    a as i64 - b as i64
}

/// The way from `q` to `p`.
pub fn minus(p: LatticePoint, q: LatticePoint) -> Vector
    requires p_small { IsSafe (2 ^ 30) p }
    requires q_small { IsSafe (2 ^ 30) q }
    ensures value { result ≡ minus p q }
    ensures size { IsSafe (2 ^ 31) result }
{
    (difference(p.0, q.0), difference(p.1, q.1))
}

fn product(a: i64, b: i64) -> i64
    requires a_small { IsSmall (2 ^ 31) a }
    requires b_small { IsSmall (2 ^ 31) b }
    ensures value { result ≡ a *ℤ b }
    ensures size { IsSmall (2 ^ 62) result }
{
    a * b
}

/// Above 0 where `w` points to the left of `v`, 0 where they are parallel. No component is above 2^31 grid units.
pub fn cross(v: Vector, w: Vector) -> i64
    requires v_small { IsSafe (2 ^ 31) v }
    requires w_small { IsSafe (2 ^ 31) w }
    ensures value { result ≡ cross v w }
    ensures size { IsSmall (2 ^ 63) result }
{
    product(v.0, w.1) - product(v.1, w.0)
}
