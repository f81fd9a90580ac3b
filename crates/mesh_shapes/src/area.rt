//! Areas of closed lists of points.

ghost use Rattle.std.specs.Prelude.{◌≡◌, ◌^◌, ◌<◌, ◌≤◌, ℤ, ◌*ℤ◌, unsigned_abs};
ghost use Rattle.mesh_plane.specs.Plane.{cross};
ghost use Rattle.mesh_shapes.specs.Contours.{double_area};

use mesh_lattice::lattice::LatticePoint;

fn long(a: i32, b: i32) -> i128
    ensures value { result ≡ a *ℤ b }
    ensures size { unsigned_abs result ≤ 2 ^ 62 }
{
    a as i128 * b as i128
}

/// Twice the area, with its sign, of the triangle of two points and the origin.
fn area_of(p: LatticePoint, q: LatticePoint) -> i128
    ensures value { result ≡ cross p q }
    ensures size { unsigned_abs result ≤ 2 ^ 63 }
{
    long(p.0, q.1) - long(p.1, q.0)
}

/// Twice the area that a closed list of points encloses, above 0 where it runs counterclockwise.
pub fn double_area(points: &[LatticePoint]) -> i128
    ensures value { result ≡ double_area points.now }
    ensures size { unsigned_abs result < 2 ^ 127 }
{
    if points.is_empty() {
        return 0;
    }
    let mut before = points[0];
    let mut sum: i128 = 0;
    for i in 1..points.len() {
        sum += area_of(before, points[i]);
        before = points[i];
    }
    sum + area_of(before, points[0])
}
