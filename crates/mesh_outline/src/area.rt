//! Areas of contours.

ghost use Rattle.std.specs.Prelude.{◌≡◌, ◌↔◌, pos, ◌^◌, ◌≤◌, IsTrue, unsigned_abs};
ghost use Rattle.mesh_plane.specs.Bounds.{IsWithin};
ghost use Rattle.mesh_plane.specs.Plane.{cross};
ghost use Rattle.mesh_shapes.specs.Contours.{double_area as double_area_of};

use mesh_num::num::convert::widen;
use mesh_num::num::{IntNumber, IntPoint};

/// Twice the signed area of the closed contour through these points, in square grid units: above 0 where it runs
/// counterclockwise, and 0 for fewer than three points. No sum overflows.
pub fn double_area<I: IntNumber>(points: &[IntPoint<I>]) -> i128
    ensures { result ≡ double_area_of points.now }
{
    let Some((first, rest)) = points.split_first() else {
        return 0;
    };
    let mut area = 0i128;
    let mut previous = *first;
    for point in rest {
        area += cross_product(previous, *point);
        previous = *point;
    }
    area + cross_product(previous, *first)
}

fn cross_product<I: IntNumber>(p: IntPoint<I>, q: IntPoint<I>) -> i128
    ensures value { result ≡ cross p q }
    ensures size { unsigned_abs result ≤ 2 ^ 63 }
{
    widen(p.x) * widen(q.y) - widen(p.y) * widen(q.x)
}

/// Whether a double area, in squares of the grid, fits the wide type of a coordinate.
pub fn fits_wide<I: IntNumber>(double_area: i128) -> bool
    ensures { IsTrue result ↔ IsWithin I.Wide.half double_area }
{
    let half = wide_half::<I>();
    -half <= double_area && double_area < half
}

/// The first number past what the wide type of a coordinate holds.
fn wide_half<I: IntNumber>() -> i128
    ensures value { result ≡ pos I.Wide.half }
    ensures size { I.Wide.half ≤ 2 ^ 63 }
{
    let unit = widen(I::UNIT).unsigned_abs();
    (8 * unit * unit) as i128
}
