//! Points beside a way, and points in the safe range.

ghost use Rattle.std.specs.Prelude.{◌≡◌, ◌≢◌, ◌↔◌, ◌^◌, ℤ, pos, unsigned_abs, IsTrue, IsNone, IfSome};
ghost use Rattle.std.specs.List.{All};
ghost use Rattle.mesh_num.specs.Bounds.{IsSafe, IsWithin};
ghost use Rattle.mesh_num.specs.Directed.{direction_of};
ghost use Rattle.mesh_num.specs.Direction.{scaled_direction};
ghost use Rattle.mesh_num.specs.Plane.{Point, minus, plus, right_quarter};
ghost use Rattle.mesh_num.specs.Quotient.{rounded_product};
ghost use Rattle.mesh_num.specs.Rectangle.{IsInRectangle, IsSafeWidened};

use mesh_num::num::{IntPoint, IntRect, mul_div};

/// The point at this distance to the right of `from`, as one looks from there to `to`, to the left where the distance
/// is below 0; `None` where both are one point. In no coordinate is it farther away than the distance.
pub fn beside(from: IntPoint<i32>, to: IntPoint<i32>, distance: i32) -> Option<IntPoint<i32>>
    requires from { IsSafeWidened (2 ^ 30) (pos (unsigned_abs distance)) from }
    requires to { IsSafe (2 ^ 30) to }
    ensures none { IsNone result ↔ (from ≡ to) }
    ensures value { let direction : Point = direction_of (2 ^ 30) (minus to from) in
        IfSome result (λ p. p ≡ plus from (right_quarter (scaled_direction (2 ^ 30) distance direction))) }
    ensures near { let size : ℤ = pos (unsigned_abs distance) in
        IfSome result (IsInRectangle (minus from (size, size), plus from (size, size))) }
{
    let direction = (to - from).fast_normalize()?;
    Some(from.moved_right(&direction.scale(distance)))
}

/// Whether all points are in the safe range.
pub fn are_safe(points: &[IntPoint<i32>]) -> bool
    ensures { IsTrue result ↔ All (IsSafe (2 ^ 30)) points.now }
{
    match IntRect::with_iter(points.iter()) {
        None => true,
        Some(bounds) => bounds.is_in_safe_range(),
    }
}

/// The length that is to `length` as `part` is to `whole`, rounded to the nearest whole number, halves away from 0.
pub fn share(length: i64, part: i64, whole: i64) -> i64
    requires whole { whole ≢ pos 0 }
    requires fits { IsWithin (2 ^ 63) (rounded_product length part whole) }
    ensures { result ≡ rounded_product length part whole }
{
    mul_div::<i32>(length, part, whole)
}
