//! Points round a vertex.

ghost use Rattle.std.specs.Prelude.{◌≡◌, ◌*◌, ◌<◌, pos};
ghost use Rattle.mesh_plane.specs.Bounds.{IsSafe};
ghost use Rattle.mesh_plane.specs.Plane.{minus};
ghost use Rattle.mesh_num.specs.Direction.{IsFresh, IsShort};
ghost use Rattle.mesh_num.specs.Rectangle.{IsSafeWidened};
ghost use Rattle.mesh_join.specs.RoundJoins.{round_padding};
ghost use Rattle.mesh_join.specs.Joints.{IsApart};
ghost use Rattle.mesh_circle.specs.Sweeps.{bearing, distance as distance_of, is_one_way as is_one_way_of};
ghost use Rattle.mesh_circle.specs.Sweeps.{point_round as point_round_of};
ghost use Rattle.mesh_circle.specs.Sweeps.{east_of as east_point, west_of as west_point};

use mesh_num::num::convert::narrow;
use mesh_num::num::{IntNumber, IntPoint, IntVector, UnitIntVector, WideNumber};

/// The point away from a vertex by the radius in a direction.
pub(crate) fn point_round<I: IntNumber>(
    center: IntPoint<I>,
    radius: I,
    direction: UnitIntVector<I>,
) -> IntPoint<I>
    requires { IsSafeWidened I.unit (round_padding (I.value radius)) center }
    ensures { result ≡ point_round_of I.unit center (I.value radius) direction }
{
    center.moved(&direction.scale(radius))
}

/// The point of a circle to the east of its center.
pub(crate) fn east_of<I: IntNumber>(center: IntPoint<I>, radius: I) -> IntPoint<I>
    requires { IsSafe I.unit (east_point center (I.value radius)) }
    ensures { result ≡ east_point center (I.value radius) }
{
    let x = center.x.to_wide().plus(radius.to_wide());
    IntPoint::new(I::from_wide(x), center.y)
}

/// The point of a circle to the west of its center.
pub(crate) fn west_of<I: IntNumber>(center: IntPoint<I>, radius: I) -> IntPoint<I>
    requires { IsSafe I.unit (west_point center (I.value radius)) }
    ensures { result ≡ west_point center (I.value radius) }
{
    let x = center.x.to_wide().minus(radius.to_wide());
    IntPoint::new(I::from_wide(x), center.y)
}

/// The direction from a vertex to a point.
pub(crate) fn direction<I: IntNumber>(center: IntPoint<I>, point: IntPoint<I>) -> UnitIntVector<I>
    requires { IsApart I.unit center point }
    ensures value { result ≡ bearing I.unit center point }
    ensures fresh { IsFresh I.unit result }
    ensures short { IsShort I.unit result }
{
    let Some(direction) = (point - center).fast_normalize() else {
        unreachable!()
    };
    direction
}

/// The distance from a vertex to a point, cut to a whole number.
pub(crate) fn distance<I: IntNumber>(center: IntPoint<I>, point: IntPoint<I>) -> I
    requires safe { IsSafe (2 * I.unit) (minus point center) }
    requires fits { distance_of center point < 2 * I.unit }
    ensures { I.value result ≡ pos (distance_of center point) }
{
    let square = I::uint_to_u128((point - center).sqr_length()) as u64;
    narrow(square.isqrt() as i128)
}

/// Whether two directions are parallel and look the same way.
pub(crate) fn is_one_way<I: IntNumber>(u: UnitIntVector<I>, w: UnitIntVector<I>) -> bool
    requires u { IsShort I.unit u }
    requires w { IsShort I.unit w }
    ensures { result ≡ is_one_way_of u w }
{
    let u = IntVector::<I>::new(u.x().to_wide(), u.y().to_wide());
    let w = IntVector::<I>::new(w.x().to_wide(), w.y().to_wide());
    I::wide_to_i128(u.cross_product(&w)) == 0 && 0 < I::wide_to_i128(u.dot_product(&w))
}
