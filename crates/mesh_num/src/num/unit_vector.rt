//! Directions: vectors scaled to the length `UNIT`.

ghost use Rattle.std.specs.Prelude.{◌≡◌, ◌*◌, ◌≤◌, ◌↔◌, ℤ, pos, unsigned_abs, IsTrue, IsNone, IfSome, MatchOption};
ghost use Rattle.mesh_plane.specs.Bounds.{IsSafe};
ghost use Rattle.mesh_plane.specs.Plane.{length_sq, opposite};
ghost use Rattle.mesh_num.specs.Direction.{IsDirection, IsFresh, IsShort, KeepsOpposites, SameWay, KeepsTurns};
ghost use Rattle.mesh_num.specs.Direction.{TurnsRound};
ghost use Rattle.mesh_num.specs.Direction.{KeepsScaledTurns, scaled, scaled_direction};
ghost use Rattle.mesh_num.specs.Rotation.{turned_along, IsWithinLength};
ghost use Rattle.mesh_plane.specs.Rounding.{rounded};

use crate::num::convert::{narrow, unit, widen};
use crate::num::exact::square_sum;
use crate::num::number::{IntNumber, WideNumber};
use crate::num::point::{IntPoint, IntVector};
use crate::num::rotation::turned;
use crate::num::share;
use std::alloc::AllocError;
use std::marker::Model;

/// A direction: a vector of length at most `UNIT`, each component rounded towards 0. Contracts see the pair of its
/// components.
#[derive(Debug, Copy)]
pub struct UnitIntVector<I: IntNumber> {
    x: I,
    y: I,
}

impl<I: IntNumber> Model for UnitIntVector<I> {
    ghost use Rattle.std.specs.Prelude.{ℤ};
    ghost use Rattle.mesh_num.specs.Direction.{IsShort};

    ghost Value = { ℤ × ℤ };

    ghost view = { λ n. (I.value n.x, I.value n.y) };

    ghost invariant = { λ n. IsShort I.unit (I.value n.x, I.value n.y) };

    ghost inverse = { λ v. record { x = I.of_value v.0; y = I.of_value v.1 } };

    ghost inverse_ok = { λ a h. λ i. record { x = I.value_back a.x i; y = I.value_back a.y i } };
}

impl<I: IntNumber> Clone for UnitIntVector<I> {
    ghost is_clone = { λ first second. second ≡ first };

    ghost is_infallible = { λ _. Unit {0} };

    fn clone(&self) -> Result<Self, AllocError> {
        Ok(*self)
    }
}

// A contract knows nothing of a constant in an `impl` with a type parameter, so it stands at both types.
impl UnitIntVector<i16> {
    /// The length of a direction before its components are rounded: `UNIT`. Code for both types writes `I::UNIT`.
    pub const DENOMINATOR: i16 = i16::UNIT;
}

impl UnitIntVector<i32> {
    /// The length of a direction before its components are rounded: `UNIT`. Code for both types writes `I::UNIT`.
    pub const DENOMINATOR: i32 = i32::UNIT;
}

impl<I: IntNumber> UnitIntVector<I> {
    /// The x component, at most `UNIT` in size.
    pub fn x(self) -> I
        ensures { I.value result ≡ self.0 }
    {
        self.x
    }

    /// The y component, at most `UNIT` in size.
    pub fn y(self) -> I
        ensures { I.value result ≡ self.1 }
    {
        self.y
    }

    /// The opposite direction, exactly as long: both components change sign.
    pub fn opposite(self) -> Self
        ensures value { result ≡ opposite self }
        ensures direction { TurnsRound I.unit self result }
    {
        Self::from_parts(-widen(self.x), -widen(self.y))
    }

    pub(crate) fn from_parts(x: i128, y: i128) -> Self
        requires { IsShort I.unit (x, y) }
        ensures { result ≡ (x, y) }
    {
        UnitIntVector {
            x: narrow(x),
            y: narrow(y),
        }
    }

    /// Whether rounding took at most 2 from the length `UNIT`. Directions that `fast_normalize` returns are such.
    pub fn is_fresh(self) -> bool
        ensures { IsTrue result ↔ IsFresh I.unit self }
    {
        let least = unit::<I>() - 2;
        square_sum(widen(self.x), widen(self.y)) >= least * least
    }
}

impl<I: IntNumber> UnitIntVector<I> {
    /// The direction times a radius in grid units: each component times the radius, divided by `UNIT`, rounded to the
    /// nearest whole number, halves away from zero. No component is greater than the radius in size.
    pub fn scale(self, radius: I) -> IntVector<I>
        ensures value { result ≡ scaled_direction I.unit (I.value radius) self }
        ensures x_bound { unsigned_abs result.0 ≤ unsigned_abs (I.value radius) }
        ensures y_bound { unsigned_abs result.1 ≤ unsigned_abs (I.value radius) }
        ensures turns { KeepsScaledTurns I.unit (I.value radius) self result }
    {
        IntVector::new(scale_part(self.x, radius), scale_part(self.y, radius))
    }
}

impl<I: IntNumber> UnitIntVector<I> {
    /// The point, turned by the angle from the x axis to this direction, in grid units; the direction's components are
    /// the cosine and the sine of that angle, times `UNIT`. Each component is rounded to the nearest whole number,
    /// halves away from zero. None is greater than the length of the point, rounded up.
    pub fn rotate(self, point: IntPoint<I>) -> IntVector<I>
        ensures value { result ≡ turned_along I.unit self point }
        ensures within { IsWithinLength point result }
    {
        let (x, y) = turned(
            (widen(self.y), widen(self.x)),
            (widen(point.x), widen(point.y)),
        );
        IntVector::new(over_unit::<I>(x), over_unit::<I>(y))
    }
}

// A number over `UNIT`, rounded.
fn over_unit<I: IntNumber>(number: i128) -> I::Wide
    requires { unsigned_abs number ≤ 4 * I.unit * I.unit }
    ensures { I.Wide.value result ≡ rounded number I.unit }
{
    I::Wide::from_i128(share::rounded_quotient(number, unit::<I>()))
}

// One component of a direction times a radius.
fn scale_part<I: IntNumber>(part: I, radius: I) -> I::Wide
    requires { unsigned_abs (I.value part) ≤ I.unit }
    ensures value { I.Wide.value result ≡ scaled I.unit (I.value radius) (I.value part) }
    ensures bound { unsigned_abs (I.Wide.value result) ≤ unsigned_abs (I.value radius) }
{
    let scaled = share::scaled_part(unit::<I>(), widen(part), widen(radius));
    I::Wide::from_i128(scaled)
}

impl<I: IntNumber> IntVector<I> {
    /// The direction of this vector, or `None` for the vector 0. The size of each component is the greatest whole `k`
    /// with `k * k * length² <= UNIT * UNIT * component²`, and the sign is kept. The components of the vector have to
    /// be below `2 * UNIT` in size.
    pub fn fast_normalize(&self) -> Option<UnitIntVector<I>>
        requires { IsSafe (2 * I.unit) self.now }
        ensures none { IsNone result ↔ (self.now ≡ (pos 0, pos 0)) }
        ensures value { IfSome result (λ n. IsDirection I.unit self.now n) }
        ensures short { IfSome result (λ n. IsShort I.unit n) }
        ensures fresh { IfSome result (λ n. IsFresh I.unit n) }
        ensures odd { IfSome result (λ n. KeepsOpposites I.unit self.now n) }
        ensures same_way { IfSome result (λ n. SameWay I.unit self.now n) }
        ensures turns { IfSome result (λ n. KeepsTurns I.unit self.now n) }
    {
        self.normalized()
    }

    fn normalized(&self) -> Option<UnitIntVector<I>>
        requires { IsSafe (2 * I.unit) self.now }
        ensures { MatchOption result (length_sq self.now ≡ 0) (λ n. IsDirection I.unit self.now n) }
    {
        let (x, y) = share::direction(unit::<I>(), self.x.to_i128(), self.y.to_i128())?;
        Some(UnitIntVector::from_parts(x, y))
    }
}
