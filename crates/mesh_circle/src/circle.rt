//! Circles round the vertices of a path.

ghost use Rattle.std.specs.Prelude.{◌≡◌, ◌*◌, ◌^◌, ◌≤◌, pos, ◌-ℤ◌, unsigned_abs, int_le};
ghost use Rattle.mesh_circle.specs.Sections.{IsSafeCircle, is_nested};

use mesh_num::num::convert::widen;
use mesh_num::num::{IntNumber, IntPoint};
use std::alloc::AllocError;
use std::marker::Model;

/// A vertex of a path with the radius that the stroke has there, in grid units. Contracts see the record of both.
#[derive(Debug, Copy)]
pub struct Circle<I: IntNumber> {
    /// The vertex.
    pub center: IntPoint<I>,
    /// Half the width of the stroke.
    pub radius: I,
}

impl<I: IntNumber> Model for Circle<I> {
    ghost use Rattle.mesh_circle.specs.Sections.{Circle as PlaneCircle};

    ghost Value = { PlaneCircle };

    ghost view = { λ c. record { center = c.center; radius = I.value c.radius } };

    ghost inverse = { λ v. record { center = v.center; radius = I.of_value v.radius } };

    ghost inverse_ok = { λ a h. λ i. record { center = a.center; radius = I.value_back a.radius i } };
}

impl<I: IntNumber> Clone for Circle<I> {
    ghost is_clone = { λ first second. second ≡ first };

    ghost is_infallible = { λ _. Unit {0} };

    fn clone(&self) -> Result<Self, AllocError> {
        Ok(*self)
    }
}

impl<I: IntNumber> Circle<I> {
    /// Whether one of two circles holds the other: the distance of their centers is at most the difference of their
    /// radii. Each radius is at least 0, and the square round each circle lies in the safe range.
    pub fn is_nested_with(self, other: Self) -> bool
        requires own { IsSafeCircle I.unit self }
        requires other { IsSafeCircle I.unit other }
        ensures { result ≡ is_nested self other }
    {
        let apart = other.center - self.center;
        let difference = difference(self.radius, other.radius).unsigned_abs();
        I::uint_to_u128(apart.sqr_length()) <= difference * difference
    }

    /// Whether the radius is at most 1.
    pub(crate) fn is_dot(self) -> bool
        ensures { result ≡ int_le self.radius (pos 1) }
    {
        widen(self.radius) <= 1
    }
}

/// By how much the first radius is greater.
pub(crate) fn difference<I: IntNumber>(first: I, second: I) -> i128
    ensures value { result ≡ I.value first -ℤ I.value second }
    ensures size { unsigned_abs result ≤ 2 ^ 32 }
{
    widen(first) - widen(second)
}
