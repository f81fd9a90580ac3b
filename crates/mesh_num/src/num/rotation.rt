//! Rotations of directions.

ghost use Rattle.std.specs.Prelude.{◌≡◌, ◌^◌, ◌≤◌, ◌*ℤ◌, unsigned_abs};
ghost use Rattle.mesh_plane.specs.Plane.{length_sq};
ghost use Rattle.mesh_sine.specs.Sine.{sin_cos};
ghost use Rattle.mesh_num.specs.Rotation.{cut as cut_of, rotated as rotated_of, turned as turned_of, turned_round};

use crate::num::angle::Angle;
use crate::num::convert::widen;
use crate::num::number::IntNumber;
use crate::num::unit_vector::UnitIntVector;
use std::alloc::AllocError;
use std::marker::{Model, PhantomData};

/// A rotation of directions by an angle, counterclockwise. Contracts see the sine and the cosine of the angle, each
/// times 2^30.
#[derive(Debug, Copy)]
pub struct Rotation<I: IntNumber> {
    sine: i32,
    cosine: i32,
    coordinate: PhantomData<I>,
}

impl<I: IntNumber> Model for Rotation<I> {
    ghost use Rattle.std.specs.Prelude.{ℤ};
    ghost use Rattle.mesh_sine.specs.Sine.{IsWithinOne};

    ghost Value = { ℤ × ℤ };

    ghost view = { λ r. (r.sine, r.cosine) };

    ghost invariant = { λ r. IsWithinOne (r.sine, r.cosine) };

    ghost inverse = { λ v. record { sine = v.0; cosine = v.1; coordinate = record {} } };
}

impl<I: IntNumber> Clone for Rotation<I> {
    ghost is_clone = { λ first second. second ≡ first };

    ghost is_infallible = { λ _. Unit {0} };

    fn clone(&self) -> Result<Self, AllocError> {
        Ok(*self)
    }
}

impl<I: IntNumber> Rotation<I> {
    /// The rotation by this angle, counterclockwise.
    pub fn new(angle: Angle) -> Self
        ensures { result ≡ sin_cos angle }
    {
        let (sine, cosine) = angle.sin_cos();
        Rotation {
            sine,
            cosine,
            coordinate: PhantomData,
        }
    }

    /// The rotation by the same angle clockwise.
    pub fn inverse(self) -> Self
        ensures { result ≡ turned_round self }
    {
        Rotation {
            sine: -self.sine,
            cosine: self.cosine,
            coordinate: PhantomData,
        }
    }

    /// The direction, turned by the angle. Each component is rounded towards 0, so no direction becomes longer.
    pub fn apply(self, direction: UnitIntVector<I>) -> UnitIntVector<I>
        ensures value { result ≡ rotated_of self direction }
        ensures no_longer { length_sq result ≤ length_sq direction }
    {
        let (x, y) = rotated(
            (self.sine as i128, self.cosine as i128),
            (widen(direction.x()), widen(direction.y())),
        );
        UnitIntVector::from_parts(x, y)
    }
}

// A vector turned by the angle with this sine and cosine, both times 2^30.
fn rotated(rotation: (i128, i128), vector: (i128, i128)) -> (i128, i128)
    requires sine { unsigned_abs rotation.0 ≤ 2 ^ 30 }
    requires cosine { unsigned_abs rotation.1 ≤ 2 ^ 30 }
    requires x { unsigned_abs vector.0 ≤ 2 ^ 31 }
    requires y { unsigned_abs vector.1 ≤ 2 ^ 31 }
    ensures { result ≡ rotated_of rotation vector }
{
    let (x, y) = turned(rotation, vector);
    (cut(x), cut(y))
}

/// A vector turned by an angle, times the denominator of the angle's sine and cosine.
pub(crate) fn turned(rotation: (i128, i128), vector: (i128, i128)) -> (i128, i128)
    requires sine { unsigned_abs rotation.0 ≤ 2 ^ 30 }
    requires cosine { unsigned_abs rotation.1 ≤ 2 ^ 30 }
    requires x { unsigned_abs vector.0 ≤ 2 ^ 31 }
    requires y { unsigned_abs vector.1 ≤ 2 ^ 31 }
    ensures value { result ≡ turned_of rotation vector }
    ensures x_size { unsigned_abs result.0 ≤ 2 ^ 62 }
    ensures y_size { unsigned_abs result.1 ≤ 2 ^ 62 }
{
    let (sine, cosine) = rotation;
    let (x, y) = vector;
    (
        product(cosine, x) - product(sine, y),
        product(sine, x) + product(cosine, y),
    )
}

// A product of a sine and a component of a vector.
fn product(a: i128, b: i128) -> i128
    requires a { unsigned_abs a ≤ 2 ^ 30 }
    requires b { unsigned_abs b ≤ 2 ^ 31 }
    ensures value { result ≡ a *ℤ b }
    ensures size { unsigned_abs result ≤ 2 ^ 61 }
{
    a * b
}

// A whole number over 2^30, cut towards 0.
fn cut(number: i128) -> i128
    requires { unsigned_abs number ≤ 2 ^ 62 }
    ensures { result ≡ cut_of number }
{
    let size = (number.unsigned_abs() / (1 << 30)) as i128;
    if number < 0 { -size } else { size }
}
