//! Tangent offsets: vectors from the centers of two circles to the points at which their outer tangents touch them.

ghost use Rattle.std.specs.Prelude.{◌≡◌, ◌*◌, ◌^◌, ◌<◌, ◌≤◌, pos, ◌-ℤ◌, ◌≤ℤ◌, unsigned_abs};
ghost use Rattle.mesh_num.specs.Widths.{IsUnit};
ghost use Rattle.mesh_plane.specs.Bounds.{IsSafe};
ghost use Rattle.mesh_plane.specs.Plane.{length_sq};
ghost use Rattle.mesh_circle.specs.Private.Normals.{IsBounded};
ghost use Rattle.mesh_circle.specs.Tangents.{left_normal, right_normal, normal_length, left_offset, right_offset};
ghost use Rattle.mesh_circle.specs.Tangents.{at_radius, IsWithinRadius};

use crate::circle::difference;
use crate::normals::{Normals, tangent_normals};
use mesh_num::num::convert::widen;
use mesh_num::num::quotient::rounded_product;
use mesh_num::num::{IntNumber, IntVector};

/// The vectors from the centers of two circles `a` and `b` to the points at which their outer tangents touch them, on
/// the left and on the right of the line from `a` to `b`, in grid units.
#[derive(Drop)]
pub struct TangentOffsets<I: IntNumber> {
    /// From the center of `a` to its left.
    pub a_left: IntVector<I>,
    /// From the center of `a` to its right.
    pub a_right: IntVector<I>,
    /// From the center of `b` to its left.
    pub b_left: IntVector<I>,
    /// From the center of `b` to its right.
    pub b_right: IntVector<I>,
}

/// The tangent offsets of two circles, where `apart` is the vector from the first center to the second, with components
/// below `2 * UNIT` in size. No circle holds the other: the difference of the radii is less than the distance of the
/// centers. Each coordinate is rounded to the nearest whole number, halves away from zero. None passes its radius in
/// size, nor does the length of an offset, cut to a whole number.
pub fn tangent_offsets<I: IntNumber>(
    apart: &IntVector<I>,
    a_radius: I,
    b_radius: I,
) -> TangentOffsets<I>
    requires apart { IsSafe (2 * I.unit) apart.now }
    requires a_radius { pos 0 ≤ℤ I.value a_radius }
    requires b_radius { pos 0 ≤ℤ I.value b_radius }
    requires tangents { unsigned_abs (I.value a_radius -ℤ I.value b_radius)
        * unsigned_abs (I.value a_radius -ℤ I.value b_radius) < length_sq apart.now }
    ensures a_left { result.a_left
        ≡ left_offset I.unit apart.now (I.value a_radius -ℤ I.value b_radius) (I.value a_radius) }
    ensures a_right { result.a_right
        ≡ right_offset I.unit apart.now (I.value a_radius -ℤ I.value b_radius) (I.value a_radius) }
    ensures b_left { result.b_left
        ≡ left_offset I.unit apart.now (I.value a_radius -ℤ I.value b_radius) (I.value b_radius) }
    ensures b_right { result.b_right
        ≡ right_offset I.unit apart.now (I.value a_radius -ℤ I.value b_radius) (I.value b_radius) }
    ensures a_within { IsWithinRadius (I.value a_radius) result.a_left
        × IsWithinRadius (I.value a_radius) result.a_right }
    ensures b_within { IsWithinRadius (I.value b_radius) result.b_left
        × IsWithinRadius (I.value b_radius) result.b_right }
{
    let normals = normals_of(apart, a_radius, b_radius);
    TangentOffsets {
        a_left: offset(a_radius, normals.left, normals.length),
        a_right: offset(a_radius, normals.right, normals.length),
        b_left: offset(b_radius, normals.left, normals.length),
        b_right: offset(b_radius, normals.right, normals.length),
    }
}

// The normals of the tangents.
fn normals_of<I: IntNumber>(apart: &IntVector<I>, a_radius: I, b_radius: I) -> Normals
    requires apart { IsSafe (2 * I.unit) apart.now }
    requires tangents { unsigned_abs (I.value a_radius -ℤ I.value b_radius)
        * unsigned_abs (I.value a_radius -ℤ I.value b_radius) < length_sq apart.now }
    ensures left { result.left ≡ left_normal I.unit apart.now (I.value a_radius -ℤ I.value b_radius) }
    ensures right { result.right ≡ right_normal I.unit apart.now (I.value a_radius -ℤ I.value b_radius) }
    ensures length { result.length ≡ normal_length I.unit apart.now }
    ensures left_bounded { IsBounded result.length result.left }
    ensures right_bounded { IsBounded result.length result.right }
{
    let unit = unit::<I>();
    let square = I::uint_to_u128(apart.sqr_length());
    let delta = difference(a_radius, b_radius);
    let x = I::wide_to_i128(apart.x);
    let y = I::wide_to_i128(apart.y);
    tangent_normals(unit, square, x, y, delta)
}

// `UNIT` without a sign.
fn unit<I: IntNumber>() -> u64
    ensures value { result ≡ I.unit }
    ensures either { IsUnit result }
{
    widen(I::UNIT).unsigned_abs() as u64
}

// A normal of at most this length as long as a radius.
fn offset<I: IntNumber>(radius: I, normal: (i128, i128), length: u128) -> IntVector<I>
    requires radius { pos 0 ≤ℤ I.value radius }
    requires bounded { IsBounded length normal }
    ensures value { result ≡ at_radius length (I.value radius) normal }
    ensures within { IsWithinRadius (I.value radius) result }
{
    let (x, y) = at_radius(widen(radius), normal, length);
    IntVector::new(I::wide_from_i128(x), I::wide_from_i128(y))
}

// The same in 128 bits.
fn at_radius(radius: i128, normal: (i128, i128), length: u128) -> (i128, i128)
    requires radius { pos 0 ≤ℤ radius }
    requires size { unsigned_abs radius ≤ 2 ^ 63 }
    requires bounded { IsBounded length normal }
    ensures value { result ≡ at_radius length radius normal }
    ensures within { IsWithinRadius radius result }
{
    let (x, y) = normal;
    let divisor = length as i128;
    (
        rounded_product(radius, x, divisor),
        rounded_product(radius, y, divisor),
    )
}
