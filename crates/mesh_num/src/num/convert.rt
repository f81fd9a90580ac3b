//! Steps between coordinate types and 128 bits, each with an exact clause.

ghost use Rattle.std.specs.Prelude.{◌≡◌, ◌*◌, ◌^◌, ◌≤◌, ◌↔◌, IsTrue, pos, unsigned_abs, ◌<ℤ◌};
ghost use Rattle.std.specs.Int.{int_min, int_max};
ghost use Rattle.mesh_plane.specs.Bounds.{IsWithin};

use crate::num::number::{IntNumber, WideNumber};

/// `UNIT` without a sign.
pub(crate) fn unit<I: IntNumber>() -> u128
    ensures value { result ≡ I.unit }
    ensures most { result ≤ 2 ^ 30 }
    ensures least { 2 ^ 14 ≤ result }
{
    widen(I::UNIT).unsigned_abs()
}

/// A coordinate in 128 bits.
pub fn widen<I: IntNumber>(number: I) -> i128
    ensures value { result ≡ I.value number }
    ensures range { IsWithin (2 * I.unit) (I.value number) }
    ensures small { IsWithin (2 ^ 31) result }
{
    let wide = number.to_wide();
    wide.to_i128()
}

/// A number of 128 bits as a coordinate, which it has to fit.
pub fn narrow<I: IntNumber>(number: i128) -> I
    requires { IsWithin (2 * I.unit) number }
    ensures { I.value result ≡ number }
{
    I::from_wide(I::Wide::from_i128(number))
}

/// Whether the first coordinate is below the second.
pub fn is_less<I: IntNumber>(first: I, second: I) -> bool
    ensures { IsTrue result ↔ I.value first <ℤ I.value second }
{
    first < second
}

/// Whether the first wide number is below the second.
pub fn is_wide_less<I: IntNumber>(left: I::Wide, right: I::Wide) -> bool
    ensures { IsTrue result ↔ I.Wide.value left <ℤ I.Wide.value right }
{
    left.to_i128() < right.to_i128()
}

/// The lesser of two coordinates.
pub(crate) fn lesser<I: IntNumber>(first: I, second: I) -> I
    ensures { I.value result ≡ int_min (I.value first) (I.value second) }
{
    if is_less(second, first) {
        second
    } else {
        first
    }
}

/// The greater of two coordinates.
pub fn greater<I: IntNumber>(first: I, second: I) -> I
    ensures { I.value result ≡ int_max (I.value first) (I.value second) }
{
    if is_less(first, second) {
        second
    } else {
        first
    }
}

/// The size of a coordinate, which the wide type holds for each.
pub fn wide_size<I: IntNumber>(number: I) -> I::Wide
    ensures { I.Wide.value result ≡ pos (unsigned_abs (I.value number)) }
{
    let size = widen(number).abs();
    I::Wide::from_i128(size)
}
