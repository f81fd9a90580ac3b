//! Coordinates and areas out of numbers of 128 bits.

ghost use Rattle.std.specs.Prelude.{◌≡◌, ◌*◌, ◌^◌, ◌≤◌, pos, option_map};
ghost use Rattle.mesh_drawing.specs.Parts.{where_fits, where_area_fits};

use mesh_num::num::convert::widen;
use mesh_num::num::{IntNumber, WideUnsigned};

/// A number as a coordinate, `None` where it does not fit.
pub fn narrowed<I: IntNumber>(number: i128) -> Option<I>
    ensures { option_map (λ c. I.value c) result ≡ where_fits I.unit number }
{
    let end = range_end::<I>();
    if -end <= number && number < end {
        Some(I::from_wide(I::wide_from_i128(number)))
    } else {
        None
    }
}

/// The first number past the type's range.
fn range_end<I: IntNumber>() -> i128
    ensures value { result ≡ pos (2 * I.unit) }
    ensures size { I.unit ≤ 2 ^ 30 }
{
    2 * widen(I::UNIT)
}

/// A number as an area, `None` where it does not fit.
pub fn narrowed_area<I: IntNumber>(number: u128) -> Option<I::WideUInt>
    ensures { option_map (λ a. I.WideUInt.value a) result ≡ where_area_fits I.unit number }
{
    if number < area_end::<I>() {
        Some(I::WideUInt::from_u128(number))
    } else {
        None
    }
}

/// The first number past what the type of areas holds.
fn area_end<I: IntNumber>() -> u128
    ensures { result ≡ 16 * I.unit * I.unit }
{
    let unit = widen(I::UNIT).unsigned_abs();
    16 * unit * unit
}
