//! Quotients of products of wide numbers.

ghost use Rattle.std.specs.Prelude.{◌≡◌, ◌≢◌, ◌^◌, ◌≤◌, pos, unsigned_abs};
ghost use Rattle.mesh_plane.specs.Bounds.{IsWithin};
ghost use Rattle.mesh_num.specs.Quotient.{rounded_product};

use crate::num::number::IntNumber;
use crate::num::share::rounded_quotient;

/// `a * b / d`, rounded to the nearest whole number, halves away from zero. `d` must not be 0, and the result has to
/// fit the wide type; the product may be too great for it.
pub fn mul_div<I: IntNumber>(a: I::Wide, b: I::Wide, d: I::Wide) -> I::Wide
    requires divisor { I.Wide.value d ≢ pos 0 }
    requires fits { IsWithin I.Wide.half (rounded_product (I.Wide.value a) (I.Wide.value b) (I.Wide.value d)) }
    ensures value { I.Wide.value result ≡ rounded_product (I.Wide.value a) (I.Wide.value b) (I.Wide.value d) }
{
    let quotient = rounded_product(I::wide_to_i128(a), I::wide_to_i128(b), I::wide_to_i128(d));
    I::wide_from_i128(quotient)
}

/// `a * b / d` rounded to a whole number, halves away from 0, with the sign by the rule of signs, in 128 bits. `d` is
/// not 0, and no number is above 2^63 in size.
pub fn rounded_product(a: i128, b: i128, d: i128) -> i128
    requires a { unsigned_abs a ≤ 2 ^ 63 }
    requires b { unsigned_abs b ≤ 2 ^ 63 }
    requires size { unsigned_abs d ≤ 2 ^ 63 }
    requires divisor { d ≢ pos 0 }
    ensures { result ≡ rounded_product a b d }
{
    let product = a * b;
    if d < 0 {
        rounded_quotient(-product, d.unsigned_abs())
    } else {
        rounded_quotient(product, d.unsigned_abs())
    }
}
