//! The coordinate types and the steps between them.

use crate::pairs::expect_pairs;
use mesh_num::num::convert::{is_less, is_wide_less, wide_size};
use mesh_num::num::quotient::mul_div;
use mesh_num::num::{Angle, IntNumber, WideUnsigned};
use mesh_test_support::compared::expect_equal;
use std::test::Fail;

#[test]
fn widths() -> Result<(), Fail> {
    expect_pairs(&[
        (i128::from(i16::BITS), 16),
        (i128::from(i16::ZERO), 0),
        (i128::from(i16::ONE), 1),
        (i128::from(i16::UNIT), 16384),
        (i128::from(i32::BITS), 32),
        (i128::from(i32::ZERO), 0),
        (i128::from(i32::ONE), 1),
        (i128::from(i32::UNIT), 1073741824),
    ])
}

#[test]
fn steps_between_widths() -> Result<(), Fail> {
    expect_pairs(&[
        (i128::from(i16::to_wide(-32768)), -32768),
        (i128::from(i16::from_wide(32767)), 32767),
        (i16::wide_to_i128(-7), -7),
        (i128::from(i16::wide_from_i128(2147483647)), 2147483647),
        (i128::from(u32::from_u128(4294967295)), 4294967295),
        (i128::from(i32::to_wide(-5)), -5),
        (i128::from(i32::from_wide(-2147483648)), -2147483648),
        (i32::wide_to_i128(-7), -7),
        (
            i128::from(i32::wide_from_i128(-9223372036854775808)),
            -9223372036854775808,
        ),
        (i128::from(u64::from_u128(9)), 9),
    ])
}

#[test]
fn steps_to_unsigned_numbers() -> Result<(), Fail> {
    expect_equal(&i16::uint_to_u128(4294967295), &4294967295, &"of i16")?;
    expect_equal(
        &i32::uint_to_u128(18446744073709551615),
        &18446744073709551615,
        &"of i32",
    )
}

#[test]
fn sizes() -> Result<(), Fail> {
    expect_pairs(&[
        (i128::from(wide_size::<i16>(-32768)), 32768),
        (i128::from(wide_size::<i32>(-2147483648)), 2147483648),
    ])
}

#[test]
fn rounded_quotients_of_products() -> Result<(), Fail> {
    expect_pairs(&[
        (i128::from(mul_div::<i16>(7, 3, 2)), 11),
        (i128::from(mul_div::<i16>(-7, 3, 2)), -11),
        (i128::from(mul_div::<i16>(7, 3, -2)), -11),
        (i128::from(mul_div::<i16>(-7, 3, -2)), 11),
        (i128::from(mul_div::<i16>(10, 1, 4)), 3),
        (i128::from(mul_div::<i16>(10, 1, 7)), 1),
        (i128::from(mul_div::<i32>(0, 5, -3)), 0),
        (
            i128::from(mul_div::<i32>(
                -9223372036854775808,
                -9223372036854775808,
                -9223372036854775808,
            )),
            -9223372036854775808,
        ),
    ])
}

#[test]
fn orders(rt: HostRuntime) {
    let small = is_less::<i32>(-1, 0) && !is_less::<i32>(0, 0);
    let wide = is_wide_less::<i16>(70000, 70001) && !is_wide_less::<i32>(0, -1);
    assert!(rt; small && wide);
}

#[test]
fn angles(rt: HostRuntime) {
    let quarter = Angle::from_bits(1 << 30);
    assert!(rt; quarter.bits() == 1073741824 && quarter != Angle::from_bits(0));
}

#[test]
fn thousandths_of_degrees() -> Result<(), Fail> {
    expect_pairs(&[
        (bits_of(0), 0),
        (bits_of(1), 11930),
        (bits_of(2), 23861),
        (bits_of(1_000), 11930465),
        (bits_of(45_000), 536870912),
        (bits_of(60_000), 715827883),
        (bits_of(90_000), 1073741824),
        (bits_of(359_999), 4294955366),
        (bits_of(360_000), 0),
        (bits_of(450_000), 1073741824),
    ])
}

/// The bits of an angle of so many thousandths of a degree.
fn bits_of(thousandths: u32) -> i128 {
    i128::from(Angle::from_thousandths_of_degree(thousandths).bits())
}
