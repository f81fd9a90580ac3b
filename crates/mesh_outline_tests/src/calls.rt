//! Calls that no other test makes.

use i_overlay_mesh::IntOutlineError;
use mesh_join::join::Join;
use mesh_join::style::{DEFAULT_MITER_MIN_TURN, IntLineJoin, IntOutlineStyle, MathMode};
use mesh_num::num::{Angle, IntNumber};
use mesh_test_support::compared::{expect_equal, expect_that};
use std::alloc::{AllocError, Global};
use std::test::Fail;

/// The style has these offsets, and this least turn of its miters.
fn expect_style(
    style: &IntOutlineStyle<i16>,
    offsets: (i16, i16),
    least_turn: u32,
) -> Result<(), Fail> {
    let found = (style.outer_offset, style.inner_offset);
    expect_equal(&found, &offsets, &"the offsets")?;
    let bits = style.miter_min_turn.bits();
    expect_equal(&bits, &least_turn, &"the least turn")
}

#[test]
fn setters_of_a_style(_rt: HostRuntime) -> Result<(), Fail> {
    let style = IntOutlineStyle::new(7)
        .outer_offset(-3)
        .line_join(IntLineJoin::Bevel);
    expect_style(&style, (-3, 7), DEFAULT_MITER_MIN_TURN)?;
    let style = style.offset(5).math(MathMode::Integer);
    expect_style(&style, (5, 5), DEFAULT_MITER_MIN_TURN)?;
    let style = style.inner_offset(i16::MIN);
    expect_style(&style, (5, i16::MIN), DEFAULT_MITER_MIN_TURN)?;
    expect_that(style.join == IntLineJoin::default(), &"the join")?;
    let style = style.miter_min_turn(Angle::from_bits(u32::MAX));
    expect_style(&style, (5, i16::MIN), u32::MAX)
}

#[test]
fn padding_of_a_bevel(_rt: HostRuntime) -> Result<(), Fail> {
    for (radius, want) in [(0, 0), (1024, 1024), (-1024, 1024), (i16::MIN, 32_768)] {
        let reach = Join::padding(IntLineJoin::Bevel, radius);
        expect_equal(&reach, &want, &radius)?;
    }
    let most = Join::padding(IntLineJoin::Bevel, i32::MIN);
    expect_equal(&most, &2_147_483_648, &"the farthest")
}

/// Bits of a miter's angle, a radius, and how far the miter reaches.
const REACHES: [(u32, i16, i32); 8] = [
    (536_870_912, 1024, 2678),
    (536_870_912, -1024, 2678),
    (1_610_612_736, 1024, 1110),
    (59_652_323, i16::MIN, 751_228),
    (0, i16::MIN, 751_228),
    (536_870_912, 1, 5),
    (u32::MAX, 1024, 1026),
    (536_870_912, 0, 0),
];

/// How far a miter reaches whose sharpest peak has so many bits.
fn reach_of_a_miter<I: IntNumber>(bits: u32, radius: I) -> I::Wide {
    Join::padding(IntLineJoin::Miter(Angle::from_bits(bits)), radius)
}

#[test]
fn padding_of_a_miter(_rt: HostRuntime) -> Result<(), Fail> {
    for row in &REACHES {
        let (bits, radius, want) = *row;
        expect_equal(&reach_of_a_miter::<i16>(bits, radius), &want, row)?;
        let wide = reach_of_a_miter::<i32>(bits, i32::from(radius));
        expect_equal(&wide, &i64::from(want), row)?;
    }
    let most = reach_of_a_miter::<i32>(0, i32::MIN);
    expect_equal(&most, &49_232_321_886, &"the farthest")
}

/// An error has this text.
fn expect_text(alloc: Global, error: IntOutlineError, wanted: &str) -> Result<(), Fail> {
    let text = format!(in alloc; "{error}")?;
    expect_equal(&text.as_str(), &wanted, &error)
}

#[test]
fn texts_of_errors(rt: HostRuntime) -> Result<(), Fail> {
    let range = IntOutlineError::CoordinateOutOfRange;
    let text = "mesh coordinate exceeds the integer engine range";
    expect_text(rt.alloc(), range, text)?;
    let memory = IntOutlineError::from(AllocError);
    expect_text(rt.alloc(), memory, "mesh construction ran out of memory")?;
    expect_equal(&memory, &IntOutlineError::OutOfMemory, &"memory")
}
