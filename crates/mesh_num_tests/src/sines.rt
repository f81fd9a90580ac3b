//! Sines and cosines, against tables that were computed apart from this code: at the eighths of a turn, and at 1,000
//! angles between them.

mod eighths;
mod first_quarter;
mod fourth_quarter;
mod near_eighths;
mod second_quarter;
mod third_quarter;

use crate::sines::eighths::EIGHTHS;
use crate::sines::first_quarter::FIRST_QUARTER;
use crate::sines::fourth_quarter::FOURTH_QUARTER;
use crate::sines::near_eighths::NEAR_EIGHTHS;
use crate::sines::second_quarter::SECOND_QUARTER;
use crate::sines::third_quarter::THIRD_QUARTER;
use mesh_num::num::Angle;
use mesh_test_support::compared::expect_equal;
use std::test::Fail;

/// The bits of an angle, its sine and its cosine.
pub type Row = (u32, i32, i32);

fn expect_rows(rows: &[Row]) -> Result<(), Fail> {
    for (bits, sine, cosine) in rows {
        let found = Angle::from_bits(*bits).sin_cos();
        expect_equal(&found, &(*sine, *cosine), bits)?;
    }
    Ok(())
}

// One table for each test: the checker reads a table whole where it stands.
#[test]
fn at_the_eighths() -> Result<(), Fail> {
    expect_rows(&EIGHTHS)
}

#[test]
fn in_the_first_quarter() -> Result<(), Fail> {
    expect_rows(&FIRST_QUARTER)
}

#[test]
fn in_the_second_quarter() -> Result<(), Fail> {
    expect_rows(&SECOND_QUARTER)
}

#[test]
fn in_the_third_quarter() -> Result<(), Fail> {
    expect_rows(&THIRD_QUARTER)
}

#[test]
fn in_the_fourth_quarter() -> Result<(), Fail> {
    expect_rows(&FOURTH_QUARTER)
}

#[test]
fn beside_the_eighths() -> Result<(), Fail> {
    expect_rows(&NEAR_EIGHTHS)
}
