//! Worked paths at the ends of the safe range and of the types: which of them a style may stroke.

use crate::styles::{CapRow, Caps, StyleRow};
use i_overlay_mesh::IntOutlineError;
use i_overlay_mesh::stroke::offset::IntStrokeOffset;
use i_overlay_mesh::stroke::radius::{padding, stroke_radius};
use mesh_join::arc::ArcOptions;
use mesh_join::style::{IntLineCap, IntLineJoin, IntStrokeStyle, MathMode, StrokeSide};
use mesh_num::num::{Angle, OverlayInt};
use mesh_test_support::compared::expect_equal;
use mesh_test_support::joins::JoinKind;
use mesh_test_support::lists::path;
use std::alloc::{AllocError, Global};
use std::rc::RcSlice;
use std::test::Fail;

const YES: Result<(), IntOutlineError> = Ok(());

const NO: Result<(), IntOutlineError> = Err(IntOutlineError::CoordinateOutOfRange);

const ROUND: CapRow = CapRow::Round(536_870_912, 5);

/// The farthest point of `i16`, and points whose lengths are a whole number and just above one.
const FARTHEST: CapRow = CapRow::Custom(&[(-32_768, -32_768)]);

const WHOLE: CapRow = CapRow::Custom(&[(0, 1), (3, 4)]);

const RAISED: CapRow = CapRow::Custom(&[(5, -1), (0, 1)]);

/// A point that leads inwards.
const NOTCH: CapRow = CapRow::Custom(&[(-4096, 0)]);

const EIGHTH: JoinKind = JoinKind::Miter(536_870_912, 0);

/// Points, the width, the joins, both caps, how far the stroke reaches, and whether it may be drawn.
type Row = (
    &'static [(i16, i16)],
    i16,
    JoinKind,
    Caps,
    i32,
    Result<(), IntOutlineError>,
);

const BUTTS: Caps = (CapRow::Butt, CapRow::Butt);

const SQUARES: Caps = (CapRow::Square, CapRow::Square);

const ROWS: &[Row] = &[
    (&[(0, 0)], 32_766, JoinKind::Bevel, BUTTS, 16_383, YES),
    (&[(0, 0)], 32_767, JoinKind::Bevel, BUTTS, 16_384, NO),
    (&[], 32_767, JoinKind::Bevel, BUTTS, 16_384, YES),
    (&[(16_381, 0)], 2, JoinKind::Bevel, SQUARES, 2, YES),
    (&[(16_382, 0)], 2, JoinKind::Bevel, SQUARES, 2, NO),
    (
        &[(16_381, 0)],
        2,
        JoinKind::Bevel,
        (CapRow::Square, CapRow::Butt),
        2,
        YES,
    ),
    (
        &[(0, -16_382)],
        2,
        JoinKind::Bevel,
        (CapRow::Square, CapRow::Butt),
        2,
        NO,
    ),
    (
        &[(0, 16_382)],
        2,
        JoinKind::Bevel,
        (CapRow::Butt, CapRow::Square),
        2,
        NO,
    ),
    (
        &[(-16_382, 0)],
        2,
        JoinKind::Bevel,
        (ROUND, CapRow::Butt),
        1,
        YES,
    ),
    (
        &[(-16_383, 0)],
        2,
        JoinKind::Bevel,
        (ROUND, CapRow::Butt),
        1,
        NO,
    ),
    (
        &[(0, 0)],
        4,
        JoinKind::Bevel,
        (CapRow::Butt, FARTHEST),
        46_341,
        NO,
    ),
    (
        &[(0, 0)],
        4,
        JoinKind::Bevel,
        (FARTHEST, CapRow::Butt),
        46_341,
        NO,
    ),
    (
        &[],
        4,
        JoinKind::Bevel,
        (FARTHEST, CapRow::Butt),
        46_341,
        YES,
    ),
    (
        &[(0, 16_378)],
        4,
        JoinKind::Bevel,
        (CapRow::Butt, WHOLE),
        5,
        YES,
    ),
    (
        &[(0, 16_379)],
        4,
        JoinKind::Bevel,
        (CapRow::Butt, WHOLE),
        5,
        NO,
    ),
    (
        &[(16_377, 0)],
        4,
        JoinKind::Bevel,
        (RAISED, CapRow::Butt),
        6,
        YES,
    ),
    (
        &[(16_378, 0)],
        4,
        JoinKind::Bevel,
        (RAISED, CapRow::Butt),
        6,
        NO,
    ),
    (
        &[(-12_287, 0), (0, 0)],
        2048,
        JoinKind::Bevel,
        (CapRow::Butt, NOTCH),
        4096,
        YES,
    ),
    (
        &[(0, 0), (0, 12_288)],
        2048,
        JoinKind::Bevel,
        (CapRow::Butt, NOTCH),
        4096,
        NO,
    ),
    (&[(16_383, -16_383)], 0, JoinKind::Bevel, SQUARES, 0, YES),
    (&[(16_383, -16_383)], -32_768, EIGHTH, SQUARES, 0, YES),
    (&[(16_384, 0)], -32_768, JoinKind::Bevel, BUTTS, 0, NO),
    (&[(-32_768, 32_767)], 0, JoinKind::Bevel, BUTTS, 0, NO),
    (&[(13_705, 0)], 2048, EIGHTH, BUTTS, 2678, YES),
    (&[(13_706, 0)], 2048, EIGHTH, BUTTS, 2678, NO),
    (&[(14_335, 0)], 2048, EIGHTH, (WHOLE, ROUND), 2678, NO),
    (
        &[(15_359, 0)],
        2048,
        JoinKind::Round(1, 40),
        (WHOLE, ROUND),
        1024,
        YES,
    ),
    (
        &[(15_360, 0)],
        2047,
        JoinKind::Round(1, 40),
        (WHOLE, ROUND),
        1024,
        NO,
    ),
    (
        &[(0, 0), (0, 0), (0, 16_384)],
        0,
        JoinKind::Bevel,
        BUTTS,
        0,
        NO,
    ),
];

/// Each row is answered so, and its style reaches so far, which the types do not bound.
#[test]
fn small_paths(rt: HostRuntime) -> Result<(), Fail> {
    for row in ROWS {
        let (points, width, join, (start, end), reach, want) = *row;
        let style = StyleRow {
            width,
            join,
            start,
            end,
        };
        expect_reach::<i32>(rt.alloc(), style, i64::from(reach))?;
        expect_reach::<i16>(rt.alloc(), style, reach)?;
        let points = path(rt.alloc(), points)?;
        let found = points.validate_stroke(&style.style(rt.alloc())?);
        expect_equal(&found, &want, row)?;
    }
    Ok(())
}

/// The style of the row reaches so far.
fn expect_reach<I: OverlayInt + From<i16>>(
    alloc: Global,
    row: StyleRow,
    reach: I::Wide,
) -> Result<(), Fail> {
    let style = row.style::<I>(alloc)?;
    let found = I::wide_to_i128(padding(&style));
    expect_equal(&found, &I::wide_to_i128(reach), &row)
}

/// A point, a width, a custom point at both ends, how far the stroke reaches, and whether it may be drawn.
type LargeRow = (
    (i32, i32),
    i32,
    (i32, i32),
    i64,
    Result<(), IntOutlineError>,
);

const LARGE_ROWS: &[LargeRow] = &[
    ((0, 0), 2_147_483_646, (0, 0), 1_073_741_823, YES),
    ((0, 0), 2_147_483_647, (0, 0), 1_073_741_824, NO),
    ((1, 0), 2_147_483_646, (0, 0), 1_073_741_823, NO),
    ((0, 0), 0, (i32::MIN, i32::MIN), 3_037_000_500, NO),
    ((0, 0), 0, (i32::MAX, i32::MIN), 3_037_000_500, NO),
    ((0, 0), 0, (i32::MIN, 0), 2_147_483_648, NO),
    ((0, 0), 8, (0, 1_073_741_823), 1_073_741_823, YES),
    ((0, 0), 8, (1, 1_073_741_823), 1_073_741_824, NO),
    ((0, -1_073_741_818), 8, (-3, -4), 5, YES),
    ((0, -1_073_741_819), 8, (-3, -4), 5, NO),
    ((i32::MIN, i32::MAX), i32::MIN, (0, 0), 0, NO),
];

/// A style whose both ends have a custom cap of one point.
fn pointed(
    alloc: Global,
    width: i32,
    point: (i32, i32),
) -> Result<IntStrokeStyle<i32>, AllocError> {
    let start = RcSlice::from_vec(path(alloc, &[point])?)?;
    let end = RcSlice::from_vec(path(alloc, &[point])?)?;
    Ok(IntStrokeStyle {
        width,
        start_cap: IntLineCap::Custom(start),
        end_cap: IntLineCap::Custom(end),
        join: IntLineJoin::Bevel,
        miter_min_turn: Angle::from_bits(0),
        math: MathMode::Integer,
        side: StrokeSide::Both,
    })
}

#[test]
fn large_paths(rt: HostRuntime) -> Result<(), Fail> {
    for row in LARGE_ROWS {
        let (point, width, custom, reach, want) = *row;
        let style = pointed(rt.alloc(), width, custom)?;
        expect_equal(&padding(&style), &reach, row)?;
        let points = path(rt.alloc(), &[point])?;
        expect_equal(&points.validate_stroke(&style), &want, row)?;
    }
    Ok(())
}

/// Half of a width, rounded up.
fn half<I: OverlayInt + From<i16>>(width: i16) -> I {
    stroke_radius(I::from(width))
}

/// Widths and their halves.
const RADII: [(i16, i16); 7] = [
    (i16::MIN, 0),
    (-1, 0),
    (0, 0),
    (1, 1),
    (2, 1),
    (3, 2),
    (i16::MAX, 16_384),
];

#[test]
fn radii(_rt: HostRuntime) -> Result<(), Fail> {
    for (width, want) in &RADII {
        expect_equal(&half::<i16>(*width), want, width)?;
        expect_equal(&half::<i32>(*width), &i32::from(*want), width)?;
    }
    expect_equal(&stroke_radius(i32::MIN), &0, &i32::MIN)?;
    expect_equal(&stroke_radius(i32::MAX), &1_073_741_824, &i32::MAX)
}
