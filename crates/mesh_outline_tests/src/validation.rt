//! Worked paths at the ends of the safe range and of the types: which of them a style may move.

use i_overlay_mesh::IntOutlineError;
use i_overlay_mesh::outline::offset::IntOutlineOffset;
use mesh_join::style::{IntLineJoin, IntOutlineStyle};
use mesh_num::num::{Angle, OverlayInt};
use mesh_test_support::compared::expect_equal;
use mesh_test_support::lists::path;
use std::alloc::{AllocError, Global};
use std::test::Fail;

/// What the path of these points answers to a style of these offsets.
fn answer<I: OverlayInt>(
    alloc: Global,
    points: &[(I, I)],
    outer: I,
    inner: I,
) -> Result<Result<(), IntOutlineError>, AllocError> {
    let path = path(alloc, points)?;
    Ok(path.validate_outline(&IntOutlineStyle::new(outer).inner_offset(inner)))
}

const YES: Result<(), IntOutlineError> = Ok(());

const NO: Result<(), IntOutlineError> = Err(IntOutlineError::CoordinateOutOfRange);

const CORNERS: &[(i16, i16)] = &[
    (-16_383, -16_383),
    (16_383, -16_383),
    (16_383, 16_383),
    (-16_383, 16_383),
];

/// Points, an outer and an inner offset, and whether the points may be moved.
type Row<I> = (&'static [(I, I)], I, I, Result<(), IntOutlineError>);

const SMALL: &[Row<i16>] = &[
    (&[], i16::MIN, i16::MIN, YES),
    (&[(15_359, 0)], 1024, 1024, YES),
    (&[(15_360, 0)], 1024, 1024, NO),
    (&[(-15_359, 15_359)], 1024, -1024, YES),
    (&[(0, -15_360)], 1024, -1024, NO),
    (&[(16_383, -16_383)], 0, 0, YES),
    (&[(16_384, 0)], 0, 0, NO),
    (&[(15_383, 0)], 1, 1000, YES),
    (&[(15_384, 0)], 1, 1000, NO),
    (&[(15_384, 0)], -1000, 1, NO),
    (&[(0, 0)], 16_383, 0, YES),
    (&[(0, 0)], 16_384, 0, NO),
    (&[(0, 0)], i16::MIN, i16::MIN, NO),
    (&[(0, 0)], 0, i16::MIN, NO),
    (&[(i16::MIN, i16::MAX)], i16::MAX, i16::MIN, NO),
    (CORNERS, 0, 0, YES),
    (CORNERS, 1, 0, NO),
    (&[(0, 0), (0, 0), (0, 16_384)], 0, 0, NO),
];

const LARGE: &[Row<i32>] = &[
    (&[], 0, i32::MIN, YES),
    (&[(1_073_740_799, 0)], 1024, 1024, YES),
    (&[(1_073_740_800, 0)], 1024, 1024, NO),
    (&[(i32::MIN, i32::MAX)], 0, 0, NO),
    (&[(i32::MIN, i32::MAX)], i32::MIN, i32::MIN, NO),
    (&[(1_073_741_823, -1_073_741_823)], 0, 0, YES),
    (
        &[(0, 0), (16_384, 0), (16_384, 16_384), (0, 16_384)],
        1024,
        1024,
        YES,
    ),
];

#[test]
fn small_paths(rt: HostRuntime) -> Result<(), Fail> {
    for row in SMALL {
        let (points, outer, inner, want) = *row;
        let found = answer::<i16>(rt.alloc(), points, outer, inner)?;
        expect_equal(&found, &want, row)?;
    }
    Ok(())
}

#[test]
fn large_paths(rt: HostRuntime) -> Result<(), Fail> {
    for row in LARGE {
        let (points, outer, inner, want) = *row;
        let found = answer::<i32>(rt.alloc(), points, outer, inner)?;
        expect_equal(&found, &want, row)?;
    }
    Ok(())
}

/// A coordinate, an outer and an inner offset, and whether a point with it may be moved with miters of an eighth of a
/// turn: offsets of 1024 and 1 reach as far as 2678 and 5.
const MITERED: &[(i16, i16, i16, Result<(), IntOutlineError>)] = &[
    (13_705, 1024, 0, YES),
    (13_706, 1024, 0, NO),
    (13_705, -1, 1024, YES),
    (13_706, -1, 1024, NO),
    (13_705, 1, -1024, YES),
    (13_706, 1, -1024, NO),
    (13_705, -1024, 1023, YES),
    (13_706, -1024, 1023, NO),
    (16_378, 0, 1, YES),
    (16_379, 0, 1, NO),
    (16_378, -1, 0, YES),
    (16_379, -1, 0, NO),
    (16_383, 0, 0, YES),
    (0, 0, i16::MIN, NO),
    (0, i16::MIN, 0, NO),
];

/// The greater reach of both offsets decides, on each side of both axes.
#[test]
fn mitered_paths(rt: HostRuntime) -> Result<(), Fail> {
    let join = IntLineJoin::Miter(Angle::from_bits(536_870_912));
    for row in MITERED {
        let (far, outer, inner, want) = *row;
        let style = IntOutlineStyle::new(outer)
            .inner_offset(inner)
            .line_join(join);
        let near = far.wrapping_neg();
        for point in &[(far, 0), (near, 0), (0, far), (0, near)] {
            let found = path(rt.alloc(), &[*point])?.validate_outline(&style);
            expect_equal(&found, &want, &(point, row))?;
        }
    }
    Ok(())
}

/// The least offset of all, with bevels and with the sharpest miters: no point is accepted, and each point refused.
#[test]
fn least_offset(rt: HostRuntime) -> Result<(), Fail> {
    for join in [IntLineJoin::Bevel, IntLineJoin::Miter(Angle::from_bits(0))] {
        let style = IntOutlineStyle::new(i16::MIN).line_join(join);
        let of_none = path(rt.alloc(), &[])?.validate_outline(&style);
        expect_equal(&of_none, &YES, &join)?;
        let of_one = path(rt.alloc(), &[(0, 0)])?.validate_outline(&style);
        expect_equal(&of_one, &NO, &join)?;
    }
    Ok(())
}
