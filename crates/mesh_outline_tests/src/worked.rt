//! Worked outlines, from outside the program.

use crate::answers::{expect, expect_custom, expect_refused};
use i_overlay_mesh::outline::area::double_area;
use mesh_below::below::{ContourDirection, IntOverlayOptions};
use mesh_join::style::IntOutlineStyle;
use mesh_test_support::lists::{path, paths};
use mesh_test_support::{inner, outer};
use std::alloc::AllocError;
use std::test::Fail;

type Row = &'static [(i32, i32)];

const SQUARE: Row = outer!(0, 0, 16_384, 16_384);

const HOLE: Row = inner!(4096, 4096, 12_288, 12_288);

/// The square moved outwards by 1024.
const GROWN: Row = &[
    (-1024, 0),
    (0, -1024),
    (16_384, -1024),
    (17_408, 0),
    (17_408, 16_384),
    (16_384, 17_408),
    (0, 17_408),
    (-1024, 16_384),
];

/// The square moved inwards by 1024.
const SHRUNK: Row = outer!(1024, 1024, 15_360, 15_360);

/// The hole moved into itself by 1024.
const SMALL_HOLE: Row = inner!(5120, 5120, 11_264, 11_264);

/// The hole moved out of itself by 1024.
const LARGE_HOLE: Row = &[
    (3072, 4096),
    (3072, 12_288),
    (4096, 13_312),
    (12_288, 13_312),
    (13_312, 12_288),
    (13_312, 4096),
    (12_288, 3072),
    (4096, 3072),
];

/// Contours, an outer and an inner offset, and the outline.
type Case = (&'static [Row], i32, i32, &'static [&'static [Row]]);

const SQUARES: &[Case] = &[
    (&[SQUARE], 1024, 1024, &[&[GROWN]]),
    (&[SQUARE], -1024, -1024, &[&[SHRUNK]]),
    (&[SQUARE], 0, 0, &[&[SQUARE]]),
    (&[SQUARE], -9000, -9000, &[]),
    (&[SQUARE, HOLE], 1024, 1024, &[&[GROWN, SMALL_HOLE]]),
    (&[SQUARE, HOLE], -1024, -1024, &[&[SHRUNK, LARGE_HOLE]]),
    (&[SQUARE, HOLE], 1024, -1024, &[&[GROWN, LARGE_HOLE]]),
    (&[SQUARE, HOLE], 1024, 5000, &[&[GROWN]]),
];

/// A square walked twice.
const TWICE: Row = &[
    (0, 0),
    (10, 0),
    (10, 10),
    (0, 10),
    (0, 0),
    (10, 0),
    (10, 10),
    (0, 10),
];

/// A hole that passes the shrunk square's sides, whose bevels leave the four corners; a hole of a square that is walked
/// twice, which resolved all at once would be none; a square with a spike at a corner;
/// contours of area 0, and none.
const OTHERS: &[Case] = &[
    (
        &[SQUARE, HOLE],
        -2049,
        -2049,
        &[
            &[&[(2049, 2049), (4094, 2049), (2049, 4094)]],
            &[&[(2049, 12_290), (4094, 14_335), (2049, 14_335)]],
            &[&[(12_290, 2049), (14_335, 2049), (14_335, 4094)]],
            &[&[(12_290, 14_335), (14_335, 12_290), (14_335, 14_335)]],
        ],
    ),
    (
        &[TWICE, inner!(2, 2, 8, 8)],
        0,
        0,
        &[&[outer!(0, 0, 10, 10), inner!(2, 2, 8, 8)]],
    ),
    (
        &[
            SQUARE,
            &[(0, 0), (20_000, 0), (40_000, 0)],
            &[(30_000, 5)],
            &[],
            &[(0, 0), (30_000, 30_000), (30_000, 0), (0, 30_000)],
        ],
        1024,
        1024,
        &[&[GROWN]],
    ),
    (
        &[&[
            (0, 0),
            (100, 0),
            (100, 100),
            (100, 150),
            (100, 100),
            (0, 100),
        ]],
        10,
        10,
        &[&[&[
            (-10, 0),
            (0, -10),
            (100, -10),
            (110, 0),
            (110, 150),
            (90, 150),
            (90, 110),
            (0, 110),
            (-10, 100),
        ]]],
    ),
    (&[], 1024, 1024, &[]),
    (&[&[]], 1024, 1024, &[]),
];

#[test]
fn by_default(rt: HostRuntime) -> Result<(), Fail> {
    for cases in [SQUARES, OTHERS] {
        for case in cases {
            let (contours, outer, inner, wanted) = *case;
            let source = paths(rt.alloc(), contours)?;
            let style = IntOutlineStyle::new(outer).inner_offset(inner);
            expect(rt.alloc(), &source, &style, wanted)?;
        }
    }
    Ok(())
}

/// Two contours of which each is smaller than the least areas, and both together are not.
const TWO: &[Row] = &[outer!(0, 0, 4, 4), outer!(4, 0, 8, 4)];

/// The least area, whether outer contours run clockwise and vertices stay that contours run straight through, and the
/// outline of the two contours.
const OPTIONS: &[(u64, bool, &[&[Row]])] = &[
    (20, false, &[&[outer!(0, 0, 8, 4)]]),
    (33, false, &[]),
    (
        32,
        true,
        &[&[&[(0, 0), (0, 4), (4, 4), (8, 4), (8, 0), (4, 0)]]],
    ),
];

#[test]
fn least_area_of_the_whole(rt: HostRuntime) -> Result<(), Fail> {
    let source = paths(rt.alloc(), TWO)?;
    let style = IntOutlineStyle::new(0);
    for case in OPTIONS {
        let (area, other, wanted) = *case;
        let mut options = IntOverlayOptions::new();
        options.min_output_area = area;
        options.preserve_output_collinear = other;
        if other {
            options.output_direction = ContourDirection::Clockwise;
        }
        expect_custom(rt.alloc(), &source, &style, options, wanted)?;
    }
    Ok(())
}

/// A square with a vertex inside its lower side.
const STRAIGHT: Row = &[(0, 0), (2, 0), (4, 0), (4, 4), (0, 4)];

/// The same, with a triangle hung up there.
const HUNG_UP: Row = &[
    (0, 0),
    (2, 0),
    (1, -2),
    (3, -2),
    (2, 0),
    (4, 0),
    (4, 4),
    (0, 4),
];

/// One contour, the least area, whether outer contours run clockwise, whether vertices stay that contours run straight
/// through, and its outline. Alone the contour is resolved without these options, so the vertex inside the side comes
/// back where the triangle touches it, and else not.
const ALONE: &[(Row, (u64, bool, bool), &[&[Row]])] = &[
    (STRAIGHT, (0, false, true), &[&[outer!(0, 0, 4, 4)]]),
    (STRAIGHT, (16, true, true), &[&[inner!(0, 0, 4, 4)]]),
    (STRAIGHT, (17, false, false), &[]),
    (
        HUNG_UP,
        (0, true, false),
        &[&[inner!(0, 0, 4, 4)], &[&[(1, -2), (2, 0), (3, -2)]]],
    ),
    (
        HUNG_UP,
        (0, false, true),
        &[
            &[&[(0, 0), (2, 0), (4, 0), (4, 4), (0, 4)]],
            &[&[(1, -2), (3, -2), (2, 0)]],
        ],
    ),
    (
        HUNG_UP,
        (5, true, true),
        &[&[&[(0, 0), (0, 4), (4, 4), (4, 0), (2, 0)]]],
    ),
];

#[test]
fn options_of_one_contour(rt: HostRuntime) -> Result<(), Fail> {
    for case in ALONE {
        let (contour, (area, clockwise, straight), wanted) = *case;
        let source = path(rt.alloc(), contour)?;
        let mut options = IntOverlayOptions::new();
        options.min_output_area = area;
        options.preserve_output_collinear = straight;
        if clockwise {
            options.output_direction = ContourDirection::Clockwise;
        }
        expect_custom(
            rt.alloc(),
            &source,
            &IntOutlineStyle::new(0),
            options,
            wanted,
        )?;
    }
    Ok(())
}

const LEAST: i16 = -16_383;

const MOST: i16 = 16_383;

const SMALL_SQUARE: &[(i16, i16)] = outer!(LEAST, LEAST, MOST, MOST);

/// Twice the whole safe range, and the same clockwise.
const SMALL_TWICE: &[(i16, i16)] = &[
    (LEAST, LEAST),
    (MOST, LEAST),
    (MOST, MOST),
    (LEAST, MOST),
    (LEAST, LEAST),
    (MOST, LEAST),
    (MOST, MOST),
    (LEAST, MOST),
];

const SMALL_TWICE_BACK: &[(i16, i16)] = &[
    (LEAST, MOST),
    (MOST, MOST),
    (MOST, LEAST),
    (LEAST, LEAST),
    (LEAST, MOST),
    (MOST, MOST),
    (MOST, LEAST),
    (LEAST, LEAST),
];

/// Contours whose areas don't fit the wide type of `i16`.
const SMALL_REFUSED: &[&[&[(i16, i16)]]] = &[
    &[SMALL_TWICE],
    &[SMALL_SQUARE, SMALL_TWICE],
    &[outer!(0, 0, 100, 100), SMALL_TWICE],
    &[&[], SMALL_TWICE_BACK, SMALL_SQUARE],
];

#[test]
fn areas_at_the_end_of_the_wide_type(rt: HostRuntime) -> Result<(), Fail> {
    let style = IntOutlineStyle::new(0);
    for contours in SMALL_REFUSED {
        let source = paths(rt.alloc(), contours)?;
        expect_refused(rt.alloc(), &source, &style)?;
    }
    let square = paths(rt.alloc(), &[SMALL_SQUARE])?;
    expect(rt.alloc(), &square, &style, &[&[SMALL_SQUARE]])?;
    let point = paths::<i16>(rt.alloc(), &[&[(15_359, 0)]])?;
    expect(rt.alloc(), &point, &IntOutlineStyle::new(1024), &[])
}

const FAR: i32 = 1_073_741_823;

const NEAR: i32 = -1_073_741_823;

const LARGE_SQUARE: Row = outer!(NEAR, NEAR, FAR, FAR);

const LARGE_TWICE: Row = &[
    (NEAR, NEAR),
    (FAR, NEAR),
    (FAR, FAR),
    (NEAR, FAR),
    (NEAR, NEAR),
    (FAR, NEAR),
    (FAR, FAR),
    (NEAR, FAR),
];

#[test]
fn large_areas_at_the_end_of_the_wide_type(rt: HostRuntime) -> Result<(), Fail> {
    let style = IntOutlineStyle::new(0);
    let square = paths(rt.alloc(), &[LARGE_SQUARE])?;
    expect(rt.alloc(), &square, &style, &[&[LARGE_SQUARE]])?;
    let twice = paths(rt.alloc(), &[LARGE_TWICE])?;
    expect_refused(rt.alloc(), &twice, &style)
}

#[test]
fn double_areas(rt: HostRuntime) -> Result<(), AllocError> {
    let small = path(rt.alloc(), SMALL_SQUARE)?;
    assert!(rt; double_area(small.as_slice()) == 2_147_221_512);
    let large = path(rt.alloc(), LARGE_SQUARE)?;
    assert!(rt; double_area(large.as_slice()) == 9_223_372_019_674_906_632);
    let hole = path::<i32>(rt.alloc(), &[(0, 0), (0, 3), (4, 0)])?;
    assert!(rt; double_area(hole.as_slice()) == -12);
    Ok(())
}
