//! Worked outlines with miters.

use crate::outlines::{expect_loop, styled};
use mesh_num::num::OverlayInt;
use mesh_test_support::joins::JoinKind;
use mesh_test_support::plain::Point;
use std::alloc::Global;
use std::fmt::Debug;
use std::test::Fail;

/// A contour, the offset, the bits of the angle of its miters, from slight turns on, and the loop that its outline is.
type Row<I> = (&'static [(I, I)], I, u32, &'static [Point]);

// The loops were computed apart from this program, with Python's whole numbers, from the definition of an outline.
const SMALL: &[Row<i8>] = &[
    // Each peak clipped, round a contour in both senses.
    (
        &[(0, 0), (40, 10), (0, 20)],
        5,
        1_073_741_824,
        &[
            (-5, -5),
            (-4, -6),
            (1, -5),
            (41, 5),
            (46, 6),
            (46, 14),
            (41, 15),
            (1, 25),
            (-4, 26),
            (-5, 25),
            (-5, 20),
            (-5, 0),
        ],
    ),
    (
        &[(0, 0), (0, 20), (40, 10)],
        -5,
        1_073_741_824,
        &[
            (-5, -5),
            (-5, 0),
            (-5, 20),
            (-5, 25),
            (-4, 26),
            (1, 25),
            (41, 15),
            (46, 14),
            (46, 6),
            (41, 5),
            (1, -5),
            (-4, -6),
        ],
    ),
    // A sharp peak and two blunt ones, in both senses.
    (
        &[(0, 0), (40, 10), (0, 20)],
        3,
        0,
        &[
            (-3, -4),
            (1, -3),
            (41, 7),
            (53, 10),
            (41, 13),
            (1, 23),
            (-3, 24),
            (-3, 20),
            (-3, 0),
        ],
    ),
    (
        &[(0, 0), (0, 20), (40, 10)],
        -3,
        0,
        &[
            (-3, -4),
            (-3, 0),
            (-3, 20),
            (-3, 24),
            (1, 23),
            (41, 13),
            (53, 10),
            (41, 7),
            (1, -3),
        ],
    ),
    // Inner corners alone, which have no miters.
    (
        &[(0, 0), (40, 10), (0, 20)],
        -3,
        0,
        &[
            (-1, 3),
            (39, 13),
            (40, 10),
            (39, 7),
            (-1, 17),
            (0, 20),
            (3, 20),
            (3, 0),
            (0, 0),
        ],
    ),
    (
        &[(0, 0), (0, 20), (40, 10)],
        3,
        0,
        &[
            (-1, 3),
            (0, 0),
            (3, 0),
            (3, 20),
            (0, 20),
            (-1, 17),
            (39, 7),
            (40, 10),
            (39, 13),
        ],
    ),
    // Peaks past the padding that would not turn back.
    (
        &[(0, 0), (-5, 3), (-1, 0)],
        1,
        70_453_008,
        &[
            (-6, 2),
            (-2, -1),
            (-1, -1),
            (0, -1),
            (4, -1),
            (1, 1),
            (-4, 4),
        ],
    ),
    (
        &[(0, 0), (0, -1), (3, 4)],
        1,
        70_453_008,
        &[
            (-1, -5),
            (1, -2),
            (4, 3),
            (2, 5),
            (-1, 1),
            (-1, 0),
            (-1, -1),
        ],
    ),
    (
        &[(-5, -2), (5, 4), (1, 1)],
        -1,
        70_453_008,
        &[
            (-22, -11),
            (-6, -1),
            (4, 5),
            (6, 3),
            (2, 0),
            (1, 0),
            (-5, -3),
        ],
    ),
    // Ends of clipping edges that would turn back.
    (
        &[(-3, -3), (-1, -1), (1, 2)],
        3,
        0,
        &[(-37, -41), (-1, -5), (1, -3), (3, 0), (-1, 4), (-5, -1)],
    ),
    (
        &[(8, 1), (8, 6), (6, -7)],
        1,
        70_453_008,
        &[(5, -7), (7, -7), (9, 1), (9, 6), (9, 19), (7, 6)],
    ),
    (
        &[(-3, -11), (-3, -9), (12, 1)],
        -3,
        59_652_323,
        &[
            (-6, -17),
            (-6, -11),
            (-6, -9),
            (-6, -8),
            (-5, -7),
            (10, 3),
            (14, -1),
            (-1, -13),
        ],
    ),
    (
        &[(1, -2), (-5, 1), (5, 1)],
        -1,
        1_393_307_311,
        &[
            (-6, 0),
            (-6, 2),
            (-5, 2),
            (5, 2),
            (6, 2),
            (7, 1),
            (6, 0),
            (2, -3),
            (1, -3),
            (-5, 0),
        ],
    ),
    // Peaks that would turn back.
    (
        &[(2, -1), (0, 9), (7, -10)],
        -2,
        70_453_008,
        &[
            (-7, 35),
            (2, 10),
            (9, -9),
            (19, -36),
            (5, -11),
            (0, -2),
            (0, -1),
            (-2, 9),
        ],
    ),
    (
        &[(2, 5), (-5, -1), (0, 4)],
        -2,
        1_077_975_922,
        &[
            (-7, -1),
            (-6, 0),
            (-1, 5),
            (-1, 6),
            (1, 7),
            (3, 8),
            (5, 4),
            (3, 3),
            (-4, -3),
            (-6, -4),
        ],
    ),
];

const SQUARE: &[(i32, i32)] = &[(0, 0), (16_384, 0), (16_384, 16_384), (0, 16_384)];

/// The rows of larger numbers: peaks, clipped peaks, and a bevel where the peak would turn back.
const LARGE: &[Row<i32>] = &[
    (
        SQUARE,
        1024,
        536_870_912,
        &[
            (0, -1024),
            (16_384, -1024),
            (17_408, -1024),
            (17_408, 0),
            (17_408, 16_384),
            (17_408, 17_408),
            (16_384, 17_408),
            (0, 17_408),
            (-1024, 17_408),
            (-1024, 16_384),
            (-1024, 0),
            (-1024, -1024),
        ],
    ),
    (
        SQUARE,
        1024,
        1_610_612_736,
        &[
            (0, -1024),
            (16_384, -1024),
            (16_808, -1024),
            (17_408, -424),
            (17_408, 0),
            (17_408, 16_384),
            (17_408, 16_808),
            (16_808, 17_408),
            (16_384, 17_408),
            (0, 17_408),
            (-424, 17_408),
            (-1024, 16_808),
            (-1024, 16_384),
            (-1024, 0),
            (-1024, -424),
            (-424, -1024),
        ],
    ),
    (
        &[(0, 0), (1000, 575), (2000, 1155), (0, 2000)],
        1,
        536_870_912,
        &[
            (0, -1),
            (1000, 574),
            (1001, 574),
            (2001, 1154),
            (2003, 1155),
            (2000, 1156),
            (0, 2001),
            (-1, 2001),
            (-1, 2000),
            (-1, 0),
            (-1, -2),
        ],
    ),
];

/// A loop of small numbers, at one width of them.
fn expect_small_loop<I: OverlayInt + From<i8> + Debug>(
    alloc: Global,
    (contour, offset, bits, points): Row<i8>,
) -> Result<(), Fail> {
    let mut spots = Vec::new(alloc);
    for (x, y) in contour {
        spots.push((I::from(*x), I::from(*y)))?;
    }
    let style = styled(I::from(offset), JoinKind::Miter(bits, 0));
    expect_loop(alloc, &spots, style, points)
}

#[test]
fn small_loops(rt: HostRuntime) -> Result<(), Fail> {
    for row in SMALL {
        expect_small_loop::<i16>(rt.alloc(), *row)?;
        expect_small_loop::<i32>(rt.alloc(), *row)?;
    }
    Ok(())
}

#[test]
fn large_loops(rt: HostRuntime) -> Result<(), Fail> {
    for (contour, offset, bits, points) in LARGE {
        let style = styled(*offset, JoinKind::Miter(*bits, 0));
        expect_loop(rt.alloc(), contour, style, points)?;
    }
    Ok(())
}
