//! Worked outlines with round joins.

use crate::outlines::{expect_loop, styled};
use i_overlay_mesh::outline::offset::IntOutlineOffset;
use mesh_join::join::Join;
use mesh_join::style::IntOutlineStyle;
use mesh_num::num::OverlayInt;
use mesh_test_support::compared::{expect_equal, expect_that};
use mesh_test_support::joins::JoinKind;
use mesh_test_support::lists::path;
use mesh_test_support::plain::Point;
use std::alloc::{AllocError, Global};
use std::test::Fail;

/// The bits of an arc's greatest step, and how finely it is turned.
type Fineness = (u32, u32);

const DEFAULT: Fineness = (536_870_912, 5);

/// A style with round joins.
fn round<I: OverlayInt>(offset: I, (bits, precision): Fineness) -> IntOutlineStyle<I> {
    styled(offset, JoinKind::Round(bits, precision))
}

/// A contour, the offset, how fine the arcs are, and the loop that its outline is.
type Loop<I> = (&'static [(I, I)], I, Fineness, &'static [Point]);

const SQUARE: [(i32, i32); 4] = [(0, 0), (16_384, 0), (16_384, 16_384), (0, 16_384)];

/// A square that runs clockwise, as a hole's boundary does.
const HOLE: [(i32, i32); 4] = [
    (4096, 4096),
    (4096, 12_288),
    (12_288, 12_288),
    (12_288, 4096),
];

// The loops were computed apart from this program, with Python's whole numbers, from the definition of an outline.
const LOOPS_OF_I32: &[Loop<i32>] = &[
    (
        &SQUARE,
        1024,
        DEFAULT,
        &[
            (0, -1024),
            (16_384, -1024),
            (17_091, -741),
            (17_407, -49),
            (17_408, 0),
            (17_408, 16_384),
            (17_125, 17_091),
            (16_433, 17_407),
            (16_384, 17_408),
            (0, 17_408),
            (-707, 17_125),
            (-1023, 16_433),
            (-1024, 16_384),
            (-1024, 0),
            (-741, -707),
            (-49, -1023),
        ],
    ),
    (
        &HOLE,
        -1024,
        DEFAULT,
        &[
            (3072, 4096),
            (3072, 12_288),
            (3355, 12_995),
            (4047, 13_311),
            (4096, 13_312),
            (12_288, 13_312),
            (12_995, 13_029),
            (13_311, 12_337),
            (13_312, 12_288),
            (13_312, 4096),
            (13_029, 3389),
            (12_337, 3073),
            (12_288, 3072),
            (4096, 3072),
            (3389, 3355),
            (3073, 4047),
        ],
    ),
    (
        &HOLE,
        1024,
        DEFAULT,
        &[
            (5120, 4096),
            (5120, 12_288),
            (4096, 12_288),
            (4096, 11_264),
            (12_288, 11_264),
            (12_288, 12_288),
            (11_264, 12_288),
            (11_264, 4096),
            (12_288, 4096),
            (12_288, 5120),
            (4096, 5120),
            (4096, 4096),
        ],
    ),
    (
        &[(0, 0), (10, 0)],
        4,
        DEFAULT,
        &[
            (0, -4),
            (10, -4),
            (13, -3),
            (14, 0),
            (13, 3),
            (10, 4),
            (0, 4),
            (-3, 3),
            (-4, 0),
            (-3, -3),
        ],
    ),
    (
        &[(0, 0), (1000, 575), (2000, 1155), (0, 2000)],
        1,
        (4_194_304, 32),
        &[
            (0, -1),
            (1000, 574),
            (1001, 574),
            (2001, 1154),
            (2001, 1155),
            (2001, 1156),
            (2000, 1156),
            (0, 2001),
            (-1, 2001),
            (-1, 2000),
            (-1, 0),
            (-1, -1),
        ],
    ),
    (
        &[(0, 0), (40, 0), (20, 10), (0, 40)],
        -5,
        (68_356_528, 5),
        &[
            (0, 5),
            (40, 5),
            (40, 0),
            (38, -4),
            (18, 6),
            (17, 6),
            (16, 7),
            (-4, 37),
            (0, 40),
            (5, 40),
            (5, 0),
            (0, 0),
        ],
    ),
];

const LOOPS_OF_I16: &[Loop<i16>] = &[
    // The arc round (0, 0) has 34 directions. The point of the last one, (-2, -2), falls behind the one before it, and
    // is not used.
    (
        &[(20, 0), (0, 0), (-84, 54)],
        -3,
        (12_309_758, 32),
        &[
            (20, -3),
            (0, -3),
            (-1, -3),
            (-2, -3),
            (-86, 51),
            (-86, 52),
            (-87, 52),
            (-87, 53),
            (-87, 54),
            (-87, 55),
            (-87, 56),
            (-86, 56),
            (-86, 57),
            (-85, 57),
            (-84, 57),
            (-83, 57),
            (21, 3),
            (22, 3),
            (22, 2),
            (23, 2),
            (23, 1),
            (23, 0),
            (23, -1),
            (23, -2),
            (22, -2),
            (22, -3),
            (21, -3),
        ],
    ),
    (
        &[(0, 0), (10, 0)],
        -2,
        (68_356_528, 5),
        &[
            (0, 2),
            (10, 2),
            (11, 2),
            (11, 1),
            (12, 1),
            (12, 0),
            (12, -1),
            (11, -1),
            (11, -2),
            (10, -2),
            (0, -2),
            (-1, -2),
            (-1, -1),
            (-2, -1),
            (-2, 0),
            (-2, 1),
            (-1, 1),
            (-1, 2),
        ],
    ),
    (
        &[(0, 0), (40, 0), (20, 30)],
        3,
        (1, 40),
        &[
            (0, -3),
            (40, -3),
            (41, -3),
            (42, -3),
            (42, -2),
            (43, -2),
            (43, -1),
            (43, 0),
            (43, 1),
            (43, 2),
            (42, 2),
            (22, 32),
            (22, 33),
            (21, 33),
            (20, 33),
            (19, 33),
            (18, 33),
            (18, 32),
            (-2, 2),
            (-3, 2),
            (-3, 1),
            (-3, 0),
            (-3, -1),
            (-3, -2),
            (-2, -2),
            (-2, -3),
            (-1, -3),
        ],
    ),
    (
        &[(0, 0), (40, 0), (20, 30)],
        -3,
        (4_294_967_295, 0),
        &[
            (0, 3),
            (40, 3),
            (40, 0),
            (38, -2),
            (18, 28),
            (20, 30),
            (22, 28),
            (2, -2),
            (0, 0),
        ],
    ),
    (&[(7, 7), (7, 7)], 3, DEFAULT, &[]),
];

/// Corners of a square and of lines, clockwise arcs, options past their ranges, and an arc whose last point falls
/// behind the one before it.
#[test]
fn worked_loops(rt: HostRuntime) -> Result<(), Fail> {
    for row in LOOPS_OF_I32 {
        let (contour, offset, fineness, points) = *row;
        expect_loop(rt.alloc(), contour, round(offset, fineness), points)?;
    }
    for row in LOOPS_OF_I16 {
        let (contour, offset, fineness, points) = *row;
        expect_loop(rt.alloc(), contour, round(offset, fineness), points)?;
    }
    Ok(())
}

/// Whether a point may be moved in a style.
fn accepts(alloc: Global, style: &IntOutlineStyle<i16>, x: i16) -> Result<bool, AllocError> {
    Ok(path(alloc, &[(x, 0)])?.validate_outline(style).is_ok())
}

/// A round join reaches as far as its radius, so an outline is refused where its contour is no farther from the end.
#[test]
fn paddings(rt: HostRuntime) -> Result<(), Fail> {
    let style = round::<i16>(1024, DEFAULT);
    expect_equal(&Join::<i16>::padding(style.join, 1024), &1024, &"outwards")?;
    expect_equal(&Join::<i16>::padding(style.join, -1024), &1024, &"inwards")?;
    expect_that(accepts(rt.alloc(), &style, 15_359)?, &"near")?;
    expect_that(!accepts(rt.alloc(), &style, 15_360)?, &"far")
}
