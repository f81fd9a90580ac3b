//! The edges that the builder adds for worked contours.

use i_overlay_mesh::outline::builder::OutlineBuilder;
use i_overlay_mesh::outline::offset::IntOutlineOffset;
use mesh_join::arc::ArcOptions;
use mesh_join::join::Join;
use mesh_join::style::{IntLineJoin, IntOutlineStyle};
use mesh_num::num::{Angle, IntPoint, OverlayInt};
use mesh_test_support::compared::{are_same_edges, expect_that};
use mesh_test_support::edges::edges_of_segments;
use mesh_test_support::joins::JoinKind;
use mesh_test_support::lists::path;
use mesh_test_support::plain::{Edge, Point, closed};
use std::alloc::Global;
use std::fmt::Debug;
use std::test::Fail;

/// The style with this offset and these joins.
pub fn styled<I: OverlayInt>(offset: I, join: JoinKind) -> IntOutlineStyle<I> {
    let style = IntOutlineStyle::new(offset);
    match join {
        JoinKind::Bevel => style,
        JoinKind::Miter(bits, min_turn) => style
            .line_join(IntLineJoin::Miter(Angle::from_bits(bits)))
            .miter_min_turn(Angle::from_bits(min_turn)),
        JoinKind::Round(bits, rotation_precision) => {
            style.line_join(IntLineJoin::Round(ArcOptions {
                max_step: Angle::from_bits(bits),
                rotation_precision,
            }))
        }
    }
}

/// The edges of the outline of a contour, as the builder adds them.
pub(crate) fn built<I: OverlayInt>(
    alloc: Global,
    path: &Vec<IntPoint<I>>,
    style: IntOutlineStyle<I>,
) -> Result<Vec<Edge>, Fail> {
    path.validate_outline(&style)?;
    let join = Join::new(alloc, style.join, style.miter_min_turn);
    let mut segments = Vec::new(alloc);
    OutlineBuilder::new(style.outer_offset, join).build(path, &mut segments)?;
    Ok(edges_of_segments(alloc, &segments)?)
}

const SQUARE: [(i32, i32); 4] = [(0, 0), (16_384, 0), (16_384, 16_384), (0, 16_384)];

/// A square that runs clockwise, as a hole's boundary does.
const HOLE: [(i32, i32); 4] = [
    (4096, 4096),
    (4096, 12_288),
    (12_288, 12_288),
    (12_288, 4096),
];

/// A square with a spike at a corner.
const SPIKE: [(i32, i32); 6] = [
    (0, 0),
    (100, 0),
    (100, 100),
    (100, 150),
    (100, 100),
    (0, 100),
];

/// The outline of the contour in this style is the loop of these points.
pub(crate) fn expect_loop<I: OverlayInt + Debug>(
    alloc: Global,
    contour: &[(I, I)],
    style: IntOutlineStyle<I>,
    points: &[Point],
) -> Result<(), Fail> {
    let edges = built(alloc, &path(alloc, contour)?, style)?;
    let is_same = are_same_edges(edges, closed(alloc, points)?)?;
    expect_that(is_same, &contour)
}

/// Contours, offsets, and the loops that their outlines are.
const LOOPS: &[(&[(i32, i32)], i32, &[Point])] = &[
    (
        &SQUARE,
        1024,
        &[
            (0, -1024),
            (16_384, -1024),
            (17_408, 0),
            (17_408, 16_384),
            (16_384, 17_408),
            (0, 17_408),
            (-1024, 16_384),
            (-1024, 0),
        ],
    ),
    (
        &SQUARE,
        -1024,
        &[
            (0, 1024),
            (16_384, 1024),
            (16_384, 0),
            (15_360, 0),
            (15_360, 16_384),
            (16_384, 16_384),
            (16_384, 15_360),
            (0, 15_360),
            (0, 16_384),
            (1024, 16_384),
            (1024, 0),
            (0, 0),
        ],
    ),
    (
        &SQUARE,
        0,
        &[(0, 0), (16_384, 0), (16_384, 16_384), (0, 16_384)],
    ),
    (
        &HOLE,
        1024,
        &[
            (5120, 4096),
            (5120, 12_288),
            (4096, 12_288),
            (4096, 11_264),
            (12_288, 11_264),
            (12_288, 12_288),
            (11_264, 12_288),
            (11_264, 4096),
            (12_288, 4096),
            (12_288, 5120),
            (4096, 5120),
            (4096, 4096),
        ],
    ),
    (
        &SPIKE,
        10,
        &[
            (0, -10),
            (100, -10),
            (110, 0),
            (110, 150),
            (90, 150),
            (90, 100),
            (100, 100),
            (100, 110),
            (0, 110),
            (-10, 100),
            (-10, 0),
        ],
    ),
    (&[(0, 0), (10, 0)], 4, &[(0, -4), (10, -4), (10, 4), (0, 4)]),
    (&[(7, 7), (7, 7), (7, 7)], 4, &[]),
];

#[test]
fn worked_loops(rt: HostRuntime) -> Result<(), Fail> {
    for (contour, offset, points) in LOOPS {
        expect_loop(
            rt.alloc(),
            contour,
            styled(*offset, JoinKind::Bevel),
            points,
        )?;
    }
    Ok(())
}
