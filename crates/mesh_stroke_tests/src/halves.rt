//! Halves: worked ones, what they reach, and both together as the whole.

use crate::answers::expect;
use crate::drawn::{add_stroke, loops};
use crate::styles::{CapRow, Caps, StyleRow, widened};
use i_overlay_mesh::IntOutlineError;
use i_overlay_mesh::stroke::offset::IntStrokeOffset;
use i_overlay_mesh::stroke::radius::padding;
use mesh_join::style::{IntStrokeStyle, StrokeSide};
use mesh_num::num::OverlayInt;
use mesh_test_support::compared::{are_same_edges, expect_equal, expect_that};
use mesh_test_support::edges::edges_of_segments;
use mesh_test_support::joins::JoinKind;
use mesh_test_support::lists::path;
use mesh_test_support::plain::{Edge, Point, plus, winding};
use std::alloc::{AllocError, Global};
use std::test::Fail;

const ROUND: JoinKind = JoinKind::Round(536_870_912, 5);

const LINE: &[(i16, i16)] = &[(0, 0), (8192, 0)];

const CORNER: &[(i16, i16)] = &[(0, 0), (100, 0), (100, 100)];

const SPIKE: &[(i16, i16)] = &[(0, 0), (10, 0), (0, 0)];

const SQUARES: Caps = (CapRow::Square, CapRow::Square);

/// A path, whether it is closed, the width, the joins, the side, and loops that have the edges of its half.
type Row = (
    &'static [(i16, i16)],
    bool,
    i16,
    JoinKind,
    StrokeSide,
    &'static [&'static [Point]],
);

const ROWS: &[Row] = &[
    (
        LINE,
        false,
        2048,
        JoinKind::Bevel,
        StrokeSide::Right,
        &[&[(0, 0), (0, -1024), (8192, -1024), (8192, 0)]],
    ),
    (
        LINE,
        false,
        2048,
        JoinKind::Bevel,
        StrokeSide::Left,
        &[&[(0, 0), (8192, 0), (8192, 1024), (0, 1024)]],
    ),
    (
        CORNER,
        false,
        20,
        JoinKind::Bevel,
        StrokeSide::Right,
        &[&[
            (0, 0),
            (0, -10),
            (100, -10),
            (110, 0),
            (110, 100),
            (100, 100),
            (100, 0),
        ]],
    ),
    (
        CORNER,
        false,
        20,
        JoinKind::Bevel,
        StrokeSide::Left,
        &[&[
            (0, 0),
            (100, 0),
            (100, 100),
            (90, 100),
            (90, 0),
            (100, 0),
            (100, 10),
            (0, 10),
        ]],
    ),
    (
        SPIKE,
        false,
        4,
        ROUND,
        StrokeSide::Right,
        &[
            &[
                (0, 0),
                (0, -2),
                (10, -2),
                (11, -1),
                (12, 0),
                (12, 1),
                (10, 2),
                (0, 2),
            ],
            &[(0, 0), (10, 0)],
        ],
    ),
    (
        SPIKE,
        false,
        4,
        ROUND,
        StrokeSide::Left,
        &[
            &[(0, 0), (0, -2), (10, -2), (10, 0), (10, 2), (0, 2)],
            &[(0, 0), (10, 0)],
        ],
    ),
    (LINE, false, 2, ROUND, StrokeSide::Left, &[]),
    (LINE, true, 2, ROUND, StrokeSide::Right, &[]),
];

/// The style on this side.
fn sided<I: OverlayInt + From<i16>>(
    alloc: Global,
    row: StyleRow,
    side: StrokeSide,
) -> Result<IntStrokeStyle<I>, AllocError> {
    Ok(row.style::<I>(alloc)?.side(side))
}

/// The edges of the stroke of a path on one side or both.
fn drawn_on<I: OverlayInt + From<i16>>(
    alloc: Global,
    spots: &[(i16, i16)],
    is_closed: bool,
    row: StyleRow,
    side: StrokeSide,
) -> Result<Vec<Edge>, Fail> {
    let points = widened::<I>(alloc, spots)?;
    let mut segments = Vec::new(alloc);
    add_stroke(
        alloc,
        &points,
        is_closed,
        &sided(alloc, row, side)?,
        &mut segments,
    )?;
    Ok(edges_of_segments(alloc, &segments)?)
}

/// The half of the row has these edges, whatever its caps.
fn expect_edges<I: OverlayInt + From<i16>>(alloc: Global, row: &Row) -> Result<(), Fail> {
    let (path, is_closed, width, join, side, wanted) = *row;
    let caps = [CapRow::Butt, CapRow::Square, CapRow::Round(536_870_912, 5)];
    for cap in caps {
        let style = StyleRow {
            width,
            join,
            start: cap,
            end: CapRow::Custom(&[(0, -9), (9, 9)]),
        };
        let found = drawn_on::<I>(alloc, path, is_closed, style, side)?;
        expect_that(are_same_edges(found, loops(alloc, wanted)?)?, row)?;
    }
    Ok(())
}

#[test]
fn worked_halves(rt: HostRuntime) -> Result<(), Fail> {
    for row in ROWS {
        expect_edges::<i16>(rt.alloc(), row)?;
        expect_edges::<i32>(rt.alloc(), row)?;
    }
    Ok(())
}

#[test]
fn shape_of_a_left_half(rt: HostRuntime) -> Result<(), Fail> {
    let points = widened::<i32>(rt.alloc(), CORNER)?;
    let style = IntStrokeStyle::new(20).side(StrokeSide::Left);
    let wanted: &[&[&[(i32, i32)]]] = &[&[&[
        (0, 0),
        (100, 0),
        (100, 100),
        (90, 100),
        (90, 10),
        (0, 10),
    ]]];
    expect(rt.alloc(), &points, &style, false, wanted)
}

#[test]
fn caps_of_halves_reach_nowhere(rt: HostRuntime) -> Result<(), Fail> {
    let row = StyleRow {
        width: 2048,
        join: JoinKind::Bevel,
        start: SQUARES.0,
        end: SQUARES.1,
    };
    let rows = [
        (
            StrokeSide::Both,
            2048,
            Err(IntOutlineError::CoordinateOutOfRange),
        ),
        (StrokeSide::Left, 1024, Ok(())),
        (StrokeSide::Right, 1024, Ok(())),
    ];
    let near = path::<i16>(rt.alloc(), &[(0, 0)])?;
    let far = path::<i16>(rt.alloc(), &[(15_000, 0)])?;
    for (side, reach, answer) in rows {
        let style = sided::<i16>(rt.alloc(), row, side)?;
        expect_equal(&padding(&style), &reach, &side)?;
        expect_equal(&near.validate_stroke(&style), &Ok(()), &side)?;
        expect_equal(&far.validate_stroke(&style), &answer, &side)?;
    }
    Ok(())
}

/// Both halves and the whole with butt caps.
#[derive(Drop)]
struct Halves {
    left: Vec<Edge>,
    right: Vec<Edge>,
    whole: Vec<Edge>,
}

impl Halves {
    fn new<I: OverlayInt + From<i16>>(
        alloc: Global,
        path: &[(i16, i16)],
        is_closed: bool,
        style: StyleRow,
    ) -> Result<Halves, Fail> {
        let butts = StyleRow {
            start: CapRow::Butt,
            end: CapRow::Butt,
            ..style
        };
        Ok(Halves {
            left: drawn_on::<I>(alloc, path, is_closed, style, StrokeSide::Left)?,
            right: drawn_on::<I>(alloc, path, is_closed, style, StrokeSide::Right)?,
            whole: drawn_on::<I>(alloc, path, is_closed, butts, StrokeSide::Both)?,
        })
    }

    /// Up to this distance from a point of the grid 2 the windings of both halves add up to that of the whole.
    fn expect_near(&self, middle: Point, distance: i128) -> Result<(), Fail> {
        let least = distance.wrapping_neg();
        for x in least..=distance {
            for y in least..=distance {
                let q = plus(middle, (x, y));
                let sum = winding(2, q, &self.left).wrapping_add(winding(2, q, &self.right));
                expect_equal(&sum, &winding(2, q, &self.whole), &q)?;
            }
        }
        Ok(())
    }
}

/// Both halves of the path that turns back make the whole at each point of the grid 2 within 3 of it, and farther.
fn expect_spike(alloc: Global, is_closed: bool) -> Result<(), Fail> {
    let style = StyleRow {
        width: 4,
        join: ROUND,
        start: SQUARES.0,
        end: SQUARES.1,
    };
    let halves = Halves::new::<i16>(alloc, SPIKE, is_closed, style)?;
    halves.expect_near((10, 0), 16)
}

#[test]
fn halves_of_a_spike(rt: HostRuntime) -> Result<(), Fail> {
    expect_spike(rt.alloc(), false)?;
    expect_spike(rt.alloc(), true)
}
