//! Worked strokes, from outside the program: their edges.

use crate::drawn::{drawn, loops};
use crate::styles::{CapRow, Caps, StyleRow};
use mesh_num::num::OverlayInt;
use mesh_test_support::compared::{are_same_edges, expect_that};
use mesh_test_support::joins::JoinKind;
use mesh_test_support::plain::{Edge, Point};
use std::alloc::Global;
use std::test::Fail;

const ROUND: JoinKind = JoinKind::Round(536_870_912, 5);

const LINE: &[(i16, i16)] = &[(0, 0), (8192, 0)];

const SHORT_LINE: &[(i16, i16)] = &[(0, 0), (10, 0)];

const SPIKE: &[(i16, i16)] = &[(0, 0), (10, 0), (0, 0)];

/// An arrow's head, and points that lead inwards, outwards the wrong way round, and none.
const TIP: CapRow = CapRow::Custom(&[(0, -1024), (1024, 0), (0, 1024)]);

const NOTCH: CapRow = CapRow::Custom(&[(-4096, 0)]);

const TURNED: CapRow = CapRow::Custom(&[(0, 1024), (0, -1024)]);

const EMPTY: CapRow = CapRow::Custom(&[]);

/// A path, whether it is closed, the width, the joins, both caps, and loops that have the edges of its stroke.
type Row = (
    &'static [(i16, i16)],
    bool,
    i16,
    JoinKind,
    Caps,
    &'static [&'static [Point]],
);

const BUTTS: Caps = (CapRow::Butt, CapRow::Butt);

const SQUARES: Caps = (CapRow::Square, CapRow::Square);

const LINES: &[Row] = &[
    (
        LINE,
        false,
        2048,
        JoinKind::Bevel,
        BUTTS,
        &[&[(0, -1024), (8192, -1024), (8192, 1024), (0, 1024)]],
    ),
    (
        LINE,
        false,
        2048,
        JoinKind::Bevel,
        SQUARES,
        &[&[
            (0, -1024),
            (8192, -1024),
            (9216, -1024),
            (9216, 1024),
            (8192, 1024),
            (0, 1024),
            (-1024, 1024),
            (-1024, -1024),
        ]],
    ),
    (SHORT_LINE, false, -5, JoinKind::Bevel, SQUARES, &[]),
    (SHORT_LINE, false, 0, JoinKind::Bevel, BUTTS, &[]),
    (SHORT_LINE, false, 1, JoinKind::Bevel, BUTTS, &[]),
    (SHORT_LINE, false, 2, JoinKind::Bevel, BUTTS, &[]),
    (SHORT_LINE, true, 2, ROUND, BUTTS, &[]),
    (
        SHORT_LINE,
        false,
        3,
        JoinKind::Bevel,
        BUTTS,
        &[&[(0, -2), (10, -2), (10, 2), (0, 2)]],
    ),
    (&[(7, 7), (7, 7), (7, 7)], false, 8, ROUND, SQUARES, &[]),
    (&[(7, 7), (7, 7), (7, 7)], true, 8, ROUND, SQUARES, &[]),
    (&[(7, 7)], true, 8, ROUND, SQUARES, &[]),
    (&[], false, 8, ROUND, SQUARES, &[]),
];

/// A path that turns back, open and closed.
const SPIKES: &[Row] = &[
    (
        SPIKE,
        false,
        4,
        ROUND,
        BUTTS,
        &[
            &[(0, -2), (10, -2), (10, 0), (10, 2), (0, 2)],
            &[
                (0, -2),
                (10, -2),
                (11, -1),
                (12, 0),
                (12, 1),
                (10, 2),
                (0, 2),
            ],
        ],
    ),
    (
        SPIKE,
        true,
        4,
        ROUND,
        BUTTS,
        &[
            &[(0, -2), (10, -2), (10, 0), (10, 2), (0, 2), (0, 0)],
            &[
                (0, -2),
                (10, -2),
                (11, -1),
                (12, 0),
                (12, 1),
                (10, 2),
                (0, 2),
                (-1, 1),
                (-2, 0),
                (-2, -1),
            ],
        ],
    ),
];

const CUSTOM: &[Row] = &[
    (
        LINE,
        false,
        2048,
        JoinKind::Bevel,
        (CapRow::Butt, TIP),
        &[&[
            (0, -1024),
            (8192, -1024),
            (9216, 0),
            (8192, 1024),
            (0, 1024),
        ]],
    ),
    (
        LINE,
        false,
        2048,
        JoinKind::Bevel,
        (TIP, TIP),
        &[&[
            (0, -1024),
            (8192, -1024),
            (9216, 0),
            (8192, 1024),
            (0, 1024),
            (-1024, 0),
        ]],
    ),
    (
        LINE,
        false,
        2048,
        JoinKind::Bevel,
        (CapRow::Butt, EMPTY),
        &[&[(0, -1024), (8192, -1024), (8192, 1024), (0, 1024)]],
    ),
    (
        LINE,
        false,
        2048,
        JoinKind::Bevel,
        (CapRow::Butt, NOTCH),
        &[&[
            (0, -1024),
            (8192, -1024),
            (4096, 0),
            (8192, 1024),
            (0, 1024),
        ]],
    ),
    (
        LINE,
        false,
        2048,
        JoinKind::Bevel,
        (CapRow::Butt, TURNED),
        &[
            &[(0, -1024), (8192, -1024), (8192, 1024), (0, 1024)],
            &[(8192, -1024), (8192, 1024)],
        ],
    ),
];

/// The stroke of the row has these edges, at the width `I`, and so has that of the path read backwards with its caps
/// exchanged: no vertex of these rows is one that the path runs straight through.
fn expect_edges<I: OverlayInt + From<i16>>(alloc: Global, row: &Row) -> Result<(), Fail> {
    let (path, is_closed, width, join, (start, end), wanted) = *row;
    let style = StyleRow {
        width,
        join,
        start,
        end,
    };
    let found = drawn::<I>(alloc, path, is_closed, style)?;
    expect_loops(alloc, found, wanted, &(row, "read forwards"))?;
    let mut back = Vec::from_slice(alloc, path)?;
    back.reverse();
    let found = drawn::<I>(alloc, &back, is_closed, style.exchanged())?;
    expect_loops(alloc, found, wanted, &(row, "read backwards"))
}

/// The edges are those of the loops.
fn expect_loops(
    alloc: Global,
    found: Vec<Edge>,
    wanted: &[&[Point]],
    case: &(&Row, &str),
) -> Result<(), Fail> {
    let is_same = are_same_edges(found, loops(alloc, wanted)?)?;
    expect_that(is_same, case)
}

/// Each row, at both widths.
fn expect_rows(alloc: Global, rows: &[Row]) -> Result<(), Fail> {
    for row in rows {
        expect_edges::<i16>(alloc, row)?;
        expect_edges::<i32>(alloc, row)?;
    }
    Ok(())
}

#[test]
fn lines(rt: HostRuntime) -> Result<(), Fail> {
    expect_rows(rt.alloc(), LINES)
}

#[test]
fn spikes(rt: HostRuntime) -> Result<(), Fail> {
    expect_rows(rt.alloc(), SPIKES)
}

#[test]
fn custom_caps(rt: HostRuntime) -> Result<(), Fail> {
    expect_rows(rt.alloc(), CUSTOM)
}
