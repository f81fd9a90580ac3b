//! How near to its path a stroke holds every point, by numbers of `reference/distances.py`; and the formula by which
//! radius and step are chosen, by numbers of plain Python.

use crate::styles::{CapRow, StyleRow, widened};
use i_overlay_mesh::stroke::offset::IntStrokeOffset;
use mesh_inner::formula::{radius_for, step_for};
use mesh_inner::reach::inner_reach;
use mesh_num::num::{Angle, OverlayInt};
use mesh_test_support::compared::expect_equal;
use mesh_test_support::joins::JoinKind;
use std::alloc::Global;
use std::test::Fail;

/// Paths, whether they are closed, a width, joins, both caps, and what is told.
type Row = (
    &'static [&'static [(i16, i16)]],
    bool,
    (i16, JoinKind, CapRow, CapRow),
    Option<u64>,
);

const TURN: &[(i16, i16)] = &[(0, 0), (100, 0), (100, 60)];

const BACK: &[(i16, i16)] = &[(0, 0), (100, 0), (0, 0)];

const SLANTED: &[(i16, i16)] = &[(0, 0), (30, 40)];

const LEVEL: &[(i16, i16)] = &[(0, 0), (50, 0)];

const POINT: &[(i16, i16)] = &[(5, 5), (5, 5)];

const BEVEL: JoinKind = JoinKind::Bevel;

const ROUND: JoinKind = JoinKind::Round(536_870_912, 5);

const FINE: JoinKind = JoinKind::Round(33_554_432, 5);

const BUTT: CapRow = CapRow::Butt;

const COARSE_CAP: CapRow = CapRow::Round(536_870_912, 5);

const FINE_CAP: CapRow = CapRow::Round(33_554_432, 5);

const ROWS: &[Row] = &[
    // a corner, by what its join leaves
    (&[TURN], false, (20, BEVEL, BUTT, BUTT), Some(48)),
    (&[TURN], false, (20, ROUND, BUTT, BUTT), Some(82)),
    (&[TURN], false, (20, FINE, FINE_CAP, FINE_CAP), Some(87)),
    (
        &[TURN],
        false,
        (20, JoinKind::Miter(536_870_912, 0), BUTT, BUTT),
        Some(98),
    ),
    // the corners where a path closes, and its caps, which are not drawn
    (&[TURN], true, (20, BEVEL, BUTT, COARSE_CAP), Some(3)),
    // caps; a custom one that turns back leaves no room
    (&[LEVEL], false, (20, BEVEL, COARSE_CAP, BUTT), Some(82)),
    (&[LEVEL], false, (20, BEVEL, BUTT, COARSE_CAP), Some(82)),
    (
        &[SLANTED],
        false,
        (20, BEVEL, CapRow::Square, BUTT),
        Some(98),
    ),
    (
        &[LEVEL],
        false,
        (
            20,
            BEVEL,
            BUTT,
            CapRow::Custom(&[(0, -20), (20, 0), (0, 20)]),
        ),
        Some(98),
    ),
    (
        &[LEVEL],
        false,
        (20, BEVEL, BUTT, CapRow::Custom(&[(5, 20), (5, -20)])),
        None,
    ),
    // a section alone
    (&[SLANTED], false, (21, BEVEL, BUTT, BUTT), Some(128)),
    // a path that turns back
    (&[BACK], false, (20, BEVEL, BUTT, BUTT), None),
    (&[BACK], false, (20, ROUND, BUTT, BUTT), Some(82)),
    // the least radii
    (&[TURN], false, (2, ROUND, BUTT, BUTT), None),
    (&[TURN], false, (3, ROUND, COARSE_CAP, COARSE_CAP), Some(0)),
    // several paths, of which one has no section
    (
        &[LEVEL, POINT, TURN],
        false,
        (20, BEVEL, BUTT, BUTT),
        Some(48),
    ),
    (&[POINT], false, (20, BEVEL, BUTT, BUTT), None),
    (&[], false, (20, BEVEL, BUTT, BUTT), None),
];

/// At the greatest radius of the lesser width, and beyond.
const SMALL_ROWS: &[Row] = &[
    (&[LEVEL], false, (8192, ROUND, BUTT, BUTT), Some(16_777_214)),
    (&[LEVEL], false, (8193, ROUND, BUTT, BUTT), None),
];

/// A distance, the bits of a step, and the radius by the formula.
const RADII: &[(u32, u32, Option<u32>)] = &[
    (0, 536_870_912, Some(2)),
    (0, 0, Some(2)),
    (100, 536_870_912, Some(110)),
    (100, 33_554_432, Some(102)),
    // a step that is too great counts as the greatest
    (100, 4_294_967_295, Some(110)),
    (1_000, 4_194_304, Some(1_002)),
    (100_000, 68_356_528, Some(100_127)),
    // the greatest radius, and above it
    (248_002_022, 536_870_912, Some(268_435_456)),
    (248_002_023, 536_870_912, None),
    (4_294_967_295, 33_554_432, None),
];

/// A distance, a tolerance, and the bits of the step by the formula.
const STEPS: &[(u32, u32, Option<u32>)] = &[
    (0, 0, None),
    (0, 2, None),
    (100, 2, None),
    (100, 3, Some(191_593_316)),
    (100, 5, Some(329_168_663)),
    (1_000, 3, Some(61_083_965)),
    (1_000, 100, Some(536_870_912)),
    (100_000, 2, None),
    (100_000, 3, Some(6_113_894)),
    (4_294_967_295, 100_000, Some(9_329_006)),
    (4_294_967_295, 4_294_967_295, Some(536_870_912)),
];

fn expect_reach<I: OverlayInt + From<i16>>(alloc: Global, row: &Row) -> Result<(), Fail> {
    let (spots, closed, (width, join, start, end), wanted) = row;
    let mut paths = Vec::new(alloc);
    for path in *spots {
        paths.push(widened::<I>(alloc, path)?)?;
    }
    let style = StyleRow {
        width: *width,
        join: *join,
        start: *start,
        end: *end,
    };
    let style = style.style(alloc)?;
    paths.validate_stroke(&style)?;
    let found = inner_reach(alloc, &style, &paths, *closed)?;
    expect_equal(&found, wanted, &(spots, width))
}

#[test]
fn inner(rt: HostRuntime) -> Result<(), Fail> {
    for row in ROWS {
        expect_reach::<i32>(rt.alloc(), row)?;
    }
    Ok(())
}

#[test]
fn radii_and_steps(_: HostRuntime) -> Result<(), Fail> {
    for (distance, step, radius) in RADII {
        let found = radius_for(*distance, Angle::from_bits(*step));
        expect_equal(&found, radius, &(distance, step))?;
    }
    for (distance, tolerance, step) in STEPS {
        let found = step_for(*distance, *tolerance).map(Angle::bits);
        expect_equal(&found, step, &(distance, tolerance))?;
    }
    Ok(())
}

#[test]
fn inner_of_small_coordinates(rt: HostRuntime) -> Result<(), Fail> {
    for row in SMALL_ROWS {
        expect_reach::<i16>(rt.alloc(), row)?;
    }
    Ok(())
}
