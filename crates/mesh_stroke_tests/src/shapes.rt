//! Worked strokes, from outside the program: their shapes.

use crate::answers::{expect, expect_custom};
use crate::drawn::add_stroke;
use crate::styles::{CapRow, Caps, StyleRow, widened};
use mesh_below::below::{ContourDirection, IntOverlayOptions};
use mesh_join::style::IntStrokeStyle;
use mesh_num::num::{IntPoint, OverlayInt};
use mesh_num::shape::path_slice::PathSlice;
use mesh_test_support::compared::expect_equal;
use mesh_test_support::edges::edges_of_segments;
use mesh_test_support::joins::JoinKind;
use mesh_test_support::lists::{path, paths, shapes};
use mesh_test_support::plain::winding;
use mesh_test_support::{inner, outer};
use std::alloc::Global;
use std::test::Fail;

type Path = &'static [(i32, i32)];

const LINE: Path = &[(0, 0), (8192, 0)];

/// The line with a width of 2048, and with square caps.
const WIDE_LINE: Path = outer!(0, -1024, 8192, 1024);

const LONG_LINE: Path = outer!(-1024, -1024, 9216, 1024);

const POINTED_LINE: Path = &[
    (0, -1024),
    (8192, -1024),
    (9216, 0),
    (8192, 1024),
    (0, 1024),
];

const SQUARE: Path = outer!(0, 0, 100, 100);

const ROUND: JoinKind = JoinKind::Round(536_870_912, 5);

const ROUND_CAP: CapRow = CapRow::Round(536_870_912, 5);

const TIP: CapRow = CapRow::Custom(&[(0, -1024), (1024, 0), (0, 1024)]);

const NOTCH: CapRow = CapRow::Custom(&[(-4096, 0)]);

const TURNED: CapRow = CapRow::Custom(&[(0, 1024), (0, -1024)]);

/// Paths, whether they are closed, the width, the joins, both caps, and the stroke.
type Case = (
    &'static [Path],
    bool,
    i16,
    JoinKind,
    Caps,
    &'static [&'static [Path]],
);

const BUTTS: Caps = (CapRow::Butt, CapRow::Butt);

const SQUARES: Caps = (CapRow::Square, CapRow::Square);

/// Strokes of a line, also given twice, and nothing: of no path, of no point, of equal points, and of widths up to 2.
const LINES: &[Case] = &[
    (
        &[LINE],
        false,
        2048,
        JoinKind::Bevel,
        BUTTS,
        &[&[WIDE_LINE]],
    ),
    (
        &[LINE],
        false,
        2048,
        JoinKind::Bevel,
        SQUARES,
        &[&[LONG_LINE]],
    ),
    (
        &[LINE, LINE],
        false,
        2048,
        JoinKind::Bevel,
        BUTTS,
        &[&[WIDE_LINE]],
    ),
    (
        &[LINE, &[], LINE],
        true,
        2047,
        JoinKind::Bevel,
        SQUARES,
        &[&[WIDE_LINE]],
    ),
    (&[], false, 2048, JoinKind::Bevel, SQUARES, &[]),
    (&[&[]], true, 2048, JoinKind::Bevel, SQUARES, &[]),
    (
        &[&[(5, 5), (5, 5)], &[(9, 9)]],
        false,
        2048,
        ROUND,
        (ROUND_CAP, TIP),
        &[],
    ),
    (
        &[&[(5, 5), (5, 5)], &[(9, 9)]],
        true,
        2048,
        ROUND,
        (ROUND_CAP, TIP),
        &[],
    ),
    (&[LINE, SQUARE], false, 2, ROUND, SQUARES, &[]),
    (&[LINE, SQUARE], true, -2048, ROUND, SQUARES, &[]),
];

const CUSTOM: &[Case] = &[
    (
        &[LINE],
        false,
        2048,
        JoinKind::Bevel,
        (CapRow::Butt, TIP),
        &[&[POINTED_LINE]],
    ),
    (
        &[LINE],
        false,
        2048,
        JoinKind::Bevel,
        (TIP, TIP),
        &[&[&[
            (-1024, 0),
            (0, -1024),
            (8192, -1024),
            (9216, 0),
            (8192, 1024),
            (0, 1024),
        ]]],
    ),
    (
        &[LINE],
        false,
        2048,
        JoinKind::Bevel,
        (CapRow::Butt, NOTCH),
        &[&[&[
            (0, -1024),
            (8192, -1024),
            (4096, 0),
            (8192, 1024),
            (0, 1024),
        ]]],
    ),
    (
        &[LINE],
        false,
        2048,
        JoinKind::Bevel,
        (CapRow::Butt, TURNED),
        &[&[WIDE_LINE]],
    ),
    (
        &[LINE],
        false,
        2048,
        JoinKind::Bevel,
        (CapRow::Butt, CapRow::Custom(&[])),
        &[&[WIDE_LINE]],
    ),
];

/// Lines that cross, a square, closed and open, a corner with a peak, and one that is round.
const CORNERS: &[Case] = &[
    (
        &[&[(-50, 0), (50, 0)], &[(0, -50), (0, 50)]],
        false,
        20,
        JoinKind::Bevel,
        BUTTS,
        &[&[&[
            (-50, -10),
            (-10, -10),
            (-10, -50),
            (10, -50),
            (10, -10),
            (50, -10),
            (50, 10),
            (10, 10),
            (10, 50),
            (-10, 50),
            (-10, 10),
            (-50, 10),
        ]]],
    ),
    (
        &[SQUARE],
        true,
        20,
        JoinKind::Bevel,
        SQUARES,
        &[&[
            &[
                (-10, 0),
                (0, -10),
                (100, -10),
                (110, 0),
                (110, 100),
                (100, 110),
                (0, 110),
                (-10, 100),
            ],
            inner!(10, 10, 90, 90),
        ]],
    ),
    (
        &[SQUARE],
        false,
        20,
        JoinKind::Bevel,
        BUTTS,
        &[&[&[
            (0, -10),
            (100, -10),
            (110, 0),
            (110, 100),
            (100, 110),
            (0, 110),
            (0, 90),
            (90, 90),
            (90, 10),
            (0, 10),
        ]]],
    ),
    (
        &[&[(0, 0), (100, 0), (100, 100)]],
        false,
        20,
        JoinKind::Miter(536_870_912, 59_652_323),
        BUTTS,
        &[&[&[
            (0, -10),
            (110, -10),
            (110, 100),
            (90, 100),
            (90, 10),
            (0, 10),
        ]]],
    ),
    (
        &[&[(0, 0), (100, 0), (100, 100)]],
        false,
        20,
        ROUND,
        (ROUND_CAP, CapRow::Square),
        &[&[&[
            (-10, 0),
            (-8, -7),
            (-1, -10),
            (100, -10),
            (107, -7),
            (110, 0),
            (110, 110),
            (90, 110),
            (90, 10),
            (0, 10),
            (-7, 7),
        ]]],
    ),
];

/// A line there and back, open and closed.
const SPIKES: &[Case] = &[
    (
        &[&[(0, 0), (10, 0), (0, 0)]],
        false,
        4,
        ROUND,
        BUTTS,
        &[&[&[(0, -2), (10, -2), (12, 0), (12, 1), (10, 2), (0, 2)]]],
    ),
    (
        &[&[(0, 0), (10, 0), (0, 0)]],
        true,
        4,
        ROUND,
        BUTTS,
        &[&[&[
            (-2, -1),
            (0, -2),
            (10, -2),
            (12, 0),
            (12, 1),
            (10, 2),
            (0, 2),
            (-2, 0),
        ]]],
    ),
];

/// Each of the cases is answered so.
fn expect_cases(alloc: Global, cases: &[Case]) -> Result<(), Fail> {
    for case in cases {
        let (given, is_closed, width, join, (start, end), wanted) = *case;
        let row = StyleRow {
            width,
            join,
            start,
            end,
        };
        let source = paths(alloc, given)?;
        let style = row.style::<i32>(alloc)?;
        expect(alloc, &source, &style, is_closed, wanted)?;
    }
    Ok(())
}

#[test]
fn by_default(rt: HostRuntime) -> Result<(), Fail> {
    expect_cases(rt.alloc(), LINES)?;
    expect_cases(rt.alloc(), CUSTOM)?;
    expect_cases(rt.alloc(), CORNERS)?;
    expect_cases(rt.alloc(), SPIKES)
}

/// Two lines, the first of which has a stroke of area 16.
const TWO: &[Path] = &[&[(0, 0), (4, 0)], &[(20, 0), (25, 0), (30, 0)]];

/// The least area, whether outer contours run clockwise and vertices stay that contours run straight through, and the
/// stroke of the two lines.
const OPTIONS: &[(u64, bool, &[&[Path]])] = &[
    (
        0,
        false,
        &[&[outer!(0, -2, 4, 2)], &[outer!(20, -2, 30, 2)]],
    ),
    (
        16,
        false,
        &[&[outer!(0, -2, 4, 2)], &[outer!(20, -2, 30, 2)]],
    ),
    (17, false, &[&[outer!(20, -2, 30, 2)]]),
    (
        17,
        true,
        &[&[&[(20, -2), (20, 2), (25, 2), (30, 2), (30, -2), (25, -2)]]],
    ),
    (41, true, &[]),
];

#[test]
fn options_are_handed_on(rt: HostRuntime) -> Result<(), Fail> {
    let source = paths(rt.alloc(), TWO)?;
    let style = IntStrokeStyle::new(4);
    for case in OPTIONS {
        let (area, other, wanted) = *case;
        let mut options = IntOverlayOptions::new();
        options.min_output_area = area;
        options.preserve_output_collinear = other;
        if other {
            options.output_direction = ContourDirection::Clockwise;
        }
        expect_custom(rt.alloc(), &source, &style, false, options, wanted)?;
    }
    Ok(())
}

const SMALL_WIDE_LINE: &[(i16, i16)] = outer!(0, -1024, 8192, 1024);

/// Sources of every type with the line, at the smaller width.
#[test]
fn sources(rt: HostRuntime) -> Result<(), Fail> {
    let style = IntStrokeStyle::<i16>::new(2048);
    let line: &[(i16, i16)] = &[(0, 0), (8192, 0)];
    let wanted: &[&[&[(i16, i16)]]] = &[&[SMALL_WIDE_LINE]];
    let points = path(rt.alloc(), line)?;
    expect(rt.alloc(), &points, &style, false, wanted)?;
    let slice = PathSlice::new(points.as_slice());
    expect(rt.alloc(), &slice, &style, false, wanted)?;
    let array = [IntPoint::new(0, 0), IntPoint::new(8192, 0)];
    expect(rt.alloc(), &array, &style, false, wanted)?;
    let grouped = shapes(rt.alloc(), &[&[line], &[], &[line]])?;
    expect(rt.alloc(), &grouped, &style, false, wanted)?;
    let two = [path(rt.alloc(), line)?, path(rt.alloc(), line)?];
    expect(rt.alloc(), &two, &style, false, wanted)
}

/// The edges of a path that is drawn twice wind twice as often.
fn expect_twice<I: OverlayInt + From<i16>>(alloc: Global) -> Result<(), Fail> {
    let points = widened(alloc, &[(0, 0), (100, 0)])?;
    let style = IntStrokeStyle::new(I::from(20));
    let mut segments = Vec::new(alloc);
    for count in 1..3u8 {
        add_stroke(alloc, &points, false, &style, &mut segments)?;
        let edges = edges_of_segments(alloc, &segments)?;
        expect_equal(
            &winding(1, (50, 0), &edges),
            &i128::from(count),
            &"in a path",
        )?;
    }
    Ok(())
}

#[test]
fn drawn_twice(rt: HostRuntime) -> Result<(), Fail> {
    expect_twice::<i16>(rt.alloc())?;
    expect_twice::<i32>(rt.alloc())
}
