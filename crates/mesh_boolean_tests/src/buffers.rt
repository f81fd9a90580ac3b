//! Polygons grown and shrunk by strokes along their boundaries.

use mesh_below::below::IntOverlayOptions;
use mesh_below::nearness::{NearShapes, SplitCount};
use mesh_boolean::rule::BooleanFillRule;
use mesh_buffer::buffer::{buffer, inset, may_be_buffered};
use mesh_join::style::IntStrokeStyle;
use mesh_num::num::IntPoint;
use mesh_offset::error::IntNearnessError;
use mesh_test_support::compared::{expect_equal, expect_that};
use mesh_test_support::edges::edges_of_shapes;
use mesh_test_support::lists::paths;
use mesh_test_support::plain::{Edge, winding};
use std::alloc::Global;
use std::test::Fail;

/// Contours, the rule that fills them, and points in halves of a grid unit: whether a buffer by 10 holds each, and whether
/// an inset does. All of them lie half a unit or more from every edge.
type Case = (
    &'static [&'static [(i32, i32)]],
    BooleanFillRule,
    &'static [((i128, i128), bool, bool)],
);

const CASES: &[Case] = &[
    // a square either way, with bevelled corners
    (
        &[&[(0, 0), (100, 0), (100, 100), (0, 100)]],
        BooleanFillRule::NonZero,
        &[
            ((100, 100), true, true),
            ((-19, 100), true, false),
            ((-21, 100), false, false),
            ((-9, -9), true, false),
            ((-11, -11), false, false),
            ((19, 100), true, false),
            ((21, 100), true, true),
        ],
    ),
    (
        &[&[(0, 0), (0, 100), (100, 100), (100, 0)]],
        BooleanFillRule::NonZero,
        &[
            ((100, 100), true, true),
            ((-19, 100), true, false),
            ((-21, 100), false, false),
            ((19, 100), true, false),
            ((21, 100), true, true),
        ],
    ),
    // a hole that is too small for a buffer
    (
        &[
            &[(0, 0), (100, 0), (100, 100), (0, 100)],
            &[(41, 41), (59, 41), (59, 59), (41, 59)],
        ],
        BooleanFillRule::EvenOdd,
        &[
            ((101, 101), true, false),
            ((61, 101), true, true),
            ((63, 101), true, false),
            ((-21, 101), false, false),
        ],
    ),
    // two squares that share a quarter, which the rule does not fill
    (
        &[
            &[(0, 0), (100, 0), (100, 100), (0, 100)],
            &[(40, 40), (140, 40), (140, 140), (40, 140)],
        ],
        BooleanFillRule::EvenOdd,
        &[
            ((140, 140), false, false),
            ((50, 50), true, true),
            ((230, 230), true, true),
            ((99, 140), true, false),
        ],
    ),
];

/// A half width of 10.
fn style() -> IntStrokeStyle<i32> {
    IntStrokeStyle::new(20)
}

/// The edges of polygons that are exact half a unit away from all that was drawn.
fn exact_edges(alloc: Global, near: &NearShapes<i32>) -> Result<Vec<Edge>, Fail> {
    expect_that(near.nearness < 32, &near.nearness)?;
    Ok(edges_of_shapes(alloc, &near.shapes)?)
}

/// The edges of a buffer of contours.
fn grown(
    alloc: Global,
    contours: &Vec<Vec<IntPoint<i32>>>,
    fill: BooleanFillRule,
) -> Result<Vec<Edge>, Fail> {
    let options = IntOverlayOptions::new();
    let mut count = SplitCount::new(0);
    let near = buffer(alloc, contours, fill, style(), options, &mut count)?;
    exact_edges(alloc, &near)
}

/// The edges of an inset of contours.
fn shrunk(
    alloc: Global,
    contours: &Vec<Vec<IntPoint<i32>>>,
    fill: BooleanFillRule,
) -> Result<Vec<Edge>, Fail> {
    let options = IntOverlayOptions::new();
    let mut count = SplitCount::new(0);
    let near = inset(alloc, contours, fill, style(), options, &mut count)?;
    exact_edges(alloc, &near)
}

/// Whichever way contours run, and whether they cross or not.
#[test]
fn whichever_way_contours_run(rt: HostRuntime) -> Result<(), Fail> {
    let alloc = rt.alloc();
    for case in CASES {
        let (contours, fill, spots) = *case;
        let contours = paths(alloc, contours)?;
        let grown = grown(alloc, &contours, fill)?;
        let shrunk = shrunk(alloc, &contours, fill)?;
        for row in spots {
            let (spot, in_grown, in_shrunk) = *row;
            expect_equal(&winding(2, spot, &grown), &i128::from(in_grown), row)?;
            expect_equal(&winding(2, spot, &shrunk), &i128::from(in_shrunk), row)?;
        }
    }
    Ok(())
}

/// A contour to the end of the range of 16 bits.
const FAR: &[&[(i16, i16)]] = &[&[(16_380, 0), (0, 9), (0, 0)]];

/// Why a buffer of it with strokes of this width is refused, where at most one split may be made, and how many were.
fn refusal(alloc: Global, width: i16) -> Result<(Option<IntNearnessError>, u64), Fail> {
    let far = paths(alloc, FAR)?;
    let style = IntStrokeStyle::new(width);
    let fill = BooleanFillRule::NonZero;
    let options = IntOverlayOptions::new();
    let mut count = SplitCount::new(1);
    let ended = buffer(alloc, &far, fill, style, options, &mut count);
    Ok((ended.err(), count.made))
}

/// What leaves the range is refused before anything is split, and what takes more splits than its limit.
#[test]
fn out_of_range_or_past_a_limit(rt: HostRuntime) -> Result<(), Fail> {
    let far = paths(rt.alloc(), FAR)?;
    expect_that(!may_be_buffered(&far, &IntStrokeStyle::new(20)), &20)?;
    expect_that(may_be_buffered(&far, &IntStrokeStyle::new(6)), &6)?;
    let wide = refusal(rt.alloc(), 20)?;
    expect_equal(
        &wide,
        &(Some(IntNearnessError::CoordinateOutOfRange), 0),
        &20,
    )?;
    let (ended, made) = refusal(rt.alloc(), 6)?;
    expect_equal(&ended, &Some(IntNearnessError::TooManySplits), &made)?;
    expect_that(1 < made, &made)
}
