//! Contours on which some order of splits, or every one, runs on for long.

ghost use Rattle.std.specs.Prelude.{◌<◌};

use crate::answers::{answered_shapes, overlay_of};
use crate::counted::{plain, plain_edges};
use crate::random_splits::push_closed;
use mesh_below::below::FillRule;
use mesh_below::count::{SplitCount, SplitError};
use mesh_below::given::are_proper;
use mesh_below::lattice::{CountedSegment, LatticeEdge};
use mesh_rounds::splitter::{ToldSplitting, split_edges_told};
use mesh_test_support::compared::{expect_equal, expect_that};
use mesh_test_support::edges::edges_of_shapes;
use mesh_test_support::plain::{Edge, Point, cross, dot, minus};
use std::alloc::Global;
use std::test::Fail;

/// The corners of a contour.
pub type Corners = &'static [(i32, i32)];

/// Contours on which an order of splits may run on to hundreds of thousands, where others need few.
pub const UNLUCKY: &[Corners] = &[
    &[
        (-165510, -707181),
        (29412, 537765),
        (-165509, -707183),
        (29412, 537766),
        (-119436, -37920),
        (152992, 101796),
    ],
    &[
        (-95031, 106272),
        (-72430, -190583),
        (-95031, 106271),
        (-72429, -190582),
        (-110630, 71009),
        (-62151, 91653),
    ],
    &[
        (0, -2),
        (75568491, 99941795),
        (1, 2),
        (75568490, 99941793),
        (0, 2),
        (75568492, 99941795),
    ],
    &[
        (56684, 39801),
        (78741, -58266),
        (56684, 39802),
        (66112, -31467),
        (77071, 7086),
    ],
    &[
        (386315, -122650),
        (199460, -75437),
        (386316, -122650),
        (237134, -99227),
        (259848, -44456),
    ],
    &[
        (62595, -107365),
        (-138073, -121907),
        (62594, -107365),
        (-71446, -113185),
        (2913, -121154),
        (-71447, -113186),
    ],
];

/// Contours that took thousands of splits in every order that was tried. With dropped attempts some 6,700, 63,000 and
/// 611,000 are made here; those of the last two go on along one line.
const LONG: &[Corners] = &[
    &[
        (42, -2554),
        (2823, 8472),
        (42, -2555),
        (-273, -3699),
        (2666, 2402),
    ],
    &[
        (-49084, -65240),
        (-23045, 52569),
        (-49084, -65241),
        (-39270, 33461),
        (-15692, 14092),
        (-39270, 33460),
    ],
    &[
        (-514339, 278681),
        (648638, 493878),
        (-514338, 278681),
        (-69009, 498496),
        (1966, 211288),
        (-69010, 498496),
    ],
];

/// Contours that go back a unit beside themselves. Where splits run on along a line for some hundred, as in an order
/// once taken, they drag points 6 to 10 units off these edges.
const DRAGGED: &[Corners] = &[
    &[
        (-648, 367),
        (363, 621),
        (-379, -532),
        (520, 291),
        (255, -826),
        (-682, 575),
        (835, -381),
        (497, 944),
        (-840, 95),
        (498, 945),
        (835, -382),
        (-682, 575),
        (256, -827),
        (519, 292),
        (-378, -531),
        (364, 620),
    ],
    &[
        (6493, -3717),
        (-4192, -1137),
        (-645, -2689),
        (7102, -2590),
        (1342, -5655),
        (6348, -4202),
        (3991, -2678),
        (2572, -4704),
        (7541, -6635),
        (2572, -4703),
        (3990, -2678),
        (6347, -4203),
        (1341, -5654),
        (7103, -2590),
        (-644, -2688),
        (-4192, -1136),
    ],
    &[
        (2245, 7630),
        (5886, 7304),
        (-58, 3153),
        (2865, -6165),
        (1087, 330),
        (-6855, 7256),
        (7063, -7685),
        (-6856, 7255),
        (1087, 331),
        (2866, -6164),
        (-59, 3153),
        (5887, 7305),
    ],
];

/// Whether a point is at most two units away from an edge.
fn is_near_edge(p: Point, e: Edge) -> bool {
    let along = minus(e.1, e.0);
    let off = minus(p, e.0);
    let squared_length = dot(along, along);
    let ahead = dot(off, along);
    if ahead <= 0 {
        return dot(off, off) <= 4;
    }
    if squared_length <= ahead {
        let past = minus(p, e.1);
        return dot(past, past) <= 4;
    }
    let beside = cross(along, off);
    beside.wrapping_mul(beside) <= squared_length.wrapping_mul(4)
}

/// Whether a point is at most two units away from one of these edges.
pub fn is_near_some(p: Point, edges: &[Edge]) -> bool {
    for e in edges {
        if is_near_edge(p, *e) {
            return true;
        }
    }
    false
}

/// How far the segments lead in all, in `x` and in `y`: nowhere where they are balanced.
fn way(segments: &[CountedSegment]) -> (i128, i128) {
    let mut sum = (0i128, 0i128);
    for segment in segments {
        let (start, end) = plain(segment.0);
        let way = minus(end, start);
        sum.0 = sum.0.wrapping_add(way.0.wrapping_mul(segment.1));
        sum.1 = sum.1.wrapping_add(way.1.wrapping_mul(segment.1));
    }
    sum
}

/// Both ends of each segment are that near to some edge.
fn expect_near(segments: &[CountedSegment], edges: &[Edge]) -> Result<(), Fail> {
    for segment in segments {
        let (start, end) = plain(segment.0);
        expect_that(is_near_some(start, edges), &start)?;
        expect_that(is_near_some(end, edges), &end)?;
    }
    Ok(())
}

/// The edges of a contour, what they were split into, and how many splits were made, in attempts that were given up too.
#[derive(Drop)]
struct Split {
    edges: Vec<LatticeEdge>,
    told: ToldSplitting,
    made: u64,
}

fn closed(alloc: Global, corners: &[(i32, i32)]) -> Result<Vec<LatticeEdge>, Fail> {
    let mut edges: Vec<LatticeEdge> = Vec::new(alloc);
    push_closed(&mut edges, corners)?;
    Ok(edges)
}

/// Splits the edges of a contour until none meets another, with so many splits at most.
fn split_within(alloc: Global, corners: &[(i32, i32)], most: u64) -> Result<Split, Fail> {
    let edges = closed(alloc, corners)?;
    if !are_proper(&edges) {
        return Err(Fail::new(format_args!("{corners:?}")));
    }
    let mut count = SplitCount::new(most);
    let told = split_edges_told(alloc, &edges, &mut count)?;
    Ok(Split {
        edges,
        told,
        made: count.made,
    })
}

/// Splits the edges of a contour until none meets another.
fn split_contour(alloc: Global, corners: &[(i32, i32)]) -> Result<Split, Fail> {
    let split = split_within(alloc, corners, 0)?;
    expect_that(split.edges.len() <= split.told.segments.len(), &corners)?;
    expect_equal(&way(&split.told.segments), &(0, 0), &corners)?;
    Ok(split)
}

/// The corners of a contour from one of them on, moved eastwards.
pub fn moved(
    alloc: Global,
    corners: &[(i32, i32)],
    first: usize,
    east: i32,
) -> Result<Vec<(i32, i32)>, Fail> {
    let mut turned: Vec<(i32, i32)> = Vec::new(alloc);
    for (x, y) in corners.iter().skip(first) {
        turned.push((x.wrapping_add(east), *y))?;
    }
    for (x, y) in corners.iter().take(first) {
        turned.push((x.wrapping_add(east), *y))?;
    }
    Ok(turned)
}

/// The most that is told of splits within two units of the edges, in 64ths.
pub const TWO_UNITS: u64 = 128;

/// Whichever corner a contour begins at, some order is found that stays near.
#[test]
fn unlucky_orders_stay_near_from_any_corner(rt: HostRuntime) -> Result<(), Fail> {
    for corners in UNLUCKY {
        for first in 0..corners.len() {
            let turned = moved(rt.alloc(), corners, first, 0)?;
            let split = split_contour(rt.alloc(), &turned)?;
            expect_that(split.told.nearness <= TWO_UNITS, &turned)?;
            expect_that(split.made <= 2000, &split.made)?;
        }
    }
    Ok(())
}

#[test]
fn unlucky_orders_are_left(rt: HostRuntime) -> Result<(), Fail> {
    let mut splits: u64 = 0;
    for corners in UNLUCKY {
        splits = splits.saturating_add(split_contour(rt.alloc(), corners)?.made);
    }
    expect_that(splits <= 2000, &splits)
}

/// How a splitting with a limit is refused: by how many splits.
fn refused_at(alloc: Global, corners: &[(i32, i32)], most: u64) -> Result<u64, Fail> {
    let edges = closed(alloc, corners)?;
    if !are_proper(&edges) {
        return Err(Fail::new(format_args!("{corners:?}")));
    }
    let mut count = SplitCount::new(most);
    match split_edges_told(alloc, &edges, &mut count) {
        Err(SplitError::TooManySplits) => Ok(count.made),
        _ => Err(Fail::new(format_args!("no more than {most} splits of {corners:?}"))),
    }
}

/// A limit refuses where the splits pass it, and nowhere else. A step may split two segments.
#[test]
fn limits_refuse_where_they_are_passed(rt: HostRuntime) -> Result<(), Fail> {
    for corners in UNLUCKY {
        let free = split_contour(rt.alloc(), corners)?;
        let bound = split_within(rt.alloc(), corners, free.made)?;
        expect_equal(&bound.made, &free.made, corners)?;
        expect_that(bound.told.segments == free.told.segments, corners)?;
        for most in [1, free.made / 2, free.made.saturating_sub(1)] {
            let made = refused_at(rt.alloc(), corners, most)?;
            expect_that(most < made && made <= most.saturating_add(2), &(most, made))?;
        }
    }
    Ok(())
}

#[test]
fn long_runs_end(rt: HostRuntime) -> Result<(), Fail> {
    for corners in LONG {
        split_contour(rt.alloc(), corners)?;
    }
    Ok(())
}

/// Twice the area within edges.
fn doubled_area(edges: &[Edge]) -> i128 {
    let mut sum = 0i128;
    for (start, end) in edges {
        sum = sum.wrapping_add(cross(*start, *end));
    }
    sum
}

/// What comes of long runs is answered in a test's time too, though most of it may lie at one height. Its contours run
/// counterclockwise round what is filled.
#[test]
fn long_runs_are_answered(rt: HostRuntime) -> Result<(), Fail> {
    for corners in LONG {
        let overlay = overlay_of(rt.alloc(), &[*corners])?;
        let shapes = answered_shapes(&overlay, FillRule::Negative)?;
        let area = doubled_area(&edges_of_shapes(rt.alloc(), &shapes)?);
        expect_that(area >= 0, &area)?;
        expect_equal(&shapes.is_empty(), &(area == 0), &corners)?;
    }
    Ok(())
}

#[test]
fn splits_stay_near_the_edges(rt: HostRuntime) -> Result<(), Fail> {
    for corners in DRAGGED {
        let split = split_contour(rt.alloc(), corners)?;
        let edges = plain_edges(rt.alloc(), &split.edges)?;
        expect_near(&split.told.segments, &edges)?;
    }
    Ok(())
}

/// Four corners near one line, whose splits move step by step along it.
#[test]
fn many_splits_along_one_line_end(rt: HostRuntime) -> Result<(), Fail> {
    for n in [10i32, 100, 1000, 3000] {
        let far = n.wrapping_mul(2);
        let corners = [
            (n.wrapping_add(2), far.wrapping_add(1)),
            (2, 0),
            (n.wrapping_add(1), far),
            (1, -2),
        ];
        split_contour(rt.alloc(), &corners)?;
    }
    Ok(())
}
