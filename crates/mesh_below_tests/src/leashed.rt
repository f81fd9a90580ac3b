//! Drawings whose splits run on in an unlucky order, also many side by side, where each part needs an order of its own.
//! On a leash they end near the edges after few splits, those of dropped attempts among them.

use crate::hard_splits::{Corners, TWO_UNITS, UNLUCKY, moved};
use crate::random_splits::push_closed;
use mesh_below::count::SplitCount;
use mesh_below::given::are_proper;
use mesh_below::lattice::LatticeEdge;
use mesh_rounds::splitter::split_edges_told;
use mesh_test_support::compared::expect_that;
use mesh_test_support::random::Random;
use std::alloc::Global;
use std::test::Fail;

/// A slit, two edges with one end in common and the others a unit apart, and an edge that crosses it near that end. Where
/// the crossing edge and the one beside it are split first, hundreds of thousands of splits follow.
const SLIT: [LatticeEdge; 3] = [
    ((64296078, -10879997), (64434094, -10824744)),
    ((64322266, -10848187), (64519885, -10817418)),
    ((64519885, -10817417), (64322266, -10848187)),
];

/// How many of each contour stand side by side.
const COPIES: usize = 10;

/// Between contours side by side, in grid units.
const GAP: i32 = 1_000_000;

/// The nearness that is told of edges that are split with so many splits an edge at most.
fn nearness_within(alloc: Global, edges: &[LatticeEdge], most: u64) -> Result<u64, Fail> {
    if !are_proper(edges) {
        return Err(Fail::new(format_args!("an edge ends where it starts")));
    }
    let mut count = SplitCount::new(0);
    let told = split_edges_told(alloc, edges, &mut count)?;
    let limit = most.saturating_mul(edges.len() as u64);
    expect_that(count.made <= limit, &(count.made, edges.len()))?;
    Ok(told.nearness)
}

/// The same, where at most two units may be told.
fn expect_few(alloc: Global, edges: &[LatticeEdge], most: u64) -> Result<(), Fail> {
    let nearness = nearness_within(alloc, edges, most)?;
    expect_that(nearness <= TWO_UNITS, &nearness)
}

/// How far corners reach from the least `x` to the greatest, and the least.
fn width(corners: &[(i32, i32)]) -> (i32, i32) {
    let least = corners.iter().fold(i32::MAX, |x: i32, p| x.min(p.0));
    let greatest = corners.iter().fold(i32::MIN, |x: i32, p| x.max(p.0));
    (greatest.wrapping_sub(least), least)
}

/// The edges of so many of each contour, one beside the other, each begun at the same corner, or each at another one.
fn side_by_side(
    alloc: Global,
    contours: &[Corners],
    turned: bool,
) -> Result<Vec<LatticeEdge>, Fail> {
    let mut edges: Vec<LatticeEdge> = Vec::new(alloc);
    let mut east: i32 = -1_000_000_000;
    for corners in contours {
        let (reach, least) = width(corners);
        for copy in 0..COPIES {
            let first = if turned { copy.wrapping_add(1) } else { 1 };
            let first = first % corners.len().max(1);
            push_closed(
                &mut edges,
                &moved(alloc, corners, first, east.wrapping_sub(least))?,
            )?;
            east = east.wrapping_add(reach).wrapping_add(GAP);
        }
    }
    Ok(edges)
}

#[test]
fn unlucky_contours_take_few_splits(rt: HostRuntime) -> Result<(), Fail> {
    for corners in UNLUCKY {
        let mut edges: Vec<LatticeEdge> = Vec::new(rt.alloc());
        push_closed(&mut edges, &moved(rt.alloc(), corners, 1, 0)?)?;
        expect_few(rt.alloc(), &edges, 10)?;
    }
    Ok(())
}

#[test]
fn unlucky_contours_side_by_side_take_few_splits(rt: HostRuntime) -> Result<(), Fail> {
    expect_few(rt.alloc(), &side_by_side(rt.alloc(), UNLUCKY, false)?, 10)
}

#[test]
fn unlucky_contours_from_all_corners_stay_near(rt: HostRuntime) -> Result<(), Fail> {
    expect_few(rt.alloc(), &side_by_side(rt.alloc(), UNLUCKY, true)?, 20)
}

/// The edges of a slit, each coordinate `x` with its sign turned.
fn mirrored(slit: [LatticeEdge; 3]) -> [LatticeEdge; 3] {
    slit.map(|e| ((e.0.0.wrapping_neg(), e.0.1), (e.1.0.wrapping_neg(), e.1.1)))
}

/// A slit and its mirror image need opposite choices.
#[test]
fn slits_and_their_mirror_images_take_few_splits(rt: HostRuntime) -> Result<(), Fail> {
    let mut edges: Vec<LatticeEdge> = Vec::new(rt.alloc());
    for slit in [SLIT, mirrored(SLIT)] {
        expect_few(rt.alloc(), &slit, 10)?;
        for e in slit {
            edges.push(e)?;
        }
    }
    expect_few(rt.alloc(), &edges, 10)
}

/// A random way of at most this length in both coordinates.
fn way(random: &mut Random, reach: u16) -> (i32, i32) {
    let end = 2 * u32::from(reach) + 1;
    let x = random.below(end) as i32;
    let y = random.below(end) as i32;
    (
        x.wrapping_sub(i32::from(reach)),
        y.wrapping_sub(i32::from(reach)),
    )
}

/// The point so many times a way from another.
fn along(start: (i32, i32), way: (i32, i32), times: i32) -> (i32, i32) {
    (
        start.0.wrapping_add(way.0.wrapping_mul(times)),
        start.1.wrapping_add(way.1.wrapping_mul(times)),
    )
}

/// Slits of random directions, each crossed near its tip.
fn slits(alloc: Global, count: u32) -> Result<Vec<LatticeEdge>, Fail> {
    let mut random = Random::new(5);
    let mut edges: Vec<LatticeEdge> = Vec::new(alloc);
    for _ in 0..count {
        let tip = random.point(1 << 25);
        let step = way(&mut random, 3000);
        let end = along(tip, step, 100);
        let other = if random.below(2) == 0 {
            (end.0.wrapping_add(1), end.1)
        } else {
            (end.0, end.1.wrapping_add(1))
        };
        let crossed = along(tip, step, random.below(3) as i32);
        let across = way(&mut random, 500);
        for e in [(tip, end), (other, tip)] {
            if e.0 != e.1 {
                edges.push(e)?;
            }
        }
        let e = (along(crossed, across, -40), along(crossed, across, 60));
        if e.0 != e.1 {
            edges.push(e)?;
        }
    }
    Ok(edges)
}

/// A thousand slits. Some run on in every order that is tried, and they alone.
#[test]
fn many_slits_take_few_splits(rt: HostRuntime) -> Result<(), Fail> {
    let edges = slits(rt.alloc(), 1000)?;
    let nearness = nearness_within(rt.alloc(), &edges, 30)?;
    expect_that(nearness <= 64 * 10_000, &nearness)
}
