//! Random lists of edges with few meetings, with many, with repeats, and with none, against a plain check of what split
//! segments are.

ghost use Rattle.std.specs.Prelude.{◌<◌};

use crate::random_splits::{expect_split, push_closed};
use crate::splits::split_sorted;
use mesh_below::lattice::LatticeEdge;
use mesh_test_support::compared::expect_equal;
use mesh_test_support::random::{Random, scattered};
use std::alloc::{AllocError, Global};
use std::test::Fail;

/// Points in a square of 13.
const SIZE: u32 = 13;

/// A point that differs from another one by at most 1 in each coordinate.
fn beside(random: &mut Random, spot: (i32, i32)) -> (i32, i32) {
    (
        random.sign().wrapping_add(spot.0),
        random.sign().wrapping_add(spot.1),
    )
}

/// A closed list in which two points have one beside them: some edges are nearly equal.
fn twins(alloc: Global, random: &mut Random) -> Result<Vec<LatticeEdge>, AllocError> {
    let first = random.point(SIZE);
    let second = random.point(SIZE);
    let spots = [
        first,
        second,
        beside(random, first),
        beside(random, second),
        random.point(SIZE),
        random.point(SIZE),
    ];
    let mut edges = Vec::new(alloc);
    push_closed(&mut edges, &spots)?;
    Ok(edges)
}

/// Edges of which most cross many others.
fn crowded(alloc: Global, random: &mut Random, count: u32) -> Result<Vec<LatticeEdge>, AllocError> {
    let mut edges = Vec::new(alloc);
    push_closed(&mut edges, &scattered(alloc, random, count, SIZE)?)?;
    Ok(edges)
}

/// Edges each of which stands up to three times, some the other way about.
fn repeated(alloc: Global, random: &mut Random) -> Result<Vec<LatticeEdge>, AllocError> {
    let mut edges = Vec::new(alloc);
    for (start, end) in crowded(alloc, random, 4)? {
        for _ in 0..random.below(3) + 1 {
            edges.push(if random.below(2) == 0 {
                (start, end)
            } else {
                (end, start)
            })?;
        }
    }
    Ok(edges)
}

/// Level edges side by side, none of which meets another one.
fn apart(alloc: Global, random: &mut Random) -> Result<Vec<LatticeEdge>, AllocError> {
    let mut edges = Vec::new(alloc);
    for row in 0..random.below(SIZE) as i32 {
        let start = random.below(SIZE) as i32;
        edges.push(((start, row), (start + 2, row)))?;
    }
    Ok(edges)
}

#[test]
fn few_meetings(rt: HostRuntime) -> Result<(), Fail> {
    let mut random = Random::new(21);
    for _ in 0..150 {
        let edges = twins(rt.alloc(), &mut random)?;
        expect_split(rt.alloc(), &edges, true)?;
    }
    Ok(())
}

#[test]
fn many_meetings(rt: HostRuntime) -> Result<(), Fail> {
    let mut random = Random::new(22);
    for round in 0u32..60 {
        let edges = crowded(rt.alloc(), &mut random, round % 9 + 8)?;
        expect_split(rt.alloc(), &edges, true)?;
    }
    Ok(())
}

#[test]
fn repeats(rt: HostRuntime) -> Result<(), Fail> {
    let mut random = Random::new(23);
    for _ in 0..150 {
        let edges = repeated(rt.alloc(), &mut random)?;
        expect_split(rt.alloc(), &edges, true)?;
    }
    Ok(())
}

#[test]
fn no_meetings(rt: HostRuntime) -> Result<(), Fail> {
    let mut random = Random::new(24);
    for _ in 0..50 {
        let edges = apart(rt.alloc(), &mut random)?;
        let segments = split_sorted(rt.alloc(), &edges)?;
        expect_equal(&segments.len(), &edges.len(), &edges)?;
        expect_split(rt.alloc(), &edges, false)?;
    }
    Ok(())
}
