//! The clearance of contours of many edges, against those of their edges one by one.

use mesh_clearance::clearance::clearance_of;
use mesh_test_support::compared::expect_equal;
use mesh_test_support::lists::{Spot, path, shapes};
use mesh_test_support::random::Random;
use std::alloc::{AllocError, Global};
use std::test::Fail;

/// Points that wander, each at most 20 units from the one before it in each coordinate.
fn walk(
    alloc: Global,
    random: &mut Random,
    count: usize,
    start: Spot,
) -> Result<Vec<Spot>, AllocError> {
    let mut spots = Vec::new(alloc);
    let mut at = start;
    for _ in 0..count {
        spots.push(at)?;
        let (x, y) = random.point(41);
        at = (
            at.0.wrapping_add(x).wrapping_sub(20),
            at.1.wrapping_add(y).wrapping_sub(20),
        );
    }
    Ok(spots)
}

/// The clearance between one edge and one section.
fn between(alloc: Global, a: Spot, b: Spot, c: Spot, d: Spot) -> Result<u128, AllocError> {
    let given = shapes(alloc, &[&[&[a, b]]])?;
    let section = path(alloc, &[c, d])?;
    match clearance_of(alloc, &given, &section, false)? {
        Some(found) => Ok(found),
        None => Ok(u128::MAX),
    }
}

/// The least of `most` and the clearances between one edge and the sections of an open path.
fn from_edge(
    alloc: Global,
    a: Spot,
    b: Spot,
    spots: &[Spot],
    most: u128,
) -> Result<u128, AllocError> {
    let Some((first, others)) = spots.split_first() else {
        return Ok(most);
    };
    let mut least = most;
    let mut c = *first;
    for d in others {
        least = least.min(between(alloc, a, b, c, *d)?);
        c = *d;
    }
    Ok(least)
}

/// The least clearance between an edge of a contour and a section of an open path.
fn of_pairs(alloc: Global, contour: &[Spot], spots: &[Spot]) -> Result<u128, AllocError> {
    let Some((first, others)) = contour.split_first() else {
        return Ok(u128::MAX);
    };
    let mut least = u128::MAX;
    let mut a = *first;
    for b in others {
        least = from_edge(alloc, a, *b, spots, least)?;
        a = *b;
    }
    from_edge(alloc, a, *first, spots, least)
}

fn expect_least(alloc: Global, contour: &[Spot], spots: &[Spot], round: u32) -> Result<(), Fail> {
    let given = shapes(alloc, &[&[contour]])?;
    let paths = path(alloc, spots)?;
    let found = clearance_of(alloc, &given, &paths, false)?;
    let least = of_pairs(alloc, contour, spots)?;
    expect_equal(&found, &Some(least), &round)
}

#[test]
fn many_edges(rt: HostRuntime) -> Result<(), Fail> {
    let mut random = Random::new(7);
    for round in 0..12u32 {
        let contour = walk(rt.alloc(), &mut random, 90, (0, 0))?;
        let spots = walk(rt.alloc(), &mut random, 20, (150, 60))?;
        expect_least(rt.alloc(), &contour, &spots, round)?;
    }
    Ok(())
}
