//! Overlaps and coverage of random rectangles, whose edges meet in whole points alone, against a plain count of windings.

use crate::random_answers::rectangles;
use crate::regions::regions;
use mesh_below::below::IntOverlayOptions;
use mesh_below::nearness::SplitCount;
use mesh_boolean::overlaps::{ZoneOverlap, overlaps, overlaps_with_nearness};
use mesh_boolean::zones::{coverage, coverage_with_nearness};
use mesh_num::shape::buffer::IntShapes;
use mesh_test_support::compared::{expect_equal, expect_that};
use mesh_test_support::edges::edges_of_shapes;
use mesh_test_support::plain::{Edge, winding};
use mesh_test_support::random::Random;
use std::alloc::{AllocError, Global};
use std::test::Fail;

/// The middle of a cell, in halves of a grid unit.
fn middle(cell: u8) -> i128 {
    i128::from(cell).wrapping_mul(2).wrapping_sub(1)
}

/// The middles of the cells in which random rectangles lie, in halves of a grid unit.
fn middles(alloc: Global) -> Result<Vec<(i128, i128)>, AllocError> {
    let mut spots = Vec::new(alloc);
    for x in 0u8..8 {
        for y in 0u8..8 {
            spots.push((middle(x), middle(y)))?;
        }
    }
    Ok(spots)
}

/// How many of the cells are filled by both lists of edges.
fn common_cells(spots: &[(i128, i128)], first: &[Edge], second: &[Edge]) -> u32 {
    let mut cells = 0u32;
    for spot in spots {
        if winding(2, *spot, first) != 0 && winding(2, *spot, second) != 0 {
            cells = cells.wrapping_add(1);
        }
    }
    cells
}

/// Fails where polygons do not fill just the cells that both lists of edges fill.
fn expect_common(
    alloc: Global,
    spots: &[(i128, i128)],
    first: &[Edge],
    second: &[Edge],
    shapes: &IntShapes<i32>,
) -> Result<(), Fail> {
    let answer = edges_of_shapes(alloc, shapes)?;
    for spot in spots {
        let wanted = winding(2, *spot, first) != 0 && winding(2, *spot, second) != 0;
        expect_equal(&winding(2, *spot, &answer), &i128::from(wanted), spot)?;
    }
    Ok(())
}

/// Fails where these are not the overlaps of the zones with these edges: all pairs are gone through, and their cells.
fn expect_overlaps(
    alloc: Global,
    spots: &[(i128, i128)],
    edges: &[Vec<Edge>],
    found: &[ZoneOverlap<i32>],
) -> Result<(), Fail> {
    let mut next = 0usize;
    for first in 0..edges.len() {
        for second in first + 1..edges.len() {
            let cells = common_cells(spots, &edges[first], &edges[second]);
            if 0 < cells {
                expect_that(next < found.len(), &(first, second))?;
                if next < found.len() {
                    let overlap = &found[next];
                    expect_equal(&(overlap.first, overlap.second), &(first, second), &next)?;
                    expect_common(alloc, spots, &edges[first], &edges[second], &overlap.shapes)?;
                    next += 1;
                }
            }
        }
    }
    expect_equal(&found.len(), &next, &edges.len())
}

/// Fails where polygons do not fill just the cells that so many of the lists of edges fill.
fn expect_covered(
    alloc: Global,
    spots: &[(i128, i128)],
    edges: &[Vec<Edge>],
    least: u32,
    shapes: &IntShapes<i32>,
) -> Result<(), Fail> {
    let answer = edges_of_shapes(alloc, shapes)?;
    for spot in spots {
        let mut zones = 0u32;
        for own in edges {
            if winding(2, *spot, own) != 0 {
                zones = zones.wrapping_add(1);
            }
        }
        expect_equal(
            &winding(2, *spot, &answer),
            &i128::from(zones >= least),
            spot,
        )?;
    }
    Ok(())
}

#[test]
fn rectangles_overlap_as_counted(rt: HostRuntime) -> Result<(), Fail> {
    let alloc = rt.alloc();
    let mut random = Random::new(11);
    let spots = middles(alloc)?;
    let mut listed = 0usize;
    for _ in 0..12 {
        let mut sources = Vec::new(alloc);
        let mut edges = Vec::new(alloc);
        for _ in 0..random.below(12) {
            let (source, own) = rectangles(alloc, &mut random)?;
            sources.push(source)?;
            edges.push(own)?;
        }
        let zones = regions(alloc, &sources)?;
        let found = overlaps(alloc, &zones, IntOverlayOptions::new())?;
        expect_overlaps(alloc, &spots, &edges, &found)?;
        let mut count = SplitCount::new(0);
        let near = overlaps_with_nearness(alloc, &zones, IntOverlayOptions::new(), &mut count)?;
        expect_overlaps(alloc, &spots, &edges, &near.overlaps)?;
        expect_equal(&near.nearness, &0, &found.len())?;
        listed = listed.wrapping_add(found.len());
    }
    // many pairs overlap, so the test tests something
    expect_that(listed > 50, &listed)
}

#[test]
fn rectangles_cover_as_counted(rt: HostRuntime) -> Result<(), Fail> {
    let alloc = rt.alloc();
    let mut random = Random::new(13);
    let spots = middles(alloc)?;
    for _ in 0..12 {
        let mut sources = Vec::new(alloc);
        let mut edges = Vec::new(alloc);
        for _ in 0..random.below(8) {
            let (source, own) = rectangles(alloc, &mut random)?;
            sources.push(source)?;
            edges.push(own)?;
        }
        let zones = regions(alloc, &sources)?;
        for least in 1u32..4 {
            let shapes = coverage(alloc, &zones, least, IntOverlayOptions::new())?;
            expect_covered(alloc, &spots, &edges, least, &shapes)?;
            let mut count = SplitCount::new(0);
            let near = coverage_with_nearness(
                alloc,
                &zones,
                least,
                IntOverlayOptions::new(),
                &mut count,
            )?;
            expect_covered(alloc, &spots, &edges, least, &near.shapes)?;
            expect_equal(&near.nearness, &0, &least)?;
        }
    }
    Ok(())
}
