//! Random lists of edges, against a plain check of what split segments are.

ghost use Rattle.std.specs.Prelude.{◌<◌, ◌^◌};

use crate::counted::{
    Counted, bent, counted, counted_winding, excess, is_boxed, is_near, meet, once_each,
    plain_edges,
};
use crate::splits::split_sorted;
use mesh_below::lattice::LatticeEdge;
use mesh_test_support::compared::{expect_equal, expect_that};
use mesh_test_support::plain::Edge;
use mesh_test_support::random::{Random, scattered, slanted_edges};
use std::alloc::{AllocError, Global};
use std::test::Fail;

/// Adds the edges of a closed list of points, but for those that end where they start.
pub fn push_closed(edges: &mut Vec<LatticeEdge>, spots: &[(i32, i32)]) -> Result<(), AllocError> {
    let Some(last) = spots.last() else {
        return Ok(());
    };
    let mut before = *last;
    for spot in spots {
        if before != *spot {
            edges.push((before, *spot))?;
        }
        before = *spot;
    }
    Ok(())
}

/// Edges that close up: one to four contours of three to six points in a square of `size`.
fn contours(alloc: Global, random: &mut Random, size: u32) -> Result<Vec<LatticeEdge>, AllocError>
    requires least { 0 < size }
    requires most { size < 2 ^ 31 }
{
    let mut edges = Vec::new(alloc);
    for _ in 0..random.below(4) + 1 {
        let count = random.below(4) + 3;
        push_closed(&mut edges, &scattered(alloc, random, count, size)?)?;
    }
    Ok(edges)
}

/// How many of the segments meet this one.
fn met(s: Edge, segments: &[Counted]) -> usize {
    let mut met = 0usize;
    for t in segments {
        if meet(s, t.0) {
            met = met.wrapping_add(1);
        }
    }
    met
}

/// Each segment stands once, shares only ends with the others, and lies in the box of an edge.
fn expect_clean(edges: &[Edge], segments: &[Counted]) -> Result<(), Fail> {
    for s in segments {
        expect_equal(&met(s.0, segments), &1, &(s, edges))?;
        expect_that(is_boxed(edges, s.0), &(s, edges))?;
    }
    Ok(())
}

/// At each end the segments count as much from it as the edges do.
fn expect_same_excess(given: &[Counted], segments: &[Counted]) -> Result<(), Fail> {
    for list in [given, segments] {
        for s in list {
            for p in [s.0.0, s.0.1] {
                let want = excess(given, p);
                expect_equal(&excess(segments, p), &want, &(p, given))?;
            }
        }
    }
    Ok(())
}

/// At the points of the grid 2 that lie in the box of no bent edge, the segments wind as the given ones do. Answers at
/// how many of these that is not 0.
fn expect_same_winding(
    given: &[Counted],
    segments: &[Counted],
    bent: &[Edge],
) -> Result<u32, Fail> {
    let mut wound = 0u32;
    for x in -17i32..34 {
        for y in -17i32..34 {
            let q = (i128::from(x), i128::from(y));
            if !is_near(bent, q) {
                let want = counted_winding(given, q);
                let found = counted_winding(segments, q);
                expect_equal(&found, &want, &(q, given))?;
                wound = wound.wrapping_add(if want == 0 { 0 } else { 1 });
            }
        }
    }
    Ok(wound)
}

/// All that split segments are, whether or not edges may be bent. Answers at how many points they wind.
pub fn expect_split(alloc: Global, edges: &[LatticeEdge], may_bend: bool) -> Result<u32, Fail> {
    let segments = counted(alloc, &split_sorted(alloc, edges)?)?;
    let edges = plain_edges(alloc, edges)?;
    let given = once_each(alloc, &edges)?;
    let bent = if may_bend {
        bent(alloc, &edges, &segments)?
    } else {
        Vec::new(alloc)
    };
    expect_clean(&edges, &segments)?;
    expect_same_excess(&given, &segments)?;
    expect_same_winding(&given, &segments, &bent)
}

#[test]
fn contours_are_split(rt: HostRuntime) -> Result<(), Fail> {
    let mut random = Random::new(7);
    let mut wound = 0u32;
    for round in 0u32..300 {
        let edges = contours(rt.alloc(), &mut random, round % 13 + 2)?;
        wound = wound.wrapping_add(expect_split(rt.alloc(), &edges, true)?);
    }
    expect_that(wound > 1000, &wound)
}

/// No edge here is bent, so the segments wind as the edges do at all points.
#[test]
fn slanted_edges_are_split(rt: HostRuntime) -> Result<(), Fail> {
    let mut random = Random::new(8);
    let mut wound = 0u32;
    for round in 0u32..100 {
        let edges = slanted_edges(rt.alloc(), &mut random, round % 12 + 2)?;
        wound = wound.wrapping_add(expect_split(rt.alloc(), &edges, false)?);
    }
    expect_that(wound > 50000, &wound)
}
