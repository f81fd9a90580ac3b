//! Random closed lists, against a plain count of how often edges wind round points of the grid 2.

use crate::answers::{answered_shapes, expect_resolvable, overlay_of};
use crate::counted::{bent, counted, is_near};
use crate::splits::split_sorted;
use mesh_below::below::{ContourDirection, FillRule, Overlay, OverlayRule};
use mesh_below::given::lattice_edge;
use mesh_num::shape::buffer::IntShapes;
use mesh_test_support::compared::{expect_equal, expect_that};
use mesh_test_support::edges::{edges_of_segments, edges_of_shapes};
use mesh_test_support::lists::{path, push_contour};
use mesh_test_support::plain::{Edge, winding};
use mesh_test_support::random::{Random, scattered, slanted};
use std::alloc::{AllocError, Global};
use std::test::Fail;

/// Whether a winding is filled.
pub fn is_filled(fill: FillRule, winding: i128) -> bool {
    match fill {
        FillRule::Positive => winding > 0,
        FillRule::Negative => winding < 0,
    }
}

/// Near the square and in it, but for the boxes of bent edges, the answer winds `once` where the given edges' winding
/// is filled, and not elsewhere. Answers at how many points it is filled.
pub fn expect_region(
    edges: &[Edge],
    bent: &[Edge],
    fill: FillRule,
    answer: &[Edge],
    once: i128,
) -> Result<u32, Fail> {
    let mut filled = 0u32;
    for x in -1i32..35 {
        for y in -1i32..35 {
            let q = (i128::from(x), i128::from(y));
            if !is_near(bent, q) {
                let is_filled = is_filled(fill, winding(2, q, edges));
                let want = if is_filled { once } else { 0 };
                let found = winding(2, q, answer);
                expect_equal(&found, &want, &(q, edges))?;
                filled = filled.wrapping_add(if is_filled { 1 } else { 0 });
            }
        }
    }
    Ok(filled)
}

/// By either rule the answer winds as the fill says, but for the boxes of bent edges. Answers at how many points it is
/// filled.
fn expect_regions(overlay: &Overlay<i32>, bent: &[Edge], once: i128) -> Result<u32, Fail> {
    let alloc = *overlay.segments.allocator();
    let mut filled = 0u32;
    let edges = edges_of_segments(alloc, &overlay.segments)?;
    for fill in [FillRule::Positive, FillRule::Negative] {
        let answer = edges_of_shapes(alloc, &answered_shapes(overlay, fill)?)?;
        let here = expect_region(&edges, bent, fill, &answer, once)?;
        filled = filled.wrapping_add(here);
    }
    Ok(filled)
}

/// One to three lists of points whose edges cross in whole points alone.
fn slanted_overlay(
    alloc: Global,
    random: &mut Random,
    number: u32,
) -> Result<Overlay<i32>, AllocError> {
    let mut overlay = overlay_of(alloc, &[])?;
    for _ in 0..number % 3 + 1 {
        let spots = slanted(alloc, random, number % 5 + 2)?;
        push_contour(&mut overlay.segments, &path(alloc, &spots)?)?;
    }
    Ok(overlay)
}

/// One to three lists of points anywhere in a square.
pub fn scattered_overlay(
    alloc: Global,
    random: &mut Random,
    number: u32,
) -> Result<Overlay<i32>, AllocError> {
    let mut overlay = overlay_of(alloc, &[])?;
    for _ in 0..number % 3 + 1 {
        let spots = scattered(alloc, random, number % 5 + 3, 17)?;
        push_contour(&mut overlay.segments, &path(alloc, &spots)?)?;
    }
    Ok(overlay)
}

#[test]
fn answers_wind_as_the_fill_says(rt: HostRuntime) -> Result<(), Fail> {
    let mut random = Random::new(3);
    let mut filled = 0u32;
    for number in 0u32..300 {
        let mut overlay = slanted_overlay(rt.alloc(), &mut random, number)?;
        let first = expect_regions(&overlay, &[], 1)?;
        overlay.options.preserve_output_collinear = true;
        overlay.options.output_direction = ContourDirection::Clockwise;
        let second = expect_regions(&overlay, &[], -1)?;
        expect_equal(&first, &second, &number)?;
        filled = filled.wrapping_add(first);
    }
    expect_that(filled > 10000, &filled)
}

/// The given edges that may have been bent.
fn bent_edges(overlay: &Overlay<i32>) -> Result<Vec<Edge>, AllocError> {
    let alloc = *overlay.segments.allocator();
    let mut given = Vec::new(alloc);
    for segment in &overlay.segments {
        given.push(lattice_edge(*segment))?;
    }
    let segments = counted(alloc, &split_sorted(alloc, &given)?)?;
    let edges = edges_of_segments(alloc, &overlay.segments)?;
    bent(alloc, &edges, &segments)
}

/// Most crossings here are rounded. The lists in which no edge is bent are not counted.
#[test]
fn answers_wind_as_the_fill_says_beside_bent_edges(rt: HostRuntime) -> Result<(), Fail> {
    let mut random = Random::new(5);
    let mut filled = 0u32;
    for number in 0u32..300 {
        let overlay = scattered_overlay(rt.alloc(), &mut random, number)?;
        let bent = bent_edges(&overlay)?;
        let here = expect_regions(&overlay, &bent, 1)?;
        filled = filled.wrapping_add(if bent.is_empty() { 0 } else { here });
    }
    expect_that(filled > 100, &filled)
}

/// The contours of shapes as an overlay's segments.
pub fn again(alloc: Global, shapes: &IntShapes<i32>) -> Result<Overlay<i32>, AllocError> {
    let mut overlay = overlay_of(alloc, &[])?;
    for shape in shapes {
        for contour in shape {
            push_contour(&mut overlay.segments, contour)?;
        }
    }
    Ok(overlay)
}

/// Where the first answer is settled, the second has its edges.
#[test]
fn answers_handed_in_again_are_answered(rt: HostRuntime) -> Result<(), Fail> {
    let mut random = Random::new(4);
    let mut settled = 0u32;
    for number in 0u32..300 {
        let overlay = scattered_overlay(rt.alloc(), &mut random, number)?;
        expect_resolvable(&overlay)?;
        let first = overlay.overlay_answer(OverlayRule::Subject, FillRule::Positive)?;
        let mut edges = edges_of_shapes(rt.alloc(), &first.shapes)?;
        let overlay = again(rt.alloc(), &first.shapes)?;
        let second = answered_shapes(&overlay, FillRule::Positive)?;
        let mut answer = edges_of_shapes(rt.alloc(), &second)?;
        expect_region(&edges, &[], FillRule::Positive, &answer, 1)?;
        if first.is_settled {
            edges.sort_unstable();
            answer.sort_unstable();
            expect_equal(&edges, &answer, &number)?;
            settled = settled.wrapping_add(1);
        }
    }
    expect_that(settled > 100, &settled)
}
