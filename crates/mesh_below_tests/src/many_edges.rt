//! Some thousands of edges, so many that only some of them are looked at to choose how they are listed, against a plain
//! count of how often they wind round points away from them.

use crate::answers::{answered_shapes, overlay_of};
use crate::hard_splits::is_near_some;
use crate::random_answers::is_filled;
use mesh_below::below::{FillRule, Overlay};
use mesh_test_support::compared::{expect_equal, expect_that};
use mesh_test_support::edges::{edges_of_segments, edges_of_shapes};
use mesh_test_support::lists::{path, push_contour};
use mesh_test_support::plain::winding;
use mesh_test_support::random::{Random, scattered};
use std::alloc::{AllocError, Global};
use std::test::Fail;

/// How long and how wide the drawing is, in grid units.
const SIDE: u32 = 400_000;

/// Contours of five points each, of which each lies in a square somewhere in the drawing.
fn contours(
    alloc: Global,
    random: &mut Random,
    count: u32,
    square: u32,
) -> Result<Overlay<i32>, AllocError> {
    let mut overlay = overlay_of(alloc, &[])?;
    for _ in 0..count {
        let corner = random.point(SIDE);
        let mut spots = scattered(alloc, random, 5, square.clamp(1, SIDE))?;
        for spot in &mut spots {
            *spot = (spot.0.wrapping_add(corner.0), spot.1.wrapping_add(corner.1));
        }
        push_contour(&mut overlay.segments, &path(alloc, &spots)?)?;
    }
    Ok(overlay)
}

/// At random points that are more than two units away from each edge, the answer winds once where the edges' winding is
/// filled, and else not at all. Answers at how many of them it is filled. (That no split of these drags an edge over
/// such a point is measured, not promised.)
fn expect_filled(overlay: &Overlay<i32>, fill: FillRule, random: &mut Random) -> Result<u32, Fail> {
    let alloc = *overlay.segments.allocator();
    let edges = edges_of_segments(alloc, &overlay.segments)?;
    let answer = edges_of_shapes(alloc, &answered_shapes(overlay, fill)?)?;
    let mut filled = 0u32;
    for _ in 0..300 {
        let (x, y) = random.point(SIDE);
        let q = (i128::from(x), i128::from(y));
        if !is_near_some(q, &edges) {
            let want = i128::from(is_filled(fill, winding(1, q, &edges)));
            expect_equal(&winding(1, q, &answer), &want, &q)?;
            filled = filled.wrapping_add(if want == 1 { 1 } else { 0 });
        }
    }
    Ok(filled)
}

/// Many small contours, and fewer that cross many others.
#[test]
fn many_contours_are_answered(rt: HostRuntime) -> Result<(), Fail> {
    let mut random = Random::new(2400);
    for (count, square) in [(1000, 20_000), (100, 200_000)] {
        let overlay = contours(rt.alloc(), &mut random, count, square)?;
        for fill in [FillRule::Positive, FillRule::Negative] {
            let filled = expect_filled(&overlay, fill, &mut random)?;
            expect_that(filled > 10, &(count, filled))?;
        }
    }
    Ok(())
}
