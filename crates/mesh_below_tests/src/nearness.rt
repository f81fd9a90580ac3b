//! How near to the given edges an answer is exact, and the limit on splits.

use crate::answers::{Row, answered_shapes, expect_resolvable, overlay_of};
use crate::random_answers::scattered_overlay;
use mesh_below::below::{FillRule, Overlay, OverlayRule};
use mesh_below::nearness::{NearShapes, SplitCount, SplitError};
use mesh_test_support::compared::{expect_equal, expect_that};
use mesh_test_support::edges::{edges_of_segments, edges_of_shapes};
use mesh_test_support::nearness::is_near_some;
use mesh_test_support::outer;
use mesh_test_support::plain::{Edge, winding};
use mesh_test_support::random::Random;
use std::test::Fail;

const SQUARE: Row = outer!(0, 0, 4, 4);

const OTHER: Row = outer!(2, 2, 6, 6);

/// Its sides from (0,0) to (7,4) and from (7,0) to (0,5) cross in (35/9,20/9), beside the point (4,2).
const CROSSED: Row = &[(0, 0), (7, 4), (7, 0), (0, 5)];

/// What the overlay fills, and how near, with a count that goes on.
fn answered(overlay: &Overlay<i32>, count: &mut SplitCount) -> Result<NearShapes<i32>, Fail> {
    expect_resolvable(overlay)?;
    let near = overlay.overlay_with_nearness(OverlayRule::Subject, FillRule::Positive, count)?;
    Ok(near)
}

#[test]
fn squares_that_overlap_are_exact(rt: HostRuntime) -> Result<(), Fail> {
    let overlay = overlay_of(rt.alloc(), &[SQUARE, OTHER])?;
    let mut count = SplitCount::new(0);
    let near = answered(&overlay, &mut count)?;
    expect_equal(&near.nearness, &0, &"the nearness")?;
    expect_that(count.made > 0, &count)?;
    expect_equal(
        &near.shapes,
        &answered_shapes(&overlay, FillRule::Positive)?,
        &"the shapes",
    )
}

/// The point (4,2) lies 2/11 of a unit from the first of both sides that cross, and 1/12 from the other.
#[test]
fn a_crossing_that_is_rounded(rt: HostRuntime) -> Result<(), Fail> {
    let overlay = overlay_of(rt.alloc(), &[CROSSED])?;
    let mut count = SplitCount::new(0);
    let near = answered(&overlay, &mut count)?;
    expect_equal(&near.nearness, &12, &"64 times 2/11, rounded up")?;
    expect_equal(
        &near.shapes,
        &answered_shapes(&overlay, FillRule::Positive)?,
        &"the shapes",
    )
}

/// Farther than the nearness from each given edge the answer winds as the fill says. Answers at how many points.
fn expect_exact_beyond(nearness: u64, given: &[Edge], answer: &[Edge]) -> Result<u32, Fail> {
    let mut far = 0u32;
    for x in -1i32..35 {
        for y in -1i32..35 {
            let q = (i128::from(x), i128::from(y));
            if !is_near_some(nearness, 2, given, q) {
                let wanted = if winding(2, q, given) > 0 { 1 } else { 0 };
                expect_equal(&winding(2, q, answer), &wanted, &(q, given))?;
                far = far.wrapping_add(1);
            }
        }
    }
    Ok(far)
}

/// Each vertex of the answer lies within the nearness of a given edge.
fn expect_close(nearness: u64, given: &[Edge], answer: &[Edge]) -> Result<(), Fail> {
    for (vertex, _) in answer {
        expect_that(is_near_some(nearness, 1, given, *vertex), &(vertex, given))?;
    }
    Ok(())
}

/// Most crossings here are rounded.
#[test]
fn answers_are_exact_beyond_their_nearness(rt: HostRuntime) -> Result<(), Fail> {
    let mut random = Random::new(7);
    let mut count = SplitCount::new(0);
    let (mut far, mut moved) = (0u32, 0u32);
    for number in 0u32..150 {
        let overlay = scattered_overlay(rt.alloc(), &mut random, number)?;
        let near = answered(&overlay, &mut count)?;
        let given = edges_of_segments(rt.alloc(), &overlay.segments)?;
        let answer = edges_of_shapes(rt.alloc(), &near.shapes)?;
        expect_close(near.nearness, &given, &answer)?;
        let here = expect_exact_beyond(near.nearness, &given, &answer)?;
        far = far.wrapping_add(here);
        moved = moved.wrapping_add(if near.nearness > 0 { 1 } else { 0 });
    }
    expect_that(far > 10000 && moved > 100, &(far, moved))
}

/// The splits are refused, for there are too many, and the count tells of more than the limit.
fn expect_too_many(overlay: &Overlay<i32>, count: &mut SplitCount) -> Result<(), Fail> {
    expect_resolvable(overlay)?;
    let rule = OverlayRule::Subject;
    let answer = overlay.overlay_with_nearness(rule, FillRule::Positive, count);
    expect_that(matches!(answer, Err(SplitError::TooManySplits)), count)?;
    expect_that(count.made > count.most, count)
}

#[test]
fn a_limit_refuses(rt: HostRuntime) -> Result<(), Fail> {
    let overlay = overlay_of(rt.alloc(), &[SQUARE, OTHER])?;
    expect_too_many(&overlay, &mut SplitCount::new(1))
}

#[test]
fn a_limit_that_is_just_enough_changes_nothing(rt: HostRuntime) -> Result<(), Fail> {
    let overlay = overlay_of(rt.alloc(), &[SQUARE, OTHER])?;
    let mut count = SplitCount::new(0);
    let free = answered(&overlay, &mut count)?;
    let mut limited = SplitCount::new(count.made);
    let near = answered(&overlay, &mut limited)?;
    expect_equal(&near.shapes, &free.shapes, &"the shapes")?;
    expect_equal(&near.nearness, &free.nearness, &"the nearness")?;
    expect_equal(&limited.made, &count.made, &"the splits")
}

/// The second call passes a limit that is just enough for the first.
#[test]
fn a_count_goes_on(rt: HostRuntime) -> Result<(), Fail> {
    let overlay = overlay_of(rt.alloc(), &[SQUARE, OTHER])?;
    let mut free = SplitCount::new(0);
    answered(&overlay, &mut free)?;
    let once = free.made;
    answered(&overlay, &mut free)?;
    expect_equal(
        &free.made,
        &once.saturating_mul(2),
        &"the splits of two calls",
    )?;
    let mut count = SplitCount::new(once);
    answered(&overlay, &mut count)?;
    expect_too_many(&overlay, &mut count)
}
