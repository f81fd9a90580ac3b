//! How near to the drawn edges outlines are exact, and the limit on splits of a whole call.

use crate::outlines::{built, styled};
use i_overlay_mesh::outline::offset::IntOutlineOffset;
use i_overlay_mesh::{IntNearnessError, IntOverlayOptions, IntPoint, NearShapes, SplitCount};
use mesh_test_support::compared::{expect_equal, expect_that};
use mesh_test_support::edges::edges_of_shapes;
use mesh_test_support::joins::JoinKind;
use mesh_test_support::lists::path;
use mesh_test_support::nearness::is_near_some;
use mesh_test_support::plain::{Edge, plus, refined, winding};
use std::alloc::Global;
use std::test::Fail;

const SLANTED: &[(i32, i32)] = &[
    (0, 0),
    (90, 0),
    (90, 45),
    (121, 72),
    (93, 105),
    (0, 105),
    (0, 70),
    (-25, 57),
    (0, 41),
];

/// Its sides cross, and their outlines too.
const CROSSED: &[(i32, i32)] = &[(0, 0), (97, 41), (31, 88), (85, 3), (44, 61), (12, 90)];

const ROUND: JoinKind = JoinKind::Round(268_435_456, 5);

/// Contours, offsets and joins.
const CASES: [(&[(i32, i32)], i32, JoinKind); 5] = [
    (SLANTED, 9, JoinKind::Bevel),
    (SLANTED, -23, JoinKind::Bevel),
    (SLANTED, 40, ROUND),
    (CROSSED, 6, ROUND),
    (CROSSED, 30, JoinKind::Bevel),
];

/// The outline, and how near, with a count that goes on.
fn answered(
    alloc: Global,
    contour: &Vec<IntPoint<i32>>,
    offset: i32,
    join: JoinKind,
    count: &mut SplitCount,
) -> Result<NearShapes<i32>, IntNearnessError> {
    let style = styled(offset, join);
    contour.validate_outline(&style)?;
    contour.outline_with_nearness(alloc, &style, IntOverlayOptions::new(), count)
}

/// Near the starts of these edges, at points of the grid 2 that are farther than the nearness from each drawn edge, the
/// answer winds once where these wind above 0. Answers at how many points.
fn expect_exact_beyond(
    nearness: u64,
    vertices: &[Edge],
    drawn: &[Edge],
    answer: &[Edge],
) -> Result<u32, Fail> {
    let mut far = 0u32;
    for (vertex, _) in vertices {
        for x in -6i32..7 {
            for y in -6i32..7 {
                let q = plus(refined(2, *vertex), (i128::from(x), i128::from(y)));
                if !is_near_some(nearness, 2, drawn, q) {
                    let wanted = if winding(2, q, drawn) > 0 { 1 } else { 0 };
                    expect_equal(&winding(2, q, answer), &wanted, &q)?;
                    far = far.wrapping_add(1);
                }
            }
        }
    }
    Ok(far)
}

#[test]
fn outlines_are_exact_beyond_their_nearness(rt: HostRuntime) -> Result<(), Fail> {
    let alloc = rt.alloc();
    for case in &CASES {
        let (spots, offset, join) = *case;
        let contour = path(alloc, spots)?;
        let near = answered(alloc, &contour, offset, join, &mut SplitCount::new(0))?;
        let drawn = built(alloc, &contour, styled(offset, join))?;
        let answer = edges_of_shapes(alloc, &near.shapes)?;
        for (vertex, _) in &answer {
            expect_that(
                is_near_some(near.nearness, 1, &drawn, *vertex),
                &(vertex, case),
            )?;
        }
        let far = expect_exact_beyond(near.nearness, &answer, &drawn, &answer)?;
        expect_that(far > 100, &(far, case))?;
        let far = expect_exact_beyond(near.nearness, &drawn, &drawn, &answer)?;
        expect_that(far > 100, &(far, case))?;
    }
    Ok(())
}

#[test]
fn the_shapes_are_those_of_the_plain_call(rt: HostRuntime) -> Result<(), Fail> {
    let alloc = rt.alloc();
    for case in &CASES {
        let (spots, offset, join) = *case;
        let contour = path(alloc, spots)?;
        let near = answered(alloc, &contour, offset, join, &mut SplitCount::new(0))?;
        let style = styled(offset, join);
        contour.validate_outline(&style)?;
        let plain = contour.outline_custom(alloc, &style, IntOverlayOptions::new())?;
        expect_equal(&near.shapes, &plain, case)?;
    }
    Ok(())
}

/// The limit holds for the whole call: the contour alone, and what it gives.
#[test]
fn a_limit_refuses_and_one_that_is_just_enough_changes_nothing(
    rt: HostRuntime,
) -> Result<(), Fail> {
    let alloc = rt.alloc();
    let contour = path(alloc, CROSSED)?;
    let mut count = SplitCount::new(0);
    let free = answered(alloc, &contour, 6, ROUND, &mut count)?;
    let mut limited = SplitCount::new(count.made);
    let near = answered(alloc, &contour, 6, ROUND, &mut limited)?;
    expect_equal(&near.shapes, &free.shapes, &"the shapes")?;
    expect_equal(&limited.made, &count.made, &"the splits")?;
    let mut one = SplitCount::new(1);
    let refused = answered(alloc, &contour, 6, ROUND, &mut one);
    expect_that(
        matches!(refused, Err(IntNearnessError::TooManySplits)),
        &one,
    )?;
    expect_that(one.made > 1, &one)
}

#[test]
fn texts_of_errors(rt: HostRuntime) -> Result<(), Fail> {
    let text = format!(in rt.alloc(); "{}", IntNearnessError::TooManySplits)?;
    expect_equal(
        &text.as_str(),
        &"splitting took more splits than the limit",
        &"too many",
    )
}
