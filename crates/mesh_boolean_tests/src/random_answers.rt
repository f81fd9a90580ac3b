//! Booleans of random rectangles, whose edges meet in whole points alone, against a plain count of windings.

use crate::regions::expect_in_range;
use mesh_below::below::IntOverlayOptions;
use mesh_boolean::boolean::overlay_shapes;
use mesh_boolean::rule::{BooleanFill, BooleanFillRule, BooleanRule};
use mesh_num::num::IntPoint;
use mesh_test_support::compared::expect_equal;
use mesh_test_support::edges::edges_of_shapes;
use mesh_test_support::plain::{Edge, closed, winding};
use mesh_test_support::random::Random;
use std::alloc::{AllocError, Global};
use std::test::Fail;

const RULES: [BooleanRule; 7] = [
    BooleanRule::Subject,
    BooleanRule::Clip,
    BooleanRule::Intersect,
    BooleanRule::Union,
    BooleanRule::Difference,
    BooleanRule::InverseDifference,
    BooleanRule::Xor,
];

const FILLS: [BooleanFillRule; 4] = [
    BooleanFillRule::EvenOdd,
    BooleanFillRule::NonZero,
    BooleanFillRule::Positive,
    BooleanFillRule::Negative,
];

fn is_filled(fill: BooleanFillRule, winding: i128) -> bool {
    match fill {
        BooleanFillRule::EvenOdd => winding.wrapping_rem(2) != 0,
        BooleanFillRule::NonZero => winding != 0,
        BooleanFillRule::Positive => winding > 0,
        BooleanFillRule::Negative => winding < 0,
    }
}

fn is_kept(rule: BooleanRule, first: bool, second: bool) -> bool {
    match rule {
        BooleanRule::Subject => first,
        BooleanRule::Clip => second,
        BooleanRule::Intersect => first && second,
        BooleanRule::Union => first || second,
        BooleanRule::Difference => first && !second,
        BooleanRule::InverseDifference => second && !first,
        BooleanRule::Xor => first != second,
    }
}

/// Up to three rectangles, in either direction, and their edges.
pub(crate) fn rectangles(
    alloc: Global,
    random: &mut Random,
) -> Result<(Vec<Vec<IntPoint<i32>>>, Vec<Edge>), AllocError> {
    let mut contours = Vec::new(alloc);
    let mut edges = Vec::new(alloc);
    for _ in 0..random.below(4) {
        let (x, y) = random.point(7);
        let (u, v) = random.point(7);
        let mut spots = Vec::new(alloc);
        spots.push((x, y))?;
        spots.push((u, y))?;
        spots.push((u, v))?;
        spots.push((x, v))?;
        let mut contour = Vec::new(alloc);
        let mut points = Vec::new(alloc);
        for spot in &spots {
            contour.push(IntPoint::new(spot.0, spot.1))?;
            points.push((i128::from(spot.0), i128::from(spot.1)))?;
        }
        contours.push(contour)?;
        for edge in closed(alloc, &points)? {
            edges.push(edge)?;
        }
    }
    Ok((contours, edges))
}

#[test]
fn rectangles_wind_as_they_are_kept(rt: HostRuntime) -> Result<(), Fail> {
    let alloc = rt.alloc();
    let mut random = Random::new(7);
    let mut kept = 0u32;
    for _ in 0..40 {
        let (subject, subject_edges) = rectangles(alloc, &mut random)?;
        let (clip, clip_edges) = rectangles(alloc, &mut random)?;
        expect_in_range(&subject)?;
        expect_in_range(&clip)?;
        let fill = BooleanFill {
            subject: FILLS[random.below(4) as usize],
            clip: FILLS[random.below(4) as usize],
        };
        for rule in RULES {
            let shapes = overlay_shapes(
                alloc,
                &subject,
                &clip,
                rule,
                fill,
                IntOverlayOptions::new(),
            )?;
            let answer = edges_of_shapes(alloc, &shapes)?;
            for x in 0i32..8 {
                for y in 0i32..8 {
                    let q = (
                        i128::from(x).wrapping_mul(2).wrapping_sub(1),
                        i128::from(y).wrapping_mul(2).wrapping_sub(1),
                    );
                    let first = is_filled(fill.subject, winding(2, q, &subject_edges));
                    let second = is_filled(fill.clip, winding(2, q, &clip_edges));
                    let wanted = is_kept(rule, first, second);
                    expect_equal(
                        &winding(2, q, &answer),
                        &i128::from(wanted),
                        &(q, rule, fill),
                    )?;
                    kept = kept.wrapping_add(u32::from(wanted));
                }
            }
        }
    }
    // many points are kept, so the test tests something
    expect_equal(&(kept > 1_000), &true, &kept)
}
