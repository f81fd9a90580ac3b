//! Drawings in which most edges reach most heights, against a plain count of how often edges wind round points.

use crate::answers::{answered_shapes, overlay_of};
use mesh_below::below::{FillRule, Overlay};
use mesh_test_support::compared::{expect_equal, expect_that};
use mesh_test_support::edges::{edges_of_segments, edges_of_shapes};
use mesh_test_support::lists::{path, push_contour};
use mesh_test_support::plain::winding;
use mesh_test_support::random::Random;
use std::alloc::{AllocError, Global};
use std::test::Fail;

/// A point or a vector of a drawing.
type Spot = (i32, i32);

fn plus(p: Spot, v: Spot) -> Spot {
    (p.0.wrapping_add(v.0), p.1.wrapping_add(v.1))
}

fn times(k: i32, v: Spot) -> Spot {
    (k.wrapping_mul(v.0), k.wrapping_mul(v.1))
}

/// At 200 random points, whose coordinates are halves from -400 to 400, the filled shapes wind once where the drawing's
/// edges wind more often counterclockwise than clockwise, and else not at all. Answers at how many of them they do.
fn expect_counted(overlay: &Overlay<i32>, random: &mut Random) -> Result<u32, Fail> {
    let alloc = *overlay.segments.allocator();
    let edges = edges_of_segments(alloc, &overlay.segments)?;
    let shapes = answered_shapes(overlay, FillRule::Positive)?;
    let answer = edges_of_shapes(alloc, &shapes)?;
    let mut filled = 0u32;
    for _ in 0..200 {
        let (x, y) = random.point(1601);
        let q = (
            i128::from(x).wrapping_sub(800),
            i128::from(y).wrapping_sub(800),
        );
        let want = i128::from(winding(2, q, &edges) > 0);
        expect_equal(&winding(2, q, &answer), &want, &q)?;
        filled = filled.wrapping_add(if want == 1 { 1 } else { 0 });
    }
    Ok(filled)
}

/// A parallelogram from a corner of it along both vectors, or the same the other way round.
fn push_strip(
    overlay: &mut Overlay<i32>,
    corner: Spot,
    along: Spot,
    wide: Spot,
    backwards: bool,
) -> Result<(), AllocError> {
    let alloc = *overlay.segments.allocator();
    let mut spots = [
        corner,
        plus(corner, along),
        plus(plus(corner, along), wide),
        plus(corner, wide),
    ];
    if backwards {
        spots.reverse();
    }
    push_contour(&mut overlay.segments, &path(alloc, &spots)?)
}

/// Grounds with strips: a corner of the ground, the side of it that its strips run along, and how wide a strip is, as a
/// vector to the left of that side. The ground is 123 such widths wide, and neighbouring strips are one apart.
const STRIPS: &[(Spot, Spot, Spot)] = &[
    ((-400, -350), (700, 300), (-2, 6)),
    ((300, -400), (-500, 600), (-6, -4)),
    ((100, 380), (10, -750), (6, 2)),
    ((-390, -390), (600, 2), (3, 10)),
];

/// Long strips side by side on a ground: of three one is a hole, one is filled twice, and one is not there.
#[test]
fn strips_aslope(rt: HostRuntime) -> Result<(), Fail> {
    let mut random = Random::new(7);
    for (corner, along, step) in STRIPS {
        let mut overlay = overlay_of(rt.alloc(), &[])?;
        push_strip(&mut overlay, *corner, *along, times(123, *step), false)?;
        for number in 1..61 {
            if number % 3 > 0 {
                let beside = plus(*corner, times(2i32.wrapping_mul(number), *step));
                let inner = plus(beside, (along.0 / 100, along.1 / 100));
                let short = (along.0 / 20 * 19, along.1 / 20 * 19);
                push_strip(&mut overlay, inner, short, *step, number % 3 == 1)?;
            }
        }
        let filled = expect_counted(&overlay, &mut random)?;
        expect_that(filled > 20, &(corner, filled))?;
    }
    Ok(())
}

/// A point on the square of this half side, counted round from a corner in steps of so many a side.
fn round(half: i32, number: i32, steps: i32) -> Spot {
    let side = number / steps.max(1) % 4;
    let gone = (number % steps.max(1)).wrapping_mul(half.wrapping_mul(2)) / steps.max(1);
    let (from, way) = match side {
        0 => ((-1, -1), (1, 0)),
        1 => ((1, -1), (0, 1)),
        2 => ((1, 1), (-1, 0)),
        _ => ((-1, 1), (0, -1)),
    };
    plus(times(half, from), times(gone, way))
}

/// Rays apart from each other, each from a small square out to a large one.
#[test]
fn rays_all_round(rt: HostRuntime) -> Result<(), Fail> {
    let mut random = Random::new(8);
    let mut overlay = overlay_of(rt.alloc(), &[])?;
    for number in 0..80 {
        let first = 3i32.wrapping_mul(number);
        let spots = [
            round(60, first, 60),
            round(390, first.wrapping_add(1), 60),
            round(60, first.wrapping_add(1), 60),
        ];
        push_contour(&mut overlay.segments, &path(rt.alloc(), &spots)?)?;
    }
    let filled = expect_counted(&overlay, &mut random)?;
    expect_that(filled > 5, &filled)
}

/// One contour in and out all round, with a star of the other sense inside.
#[test]
fn stars(rt: HostRuntime) -> Result<(), Fail> {
    let mut random = Random::new(9);
    let mut overlay = overlay_of(rt.alloc(), &[])?;
    let mut outer = Vec::new(rt.alloc());
    let mut inner = Vec::new(rt.alloc());
    for number in 0..120 {
        let (far, near) = if number % 2 == 0 {
            (390, 40)
        } else {
            (150, 10)
        };
        outer.push(round(far, number, 30))?;
        inner.push(round(near, 119i32.wrapping_sub(number), 30))?;
    }
    push_contour(&mut overlay.segments, &path(rt.alloc(), &outer)?)?;
    push_contour(&mut overlay.segments, &path(rt.alloc(), &inner)?)?;
    let filled = expect_counted(&overlay, &mut random)?;
    expect_that(filled > 20, &filled)
}

/// The overlay answers so many shapes, each of one contour of four points.
fn expect_four_corners(overlay: &Overlay<i32>, count: usize) -> Result<(), Fail> {
    let shapes = answered_shapes(overlay, FillRule::Positive)?;
    expect_equal(&shapes.len(), &count, &"shapes")?;
    for shape in &shapes {
        expect_equal(&shape.len(), &1, &"contours")?;
        for contour in shape {
            expect_equal(&contour.len(), &4, &"points")?;
        }
    }
    Ok(())
}

/// So many strips that only some of their edges are looked at to choose how they are listed.
#[test]
fn many_strips_are_answered(rt: HostRuntime) -> Result<(), Fail> {
    let mut overlay = overlay_of(rt.alloc(), &[])?;
    for number in 0..5000 {
        let corner = (20i32.wrapping_mul(number), number % 7);
        push_strip(&mut overlay, corner, (7000, 50000), (-8, 1), false)?;
    }
    expect_four_corners(&overlay, 5000)
}

/// So many edges at one height that sums over all that reach it would not end in a test's time.
#[test]
fn a_long_chain_at_one_height_is_answered(rt: HostRuntime) -> Result<(), Fail> {
    let mut corners = Vec::new(rt.alloc());
    for x in 0..=200_000 {
        corners.push((x, 0))?;
    }
    corners.push((200_000, 7))?;
    corners.push((0, 7))?;
    expect_four_corners(&overlay_of(rt.alloc(), &[&corners])?, 1)
}
