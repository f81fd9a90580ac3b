//! Strokes that are many steps wide, whose edges cross each other everywhere.

use i_overlay_mesh::stroke::offset::IntStrokeOffset;
use i_overlay_mesh::{IntOverlayOptions, IntStrokeStyle, SplitCount};
use mesh_test_support::compared::expect_that;
use mesh_test_support::lists::path;
use std::alloc::{AllocError, Global};
use std::test::Fail;

/// The points of the path: with steps of a 32nd of the radius they go round once.
const POINTS: usize = 201;

const RADIUS: i32 = 1 << 20;

/// A path that is nearly a circle about the origin.
fn circle(alloc: Global) -> Result<Vec<(i32, i32)>, AllocError> {
    let mut points = Vec::with_capacity(alloc, POINTS)?;
    let mut x: i32 = RADIUS;
    let mut y: i32 = 0;
    for _point in 0..POINTS {
        points.push((x, y))?;
        y = y.wrapping_add(x >> 5);
        x = x.wrapping_sub(y >> 5);
    }
    Ok(points)
}

/// Where splits that lead far away were begun anew in other orders, this took a minute.
#[test]
fn a_stroke_ninety_steps_wide(rt: HostRuntime) -> Result<(), Fail> {
    let alloc = rt.alloc();
    let source = path(alloc, &circle(alloc)?)?;
    let style = IntStrokeStyle::new(90 * (RADIUS >> 5));
    source.validate_stroke(&style)?;
    let mut count = SplitCount::new(400_000);
    let options = IntOverlayOptions::new();
    let near = source.stroke_with_nearness(alloc, &style, true, options, &mut count)?;
    expect_that(count.made > 100_000, &count)?;
    expect_that(near.nearness <= 8 * 64, &near.nearness)
}
