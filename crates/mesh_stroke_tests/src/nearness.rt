//! How near to the drawn edges a stroke is exact, and the limit on splits.

use i_overlay_mesh::stroke::offset::IntStrokeOffset;
use i_overlay_mesh::{IntNearnessError, IntOverlayOptions, IntStrokeStyle, SplitCount};
use mesh_test_support::compared::{expect_equal, expect_that};
use mesh_test_support::lists::path;
use std::test::Fail;

/// A path that crosses itself.
const PATH: &[(i32, i32)] = &[(0, 0), (97, 41), (31, 88), (85, 3)];

#[test]
fn a_stroke_with_nearness_and_one_with_a_limit(rt: HostRuntime) -> Result<(), Fail> {
    let alloc = rt.alloc();
    let source = path(alloc, PATH)?;
    let style = IntStrokeStyle::new(9);
    source.validate_stroke(&style)?;
    let options = IntOverlayOptions::new();
    let plain = source.stroke_custom(alloc, &style, false, options)?;
    let mut count = SplitCount::new(0);
    let near = source.stroke_with_nearness(alloc, &style, false, options, &mut count)?;
    expect_equal(&near.shapes, &plain, &"the shapes")?;
    expect_that(near.nearness > 0, &near.nearness)?;
    let mut one = SplitCount::new(1);
    let refused = source.stroke_with_nearness(alloc, &style, false, options, &mut one);
    expect_that(
        matches!(refused, Err(IntNearnessError::TooManySplits)),
        &one,
    )?;
    expect_that(one.made > 1, &one)
}
