//! How near to the drawn edges a stroke of variable width is exact, and the limit on splits.

use crate::values::vertices;
use i_overlay_mesh::variable_stroke::offset::IntVariableStrokeOffset;
use i_overlay_mesh::{IntNearnessError, IntOverlayOptions, IntVariableStrokeStyle, SplitCount};
use mesh_test_support::compared::{expect_equal, expect_that};
use std::test::Fail;

#[test]
fn a_stroke_with_nearness_and_one_with_a_limit(rt: HostRuntime) -> Result<(), Fail> {
    let alloc = rt.alloc();
    let source = vertices::<i32>(alloc, "0 0 9, 97 41 23, 31 88 8, 85 3 17")?;
    source.validate_variable_stroke()?;
    let (style, options) = (IntVariableStrokeStyle::new(), IntOverlayOptions::new());
    let plain = source.variable_stroke_custom(alloc, style, options)?;
    let mut count = SplitCount::new(0);
    let near = source.variable_stroke_with_nearness(alloc, style, options, &mut count)?;
    expect_equal(&near.shapes, &plain, &"the shapes")?;
    expect_that(near.nearness > 0, &near.nearness)?;
    let mut one = SplitCount::new(1);
    let refused = source.variable_stroke_with_nearness(alloc, style, options, &mut one);
    expect_that(
        matches!(refused, Err(IntNearnessError::TooManySplits)),
        &one,
    )?;
    expect_that(one.made > 1, &one)
}
