//! Which paths may be stroked, at the ends of the safe range and of the types.

use crate::tables::ranges::RANGES;
use crate::values::paths;
use i_overlay_mesh::IntOutlineError;
use i_overlay_mesh::variable_stroke::offset::IntVariableStrokeOffset;
use mesh_num::num::OverlayInt;
use mesh_test_support::compared::expect_equal;
use mesh_test_support::rows::{broken, fields, is_for};
use std::alloc::Global;
use std::test::Fail;

/// The paths of the row may be stroked just where it says so, where the row is meant for this width.
fn expect_range<I: OverlayInt>(alloc: Global, row: &str, fields: &[&str]) -> Result<(), Fail> {
    let [width, lists, wanted] = fields else {
        return Err(broken(row));
    };
    if !is_for::<I>(width) {
        return Ok(());
    }
    let answer = paths::<I>(alloc, lists)?.validate_variable_stroke();
    let refused = Err(IntOutlineError::CoordinateOutOfRange);
    let told = if *wanted == "1" { Ok(()) } else { refused };
    expect_equal(&answer, &told, &row)
}

#[test]
fn validated_paths(rt: HostRuntime) -> Result<(), Fail> {
    for row in RANGES.lines() {
        let fields = fields(rt.alloc(), row)?;
        expect_range::<i16>(rt.alloc(), row, &fields)?;
        expect_range::<i32>(rt.alloc(), row, &fields)?;
    }
    Ok(())
}
