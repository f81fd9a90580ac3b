//! What contours have in common, and where contours overlap once they have grown.

ghost use Rattle.std.specs.Prelude.{IfOk};
ghost use Rattle.mesh_num.specs.Paths.{paths_of, shapes_of};
ghost use Rattle.mesh_below.specs.Options.{plain};
ghost use Rattle.mesh_boolean.specs.Booleans.{operands_of};
ghost use Rattle.mesh_boolean.specs.Regions.{AreBooleanRegions};
ghost use Rattle.mesh_boolean.specs.declared.rule.BooleanRule.TheVariants.{Difference};
ghost use Rattle.mesh_uses.specs.Fills.{odd};
ghost use Rattle.mesh_uses.specs.Grown.{AreOverlapsOfGrown};

use crate::offsets::grown;
use i_overlay_mesh::laws::answers_wind_once;
use i_overlay_mesh::{
    BooleanFill, BooleanFillRule, BooleanRule, IntOutlineError, IntOverlayError, IntOverlayOptions,
    IntPoint, IntShapes, overlay_regions, overlay_shapes, validate_overlay,
};
use std::alloc::Global;

/// Land less its lakes, both filled by the rule `EvenOdd`.
pub fn land_without_lakes(
    alloc: Global,
    land: &Vec<Vec<IntPoint<i32>>>,
    lakes: &Vec<Vec<IntPoint<i32>>>,
) -> Result<IntShapes<i32>, IntOverlayError>
    ensures { IfOk result (λ shapes. AreBooleanRegions Difference
        (operands_of odd (paths_of land.now.items) (paths_of lakes.now.items)) plain (shapes_of shapes.items)) }
{
    validate_overlay(land)?;
    validate_overlay(lakes)?;
    let fill = BooleanFill {
        subject: BooleanFillRule::EvenOdd,
        clip: BooleanFillRule::EvenOdd,
    };
    overlay_shapes(
        alloc,
        land,
        lakes,
        BooleanRule::Difference,
        fill,
        IntOverlayOptions::new(),
    )
}

/// Where two contours overlap that have grown by an offset: their outlines go on as they are, and are not resolved again.
pub fn overlap_of_grown(
    alloc: Global,
    first: &Vec<IntPoint<i32>>,
    second: &Vec<IntPoint<i32>>,
    offset: i32,
) -> Result<IntShapes<i32>, IntOutlineError>
    ensures { IfOk result (λ shapes. AreOverlapsOfGrown offset first.now.items second.now.items
        (shapes_of shapes.items)) }
{
    let one = grown(alloc, first, offset)?;
    let other = grown(alloc, second, offset)?;
    answers_wind_once();
    overlay_regions(
        alloc,
        &one,
        &other,
        BooleanRule::Intersect,
        IntOverlayOptions::new(),
    )
}
