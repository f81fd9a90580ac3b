//! Regions of contours, tested before they are asked for.

ghost use Rattle.std.specs.Prelude.{◌≡◌, ◌^◌, IfOk, OnOk};
ghost use Rattle.std.specs.List.{All};
ghost use Rattle.mesh_num.specs.Paths.{shapes_of};
ghost use Rattle.mesh_lattice.specs.Reach.{ArePointsSafe};
ghost use Rattle.mesh_boolean.specs.Booleans.{ArePathsInRange};
ghost use Rattle.mesh_boolean.specs.Zones.{WindOnce, zones_of};

use mesh_below::below::IntOverlayOptions;
use mesh_boolean::boolean::{overlay_shapes, validate_overlay};
use mesh_boolean::rule::{BooleanFill, BooleanFillRule, BooleanRule};
use mesh_num::num::IntNumber;
use mesh_num::shape::buffer::IntShapes;
use mesh_num::shape::resource::IntShapeResource;
use std::alloc::Global;
use std::test::Fail;

/// Fails where a point of the source is out of range.
pub fn expect_in_range<I: IntNumber, S: IntShapeResource<I>>(source: &S) -> Result<(), Fail>
    ensures { OnOk result (ArePathsInRange I.unit (S.paths source.now)) }
{
    match validate_overlay(source) {
        Ok(()) => Ok(()),
        Err(_) => Err(Fail::new("a point is out of range")),
    }
}

/// What contours fill by the rule `NonZero`.
pub fn region<I: IntNumber, S: IntShapeResource<I>>(
    alloc: Global,
    contours: &S,
) -> Result<IntShapes<I>, Fail>
    ensures safe { IfOk result (λ shapes. ArePointsSafe I.unit (shapes_of shapes.items)) }
    ensures once { IfOk result (λ shapes. WindOnce (shapes_of shapes.items)) }
{
    expect_in_range(contours)?;
    let fill = BooleanFill {
        subject: BooleanFillRule::NonZero,
        clip: BooleanFillRule::NonZero,
    };
    let shapes = overlay_shapes(
        alloc,
        contours,
        contours,
        BooleanRule::Subject,
        fill,
        IntOverlayOptions::new(),
    )?;
    Ok(shapes)
}

/// What each list of contours fills by the rule `NonZero`.
pub fn regions<I: IntNumber, S: IntShapeResource<I>>(
    alloc: Global,
    sources: &[S],
) -> Result<Vec<IntShapes<I>>, Fail>
    ensures safe { IfOk result (λ zones. All (λ zone. ArePointsSafe I.unit (shapes_of zone.items)) zones.items) }
    ensures all_safe { IfOk result (λ zones. All (ArePointsSafe I.unit) (zones_of zones.items)) }
    ensures once { IfOk result (λ zones. All WindOnce (zones_of zones.items)) }
{
    let mut zones = Vec::new(alloc);
    for source in sources {
        zones.push(region(alloc, source)?)?;
    }
    Ok(zones)
}
