//! Operands alone: whether they may take part, and the part of the plane that each is.

ghost use Rattle.std.specs.Prelude.{◌≡◌, ◌↔◌, ◌++◌, ◌∷◌, [], map, IsTrue, IfOk, OnOk};
ghost use Rattle.std.specs.List.{All};
ghost use Rattle.mesh_num.specs.Paths.{shapes_of};
ghost use Rattle.mesh_lattice.specs.Reach.{ArePointsSafe};
ghost use Rattle.mesh_below.specs.Options.{choices_of};
ghost use Rattle.mesh_boolean.specs.Rules.{winding_rule_for};
ghost use Rattle.mesh_boolean.specs.Zones.{zones_of};
ghost use Rattle.mesh_operands.specs.Combining.{AreRegionsOfZones, IsRegionOf, MayTakePart};
ghost use Rattle.mesh_operands.specs.Operands.{operand_of};

use crate::operand::Operand;
use mesh_below::below::IntOverlayOptions;
use mesh_boolean::boolean::{overlay_shapes, validate_overlay};
use mesh_boolean::rule::{BooleanFill, BooleanFillRule, BooleanRule};
use mesh_drawing::region::{may_be_drawn, region};
use mesh_num::num::OverlayInt;
use mesh_num::shape::buffer::IntShapes;
use mesh_offset::error::IntOutlineError;
use std::alloc::{AllocError, Global};

/// Whether an operand may take part.
pub(crate) fn may_take_part<I: OverlayInt>(operand: &Operand<I>) -> bool
    ensures { IsTrue result ↔ MayTakePart I.unit (operand_of I.value operand.now) }
{
    match operand {
        Operand::Paths(paths) => validate_overlay(paths).is_ok(),
        Operand::Drawing(drawing) => may_be_drawn(drawing),
    }
}

/// Whether each zone may take part.
pub(crate) fn may_all_take_part<I: OverlayInt>(zones: &[Operand<I>]) -> bool
    ensures { IsTrue result ↔ All (MayTakePart I.unit) (map (operand_of I.value) zones.now) }
{
    for zone in zones {
        if !may_take_part(zone) {
            return false;
        }
    }
    true
}

/// The region of an operand. It fails only where memory is refused.
pub(crate) fn region_of<I: OverlayInt>(
    alloc: Global,
    operand: &Operand<I>,
    fill: BooleanFillRule,
    options: IntOverlayOptions<I::WideUInt>,
) -> Result<IntShapes<I>, IntOutlineError>
    requires { MayTakePart I.unit (operand_of I.value operand.now) }
    ensures regions { IfOk result (λ shapes. IsRegionOf I.unit (winding_rule_for fill)
        (choices_of I.WideUInt.value options) (operand_of I.value operand.now) (shapes_of shapes.items)) }
    ensures safe { IfOk result (λ shapes. ArePointsSafe I.unit (shapes_of shapes.items)) }
    ensures refused { ¬ result ≡ Err IntOutlineError.CoordinateOutOfRange }
{
    match operand {
        Operand::Paths(paths) => {
            let both = BooleanFill {
                subject: fill,
                clip: fill,
            };
            // The rule looks at the subject alone.
            overlay_shapes(alloc, paths, paths, BooleanRule::Subject, both, options)
        }
        Operand::Drawing(drawing) => region(alloc, drawing, options),
    }
}

/// The regions of zones, each by this fill rule and with default options. It fails only where memory is refused.
pub(crate) fn regions_of<I: OverlayInt>(
    alloc: Global,
    zones: &[Operand<I>],
    fill: BooleanFillRule,
) -> Result<Vec<IntShapes<I>>, IntOutlineError>
    requires { All (MayTakePart I.unit) (map (operand_of I.value) zones.now) }
    ensures regions { IfOk result (λ regions. AreRegionsOfZones I.unit fill (map (operand_of I.value) zones.now)
        (zones_of regions.items)) }
    ensures safe { IfOk result (λ regions. All (ArePointsSafe I.unit) (zones_of regions.items)) }
    ensures refused { ¬ result ≡ Err IntOutlineError.CoordinateOutOfRange }
{
    let mut regions = Vec::with_capacity(alloc, zones.len())?;
    for zone in zones {
        let own = region_of(alloc, zone, fill, IntOverlayOptions::new())?;
        add_region(own, &mut regions)?;
    }
    Ok(regions)
}

/// Adds a region to others.
pub(crate) fn add_region<I: OverlayInt>(
    region: IntShapes<I>,
    regions: &mut Vec<IntShapes<I>>,
) -> Result<(), AllocError>
    ensures { OnOk result (regions.new.items ≡ regions.old.items ++ region ∷ []) }
{
    regions.push(region)?;
    Ok(())
}
