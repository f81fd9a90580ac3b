//! Operands alone, with a proved error bound.

ghost use Rattle.std.specs.Prelude.{◌≡◌, ◌≤◌, ◌^◌, List, map, IfOk, OnOk};
ghost use Rattle.std.specs.List.{All, sum_by};
ghost use Rattle.mesh_num.specs.Paths.{shapes_of};
ghost use Rattle.mesh_lattice.specs.Reach.{ArePointsSafe};
ghost use Rattle.mesh_split.specs.Counting.{IsPastLimit, IsWithinLimit};
ghost use Rattle.mesh_below.specs.Options.{choices_of};
ghost use Rattle.mesh_offset.specs.Counting.{CountsAttempts};
ghost use Rattle.mesh_boolean.specs.Zones.{zones_of};
ghost use Rattle.mesh_operands.specs.Combining.{MayTakePart};
ghost use Rattle.mesh_operands.specs.Nearness.{
  AreToldZones,
  IsCountedRegionOf,
  IsRegionDrawing,
  IsZoneDrawing,
  ToldRegion,
  lists_of,
  regions_in,
};
ghost use Rattle.mesh_operands.specs.Operands.{operand_of};

use crate::operand::Operand;
use crate::region::add_region;
use mesh_below::below::IntOverlayOptions;
use mesh_below::nearness::{NearShapes, SplitCount};
use mesh_boolean::boolean::overlay_shapes_with_nearness;
use mesh_boolean::rule::{BooleanFill, BooleanFillRule, BooleanRule};
use mesh_drawing::region::region_within;
use mesh_num::num::OverlayInt;
use mesh_num::shape::buffer::IntShapes;
use mesh_offset::error::IntNearnessError;
use std::alloc::Global;

/// The regions of zones, and the greatest of their error bounds.
#[derive(Drop)]
pub(crate) struct NearRegions<I: OverlayInt> {
    pub regions: Vec<IntShapes<I>>,
    pub nearness: u64,
}

/// The region of an operand, and how near. It fails where memory is refused or the count passes its limit.
pub(crate) fn near_region_of<I: OverlayInt>(
    alloc: Global,
    operand: &Operand<I>,
    fill: BooleanFillRule,
    options: IntOverlayOptions<I::WideUInt>,
    count: &mut SplitCount,
) -> Result<NearShapes<I>, IntNearnessError>
    requires { MayTakePart I.unit (operand_of I.value operand.now) }
    ensures standing { IfOk result (λ near. IsCountedRegionOf near.nearness I.unit fill
        (choices_of I.WideUInt.value options) (operand_of I.value operand.now) (shapes_of near.shapes.items)
        count.old count.new) }
    ensures safe { IfOk result (λ near. ArePointsSafe I.unit (shapes_of near.shapes.items)) }
    ensures small { IfOk result (λ near. near.nearness ≤ 2 ^ 39) }
    ensures counted { CountsAttempts (lists_of (operand_of I.value operand.now))
        (IsRegionDrawing I.unit fill (operand_of I.value operand.now)) count.old count.new }
    ensures within { OnOk result (IsWithinLimit count.new) }
    ensures past { result ≡ Err IntNearnessError.TooManySplits → IsPastLimit count.new }
    ensures refused { ¬ result ≡ Err IntNearnessError.CoordinateOutOfRange }
{
    match operand {
        Operand::Paths(paths) => {
            let both = BooleanFill {
                subject: fill,
                clip: fill,
            };
            // The rule looks at the subject alone.
            let rule = BooleanRule::Subject;
            overlay_shapes_with_nearness(alloc, paths, paths, rule, both, options, count)
        }
        Operand::Drawing(drawing) => region_within(alloc, drawing, options, count),
    }
}

/// The regions of zones, each by this fill rule and with default options, and the greatest of their error bounds. It fails
/// where memory is refused or the count passes its limit.
pub(crate) fn near_regions_of<I: OverlayInt>(
    alloc: Global,
    zones: &[Operand<I>],
    fill: BooleanFillRule,
    count: &mut SplitCount,
) -> Result<NearRegions<I>, IntNearnessError>
    requires { All (MayTakePart I.unit) (map (operand_of I.value) zones.now) }
    ensures told { IfOk result (λ near. (told : List ToldRegion) × (regions_in told ≡ zones_of near.regions.items)
        × AreToldZones near.nearness I.unit fill (map (operand_of I.value) zones.now) told count.old count.new) }
    ensures safe { IfOk result (λ near. All (ArePointsSafe I.unit) (zones_of near.regions.items)) }
    ensures small { IfOk result (λ near. near.nearness ≤ 2 ^ 39) }
    ensures counted { CountsAttempts (sum_by lists_of (map (operand_of I.value) zones.now))
        (IsZoneDrawing I.unit fill (map (operand_of I.value) zones.now)) count.old count.new }
    ensures past { result ≡ Err IntNearnessError.TooManySplits → IsPastLimit count.new }
    ensures refused { ¬ result ≡ Err IntNearnessError.CoordinateOutOfRange }
{
    // Read, so that it is known to fit: a return before any attempt counts none.
    let _made = count.made;
    let mut regions = Vec::with_capacity(alloc, zones.len())?;
    let mut nearness: u64 = 0;
    for zone in zones {
        let own = near_region_of(alloc, zone, fill, IntOverlayOptions::new(), count)?;
        nearness = nearness.max(own.nearness);
        add_region(own.shapes, &mut regions)?;
    }
    Ok(NearRegions { regions, nearness })
}
