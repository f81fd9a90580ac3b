//! What is made of operands.

ghost use Rattle.std.specs.Prelude.{◌≡◌, ◌↔◌, IsTrue, IfOk, OnOk};
ghost use Rattle.mesh_num.specs.Paths.{shapes_of};
ghost use Rattle.mesh_below.specs.Options.{choices_of};
ghost use Rattle.mesh_boolean.specs.Overlaps.{overlaps_of as overlap_list_of};
ghost use Rattle.mesh_operands.specs.Combining.{
  AreCombinedOverlaps,
  AreCombinedShapes,
  IsCombination,
  IsOfBoth,
  MayBeCombined,
  answer_of,
};
ghost use Rattle.mesh_operands.specs.Operands.{boolean_of, combination_of, coverage_of, operand_of, overlaps_of};

use crate::operand::{Boolean, Combination, Coverage, Overlaps};
use crate::region::{may_all_take_part, may_take_part, region_of, regions_of};
use mesh_below::below::IntOverlayOptions;
use mesh_boolean::overlaps::{ZoneOverlap, overlaps};
use mesh_boolean::rule::BooleanRule;
use mesh_boolean::zones::{coverage, overlay_regions};
use mesh_num::num::OverlayInt;
use mesh_num::shape::buffer::IntShapes;
use mesh_offset::error::IntOutlineError;
use std::alloc::Global;

/// What is made of operands.
#[derive(Drop)]
pub enum CombinedAnswer<I: OverlayInt> {
    /// What a boolean keeps, or what so many zones cover, as clean polygons: each an outer contour followed by its holes.
    Shapes(IntShapes<I>),
    /// The pairs of zones that overlap, and where: each pair once, in ascending order of its first zone, then of its
    /// second.
    Overlaps(Vec<ZoneOverlap<I>>),
}

/// What is made of operands: what a boolean keeps, where so many zones cover the plane, or where each two zones overlap.
///
/// Each operand is resolved alone, with default options: contours by their fill rule, and drawings by their style. Then
/// all are resolved together, with these options; of an overlap the two zones of each pair. A boolean by the rule
/// `Subject` or `Clip` resolves that operand alone, with these options.
///
/// `CoordinateOutOfRange` means that an operand may not take part, since a point of it leaves the safe range, or since an
/// area of a drawing does not fit its type; also an operand that the rule of a boolean does not look at. This is found
/// before anything is built, and `find_operand_refusal` says where. `OutOfMemory` means that memory was refused.
pub fn combine<I: OverlayInt>(
    alloc: Global,
    combination: &Combination<I>,
    options: IntOverlayOptions<I::WideUInt>,
) -> Result<CombinedAnswer<I>, IntOutlineError>
    ensures combined { IfOk result (λ answer. IsCombination I.unit (choices_of I.WideUInt.value options)
        (combination_of I.value combination.now) (answer_of answer)) }
    ensures accepted { OnOk result (MayBeCombined I.unit (combination_of I.value combination.now)) }
    ensures refused { result ≡ Err IntOutlineError.CoordinateOutOfRange
        ↔ ¬ MayBeCombined I.unit (combination_of I.value combination.now) }
{
    if !may_be_combined(combination) {
        return Err(IntOutlineError::CoordinateOutOfRange);
    }
    made_of(alloc, combination, options)
}

/// Whether each operand may take part. It allocates nothing.
pub fn may_be_combined<I: OverlayInt>(combination: &Combination<I>) -> bool
    ensures { IsTrue result ↔ MayBeCombined I.unit (combination_of I.value combination.now) }
{
    match combination {
        Combination::Boolean(boolean) => {
            may_take_part(&boolean.subject) && may_take_part(&boolean.clip)
        }
        Combination::Coverage(coverage) => may_all_take_part(&coverage.zones),
        Combination::Overlaps(overlaps) => may_all_take_part(&overlaps.zones),
    }
}

/// What is made of operands that may take part.
fn made_of<I: OverlayInt>(
    alloc: Global,
    combination: &Combination<I>,
    options: IntOverlayOptions<I::WideUInt>,
) -> Result<CombinedAnswer<I>, IntOutlineError>
    requires { MayBeCombined I.unit (combination_of I.value combination.now) }
    ensures combined { IfOk result (λ answer. IsCombination I.unit (choices_of I.WideUInt.value options)
        (combination_of I.value combination.now) (answer_of answer)) }
    ensures refused { ¬ result ≡ Err IntOutlineError.CoordinateOutOfRange }
{
    match combination {
        Combination::Boolean(boolean) => {
            Ok(CombinedAnswer::Shapes(boolean_shapes(alloc, boolean, options)?))
        }
        Combination::Coverage(coverage) => {
            Ok(CombinedAnswer::Shapes(covered_shapes(alloc, coverage, options)?))
        }
        Combination::Overlaps(overlaps) => {
            Ok(CombinedAnswer::Overlaps(overlap_list(alloc, overlaps, options)?))
        }
    }
}

/// What a boolean keeps.
fn boolean_shapes<I: OverlayInt>(
    alloc: Global,
    boolean: &Boolean<I>,
    options: IntOverlayOptions<I::WideUInt>,
) -> Result<IntShapes<I>, IntOutlineError>
    requires { MayBeCombined I.unit (boolean_of I.value boolean.now) }
    ensures combined { IfOk result (λ shapes. AreCombinedShapes I.unit (choices_of I.WideUInt.value options)
        (boolean_of I.value boolean.now) (shapes_of shapes.items)) }
    ensures refused { ¬ result ≡ Err IntOutlineError.CoordinateOutOfRange }
{
    match boolean.rule {
        BooleanRule::Subject => region_of(alloc, &boolean.subject, boolean.fill.subject, options),
        BooleanRule::Clip => region_of(alloc, &boolean.clip, boolean.fill.clip, options),
        BooleanRule::Intersect
        | BooleanRule::Union
        | BooleanRule::Difference
        | BooleanRule::InverseDifference
        | BooleanRule::Xor => shapes_of_both(alloc, boolean, options),
    }
}

/// Both operands, resolved alone and then together.
fn shapes_of_both<I: OverlayInt>(
    alloc: Global,
    boolean: &Boolean<I>,
    options: IntOverlayOptions<I::WideUInt>,
) -> Result<IntShapes<I>, IntOutlineError>
    requires { MayBeCombined I.unit (boolean_of I.value boolean.now) }
    ensures combined { IfOk result (λ shapes. IsOfBoth I.unit boolean.now.rule boolean.now.fill
        (choices_of I.WideUInt.value options) (operand_of I.value boolean.now.subject)
        (operand_of I.value boolean.now.clip) (shapes_of shapes.items)) }
    ensures refused { ¬ result ≡ Err IntOutlineError.CoordinateOutOfRange }
{
    let plain = IntOverlayOptions::new();
    let first = region_of(alloc, &boolean.subject, boolean.fill.subject, plain)?;
    let second = region_of(alloc, &boolean.clip, boolean.fill.clip, plain)?;
    overlay_regions(alloc, &first, &second, boolean.rule, options)
}

/// Where so many zones cover the plane.
fn covered_shapes<I: OverlayInt>(
    alloc: Global,
    asked: &Coverage<I>,
    options: IntOverlayOptions<I::WideUInt>,
) -> Result<IntShapes<I>, IntOutlineError>
    requires { MayBeCombined I.unit (coverage_of I.value asked.now) }
    ensures combined { IfOk result (λ shapes. AreCombinedShapes I.unit (choices_of I.WideUInt.value options)
        (coverage_of I.value asked.now) (shapes_of shapes.items)) }
    ensures refused { ¬ result ≡ Err IntOutlineError.CoordinateOutOfRange }
{
    let regions = regions_of(alloc, &asked.zones, asked.fill)?;
    coverage(alloc, &regions, asked.least, options)
}

/// Where each two zones overlap.
fn overlap_list<I: OverlayInt>(
    alloc: Global,
    asked: &Overlaps<I>,
    options: IntOverlayOptions<I::WideUInt>,
) -> Result<Vec<ZoneOverlap<I>>, IntOutlineError>
    requires { MayBeCombined I.unit (overlaps_of I.value asked.now) }
    ensures combined { IfOk result (λ found. AreCombinedOverlaps I.unit (choices_of I.WideUInt.value options)
        (overlaps_of I.value asked.now) (overlap_list_of found.items)) }
    ensures refused { ¬ result ≡ Err IntOutlineError.CoordinateOutOfRange }
{
    let regions = regions_of(alloc, &asked.zones, asked.fill)?;
    overlaps(alloc, &regions, options)
}
