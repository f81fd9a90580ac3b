//! What is made of operands, with a proved error bound.

ghost use Rattle.std.specs.Prelude.{◌≡◌, ◌↔◌, ◌≤◌, ◌^◌, IfOk, OnOk};
ghost use Rattle.mesh_num.specs.Paths.{shapes_of};
ghost use Rattle.mesh_split.specs.Counting.{IsPastLimit, IsWithinLimit};
ghost use Rattle.mesh_below.specs.Options.{choices_of};
ghost use Rattle.mesh_offset.specs.Counting.{CountsAttempts};
ghost use Rattle.mesh_boolean.specs.Overlaps.{overlaps_of as overlap_list_of};
ghost use Rattle.mesh_operands.specs.Combining.{MayBeCombined, answer_of};
ghost use Rattle.mesh_operands.specs.Exactness.{IsExactBeyond};
ghost use Rattle.mesh_operands.specs.Nearness.{
  AreCombinedOverlapsWithin,
  AreCombinedShapesWithin,
  IsCombinationWithin,
  IsCombinedDrawing,
  IsOfBothWithin,
  all_lists,
};
ghost use Rattle.mesh_operands.specs.Operands.{boolean_of, combination_of, coverage_of, given_boolean, overlaps_of};

use crate::combine::{CombinedAnswer, may_be_combined};
use crate::near_region::{near_region_of, near_regions_of};
use crate::operand::{Boolean, Combination, Coverage, Overlaps};
use mesh_below::below::IntOverlayOptions;
use mesh_below::nearness::{NearShapes, SplitCount};
use mesh_boolean::overlaps::{NearOverlaps, overlaps_with_nearness};
use mesh_boolean::rule::BooleanRule;
use mesh_boolean::zones::{coverage_with_nearness, overlay_regions_with_nearness};
use mesh_num::num::OverlayInt;
use mesh_offset::error::IntNearnessError;
use std::alloc::Global;

/// What is made of operands, and its error bound.
#[derive(Drop)]
pub struct NearCombined<I: OverlayInt> {
    /// What is made of the operands.
    pub answer: CombinedAnswer<I>,
    /// The nearness, in 64ths of a grid unit.
    pub nearness: u64,
}

/// The same as `combine`, with a proved error bound, the nearness: at each point farther than it from every edge that
/// is drawn of the operands (of contours, from their own), the shapes hold exactly what the boolean keeps, what so many
/// zones cover, or what both zones of a pair have in common, and each point of their contours lies within it of such an
/// edge. It is the greatest of the operands' own and that of the last resolving, added, of overlaps the greatest of the
/// pairs. A boolean by the rule `Subject` or `Clip` has that of its one operand.
///
/// Every split of an edge is added to `count`, those of attempts that were given up too. `TooManySplits` means that the
/// count passed its limit, `OutOfMemory` that memory was refused, and `CoordinateOutOfRange` that an operand may not take
/// part: this is found before anything is built.
pub fn combine_within<I: OverlayInt>(
    alloc: Global,
    combination: &Combination<I>,
    options: IntOverlayOptions<I::WideUInt>,
    count: &mut SplitCount,
) -> Result<NearCombined<I>, IntNearnessError>
    ensures combined { IfOk result (λ near. IsCombinationWithin near.nearness I.unit
        (choices_of I.WideUInt.value options) (combination_of I.value combination.now) (answer_of near.answer)
        count.old count.new) }
    ensures exact { IfOk result (λ near. IsExactBeyond near.nearness I.unit
        (choices_of I.WideUInt.value options) (combination_of I.value combination.now) (answer_of near.answer)) }
    ensures small { IfOk result (λ near. near.nearness ≤ 2 ^ 40) }
    ensures accepted { OnOk result (MayBeCombined I.unit (combination_of I.value combination.now)) }
    ensures counted { CountsAttempts (all_lists (combination_of I.value combination.now))
        (IsCombinedDrawing I.unit (combination_of I.value combination.now)) count.old count.new }
    ensures within { OnOk result (IsWithinLimit count.new) }
    ensures past { result ≡ Err IntNearnessError.TooManySplits → IsPastLimit count.new }
    ensures refused { result ≡ Err IntNearnessError.CoordinateOutOfRange
        ↔ ¬ MayBeCombined I.unit (combination_of I.value combination.now) }
{
    // Read, so that it is known to fit: a return before any attempt counts none.
    let _made = count.made;
    if !may_be_combined(combination) {
        return Err(IntNearnessError::CoordinateOutOfRange);
    }
    made_within(alloc, combination, options, count)
}

/// What is made of operands that may take part, and how near.
fn made_within<I: OverlayInt>(
    alloc: Global,
    combination: &Combination<I>,
    options: IntOverlayOptions<I::WideUInt>,
    count: &mut SplitCount,
) -> Result<NearCombined<I>, IntNearnessError>
    requires { MayBeCombined I.unit (combination_of I.value combination.now) }
    ensures combined { IfOk result (λ near. IsCombinationWithin near.nearness I.unit
        (choices_of I.WideUInt.value options) (combination_of I.value combination.now) (answer_of near.answer)
        count.old count.new) }
    ensures small { IfOk result (λ near. near.nearness ≤ 2 ^ 40) }
    ensures counted { CountsAttempts (all_lists (combination_of I.value combination.now))
        (IsCombinedDrawing I.unit (combination_of I.value combination.now)) count.old count.new }
    ensures within { OnOk result (IsWithinLimit count.new) }
    ensures past { result ≡ Err IntNearnessError.TooManySplits → IsPastLimit count.new }
    ensures refused { ¬ result ≡ Err IntNearnessError.CoordinateOutOfRange }
{
    match combination {
        Combination::Boolean(boolean) => {
            let near = boolean_within(alloc, boolean, options, count)?;
            Ok(shapes_answer(near))
        }
        Combination::Coverage(coverage) => {
            let near = covered_within(alloc, coverage, options, count)?;
            Ok(shapes_answer(near))
        }
        Combination::Overlaps(overlaps) => {
            let near = overlaps_within(alloc, overlaps, options, count)?;
            Ok(NearCombined {
                answer: CombinedAnswer::Overlaps(near.overlaps),
                nearness: near.nearness,
            })
        }
    }
}

/// Shapes as an answer.
fn shapes_answer<I: OverlayInt>(near: NearShapes<I>) -> NearCombined<I>
    ensures { result ≡ record { answer = CombinedAnswer.Shapes near.shapes; nearness = near.nearness } }
{
    NearCombined {
        answer: CombinedAnswer::Shapes(near.shapes),
        nearness: near.nearness,
    }
}

/// What a boolean keeps, and how near.
fn boolean_within<I: OverlayInt>(
    alloc: Global,
    boolean: &Boolean<I>,
    options: IntOverlayOptions<I::WideUInt>,
    count: &mut SplitCount,
) -> Result<NearShapes<I>, IntNearnessError>
    requires { MayBeCombined I.unit (boolean_of I.value boolean.now) }
    ensures combined { IfOk result (λ near. AreCombinedShapesWithin near.nearness I.unit
        (choices_of I.WideUInt.value options) (boolean_of I.value boolean.now) (shapes_of near.shapes.items)
        count.old count.new) }
    ensures small { IfOk result (λ near. near.nearness ≤ 2 ^ 40) }
    ensures counted { CountsAttempts (all_lists (boolean_of I.value boolean.now))
        (IsCombinedDrawing I.unit (boolean_of I.value boolean.now)) count.old count.new }
    ensures within { OnOk result (IsWithinLimit count.new) }
    ensures past { result ≡ Err IntNearnessError.TooManySplits → IsPastLimit count.new }
    ensures refused { ¬ result ≡ Err IntNearnessError.CoordinateOutOfRange }
{
    match boolean.rule {
        BooleanRule::Subject => {
            near_region_of(
                alloc,
                &boolean.subject,
                boolean.fill.subject,
                options,
                count,
            )
        }
        BooleanRule::Clip => {
            near_region_of(alloc, &boolean.clip, boolean.fill.clip, options, count)
        }
        BooleanRule::Intersect
        | BooleanRule::Union
        | BooleanRule::Difference
        | BooleanRule::InverseDifference
        | BooleanRule::Xor => both_within(alloc, boolean, options, count),
    }
}

/// Both operands, resolved alone and then together, and how near.
fn both_within<I: OverlayInt>(
    alloc: Global,
    boolean: &Boolean<I>,
    options: IntOverlayOptions<I::WideUInt>,
    count: &mut SplitCount,
) -> Result<NearShapes<I>, IntNearnessError>
    requires { MayBeCombined I.unit (boolean_of I.value boolean.now) }
    ensures combined { IfOk result (λ near. IsOfBothWithin near.nearness I.unit (choices_of I.WideUInt.value options)
        (given_boolean I.value boolean.now) (shapes_of near.shapes.items) count.old count.new) }
    ensures small { IfOk result (λ near. near.nearness ≤ 2 ^ 40) }
    ensures counted { CountsAttempts (all_lists (boolean_of I.value boolean.now))
        (IsCombinedDrawing I.unit (boolean_of I.value boolean.now)) count.old count.new }
    ensures within { OnOk result (IsWithinLimit count.new) }
    ensures past { result ≡ Err IntNearnessError.TooManySplits → IsPastLimit count.new }
    ensures refused { ¬ result ≡ Err IntNearnessError.CoordinateOutOfRange }
{
    let plain = IntOverlayOptions::new();
    let first = near_region_of(alloc, &boolean.subject, boolean.fill.subject, plain, count)?;
    let second = near_region_of(alloc, &boolean.clip, boolean.fill.clip, plain, count)?;
    let near = overlay_regions_with_nearness(
        alloc,
        &first.shapes,
        &second.shapes,
        boolean.rule,
        options,
        count,
    )?;
    Ok(NearShapes {
        shapes: near.shapes,
        nearness: first.nearness.max(second.nearness) + near.nearness,
    })
}

/// Where so many zones cover the plane, and how near.
fn covered_within<I: OverlayInt>(
    alloc: Global,
    asked: &Coverage<I>,
    options: IntOverlayOptions<I::WideUInt>,
    count: &mut SplitCount,
) -> Result<NearShapes<I>, IntNearnessError>
    requires { MayBeCombined I.unit (coverage_of I.value asked.now) }
    ensures combined { IfOk result (λ near. AreCombinedShapesWithin near.nearness I.unit
        (choices_of I.WideUInt.value options) (coverage_of I.value asked.now) (shapes_of near.shapes.items)
        count.old count.new) }
    ensures small { IfOk result (λ near. near.nearness ≤ 2 ^ 40) }
    ensures counted { CountsAttempts (all_lists (coverage_of I.value asked.now))
        (IsCombinedDrawing I.unit (coverage_of I.value asked.now)) count.old count.new }
    ensures within { OnOk result (IsWithinLimit count.new) }
    ensures past { result ≡ Err IntNearnessError.TooManySplits → IsPastLimit count.new }
    ensures refused { ¬ result ≡ Err IntNearnessError.CoordinateOutOfRange }
{
    let given = near_regions_of(alloc, &asked.zones, asked.fill, count)?;
    let near = coverage_with_nearness(alloc, &given.regions, asked.least, options, count)?;
    Ok(NearShapes {
        shapes: near.shapes,
        nearness: given.nearness + near.nearness,
    })
}

/// Where each two zones overlap, and how near.
fn overlaps_within<I: OverlayInt>(
    alloc: Global,
    asked: &Overlaps<I>,
    options: IntOverlayOptions<I::WideUInt>,
    count: &mut SplitCount,
) -> Result<NearOverlaps<I>, IntNearnessError>
    requires { MayBeCombined I.unit (overlaps_of I.value asked.now) }
    ensures combined { IfOk result (λ near. AreCombinedOverlapsWithin near.nearness I.unit
        (choices_of I.WideUInt.value options) (overlaps_of I.value asked.now) (overlap_list_of near.overlaps.items)
        count.old count.new) }
    ensures small { IfOk result (λ near. near.nearness ≤ 2 ^ 40) }
    ensures counted { CountsAttempts (all_lists (overlaps_of I.value asked.now))
        (IsCombinedDrawing I.unit (overlaps_of I.value asked.now)) count.old count.new }
    ensures within { OnOk result (IsWithinLimit count.new) }
    ensures past { result ≡ Err IntNearnessError.TooManySplits → IsPastLimit count.new }
    ensures refused { ¬ result ≡ Err IntNearnessError.CoordinateOutOfRange }
{
    let given = near_regions_of(alloc, &asked.zones, asked.fill, count)?;
    let near = overlaps_with_nearness(alloc, &given.regions, options, count)?;
    Ok(NearOverlaps {
        overlaps: near.overlaps,
        nearness: given.nearness + near.nearness,
    })
}
