//! Booleans with a proved error bound.

ghost use Rattle.std.specs.Prelude.{◌≡◌, ◌≤◌, ◌^◌, IfOk, OnOk};
ghost use Rattle.mesh_num.specs.Paths.{shapes_of};
ghost use Rattle.mesh_lattice.specs.FillRules.{filled_by};
ghost use Rattle.mesh_lattice.specs.Reach.{ArePointsSafe};
ghost use Rattle.mesh_ahead.specs.Counting.{CountsSplits};
ghost use Rattle.mesh_split.specs.Counting.{IsPastLimit, IsWithinLimit};
ghost use Rattle.mesh_split.specs.declared.count.SplitError.TheVariants.{TooManySplits};
ghost use Rattle.mesh_below.specs.Nearness.{AreCountedRegions};
ghost use Rattle.mesh_below.specs.Options.{choices_of};
ghost use Rattle.mesh_offset.specs.Counting.{CountsAttempts};
ghost use Rattle.mesh_boolean.specs.Booleans.{ArePathsInRange, both_edges, closed_edges, operands_of};
ghost use Rattle.mesh_boolean.specs.Nearness.{AreCountedBooleanRegions, IsBooleanDrawing};
ghost use Rattle.mesh_boolean.specs.Private.Steps.{AreCombinedCounted};

use crate::rule::{BooleanFill, BooleanRule, Way, way_of};
use mesh_below::below::{FillRule, IntOverlayOptions, Overlay, WindingRule};
use mesh_below::nearness::{NearShapes, SplitCount, SplitError};
use mesh_num::num::IntNumber;
use mesh_num::shape::buffer::IntShapes;
use mesh_num::shape::resource::IntShapeResource;
use mesh_offset::segments::{add_paths, add_shapes};
use std::alloc::Global;

/// What the contours of a source fill by this rule, and how near.
fn near_region<I: IntNumber, S: IntShapeResource<I>>(
    alloc: Global,
    source: &S,
    rule: WindingRule,
    options: IntOverlayOptions<I::WideUInt>,
    count: &mut SplitCount,
) -> Result<NearShapes<I>, SplitError>
    requires { ArePathsInRange I.unit (S.paths source.now) }
    ensures standing { IfOk result (λ near. AreCountedRegions near.nearness (closed_edges (S.paths source.now))
        (filled_by rule) (choices_of I.WideUInt.value options) (shapes_of near.shapes.items) count.old count.new) }
    ensures safe { IfOk result (λ near. ArePointsSafe I.unit (shapes_of near.shapes.items)) }
    ensures small { IfOk result (λ near. near.nearness ≤ 2 ^ 38) }
    ensures counted { CountsAttempts 1 (λ edges. edges ≡ closed_edges (S.paths source.now)) count.old count.new }
    ensures within { OnOk result (IsWithinLimit count.new) }
    ensures refused { result ≡ Err SplitError.TooManySplits → IsPastLimit count.new }
{
    // Read, so that it is known to fit: a return before any attempt counts none.
    let _made = count.made;
    let mut segments = Vec::new(alloc);
    add_paths(source, FillRule::Positive, &mut segments)?;
    let mut overlay = Overlay::with_segments(segments);
    overlay.options = options;
    overlay.overlay_by_with_nearness(rule, count)
}

/// What the contours of two answers fill together by this rule, those of the second in this sense, and how near.
pub(crate) fn near_combined<I: IntNumber>(
    alloc: Global,
    first: &IntShapes<I>,
    second: &IntShapes<I>,
    sense: FillRule,
    rule: WindingRule,
    options: IntOverlayOptions<I::WideUInt>,
    count: &mut SplitCount,
) -> Result<NearShapes<I>, SplitError>
    requires first { ArePointsSafe I.unit (shapes_of first.now.items) }
    requires second { ArePointsSafe I.unit (shapes_of second.now.items) }
    ensures standing { IfOk result (λ near. AreCountedRegions near.nearness
        (both_edges sense (shapes_of first.now.items) (shapes_of second.now.items)) (filled_by rule)
        (choices_of I.WideUInt.value options) (shapes_of near.shapes.items) count.old count.new) }
    ensures safe { IfOk result (λ near. ArePointsSafe I.unit (shapes_of near.shapes.items)) }
    ensures small { IfOk result (λ near. near.nearness ≤ 2 ^ 38) }
    ensures counted { CountsAttempts 1
        (λ edges. edges ≡ both_edges sense (shapes_of first.now.items) (shapes_of second.now.items))
        count.old count.new }
    ensures within { OnOk result (IsWithinLimit count.new) }
    ensures refused { result ≡ Err SplitError.TooManySplits → IsPastLimit count.new }
{
    // Read, so that it is known to fit: a return before any attempt counts none.
    let _made = count.made;
    let mut segments = Vec::new(alloc);
    add_shapes(first, FillRule::Positive, &mut segments)?;
    add_shapes(second, sense, &mut segments)?;
    let mut overlay = Overlay::with_segments(segments);
    overlay.options = options;
    overlay.overlay_by_with_nearness(rule, count)
}

/// Both operands, resolved alone and then together, and how near.
fn near_both<I: IntNumber, S: IntShapeResource<I>, C: IntShapeResource<I>>(
    alloc: Global,
    subject: &S,
    clip: &C,
    fill: BooleanFill,
    sense: FillRule,
    sum: WindingRule,
    options: IntOverlayOptions<I::WideUInt>,
    count: &mut SplitCount,
) -> Result<NearShapes<I>, SplitError>
    requires subject { ArePathsInRange I.unit (S.paths subject.now) }
    requires clip { ArePathsInRange I.unit (C.paths clip.now) }
    ensures standing { IfOk result (λ near. AreCombinedCounted near.nearness sense sum
        (operands_of fill (S.paths subject.now) (C.paths clip.now))
        (choices_of I.WideUInt.value options) (shapes_of near.shapes.items) count.old count.new) }
    ensures safe { IfOk result (λ near. ArePointsSafe I.unit (shapes_of near.shapes.items)) }
    ensures small { IfOk result (λ near. near.nearness ≤ 2 ^ 39) }
    ensures counted { CountsAttempts 3 (IsBooleanDrawing (operands_of fill (S.paths subject.now) (C.paths clip.now)))
        count.old count.new }
    ensures within { OnOk result (IsWithinLimit count.new) }
    ensures refused { result ≡ Err SplitError.TooManySplits → IsPastLimit count.new }
{
    let first = near_region(
        alloc,
        subject,
        fill.subject.winding_rule(),
        IntOverlayOptions::new(),
        count,
    )?;
    let second = near_region(
        alloc,
        clip,
        fill.clip.winding_rule(),
        IntOverlayOptions::new(),
        count,
    )?;
    let near = near_combined(
        alloc,
        &first.shapes,
        &second.shapes,
        sense,
        sum,
        options,
        count,
    )?;
    Ok(NearShapes {
        shapes: near.shapes,
        nearness: first.nearness.max(second.nearness) + near.nearness,
    })
}

/// A boolean, and how near.
pub(crate) fn near_boolean<I: IntNumber, S: IntShapeResource<I>, C: IntShapeResource<I>>(
    alloc: Global,
    subject: &S,
    clip: &C,
    rule: BooleanRule,
    fill: BooleanFill,
    options: IntOverlayOptions<I::WideUInt>,
    count: &mut SplitCount,
) -> Result<NearShapes<I>, SplitError>
    requires subject { ArePathsInRange I.unit (S.paths subject.now) }
    requires clip { ArePathsInRange I.unit (C.paths clip.now) }
    ensures standing { IfOk result (λ near. AreCountedBooleanRegions near.nearness rule
        (operands_of fill (S.paths subject.now) (C.paths clip.now))
        (choices_of I.WideUInt.value options) (shapes_of near.shapes.items) count.old count.new) }
    ensures safe { IfOk result (λ near. ArePointsSafe I.unit (shapes_of near.shapes.items)) }
    ensures small { IfOk result (λ near. near.nearness ≤ 2 ^ 39) }
    ensures counted { CountsAttempts 3 (IsBooleanDrawing (operands_of fill (S.paths subject.now) (C.paths clip.now)))
        count.old count.new }
    ensures within { OnOk result (IsWithinLimit count.new) }
    ensures refused { result ≡ Err SplitError.TooManySplits → IsPastLimit count.new }
{
    match way_of(rule) {
        Way::Subject => near_region(alloc, subject, fill.subject.winding_rule(), options, count),
        Way::Clip => near_region(alloc, clip, fill.clip.winding_rule(), options, count),
        Way::Together(sense, sum) => {
            near_both(alloc, subject, clip, fill, sense, sum, options, count)
        }
    }
}
