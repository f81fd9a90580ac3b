//! Booleans of contours: union, intersection, difference and exclusive or.

ghost use Rattle.std.specs.Prelude.{◌≡◌, ◌↔◌, ◌≤◌, ◌^◌, IsOk, IfOk, OnOk, OnErr};
ghost use Rattle.mesh_num.specs.Paths.{shapes_of};
ghost use Rattle.mesh_lattice.specs.Reach.{ArePointsSafe};
ghost use Rattle.mesh_split.specs.Counting.{IsPastLimit, IsWithinLimit};
ghost use Rattle.mesh_below.specs.Options.{choices_of};
ghost use Rattle.mesh_offset.specs.Counting.{CountsAttempts};
ghost use Rattle.mesh_boolean.specs.Booleans.{ArePathsInRange, IsBoolean, operands_of};
ghost use Rattle.mesh_boolean.specs.Nearness.{AreCountedBooleanRegions, AreBooleanRegionsBeyond, IsBooleanDrawing};
ghost use Rattle.mesh_boolean.specs.Regions.{AreBooleanRegions, AreCombinedRegions};

use crate::nearness::near_boolean;
use crate::operand::{combined, region_of};
use crate::rule::{BooleanFill, BooleanRule, Way, way_of};
use mesh_below::below::{FillRule, IntOverlayOptions, WindingRule};
use mesh_below::nearness::{NearShapes, SplitCount};
use mesh_num::num::IntNumber;
use mesh_num::shape::buffer::IntShapes;
use mesh_num::shape::resource::IntShapeResource;
use mesh_offset::bounds::validate_bounds;
use mesh_offset::error::{IntNearnessError, IntOutlineError};
use std::alloc::{AllocError, Global};

/// The errors of booleans.
pub type IntOverlayError = IntOutlineError;

/// Tests whether the contours of an operand may take part in a boolean: `Ok` exactly where each of their points is in
/// the safe range, coordinates of a size below 2^14 for `i16` and below 2^30 for `i32`, in grid units. The only error is
/// `CoordinateOutOfRange`. It allocates nothing.
pub fn validate_overlay<I: IntNumber, S: IntShapeResource<I>>(
    source: &S,
) -> Result<(), IntOverlayError>
    ensures safe { IsOk result ↔ ArePathsInRange I.unit (S.paths source.now) }
    ensures error { OnErr result (result ≡ Err IntOutlineError.CoordinateOutOfRange) }
{
    validate_bounds(source, I::ZERO.to_wide())
}

/// The points that a boolean of the subject and the clip keeps, as clean polygons: each an outer contour followed by its
/// holes.
///
/// Each operand is a source of closed contours in either direction, filled by a rule of its own. It is resolved alone,
/// with default options; then both are resolved together, with these options. `Subject` and `Clip` resolve that operand
/// alone, with these options, and do not look at the other. Contours of one or two points have no area. Where operands
/// touch and do not overlap, they have no point in common.
///
/// Every point of both operands has to be in the safe range; `validate_overlay` tests one operand. The only error is
/// `OutOfMemory`: memory was refused.
pub fn overlay_shapes<I: IntNumber, S: IntShapeResource<I>, C: IntShapeResource<I>>(
    alloc: Global,
    subject: &S,
    clip: &C,
    rule: BooleanRule,
    fill: BooleanFill,
    options: IntOverlayOptions<I::WideUInt>,
) -> Result<IntShapes<I>, IntOverlayError>
    requires subject { ArePathsInRange I.unit (S.paths subject.now) }
    requires clip { ArePathsInRange I.unit (C.paths clip.now) }
    ensures resolution { IfOk result (λ shapes. IsBoolean rule
        (operands_of fill (S.paths subject.now) (C.paths clip.now))
        (choices_of I.WideUInt.value options) (shapes_of shapes.items)) }
    ensures regions { IfOk result (λ shapes. AreBooleanRegions rule
        (operands_of fill (S.paths subject.now) (C.paths clip.now))
        (choices_of I.WideUInt.value options) (shapes_of shapes.items)) }
    ensures safe { IfOk result (λ shapes. ArePointsSafe I.unit (shapes_of shapes.items)) }
    ensures refused { ¬ result ≡ Err IntOutlineError.CoordinateOutOfRange }
{
    match way_of(rule) {
        Way::Subject => Ok(region_of(alloc, subject, fill.subject.winding_rule(), options)?),
        Way::Clip => Ok(region_of(alloc, clip, fill.clip.winding_rule(), options)?),
        Way::Together(sense, sum) => { Ok(both(alloc, subject, clip, fill, sense, sum, options)?) }
    }
}

/// Both operands, resolved alone and then together.
fn both<I: IntNumber, S: IntShapeResource<I>, C: IntShapeResource<I>>(
    alloc: Global,
    subject: &S,
    clip: &C,
    fill: BooleanFill,
    sense: FillRule,
    sum: WindingRule,
    options: IntOverlayOptions<I::WideUInt>,
) -> Result<IntShapes<I>, AllocError>
    requires subject { ArePathsInRange I.unit (S.paths subject.now) }
    requires clip { ArePathsInRange I.unit (C.paths clip.now) }
    ensures regions { IfOk result (λ shapes. AreCombinedRegions sense sum
        (operands_of fill (S.paths subject.now) (C.paths clip.now))
        (choices_of I.WideUInt.value options) (shapes_of shapes.items)) }
    ensures safe { IfOk result (λ shapes. ArePointsSafe I.unit (shapes_of shapes.items)) }
{
    let plain = IntOverlayOptions::new();
    let first = region_of(alloc, subject, fill.subject.winding_rule(), plain)?;
    let second = region_of(alloc, clip, fill.clip.winding_rule(), plain)?;
    combined(alloc, &first, &second, sense, sum, options)
}

/// The same as `overlay_shapes`, with a proved error bound, the nearness: at each point farther than it from all edges of
/// the operands the polygons hold exactly what the boolean keeps, and each point of their contours lies within it of such
/// an edge. It is the greater of the operands' own bounds and that of the last resolving, added; `Subject` and `Clip`
/// have their one.
///
/// Every split of an edge is added to `count`, those of attempts that were given up too. `TooManySplits` means that the
/// count passed its limit, `OutOfMemory` that memory was refused. `CoordinateOutOfRange` is never returned.
pub fn overlay_shapes_with_nearness<I: IntNumber, S: IntShapeResource<I>, C: IntShapeResource<I>>(
    alloc: Global,
    subject: &S,
    clip: &C,
    rule: BooleanRule,
    fill: BooleanFill,
    options: IntOverlayOptions<I::WideUInt>,
    count: &mut SplitCount,
) -> Result<NearShapes<I>, IntNearnessError>
    requires subject { ArePathsInRange I.unit (S.paths subject.now) }
    requires clip { ArePathsInRange I.unit (C.paths clip.now) }
    ensures regions { IfOk result (λ near. AreBooleanRegionsBeyond near.nearness rule
        (operands_of fill (S.paths subject.now) (C.paths clip.now))
        (choices_of I.WideUInt.value options) (shapes_of near.shapes.items)) }
    ensures standing { IfOk result (λ near. AreCountedBooleanRegions near.nearness rule
        (operands_of fill (S.paths subject.now) (C.paths clip.now))
        (choices_of I.WideUInt.value options) (shapes_of near.shapes.items) count.old count.new) }
    ensures safe { IfOk result (λ near. ArePointsSafe I.unit (shapes_of near.shapes.items)) }
    ensures small { IfOk result (λ near. near.nearness ≤ 2 ^ 39) }
    ensures counted { CountsAttempts 3 (IsBooleanDrawing (operands_of fill (S.paths subject.now) (C.paths clip.now)))
        count.old count.new }
    ensures within { OnOk result (IsWithinLimit count.new) }
    ensures past { result ≡ Err IntNearnessError.TooManySplits → IsPastLimit count.new }
    ensures refused { ¬ result ≡ Err IntNearnessError.CoordinateOutOfRange }
{
    Ok(near_boolean(alloc, subject, clip, rule, fill, options, count)?)
}
