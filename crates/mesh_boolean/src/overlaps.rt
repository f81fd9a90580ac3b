//! Which zones overlap, and where.

ghost use Rattle.std.specs.Prelude.{◌≡◌, ◌≤◌, ◌<◌, ◌*◌, ◌^◌, true, false, map, length, IfOk, OnOk};
ghost use Rattle.std.specs.List.{All};
ghost use Rattle.mesh_num.specs.Paths.{shapes_of};
ghost use Rattle.mesh_lattice.specs.Reach.{ArePointsSafe};
ghost use Rattle.mesh_split.specs.Counting.{IsPastLimit, IsWithinLimit};
ghost use Rattle.mesh_split.specs.declared.count.SplitError.TheVariants.{TooManySplits};
ghost use Rattle.mesh_below.specs.Options.{choices_of};
ghost use Rattle.mesh_offset.specs.Counting.{CountsAttempts};
ghost use Rattle.mesh_boolean.specs.Overlaps.{
  AreCommonRegions,
  AreCountedCommonRegions,
  AreOverlaps,
  AreOverlapsBeyond,
  IsPairDrawing,
  overlaps_of,
  pair_edges,
};
ghost use Rattle.mesh_boolean.specs.Private.PairsSoFar.{AddsOverlap, IsListedUnlessEmpty};

use crate::boolean::IntOverlayError;
use crate::meeting_pairs::meeting_pairs;
use crate::nearness::near_combined;
use crate::operand::combined;
use mesh_below::below::{FillRule, IntOverlayOptions, WindingRule};
use mesh_below::nearness::{SplitCount, SplitError};
use mesh_num::num::IntNumber;
use mesh_num::shape::buffer::IntShapes;
use mesh_offset::error::{IntNearnessError, IntOutlineError};
use std::alloc::{AllocError, Global};

/// Two zones that overlap, and where.
#[derive(Drop)]
pub struct ZoneOverlap<I: IntNumber> {
    /// The place of the first zone, counted from 0.
    pub first: usize,
    /// The place of the second zone, which comes after the first.
    pub second: usize,
    /// Where both zones are, as clean polygons: at least one.
    pub shapes: IntShapes<I>,
}

/// The overlaps of zones, with their error bound.
#[derive(Drop)]
pub struct NearOverlaps<I: IntNumber> {
    /// The pairs of zones that overlap, and where.
    pub overlaps: Vec<ZoneOverlap<I>>,
    /// The error bound in 64ths of a grid unit, which holds for each pair: the greatest of all pairs that were
    /// resolved, and 0 where none was.
    pub nearness: u64,
}

/// Which pairs of zones overlap, and where: each pair once, in ascending order of its first zone, then of its second.
///
/// A zone is a list of polygons as an overlay or an offset returned them, outer contours counterclockwise and holes
/// clockwise. The edges of both zones of a pair are resolved together, with these options, and filled where they wind at
/// least twice. A pair of which nothing is left by then is not listed: zones that touch do not overlap, nor do those
/// whose common parts are all below the least area of the options. A pair whose boxes have no point in common is never
/// resolved. Two boxes are compared only where one begins within the other's range of x: 10,000 zones spread evenly over
/// a square take 1 to 2 million tests.
///
/// Every point of every zone has to be in the safe range, coordinates of a size below 2^14 for `i16` and below 2^30 for
/// `i32`, in grid units. The only error is `OutOfMemory`: memory was refused.
pub fn overlaps<I: IntNumber>(
    alloc: Global,
    zones: &[IntShapes<I>],
    options: IntOverlayOptions<I::WideUInt>,
) -> Result<Vec<ZoneOverlap<I>>, IntOverlayError>
    requires { All (λ zone. ArePointsSafe I.unit (shapes_of zone.items)) zones.now }
    ensures overlaps { IfOk result (λ found. AreOverlaps (map (λ zone. shapes_of zone.items) zones.now)
        (choices_of I.WideUInt.value options) (overlaps_of found.items)) }
    ensures safe { IfOk result (λ found. All (λ overlap. ArePointsSafe I.unit (shapes_of overlap.shapes.items))
        found.items) }
    ensures refused { ¬ result ≡ Err IntOutlineError.CoordinateOutOfRange }
{
    let pairs = meeting_pairs(alloc, zones)?;
    let mut found = Vec::new(alloc);
    for pair in &pairs {
        add_overlap(alloc, zones, *pair, options, &mut found)?;
    }
    Ok(found)
}

/// Adds the overlap of two zones, if there is any.
fn add_overlap<I: IntNumber>(
    alloc: Global,
    zones: &[IntShapes<I>],
    pair: (usize, usize),
    options: IntOverlayOptions<I::WideUInt>,
    found: &mut Vec<ZoneOverlap<I>>,
) -> Result<(), AllocError>
    requires safe { All (λ zone. ArePointsSafe I.unit (shapes_of zone.items)) zones.now }
    requires first { pair.0 < length zones.now }
    requires second { pair.1 < length zones.now }
    ensures { OnOk result (AddsOverlap I.unit
        (AreCommonRegions (map (λ zone. shapes_of zone.items) zones.now)
        (choices_of I.WideUInt.value options) pair.0 pair.1)
        pair (overlaps_of found.old.items) (overlaps_of found.new.items)) }
{
    let (first, second) = pair;
    let shapes = combined(
        alloc,
        &zones[first],
        &zones[second],
        FillRule::Positive,
        WindingRule::AtLeast(2),
        options,
    )?;
    list_unless_empty(pair, shapes, found)?;
    Ok(())
}

/// Lists what two zones have in common, unless that is nothing.
fn list_unless_empty<I: IntNumber>(
    pair: (usize, usize),
    shapes: IntShapes<I>,
    found: &mut Vec<ZoneOverlap<I>>,
) -> Result<(), AllocError>
    ensures { OnOk result (IsListedUnlessEmpty pair (shapes_of shapes.items)
        (overlaps_of found.old.items) (overlaps_of found.new.items)) }
{
    let (first, second) = pair;
    if shapes.is_empty() {
        return Ok(());
    }
    found.push(ZoneOverlap {
        first,
        second,
        shapes,
    })?;
    Ok(())
}

/// The same as `overlaps`, with a proved error bound, the nearness: of each pair that was resolved, listed or not, the
/// answer holds what both zones hold at each point farther than it from all edges of both, and each point of its
/// contours lies within it of such an edge.
///
/// Every split of an edge is added to `count`, those of attempts that were given up too. `TooManySplits` means that the
/// count passed its limit, `OutOfMemory` that memory was refused. `CoordinateOutOfRange` is never returned.
pub fn overlaps_with_nearness<I: IntNumber>(
    alloc: Global,
    zones: &[IntShapes<I>],
    options: IntOverlayOptions<I::WideUInt>,
    count: &mut SplitCount,
) -> Result<NearOverlaps<I>, IntNearnessError>
    requires { All (λ zone. ArePointsSafe I.unit (shapes_of zone.items)) zones.now }
    ensures overlaps { IfOk result (λ near. AreOverlapsBeyond near.nearness
        (map (λ zone. shapes_of zone.items) zones.now) (choices_of I.WideUInt.value options)
        (overlaps_of near.overlaps.items) count.old count.new) }
    ensures safe { IfOk result (λ near. All (λ overlap. ArePointsSafe I.unit (shapes_of overlap.shapes.items))
        near.overlaps.items) }
    ensures small { IfOk result (λ near. near.nearness ≤ 2 ^ 38) }
    ensures counted { CountsAttempts (length zones.now * length zones.now)
        (IsPairDrawing (map (λ zone. shapes_of zone.items) zones.now)) count.old count.new }
    ensures within { OnOk result (IsWithinLimit count.new) }
    ensures past { result ≡ Err IntNearnessError.TooManySplits → IsPastLimit count.new }
    ensures refused { ¬ result ≡ Err IntNearnessError.CoordinateOutOfRange }
{
    // Read, so that it is known to fit: a return before any attempt counts none.
    let _made = count.made;
    // It may have passed its limit before, and perhaps no pair is resolved.
    if is_past_limit(*count) {
        return Err(IntNearnessError::TooManySplits);
    }
    let pairs = meeting_pairs(alloc, zones)?;
    let mut overlaps = Vec::new(alloc);
    let mut nearness: u64 = 0;
    for pair in &pairs {
        let own = add_near_overlap(alloc, zones, *pair, options, count, &mut overlaps)?;
        nearness = nearness.max(own);
    }
    Ok(NearOverlaps { overlaps, nearness })
}

/// Adds the overlap of two zones, if there is any, and returns its nearness.
fn add_near_overlap<I: IntNumber>(
    alloc: Global,
    zones: &[IntShapes<I>],
    pair: (usize, usize),
    options: IntOverlayOptions<I::WideUInt>,
    count: &mut SplitCount,
    found: &mut Vec<ZoneOverlap<I>>,
) -> Result<u64, SplitError>
    requires safe { All (λ zone. ArePointsSafe I.unit (shapes_of zone.items)) zones.now }
    requires first { pair.0 < length zones.now }
    requires second { pair.1 < length zones.now }
    ensures adds { IfOk result (λ nearness. AddsOverlap I.unit
        (AreCountedCommonRegions nearness (map (λ zone. shapes_of zone.items) zones.now)
        (choices_of I.WideUInt.value options) pair count.old count.new)
        pair (overlaps_of found.old.items) (overlaps_of found.new.items)) }
    ensures small { IfOk result (λ nearness. nearness ≤ 2 ^ 38) }
    ensures counted { CountsAttempts 1
        (λ edges. edges ≡ pair_edges (map (λ zone. shapes_of zone.items) zones.now) pair.0 pair.1)
        count.old count.new }
    ensures within { OnOk result (IsWithinLimit count.new) }
    ensures refused { result ≡ Err SplitError.TooManySplits → IsPastLimit count.new }
{
    let (first, second) = pair;
    let near = near_combined(
        alloc,
        &zones[first],
        &zones[second],
        FillRule::Positive,
        WindingRule::AtLeast(2),
        options,
        count,
    )?;
    list_unless_empty(pair, near.shapes, found)?;
    Ok(near.nearness)
}

/// Whether a count passed its limit.
fn is_past_limit(count: SplitCount) -> bool
    ensures past { result ≡ true → IsPastLimit count }
    ensures within { result ≡ false → IsWithinLimit count }
{
    0 < count.most && count.most < count.made
}
