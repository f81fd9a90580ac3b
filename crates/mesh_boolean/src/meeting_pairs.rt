//! Pairs of zones whose bounds have a point in common.

ghost use Rattle.std.specs.Prelude.{◌↔◌, map, length, IsTrue, IfOk, OnOk};
ghost use Rattle.std.specs.List.{All, AllPairs};
ghost use Rattle.std.specs.List.Sorted.{IsPermutation};
ghost use Rattle.mesh_num.specs.Paths.{shapes_of};
ghost use Rattle.mesh_num.specs.Rectangle.{IsInRectangle};
ghost use Rattle.mesh_boolean.specs.Overlaps.{AreRectanglesApart, points_of};
ghost use Rattle.mesh_boolean.specs.Private.Meeting.{AreBoxes, AreFound, AreMeetingPairs, FindsPairs, IsNotPast};

use mesh_num::num::convert::{is_less, narrow, widen};
use mesh_num::num::{IntNumber, IntRect};
use mesh_num::shape::buffer::{FlatContoursBuffer, IntShapes};
use std::alloc::{AllocError, Global};

/// The place of a zone, and its bounds.
type PlacedBox<I> = (usize, IntRect<I>);

/// The pairs of zones whose bounds have a point in common, each once, in ascending order of its first zone, then of its
/// second.
pub(crate) fn meeting_pairs<I: IntNumber>(
    alloc: Global,
    zones: &[IntShapes<I>],
) -> Result<Vec<(usize, usize)>, AllocError>
    ensures { IfOk result (λ pairs. AreMeetingPairs (map (λ zone. shapes_of zone.items) zones.now) pairs.items) }
{
    let boxes = from_west(boxes_of(alloc, zones)?);
    let mut pairs = all_pairs(alloc, &boxes)?;
    pairs.sort_unstable();
    pairs.dedup();
    Ok(pairs)
}

/// The bounds of each zone.
fn boxes_of<I: IntNumber>(
    alloc: Global,
    zones: &[IntShapes<I>],
) -> Result<Vec<PlacedBox<I>>, AllocError>
    ensures { IfOk result (λ boxes. AreBoxes (map (λ zone. shapes_of zone.items) zones.now)
        (length zones.now) boxes.items) }
{
    let mut boxes = Vec::with_capacity(alloc, zones.len())?;
    for place in 0..zones.len() {
        boxes.push((place, bounds_of(alloc, &zones[place])?))?;
    }
    Ok(boxes)
}

/// The bounds of all points of a zone. Of no point they lie apart from all others: their west side is past their east
/// side.
fn bounds_of<I: IntNumber>(alloc: Global, zone: &IntShapes<I>) -> Result<IntRect<I>, AllocError>
    ensures { IfOk result (λ bounds. All (λ p. IsInRectangle bounds p) (points_of (shapes_of zone.now.items))) }
{
    let buffer = FlatContoursBuffer::from_shapes(alloc, zone)?;
    match IntRect::with_iter(buffer.points.iter()) {
        None => Ok(no_bounds()),
        Some(bounds) => Ok(bounds),
    }
}

/// Bounds that hold no point, the west side as far east and the east side as far west as the safe range reaches.
fn no_bounds<I: IntNumber>() -> IntRect<I> {
    let most = I::UNIT;
    let least = narrow(-widen(I::UNIT));
    IntRect {
        min_x: most,
        max_x: least,
        min_y: most,
        max_y: least,
    }
}

/// Bounds in order by their west sides.
fn from_west<I: IntNumber>(mut boxes: Vec<PlacedBox<I>>) -> Vec<PlacedBox<I>>
    ensures same { IsPermutation boxes.items result.items }
    ensures ordered { AllPairs IsNotPast result.items }
{
    boxes.sort_unstable_by_key(|placed| widen(placed.1.min_x));
    boxes
}

/// The pairs of boxes that have a point in common. The boxes stand in order by their west sides, so each is compared
/// with those that follow it until one starts past its east side.
fn all_pairs<I: IntNumber>(
    alloc: Global,
    boxes: &[PlacedBox<I>],
) -> Result<Vec<(usize, usize)>, AllocError>
    requires { AllPairs IsNotPast boxes.now }
    ensures { IfOk result (λ pairs. AreFound boxes.now (length boxes.now) pairs.items) }
{
    let mut pairs = Vec::new(alloc);
    for index in 0..boxes.len() {
        let own = boxes[index];
        let (place, bounds) = own;
        add_pairs(place, bounds, &boxes[index + 1..], &mut pairs)?;
    }
    Ok(pairs)
}

/// Adds the pairs of a zone, with these bounds, and those whose boxes follow.
fn add_pairs<I: IntNumber>(
    place: usize,
    bounds: IntRect<I>,
    following: &[PlacedBox<I>],
    pairs: &mut Vec<(usize, usize)>,
) -> Result<(), AllocError>
    requires { AllPairs IsNotPast following.now }
    ensures { OnOk result (FindsPairs (place, bounds) following.now pairs.old.items pairs.new.items) }
{
    for other in following {
        let (other_place, other_bounds) = *other;
        if is_less(bounds.max_x, other_bounds.min_x) {
            return Ok(());
        }
        if !are_apart(bounds, other_bounds) {
            pairs.push((place.min(other_place), place.max(other_place)))?;
        }
    }
    Ok(())
}

/// Whether bounds have no point in common with others.
fn are_apart<I: IntNumber>(bounds: IntRect<I>, other: IntRect<I>) -> bool
    ensures { IsTrue result ↔ AreRectanglesApart bounds other }
{
    is_less(bounds.max_x, other.min_x)
        || is_less(other.max_x, bounds.min_x)
        || is_less(bounds.max_y, other.min_y)
        || is_less(other.max_y, bounds.min_y)
}
