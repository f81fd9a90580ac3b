//! What a boolean of lists and numbers keeps: the shapes, with or without their nearness.

ghost use Rattle.std.specs.Prelude.{◌≡◌, ◌↔◌, Ok, IsOk, OnErr};
ghost use Rattle.mesh_arrays.specs.Booleans.{AreOperandsInRange, IsBooleanAnswer, IsNearBooleanAnswer, boolean_of};
ghost use Rattle.mesh_arrays.specs.Failures.{read_as};
ghost use Rattle.mesh_arrays.specs.ShapeRooms.{LeavesNear, LeavesShapes, near_room, shape_room};
ghost use Rattle.mesh_arrays.specs.Telling.{TellsAnswer};

use crate::boolean::ContourBoolean;
use crate::failure::Failure;
use crate::near::{NearFlatShapes, hand_over_near};
use crate::numbers::Flat;
use crate::options::FlatOptions;
use crate::outcome::Outcome;
use crate::shapes::{FlatShapes, ShapeCounts, hand_over_shapes};
use mesh_below::nearness::SplitCount;
use mesh_boolean::boolean::{overlay_shapes, overlay_shapes_with_nearness, validate_overlay};
use mesh_num::num::{IntNumber, IntPoint};
use mesh_offset::error::IntOutlineError;
use std::alloc::Global;

/// Tells the shapes of the boolean that was read. `Malformed`: none was read, or the options stand for none.
/// `OutOfRange`: a point of an operand is not in the safe range. `OutOfMemory`: memory was refused. `RoomTooSmall`: the
/// shapes do not fit, and the lists are as they were.
pub fn tell_boolean<I: IntNumber, P: Flat<Item = IntPoint<I>>>(
    alloc: Global,
    boolean: &Result<ContourBoolean<I>, Failure>,
    options: &FlatOptions,
    points: &mut [P],
    contour_ends: &mut [usize],
    shape_ends: &mut [usize],
    counts: &mut ShapeCounts,
) -> Outcome
    ensures { TellsAnswer (IsBooleanAnswer I.unit P.item_of options.now (read_as boolean_of boolean.now))
        LeavesShapes (shape_room points.old contour_ends.old shape_ends.old counts.old)
        (shape_room points.new contour_ends.new shape_ends.new counts.new) result }
{
    let answer = shapes(alloc, boolean, options);
    hand_over_shapes(&answer, points, contour_ends, shape_ends, counts)
}

/// Tells the shapes and their nearness; `most_splits` is how many splits may be made, and 0 stands for any number. It
/// ends as `tell_boolean` does, or with `TooManySplits`: more splits were made.
pub fn tell_near_boolean<I: IntNumber, P: Flat<Item = IntPoint<I>>>(
    alloc: Global,
    boolean: &Result<ContourBoolean<I>, Failure>,
    options: &FlatOptions,
    most_splits: u64,
    points: &mut [P],
    contour_ends: &mut [usize],
    shape_ends: &mut [usize],
    counts: &mut ShapeCounts,
    nearness: &mut u64,
) -> Outcome
    ensures { TellsAnswer
        (IsNearBooleanAnswer I.unit P.item_of options.now most_splits (read_as boolean_of boolean.now))
        LeavesNear (near_room points.old contour_ends.old shape_ends.old counts.old nearness.old)
        (near_room points.new contour_ends.new shape_ends.new counts.new nearness.new) result }
{
    let answer = near(alloc, boolean, options, most_splits);
    hand_over_near(&answer, points, contour_ends, shape_ends, counts, nearness)
}

/// The shapes of the boolean that was read.
fn shapes<I: IntNumber, P: Flat<Item = IntPoint<I>>>(
    alloc: Global,
    boolean: &Result<ContourBoolean<I>, Failure>,
    options: &FlatOptions,
) -> Result<FlatShapes<P>, Failure>
    ensures { IsBooleanAnswer I.unit P.item_of options.now (read_as boolean_of boolean.now) result }
{
    match boolean {
        Ok(boolean) => kept_shapes(alloc, boolean, options),
        Err(failure) => Err(*failure),
    }
}

/// The shapes that a boolean keeps.
fn kept_shapes<I: IntNumber, P: Flat<Item = IntPoint<I>>>(
    alloc: Global,
    boolean: &ContourBoolean<I>,
    options: &FlatOptions,
) -> Result<FlatShapes<P>, Failure>
    ensures { IsBooleanAnswer I.unit P.item_of options.now (Ok (boolean_of boolean.now)) result }
{
    let Some(options) = options.options::<I>() else {
        return Err(Failure::Malformed);
    };
    validate(boolean)?;
    let shapes = overlay_shapes(
        alloc,
        &boolean.subject,
        &boolean.clip,
        boolean.rule,
        boolean.fill,
        options,
    )?;
    Ok(FlatShapes::of(alloc, &shapes)?)
}

/// Tests whether each point of both operands is in the safe range, even of one that the rule does not look at. The only
/// error is `CoordinateOutOfRange`.
fn validate<I: IntNumber>(boolean: &ContourBoolean<I>) -> Result<(), IntOutlineError>
    ensures safe { IsOk result ↔ AreOperandsInRange I.unit (boolean_of boolean.now) }
    ensures error { OnErr result (result ≡ Err IntOutlineError.CoordinateOutOfRange) }
{
    validate_overlay(&boolean.subject)?;
    validate_overlay(&boolean.clip)
}

/// The shapes of the boolean that was read, and their nearness.
fn near<I: IntNumber, P: Flat<Item = IntPoint<I>>>(
    alloc: Global,
    boolean: &Result<ContourBoolean<I>, Failure>,
    options: &FlatOptions,
    most_splits: u64,
) -> Result<NearFlatShapes<P>, Failure>
    ensures { IsNearBooleanAnswer I.unit P.item_of options.now most_splits (read_as boolean_of boolean.now) result }
{
    match boolean {
        Ok(boolean) => kept_near(alloc, boolean, options, most_splits),
        Err(failure) => Err(*failure),
    }
}

/// The shapes that a boolean keeps, and their nearness.
fn kept_near<I: IntNumber, P: Flat<Item = IntPoint<I>>>(
    alloc: Global,
    boolean: &ContourBoolean<I>,
    options: &FlatOptions,
    most_splits: u64,
) -> Result<NearFlatShapes<P>, Failure>
    ensures { IsNearBooleanAnswer I.unit P.item_of options.now most_splits (Ok (boolean_of boolean.now)) result }
{
    let Some(options) = options.options::<I>() else {
        return Err(Failure::Malformed);
    };
    validate(boolean)?;
    let mut count = SplitCount::new(most_splits);
    let near = overlay_shapes_with_nearness(
        alloc,
        &boolean.subject,
        &boolean.clip,
        boolean.rule,
        boolean.fill,
        options,
        &mut count,
    )?;
    Ok(NearFlatShapes {
        shapes: FlatShapes::of(alloc, &near.shapes)?,
        nearness: near.nearness,
    })
}
