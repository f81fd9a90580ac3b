//! How near to its paths a stroke of lists and numbers holds each point for certain.

ghost use Rattle.std.specs.Prelude.{◌≡◌, Ok, IfOk};
ghost use Rattle.mesh_num.specs.Paths.{paths_of};
ghost use Rattle.mesh_offset.specs.Padding.{ArePathsSafe};
ghost use Rattle.mesh_stroke.specs.Styles.{stroke_padding, stroke_style_of};
ghost use Rattle.mesh_drawing.specs.Drawn.{drawn_of};
ghost use Rattle.mesh_drawing.specs.Paddings.{DoesStayInRange};
ghost use Rattle.mesh_arrays.specs.Failures.{read_as};
ghost use Rattle.mesh_arrays.specs.Reaches.{IsReachAnswer, IsStrokeReach, or_zero};
ghost use Rattle.mesh_arrays.specs.Telling.{LeavesNumber, TellsAnswer};

use crate::failure::Failure;
use crate::outcome::Outcome;
use crate::room::hand_over_number;
use mesh_drawing::drawing::{Drawing, Stroke};
use mesh_drawing::padding::stays_in_range;
use mesh_inner::reach::inner_reach;
use mesh_num::num::OverlayInt;
use std::alloc::{AllocError, Global};

/// Tells how near to its paths the drawing that was read holds each point for certain, as `reach` finds it. `Malformed`:
/// none was read. `OutOfRange`: what is drawn would pass the safe range. `OutOfMemory`: memory was refused. Where there
/// is no answer, what is told stays as it was.
pub fn tell_reach<I: OverlayInt>(
    alloc: Global,
    drawing: &Result<Drawing<I>, Failure>,
    told: &mut u64,
) -> Outcome
    ensures { TellsAnswer (IsReachAnswer I.unit (read_as (drawn_of I.value) drawing.now)) LeavesNumber told.old told.new
        result }
{
    let answer = reach(alloc, drawing);
    hand_over_number(&answer, told)
}

/// How near to its paths the drawing that was read holds each point for certain.
fn reach<I: OverlayInt>(
    alloc: Global,
    drawing: &Result<Drawing<I>, Failure>,
) -> Result<u64, Failure>
    ensures { IsReachAnswer I.unit (read_as (drawn_of I.value) drawing.now) result }
{
    match drawing {
        Ok(drawing) => drawn_reach(alloc, drawing),
        Err(failure) => Err(*failure),
    }
}

/// How near to its paths a drawing holds each point for certain, where it stays in range.
fn drawn_reach<I: OverlayInt>(alloc: Global, drawing: &Drawing<I>) -> Result<u64, Failure>
    ensures { IsReachAnswer I.unit (Ok (drawn_of I.value drawing.now)) result }
{
    if stays_in_range(drawing) {
        safe_reach(alloc, drawing)
    } else {
        Err(Failure::OutOfRange)
    }
}

/// How near to its paths a drawing holds each point for certain. Nothing is told of what is no stroke.
fn safe_reach<I: OverlayInt>(alloc: Global, drawing: &Drawing<I>) -> Result<u64, Failure>
    requires { DoesStayInRange I.unit (drawn_of I.value drawing.now) }
    ensures { IsReachAnswer I.unit (Ok (drawn_of I.value drawing.now)) result }
{
    match drawing {
        Drawing::Outline(_) => Ok(0),
        Drawing::Stroke(stroke) => Ok(stroke_reach(alloc, stroke)?),
        Drawing::VariableStroke(_) => Ok(0),
    }
}

/// The greatest number that `inner_reach` tells: the stroke of a path holds each point whose squared distance from a
/// section of it, in square grid units, is at most that. It is 0 where nothing is told.
fn stroke_reach<I: OverlayInt>(alloc: Global, stroke: &Stroke<I>) -> Result<u64, AllocError>
    requires { ArePathsSafe I.unit (stroke_padding (stroke_style_of I.value stroke.now.style))
        (paths_of stroke.now.paths.items) }
    ensures { IfOk result (λ reach. IsStrokeReach I.unit (stroke_style_of I.value stroke.now.style) stroke.now.closed
        (paths_of stroke.now.paths.items) reach) }
{
    let found = inner_reach(alloc, &stroke.style, &stroke.paths, stroke.closed)?;
    Ok(or_none(found))
}

/// The number, or 0 where there is none.
fn or_none(found: Option<u64>) -> u64
    ensures { result ≡ or_zero found }
{
    match found {
        None => 0,
        Some(reach) => reach,
    }
}
