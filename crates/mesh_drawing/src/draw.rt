//! What is drawn of paths, as it is asked for.

ghost use Rattle.std.specs.Prelude.{◌≡◌, ◌↔◌, OnOk, IfOk};
ghost use Rattle.mesh_num.specs.Paths.{shapes_of};
ghost use Rattle.mesh_below.specs.Options.{choices_of};
ghost use Rattle.mesh_offset.specs.Errors.{of_offset};
ghost use Rattle.mesh_drawing.specs.Answers.{IsDrawn, PassesLimit};
ghost use Rattle.mesh_drawing.specs.Order.{by_values};
ghost use Rattle.mesh_drawing.specs.Drawn.{drawn_of};
ghost use Rattle.mesh_drawing.specs.Drawings.{DoAreasFit, MayBeDrawn};
ghost use Rattle.mesh_drawing.specs.Nearness.{AreShapesWithin, TakesMoreSplits};
ghost use Rattle.mesh_drawing.specs.Paddings.{DoesStayInRange};

use crate::asked::{Answer, Asked, Output};
use crate::drawable::{Drawable, ShapeOptions};
use crate::drawing::Drawing;
use i_overlay_mesh::IntOutlineError;
use mesh_below::below::IntOverlayOptions;
use mesh_below::nearness::{NearShapes, SplitCount};
use mesh_num::num::OverlayInt;
use mesh_offset::error::IntNearnessError;
use std::alloc::Global;

/// What is asked of a drawing: the edges of each path, or the shapes of all paths together. `CoordinateOutOfRange`: it
/// may not be drawn, since what is drawn would pass the safe range, or an area its type. `TooManySplits`: shapes took
/// more splits than the limit that is set. `OutOfMemory`: memory was refused.
pub fn draw<I: OverlayInt>(
    alloc: Global,
    drawing: &Drawing<I>,
    asked: Asked<I::WideUInt>,
) -> Result<Answer<I>, IntNearnessError>
    ensures drawn { IfOk result
        (IsDrawn (by_values I.cmp I.of_value) I.unit I.WideUInt.value (drawn_of I.value drawing.now) asked) }
    ensures accepted { OnOk result (MayBeDrawn I.unit (drawn_of I.value drawing.now)) }
    ensures refused { result ≡ Err IntNearnessError.CoordinateOutOfRange
        ↔ ¬ MayBeDrawn I.unit (drawn_of I.value drawing.now) }
    ensures past { result ≡ Err IntNearnessError.TooManySplits
        → PassesLimit I.unit (drawn_of I.value drawing.now) asked }
{
    match drawing {
        Drawing::Outline(outline) => draw_one(alloc, outline, asked),
        Drawing::Stroke(stroke) => draw_one(alloc, stroke, asked),
        Drawing::VariableStroke(stroke) => draw_one(alloc, stroke, asked),
    }
}

/// The error of a call that sets no limit.
pub fn without_limit(error: IntNearnessError) -> IntOutlineError
    requires { ¬ error ≡ IntNearnessError.TooManySplits }
    ensures { error ≡ of_offset result }
{
    match error {
        IntNearnessError::CoordinateOutOfRange => IntOutlineError::CoordinateOutOfRange,
        IntNearnessError::OutOfMemory => IntOutlineError::OutOfMemory,
        IntNearnessError::TooManySplits => unreachable!(),
    }
}

fn draw_one<I: OverlayInt, D: Drawable<I>>(
    alloc: Global,
    drawing: &D,
    asked: Asked<I::WideUInt>,
) -> Result<Answer<I>, IntNearnessError>
    ensures drawn { IfOk result
        (IsDrawn (by_values I.cmp I.of_value) I.unit I.WideUInt.value (D.drawn drawing.now) asked) }
    ensures accepted { OnOk result (MayBeDrawn I.unit (D.drawn drawing.now)) }
    ensures refused { result ≡ Err IntNearnessError.CoordinateOutOfRange
        ↔ ¬ MayBeDrawn I.unit (D.drawn drawing.now) }
    ensures past { result ≡ Err IntNearnessError.TooManySplits → PassesLimit I.unit (D.drawn drawing.now) asked }
{
    drawing.validate()?;
    listed(alloc, drawing, asked)
}

/// What is asked of a drawing that stays in range.
fn listed<I: OverlayInt, D: Drawable<I>>(
    alloc: Global,
    drawing: &D,
    asked: Asked<I::WideUInt>,
) -> Result<Answer<I>, IntNearnessError>
    requires { DoesStayInRange I.unit (D.drawn drawing.now) }
    ensures drawn { IfOk result
        (IsDrawn (by_values I.cmp I.of_value) I.unit I.WideUInt.value (D.drawn drawing.now) asked) }
    ensures unfit { result ≡ Err IntNearnessError.CoordinateOutOfRange ↔ ¬ DoAreasFit I.unit (D.drawn drawing.now) }
    ensures past { result ≡ Err IntNearnessError.TooManySplits → PassesLimit I.unit (D.drawn drawing.now) asked }
{
    let is_plain = asked.is_plain();
    let most_splits = asked.most_splits;
    match asked.output {
        Output::Edges => Ok(Answer::Edges(drawing.edges(alloc)?)),
        Output::Shapes(options) => {
            if is_plain {
                Ok(Answer::Shapes(drawing.shapes(alloc, &ShapeOptions(options))?))
            } else {
                let near = near_shapes(alloc, drawing, options, most_splits)?;
                Ok(Answer::NearShapes(near))
            }
        }
    }
}

/// The shapes and their nearness, of no more splits than may be made.
fn near_shapes<I: OverlayInt, D: Drawable<I>>(
    alloc: Global,
    drawing: &D,
    options: IntOverlayOptions<I::WideUInt>,
    most_splits: u64,
) -> Result<NearShapes<I>, IntNearnessError>
    requires { DoesStayInRange I.unit (D.drawn drawing.now) }
    ensures shapes { IfOk result (λ near. AreShapesWithin most_splits near.nearness I.unit
        (choices_of I.WideUInt.value options) (D.drawn drawing.now) (shapes_of near.shapes.items)) }
    ensures unfit { result ≡ Err IntNearnessError.CoordinateOutOfRange ↔ ¬ DoAreasFit I.unit (D.drawn drawing.now) }
    ensures past { result ≡ Err IntNearnessError.TooManySplits
        → TakesMoreSplits most_splits I.unit (D.drawn drawing.now) }
{
    let mut count = SplitCount::new(most_splits);
    drawing.near_shapes(alloc, &ShapeOptions(options), &mut count)
}
