//! Whether what would be drawn of lists and numbers stays in range.

ghost use Rattle.mesh_drawing.specs.Drawn.{drawn_of};
ghost use Rattle.mesh_arrays.specs.Failures.{read_as};
ghost use Rattle.mesh_arrays.specs.Ranges.{IsRangeTold};

use crate::failure::Failure;
use crate::outcome::Outcome;
use mesh_drawing::drawing::Drawing;
use mesh_drawing::padding::{padding, stays_in_range};
use mesh_num::num::OverlayInt;

/// Tells how far the drawing that was read reaches from its points, and whether these stay in range so: `Answered` where
/// they do, else `OutOfRange`. Where none was read, what is told stays as it was.
pub fn tell_range<I: OverlayInt>(drawing: &Result<Drawing<I>, Failure>, told: &mut i64) -> Outcome
    ensures { IsRangeTold I.unit (read_as (drawn_of I.value) drawing.now) told.old told.new result }
{
    match drawing {
        Ok(drawing) => {
            *told = padding(drawing);
            if stays_in_range(drawing) {
                Outcome::Answered
            } else {
                Outcome::OutOfRange
            }
        }
        Err(failure) => Outcome::of(*failure),
    }
}
