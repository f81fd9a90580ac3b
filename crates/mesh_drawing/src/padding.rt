//! How far drawings reach from their points, and whether they stay in range so.

ghost use Rattle.std.specs.Prelude.{◌≡◌, ◌↔◌, IsTrue};
ghost use Rattle.mesh_drawing.specs.Drawn.{drawn_of};
ghost use Rattle.mesh_drawing.specs.Paddings.{DoesStayInRange, padding_in};

use crate::drawing::Drawing;
use i_overlay_mesh::outline::offset::IntOutlineOffset;
use i_overlay_mesh::stroke::offset::IntStrokeOffset;
use i_overlay_mesh::stroke::radius;
use i_overlay_mesh::variable_stroke::offset::IntVariableStrokeOffset;
use mesh_num::num::convert::widen;
use mesh_num::num::{IntNumber, OverlayInt};
use mesh_outline::bounds::outline_padding;
use mesh_variable_stroke::bounds;

/// How far a drawing reaches from its points at most, in each coordinate, in grid units.
pub fn padding<I: OverlayInt>(drawing: &Drawing<I>) -> i64
    ensures { result ≡ padding_in (drawn_of I.value drawing.now) }
{
    match drawing {
        Drawing::Outline(outline) => long::<I>(outline_padding(&outline.style)),
        Drawing::Stroke(stroke) => long::<I>(radius::padding(&stroke.style)),
        Drawing::VariableStroke(stroke) => widen(bounds::padding(&stroke.paths)) as i64,
    }
}

/// A wide number in 64 bits.
fn long<I: IntNumber>(wide: I::Wide) -> i64
    ensures { result ≡ I.Wide.value wide }
{
    I::wide_to_i128(wide) as i64
}

/// Whether each point of a drawing, moved by the padding, stays in the safe range.
pub fn stays_in_range<I: OverlayInt>(drawing: &Drawing<I>) -> bool
    ensures { IsTrue result ↔ DoesStayInRange I.unit (drawn_of I.value drawing.now) }
{
    match drawing {
        Drawing::Outline(outline) => outline.paths.validate_outline(&outline.style).is_ok(),
        Drawing::Stroke(stroke) => stroke.paths.validate_stroke(&stroke.style).is_ok(),
        Drawing::VariableStroke(stroke) => stroke.paths.validate_variable_stroke().is_ok(),
    }
}
