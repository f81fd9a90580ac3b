//! How far strokes reach, and half their width.

ghost use Rattle.std.specs.Prelude.{◌≡◌, pos, ◌≤ℤ◌};
ghost use Rattle.std.specs.Int.{int_max};
ghost use Rattle.mesh_stroke.specs.Caps.{cap_padding};
ghost use Rattle.mesh_stroke.specs.Kinds.{kind_of};
ghost use Rattle.mesh_stroke.specs.Styles.{stroke_padding, stroke_style_of};

use crate::cap::Cap;
use mesh_join::join::Join;
use mesh_join::style::{IntStrokeStyle, StrokeSide};
use mesh_num::num::IntNumber;
use mesh_num::num::convert::is_wide_less;
pub use mesh_offset::radius::stroke_radius;

/// How far a stroke in this style reaches from its path in x and in y, in grid units: the greatest padding of its joins
/// and caps, or for a half of its joins alone. Every style is accepted.
pub fn padding<I: IntNumber>(style: &IntStrokeStyle<I>) -> I::Wide
    ensures value { I.Wide.value result ≡ stroke_padding (stroke_style_of I.value style.now) }
    ensures least { pos 0 ≤ℤ I.Wide.value result }
{
    let radius = stroke_radius(style.width);
    let joins = Join::<I>::padding(style.join, radius);
    match style.side {
        StrokeSide::Both => greater::<I>(joins, caps_padding(style, radius)),
        StrokeSide::Left => joins,
        StrokeSide::Right => joins,
    }
}

/// How far caps of this style and radius reach from the ends of their path.
fn caps_padding<I: IntNumber>(style: &IntStrokeStyle<I>, radius: I) -> I::Wide
    ensures { I.Wide.value result ≡ int_max (cap_padding (kind_of style.now.start_cap) (I.value radius))
        (cap_padding (kind_of style.now.end_cap) (I.value radius)) }
{
    let start = Cap::padding(&style.start_cap, radius);
    let end = Cap::padding(&style.end_cap, radius);
    greater::<I>(start, end)
}

/// The greater of two wide numbers.
fn greater<I: IntNumber>(left: I::Wide, right: I::Wide) -> I::Wide
    ensures { I.Wide.value result ≡ int_max (I.Wide.value left) (I.Wide.value right) }
{
    if is_wide_less::<I>(left, right) {
        right
    } else {
        left
    }
}
