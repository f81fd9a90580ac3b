//! The range of coordinates that an outline reaches.

ghost use Rattle.std.specs.Prelude.{◌≡◌, ◌↔◌, ◌≤ℤ◌, pos, IsOk, OnErr};
ghost use Rattle.mesh_join.specs.Joins.{outline_padding};
ghost use Rattle.mesh_join.specs.Styles.{style_of};
ghost use Rattle.mesh_offset.specs.Padding.{ArePathsSafe};

use mesh_join::join::Join;
use mesh_join::style::IntOutlineStyle;
use mesh_num::num::IntNumber;
use mesh_num::num::convert::is_wide_less;
use mesh_num::shape::resource::IntShapeResource;
use mesh_offset::bounds::validate_bounds;
use mesh_offset::error::IntOutlineError;

/// `Ok` where each point of the source stays in the safe range where it moves by at most the style's padding, else
/// `CoordinateOutOfRange`.
pub(crate) fn validate_outline_bounds<I: IntNumber, S: IntShapeResource<I>>(
    source: &S,
    style: &IntOutlineStyle<I>,
) -> Result<(), IntOutlineError>
    ensures safe { IsOk result
        ↔ ArePathsSafe I.unit (outline_padding (style_of I.value style.now)) (S.paths source.now) }
    ensures error { OnErr result (result ≡ Err IntOutlineError.CoordinateOutOfRange) }
{
    validate_bounds(source, outline_padding(style))
}

/// How far an outline of this style reaches from its contours in each coordinate, in grid units: the greater padding of
/// both offsets' joins.
pub fn outline_padding<I: IntNumber>(style: &IntOutlineStyle<I>) -> I::Wide
    ensures value { I.Wide.value result ≡ outline_padding (style_of I.value style.now) }
    ensures least { pos 0 ≤ℤ I.Wide.value result }
{
    let outer = Join::<I>::padding(style.join, style.outer_offset);
    let inner = Join::<I>::padding(style.join, style.inner_offset);
    if is_wide_less::<I>(outer, inner) {
        inner
    } else {
        outer
    }
}
