//! Half of the width of what is drawn.

ghost use Rattle.std.specs.Prelude.{◌≡◌, pos, ◌≤ℤ◌};
ghost use Rattle.mesh_offset.specs.Radii.{radius_of};

use mesh_num::num::IntNumber;
use mesh_num::num::convert::{narrow, widen};

/// Half of a width in grid units, rounded up; a width below 0 counts as 0.
pub fn stroke_radius<I: IntNumber>(width: I) -> I
    ensures value { I.value result ≡ radius_of (I.value width) }
    ensures least { pos 0 ≤ℤ I.value result }
{
    let width = widen(width);
    if width < 0 {
        return I::ZERO;
    }
    narrow((width + 1) / 2)
}
