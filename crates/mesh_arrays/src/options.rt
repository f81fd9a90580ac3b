//! Options of shapes as other languages have them.

ghost use Rattle.std.specs.Prelude.{◌≡◌, option_map};
ghost use Rattle.mesh_below.specs.Options.{choices_of, is_clockwise};
ghost use Rattle.mesh_arrays.specs.Styles.{choices_in};

use crate::styles::flag;
use mesh_below::below::{ContourDirection, IntOverlayOptions};
use mesh_drawing::coordinate::narrowed_area;
use mesh_num::num::IntNumber;

/// What shapes depend on besides what is drawn.
#[repr(C)]
#[derive(Clone, Copy)]
pub struct FlatOptions {
    /// Contours of less area, in squares of the grid, are left out. It fits 32 bits where coordinates have 16.
    pub min_area: u64,
    /// Whether outer contours run clockwise and holes counterclockwise: 0 or 1.
    pub clockwise: u32,
    /// Whether vertices that contours run straight through stay: 0 or 1.
    pub collinear: u32,
}

impl FlatOptions {
    /// The options that these numbers stand for, where they do for some.
    pub fn options<I: IntNumber>(&self) -> Option<IntOverlayOptions<I::WideUInt>>
        ensures { option_map (λ o. choices_of I.WideUInt.value o) result ≡ choices_in I.unit self.now }
    {
        let min_output_area = narrowed_area::<I>(self.min_area as u128)?;
        let clockwise = flag(self.clockwise)?;
        let preserve_output_collinear = flag(self.collinear)?;
        Some(IntOverlayOptions {
            min_output_area,
            output_direction: direction(clockwise),
            preserve_output_collinear,
        })
    }
}

fn direction(clockwise: bool) -> ContourDirection
    ensures { is_clockwise result ≡ clockwise }
{
    if clockwise {
        ContourDirection::Clockwise
    } else {
        ContourDirection::CounterClockwise
    }
}
