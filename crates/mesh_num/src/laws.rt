//! Laws of the definitions that contracts cite. Each function does nothing, or returns the constants it is about; the
//! law is its contract.

ghost use Rattle.std.specs.Prelude.{◌≡◌, ◌^◌, pos};
ghost use Rattle.mesh_num.specs.Laws.{DirectionsAreUnique, FlatContoursAreFound};

use crate::num::number::IntNumber;
use crate::num::unit_vector::UnitIntVector;
pub use mesh_plane::laws::{
    closed_lists_balance, closed_lists_telescope, crossings_add_along_lines, crossings_are_odd,
    flat_triangles_do_not_wind, lengths_are_products, parallelograms_wind_once,
    rounded_is_monotone, rounded_is_nearest, rounded_is_odd, triangles_wind_once,
};
pub use mesh_sine::laws::sines_are_not_small;

/// Every vector other than 0 has exactly one direction.
pub fn directions_are_unique()
    ensures { DirectionsAreUnique }
{}

/// A buffer that holds contours, one range of points each, is a source of exactly these contours.
pub fn flat_contours_are_found()
    ensures { FlatContoursAreFound }
{}

/// `UnitIntVector::DENOMINATOR` is `UNIT`: 2^14 for `i16`, 2^30 for `i32`. It returns both.
pub fn denominators_are_units() -> (i16, i32)
    ensures units { result ≡ (⟦<i16 as IntNumber>⟧.UNIT, ⟦<i32 as IntNumber>⟧.UNIT) }
    ensures values { result ≡ (pos (2 ^ 14), pos (2 ^ 30)) }
{
    (
        UnitIntVector::<i16>::DENOMINATOR,
        UnitIntVector::<i32>::DENOMINATOR,
    )
}
