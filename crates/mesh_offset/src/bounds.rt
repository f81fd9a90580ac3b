//! The range of coordinates that drawn edges reach.

ghost use Rattle.std.specs.Prelude.{◌≡◌, ◌↔◌, ◌≤ℤ◌, pos, IsTrue, IsOk, OnErr};
ghost use Rattle.std.specs.List.{All};
ghost use Rattle.mesh_num.specs.Rectangle.{IsSafeRectangle, IsSafeWidened};
ghost use Rattle.mesh_plane.specs.Bounds.{IsSafe, IsSmall};
ghost use Rattle.mesh_offset.specs.Padding.{widened, ArePathsSafe};

use crate::error::IntOutlineError;
use mesh_num::num::convert::is_wide_less;
use mesh_num::num::{IntNumber, IntPoint, IntRect, WideNumber};
use mesh_num::shape::resource::IntShapeResource;

/// `Ok` where each point of the source stays in the safe range where it moves by at most the padding, in grid units,
/// else `CoordinateOutOfRange`. Takes no memory.
pub fn validate_bounds<I: IntNumber, S: IntShapeResource<I>>(
    source: &S,
    padding: I::Wide,
) -> Result<(), IntOutlineError>
    requires { pos 0 ≤ℤ I.Wide.value padding }
    ensures safe { IsOk result ↔ ArePathsSafe I.unit (I.Wide.value padding) (S.paths source.now) }
    ensures error { OnErr result (result ≡ Err IntOutlineError.CoordinateOutOfRange) }
{
    for index in 0..source.path_count() {
        if !is_path_safe(source.path_at(index), padding) {
            return Err(IntOutlineError::CoordinateOutOfRange);
        }
    }
    Ok(())
}

/// Whether each point of a path stays in the safe range where it moves by at most the padding, as in a path of no
/// point.
fn is_path_safe<I: IntNumber>(path: &[IntPoint<I>], padding: I::Wide) -> bool
    requires { pos 0 ≤ℤ I.Wide.value padding }
    ensures { IsTrue result ↔ All (λ p. IsSafeWidened I.unit (I.Wide.value padding) p) path.now }
{
    match IntRect::with_iter(path.iter()) {
        None => true,
        Some(bounds) => is_safe_widened(bounds, padding),
    }
}

/// Whether bounds moved outwards by the padding on each side are in the safe range. A padding of `UNIT` or more is too
/// great for any bounds, and nothing is added to it.
fn is_safe_widened<I: IntNumber>(bounds: IntRect<I>, padding: I::Wide) -> bool
    requires padding { pos 0 ≤ℤ I.Wide.value padding }
    requires ordered { bounds.0.0 ≤ℤ bounds.1.0 }
    ensures { IsTrue result ↔ IsSafeRectangle I.unit (widened (I.Wide.value padding) bounds) }
{
    if !is_wide_less::<I>(padding, unit::<I>()) {
        return false;
    }
    let low = are_safe::<I>(
        bounds.min_x.to_wide().minus(padding),
        bounds.min_y.to_wide().minus(padding),
    );
    let high = are_safe::<I>(
        bounds.max_x.to_wide().plus(padding),
        bounds.max_y.to_wide().plus(padding),
    );
    low && high
}

/// Whether both wide coordinates are in the safe range.
fn are_safe<I: IntNumber>(x: I::Wide, y: I::Wide) -> bool
    ensures { IsTrue result ↔ IsSafe I.unit (I.Wide.value x, I.Wide.value y) }
{
    is_safe::<I>(x) && is_safe::<I>(y)
}

/// Whether a wide coordinate is in the safe range.
fn is_safe<I: IntNumber>(coordinate: I::Wide) -> bool
    ensures { IsTrue result ↔ IsSmall I.unit (I.Wide.value coordinate) }
{
    let least = I::ZERO.to_wide().minus(unit::<I>());
    is_wide_less::<I>(least, coordinate) && is_wide_less::<I>(coordinate, unit::<I>())
}

/// The bound of the safe range.
fn unit<I: IntNumber>() -> I::Wide
    ensures { I.Wide.value result ≡ pos I.unit }
{
    I::UNIT.to_wide()
}
