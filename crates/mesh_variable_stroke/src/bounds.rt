//! The range of coordinates that strokes of variable width reach.

ghost use Rattle.std.specs.Prelude.{◌≡◌, ◌↔◌, ◌≤ℤ◌, pos, IsTrue, IsOk, OnErr};
ghost use Rattle.mesh_num.specs.Rectangle.{IsSafeWidened};
ghost use Rattle.mesh_variable_stroke.specs.Drawn.{greatest_radius as greatest_radius_of, AreStrokable};
ghost use Rattle.mesh_variable_stroke.specs.Private.RoomLeft.{IsRoomLeft};
ghost use Rattle.mesh_variable_stroke.specs.Strokable.{padding_of, ArePathsStrokable};

use crate::resource::IntVariableStrokeSource;
use mesh_join::style::IntStrokeVertex;
use mesh_num::num::convert::{greater, widen};
use mesh_num::num::{IntNumber, IntPoint};
use mesh_offset::error::{IntOutlineError, IntVariableStrokeError};
use mesh_offset::radius::stroke_radius;

/// `Ok` where each vertex of the source stays in the safe range where it moves by at most the greatest radius of all,
/// else `CoordinateOutOfRange`. Takes no memory.
pub(crate) fn validate_vertices<I: IntNumber, S: IntVariableStrokeSource<I>>(
    source: &S,
) -> Result<(), IntVariableStrokeError>
    ensures safe { IsOk result ↔ ArePathsStrokable I.unit (S.paths source.now) }
    ensures error { OnErr result (result ≡ Err IntOutlineError.CoordinateOutOfRange) }
{
    let padding = padding(source);
    for index in 0..source.path_count() {
        if !is_strokable(source.path_at(index), padding) {
            return Err(IntOutlineError::CoordinateOutOfRange);
        }
    }
    Ok(())
}

/// How far the strokes of a source reach from its vertices in each coordinate, in grid units: the greatest radius of all,
/// 0 where there is none.
pub fn padding<I: IntNumber, S: IntVariableStrokeSource<I>>(source: &S) -> I
    ensures value { I.value result ≡ padding_of (S.paths source.now) }
    ensures least { pos 0 ≤ℤ I.value result }
{
    let mut padding = I::ZERO;
    for index in 0..source.path_count() {
        padding = greater(padding, greatest_radius(source.path_at(index)));
    }
    padding
}

/// The greatest radius of the vertices of a path, 0 where there is none.
fn greatest_radius<I: IntNumber>(path: &[IntStrokeVertex<I>]) -> I
    ensures { I.value result ≡ greatest_radius_of path.now }
{
    let mut radius = I::ZERO;
    for vertex in path {
        radius = greater(radius, stroke_radius(vertex.width));
    }
    radius
}

/// Whether each vertex of a path stays in the safe range where it moves by at most the padding.
fn is_strokable<I: IntNumber>(path: &[IntStrokeVertex<I>], padding: I) -> bool
    requires { pos 0 ≤ℤ I.value padding }
    ensures { IsTrue result ↔ AreStrokable I.unit (I.value padding) path.now }
{
    for vertex in path {
        if !is_safe_widened(vertex.point, padding) {
            return false;
        }
    }
    true
}

/// Whether a point stays in the safe range where it moves by at most the padding.
fn is_safe_widened<I: IntNumber>(point: IntPoint<I>, padding: I) -> bool
    requires { pos 0 ≤ℤ I.value padding }
    ensures { IsTrue result ↔ IsSafeWidened I.unit (I.value padding) point }
{
    has_room(point.x, padding) && has_room(point.y, padding)
}

/// Whether a coordinate stays in the safe range where it moves by at most the padding. The sum is taken in 128 bits,
/// which hold it for every value.
fn has_room<I: IntNumber>(coordinate: I, padding: I) -> bool
    requires { pos 0 ≤ℤ I.value padding }
    ensures { IsTrue result ↔ IsRoomLeft I.unit (I.value padding) (I.value coordinate) }
{
    let size = widen(coordinate).unsigned_abs();
    let reach = widen(padding).unsigned_abs();
    size + reach < widen(I::UNIT).unsigned_abs()
}
