//! Custom caps.

ghost use Rattle.std.specs.Prelude.{◌≡◌, ◌*◌, ◌≤◌, length, take, vec_capacity, IsOk, OnOk};
ghost use Rattle.mesh_plane.specs.Plane.{length_sq};
ghost use Rattle.mesh_plane.specs.Winding.{route};
ghost use Rattle.mesh_num.specs.Roots.{raised_root};
ghost use Rattle.mesh_join.specs.Appending.{Appends, HasRoomForEdges};
ghost use Rattle.mesh_stroke.specs.Caps.{CapKind, IsCapped};
ghost use Rattle.mesh_stroke.specs.CustomCaps.{custom_padding, custom_points};

use crate::end::PathEnd;
use mesh_join::route::push_straight;
use mesh_num::num::convert::widen;
use mesh_num::num::root::raised_root;
use mesh_num::num::{IntNumber, IntPoint};
use mesh_num::shape::segment::Segment;
use std::alloc::AllocError;

/// How far a custom cap through these points reaches from its end in each coordinate, in grid units: the greatest
/// length of a point, raised to a whole number.
pub(crate) fn padding<I: IntNumber>(points: &[IntPoint<I>]) -> I::Wide
    ensures { I.Wide.value result ≡ custom_padding points.now }
{
    let mut greatest = 0u128;
    for point in points {
        let length = raised_length(*point);
        if greatest < length {
            greatest = length;
        }
    }
    I::wide_from_i128(greatest as i128)
}

// The length of a point, raised to a whole number.
fn raised_length<I: IntNumber>(point: IntPoint<I>) -> u128
    ensures value { result ≡ raised_root (length_sq point) }
    ensures most { result ≤ 4 * I.unit }
{
    let x = widen(point.x).unsigned_abs();
    let y = widen(point.y).unsigned_abs();
    raised_root(x * x + y * y)
}

/// Adds the edges of a custom cap. After a refusal the vector still begins with what it held.
pub(crate) fn add<I: IntNumber>(
    points: &[IntPoint<I>],
    end: &PathEnd<I>,
    segments: &mut Vec<Segment<I>>,
) -> Result<(), AllocError>
    requires { IsCapped I.unit (CapKind.Custom points.now) end.now }
    ensures ok { OnOk result (Appends segments.old segments.new
        (route end.now.first (custom_points points.now I.unit end.now) end.now.last)) }
    ensures kept { take (length segments.old.items) segments.new.items ≡ segments.old.items }
    ensures room { HasRoomForEdges segments.old
        (route end.now.first (custom_points points.now I.unit end.now) end.now.last) → IsOk result }
    ensures capacity { vec_capacity segments.old ≤ vec_capacity segments.new }
{
    let mut last = end.right;
    for point in points {
        let next = end.center.moved(&end.outward.rotate(*point));
        push_straight(last, next, segments)?;
        last = next;
    }
    push_straight(last, end.left, segments)
}
