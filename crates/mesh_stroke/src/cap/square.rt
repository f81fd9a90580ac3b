//! Square caps.

ghost use Rattle.std.specs.Prelude.{◌≡◌, ◌≤◌, length, take, vec_capacity, IsOk, OnOk};
ghost use Rattle.mesh_plane.specs.Winding.{route};
ghost use Rattle.mesh_join.specs.Appending.{Appends, HasRoomForEdges};
ghost use Rattle.mesh_stroke.specs.Caps.{CapKind, IsCapped};
ghost use Rattle.mesh_stroke.specs.SquareCaps.{square_padding, square_points};

use crate::end::PathEnd;
use mesh_join::route::push_through_both;
use mesh_num::num::IntNumber;
use mesh_num::num::convert::widen;
use mesh_num::shape::segment::Segment;
use std::alloc::AllocError;

/// How far a square cap reaches from its end in each coordinate, in grid units.
pub(crate) fn padding<I: IntNumber>(radius: I) -> I::Wide
    ensures { I.Wide.value result ≡ square_padding (I.value radius) }
{
    I::wide_from_i128(2 * widen(radius).abs())
}

/// Adds the edges of a square cap.
pub(crate) fn add<I: IntNumber>(
    end: &PathEnd<I>,
    segments: &mut Vec<Segment<I>>,
) -> Result<(), AllocError>
    requires { IsCapped I.unit CapKind.Square end.now }
    ensures ok { OnOk result (Appends segments.old segments.new
        (route end.now.first (square_points I.unit end.now) end.now.last)) }
    ensures kept { take (length segments.old.items) segments.new.items ≡ segments.old.items }
    ensures room { HasRoomForEdges segments.old
        (route end.now.first (square_points I.unit end.now) end.now.last) → IsOk result }
    ensures capacity { vec_capacity segments.old ≤ vec_capacity segments.new }
{
    let outward = end.outward.scale(end.radius);
    push_through_both(
        end.right,
        end.right.moved(&outward),
        end.left.moved(&outward),
        end.left,
        segments,
    )
}
