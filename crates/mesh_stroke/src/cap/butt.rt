//! Butt caps.

ghost use Rattle.std.specs.Prelude.{◌≡◌, ◌≤◌, length, take, vec_capacity, IsOk, OnOk};
ghost use Rattle.mesh_plane.specs.Winding.{route};
ghost use Rattle.mesh_join.specs.Appending.{Appends, HasRoomForEdges};
ghost use Rattle.mesh_stroke.specs.ButtCaps.{butt_padding, butt_points};

use crate::end::PathEnd;
use mesh_join::route::push_straight;
use mesh_num::num::IntNumber;
use mesh_num::num::convert::wide_size;
use mesh_num::shape::segment::Segment;
use std::alloc::AllocError;

/// How far a butt cap reaches from its end in each coordinate, in grid units.
pub(crate) fn padding<I: IntNumber>(radius: I) -> I::Wide
    ensures { I.Wide.value result ≡ butt_padding (I.value radius) }
{
    wide_size::<I>(radius)
}

/// Adds the edge of a butt cap.
pub(crate) fn add<I: IntNumber>(
    end: &PathEnd<I>,
    segments: &mut Vec<Segment<I>>,
) -> Result<(), AllocError>
    ensures ok { OnOk result (Appends segments.old segments.new
        (route end.now.first (butt_points end.now) end.now.last)) }
    ensures kept { take (length segments.old.items) segments.new.items ≡ segments.old.items }
    ensures room { HasRoomForEdges segments.old (route end.now.first (butt_points end.now) end.now.last) → IsOk result }
    ensures capacity { vec_capacity segments.old ≤ vec_capacity segments.new }
{
    push_straight(end.right, end.left, segments)
}
