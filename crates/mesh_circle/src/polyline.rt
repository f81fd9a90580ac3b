//! The edges through the directions of an arc.

ghost use Rattle.std.specs.Prelude.{◌≡◌, ◌≤◌, map, length, take, vec_capacity, OnOk};
ghost use Rattle.mesh_plane.specs.Winding.{route};
ghost use Rattle.mesh_num.specs.Rectangle.{IsSafeWidened};
ghost use Rattle.mesh_join.specs.Appending.{Appends};
ghost use Rattle.mesh_join.specs.RoundJoins.{round_padding};
ghost use Rattle.mesh_circle.specs.Sweeps.{point_round as point_round_of};

use crate::vertex::point_round;
use mesh_join::route::push_straight;
use mesh_num::num::{IntNumber, IntPoint, UnitIntVector};
use mesh_num::shape::segment::Segment;
use std::alloc::AllocError;

/// Adds the edges from `from` through the points round a vertex in these directions to `to`.
pub(crate) fn push_points<I: IntNumber>(
    center: IntPoint<I>,
    from: IntPoint<I>,
    directions: &[UnitIntVector<I>],
    radius: I,
    to: IntPoint<I>,
    segments: &mut Vec<Segment<I>>,
) -> Result<(), AllocError>
    requires { IsSafeWidened I.unit (round_padding (I.value radius)) center }
    ensures ok { OnOk result (Appends segments.old segments.new
        (route from (map (point_round_of I.unit center (I.value radius)) directions.now) to)) }
    ensures kept { take (length segments.old.items) segments.new.items ≡ segments.old.items }
    ensures capacity { vec_capacity segments.old ≤ vec_capacity segments.new }
{
    let mut last = from;
    for direction in directions {
        let next = point_round(center, radius, *direction);
        push_straight(last, next, segments)?;
        last = next;
    }
    push_straight(last, to, segments)
}
