//! Bevels.

ghost use Rattle.std.specs.Prelude.{◌≡◌, ◌≤◌, [], vec_capacity, IsOk, OnOk, OnErr};
ghost use Rattle.mesh_plane.specs.Winding.{route};
ghost use Rattle.mesh_join.specs.Appending.{Appends, HasRoomForEdges};
ghost use Rattle.mesh_join.specs.Bevels.{bevel_padding};

use mesh_num::num::convert::wide_size;
use mesh_num::num::{IntNumber, IntPoint};
use mesh_num::shape::segment::{Segment, SubjectSegments};
use std::alloc::AllocError;

/// How far a bevel reaches from its corner in each coordinate, in grid units.
pub(crate) fn padding<I: IntNumber>(radius: I) -> I::Wide
    ensures { I.Wide.value result ≡ bevel_padding (I.value radius) }
{
    wide_size::<I>(radius)
}

/// Adds the edge of a bevel from `a` to `b`.
pub(crate) fn add<I: IntNumber>(
    a: IntPoint<I>,
    b: IntPoint<I>,
    segments: &mut Vec<Segment<I>>,
) -> Result<(), AllocError>
    ensures ok { OnOk result (Appends segments.old segments.new (route a [] b)) }
    ensures err { OnErr result (segments.new.items ≡ segments.old.items) }
    ensures same_ends { a ≡ b → IsOk result }
    ensures room { HasRoomForEdges segments.old (route a [] b) → IsOk result }
    ensures capacity { vec_capacity segments.old ≤ vec_capacity segments.new }
{
    segments.push_non_degenerate(a, b)
}
