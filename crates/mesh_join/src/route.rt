//! Edges through points. What a vector held stays, also after a refusal. Where it has room no call fails.

ghost use Rattle.std.specs.Prelude.{◌≡◌, [], ◌∷◌, ◌≤◌, length, take, vec_capacity, IsOk, OnOk};
ghost use Rattle.mesh_plane.specs.Winding.{route};
ghost use Rattle.mesh_join.specs.Appending.{Appends, HasRoomForEdges};

use mesh_num::num::{IntNumber, IntPoint};
use mesh_num::shape::segment::{Segment, SubjectSegments};
use std::alloc::AllocError;

/// Adds the edge from `a` to `b`, nothing where both are one point. It fails only where memory is refused: then the
/// vector still begins with what it held.
pub fn push_straight<I: IntNumber>(
    a: IntPoint<I>,
    b: IntPoint<I>,
    segments: &mut Vec<Segment<I>>,
) -> Result<(), AllocError>
    ensures ok { OnOk result (Appends segments.old segments.new (route a [] b)) }
    ensures kept { take (length segments.old.items) segments.new.items ≡ segments.old.items }
    ensures room { HasRoomForEdges segments.old (route a [] b) → IsOk result }
    ensures capacity { vec_capacity segments.old ≤ vec_capacity segments.new }
{
    segments.push_non_degenerate(a, b)
}

/// Adds the edges from `a` through `p` to `b`. It fails only where memory is refused: then the vector still begins with
/// what it held, and may have the first edge.
pub fn push_through<I: IntNumber>(
    a: IntPoint<I>,
    p: IntPoint<I>,
    b: IntPoint<I>,
    segments: &mut Vec<Segment<I>>,
) -> Result<(), AllocError>
    ensures ok { OnOk result (Appends segments.old segments.new (route a (p ∷ []) b)) }
    ensures kept { take (length segments.old.items) segments.new.items ≡ segments.old.items }
    ensures room { HasRoomForEdges segments.old (route a (p ∷ []) b) → IsOk result }
    ensures capacity { vec_capacity segments.old ≤ vec_capacity segments.new }
{
    push_straight(a, p, segments)?;
    push_straight(p, b, segments)
}

/// Adds the edges from `a` through `p` and `q` to `b`. It fails only where memory is refused: then the vector still
/// begins with what it held, and may have the first edges.
pub fn push_through_both<I: IntNumber>(
    a: IntPoint<I>,
    p: IntPoint<I>,
    q: IntPoint<I>,
    b: IntPoint<I>,
    segments: &mut Vec<Segment<I>>,
) -> Result<(), AllocError>
    ensures ok { OnOk result (Appends segments.old segments.new (route a (p ∷ q ∷ []) b)) }
    ensures kept { take (length segments.old.items) segments.new.items ≡ segments.old.items }
    ensures room { HasRoomForEdges segments.old (route a (p ∷ q ∷ []) b) → IsOk result }
    ensures capacity { vec_capacity segments.old ≤ vec_capacity segments.new }
{
    push_straight(a, p, segments)?;
    push_through(p, q, b, segments)
}
