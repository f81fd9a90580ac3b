//! Joins and caps: the room that they leave at the corners and ends of a path.

ghost use Rattle.std.specs.Prelude.{◌≡◌, IfOk, pos, ◌≤ℤ◌, unsigned_abs};
ghost use Rattle.mesh_plane.specs.Bounds.{IsSafe};
ghost use Rattle.mesh_plane.specs.Plane.{cross, minus, right_quarter};
ghost use Rattle.mesh_num.specs.Rectangle.{IsSafeWidened};
ghost use Rattle.mesh_num.specs.Segments.{proper_edges};
ghost use Rattle.mesh_stroke.specs.Caps.{cap_padding};
ghost use Rattle.mesh_stroke.specs.Ends.{half_turn};
ghost use Rattle.mesh_stroke.specs.Kinds.{kind_of};
ghost use Rattle.mesh_stroke.specs.Strokes.{cap_at, facing, heading, outer_edges, turns_right};
ghost use Rattle.mesh_inner.specs.Private.Walks.{IsFitCorner, IsFitEdge, IsLimit};
ghost use Rattle.mesh_inner.specs.Room.{FansHaveRoom};

use crate::fan::{way, with_fan};
use crate::section::{heading, reversed};
use mesh_arc::arc::ArcDirection;
use mesh_join::join::Join;
use mesh_join::style::IntLineCap;
use mesh_lattice::exact::cross;
use mesh_num::num::{IntNumber, IntPoint, IntVector, WideNumber};
use mesh_num::shape::DirectedEdge;
use mesh_num::shape::segment::Segment;
use mesh_stroke::cap::Cap;
use mesh_stroke::end::PathEnd;
use std::alloc::{AllocError, Global};

/// The lesser of a limit and that of the join between two edges that follow each other. `fan` is overwritten.
pub(crate) fn with_join<I: IntNumber>(
    limit: i128,
    join: &mut Join<I>,
    before: DirectedEdge<I>,
    after: DirectedEdge<I>,
    radius: I,
    fan: &mut Vec<Segment<I>>,
) -> Result<i128, AllocError>
    requires { IsFitCorner I.unit (I.value radius) join.old (before, after) }
    ensures limit { IfOk result (λ least. IsLimit least (λ t. (pos t ≤ℤ limit)
        × FansHaveRoom t (facing (before, after)).0.1
        (proper_edges (outer_edges I.unit (I.value radius) join.old (facing (before, after)))))) }
    ensures same { join.new ≡ join.old }
{
    if turns_right(before, after) {
        return with_facing(limit, join, reversed(after), reversed(before), radius, fan);
    }
    with_facing(limit, join, before, after, radius, fan)
}

/// Whether a path turns to the right from one edge to the next.
fn turns_right<I: IntNumber>(before: DirectedEdge<I>, after: DirectedEdge<I>) -> bool
    ensures { result ≡ turns_right (before, after) }
{
    cross(way(before.start, before.end), way(after.start, after.end)) < 0
}

/// The same for edges that do not turn to the right.
fn with_facing<I: IntNumber>(
    limit: i128,
    join: &mut Join<I>,
    before: DirectedEdge<I>,
    after: DirectedEdge<I>,
    radius: I,
    fan: &mut Vec<Segment<I>>,
) -> Result<i128, AllocError>
    requires corner { IsFitCorner I.unit (I.value radius) join.old (before, after) }
    requires facing { pos 0 ≤ℤ cross (minus before.1 before.0) (minus after.1 after.0) }
    ensures limit { IfOk result (λ least. IsLimit least (λ t. (pos t ≤ℤ limit) × FansHaveRoom t before.1
        (proper_edges (outer_edges I.unit (I.value radius) join.old (before, after))))) }
    ensures same { join.new ≡ join.old }
{
    let incoming = heading(before);
    let outgoing = heading(after);
    fan.clear();
    join.add(
        before.end,
        before.end.moved_right(&incoming.scale(radius)),
        after.start.moved_right(&outgoing.scale(radius)),
        incoming,
        outgoing,
        radius,
        ArcDirection::Counterclockwise,
        fan,
    )?;
    Ok(with_fan(limit, before.end, fan))
}

/// The lesser of a limit and that of the cap at the end of an edge.
pub(crate) fn with_cap<I: IntNumber>(
    limit: i128,
    alloc: Global,
    kind: &IntLineCap<I>,
    edge: DirectedEdge<I>,
    radius: I,
) -> Result<i128, AllocError>
    requires fit { IsFitEdge I.unit (I.value radius) edge }
    requires safe { IsSafeWidened I.unit (cap_padding (kind_of kind.now) (I.value radius)) edge.1 }
    requires sign { pos 0 ≤ℤ I.value radius }
    ensures { IfOk result (λ least. IsLimit least (λ t. (pos t ≤ℤ limit) × FansHaveRoom t edge.1
        (proper_edges (cap_at I.unit (I.value radius) (kind_of kind.now) edge)))) }
{
    let mut fan = Vec::new(alloc);
    let mut cap = Cap::new(alloc, kind);
    cap.add(&end_of(edge, radius), &mut fan)?;
    Ok(with_fan(limit, edge.end, &fan))
}

/// The end of an edge, where a cap is drawn.
fn end_of<I: IntNumber>(edge: DirectedEdge<I>, radius: I) -> PathEnd<I>
    requires { IsFitEdge I.unit (I.value radius) edge }
    ensures { result ≡ half_turn I.unit (I.value radius) edge.1 (heading I.unit edge) }
{
    let outward = heading(edge);
    let step = outward.scale(radius);
    PathEnd {
        center: edge.end,
        right: edge.end.moved_right(&step),
        left: left_of(edge.end, &step),
        outward,
        inward: outward.opposite(),
        radius,
    }
}

/// The point to the left of another by the length of a vector.
fn left_of<I: IntNumber>(point: IntPoint<I>, step: &IntVector<I>) -> IntPoint<I>
    requires { IsSafe I.unit (minus point (right_quarter step.now)) }
    ensures { result ≡ minus point (right_quarter step.now) }
{
    let x = point.x.to_wide().minus(step.y);
    let y = point.y.to_wide().plus(step.x);
    IntPoint::new(I::from_wide(x), I::from_wide(y))
}
