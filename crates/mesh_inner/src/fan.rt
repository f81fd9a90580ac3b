//! The room that triangles round a corner leave.

ghost use Rattle.std.specs.Prelude.{◌≡◌, ◌^◌, pos, ◌-ℤ◌, ◌≤ℤ◌};
ghost use Rattle.mesh_plane.specs.Bounds.{IsSafe, IsSmall};
ghost use Rattle.mesh_plane.specs.Plane.{dot, minus};
ghost use Rattle.mesh_num.specs.Segments.{edges_of};
ghost use Rattle.mesh_inner.specs.Private.Walks.{IsLimit};
ghost use Rattle.mesh_inner.specs.Room.{HasRoom, FansHaveRoom};

use mesh_lattice::exact::{Vector, cross, product};
use mesh_num::num::convert::widen;
use mesh_num::num::{IntNumber, IntPoint};
use mesh_num::shape::segment::Segment;

/// The way from one point to another.
pub(crate) fn way<I: IntNumber>(from: IntPoint<I>, to: IntPoint<I>) -> Vector
    ensures value { result ≡ minus to from }
    ensures size { IsSafe (2 ^ 32) result }
{
    (difference(to.x, from.x), difference(to.y, from.y))
}

fn difference<I: IntNumber>(a: I, b: I) -> i128
    ensures value { result ≡ (I.value a -ℤ I.value b) }
    ensures size { IsSmall (2 ^ 32) result }
{
    widen(a) - widen(b)
}

/// The dot product of two ways.
pub(crate) fn dot(v: Vector, w: Vector) -> i128
    requires v_small { IsSafe (2 ^ 32) v }
    requires w_small { IsSafe (2 ^ 32) w }
    ensures value { result ≡ dot v w }
    ensures size { IsSmall (2 ^ 65) result }
{
    product(v.0, w.0) + product(v.1, w.1)
}

/// The greatest number for which a triangle over the edge from `v` to `w` leaves room round the point that both are seen
/// from; below 0 where there is none.
fn room(v: Vector, w: Vector) -> i128
    requires v_small { IsSafe (2 ^ 32) v }
    requires w_small { IsSafe (2 ^ 32) w }
    ensures { IsLimit result (λ t. HasRoom t v w) }
{
    if cross(v, w) < 0 {
        return -1;
    }
    let first = dot(v, v);
    let last = dot(w, w);
    let between = dot(v, w);
    let ends = (2 * first).min(2 * last);
    ends.min(first + between).min(last + between)
}

/// The lesser of a limit and that of the triangles from a corner over the edges of a fan.
pub(crate) fn with_fan<I: IntNumber>(limit: i128, corner: IntPoint<I>, fan: &[Segment<I>]) -> i128
    ensures { IsLimit result (λ t. (pos t ≤ℤ limit) × FansHaveRoom t corner (edges_of fan.now)) }
{
    let mut least = limit;
    for segment in fan {
        let edge = segment.edge();
        least = least.min(room(way(corner, edge.start), way(corner, edge.end)));
    }
    least
}
