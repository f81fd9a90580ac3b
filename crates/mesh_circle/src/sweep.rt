//! How far arcs run counterclockwise round a vertex.

ghost use Rattle.std.specs.Prelude.{◌≡◌, ◌*◌};
ghost use Rattle.mesh_plane.specs.Bounds.{IsSafe};
ghost use Rattle.mesh_plane.specs.Plane.{minus};
ghost use Rattle.mesh_join.specs.Joints.{IsApart};
ghost use Rattle.mesh_circle.specs.Sweeps.{is_central as is_central_to, is_empty as is_empty_of};
ghost use Rattle.mesh_circle.specs.Sweeps.{is_major as is_major_of, is_whole as is_whole_of, sweep_of as sweep_between};

use crate::vertex::{direction, is_one_way};
use mesh_num::num::point::is_one_point;
use mesh_num::num::{IntNumber, IntPoint};

/// How far an arc runs counterclockwise.
#[derive(Debug, Clone, Copy, PartialEq, Eq)]
pub enum Sweep {
    /// By at most half a turn.
    Minor,
    /// By more than half a turn, up to a whole one.
    Major,
}

impl Sweep {
    fn is_major(self) -> bool
        ensures { result ≡ is_major_of self }
    {
        match self {
            Sweep::Minor => false,
            Sweep::Major => true,
        }
    }
}

/// How far the arc counterclockwise round a vertex from `from` to `to` runs.
pub(crate) fn sweep_of<I: IntNumber>(
    center: IntPoint<I>,
    from: IntPoint<I>,
    to: IntPoint<I>,
    aligned: Sweep,
) -> Sweep
    requires from { IsSafe (2 * I.unit) (minus from center) }
    requires to { IsSafe (2 * I.unit) (minus to center) }
    ensures { result ≡ sweep_between center from to aligned }
{
    let first = from - center;
    let last = to - center;
    let turn = I::wide_to_i128(first.cross_product(&last));
    if 0 < turn {
        return Sweep::Minor;
    }
    if turn < 0 {
        return Sweep::Major;
    }
    if I::wide_to_i128(first.dot_product(&last)) < 0 {
        return Sweep::Minor;
    }
    aligned
}

/// Whether an arc has no edges, since it is minor and ends where it begins.
pub(crate) fn is_empty<I: IntNumber>(sweep: Sweep, from: IntPoint<I>, to: IntPoint<I>) -> bool
    ensures { result ≡ is_empty_of sweep from to }
{
    !sweep.is_major() && is_one_point(from, to)
}

/// Whether an arc is one edge, since it begins or ends in its center.
pub(crate) fn is_central<I: IntNumber>(
    center: IntPoint<I>,
    from: IntPoint<I>,
    to: IntPoint<I>,
) -> bool
    ensures { result ≡ is_central_to center from to }
{
    is_one_point(from, center) || is_one_point(to, center)
}

/// Whether an arc runs round a whole circle, since it is major and both of its ends have one direction.
pub(crate) fn is_whole<I: IntNumber>(
    sweep: Sweep,
    center: IntPoint<I>,
    from: IntPoint<I>,
    to: IntPoint<I>,
) -> bool
    requires from { IsApart I.unit center from }
    requires to { IsApart I.unit center to }
    ensures { result ≡ is_whole_of I.unit sweep center from to }
{
    sweep.is_major() && is_one_way(direction(center, from), direction(center, to))
}
