//! Close paths, of which one may lie beside the other's line.

ghost use Rattle.std.specs.Prelude.{◌≡◌, ◌*◌, ◌^◌, ◌<◌, IsTrue, ◌⊎◌, pos, ◌<ℤ◌, ◌≤ℤ◌, neg_ℤ};
ghost use Rattle.mesh_meeting.specs.Small.{HasSmallEnds};
ghost use Rattle.mesh_pairs.specs.Laws.{spread};
ghost use Rattle.mesh_paths.specs.Paths.{ArePaths};
ghost use Rattle.mesh_paths.specs.Stops.{count_of};
ghost use Rattle.mesh_check.specs.Bent.{line_of, AreClearPaths, IsBentBy};
ghost use Rattle.mesh_check.specs.Clear.{LiesBeside};

use crate::heights::{height, spread_of};
use crate::leading::line_of;
use mesh_lattice::lattice::LatticeEdge;
use mesh_paths::paths::Paths;

/// Whether both heights lie on one side, by more than a limit.
#[inline]
fn are_beyond(start: i64, end: i64, limit: i64) -> bool
    requires few { limit <ℤ pos (2 ^ 63) }
    requires least { pos 0 ≤ℤ limit }
    ensures { IsTrue result → ((limit <ℤ start) × (limit <ℤ end)) ⊎ ((start <ℤ neg_ℤ limit) × (end <ℤ neg_ℤ limit)) }
{
    (start > limit && end > limit) || (start < -limit && end < -limit)
}

/// A distance beside the line of an edge, given in grid units, as a turn.
#[inline]
fn limit_of(e: LatticeEdge, units: u64) -> u64
    requires small { HasSmallEnds e }
    requires few { units < 2 ^ 30 }
    ensures value { result ≡ units * spread e }
    ensures few { result < 2 ^ 63 }
{
    units * spread_of(e)
}

/// Whether both ends of the second edge lie on one side of the first's line, more than so many units beside it.
#[inline]
fn lies_beside(e: LatticeEdge, f: LatticeEdge, units: u64) -> bool
    requires first { HasSmallEnds e }
    requires second { HasSmallEnds f }
    requires few { units < 2 ^ 30 }
    ensures { IsTrue result → LiesBeside units e f }
{
    let start = height(e, f.0);
    let end = height(e, f.1);
    are_beyond(start, end, limit_of(e, units) as i64)
}

/// Whether one of two paths lies beside the line of the other's edge by more than both are bent, so that no two pieces of
/// them meet. No stop lies more than `first_units` and `second_units` beside the line of its own path's edge.
pub fn are_parted(
    paths: &Paths,
    first: u32,
    second: u32,
    first_units: u64,
    second_units: u64,
) -> bool
    requires paths { ArePaths paths.now }
    requires first { first < count_of paths.now.stops }
    requires second { second < count_of paths.now.stops }
    requires first_line { HasSmallEnds (line_of paths.now first) }
    requires second_line { HasSmallEnds (line_of paths.now second) }
    requires first_few { first_units < 2 ^ 20 }
    requires second_few { second_units < 2 ^ 20 }
    requires first_bent { IsBentBy paths.now first first_units }
    requires second_bent { IsBentBy paths.now second second_units }
    ensures { IsTrue result → AreClearPaths paths.now first second }
{
    let e = line_of(paths, first);
    let f = line_of(paths, second);
    let units = first_units + second_units;
    if lies_beside(e, f, units) {
        return true;
    }
    lies_beside(f, e, units)
}
