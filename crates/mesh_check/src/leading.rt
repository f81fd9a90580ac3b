//! Whether paths lead apart from a stop of both.

ghost use Rattle.std.specs.Prelude.{◌≡◌, ℕ, ◌+◌, ◌<◌, ◌≤◌, ◌^◌, IsTrue, length};
ghost use Rattle.mesh_meeting.specs.Small.{HasSmallEnds};
ghost use Rattle.mesh_paths.specs.Paths.{ArePaths};
ghost use Rattle.mesh_paths.specs.Stops.{count_of, pieces_of, point_of};
ghost use Rattle.mesh_check.specs.Bent.{line_of, AreClearPaths, ArePointsSmall, IsBentBy};
ghost use Rattle.mesh_check.specs.Heights.{IsFarFromLine, LeadsAway};

use crate::heights::{beside, is_far, spread_of, units_for};
use mesh_lattice::lattice::LatticeEdge;
use mesh_paths::paths::{Paths, Piece};

/// The edge that a path began as.
#[inline]
pub fn line_of(paths: &Paths, path: u32) -> LatticeEdge
    requires { path < length paths.now.edges.items }
    ensures value { result ≡ line_of paths.now path }
    ensures small { HasSmallEnds (line_of paths.now path) → HasSmallEnds result }
{
    let e = paths.edges[path as usize];
    (e.start, e.end)
}

/// How far a path is bent: the least number of units that no stop of it lies farther beside the line of its edge.
pub fn bend_of(paths: &Paths, path: u32) -> u64
    requires paths { ArePaths paths.now }
    requires within { path < count_of paths.now.stops }
    requires line { HasSmallEnds (line_of paths.now path) }
    requires points { ArePointsSmall paths.now.points }
    ensures { IsBentBy paths.now path result }
{
    if paths.stops.pieces(path as usize) == 1 {
        return 0;
    }
    let line = line_of(paths, path);
    let mut most: u64 = 0;
    for place in 0..paths.stops.pieces(path as usize) + 1 {
        let at = paths.stops.stop(path as usize, place).at;
        most = most.max(beside(line, at));
    }
    units_for(most, spread_of(line))
}

/// Whether the stop at a place of a path lies more than so many units beside the line of an edge.
#[inline]
pub fn is_stop_far(paths: &Paths, path: u32, place: usize, line: LatticeEdge, units: u64) -> bool
    requires paths { ArePaths paths.now }
    requires within { path < count_of paths.now.stops }
    requires place { place ≤ pieces_of paths.now.stops path }
    requires line { HasSmallEnds line }
    requires points { ArePointsSmall paths.now.points }
    requires few { units < 2 ^ 31 }
    ensures { IsTrue result → IsFarFromLine units line (point_of paths.now.stops path place) }
{
    is_far(line, units, paths.stops.stop(path as usize, place).at)
}

/// Whether the stop before a place of a path, if there is one, lies more than so many units beside the line of an edge.
fn is_far_before(paths: &Paths, path: u32, place: usize, line: LatticeEdge, units: u64) -> bool
    requires paths { ArePaths paths.now }
    requires within { path < count_of paths.now.stops }
    requires place { place ≤ pieces_of paths.now.stops path }
    requires line { HasSmallEnds line }
    requires points { ArePointsSmall paths.now.points }
    requires few { units < 2 ^ 31 }
    ensures { IsTrue result → (j : ℕ) → j + 1 ≡ place → IsFarFromLine units line (point_of paths.now.stops path j) }
{
    if place == 0 {
        return true;
    }
    is_stop_far(paths, path, place - 1, line, units)
}

/// The same of the stop after it.
fn is_far_after(paths: &Paths, path: u32, place: usize, line: LatticeEdge, units: u64) -> bool
    requires paths { ArePaths paths.now }
    requires within { path < count_of paths.now.stops }
    requires line { HasSmallEnds line }
    requires points { ArePointsSmall paths.now.points }
    requires few { units < 2 ^ 31 }
    ensures { IsTrue result → place < pieces_of paths.now.stops path
        → IsFarFromLine units line (point_of paths.now.stops path (place + 1)) }
{
    if place >= paths.stops.pieces(path as usize) {
        return true;
    }
    is_stop_far(paths, path, place + 1, line, units)
}

/// Whether the stops before and after a place of a path lie more than so many units beside the line of an edge.
pub fn leads_away(paths: &Paths, path: u32, place: usize, line: LatticeEdge, units: u64) -> bool
    requires paths { ArePaths paths.now }
    requires within { path < count_of paths.now.stops }
    requires place { place ≤ pieces_of paths.now.stops path }
    requires line { HasSmallEnds line }
    requires points { ArePointsSmall paths.now.points }
    requires few { units < 2 ^ 31 }
    ensures { IsTrue result
        → LeadsAway units line (point_of paths.now.stops path) (pieces_of paths.now.stops path) place }
{
    if !is_far_before(paths, path, place, line, units) {
        return false;
    }
    is_far_after(paths, path, place, line, units)
}

/// Whether two paths lead apart from a stop of both, which stands at these places of them, so that no two pieces of them
/// meet but in ends. No stop lies more than `first_units` and `second_units` beside the line of its own path's edge.
pub fn lead_apart(
    paths: &Paths,
    first: Piece,
    second: Piece,
    first_units: u64,
    second_units: u64,
) -> bool
    requires paths { ArePaths paths.now }
    requires first { first.path < count_of paths.now.stops }
    requires second { second.path < count_of paths.now.stops }
    requires first_place { first.place ≤ pieces_of paths.now.stops first.path }
    requires second_place { second.place ≤ pieces_of paths.now.stops second.path }
    requires first_line { HasSmallEnds (line_of paths.now first.path) }
    requires second_line { HasSmallEnds (line_of paths.now second.path) }
    requires points { ArePointsSmall paths.now.points }
    requires first_few { first_units < 2 ^ 20 }
    requires second_few { second_units < 2 ^ 20 }
    requires first_bent { IsBentBy paths.now first.path first_units }
    requires second_bent { IsBentBy paths.now second.path second_units }
    ensures { IsTrue result → AreClearPaths paths.now first.path second.path }
{
    let a = paths.stops.stop(first.path as usize, first.place);
    let b = paths.stops.stop(second.path as usize, second.place);
    if a.id != b.id {
        return false;
    }
    let e = line_of(paths, first.path);
    let f = line_of(paths, second.path);
    let margin = second_units + (first_units + first_units);
    if !leads_away(paths, first.path, first.place, f, margin) {
        return false;
    }
    let margin = first_units + (second_units + second_units);
    leads_away(paths, second.path, second.place, e, margin)
}
