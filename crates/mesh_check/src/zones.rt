//! Paths with a common stop, of which the pieces near it alone are compared.

ghost use Rattle.std.specs.Prelude.{◌+◌, ◌<◌, ◌≤◌, ◌^◌, IfSome, IsTrue};
ghost use Rattle.mesh_meeting.specs.Small.{HasSmallEnds};
ghost use Rattle.mesh_paths.specs.Paths.{ArePaths};
ghost use Rattle.mesh_paths.specs.Stops.{count_of, pieces_of, point_of};
ghost use Rattle.mesh_check.specs.Bent.{line_of, AreClearPaths, ArePointsSmall, IsBentBy};
ghost use Rattle.mesh_check.specs.Zones.{EndsZone, IsZoneAbout, StartsZone};

use crate::comparing::{Stretch, are_stretches_clear};
use crate::leading::{is_stop_far, line_of};
use mesh_lattice::lattice::LatticeEdge;
use mesh_paths::paths::{Paths, Piece};

/// A zone has at most so many pieces to each side of the stop.
const REACH: usize = 8;

/// Where a zone about a place of a path starts: at the next stop before it that lies more than so many units beside the
/// line of an edge, or where the path does. `None` where that is too far away.
fn zone_start(paths: &Paths, at: Piece, line: LatticeEdge, units: u64) -> Option<usize>
    requires paths { ArePaths paths.now }
    requires within { at.path < count_of paths.now.stops }
    requires place { at.place ≤ pieces_of paths.now.stops at.path }
    requires line { HasSmallEnds line }
    requires points { ArePointsSmall paths.now.points }
    requires few { units < 2 ^ 31 }
    ensures { IfSome result (λ start. StartsZone units line (point_of paths.now.stops at.path) at.place start) }
{
    for back in 1..REACH + 1 {
        if back >= at.place {
            return Some(0);
        }
        let start = at.place - back;
        if is_stop_far(paths, at.path, start, line, units) {
            return Some(start);
        }
    }
    None
}

/// Where it ends: the same to the other side.
fn zone_end(paths: &Paths, at: Piece, line: LatticeEdge, units: u64) -> Option<usize>
    requires paths { ArePaths paths.now }
    requires within { at.path < count_of paths.now.stops }
    requires place { at.place ≤ pieces_of paths.now.stops at.path }
    requires line { HasSmallEnds line }
    requires points { ArePointsSmall paths.now.points }
    requires few { units < 2 ^ 31 }
    ensures { IfSome result (λ end.
        EndsZone units line (point_of paths.now.stops at.path) (pieces_of paths.now.stops at.path) at.place end) }
{
    let pieces = paths.stops.pieces(at.path as usize);
    for on in 1..REACH + 1 {
        if on >= pieces - at.place {
            return Some(pieces);
        }
        let end = at.place + on;
        if is_stop_far(paths, at.path, end, line, units) {
            return Some(end);
        }
    }
    None
}

/// The zone of a path about a place of it.
fn zone_about(paths: &Paths, at: Piece, line: LatticeEdge, units: u64) -> Option<Stretch>
    requires paths { ArePaths paths.now }
    requires within { at.path < count_of paths.now.stops }
    requires place { at.place ≤ pieces_of paths.now.stops at.path }
    requires line { HasSmallEnds line }
    requires points { ArePointsSmall paths.now.points }
    requires few { units < 2 ^ 31 }
    ensures { IfSome result (λ zone. IsZoneAbout paths.now units line at zone) }
{
    let Some(start) = zone_start(paths, at, line, units) else {
        return None;
    };
    let Some(end) = zone_end(paths, at, line, units) else {
        return None;
    };
    Some(Stretch {
        path: at.path,
        start,
        end,
    })
}

/// Whether two paths are clear of each other by their pieces near a stop of both, which stands at these places of them:
/// up to where each lies so far beside the line of the other's edge that it cannot come back. No stop lies more than
/// `first_units` and `second_units` beside the line of its own path's edge. At most `left` comparisons are made.
/// `false` also where that does not tell.
#[cold]
pub fn are_zones_clear(
    paths: &Paths,
    first: Piece,
    second: Piece,
    first_units: u64,
    second_units: u64,
    left: &mut usize,
) -> bool
    requires paths { ArePaths paths.now }
    requires first { first.path < count_of paths.now.stops }
    requires second { second.path < count_of paths.now.stops }
    requires first_place { first.place ≤ pieces_of paths.now.stops first.path }
    requires second_place { second.place ≤ pieces_of paths.now.stops second.path }
    requires first_line { HasSmallEnds (line_of paths.now first.path) }
    requires second_line { HasSmallEnds (line_of paths.now second.path) }
    requires points { ArePointsSmall paths.now.points }
    requires first_few { first_units < 2 ^ 20 }
    requires second_few { second_units < 2 ^ 20 }
    requires first_bent { IsBentBy paths.now first.path first_units }
    requires second_bent { IsBentBy paths.now second.path second_units }
    ensures { IsTrue result → AreClearPaths paths.now first.path second.path }
{
    let a = paths.stops.stop(first.path as usize, first.place);
    let b = paths.stops.stop(second.path as usize, second.place);
    if a.id != b.id {
        return false;
    }
    let e = line_of(paths, first.path);
    let f = line_of(paths, second.path);
    let margin = second_units + (first_units + first_units);
    let Some(zone) = zone_about(paths, first, f, margin) else {
        return false;
    };
    let margin = first_units + (second_units + second_units);
    let Some(other) = zone_about(paths, second, e, margin) else {
        return false;
    };
    are_stretches_clear(paths, zone, other, left)
}
