//! The check of all pairs.

ghost use Rattle.std.specs.Prelude.{◌<◌, IsTrue, IfOk};
ghost use Rattle.std.specs.List.{All};
ghost use Rattle.mesh_pairs.specs.Pairs.{AreFound, IsClose, IsMeeting};
ghost use Rattle.mesh_paths.specs.Paths.{ArePaths};
ghost use Rattle.mesh_paths.specs.Stops.{count_of};
ghost use Rattle.mesh_check.specs.Bent.{AreClearPaths};
ghost use Rattle.mesh_clear.specs.AllClear.{AreAllClear};
ghost use Rattle.mesh_clear.specs.Private.Looking.{AreBends, IsClearMeeting, IsClearPair};

use crate::bends::bends_of;
use crate::ends::are_clear_at_ends;
use crate::fit::are_fit;
use crate::meetings::are_clear_near;
use crate::visits::{Visits, visits_of};
use mesh_check::close::are_parted;
use mesh_check::comparing::are_clear_by_pieces;
use mesh_check::leading::lead_apart;
use mesh_pairs::pairs::{Meeting, Pairs};
use mesh_paths::paths::{Paths, Piece};
use std::alloc::{AllocError, Global};

/// How far a check came: so many pairs that met were found clear, and the point of this number is looked at next.
#[derive(Copy, Clone)]
pub struct Progress {
    pub met: usize,
    pub next: usize,
}

/// No pair was looked at yet.
pub const NO_PROGRESS: Progress = Progress { met: 0, next: 0 };

/// Whether the paths of two edges that met are clear of each other.
pub fn is_meeting_clear(paths: &Paths, bends: &[u64], m: Meeting, left: &mut usize) -> bool
    requires bends { AreBends paths.now bends.now }
    requires meeting { IsMeeting paths.now.edges.items m }
    ensures { IsTrue result → IsClearMeeting paths.now m }
{
    if are_clear_near(paths, bends, m.first, m.second, m.near, left) {
        return true;
    }
    are_clear_by_pieces(paths, m.first, m.second, left)
}

/// Whether two paths lead apart from these places of them, whatever stands there.
#[inline]
fn lead_apart_at(paths: &Paths, bends: &[u64], first: Piece, second: Piece) -> bool
    requires bends { AreBends paths.now bends.now }
    requires first { first.path < count_of paths.now.stops }
    requires second { second.path < count_of paths.now.stops }
    ensures { IsTrue result → AreClearPaths paths.now first.path second.path }
{
    if first.place > paths.stops.pieces(first.path as usize) {
        return false;
    }
    if second.place > paths.stops.pieces(second.path as usize) {
        return false;
    }
    let first_units = bends[first.path as usize];
    let second_units = bends[second.path as usize];
    lead_apart(paths, first, second, first_units, second_units)
}

/// The same as `is_meeting_clear`, with a guess at the common stop.
#[inline]
pub fn is_next_clear(
    paths: &Paths,
    bends: &[u64],
    visits: &mut Visits,
    m: Meeting,
    left: &mut usize,
) -> bool
    requires bends { AreBends paths.now bends.now }
    requires meeting { IsMeeting paths.now.edges.items m }
    ensures { IsTrue result → IsClearMeeting paths.now m }
{
    if let Some((first, second)) = visits.common(m.first, m.second) {
        if lead_apart_at(paths, bends, first, second) {
            return true;
        }
    }
    is_meeting_clear(paths, bends, m, left)
}

fn are_meetings_clear(
    paths: &Paths,
    bends: &[u64],
    visits: &mut Visits,
    meetings: &[Meeting],
    left: &mut usize,
    met: &mut usize,
) -> bool
    requires bends { AreBends paths.now bends.now }
    requires meetings { All (IsMeeting paths.now.edges.items) meetings.now }
    ensures { IsTrue result → All (IsClearMeeting paths.now) meetings.now }
{
    for m in meetings {
        if !is_next_clear(paths, bends, visits, *m, left) {
            return false;
        }
        *met = (*met).saturating_add(1);
    }
    true
}

/// Whether the paths of two close edges are clear of each other.
pub fn is_pair_clear(paths: &Paths, bends: &[u64], pair: (u32, u32), left: &mut usize) -> bool
    requires bends { AreBends paths.now bends.now }
    requires pair { IsClose paths.now.edges.items pair }
    ensures { IsTrue result → IsClearPair paths.now pair }
{
    let first_units = bends[pair.0 as usize];
    let second_units = bends[pair.1 as usize];
    if are_parted(paths, pair.0, pair.1, first_units, second_units) {
        return true;
    }
    are_clear_by_pieces(paths, pair.0, pair.1, left)
}

fn are_close_clear(paths: &Paths, bends: &[u64], close: &[(u32, u32)], left: &mut usize) -> bool
    requires bends { AreBends paths.now bends.now }
    requires close { All (IsClose paths.now.edges.items) close.now }
    ensures { IsTrue result → All (IsClearPair paths.now) close.now }
{
    for pair in close {
        if !is_pair_clear(paths, bends, *pair, left) {
            return false;
        }
    }
    true
}

/// Whether any two pieces of paths are clear of each other, of two paths or of one: then they meet in ends alone, and no
/// cut is left to be made. `pairs` is what was known of the edges before they were cut. Pairs of paths that lines do not
/// part are compared piece by piece, by `most` comparisons in all. False also where these do not suffice, where a path
/// is bent by more than 8 units, and where a coordinate is not below 2^30 in size. `progress` tells how far it came. It
/// fails only where memory is refused.
pub fn are_all_clear(
    alloc: Global,
    paths: &Paths,
    pairs: &Pairs,
    most: usize,
    progress: &mut Progress,
) -> Result<bool, AllocError>
    requires paths { ArePaths paths.now }
    requires found { AreFound paths.now.edges.items pairs.now }
    ensures { IfOk result (λ clear. IsTrue clear → AreAllClear paths.now) }
{
    if !are_fit(paths) {
        return Ok(false);
    }
    let Some(bends) = bends_of(alloc, paths)? else {
        return Ok(false);
    };
    let mut visits = visits_of(alloc, paths)?;
    let mut left = most;
    let mut met = 0;
    if !are_meetings_clear(
        paths,
        &bends,
        &mut visits,
        &pairs.meetings,
        &mut left,
        &mut met,
    ) {
        *progress = Progress {
            met,
            next: visits.next,
        };
        return Ok(false);
    }
    progress.met = met;
    if !are_close_clear(paths, &bends, &pairs.close, &mut left) {
        return Ok(false);
    }
    let clear = are_clear_at_ends(paths, &bends, &mut left);
    Ok(clear)
}
