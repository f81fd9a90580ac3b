//! Pairs of paths that are not known to be clear of each other.

ghost use Rattle.std.specs.Prelude.{◌<◌, ◌≤◌};
ghost use Rattle.std.specs.List.{All};
ghost use Rattle.mesh_pairs.specs.Pairs.{AreFound, IsClose, IsMeeting};
ghost use Rattle.mesh_paths.specs.Paths.{ArePaths};
ghost use Rattle.mesh_paths.specs.Stops.{count_of, pieces_of};
ghost use Rattle.mesh_clear.specs.Private.Looking.{AreBends};

use crate::bends::bends_of;
use crate::check::{Progress, is_meeting_clear, is_next_clear, is_pair_clear};
use crate::ends::is_clear_at_end;
use crate::fit::are_fit;
use crate::visits::{Visits, visits_of};
use mesh_pairs::pairs::{Meeting, Pairs};
use mesh_paths::paths::{Paths, Piece};
use std::alloc::{AllocError, Global};

/// How many pieces each path had when all pairs were looked at. What is not listed is taken for changed.
#[derive(Drop)]
pub struct Seen {
    pieces: Vec<u32>,
}

impl Seen {
    /// No path was seen.
    pub fn none(alloc: Global) -> Seen {
        Seen {
            pieces: Vec::new(alloc),
        }
    }

    /// All paths, as they are.
    pub fn all(alloc: Global, paths: &Paths) -> Result<Seen, AllocError>
        requires { ArePaths paths.now }
    {
        let mut pieces = Vec::with_capacity(alloc, paths.edges.len())?;
        for path in 0..paths.edges.len() {
            pieces.push(pieces_in(paths, path))?;
        }
        Ok(Seen { pieces })
    }

    /// Whether a path was cut since.
    fn is_changed(&self, paths: &Paths, path: u32) -> bool
        requires paths { ArePaths paths.now }
        requires path { path < count_of paths.now.stops }
    {
        let place = path as usize;
        place >= self.pieces.len() || self.pieces[place] != pieces_in(paths, place)
    }

    /// Whether one of two paths was cut since.
    fn is_either_changed(&self, paths: &Paths, pair: (u32, u32)) -> bool
        requires paths { ArePaths paths.now }
        requires first { pair.0 < count_of paths.now.stops }
        requires second { pair.1 < count_of paths.now.stops }
    {
        self.is_changed(paths, pair.0) || self.is_changed(paths, pair.1)
    }
}

/// How many pieces a path has.
fn pieces_in(paths: &Paths, path: usize) -> u32
    requires paths { ArePaths paths.now }
    requires path { path < count_of paths.now.stops }
{
    paths.stops.pieces(path).min(u32::MAX as usize) as u32
}

/// Adds the pairs that met of which a path was cut since, and that are not known to be clear.
fn push_changed_meetings(
    paths: &Paths,
    bends: &[u64],
    meetings: &[Meeting],
    seen: &Seen,
    left: &mut usize,
    doubts: &mut Vec<(u32, u32)>,
    most_doubts: usize,
) -> Result<(), AllocError>
    requires bends { AreBends paths.now bends.now }
    requires meetings { All (IsMeeting paths.now.edges.items) meetings.now }
{
    for m in meetings {
        if doubts.len() > most_doubts {
            return Ok(());
        }
        if seen.is_either_changed(paths, (m.first, m.second))
            && !is_meeting_clear(paths, bends, *m, left)
        {
            doubts.push((m.first, m.second))?;
        }
    }
    Ok(())
}

/// Adds the pairs from a place on that met and are not known to be clear.
fn push_meetings(
    paths: &Paths,
    bends: &[u64],
    visits: &mut Visits,
    meetings: &[Meeting],
    first: usize,
    left: &mut usize,
    doubts: &mut Vec<(u32, u32)>,
    most_doubts: usize,
) -> Result<(), AllocError>
    requires bends { AreBends paths.now bends.now }
    requires meetings { All (IsMeeting paths.now.edges.items) meetings.now }
{
    for k in first..meetings.len() {
        if doubts.len() > most_doubts {
            return Ok(());
        }
        let m = meetings[k];
        if !is_next_clear(paths, bends, visits, m, left) {
            doubts.push((m.first, m.second))?;
        }
    }
    Ok(())
}

/// Adds the close pairs of which a path was cut since, and that are not known to be clear.
fn push_close(
    paths: &Paths,
    bends: &[u64],
    close: &[(u32, u32)],
    seen: &Seen,
    left: &mut usize,
    doubts: &mut Vec<(u32, u32)>,
    most_doubts: usize,
) -> Result<(), AllocError>
    requires bends { AreBends paths.now bends.now }
    requires close { All (IsClose paths.now.edges.items) close.now }
{
    for pair in close {
        if doubts.len() > most_doubts {
            return Ok(());
        }
        if seen.is_either_changed(paths, *pair) && !is_pair_clear(paths, bends, *pair, left) {
            doubts.push(*pair)?;
        }
    }
    Ok(())
}

/// Adds the pairs of a path that has a stop at this place and of each later one that ends there, one of which was cut since,
/// that are not known to be clear.
fn push_at(
    paths: &Paths,
    bends: &[u64],
    end: Piece,
    seen: &Seen,
    left: &mut usize,
    doubts: &mut Vec<(u32, u32)>,
) -> Result<(), AllocError>
    requires bends { AreBends paths.now bends.now }
    requires end { end.path < count_of paths.now.stops }
    requires place { end.place ≤ pieces_of paths.now.stops end.path }
{
    let id = paths.stops.stop(end.path as usize, end.place).id;
    let mut rest = paths.through.last(id);
    while rest > 0 {
        let pass = paths.through.pass(rest - 1);
        if seen.is_either_changed(paths, (end.path, pass.path))
            && !is_clear_at_end(paths, bends, end, id, pass.path, left)
        {
            doubts.push((end.path, pass.path))?;
        }
        rest = pass.before;
    }
    Ok(())
}

/// Adds the pairs that share an end, of which a path was cut since, and that are not known to be clear.
fn push_ends(
    paths: &Paths,
    bends: &[u64],
    seen: &Seen,
    left: &mut usize,
    doubts: &mut Vec<(u32, u32)>,
    most_doubts: usize,
) -> Result<(), AllocError>
    requires { AreBends paths.now bends.now }
{
    for path in 0..paths.edges.len() {
        if doubts.len() > most_doubts {
            return Ok(());
        }
        let path = path as u32;
        push_at(paths, bends, Piece { path, place: 0 }, seen, left, doubts)?;
        let place = paths.stops.pieces(path as usize);
        push_at(paths, bends, Piece { path, place }, seen, left, doubts)?;
    }
    Ok(())
}

/// The pairs of paths whose edges met, were close or share an end, and whose pieces are not known to be clear of each other
/// after `most` comparisons of pieces, but for those that a check found clear before it gave up. No more are sought once there
/// are more than `most_doubts`. `None` where a path is bent by more than 8 units, and where a coordinate is not below 2^30
/// in size.
pub fn doubtful_pairs(
    alloc: Global,
    paths: &Paths,
    pairs: &Pairs,
    most: usize,
    most_doubts: usize,
    progress: Progress,
) -> Result<Option<Vec<(u32, u32)>>, AllocError>
    requires paths { ArePaths paths.now }
    requires found { AreFound paths.now.edges.items pairs.now }
{
    if !are_fit(paths) {
        return Ok(None);
    }
    let Some(bends) = bends_of(alloc, paths)? else {
        return Ok(None);
    };
    let mut visits = visits_of(alloc, paths)?;
    visits.next = visits.next.max(progress.next);
    let mut left = most;
    let mut doubts = Vec::new(alloc);
    push_meetings(
        paths,
        &bends,
        &mut visits,
        &pairs.meetings,
        progress.met,
        &mut left,
        &mut doubts,
        most_doubts,
    )?;
    let seen = Seen::none(alloc);
    push_close(
        paths,
        &bends,
        &pairs.close,
        &seen,
        &mut left,
        &mut doubts,
        most_doubts,
    )?;
    push_ends(paths, &bends, &seen, &mut left, &mut doubts, most_doubts)?;
    Ok(Some(doubts))
}

/// Those of them of which a path was cut since all were seen.
pub fn doubtful_pairs_since(
    alloc: Global,
    paths: &Paths,
    pairs: &Pairs,
    seen: &Seen,
    most: usize,
    most_doubts: usize,
) -> Result<Option<Vec<(u32, u32)>>, AllocError>
    requires paths { ArePaths paths.now }
    requires found { AreFound paths.now.edges.items pairs.now }
{
    if !are_fit(paths) {
        return Ok(None);
    }
    let Some(bends) = bends_of(alloc, paths)? else {
        return Ok(None);
    };
    let mut left = most;
    let mut doubts = Vec::new(alloc);
    push_changed_meetings(
        paths,
        &bends,
        &pairs.meetings,
        seen,
        &mut left,
        &mut doubts,
        most_doubts,
    )?;
    push_close(
        paths,
        &bends,
        &pairs.close,
        seen,
        &mut left,
        &mut doubts,
        most_doubts,
    )?;
    push_ends(paths, &bends, seen, &mut left, &mut doubts, most_doubts)?;
    Ok(Some(doubts))
}
