//! Paths whose edges share an end.

ghost use Rattle.std.specs.Prelude.{◌↔◌, ◌<◌, ◌≤◌, ℕ, IsTrue};
ghost use Rattle.mesh_paths.specs.Stops.{count_of, pieces_of, stop_of};
ghost use Rattle.mesh_clear.specs.Private.Looking.{AreBends, AreClearIfCut, AreWhole, EndsAt, IsClearAt, IsClearAtEnds};

use crate::meetings::are_clear_from;
use mesh_check::comparing::are_clear_by_pieces;
use mesh_paths::paths::{Paths, Piece};

/// Whether neither of two edges was cut.
#[inline]
fn are_whole(paths: &Paths, first: u32, second: u32) -> bool
    requires first { first < count_of paths.now.stops }
    requires second { second < count_of paths.now.stops }
    ensures { IsTrue result ↔ AreWhole paths.now first second }
{
    if paths.stops.pieces(first as usize) != 1 {
        return false;
    }
    paths.stops.pieces(second as usize) == 1
}

/// Whether a path that has a stop at this place is clear of another one, if that is a later one that ends at the stop and
/// one of both was cut. `id` is the stop's number.
#[inline]
pub fn is_clear_at_end(
    paths: &Paths,
    bends: &[u64],
    end: Piece,
    id: u32,
    other: u32,
    left: &mut usize,
) -> bool
    requires bends { AreBends paths.now bends.now }
    requires end { end.path < count_of paths.now.stops }
    requires place { end.place ≤ pieces_of paths.now.stops end.path }
    requires other { other < count_of paths.now.stops }
    ensures { IsTrue result → end.path < other → EndsAt paths.now other id → AreClearIfCut paths.now end.path other }
{
    if other <= end.path {
        return true;
    }
    let e = paths.edges[other as usize];
    if e.from != id && e.to != id {
        return true;
    }
    if are_whole(paths, end.path, other) {
        return true;
    }
    let place = if e.from == id {
        0
    } else {
        paths.stops.pieces(other as usize)
    };
    if are_clear_from(paths, bends, end, Piece { path: other, place }, left) {
        return true;
    }
    are_clear_by_pieces(paths, end.path, other, left)
}

/// Whether a path that has a stop at this place is clear of all later ones that end there, but for two that were not cut.
fn is_clear_at(paths: &Paths, bends: &[u64], end: Piece, left: &mut usize) -> bool
    requires bends { AreBends paths.now bends.now }
    requires end { end.path < count_of paths.now.stops }
    requires place { end.place ≤ pieces_of paths.now.stops end.path }
    ensures { IsTrue result → IsClearAt paths.now end.path (stop_of paths.now.stops end.path end.place).id }
{
    let id = paths.stops.stop(end.path as usize, end.place).id;
    let mut rest = paths.through.last(id);
    while rest > 0 {
        let pass = paths.through.pass(rest - 1);
        if !is_clear_at_end(paths, bends, end, id, pass.path, left) {
            return false;
        }
        rest = pass.before;
    }
    true
}

/// Whether a path is clear of all later ones that share an end with it, but for two that were not cut.
fn is_clear_at_ends(paths: &Paths, bends: &[u64], path: u32, left: &mut usize) -> bool
    requires bends { AreBends paths.now bends.now }
    requires within { path < count_of paths.now.stops }
    ensures { IsTrue result → IsClearAtEnds paths.now path }
{
    if !is_clear_at(paths, bends, Piece { path, place: 0 }, left) {
        return false;
    }
    let place = paths.stops.pieces(path as usize);
    is_clear_at(paths, bends, Piece { path, place }, left)
}

/// Whether all paths that share an end are clear of each other, by at most `left` comparisons of pieces. Two edges that
/// were not cut are as clear as they were given.
pub fn are_clear_at_ends(paths: &Paths, bends: &[u64], left: &mut usize) -> bool
    requires { AreBends paths.now bends.now }
    ensures { IsTrue result → (j : ℕ) → j < count_of paths.now.stops → IsClearAtEnds paths.now j }
{
    for path in 0..paths.edges.len() {
        if !is_clear_at_ends(paths, bends, path as u32, left) {
            return false;
        }
    }
    true
}
