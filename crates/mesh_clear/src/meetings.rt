//! Paths whose edges met, which may be told to be clear of each other by where they were cut.

ghost use Rattle.std.specs.Prelude.{◌<◌, ◌≤◌, IsTrue};
ghost use Rattle.mesh_paths.specs.Paths.{IsPieceOf};
ghost use Rattle.mesh_paths.specs.Stops.{count_of, pieces_of};
ghost use Rattle.mesh_check.specs.Bent.{AreClearPaths};
ghost use Rattle.mesh_clear.specs.Private.Looking.{AreBends};

use mesh_check::leading::lead_apart;
use mesh_check::zones::are_zones_clear;
use mesh_lattice::lattice::LatticePoint;
use mesh_paths::paths::{Paths, Piece};

/// Whether two paths lead apart from a stop that stands at these places of both, or are clear of each other by their
/// pieces near it, which are compared by so many comparisons as are left at most.
#[inline]
pub fn are_clear_from(
    paths: &Paths,
    bends: &[u64],
    first: Piece,
    second: Piece,
    left: &mut usize,
) -> bool
    requires bends { AreBends paths.now bends.now }
    requires first { first.path < count_of paths.now.stops }
    requires second { second.path < count_of paths.now.stops }
    requires first_place { first.place ≤ pieces_of paths.now.stops first.path }
    requires second_place { second.place ≤ pieces_of paths.now.stops second.path }
    ensures { IsTrue result → AreClearPaths paths.now first.path second.path }
{
    let first_units = bends[first.path as usize];
    let second_units = bends[second.path as usize];
    if lead_apart(paths, first, second, first_units, second_units) {
        return true;
    }
    are_zones_clear(paths, first, second, first_units, second_units, left)
}

/// The same of a stop that stands at a place of the first and at one of the few places about a piece of the second.
#[inline]
fn are_clear_beside(
    paths: &Paths,
    bends: &[u64],
    first: Piece,
    near: Piece,
    left: &mut usize,
) -> bool
    requires bends { AreBends paths.now bends.now }
    requires first { first.path < count_of paths.now.stops }
    requires first_place { first.place ≤ pieces_of paths.now.stops first.path }
    requires near { IsPieceOf paths.now near }
    ensures { IsTrue result → AreClearPaths paths.now first.path near.path }
{
    let id = paths.stops.stop(first.path as usize, first.place).id;
    let end = (near.place + 3).min(paths.stops.pieces(near.path as usize) + 1);
    for place in near.place.saturating_sub(1)..end {
        let second = Piece {
            path: near.path,
            place,
        };
        let is_common = paths.stops.stop(near.path as usize, place).id == id;
        if is_common && are_clear_from(paths, bends, first, second, left) {
            return true;
        }
    }
    false
}

/// The same of a stop of both that is one of the few of each about a point.
pub fn are_clear_near(
    paths: &Paths,
    bends: &[u64],
    first: u32,
    second: u32,
    at: LatticePoint,
    left: &mut usize,
) -> bool
    requires bends { AreBends paths.now bends.now }
    requires first { first < count_of paths.now.stops }
    requires second { second < count_of paths.now.stops }
    ensures { IsTrue result → AreClearPaths paths.now first second }
{
    let p = paths.near(first, at);
    let q = paths.near(second, at);
    let end = (p.place + 3).min(paths.stops.pieces(first as usize) + 1);
    for place in p.place.saturating_sub(1)..end {
        if are_clear_beside(paths, bends, Piece { path: first, place }, q, left) {
            return true;
        }
    }
    false
}
