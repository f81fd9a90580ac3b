//! Pieces of two paths, or of stretches of them, compared with each other.

ghost use Rattle.std.specs.Prelude.{◌↔◌, ◌≡◌, ◌<◌, ◌≤◌, IfErr, IfSome, IsTrue, OnOk};
ghost use Rattle.mesh_lattice.specs.Split.{AreClear};
ghost use Rattle.mesh_paths.specs.Paths.{edge_of, ArePaths, IsPieceOf};
ghost use Rattle.mesh_paths.specs.Stops.{count_of, pieces_of};
ghost use Rattle.mesh_check.specs.Bent.{AreClearPaths};
ghost use Rattle.mesh_check.specs.Clear.{ends_of_stretch, AreClearStretches, IsStretchOf};

use mesh_lattice::exact::are_boxes_apart;
use mesh_lattice::lattice::LatticeEdge;
use mesh_meeting::meeting::any_meeting;
use mesh_paths::paths::{Paths, Piece};

/// The pieces of a path from one place to before another.
#[derive(Copy, Clone)]
pub struct Stretch {
    pub path: u32,
    pub start: usize,
    pub end: usize,
}

/// The part of a stretch before a place.
#[inline]
fn before(stretch: Stretch, place: usize) -> Stretch
    ensures { result ≡ record { path = stretch.path; start = stretch.start; end = place } }
{
    Stretch {
        path: stretch.path,
        start: stretch.start,
        end: place,
    }
}

/// The part of a stretch from a place on.
#[inline]
fn after(stretch: Stretch, place: usize) -> Stretch
    ensures { result ≡ record { path = stretch.path; start = place; end = stretch.end } }
{
    Stretch {
        path: stretch.path,
        start: place,
        end: stretch.end,
    }
}

/// The first piece of a stretch.
#[inline]
fn start_of(stretch: Stretch) -> Piece
    ensures { result ≡ record { path = stretch.path; place = stretch.start } }
{
    Piece {
        path: stretch.path,
        place: stretch.start,
    }
}

/// Where a piece lies.
#[inline]
fn edge_of(paths: &Paths, piece: Piece) -> LatticeEdge
    requires paths { ArePaths paths.now }
    requires piece { IsPieceOf paths.now piece }
    ensures { result ≡ edge_of paths.now piece }
{
    let ends = paths.ends(piece);
    (ends.0.at, ends.1.at)
}

/// The stop with which a stretch starts and the one with which it ends.
#[inline]
fn ends_of(paths: &Paths, stretch: Stretch) -> LatticeEdge
    requires paths { ArePaths paths.now }
    requires within { IsStretchOf paths.now stretch }
    requires some { stretch.start ≤ stretch.end }
    ensures { result ≡ ends_of_stretch paths.now stretch }
{
    let start = paths.stops.stop(stretch.path as usize, stretch.start);
    let end = paths.stops.stop(stretch.path as usize, stretch.end);
    (start.at, end.at)
}

/// Whether the boxes of two stretches have no point in common. A path never turns back, so the box of a stretch is that of
/// its ends.
#[inline]
fn are_apart(paths: &Paths, first: Stretch, second: Stretch) -> bool
    requires paths { ArePaths paths.now }
    requires first { IsStretchOf paths.now first }
    requires second { IsStretchOf paths.now second }
    requires first_some { first.start ≤ first.end }
    requires second_some { second.start ≤ second.end }
    ensures { IsTrue result → AreClearStretches paths.now first second }
{
    are_boxes_apart(ends_of(paths, first), ends_of(paths, second))
}

/// Whether two pieces are clear of each other.
#[inline]
fn are_pieces_clear(paths: &Paths, first: Piece, second: Piece) -> bool
    requires paths { ArePaths paths.now }
    requires first { IsPieceOf paths.now first }
    requires second { IsPieceOf paths.now second }
    ensures { IsTrue result ↔ AreClear (edge_of paths.now first) (edge_of paths.now second) }
{
    match any_meeting(edge_of(paths, first), edge_of(paths, second)) {
        Some(_) => false,
        None => true,
    }
}

/// Compares the pieces of two stretches, by so many comparisons as are left at most: of stretches whose boxes are not
/// apart, the halves of the one that has more pieces. The error is two pieces that meet, or nothing where no comparison
/// is left.
pub fn compare(
    paths: &Paths,
    first: Stretch,
    second: Stretch,
    left: &mut usize,
) -> Result<(), Option<(Piece, Piece)>>
    requires paths { ArePaths paths.now }
    requires first { IsStretchOf paths.now first }
    requires second { IsStretchOf paths.now second }
    ensures clear { OnOk result (AreClearStretches paths.now first second) }
    ensures pieces { IfErr result (λ e. IfSome e (λ m. IsPieceOf paths.now m.0 × IsPieceOf paths.now m.1)) }
    ensures fewer { left.new ≤ left.old }
    ensures spent { IfErr result (λ e. IfSome e (λ m. left.new < left.old)) }
{
    if first.start >= first.end || second.start >= second.end {
        return Ok(());
    }
    if *left == 0 {
        return Err(None);
    }
    *left -= 1;
    if are_apart(paths, first, second) {
        return Ok(());
    }
    let pieces = first.end - first.start;
    let others = second.end - second.start;
    if pieces >= others && pieces > 1 {
        let middle = first.start + pieces / 2;
        compare(paths, before(first, middle), second, left)?;
        return compare(paths, after(first, middle), second, left);
    }
    if others > 1 {
        let middle = second.start + others / 2;
        compare(paths, first, before(second, middle), left)?;
        return compare(paths, first, after(second, middle), left);
    }
    let p = start_of(first);
    let q = start_of(second);
    if !are_pieces_clear(paths, p, q) {
        return Err(Some((p, q)));
    }
    Ok(())
}

/// Whether all pieces of two stretches are clear of each other, by so many comparisons as are left at most: false where
/// these do not tell.
pub fn are_stretches_clear(paths: &Paths, first: Stretch, second: Stretch, left: &mut usize) -> bool
    requires paths { ArePaths paths.now }
    requires first { IsStretchOf paths.now first }
    requires second { IsStretchOf paths.now second }
    ensures { IsTrue result → AreClearStretches paths.now first second }
{
    compare(paths, first, second, left).is_ok()
}

/// All pieces of a path.
#[inline]
pub fn whole(paths: &Paths, path: u32) -> Stretch
    requires paths { ArePaths paths.now }
    requires within { path < count_of paths.now.stops }
    ensures { result ≡ record { path = path; start = 0; end = pieces_of paths.now.stops path } }
{
    Stretch {
        path,
        start: 0,
        end: paths.stops.pieces(path as usize),
    }
}

/// Whether all pieces of two paths are clear of each other, by so many comparisons as are left at most: false where these
/// do not tell.
#[cold]
pub fn are_clear_by_pieces(paths: &Paths, first: u32, second: u32, left: &mut usize) -> bool
    requires paths { ArePaths paths.now }
    requires first { first < count_of paths.now.stops }
    requires second { second < count_of paths.now.stops }
    ensures { IsTrue result → AreClearPaths paths.now first second }
{
    are_stretches_clear(paths, whole(paths, first), whole(paths, second), left)
}
