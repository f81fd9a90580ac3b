//! The pieces of all paths, those with the same ends merged.

ghost use Rattle.std.specs.Prelude.{◌≡◌, ℕ, ◌+◌, ◌<◌, false, List, [], length, map, IfOk, IfSome, MatchOption, OnOk};
ghost use Rattle.mesh_plane.specs.Plane.{Point, Edge};
ghost use Rattle.mesh_plane.specs.Winding.{same_point};
ghost use Rattle.mesh_lattice.specs.Clean.{IsProper};
ghost use Rattle.mesh_lattice.specs.Counted.{IsCountOf};
ghost use Rattle.mesh_points.specs.Edges.{counted, AreNumbered, IsNumbered, IsPlaceOf};
ghost use Rattle.mesh_points.specs.Points.{AreDistinct, IsNumberOf};
ghost use Rattle.mesh_paths.specs.Paths.{ArePaths};
ghost use Rattle.mesh_paths.specs.Pieces.{AreReached};
ghost use Rattle.mesh_paths.specs.Private.Merging.{segments_to, AreLinked, CountAlike, IsMergedTo, IsPieceAdded};
ghost use Rattle.mesh_paths.specs.Stops.{count_of};

use crate::paths::{Paths, Piece};
use crate::stops::Stop;
use mesh_lattice::exact::is_before;
use mesh_points::edges::NumberedEdge;
use std::alloc::{AllocError, Global};

/// More pieces are refused as memory is.
const MOST_PIECES: usize = (1 << 31) - 1;

/// Pieces between numbered points, each with its lesser end first, those with the same ends as one, and lists of them by
/// the numbers of their starts.
#[derive(Drop)]
pub struct Pieces {
    pub list: Vec<NumberedEdge>,
    /// For each point one more than the place of the last piece that starts there, or 0.
    last: Vec<u32>,
    /// For each piece how many are to be looked through where another one is sought: the last of them is the one that
    /// came before it at its start.
    before: Vec<u32>,
}

/// The piece between two stops, the lesser one first, with a count along it. None where the count does not fit.
#[inline]
fn forward(a: Stop, b: Stop, count: i32) -> Option<NumberedEdge>
    requires { same_point a.at b.at ≡ false }
    ensures counted { IfSome result (λ e. CountAlike ((a.at, b.at), count) (counted e)) }
    ensures numbered { IfSome result (λ e. (ps : List Point) → IsNumberOf ps a.at a.id → IsNumberOf ps b.at b.id
        → IsNumbered ps e) }
{
    if is_before(a.at, b.at) {
        return Some(NumberedEdge {
            start: a.at,
            end: b.at,
            from: a.id,
            to: b.id,
            count,
        });
    }
    let count = count.checked_neg()?;
    Some(NumberedEdge {
        start: b.at,
        end: a.at,
        from: b.id,
        to: a.id,
        count,
    })
}

impl Pieces {
    /// No piece between so many points, and room for so many pieces.
    fn with_capacity(alloc: Global, points: usize, pieces: usize) -> Result<Pieces, AllocError>
        ensures { IfOk result (λ p. (ps : List Point) → AreDistinct ps → length ps ≡ points → IsMergedTo ps [] p) }
    {
        Ok(Pieces {
            list: Vec::with_capacity(alloc, pieces)?,
            last: vec![in alloc; 0; points]?,
            before: Vec::with_capacity(alloc, pieces)?,
        })
    }

    /// The place of the piece between two points, if there is one.
    #[inline]
    fn place(&self, from: u32, to: u32) -> Option<usize>
        requires linked { AreLinked self.now }
        requires within { from < length self.now.last.items }
        ensures { MatchOption result ((k : ℕ) → IsPlaceOf self.now.list.items from to k → ⊥)
            (λ k. IsPlaceOf self.now.list.items from to k) }
    {
        let mut left = self.last[from as usize];
        while left > 0 {
            let place = (left - 1) as usize;
            if self.list[place].to == to {
                return Some(place);
            }
            left = self.before[place];
        }
        None
    }

    /// Adds a piece, or its count to that of the one with its ends. A count that does not fit is refused as memory is.
    #[inline]
    fn add(&mut self, e: NumberedEdge) -> Result<(), AllocError>
        requires linked { AreLinked self.old }
        requires within { e.from < length self.old.last.items }
        ensures { OnOk result (IsPieceAdded e self.old self.new) }
    {
        if let Some(place) = self.place(e.from, e.to) {
            let Some(count) = self.list[place].count.checked_add(e.count) else {
                return Err(AllocError);
            };
            self.list[place].count = count;
            return Ok(());
        }
        let count = self.list.len();
        if count >= MOST_PIECES {
            return Err(AllocError);
        }
        self.list.push(e)?;
        self.before.push(self.last[e.from as usize])?;
        self.last[e.from as usize] = count as u32 + 1;
        Ok(())
    }

    /// Adds the pieces of a path.
    #[inline]
    fn add_path(&mut self, paths: &Paths, path: u32) -> Result<(), AllocError>
        requires paths { ArePaths paths.now }
        requires within { path < count_of paths.now.stops }
        requires merged { IsMergedTo paths.now.points (segments_to paths.now path 0) self.old }
        ensures { OnOk result (IsMergedTo paths.now.points (segments_to paths.now (path + 1) 0) self.new) }
    {
        let count = paths.edges[path as usize].count;
        for place in 0..paths.stops.pieces(path as usize) {
            let (a, b) = paths.ends(Piece { path, place });
            let Some(e) = forward(a, b, count) else {
                return Err(AllocError);
            };
            self.add(e)?;
        }
        Ok(())
    }
}

/// The pieces of all paths, those with the same ends as one: where the edges are given ones merged, the pieces are the
/// segments that the splits make of these, each once, with its net count. It fails only where memory is refused, or where
/// there are 2^31 - 1 pieces or a count that does not fit in 32 bits.
pub fn collect(alloc: Global, paths: &Paths) -> Result<Pieces, AllocError>
    requires { ArePaths paths.now }
    ensures reached { IfOk result (λ p. (given : List Edge) → IsProper given
        → IsCountOf given (map counted paths.now.edges.items)
        → AreReached given paths.now.splits (map counted p.list.items)) }
    ensures numbered { IfOk result (λ p. AreNumbered paths.now.points p.list.items) }
{
    let room = paths.edges.len();
    if room > MOST_PIECES {
        return Err(AllocError);
    }
    let mut pieces = Pieces::with_capacity(alloc, paths.points.len(), room)?;
    for k in 0..room {
        pieces.add_path(paths, k as u32)?;
    }
    Ok(pieces)
}
