//! Cuts where two edges were found to meet: the pieces that lie there now are sought, a few on either side of a guess.

ghost use Rattle.std.specs.Prelude.{◌≡◌, ◌<◌, false, IfOk, OnOk};
ghost use Rattle.mesh_paths.specs.Paths.{ArePaths, IsPieceOf};
ghost use Rattle.mesh_paths.specs.Stops.{count_of};

use crate::paths::{Paths, Piece};
use mesh_lattice::lattice::LatticePoint;
use std::alloc::AllocError;

impl Paths {
    /// The piece of a path whose extent along the longer side of its edge holds that of a point: a guess for what meets
    /// another path there.
    #[inline]
    pub fn near(&self, path: u32, at: LatticePoint) -> Piece
        requires paths { ArePaths self.now }
        requires within { path < count_of self.now.stops }
        ensures path { result.path ≡ path }
        ensures piece { IsPieceOf self.now result }
    {
        let k = path as usize;
        let pieces = self.stops.pieces(k);
        if pieces <= 1 {
            return Piece { path, place: 0 };
        }
        let e = self.edges[k];
        let place = if e.start.1.abs_diff(e.end.1) <= e.start.0.abs_diff(e.end.0) {
            self.stops.last_west(k, at.0)
        } else if e.start.1 < e.end.1 {
            self.stops.last_south(k, at.1)
        } else {
            self.stops.last_north(k, at.1)
        };
        Piece {
            path,
            place: place.min(pieces - 1),
        }
    }

    /// Cuts two paths where their pieces meet about a point. Answers whether they have a common stop there after that,
    /// which is only a guess.
    #[inline]
    pub fn cut_about(
        &mut self,
        first: u32,
        second: u32,
        at: LatticePoint,
    ) -> Result<bool, AllocError>
        requires paths { ArePaths self.old }
        requires first { first < count_of self.old.stops }
        requires second { second < count_of self.old.stops }
        ensures paths { OnOk result (ArePaths self.new) }
        ensures edges { OnOk result (self.new.edges ≡ self.old.edges) }
    {
        let p = self.near(first, at);
        let q = self.near(second, at);
        if self.cut_pieces(p, q)? {
            return Ok(true);
        }
        self.cut_around(p, q)
    }

    /// Of the pieces next to two, cuts the first that meet. Else answers whether the paths have a common stop there.
    #[cold]
    fn cut_around(&mut self, p: Piece, q: Piece) -> Result<bool, AllocError>
        requires paths { ArePaths self.old }
        requires first { IsPieceOf self.old p }
        requires second { IsPieceOf self.old q }
        ensures paths { OnOk result (ArePaths self.new) }
        ensures edges { OnOk result (self.new.edges ≡ self.old.edges) }
    {
        let end = (p.place + 2).min(self.stops.pieces(p.path as usize));
        for place in p.place.saturating_sub(1)..end {
            let piece = Piece {
                path: p.path,
                place,
            };
            if self.cut_beside(piece, q)? {
                return Ok(true);
            }
        }
        let end = (p.place + 3).min(self.stops.pieces(p.path as usize) + 1);
        for place in p.place.saturating_sub(1)..end {
            let stop = self.stops.stop(p.path as usize, place);
            if self.through.leads(q.path, stop.id) {
                return Ok(true);
            }
        }
        Ok(false)
    }

    /// Cuts a piece and the first one it meets of those next to another. Answers whether there is one.
    fn cut_beside(&mut self, p: Piece, q: Piece) -> Result<bool, AllocError>
        requires paths { ArePaths self.old }
        requires first { IsPieceOf self.old p }
        requires second { IsPieceOf self.old q }
        ensures paths { OnOk result (ArePaths self.new) }
        ensures left { IfOk result (λ met. met ≡ false → self.new ≡ self.old) }
        ensures edges { OnOk result (self.new.edges ≡ self.old.edges) }
    {
        let end = (q.place + 2).min(self.stops.pieces(q.path as usize));
        for place in q.place.saturating_sub(1)..end {
            let piece = Piece {
                path: q.path,
                place,
            };
            if self.cut_pieces(p, piece)? {
                return Ok(true);
            }
        }
        Ok(false)
    }
}
