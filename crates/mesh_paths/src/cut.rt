//! A cut: where two pieces meet, each path that has one of them gets a stop.

ghost use Rattle.std.specs.Prelude.{◌≡◌, ◌<◌, false, true, IfOk, OnOk};
ghost use Rattle.mesh_lattice.specs.Split.{add_split, occurs, IsInBox};
ghost use Rattle.mesh_paths.specs.Paths.{edge_of, AreLeft, ArePaths, AreSplit, IsPieceOf};
ghost use Rattle.mesh_paths.specs.Private.Cutting.{cut_of, AreCut, AreSame, IsCutPath, IsInjective, IsStop};
ghost use Rattle.mesh_paths.specs.Filed.{AreFiled};
ghost use Rattle.mesh_paths.specs.Stops.{count_of, path_of, pieces_of, point_of};

use crate::paths::{Paths, Piece};
use crate::stops::Stop;
use mesh_meeting::meeting::any_meeting;
use std::alloc::AllocError;

impl Paths {
    /// Inserts a stop into a path, where that has a piece between two points.
    fn cut_path(&mut self, path: u32, a: Stop, b: Stop, stop: Stop) -> Result<(), AllocError>
        requires filed { AreFiled self.old }
        requires within { path < count_of self.old.stops }
        requires injective { IsInjective (point_of self.old.stops path) (pieces_of self.old.stops path) }
        requires start { IsStop self.old a }
        requires end { IsStop self.old b }
        requires stop { IsStop self.old stop }
        ensures filed { OnOk result (AreFiled self.new) }
        ensures cut { OnOk result (IsCutPath self.old self.new path (cut_of a b stop)) }
    {
        let Some(place) = self.stops.find(path as usize, a.id, b.id) else {
            return Ok(());
        };
        self.stops.insert(path as usize, place, stop)?;
        self.through.add(stop.id, path)?;
        Ok(())
    }

    /// Inserts a stop into a path at a place, where that has the piece between two points there. Answers whether it does.
    #[inline]
    fn cut_near(&mut self, near: Piece, a: Stop, b: Stop, stop: Stop) -> Result<bool, AllocError>
        requires filed { AreFiled self.old }
        requires within { near.path < count_of self.old.stops }
        requires injective { IsInjective (point_of self.old.stops near.path) (pieces_of self.old.stops near.path) }
        requires start { IsStop self.old a }
        requires end { IsStop self.old b }
        requires stop { IsStop self.old stop }
        ensures filed { OnOk result (AreFiled self.new) }
        ensures cut { IfOk result (λ cut. cut ≡ true → IsCutPath self.old self.new near.path (cut_of a b stop)) }
        ensures left { IfOk result (λ cut. cut ≡ false → self.new ≡ self.old) }
    {
        if !self
            .stops
            .is_between(near.path as usize, near.place, a.id, b.id)
        {
            return Ok(false);
        }
        self.stops.insert(near.path as usize, near.place, stop)?;
        self.through.add(stop.id, near.path)?;
        Ok(true)
    }

    /// Cuts a path through the start of a piece, if it leads through the end too. Another one may have been cut already.
    #[inline]
    fn cut_passing(
        &mut self,
        path: u32,
        near: u32,
        is_cut: bool,
        a: Stop,
        b: Stop,
        stop: Stop,
    ) -> Result<(), AllocError>
        requires filed { AreFiled self.old }
        requires within { path < count_of self.old.stops }
        requires cut { is_cut ≡ true → occurs (a.at, b.at) (path_of self.old.stops near) ≡ false }
        requires injective { IsInjective (point_of self.old.stops path) (pieces_of self.old.stops path) }
        requires start { IsStop self.old a }
        requires end { IsStop self.old b }
        requires stop { IsStop self.old stop }
        ensures filed { OnOk result (AreFiled self.new) }
        ensures cut { OnOk result (IsCutPath self.old self.new path (cut_of a b stop)) }
    {
        if is_cut && path == near {
            return Ok(());
        }
        if !self.through.leads(path, b.id) {
            return Ok(());
        }
        self.cut_path(path, a, b, stop)
    }

    /// Splits the segment between two stops: all paths that have it are cut. It is a piece at a place, most likely. Nothing
    /// where the new stop is one of the two.
    fn cut(&mut self, near: Piece, a: Stop, b: Stop, stop: Stop) -> Result<(), AllocError>
        requires cut { AreCut self.old }
        requires within { near.path < count_of self.old.stops }
        requires start { IsStop self.old a }
        requires end { IsStop self.old b }
        requires stop { IsStop self.old stop }
        requires in_box { IsInBox (a.at, b.at) stop.at }
        ensures cut { OnOk result (AreCut self.new) }
        ensures noted { OnOk result (self.new.splits ≡ add_split (a.at, b.at) stop.at self.old.splits) }
        ensures edges { OnOk result (self.new.edges ≡ self.old.edges) }
        ensures points { OnOk result (self.new.points ≡ self.old.points) }
        ensures count { OnOk result (count_of self.new.stops ≡ count_of self.old.stops) }
    {
        if stop.id == a.id || stop.id == b.id {
            return Ok(());
        }
        let is_cut = self.cut_near(near, a, b, stop)?;
        let mut left = self.through.last(a.id);
        while left > 0 {
            let pass = self.through.pass(left - 1);
            self.cut_passing(pass.path, near.path, is_cut, a, b, stop)?;
            left = pass.before;
        }
        self.splits.push((a.at, b.at), stop.at)?;
        Ok(())
    }

    /// Cuts two pieces where they meet, as they lie now: a legal split. Answers whether they do.
    pub fn cut_pieces(&mut self, p: Piece, q: Piece) -> Result<bool, AllocError>
        requires paths { ArePaths self.old }
        requires first { IsPieceOf self.old p }
        requires second { IsPieceOf self.old q }
        ensures paths { OnOk result (ArePaths self.new) }
        ensures met { IfOk result (λ met. met ≡ true → AreSplit self.old self.new (edge_of self.old p) (edge_of self.old q)) }
        ensures clear { IfOk result (λ met. met ≡ false → AreLeft self.old self.new (edge_of self.old p) (edge_of self.old q)) }
        ensures edges { OnOk result (self.new.edges ≡ self.old.edges) }
    {
        let (a, b) = self.ends(p);
        let (c, d) = self.ends(q);
        let Some(at) = any_meeting((a.at, b.at), (c.at, d.at)) else {
            return Ok(false);
        };
        let stop = self.stop_at(at)?;
        self.cut(p, a, b, stop)?;
        self.cut(q, c, d, stop)?;
        Ok(true)
    }
}
