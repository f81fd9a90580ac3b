//! What each edge has become: a path of stops.

ghost use Rattle.std.specs.Prelude.{◌≡◌, ◌+◌, ◌++◌, ℕ, [], ◌∷◌, length, IfOk, OnOk};
ghost use Rattle.mesh_plane.specs.Plane.{Point};
ghost use Rattle.mesh_points.specs.Points.{AreDistinct, IsNumberOf};
ghost use Rattle.mesh_points.specs.Edges.{AreNumbered, IsNumbered};
ghost use Rattle.mesh_paths.specs.Paths.{AreHeld, ArePaths, IsPieceOf};
ghost use Rattle.mesh_paths.specs.Filed.{AreFiled};
ghost use Rattle.mesh_paths.specs.Stops.{stop_of, AreBelow};

use crate::splits::Splits;
use crate::stops::{Stop, Stops};
use crate::through::Through;
use mesh_lattice::lattice::LatticePoint;
use mesh_points::edges::{NumberedEdge, NumberedEdges};
use mesh_points::points::Points;
use std::alloc::{AllocError, Global};

/// A piece of a path: the path, and the place of the stop where it begins.
#[derive(Copy, Clone)]
pub struct Piece {
    pub path: u32,
    pub place: usize,
}

/// Each path leads from its edge's start to its end, never back in `x` nor in `y`.
#[derive(Drop)]
pub struct Paths {
    pub edges: Vec<NumberedEdge>,
    pub points: Points,
    pub splits: Splits,
    pub stops: Stops,
    pub through: Through,
}

/// More edges are refused as memory is.
const MOST_EDGES: usize = u32::MAX as usize;

/// Room for so many stops of each path, in all.
fn total(room: &[u32]) -> usize {
    let mut total: usize = 0;
    for r in room {
        total = total.saturating_add((*r).max(2) as usize);
    }
    total
}

impl Paths {
    /// No path, and room for so many paths, stops and points.
    fn empty(
        alloc: Global,
        points: Points,
        edges: usize,
        stops: usize,
        more: usize,
    ) -> Result<Paths, AllocError>
        requires { AreDistinct points }
        ensures filed { IfOk result (λ p. AreFiled p) }
        ensures edges { IfOk result (λ p. p.edges.items ≡ []) }
        ensures points { IfOk result (λ p. p.points ≡ points) }
        ensures splits { IfOk result (λ p. p.splits ≡ []) }
        ensures below { IfOk result (λ p. AreBelow p.stops 0) }
    {
        let passes = edges.saturating_add(more).saturating_mul(2);
        Ok(Paths {
            edges: Vec::with_capacity(alloc, edges)?,
            splits: Splits::new(alloc),
            stops: Stops::with_capacity(alloc, edges, stops)?,
            through: Through::new(alloc, points.len(), more, passes)?,
            points,
        })
    }

    /// Adds the path of an edge at a place behind all others, with room for so many stops. Answers where the next one may
    /// be added.
    #[inline]
    fn begin(&mut self, first: usize, e: NumberedEdge, room: u32) -> Result<usize, AllocError>
        requires filed { AreFiled self.old }
        requires below { AreBelow self.old.stops first }
        requires numbered { IsNumbered self.old.points e }
        ensures filed { OnOk result (AreFiled self.new) }
        ensures edges { OnOk result (self.new.edges.items ≡ self.old.edges.items ++ e ∷ []) }
        ensures points { self.new.points ≡ self.old.points }
        ensures splits { self.new.splits ≡ self.old.splits }
        ensures below { IfOk result (λ next. AreBelow self.new.stops next) }
        ensures held { OnOk result (self.old.splits ≡ [] → AreHeld self.old → AreHeld self.new) }
    {
        let path = self.edges.len();
        if path >= MOST_EDGES {
            return Err(AllocError);
        }
        let start = Stop {
            at: e.start,
            id: e.from,
        };
        let end = Stop {
            at: e.end,
            id: e.to,
        };
        let next = self.stops.add(first, start, end, room)?;
        self.edges.push(e)?;
        self.through.add(e.from, path as u32)?;
        self.through.add(e.to, path as u32)?;
        Ok(next)
    }

    /// The path of each edge, which is the edge itself, with room for as many stops as are expected of each, and for so
    /// many more points. It fails only where memory is refused, or more than 2^32 - 1 of anything are wanted.
    pub fn start(
        alloc: Global,
        given: NumberedEdges,
        room: &[u32],
        more: usize,
    ) -> Result<Paths, AllocError>
        requires numbered { AreNumbered given.points given.list.items }
        requires distinct { AreDistinct given.points }
        requires room { length room.now ≡ length given.list.items }
        ensures paths { IfOk result (λ p. ArePaths p) }
        ensures edges { IfOk result (λ p. p.edges.items ≡ given.list.items) }
        ensures splits { IfOk result (λ p. p.splits ≡ []) }
    {
        let NumberedEdges { list, points } = given;
        let mut paths = Paths::empty(alloc, points, list.len(), total(room), more)?;
        let mut first = 0;
        for k in 0..list.len() {
            first = paths.begin(first, list[k], room[k])?;
        }
        Ok(paths)
    }

    /// Both ends of a piece.
    #[inline]
    pub fn ends(&self, piece: Piece) -> (Stop, Stop)
        requires filed { AreFiled self.now }
        requires piece { IsPieceOf self.now piece }
        ensures { result ≡ (stop_of self.now.stops piece.path piece.place, stop_of self.now.stops piece.path (piece.place + 1)) }
    {
        (
            self.stops.stop(piece.path as usize, piece.place),
            self.stops.stop(piece.path as usize, piece.place + 1),
        )
    }

    /// A stop at a point, which gets a number if it has none.
    #[inline]
    pub fn stop_at(&mut self, at: LatticePoint) -> Result<Stop, AllocError>
        requires filed { AreFiled self.old }
        ensures filed { OnOk result (AreFiled self.new) }
        ensures number { IfOk result (λ s. IsNumberOf self.new.points s.at s.id) }
        ensures at { IfOk result (λ s. s.at ≡ at) }
        ensures stops { self.new.stops ≡ self.old.stops }
        ensures edges { self.new.edges ≡ self.old.edges }
        ensures splits { self.new.splits ≡ self.old.splits }
        ensures kept { OnOk result ((q : Point) (k : ℕ) → IsNumberOf self.old.points q k → IsNumberOf self.new.points q k) }
    {
        let numbered = self.points.number(at)?;
        if numbered.is_new {
            self.through.add_point()?;
        }
        Ok(Stop {
            at,
            id: numbered.number,
        })
    }
}
