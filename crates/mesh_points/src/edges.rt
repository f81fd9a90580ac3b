//! Edges between numbered points, each with its lesser end first. Those with the same ends are one, with the sum of
//! their counts.

ghost use Rattle.std.specs.Prelude.{◌≡◌, ℕ, ◌-◌, ◌<◌, ◌≤◌, ◌^◌, false, List, [], ◌∷◌, ◌++◌, length, map, unsigned_abs};
ghost use Rattle.std.specs.Prelude.{IfOk, OnOk, MatchOption};
ghost use Rattle.mesh_plane.specs.Plane.{Point, Edge};
ghost use Rattle.mesh_plane.specs.Winding.{same_point};
ghost use Rattle.mesh_lattice.specs.Clean.{IsProper};
ghost use Rattle.mesh_lattice.specs.Counted.{IsCountOf};
ghost use Rattle.mesh_points.specs.Edges.{counted, AreNumbered, IsCountedAs, IsNumbered, IsPlaceOf};
ghost use Rattle.mesh_points.specs.Points.{AreDistinct, IsNumberOf};
ghost use Rattle.mesh_points.specs.Merged.{AreCountsWithin, AreMerged, IsMerged};

use crate::points::Points;
use mesh_lattice::exact::{is_before, same_point};
use mesh_lattice::lattice::{LatticeEdge, LatticePoint};
use std::alloc::{AllocError, Global};

/// More edges are refused as memory is.
const MOST_EDGES: usize = (1 << 31) - 1;

/// An edge from its lesser end, by x and then by y, to the other one, the numbers of these, and how many given edges run
/// from start to end less how many run back.
#[derive(Copy, Clone)]
pub struct NumberedEdge {
    pub start: LatticePoint,
    pub end: LatticePoint,
    pub from: u32,
    pub to: u32,
    pub count: i32,
}

/// Edges between numbered points.
#[derive(Drop)]
pub struct NumberedEdges {
    pub list: Vec<NumberedEdge>,
    pub points: Points,
}

/// Edges, and lists of them by the numbers of their starts, by which those with the same ends are found.
#[derive(Drop)]
struct Merger {
    list: Vec<NumberedEdge>,
    points: Points,
    /// For each point one more than the place of the last edge that starts there, or 0.
    last: Vec<u32>,
    /// For each edge how many are to be looked through where another one is sought: the last of them is the one that came
    /// before it at its start.
    before: Vec<u32>,
}

/// The edge between two ends, the lesser one first.
fn forward(e: LatticeEdge, from: u32, to: u32) -> NumberedEdge
    requires { same_point e.0 e.1 ≡ false }
    ensures counted { IsCountedAs e (counted result) }
    ensures numbered { (ps : List Point) → IsNumberOf ps e.0 from → IsNumberOf ps e.1 to → IsNumbered ps result }
{
    if is_before(e.0, e.1) {
        NumberedEdge {
            start: e.0,
            end: e.1,
            from,
            to,
            count: 1,
        }
    } else {
        NumberedEdge {
            start: e.1,
            end: e.0,
            from: to,
            to: from,
            count: -1,
        }
    }
}

impl Merger {
    /// No edge, and room for so many.
    fn with_capacity(alloc: Global, edges: usize) -> Result<Merger, AllocError>
        ensures { IfOk result (λ m. IsMerged [] m) }
    {
        Ok(Merger {
            list: Vec::with_capacity(alloc, edges)?,
            points: Points::with_capacity(alloc, edges)?,
            last: Vec::with_capacity(alloc, edges)?,
            before: Vec::with_capacity(alloc, edges)?,
        })
    }

    /// The number of a point.
    #[inline]
    fn number(&mut self, p: LatticePoint) -> Result<u32, AllocError>
        requires { AreMerged self.old }
        ensures number { IfOk result (λ n. IsNumberOf self.new.points p n) }
        ensures merged { OnOk result (AreMerged self.new) }
        ensures same { self.new.list ≡ self.old.list }
        ensures kept { OnOk result ((q : Point) (k : ℕ) → IsNumberOf self.old.points q k → IsNumberOf self.new.points q k) }
    {
        let numbered = self.points.number(p)?;
        if numbered.is_new {
            self.last.push(0)?;
        }
        Ok(numbered.number)
    }

    /// The same where the number of the latest point is known: most edges start where the one before them ends.
    #[inline]
    fn number_after(
        &mut self,
        p: LatticePoint,
        latest: LatticePoint,
        number: u32,
    ) -> Result<u32, AllocError>
        requires merged { AreMerged self.old }
        requires latest { IsNumberOf self.old.points latest number }
        ensures number { IfOk result (λ n. IsNumberOf self.new.points p n) }
        ensures merged { OnOk result (AreMerged self.new) }
        ensures same { self.new.list ≡ self.old.list }
    {
        if same_point(latest, p) {
            return Ok(number);
        }
        self.number(p)
    }

    /// The place of the edge between two points, if there is one.
    #[inline]
    fn place(&self, from: u32, to: u32) -> Option<usize>
        requires merged { AreMerged self.now }
        requires within { from < length self.now.points }
        ensures { MatchOption result ((k : ℕ) → IsPlaceOf self.now.list.items from to k → ⊥)
            (λ k. IsPlaceOf self.now.list.items from to k) }
    {
        let mut left = self.last[from as usize];
        while left > 0 {
            let place = (left - 1) as usize;
            if self.list[place].to == to {
                return Some(place);
            }
            left = self.before[place];
        }
        None
    }

    /// Adds an edge, or its count to that of the one with its ends.
    #[inline]
    fn add(&mut self, e: NumberedEdge) -> Result<(), AllocError>
        requires merged { AreMerged self.old }
        requires numbered { IsNumbered self.old.points e }
        requires one { unsigned_abs e.count ≤ 1 }
        requires counts { AreCountsWithin self.old.list.items (2 ^ 31 - 2) }
        requires room { length self.old.list.items < 2 ^ 31 - 1 }
        ensures merged { OnOk result ((given : List Edge) (g : Edge) → IsMerged given self.old → IsCountedAs g (counted e)
            → IsMerged (given ++ g ∷ []) self.new) }
        ensures points { self.new.points ≡ self.old.points }
    {
        if let Some(place) = self.place(e.from, e.to) {
            self.list[place].count += e.count;
            return Ok(());
        }
        let count = self.list.len() as u32;
        self.list.push(e)?;
        self.before.push(self.last[e.from as usize])?;
        self.last[e.from as usize] = count + 1;
        Ok(())
    }
}

/// Numbers the ends of edges, and merges those with the same ends.
pub fn number_edges(alloc: Global, given: &[LatticeEdge]) -> Result<NumberedEdges, AllocError>
    requires { IsProper given.now }
    ensures count { IfOk result (λ es. IsCountOf given.now (map counted es.list.items)) }
    ensures numbered { IfOk result (λ es. AreNumbered es.points es.list.items) }
    ensures distinct { IfOk result (λ es. AreDistinct es.points) }
{
    if given.len() > MOST_EDGES {
        return Err(AllocError);
    }
    let mut merger = Merger::with_capacity(alloc, given.len())?;
    let mut latest = match given.first() {
        Some(e) => e.0,
        None => (0, 0),
    };
    let mut number = merger.number(latest)?;
    for e in given {
        let from = merger.number_after(e.0, latest, number)?;
        latest = e.1;
        number = merger.number(latest)?;
        merger.add(forward(*e, from, number))?;
    }
    Ok(NumberedEdges {
        list: merger.list,
        points: merger.points,
    })
}
