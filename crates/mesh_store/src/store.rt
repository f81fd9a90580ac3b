//! The live segments. In the second pass they were tested against each other and don't meet. Those that a segment may
//! meet are sought in the parts of the plane that it reaches.

ghost use Rattle.std.specs.Prelude.{◌≡◌, true, List, [], ℤ, pos, ◌<ℤ◌, MatchOption, IfOk, OnOk};
ghost use Rattle.mesh_lattice.specs.Counted.{times};
ghost use Rattle.mesh_store.specs.Cells.{MeetsLive};
ghost use Rattle.mesh_store.specs.Steps.{HaveRoom, IsForward, IsPut, IsTaken, IsClearOf, AddsIf, exactly};

use crate::tally::Tally;
use crate::tree::{Meeting, Tree};
use crate::tuning::DEPTH;
use crate::worklist::Worklist;
use mesh_lattice::lattice::{CountedSegment, LatticeEdge};
use std::alloc::{AllocError, Global};
use std::marker::Model;

/// The live segments, in no order that a caller may rely on. Contracts see the list of them.
#[derive(Drop)]
pub struct Store {
    live: Tally,
    plane: Tree,
    alloc: Global,
}

impl Model for Store {
    ghost use Rattle.std.specs.Prelude.{List, ℤ};

    ghost Value = { List (((ℤ × ℤ) × (ℤ × ℤ)) × ℤ) };

    ghost use Rattle.mesh_store.specs.Cells.{LiveAreListed, listed_at};

    ghost view = { λ s. s.live };

    ghost invariant = { λ s. LiveAreListed (listed_at s.plane) s.live };
}

impl Store {
    /// No segment, and a plane in parts that serve for the segments of some edges.
    pub fn new(alloc: Global, edges: &[LatticeEdge]) -> Result<Self, AllocError>
        ensures { IfOk result (λ s. s ≡ []) }
    {
        let plane = Tree::for_edges(alloc, edges, false, DEPTH)?;
        Ok(Store {
            live: Tally::new(alloc),
            plane,
            alloc,
        })
    }

    /// A live segment that meets the given one, or none where all are clear of it.
    pub fn conflict(&self, s: LatticeEdge) -> Option<Meeting>
        ensures { MatchOption result (IsClearOf s self.now) (λ m. MeetsLive s self.now m) }
    {
        self.plane.find(&self.live, s)
    }

    /// Whether the segment with these ends lives.
    pub fn has(&self, ends: LatticeEdge) -> bool
        ensures { result ≡ true → pos 0 <ℤ exactly ends self.now }
    {
        self.live.has(ends)
    }

    /// Whether no segment lives.
    pub fn is_empty(&self) -> bool
        ensures { result ≡ true → self.now ≡ [] }
    {
        self.live.is_empty()
    }

    /// The ends of all live segments.
    pub fn ends(&self, alloc: Global) -> Result<Vec<LatticeEdge>, AllocError> {
        self.live.ends(alloc)
    }

    /// The live segments that a segment meets.
    pub fn meetings(&self, s: LatticeEdge) -> Result<Vec<Meeting>, AllocError> {
        let mut sides = Vec::new(self.alloc);
        let mut found = Vec::new(self.alloc);
        self.plane.find_all(&self.live, s, &mut sides, &mut found)?;
        Ok(found)
    }

    /// Makes a segment live.
    pub fn insert(&mut self, s: CountedSegment) -> Result<(), AllocError>
        requires forward { IsForward s.0 }
        requires absent { times s.0 self.old ≡ pos 0 }
        ensures { OnOk result (IsPut self.old self.new s) }
    {
        let crowded = self.plane.put(self.alloc, s.0, DEPTH)?;
        self.live.insert(s)?;
        if crowded {
            self.part_anew()?;
        }
        Ok(())
    }

    /// Lists the live segments in a plane whose parts serve for them.
    fn part_anew(&mut self) -> Result<(), AllocError>
        ensures { self.new ≡ self.old }
    {
        let ends = self.live.ends(self.alloc)?;
        self.plane = Tree::for_edges(self.alloc, &ends, true, DEPTH)?;
        Ok(())
    }

    /// Takes the live segment with these ends out.
    pub fn remove(&mut self, ends: LatticeEdge) -> CountedSegment
        requires { pos 0 <ℤ exactly ends self.old }
        ensures ends { result.0 ≡ ends }
        ensures taken { IsTaken self.old self.new result }
        ensures forward { IsForward ends }
    {
        let s = self.live.remove(ends);
        if !self.live.has(ends) {
            self.plane.take(ends);
        }
        s
    }

    /// Adds the segment's count to that of the live segment with its ends, if there is one.
    pub fn add(&mut self, s: CountedSegment) -> Result<bool, AllocError>
        requires forward { IsForward s.0 }
        requires room { HaveRoom self.old s }
        ensures { IfOk result (λ b. AddsIf b self.old self.new s) }
    {
        let added = self.live.add(s)?;
        Ok(added)
    }

    /// The live segments, which all wait again.
    pub fn into_worklist(self, alloc: Global) -> Worklist
        ensures { result ≡ self }
    {
        self.live.into_worklist(alloc)
    }

    /// The live segments as a list.
    pub fn into_segments(self, alloc: Global) -> Result<Vec<CountedSegment>, AllocError>
        ensures { IfOk result (λ v. v.items ≡ self) }
    {
        self.live.into_segments(alloc)
    }
}
