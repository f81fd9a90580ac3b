//! The segments that are still to be tested against the live ones.

ghost use Rattle.std.specs.Prelude.{◌≡◌, ◌⊎◌, true, false, List, [], ℤ, pos, ◌<ℤ◌, MatchOption, IfOk, IfSome, OnOk};
ghost use Rattle.std.specs.List.{All};
ghost use Rattle.std.specs.Map.{keys_of};
ghost use Rattle.mesh_store.specs.Cells.{KeepsThose};
ghost use Rattle.mesh_store.specs.Steps.{AreSame, HaveRoom, IsForward, IsTaken, IsRaised, IsNew, exactly};

use crate::ends_hasher::EndsHasher;
use mesh_lattice::lattice::{CountedSegment, LatticeEdge};
use std::alloc::{AllocError, Global};
use std::collections::HashMap;
use std::marker::Model;

/// Segments by their ends, each once, the lesser end first. Contracts see the list of them.
#[derive(Drop)]
pub struct Worklist {
    counts: HashMap<LatticeEdge, i128, EndsHasher>,
    /// Ends in the order in which they came. It says which segment is taken next, and nothing else.
    latest: Vec<LatticeEdge>,
    /// Whether that order is kept.
    keeps_order: bool,
}

impl Model for Worklist {
    ghost Value = { List (((ℤ × ℤ) × (ℤ × ℤ)) × ℤ) };

    ghost view = { λ w. w.counts.entries };

    ghost invariant = { λ w. All IsForward (keys_of w.counts.entries) };
}

/// Notes which segment came last, where that is kept.
fn note(latest: &mut Vec<LatticeEdge>, ends: LatticeEdge, is_kept: bool) -> Result<(), AllocError> {
    if is_kept {
        latest.push(ends)?;
    }
    Ok(())
}

impl Worklist {
    /// No segment, and room for so many.
    pub fn with_capacity(alloc: Global, capacity: usize) -> Result<Self, AllocError>
        ensures { IfOk result (λ w. w ≡ []) }
    {
        Ok(Worklist {
            counts: HashMap::with_capacity_and_hasher(alloc, capacity, EndsHasher::new())?,
            latest: Vec::new(alloc),
            keeps_order: true,
        })
    }

    /// Segments by their ends, the lesser end first. Any of them is taken first.
    pub fn with_counts(alloc: Global, counts: HashMap<LatticeEdge, i128, EndsHasher>) -> Self
        requires { All IsForward (keys_of counts.entries) }
        ensures { result ≡ counts.entries }
    {
        Worklist {
            counts,
            latest: Vec::new(alloc),
            keeps_order: true,
        }
    }

    /// Makes room for so many more. The same segments wait, in any order.
    pub fn reserve(&mut self, more: usize) -> Result<(), AllocError>
        ensures { AreSame self.old self.new }
    {
        self.counts.reserve(more)?;
        Ok(())
    }

    /// From here on any segment is taken first: where none is, the order would only take memory.
    pub fn forget_order(&mut self, alloc: Global)
        ensures { self.new ≡ self.old }
    {
        self.latest = Vec::new(alloc);
        self.keeps_order = false;
    }

    /// Takes a segment out, if there is one: the one that came last, though any order would do.
    pub fn pop(&mut self) -> Option<CountedSegment>
        ensures taken { MatchOption result ((self.old ≡ []) × (self.new ≡ [])) (λ s. IsTaken self.old self.new s) }
        ensures forward { IfSome result (λ s. IsForward s.0) }
    {
        while let Some(ends) = self.latest.pop() {
            if let Some(s) = self.counts.remove_entry(&ends) {
                return Some(s);
            }
        }
        let Some(ends) = self.counts.keys().next().copied() else {
            return None;
        };
        self.counts.remove_entry(&ends)
    }

    /// Whether the segment with these ends waits.
    pub fn has(&self, ends: LatticeEdge) -> bool
        ensures yes { result ≡ true → pos 0 <ℤ exactly ends self.now }
        ensures no { result ≡ false → exactly ends self.now ≡ pos 0 }
    {
        match self.counts.get(&ends) {
            Some(_) => true,
            None => false,
        }
    }

    /// Takes the segment with these ends out.
    pub fn remove(&mut self, ends: LatticeEdge) -> CountedSegment
        requires { pos 0 <ℤ exactly ends self.old }
        ensures ends { result.0 ≡ ends }
        ensures taken { IsTaken self.old self.new result }
        ensures forward { IsForward result.0 }
    {
        match self.counts.remove_entry(&ends) {
            Some(s) => s,
            None => unreachable!(),
        }
    }

    /// Puts a segment in, or adds its count to that of the segment with its ends.
    pub fn add(&mut self, s: CountedSegment) -> Result<(), AllocError>
        requires forward { IsForward s.0 }
        requires room { HaveRoom self.old s }
        ensures { OnOk result (IsRaised self.old self.new s ⊎ IsNew self.old self.new s) }
    {
        if let Some(count) = self.counts.insert(s.0, s.1)? {
            self.counts.insert(s.0, count + s.1)?;
            return Ok(());
        }
        note(&mut self.latest, s.0, self.keeps_order)?;
        Ok(())
    }

    /// Those of some segments that wait.
    pub fn waiting(
        &self,
        alloc: Global,
        edges: &[LatticeEdge],
    ) -> Result<Vec<LatticeEdge>, AllocError>
        ensures { IfOk result (λ v. KeepsThose (λ x. pos 0 <ℤ exactly x self.now) edges.now v.items) }
    {
        let mut left = Vec::with_capacity(alloc, edges.len())?;
        for e in edges {
            if self.has(*e) {
                left.push(*e)?;
            }
        }
        Ok(left)
    }

    /// How many segments wait.
    pub fn len(&self) -> usize {
        self.counts.len()
    }

    /// The ends of all segments that wait.
    pub fn ends(&self, alloc: Global) -> Result<Vec<LatticeEdge>, AllocError>
        ensures { IfOk result (λ v. v.items ≡ keys_of self.now) }
    {
        self.counts.keys().copied().collect(alloc)
    }

    /// The segments that wait as a list.
    pub fn into_segments(self, alloc: Global) -> Result<Vec<CountedSegment>, AllocError>
        ensures { IfOk result (λ v. v.items ≡ self) }
    {
        self.counts.into_iter().collect(alloc)
    }
}
