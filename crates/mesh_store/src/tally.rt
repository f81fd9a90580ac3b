//! Segments by their ends, each once, with their counts.

ghost use Rattle.std.specs.Prelude.{◌≡◌, true, false, List, [], ℤ, pos, ◌<ℤ◌, IfOk, OnOk, OnErr};
ghost use Rattle.std.specs.List.{All};
ghost use Rattle.std.specs.Map.{keys_of};
ghost use Rattle.mesh_lattice.specs.Counted.{times};
ghost use Rattle.mesh_store.specs.Steps.{HaveRoom, IsForward, IsPut, IsTaken, AddsIf, exactly};

use crate::ends_hasher::EndsHasher;
use crate::worklist::Worklist;
use mesh_lattice::lattice::{CountedSegment, LatticeEdge};
use std::alloc::{AllocError, Global};
use std::collections::HashMap;
use std::marker::Model;

/// Segments by their ends, the lesser end first. Contracts see the list of them.
#[derive(Drop)]
pub struct Tally {
    counts: HashMap<LatticeEdge, i128, EndsHasher>,
}

impl Model for Tally {
    ghost Value = { List (((ℤ × ℤ) × (ℤ × ℤ)) × ℤ) };

    ghost view = { λ t. t.counts.entries };

    ghost invariant = { λ t. All IsForward (keys_of t.counts.entries) };
}

impl Tally {
    /// No segment.
    pub fn new(alloc: Global) -> Self
        ensures { result ≡ [] }
    {
        Tally {
            counts: HashMap::with_hasher(alloc, EndsHasher::new()),
        }
    }

    /// Whether the segment with these ends stands.
    pub fn has(&self, ends: LatticeEdge) -> bool
        ensures yes { result ≡ true → pos 0 <ℤ exactly ends self.now }
        ensures no { result ≡ false → exactly ends self.now ≡ pos 0 }
    {
        match self.counts.get(&ends) {
            Some(_) => true,
            None => false,
        }
    }

    /// Whether no segment stands.
    pub fn is_empty(&self) -> bool
        ensures { result ≡ true → self.now ≡ [] }
    {
        self.counts.is_empty()
    }

    /// The ends of all segments.
    pub fn ends(&self, alloc: Global) -> Result<Vec<LatticeEdge>, AllocError>
        ensures { IfOk result (λ v. v.items ≡ keys_of self.now) }
    {
        self.counts.keys().copied().collect(alloc)
    }

    /// Puts a segment in.
    pub fn insert(&mut self, s: CountedSegment) -> Result<(), AllocError>
        requires forward { IsForward s.0 }
        requires absent { times s.0 self.old ≡ pos 0 }
        ensures ok { OnOk result (IsPut self.old self.new s) }
        ensures err { OnErr result (self.new ≡ self.old) }
    {
        self.counts.insert(s.0, s.1)?;
        Ok(())
    }

    /// Takes the segment with these ends out.
    pub fn remove(&mut self, ends: LatticeEdge) -> CountedSegment
        requires { pos 0 <ℤ exactly ends self.old }
        ensures ends { result.0 ≡ ends }
        ensures taken { IsTaken self.old self.new result }
        ensures forward { IsForward ends }
    {
        match self.counts.remove_entry(&ends) {
            Some(s) => s,
            None => unreachable!(),
        }
    }

    /// Adds the segment's count to that of the segment with its ends, if there is one.
    pub fn add(&mut self, s: CountedSegment) -> Result<bool, AllocError>
        requires forward { IsForward s.0 }
        requires room { HaveRoom self.old s }
        ensures ok { IfOk result (λ b. AddsIf b self.old self.new s) }
        ensures err { OnErr result (self.new ≡ self.old) }
    {
        if self.counts.is_empty() {
            return Ok(false);
        }
        if let Some(count) = self.counts.get(&s.0) {
            let sum = *count + s.1;
            self.counts.insert(s.0, sum)?;
            return Ok(true);
        }
        Ok(false)
    }

    /// The segments as ones that wait.
    pub fn into_worklist(self, alloc: Global) -> Worklist
        ensures { result ≡ self }
    {
        Worklist::with_counts(alloc, self.counts)
    }

    /// The segments as a list.
    pub fn into_segments(self, alloc: Global) -> Result<Vec<CountedSegment>, AllocError>
        ensures { IfOk result (λ v. v.items ≡ self) }
    {
        self.counts.into_iter().collect(alloc)
    }
}
