//! The steps of the splitting: segments put in, split alone or with one that they meet, and made live.

ghost use Rattle.std.specs.Prelude.{◌≡◌, ◌^◌, [], ◌∷◌, ℤ, pos, ◌+ℤ◌, ◌≤ℤ◌, ◌<ℤ◌, neg_ℤ, true, false, OnOk, IfOk};
ghost use Rattle.mesh_plane.specs.Winding.{same_point};
ghost use Rattle.mesh_lattice.specs.Clean.{IsProper};
ghost use Rattle.mesh_lattice.specs.Split.{is_end, IsInBox, Meets};
ghost use Rattle.mesh_split.specs.Growth.{Grows, Waits, pieces_of};
ghost use Rattle.mesh_store.specs.Steps.{AllClear, Puts, PutsPieces, Moves, Settles, IsPile, KeepsPile};
ghost use Rattle.mesh_store.specs.Steps.{IsForward, exactly, split_at, weight, total_weight};
ghost use Rattle.mesh_store.specs.Witnesses.{forward};
ghost use Rattle.mesh_lattice.specs.Counted.{times, IsRoomy};

use crate::leash::Leash;
use crate::split_log::SplitLog;
use mesh_lattice::exact::{is_before, is_end};
use mesh_lattice::lattice::{CountedSegment, LatticeEdge, LatticePoint};
use mesh_store::store::Store;
use mesh_store::tree::Meeting;
use mesh_store::worklist::Worklist;
use std::alloc::{AllocError, Global};

/// The segments that wait to be tested, the live ones, and the splits that led to them. In the second pass the live ones
/// are clear of each other.
#[derive(Drop)]
pub struct Splitter {
    pub todo: Worklist,
    pub live: Store,
    pub log: SplitLog,
}

/// Segments that are clear of each other, and the splits that led to them.
#[derive(Drop)]
pub struct Settled {
    pub segments: Vec<CountedSegment>,
    pub log: SplitLog,
}

/// The segment of one edge.
fn single(e: LatticeEdge) -> CountedSegment
    ensures value { result ≡ (e, pos 1) }
    ensures light { weight result ≤ℤ pos (2 ^ 33) }
{
    let (start, end) = e;
    ((start, end), 1)
}

/// The segment the other way about.
fn backwards(s: CountedSegment) -> CountedSegment
    requires { IsRoomy (weight s) }
    ensures { result ≡ ((s.0.1, s.0.0), neg_ℤ s.1) }
{
    let (start, end) = s.0;
    ((end, start), -s.1)
}

impl Splitter {
    /// No segment, with a plane for the given edges, and room for so many that wait.
    fn new(alloc: Global, edges: &[LatticeEdge], capacity: usize) -> Result<Self, AllocError>
        ensures todo { IfOk result (λ s. s.todo ≡ []) }
        ensures live { IfOk result (λ s. s.live ≡ []) }
        ensures log { IfOk result (λ s. s.log ≡ []) }
    {
        let live = Store::new(alloc, edges)?;
        Ok(Splitter {
            todo: Worklist::with_capacity(alloc, capacity)?,
            live,
            log: SplitLog::new(alloc),
        })
    }

    /// Adds a segment to the one with its ends, or else to the worklist.
    fn put(&mut self, s: CountedSegment) -> Result<(), AllocError>
        requires proper { same_point s.0.0 s.0.1 ≡ false }
        requires room { IsRoomy (total_weight self.old.todo self.old.live +ℤ weight s) }
        ensures puts { OnOk result (Puts self.old.todo self.old.live self.new.todo self.new.live s) }
        ensures grows { OnOk result (Grows self.old.todo self.new.todo (forward s.0 ∷ [])) }
        ensures log { self.new.log ≡ self.old.log }
    {
        if is_before(s.0.0, s.0.1) {
            return self.file(s);
        }
        self.file(backwards(s))
    }

    /// The same, where the lesser end is first.
    fn file(&mut self, s: CountedSegment) -> Result<(), AllocError>
        requires forward { IsForward s.0 }
        requires room { IsRoomy (total_weight self.old.todo self.old.live +ℤ weight s) }
        ensures puts { OnOk result (Puts self.old.todo self.old.live self.new.todo self.new.live s) }
        ensures grows { OnOk result (Grows self.old.todo self.new.todo (s.0 ∷ [])) }
        ensures log { self.new.log ≡ self.old.log }
    {
        let added = self.live.add(s)?;
        if added {
            return Ok(());
        }
        self.todo.add(s)?;
        Ok(())
    }

    /// Splits a segment: puts its two pieces, and logs the split.
    fn split_at(&mut self, s: CountedSegment, c: LatticePoint) -> Result<(), AllocError>
        requires inner { is_end c s.0 ≡ false }
        requires in_box { IsInBox s.0 c }
        requires room { IsRoomy (total_weight self.old.todo self.old.live +ℤ weight s) }
        ensures pieces { OnOk result (PutsPieces self.old.todo self.old.live self.new.todo self.new.live s c) }
        ensures grows { OnOk result
            (Grows self.old.todo self.new.todo (forward (s.0.0, c) ∷ forward (c, s.0.1) ∷ [])) }
        ensures log { OnOk result (self.new.log ≡ split_at s.0 c ∷ self.old.log) }
    {
        let (start, end) = s.0;
        self.log.push(s.0, c)?;
        self.put(((start, c), s.1))?;
        self.put(((c, end), s.1))?;
        Ok(())
    }

    /// Splits a segment and the live one that it meets. A segment in hand must have the ends of no piece that is put.
    fn split(&mut self, s: CountedSegment, m: Meeting) -> Result<(), AllocError>
        requires proper { same_point s.0.0 s.0.1 ≡ false }
        requires meets { Meets s.0 m.0 m.1 }
        requires lives { pos 0 <ℤ exactly m.0 self.old.live }
        requires room { IsRoomy (total_weight self.old.todo self.old.live +ℤ weight s) }
        ensures { OnOk result (Settles self.old.log self.old.todo self.old.live
            self.new.log self.new.todo self.new.live s) }
    {
        if is_end(m.1, m.0) {
            self.split_at(s, m.1)?;
            return Ok(());
        }
        let other = self.live.remove(m.0);
        if is_end(m.1, s.0) {
            self.put(s)?;
            self.split_at(other, m.1)?;
            return Ok(());
        }
        self.split_at(s, m.1)?;
        self.split_at(other, m.1)?;
        Ok(())
    }

    /// The given edges, all of which wait, those with the same ends as one segment. The plane serves for others, which
    /// are to live.
    pub fn of_edges(
        alloc: Global,
        edges: &[LatticeEdge],
        others: &[LatticeEdge],
    ) -> Result<Self, AllocError>
        requires { IsProper edges.now }
        ensures pile { IfOk result (λ s. IsPile edges.now s.log s.todo s.live) }
        ensures clear { IfOk result (λ s. AllClear s.live) }
        ensures none_lives { IfOk result (λ s. s.live ≡ []) }
    {
        let mut splitter = Splitter::new(alloc, others, edges.len())?;
        for e in edges {
            splitter.put(single(*e))?;
        }
        Ok(splitter)
    }

    /// Splits a live segment and another one that it meets.
    pub fn split_live(&mut self, first: LatticeEdge, m: Meeting) -> Result<(), AllocError>
        requires first_lives { pos 0 <ℤ exactly first self.old.live }
        requires second_lives { pos 0 <ℤ exactly m.0 self.old.live }
        requires meets { Meets first m.0 m.1 }
        requires room { total_weight self.old.todo self.old.live ≤ℤ pos (2 ^ 97) }
        ensures { OnOk result (KeepsPile self.old.log self.old.todo self.old.live
            self.new.log self.new.todo self.new.live) }
    {
        let s = self.live.remove(first);
        self.split(s, m)?;
        Ok(())
    }

    /// Splits two waiting segments that meet.
    pub fn split_waiting(&mut self, first: LatticeEdge, m: Meeting) -> Result<(), AllocError>
        requires first_waits { Waits first self.old.todo }
        requires second_waits { Waits m.0 self.old.todo }
        requires meets { Meets first m.0 m.1 }
        requires none_lives { self.old.live ≡ [] }
        requires room { total_weight self.old.todo self.old.live ≤ℤ pos (2 ^ 97) }
        ensures kept { OnOk result (KeepsPile self.old.log self.old.todo self.old.live
            self.new.log self.new.todo self.new.live) }
        ensures none_lives { OnOk result (self.new.live ≡ []) }
        ensures grows { OnOk result (Grows self.old.todo self.new.todo (pieces_of first m)) }
    {
        let s = self.todo.remove(first);
        if is_end(m.1, m.0) {
            self.split_at(s, m.1)?;
            return Ok(());
        }
        let other = self.todo.remove(m.0);
        if is_end(m.1, first) {
            self.put(s)?;
            self.split_at(other, m.1)?;
            return Ok(());
        }
        self.split_at(s, m.1)?;
        self.split_at(other, m.1)?;
        Ok(())
    }

    /// The live segments alone, which all wait again.
    pub fn again(self, alloc: Global) -> Result<Self, AllocError>
        ensures todo { IfOk result (λ s. s.todo ≡ self.live) }
        ensures live { IfOk result (λ s. s.live ≡ []) }
        ensures log { IfOk result (λ s. s.log ≡ self.log) }
    {
        let ends = self.live.ends(alloc)?;
        let live = Store::new(alloc, &ends)?;
        Ok(Splitter {
            todo: self.live.into_worklist(alloc),
            live,
            log: self.log,
        })
    }

    /// The waiting segments as a list, with the splits that led to them.
    pub fn into_settled(self, alloc: Global) -> Result<Settled, AllocError>
        ensures segments { IfOk result (λ s. s.segments.items ≡ self.todo) }
        ensures log { IfOk result (λ s. s.log ≡ self.log) }
    {
        let segments = self.todo.into_segments(alloc)?;
        Ok(Settled {
            segments,
            log: self.log,
        })
    }

    /// Makes a segment live, or splits it.
    pub fn settle(&mut self, s: CountedSegment) -> Result<(), AllocError>
        requires forward { IsForward s.0 }
        requires absent { times s.0 self.old.live ≡ pos 0 }
        requires room { IsRoomy (total_weight self.old.todo self.old.live +ℤ weight s) }
        ensures { OnOk result (Settles self.old.log self.old.todo self.old.live
            self.new.log self.new.todo self.new.live s) }
    {
        if let Some(m) = self.live.conflict(s.0) {
            self.split(s, m)?;
            return Ok(());
        }
        self.live.insert(s)?;
        Ok(())
    }

    /// The same where the leash lets it. Else the segment is made live, whatever it meets. Answers whether the live ones
    /// are clear of each other still, if they were.
    pub fn settle_leashed(
        &mut self,
        s: CountedSegment,
        leash: &mut Leash,
        were_clear: bool,
    ) -> Result<bool, AllocError>
        requires forward { IsForward s.0 }
        requires absent { times s.0 self.old.live ≡ pos 0 }
        requires room { IsRoomy (total_weight self.old.todo self.old.live +ℤ weight s) }
        ensures moves { OnOk result (Moves self.old.log self.old.todo self.old.live
            self.new.log self.new.todo self.new.live s) }
        ensures clear { IfOk result (λ b. b ≡ true →
            (were_clear ≡ true → AllClear self.old.live) → AllClear self.new.live) }
    {
        let Some(m) = self.live.conflict(s.0) else {
            self.live.insert(s)?;
            return Ok(were_clear);
        };
        if leash.allows(s.0, m, &self.log)? {
            self.split(s, m)?;
            return Ok(were_clear);
        }
        self.live.insert(s)?;
        Ok(false)
    }
}
