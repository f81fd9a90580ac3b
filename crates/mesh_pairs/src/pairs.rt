//! Which edges meet, and which lie so close that they may meet once both are bent.

ghost use Rattle.std.specs.Prelude.{◌≡◌, ◌↔◌, ℕ, ◌+◌, ◌*◌, ◌/◌, ◌^◌, ◌<◌, ◌⊎◌, ◌≤◌, List, IsTrue, false, length, ℤ, pos, neg_ℤ, ◌-ℤ◌, ◌<ℤ◌, unsigned_abs};
ghost use Rattle.std.specs.Prelude.{IfOk, IfSome, OnOk, MatchResult};
ghost use Rattle.std.specs.List.{All, Contains};
ghost use Rattle.mesh_plane.specs.Bounds.{IsSmall, IsSafe};
ghost use Rattle.mesh_plane.specs.Plane.{Point, minus, cross, turn};
ghost use Rattle.mesh_lattice.specs.Split.{AreClear, AreOpposite, IsCrossing, IsInside};
ghost use Rattle.mesh_meeting.specs.Small.{HasSmallEnds};
ghost use Rattle.mesh_points.specs.Edges.{edge_at};
ghost use Rattle.mesh_pairs.specs.Pairs.{AreBoxesApart, AreFound, AreListed, AreSmall, IsClose, IsEndOf, IsMeeting, IsOf, IsSettled, ShareEnd, ends_at};
ghost use Rattle.mesh_pairs.specs.Private.Growth.{Grows};
ghost use Rattle.mesh_pairs.specs.Private.Lines.{AreSidesOf, HaveNoEndInside, IsLine};
ghost use Rattle.mesh_pairs.specs.Private.Trees.{IsTreeOf};

use crate::boxes::{Bounds, LANES};
use crate::places::take_first;
use crate::tree::Tree;
use mesh_lattice::exact::is_end;
use mesh_lattice::lattice::{LatticeEdge, LatticePoint};
use mesh_meeting::vectors::{Vector, cross, minus};
use mesh_points::edges::NumberedEdge;
use std::alloc::{AllocError, Global};
use std::num::{nearest_i64_to_f64, saturating_f64_to_i32};

/// How many grid units an edge may be bent within its box before pairs that are neither listed as meeting nor as close
/// have to be looked at.
pub const LEASH: u64 = 8;

/// No number of a point.
pub const NO_POINT: u32 = u32::MAX;

/// More meetings are refused as memory is.
const MOST_MEETINGS: usize = (1 << 32) - 4;

/// Two edges that meet, about where they do, and which end of the second lies inside the first, if one does.
#[derive(Copy, Clone)]
pub struct Meeting {
    pub first: u32,
    pub second: u32,
    pub near: LatticePoint,
    /// The number of that end, which then lies at `near`, or `NO_POINT` where the two cross.
    pub end: u32,
}

/// What is known of pairs of edges.
#[derive(Drop)]
pub struct Pairs {
    pub meetings: Vec<Meeting>,
    pub close: Vec<(u32, u32)>,
    /// For each edge 2 more than how many meetings are of it.
    pub room: Vec<u32>,
}

/// An edge with what judging it takes.
#[derive(Copy, Clone)]
struct Line {
    ends: LatticeEdge,
    along: Vector,
    /// How far beside it, as a turn, what lies twice the leash away is.
    limit: i64,
}

/// How far the two ends of an edge lie beside a line, as turns.
type Sides = (i64, i64);

/// The sides of the second of two edges beside the first, and of the first beside the second.
#[derive(Copy, Clone)]
struct BothSides {
    second: Sides,
    first: Sides,
}

/// How far beside a line that leads so, as a turn, what lies twice the leash away is.
fn limit_of(along: Vector) -> i64
    requires { IsSafe (2 ^ 31) along }
    ensures value { result ≡ pos (16 * (unsigned_abs along.0 + unsigned_abs along.1)) }
    ensures size { IsSmall (2 ^ 40) result }
{
    (2 * LEASH * (along.0.unsigned_abs() + along.1.unsigned_abs())) as i64
}

fn line_of(e: NumberedEdge) -> Line
    requires start { IsSafe (2 ^ 30) e.start }
    requires end { IsSafe (2 ^ 30) e.end }
    ensures ends { result.ends ≡ (e.start, e.end) }
    ensures line { IsLine result }
{
    let along = minus(e.end, e.start);
    Line {
        ends: (e.start, e.end),
        along,
        limit: limit_of(along),
    }
}

/// Those of the second edge beside the first. `turned` is the cross product of both.
fn sides_of(e: Line, f: Line, turned: i64) -> Sides
    requires first { IsLine e }
    requires second { IsLine f }
    requires turned { turned ≡ cross e.along f.along }
    ensures value { result ≡ (turn e.ends.0 e.ends.1 f.ends.0, turn e.ends.0 e.ends.1 f.ends.1) }
    ensures size { IsSafe (2 ^ 63) result }
{
    let start = cross(e.along, minus(f.ends.0, e.ends.0));
    (start, start + turned)
}

/// Whether both ends lie on one side, by more than a limit.
fn are_beyond(s: Sides, limit: i64) -> bool
    requires { IsSmall (2 ^ 40) limit }
    ensures { IsTrue result → ((limit <ℤ s.0) × (limit <ℤ s.1)) ⊎ ((s.0 <ℤ neg_ℤ limit) × (s.1 <ℤ neg_ℤ limit)) }
{
    (s.0 > limit && s.1 > limit) || (s.0 < -limit && s.1 < -limit)
}

fn are_opposite(s: Sides) -> bool
    ensures { IsTrue result ↔ AreOpposite s.0 s.1 }
{
    (s.0 < 0) != (s.1 < 0) && s.0 != 0 && s.1 != 0
}

/// Whether a point that lies so far beside an edge's line lies on the edge and is none of its ends.
fn is_inside(e: LatticeEdge, c: LatticePoint, beside: i64) -> bool
    requires { beside ≡ turn e.0 e.1 c }
    ensures { IsTrue result ↔ IsInside e c }
{
    if beside != 0 {
        return false;
    }
    if !Bounds::of(e.0, e.1).holds(c) {
        return false;
    }
    if is_end(c, e) {
        return false;
    }
    true
}

/// Whether two edges cross.
fn do_cross(e: LatticeEdge, f: LatticeEdge, sides: BothSides) -> bool
    requires { AreSidesOf e f sides }
    ensures { IsTrue result ↔ IsCrossing e f }
{
    if !are_opposite(sides.second) {
        return false;
    }
    are_opposite(sides.first)
}

/// A part of a coordinate's way.
fn on_the_way(start: i32, end: i32, part: f64) -> i32 {
    let start = start as f64;
    saturating_f64_to_i32(start + part * (end as f64 - start))
}

/// About where an edge whose ends lie so far beside a line crosses it.
fn near_crossing(e: LatticeEdge, s: Sides) -> LatticePoint
    requires size { IsSmall (2 ^ 63) (s.0 -ℤ s.1) }
{
    let part = nearest_i64_to_f64(s.0) / nearest_i64_to_f64(s.0 - s.1);
    (
        on_the_way(e.0.0, e.1.0, part),
        on_the_way(e.0.1, e.1.1, part),
    )
}

fn share_end(e: NumberedEdge, f: NumberedEdge) -> bool
    ensures { IsTrue result ↔ ShareEnd e f }
{
    if e.from == f.from {
        return true;
    }
    if e.from == f.to {
        return true;
    }
    if e.to == f.from {
        return true;
    }
    e.to == f.to
}

impl Pairs {
    /// Notes that two edges meet.
    fn note(&mut self, m: Meeting) -> Result<(), AllocError>
        requires first { m.first < length self.old.room.items }
        requires second { m.second < length self.old.room.items }
        requires two { m.first ≡ m.second → ⊥ }
        requires room { All (λ n. n ≤ 2 + length self.old.meetings.items) self.old.room.items }
        ensures noted { OnOk result (Contains self.new.meetings.items m) }
        ensures grows { OnOk result (Grows self.old self.new) }
        ensures listed { OnOk result ((es : List NumberedEdge) → AreListed es self.old → IsMeeting es m → AreListed es self.new) }
    {
        if self.meetings.len() >= MOST_MEETINGS {
            return Err(AllocError);
        }
        self.room[m.first as usize] += 1;
        self.room[m.second as usize] += 1;
        self.meetings.push(m)?;
        Ok(())
    }

    /// Notes that the second edge has this end, which lies so far beside the first, inside it, if it does.
    fn note_end(
        &mut self,
        edges: &[NumberedEdge],
        i: usize,
        j: usize,
        end: u32,
        at: LatticePoint,
        beside: i64,
    ) -> Result<bool, AllocError>
        requires first { i < length edges.now }
        requires second { j < length edges.now }
        requires two { i ≡ j → ⊥ }
        requires few { length edges.now < 2 ^ 31 }
        requires beside { beside ≡ turn (edge_at edges.now i).start (edge_at edges.now i).end at }
        requires end { IsEndOf (edge_at edges.now j) end at }
        requires listed { AreListed edges.now self.old }
        ensures listed { OnOk result (AreListed edges.now self.new) }
        ensures grows { OnOk result (Grows self.old self.new) }
        ensures none { IfOk result (λ b. b ≡ false → IsInside (ends_at edges.now i) at → ⊥) }
        ensures settled { IfOk result (λ b. IsTrue b → IsSettled edges.now self.new.meetings.items self.new.close.items i j) }
        ensures turned { IfOk result (λ b. IsTrue b → IsSettled edges.now self.new.meetings.items self.new.close.items j i) }
    {
        let e = edges[i];
        if !is_inside((e.start, e.end), at, beside) {
            return Ok(false);
        }
        self.note(Meeting {
            first: i as u32,
            second: j as u32,
            near: at,
            end,
        })?;
        Ok(true)
    }

    /// Notes that two edges cross, about where they do.
    fn note_crossing(
        &mut self,
        edges: &[NumberedEdge],
        i: usize,
        j: usize,
        near: LatticePoint,
    ) -> Result<(), AllocError>
        requires rising { i < j }
        requires within { j < length edges.now }
        requires few { length edges.now < 2 ^ 31 }
        requires cross { IsCrossing (ends_at edges.now i) (ends_at edges.now j) }
        requires listed { AreListed edges.now self.old }
        ensures listed { OnOk result (AreListed edges.now self.new) }
        ensures grows { OnOk result (Grows self.old self.new) }
        ensures settled { OnOk result (IsSettled edges.now self.new.meetings.items self.new.close.items i j) }
    {
        self.note(Meeting {
            first: i as u32,
            second: j as u32,
            near,
            end: NO_POINT,
        })?;
        Ok(())
    }

    /// Notes a pair that neither meets nor shares an end.
    fn note_close(&mut self, i: usize, j: usize) -> Result<(), AllocError>
        requires first { i < 2 ^ 32 }
        requires second { j < 2 ^ 32 }
        ensures noted { OnOk result (Contains self.new.close.items (i, j)) }
        ensures grows { OnOk result (Grows self.old self.new) }
        ensures listed { OnOk result ((es : List NumberedEdge) → AreListed es self.old → IsClose es (i, j)
            → AreListed es self.new) }
    {
        self.close.push((i as u32, j as u32))?;
        Ok(())
    }

    /// Notes that the second edge has an end inside the first, for each that lies there, and whether any does. Both lie so
    /// far beside the first.
    fn note_ends_of(
        &mut self,
        edges: &[NumberedEdge],
        i: usize,
        j: usize,
        beside: Sides,
    ) -> Result<bool, AllocError>
        requires first { i < length edges.now }
        requires second { j < length edges.now }
        requires two { i ≡ j → ⊥ }
        requires few { length edges.now < 2 ^ 31 }
        requires starts { beside.0 ≡ turn (edge_at edges.now i).start (edge_at edges.now i).end (edge_at edges.now j).start }
        requires ends { beside.1 ≡ turn (edge_at edges.now i).start (edge_at edges.now i).end (edge_at edges.now j).end }
        requires listed { AreListed edges.now self.old }
        ensures listed { OnOk result (AreListed edges.now self.new) }
        ensures grows { OnOk result (Grows self.old self.new) }
        ensures settled { IfOk result (λ b. IsTrue b
            → IsSettled edges.now self.new.meetings.items self.new.close.items i j) }
        ensures turned { IfOk result (λ b. IsTrue b
            → IsSettled edges.now self.new.meetings.items self.new.close.items j i) }
        ensures starts { IfOk result (λ b. b ≡ false → IsInside (ends_at edges.now i) (edge_at edges.now j).start → ⊥) }
        ensures ends { IfOk result (λ b. b ≡ false → IsInside (ends_at edges.now i) (edge_at edges.now j).end → ⊥) }
    {
        let f = edges[j];
        let starts = self.note_end(edges, i, j, f.from, f.start, beside.0)?;
        let ends = self.note_end(edges, i, j, f.to, f.end, beside.1)?;
        if starts {
            return Ok(true);
        }
        Ok(ends)
    }

    /// Notes that an end of one of two edges lies inside the other, for each that does, and whether any does.
    fn note_ends(
        &mut self,
        edges: &[NumberedEdge],
        i: usize,
        j: usize,
        sides: BothSides,
    ) -> Result<bool, AllocError>
        requires rising { i < j }
        requires within { j < length edges.now }
        requires few { length edges.now < 2 ^ 31 }
        requires sides { AreSidesOf (ends_at edges.now i) (ends_at edges.now j) sides }
        requires listed { AreListed edges.now self.old }
        ensures listed { OnOk result (AreListed edges.now self.new) }
        ensures grows { OnOk result (Grows self.old self.new) }
        ensures some { IfOk result (λ b. IsTrue b
            → IsSettled edges.now self.new.meetings.items self.new.close.items i j) }
        ensures none { IfOk result (λ b. b ≡ false → HaveNoEndInside (ends_at edges.now i) (ends_at edges.now j)) }
    {
        let second = self.note_ends_of(edges, i, j, sides.second)?;
        let first = self.note_ends_of(edges, j, i, sides.first)?;
        if second {
            return Ok(true);
        }
        Ok(first)
    }

    /// Notes a pair that does not cross, if it meets or is close.
    fn judge_ends(
        &mut self,
        edges: &[NumberedEdge],
        i: usize,
        j: usize,
        sides: BothSides,
    ) -> Result<(), AllocError>
        requires rising { i < j }
        requires within { j < length edges.now }
        requires few { length edges.now < 2 ^ 31 }
        requires sides { AreSidesOf (ends_at edges.now i) (ends_at edges.now j) sides }
        requires apart { IsCrossing (ends_at edges.now i) (ends_at edges.now j) → ⊥ }
        requires listed { AreListed edges.now self.old }
        ensures listed { OnOk result (AreListed edges.now self.new) }
        ensures grows { OnOk result (Grows self.old self.new) }
        ensures settled { OnOk result (IsSettled edges.now self.new.meetings.items self.new.close.items i j) }
    {
        let met = self.note_ends(edges, i, j, sides)?;
        if met {
            return Ok(());
        }
        if share_end(edges[i], edges[j]) {
            return Ok(());
        }
        self.note_close(i, j)?;
        Ok(())
    }

    /// Notes a pair that no line along either parts by more than twice the leash.
    fn judge_near(
        &mut self,
        edges: &[NumberedEdge],
        i: usize,
        j: usize,
        e: LatticeEdge,
        f: LatticeEdge,
        sides: BothSides,
    ) -> Result<(), AllocError>
        requires rising { i < j }
        requires within { j < length edges.now }
        requires few { length edges.now < 2 ^ 31 }
        requires first { e ≡ ends_at edges.now i }
        requires second { f ≡ ends_at edges.now j }
        requires sides { AreSidesOf e f sides }
        requires listed { AreListed edges.now self.old }
        ensures listed { OnOk result (AreListed edges.now self.new) }
        ensures grows { OnOk result (Grows self.old self.new) }
        ensures settled { OnOk result (IsSettled edges.now self.new.meetings.items self.new.close.items i j) }
    {
        if do_cross(e, f, sides) {
            self.note_crossing(edges, i, j, near_crossing(e, sides.first))?;
            return Ok(());
        }
        self.judge_ends(edges, i, j, sides)?;
        Ok(())
    }

    /// Notes a pair, unless the line along its second edge parts them by more than twice the leash.
    #[inline]
    fn judge_back(
        &mut self,
        edges: &[NumberedEdge],
        i: usize,
        j: usize,
        e: Line,
        f: Line,
        turned: i64,
        second: Sides,
    ) -> Result<(), AllocError>
        requires rising { i < j }
        requires within { j < length edges.now }
        requires few { length edges.now < 2 ^ 31 }
        requires first_line { IsLine e }
        requires second_line { IsLine f }
        requires first_ends { e.ends ≡ ends_at edges.now i }
        requires second_ends { f.ends ≡ ends_at edges.now j }
        requires turned { turned ≡ cross e.along f.along }
        requires size { IsSmall (2 ^ 63) turned }
        requires second { second ≡ (turn e.ends.0 e.ends.1 f.ends.0, turn e.ends.0 e.ends.1 f.ends.1) }
        requires listed { AreListed edges.now self.old }
        ensures listed { OnOk result (AreListed edges.now self.new) }
        ensures grows { OnOk result (Grows self.old self.new) }
        ensures settled { OnOk result (IsSettled edges.now self.new.meetings.items self.new.close.items i j) }
    {
        let first = sides_of(f, e, -turned);
        if are_beyond(first, f.limit) {
            return Ok(());
        }
        self.judge_near(edges, i, j, e.ends, f.ends, BothSides { second, first })?;
        Ok(())
    }

    /// Notes a pair whose boxes meet, unless a line along one of both parts them by more than twice the leash.
    #[inline]
    fn judge(
        &mut self,
        edges: &[NumberedEdge],
        i: usize,
        j: usize,
        e: Line,
    ) -> Result<(), AllocError>
        requires rising { i < j }
        requires within { j < length edges.now }
        requires few { length edges.now < 2 ^ 31 }
        requires small { AreSmall edges.now }
        requires line { IsLine e }
        requires ends { e.ends ≡ ends_at edges.now i }
        requires listed { AreListed edges.now self.old }
        ensures listed { OnOk result (AreListed edges.now self.new) }
        ensures grows { OnOk result (Grows self.old self.new) }
        ensures settled { OnOk result (IsSettled edges.now self.new.meetings.items self.new.close.items i j) }
    {
        let f = line_of(edges[j]);
        let turned = cross(e.along, f.along);
        let second = sides_of(e, f, turned);
        if are_beyond(second, e.limit) {
            return Ok(());
        }
        self.judge_back(edges, i, j, e, f, turned, second)?;
        Ok(())
    }

    /// Judges the pairs of an edge with those after it in a run.
    fn find_in(
        &mut self,
        edges: &[NumberedEdge],
        tree: &Tree,
        i: usize,
        e: Line,
        run: usize,
    ) -> Result<(), AllocError>
        requires tree { IsTreeOf edges.now tree.now }
        requires within { i < length edges.now }
        requires later { i / 8 ≤ run }
        requires run { run < tree.now.runs }
        requires few { length edges.now < 2 ^ 31 }
        requires small { AreSmall edges.now }
        requires line { IsLine e }
        requires ends { e.ends ≡ ends_at edges.now i }
        requires listed { AreListed edges.now self.old }
        ensures listed { OnOk result (AreListed edges.now self.new) }
        ensures grows { OnOk result (Grows self.old self.new) }
        ensures settled { OnOk result ((j : ℕ) → j / 8 ≡ run → i < j → j < length edges.now
            → IsSettled edges.now self.new.meetings.items self.new.close.items i j) }
    {
        let mut places = tree.meeting_after(i, run);
        while places != 0 {
            let j = run * LANES + take_first(&mut places);
            self.judge(edges, i, j, e)?;
        }
        Ok(())
    }

    /// Judges the pairs of an edge with those after it in some runs.
    fn find_of(
        &mut self,
        edges: &[NumberedEdge],
        tree: &Tree,
        i: usize,
        runs: &[usize],
    ) -> Result<(), AllocError>
        requires tree { IsTreeOf edges.now tree.now }
        requires within { i < length edges.now }
        requires runs { All (λ r. (i / 8 ≤ r) × (r < tree.now.runs)) runs.now }
        requires few { length edges.now < 2 ^ 31 }
        requires small { AreSmall edges.now }
        requires listed { AreListed edges.now self.old }
        ensures listed { OnOk result (AreListed edges.now self.new) }
        ensures grows { OnOk result (Grows self.old self.new) }
        ensures settled { OnOk result ((j : ℕ) → Contains runs.now (j / 8) → i < j → j < length edges.now
            → IsSettled edges.now self.new.meetings.items self.new.close.items i j) }
    {
        let e = line_of(edges[i]);
        for run in runs {
            self.find_in(edges, tree, i, e, *run)?;
        }
        Ok(())
    }

    /// Judges the pairs of the edges of a run with those after them.
    fn find_from(
        &mut self,
        edges: &[NumberedEdge],
        tree: &Tree,
        run: usize,
        runs: &mut Vec<usize>,
    ) -> Result<(), AllocError>
        requires tree { IsTreeOf edges.now tree.now }
        requires run { run < tree.now.runs }
        requires few { length edges.now < 2 ^ 31 }
        requires small { AreSmall edges.now }
        requires listed { AreListed edges.now self.old }
        ensures listed { OnOk result (AreListed edges.now self.new) }
        ensures grows { OnOk result (Grows self.old self.new) }
        ensures settled { OnOk result ((i j : ℕ) → i / 8 ≡ run → i < j → j < length edges.now
            → IsSettled edges.now self.new.meetings.items self.new.close.items i j) }
    {
        tree.candidates(run, runs)?;
        let from = run * LANES;
        for i in from..(from + LANES).min(edges.len()) {
            self.find_of(edges, tree, i, runs)?;
        }
        Ok(())
    }

    /// Finds the pairs of edges that meet or are close. Any two others stay clear of each other while each is bent by at
    /// most 8 grid units in its own box, or share an end and else do not meet. `None` where more than `most` meet, or
    /// more are close.
    pub fn find(
        alloc: Global,
        edges: &[NumberedEdge],
        tree: &Tree,
        most: usize,
    ) -> Result<Option<Pairs>, AllocError>
        requires tree { IsTreeOf edges.now tree.now }
        requires few { length edges.now < 2 ^ 31 }
        requires small { AreSmall edges.now }
        ensures { IfOk result (λ o. IfSome o (λ p. AreFound edges.now p)) }
    {
        let mut pairs = Pairs {
            meetings: Vec::with_capacity(alloc, edges.len())?,
            close: Vec::new(alloc),
            room: vec![in alloc; 2; edges.len()]?,
        };
        let mut runs = Vec::with_capacity(alloc, 32)?;
        for run in 0..tree.runs() {
            pairs.find_from(edges, tree, run, &mut runs)?;
            if pairs.meetings.len() > most || pairs.close.len() > most {
                return Ok(None);
            }
        }
        Ok(Some(pairs))
    }
}
