//! Rows along a slanted direction. Where most segments reach most heights, as in a hatch of long parallel strips, rows
//! to the east are long, and those along the strips are short. The winding round a point is a sum over such a row too.

ghost use Rattle.std.specs.Prelude.{◌≡◌, ◌+◌, ◌^◌, ◌≤ℤ◌, ◌*ℤ◌, pos, map, length, unsigned_abs, IfOk, IfSome, Vec};
ghost use Rattle.std.specs.declared.alloc.Global.{Global};
ghost use Rattle.mesh_plane.specs.Bounds.{IsSmall, IsSafe};
ghost use Rattle.mesh_plane.specs.Plane.{Edge, cross};
ghost use Rattle.mesh_plane.specs.Winding.{refined};
ghost use Rattle.mesh_lattice.specs.Boundary.{middle};
ghost use Rattle.mesh_lattice.specs.Counted.{Counted, bit, size, IsRoomy};
ghost use Rattle.mesh_lattice.specs.Lists.{list_at};
ghost use Rattle.mesh_lattice.specs.Marks.{place, AreRising};
ghost use Rattle.mesh_boundary.specs.Private.Slants.{is_between, slanted_crossing, level_of, leveled_by, AreSlantedRows};
ghost use Rattle.mesh_boundary.specs.Private.Slants.{IsSlant, listed_winding, listed_size};

use mesh_lattice::exact::{Vector, cross, minus};
use mesh_lattice::fine::{FinePoint, crossing, doubled, middle};
use mesh_lattice::lattice::{CountedSegment, LatticeEdge, LatticePoint};
use mesh_lattice::rows::{Rows, SAMPLED, mean_reached};
use mesh_lattice::samples::sample;
use std::alloc::{AllocError, Global};
use std::marker::Model;

/// About how many levels the ends of segments have.
const LEVELS: u128 = 1 << 30;

/// The highest level.
const HIGHEST: u128 = (1 << 31) - 1;

/// A segment, and an edge between the levels of its ends.
type Leveled = (LatticeEdge, CountedSegment);

/// A direction upwards, and levels across it: numbers counted in steps from a base up. Contracts see the direction, the
/// base and the step.
#[derive(Copy, Clone)]
pub struct Slant {
    direction: Vector,
    base: i128,
    step: u128,
}

impl Model for Slant {
    ghost use Rattle.std.specs.Prelude.{ℕ, ℤ};
    ghost use Rattle.mesh_boundary.specs.Private.Slants.{IsSlant};

    ghost Value = { (ℤ × ℤ) × (ℤ × ℕ) };

    ghost view = { λ s. (s.direction, (s.base, s.step)) };

    ghost invariant = { λ s. IsSlant (s.direction, (s.base, s.step)) };

    ghost inverse = { λ v. record { direction = v.0; base = v.1.0; step = v.1.1 } };
}

/// How far to the left of the direction a point lies.
fn across(direction: Vector, p: LatticePoint) -> i128
    requires { IsSafe (2 ^ 32) direction }
    ensures value { result ≡ cross direction p }
    ensures size { IsSmall (2 ^ 65) result }
{
    cross(direction, (p.0 as i128, p.1 as i128))
}

/// How far to the left of the direction a point of the fine grid lies, which is one of the grid.
fn fine_across(direction: Vector, p: LatticePoint) -> i128
    requires { IsSafe (2 ^ 32) direction }
    ensures value { result ≡ cross direction (refined 2 p) }
    ensures size { IsSmall (2 ^ 66) result }
{
    2 * across(direction, p)
}

/// 1 where it holds, else 0.
fn bit(holds: bool) -> i128
    ensures value { result ≡ bit holds }
    ensures size { IsSmall 2 result }
{
    if holds { 1 } else { 0 }
}

impl Slant {
    /// A direction and its levels, if it leads upwards.
    fn new(direction: Vector, base: i128, step: u128) -> Option<Slant>
        requires { IsSafe (2 ^ 32) direction }
    {
        if direction.1 <= 0 || step == 0 || base.unsigned_abs() >= 1 << 68 {
            return None;
        }
        Some(Slant {
            direction,
            base,
            step,
        })
    }

    /// The level of a number.
    fn level(self, z: i128) -> i32
        requires { IsSmall (2 ^ 67) z }
        ensures { result ≡ level_of self.1.0 self.1.1 z }
    {
        if z <= self.base {
            return 0;
        }
        let steps = (z - self.base).unsigned_abs() / self.step;
        steps.min(HIGHEST) as i32
    }

    /// The level of a segment's end.
    fn end_level(self, p: LatticePoint) -> i32
        ensures { result ≡ level_of self.1.0 self.1.1 (cross self.0 (refined 2 p)) }
    {
        self.level(fine_across(self.direction, p))
    }

    /// The segment with the levels of its ends.
    fn leveled(self, s: CountedSegment) -> Leveled
        ensures { result ≡ leveled_by self s }
    {
        let (start, end) = s.0;
        (((0, self.end_level(start)), (0, self.end_level(end))), s)
    }

    /// The segments with the levels of their ends.
    fn leveled_all(
        self,
        alloc: Global,
        segments: &[CountedSegment],
    ) -> Result<Vec<Leveled>, AllocError>
        ensures { IfOk result (λ v. v.items ≡ map (leveled_by self) segments.now) }
    {
        let mut listed = Vec::with_capacity(alloc, segments.len())?;
        for s in segments {
            listed.push(self.leveled(*s))?;
        }
        Ok(listed)
    }

    /// How far to the left of the direction the midpoint of an edge lies.
    pub fn middle_across(self, e: LatticeEdge) -> i128
        ensures slant { IsSlant self }
        ensures value { result ≡ cross self.0 (middle e) }
        ensures size { IsSmall (2 ^ 66) result }
    {
        across(self.direction, e.0) + across(self.direction, e.1)
    }

    /// Whether the point lies between the ray from `q` to the east and that along the direction; `at` says how far to
    /// the left of the direction `q` lies.
    fn is_between(self, q: FinePoint, at: i128, p: LatticePoint) -> bool
        requires { at ≡ cross self.0 q }
        ensures { result ≡ is_between self.0 q (refined 2 p) }
    {
        q.height() < doubled(p).height() && fine_across(self.direction, p) <= at
    }

    /// The slanted crossing of an edge at a point.
    fn slanted_crossing(self, q: FinePoint, at: i128, e: LatticeEdge) -> i128
        requires { at ≡ cross self.0 q }
        ensures value { result ≡ slanted_crossing self.0 q e }
        ensures size { IsSmall 4 result }
    {
        let gained = bit(self.is_between(q, at, e.0)) - bit(self.is_between(q, at, e.1));
        crossing(q, doubled(e.0), doubled(e.1)) + gained
    }

    /// A segment's slanted crossing at a point, as often as it counts.
    fn counted_crossing(self, q: FinePoint, at: i128, s: CountedSegment) -> i128
        requires at { at ≡ cross self.0 q }
        requires count_small { IsRoomy (size s) }
        ensures value { result ≡ s.1 *ℤ slanted_crossing self.0 q s.0 }
        ensures size { pos (unsigned_abs result) ≤ℤ (pos 3 *ℤ size s) }
    {
        s.1 * self.slanted_crossing(q, at, s.0)
    }

    /// How often listed segments wind round a point by slanted crossings.
    pub fn winding(self, row: &[Leveled], q: FinePoint, at: i128) -> i128
        requires at { at ≡ cross self.0 q }
        requires room { IsRoomy (listed_size row.now) }
        ensures value { result ≡ listed_winding self.0 q row.now }
        ensures size { IsSmall (2 ^ 122) result }
    {
        let mut sum: i128 = 0;
        for e in row {
            sum += self.counted_crossing(q, at, e.1);
        }
        sum
    }
}

/// Segments listed by the rows along a slant that they reach.
#[derive(Drop)]
pub struct SlantedRows {
    pub slant: Slant,
    pub rows: Rows<CountedSegment>,
}

impl SlantedRows {
    /// The segments of the row of a point that lies so far to the left of the direction, among them all that reach both
    /// sides of the line through it along the direction.
    pub fn row(&self, at: i128) -> &[Leveled]
        requires at { IsSmall (2 ^ 66) at }
        requires rising { AreRising self.now.rows.marks.items }
        requires len { length self.now.rows.lists.items ≡ length self.now.rows.marks.items + 1 }
        ensures { (d : Vec (Edge × Counted) Global) → result.now ≡ list_at self.now.rows.lists.items
            (place self.now.rows.marks.items (pos 2 *ℤ level_of self.now.slant.1.0 self.now.slant.1.1 at)) d }
    {
        self.rows.row(doubled((0, self.slant.level(at))))
    }
}

/// The longest of some of the segments.
fn longest(alloc: Global, segments: &[CountedSegment]) -> Result<Option<LatticeEdge>, AllocError> {
    let mut found: Option<LatticeEdge> = None;
    let mut length: u128 = 0;
    for s in &sample(alloc, segments, SAMPLED)? {
        let v = minus(s.0.1, s.0.0);
        let here = v.0.unsigned_abs().saturating_add(v.1.unsigned_abs());
        if here > length {
            length = here;
            found = Some(s.0);
        }
    }
    Ok(found)
}

/// The direction along an edge, and levels in which all segments lie.
fn slant_along(segments: &[CountedSegment], e: LatticeEdge) -> Option<Slant> {
    let (start, end) = e;
    let direction = if end.1 < start.1 {
        minus(start, end)
    } else {
        minus(end, start)
    };
    let mut least = i128::MAX;
    let mut greatest = i128::MIN;
    for s in segments {
        let first = fine_across(direction, s.0.0);
        let second = fine_across(direction, s.0.1);
        least = least.min(first.min(second));
        greatest = greatest.max(first.max(second));
    }
    let step = greatest.saturating_sub(least).unsigned_abs() / LEVELS;
    Slant::new(direction, least, step.saturating_add(1))
}

/// The rows of segments along the direction of a long one, if a segment reaches at most so many ends of others there,
/// on average.
pub fn slanted_rows(
    alloc: Global,
    segments: &[CountedSegment],
    most: usize,
) -> Result<Option<SlantedRows>, AllocError>
    ensures { IfOk result (λ o. IfSome o (λ r. AreSlantedRows r.slant r.rows segments.now)) }
{
    let Some(long) = longest(alloc, segments)? else {
        return Ok(None);
    };
    let Some(slant) = slant_along(segments, long) else {
        return Ok(None);
    };
    let listed = slant.leveled_all(alloc, segments)?;
    if mean_reached(alloc, &listed)?.others > most {
        return Ok(None);
    }
    let rows = Rows::new(alloc, &listed)?;
    Ok(Some(SlantedRows { slant, rows }))
}
