//! Ends of segments listed by their points, so that what leaves a point is a sum over one list, the star of the point.
//! All lists stand in one vector, each in the part of a place.

ghost use Rattle.std.specs.Prelude.{◌≡◌, ℕ, ◌<◌, ◌+ℤ◌, ◌*ℤ◌, cond, true, List, [], length, map, IfOk, IfSome, OnOk};
ghost use Rattle.std.specs.List.{All};
ghost use Rattle.mesh_plane.specs.Plane.{Point, Edge};
ghost use Rattle.mesh_lattice.specs.Boundary.{rises};
ghost use Rattle.mesh_lattice.specs.Counted.{Counted, bit};
ghost use Rattle.mesh_lattice.specs.Split.{back};
ghost use Rattle.mesh_points.specs.Points.{AreDistinct, IsNumberOf};
ghost use Rattle.mesh_regions.specs.Star.{comes_before, leaves_before};
ghost use Rattle.mesh_boundary.specs.Private.Stars.{part, ends_at, star_at, ArePlaces};
ghost use Rattle.mesh_boundary.specs.Private.Stars.{leaving, fan_of, counted_before, IsParted, IsFiled, AreBothFiled};
ghost use Rattle.mesh_boundary.specs.Private.Stars.{AreAllAt, AreListed, AreStars, HaveStars, IsStar};

use mesh_lattice::exact::{same_point, turn};
use mesh_lattice::lattice::{CountedSegment, LatticeEdge, LatticePoint};
use mesh_points::points::Points;
use std::alloc::{AllocError, Global};

/// The greatest number of segments whose ends 32 bits count.
const MOST: usize = 2147483647;

/// An end of a segment: its index, and whether the segment starts there.
pub type End = (u32, bool);

/// Where the ends of a place stand: from which index on, and how many.
pub type Part = (u32, u32);

/// The places of an edge's ends.
pub type Ends = (u32, u32);

/// The ends of segments, listed by places, and the places of the ends of each segment. Each point has its place.
#[derive(Drop)]
pub struct Stars {
    pub parts: Vec<Part>,
    pub members: Vec<End>,
    pub ends: Vec<Ends>,
}

/// A point and its number.
#[derive(Copy, Clone)]
struct Known {
    at: LatticePoint,
    number: u32,
}

/// The number of a point, which is sought only where it is none of two points that are known.
#[inline]
fn number_of(points: &mut Points, known: (Known, Known), p: LatticePoint) -> Result<u32, AllocError>
    requires distinct { AreDistinct points.old }
    requires first { IsNumberOf points.old known.0.at known.0.number }
    requires second { IsNumberOf points.old known.1.at known.1.number }
    ensures distinct { OnOk result (AreDistinct points.new) }
    ensures number { IfOk result (λ n. IsNumberOf points.new p n) }
    ensures kept { OnOk result ((q : Point) (k : ℕ) → IsNumberOf points.old q k → IsNumberOf points.new q k) }
{
    if same_point(known.0.at, p) {
        return Ok(known.0.number);
    }
    if same_point(known.1.at, p) {
        return Ok(known.1.number);
    }
    Ok(points.number(p)?.number)
}

/// The places of the ends of segments: the numbers of their points, in the order in which they come. Points that come
/// together have near numbers, and most segments share an end with the one before them.
fn all_ends(
    alloc: Global,
    segments: &[CountedSegment],
    points: &mut Points,
) -> Result<Vec<Ends>, AllocError>
    requires none { points.old ≡ [] }
    ensures distinct { OnOk result (AreDistinct points.new) }
    ensures count { IfOk result (λ v. length v.items ≡ length segments.now) }
    ensures places { IfOk result (λ v. (at : Point → ℕ) → ArePlaces at points.new
        → v.items ≡ map (λ k. ends_at at k.0) segments.now) }
{
    let mut ends = Vec::with_capacity(alloc, segments.len())?;
    let some = Known {
        at: (0, 0),
        number: points.number((0, 0))?.number,
    };
    let mut known = (some, some);
    for s in segments {
        let start = number_of(points, known, s.0.0)?;
        let end = number_of(points, known, s.0.1)?;
        ends.push((start, end))?;
        known = (
            Known {
                at: s.0.0,
                number: start,
            },
            Known {
                at: s.0.1,
                number: end,
            },
        );
    }
    Ok(ends)
}

/// Counts one more at a place.
fn count_at(sizes: &mut Vec<u32>, i: u32) {
    let i = i as usize;
    if i < sizes.len() {
        sizes[i] = sizes[i].saturating_add(1);
    }
}

/// How many of the ends have each of so many places.
fn sizes_of(alloc: Global, ends: &[Ends], places: usize) -> Result<Vec<u32>, AllocError> {
    let mut sizes = vec![in alloc; 0; places]?;
    for e in ends {
        count_at(&mut sizes, e.0);
        count_at(&mut sizes, e.1);
    }
    Ok(sizes)
}

/// Parts of these sizes, one behind the other, with nothing in them yet.
fn parts_of(alloc: Global, sizes: &[u32]) -> Result<Vec<Part>, AllocError>
    ensures { IfOk result (λ v. (i : ℕ) → (part v.items i).1 ≡ 0) }
{
    let mut parts = Vec::with_capacity(alloc, sizes.len())?;
    let mut first: u32 = 0;
    for size in sizes {
        parts.push((first, 0))?;
        first = first.saturating_add(*size);
    }
    Ok(parts)
}

/// Puts an end down in the part of a place, if the next entry there is free, and says whether it was.
fn file(parts: &mut Vec<Part>, members: &mut Vec<End>, i: u32, x: End, free: u32) -> bool
    requires parted { IsParted parts.old.items members.old.items free }
    requires in_range { x.0 < free }
    ensures parted { IsParted parts.new.items members.new.items free }
    ensures filed { result ≡ true
        → IsFiled parts.old.items members.old.items parts.new.items members.new.items i x }
{
    let i = i as usize;
    if i >= parts.len() {
        return false;
    }
    let part = parts[i];
    let Some(more) = part.1.checked_add(1) else {
        return false;
    };
    let at = part.0 as usize + part.1 as usize;
    if at >= members.len() {
        return false;
    }
    if members[at].0 < free {
        return false;
    }
    members[at] = x;
    parts[i] = (part.0, more);
    true
}

/// Puts down both ends of a segment with an index, if there is room, and says whether there was.
fn file_both(parts: &mut Vec<Part>, members: &mut Vec<End>, ends: Ends, k: u32, free: u32) -> bool
    requires parted { IsParted parts.old.items members.old.items free }
    requires in_range { k < free }
    ensures parted { IsParted parts.new.items members.new.items free }
    ensures filed { result ≡ true
        → AreBothFiled parts.old.items members.old.items parts.new.items members.new.items ends k }
{
    if !file(parts, members, ends.0, (k, true), free) {
        return false;
    }
    file(parts, members, ends.1, (k, false), free)
}

/// Puts down the ends of all segments, if there is room, and says whether there was.
fn fill(parts: &mut Vec<Part>, members: &mut Vec<End>, ends: &[Ends], free: u32) -> bool
    requires empty { (i : ℕ) → (part parts.old.items i).1 ≡ 0 }
    requires len { length ends.now ≡ free }
    ensures parted { IsParted parts.new.items members.new.items free }
    ensures listed { result ≡ true → (at : Point → ℕ) (ks : List Counted)
        → ends.now ≡ map (λ k. ends_at at k.0) ks → AreListed at parts.new.items members.new.items ks free }
{
    for k in 0..free {
        if !file_both(parts, members, ends[k as usize], k, free) {
            return false;
        }
    }
    true
}

/// The place of an end, of those of both ends of its segment.
pub fn place_of(ends: Ends, x: End) -> u32
    ensures { result ≡ cond x.1 ends.0 ends.1 }
{
    if x.1 { ends.0 } else { ends.1 }
}

impl Stars {
    /// The stars of segments. Parts have room for the ends of their places, so that there is an answer; but nothing
    /// rests on that.
    pub fn new(alloc: Global, segments: &[CountedSegment]) -> Result<Option<Stars>, AllocError>
        ensures { IfOk result (λ o. IfSome o (λ r.
            AreStars r.parts.items r.members.items r.ends.items segments.now)) }
    {
        if segments.len() > MOST {
            return Ok(None);
        }
        // An entry is free as long as it has the index of no segment.
        let free = segments.len() as u32;
        let mut points = Points::with_capacity(alloc, segments.len() / 2)?;
        let ends = all_ends(alloc, segments, &mut points)?;
        let sizes = sizes_of(alloc, &ends, points.len())?;
        let mut parts = parts_of(alloc, &sizes)?;
        let mut members = vec![in alloc; (free, false); segments.len().saturating_mul(2)]?;
        if !fill(&mut parts, &mut members, &ends, free) {
            return Ok(None);
        }
        Ok(Some(Stars {
            parts,
            members,
            ends,
        }))
    }

    /// What is listed at a place.
    pub fn star(&self, i: u32) -> &[End]
        ensures within { (n : ℕ) → IsParted self.now.parts.items self.now.members.items n
            → All (λ x. x.0 < n) result.now }
        ensures star { (n : ℕ) → IsParted self.now.parts.items self.now.members.items n
            → result.now ≡ star_at self.now.parts.items self.now.members.items i }
    {
        let i = i as usize;
        if i >= self.parts.len() {
            return &self.members[0..0];
        }
        let part = self.parts[i];
        let first = part.0 as usize;
        let end = first + part.1 as usize;
        if end > self.members.len() {
            return &self.members[0..0];
        }
        &self.members[first..end]
    }

    /// What is listed at the place of an end.
    pub fn star_of(&self, x: End) -> &[End]
        requires { x.0 < length self.now.ends.items }
        ensures within { (n : ℕ) → IsParted self.now.parts.items self.now.members.items n
            → All (λ x. x.0 < n) result.now }
        ensures star { (es : List Edge) (ks : List Counted)
            → HaveStars es ks self.now.parts.items self.now.members.items self.now.ends.items
            → IsParted self.now.parts.items self.now.members.items (length ks)
            → IsStar es (leaving ks x).0.0 (fan_of ks result.now) }
        ensures all { (es : List Edge) (ks : List Counted)
            → HaveStars es ks self.now.parts.items self.now.members.items self.now.ends.items
            → IsParted self.now.parts.items self.now.members.items (length ks)
            → AreAllAt es ks (leaving ks x).0.0 result.now }
    {
        self.star(place_of(self.ends[x.0 as usize], x))
    }
}

/// Upwards, or level and to the west.
#[tactic(auto, unfolding(mesh_lattice::specs::Boundary::rises))]
pub fn rises(e: LatticeEdge) -> bool
    ensures { result ≡ rises e }
{
    if e.0.1 < e.1.1 {
        return true;
    }
    e.0.1 == e.1.1 && e.1.0 < e.0.0
}

/// The edge the other way about.
pub fn back(e: LatticeEdge) -> LatticeEdge
    ensures { result ≡ back e }
{
    (e.1, e.0)
}

/// The segment directed away from one of its ends.
pub fn leaving(segments: &[CountedSegment], x: End) -> Option<CountedSegment>
    requires { x.0 < length segments.now }
    ensures { IfSome result (λ s. s ≡ leaving segments.now x) }
{
    let s = segments[x.0 as usize];
    if x.1 {
        return Some(s);
    }
    Some((back(s.0), s.1.checked_neg()?))
}

/// The same without its count.
#[inline]
pub fn edge_leaving(segments: &[CountedSegment], x: End) -> LatticeEdge
    requires { x.0 < length segments.now }
    ensures { result ≡ (leaving segments.now x).0 }
{
    let e = segments[x.0 as usize].0;
    if x.1 { e } else { back(e) }
}

/// Of two edges that leave one point, whether the first comes before the second, counterclockwise from the east.
fn comes_before(e: LatticeEdge, s: LatticeEdge) -> bool
    ensures { result ≡ comes_before e s }
{
    if rises(e) {
        return !rises(s) || turn(e.0, e.1, s.1) > 0;
    }
    !rises(s) && turn(e.0, e.1, s.1) > 0
}

/// Whether an edge leaves the point where `s` starts, before `s`. None is before itself, which needs no turn.
fn leaves_before(s: LatticeEdge, e: LatticeEdge) -> bool
    ensures { result ≡ leaves_before s e }
{
    if same_point(s.1, e.1) {
        return false;
    }
    same_point(s.0, e.0) && comes_before(e, s)
}

/// The sum with a count, if it is to be added.
fn with_count(sum: i128, count: i128, adds: bool) -> Option<i128>
    ensures { IfSome result (λ n. n ≡ sum +ℤ (count *ℤ bit adds)) }
{
    if !adds {
        return Some(sum);
    }
    sum.checked_add(count)
}

/// How many edges leave the point where `e` starts before it, less how many come in there, if that can be told. The
/// segments directed away from the point tell it.
pub fn before(fan: &[CountedSegment], e: LatticeEdge) -> Option<i128>
    ensures { IfSome result (λ n. n ≡ counted_before e fan.now) }
{
    let mut sum: i128 = 0;
    for s in fan {
        sum = with_count(sum, s.1, leaves_before(e, s.0))?;
    }
    Some(sum)
}

/// Lists the segments directed away from these ends, in place of what was listed, and says whether there are such.
pub fn spread_out(
    fan: &mut Vec<CountedSegment>,
    segments: &[CountedSegment],
    star: &[End],
) -> Result<bool, AllocError>
    requires { All (λ x. x.0 < length segments.now) star.now }
    ensures { IfOk result (λ b. b ≡ true → fan.new.items ≡ fan_of segments.now star.now) }
{
    fan.clear();
    for x in star {
        let Some(s) = leaving(segments, *x) else {
            return Ok(false);
        };
        fan.push(s)?;
    }
    Ok(true)
}
