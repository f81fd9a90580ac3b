//! The windings beside segments. One at a point of each connected part is a sum of crossings. The others follow from
//! it, along segments.

ghost use Rattle.std.specs.Prelude.{◌≡◌, ◌<◌, true, List, length, IfOk, IfSome, OnOk};
ghost use Rattle.std.specs.List.{All};
ghost use Rattle.mesh_plane.specs.Plane.{Edge};
ghost use Rattle.mesh_plane.specs.Winding.{sum_of};
ghost use Rattle.mesh_lattice.specs.Boundary.{left_winding, right_winding};
ghost use Rattle.mesh_lattice.specs.Counted.{Counted, size, IsRoomy};
ghost use Rattle.mesh_lattice.specs.Split.{occurs};
ghost use Rattle.mesh_regions.specs.SideLaws.{AreSplit};
ghost use Rattle.mesh_regions.specs.Star.{AreNeighbours};
ghost use Rattle.mesh_boundary.specs.Private.Flood.{OfSplitEdges, IsLevel, IsRight, IsRightPast, AreKnown, StaysRight};
ghost use Rattle.mesh_boundary.specs.Private.Flood.{windings_beside};
ghost use Rattle.mesh_boundary.specs.Private.Rounds.{AreFourRound};
ghost use Rattle.mesh_boundary.specs.Private.Stars.{segment, leaving, AreStars, IsParted, HaveStars, IsSegment, IsStar};
ghost use Rattle.mesh_boundary.specs.Private.Stars.{CountSplit};

use crate::round::{four_round, two_round};
use crate::stars::{End, Stars, before, edge_leaving, leaving, place_of, spread_out};
use crate::sums::Sums;
use mesh_lattice::exact::same_point;
use mesh_lattice::lattice::{CountedSegment, LatticeEdge, LatticePoint};
use std::alloc::{AllocError, Global};

/// A point and the winding at it.
type Level = (LatticePoint, i128);

/// The windings to the left and to the right of a segment.
pub type Sides = (i128, i128);

/// What is known of the windings to the right of segments, the point last gone round at each place, and the ends at
/// which to go on. A winding past 32 bits is not noted: then a sum over all segments tells the sides.
#[derive(Drop)]
pub struct Flood {
    known: Vec<Option<i32>>,
    seen: Vec<Option<LatticePoint>>,
    waiting: Vec<End>,
}

/// The winding to the right of the segment with an index, if it is known.
fn known_at(known: &[Option<i32>], k: u32) -> Option<i128>
    ensures { (es : List Edge) (ks : List Counted) → AreKnown es ks known.now
        → IfSome result (λ r. IsRight es (segment ks k).0 r) }
{
    let k = k as usize;
    if k >= known.len() {
        return None;
    }
    Some(i128::from(known[k]?))
}

/// So many windings that are not known.
fn none_known(alloc: Global, count: usize) -> Result<Vec<Option<i32>>, AllocError>
    ensures { IfOk result (λ v. (es : List Edge) (ks : List Counted) → AreKnown es ks v.items) }
{
    let mut known = Vec::with_capacity(alloc, count)?;
    for _made in 0..count {
        known.push(None)?;
    }
    Ok(known)
}

/// So many places at which no point was seen.
fn none_seen(alloc: Global, count: usize) -> Result<Vec<Option<LatticePoint>>, AllocError> {
    let mut seen = Vec::with_capacity(alloc, count)?;
    for _made in 0..count {
        seen.push(None)?;
    }
    Ok(seen)
}

/// Puts down the winding to the right of the segment with an index.
fn put(known: &mut Vec<Option<i32>>, k: u32, right: i32)
    ensures { (es : List Edge) (ks : List Counted) → IsRight es (segment ks k).0 right
        → AreKnown es ks known.old.items → AreKnown es ks known.new.items }
{
    let k = k as usize;
    if k < known.len() {
        known[k] = Some(right);
    }
}

/// Whether a point is not the one that was last seen at a place, which it is then.
fn is_new(seen: &mut Vec<Option<LatticePoint>>, i: u32, p: LatticePoint) -> bool {
    let i = i as usize;
    if i >= seen.len() {
        return false;
    }
    if let Some(q) = seen[i] {
        if same_point(p, q) {
            return false;
        }
    }
    seen[i] = Some(p);
    true
}

/// The winding to the right of a segment, from that at its start, with what leaves it.
fn right_of(fan: &[CountedSegment], winding: i128, e: LatticeEdge) -> Option<i128>
    ensures { (es : List Edge) → AreSplit es → IsStar es e.0 fan.now → occurs e es ≡ true
        → IsLevel es (e.0, winding) → IfSome result (λ r. IsRight es e r) }
{
    winding.checked_add(before(fan, e)?)
}

/// The winding at the start of a segment, from that to its right, with what leaves it.
fn level_of(fan: &[CountedSegment], right: i128, e: LatticeEdge) -> Option<i128>
    ensures { (es : List Edge) → AreSplit es → IsStar es e.0 fan.now → occurs e es ≡ true
        → IsRight es e right → IfSome result (λ w. IsLevel es (e.0, w)) }
{
    right.checked_sub(before(fan, e)?)
}

/// The winding to the right of a segment as it leaves an end, from that to its right.
fn right_leaving(segments: &[CountedSegment], x: End, right: i128) -> Option<i128>
    requires { x.0 < length segments.now }
    ensures { (es : List Edge) → AreSplit es → IsSegment es (segment segments.now x.0)
        → IsRight es (segment segments.now x.0).0 right
        → IfSome result (λ r. IsRight es (leaving segments.now x).0 r) }
{
    if x.1 {
        return Some(right);
    }
    right.checked_add(segments[x.0 as usize].1)
}

/// The winding to the right of a segment, from that to its right as it leaves an end.
fn right_along(segments: &[CountedSegment], x: End, right: i128) -> Option<i128>
    requires { x.0 < length segments.now }
    ensures { (es : List Edge) → AreSplit es → IsSegment es (segment segments.now x.0)
        → IsRight es (leaving segments.now x).0 right
        → IfSome result (λ r. IsRight es (segment segments.now x.0).0 r) }
{
    if x.1 {
        return Some(right);
    }
    right.checked_sub(segments[x.0 as usize].1)
}

/// The winding to the right of a segment with an end, from that at a point, if it leaves the point and that can be
/// told, with what leaves the point.
fn right_from(segments: &[CountedSegment], fan: &[CountedSegment], l: Level, x: End) -> Option<i128>
    requires { x.0 < length segments.now }
    ensures { (es : List Edge) → CountSplit es segments.now → IsStar es l.0 fan.now → IsLevel es l
        → IfSome result (λ r. IsRight es (segment segments.now x.0).0 r) }
{
    let s = leaving(segments, x)?;
    if !same_point(l.0, s.0.0) {
        return None;
    }
    right_along(segments, x, right_of(fan, l.1, s.0)?)
}

/// The winding at an end, from what is known of those to the right of segments, with what leaves the end.
fn level_at(
    known: &[Option<i32>],
    segments: &[CountedSegment],
    fan: &[CountedSegment],
    x: End,
    e: LatticeEdge,
) -> Option<i128>
    requires { x.0 < length segments.now }
    ensures { (es : List Edge) → CountSplit es segments.now → AreKnown es segments.now known.now
        → e ≡ (leaving segments.now x).0 → IsStar es e.0 fan.now → IfSome result (λ w. IsLevel es (e.0, w)) }
{
    level_of(fan, right_leaving(segments, x, known_at(known, x.0)?)?, e)
}

/// The winding to the left of a segment as it leaves an end, from that to its right.
fn left_leaving(segments: &[CountedSegment], x: End, right: i128) -> Option<i128>
    requires { x.0 < length segments.now }
    ensures { (es : List Edge) → AreSplit es → IsSegment es (segment segments.now x.0)
        → IsRight es (segment segments.now x.0).0 right
        → IfSome result (λ l. l ≡ left_winding es (leaving segments.now x).0) }
{
    if x.1 {
        return right.checked_add(segments[x.0 as usize].1);
    }
    Some(right)
}

/// The winding to the right of a segment with an end, from that to the right of one whose next neighbour it is,
/// counterclockwise round the point where both leave.
fn right_past(segments: &[CountedSegment], x: End, y: End, right: i128) -> Option<i128>
    requires first { x.0 < length segments.now }
    requires second { y.0 < length segments.now }
    ensures { IsRightPast segments.now x y right result }
{
    right_along(segments, y, left_leaving(segments, x, right)?)
}

impl Flood {
    /// Nothing is known yet of so many segments, whose ends have so many places.
    pub fn unknown(alloc: Global, count: usize, places: usize) -> Result<Flood, AllocError>
        ensures { IfOk result (λ f. (es : List Edge) (ks : List Counted) → AreKnown es ks f.known.items) }
    {
        Ok(Flood {
            known: none_known(alloc, count)?,
            seen: none_seen(alloc, places)?,
            waiting: Vec::new(alloc),
        })
    }

    /// Puts down the winding to the right of a segment, if it is not too large.
    fn note(&mut self, k: u32, right: i128)
        ensures { (es : List Edge) (ks : List Counted) → IsRight es (segment ks k).0 right
            → AreKnown es ks self.old.known.items → AreKnown es ks self.new.known.items }
    {
        if let Ok(small) = i32::try_from(right) {
            put(&mut self.known, k, small);
        }
    }

    /// Puts down that the flood is to go on at the other end of a segment, if it was not there.
    fn go_on(
        &mut self,
        segments: &[CountedSegment],
        stars: &Stars,
        x: End,
    ) -> Result<(), AllocError>
        ensures { self.new.known.items ≡ self.old.known.items }
    {
        let other = (x.0, !x.1);
        let Some(s) = segments.get(x.0 as usize) else {
            return Ok(());
        };
        let Some(ends) = stars.ends.get(x.0 as usize) else {
            return Ok(());
        };
        let p = if x.1 { s.0.1 } else { s.0.0 };
        if is_new(&mut self.seen, place_of(*ends, other), p) {
            self.waiting.push(other)?;
        }
        Ok(())
    }

    /// Finds the winding to the right of a segment with an end, if it is not known, from that at a point.
    fn find(
        &mut self,
        segments: &[CountedSegment],
        stars: &Stars,
        fan: &[CountedSegment],
        l: Level,
        x: End,
    ) -> Result<(), AllocError>
        requires { x.0 < length segments.now }
        ensures { OnOk result ((es : List Edge) → CountSplit es segments.now → IsStar es l.0 fan.now
            → IsLevel es l → AreKnown es segments.now self.old.known.items
            → AreKnown es segments.now self.new.known.items) }
    {
        if known_at(&self.known, x.0).is_some() {
            return Ok(());
        }
        let Some(right) = right_from(segments, fan, l, x) else {
            return Ok(());
        };
        self.note(x.0, right);
        self.go_on(segments, stars, x)?;
        Ok(())
    }

    /// Goes on from a segment to its next neighbour, counterclockwise round the point that both leave at these ends, if the
    /// winding beside the first is known and that beside the second is not.
    fn pass(
        &mut self,
        segments: &[CountedSegment],
        stars: &Stars,
        x: End,
        y: End,
    ) -> Result<(), AllocError>
        requires first { x.0 < length segments.now }
        requires second { y.0 < length segments.now }
        ensures { OnOk result ((es : List Edge) → CountSplit es segments.now
            → AreNeighbours es (leaving segments.now x).0 (leaving segments.now y).0
            → AreKnown es segments.now self.old.known.items → AreKnown es segments.now self.new.known.items) }
    {
        let Some(known) = known_at(&self.known, x.0) else {
            return Ok(());
        };
        if known_at(&self.known, y.0).is_some() {
            return Ok(());
        }
        let Some(right) = right_past(segments, x, y, known) else {
            return Ok(());
        };
        self.note(y.0, right);
        self.go_on(segments, stars, y)?;
        Ok(())
    }

    /// Goes round a point by the order of the ends there, from the first one, of which the winding is known.
    fn go_on_round(
        &mut self,
        segments: &[CountedSegment],
        stars: &Stars,
        ends: (End, End, End, End),
    ) -> Result<(), AllocError>
        requires first { ends.0.0 < length segments.now }
        requires second { ends.1.0 < length segments.now }
        requires third { ends.2.0 < length segments.now }
        requires fourth { ends.3.0 < length segments.now }
        ensures { OnOk result ((es : List Edge) → CountSplit es segments.now
            → AreFourRound es segments.now ends.0 ends.1 ends.2 ends.3
            → AreKnown es segments.now self.old.known.items → AreKnown es segments.now self.new.known.items) }
    {
        self.pass(segments, stars, ends.0, ends.1)?;
        self.pass(segments, stars, ends.1, ends.2)?;
        self.pass(segments, stars, ends.2, ends.3)?;
        Ok(())
    }

    /// The same from the end of a segment, where the winding is known.
    fn go_round_four(
        &mut self,
        segments: &[CountedSegment],
        stars: &Stars,
        ends: (End, End, End, End),
        k: u32,
    ) -> Result<(), AllocError>
        requires first { ends.0.0 < length segments.now }
        requires second { ends.1.0 < length segments.now }
        requires third { ends.2.0 < length segments.now }
        requires fourth { ends.3.0 < length segments.now }
        ensures { OnOk result ((es : List Edge) → CountSplit es segments.now
            → AreFourRound es segments.now ends.0 ends.1 ends.2 ends.3
            → AreKnown es segments.now self.old.known.items → AreKnown es segments.now self.new.known.items) }
    {
        let (x, y, z, w) = ends;
        if x.0 == k {
            return self.go_on_round(segments, stars, (x, y, z, w));
        }
        if y.0 == k {
            return self.go_on_round(segments, stars, (y, z, w, x));
        }
        if z.0 == k {
            return self.go_on_round(segments, stars, (z, w, x, y));
        }
        self.go_on_round(segments, stars, (w, x, y, z))
    }

    /// Goes round a point, where these ends are listed, from the winding there.
    fn go_round(
        &mut self,
        segments: &[CountedSegment],
        stars: &Stars,
        star: &[End],
        fan: &[CountedSegment],
        l: Level,
    ) -> Result<(), AllocError>
        requires { All (λ x. x.0 < length segments.now) star.now }
        ensures { OnOk result ((es : List Edge) → CountSplit es segments.now → IsStar es l.0 fan.now
            → IsLevel es l → AreKnown es segments.now self.old.known.items
            → AreKnown es segments.now self.new.known.items) }
    {
        for x in star {
            self.find(segments, stars, fan, l, *x)?;
        }
        Ok(())
    }

    /// Goes round the point of an end. `fan` is room for what leaves it.
    fn spread(
        &mut self,
        segments: &[CountedSegment],
        stars: &Stars,
        fan: &mut Vec<CountedSegment>,
        x: End,
    ) -> Result<(), AllocError>
        requires parted { IsParted stars.now.parts.items stars.now.members.items (length segments.now) }
        requires len { length stars.now.ends.items ≡ length segments.now }
        ensures { OnOk result ((es : List Edge)
            → HaveStars es segments.now stars.now.parts.items stars.now.members.items stars.now.ends.items
            → AreKnown es segments.now self.old.known.items → AreKnown es segments.now self.new.known.items) }
    {
        if x.0 as usize >= segments.len() {
            return Ok(());
        }
        let e = edge_leaving(segments, x);
        let star = stars.star_of(x);
        if let Some((first, second)) = two_round(segments, star, e.0) {
            self.pass(segments, stars, first, second)?;
            self.pass(segments, stars, second, first)?;
            return Ok(());
        }
        if let Some(ends) = four_round(segments, star, e.0) {
            self.go_round_four(segments, stars, ends, x.0)?;
            return Ok(());
        }
        if !spread_out(fan, segments, star)? {
            return Ok(());
        }
        let Some(winding) = level_at(&self.known, segments, fan, x, e) else {
            return Ok(());
        };
        self.go_round(segments, stars, star, fan, (e.0, winding))?;
        Ok(())
    }

    /// Goes on until no end is left.
    fn pour(
        &mut self,
        segments: &[CountedSegment],
        stars: &Stars,
        fan: &mut Vec<CountedSegment>,
    ) -> Result<(), AllocError>
        requires parted { IsParted stars.now.parts.items stars.now.members.items (length segments.now) }
        requires len { length stars.now.ends.items ≡ length segments.now }
        ensures { OnOk result ((es : List Edge)
            → HaveStars es segments.now stars.now.parts.items stars.now.members.items stars.now.ends.items
            → AreKnown es segments.now self.old.known.items → AreKnown es segments.now self.new.known.items) }
    {
        for _step in 0..usize::MAX {
            let Some(x) = self.waiting.pop() else {
                return Ok(());
            };
            self.spread(segments, stars, fan, x)?;
        }
        Ok(())
    }

    /// Goes round the start of a segment, from the winding there.
    fn start(
        &mut self,
        segments: &[CountedSegment],
        stars: &Stars,
        fan: &mut Vec<CountedSegment>,
        l: Level,
        k: u32,
    ) -> Result<(), AllocError>
        requires parted { IsParted stars.now.parts.items stars.now.members.items (length segments.now) }
        requires len { length stars.now.ends.items ≡ length segments.now }
        requires in_range { k < length segments.now }
        ensures { OnOk result (StaysRight segments.now stars.now l k self.old self.new) }
    {
        let star = stars.star_of((k, true));
        if !spread_out(fan, segments, star)? {
            return Ok(());
        }
        self.go_round(segments, stars, star, fan, l)?;
        Ok(())
    }

    /// The windings beside segments, as far as they are found.
    pub fn new(
        alloc: Global,
        segments: &[CountedSegment],
        stars: &Stars,
    ) -> Result<Flood, AllocError>
        requires room { IsRoomy (sum_of size segments.now) }
        requires stars { AreStars stars.now.parts.items stars.now.members.items stars.now.ends.items segments.now }
        ensures { IfOk result (λ f. OfSplitEdges segments.now (λ es. AreKnown es segments.now f.known.items)) }
    {
        let mut flood = Flood::unknown(alloc, segments.len(), stars.parts.len())?;
        let mut sums = Sums::new();
        let mut fan = Vec::new(alloc);
        for k in 0..u32::MAX {
            if k as usize >= segments.len() {
                break;
            }
            if known_at(&flood.known, k).is_some() {
                continue;
            }
            let p = segments[k as usize].0.0;
            let winding = sums.winding(alloc, segments, p)?;
            flood.start(segments, stars, &mut fan, (p, winding), k)?;
            flood.pour(segments, stars, &mut fan)?;
        }
        Ok(flood)
    }

    /// The windings to the left and to the right of the segment with an index, where they are known.
    pub fn sides(&self, segments: &[CountedSegment], k: usize) -> Option<Sides>
        requires { k < length segments.now }
        ensures { (es : List Edge) → IsSegment es (segment segments.now k)
            → AreKnown es segments.now self.now.known.items
            → IfSome result (λ p. p ≡ windings_beside es (segment segments.now k).0) }
    {
        let right = known_at(&self.known, u32::try_from(k).ok()?)?;
        Some((right.checked_add(segments[k].1)?, right))
    }
}
