//! The ways to find the windings on both sides of each segment, and which of them serves.

ghost use Rattle.std.specs.Prelude.{◌≡◌, ◌^◌, ◌<◌, length, slice_index_or, IfOk, IfSome};
ghost use Rattle.mesh_plane.specs.Bounds.{IsSmall};
ghost use Rattle.mesh_plane.specs.Winding.{sum_of};
ghost use Rattle.mesh_lattice.specs.Counted.{Counted, size, IsRoomy};
ghost use Rattle.mesh_lattice.specs.Rows.{AreRows};
ghost use Rattle.mesh_boundary.specs.Private.CountedSides.{sides_by, sides_of};
ghost use Rattle.mesh_boundary.specs.Private.Flood.{OfSplitEdges, AreKnown};
ghost use Rattle.mesh_boundary.specs.Private.Slants.{AreSlantedRows};
ghost use Rattle.mesh_boundary.specs.Private.SideFinders.{Serves};

use crate::flood::{Flood, Sides};
use crate::slanted::{SlantedRows, slanted_rows};
use crate::stars::{Stars, rises};
use crate::winding::winding;
use mesh_lattice::fine::middle;
use mesh_lattice::lattice::CountedSegment;
use mesh_lattice::rows::{Rows, mean_reached};
use std::alloc::{AllocError, Global};

/// For so few segments all are summed for each, which is quicker than to list them.
const FEW: usize = 24;

/// The greatest number of segments that reach a level, on average, for which rows along a slant serve.
const SHORT: usize = 12;

/// The greatest number of segments that reach a height, on average, for which rows to the east serve: the flood is
/// quicker where more do. They are held to it with what `Reached` says of all: so of more than some 6,000 segments,
/// many of which run down, they are not taken for being short.
const SHORT_TO_THE_EAST: usize = 5;

/// For so few contours the flood serves in any case, unless many segments end at a point: it wants one sum for each part
/// that hangs together.
const FEW_PARTS: usize = 16;

/// The greatest number of ends at a point, on average, for which it does.
const SMALL_STARS: usize = 8;

/// A finder to find the sides of segments.
#[derive(Drop)]
pub enum SideFinder {
    /// By a sum over all segments, for each.
    Summed,
    /// By sums over rows to the east.
    East(Rows<i128>),
    /// By sums over rows along a slant.
    Slanted(SlantedRows),
    /// From what is known of the windings beside them.
    Known(Flood),
}

/// The windings on both sides of a segment, from that beside it.
fn sides_by(beside: i128, s: CountedSegment) -> Sides
    requires beside_small { IsSmall (2 ^ 122) beside }
    requires count_small { IsRoomy (size s) }
    ensures { result ≡ sides_by beside s }
{
    if rises(s.0) {
        return (beside + s.1, beside);
    }
    (beside, beside - s.1)
}

fn sides_of(segments: &[CountedSegment], s: CountedSegment) -> Sides
    requires room { IsRoomy (sum_of size segments.now) }
    requires count_small { IsRoomy (size s) }
    ensures { result ≡ sides_of segments.now s }
{
    sides_by(winding(segments, middle(s.0)), s)
}

/// How many ends are listed at the point of an end, on average.
fn mean_star(stars: &Stars) -> usize {
    let mut ends: usize = 0;
    let mut listed: usize = 0;
    for part in &stars.parts {
        let size = part.1 as usize;
        ends = ends.saturating_add(size);
        listed = listed.saturating_add(size.saturating_mul(size));
    }
    listed / ends.max(1)
}

/// The sides of the segment at a place, by a sum over a row.
fn row_sides(segments: &[CountedSegment], rows: &Rows<i128>, i: usize) -> Sides
    requires in_range { i < length segments.now }
    requires room { IsRoomy (sum_of size segments.now) }
    requires rows { AreRows rows.now.marks.items rows.now.lists.items segments.now }
    ensures { (d : Counted) → result ≡ sides_of segments.now (slice_index_or segments.now i d) }
{
    let s = segments[i];
    sides_of(rows.row(middle(s.0)), s)
}

/// The sides of the segment at a place, by a sum over all segments.
fn summed_sides(segments: &[CountedSegment], i: usize) -> Sides
    requires in_range { i < length segments.now }
    requires room { IsRoomy (sum_of size segments.now) }
    ensures { (d : Counted) → result ≡ sides_of segments.now (slice_index_or segments.now i d) }
{
    sides_of(segments, segments[i])
}

/// The sides of the segment at a place: those known of it, or else by a sum over all segments.
fn known_sides(segments: &[CountedSegment], flood: &Flood, i: usize) -> Sides
    requires in_range { i < length segments.now }
    requires room { IsRoomy (sum_of size segments.now) }
    requires known { OfSplitEdges segments.now (λ es. AreKnown es segments.now flood.now.known.items) }
    ensures { OfSplitEdges segments.now (λ es. (d : Counted) → result ≡ sides_of segments.now
        (slice_index_or segments.now i d)) }
{
    if let Some(sides) = flood.sides(segments, i) {
        return sides;
    }
    summed_sides(segments, i)
}

/// The sides of the segment at a place, by a sum over a row along a slant.
fn slanted_sides(segments: &[CountedSegment], rows: &SlantedRows, i: usize) -> Sides
    requires in_range { i < length segments.now }
    requires room { IsRoomy (sum_of size segments.now) }
    requires rows { AreSlantedRows rows.now.slant rows.now.rows segments.now }
    ensures { OfSplitEdges segments.now (λ es. (d : Counted) → result ≡ sides_of segments.now
        (slice_index_or segments.now i d)) }
{
    let s = segments[i];
    let at = rows.slant.middle_across(s.0);
    sides_by(rows.slant.winding(rows.row(at), middle(s.0), at), s)
}

/// The flood, where segments hang together and few end at a point.
fn flooded(alloc: Global, segments: &[CountedSegment]) -> Result<Option<SideFinder>, AllocError>
    requires { IsRoomy (sum_of size segments.now) }
    ensures { IfOk result (λ o. IfSome o (λ w. Serves w segments.now)) }
{
    let Some(stars) = Stars::new(alloc, segments)? else {
        return Ok(None);
    };
    if mean_star(&stars) > SMALL_STARS {
        return Ok(None);
    }
    Ok(Some(SideFinder::Known(Flood::new(alloc, segments, &stars)?)))
}

impl SideFinder {
    /// The finder that serves for these segments, which come of so many contours, about.
    pub fn new(
        alloc: Global,
        segments: &[CountedSegment],
        parts: usize,
    ) -> Result<SideFinder, AllocError>
        requires { IsRoomy (sum_of size segments.now) }
        ensures { IfOk result (λ w. Serves w segments.now) }
    {
        if segments.len() <= FEW {
            return Ok(SideFinder::Summed);
        }
        if parts <= FEW_PARTS {
            if let Some(finder) = flooded(alloc, segments)? {
                return Ok(finder);
            }
        }
        let reached = mean_reached(alloc, segments)?;
        if reached.all <= SHORT_TO_THE_EAST {
            return Ok(SideFinder::East(Rows::new(alloc, segments)?));
        }
        if reached.others > SHORT {
            if let Some(rows) = slanted_rows(alloc, segments, SHORT)? {
                return Ok(SideFinder::Slanted(rows));
            }
        }
        if let Some(stars) = Stars::new(alloc, segments)? {
            if mean_star(&stars) <= reached.all {
                return Ok(SideFinder::Known(Flood::new(alloc, segments, &stars)?));
            }
        }
        Ok(SideFinder::East(Rows::new(alloc, segments)?))
    }

    /// The sides of the segment at a place.
    pub fn sides(&self, segments: &[CountedSegment], i: usize) -> Sides
        requires in_range { i < length segments.now }
        requires room { IsRoomy (sum_of size segments.now) }
        requires serves { Serves self.now segments.now }
        ensures { OfSplitEdges segments.now (λ es. (d : Counted) → result ≡ sides_of segments.now
            (slice_index_or segments.now i d)) }
    {
        match self {
            SideFinder::Summed => summed_sides(segments, i),
            SideFinder::East(rows) => row_sides(segments, rows, i),
            SideFinder::Slanted(rows) => slanted_sides(segments, rows, i),
            SideFinder::Known(flood) => known_sides(segments, flood, i),
        }
    }
}
