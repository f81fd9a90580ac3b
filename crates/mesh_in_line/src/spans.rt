//! Where edges lie among the places of their direction.

ghost use Rattle.std.specs.Prelude.{◌≡◌, ℕ, ◌<◌, ◌≤◌, length, min, set, slice_index_or, IfOk, IfSome};
ghost use Rattle.mesh_plane.specs.Plane.{Point};
ghost use Rattle.mesh_in_line.specs.Private.Lines.{cuts_to, span_at, AreFirsts, ArePlaced, IsPlaced};

use crate::places::{is_along, place_of, turned};
use mesh_lattice::lattice::{LatticeEdge, LatticePoint};
use std::alloc::{AllocError, Global};

/// The places of an edge's lesser and greater end, and whether the edge starts at the greater one. Those of edges that do
/// not run along the direction are the same.
#[derive(Copy, Clone)]
pub struct Span {
    pub from: usize,
    pub to: usize,
    pub is_back: bool,
}

/// Where an edge lies. `None` where its ends have no places.
fn span_of(places: &[LatticePoint], e: LatticeEdge, level: bool) -> Option<Span>
    ensures { IfSome result (λ s. IsPlaced level places.now e s) }
{
    if !is_along(e, level) {
        return Some(Span {
            from: 0,
            to: 0,
            is_back: false,
        });
    }
    let start = place_of(places, turned(e.0, level))?;
    let end = place_of(places, turned(e.1, level))?;
    if start < end {
        return Some(Span {
            from: start,
            to: end,
            is_back: false,
        });
    }
    if end < start {
        return Some(Span {
            from: end,
            to: start,
            is_back: true,
        });
    }
    None
}

/// Where all edges lie. `None` where ends have no places.
pub fn spans(
    alloc: Global,
    places: &[LatticePoint],
    edges: &[LatticeEdge],
    level: bool,
) -> Result<Option<Vec<Span>>, AllocError>
    ensures { IfOk result (λ o. IfSome o (λ v. ArePlaced level places.now edges.now v.items)) }
{
    let mut spans = Vec::with_capacity(alloc, edges.len())?;
    for e in edges {
        let Some(s) = span_of(places, *e, level) else {
            return Ok(None);
        };
        spans.push(s)?;
    }
    Ok(Some(spans))
}

/// Notes the place from which an edge leads to another, if it is the first one so far.
fn lower(firsts: &mut Vec<usize>, s: Span)
    requires { s.from < s.to → s.to < length firsts.old.items }
    ensures along { s.from < s.to → firsts.new.items ≡ set firsts.old.items s.to (min (slice_index_or firsts.old.items s.to 0) s.from) }
    ensures beside { s.to ≤ s.from → firsts.new.items ≡ firsts.old.items }
{
    if s.from >= s.to {
        return;
    }
    let first = firsts[s.to].min(s.from);
    firsts[s.to] = first;
}

/// For each place the first one from which an edge leads there, or the place itself.
pub fn firsts(alloc: Global, spans: &[Span], places: usize) -> Result<Vec<usize>, AllocError>
    requires { (k : ℕ) → k < length spans.now → (span_at spans.now k).from < (span_at spans.now k).to
        → (span_at spans.now k).to < places }
    ensures { IfOk result (λ v. AreFirsts spans.now (length spans.now) places v.items) }
{
    let mut firsts = Vec::with_capacity(alloc, places)?;
    for place in 0..places {
        firsts.push(place)?;
    }
    for s in spans {
        lower(&mut firsts, *s);
    }
    Ok(firsts)
}

/// How many splits cut the edges to all places. `None` where that is 2^64 or more.
#[tactic(auto, using(crate::proofs::Counting::more_splits))]
pub fn count_splits(firsts: &[usize]) -> Option<usize>
    ensures { IfSome result (λ n. (a : ℕ → Point) → length (cuts_to a firsts.now (length firsts.now)) ≡ n) }
{
    let mut splits: usize = 0;
    for place in 0..firsts.len() {
        splits = splits.checked_add(place.saturating_sub(firsts[place]).saturating_sub(1))?;
    }
    Some(splits)
}
