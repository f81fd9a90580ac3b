//! Cuts of level and upright edges at each other's ends.

ghost use Rattle.std.specs.Prelude.{◌≡◌, ℕ, ◌-◌, ◌<◌, ◌≤◌, List, [], ◌∷◌, ◌++◌, length, IfOk, IfSome, OnOk};
ghost use Rattle.std.specs.List.{All};
ghost use Rattle.mesh_lattice.specs.Split.{after};
ghost use Rattle.mesh_in_line.specs.InLine.{AreCutInLine};
ghost use Rattle.mesh_in_line.specs.Private.Lines.{backward, cuts_to, onward, pieces_of, point_at, turned};
ghost use Rattle.mesh_in_line.specs.Private.Lines.{AreFirsts, ArePlaced, AreRising, IsEndOfSome};

use crate::places::{places, turned};
use crate::spans::{Span, count_splits, firsts, spans};
use mesh_lattice::lattice::{LatticeEdge, LatticePoint};
use std::alloc::{AllocError, Global};

/// Edges are not cut where this makes more of them. An edge takes 16 bytes, so twice as many would take twice the memory.
const MOST_EDGES: usize = 1 << 23;

/// What edges have become, and how many splits that took.
#[derive(Drop)]
pub struct CutInLine {
    pub edges: Vec<LatticeEdge>,
    pub splits: usize,
}

/// Whether as many edges are made as may be.
fn are_few(spans: &[Span]) -> bool {
    let mut edges = spans.len();
    for s in spans {
        edges = edges.saturating_add(s.to.saturating_sub(s.from));
    }
    edges <= MOST_EDGES
}

/// Adds the edges from a place over the next ones.
fn push_forth(
    cut: &mut Vec<LatticeEdge>,
    places: &[LatticePoint],
    s: Span,
    level: bool,
) -> Result<(), AllocError>
    requires rising { s.from ≤ s.to }
    requires within { s.to < length places.now }
    ensures { OnOk result (cut.new.items ≡ cut.old.items ++ onward (point_at level places.now) s.from (s.to - s.from)) }
{
    for k in 0..s.to - s.from {
        let start = turned(places[s.from + k], level);
        let end = turned(places[s.from + k + 1], level);
        cut.push((start, end))?;
    }
    Ok(())
}

/// The same the other way about.
fn push_back(
    cut: &mut Vec<LatticeEdge>,
    places: &[LatticePoint],
    s: Span,
    level: bool,
) -> Result<(), AllocError>
    requires rising { s.from ≤ s.to }
    requires within { s.to < length places.now }
    ensures { OnOk result (cut.new.items ≡ cut.old.items ++ backward (point_at level places.now) s.from (s.to - s.from)) }
{
    for k in 0..s.to - s.from {
        let start = turned(places[s.to - k], level);
        let end = turned(places[s.to - k - 1], level);
        cut.push((start, end))?;
    }
    Ok(())
}

/// Adds what an edge becomes: itself, or the edges from each place to the next.
fn push_pieces(
    cut: &mut Vec<LatticeEdge>,
    places: &[LatticePoint],
    e: LatticeEdge,
    s: Span,
    level: bool,
) -> Result<(), AllocError>
    requires { s.from < s.to → s.to < length places.now }
    ensures along { OnOk result (s.from < s.to → cut.new.items ≡ cut.old.items ++ pieces_of level places.now s) }
    ensures beside { OnOk result (s.to ≤ s.from → cut.new.items ≡ cut.old.items ++ e ∷ []) }
{
    if s.from >= s.to {
        cut.push(e)?;
        return Ok(());
    }
    if s.is_back {
        return push_back(cut, places, s, level);
    }
    push_forth(cut, places, s, level)
}

/// What edges become.
fn pieces(
    alloc: Global,
    edges: &[LatticeEdge],
    places: &[LatticePoint],
    spans: &[Span],
    level: bool,
) -> Result<Vec<LatticeEdge>, AllocError>
    requires rising { AreRising places.now }
    requires placed { ArePlaced level places.now edges.now spans.now }
    ensures { IfOk result (λ v. (firsts : List ℕ) → AreFirsts spans.now (length spans.now) (length places.now) firsts
        → v.items ≡ after (cuts_to (point_at level places.now) firsts (length places.now)) edges.now) }
{
    let mut cut = Vec::with_capacity(alloc, edges.len())?;
    for k in 0..edges.len() {
        push_pieces(&mut cut, places, edges[k], spans[k], level)?;
    }
    Ok(cut)
}

/// Cuts edges along a direction at the places inside them. `None` where that makes too many edges.
fn cut_at(
    alloc: Global,
    edges: &[LatticeEdge],
    places: &[LatticePoint],
    spans: &[Span],
    level: bool,
) -> Result<Option<CutInLine>, AllocError>
    requires rising { AreRising places.now }
    requires ends { All (λ p. IsEndOfSome edges.now (turned level p)) places.now }
    requires placed { ArePlaced level places.now edges.now spans.now }
    ensures { IfOk result (λ o. IfSome o (λ c. AreCutInLine edges.now c.edges.items c.splits)) }
{
    if !are_few(spans) {
        return Ok(None);
    }
    let firsts = firsts(alloc, spans, places.len())?;
    let Some(splits) = count_splits(&firsts) else {
        return Ok(None);
    };
    let edges = pieces(alloc, edges, places, spans, level)?;
    Ok(Some(CutInLine { edges, splits }))
}

/// Cuts level edges at each other's ends, or upright ones. `None` where that makes too many edges.
fn cut_along(
    alloc: Global,
    edges: &[LatticeEdge],
    level: bool,
) -> Result<Option<CutInLine>, AllocError>
    ensures { IfOk result (λ o. IfSome o (λ c. AreCutInLine edges.now c.edges.items c.splits)) }
{
    let places = places(alloc, edges, level)?;
    let Some(spans) = spans(alloc, &places, edges, level)? else {
        return Ok(None);
    };
    cut_at(alloc, edges, &places, &spans, level)
}

/// Cuts level and upright edges at each other's ends: pieces of them that lie along each other are the same then. `None`
/// where that makes too many edges. It fails only where memory is refused.
#[tactic(auto, using(crate::proofs::Along::cut_twice))]
pub fn cut_in_line(alloc: Global, edges: &[LatticeEdge]) -> Result<Option<CutInLine>, AllocError>
    ensures { IfOk result (λ o. IfSome o (λ c. AreCutInLine edges.now c.edges.items c.splits)) }
{
    let Some(level) = cut_along(alloc, edges, true)? else {
        return Ok(None);
    };
    let Some(upright) = cut_along(alloc, &level.edges, false)? else {
        return Ok(None);
    };
    let Some(splits) = level.splits.checked_add(upright.splits) else {
        return Ok(None);
    };
    Ok(Some(CutInLine {
        edges: upright.edges,
        splits,
    }))
}
