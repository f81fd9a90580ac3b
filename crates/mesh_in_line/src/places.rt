//! The ends of edges along one direction, in their order.

ghost use Rattle.std.specs.Prelude.{◌≡◌, ◌↔◌, ◌⊎◌, ℕ, ◌+◌, ◌<◌, [], ◌∷◌, ◌++◌, length, slice_index_or, pos};
ghost use Rattle.std.specs.Prelude.{IfOk, IfSome, IsTrue, OnOk};
ghost use Rattle.std.specs.List.{All};
ghost use Rattle.mesh_plane.specs.Order.{point_lt};
ghost use Rattle.mesh_in_line.specs.Private.Lines.{turned, AreRising, IsAlong, IsEndOfSome};

use mesh_lattice::exact::{is_before, same_point};
use mesh_lattice::lattice::{LatticeEdge, LatticePoint};
use std::alloc::{AllocError, Global};

/// A point with its coordinates swapped if lines are level, so that the points of a line follow each other in order.
#[inline]
pub fn turned(p: LatticePoint, level: bool) -> LatticePoint
    ensures { result ≡ turned level p }
{
    if level { (p.1, p.0) } else { p }
}

/// Whether an edge is level, or upright.
#[inline]
pub fn is_along(e: LatticeEdge, level: bool) -> bool
    ensures { IsTrue result ↔ IsAlong level e }
{
    if level {
        e.0.1 == e.1.1
    } else {
        e.0.0 == e.1.0
    }
}

/// Adds the turned ends of an edge, if it runs along a direction.
fn push_ends(ends: &mut Vec<LatticePoint>, e: LatticeEdge, level: bool) -> Result<(), AllocError>
    ensures { OnOk result ((ends.new.items ≡ ends.old.items)
        ⊎ (ends.new.items ≡ (ends.old.items ++ turned level e.0 ∷ []) ++ turned level e.1 ∷ [])) }
{
    if !is_along(e, level) {
        return Ok(());
    }
    ends.push(turned(e.0, level))?;
    ends.push(turned(e.1, level))?;
    Ok(())
}

/// The turned ends of all edges along a direction.
fn ends(alloc: Global, edges: &[LatticeEdge], level: bool) -> Result<Vec<LatticePoint>, AllocError>
    ensures { IfOk result (λ v. All (λ p. IsEndOfSome edges.now (turned level p)) v.items) }
{
    let mut ends = Vec::with_capacity(alloc, edges.len())?;
    for e in edges {
        push_ends(&mut ends, *e, level)?;
    }
    Ok(ends)
}

/// Whether a point comes after the last one.
fn goes_on(places: &[LatticePoint], p: LatticePoint) -> bool
    ensures { IsTrue result → (k : ℕ) → k + 1 ≡ length places.now
        → IsTrue (point_lt (slice_index_or places.now k (pos 0, pos 0)) p) }
{
    if places.is_empty() {
        return true;
    }
    is_before(places[places.len() - 1], p)
}

/// Adds a point, if it comes after the last one.
fn push_rising(places: &mut Vec<LatticePoint>, p: LatticePoint) -> Result<(), AllocError>
    requires { AreRising places.old.items }
    ensures rising { OnOk result (AreRising places.new.items) }
    ensures added { OnOk result ((places.new.items ≡ places.old.items) ⊎ (places.new.items ≡ places.old.items ++ p ∷ [])) }
{
    if !goes_on(places, p) {
        return Ok(());
    }
    places.push(p)?;
    Ok(())
}

/// The turned ends of all edges along a direction, in order, each once.
pub fn places(
    alloc: Global,
    edges: &[LatticeEdge],
    level: bool,
) -> Result<Vec<LatticePoint>, AllocError>
    ensures rising { IfOk result (λ v. AreRising v.items) }
    ensures ends { IfOk result (λ v. All (λ p. IsEndOfSome edges.now (turned level p)) v.items) }
{
    let mut ends = ends(alloc, edges, level)?;
    ends.sort_unstable();
    let mut places = Vec::with_capacity(alloc, ends.len())?;
    for p in &ends {
        push_rising(&mut places, *p)?;
    }
    Ok(places)
}

/// The place of a turned point.
pub fn place_of(places: &[LatticePoint], p: LatticePoint) -> Option<usize>
    ensures within { IfSome result (λ k. k < length places.now) }
    ensures at { IfSome result (λ k. slice_index_or places.now k (pos 0, pos 0) ≡ p) }
{
    let place = places.partition_point(|q: &LatticePoint| -> bool { is_before(*q, p) });
    if place < places.len() && same_point(places[place], p) {
        return Some(place);
    }
    None
}
