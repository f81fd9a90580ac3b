//! The ring that holds a point. The edges of rings stand ring after ring, and so they do in the row of the point: one
//! pass over it tells how often each ring winds round the point.

ghost use Rattle.std.specs.Prelude.{◌≡◌, ◌+◌, ◌^◌, ◌<◌, ◌≤◌, true, List, ◌++◌, length, unsigned_abs};
ghost use Rattle.std.specs.Prelude.{IfOk, OnOk, MatchOption};
ghost use Rattle.std.specs.Option.{ForSome};
ghost use Rattle.mesh_plane.specs.Winding.{boundary};
ghost use Rattle.mesh_shapes.specs.Homes.{ring_at};
ghost use Rattle.mesh_shapes.specs.Private.Grouping.{areas_of, is_less_at};
ghost use Rattle.mesh_shapes.specs.Private.Holders.{with_place, ring_edges, placed_edges, Rise, IsRowOf};
ghost use Rattle.mesh_shapes.specs.Private.Holders.{IsBetterHolder, GoesPast};
ghost use Rattle.mesh_shapes.specs.Private.Progress.{IsFound};
ghost use Rattle.mesh_shapes.specs.Resolution.{Ring};
ghost use Rattle.mesh_shapes.specs.Vectors.{rings_of_vecs};

use crate::ring::Ring;
use mesh_lattice::fine::{FinePoint, crossing, doubled};
use mesh_lattice::lattice::{LatticeEdge, LatticePoint};
use std::alloc::{AllocError, Global};

/// An edge of a ring, and the place of the ring.
pub type PlacedEdge = (LatticeEdge, usize);

/// What is known midway through the row of a point.
#[derive(Copy, Clone)]
struct Search {
    /// The place of the ring that holds the point, among those of which all edges were met.
    best: Option<usize>,
    /// The place of the ring whose edges are met.
    place: usize,
    /// How often its edges wind round the point so far.
    winding: i128,
}

/// Adds the edges of a ring at a place.
fn push_edges(
    edges: &mut Vec<PlacedEdge>,
    points: &[LatticePoint],
    h: usize,
) -> Result<(), AllocError>
    ensures { OnOk result (edges.new.items ≡ edges.old.items ++ with_place h (boundary points.now)) }
{
    if points.is_empty() {
        return Ok(());
    }
    let mut before = points[0];
    for i in 1..points.len() {
        edges.push(((before, points[i]), h))?;
        before = points[i];
    }
    edges.push(((before, points[0]), h))?;
    Ok(())
}

/// Adds the edges of the ring at a place, if its area is positive.
fn push_ring(
    edges: &mut Vec<PlacedEdge>,
    rings: &[Ring],
    areas: &[i128],
    h: usize,
) -> Result<(), AllocError>
    requires in_range { h < length rings.now }
    requires areas_known { areas.now ≡ areas_of (rings_of_vecs rings.now) }
    ensures { OnOk result (edges.new.items ≡ edges.old.items ++ ring_edges (ring_at (rings_of_vecs rings.now) h)) }
{
    if areas[h] <= 0 {
        return Ok(());
    }
    push_edges(edges, &rings[h].0, h)?;
    Ok(())
}

/// The edges of the rings of positive area, ring after ring.
pub fn ring_edges(
    alloc: Global,
    rings: &[Ring],
    areas: &[i128],
) -> Result<Vec<PlacedEdge>, AllocError>
    requires { areas.now ≡ areas_of (rings_of_vecs rings.now) }
    ensures { IfOk result (λ v. v.items ≡ placed_edges (rings_of_vecs rings.now)) }
{
    let mut edges = Vec::new(alloc);
    for h in 0..rings.len() {
        push_ring(&mut edges, rings, areas, h)?;
    }
    Ok(edges)
}

/// Whether no ring is known yet, or the one at `k` has less area than it.
fn is_less(areas: &[i128], best: Option<usize>, k: usize) -> bool
    requires in_range { k < length areas.now }
    requires known { ForSome best (λ b. b < length areas.now) }
    ensures { MatchOption best (result ≡ true) (λ b. result ≡ is_less_at areas.now k b) }
{
    let Some(b) = best else {
        return true;
    };
    areas[k] < areas[b]
}

/// The better holder of a point, of the one known and the ring at `h`, which winds round the point so often.
fn better_holder(areas: &[i128], best: Option<usize>, h: usize, winding: i128) -> Option<usize>
    requires in_range { h < length areas.now }
    requires known { ForSome best (λ b. b < length areas.now) }
    ensures found { IsBetterHolder areas.now best h winding result }
    ensures within { ForSome result (λ b. b < length areas.now) }
{
    if winding == 0 {
        return best;
    }
    if !is_less(areas, best, h) {
        return best;
    }
    Some(h)
}

/// What is known after one more edge of the row of a point.
fn met(areas: &[i128], q: FinePoint, search: Search, e: PlacedEdge) -> Search
    requires in_range { search.place < length areas.now }
    requires known { ForSome search.best (λ b. b < length areas.now) }
    requires room { unsigned_abs search.winding ≤ 2 ^ 64 }
    ensures search { GoesPast areas.now q e search result }
    ensures place { result.place ≡ e.1 }
    ensures within { ForSome result.best (λ b. b < length areas.now) }
    ensures size { unsigned_abs result.winding ≤ unsigned_abs search.winding + 1 }
{
    let c = crossing(q, doubled(e.0.0), doubled(e.0.1));
    if e.1 == search.place {
        return Search {
            best: search.best,
            place: e.1,
            winding: search.winding + c,
        };
    }
    Search {
        best: better_holder(areas, search.best, search.place, search.winding),
        place: e.1,
        winding: c,
    }
}

/// The place of the first ring of least area among those that hold the point, if there is one, by the row of the point.
pub fn holder(areas: &[i128], row: &[PlacedEdge], q: FinePoint) -> Option<usize>
    requires { Rise 0 (length areas.now) row.now }
    ensures { (rs : List Ring) → areas.now ≡ areas_of rs → IsRowOf rs q row.now → IsFound rs (length rs) q result }
{
    if row.is_empty() {
        return None;
    }
    let mut search = Search {
        best: None,
        place: row[0].1,
        winding: 0,
    };
    for e in row {
        search = met(areas, q, search, *e);
    }
    better_holder(areas, search.best, search.place, search.winding)
}
