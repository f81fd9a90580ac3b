//! Edges that run once round a convex polygon.

ghost use Rattle.std.specs.Prelude.{◌≡◌, ◌↔◌, pos, ◌<ℤ◌, IfOk, IsTrue};
ghost use Rattle.mesh_plane.specs.Plane.{turn};
ghost use Rattle.mesh_plane.specs.Winding.{sum_of};
ghost use Rattle.mesh_lattice.specs.Clean.{IsProper};
ghost use Rattle.mesh_lattice.specs.Counted.{size, IsCountOf, IsRoomy};
ghost use Rattle.mesh_rounds.specs.Told.{IsToldSplitting};
ghost use Rattle.mesh_convex.specs.Convex.{once_each, IsConvexLoop, IsTurningOn};

use mesh_lattice::exact::turn;
use mesh_lattice::lattice::{CountedSegment, LatticeEdge, LatticePoint};
use std::alloc::{AllocError, Global};

/// Whether `q` lies to the left of the line from `p` to `r`.
#[inline]
fn is_left(p: LatticePoint, r: LatticePoint, q: LatticePoint) -> bool
    ensures { IsTrue result ↔ pos 0 <ℤ turn p r q }
{
    turn(p, r, q) > 0
}

/// Whether an edge ends where another one starts.
#[inline]
fn leads_to(e: LatticeEdge, f: LatticeEdge) -> bool
    ensures { IsTrue result ↔ e.1 ≡ f.0 }
{
    e.1 == f.0
}

/// Whether an edge turns to the left of the way from `before` to its start, and of the ways from `first` to its start
/// and from `first` to `second`.
#[inline]
fn is_turning_on(
    first: LatticePoint,
    second: LatticePoint,
    before: LatticePoint,
    e: LatticeEdge,
) -> bool
    ensures { IsTrue result ↔ IsTurningOn first second before e }
{
    if !is_left(before, e.0, e.1) {
        return false;
    }
    if !is_left(first, e.0, e.1) {
        return false;
    }
    is_left(first, second, e.1)
}

/// Whether edges run once round a convex polygon, counterclockwise, in their order: each starts where the one before it
/// ends, and any three of these points turn to the left. It looks at each edge once.
pub fn is_convex_loop(edges: &[LatticeEdge]) -> bool
    ensures { IsTrue result ↔ IsConvexLoop edges.now }
{
    let count = edges.len();
    if count < 3 {
        return false;
    }
    if !leads_to(edges[0], edges[1]) {
        return false;
    }
    let (first, second) = edges[0];
    for k in 1..count - 1 {
        if !leads_to(edges[k], edges[k + 1]) {
            return false;
        }
        if !is_turning_on(first, second, edges[k - 1].0, edges[k]) {
            return false;
        }
    }
    leads_to(edges[count - 1], edges[0])
}

/// Splits edges that run once round a convex polygon: none has to be split, so each is a segment that counts once, and the
/// nearness is 0. It fails only where memory is refused.
pub fn split_convex_loop(
    alloc: Global,
    edges: &[LatticeEdge],
) -> Result<Vec<CountedSegment>, AllocError>
    requires convex { IsConvexLoop edges.now }
    requires proper { IsProper edges.now }
    ensures value { IfOk result (λ v. v.items ≡ once_each edges.now) }
    ensures count { IfOk result (λ v. IsCountOf edges.now v.items) }
    ensures splitting { IfOk result (λ v. IsToldSplitting edges.now v.items 0) }
    ensures room { IfOk result (λ v. IsRoomy (sum_of size v.items)) }
{
    let mut segments: Vec<CountedSegment> = Vec::with_capacity(alloc, edges.len())?;
    for e in edges {
        segments.push((*e, 1))?;
    }
    Ok(segments)
}
