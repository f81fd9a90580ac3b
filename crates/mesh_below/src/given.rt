//! The directed edges that segments stand for, on the grid of the splitting.

ghost use Rattle.std.specs.Prelude.{◌≡◌, ◌↔◌, IfOk, IsTrue};
ghost use Rattle.std.specs.List.{All};
ghost use Rattle.mesh_num.specs.Segments.{IsSubject, edge_of, edges_of};
ghost use Rattle.mesh_lattice.specs.Clean.{IsProper};

use mesh_lattice::exact::same_point;
use mesh_lattice::lattice::{LatticeEdge, LatticePoint};
use mesh_num::num::{IntNumber, IntPoint};
use mesh_num::shape::segment::Segment;
use std::alloc::{AllocError, Global};

/// A coordinate of either width.
pub(crate) fn coordinate<I: IntNumber>(number: I) -> i32
    ensures { result ≡ I.value number }
{
    I::wide_to_i128(number.to_wide()) as i32
}

/// A point with coordinates of either width.
pub fn lattice_point<I: IntNumber>(p: IntPoint<I>) -> LatticePoint
    ensures { result ≡ p }
{
    (coordinate(p.x), coordinate(p.y))
}

/// The edge that a segment stands for.
pub fn lattice_edge<I: IntNumber>(s: Segment<I>) -> LatticeEdge
    ensures { result ≡ edge_of s }
{
    let edge = s.edge();
    (lattice_point(edge.start), lattice_point(edge.end))
}

/// The edges that segments stand for, in their order. Segments are as `Segment::subject` gives them.
/// `Err` says that memory was refused.
pub fn lattice_edges<I: IntNumber>(
    alloc: Global,
    segments: &[Segment<I>],
) -> Result<Vec<LatticeEdge>, AllocError>
    requires { All IsSubject segments.now }
    ensures value { IfOk result (λ v. v.items ≡ edges_of segments.now) }
    ensures proper { IfOk result (λ v. IsProper v.items) }
{
    let mut edges = Vec::with_capacity(alloc, segments.len())?;
    for s in segments {
        edges.push(lattice_edge(*s))?;
    }
    Ok(edges)
}

/// Whether no edge ends where it starts.
pub fn are_proper(edges: &[LatticeEdge]) -> bool
    ensures { IsTrue result ↔ IsProper edges.now }
{
    for e in edges {
        if same_point(e.0, e.1) {
            return false;
        }
    }
    true
}
