//! Directed edges in their order.

ghost use Rattle.std.specs.Prelude.{IfOk};
ghost use Rattle.std.specs.List.Sorted.{IsPermutation, IsSorted};
ghost use Rattle.mesh_num.specs.Segments.{edges_of};
ghost use Rattle.mesh_drawing.specs.Order.{by_values, edge_order};

use mesh_num::num::OverlayInt;
use mesh_num::shape::edge::DirectedEdge;
use mesh_num::shape::segment::Segment;
use std::alloc::{AllocError, Global};

/// The edges that segments stand for, sorted by their starts and then by their ends. It fails only where memory is
/// refused.
pub(crate) fn sorted_edges<I: OverlayInt>(
    alloc: Global,
    segments: &[Segment<I>],
) -> Result<Vec<DirectedEdge<I>>, AllocError>
    ensures edges { IfOk result (λ es. IsPermutation (edges_of segments.now) es.items) }
    ensures sorted { IfOk result (λ es. IsSorted (edge_order (by_values I.cmp I.of_value)) es.items) }
{
    let mut edges = Vec::with_capacity(alloc, segments.len())?;
    for segment in segments {
        edges.push(segment.edge())?;
    }
    edges.sort_unstable();
    Ok(edges)
}
