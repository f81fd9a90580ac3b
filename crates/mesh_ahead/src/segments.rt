//! Pieces as counted segments.

ghost use Rattle.std.specs.Prelude.{◌≡◌, ◌≤◌, ◌^◌, map, unsigned_abs, IfOk};
ghost use Rattle.mesh_plane.specs.Winding.{sum_of};
ghost use Rattle.mesh_lattice.specs.Counted.{size, IsRoomy};
ghost use Rattle.mesh_points.specs.Edges.{counted};

use mesh_lattice::lattice::CountedSegment;
use mesh_points::edges::NumberedEdge;
use std::alloc::{AllocError, Global};

/// The ends of a piece, and its count.
#[inline]
fn counted_segment(piece: NumberedEdge) -> CountedSegment
    ensures value { result ≡ counted piece }
    ensures few { unsigned_abs result.1 ≤ 2 ^ 31 }
{
    ((piece.start, piece.end), i128::from(piece.count))
}

/// The ends of each piece, and its count.
pub fn counted_segments(
    alloc: Global,
    pieces: &[NumberedEdge],
) -> Result<Vec<CountedSegment>, AllocError>
    ensures value { IfOk result (λ v. v.items ≡ map counted pieces.now) }
    ensures room { IfOk result (λ v. IsRoomy (sum_of size v.items)) }
{
    let mut segments: Vec<CountedSegment> = Vec::with_capacity(alloc, pieces.len())?;
    for piece in pieces {
        segments.push(counted_segment(*piece))?;
    }
    Ok(segments)
}
