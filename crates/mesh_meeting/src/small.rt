//! The test of what `meeting` asks of edges.

ghost use Rattle.std.specs.Prelude.{◌↔◌, ◌^◌, IsTrue};
ghost use Rattle.mesh_plane.specs.Bounds.{IsSmall, IsSafe};
ghost use Rattle.mesh_meeting.specs.Small.{HasSmallEnds};

use mesh_lattice::lattice::{LatticeEdge, LatticePoint};

/// The least size of a coordinate that is not small.
const LARGE: i32 = 1 << 30;

fn is_small(coordinate: i32) -> bool
    ensures { IsTrue result ↔ IsSmall (2 ^ 30) coordinate }
{
    -LARGE < coordinate && coordinate < LARGE
}

fn is_safe(p: LatticePoint) -> bool
    ensures { IsTrue result ↔ IsSafe (2 ^ 30) p }
{
    is_small(p.0) && is_small(p.1)
}

/// Whether both ends of an edge have coordinates below 2^30 in size.
pub fn has_small_ends(e: LatticeEdge) -> bool
    ensures { IsTrue result ↔ HasSmallEnds e }
{
    is_safe(e.0) && is_safe(e.1)
}
