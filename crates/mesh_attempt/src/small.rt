//! Whether all coordinates are below 2^30 in size, so that turns fit in 64 bits.

ghost use Rattle.std.specs.Prelude.{IsTrue};
ghost use Rattle.std.specs.List.{All};
ghost use Rattle.mesh_attempt.specs.Attempts.{IsSmall};

use mesh_meeting::small::has_small_ends;
use mesh_points::edges::NumberedEdge;

/// Whether the ends of all edges have coordinates below 2^30 in size.
pub fn are_small(edges: &[NumberedEdge]) -> bool
    ensures { IsTrue result → All IsSmall edges.now }
{
    for e in edges {
        if !has_small_ends((e.start, e.end)) {
            return false;
        }
    }
    true
}
