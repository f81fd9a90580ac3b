//! The box of a segment, by which those are left out at once that have no point in common with it.

ghost use Rattle.std.specs.Prelude.{◌≡◌};
ghost use Rattle.mesh_store.specs.BoundingBoxes.{are_beyond, is_beside, AreBounds};

use mesh_lattice::lattice::{LatticeEdge, LatticePoint};

/// The least coordinates of a segment's ends, and the greatest.
pub type BoundingBox = (LatticePoint, LatticePoint);

/// The bounds of a segment's box.
pub fn bounding_box(s: LatticeEdge) -> BoundingBox
    ensures { AreBounds result s }
{
    (
        (s.0.0.min(s.1.0), s.0.1.min(s.1.1)),
        (s.0.0.max(s.1.0), s.0.1.max(s.1.1)),
    )
}

/// Whether two numbers are both below a range, or both above it.
fn are_beyond(least: i32, most: i32, a: i32, b: i32) -> bool
    ensures { result ≡ are_beyond least most a b }
{
    (a < least && b < least) || (most < a && most < b)
}

/// Whether an edge lies beside a box.
pub fn is_beside(bounds: BoundingBox, e: LatticeEdge) -> bool
    ensures { result ≡ is_beside bounds e }
{
    are_beyond(bounds.0.0, bounds.1.0, e.0.0, e.1.0)
        || are_beyond(bounds.0.1, bounds.1.1, e.0.1, e.1.1)
}
