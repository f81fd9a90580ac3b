//! How often edges wind round a point of the grid, and whether they wind round one of the first points of contours.

ghost use Rattle.std.specs.Prelude.{◌≡◌, true, false};
ghost use Rattle.std.specs.List.{All};
ghost use Rattle.mesh_num.specs.FlatContours.{flat_contours};
ghost use Rattle.mesh_plane.specs.Winding.{winding};
ghost use Rattle.mesh_nets.specs.Private.Outlines.{IsStartOutside};

use crate::edges::lattice_point;
use mesh_lattice::fine::{crossing, doubled};
use mesh_lattice::lattice::{LatticeEdge, LatticePoint};
use mesh_num::num::{IntNumber, IntPoint};
use mesh_num::shape::{FlatContoursBuffer, IntShapeResource};

/// How often edges wind round a point.
fn winding(edges: &[LatticeEdge], p: LatticePoint) -> i128
    ensures { result ≡ winding 1 p edges.now }
{
    let q = doubled(p);
    let mut sum: i128 = 0;
    for e in edges {
        sum += crossing(q, doubled(e.0), doubled(e.1));
    }
    sum
}

/// Whether edges wind round the first point of a contour.
fn is_start_inside<I: IntNumber>(edges: &[LatticeEdge], contour: &[IntPoint<I>]) -> bool
    ensures outside { result ≡ false → IsStartOutside edges.now contour.now }
    ensures inside { result ≡ true → IsStartOutside edges.now contour.now → ⊥ }
{
    let Some((first, _)) = contour.split_first() else {
        return false;
    };
    winding(edges, lattice_point(*first)) != 0
}

/// Whether edges wind round the first point of one of the contours.
pub fn do_enclose<I: IntNumber>(edges: &[LatticeEdge], contours: &FlatContoursBuffer<I>) -> bool
    ensures outside { result ≡ false → All (IsStartOutside edges.now) (flat_contours contours.now) }
    ensures inside { result ≡ true → All (IsStartOutside edges.now) (flat_contours contours.now) → ⊥ }
{
    for index in 0..contours.path_count() {
        if is_start_inside(edges, contours.path_at(index)) {
            return true;
        }
    }
    false
}
