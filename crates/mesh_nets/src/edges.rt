//! The edges of contours, on the grid.

ghost use Rattle.std.specs.Prelude.{◌≡◌, ◌++◌, List, IfOk, OnOk};
ghost use Rattle.std.specs.List.{flat_map};
ghost use Rattle.mesh_num.specs.FlatContours.{flat_contours};
ghost use Rattle.mesh_plane.specs.Winding.{boundary};

use mesh_lattice::lattice::{LatticeEdge, LatticePoint};
use mesh_num::num::convert::widen;
use mesh_num::num::{IntNumber, IntPoint};
use mesh_num::shape::{FlatContoursBuffer, IntShapeResource};
use std::alloc::{AllocError, Global};

fn coordinate<I: IntNumber>(number: I) -> i32
    ensures { result ≡ I.value number }
{
    widen(number) as i32
}

/// The point on the grid.
pub fn lattice_point<I: IntNumber>(p: IntPoint<I>) -> LatticePoint
    ensures { result ≡ p }
{
    (coordinate(p.x), coordinate(p.y))
}

/// Adds the edges of a contour.
fn push_contour<I: IntNumber>(
    edges: &mut Vec<LatticeEdge>,
    contour: &[IntPoint<I>],
) -> Result<(), AllocError>
    ensures { OnOk result (edges.new.items ≡ edges.old.items ++ boundary contour.now) }
{
    let Some((first, others)) = contour.split_first() else {
        return Ok(());
    };
    let start = lattice_point(*first);
    let mut from = start;
    for p in others {
        let to = lattice_point(*p);
        edges.push((from, to))?;
        from = to;
    }
    edges.push((from, start))?;
    Ok(())
}

/// The edges of contours, in order.
pub fn edges_of<I: IntNumber>(
    alloc: Global,
    contours: &FlatContoursBuffer<I>,
) -> Result<Vec<LatticeEdge>, AllocError>
    ensures { IfOk result (λ v. v.items ≡ flat_map boundary (flat_contours contours.now)) }
{
    let mut edges = Vec::new(alloc);
    for index in 0..contours.path_count() {
        push_contour(&mut edges, contours.path_at(index))?;
    }
    Ok(edges)
}
