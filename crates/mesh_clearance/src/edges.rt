//! The edges of contours and the sections of paths, on the grid.

ghost use Rattle.std.specs.Prelude.{◌≡◌, ◌++◌, Bool, true, List, IfOk, OnOk};
ghost use Rattle.std.specs.List.{flat_map};
ghost use Rattle.mesh_num.specs.Paths.{contours_of, paths_of, shapes_of};
ghost use Rattle.mesh_plane.specs.Winding.{boundary};
ghost use Rattle.mesh_clearance.specs.Clearance.{sections};

use mesh_lattice::lattice::{LatticeEdge, LatticePoint};
use mesh_num::num::convert::widen;
use mesh_num::num::{IntNumber, IntPoint};
use mesh_num::shape::IntShapeResource;
use std::alloc::{AllocError, Global};

fn coordinate<I: IntNumber>(number: I) -> i32
    ensures { result ≡ I.value number }
{
    widen(number) as i32
}

fn lattice_point<I: IntNumber>(p: IntPoint<I>) -> LatticePoint
    ensures { result ≡ p }
{
    (coordinate(p.x), coordinate(p.y))
}

/// Adds the sections of a path.
fn push_sections<I: IntNumber>(
    edges: &mut Vec<LatticeEdge>,
    path: &[IntPoint<I>],
    is_closed: bool,
) -> Result<(), AllocError>
    ensures { OnOk result (edges.new.items ≡ edges.old.items ++ sections is_closed path.now) }
{
    let Some((first, others)) = path.split_first() else {
        return Ok(());
    };
    let start = lattice_point(*first);
    let mut from = start;
    for p in others {
        let to = lattice_point(*p);
        edges.push((from, to))?;
        from = to;
    }
    if !is_closed {
        return Ok(());
    }
    edges.push((from, start))?;
    Ok(())
}

/// The sections of all paths, in order.
pub fn sections_of<I: IntNumber, S: IntShapeResource<I>>(
    alloc: Global,
    paths: &S,
    are_closed: bool,
) -> Result<Vec<LatticeEdge>, AllocError>
    ensures { IfOk result (λ v. v.items ≡ flat_map (sections are_closed) (S.paths paths.now)) }
{
    let mut edges = Vec::new(alloc);
    for index in 0..paths.path_count() {
        push_sections(&mut edges, paths.path_at(index), are_closed)?;
    }
    Ok(edges)
}

/// Adds the edges of contours.
fn push_contours<I: IntNumber>(
    edges: &mut Vec<LatticeEdge>,
    contours: &[Vec<IntPoint<I>>],
) -> Result<(), AllocError>
    ensures { OnOk result (edges.new.items ≡ edges.old.items ++ flat_map boundary (paths_of contours.now)) }
{
    for contour in contours {
        push_sections(edges, contour, true)?;
    }
    Ok(())
}

/// The edges of the contours of shapes, in order.
pub fn edges_of<I: IntNumber>(
    alloc: Global,
    shapes: &[Vec<Vec<IntPoint<I>>>],
) -> Result<Vec<LatticeEdge>, AllocError>
    ensures { IfOk result (λ v. v.items ≡ flat_map boundary (contours_of (shapes_of shapes.now))) }
{
    let mut edges = Vec::new(alloc);
    for shape in shapes {
        push_contours(&mut edges, shape)?;
    }
    Ok(edges)
}
