//! The boundary between what is filled and what is not.

ghost use Rattle.std.specs.Prelude.{◌≡◌, List, ◌++◌, OnOk, IfOk};
ghost use Rattle.mesh_plane.specs.Plane.{Edge};
ghost use Rattle.mesh_plane.specs.Winding.{sum_of};
ghost use Rattle.mesh_lattice.specs.Boundary.{IsBoundary};
ghost use Rattle.mesh_lattice.specs.Counted.{size, IsCountOf, IsRoomy};
ghost use Rattle.mesh_lattice.specs.FillRules.{filled_by};
ghost use Rattle.mesh_regions.specs.SideLaws.{AreSplit};
ghost use Rattle.mesh_boundary.specs.Private.CountedSides.{is_parted, boundary_edge};
ghost use Rattle.mesh_boundary.specs.Private.SideFinders.{Serves};

use crate::flood::Sides;
use crate::side_finder::SideFinder;
use mesh_lattice::fill::WindingRule;
use mesh_lattice::lattice::{CountedSegment, LatticeEdge};
use std::alloc::{AllocError, Global};

/// Whether the first side is filled and the second is not.
fn is_parted(fill: WindingRule, sides: Sides) -> bool
    ensures { result ≡ is_parted (filled_by fill) sides }
{
    fill.is_filled(sides.0) && !fill.is_filled(sides.1)
}

/// Adds the edge of the boundary on a segment, if there is one.
fn push_edge(
    edges: &mut Vec<LatticeEdge>,
    fill: WindingRule,
    sides: Sides,
    e: LatticeEdge,
) -> Result<(), AllocError>
    ensures { OnOk result (edges.new.items ≡ edges.old.items ++ boundary_edge (filled_by fill) sides e) }
{
    if is_parted(fill, sides) {
        edges.push(e)?;
        return Ok(());
    }
    if is_parted(fill, (sides.1, sides.0)) {
        edges.push((e.1, e.0))?;
    }
    Ok(())
}

/// The boundary, with the sides of segments found in this finder.
fn boundary_by(
    alloc: Global,
    segments: &[CountedSegment],
    finder: &SideFinder,
    fill: WindingRule,
) -> Result<Vec<LatticeEdge>, AllocError>
    requires room { IsRoomy (sum_of size segments.now) }
    requires serves { Serves finder.now segments.now }
    ensures { IfOk result (λ v. (es : List Edge) → IsCountOf es segments.now → AreSplit es
        → IsBoundary es (filled_by fill) v.items) }
{
    let mut edges = Vec::new(alloc);
    for i in 0..segments.len() {
        let sides = finder.sides(segments, i);
        push_edge(&mut edges, fill, sides, segments[i].0)?;
    }
    Ok(edges)
}

/// The segments whose two sides differ in fill, each once, with the filled side on its left. The segments have their
/// net counts, and share only ends with each other. How many contours they come of, about, tells which way is quicker,
/// and nothing else. It fails only where memory is refused.
pub fn find_boundary(
    alloc: Global,
    segments: &[CountedSegment],
    parts: usize,
    fill: WindingRule,
) -> Result<Vec<LatticeEdge>, AllocError>
    requires { IsRoomy (sum_of size segments.now) }
    ensures { IfOk result (λ v. (es : List Edge) → IsCountOf es segments.now → AreSplit es
        → IsBoundary es (filled_by fill) v.items) }
{
    let finder = SideFinder::new(alloc, segments, parts)?;
    boundary_by(alloc, segments, &finder, fill)
}
