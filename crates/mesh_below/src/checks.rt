//! Tests of what the overlay requires of its segments, for callers that get segments from elsewhere.

ghost use Rattle.std.specs.Prelude.{◌≡◌, ◌↔◌, map, IsTrue, IfOk};
ghost use Rattle.std.specs.List.{All};
ghost use Rattle.mesh_plane.specs.Bounds.{IsSafe};
ghost use Rattle.mesh_plane.specs.Plane.{Edge};
ghost use Rattle.mesh_num.specs.Segments.{IsSubject};
ghost use Rattle.mesh_plane.specs.Winding.{IsBalanced};
ghost use Rattle.mesh_below.specs.Asked.{AreResolvable};
ghost use Rattle.mesh_lattice.specs.Reach.{AreEdgesSafe};
ghost use Rattle.mesh_lattice.specs.Split.{back};

use crate::given::{coordinate, lattice_edges, lattice_point};
use mesh_lattice::exact::{is_before, same_point};
use mesh_lattice::lattice::{LatticeEdge, LatticePoint};
use mesh_num::num::IntNumber;
use mesh_num::shape::segment::Segment;
use mesh_shapes::trace::edges_by_start;
use std::alloc::{AllocError, Global};

/// Whether the segment is one that `Segment::subject` could have made.
fn is_subject<I: IntNumber>(s: Segment<I>) -> bool
    ensures { IsTrue result ↔ IsSubject s }
{
    let count = s.count;
    let a = lattice_point(s.x_segment.a);
    let b = lattice_point(s.x_segment.b);
    is_before(a, b) && (count == 1 || count == -1)
}

fn are_subjects<I: IntNumber>(segments: &[Segment<I>]) -> bool
    ensures { IsTrue result ↔ All IsSubject segments.now }
{
    for s in segments {
        if !is_subject(*s) {
            return false;
        }
    }
    true
}

/// `UNIT` without a sign.
fn unit<I: IntNumber>() -> u32
    ensures { result ≡ I.unit }
{
    coordinate(I::UNIT).unsigned_abs()
}

/// Whether both coordinates are below `unit` in size.
fn is_safe(unit: u32, p: LatticePoint) -> bool
    ensures { IsTrue result ↔ IsSafe unit p }
{
    p.0.unsigned_abs() < unit && p.1.unsigned_abs() < unit
}

fn are_safe(unit: u32, edges: &[LatticeEdge]) -> bool
    ensures { IsTrue result ↔ AreEdgesSafe unit edges.now }
{
    for e in edges {
        if !is_safe(unit, e.0) {
            return false;
        }
        if !is_safe(unit, e.1) {
            return false;
        }
    }
    true
}

/// The edges the other way about.
fn backwards(alloc: Global, edges: &[LatticeEdge]) -> Result<Vec<LatticeEdge>, AllocError>
    ensures { IfOk result (λ v. v.items ≡ map back edges.now) }
{
    let mut backwards = Vec::with_capacity(alloc, edges.len())?;
    for e in edges {
        backwards.push((e.1, e.0))?;
    }
    Ok(backwards)
}

/// Whether the edges at the same places start at the same points, and there are as many.
fn start_alike(first: &[LatticeEdge], second: &[LatticeEdge]) -> bool
    ensures { IsTrue result ↔ map (λ (e : Edge). e.0) first.now ≡ map (λ (e : Edge). e.0) second.now }
{
    if first.len() != second.len() {
        return false;
    }
    for i in 0..first.len() {
        if !same_point(first[i].0, second[i].0) {
            return false;
        }
    }
    true
}

/// Whether the edges are balanced: at each point as many of them start as end. `Err` means that memory was refused.
pub fn are_balanced(alloc: Global, edges: &[LatticeEdge]) -> Result<bool, AllocError>
    ensures { IfOk result (λ b. IsTrue b ↔ IsBalanced edges.now) }
{
    let leaving = edges_by_start(Vec::from_slice(alloc, edges)?);
    let entering = edges_by_start(backwards(alloc, edges)?);
    Ok(start_alike(&leaving, &entering))
}

/// Whether the segments meet what `Overlay::overlay` requires: they are such as `Segment::subject` makes, balanced, and
/// in the safe range. `Err` means that memory was refused.
pub fn are_resolvable<I: IntNumber>(
    alloc: Global,
    segments: &[Segment<I>],
) -> Result<bool, AllocError>
    ensures { IfOk result (λ b. IsTrue b ↔ AreResolvable I.unit segments.now) }
{
    if !are_subjects(segments) {
        return Ok(false);
    }
    let edges = lattice_edges(alloc, segments)?;
    if !are_safe(unit::<I>(), &edges) {
        return Ok(false);
    }
    are_balanced(alloc, &edges)
}
