//! Sections: the edges of a path, and how wide a stroke is along each.

ghost use Rattle.std.specs.Prelude.{◌≡◌, ◌≢◌, ℕ, ◌*◌, ◌^◌, ◌<◌, ◌≤◌, ◌↔◌, ◌++◌, ◌∷◌, pos, ◌≤ℤ◌, unsigned_abs, IfOk, OnOk};
ghost use Rattle.std.specs.List.{All};
ghost use Rattle.mesh_plane.specs.Bounds.{IsSafe};
ghost use Rattle.mesh_plane.specs.Plane.{dot, minus, right_quarter};
ghost use Rattle.mesh_num.specs.Segments.{edge_between};
ghost use Rattle.mesh_lattice.specs.Split.{back};
ghost use Rattle.mesh_stroke.specs.Paths.{path_edges};
ghost use Rattle.mesh_stroke.specs.Strokes.{heading};
ghost use Rattle.mesh_inner.specs.Inner.{IsSectionWide};
ghost use Rattle.mesh_inner.specs.Private.Walks.{IsFitEdge, IsLimit};

use crate::fan::{dot, way};
use mesh_lattice::exact::Vector;
use mesh_num::num::point::is_one_point;
use mesh_num::num::{IntNumber, IntPoint, IntVector, UnitIntVector, WideNumber};
use mesh_num::shape::DirectedEdge;
use std::alloc::{AllocError, Global};

/// The edges of a path between neighbouring points that differ, and of a closed one back to its first point.
pub(crate) fn path_edges<I: IntNumber>(
    alloc: Global,
    path: &[IntPoint<I>],
    closed: bool,
) -> Result<Vec<DirectedEdge<I>>, AllocError>
    ensures { IfOk result (λ edges. edges.items ≡ path_edges closed path.now) }
{
    let mut edges = Vec::new(alloc);
    let Some((first, others)) = path.split_first() else {
        return Ok(edges);
    };
    let mut from = *first;
    for to in others {
        push_edge(&mut edges, from, *to)?;
        from = *to;
    }
    if !closed {
        return Ok(edges);
    }
    push_edge(&mut edges, from, *first)?;
    Ok(edges)
}

/// Adds the edge between two points where they differ.
fn push_edge<I: IntNumber>(
    edges: &mut Vec<DirectedEdge<I>>,
    start: IntPoint<I>,
    end: IntPoint<I>,
) -> Result<(), AllocError>
    ensures { OnOk result (edges.new.items ≡ edges.old.items ++ edge_between start end) }
{
    if !is_one_point(start, end) {
        edges.push(DirectedEdge { start, end })?;
    }
    Ok(())
}

/// The edge read backwards.
pub(crate) fn reversed<I: IntNumber>(edge: DirectedEdge<I>) -> DirectedEdge<I>
    ensures { result ≡ back edge }
{
    DirectedEdge {
        start: edge.end,
        end: edge.start,
    }
}

/// The direction of an edge.
pub(crate) fn heading<I: IntNumber>(edge: DirectedEdge<I>) -> UnitIntVector<I>
    requires differ { edge.0 ≢ edge.1 }
    requires safe { IsSafe (2 * I.unit) (minus edge.1 edge.0) }
    ensures { result ≡ heading I.unit edge }
{
    let Some(direction) = (edge.end - edge.start).fast_normalize() else {
        unreachable!()
    };
    direction
}

/// The greatest number so far as which both sides of each section are away from it.
pub(crate) fn sections_limit<I: IntNumber>(
    first: DirectedEdge<I>,
    others: &[DirectedEdge<I>],
    radius: I,
) -> i128
    requires first { IsFitEdge I.unit (I.value radius) first }
    requires others { All (IsFitEdge I.unit (I.value radius)) others.now }
    requires small { 4 * unsigned_abs (I.value radius) ≤ I.unit }
    ensures { IsLimit result (λ t. All (IsSectionWide I.unit (I.value radius) t) (first ∷ others.now)) }
{
    let mut least = section_limit(first, radius);
    for edge in others {
        least = least.min(section_limit(*edge, radius));
    }
    least
}

/// The greatest number so far as which both sides of a section are away from it.
fn section_limit<I: IntNumber>(edge: DirectedEdge<I>, radius: I) -> i128
    requires fit { IsFitEdge I.unit (I.value radius) edge }
    requires small { 4 * unsigned_abs (I.value radius) ≤ I.unit }
    ensures { IsLimit result (λ t. IsSectionWide I.unit (I.value radius) t edge) }
{
    let along = way(edge.start, edge.end);
    let step = components(&heading(edge).scale(radius));
    let length = dot(along, along).unsigned_abs();
    twice_square_by(size_of_product(step, along), length) as i128
}

fn components<I: IntNumber>(vector: &IntVector<I>) -> Vector
    ensures { result ≡ vector.now }
{
    (vector.x.to_i128(), vector.y.to_i128())
}

/// The size of the dot product of a vector that is as long as a radius and a way.
fn size_of_product(step: Vector, along: Vector) -> u128
    requires step_small { (unsigned_abs step.0 ≤ 2 ^ 28) × (unsigned_abs step.1 ≤ 2 ^ 28) }
    requires along_small { IsSafe (2 ^ 32) along }
    ensures value { result ≡ unsigned_abs (dot step along) }
    ensures size { result ≤ 2 ^ 61 }
{
    dot(step, along).unsigned_abs()
}

/// Twice the square of a number by another, rounded down.
fn twice_square_by(number: u128, length: u128) -> u128
    requires some { 0 < length }
    requires small { number ≤ 2 ^ 61 }
    ensures value { (t : ℕ) → (t ≤ result) ↔ (t * length ≤ 2 * (number * number)) }
    ensures size { result ≤ 2 ^ 123 }
{
    2 * (number * number) / length
}
