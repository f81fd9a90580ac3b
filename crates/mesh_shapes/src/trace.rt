//! The trace along a boundary: its edges become closed contours.

ghost use Rattle.std.specs.Prelude.{◌≡◌, ◌⊎◌, ℕ, ◌+◌, ◌<◌, ◌≤◌, ◌↔◌, IsTrue, true, false, ℤ};
ghost use Rattle.std.specs.Prelude.{◌+ℤ◌, length, slice_index_or, MatchOption, IfOk, OnOk};
ghost use Rattle.mesh_plane.specs.Order.{point_lt};
ghost use Rattle.mesh_plane.specs.Plane.{Edge};
ghost use Rattle.mesh_plane.specs.Winding.{sum_of, boundary, IsBalanced};
ghost use Rattle.mesh_shapes.specs.Contours.{StartsOnce};
ghost use Rattle.mesh_shapes.specs.Vectors.{HavePoints, StartsInOrder, contour_edges};
ghost use Rattle.mesh_shapes.specs.Private.Unused.{unused, IsOpen, IsNext, TakesContours};

use mesh_lattice::exact::{cross, is_before, minus, same_point};
use mesh_lattice::lattice::{LatticeEdge, LatticePoint};
use std::alloc::{AllocError, Global};

/// A vector between two points.
type Vector = (i128, i128);

/// Whether the vectors look the same way.
fn look_alike(v: Vector, w: Vector) -> bool {
    (v.0 > 0 && w.0 > 0) || (v.0 < 0 && w.0 < 0) || (v.1 > 0 && w.1 > 0) || (v.1 < 0 && w.1 < 0)
}

/// The parts of a turn, in the order in which it comes to them.
#[derive(Copy, Clone, PartialEq, Eq, PartialOrd, Ord)]
enum PartOfTurn {
    BeforeHalf,
    Half,
    PastHalf,
    Whole,
}

/// In which part of the turn clockwise from `from` to the direction the turn ends, where all start at `at`.
fn part_of_turn(at: LatticePoint, from: LatticePoint, to: LatticePoint) -> PartOfTurn {
    let back = minus(from, at);
    let way = minus(to, at);
    let side = cross(back, way);
    if side < 0 {
        return PartOfTurn::BeforeHalf;
    }
    if side > 0 {
        return PartOfTurn::PastHalf;
    }
    if look_alike(back, way) {
        PartOfTurn::Whole
    } else {
        PartOfTurn::Half
    }
}

/// Whether the way to `first` comes before that to `second` on the turn clockwise from the way to `from`, all from
/// `at`.
fn comes_before(
    at: LatticePoint,
    from: LatticePoint,
    first: LatticePoint,
    second: LatticePoint,
) -> bool {
    let a = part_of_turn(at, from, first);
    let b = part_of_turn(at, from, second);
    if a != b {
        return a < b;
    }
    cross(minus(first, at), minus(second, at)) < 0
}

/// The place of the first edge that does not start at a lesser point.
fn first_from(edges: &[LatticeEdge], at: LatticePoint) -> usize
    requires { StartsInOrder edges.now }
    ensures bound { result ≤ length edges.now }
    ensures before { (k : ℕ) (d : Edge) → k < result → point_lt (slice_index_or edges.now k d).0 at ≡ true }
    ensures after { (k : ℕ) (d : Edge) → result ≤ k → k < length edges.now
        → point_lt (slice_index_or edges.now k d).0 at ≡ false }
{
    edges.partition_point(
        |e: &LatticeEdge| -> bool
            ensures { result ≡ point_lt e.now.0 at }
        { is_before(e.0, at) },
    )
}

/// The one of two edges, if there is one already, that comes first on the turn.
fn better(
    edges: &[LatticeEdge],
    at: LatticePoint,
    from: LatticePoint,
    best: Option<usize>,
    k: usize,
) -> usize
    requires { k < length edges.now }
    ensures { MatchOption best (result ≡ k) (λ b. (result ≡ k) ⊎ (result ≡ b)) }
{
    let Some(b) = best else {
        return k;
    };
    if b < edges.len() && comes_before(at, from, edges[b].1, edges[k].1) {
        return b;
    }
    k
}

/// Whether the trace may take the edge at a place: it is unused, or the trace's first.
fn is_open(used: &[bool], first: usize, k: usize) -> bool
    requires { k < length used.now }
    ensures { IsTrue result ↔ IsOpen used.now first k }
{
    if k == first {
        return true;
    }
    !used[k]
}

/// The edge to take of those looked at so far, where the edge at `k` is looked at too.
fn with_edge(
    edges: &[LatticeEdge],
    used: &[bool],
    first: usize,
    from: LatticePoint,
    at: LatticePoint,
    best: Option<usize>,
    k: usize,
) -> Option<usize>
    requires within { k < length edges.now }
    requires marks { length used.now ≡ length edges.now }
    ensures { MatchOption result ((best ≡ None) × (IsOpen used.now first k → ⊥))
        (λ b. ((b ≡ k) × IsOpen used.now first k) ⊎ (best ≡ Some b)) }
{
    if !is_open(used, first, k) {
        return best;
    }
    Some(better(edges, at, from, best, k))
}

/// The edge on which the trace goes on from `at`, where it came from `from`: of the unused ones that start there, and of
/// the trace's first edge where it starts there, the first clockwise from the way back.
fn next_edge(
    edges: &[LatticeEdge],
    used: &[bool],
    first: usize,
    from: LatticePoint,
    at: LatticePoint,
) -> Option<usize>
    requires ordered { StartsInOrder edges.now }
    requires marks { length used.now ≡ length edges.now }
    ensures { MatchOption result ((k : ℕ) → IsNext edges.now used.now first at k → ⊥)
        (IsNext edges.now used.now first at) }
{
    let mut best = None;
    for k in first_from(edges, at)..edges.len() {
        if !same_point(edges[k].0, at) {
            return best;
        }
        best = with_edge(edges, used, first, from, at, best, k);
    }
    best
}

/// The points of the contour that begins with the edge `first`.
fn trace(
    alloc: Global,
    edges: &[LatticeEdge],
    used: &mut [bool],
    first: usize,
) -> Result<Vec<LatticePoint>, AllocError>
    requires ordered { StartsInOrder edges.now }
    requires marks { length used.old ≡ length edges.now }
    requires first_in { first < length edges.now }
    requires first_unused { slice_index_or used.old first true ≡ false }
    requires balanced { IsBalanced (unused edges.now used.old) }
    ensures has_points { IfOk result (λ v. 0 < length v.items) }
    ensures closed { IfOk result (λ v. (g : Edge → ℤ) → sum_of g (unused edges.now used.old)
        ≡ sum_of g (boundary v.items) +ℤ sum_of g (unused edges.now used.new)) }
    ensures kept { (k : ℕ) → slice_index_or used.old k true ≡ true → slice_index_or used.new k true ≡ true }
    ensures marked { OnOk result (slice_index_or used.new first true ≡ true) }
{
    let mut points = Vec::new(alloc);
    points.push(edges[first].0)?;
    used[first] = true;
    let mut from = edges[first].0;
    let mut at = edges[first].1;
    while let Some(k) = next_edge(edges, used, first, from, at) {
        if k == first {
            return Ok(points);
        }
        points.push(at)?;
        used[k] = true;
        from = at;
        at = edges[k].1;
    }
    Ok(points)
}

/// The edges in the order of their starts.
pub fn edges_by_start(mut edges: Vec<LatticeEdge>) -> Vec<LatticeEdge>
    ensures ordered { StartsInOrder result.items }
    ensures same { (g : Edge → ℤ) → sum_of g result.items ≡ sum_of g edges.items }
{
    edges.sort_unstable();
    edges
}

/// Adds the contour that begins with the edge `first`, unless that is used.
fn add_contour(
    alloc: Global,
    contours: &mut Vec<Vec<LatticePoint>>,
    edges: &[LatticeEdge],
    used: &mut [bool],
    first: usize,
) -> Result<(), AllocError>
    requires ordered { StartsInOrder edges.now }
    requires marks { length used.old ≡ length edges.now }
    requires first_in { first < length edges.now }
    requires balanced { IsBalanced (unused edges.now used.old) }
    ensures { OnOk result (TakesContours edges.now used.old used.new contours.old.items contours.new.items first) }
{
    if used[first] {
        return Ok(());
    }
    let contour = trace(alloc, edges, used, first)?;
    contours.push(contour)?;
    Ok(())
}

/// Contours of all unused edges.
fn contours_of(
    alloc: Global,
    edges: &[LatticeEdge],
    used: &mut [bool],
) -> Result<Vec<Vec<LatticePoint>>, AllocError>
    requires ordered { StartsInOrder edges.now }
    requires marks { length used.old ≡ length edges.now }
    requires balanced { IsBalanced (unused edges.now used.old) }
    ensures edges { IfOk result (λ v. (g : Edge → ℤ) → sum_of g (unused edges.now used.old)
        ≡ sum_of g (contour_edges v.items)) }
    ensures have_points { IfOk result (λ v. HavePoints v.items) }
{
    let mut contours = Vec::new(alloc);
    for first in 0..edges.len() {
        add_contour(alloc, &mut contours, edges, used, first)?;
    }
    Ok(contours)
}

/// Closed contours that together have the edges, each once. These stand in the order of their starts, and at each point
/// as many start as end. No contour is without a point. It fails only where memory is refused.
pub fn contours(
    alloc: Global,
    ordered: &[LatticeEdge],
) -> Result<Vec<Vec<LatticePoint>>, AllocError>
    requires ordered { StartsInOrder ordered.now }
    requires balanced { IsBalanced ordered.now }
    ensures edges { IfOk result (λ v. (g : Edge → ℤ) → sum_of g (contour_edges v.items) ≡ sum_of g ordered.now) }
    ensures have_points { IfOk result (λ v. HavePoints v.items) }
{
    let mut used = vec![in alloc; false; ordered.len()]?;
    let contours = contours_of(alloc, ordered, &mut used)?;
    Ok(contours)
}

/// Whether at most one of the edges, which stand in the order of their starts, starts at the point.
pub fn starts_once(ordered: &[LatticeEdge], at: LatticePoint) -> bool
    requires { StartsInOrder ordered.now }
    ensures { result ≡ true → StartsOnce ordered.now at }
{
    let next = first_from(ordered, at) + 1;
    next >= ordered.len() || !same_point(ordered[next].0, at)
}
