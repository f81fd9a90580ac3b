//! The whole way from directed edges to shapes.

ghost use Rattle.std.specs.Prelude.{◌≡◌, ◌<◌, ◌≤◌, ◌^◌, true, false, length, map, pos, IfOk, IsTrue, OnOk};
ghost use Rattle.std.specs.List.{All, flat_map};
ghost use Rattle.mesh_num.specs.Paths.{contours_of};
ghost use Rattle.mesh_plane.specs.Plane.{Edge};
ghost use Rattle.mesh_plane.specs.Winding.{IsBalanced, boundary, same_point, sum_of};
ghost use Rattle.mesh_lattice.specs.Clean.{IsProper};
ghost use Rattle.mesh_lattice.specs.Counted.{IsRoomy, size};
ghost use Rattle.mesh_lattice.specs.Splitting.{IsSplitting};
ghost use Rattle.mesh_lattice.specs.FillRules.{filled, filled_by};
ghost use Rattle.mesh_lattice.specs.declared.fill.FillRule.TheVariants.{Positive};
ghost use Rattle.mesh_below.specs.Answers.{AreOwnBoundary, IsSettled};
ghost use Rattle.mesh_below.specs.Nearness.{IsCountedResolution};
ghost use Rattle.mesh_below.specs.Options.{chosen};
ghost use Rattle.mesh_below.specs.Private.ConvexRings.{IsConvexRing};
ghost use Rattle.mesh_below.specs.Private.Resolving.{ResolvesBy};
ghost use Rattle.mesh_below.specs.Private.Rings.{AreRingsOf, PushesRing};
ghost use Rattle.mesh_ahead.specs.Counting.{CountsSplits};
ghost use Rattle.mesh_convex.specs.Convex.{once_each};
ghost use Rattle.mesh_split.specs.Counting.{IsPastLimit, IsWithinLimit};
ghost use Rattle.mesh_split.specs.declared.count.SplitError.TheVariants.{TooManySplits};
ghost use Rattle.mesh_shapes.specs.Vectors.{shapes_points};
ghost use Rattle.mesh_shapes.specs.Resolution.{IsResolution};
ghost use Rattle.mesh_shapes.specs.Vectors.{HavePoints, StartsInOrder, contour_edges};

use mesh_ahead::splitter::{split_edges, split_edges_told};
use mesh_boundary::sides::find_boundary;
use mesh_convex::convex::is_convex_loop;
use mesh_lattice::fill::WindingRule;
use mesh_lattice::lattice::{CountedSegment, LatticeEdge, LatticePoint};
use mesh_shapes::arrange::{is_large, shapes};
use mesh_shapes::ring::{Ring, ring_of};
use mesh_shapes::trace::{contours, edges_by_start};
use mesh_split::count::{SplitCount, SplitError};
use std::alloc::{AllocError, Global};

/// How many segments are added at least where two contours cross: they do so twice, and each crossing cuts both. With half as
/// many, parts that lie apart would be taken for one, and with twice as many a chain of squares for parts that lie apart.
const SEGMENTS_OF_CROSSING: usize = 4;

/// What an answer depends on besides the edges: the least area, whether straight-through vertices stay, and the
/// direction.
#[derive(Debug, Copy, Clone)]
pub struct Choices {
    /// Contours of less area, in squares of the grid, are left out.
    pub least_area: u64,
    /// Whether vertices that contours run straight through stay.
    pub all_vertices: bool,
    /// Whether outer contours run clockwise.
    pub clockwise: bool,
}

/// Shapes, and what is known of them: whether they are settled, so that they are an answer of their own edges too, by
/// the fill rule `Positive` and with the same options, and whether these edges are their own boundary.
#[derive(Drop)]
pub struct GridAnswer {
    /// The shapes.
    pub shapes: Vec<Vec<Vec<LatticePoint>>>,
    /// Whether they are known to be settled.
    pub is_settled: bool,
    /// Whether the edges of their contours are known to be their own boundary.
    pub is_own_boundary: bool,
}

/// Shapes, and how near to the given edges the splits were made that they come of.
#[derive(Drop)]
pub struct NearAnswer {
    /// The shapes.
    pub shapes: Vec<Vec<Vec<LatticePoint>>>,
    /// The distance, in 64ths of a grid unit.
    pub nearness: u64,
}

/// What is known of contours.
#[derive(Copy, Clone)]
struct Told {
    /// Whether each of their points is a vertex.
    are_whole: bool,
    /// Whether of edges that are given too one at most starts at each point that is none.
    are_lone: bool,
}

/// Adds the ring of a contour, unless it is small, and tells of the contour. The edges stand in the order of their
/// starts.
fn push_ring(
    alloc: Global,
    rings: &mut Vec<Ring>,
    contour: Vec<LatticePoint>,
    choices: Choices,
    ordered: &[LatticeEdge],
) -> Result<Told, AllocError>
    requires has_points { 0 < length contour.items }
    requires proper { All (λ (e : Edge). same_point e.0 e.1 ≡ false) (boundary contour.items) }
    requires ordered { StartsInOrder ordered.now }
    ensures { IfOk result (λ told. PushesRing choices.all_vertices choices.least_area ordered.now contour.items
        rings.old.items rings.new.items (told.are_whole, told.are_lone)) }
{
    let count = contour.len();
    let (ring, are_lone) = ring_of(alloc, contour, choices.all_vertices, ordered)?;
    let told = Told {
        are_whole: ring.0.len() == count,
        are_lone,
    };
    if !is_large(&ring, choices.least_area) {
        return Ok(told);
    }
    rings.push(ring)?;
    Ok(told)
}

/// The rings of contours, without the small ones, and what is known of the contours.
fn rings_of(
    alloc: Global,
    contours: Vec<Vec<LatticePoint>>,
    choices: Choices,
    ordered: &[LatticeEdge],
) -> Result<(Vec<Ring>, Told), AllocError>
    requires have_points { HavePoints contours.items }
    requires proper { All (λ (e : Edge). same_point e.0 e.1 ≡ false) (contour_edges contours.items) }
    requires ordered { StartsInOrder ordered.now }
    ensures { IfOk result (λ v. AreRingsOf choices.all_vertices choices.least_area ordered.now contours.items
        v.0.items (v.1.are_whole, v.1.are_lone)) }
{
    let mut rings = Vec::with_capacity(alloc, contours.len())?;
    let mut are_whole = true;
    let mut are_lone = true;
    for contour in contours {
        let told = push_ring(alloc, &mut rings, contour, choices, ordered)?;
        are_whole &= told.are_whole;
        are_lone &= told.are_lone;
    }
    let told = Told {
        are_whole,
        are_lone,
    };
    Ok((rings, told))
}

/// Whether no contour is left out, and none is reversed.
fn answers_all(choices: Choices) -> bool
    ensures { result ≡ true → (choices.least_area ≡ 0) × (choices.clockwise ≡ false) }
{
    choices.least_area == 0 && !choices.clockwise
}

/// The shapes of what balanced edges fill, none of which ends where it starts. They are settled where each point of the
/// boundary is a vertex, no contour is left out and none is reversed; their edges are their own boundary where no
/// contour is left out or reversed, and one edge of the boundary alone starts at each of its points that is no vertex.
/// It fails only where memory is refused.
pub fn resolve(
    alloc: Global,
    edges: &[LatticeEdge],
    fill: WindingRule,
    choices: Choices,
) -> Result<GridAnswer, AllocError>
    requires proper { IsProper edges.now }
    requires balanced { IsBalanced edges.now }
    ensures resolution { IfOk result (λ v. IsResolution edges.now (filled_by fill)
        (chosen choices)
        (shapes_points v.shapes.items)) }
    ensures settled { IfOk result (λ v. v.is_settled ≡ true → IsSettled
        (chosen choices)
        (shapes_points v.shapes.items)) }
    ensures own_boundary { IfOk result (λ v. v.is_own_boundary ≡ true
        → AreOwnBoundary (flat_map boundary (contours_of (shapes_points v.shapes.items)))) }
{
    let segments = split_edges(alloc, edges)?;
    shapes_of_segments(alloc, edges, &segments, fill, choices)
}

/// The same, and how near to the edges the splits were made, of which a limit may be set. It fails where memory is
/// refused, or where more splits were made than may be.
pub fn resolve_with_nearness(
    alloc: Global,
    edges: &[LatticeEdge],
    fill: WindingRule,
    choices: Choices,
    count: &mut SplitCount,
) -> Result<NearAnswer, SplitError>
    requires proper { IsProper edges.now }
    requires balanced { IsBalanced edges.now }
    ensures resolution { IfOk result (λ v. IsCountedResolution v.nearness edges.now (filled_by fill)
        (chosen choices)
        (shapes_points v.shapes.items) count.old count.new) }
    ensures small { IfOk result (λ v. v.nearness ≤ 2 ^ 38) }
    ensures counted { CountsSplits edges.now count.old count.new }
    ensures within { OnOk result (IsWithinLimit count.new) }
    ensures refused { result ≡ Err SplitError.TooManySplits → IsPastLimit count.new }
{
    let told = split_edges_told(alloc, edges, count)?;
    let answer = shapes_of_segments(alloc, edges, &told.segments, fill, choices)?;
    Ok(NearAnswer {
        shapes: answer.shapes,
        nearness: told.nearness,
    })
}

/// About how many parts the segments make that edges were split into, each of which hangs together: as many as there are
/// contours, less one for each two that cross. A contour begins where an edge does not start where that before it ends.
fn parts_of(edges: &[LatticeEdge], segments: usize) -> usize {
    let mut parts: usize = 1;
    let mut at = None;
    for e in edges {
        if at != Some(e.0) {
            parts = parts.saturating_add(1);
        }
        at = Some(e.1);
    }
    let met = segments.saturating_sub(edges.len()) / SEGMENTS_OF_CROSSING;
    parts.saturating_sub(met)
}

/// Whether a segment counts once.
#[inline]
fn is_one(s: CountedSegment) -> bool
    ensures { IsTrue result → s.1 ≡ pos 1 }
{
    s.1 == 1
}

/// Whether a segment is an edge, and counts once.
#[inline]
fn is_once(s: CountedSegment, e: LatticeEdge) -> bool
    ensures { IsTrue result → s ≡ (e, pos 1) }
{
    if !is_one(s) {
        return false;
    }
    s.0 == e
}

/// Whether the segments are the edges, each of which counts once.
fn are_edges(edges: &[LatticeEdge], segments: &[CountedSegment]) -> bool
    ensures { IsTrue result → segments.now ≡ once_each edges.now }
{
    if segments.len() != edges.len() {
        return false;
    }
    for k in 0..edges.len() {
        if !is_once(segments[k], edges[k]) {
            return false;
        }
    }
    true
}

/// Whether the edges run once round a convex polygon, counterclockwise, of which no edge was split, and which is filled.
fn is_convex_ring(edges: &[LatticeEdge], segments: &[CountedSegment], fill: WindingRule) -> bool
    ensures { IsTrue result → IsConvexRing edges.now segments.now (filled_by fill) }
{
    if !fill.is_filled(1) {
        return false;
    }
    if !is_convex_loop(edges) {
        return false;
    }
    are_edges(edges, segments)
}

/// The points at which edges start.
fn starts(alloc: Global, edges: &[LatticeEdge]) -> Result<Vec<LatticePoint>, AllocError>
    ensures { IfOk result (λ v. v.items ≡ map (λ (e : Edge). e.0) edges.now) }
{
    let mut points = Vec::with_capacity(alloc, edges.len())?;
    for e in edges {
        points.push(e.0)?;
    }
    Ok(points)
}

/// The shape of a convex polygon, whose edges are its boundary.
fn shapes_of_ring(
    alloc: Global,
    edges: &[LatticeEdge],
    segments: &[CountedSegment],
    fill: WindingRule,
    choices: Choices,
) -> Result<GridAnswer, AllocError>
    requires ring { IsConvexRing edges.now segments.now (filled_by fill) }
    requires proper { IsProper edges.now }
    requires balanced { IsBalanced edges.now }
    requires splitting { IsSplitting edges.now segments.now }
    requires room { IsRoomy (sum_of size segments.now) }
    ensures resolution { IfOk result (λ v. (s : IsSplitting edges.now segments.now) → ResolvesBy s.splits edges.now
        (filled_by fill)
        (chosen choices)
        (shapes_points v.shapes.items)) }
    ensures settled { IfOk result (λ v. v.is_settled ≡ true → IsSettled
        (chosen choices)
        (shapes_points v.shapes.items)) }
    ensures own_boundary { IfOk result (λ v. v.is_own_boundary ≡ true
        → AreOwnBoundary (flat_map boundary (contours_of (shapes_points v.shapes.items)))) }
{
    let mut closed = Vec::with_capacity(alloc, 1)?;
    closed.push(starts(alloc, edges)?)?;
    let (rings, told) = rings_of(alloc, closed, choices, &[])?;
    let shapes = shapes(alloc, rings, choices.clockwise)?;
    let is_whole = told.are_whole & answers_all(choices);
    Ok(GridAnswer {
        shapes,
        is_settled: is_whole,
        is_own_boundary: is_whole,
    })
}

/// The shapes of what the segments fill that balanced edges were split into, by the sides of each.
fn shapes_by_sides(
    alloc: Global,
    edges: &[LatticeEdge],
    segments: &[CountedSegment],
    fill: WindingRule,
    choices: Choices,
) -> Result<GridAnswer, AllocError>
    requires proper { IsProper edges.now }
    requires balanced { IsBalanced edges.now }
    requires splitting { IsSplitting edges.now segments.now }
    requires room { IsRoomy (sum_of size segments.now) }
    ensures resolution { IfOk result (λ v. (s : IsSplitting edges.now segments.now) → ResolvesBy s.splits edges.now
        (filled_by fill)
        (chosen choices)
        (shapes_points v.shapes.items)) }
    ensures settled { IfOk result (λ v. v.is_settled ≡ true → IsSettled
        (chosen choices)
        (shapes_points v.shapes.items)) }
    ensures own_boundary { IfOk result (λ v. v.is_own_boundary ≡ true
        → AreOwnBoundary (flat_map boundary (contours_of (shapes_points v.shapes.items)))) }
{
    let parted = find_boundary(alloc, segments, parts_of(edges, segments.len()), fill)?;
    let ordered = edges_by_start(parted);
    let closed = contours(alloc, &ordered)?;
    let (rings, told) = rings_of(alloc, closed, choices, &ordered)?;
    let shapes = shapes(alloc, rings, choices.clockwise)?;
    let is_all = answers_all(choices);
    Ok(GridAnswer {
        shapes,
        is_settled: told.are_whole & is_all,
        is_own_boundary: told.are_lone & is_all,
    })
}

/// The shapes of what the segments fill that balanced edges were split into.
fn shapes_of_segments(
    alloc: Global,
    edges: &[LatticeEdge],
    segments: &[CountedSegment],
    fill: WindingRule,
    choices: Choices,
) -> Result<GridAnswer, AllocError>
    requires proper { IsProper edges.now }
    requires balanced { IsBalanced edges.now }
    requires splitting { IsSplitting edges.now segments.now }
    requires room { IsRoomy (sum_of size segments.now) }
    ensures resolution { IfOk result (λ v. (s : IsSplitting edges.now segments.now) → ResolvesBy s.splits edges.now
        (filled_by fill)
        (chosen choices)
        (shapes_points v.shapes.items)) }
    ensures settled { IfOk result (λ v. v.is_settled ≡ true → IsSettled
        (chosen choices)
        (shapes_points v.shapes.items)) }
    ensures own_boundary { IfOk result (λ v. v.is_own_boundary ≡ true
        → AreOwnBoundary (flat_map boundary (contours_of (shapes_points v.shapes.items)))) }
{
    if is_convex_ring(edges, segments, fill) {
        return shapes_of_ring(alloc, edges, segments, fill, choices);
    }
    shapes_by_sides(alloc, edges, segments, fill, choices)
}

/// The shapes of what the edges of these contours fill by the fill rule `Positive`, where the edges are their own
/// boundary, and so need no splitting. It fails only where memory is refused.
pub fn arranged_contours(
    alloc: Global,
    contours: Vec<Vec<LatticePoint>>,
    choices: Choices,
) -> Result<Vec<Vec<Vec<LatticePoint>>>, AllocError>
    requires have_points { HavePoints contours.items }
    requires own_boundary { AreOwnBoundary (contour_edges contours.items) }
    ensures { IfOk result (λ v. IsResolution (contour_edges contours.items) (filled Positive)
        (chosen choices)
        (shapes_points v.items)) }
{
    let (rings, _) = rings_of(alloc, contours, choices, &[])?;
    let shapes = shapes(alloc, rings, choices.clockwise)?;
    Ok(shapes)
}
