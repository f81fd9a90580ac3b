//! Shapes of rings: order and grouping.

ghost use Rattle.std.specs.Prelude.{◌≡◌, ◌≢◌, ℕ, ◌+◌, ◌*◌, ◌<◌, true, false, cond};
ghost use Rattle.std.specs.Prelude.{[], ◌∷◌, ◌++◌, length, reverse, slice_index_or};
ghost use Rattle.std.specs.Prelude.{unsigned_abs, int_lt, pos, IfOk, OnOk, Vec};
ghost use Rattle.std.specs.declared.alloc.Global.{Global};
ghost use Rattle.std.specs.List.{All, AllPairs};
ghost use Rattle.std.specs.List.Sorted.{IsSortedBy, IsPermutation};
ghost use Rattle.mesh_shapes.specs.Contours.{reversed, double_area};
ghost use Rattle.mesh_shapes.specs.Vectors.{ring_of_vec, rings_of_vecs, shape_points, shapes_points};
ghost use Rattle.mesh_shapes.specs.Homes.{IsHome};
ghost use Rattle.mesh_shapes.specs.Private.Grouping.{areas_of, AreHomes, AreWithin};
ghost use Rattle.mesh_shapes.specs.Private.Grouping.{HaveMembers, IsPutHome, contour_at, contours_at, all_shapes};
ghost use Rattle.mesh_shapes.specs.Private.Grouping.{Stays, OtherRingsStay, AreApart, HaveApart, homed};
ghost use Rattle.mesh_shapes.specs.Private.Holders.{placed_edges};
ghost use Rattle.mesh_lattice.specs.Rows.{AreRows};
ghost use Rattle.mesh_shapes.specs.Resolution.{is_large, points_lt};
ghost use Rattle.mesh_shapes.specs.Resolution.{AreArranged};

use crate::area::double_area;
use crate::holders::{PlacedEdge, holder, ring_edges};
use crate::ring::Ring;
use mesh_lattice::lattice::LatticePoint;
use mesh_lattice::places::{empty_lists, push_to};
use mesh_lattice::rows::Rows;
use std::alloc::{AllocError, Global};
use std::mem::replace;

/// So many holes at most look through all edges for the rings that hold them. To list the edges by rows takes as long as
/// some forty holes take; with twice as many, drawings with some dozen of large holes would gain nothing.
const FEW_HOLES: usize = 16;

/// Whether the ring's double area is in size at least twice the least area.
pub fn is_large(ring: &Ring, least_area: u64) -> bool
    ensures { result ≡ is_large least_area (ring_of_vec ring.now) }
{
    2 * least_area as u128 <= double_area(&ring.0).unsigned_abs()
}

/// The double areas of rings, in their order.
fn areas(alloc: Global, rings: &[Ring]) -> Result<Vec<i128>, AllocError>
    ensures { IfOk result (λ v. v.items ≡ areas_of (rings_of_vecs rings.now)) }
{
    let mut areas = Vec::with_capacity(alloc, rings.len())?;
    for r in rings {
        areas.push(double_area(&r.0))?;
    }
    Ok(areas)
}

/// The place of the ring with which the ring at `i` stands, its own where it heads a shape.
fn home(rings: &[Ring], areas: &[i128], rows: &Rows<usize>, i: usize) -> usize
    requires in_range { i < length rings.now }
    requires areas_known { areas.now ≡ areas_of (rings_of_vecs rings.now) }
    requires rows_known { int_lt (pos 0) (slice_index_or areas.now i (pos 0)) ≡ false
        → AreRows rows.now.marks.items rows.now.lists.items (placed_edges (rings_of_vecs rings.now)) }
    ensures home { IsHome (rings_of_vecs rings.now) i result }
    ensures within { result < length rings.now }
{
    if areas[i] > 0 {
        return i;
    }
    let q = rings[i].1;
    let Some(h) = holder(areas, rows.row(q), q) else {
        return i;
    };
    h
}

/// Whether all areas are positive.
fn are_positive(areas: &[i128]) -> bool
    ensures { result ≡ true → (i : ℕ) → i < length areas.now
        → int_lt (pos 0) (slice_index_or areas.now i (pos 0)) ≡ true }
{
    for i in 0..areas.len() {
        if areas[i] <= 0 {
            return false;
        }
    }
    true
}

/// The edges among which holes look for the rings that hold them: none where there are no holes.
fn edges_wanted(
    alloc: Global,
    rings: &[Ring],
    areas: &[i128],
) -> Result<Vec<PlacedEdge>, AllocError>
    requires { areas.now ≡ areas_of (rings_of_vecs rings.now) }
    ensures { IfOk result (λ v. (i : ℕ) → i < length areas.now
        → int_lt (pos 0) (slice_index_or areas.now i (pos 0)) ≡ false
        → v.items ≡ placed_edges (rings_of_vecs rings.now)) }
{
    if are_positive(areas) {
        return Ok(Vec::new(alloc));
    }
    let edges = ring_edges(alloc, rings, areas)?;
    Ok(edges)
}

/// How many areas are not positive: those of holes, and of rings that enclose nothing.
fn hole_count(areas: &[i128]) -> usize {
    let mut count: usize = 0;
    for i in 0..areas.len() {
        if areas[i] <= 0 {
            count = count.saturating_add(1);
        }
    }
    count
}

/// The edges in rows; all in one where few holes look through it.
fn rows_of(
    alloc: Global,
    edges: Vec<PlacedEdge>,
    hole_count: usize,
) -> Result<Rows<usize>, AllocError>
    ensures { IfOk result (λ rows. AreRows rows.marks.items rows.lists.items edges.items) }
{
    if hole_count > FEW_HOLES {
        return Rows::new(alloc, &edges);
    }
    let mut lists = Vec::with_capacity(alloc, 1)?;
    lists.push(edges)?;
    Ok(Rows {
        marks: Vec::new(alloc),
        lists,
    })
}

/// The places of the rings with which rings stand.
fn homes(alloc: Global, rings: &[Ring]) -> Result<Vec<usize>, AllocError>
    ensures len { IfOk result (λ v. length v.items ≡ length rings.now) }
    ensures homes { IfOk result (λ v. AreHomes rings.now v.items) }
    ensures within { IfOk result (λ v. AreWithin rings.now v.items) }
{
    let areas = areas(alloc, rings)?;
    let edges = edges_wanted(alloc, rings, &areas)?;
    let rows = rows_of(alloc, edges, hole_count(&areas))?;
    let mut homes = Vec::with_capacity(alloc, rings.len())?;
    for i in 0..rings.len() {
        homes.push(home(rings, &areas, &rows, i))?;
    }
    Ok(homes)
}

/// Leaves the first point where it is, and turns the others about.
fn reverse(points: &mut [LatticePoint])
    ensures { points.new ≡ reversed points.old }
{
    if !points.is_empty() {
        points[1..].reverse();
    }
}

/// A ring's points as its contour, the other way about where contours are to run clockwise.
fn answered(mut points: Vec<LatticePoint>, clockwise: bool) -> Vec<LatticePoint>
    ensures { result.items ≡ cond clockwise (reversed points.items) points.items }
{
    if clockwise {
        reverse(&mut points);
    }
    points
}

/// Adds a ring to those that stand with another, unless it heads a shape.
fn push_home(
    members: &mut Vec<Vec<usize>>,
    rings: &[Ring],
    homes: &[usize],
    i: usize,
) -> Result<(), AllocError>
    requires in_range { i < length rings.now }
    requires homes_len { length homes.now ≡ length rings.now }
    requires len { length members.old.items ≡ length rings.now }
    requires home { slice_index_or homes.now i 0 < length rings.now }
    ensures { OnOk result (IsPutHome members.old.items members.new.items i (slice_index_or homes.now i 0)) }
{
    if homes[i] == i {
        return Ok(());
    }
    push_to(members, homes[i], i)?;
    Ok(())
}

/// For each ring the places of the rings that stand with it and head no shape.
fn members(alloc: Global, rings: &[Ring], homes: &[usize]) -> Result<Vec<Vec<usize>>, AllocError>
    requires homes_len { length homes.now ≡ length rings.now }
    requires homes_are { AreHomes rings.now homes.now }
    requires within { AreWithin rings.now homes.now }
    ensures len { IfOk result (λ v. length v.items ≡ length rings.now) }
    ensures members { IfOk result (λ v. HaveMembers rings.now v.items) }
    ensures apart { IfOk result (λ v. HaveApart homes.now v.items) }
{
    let mut members = empty_lists(alloc, rings.len())?;
    for i in 0..rings.len() {
        push_home(&mut members, rings, homes, i)?;
    }
    Ok(members)
}

/// Moves the points of the ring at a place to a shape, as its contour.
fn push_contour(
    alloc: Global,
    shape: &mut Vec<Vec<LatticePoint>>,
    rings: &mut [Ring],
    i: usize,
    clockwise: bool,
) -> Result<(), AllocError>
    requires { i < length rings.old }
    ensures added { OnOk result
        (shape_points shape.new.items ≡ shape_points shape.old.items ++ contour_at clockwise rings.old i ∷ []) }
    ensures others { OnOk result (OtherRingsStay rings.old rings.new (i ∷ [])) }
{
    let points = replace(&mut rings[i].0, Vec::new(alloc));
    shape.push(answered(points, clockwise))?;
    Ok(())
}

/// The shape of the ring at `h` and of those at other places, whose points move there.
fn shape(
    alloc: Global,
    rings: &mut [Ring],
    members: &[usize],
    h: usize,
    clockwise: bool,
) -> Result<Vec<Vec<LatticePoint>>, AllocError>
    requires in_range { h < length rings.old }
    requires within { All (λ i. i < length rings.old) members.now }
    requires apart { AllPairs (λ i j. i ≢ j) (h ∷ members.now) }
    ensures contours { IfOk result (λ v. shape_points v.items
        ≡ contours_at (rings_of_vecs rings.old) clockwise h members.now) }
    ensures others { IfOk result (λ v. OtherRingsStay rings.old rings.new (h ∷ members.now)) }
{
    let mut shape = Vec::with_capacity(alloc, members.len() + 1)?;
    push_contour(alloc, &mut shape, rings, h, clockwise)?;
    for i in members {
        push_contour(alloc, &mut shape, rings, *i, clockwise)?;
    }
    Ok(shape)
}

/// Adds the shape that the ring at `h` heads, if it heads one.
fn push_shape(
    alloc: Global,
    shapes: &mut Vec<Vec<Vec<LatticePoint>>>,
    rings: &mut [Ring],
    homes: &[usize],
    members: &[usize],
    h: usize,
    clockwise: bool,
) -> Result<(), AllocError>
    requires in_range { h < length rings.old }
    requires homes_len { length homes.now ≡ length rings.old }
    requires within { All (λ i. i < length rings.old) members.now }
    requires apart { AreApart homes.now h members.now }
    ensures added { OnOk result (shapes_points shapes.new.items ≡ shapes_points shapes.old.items ++
        homed clockwise (rings_of_vecs rings.old) homes.now h members.now) }
    ensures others { OnOk result ((k : ℕ) → slice_index_or homes.now k 0 ≢ h → Stays rings.old rings.new k) }
{
    if homes[h] != h {
        return Ok(());
    }
    shapes.push(shape(alloc, rings, members, h, clockwise)?)?;
    Ok(())
}

/// The shapes of rings that stand in order, whose points move there.
fn grouped(
    alloc: Global,
    rings: &mut [Ring],
    clockwise: bool,
) -> Result<Vec<Vec<Vec<LatticePoint>>>, AllocError>
    ensures { IfOk result (λ v. shapes_points v.items ≡ all_shapes clockwise (rings_of_vecs rings.old)) }
{
    let homes = homes(alloc, rings)?;
    let members = members(alloc, rings, &homes)?;
    let mut shapes = Vec::new(alloc);
    for h in 0..rings.len() {
        push_shape(alloc, &mut shapes, rings, &homes, &members[h], h, clockwise)?;
    }
    Ok(shapes)
}

/// Rings in the order of their points.
fn rings_by_points(mut rings: Vec<Ring>) -> Vec<Ring>
    ensures same { IsPermutation rings.items result.items }
    ensures ordered { IsSortedBy (λ r s. points_lt r.0 s.0) (rings_of_vecs result.items) }
{
    rings.sort_unstable();
    rings
}

/// The rings as shapes, each an outer boundary with its holes, in order. Outer boundaries run counterclockwise and
/// holes clockwise; with `clockwise` it is the other way round. It fails only where memory is refused.
pub fn shapes(
    alloc: Global,
    rings: Vec<Ring>,
    clockwise: bool,
) -> Result<Vec<Vec<Vec<LatticePoint>>>, AllocError>
    ensures { IfOk result (λ v. AreArranged clockwise (rings_of_vecs rings.items) (shapes_points v.items)) }
{
    let mut ordered = rings_by_points(rings);
    let shapes = grouped(alloc, &mut ordered, clockwise)?;
    Ok(shapes)
}
