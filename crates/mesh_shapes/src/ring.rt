//! What is answered of a contour: its vertices from its start on, and its side point.

ghost use Rattle.std.specs.Prelude.{◌≡◌, ◌+◌, ◌^◌, ◌<◌, ◌||◌, true, false, ◌++◌};
ghost use Rattle.std.specs.Prelude.{length};
ghost use Rattle.std.specs.Prelude.{drop, IfOk, OnOk};
ghost use Rattle.std.specs.List.{All};
ghost use Rattle.mesh_plane.specs.Bounds.{IsSmall, IsSafe};
ghost use Rattle.mesh_plane.specs.Plane.{Edge, dot, cross};
ghost use Rattle.mesh_plane.specs.Winding.{boundary, same_point};
ghost use Rattle.mesh_plane.specs.Turning.{turns_at};
ghost use Rattle.mesh_shapes.specs.Contours.{kept, left_out, omitted, vertices, side_point, StartsOnce, IsRingAmong};
ghost use Rattle.mesh_shapes.specs.Vectors.{StartsInOrder};
ghost use Rattle.mesh_shapes.specs.Private.Progress.{point_at, next_at, IsBestVisit, IsLeastBefore, point_after};
ghost use Rattle.mesh_shapes.specs.Private.Progress.{kept_after, omitted_after};

use crate::trace::starts_once;
use mesh_lattice::exact::{cross, is_before, minus, product, same_point};
use mesh_lattice::fine::{FinePoint, middle};
use mesh_lattice::lattice::{LatticeEdge, LatticePoint};
use std::alloc::{AllocError, Global};

/// The vertices of a contour, and the midpoint of its first edge on the grid that is twice as fine.
pub type Ring = (Vec<LatticePoint>, FinePoint);

/// A vector between two points.
type Vector = (i128, i128);

fn dot(v: Vector, w: Vector) -> i128
    requires v_small { IsSafe (2 ^ 32) v }
    requires w_small { IsSafe (2 ^ 32) w }
    ensures value { result ≡ dot v w }
    ensures size { IsSmall (2 ^ 65) result }
{
    product(v.0, w.0) + product(v.1, w.1)
}

/// Whether a way from `a` by `p` to `n` turns or turns back at `p`.
fn turns_at(a: LatticePoint, p: LatticePoint, n: LatticePoint) -> bool
    ensures { result ≡ turns_at a p n }
{
    let v = minus(p, a);
    let w = minus(p, n);
    if cross(v, w) == 0 {
        return dot(v, w) > 0;
    }
    true
}

/// The place of the lesser of two points.
fn lesser_place(contour: &[LatticePoint], least: usize, i: usize) -> usize
    requires in_range { i < length contour.now }
    requires known { IsLeastBefore contour.now i least }
    ensures { IsLeastBefore contour.now (i + 1) result }
{
    if is_before(contour[i], contour[least]) {
        return i;
    }
    least
}

/// Where the least point stands first.
fn least_place(contour: &[LatticePoint]) -> usize
    requires { 0 < length contour.now }
    ensures { IsLeastBefore contour.now (length contour.now) result }
{
    let mut least = 0;
    for i in 0..contour.len() {
        least = lesser_place(contour, least, i);
    }
    least
}

/// The point that follows, the first after the last.
fn following(contour: &[LatticePoint], i: usize) -> LatticePoint
    requires { i < length contour.now }
    ensures { result ≡ point_after contour.now i }
{
    if i + 1 < contour.len() {
        return contour[i + 1];
    }
    contour[0]
}

/// Whether the point at a place is answered: all are, or the way turns there.
fn is_kept(contour: &[LatticePoint], all: bool, before: LatticePoint, i: usize) -> bool
    requires { i < length contour.now }
    ensures { result ≡ (all || turns_at before (point_at contour.now i) (point_after contour.now i)) }
{
    if all {
        return true;
    }
    turns_at(before, contour[i], following(contour, i))
}

/// The next vertex that is answered after the place `at`, in a contour that begins with an answered one.
fn next_vertex(contour: &[LatticePoint], all: bool, at: usize) -> LatticePoint
    requires { at < length contour.now }
    ensures { result ≡ next_at all contour.now at }
{
    let mut before = contour[at];
    for i in at + 1..contour.len() {
        if is_kept(contour, all, before, i) {
            return contour[i];
        }
        before = contour[i];
    }
    contour[0]
}

/// The better of two visits of the first point, where the second place is one.
fn better_visit(contour: &[LatticePoint], all: bool, best: usize, i: usize) -> usize
    requires in_range { i < length contour.now }
    requires known { IsBestVisit all contour.now i best }
    ensures { IsBestVisit all contour.now (i + 1) result }
{
    if !same_point(contour[i], contour[0]) {
        return best;
    }
    if is_before(
        next_vertex(contour, all, i),
        next_vertex(contour, all, best),
    ) {
        return i;
    }
    best
}

/// Of the visits of the first point that with the least next vertex.
fn start_place(contour: &[LatticePoint], all: bool) -> usize
    requires { 0 < length contour.now }
    ensures { IsBestVisit all contour.now (length contour.now) result }
{
    let mut best = 0;
    for i in 0..contour.len() {
        best = better_visit(contour, all, best, i);
    }
    best
}

/// Adds the point at a place, where it is answered.
fn push_kept(
    points: &mut Vec<LatticePoint>,
    contour: &[LatticePoint],
    all: bool,
    before: LatticePoint,
    i: usize,
) -> Result<(), AllocError>
    requires { i < length contour.now }
    ensures { OnOk result (points.new.items ++ kept_after all (point_at contour.now i) contour.now i
        ≡ points.old.items ++ kept all before (drop i contour.now) (point_at contour.now 0)) }
{
    if !is_kept(contour, all, before, i) {
        return Ok(());
    }
    points.push(contour[i])?;
    Ok(())
}

/// The first point and the turning points, or all points.
fn vertices(
    alloc: Global,
    contour: &[LatticePoint],
    all: bool,
) -> Result<Vec<LatticePoint>, AllocError>
    requires { 0 < length contour.now }
    ensures { IfOk result (λ v. v.items ≡ vertices all contour.now) }
{
    let mut points = Vec::with_capacity(alloc, contour.len())?;
    let mut before = contour[0];
    points.push(before)?;
    for i in 1..contour.len() {
        push_kept(&mut points, contour, all, before, i)?;
        before = contour[i];
    }
    Ok(points)
}

/// Whether the point at a place is answered, or at most one of the edges starts at it.
fn may_leave(
    contour: &[LatticePoint],
    all: bool,
    before: LatticePoint,
    i: usize,
    ordered: &[LatticeEdge],
) -> bool
    requires in_range { i < length contour.now }
    requires ordered { StartsInOrder ordered.now }
    ensures { result ≡ true → All (StartsOnce ordered.now) (omitted_after all (point_at contour.now i) contour.now i)
        → All (StartsOnce ordered.now) (omitted all before (drop i contour.now) (point_at contour.now 0)) }
{
    is_kept(contour, all, before, i) || starts_once(ordered, contour[i])
}

/// Whether at most one of the edges starts at each point that the vertices leave out.
fn leaves_lone_points(contour: &[LatticePoint], all: bool, ordered: &[LatticeEdge]) -> bool
    requires has_points { 0 < length contour.now }
    requires ordered { StartsInOrder ordered.now }
    ensures { result ≡ true → All (StartsOnce ordered.now) (left_out all contour.now) }
{
    let mut before = contour[0];
    for i in 1..contour.len() {
        if !may_leave(contour, all, before, i, ordered) {
            return false;
        }
        before = contour[i];
    }
    true
}

fn side_point(contour: &[LatticePoint]) -> FinePoint
    requires { 0 < length contour.now }
    ensures { result ≡ side_point contour.now }
{
    middle((contour[0], following(contour, 0)))
}

/// The ring of a contour, from the contour's start on, and whether at most one of the edges, which stand in the order
/// of their starts, starts at each point that it leaves out.
pub fn ring_of(
    alloc: Global,
    mut contour: Vec<LatticePoint>,
    all: bool,
    ordered: &[LatticeEdge],
) -> Result<(Ring, bool), AllocError>
    requires has_points { 0 < length contour.items }
    requires proper { All (λ (e : Edge). same_point e.0 e.1 ≡ false) (boundary contour.items) }
    requires ordered { StartsInOrder ordered.now }
    ensures { IfOk result (λ r. IsRingAmong all ordered.now contour.items (r.0.0.items, r.0.1) r.1) }
{
    contour.rotate_left(least_place(&contour));
    contour.rotate_left(start_place(&contour, all));
    let side = side_point(&contour);
    let is_lone = leaves_lone_points(&contour, all, ordered);
    Ok(((vertices(alloc, &contour, all)?, side), is_lone))
}
