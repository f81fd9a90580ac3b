//! Answers, written as JSON.

ghost use Rattle.std.specs.Prelude.{◌≡◌, None, Some, IfOk, string_bytes, codes, false};
ghost use Rattle.serde_json.specs.Data.{Data, number as number_value, unsigned, array, object, item, no_items};
ghost use Rattle.serde_json.specs.Data.{member, no_members};
ghost use Rattle.serde_json.specs.Find.{of_integer};
ghost use Rattle.serde_json.specs.View.{view};
ghost use Rattle.serde_json.specs.Written.{has_float};
ghost use Rattle.mesh_boolean.specs.Overlaps.{overlap_of, overlaps_of};
ghost use Rattle.mesh_num.specs.Paths.{paths_of, shapes_of};
ghost use Rattle.mesh_service.specs.Lines.{near_overlaps_data, overlap_data, overlap_with, overlaps_text};
ghost use Rattle.mesh_service.specs.Lines.{point_data, edge_data, list_data, only_member, line_text, edges_text};
ghost use Rattle.mesh_service.specs.Lines.{near_edges_data, near_shapes_data, shapes_text, too_many_text, why_data};
ghost use Rattle.mesh_service.specs.Lines.{measured_shapes_data, measured_with, near_measured_shapes_data};
ghost use Rattle.mesh_service.specs.Lines.{near_measured_with, number_or_null, told_shapes_text, why_text};
ghost use Rattle.mesh_service.specs.Reasons.{reason_text};

use crate::distances::Distances;
use crate::reason::Reason;
use mesh_boolean::overlaps::ZoneOverlap;
use mesh_num::num::convert::widen;
use mesh_num::num::{IntNumber, IntPoint, OverlayInt};
use mesh_num::shape::buffer::IntShapes;
use mesh_num::shape::edge::DirectedEdge;
use serde_json::{Value, json};
use std::alloc::{AllocError, Global};

/// The line that lists the edges of each path. It fails only where memory is refused.
pub fn edges_line<I: OverlayInt>(
    alloc: Global,
    paths: &[Vec<DirectedEdge<I>>],
) -> Result<String, AllocError>
    ensures { IfOk result (λ s. string_bytes s ≡ edges_text (paths_of paths.now)) }
{
    let list = list_value(alloc, paths)?;
    let answer = edges_answer(alloc, list)?;
    line_of(alloc, &answer)
}

fn edges_answer(alloc: Global, list: Value) -> Result<Value, AllocError>
    ensures { IfOk result (λ v. view v ≡ only_member (codes "edges") (view list)) }
{
    json!(in alloc; { "edges": list })
}

/// The line that lists shapes. It fails only where memory is refused.
pub fn shapes_line<I: OverlayInt>(
    alloc: Global,
    shapes: &IntShapes<I>,
) -> Result<String, AllocError>
    ensures { IfOk result (λ s. string_bytes s ≡ shapes_text (shapes_of shapes.now.items)) }
{
    let list = list_value(alloc, shapes)?;
    let answer = shapes_answer(alloc, list)?;
    line_of(alloc, &answer)
}

fn shapes_answer(alloc: Global, list: Value) -> Result<Value, AllocError>
    ensures { IfOk result (λ v. view v ≡ only_member (codes "shapes") (view list)) }
{
    json!(in alloc; { "shapes": list })
}

/// The line that lists the edges of each path, with a nearness. It fails only where memory is refused.
pub fn near_edges_line<I: OverlayInt>(
    alloc: Global,
    paths: &[Vec<DirectedEdge<I>>],
    nearness: u64,
) -> Result<String, AllocError>
    ensures { IfOk result (λ s. string_bytes s ≡ line_text (near_edges_data nearness (paths_of paths.now))) }
{
    let list = list_value(alloc, paths)?;
    let answer = near_edges_answer(alloc, list, nearness)?;
    line_of(alloc, &answer)
}

fn near_edges_answer(alloc: Global, list: Value, nearness: u64) -> Result<Value, AllocError>
    ensures { IfOk result (λ v. view v ≡ object (member (codes "edges") (view list)
        (member (codes "nearness") (number_value (unsigned nearness)) no_members))) }
{
    json!(in alloc; { "edges": list, "nearness": nearness })
}

/// The line that lists shapes, with their nearness. It fails only where memory is refused.
pub fn near_shapes_line<I: OverlayInt>(
    alloc: Global,
    shapes: &IntShapes<I>,
    nearness: u64,
) -> Result<String, AllocError>
    ensures { IfOk result (λ s. string_bytes s ≡ line_text (near_shapes_data nearness (shapes_of shapes.now.items))) }
{
    let list = list_value(alloc, shapes)?;
    let answer = near_shapes_answer(alloc, list, nearness)?;
    line_of(alloc, &answer)
}

fn near_shapes_answer(alloc: Global, list: Value, nearness: u64) -> Result<Value, AllocError>
    ensures { IfOk result (λ v. view v ≡ object (member (codes "nearness") (number_value (unsigned nearness))
        (member (codes "shapes") (view list) no_members))) }
{
    json!(in alloc; { "nearness": nearness, "shapes": list })
}

/// The line that lists shapes, with their distances. It fails only where memory is refused.
pub fn measured_shapes_line<I: OverlayInt>(
    alloc: Global,
    shapes: &IntShapes<I>,
    distances: Distances,
) -> Result<String, AllocError>
    ensures { IfOk result (λ s. string_bytes s ≡ line_text (measured_shapes_data distances (shapes_of shapes.now.items))) }
{
    let list = list_value(alloc, shapes)?;
    let answer = measured_answer(alloc, list, distances)?;
    line_of(alloc, &answer)
}

fn measured_answer(alloc: Global, list: Value, distances: Distances) -> Result<Value, AllocError>
    ensures { IfOk result (λ v. view v ≡ measured_with distances (view list)) }
{
    let clearance = number_or_null(distances.clearance);
    let reach = number_or_null(distances.reach);
    json!(in alloc; { "clearance2": clearance, "reach2": reach, "shapes": list })
}

/// The line that lists shapes, with their nearness and their distances. It fails only where memory is refused.
pub fn near_measured_shapes_line<I: OverlayInt>(
    alloc: Global,
    shapes: &IntShapes<I>,
    nearness: u64,
    distances: Distances,
) -> Result<String, AllocError>
    ensures { IfOk result (λ s.
        string_bytes s ≡ line_text (near_measured_shapes_data nearness distances (shapes_of shapes.now.items))) }
{
    let list = list_value(alloc, shapes)?;
    let answer = near_measured_answer(alloc, list, nearness, distances)?;
    line_of(alloc, &answer)
}

fn near_measured_answer(
    alloc: Global,
    list: Value,
    nearness: u64,
    distances: Distances,
) -> Result<Value, AllocError>
    ensures { IfOk result (λ v. view v ≡ near_measured_with nearness distances (view list)) }
{
    let clearance = number_or_null(distances.clearance);
    let reach = number_or_null(distances.reach);
    json!(in alloc; { "clearance2": clearance, "nearness": nearness, "reach2": reach, "shapes": list })
}

/// A number as a value, and nothing as `null`.
fn number_or_null(number: Option<u64>) -> Value
    ensures { view result ≡ number_or_null number }
{
    match number {
        Some(number) => Value::from(number),
        None => Value::Null,
    }
}

/// The line that lists shapes, with their nearness and their distances where these are told. It fails only where memory
/// is refused.
pub fn told_shapes_line<I: OverlayInt>(
    alloc: Global,
    shapes: &IntShapes<I>,
    nearness: Option<u64>,
    distances: Option<Distances>,
) -> Result<String, AllocError>
    ensures { IfOk result (λ s. string_bytes s ≡ told_shapes_text nearness distances (shapes_of shapes.now.items)) }
{
    match distances {
        None => unmeasured_shapes_line(alloc, shapes, nearness),
        Some(distances) => with_distances_line(alloc, shapes, nearness, distances),
    }
}

/// The line that lists shapes, with their nearness where it is told.
fn unmeasured_shapes_line<I: OverlayInt>(
    alloc: Global,
    shapes: &IntShapes<I>,
    nearness: Option<u64>,
) -> Result<String, AllocError>
    ensures { IfOk result (λ s. string_bytes s ≡ told_shapes_text nearness None (shapes_of shapes.now.items)) }
{
    match nearness {
        None => shapes_line(alloc, shapes),
        Some(nearness) => near_shapes_line(alloc, shapes, nearness),
    }
}

/// The line that lists shapes, with their distances, and their nearness where it is told.
fn with_distances_line<I: OverlayInt>(
    alloc: Global,
    shapes: &IntShapes<I>,
    nearness: Option<u64>,
    distances: Distances,
) -> Result<String, AllocError>
    ensures { IfOk result (λ s. string_bytes s ≡ told_shapes_text nearness (Some distances) (shapes_of shapes.now.items)) }
{
    match nearness {
        None => measured_shapes_line(alloc, shapes, distances),
        Some(nearness) => near_measured_shapes_line(alloc, shapes, nearness, distances),
    }
}

/// The line that lists overlaps of zones. It fails only where memory is refused.
pub fn overlaps_line<I: OverlayInt>(
    alloc: Global,
    overlaps: &[ZoneOverlap<I>],
) -> Result<String, AllocError>
    ensures { IfOk result (λ s. string_bytes s ≡ overlaps_text (overlaps_of overlaps.now)) }
{
    let list = list_value(alloc, overlaps)?;
    let answer = overlaps_answer(alloc, list)?;
    line_of(alloc, &answer)
}

fn overlaps_answer(alloc: Global, list: Value) -> Result<Value, AllocError>
    ensures { IfOk result (λ v. view v ≡ only_member (codes "overlaps") (view list)) }
{
    json!(in alloc; { "overlaps": list })
}

/// The line that lists overlaps of zones, with their nearness. It fails only where memory is refused.
pub fn near_overlaps_line<I: OverlayInt>(
    alloc: Global,
    overlaps: &[ZoneOverlap<I>],
    nearness: u64,
) -> Result<String, AllocError>
    ensures { IfOk result (λ s. string_bytes s ≡ line_text (near_overlaps_data nearness (overlaps_of overlaps.now))) }
{
    let list = list_value(alloc, overlaps)?;
    let answer = near_overlaps_answer(alloc, list, nearness)?;
    line_of(alloc, &answer)
}

fn near_overlaps_answer(alloc: Global, list: Value, nearness: u64) -> Result<Value, AllocError>
    ensures { IfOk result (λ v. view v ≡ object (member (codes "nearness") (number_value (unsigned nearness))
        (member (codes "overlaps") (view list) no_members))) }
{
    json!(in alloc; { "nearness": nearness, "overlaps": list })
}

/// The line that tells that a text holds no request, and why. It fails only where memory is refused.
pub fn why_line(alloc: Global, reason: &Reason) -> Result<String, AllocError>
    ensures { IfOk result (λ s. string_bytes s ≡ why_text (reason_text reason.now)) }
{
    let told = format!(in alloc; "{reason}")?;
    let answer = why_answer(alloc, told)?;
    line_of(alloc, &answer)
}

fn why_answer(alloc: Global, told: String) -> Result<Value, AllocError>
    ensures { IfOk result (λ v. view v ≡ why_data (string_bytes told)) }
{
    json!(in alloc; { "unreadable": "request", "why": told })
}

/// The line that tells that an answer took more splits than these. It fails only where memory is refused.
pub fn too_many_line(alloc: Global, most: u64) -> Result<String, AllocError>
    ensures { IfOk result (λ s. string_bytes s ≡ too_many_text most) }
{
    format!(in alloc; "{{\"refused\":\"splitting took more than {most} splits\"}}\n")
}

fn line_of(alloc: Global, answer: &Value) -> Result<String, AllocError>
    requires { has_float (view answer.now) ≡ false }
    ensures { IfOk result (λ s. string_bytes s ≡ line_text (view answer.now)) }
{
    let mut line = answer.to_string(alloc)?;
    line.push('\n')?;
    Ok(line)
}

/// The list of what each item is written as.
fn list_value<T: Written>(alloc: Global, items: &[T]) -> Result<Value, AllocError>
    ensures { IfOk result (λ v. view v ≡ list_data T.written items.now) }
{
    let mut list = Vec::with_capacity(alloc, items.len())?;
    for item in items {
        list.push(item.to_value(alloc)?)?;
    }
    Ok(Value::Array(list))
}

/// What is written as a value of JSON.
trait Written {
    ghost written: { Self → Data };

    fn to_value(&self, alloc: Global) -> Result<Value, AllocError>
        ensures { IfOk result (λ v. view v ≡ written self.now) };
}

/// A list, by its items.
impl<T: Written> Written for Vec<T> {
    ghost written = { λ v. list_data T.written v.items };

    fn to_value(&self, alloc: Global) -> Result<Value, AllocError> {
        list_value(alloc, self)
    }
}

/// An edge, by its ends.
impl<I: OverlayInt> Written for DirectedEdge<I> {
    ghost written = { λ e. edge_data e };

    fn to_value(&self, alloc: Global) -> Result<Value, AllocError> {
        let start = self.start.to_value(alloc)?;
        let end = self.end.to_value(alloc)?;
        pair(alloc, start, end)
    }
}

/// A point, by its coordinates.
impl<I: OverlayInt> Written for IntPoint<I> {
    ghost written = { λ p. point_data p };

    fn to_value(&self, alloc: Global) -> Result<Value, AllocError> {
        pair(alloc, number(self.x), number(self.y))
    }
}

/// Two zones that overlap, by their places and the shapes of what both have.
impl<I: OverlayInt> Written for ZoneOverlap<I> {
    ghost written = { λ o. overlap_data (overlap_of o) };

    fn to_value(&self, alloc: Global) -> Result<Value, AllocError> {
        let shapes = list_value(alloc, &self.shapes)?;
        overlap(alloc, self.first, self.second, shapes)
    }
}

/// The places of two zones and what both have, as a list.
fn overlap(alloc: Global, first: usize, second: usize, shapes: Value) -> Result<Value, AllocError>
    ensures { IfOk result (λ v. view v ≡ overlap_with first second (view shapes)) }
{
    json!(in alloc; [first, second, shapes])
}

/// A list of two values.
fn pair(alloc: Global, first: Value, second: Value) -> Result<Value, AllocError>
    ensures { IfOk result (λ v. view v ≡ array (item (view first) (item (view second) no_items))) }
{
    json!(in alloc; [first, second])
}

/// A coordinate as a value.
fn number<I: IntNumber>(coordinate: I) -> Value
    ensures { view result ≡ number_value (of_integer (I.value coordinate)) }
{
    Value::from(widen(coordinate) as i64)
}
