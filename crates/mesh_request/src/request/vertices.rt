//! Vertices with widths and paths of them, read from JSON.

ghost use Rattle.std.specs.Prelude.{◌≡◌};
ghost use Rattle.serde_json.specs.View.{view, items_view};
ghost use Rattle.mesh_num.specs.Paths.{paths_of};
ghost use Rattle.mesh_request.specs.Errors.{Reads};
ghost use Rattle.mesh_request.specs.Reading.{vertex_of, vertices_of, vertex_path_of, vertex_path_list_of};
ghost use Rattle.mesh_request.specs.Reading.{vertex_paths_in};

use crate::error::ReadError;
use crate::fault::key::Key;
use crate::fault::problem::{Problem, corner_problem};
use crate::fault::{PointList, list_fault, member_fault, point_fault};
use crate::json::coordinate;
use mesh_join::style::IntStrokeVertex;
use mesh_num::num::{IntNumber, IntPoint, OverlayInt};
use serde_json::Value;
use std::alloc::Global;

/// The paths of a request whose width changes from vertex to vertex.
pub(crate) fn read_vertex_paths<I: OverlayInt>(
    alloc: Global,
    request: &Value,
) -> Result<Vec<Vec<IntStrokeVertex<I>>>, ReadError>
    ensures { Reads (view request.now) (vertex_paths_in I.unit (view request.now)) (λ ps. paths_of ps.items) result }
{
    match request.get("paths").and_then(Value::as_array) {
        Some(items) => vertex_path_list(alloc, request, items),
        None => Err(member_fault(request, Key::Paths, Problem::NoPaths)),
    }
}

fn vertex_path_list<I: OverlayInt>(
    alloc: Global,
    request: &Value,
    items: &[Value],
) -> Result<Vec<Vec<IntStrokeVertex<I>>>, ReadError>
    ensures { Reads (view request.now) (vertex_path_list_of I.unit (items_view items.now)) (λ ps. paths_of ps.items) result }
{
    let mut paths = Vec::new(alloc);
    for item in items {
        let list = PointList::Path(paths.len());
        paths.push(vertex_path(alloc, request, list, item)?)?;
    }
    Ok(paths)
}

/// The vertices of a list in a request.
fn vertex_path<I: OverlayInt>(
    alloc: Global,
    request: &Value,
    list: PointList,
    value: &Value,
) -> Result<Vec<IntStrokeVertex<I>>, ReadError>
    ensures { Reads (view request.now) (vertex_path_of I.unit (view value.now)) (λ vs. vs.items) result }
{
    match value.as_array() {
        Some(items) => vertices(alloc, request, list, items),
        None => Err(list_fault(request, list, Problem::NoPath)),
    }
}

fn vertices<I: OverlayInt>(
    alloc: Global,
    request: &Value,
    list: PointList,
    items: &[Value],
) -> Result<Vec<IntStrokeVertex<I>>, ReadError>
    ensures { Reads (view request.now) (vertices_of I.unit (items_view items.now)) (λ vs. vs.items) result }
{
    let mut vertices = Vec::new(alloc);
    for item in items {
        let Some(vertex) = vertex(item) else {
            let problem = corner_problem::<I>(item, 3, Problem::NoVertex);
            return Err(point_fault(request, list, vertices.len(), problem));
        };
        vertices.push(vertex)?;
    }
    Ok(vertices)
}

fn vertex<I: IntNumber>(value: &Value) -> Option<IntStrokeVertex<I>>
    ensures { result ≡ vertex_of I.unit (view value.now) }
{
    let numbers = value.as_array()?;
    if numbers.len() != 3 {
        return None;
    }
    let x = coordinate(&numbers[0])?;
    let y = coordinate(&numbers[1])?;
    let width = coordinate(&numbers[2])?;
    Some(IntStrokeVertex::new(IntPoint::new(x, y), width))
}
