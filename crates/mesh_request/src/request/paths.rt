//! Points and paths, read from JSON.

ghost use Rattle.std.specs.Prelude.{◌≡◌};
ghost use Rattle.serde_json.specs.View.{view, items_view};
ghost use Rattle.mesh_num.specs.Paths.{paths_of};
ghost use Rattle.mesh_request.specs.Errors.{Reads};
ghost use Rattle.mesh_request.specs.Places.{key_text};
ghost use Rattle.mesh_request.specs.Reading.{point_of, point_list_of, path_of, path_list_of, paths_in, length_of};

use crate::error::ReadError;
use crate::fault::key::Key;
use crate::fault::problem::{Problem, coordinate_problem, corner_problem};
use crate::fault::{PointList, inner_fault, list_fault, member_fault, point_fault};
use crate::json::coordinate;
use mesh_num::num::{IntNumber, IntPoint, OverlayInt};
use serde_json::Value;
use std::alloc::Global;

/// The paths of a request.
pub(crate) fn read_paths<I: OverlayInt>(
    alloc: Global,
    request: &Value,
) -> Result<Vec<Vec<IntPoint<I>>>, ReadError>
    ensures { Reads (view request.now) (paths_in I.unit (view request.now)) (λ ps. paths_of ps.items) result }
{
    match request.get("paths").and_then(Value::as_array) {
        Some(items) => path_list(alloc, request, items),
        None => Err(member_fault(request, Key::Paths, Problem::NoPaths)),
    }
}

/// The paths that the values of a list in a request are.
pub fn path_list<I: OverlayInt>(
    alloc: Global,
    request: &Value,
    items: &[Value],
) -> Result<Vec<Vec<IntPoint<I>>>, ReadError>
    ensures { Reads (view request.now) (path_list_of I.unit (items_view items.now)) (λ ps. paths_of ps.items) result }
{
    let mut paths = Vec::new(alloc);
    for item in items {
        let list = PointList::Path(paths.len());
        paths.push(path(alloc, request, list, item)?)?;
    }
    Ok(paths)
}

/// The points of a list in a request.
pub(crate) fn path<I: OverlayInt>(
    alloc: Global,
    request: &Value,
    list: PointList,
    value: &Value,
) -> Result<Vec<IntPoint<I>>, ReadError>
    ensures { Reads (view request.now) (path_of I.unit (view value.now)) (λ ps. ps.items) result }
{
    match value.as_array() {
        Some(items) => points(alloc, request, list, items),
        None => Err(list_fault(request, list, Problem::NoPath)),
    }
}

fn points<I: OverlayInt>(
    alloc: Global,
    request: &Value,
    list: PointList,
    items: &[Value],
) -> Result<Vec<IntPoint<I>>, ReadError>
    ensures { Reads (view request.now) (point_list_of I.unit (items_view items.now)) (λ ps. ps.items) result }
{
    let mut points = Vec::new(alloc);
    for item in items {
        let Some(point) = point(item) else {
            let problem = corner_problem::<I>(item, 2, Problem::NoPoint);
            return Err(point_fault(request, list, points.len(), problem));
        };
        points.push(point)?;
    }
    Ok(points)
}

fn point<I: IntNumber>(value: &Value) -> Option<IntPoint<I>>
    ensures { result ≡ point_of I.unit (view value.now) }
{
    let numbers = value.as_array()?;
    if numbers.len() != 2 {
        return None;
    }
    let x = coordinate(&numbers[0])?;
    let y = coordinate(&numbers[1])?;
    Some(IntPoint::new(x, y))
}

/// The offset or the width that the style of a request gives under a key.
pub(crate) fn length_in<I: IntNumber>(
    request: &Value,
    style: &Value,
    key: Key,
) -> Result<I, ReadError>
    ensures { let length = length_of I.unit (key_text key) (view style.now) in
        Reads (view request.now) length I.value result }
{
    let Some(length) = style.get(key.text()) else {
        return Err(inner_fault(request, Key::Style, key, Problem::Missing(key)));
    };
    match coordinate(length) {
        Some(length) => Ok(length),
        None => {
            let problem = coordinate_problem::<I>(length);
            Err(inner_fault(request, Key::Style, key, problem))
        }
    }
}
