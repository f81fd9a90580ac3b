//! What is wrong with a value of JSON that is no request, and where.

pub mod key;
pub mod place;
pub mod problem;

ghost use Rattle.serde_json.specs.View.{view};
ghost use Rattle.mesh_request.specs.Errors.{IsPlaced};

use crate::error::ReadError;
use key::Key;
use place::{Place, cap_point_place, inner_place, member_place, path_place, point_place};
use problem::Problem;
use serde_json::Value;
use std::fmt;

/// What is wrong with a value that is no request.
#[derive(Debug, Clone, Copy, PartialEq, Eq)]
pub struct Fault {
    /// Where it goes wrong.
    pub place: Place,
    /// What is wrong there.
    pub problem: Problem,
}

impl fmt::Display for Fault {
    ghost use Rattle.std.specs.Prelude.{Some};
    ghost use Rattle.mesh_request.specs.Texts.{fault_text};

    ghost output = { λ fault. Some (fault_text fault) };

    fn fmt<W: fmt::Write>(&self, f: &mut fmt::Formatter<W>) -> fmt::Result {
        let problem = self.problem;
        match self.place {
            Place::Request => write!(f, "{problem}"),
            place => write!(f, "{place}: {problem}"),
        }
    }
}

/// What is wrong with what a request has under a key: it has nothing there, or this.
pub fn member_fault(request: &Value, key: Key, problem: Problem) -> ReadError
    ensures { IsPlaced (view request.now) result }
{
    let place = member_place(request, key);
    let problem = if place != Place::Request {
        problem
    } else if request.is_object() {
        Problem::Missing(key)
    } else {
        Problem::NoObject
    };
    ReadError::Fault(Fault { place, problem })
}

/// What is wrong with what a request's object has under a key: nothing is there, or this.
pub fn inner_fault(request: &Value, outer: Key, key: Key, problem: Problem) -> ReadError
    ensures { IsPlaced (view request.now) result }
{
    let place = inner_place(request, outer, key);
    let problem = match place {
        Place::Request => Problem::Missing(outer),
        Place::Member(_) => missing_in(request, outer, key),
        _ => problem,
    };
    ReadError::Fault(Fault { place, problem })
}

/// What is wrong with the object that a request has under a key: it is none, or has not the other key.
fn missing_in(request: &Value, outer: Key, key: Key) -> Problem {
    match request.get(outer.text()).and_then(Value::as_object) {
        Some(_) => Problem::Missing(key),
        None => Problem::NoObject,
    }
}

/// A list of points in a request.
#[derive(Debug, Clone, Copy, PartialEq, Eq)]
pub(crate) enum PointList {
    /// The path of this index.
    Path(usize),
    /// The custom cap that the style has under this key.
    Cap(Key),
}

/// This is wrong with a list of points as a whole.
pub(crate) fn list_fault(request: &Value, list: PointList, problem: Problem) -> ReadError
    ensures { IsPlaced (view request.now) result }
{
    let place = match list {
        PointList::Path(path) => path_place(request, path),
        PointList::Cap(end) => inner_place(request, Key::Style, end),
    };
    ReadError::Fault(Fault { place, problem })
}

/// This is wrong with the point of this index in a list.
pub(crate) fn point_fault(
    request: &Value,
    list: PointList,
    point: usize,
    problem: Problem,
) -> ReadError
    ensures { IsPlaced (view request.now) result }
{
    let place = match list {
        PointList::Path(path) => point_place(request, path, point),
        PointList::Cap(end) => cap_point_place(request, end, point),
    };
    ReadError::Fault(Fault { place, problem })
}
