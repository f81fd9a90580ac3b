//! Caps of the ends of open paths, read from JSON.

ghost use Rattle.std.specs.Prelude.{option_map};
ghost use Rattle.serde_json.specs.View.{view};
ghost use Rattle.mesh_stroke.specs.Kinds.{kind_of};
ghost use Rattle.mesh_request.specs.Errors.{Reads};
ghost use Rattle.mesh_request.specs.Reading.{cap_of, custom_cap_of};

use crate::error::ReadError;
use crate::fault::key::Key;
use crate::fault::problem::Problem;
use crate::fault::{PointList, inner_fault};
use crate::json::is_text;
use crate::request::joins::{round_options, round_problem, sole_member};
use crate::request::paths::path;
use mesh_join::style::IntLineCap;
use mesh_num::num::OverlayInt;
use serde_json::Value;
use std::alloc::Global;
use std::rc::RcSlice;

/// What is needed of a value that names no cap.
pub(crate) const NO_CAP: &str =
    "\"butt\", \"square\", {\"round\": [BITS, PRECISION]} or {\"custom\": [[X, Y], ..]} is needed";

/// The kind of cap that a value names, which the style of a request has under a key; a butt where there is none.
pub(crate) fn line_cap<I: OverlayInt>(
    alloc: Global,
    request: &Value,
    end: Key,
    value: Option<&Value>,
) -> Result<IntLineCap<I>, ReadError>
    ensures { let cap = cap_of I.unit (option_map (λ v. view v.now) value.entry) in
        Reads (view request.now) cap kind_of result }
{
    let Some(value) = value else {
        return Ok(IntLineCap::Butt);
    };
    if is_text(value, "butt") {
        return Ok(IntLineCap::Butt);
    }
    if is_text(value, "square") {
        return Ok(IntLineCap::Square);
    }
    if value.get("round").is_none() {
        return custom_cap(alloc, request, end, value);
    }
    match round_options(value) {
        Some(options) => Ok(IntLineCap::Round(options)),
        None => {
            let problem = round_problem(value);
            Err(inner_fault(request, Key::Style, end, problem))
        }
    }
}

/// A custom cap through the points that an object gives.
fn custom_cap<I: OverlayInt>(
    alloc: Global,
    request: &Value,
    end: Key,
    value: &Value,
) -> Result<IntLineCap<I>, ReadError>
    ensures { Reads (view request.now) (custom_cap_of I.unit (view value.now)) kind_of result }
{
    match sole_member(value, "custom") {
        Some(points) => {
            let points = path(alloc, request, PointList::Cap(end), points)?;
            Ok(IntLineCap::Custom(RcSlice::from_vec(points)?))
        }
        None => {
            let problem = cap_problem(value);
            Err(inner_fault(request, Key::Style, end, problem))
        }
    }
}

/// What is wrong with a value that names no cap.
fn cap_problem(cap: &Value) -> Problem {
    if is_text(cap, "round") {
        return Problem::NoRoundOptions;
    }
    if cap.get("custom").is_some() {
        return Problem::MoreKeys;
    }
    Problem::NoCap
}
