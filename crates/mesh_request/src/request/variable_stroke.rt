//! Requests for strokes whose width changes from vertex to vertex, read from JSON.

ghost use Rattle.std.specs.Prelude.{◌≡◌, option_map, option_and_then};
ghost use Rattle.serde_json.specs.View.{view};
ghost use Rattle.mesh_request.specs.Errors.{Reads};
ghost use Rattle.mesh_request.specs.Reading.{arc_in, arc_given, variable_stroke_of};
ghost use Rattle.mesh_drawing.specs.Drawn.{drawn_variable_stroke};

use crate::error::ReadError;
use crate::fault::inner_fault;
use crate::fault::key::Key;
use crate::fault::problem::Problem;
use crate::request::joins::arc_options;
use crate::request::vertices::read_vertex_paths;
use mesh_arc::arc::ArcOptions;
use mesh_drawing::drawing::VariableStroke;
use mesh_join::style::IntVariableStrokeStyle;
use mesh_num::num::OverlayInt;
use serde_json::Value;
use std::alloc::Global;

/// The stroke of variable width that a request asks for.
pub fn read_variable_stroke<I: OverlayInt>(
    alloc: Global,
    request: &Value,
) -> Result<VariableStroke<I>, ReadError>
    ensures { Reads (view request.now) (variable_stroke_of I.unit (view request.now)) drawn_variable_stroke result }
{
    let Some(style) = variable_style(request.get("style")) else {
        return Err(inner_fault(request, Key::Style, Key::Arc, Problem::NoArc));
    };
    let paths = read_vertex_paths(alloc, request)?;
    Ok(VariableStroke { paths, style })
}

/// The style that an object gives.
fn variable_style(style: Option<&Value>) -> Option<IntVariableStrokeStyle>
    ensures { option_map (λ (s : IntVariableStrokeStyle). s.arc) result
        ≡ option_and_then arc_in (option_map (λ v. view v.now) style.entry) }
{
    let style = style?;
    if !style.is_object() {
        return None;
    }
    let arc = arc_or_default(style.get("arc"))?;
    Some(IntVariableStrokeStyle::new().arc(arc))
}

/// The options of the arcs that a value gives, the default ones where there is none.
fn arc_or_default(value: Option<&Value>) -> Option<ArcOptions>
    ensures { result ≡ arc_given (option_map (λ v. view v.now) value.entry) }
{
    match value {
        Some(options) => arc_options(options),
        None => Some(IntVariableStrokeStyle::new().arc),
    }
}
