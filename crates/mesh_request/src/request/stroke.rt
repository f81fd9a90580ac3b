//! Requests for strokes, read from JSON.

ghost use Rattle.std.specs.Prelude.{◌≡◌, codes, option_map, option_and_then};
ghost use Rattle.serde_json.specs.Find.{get};
ghost use Rattle.serde_json.specs.View.{view};
ghost use Rattle.mesh_stroke.specs.Styles.{stroke_style_of};
ghost use Rattle.mesh_request.specs.Errors.{Reads};
ghost use Rattle.mesh_request.specs.Reading.{side_of, stroke_of, stroke_style_in, uncapped_in};
ghost use Rattle.mesh_drawing.specs.Parts.{uncapped_of};
ghost use Rattle.mesh_drawing.specs.Drawn.{drawn_stroke};

use crate::error::ReadError;
use crate::fault::key::Key;
use crate::fault::problem::Problem;
use crate::fault::{inner_fault, member_fault};
use crate::json::is_text;
use crate::options::flag;
use crate::request::caps::line_cap;
use crate::request::joins::{join_in, turn_in};
use crate::request::paths::{length_in, read_paths};
use mesh_drawing::drawing::Stroke;
use mesh_join::style::{IntStrokeStyle, StrokeSide};
use mesh_num::num::OverlayInt;
use serde_json::Value;
use std::alloc::Global;

/// The stroke that a request asks for.
pub fn read_stroke<I: OverlayInt>(alloc: Global, request: &Value) -> Result<Stroke<I>, ReadError>
    ensures { Reads (view request.now) (stroke_of I.unit (view request.now)) (drawn_stroke I.value) result }
{
    let Some(closed) = flag(request.get("closed")) else {
        return Err(member_fault(request, Key::Closed, Problem::NoBool));
    };
    let style = stroke_style(alloc, request)?;
    let paths = read_paths(alloc, request)?;
    Ok(Stroke {
        paths,
        style,
        closed,
    })
}

fn stroke_style<I: OverlayInt>(
    alloc: Global,
    request: &Value,
) -> Result<IntStrokeStyle<I>, ReadError>
    ensures { let asked = option_and_then (stroke_style_in I.unit) (get (codes "style") (view request.now)) in
        Reads (view request.now) asked (stroke_style_of I.value) result }
{
    let Some(style) = request.get("style") else {
        return Err(member_fault(request, Key::Style, Problem::NoObject));
    };
    let uncapped = uncapped_style(request, style)?;
    let start = line_cap(alloc, request, Key::Start, style.get("start"))?;
    let end = line_cap(alloc, request, Key::End, style.get("end"))?;
    Ok(uncapped.start_cap(start).end_cap(end))
}

/// The style that an object gives, but for its caps.
fn uncapped_style<I: OverlayInt>(
    request: &Value,
    style: &Value,
) -> Result<IntStrokeStyle<I>, ReadError>
    ensures { Reads (view request.now) (uncapped_in I.unit (view style.now)) (uncapped_of I.value) result }
{
    let join = join_in(request, style)?;
    let turn = turn_in(request, style)?;
    let Some(side) = stroke_side(style.get("side")) else {
        return Err(inner_fault(request, Key::Style, Key::Side, Problem::NoSide));
    };
    let width = length_in(request, style, Key::Width)?;
    Ok(
        IntStrokeStyle::new(width)
            .line_join(join)
            .miter_min_turn(turn)
            .side(side),
    )
}

/// The side of a path that a value names, both sides where there is none.
fn stroke_side(value: Option<&Value>) -> Option<StrokeSide>
    ensures { result ≡ side_of (option_map (λ v. view v.now) value.entry) }
{
    let Some(value) = value else {
        return Some(StrokeSide::Both);
    };
    if is_text(value, "both") {
        return Some(StrokeSide::Both);
    }
    if is_text(value, "left") {
        return Some(StrokeSide::Left);
    }
    if is_text(value, "right") {
        return Some(StrokeSide::Right);
    }
    None
}
