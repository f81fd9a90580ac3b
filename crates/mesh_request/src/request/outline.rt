//! Requests for outlines, read from JSON.

ghost use Rattle.std.specs.Prelude.{codes, option_and_then};
ghost use Rattle.serde_json.specs.Find.{get};
ghost use Rattle.serde_json.specs.View.{view};
ghost use Rattle.mesh_join.specs.Styles.{style_of};
ghost use Rattle.mesh_request.specs.Errors.{Reads};
ghost use Rattle.mesh_request.specs.Reading.{outline_of, outline_style_in};
ghost use Rattle.mesh_drawing.specs.Drawn.{drawn_outline};

use crate::error::ReadError;
use crate::fault::key::Key;
use crate::fault::member_fault;
use crate::fault::problem::Problem;
use crate::request::joins::{join_in, turn_in};
use crate::request::paths::{length_in, read_paths};
use mesh_drawing::drawing::Outline;
use mesh_join::style::IntOutlineStyle;
use mesh_num::num::OverlayInt;
use serde_json::Value;
use std::alloc::Global;

/// The outline that a request asks for.
pub fn read_outline<I: OverlayInt>(alloc: Global, request: &Value) -> Result<Outline<I>, ReadError>
    ensures { Reads (view request.now) (outline_of I.unit (view request.now)) (drawn_outline I.value) result }
{
    let style = outline_style(request)?;
    let paths = read_paths(alloc, request)?;
    Ok(Outline { paths, style })
}

fn outline_style<I: OverlayInt>(request: &Value) -> Result<IntOutlineStyle<I>, ReadError>
    ensures { let asked = option_and_then (outline_style_in I.unit) (get (codes "style") (view request.now)) in
        Reads (view request.now) asked (style_of I.value) result }
{
    let Some(style) = request.get("style") else {
        return Err(member_fault(request, Key::Style, Problem::NoObject));
    };
    let join = join_in(request, style)?;
    let turn = turn_in(request, style)?;
    let outer = length_in(request, style, Key::Outer)?;
    let inner = length_in(request, style, Key::Inner)?;
    Ok(
        IntOutlineStyle::new(outer)
            .inner_offset(inner)
            .line_join(join)
            .miter_min_turn(turn),
    )
}
