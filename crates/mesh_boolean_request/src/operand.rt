//! Operands, read from JSON.

ghost use Rattle.std.specs.Prelude.{map, option_and_then};
ghost use Rattle.serde_json.specs.Find.{get};
ghost use Rattle.serde_json.specs.View.{view, items_view};
ghost use Rattle.mesh_drawing.specs.Drawn.{drawn_of};
ghost use Rattle.mesh_operands.specs.Operands.{operand_of};
ghost use Rattle.mesh_request.specs.Errors.{Reads};
ghost use Rattle.mesh_request.specs.Places.{key_text};
ghost use Rattle.mesh_request.specs.Reading.{drawn_in};
ghost use Rattle.mesh_boolean_request.specs.Reading.{operand_in, zones_of, zones_in};

use crate::fault::{OperandPlace, at_operand};
use mesh_drawing::drawing::Drawing;
use mesh_num::num::OverlayInt;
use mesh_operands::operand::Operand;
use mesh_request::error::ReadError;
use mesh_request::fault::key::Key;
use mesh_request::fault::place::Place;
use mesh_request::fault::problem::Problem;
use mesh_request::fault::{Fault, member_fault};
use mesh_request::request::paths::path_list;
use mesh_request::request::read_drawing;
use serde_json::Value;
use std::alloc::Global;

/// The operand that a request has under a key.
pub(crate) fn operand_under<I: OverlayInt>(
    alloc: Global,
    request: &Value,
    key: Key,
) -> Result<Operand<I>, ReadError>
    ensures { let asked = option_and_then (operand_in I.unit) (get (key_text key) (view request.now)) in
        Reads (view request.now) asked (operand_of I.value) result }
{
    match request.get(key.text()) {
        Some(value) => operand_at(alloc, request, OperandPlace::Member(key), value),
        None => Err(member_fault(request, key, Problem::NoOperand)),
    }
}

/// The zones of a request.
pub(crate) fn read_zones<I: OverlayInt>(
    alloc: Global,
    request: &Value,
) -> Result<Vec<Operand<I>>, ReadError>
    ensures { let asked = zones_in I.unit (view request.now) in
        Reads (view request.now) asked (λ zs. map (operand_of I.value) zs.items) result }
{
    match request.get("zones").and_then(Value::as_array) {
        Some(items) => zones(alloc, request, items),
        None => Err(member_fault(request, Key::Zones, Problem::NoZones)),
    }
}

fn zones<I: OverlayInt>(
    alloc: Global,
    request: &Value,
    items: &[Value],
) -> Result<Vec<Operand<I>>, ReadError>
    ensures { let asked = zones_of I.unit (items_view items.now) in
        Reads (view request.now) asked (λ zs. map (operand_of I.value) zs.items) result }
{
    let mut zones = Vec::new(alloc);
    for item in items {
        let place = OperandPlace::Zone(zones.len());
        zones.push(operand_at(alloc, request, place, item)?)?;
    }
    Ok(zones)
}

/// The operand that a value is, which stands at this place of a request.
fn operand_at<I: OverlayInt>(
    alloc: Global,
    request: &Value,
    place: OperandPlace,
    value: &Value,
) -> Result<Operand<I>, ReadError>
    ensures { Reads (view request.now) (operand_in I.unit (view value.now)) (operand_of I.value) result }
{
    match operand(alloc, value) {
        Ok(operand) => Ok(operand),
        Err(error) => Err(at_operand(request, place, error)),
    }
}

/// The operand that a value is: a list of paths, or an object that says what is drawn.
fn operand<I: OverlayInt>(alloc: Global, value: &Value) -> Result<Operand<I>, ReadError>
    ensures { Reads (view value.now) (operand_in I.unit (view value.now)) (operand_of I.value) result }
{
    match value.as_array() {
        Some(items) => Ok(Operand::Paths(path_list(alloc, value, items)?)),
        None => Ok(Operand::Drawing(drawing(alloc, value)?)),
    }
}

/// What an object says is drawn. What is listed of a drawing, and with which coordinates, is not looked at.
fn drawing<I: OverlayInt>(alloc: Global, value: &Value) -> Result<Drawing<I>, ReadError>
    ensures { Reads (view value.now) (drawn_in I.unit (view value.now)) (drawn_of I.value) result }
{
    if value.is_object() {
        return read_drawing(alloc, value);
    }
    let place = Place::Request;
    let problem = Problem::NoOperand;
    Err(ReadError::Fault(Fault { place, problem }))
}
