//! Requests that are served, read from JSON.
ghost use Rattle.serde_json.specs.View.{view};
ghost use Rattle.mesh_request.specs.Errors.{Reads};
ghost use Rattle.mesh_request.specs.Reading.{asked_in, distances_in, drawn_in, request_as, request_of};
ghost use Rattle.mesh_request.specs.Requests.{asked_of};
ghost use Rattle.mesh_request.specs.Typed.{untyped};
ghost use Rattle.mesh_drawing.specs.Drawn.{drawn_of};

pub mod caps;
pub mod joins;
pub mod outline;
pub mod paths;
pub mod stroke;
pub mod variable_stroke;
pub mod vertices;

use crate::error::ReadError;
use crate::fault::key::Key;
use crate::fault::member_fault;
use crate::fault::problem::Problem;
use crate::json::says;
use crate::options::{read_distances, read_options};
pub use mesh_drawing::asked::Output;
use mesh_drawing::drawing::Drawing;
use mesh_num::num::{IntNumber, OverlayInt};
use outline::read_outline;
use serde_json::Value;
use std::alloc::Global;
use std::marker::Model;
use stroke::read_stroke;
use variable_stroke::read_variable_stroke;

/// A request. Contracts see it as what it asks.
#[derive(Drop)]
pub struct Request<I: OverlayInt> {
    /// What is drawn of which paths.
    pub drawing: Drawing<I>,
    /// What is listed of it.
    pub output: Output<I::WideUInt>,
    /// Whether distances are told of its shapes.
    pub distances: bool,
}

impl<I: OverlayInt> Model for Request<I> {
    ghost use Rattle.mesh_request.specs.Requests.{Request as Requested, asked_of};
    ghost use Rattle.mesh_drawing.specs.Drawn.{drawn_of};

    ghost Value = { Requested };

    ghost view = { λ r. record {
      unit = I.unit;
      drawn = drawn_of I.value r.drawing;
      asked = asked_of I.WideUInt.value r.output;
      distances = r.distances;
    } };
}

/// A request with the type of its coordinates.
#[derive(Drop)]
pub enum TypedRequest {
    I16(Request<i16>),
    I32(Request<i32>),
}

/// The request that a value is. `Fault`: it is none that is served, and here it goes wrong first. `OutOfMemory`: memory
/// was refused.
pub fn read(alloc: Global, value: &Value) -> Result<TypedRequest, ReadError>
    ensures { Reads (view value.now) (request_of (view value.now)) untyped result }
{
    if says(value, "int", "i16") {
        Ok(TypedRequest::I16(read_request(alloc, value)?))
    } else if says(value, "int", "i32") {
        Ok(TypedRequest::I32(read_request(alloc, value)?))
    } else if names_operation(value) {
        Err(member_fault(value, Key::Int, Problem::NoCoordinateType))
    } else {
        Err(member_fault(value, Key::Operation, Problem::NoOperation))
    }
}

/// The request with coordinates of one type that a value is, whichever type it names.
pub fn read_request<I: OverlayInt>(alloc: Global, value: &Value) -> Result<Request<I>, ReadError>
    ensures { Reads (view value.now) (request_as I.unit (view value.now)) (λ r. r) result }
{
    let drawing = read_drawing(alloc, value)?;
    let output = read_output::<I>(value)?;
    let distances = asks_for_distances(value)?;
    Ok(Request {
        drawing,
        output,
        distances,
    })
}

/// Whether a request names an operation.
fn names_operation(request: &Value) -> bool {
    says(request, "op", "outline")
        || says(request, "op", "stroke")
        || says(request, "op", "variable_stroke")
}

/// What a request draws: a key of another operation is passed by.
pub fn read_drawing<I: OverlayInt>(alloc: Global, value: &Value) -> Result<Drawing<I>, ReadError>
    ensures { Reads (view value.now) (drawn_in I.unit (view value.now)) (drawn_of I.value) result }
{
    if says(value, "op", "outline") {
        Ok(Drawing::Outline(read_outline(alloc, value)?))
    } else if says(value, "op", "stroke") {
        Ok(Drawing::Stroke(read_stroke(alloc, value)?))
    } else if says(value, "op", "variable_stroke") {
        Ok(Drawing::VariableStroke(read_variable_stroke(alloc, value)?))
    } else {
        Err(member_fault(value, Key::Operation, Problem::NoOperation))
    }
}

/// What a request asks of what is drawn. Options are looked at for shapes alone.
fn read_output<I: IntNumber>(value: &Value) -> Result<Output<I::WideUInt>, ReadError>
    ensures { let asked = asked_in I.unit (view value.now) in
        Reads (view value.now) asked (asked_of I.WideUInt.value) result }
{
    if says(value, "out", "edges") {
        Ok(Output::Edges)
    } else if says(value, "out", "shapes") {
        Ok(Output::Shapes(read_options::<I>(value)?))
    } else {
        Err(member_fault(value, Key::Out, Problem::NoOutput))
    }
}

/// Whether a request asks for distances. Options are looked at for shapes alone.
fn asks_for_distances(value: &Value) -> Result<bool, ReadError>
    ensures { Reads (view value.now) (distances_in (view value.now)) (λ told. told) result }
{
    if says(value, "out", "edges") {
        return Ok(false);
    }
    read_distances(value)
}
