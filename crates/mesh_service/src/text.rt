//! Texts, read as requests.

ghost use Rattle.std.specs.Prelude.{◌≡◌};
ghost use Rattle.serde_json.specs.Data.{Data};
ghost use Rattle.serde_json.specs.View.{view};
ghost use Rattle.mesh_request.specs.Errors.{Reads};
ghost use Rattle.mesh_request.specs.Places.{IsPlaceIn};
ghost use Rattle.mesh_service.specs.Reasons.{IsReadOf, IsTextReason, IsValueReason, blank_byte, blank_text};
ghost use Rattle.mesh_service.specs.Requested.{requested_by, requested_of};
ghost use Rattle.mesh_service.specs.Private.Told.{IsReadOfValue};

use crate::reason::{Reason, TextPlace, text_place};
use mesh_boolean_request::request as combination;
use mesh_boolean_request::request::{TypedCombination, asks_for_combination};
use mesh_offset::error::IntOutlineError;
use mesh_request::error::ReadError;
use mesh_request::failure::Failure;
use mesh_request::fault::Fault;
use mesh_request::fault::key::Key;
use mesh_request::fault::place::Place;
use mesh_request::fault::problem::Problem;
use mesh_request::json::has_float;
use mesh_request::request::{TypedRequest, read};
use serde_json::Value;
use std::alloc::Global;

/// A request that is served.
#[derive(Drop)]
pub enum AnyRequest {
    /// For what is drawn of paths.
    Drawing(TypedRequest),
    /// For what is made of operands: a boolean, a coverage or overlaps.
    Combination(TypedCombination),
}

/// A text that was read.
#[derive(Drop)]
pub struct ReadText {
    /// The value of JSON that it is; `None` where it is none, or memory was refused.
    pub value: Option<Value>,
    /// The request that it holds.
    pub request: Result<AnyRequest, TextError>,
}

/// Why a text is read as no request.
#[derive(Debug, Clone, Copy, PartialEq, Eq)]
pub enum TextError {
    /// It holds none that is served, for this reason.
    NoRequest(Reason),
    /// A growth of memory was refused.
    OutOfMemory,
}

impl From<TextError> for Failure {
    ghost use Rattle.std.specs.Prelude.{◌≡◌};
    ghost use Rattle.mesh_service.specs.Reasons.{failure_of};

    ghost from_gives = { λ error failure. failure ≡ failure_of error };

    fn from(error: TextError) -> Failure {
        match error {
            TextError::NoRequest(_) => Failure::Unreadable,
            TextError::OutOfMemory => Failure::Refused(IntOutlineError::OutOfMemory),
        }
    }
}

/// Reads a text as a request. `NoRequest`: it holds none that is served, and the place of the reason lies in the text.
/// `OutOfMemory`: memory was refused, and there was a byte.
pub fn read_text(alloc: Global, text: &[u8]) -> ReadText
    ensures { IsReadOf text.now result.request }
{
    match Value::from_slice(alloc, text) {
        Ok(value) => {
            let request = read_value(alloc, &value);
            ReadText {
                value: Some(value),
                request,
            }
        }
        Err(error) => {
            if error.is_memory() {
                return ReadText {
                    value: None,
                    request: Err(TextError::OutOfMemory),
                };
            }
            let sought = TextPlace {
                line: error.line(),
                column: error.column(),
            };
            let reason = text_reason(text, sought);
            ReadText {
                value: None,
                request: Err(TextError::NoRequest(reason)),
            }
        }
    }
}

/// Reads a value as a request. Floats are looked for last, since they are told best where a number is looked at.
fn read_value(alloc: Global, value: &Value) -> Result<AnyRequest, TextError>
    ensures { IsReadOfValue (view value.now) result }
{
    match read_request(alloc, value) {
        Ok(request) => {
            if has_float(value) {
                Err(TextError::NoRequest(Reason::InexactNumber))
            } else {
                Ok(request)
            }
        }
        Err(ReadError::Fault(fault)) => Err(TextError::NoRequest(fault_reason(fault))),
        Err(ReadError::OutOfMemory) => Err(TextError::OutOfMemory),
    }
}

/// Why a value with this fault is no request. A drawing is read where no combination is named, so its fault tells of the
/// names of drawings alone.
fn fault_reason(fault: Fault) -> Reason
    ensures { (d : Data) → IsPlaceIn d fault.place → IsValueReason d result }
{
    match fault {
        Fault {
            place: Place::Member(Key::Operation),
            problem: Problem::NoOperation,
        } => Reason::NoOperation,
        _ => Reason::Wrong(fault),
    }
}

/// The request that a value is, of the kind that it names. Numbers under keys that are ignored are not looked at.
fn read_request(alloc: Global, value: &Value) -> Result<AnyRequest, ReadError>
    ensures { Reads (view value.now) (requested_of (view value.now)) requested_by result }
{
    if asks_for_combination(value) {
        Ok(AnyRequest::Combination(combination::read(alloc, value)?))
    } else {
        Ok(AnyRequest::Drawing(read(alloc, value)?))
    }
}

/// Why a text is no JSON, which the parser found at a place.
fn text_reason(text: &[u8], sought: TextPlace) -> Reason
    ensures { IsTextReason text.now result }
{
    if is_blank(text) {
        return Reason::Empty;
    }
    if text.starts_with(&[0xef, 0xbb, 0xbf]) {
        return Reason::ByteOrderMark;
    }
    Reason::InvalidJson(text_place(text, sought))
}

/// Whether each byte is one of JSON's blanks.
fn is_blank(text: &[u8]) -> bool
    ensures { result ≡ blank_text text.now }
{
    for byte in text {
        if !is_blank_byte(*byte) {
            return false;
        }
    }
    true
}

fn is_blank_byte(byte: u8) -> bool
    ensures { result ≡ blank_byte byte }
{
    byte == b' ' || byte == b'\t' || byte == b'\n' || byte == b'\r'
}
