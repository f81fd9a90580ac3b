//! What is wrong with an operand, and where it stands.

ghost use Rattle.std.specs.Prelude.{◌≡◌};
ghost use Rattle.serde_json.specs.View.{view};
ghost use Rattle.mesh_request.specs.Errors.{IsPlaced, is_fault};

use mesh_request::error::ReadError;
use mesh_request::fault::Fault;
use mesh_request::fault::key::Key;
use mesh_request::fault::place::{member_place, zone_place};
use serde_json::Value;

/// Where an operand stands in a request.
#[derive(Debug, Clone, Copy, PartialEq, Eq)]
pub(crate) enum OperandPlace {
    /// Under this key.
    Member(Key),
    /// Among the zones, at this index.
    Zone(usize),
}

/// The same error, told at the place of the operand: what is wrong within it is wrong there.
pub(crate) fn at_operand(request: &Value, operand: OperandPlace, error: ReadError) -> ReadError
    ensures placed { IsPlaced (view request.now) result }
    ensures kept { is_fault result ≡ is_fault error }
{
    let ReadError::Fault(fault) = error else {
        return ReadError::OutOfMemory;
    };
    let place = match operand {
        OperandPlace::Member(key) => member_place(request, key),
        OperandPlace::Zone(zone) => zone_place(request, zone),
    };
    let problem = fault.problem;
    ReadError::Fault(Fault { place, problem })
}
