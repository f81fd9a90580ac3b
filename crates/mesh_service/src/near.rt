//! Requests answered by no more than a number of splits, with the nearness of the answer where that is asked.

ghost use Rattle.std.specs.Prelude.{◌≡◌, List, string_bytes, IfOk};
ghost use Rattle.std.specs.Ordering.{int_cmp};
ghost use Rattle.mesh_service.specs.Near.{AnswersWithin, IsResponseWithin, PassesLimit, TellsNearRefusal};
ghost use Rattle.mesh_service.specs.Reasons.{IsReadOf};
ghost use Rattle.mesh_service.specs.Requested.{requested_by};
ghost use Rattle.mesh_service.specs.Served.{IsAccepted};
ghost use Rattle.mesh_service.specs.Serving.{IsRefused};

use crate::line::request_line;
use crate::near_failure::NearFailure;
use crate::text::{AnyRequest, TextError, read_text};
use mesh_offset::error::IntNearnessError;
use mesh_request::failure::Failure;
use std::alloc::Global;

/// What is asked of an answer beside what it lists.
#[derive(Debug, Clone, Copy, PartialEq, Eq)]
pub struct Telling {
    /// How many splits may be made for it. 0 stands for any number.
    pub most_splits: u64,
    /// Whether it tells its nearness: how far from the edges that are drawn or combined it may be wrong, in 64ths of a
    /// grid unit.
    pub nearness: bool,
}

/// The line that answers a request, made by no more splits than may be made, and with its nearness where that is asked.
/// Edges are drawn without a split, and their nearness is 0. `Failed`, with `Unreadable`: the bytes are no request that
/// is served; with `Refused` and `CoordinateOutOfRange`: what is to be drawn or combined does not stay in the safe
/// range; with `Refused` and `OutOfMemory`: memory was refused, and there was a byte. `TooManySplits`: more splits were
/// made.
pub fn respond_near(alloc: Global, request: &[u8], telling: Telling) -> Result<String, NearFailure>
    ensures response { IsResponseWithin telling request.now result }
    ensures not_accepted { IsRefused request.now → TellsNearRefusal result }
{
    answer_read(alloc, &read_text(alloc, request).request, telling)
}

/// The line that answers what was read of a text, or the failure in its place.
fn answer_read(
    alloc: Global,
    read: &Result<AnyRequest, TextError>,
    telling: Telling,
) -> Result<String, NearFailure>
    ensures { (text : List _) → IsReadOf text read.now → IsResponseWithin telling text result }
{
    match read {
        Ok(request) => Ok(answer_within(alloc, request, telling)?),
        Err(error) => Err(NearFailure::Failed(Failure::from(*error))),
    }
}

/// The line that answers a request, made by no more splits than may be made, and with its nearness where that is asked.
/// Edges are drawn without a split, and their nearness is 0. `CoordinateOutOfRange`: what is to be drawn or combined
/// does not stay in the safe range. `OutOfMemory`: memory was refused. `TooManySplits`: more splits were made.
pub fn answer_within(
    alloc: Global,
    request: &AnyRequest,
    telling: Telling,
) -> Result<String, IntNearnessError>
    ensures answered { IfOk result (λ line.
        AnswersWithin telling int_cmp (requested_by request.now) (string_bytes line)) }
    ensures refused { result ≡ Err IntNearnessError.CoordinateOutOfRange → ¬ IsAccepted (requested_by request.now) }
    ensures given_up { result ≡ Err IntNearnessError.TooManySplits
        → PassesLimit telling.most_splits (requested_by request.now) }
{
    request_line(alloc, request, Some(telling))
}
