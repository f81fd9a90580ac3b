//! What a request makes of operands, put into a line.

ghost use Rattle.std.specs.Prelude.{◌≡◌, ◌↔◌, IfOk, string_bytes};
ghost use Rattle.std.specs.Ordering.{int_cmp};
ghost use Rattle.mesh_boolean_request.specs.Typed.{untyped};
ghost use Rattle.mesh_operands.specs.Combining.{answer_of};
ghost use Rattle.mesh_service.specs.Lines.{combined_text, near_combined_text, told_combined_text};
ghost use Rattle.mesh_service.specs.Near.{AnswersWithin, PassesLimit};
ghost use Rattle.mesh_service.specs.Private.Asking.{AnswersAs, IsGivenUpAs};
ghost use Rattle.mesh_service.specs.Requested.{for_combination};
ghost use Rattle.mesh_service.specs.Served.{IsAccepted, Answers};

use crate::answer::{near_overlaps_line, near_shapes_line, overlaps_line, shapes_line};
use crate::near::Telling;
use mesh_below::nearness::SplitCount;
use mesh_boolean_request::request::{CombinationRequest, TypedCombination};
use mesh_num::num::OverlayInt;
use mesh_offset::error::{IntNearnessError, IntOutlineError};
use mesh_operands::combine::{CombinedAnswer, combine, may_be_combined};
use mesh_operands::within::{NearCombined, combine_within};
use std::alloc::{AllocError, Global};

/// The line that answers a request for what is made of operands, with what is told beside it. `CoordinateOutOfRange`:
/// an operand does not stay in the safe range. `OutOfMemory`: memory was refused. `TooManySplits`: more splits were made
/// than the limit.
pub(crate) fn combination_line(
    alloc: Global,
    request: &TypedCombination,
    telling: Option<Telling>,
) -> Result<String, IntNearnessError>
    ensures answered { IfOk result (λ line.
        AnswersAs telling int_cmp (for_combination (untyped request.now)) (string_bytes line)) }
    ensures refused { result ≡ Err IntNearnessError.CoordinateOutOfRange
        ↔ ¬ IsAccepted (for_combination (untyped request.now)) }
    ensures given_up { result ≡ Err IntNearnessError.TooManySplits
        → IsGivenUpAs telling (for_combination (untyped request.now)) }
{
    match request {
        TypedCombination::I16(request) => combined_line(alloc, request, telling),
        TypedCombination::I32(request) => combined_line(alloc, request, telling),
    }
}

/// The same of a request with coordinates of one type.
fn combined_line<I: OverlayInt>(
    alloc: Global,
    request: &CombinationRequest<I>,
    telling: Option<Telling>,
) -> Result<String, IntNearnessError>
    ensures answered { IfOk result (λ line.
        AnswersAs telling int_cmp (for_combination request.now) (string_bytes line)) }
    ensures refused { result ≡ Err IntNearnessError.CoordinateOutOfRange ↔ ¬ IsAccepted (for_combination request.now) }
    ensures given_up { result ≡ Err IntNearnessError.TooManySplits → IsGivenUpAs telling (for_combination request.now) }
{
    match telling {
        None => Ok(plain_line(alloc, request)?),
        Some(telling) => near_line(alloc, request, telling),
    }
}

/// The line that lists what is made, of any number of splits.
fn plain_line<I: OverlayInt>(
    alloc: Global,
    request: &CombinationRequest<I>,
) -> Result<String, IntOutlineError>
    ensures answered { IfOk result (λ line. Answers int_cmp (for_combination request.now) (string_bytes line)) }
    ensures refused { result ≡ Err IntOutlineError.CoordinateOutOfRange ↔ ¬ IsAccepted (for_combination request.now) }
{
    let answer = combine(alloc, &request.combination, request.options)?;
    Ok(answer_line(alloc, &answer)?)
}

/// The line that lists what is made of no more splits than may be made, with its nearness where that is asked.
fn near_line<I: OverlayInt>(
    alloc: Global,
    request: &CombinationRequest<I>,
    telling: Telling,
) -> Result<String, IntNearnessError>
    ensures answered { IfOk result (λ line.
        AnswersWithin telling int_cmp (for_combination request.now) (string_bytes line)) }
    ensures refused { result ≡ Err IntNearnessError.CoordinateOutOfRange ↔ ¬ IsAccepted (for_combination request.now) }
    ensures given_up { result ≡ Err IntNearnessError.TooManySplits
        → PassesLimit telling.most_splits (for_combination request.now) }
{
    // Asked here, so that it is also known of operands that take too many splits.
    if !may_be_combined(&request.combination) {
        return Err(IntNearnessError::CoordinateOutOfRange);
    }
    let mut count = SplitCount::new(telling.most_splits);
    let near = combine_within(alloc, &request.combination, request.options, &mut count)?;
    Ok(told_line(alloc, &near, telling.nearness)?)
}

/// The line that lists what is made.
fn answer_line<I: OverlayInt>(
    alloc: Global,
    answer: &CombinedAnswer<I>,
) -> Result<String, AllocError>
    ensures { IfOk result (λ line. string_bytes line ≡ combined_text (answer_of answer.now)) }
{
    match answer {
        CombinedAnswer::Shapes(shapes) => shapes_line(alloc, shapes),
        CombinedAnswer::Overlaps(overlaps) => overlaps_line(alloc, overlaps),
    }
}

/// The line that lists what is made, with its nearness where that is told.
fn told_line<I: OverlayInt>(
    alloc: Global,
    near: &NearCombined<I>,
    told: bool,
) -> Result<String, AllocError>
    ensures { IfOk result (λ line.
        string_bytes line ≡ told_combined_text told near.now.nearness (answer_of near.now.answer)) }
{
    if told {
        near_answer_line(alloc, &near.answer, near.nearness)
    } else {
        answer_line(alloc, &near.answer)
    }
}

/// The line that lists what is made, with this nearness.
fn near_answer_line<I: OverlayInt>(
    alloc: Global,
    answer: &CombinedAnswer<I>,
    nearness: u64,
) -> Result<String, AllocError>
    ensures { IfOk result (λ line. string_bytes line ≡ near_combined_text nearness (answer_of answer.now)) }
{
    match answer {
        CombinedAnswer::Shapes(shapes) => near_shapes_line(alloc, shapes, nearness),
        CombinedAnswer::Overlaps(overlaps) => near_overlaps_line(alloc, overlaps, nearness),
    }
}
