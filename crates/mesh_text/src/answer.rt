//! The line that answers a request, in the caller's room.

ghost use Rattle.std.specs.Prelude.{◌≡◌, List, length};
ghost use Rattle.mesh_arrays.specs.Rooms.{IsHandedOver};
ghost use Rattle.mesh_request.specs.Failures.{failure_line};
ghost use Rattle.mesh_service.specs.Near.{IsGivenUpIn};
ghost use Rattle.mesh_text.specs.Replies.{TellsReply, TellsReplyWithin, outcome_of};

use mesh_arrays::outcome::Outcome;
use mesh_arrays::room::hand_over;
use mesh_offset::error::IntOutlineError;
use mesh_request::failure::Failure;
use mesh_service::answer::too_many_line;
use mesh_service::near::{Telling, respond_near};
use mesh_service::near_failure::NearFailure;
use mesh_service::service::respond;
use std::alloc::Global;

/// Puts the line that the program writes for this request, a line feed at its end, to the beginning of `room`, and
/// tells in `needed` how many bytes it has. `Answered`: it is an answer. `OutOfRange`: what is to be drawn or combined
/// would pass the safe range. `Malformed`: the bytes are no request that is served. `OutOfMemory`: memory was refused.
/// Of these the room has the line as well. `RoomTooSmall`: the line has more bytes than the room, which is as it was.
pub fn answer(alloc: Global, request: &[u8], room: &mut [u8], needed: &mut usize) -> Outcome
    ensures { TellsReply request.now room.old room.new needed.new result }
{
    match respond(alloc, request) {
        Ok(line) => hand_over(line.as_bytes(), Outcome::Answered, room, needed),
        Err(failure) => hand_over_failure(failure, room, needed),
    }
}

/// The same, made by at most so many splits; 0 stands for any number. It ends as `answer` does, or with `TooManySplits`:
/// more splits were made, and the line tells so.
pub fn answer_within(
    alloc: Global,
    request: &[u8],
    most_splits: u64,
    room: &mut [u8],
    needed: &mut usize,
) -> Outcome
    ensures { TellsReplyWithin most_splits request.now room.old room.new needed.new result }
{
    let telling = Telling {
        most_splits,
        nearness: false,
    };
    match respond_near(alloc, request, telling) {
        Ok(line) => hand_over(line.as_bytes(), Outcome::Answered, room, needed),
        Err(NearFailure::Failed(failure)) => hand_over_failure(failure, room, needed),
        Err(NearFailure::TooManySplits) => hand_over_limit(alloc, most_splits, room, needed),
    }
}

/// Puts the line that tells of more splits than these to the beginning of the room, or that of a want of memory.
fn hand_over_limit(alloc: Global, most: u64, room: &mut [u8], needed: &mut usize) -> Outcome
    ensures { (request : List _) → IsGivenUpIn most request
        → TellsReplyWithin most request room.old room.new needed.new result }
{
    match too_many_line(alloc, most) {
        Ok(line) => hand_over(line.as_bytes(), Outcome::TooManySplits, room, needed),
        Err(refused) => hand_over_failure(Failure::from(refused), room, needed),
    }
}

/// Puts the line of a failure to the beginning of the room.
fn hand_over_failure(failure: Failure, room: &mut [u8], needed: &mut usize) -> Outcome
    ensures handed { IsHandedOver (failure_line failure) room.old room.new (outcome_of failure) result }
    ensures size { needed.new ≡ length (failure_line failure) }
{
    let line = failure.line();
    hand_over(line.as_bytes(), outcome_of(failure), room, needed)
}

/// How a call ends that meets this failure.
fn outcome_of(failure: Failure) -> Outcome
    ensures { result ≡ outcome_of failure }
{
    match failure {
        Failure::Unreadable => Outcome::Malformed,
        Failure::Refused(IntOutlineError::CoordinateOutOfRange) => Outcome::OutOfRange,
        Failure::Refused(IntOutlineError::OutOfMemory) => Outcome::OutOfMemory,
    }
}
