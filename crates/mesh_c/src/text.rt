//! The calls for requests in JSON.

ghost use Rattle.mesh_arrays.specs.Telling.{Returns};
ghost use Rattle.mesh_text.specs.Replies.{TellsReply, TellsReplyWithin};
ghost use Rattle.mesh_text.specs.Whys.{TellsWhy};

use mesh_text::answer::{answer, answer_within};
use mesh_text::why::why;
use std::alloc::Global;

/// The program's line for a request, in the caller's room, and how many bytes it has.
#[unsafe(no_mangle)]
pub extern "C" fn mesh_answer(
    alloc: Global,
    request: &[u8],
    room: &mut [u8],
    needed: &mut usize,
) -> u8
    ensures { Returns (TellsReply request.now room.old room.new needed.new) result }
{
    answer(alloc, request, room, needed).code()
}

/// The same, made by at most so many splits.
#[unsafe(no_mangle)]
pub extern "C" fn mesh_answer_within(
    alloc: Global,
    request: &[u8],
    most_splits: u64,
    room: &mut [u8],
    needed: &mut usize,
) -> u8
    ensures { Returns (TellsReplyWithin most_splits request.now room.old room.new needed.new) result }
{
    answer_within(alloc, request, most_splits, room, needed).code()
}

/// Why a request is none, in the caller's room, and how many bytes that has.
#[unsafe(no_mangle)]
pub extern "C" fn mesh_why(alloc: Global, request: &[u8], room: &mut [u8], needed: &mut usize) -> u8
    ensures { Returns (TellsWhy request.now room.old room.new needed.new) result }
{
    why(alloc, request, room, needed).code()
}
