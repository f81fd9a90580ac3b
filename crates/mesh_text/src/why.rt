//! Why bytes hold no request, in the caller's room.

ghost use Rattle.std.specs.Prelude.{IfOk};
ghost use Rattle.mesh_text.specs.Whys.{IsReasonText, TellsWhy};

use mesh_arrays::outcome::Outcome;
use mesh_arrays::room::hand_over;
use mesh_service::why;
use std::alloc::{AllocError, Global};

/// Puts the reason why these bytes hold no request to the beginning of `room`, and tells in `needed` how many bytes it
/// has. `Malformed`: they hold none, and the room has the reason. `Answered`: they hold one, and there is no reason.
/// `OutOfMemory`: memory was refused. With both of these `needed` is 0, and the room as it was. `RoomTooSmall`: they hold
/// none, and the reason has more bytes than the room, which is as it was.
pub fn why(alloc: Global, request: &[u8], room: &mut [u8], needed: &mut usize) -> Outcome
    ensures { TellsWhy request.now room.old room.new needed.new result }
{
    *needed = 0;
    match reason(alloc, request) {
        Ok(None) => Outcome::Answered,
        Ok(Some(text)) => hand_over(text.as_bytes(), Outcome::Malformed, room, needed),
        Err(_) => Outcome::OutOfMemory,
    }
}

/// The reason as a text, `None` where there is none. It fails only where memory is refused.
fn reason(alloc: Global, request: &[u8]) -> Result<Option<String>, AllocError>
    ensures { IfOk result (λ text. IsReasonText request.now text) }
{
    match why::why(alloc, request)? {
        None => Ok(None),
        Some(reason) => Ok(Some(format!(in alloc; "{reason}")?)),
    }
}
