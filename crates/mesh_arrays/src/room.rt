//! Room that the caller gives for an answer.

ghost use Rattle.std.specs.Prelude.{◌≡◌, ◌≤◌, length};
ghost use Rattle.mesh_arrays.specs.Rooms.{IsHandedOver, overwritten};
ghost use Rattle.mesh_arrays.specs.Telling.{IsTold, LeavesNumber};

use crate::failure::Failure;
use crate::outcome::Outcome;

/// Copies the bytes to the beginning of the room where they fit, and tells how many they are. The call that does so
/// ends as told, or, where they do not fit, with `RoomTooSmall`.
pub fn hand_over(bytes: &[u8], told: Outcome, room: &mut [u8], needed: &mut usize) -> Outcome
    ensures handed { IsHandedOver bytes.now room.old room.new told result }
    ensures size { needed.new ≡ length bytes.now }
{
    *needed = bytes.len();
    if bytes.len() > room.len() {
        return Outcome::RoomTooSmall;
    }
    put(bytes, room);
    told
}

/// Tells a number. Where there is none, what is told stays as it was.
pub(crate) fn hand_over_number(answer: &Result<u64, Failure>, number: &mut u64) -> Outcome
    ensures { IsTold LeavesNumber answer.now number.old number.new result }
{
    match answer {
        Ok(found) => {
            *number = *found;
            Outcome::Answered
        }
        Err(failure) => Outcome::of(*failure),
    }
}

/// Copies the items to the beginning of the room, where they have to fit.
pub(crate) fn put<T: Copy>(items: &[T], room: &mut [T])
    requires { length items.now ≤ length room.old }
    ensures { room.new ≡ overwritten items.now room.old }
{
    room[..items.len()].copy_from_slice(items);
}
