//! How a call ended, as one of few numbers.

ghost use Rattle.std.specs.Prelude.{◌≡◌};
ghost use Rattle.mesh_arrays.specs.Outcomes.{code_of, outcome_of};

use crate::failure::Failure;

/// How a call ended.
#[derive(Debug, Clone, Copy, PartialEq, Eq)]
pub enum Outcome {
    /// What was asked is answered, and the answer stands in the caller's room.
    Answered,
    /// What is to be drawn would pass the safe range.
    OutOfRange,
    /// What was given is nothing that the call serves.
    Malformed,
    /// Memory was refused.
    OutOfMemory,
    /// More splits were made than the limit that the call was given.
    TooManySplits,
    /// What is to be told does not fit the caller's room. The room is as it was, and how much is needed is told.
    RoomTooSmall,
}

impl Outcome {
    /// The number that other languages see.
    pub fn code(self) -> u8
        ensures { result ≡ code_of self }
    {
        match self {
            Outcome::Answered => 0,
            Outcome::OutOfRange => 1,
            Outcome::Malformed => 2,
            Outcome::OutOfMemory => 3,
            Outcome::TooManySplits => 4,
            Outcome::RoomTooSmall => 5,
        }
    }

    /// How a call ends that meets this failure.
    pub fn of(failure: Failure) -> Self
        ensures { result ≡ outcome_of failure }
    {
        match failure {
            Failure::Malformed => Outcome::Malformed,
            Failure::OutOfRange => Outcome::OutOfRange,
            Failure::OutOfMemory => Outcome::OutOfMemory,
            Failure::TooManySplits => Outcome::TooManySplits,
        }
    }
}
