//! Why there is no answer.

use mesh_offset::error::{IntNearnessError, IntOutlineError};
use std::alloc::{AllocError, AllocFailed};

/// Why there is no answer.
#[derive(Debug, Clone, Copy, PartialEq, Eq)]
pub enum Failure {
    /// What was given stands for nothing that the call serves.
    Malformed,
    /// What is to be drawn would pass the safe range.
    OutOfRange,
    /// Memory was refused.
    OutOfMemory,
    /// More splits were made than the limit that the call was given.
    TooManySplits,
}

impl From<AllocError> for Failure {
    ghost use Rattle.std.specs.Prelude.{◌≡◌};
    ghost use Rattle.mesh_arrays.specs.declared.failure.Failure.TheVariants.{OutOfMemory};

    ghost from_gives = { λ _ failure. failure ≡ OutOfMemory };

    fn from(_refused: AllocError) -> Self {
        Failure::OutOfMemory
    }
}

impl<T: Drop> From<AllocFailed<T>> for Failure {
    ghost use Rattle.std.specs.Prelude.{◌≡◌};
    ghost use Rattle.mesh_arrays.specs.declared.failure.Failure.TheVariants.{OutOfMemory};

    ghost from_gives = { λ _ failure. failure ≡ OutOfMemory };

    fn from(_refused: AllocFailed<T>) -> Self {
        Failure::OutOfMemory
    }
}

impl From<IntNearnessError> for Failure {
    ghost use Rattle.std.specs.Prelude.{◌≡◌};
    ghost use Rattle.mesh_arrays.specs.Failures.{failure_of};

    ghost from_gives = { λ error failure. failure ≡ failure_of error };

    fn from(error: IntNearnessError) -> Self {
        match error {
            IntNearnessError::CoordinateOutOfRange => Failure::OutOfRange,
            IntNearnessError::OutOfMemory => Failure::OutOfMemory,
            IntNearnessError::TooManySplits => Failure::TooManySplits,
        }
    }
}

impl From<IntOutlineError> for Failure {
    ghost use Rattle.std.specs.Prelude.{◌≡◌};
    ghost use Rattle.mesh_offset.specs.Errors.{of_offset};
    ghost use Rattle.mesh_arrays.specs.Failures.{failure_of};

    ghost from_gives = { λ error failure. failure ≡ failure_of (of_offset error) };

    fn from(error: IntOutlineError) -> Self {
        match error {
            IntOutlineError::CoordinateOutOfRange => Failure::OutOfRange,
            IntOutlineError::OutOfMemory => Failure::OutOfMemory,
        }
    }
}
