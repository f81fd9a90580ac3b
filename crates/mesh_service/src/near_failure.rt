//! Why there is no answer that tells its nearness.

use mesh_offset::error::{IntNearnessError, IntOutlineError};
use mesh_request::failure::Failure;
use std::alloc::AllocError;

/// Why there is no answer that tells its nearness.
#[derive(Debug, Clone, Copy, PartialEq, Eq)]
pub enum NearFailure {
    /// What a call without a limit meets too.
    Failed(Failure),
    /// More splits were made than the limit that the call was given.
    TooManySplits,
}

impl From<Failure> for NearFailure {
    ghost use Rattle.std.specs.Prelude.{◌≡◌};
    ghost use Rattle.mesh_service.specs.declared.near_failure.NearFailure.TheVariants.{Failed};

    ghost from_gives = { λ failure told. told ≡ Failed failure };

    fn from(failure: Failure) -> Self {
        NearFailure::Failed(failure)
    }
}

impl From<AllocError> for NearFailure {
    ghost use Rattle.std.specs.Prelude.{◌≡◌};
    ghost use Rattle.mesh_service.specs.declared.near_failure.NearFailure.TheVariants.{Failed};
    ghost use Rattle.mesh_offset.specs.declared.error.IntOutlineError.TheVariants.{OutOfMemory};
    ghost use Rattle.mesh_request.specs.declared.failure.Failure.TheVariants.{Refused};

    ghost from_gives = { λ _ told. told ≡ Failed (Refused OutOfMemory) };

    fn from(_refused: AllocError) -> Self {
        NearFailure::Failed(Failure::Refused(IntOutlineError::OutOfMemory))
    }
}

impl From<IntNearnessError> for NearFailure {
    ghost use Rattle.std.specs.Prelude.{◌≡◌};
    ghost use Rattle.mesh_service.specs.Near.{of_nearness};

    ghost from_gives = { λ error told. told ≡ of_nearness error };

    fn from(error: IntNearnessError) -> Self {
        match error {
            IntNearnessError::CoordinateOutOfRange => {
                NearFailure::Failed(Failure::Refused(IntOutlineError::CoordinateOutOfRange))
            }
            IntNearnessError::OutOfMemory => {
                NearFailure::Failed(Failure::Refused(IntOutlineError::OutOfMemory))
            }
            IntNearnessError::TooManySplits => NearFailure::TooManySplits,
        }
    }
}
