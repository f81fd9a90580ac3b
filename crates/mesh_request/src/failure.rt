//! Why a request has no answer.

ghost use Rattle.std.specs.Prelude.{◌≡◌};
ghost use Rattle.mesh_request.specs.Failures.{failure_line};

use mesh_offset::error::IntOutlineError;
use std::alloc::{AllocError, AllocFailed};

/// Why a request has no answer.
#[derive(Debug, Clone, Copy, PartialEq, Eq)]
pub enum Failure {
    /// What was read is no request that is served.
    Unreadable,
    /// The library refused the request, or there was no memory for it.
    Refused(IntOutlineError),
}

impl Failure {
    /// The line that is printed in place of an answer.
    pub fn line(&self) -> &'static str
        ensures { result.now ≡ failure_line self.now }
    {
        match self {
            Failure::Unreadable => "{\"unreadable\":\"request\"}\n",
            Failure::Refused(IntOutlineError::CoordinateOutOfRange) => {
                "{\"refused\":\"mesh coordinate exceeds the integer engine range\"}\n"
            }
            Failure::Refused(IntOutlineError::OutOfMemory) => {
                "{\"refused\":\"mesh construction ran out of memory\"}\n"
            }
        }
    }
}

impl From<IntOutlineError> for Failure {
    ghost use Rattle.std.specs.Prelude.{◌≡◌};
    ghost use Rattle.mesh_request.specs.declared.failure.Failure.TheVariants.{Refused};

    ghost from_gives = { λ error failure. failure ≡ Refused error };

    fn from(error: IntOutlineError) -> Failure {
        Failure::Refused(error)
    }
}

impl From<AllocError> for Failure {
    ghost use Rattle.std.specs.Prelude.{◌≡◌};
    ghost use Rattle.mesh_request.specs.declared.failure.Failure.TheVariants.{Refused};
    ghost use Rattle.mesh_offset.specs.declared.error.IntOutlineError.TheVariants.{OutOfMemory};

    ghost from_gives = { λ _ failure. failure ≡ Refused OutOfMemory };

    fn from(_refused: AllocError) -> Failure {
        Failure::Refused(IntOutlineError::OutOfMemory)
    }
}

impl<T: Drop> From<AllocFailed<T>> for Failure {
    ghost use Rattle.std.specs.Prelude.{◌≡◌};
    ghost use Rattle.mesh_request.specs.declared.failure.Failure.TheVariants.{Refused};
    ghost use Rattle.mesh_offset.specs.declared.error.IntOutlineError.TheVariants.{OutOfMemory};

    ghost from_gives = { λ _ failure. failure ≡ Refused OutOfMemory };

    fn from(_refused: AllocFailed<T>) -> Failure {
        Failure::Refused(IntOutlineError::OutOfMemory)
    }
}

/// A text that is no JSON is unreadable.
impl From<serde_json::Error> for Failure {
    ghost use Rattle.std.specs.Prelude.{◌≡◌};
    ghost use Rattle.serde_json.specs.Errors.{IsMemory};
    ghost use Rattle.mesh_request.specs.declared.failure.Failure.TheVariants.{Refused, Unreadable};
    ghost use Rattle.mesh_offset.specs.declared.error.IntOutlineError.TheVariants.{OutOfMemory};

    ghost from_gives = { λ error failure. (IsMemory error → failure ≡ Refused OutOfMemory)
        × (¬ IsMemory error → failure ≡ Unreadable) };

    fn from(error: serde_json::Error) -> Failure {
        if error.is_memory() {
            Failure::from(AllocError)
        } else {
            Failure::Unreadable
        }
    }
}
