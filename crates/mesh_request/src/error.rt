//! Why a value is read as no request.

use crate::fault::Fault;
use std::alloc::{AllocError, AllocFailed};
use thiserror::Error;

/// Why a value is read as no request.
#[derive(Debug, Clone, Copy, PartialEq, Eq, Error)]
pub enum ReadError {
    /// It is no request that is served: here it goes wrong first.
    #[error("{0}")]
    Fault(Fault),
    /// A growth of memory was refused.
    #[error("memory ran out")]
    OutOfMemory,
}

impl From<AllocError> for ReadError {
    ghost use Rattle.std.specs.Prelude.{◌≡◌};
    ghost use Rattle.mesh_request.specs.declared.error.ReadError.TheVariants.{OutOfMemory};

    ghost from_gives = { λ _ error. error ≡ OutOfMemory };

    fn from(_refused: AllocError) -> Self {
        ReadError::OutOfMemory
    }
}

impl<T: Drop> From<AllocFailed<T>> for ReadError {
    ghost use Rattle.std.specs.Prelude.{◌≡◌};
    ghost use Rattle.mesh_request.specs.declared.error.ReadError.TheVariants.{OutOfMemory};

    ghost from_gives = { λ _ error. error ≡ OutOfMemory };

    fn from(_refused: AllocFailed<T>) -> Self {
        ReadError::OutOfMemory
    }
}
