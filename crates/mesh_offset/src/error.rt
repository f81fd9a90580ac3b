//! The errors of the offset operations.

use mesh_below::nearness::SplitError;
use std::alloc::AllocError;
use thiserror::Error;

/// The errors of the offset operations.
#[derive(Debug, Clone, Copy, PartialEq, Eq, Error)]
pub enum IntOutlineError {
    /// From a `validate` call: the bounds of the points, grown by the reach of the style, leave the safe range. From an
    /// outline: twice the area of a contour does not fit the wide type. Both are found before anything is built.
    #[error("mesh coordinate exceeds the integer engine range")]
    CoordinateOutOfRange,
    /// A growth of memory was refused. What was handed in is as it was.
    #[error("mesh construction ran out of memory")]
    OutOfMemory,
}

/// The errors of strokes. Only `validate_stroke` returns `CoordinateOutOfRange`.
pub type IntStrokeError = IntOutlineError;

/// The errors of strokes of variable width. Only `validate_variable_stroke` returns `CoordinateOutOfRange`.
pub type IntVariableStrokeError = IntOutlineError;

impl From<AllocError> for IntOutlineError {
    ghost use Rattle.std.specs.Prelude.{◌≡◌};
    ghost use Rattle.mesh_offset.specs.declared.error.IntOutlineError.TheVariants.{OutOfMemory};

    ghost from_gives = { λ _ error. error ≡ OutOfMemory };

    fn from(_error: AllocError) -> Self {
        IntOutlineError::OutOfMemory
    }
}

/// The errors of the operations that return an error bound and have a limit on splits.
#[derive(Debug, Clone, Copy, PartialEq, Eq, Error)]
pub enum IntNearnessError {
    /// Twice the area of a contour does not fit the wide type. This is found before anything is built. Strokes never
    /// return it.
    #[error("mesh coordinate exceeds the integer engine range")]
    CoordinateOutOfRange,
    /// A growth of memory was refused. What was handed in is as it was.
    #[error("mesh construction ran out of memory")]
    OutOfMemory,
    /// More edges were split than the limit allows. What was handed in is unchanged, and the count holds how many
    /// splits were made.
    #[error("splitting took more splits than the limit")]
    TooManySplits,
}

impl From<AllocError> for IntNearnessError {
    ghost use Rattle.std.specs.Prelude.{◌≡◌};
    ghost use Rattle.mesh_offset.specs.declared.error.IntNearnessError.TheVariants.{OutOfMemory};

    ghost from_gives = { λ _ error. error ≡ OutOfMemory };

    fn from(_error: AllocError) -> Self {
        IntNearnessError::OutOfMemory
    }
}

impl From<IntOutlineError> for IntNearnessError {
    ghost use Rattle.std.specs.Prelude.{◌≡◌};
    ghost use Rattle.mesh_offset.specs.Errors.{of_offset};

    ghost from_gives = { λ error told. told ≡ of_offset error };

    fn from(error: IntOutlineError) -> Self {
        match error {
            IntOutlineError::CoordinateOutOfRange => IntNearnessError::CoordinateOutOfRange,
            IntOutlineError::OutOfMemory => IntNearnessError::OutOfMemory,
        }
    }
}

impl From<SplitError> for IntNearnessError {
    ghost use Rattle.std.specs.Prelude.{◌≡◌};
    ghost use Rattle.mesh_offset.specs.Errors.{of_splitting};

    ghost from_gives = { λ error told. told ≡ of_splitting error };

    fn from(error: SplitError) -> Self {
        match error {
            SplitError::OutOfMemory => IntNearnessError::OutOfMemory,
            SplitError::TooManySplits => IntNearnessError::TooManySplits,
        }
    }
}
