//! Errors in reading proof steps.

use std::alloc::{AllocError, AllocFailed};
use thiserror::Error;

/// Why no step was read.
#[derive(Clone, Copy, Debug, Drop, PartialEq, Eq, Error)]
pub enum StepError {
    /// The text has ended between steps.
    #[error("the proof's text is over")]
    Ends,
    /// The text has ended within a step.
    #[error("the proof's text is over inside a step")]
    Cut,
    /// A byte is invalid: no step continues with it.
    #[error("no proof step can follow a byte")]
    BadByte,
    /// The reader failed, or was read 2^48 times.
    #[error("the proof can't be read")]
    Read,
    #[error("out of memory")]
    OutOfMemory,
    /// The step reader has already failed.
    #[error("reading the proof has failed before")]
    HasFailed,
}

impl From<AllocError> for StepError {
    ghost use Rattle.std.specs.Prelude.{◌≡◌};
    ghost use Rattle.sat_base.specs.declared.steps.error.StepError.TheVariants.{OutOfMemory};

    ghost from_gives = { λ _ e. e ≡ OutOfMemory };

    fn from(_e: AllocError) -> StepError {
        StepError::OutOfMemory
    }
}

impl<T: Drop> From<AllocFailed<T>> for StepError {
    ghost use Rattle.std.specs.Prelude.{◌≡◌};
    ghost use Rattle.sat_base.specs.declared.steps.error.StepError.TheVariants.{OutOfMemory};

    ghost from_gives = { λ _ e. e ≡ OutOfMemory };

    fn from(_e: AllocFailed<T>) -> StepError {
        StepError::OutOfMemory
    }
}
