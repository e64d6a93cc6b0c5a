//! Why an operation on names failed.

use crate::proof::emitted::CheckFault;
use crate::proof::kept::Kept;
use std::alloc::{AllocError, AllocFailed};
use std::io;
use thiserror::Error;

/// Why an operation on names failed.
#[derive(Debug, Drop, Error)]
pub enum NameError {
    /// No variable is left.
    #[error("no variable is left")]
    VariableLimit,
    #[error("out of memory")]
    OutOfMemory,

    /// A call to the proof's target failed. The underlying error is stored with the proof.
    #[error("a call to the proof's target failed")]
    Write(Kept<io::Error>),

    /// The solver's own checker failed.
    #[error("the solver's own checker failed")]
    Check(CheckFault),
}

impl From<AllocError> for NameError {
    ghost use Rattle.std.specs.Prelude.{◌≡◌};
    ghost use Rattle.sat_solver.specs.declared.variables.error.NameError.TheVariants.{OutOfMemory};

    ghost from_gives = { λ _ e. e ≡ OutOfMemory };

    fn from(_e: AllocError) -> NameError {
        NameError::OutOfMemory
    }
}

impl<T: Drop> From<AllocFailed<T>> for NameError {
    ghost use Rattle.std.specs.Prelude.{◌≡◌};
    ghost use Rattle.sat_solver.specs.declared.variables.error.NameError.TheVariants.{OutOfMemory};

    ghost from_gives = { λ _ e. e ≡ OutOfMemory };

    fn from(_e: AllocFailed<T>) -> NameError {
        NameError::OutOfMemory
    }
}
