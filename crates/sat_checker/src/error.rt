//! The errors that a checker returns.

use crate::store::StoreError;
use sat_base::DimacsError;
use thiserror::Error;

/// Why a proof, a step or a clause was not accepted.
#[derive(Debug, Drop, Error)]
pub enum CheckerError {
    /// The proof's text ends before an `End` step.
    #[error("the proof ends before its end step")]
    ProofIncomplete,
    /// A read failed, or 2^48 reads were not enough.
    #[error("the proof can't be read")]
    IoError,
    /// The proof's text contains a byte that can't begin or continue a step.
    #[error("the proof's text is no list of steps")]
    ParseError,
    /// A step or a clause was refused.
    #[error("a proof step is refused")]
    CheckFailed,
    /// A processor or a transcript returned an error.
    #[error("Error in proof processor: {cause}")]
    ProofProcessorError { cause: anyhow::Error },
    /// Memory ran out.
    #[error("out of memory")]
    OutOfMemory,
    /// The last id, 2^64-2, has already been assigned, or a clause is already stored 2^64-1 times.
    #[error("a counter is at its end")]
    CounterEnd,
    /// The checker failed in an earlier call.
    #[error("the checker has failed before")]
    HasFailed,
}

impl From<StoreError> for CheckerError {
    ghost use Rattle.std.specs.Prelude.{◌≡◌};
    ghost use Rattle.sat_checker.specs.inner.NotifyingSteps.{error_of_store};

    ghost from_gives = { λ s e. e ≡ error_of_store s };

    fn from(error: StoreError) -> CheckerError {
        match error {
            StoreError::OutOfMemory => CheckerError::OutOfMemory,
            StoreError::CounterEnd => CheckerError::CounterEnd,
        }
    }
}

/// Why the text of a formula was not added in full.
#[derive(Debug, Drop, Error)]
pub enum CheckerDimacsError {
    /// The text is malformed, exceeds a limit or can't be read, or memory ran out while it was being read.
    #[error("{0}")]
    Dimacs(DimacsError),
    /// The checker did not accept a clause.
    #[error("{0}")]
    Checker(CheckerError),
}
