//! Errors in reading formulas.

use std::alloc::AllocError;
use std::fmt::Display;
use thiserror::Error;

/// Why no formula was read. Lines are numbered from 1, and the numbers are capped at 2^64-1.
#[derive(Clone, Copy, Debug, Drop, PartialEq, Eq, Error)]
pub enum DimacsError {
    /// A word on this line is malformed, or the text ends inside a clause and this is its last line.
    #[error("line {line} is malformed")]
    Malformed { line: u64 },
    /// A number on this line is above 2^28.
    #[error("a number on line {line} is past the limit")]
    Limit { line: u64 },
    /// The reader failed, or was read 2^48 times.
    #[error("the formula can't be read")]
    Read,
    #[error("out of memory")]
    OutOfMemory,
    /// The parser has already failed or finished.
    #[error("the parser has failed or finished before")]
    HasFailed,
}

impl From<AllocError> for DimacsError {
    ghost use Rattle.std.specs.Prelude.{◌≡◌};
    ghost use Rattle.sat_base.specs.declared.dimacs.error.DimacsError.TheVariants.{OutOfMemory};

    ghost from_gives = { λ _ e. e ≡ OutOfMemory };

    fn from(_e: AllocError) -> DimacsError {
        DimacsError::OutOfMemory
    }
}

/// Why reading in chunks stopped.
#[derive(Clone, Copy, Debug, Drop, PartialEq, Eq, Error)]
#[error_bound(E: Display)]
pub enum IncrementalError<E> {
    #[error("{0}")]
    Dimacs(DimacsError),
    /// The caller's closure returned this error.
    #[error("{0}")]
    Caller(E),
}
