//! The kinds of errors, which can be compared.

use sat_base::DimacsError;
use sat_checker::{CheckerDimacsError, CheckerError};
use std::alloc::Global;

/// The fault of a listener that expects no more.
pub(crate) const NO_MORE: &str = "no more is awaited";

/// The kind of a `CheckerError` or a `CheckerDimacsError`, without the underlying error.
#[derive(Clone, Copy, PartialEq)]
pub(crate) enum Kind {
    ProofIncomplete,
    IoError,
    ParseError,
    CheckFailed,
    ProofProcessorError,
    /// A `ProofProcessorError` with the fault of a listener that expects no more.
    NoMore,
    OutOfMemory,
    CounterEnd,
    HasFailed,
    Dimacs(DimacsError),
}

fn kind_of_cause(alloc: Global, cause: &anyhow::Error) -> Kind {
    match format!(in alloc; "{cause}") {
        Ok(text) => {
            if text.as_str() == NO_MORE {
                Kind::NoMore
            } else {
                Kind::ProofProcessorError
            }
        }
        Err(_) => Kind::OutOfMemory,
    }
}

fn kind_of(alloc: Global, error: &CheckerError) -> Kind {
    match error {
        CheckerError::ProofIncomplete => Kind::ProofIncomplete,
        CheckerError::IoError => Kind::IoError,
        CheckerError::ParseError => Kind::ParseError,
        CheckerError::CheckFailed => Kind::CheckFailed,
        CheckerError::ProofProcessorError { cause } => kind_of_cause(alloc, cause),
        CheckerError::OutOfMemory => Kind::OutOfMemory,
        CheckerError::CounterEnd => Kind::CounterEnd,
        CheckerError::HasFailed => Kind::HasFailed,
    }
}

/// Returns the kind of a result's error, or `None` if it is `Ok`.
pub(crate) fn failure(alloc: Global, answer: &Result<(), CheckerError>) -> Option<Kind> {
    match answer {
        Ok(()) => None,
        Err(error) => Some(kind_of(alloc, error)),
    }
}

/// Returns the kind of a result's error, or `None` if it is `Ok`.
pub(crate) fn dimacs_failure(
    alloc: Global,
    answer: &Result<(), CheckerDimacsError>,
) -> Option<Kind> {
    match answer {
        Ok(()) => None,
        Err(CheckerDimacsError::Dimacs(error)) => Some(Kind::Dimacs(*error)),
        Err(CheckerDimacsError::Checker(error)) => Some(kind_of(alloc, error)),
    }
}
