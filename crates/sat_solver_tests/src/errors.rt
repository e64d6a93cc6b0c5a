//! Tests of how each error of a solver is printed, and whether the solver can still be used after it.

use anyhow::anyhow;
use sat_solver::SolverError;
use std::alloc::Global;
use std::io;
use std::io::ErrorKind;

/// An error, its text, and whether the solver can still be used.
type Row = (SolverError, &'static str, bool);

/// Returns the errors after which a solver can still be used.
fn recoverable() -> [Row; 9] {
    [
        (SolverError::Interrupted, "The solver was interrupted", true),
        (
            SolverError::WitnessVariable,
            "a clause or an assumption has a witness variable",
            true,
        ),
        (
            SolverError::AssumedVariable,
            "an assumed variable can't change its mode",
            true,
        ),
        (
            SolverError::TooLate,
            "a proof can't begin once the solver was used",
            true,
        ),
        (
            SolverError::NotInDrat,
            "the proof format has no assumptions and no later clauses",
            true,
        ),
        (
            SolverError::VariableLimit,
            "a variable is past the limit",
            true,
        ),
        (SolverError::Read, "the formula can't be read", true),
        (
            SolverError::Malformed,
            "the formula's text is malformed",
            true,
        ),
        (
            SolverError::OutOfRange,
            "a parameter is out of its range",
            true,
        ),
    ]
}

/// Returns the errors after which every call fails. The first two contain the cause.
fn not_recoverable() -> [Row; 6] {
    [
        (
            SolverError::ProofProcessorError {
                cause: anyhow!("a fault"),
            },
            "Error in proof processor: a fault",
            false,
        ),
        (
            SolverError::ProofIoError {
                cause: io::Error::from(ErrorKind::Interrupted),
            },
            "Error writing proof file: operation interrupted",
            false,
        ),
        (SolverError::OutOfMemory, "out of memory", false),
        (
            SolverError::StoreFull,
            "the store of clauses is full",
            false,
        ),
        (SolverError::CounterEnd, "a counter is at its end", false),
        (
            SolverError::HasFailed,
            "the solver has failed before",
            false,
        ),
    ]
}

fn is_printed(alloc: Global, error: &SolverError, text: &str) -> bool {
    match format!(in alloc; "{error}") {
        Ok(printed) => printed.as_str() == text,
        Err(_) => false,
    }
}

/// Returns the text of the first row that is wrong.
fn first_wrong(alloc: Global, rows: &[Row]) -> Option<&'static str> {
    for (error, text, is_recoverable) in rows {
        if !is_printed(alloc, error, *text) || error.is_recoverable() != *is_recoverable {
            return Some(*text);
        }
    }
    None
}

#[test]
fn errors_are_printed(rt: HostRuntime) {
    assert!(rt; first_wrong(rt.alloc(), &recoverable()) == None);
    assert!(rt; first_wrong(rt.alloc(), &not_recoverable()) == None);
}
