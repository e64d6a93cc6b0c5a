//! Tests of how each error of the crate is printed.

use sat_base::{DimacsError, FormulaError, IncrementalError, ReadError, StepError};
use std::alloc::Global;
use std::fmt::Display;

/// A type's errors, and how they are printed.
type Rows<E> = &'static [(E, &'static str)];

const FORMULAS: Rows<FormulaError> = &[
    (FormulaError::VariableLimit, "no variable is left"),
    (FormulaError::OutOfMemory, "out of memory"),
];

const TEXTS: Rows<DimacsError> = &[
    (DimacsError::Malformed { line: 2 }, "line 2 is malformed"),
    (
        DimacsError::Limit { line: 3 },
        "a number on line 3 is past the limit",
    ),
    (DimacsError::Read, "the formula can't be read"),
    (DimacsError::OutOfMemory, "out of memory"),
    (
        DimacsError::HasFailed,
        "the parser has failed or finished before",
    ),
];

/// Errors of a text, and of its caller.
const PARTS: Rows<IncrementalError<DimacsError>> = &[
    (
        IncrementalError::Dimacs(DimacsError::Malformed { line: 2 }),
        "line 2 is malformed",
    ),
    (
        IncrementalError::Caller(DimacsError::HasFailed),
        "the parser has failed or finished before",
    ),
];

const STEPS: Rows<StepError> = &[
    (StepError::Ends, "the proof's text is over"),
    (StepError::Cut, "the proof's text is over inside a step"),
    (StepError::BadByte, "no proof step can follow a byte"),
    (StepError::Read, "the proof can't be read"),
    (StepError::OutOfMemory, "out of memory"),
    (StepError::HasFailed, "reading the proof has failed before"),
];

const READS: Rows<ReadError> = &[
    (ReadError::Failed, "a read failed"),
    (ReadError::OutOfMemory, "out of memory"),
];

/// Returns `true` if the value is printed as this text.
pub(crate) fn is_printed<T: Display>(alloc: Global, value: &T, text: &str) -> bool {
    match format!(in alloc; "{value}") {
        Ok(printed) => printed.as_str() == text,
        Err(_) => false,
    }
}

/// Returns the text of the first row whose error is printed otherwise.
fn first_wrong<E: Display>(alloc: Global, rows: Rows<E>) -> Option<&'static str> {
    for (error, text) in rows {
        if !is_printed(alloc, error, *text) {
            return Some(*text);
        }
    }
    None
}

fn formulas() -> Rows<FormulaError> {
    FORMULAS
}

fn texts() -> Rows<DimacsError> {
    TEXTS
}

fn parts() -> Rows<IncrementalError<DimacsError>> {
    PARTS
}

fn steps() -> Rows<StepError> {
    STEPS
}

fn reads() -> Rows<ReadError> {
    READS
}

#[test]
fn errors_are_printed(rt: HostRuntime) {
    assert!(rt; first_wrong(rt.alloc(), formulas()) == None);
    assert!(rt; first_wrong(rt.alloc(), texts()) == None);
    assert!(rt; first_wrong(rt.alloc(), parts()) == None);
    assert!(rt; first_wrong(rt.alloc(), steps()) == None);
    assert!(rt; first_wrong(rt.alloc(), reads()) == None);
}
