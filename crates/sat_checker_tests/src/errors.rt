//! Tests of how each error of the crate is printed.

use anyhow::anyhow;
use sat_base::DimacsError;
use sat_checker::store::StoreError;
use sat_checker::{CheckerDimacsError, CheckerError, ProcessingError, StepRefusal};
use std::alloc::Global;
use std::fmt::Display;

/// Returns an error and its text, for each error of a checker that is not the fault of a listener.
fn plain_errors() -> [(CheckerError, &'static str); 7] {
    [
        (
            CheckerError::ProofIncomplete,
            "the proof ends before its end step",
        ),
        (CheckerError::IoError, "the proof can't be read"),
        (
            CheckerError::ParseError,
            "the proof's text is no list of steps",
        ),
        (CheckerError::CheckFailed, "a proof step is refused"),
        (CheckerError::OutOfMemory, "out of memory"),
        (CheckerError::CounterEnd, "a counter is at its end"),
        (CheckerError::HasFailed, "the checker has failed before"),
    ]
}

/// Returns errors in adding a text, and their texts.
fn text_errors() -> [(CheckerDimacsError, &'static str); 2] {
    [
        (
            CheckerDimacsError::Dimacs(DimacsError::Malformed { line: 2 }),
            "line 2 is malformed",
        ),
        (
            CheckerDimacsError::Checker(CheckerError::CheckFailed),
            "a proof step is refused",
        ),
    ]
}

/// Returns the refusals of a step that is checked without listeners, and their texts.
fn refusals() -> [(StepRefusal, &'static str); 4] {
    [
        (StepRefusal::HasFailed, "the checker has failed before"),
        (StepRefusal::CheckFailed, "a proof step is refused"),
        (StepRefusal::OutOfMemory, "out of memory"),
        (StepRefusal::CounterEnd, "a counter is at its end"),
    ]
}

/// Returns the errors of the store, and their texts.
fn store_errors() -> [(StoreError, &'static str); 2] {
    [
        (StoreError::OutOfMemory, "out of memory"),
        (StoreError::CounterEnd, "a counter is at its end"),
    ]
}

/// Returns errors that contain the fault of a listener, whose text is "a fault".
fn faults() -> (CheckerError, ProcessingError) {
    (
        CheckerError::ProofProcessorError {
            cause: anyhow!("a fault"),
        },
        ProcessingError::ProofProcessorError {
            cause: anyhow!("a fault"),
        },
    )
}

fn is_printed<E: Display>(alloc: Global, error: &E, text: &str) -> bool {
    match format!(in alloc; "{error}") {
        Ok(printed) => printed.as_str() == text,
        Err(_) => false,
    }
}

/// Returns the text of the first row whose error is printed otherwise.
fn first_wrong<E: Display>(alloc: Global, rows: &[(E, &'static str)]) -> Option<&'static str> {
    for (error, text) in rows {
        if !is_printed(alloc, error, *text) {
            return Some(*text);
        }
    }
    None
}

/// Returns `true` if the text of a listener's fault is printed.
fn are_faults_printed(alloc: Global) -> bool {
    let (of_checker, of_listeners) = faults();
    let text = "Error in proof processor: a fault";
    is_printed(alloc, &of_checker, text) && is_printed(alloc, &of_listeners, text)
}

#[test]
fn errors_are_printed(rt: HostRuntime) {
    assert!(rt; first_wrong(rt.alloc(), &plain_errors()) == None);
    assert!(rt; first_wrong(rt.alloc(), &text_errors()) == None);
    assert!(rt; first_wrong(rt.alloc(), &refusals()) == None);
    assert!(rt; first_wrong(rt.alloc(), &store_errors()) == None);
    assert!(rt; are_faults_printed(rt.alloc()));
    assert!(rt; is_printed(rt.alloc(), &ProcessingError::OutOfMemory, "out of memory"));
}
