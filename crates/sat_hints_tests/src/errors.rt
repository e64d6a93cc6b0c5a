//! Tests of how each error of the crate is printed.

use sat_checker::CheckerError;
use sat_hints::{HintError, HintFault};
use std::alloc::Global;
use std::fmt::Display;

/// Returns the errors of a conversion, and their texts.
fn conversion_errors() -> [(HintError, &'static str); 5] {
    [
        (
            HintError::Refused(CheckerError::CheckFailed),
            "the certificate is refused: a proof step is refused",
        ),
        (
            HintError::HasDeleteVar,
            "the certificate deletes a variable",
        ),
        (HintError::Read, "a read failed"),
        (HintError::Write, "a write failed"),
        (HintError::OutOfMemory, "out of memory"),
    ]
}

/// Returns the errors of a check, and their texts.
fn check_faults() -> [(HintFault, &'static str); 2] {
    [
        (HintFault::Read, "a read failed"),
        (HintFault::OutOfMemory, "out of memory"),
    ]
}

fn is_printed<E: Display>(alloc: Global, error: &E, text: &str) -> bool {
    match format!(in alloc; "{error}") {
        Ok(printed) => printed.as_str() == text,
        Err(_) => false,
    }
}

/// Returns the text of the first row whose error is printed otherwise.
fn first_wrong<E: Display>(alloc: Global, rows: &[(E, &'static str)]) -> Option<&'static str> {
    for (error, text) in rows {
        if !is_printed(alloc, error, *text) {
            return Some(*text);
        }
    }
    None
}

#[test]
fn errors_are_printed(rt: HostRuntime) {
    assert!(rt; first_wrong(rt.alloc(), &conversion_errors()) == None);
    assert!(rt; first_wrong(rt.alloc(), &check_faults()) == None);
}
