//! Tests of formulas in DIMACS CNF.

use crate::calls::{Answer, Call, Calls, are_answered, first_wrong};
use crate::kinds::Kind;
use sat_base::DimacsError;
use std::alloc::Global;

const TAKEN: Answer = (None, false, false);

const REFUTED: Answer = (None, true, false);

/// A fault in the first line, in the second line, and because of a number past the limit in the third line, with or
/// without unsat recorded.
const FIRST_LINE: Answer = (
    Some(Kind::Dimacs(DimacsError::Malformed { line: 1 })),
    false,
    false,
);

const SECOND_LINE: Answer = (
    Some(Kind::Dimacs(DimacsError::Malformed { line: 2 })),
    false,
    false,
);

const SECOND_LINE_REFUTED: Answer = (
    Some(Kind::Dimacs(DimacsError::Malformed { line: 2 })),
    true,
    false,
);

const PAST_LIMIT_REFUTED: Answer = (
    Some(Kind::Dimacs(DimacsError::Limit { line: 3 })),
    true,
    false,
);

const UNREAD: Answer = (Some(Kind::Dimacs(DimacsError::Read)), false, false);

/// All four clauses over two variables.
pub(crate) const PAIRS: &[u8] = b"c four clauses\np cnf 2 4\n1 2 0\n1 -2 0\n-1 2 0\n-1 -2 0\n";

type Row = (&'static [u8], Answer);

/// Texts, some of which have a fault after clauses, contradictory or not.
static TEXTS: [Row; 11] = [
    (b"", TAKEN),
    (PAIRS, TAKEN),
    (b"1 -1 0", TAKEN),
    (b"0", REFUTED),
    (b"1 0 -1 0", REFUTED),
    (b"1 0\n2 0 -2 0 3 0\n", REFUTED),
    (b"1 0\nx", SECOND_LINE),
    (b"1 0\n2", SECOND_LINE),
    (b"1 0 -1 0\n1x", SECOND_LINE_REFUTED),
    (b"1 0 -1 0\nx 0", SECOND_LINE_REFUTED),
    (b"0\n\n268435457 0", PAST_LIMIT_REFUTED),
];

fn texts() -> &'static [Row] {
    &TEXTS
}

/// Returns `true` if a text has the given result, read in one chunk and in chunks of one byte.
fn is_answered(alloc: Global, row: &Row) -> bool {
    are_answered(alloc, &[(Call::Dimacs(row.0), row.1)])
        && are_answered(alloc, &[(Call::DimacsByOne(row.0, 0), row.1)])
}

/// Returns the first text that has another result, or `None`.
fn first_unanswered(alloc: Global) -> Option<&'static [u8]> {
    for row in texts() {
        if !is_answered(alloc, row) {
            return Some(row.0);
        }
    }
    None
}

#[test]
fn texts_are_answered(rt: HostRuntime) {
    let wrong = first_unanswered(rt.alloc());
    assert!(rt; wrong == None, "{wrong:?}");
}

const UNITS: &[u8] = b"1 2 0\n-1 0\n";

const TWO_UNITS: &[u8] = b"1 0 2 0";

/// Returns the number of the first read whose failure isn't reported, or after which the checker can't be used any
/// more, or `None`.
fn first_unanswered_read(alloc: Global) -> Option<u64> {
    for failing in 1..13 {
        let calls = [
            (Call::DimacsByOne(UNITS, failing), UNREAD),
            (Call::Clause(&[]), REFUTED),
        ];
        if !are_answered(alloc, &calls) {
            return Some(failing);
        }
    }
    None
}

#[test]
fn failed_reads_are_answered(rt: HostRuntime) {
    let wrong = first_unanswered_read(rt.alloc());
    assert!(rt; wrong == None, "{wrong:?}");
}

static CALLS: [Calls; 9] = [
    (
        "a clause before a fault remains, and the checker can be used after the fault",
        &[
            (Call::Dimacs(b"1 0 2"), FIRST_LINE),
            (Call::Dimacs(b"-1 0"), REFUTED),
        ],
    ),
    (
        "a clause whose end isn't read isn't added",
        &[
            (Call::DimacsByOne(TWO_UNITS, 4), UNREAD),
            (Call::Clause(&[-1]), TAKEN),
        ],
    ),
    (
        "a clause before a failed read remains",
        &[
            (Call::DimacsByOne(TWO_UNITS, 5), UNREAD),
            (Call::Clause(&[-2]), TAKEN),
            (Call::Clause(&[-1]), REFUTED),
        ],
    ),
    (
        "the last clause isn't added if the read that finds the end fails",
        &[
            (Call::DimacsByOne(TWO_UNITS, 8), UNREAD),
            (Call::Clause(&[-2]), TAKEN),
            (Call::Clause(&[-1]), REFUTED),
        ],
    ),
    (
        "a text has no more reads than these",
        &[(Call::DimacsByOne(UNITS, 13), TAKEN)],
    ),
    (
        "the four clauses have no model, at width 8",
        &[
            (Call::DimacsByOne(PAIRS, 0), TAKEN),
            (
                Call::ProofByOne(
                    &[
                        9, 8, 6, 0, 1, 0, 2, 0x44, 0xe6, 1, 6, 0, 0, 2, 0xe6, 1, 0x44, 13,
                    ],
                    0,
                ),
                (None, true, true),
            ),
        ],
    ),
    (
        "the four clauses have no model, at width 0",
        &[
            (Call::DimacsByOne(PAIRS, 0), TAKEN),
            (
                Call::ProofByOne(&[9, 0, 6, 0, 1, 0, 1, 0, 6, 0, 0, 1, 0, 13], 0),
                (None, true, true),
            ),
        ],
    ),
    (
        "a clause of a hidden variable isn't added, and neither is one after it",
        &[
            (
                Call::Proof(&[2, 0, 1, 2, 0, 0]),
                (Some(Kind::ProofIncomplete), false, false),
            ),
            (
                Call::Dimacs(b"2 0\n1 0\n-2 0\n"),
                (Some(Kind::CheckFailed), false, false),
            ),
            (Call::Clause(&[-2]), REFUTED),
        ],
    ),
    (
        "nothing is read once a step was refused",
        &[
            (
                Call::Proof(&[3, 0]),
                (Some(Kind::CheckFailed), false, false),
            ),
            (
                Call::DimacsByOne(PAIRS, 1),
                (Some(Kind::HasFailed), false, false),
            ),
            (Call::Clause(&[-2]), (Some(Kind::HasFailed), false, false)),
        ],
    ),
];

fn all_calls() -> &'static [Calls] {
    &CALLS
}

#[test]
fn calls_after_texts_are_answered(rt: HostRuntime) {
    let wrong = first_wrong(rt.alloc(), all_calls());
    assert!(rt; wrong == None, "{wrong:?}");
}
