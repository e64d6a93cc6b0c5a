//! Tests of complete proofs, and of calls before and after proofs.

use crate::calls::{
    Answer, Answered, Call, Calls, Clauses, END, answers, are_answered, first_wrong,
};
use crate::kinds::Kind;
use sat_checker::{Checker, Looks};
use std::alloc::Global;

/// Returns `true` if `text` has the result `answer` as a proof, and an end after it has the result `following`. The
/// text is read in one chunk and in chunks of one byte.
pub(crate) fn is_answered(
    alloc: Global,
    text: &'static [u8],
    answer: Answer,
    following: Answer,
) -> bool {
    let end = (Call::Proof(END), following);
    are_answered(alloc, &[(Call::Proof(text), answer), end])
        && are_answered(alloc, &[(Call::ProofByOne(text, 0), answer), end])
}

const INCOMPLETE: Answer = (Some(Kind::ProofIncomplete), false, false);

const UNREAD: Answer = (Some(Kind::ParseError), false, false);

const ENDED: Answer = (None, false, true);

/// Texts that aren't proofs, and texts that continue after an end.
static TEXTS: [(&[u8], Answer); 10] = [
    (&[], INCOMPLETE),
    (&[5, 1, 0], INCOMPLETE),
    (&[5, 2, 0], INCOMPLETE),
    (&[5, 1, 0, 5], INCOMPLETE),
    (&[14], UNREAD),
    (&[0], UNREAD),
    (&[5, 0x82, 0, 0], UNREAD),
    (&[9, 65], UNREAD),
    (&[13, 0], ENDED),
    (&[5, 1, 0, 13, 5, 1, 1], ENDED),
];

fn texts() -> &'static [(&'static [u8], Answer)] {
    &TEXTS
}

/// Returns the first text that has another result, or after which an end is not accepted, or `None`.
fn first_unanswered(alloc: Global) -> Option<&'static [u8]> {
    for row in texts() {
        if !is_answered(alloc, row.0, row.1, ENDED) {
            return Some(row.0);
        }
    }
    None
}

#[test]
fn texts_are_answered(rt: HostRuntime) {
    let wrong = first_unanswered(rt.alloc());
    assert!(rt; wrong == None, "{wrong:?}");
}

/// A hidden variable is given a name again, and unsat is recorded.
const NAMED_AGAIN: &[u8] = &[
    0x02, 0x00, 0x01, 0x05, 0x01, 0x00, 0x02, 0x00, 0x00, 0x04, 0x00, 0x01, 0x02, 0x00, 0x01, 0x05,
    0x01, 0x01, 0x0d,
];

/// Returns the number of the first read whose failure isn't reported, or after which the checker can't be used any
/// more, or `None`. Unsat is recorded before the last read.
fn first_unanswered_read(alloc: Global) -> Option<u64> {
    for failing in 1..20 {
        let unsat = failing == 19;
        let calls = [
            (
                Call::ProofByOne(NAMED_AGAIN, failing),
                (Some(Kind::IoError), unsat, false),
            ),
            (Call::Proof(END), (None, unsat, true)),
        ];
        if !are_answered(alloc, &calls) {
            return Some(failing);
        }
    }
    None
}

#[test]
fn failed_reads_are_answered(rt: HostRuntime) {
    let wrong = first_unanswered_read(rt.alloc());
    assert!(rt; wrong == None, "{wrong:?}");
}

/// All four clauses over two variables.
pub(crate) const PAIRS: Clauses = &[&[1, 2], &[1, -2], &[-1, 2], &[-1, -2]];

const TAKEN: Answer = (None, false, false);

const REFUTED: Answer = (None, true, false);

const REFUTED_AND_ENDED: Answer = (None, true, true);

const REFUSED: Answer = (Some(Kind::CheckFailed), false, false);

const HAS_FAILED: Answer = (Some(Kind::HasFailed), false, false);

/// A clause that does not follow.
const UNFOUNDED: &[u8] = &[6, 0, 1, 4, 0, 13];

static CALLS: [Calls; 6] = [
    (
        "a proof has no more reads than these",
        &[
            (Call::ProofByOne(NAMED_AGAIN, 20), REFUTED_AND_ENDED),
            (Call::Proof(END), REFUTED_AND_ENDED),
        ],
    ),
    (
        "a unit conflict is settled at the end, and a proof follows",
        &[
            (Call::Proof(&[5, 1, 0, 5, 1, 1, 13]), REFUTED_AND_ENDED),
            (Call::Proof(&[5, 1, 2, 13]), REFUTED_AND_ENDED),
        ],
    ),
    (
        "a clause of a hidden variable isn't added, and neither is one after it",
        &[
            (Call::Proof(&[2, 0, 1, 2, 0, 0]), INCOMPLETE),
            (Call::Formula(&[&[2], &[1], &[-2]]), REFUSED),
            (Call::Clause(&[-2]), REFUTED),
        ],
    ),
    (
        "the four clauses have no model, at width 8",
        &[
            (Call::Formula(PAIRS), TAKEN),
            (
                Call::Proof(&[
                    9, 8, 6, 0, 1, 0, 2, 0x44, 0xe6, 1, 6, 0, 0, 2, 0xe6, 1, 0x44, 13,
                ]),
                REFUTED_AND_ENDED,
            ),
        ],
    ),
    (
        "the same clause is taken twice, and one that doesn't follow is the last step",
        &[
            (Call::Clause(&[1, 2]), TAKEN),
            (Call::Clause(&[2, 1, 1]), TAKEN),
            (Call::Proof(UNFOUNDED), REFUSED),
            (Call::Proof(UNFOUNDED), HAS_FAILED),
            (Call::Clause(&[1]), HAS_FAILED),
        ],
    ),
    ("the four clauses have no model, at width 0", REFUTATION),
];

const REFUTATION: &[Answered] = &[
    (Call::Formula(PAIRS), TAKEN),
    (
        Call::Proof(&[9, 0, 6, 0, 1, 0, 1, 0, 6, 0, 0, 1, 0, 13]),
        REFUTED_AND_ENDED,
    ),
];

fn all_calls() -> &'static [Calls] {
    &CALLS
}

#[test]
fn calls_around_proofs_are_answered(rt: HostRuntime) {
    let wrong = first_wrong(rt.alloc(), all_calls());
    assert!(rt; wrong == None, "{wrong:?}");
}

/// Returns `true` if adding the looks of a checker twice gives twice their number, which isn't 0.
fn add_up(checker: &Checker) -> bool {
    let mut looks = Looks::new();
    looks.add(checker);
    looks.add(checker);
    looks.get() == 2 * checker.looks().min(1000) && looks.get() > 0
}

fn looks_of_refutation_add_up(alloc: Global) -> bool {
    let mut checker = Checker::new(alloc);
    let right = answers(alloc, &mut checker, REFUTATION) && add_up(&checker);
    drop(checker);
    right
}

#[test]
fn looks_add_up(rt: HostRuntime) {
    assert!(rt; looks_of_refutation_add_up(rt.alloc()));
}
