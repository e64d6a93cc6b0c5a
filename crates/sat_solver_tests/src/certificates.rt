//! Tests of the bytes and lines of proofs.

use crate::calls::{Call, Kind, Part};
use crate::scripts::text_of;
use sat_base::{DeleteClauseProof, ProofStep, Var};
use sat_solver::ProofFormat;
use sat_solver::inner::put_step;
use std::alloc::Global;

const TWO_BY_TWO: &[&[i64]] = &[&[1, 2], &[1, -2], &[-1, 2], &[-1, -2]];

const NOTHING: &[Part<'static>] = &[(Kind::Right, &[Call::Sat(&[], &[])])];

const ONE_NAME: &[Part<'static>] = &[(
    Kind::Right,
    &[Call::Clause(&[3]), Call::Sat(&[], &[-1, -2, 3])],
)];

const ONE_CLAUSE: &[Part<'static>] = &[(
    Kind::Right,
    &[Call::Clause(&[1, 2]), Call::Sat(&[], &[-1, 2])],
)];

const REFUTED: &[Part<'static>] = &[(
    Kind::Right,
    &[Call::Formula(TWO_BY_TWO), Call::Unsat(&[], &[])],
)];

/// The name below it is introduced, and the hidden one is deleted.
const HIDDEN: &[Part<'static>] = &[(Kind::Right, &[Call::Hide(2), Call::Sat(&[], &[-1])])];

/// DRAT has no assumptions, and no clauses after the first ask.
const LINES: &[Part<'static>] = &[
    (Kind::NotInDrat, &[Call::Assume(&[])]),
    (
        Kind::Right,
        &[Call::Formula(TWO_BY_TWO), Call::Solve(false)],
    ),
    (
        Kind::NotInDrat,
        &[
            Call::Clause(&[1]),
            Call::Formula(&[&[1]]),
            Call::Text(b"1 0"),
            Call::Assume(&[1]),
        ],
    ),
    (Kind::Right, &[Call::Solve(false)]),
];

const UNIT: &[Part<'static>] = &[(Kind::Right, &[Call::Clause(&[1]), Call::Solve(true)])];

/// A unit satisfies two clauses of two literals: the clause of the lower literal is removed first, though it was
/// added later.
const PAIRS: &[Part<'static>] = &[(
    Kind::Right,
    &[
        Call::Clause(&[1, 2]),
        Call::Clause(&[3, 4]),
        Call::Clause(&[1, 3]),
        Call::Clause(&[3]),
        Call::Sat(&[], &[-1, 2, 3, -4]),
    ],
)];

/// Repeated assumptions are written repeatedly, but a core has no repeated literals.
const REPEATED: &[Part<'static>] = &[(
    Kind::Right,
    &[Call::Clause(&[-1]), Call::Unsat(&[1, 1], &[1])],
)];

/// Calls, the format of their proof, and its text.
type Row = (&'static [Part<'static>], ProofFormat, &'static [u8]);

/// Hashes are cut to six bits if there are few clauses, and to eight bits if there are four.
const ROWS: &[Row] = &[
    (
        NOTHING,
        ProofFormat::Varisat,
        &[11, 0, 9, 6, 10, 0, 11, 0, 13],
    ),
    (
        ONE_NAME,
        ProofFormat::Varisat,
        &[
            2, 0, 1, 2, 1, 2, 2, 2, 3, 1, 2, 1, 5, 1, 4, 11, 0, 9, 6, 1, 2, 0, 10, 3, 1, 3, 4, 11,
            0, 13,
        ],
    ),
    (
        ONE_CLAUSE,
        ProofFormat::Varisat,
        &[
            2, 0, 1, 1, 0, 1, 2, 1, 2, 1, 1, 2, 5, 2, 0, 2, 11, 0, 9, 6, 10, 2, 1, 2, 11, 0, 13,
        ],
    ),
    (
        REFUTED,
        ProofFormat::Varisat,
        &[
            2, 0, 1, 1, 0, 1, 2, 1, 2, 1, 1, 2, 5, 2, 0, 2, 5, 2, 0, 3, 5, 2, 1, 2, 5, 2, 1, 3, 11,
            0, 9, 8, 6, 0, 1, 0, 2, 0x44, 0xe6, 1, 7, 1, 2, 0xe6, 1, 6, 0, 0, 1, 0x44, 11, 0, 13,
        ],
    ),
    (
        HIDDEN,
        ProofFormat::Varisat,
        &[
            2, 0, 1, 2, 1, 2, 2, 1, 0, 3, 1, 11, 0, 9, 6, 10, 1, 1, 11, 0, 13,
        ],
    ),
    (
        PAIRS,
        ProofFormat::Varisat,
        &[
            2, 0, 1, 1, 0, 1, 2, 1, 2, 1, 1, 2, 5, 2, 0, 2, 2, 2, 3, 1, 2, 3, 2, 3, 4, 1, 3, 4, 5,
            2, 4, 6, 5, 2, 0, 4, 5, 1, 4, 11, 0, 9, 6, 8, 2, 0, 4, 2, 8, 2, 4, 6, 2, 1, 2, 0, 1, 3,
            0, 10, 4, 1, 2, 4, 7, 11, 0, 13,
        ],
    ),
    (
        REPEATED,
        ProofFormat::Varisat,
        &[
            2, 0, 1, 1, 0, 1, 5, 1, 1, 11, 2, 0, 0, 9, 6, 12, 1, 0, 0, 11, 0, 13,
        ],
    ),
    (LINES, ProofFormat::Drat, b"1 0\n2 0\n0\n"),
    (
        LINES,
        ProofFormat::BinaryDrat,
        &[0x61, 2, 0, 0x61, 4, 0, 0x61, 0],
    ),
    (UNIT, ProofFormat::Drat, b""),
];

/// Returns `true` if each call has the expected result, and `text` is the text of the proof.
fn is_right(alloc: Global, (parts, format, text): Row) -> bool {
    match text_of(alloc, format, &[], parts) {
        Some(wrote) => wrote.as_slice() == text,
        None => false,
    }
}

fn rows() -> &'static [Row] {
    ROWS
}

#[test]
fn proofs_are_written_in_each_format(rt: HostRuntime) {
    for row in rows() {
        assert!(rt; is_right(rt.alloc(), *row));
    }
}

/// Returns `true` if `wanted` is written for a deletion.
fn is_deletion(alloc: Global, binary: bool, wanted: &[u8]) -> bool {
    let lits = [
        Var::from_index(62).positive(),
        Var::from_index(63).negative(),
    ];
    let step = ProofStep::DeleteClause {
        clause: &lits,
        proof: DeleteClauseProof::Redundant,
    };
    let mut text = Vec::new(alloc);
    put_step(&mut text, binary, &step).is_ok() && text.as_slice() == wanted
}

#[test]
fn deletions_have_lines(rt: HostRuntime) {
    assert!(rt; is_deletion(rt.alloc(), false, b"d 63 -64 0\n"));
    assert!(rt; is_deletion(rt.alloc(), true, &[0x64, 0x7e, 0x81, 1, 0]));
}
