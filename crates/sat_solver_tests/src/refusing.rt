//! Tests of calls that are refused at each position of a session: they change neither the session's results nor
//! its proof.

use crate::calls::{Call, Kind, Part};
use crate::scripts::text_of;
use sat_solver::{ProofFormat, SolverConfigUpdate};
use std::alloc::Global;

/// A session, and the formats of its proof.
type CallsInFormats = (&'static [Call], &'static [ProofFormat]);

/// Names are introduced, hidden and introduced again; a witness; asks under assumptions; a unit that is
/// found; learning.
const NAMES: CallsInFormats = (
    &[
        Call::Witness(9),
        Call::Clause(&[1, 2, 3]),
        Call::Clause(&[-2, 3]),
        Call::Assume(&[3, -1]),
        Call::Solve(true),
        Call::Hide(2),
        Call::Clause(&[2, -3]),
        Call::Solve(true),
        Call::Assume(&[-3, 1]),
        Call::Solve(true),
        Call::Clause(&[4, 5]),
        Call::Clause(&[4, -5]),
        Call::Clause(&[-4, 5, 6]),
        Call::Assume(&[3]),
        Call::Solve(true),
        Call::New(10),
        Call::Observe(&[11]),
        Call::Assume(&[-4, 3]),
        Call::Solve(false),
        Call::Core(&[-4]),
        Call::Sample(1),
        Call::Clause(&[-4, -5]),
        Call::Assume(&[3]),
        Call::Solve(true),
        Call::Clause(&[-6]),
        Call::Solve(false),
        Call::Core(&[]),
    ],
    &[ProofFormat::Varisat],
);

/// Asks without assumptions, whose proofs are in the DRAT formats.
const LINES: CallsInFormats = (
    &[
        Call::Clause(&[1, 2]),
        Call::Clause(&[1, -2]),
        Call::Clause(&[-1, 2]),
        Call::Witness(9),
        Call::Clause(&[-1, -2, 4]),
        Call::Solve(true),
        Call::Hide(2),
        Call::Solve(true),
    ],
    &[ProofFormat::Drat, ProofFormat::BinaryDrat],
);

const LAST: i64 = 1 << 28;

/// A parameter out of its range, and one within its range.
const OUT_OF_RANGE: SolverConfigUpdate = SolverConfigUpdate {
    vsids_decay: Some(499),
    clause_activity_decay: None,
    reduce_locals_interval: None,
    reduce_mids_interval: None,
    luby_restart_interval_scale: None,
    max_steps: Some(0),
};

/// A session, the kind of the refusals, the calls that are refused, and the first and the last position at which they
/// are made.
type Row = (CallsInFormats, Kind, &'static [Call], usize, usize);

const ROWS: &[Row] = &[
    (
        NAMES,
        Kind::Witness,
        &[
            Call::Clause(&[-1, 11, 9]),
            Call::Assume(&[12, -9, 2]),
            Call::Text(b"-9 13 0"),
        ],
        1,
        27,
    ),
    (
        NAMES,
        Kind::Assumed,
        &[Call::Hide(3), Call::Witness(3), Call::Sample(3)],
        4,
        27,
    ),
    (
        NAMES,
        Kind::TooLate,
        &[Call::Proof, Call::Check, Call::AddProcessor],
        1,
        27,
    ),
    (NAMES, Kind::Limit, &[Call::Text(b"15 268435457 0")], 0, 27),
    // A hidden variable is kept for its clause and its name belongs to another variable, so there is one variable
    // too few.
    (
        NAMES,
        Kind::Limit,
        &[
            Call::Clause(&[1, LAST]),
            Call::Assume(&[LAST, 2]),
            Call::Hide(LAST),
            Call::Witness(LAST),
            Call::Sample(LAST),
        ],
        7,
        16,
    ),
    (NAMES, Kind::OutOfRange, &[Call::Set(OUT_OF_RANGE)], 0, 27),
    (LINES, Kind::NotInDrat, &[Call::Assume(&[])], 0, 8),
    (
        LINES,
        Kind::NotInDrat,
        &[Call::Clause(&[14, -1]), Call::Text(b"1 0")],
        6,
        8,
    ),
    (LINES, Kind::Witness, &[Call::Clause(&[-1, 11, 9])], 4, 5),
    (
        LINES,
        Kind::TooLate,
        &[Call::Proof, Call::Check, Call::AddProcessor],
        1,
        8,
    ),
    (LINES, Kind::OutOfRange, &[Call::Set(OUT_OF_RANGE)], 0, 8),
];

/// Returns the proof of a session with the refused calls inserted at position `at`, or `None` if a call doesn't have
/// the expected result.
fn text_with(
    alloc: Global,
    calls: &[Call],
    format: ProofFormat,
    (kind, refused): Part<'_>,
    at: usize,
) -> Option<Vec<u8>> {
    let (before, following) = calls.split_at(at.min(calls.len()));
    let parts = [
        (Kind::Right, before),
        (kind, refused),
        (Kind::Right, following),
    ];
    text_of(alloc, format, &[], &parts)
}

/// Returns `true` if refused calls at position `at` change nothing.
fn is_same(
    alloc: Global,
    calls: &[Call],
    format: ProofFormat,
    refused: Part<'_>,
    at: usize,
) -> bool {
    let alone = text_with(alloc, calls, format, (Kind::Right, &[]), at);
    match (text_with(alloc, calls, format, refused, at), alone) {
        (Some(text), Some(alone)) => text.as_slice() == alone.as_slice(),
        (Some(_), None) => false,
        (None, _) => false,
    }
}

/// Returns `true` if the refused calls of a row change nothing at any of its positions.
fn is_right(alloc: Global, row: &Row) -> bool {
    let ((calls, formats), kind, refused, first, last) = *row;
    for format in formats {
        for at in first..=last {
            if !is_same(alloc, calls, *format, (kind, refused), at) {
                return false;
            }
        }
    }
    true
}

fn rows() -> &'static [Row] {
    ROWS
}

#[test]
fn refused_calls_change_nothing(rt: HostRuntime) {
    for row in rows() {
        assert!(rt; is_right(rt.alloc(), row));
    }
}
