//! Tests with twenty clauses of three of five names, and with pigeons, in searches that restart and reduce after each
//! round, or never.

use crate::blind::reductions;
use crate::calls::{Call, Kind, Part, SAME};
use crate::driver::is_accepted;
use crate::scripts::text_of;
use sat_solver::{ProofFormat, SolverConfigUpdate};
use std::alloc::Global;

/// All clauses of three of five names, with both signs; the positive ones also contain a sixth name.
const TWENTY: &[&[i64]] = &[
    &[1, 2, 3, 6],
    &[-1, -2, -3],
    &[1, 2, 4, 6],
    &[-1, -2, -4],
    &[1, 2, 5, 6],
    &[-1, -2, -5],
    &[1, 3, 4, 6],
    &[-1, -3, -4],
    &[1, 3, 5, 6],
    &[-1, -3, -5],
    &[1, 4, 5, 6],
    &[-1, -4, -5],
    &[2, 3, 4, 6],
    &[-2, -3, -4],
    &[2, 3, 5, 6],
    &[-2, -3, -5],
    &[2, 4, 5, 6],
    &[-2, -4, -5],
    &[3, 4, 5, 6],
    &[-3, -4, -5],
];

const HURRIED: SolverConfigUpdate = SolverConfigUpdate {
    luby_restart_interval_scale: Some(1),
    reduce_locals_interval: Some(1),
    reduce_mids_interval: Some(1),
    ..SAME
};

const SLOW: SolverConfigUpdate = SolverConfigUpdate {
    luby_restart_interval_scale: Some(u64::MAX),
    ..SAME
};

/// A search that is checked while it runs, and restarts and reduces after each round.
const FAST: &[Part<'static>] = &[(Kind::Right, &[Call::Check, Call::Set(HURRIED)])];

/// A search that is checked while it runs, and never restarts.
const STEADY: &[Part<'static>] = &[(Kind::Right, &[Call::Check, Call::Set(SLOW)])];

/// Three asks. In the last one, name 6 is false.
const FALSE_AT_LAST: &[Part<'static>] = &[(
    Kind::Right,
    &[
        Call::Formula(TWENTY),
        Call::Unsat(&[-6], &[-6]),
        Call::Solve(true),
        Call::Clause(&[-6]),
        Call::Unsat(&[], &[]),
    ],
)];

/// Name 6 is true, and is hidden before it is introduced again for another variable.
const HIDDEN_AT_LAST: &[Part<'static>] = &[(
    Kind::Right,
    &[
        Call::Formula(TWENTY),
        Call::Unsat(&[-6], &[-6]),
        Call::Solve(true),
        Call::Clause(&[6]),
        Call::Hide(6),
        Call::Clause(&[-6]),
        Call::Solve(true),
    ],
)];

/// The clauses that put five pigeons into four holes.
const PIGEONS: &[u8] =
    b"1 2 3 4 0 5 6 7 8 0 9 10 11 12 0 13 14 15 16 0 17 18 19 20 0 -1 -5 0 -1 -9 0 -1 -13 0 -1 -17 0 -5 -9 0
-5 -13 0 -5 -17 0 -9 -13 0 -9 -17 0 -13 -17 0 -2 -6 0 -2 -10 0 -2 -14 0 -2 -18 0 -6 -10 0 -6 -14 0 -6 -18 0
-10 -14 0 -10 -18 0 -14 -18 0 -3 -7 0 -3 -11 0 -3 -15 0 -3 -19 0 -7 -11 0 -7 -15 0 -7 -19 0 -11 -15 0
-11 -19 0 -15 -19 0 -4 -8 0 -4 -12 0 -4 -16 0 -4 -20 0 -8 -12 0 -8 -16 0 -8 -20 0 -12 -16 0 -12 -20 0
-16 -20 0
";

const OFTEN: &[Part<'static>] = &[(
    Kind::Right,
    &[
        Call::Text(PIGEONS),
        Call::Solve(false),
        Call::Restarts(8, u64::MAX),
    ],
)];

const ONCE: &[Part<'static>] = &[(
    Kind::Right,
    &[
        Call::Text(PIGEONS),
        Call::Solve(false),
        Call::Restarts(1, 1),
    ],
)];

/// The calls that configure the search, and the calls of the session.
type Row = (&'static [Part<'static>], &'static [Part<'static>]);

const ROWS: &[Row] = &[
    (FAST, FALSE_AT_LAST),
    (FAST, HIDDEN_AT_LAST),
    (STEADY, FALSE_AT_LAST),
    (STEADY, HIDDEN_AT_LAST),
    (&[], FALSE_AT_LAST),
    (&[], HIDDEN_AT_LAST),
];

/// Returns the number of clauses that the proof of a session deletes as redundant, or `None` if a call doesn't have the
/// expected result, or the proof isn't accepted, even with all hashes 0.
fn deletions(alloc: Global, (front, parts): Row) -> Option<u64> {
    match text_of(alloc, ProofFormat::Varisat, front, parts) {
        Some(text) => if is_accepted(alloc, &text) {
            reductions(alloc, &text)
        } else {
            None
        },
        None => None,
    }
}

fn rows() -> &'static [Row] {
    ROWS
}

#[test]
fn twenty_clauses_are_solved(rt: HostRuntime) {
    for row in rows() {
        assert!(rt; deletions(rt.alloc(), *row).is_some());
    }
}

/// Returns `true` if a search that reduces after each round deletes more clauses than one that doesn't.
fn reduces(alloc: Global) -> bool {
    match (
        deletions(alloc, (FAST, OFTEN)),
        deletions(alloc, (STEADY, ONCE)),
    ) {
        (Some(fast), Some(steady)) => fast > steady,
        (Some(_), None) => false,
        (None, _) => false,
    }
}

#[test]
fn a_search_restarts_and_reduces(rt: HostRuntime) {
    assert!(rt; reduces(rt.alloc()));
}
