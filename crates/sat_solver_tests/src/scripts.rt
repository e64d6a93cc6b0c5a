//! Tests of scripts of clauses, names and asks, as calls of a solver whose proof is checked.

use crate::blind::reductions;
use crate::calls::{Call, CallParts, Kind, Part, SAME};
use crate::driver::{is_accepted, written};
use sat_solver::{ProofFormat, SolverConfigUpdate};
use std::alloc::Global;

/// Returns the proof of a session, or `None` if a call doesn't have the expected result.
pub(crate) fn text_of(
    alloc: Global,
    format: ProofFormat,
    front: &[Part<'_>],
    parts: &[Part<'_>],
) -> Option<Vec<u8>> {
    match written(alloc, format, CallParts { front, parts }) {
        Some((kind, text)) => if kind == Kind::Right {
            Some(text)
        } else {
            None
        },
        None => None,
    }
}

const CHECKED: &[Part<'static>] = &[(Kind::Right, &[Call::Check])];

/// Returns `true` if each call has the expected result, the proof is accepted, even with all hashes 0, and the proof is
/// the same if the solver has its own checker.
fn is_right(alloc: Global, parts: &[Part<'_>]) -> bool {
    let text = text_of(alloc, ProofFormat::Varisat, &[], parts);
    let checked = text_of(alloc, ProofFormat::Varisat, CHECKED, parts);
    match (text, checked) {
        (Some(text), Some(checked)) => {
            is_accepted(alloc, &text)
                && reductions(alloc, &text).is_some()
                && checked.as_slice() == text.as_slice()
        }
        (Some(_), None) => false,
        (None, _) => false,
    }
}

/// Returns the index of the first session that isn't right, or `None`.
pub(crate) fn first_wrong(alloc: Global, sessions: &[&[Part<'_>]]) -> Option<usize> {
    for at in 0..sessions.len() {
        if !is_right(alloc, sessions[at]) {
            return Some(at);
        }
    }
    None
}

const NOTHING: &[Part<'static>] = &[(Kind::Right, &[Call::Sat(&[], &[])])];

const ONE_NAME: &[Part<'static>] = &[(
    Kind::Right,
    &[Call::Clause(&[3]), Call::Sat(&[], &[-1, -2, 3])],
)];

const ONE_CLAUSE: &[Part<'static>] = &[(
    Kind::Right,
    &[Call::Clause(&[1, 2]), Call::Sat(&[], &[-1, 2])],
)];

const TWO_UNITS: &[Part<'static>] = &[(
    Kind::Right,
    &[
        Call::Clause(&[1]),
        Call::Clause(&[-1]),
        Call::Unsat(&[], &[]),
    ],
)];

const EMPTY_CLAUSE: &[Part<'static>] = &[(
    Kind::Right,
    &[Call::Clause(&[]), Call::Unsat(&[4], &[])],
)];

const TWO_ASSUMED: &[Part<'static>] = &[(
    Kind::Right,
    &[
        Call::Clause(&[-1, -2]),
        Call::Unsat(&[1, 2], &[2, 1]),
        // The first variable is decided with its last value.

        Call::Sat(&[], &[1, -2]),
    ],
)];

const BOTH_SIGNS: &[Part<'static>] = &[(Kind::Right, &[Call::Unsat(&[1, -1], &[-1, 1])])];

const REPEATED_ASSUMED: &[Part<'static>] = &[(
    Kind::Right,
    &[
        Call::Clause(&[-1, -2]),
        Call::Unsat(&[1, 2, 1], &[2, 1]),
        Call::Unsat(&[1, 1, 2], &[2, 1]),
        Call::Sat(&[1, 1], &[1, -2]),
    ],
)];

const UNIT_ASKED: &[Part<'static>] = &[(
    Kind::Right,
    &[
        Call::Clause(&[1]),
        Call::Unsat(&[-1], &[-1]),
        Call::Sat(&[], &[1]),
    ],
)];

const ASKS_BETWEEN: &[Part<'static>] = &[(
    Kind::Right,
    &[
        Call::Clause(&[1]),
        Call::Unsat(&[-1], &[-1]),
        Call::Clause(&[2]),
        Call::Sat(&[], &[1, 2]),
        Call::Clause(&[-3, -4]),
        Call::Unsat(&[3, 4], &[4, 3]),
    ],
)];

const FOUR_CLAUSES: &[Part<'static>] = &[(
    Kind::Right,
    &[
        Call::Clause(&[1, 2]),
        Call::Clause(&[1, -2]),
        Call::Clause(&[-1, 2]),
        Call::Clause(&[-1, -2]),
        Call::Unsat(&[], &[]),
    ],
)];

const TAUTOLOGY: &[Part<'static>] = &[(
    Kind::Right,
    &[Call::Clause(&[1, -1]), Call::Sat(&[], &[-1])],
)];

const CHAIN: &[Part<'static>] = &[(
    Kind::Right,
    &[
        Call::Clause(&[1, 2, 3]),
        Call::Clause(&[-1]),
        Call::Clause(&[1, -2]),
        Call::Clause(&[2, -3]),
        Call::Unsat(&[], &[]),
    ],
)];

const FALSE_CLAUSE: &[Part<'static>] = &[(
    Kind::Right,
    &[
        Call::Clause(&[1]),
        Call::Clause(&[2]),
        Call::Clause(&[-1, -2]),
        Call::Unsat(&[], &[]),
    ],
)];

const SATISFIED_AT_ONCE: &[Part<'static>] = &[(
    Kind::Right,
    &[
        Call::Clause(&[1]),
        Call::Clause(&[1, 2]),
        Call::Sat(&[], &[1, -2]),
        Call::Unsat(&[2, -1], &[-1]),
    ],
)];

/// A unit falsifies a literal of a long clause, which is dropped: two literals are left.
const CUT_TO_TWO: &[Part<'static>] = &[(
    Kind::Right,
    &[
        Call::Clause(&[1, 2, 3]),
        Call::Clause(&[-3]),
        Call::Sat(&[], &[-1, 2, -3]),
        Call::Unsat(&[-1, -2], &[-2, -1]),
    ],
)];

/// Three literals are left, and then two.
const CUT_TWICE: &[Part<'static>] = &[(
    Kind::Right,
    &[
        Call::Clause(&[1, 2, 3, 4]),
        Call::Clause(&[-1]),
        Call::Sat(&[], &[-1, -2, -3, 4]),
        Call::Clause(&[-2]),
        Call::Sat(&[-4], &[-1, -2, 3, -4]),
        Call::Unsat(&[-3, -4], &[-4, -3]),
    ],
)];

/// A unit satisfies clauses of two and of three literals.
const MADE_TRUE: &[Part<'static>] = &[(
    Kind::Right,
    &[
        Call::Clause(&[1, 2]),
        Call::Clause(&[1, 3, 4]),
        Call::Clause(&[-1, 5, 6]),
        Call::Clause(&[1]),
        Call::Sat(&[], &[1, -2, -3, -4, -5, 6]),
        Call::Sat(&[-2, -3], &[1, -2, -3, -4, -5, 6]),
    ],
)];

/// A variable's index is given to another variable, whose unit is treated as a literal of level 0.
const INDEX_AGAIN: &[Part<'static>] = &[(
    Kind::Right,
    &[
        Call::Clause(&[1, 2]),
        Call::Sat(&[], &[-1, 2]),
        Call::Clause(&[2]),
        Call::Sat(&[], &[-1, 2]),
        Call::Unsat(&[-2], &[-2]),
    ],
)];

/// The unit is in the search again once a clause is added that contains its negation.
const UNIT_AGAIN: &[Part<'static>] = &[(
    Kind::Right,
    &[
        Call::Clause(&[1, 2]),
        Call::Sat(&[], &[-1, 2]),
        Call::Clause(&[2]),
        Call::Sat(&[], &[-1, 2]),
        Call::Clause(&[-2, 3]),
        Call::Sat(&[], &[-1, 2, 3]),
    ],
)];

/// A hidden variable that no clause contains any more is deleted, and its name is given to another variable.
const HIDDEN_DELETED: &[Part<'static>] = &[(
    Kind::Right,
    &[
        Call::Clause(&[1, 2]),
        Call::Hide(1),
        Call::Clause(&[2]),
        Call::Sat(&[], &[2]),
        Call::Clause(&[1, 3]),
        Call::Sat(&[], &[-1, 2, 3]),
    ],
)];

/// A hidden variable with a value is deleted with its unit.
const HIDDEN_UNIT: &[Part<'static>] = &[(
    Kind::Right,
    &[
        Call::Clause(&[1, 2]),
        Call::Hide(1),
        Call::Clause(&[-2]),
        Call::Sat(&[], &[-2]),
        Call::Clause(&[-1]),
        Call::Sat(&[], &[-1, -2]),
    ],
)];

/// A variable that is assumed keeps its index.
const INDEX_KEPT: &[Part<'static>] = &[(
    Kind::Right,
    &[
        Call::Clause(&[1]),
        Call::Sat(&[], &[1]),
        Call::Unsat(&[-1, 2], &[-1]),
        Call::Sat(&[2], &[1, 2]),
    ],
)];

/// A variable that no clause contains any more is false, whatever its value was.
const VALUE_FORGOTTEN: &[Part<'static>] = &[(
    Kind::Right,
    &[
        Call::Clause(&[1, 2]),
        Call::Sat(&[], &[-1, 2]),
        Call::Clause(&[1]),
        Call::Sat(&[], &[1, -2]),
    ],
)];

/// An ask ends when its rounds are exhausted, and a later ask continues.
const SPENT: &[Part<'static>] = &[
    (
        Kind::Right,
        &[
            Call::Clause(&[1, 2]),
            Call::Clause(&[1, -2]),
            Call::Clause(&[-1, 2]),
            Call::Clause(&[-1, -2]),
            Call::Allow(1),
        ],
    ),
    (Kind::Interrupted, &[Call::Solve(false)]),
    (
        Kind::Right,
        &[
            Call::Steps(1),
            Call::Allow(u64::MAX),
            Call::Solve(false),
            Call::Steps(2),
        ],
    ),
];

const NONE_ALLOWED: &[Part<'static>] = &[
    (Kind::Right, &[Call::Allow(0)]),
    (Kind::Interrupted, &[Call::Solve(true)]),
    (Kind::Right, &[Call::Steps(0)]),
    (Kind::Interrupted, &[Call::Solve(true)]),
    (Kind::Right, &[Call::Steps(0)]),
];

/// Once a model is known, an ask takes no round.
const KNOWN: &[Part<'static>] = &[(
    Kind::Right,
    &[
        Call::Clause(&[1, 2]),
        Call::Allow(8),
        Call::Solve(true),
        Call::Steps(1),
        Call::Allow(0),
        Call::Solve(true),
        Call::Steps(1),
    ],
)];

const NO_ROUNDS: SolverConfigUpdate = SolverConfigUpdate {
    max_steps: Some(0),
    ..SAME
};

/// Parameters out of their ranges are refused, together with one in its range, and nothing changes.
const OUT_OF_RANGE: &[Part<'static>] = &[
    (
        Kind::OutOfRange,
        &[
            Call::Set(SolverConfigUpdate {
                vsids_decay: Some(499),
                ..NO_ROUNDS
            }),
            Call::Set(SolverConfigUpdate {
                vsids_decay: Some(1000),
                ..NO_ROUNDS
            }),
            Call::Set(SolverConfigUpdate {
                luby_restart_interval_scale: Some(0),
                ..NO_ROUNDS
            }),
        ],
    ),
    (Kind::Right, &[Call::Solve(true)]),
];

const SCRIPTS: &[&[Part<'static>]] = &[
    NOTHING,
    ONE_NAME,
    ONE_CLAUSE,
    TWO_UNITS,
    EMPTY_CLAUSE,
    TWO_ASSUMED,
    BOTH_SIGNS,
    REPEATED_ASSUMED,
    UNIT_ASKED,
    ASKS_BETWEEN,
    FOUR_CLAUSES,
    TAUTOLOGY,
    CHAIN,
    FALSE_CLAUSE,
    SATISFIED_AT_ONCE,
    CUT_TO_TWO,
    CUT_TWICE,
    MADE_TRUE,
    INDEX_AGAIN,
    UNIT_AGAIN,
    HIDDEN_DELETED,
    HIDDEN_UNIT,
    INDEX_KEPT,
    VALUE_FORGOTTEN,
    SPENT,
    NONE_ALLOWED,
    KNOWN,
    OUT_OF_RANGE,
];

fn scripts() -> &'static [&'static [Part<'static>]] {
    SCRIPTS
}

#[test]
fn scripts_are_answered(rt: HostRuntime) {
    let wrong = first_wrong(rt.alloc(), scripts());
    assert!(rt; wrong == None, "{wrong:?}");
}
