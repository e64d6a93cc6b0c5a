//! Tests of what may begin after which call.

use crate::calls::{Call, Kind, Part, SAME, plain};
use crate::driver::result_of;
use std::alloc::Global;

/// The calls that open a proof, start the solver's own checker, or add a processor. Later, they are refused as
/// too late.
const BEGINNINGS: &[Call] = &[Call::Proof, Call::Check, Call::AddProcessor];

/// All of them may begin on a new solver, and on a solver whose proof was closed. While a proof is open, no second
/// proof may begin.
const FIRST: &[Part<'static>] = &[
    (
        Kind::Right,
        &[
            Call::Set(SAME),
            Call::Observe(&[]),
            Call::Close,
            Call::Check,
            Call::AddProcessor,
            Call::Check,
            Call::Proof,
        ],
    ),
    (Kind::TooLate, &[Call::Proof]),
    (
        Kind::Right,
        &[
            Call::Check,
            Call::AddProcessor,
            Call::Close,
            Call::Check,
            Call::AddProcessor,
            Call::Proof,
        ],
    ),
];

const PROOF: &[Part<'static>] = &[
    (
        Kind::Right,
        &[
            Call::Proof,
            Call::AddProcessor,
            Call::Check,
            Call::Solve(true),
        ],
    ),
    (Kind::TooLate, BEGINNINGS),
];

const CLAUSE: &[Part<'static>] = &[
    (Kind::Right, &[Call::Clause(&[1])]),
    (Kind::TooLate, BEGINNINGS),
];

const FORMULA: &[Part<'static>] = &[
    (Kind::Right, &[Call::Formula(&[&[1]])]),
    (Kind::TooLate, BEGINNINGS),
];

const TEXT: &[Part<'static>] = &[
    (Kind::Right, &[Call::Text(b"1 0")]),
    (Kind::TooLate, BEGINNINGS),
];

const NEW: &[Part<'static>] = &[(Kind::Right, &[Call::New(1)]), (Kind::TooLate, BEGINNINGS)];

const HIDDEN: &[Part<'static>] = &[(Kind::Right, &[Call::Hide(3)]), (Kind::TooLate, BEGINNINGS)];

const WITNESS: &[Part<'static>] = &[
    (Kind::Right, &[Call::Witness(3)]),
    (Kind::TooLate, BEGINNINGS),
];

const SAMPLE: &[Part<'static>] = &[
    (Kind::Right, &[Call::Sample(3)]),
    (Kind::TooLate, BEGINNINGS),
];

const ASSUMPTIONS: &[Part<'static>] = &[
    (Kind::Right, &[Call::Assume(&[])]),
    (Kind::TooLate, BEGINNINGS),
];

const ASK: &[Part<'static>] = &[
    (Kind::Right, &[Call::Solve(true)]),
    (Kind::TooLate, BEGINNINGS),
];

const STATES: &[&[Part<'static>]] = &[
    FIRST,
    PROOF,
    CLAUSE,
    FORMULA,
    TEXT,
    NEW,
    HIDDEN,
    WITNESS,
    SAMPLE,
    ASSUMPTIONS,
    ASK,
];

fn is_right(alloc: Global, parts: &[Part<'_>]) -> bool {
    result_of(alloc, plain(parts)) == Kind::Right
}

fn states() -> &'static [&'static [Part<'static>]] {
    STATES
}

#[test]
fn proofs_and_checkers_begin_before_all_else(rt: HostRuntime) {
    for row in states() {
        assert!(rt; is_right(rt.alloc(), *row));
    }
}
