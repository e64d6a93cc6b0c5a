//! Tests of formulas and their texts, as a solver adds them, and of what it counts.

use crate::calls::{Call, Kind, Part};
use crate::scripts::first_wrong;

const FOUR: &[&[i64]] = &[&[1, 2], &[1, -2], &[-1, 2], &[-1, -2]];

const FOUR_TEXT: &[u8] = b"p cnf 2 4\n1 2 0 1 -2 0\n-1 2 0\nc more\n-1 -2 0\n";

const FORMULA: &[Part<'static>] = &[(
    Kind::Right,
    &[
        Call::Formula(FOUR),
        Call::Solve(false),
        Call::Steps(2),
        Call::Restarts(1, 1),
    ],
)];

const TEXT: &[Part<'static>] = &[(
    Kind::Right,
    &[Call::Text(FOUR_TEXT), Call::Solve(false), Call::Steps(2)],
)];

const NO_CLAUSES: &[Part<'static>] = &[(
    Kind::Right,
    &[Call::Formula(&[]), Call::Solve(true), Call::Steps(1)],
)];

/// The clauses of a text before a fault are kept.
const MALFORMED: &[Part<'static>] = &[
    (Kind::Right, &[Call::Witness(3)]),
    (Kind::Malformed, &[Call::Text(b"4 0\n1 x\n")]),
    (
        Kind::Right,
        &[
            Call::New(5),
            Call::Solve(true),
            Call::Model(&[-1, -2, -3, 4, -5]),
        ],
    ),
];

const LIMIT: &[Part<'static>] = &[
    (Kind::Right, &[Call::Witness(3)]),
    (Kind::Limit, &[Call::Text(b"4 0 5 0\n268435457 0")]),
    (
        Kind::Right,
        &[
            Call::New(6),
            Call::Solve(true),
            Call::Model(&[-1, -2, -3, 4, 5, -6]),
        ],
    ),
];

const WITNESS: &[Part<'static>] = &[
    (Kind::Right, &[Call::Witness(3)]),
    (Kind::Witness, &[Call::Text(b"4 0 5 3 0 6 0\n")]),
    (
        Kind::Right,
        &[
            Call::New(5),
            Call::Solve(true),
            Call::Model(&[-1, -2, -3, 4, -5]),
        ],
    ),
];

const PAIRS: &[Part<'static>] = &[(
    Kind::Right,
    &[
        Call::Formula(&[&[1, 2], &[-1, 3, 3], &[4, -4]]),
        Call::Counts([4, 2, 0]),
    ],
)];

const LONG: &[Part<'static>] = &[(
    Kind::Right,
    &[
        Call::Formula(&[&[1, 2, 3], &[-2, 3, 3, 4], &[4, -5, 5, 2]]),
        Call::Counts([5, 0, 2]),
    ],
)];

const UNITS: &[Part<'static>] = &[(
    Kind::Right,
    &[Call::Formula(&[&[1], &[-2, 3]]), Call::Counts([2, 1, 0])],
)];

/// Units that contradict each other are recognized without an ask.
const CONTRADICTION: &[Part<'static>] = &[(
    Kind::Right,
    &[
        Call::Formula(&[&[1], &[3, -3], &[-2], &[1, 1]]),
        Call::Unknown,
        Call::Formula(&[&[2]]),
        Call::Core(&[]),
    ],
)];

const FORMULAS: &[&[Part<'static>]] = &[
    FORMULA,
    TEXT,
    NO_CLAUSES,
    MALFORMED,
    LIMIT,
    WITNESS,
    PAIRS,
    LONG,
    UNITS,
    CONTRADICTION,
];

fn formulas() -> &'static [&'static [Part<'static>]] {
    FORMULAS
}

#[test]
fn formulas_are_added(rt: HostRuntime) {
    let wrong = first_wrong(rt.alloc(), formulas());
    assert!(rt; wrong == None, "{wrong:?}");
}
