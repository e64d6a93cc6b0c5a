//! Tests of names that are hidden and introduced again, and of modes, by calls of a solver whose proof is checked.

use crate::calls::{Call, Kind, Part};
use crate::scripts::first_wrong;

const HIDDEN_IN_A_CLAUSE: &[Part<'static>] = &[(
    Kind::Right,
    &[
        Call::Clause(&[1, 2]),
        Call::Clause(&[-2]),
        Call::Hide(2),
        Call::Assume(&[-1]),
        Call::Solve(false),
        Call::Core(&[-1]),
    ],
)];

const NAMED_ANEW: &[Part<'static>] = &[(
    Kind::Right,
    &[
        Call::Clause(&[1]),
        Call::Hide(1),
        Call::Clause(&[-1]),
        Call::Solve(true),
        Call::Model(&[-1]),
    ],
)];

const BELOW_A_HIDDEN_NAME: &[Part<'static>] = &[(
    Kind::Right,
    &[Call::Hide(2), Call::Solve(true), Call::Model(&[-1])],
)];

const HIDDEN_BETWEEN_ASKS: &[Part<'static>] = &[(
    Kind::Right,
    &[
        Call::Clause(&[1]),
        Call::Assume(&[1]),
        Call::Solve(true),
        Call::Model(&[1]),
        Call::Assume(&[]),
        Call::Hide(1),
        Call::Clause(&[-1]),
        Call::Unknown,
        Call::Solve(true),
        Call::Model(&[-1]),
    ],
)];

const HIDDEN_IS_OBSERVED: &[Part<'static>] = &[
    (
        Kind::Right,
        &[Call::Clause(&[1, 2]), Call::Hide(1), Call::Observe(&[1])],
    ),
    (Kind::Witness, &[Call::Clause(&[1])]),
    (
        Kind::Right,
        &[
            Call::Sample(1),
            Call::Clause(&[-1]),
            Call::Solve(true),
            Call::Model(&[-1, 2]),
        ],
    ),
];

const OBSERVED_IN_ORDER: &[Part<'static>] = &[
    (
        Kind::Right,
        &[
            Call::Clause(&[1, 2, 3, 4]),
            Call::Hide(4),
            Call::Hide(2),
            Call::New(2),
            Call::Solve(true),
            Call::Observe(&[4, 5]),
        ],
    ),
    (Kind::Witness, &[Call::Clause(&[5])]),
    (
        Kind::Right,
        &[
            Call::Sample(4),
            Call::Clause(&[-4]),
            Call::Observe(&[]),
            Call::New(6),
        ],
    ),
];

const ALL_BELOW_COME_IN: &[Part<'static>] = &[(
    Kind::Right,
    &[
        Call::Hide(5),
        Call::Observe(&[]),
        Call::Solve(true),
        Call::Model(&[-1, -2, -3, -4]),
        Call::New(5),
        Call::Model(&[-1, -2, -3, -4, -5]),
    ],
)];

const NEW_BEHIND_A_MODEL: &[Part<'static>] = &[(
    Kind::Right,
    &[
        Call::Clause(&[1]),
        Call::Solve(true),
        Call::New(2),
        Call::Model(&[1, -2]),
        Call::Solve(true),
    ],
)];

const ANEW_BEHIND_A_MODEL: &[Part<'static>] = &[(
    Kind::Right,
    &[
        Call::Clause(&[1]),
        Call::Solve(true),
        Call::Model(&[1]),
        Call::Hide(1),
        Call::Model(&[]),
        Call::New(1),
        Call::Model(&[-1]),
        Call::Assume(&[1]),
        Call::Unknown,
        Call::Solve(true),
        Call::Model(&[1]),
    ],
)];

const NEW_BEHIND_A_CORE: &[Part<'static>] = &[(
    Kind::Right,
    &[
        Call::Clause(&[-1, -2]),
        Call::Assume(&[1, 2]),
        Call::Solve(false),
        Call::Core(&[2, 1]),
        Call::Hide(3),
        Call::Core(&[2, 1]),
        Call::New(3),
        Call::Witness(4),
        Call::Core(&[2, 1]),
        Call::Solve(false),
    ],
)];

const CLAUSE_BEHIND_A_CORE: &[Part<'static>] = &[(
    Kind::Right,
    &[
        Call::Clause(&[-1, -2]),
        Call::Assume(&[1, 2]),
        Call::Solve(false),
        Call::Core(&[2, 1]),
        Call::Clause(&[3]),
        Call::Unknown,
    ],
)];

const UNSATISFIABLE: &[Part<'static>] = &[
    (
        Kind::Right,
        &[
            Call::Clause(&[1]),
            Call::Clause(&[]),
            Call::Hide(1),
            Call::New(1),
            Call::Witness(2),
        ],
    ),
    (Kind::Witness, &[Call::Clause(&[3, 2])]),
    (
        Kind::Right,
        &[Call::New(3), Call::Core(&[]), Call::Solve(false)],
    ),
];

/// The first variable is kept for its clause, so there is one variable too few for the last name and all names below
/// it. Once the second name is hidden too, there is one variable too few for the second name and all names below the
/// last one.
const VARIABLES_LACK: &[Part<'static>] = &[
    (
        Kind::Right,
        &[Call::Clause(&[1, 2]), Call::Hide(1), Call::Clause(&[1, 3])],
    ),
    (
        Kind::Limit,
        &[
            Call::Hide(268435456),
            Call::Witness(268435456),
            Call::Sample(268435456),
            Call::Clause(&[-268435456]),
            Call::Assume(&[-268435456]),
        ],
    ),
    (Kind::Right, &[Call::Hide(2)]),
    (
        Kind::Limit,
        &[
            Call::Clause(&[2, -2, 268435455]),
            Call::Assume(&[2, -2, 268435455]),
        ],
    ),
    (
        Kind::Right,
        &[
            Call::New(2),
            Call::New(4),
            Call::Clause(&[-1]),
            Call::Solve(true),
            Call::Model(&[-1, -2, 3, -4]),
        ],
    ),
];

const WITNESS_REFUSES: &[Part<'static>] = &[
    (Kind::Right, &[Call::Witness(2)]),
    (Kind::Witness, &[Call::Clause(&[3, 2])]),
    (
        Kind::Right,
        &[
            Call::New(3),
            Call::Sample(2),
            Call::Clause(&[3, 2]),
            Call::Assume(&[-2]),
            Call::Solve(true),
            Call::Model(&[-1, -2, 3]),
        ],
    ),
];

const ASSUMED_REFUSES: &[Part<'static>] = &[
    (
        Kind::Right,
        &[Call::Clause(&[1, 2]), Call::Assume(&[1, -2])],
    ),
    (
        Kind::Assumed,
        &[
            Call::Hide(1),
            Call::Witness(1),
            Call::Sample(1),
            Call::Hide(2),
            Call::Witness(2),
            Call::Sample(2),
        ],
    ),
    (
        Kind::Right,
        &[
            Call::Hide(3),
            Call::Solve(true),
            Call::Model(&[1, -2]),
            Call::Assume(&[]),
            Call::Hide(1),
            Call::Witness(2),
        ],
    ),
];

const ASSUMED_WHEN_UNSATISFIABLE: &[Part<'static>] = &[
    (Kind::Right, &[Call::Clause(&[]), Call::Assume(&[2, -1, 2])]),
    (
        Kind::Assumed,
        &[
            Call::Hide(1),
            Call::Witness(1),
            Call::Sample(1),
            Call::Hide(2),
            Call::Witness(2),
            Call::Sample(2),
        ],
    ),
    (Kind::Right, &[Call::Hide(3), Call::Assume(&[1])]),
    (
        Kind::Assumed,
        &[Call::Hide(1), Call::Witness(1), Call::Sample(1)],
    ),
    (Kind::Right, &[Call::Hide(2)]),
];

const UNIT_FORGOTTEN: &[Part<'static>] = &[(
    Kind::Right,
    &[
        Call::Clause(&[1]),
        Call::Solve(true),
        Call::Hide(1),
        Call::New(1),
        Call::Assume(&[-1]),
        Call::Solve(true),
        Call::Model(&[-1]),
        Call::Assume(&[]),
        Call::Hide(1),
        Call::New(1),
        Call::Witness(1),
        Call::Hide(1),
        Call::Clause(&[1]),
    ],
)];

const LEVEL_OF_A_FORMER_VARIABLE: &[Part<'static>] = &[(
    Kind::Right,
    &[
        Call::Clause(&[1, 2]),
        Call::Solve(true),
        Call::Model(&[-1, 2]),
        Call::Clause(&[2]),
        Call::Solve(true),
        Call::Assume(&[-2]),
        Call::Solve(false),
        Call::Core(&[-2]),
    ],
)];

const UNIT_PUT_BACK: &[Part<'static>] = &[(
    Kind::Right,
    &[
        Call::Clause(&[1]),
        Call::Solve(true),
        Call::Clause(&[-1, 2]),
        Call::Solve(true),
        Call::Model(&[1, 2]),
        Call::Clause(&[-1, -2]),
        Call::Solve(false),
        Call::Core(&[]),
    ],
)];

const FALSE_LITERALS_BEFORE_A_TRUE_ONE: &[Part<'static>] = &[(
    Kind::Right,
    &[
        Call::Clause(&[1]),
        Call::Clause(&[-2]),
        Call::Clause(&[-3]),
        Call::Solve(true),
        Call::Clause(&[4, 1, 2, 3, 5]),
        Call::Solve(true),
        Call::Model(&[1, -2, -3, -4, -5]),
    ],
)];

const ASSUMED_BEFORE: &[Part<'static>] = &[(
    Kind::Right,
    &[
        Call::Clause(&[1]),
        Call::Solve(true),
        Call::Assume(&[-1, 2]),
        Call::Solve(false),
        Call::Core(&[-1]),
        Call::Assume(&[2]),
        Call::Solve(true),
        Call::Model(&[1, 2]),
    ],
)];

const CALLS: &[&[Part<'static>]] = &[
    HIDDEN_IN_A_CLAUSE,
    NAMED_ANEW,
    BELOW_A_HIDDEN_NAME,
    HIDDEN_BETWEEN_ASKS,
    HIDDEN_IS_OBSERVED,
    OBSERVED_IN_ORDER,
    ALL_BELOW_COME_IN,
    NEW_BEHIND_A_MODEL,
    ANEW_BEHIND_A_MODEL,
    NEW_BEHIND_A_CORE,
    CLAUSE_BEHIND_A_CORE,
    UNSATISFIABLE,
    VARIABLES_LACK,
    WITNESS_REFUSES,
    ASSUMED_REFUSES,
    ASSUMED_WHEN_UNSATISFIABLE,
    UNIT_FORGOTTEN,
    LEVEL_OF_A_FORMER_VARIABLE,
    UNIT_PUT_BACK,
    FALSE_LITERALS_BEFORE_A_TRUE_ONE,
    ASSUMED_BEFORE,
];

fn calls() -> &'static [&'static [Part<'static>]] {
    CALLS
}

#[test]
fn names_come_and_go(rt: HostRuntime) {
    let wrong = first_wrong(rt.alloc(), calls());
    assert!(rt; wrong == None, "{wrong:?}");
}
