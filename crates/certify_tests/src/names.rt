//! Tests of verdicts on scripts with every kind of command: assumptions, names that are hidden or have a mode,
//! and refusals.

use crate::confirm::{Tail, Texts, is_no, is_said_after, is_yes};
use certify::verdict::Why;

/// Scripts with their answers and certificates.
static CONFIRMED: [Texts<'static>; 24] = [
    // An ask's assumptions don't constrain later asks.
    (
        b"-1 -2 0\na 1 2 0\n",
        b"s UNSATISFIABLE\nf 1 2 0\n",
        &[
            2, 0, 1, 2, 1, 2, 5, 2, 1, 3, 9, 0, 11, 2, 0, 2, 12, 2, 0, 2, 1, 0, 11, 0, 13,
        ],
    ),
    (
        b"a 1 -1 0\n",
        b"s UNSATISFIABLE\nf 1 -1 0\n",
        &[2, 0, 1, 11, 2, 0, 1, 12, 2, 0, 1, 0, 11, 0, 13],
    ),
    (
        b"1 0\na -1 0\na 0\n",
        b"s UNSATISFIABLE\nf -1 0\ns SATISFIABLE\nv 1 0\n",
        &[
            2, 0, 1, 5, 1, 0, 11, 1, 1, 12, 1, 1, 0, 11, 0, 11, 0, 10, 1, 0, 11, 0, 13,
        ],
    ),
    (
        b"1 0\na -1 0\n2 0\na 0\n-3 -4 0\na 3 4 0\n",
        b"s UNSATISFIABLE\nf -1 0\ns SATISFIABLE\nv 1 2 0\ns UNSATISFIABLE\nf 3 4 0\n",
        &[
            2, 0, 1, 5, 1, 0, 11, 1, 1, 12, 1, 1, 0, 11, 0, 2, 1, 2, 5, 1, 2, 11, 0, 10, 2, 0, 2,
            11, 0, 2, 2, 3, 2, 3, 4, 5, 2, 5, 7, 9, 0, 11, 2, 4, 6, 12, 2, 4, 6, 1, 0, 11, 0, 13,
        ],
    ),
    // A literal occurs twice in an ask, and the certificate's assumptions are in another order.
    (
        b"a 2 1 2 0\n",
        b"s SATISFIABLE\nv 1 2 0\n",
        &[2, 0, 1, 2, 1, 2, 11, 2, 0, 2, 10, 2, 2, 0, 11, 0, 13],
    ),
    // The hidden variable is deleted during the ask.
    (
        b"1 2 0\n-2 0\nh 2 0\na -1 0\n",
        b"s UNSATISFIABLE\nf -1 0\n",
        &[
            2, 0, 1, 2, 1, 2, 5, 2, 0, 2, 5, 1, 3, 2, 1, 0, 11, 1, 1, 9, 0, 6, 0, 1, 0, 1, 0, 8, 2,
            0, 2, 2, 3, 1, 12, 1, 1, 0, 11, 0, 13,
        ],
    ),
    // A hidden name that is introduced again gets another variable: a new one, or one that was deleted.
    (
        b"1 0\nh 1 0\n-1 0\na 0\n",
        b"s SATISFIABLE\nv -1 0\n",
        &[
            2, 0, 1, 5, 1, 0, 2, 0, 0, 2, 1, 1, 5, 1, 3, 11, 0, 10, 1, 3, 11, 0, 13,
        ],
    ),
    (
        b"1 0\nh 1 0\n-1 0\na 0\n",
        b"s SATISFIABLE\nv -1 0\n",
        &[
            2, 0, 1, 5, 1, 0, 2, 0, 0, 3, 0, 2, 0, 1, 5, 1, 1, 11, 0, 10, 1, 1, 11, 0, 13,
        ],
    ),
    (
        b"h 2 0\na 0\n",
        b"s SATISFIABLE\nv -1 0\n",
        &[
            2, 0, 1, 2, 1, 2, 2, 1, 0, 3, 1, 11, 0, 9, 6, 10, 1, 1, 11, 0, 13,
        ],
    ),
    (
        b"1 0\na 1 0\nh 1 0\n-1 0\na 0\n",
        b"s SATISFIABLE\nv 1 0\ns SATISFIABLE\nv -1 0\n",
        &[
            2, 0, 1, 5, 1, 0, 11, 1, 0, 10, 1, 0, 11, 0, 2, 0, 0, 2, 1, 1, 5, 1, 3, 11, 0, 10, 1,
            3, 11, 0, 13,
        ],
    ),
    // A command introduces and hides its names one after another.
    (
        b"h 1 1 0\na 0\n",
        b"s SATISFIABLE\nv 0\n",
        &[2, 0, 1, 2, 0, 0, 2, 1, 1, 2, 1, 0, 11, 0, 10, 0, 11, 0, 13],
    ),
    // A witness name can be hidden, and is introduced again as a sample name.
    (
        b"w 1 0\nh 1 0\n1 0\na 0\n",
        b"s SATISFIABLE\nv 1 0\n",
        &[
            2, 0, 1, 4, 0, 0, 2, 0, 0, 2, 1, 1, 5, 1, 2, 11, 0, 10, 1, 2, 11, 0, 13,
        ],
    ),
    (
        b"w 1 0\ns 1 0\n1 0\na 0\n",
        b"s SATISFIABLE\nv 1 0\n",
        &[
            2, 0, 1, 4, 0, 0, 4, 0, 1, 5, 1, 0, 11, 0, 10, 1, 0, 11, 0, 13,
        ],
    ),
    // Refusals in each kind of command.
    (
        b"w 1 0\n1 0\na 0\n",
        b"c refused 2 witness 1\ns SATISFIABLE\nv -1 0\n",
        &[2, 0, 1, 4, 0, 0, 11, 0, 10, 1, 1, 11, 0, 13],
    ),
    (
        b"w 1 0\na 1 0\n",
        b"c refused 2 witness 1\n",
        &[2, 0, 1, 4, 0, 0, 13],
    ),
    (
        b"w 1 0\n268435457 1 0\n",
        b"c refused 2 limit\n",
        &[2, 0, 1, 13],
    ),
    (
        b"w 1 0\n2 1 268435457 0\n",
        b"c refused 2 witness 1\n",
        &[2, 0, 1, 13],
    ),
    (
        b"h 268435457 0\nw 1 268435457 0\ns 268435457 0\na 268435457 0\n-268435457 0\n",
        b"c refused 1 limit\nc refused 2 limit\nc refused 3 limit\nc refused 4 limit\nc refused 5 limit\n",
        &[13],
    ),
    // A refused ask counts as an ask: with a header, no further ask is added.
    (b"p cnf 1 0\na 268435457 0\n", b"c refused 1 limit\n", &[13]),
    (
        b"p cnf 1 0\nw 1 0\n",
        b"s SATISFIABLE\nv -1 0\n",
        &[2, 0, 1, 11, 0, 10, 1, 1, 11, 0, 13],
    ),
    // Commands without names.
    (b"h 0\nw 0\ns 0\n", b"", &[13]),
    (
        b"1 0\nh -1 0\n",
        b"c malformed 2\n",
        &[2, 0, 1, 5, 1, 0, 13],
    ),
    (b"h 1 0\na 1", b"c malformed 2\n", &[2, 0, 1, 2, 0, 0, 13]),
    (
        b"1 -1 0\na 0\n%\nx",
        b"s SATISFIABLE\nv -1 0\n",
        &[2, 0, 1, 5, 2, 0, 1, 11, 0, 10, 1, 1, 11, 0, 13],
    ),
];

fn confirmed() -> &'static [Texts<'static>] {
    &CONFIRMED
}

#[test]
fn whole_scripts_match(rt: HostRuntime) {
    for &texts in confirmed() {
        assert!(rt; is_yes(rt.alloc(), texts), "{texts:?}");
    }
}

/// Texts, the ask that isn't confirmed, and why.
static NOT_CONFIRMED: [(Texts<'static>, u64, Why); 8] = [
    // The certificate uses the old variable of a hidden name, which the checker alone accepts as the name's variable.
    (
        (
            b"1 0\nh 1 0\n-1 0\na 0\n",
            b"s UNSATISFIABLE\nf 0\n",
            &[2, 0, 1, 5, 1, 0, 2, 0, 0, 4, 0, 1, 2, 0, 1, 5, 1, 1, 13],
        ),
        1,
        Why::NameNotFresh,
    ),
    // The answers lack a refusal, or give another reason for it.
    (
        (b"w 1 0\n1 0\n", b"", &[2, 0, 1, 13]),
        1,
        Why::AnswerMissing,
    ),
    (
        (b"w 1 0\n1 0\n", b"c refused 2 limit\n", &[2, 0, 1, 13]),
        1,
        Why::AnswerText,
    ),
    (
        (
            b"w 1 2 0\n2 1 0\n",
            b"c refused 2 witness 1\n",
            &[2, 0, 1, 2, 1, 2, 13],
        ),
        1,
        Why::AnswerText,
    ),
    // The certificate has a clause that contains a witness name.
    (
        (
            b"w 1 0\n1 0\n",
            b"c refused 2 witness 1\n",
            &[2, 0, 1, 5, 1, 0, 13],
        ),
        1,
        Why::StepOutOfPlace,
    ),
    // A core that isn't a subset of the assumptions, and a core that doesn't fail.
    (
        (
            b"-1 0\na 2 0\n",
            b"s UNSATISFIABLE\nf 1 0\n",
            &[2, 0, 1, 5, 1, 1, 2, 1, 2, 11, 1, 2, 12, 1, 0, 0, 11, 0, 13],
        ),
        1,
        Why::StepRefused,
    ),
    (
        (
            b"1 0\na 1 0\n",
            b"s UNSATISFIABLE\nf 1 0\n",
            &[2, 0, 1, 5, 1, 0, 11, 1, 0, 12, 1, 0, 0, 11, 0, 13],
        ),
        1,
        Why::StepRefused,
    ),
    // The model contains a hidden name.
    (
        (
            b"1 2 0\nh 1 0\na 0\n",
            b"s SATISFIABLE\nv -1 2 0\n",
            &[
                2, 0, 1, 2, 1, 2, 5, 2, 0, 2, 2, 0, 0, 11, 0, 10, 2, 1, 2, 11, 0, 13,
            ],
        ),
        1,
        Why::AnswerDiffers,
    ),
];

fn not_confirmed() -> &'static [(Texts<'static>, u64, Why)] {
    &NOT_CONFIRMED
}

#[test]
fn whole_scripts_that_do_not_match(rt: HostRuntime) {
    for &(texts, ask, why) in not_confirmed() {
        assert!(rt; is_no(rt.alloc(), texts, ask, why), "{texts:?}");
    }
}

/// Three asks, with a model, a core and `unknown` as answers; then a name that is hidden and introduced again, and a
/// fourth ask.
const FOURTH: &[u8] = b"1 2 0\na 0\na -1 -2 0\na 0\nh 2 0\n2 -1 0\na 1 0\n";

/// The certificate up to the end of the third ask.
const THREE_ASKS: &[u8] = &[
    2, 0, 1, 2, 1, 2, 5, 2, 0, 2, 11, 0, 10, 2, 1, 2, 11, 0, 9, 0, 11, 2, 1, 3, 12, 2, 1, 3, 1, 0,
    11, 0, 11, 0, 11, 0,
];

const THREE_ANSWERS: &[u8] = b"s SATISFIABLE\nv -1 2 0\ns UNSATISFIABLE\nf -1 -2 0\ns UNKNOWN\n";

const FOURTH_STEPS: &[u8] = &[
    2, 1, 0, 2, 2, 2, 5, 2, 4, 1, 11, 1, 0, 10, 2, 0, 4, 11, 0, 13,
];

const FOURTH_ANSWER: &[u8] = b"s SATISFIABLE\nv 1 2 0\n";

/// Every reason for a `No` at the fourth ask or after it.
static FOURTH_ASKS: [Tail<'static>; 18] = [
    (FOURTH_ANSWER, FOURTH_STEPS, None),
    (b"", FOURTH_STEPS, Some((4, Why::AnswerMissing))),
    (
        b"s SATISFIABLE\nv 1 2 0\nc",
        FOURTH_STEPS,
        Some((5, Why::AnswerExtra)),
    ),
    (
        b"s SATISFIABLE\nv 1 02 0\n",
        FOURTH_STEPS,
        Some((4, Why::AnswerText)),
    ),
    (
        FOURTH_ANSWER,
        &[2, 1, 0, 2, 2, 2, 5, 2, 4, 0],
        Some((4, Why::ClauseDiffers)),
    ),
    // The certificate hides another name, hides no name, or introduces another name.
    (FOURTH_ANSWER, &[2, 0, 0], Some((4, Why::NameDiffers))),
    (FOURTH_ANSWER, &[2, 1, 2], Some((4, Why::NameDiffers))),
    (
        FOURTH_ANSWER,
        &[2, 1, 0, 2, 2, 3],
        Some((4, Why::NameDiffers)),
    ),
    (
        FOURTH_ANSWER,
        &[2, 1, 0, 2, 1, 2],
        Some((4, Why::NameNotFresh)),
    ),
    (
        FOURTH_ANSWER,
        &[2, 1, 0, 2, 2, 2, 5, 2, 4, 1, 11, 0],
        Some((4, Why::AskDiffers)),
    ),
    (
        FOURTH_ANSWER,
        &[2, 1, 0, 2, 2, 2, 5, 2, 4, 1, 11, 2, 0, 4],
        Some((4, Why::AskDiffers)),
    ),
    (
        FOURTH_ANSWER,
        &[
            2, 1, 0, 2, 2, 2, 5, 2, 4, 1, 11, 1, 0, 10, 2, 0, 4, 11, 1, 0,
        ],
        Some((4, Why::AskDiffers)),
    ),
    (
        b"s SATISFIABLE\nv 1 -2 0\n",
        FOURTH_STEPS,
        Some((4, Why::AnswerDiffers)),
    ),
    // A model without the ask's literal.
    (
        b"s SATISFIABLE\nv -1 2 0\n",
        &[2, 1, 0, 2, 2, 2, 5, 2, 4, 1, 11, 1, 0, 10, 3, 1, 2, 4],
        Some((4, Why::AnswerDiffers)),
    ),
    (
        b"s SATISFIABLE\nv 1 -2 0\n",
        &[2, 1, 0, 2, 2, 2, 5, 2, 4, 1, 11, 1, 0, 10, 2, 0, 5],
        Some((4, Why::StepRefused)),
    ),
    (
        FOURTH_ANSWER,
        &[2, 1, 0, 2, 2, 2, 5, 2, 4, 1, 11, 1, 0],
        Some((4, Why::CertificateEnds)),
    ),
    (
        FOURTH_ANSWER,
        &[2, 1, 0, 2, 2, 2, 5, 2, 4, 1, 11, 1, 0, 13],
        Some((4, Why::StepOutOfPlace)),
    ),
    (FOURTH_ANSWER, &[5, 2, 4, 1], Some((4, Why::StepOutOfPlace))),
];

fn fourth_asks() -> &'static [Tail<'static>] {
    &FOURTH_ASKS
}

#[test]
fn later_asks_are_named_after_each_answer(rt: HostRuntime) {
    for &tail in fourth_asks() {
        let asked = (FOURTH, THREE_ANSWERS, THREE_ASKS);
        assert!(rt; is_said_after(rt.alloc(), asked, tail), "{tail:?}");
    }
}
