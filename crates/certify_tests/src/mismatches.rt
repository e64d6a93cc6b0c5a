//! Tests of texts that don't match, with the certificates that runs write. They are read in pieces of various sizes.

use crate::confirm::Texts;
use crate::run::said_in;
use certify::verdict::{Verdict, Why};
use std::alloc::Global;

const PAIR: &[u8] = b"1 2 0\na 0\n";

const PAIR_ANSWERS: &[u8] = b"s SATISFIABLE\nv -1 2 0\n";

/// The certificate that a run writes for `PAIR`, with solver names and a hash width.
const PAIR_STEPS: &[u8] = &[
    0x02, 0x00, 0x01, 0x01, 0x00, 0x01, 0x02, 0x01, 0x02, 0x01, 0x01, 0x02, 0x05, 0x02, 0x00, 0x02,
    0x0b, 0x00, 0x09, 0x06, 0x0a, 0x02, 0x01, 0x02, 0x0b, 0x00, 0x0d,
];

const UNITS: &[u8] = b"1 0\n-1 0\na 0\n";

const NONE_LEFT: &[u8] = b"s UNSATISFIABLE\nf 0\n";

/// A name that is hidden and introduced again. The certificate gives it to the hidden variable.
const HIDDEN: Texts<'static> = (
    b"1 0\nh 1 0\n-1 0\na 0\n",
    NONE_LEFT,
    &[
        0x02, 0x00, 0x01, 0x05, 0x01, 0x00, 0x02, 0x00, 0x00, 0x04, 0x00, 0x01, 0x02, 0x00, 0x01,
        0x05, 0x01, 0x01, 0x0d,
    ],
);

/// Texts, the ask that isn't confirmed, and why; or `None` for a `Yes`.
type Row = (Texts<'static>, Option<(u64, Why)>);

static ROWS: [Row; 9] = [
    ((PAIR, PAIR_ANSWERS, PAIR_STEPS), None),
    (HIDDEN, Some((1, Why::NameNotFresh))),
    ((UNITS, NONE_LEFT, &[0x0d]), Some((1, Why::StepOutOfPlace))),
    ((UNITS, NONE_LEFT, &[]), Some((1, Why::CertificateEnds))),
    ((PAIR, b"", PAIR_STEPS), Some((1, Why::AnswerMissing))),
    (
        (PAIR, b"s SATISFIABLE\nv 1 2 0\n", PAIR_STEPS),
        Some((1, Why::AnswerDiffers)),
    ),
    (
        (
            PAIR,
            b"s SATISFIABLE\nv -1 2 0\ns SATISFIABLE\nv -1 2 0\n",
            PAIR_STEPS,
        ),
        Some((2, Why::AnswerExtra)),
    ),
    (
        (b"1 -2 0\na 0\n", PAIR_ANSWERS, PAIR_STEPS),
        Some((1, Why::ClauseDiffers)),
    ),
    (
        (b"1 3 0\na 0\n", PAIR_ANSWERS, PAIR_STEPS),
        Some((1, Why::StepOutOfPlace)),
    ),
];

fn rows() -> &'static [Row] {
    &ROWS
}

/// Returns the size of the first pieces in which the texts have another verdict.
fn first_wrong(alloc: Global, texts: Texts<'_>, no: Option<(u64, Why)>) -> Option<usize> {
    let verdict = match no {
        None => Verdict::Yes,
        Some((ask, why)) => Verdict::No { ask, why },
    };
    for size in [1, 2, 4095, 4096] {
        if said_in(alloc, texts, size) != Ok(verdict) {
            return Some(size);
        }
    }
    None
}

#[test]
fn verdicts_are_the_same_in_pieces(rt: HostRuntime) {
    for &(texts, no) in rows() {
        let wrong = first_wrong(rt.alloc(), texts, no);
        assert!(rt; wrong == None, "{texts:?} {wrong:?}");
    }
}
