//! Tests of verdicts. Each text is read both in one piece and byte by byte.

use crate::devices::{append, fails_at};
use crate::written::{AMPLE, run_on};
use certify::confirm::confirm;
use certify::verdict::{ConfirmFault, Verdict, Why};
use sat_base::Counted;
use sat_checker::{Checker, Looks};
use std::alloc::Global;

/// The texts of a script, its answers and a certificate.
pub(crate) type Texts<'a> = (&'a [u8], &'a [u8], &'a [u8]);

/// Returns the verdict on texts that are read in one piece, and adds the looks to `looks`.
fn said_by(alloc: Global, texts: Texts<'_>, looks: &mut Looks) -> Result<Verdict, ConfirmFault> {
    confirm(
        alloc,
        &mut Counted::new(texts.0),
        &mut Counted::new(texts.1),
        &mut Counted::new(texts.2),
        looks,
    )
}

pub(crate) fn said_whole(alloc: Global, texts: Texts<'_>) -> Result<Verdict, ConfirmFault> {
    said_by(alloc, texts, &mut Looks::new())
}

/// Returns the verdict on texts that are read byte by byte. `failing` numbers the read that fails for each text; with
/// 0, none fails.
pub(crate) fn said_at(
    alloc: Global,
    texts: Texts<'_>,
    failing: (u64, u64, u64),
) -> Result<Verdict, ConfirmFault> {
    confirm(
        alloc,
        &mut fails_at(texts.0, failing.0),
        &mut fails_at(texts.1, failing.1),
        &mut fails_at(texts.2, failing.2),
        &mut Looks::new(),
    )
}

/// Returns `true` if the verdict on texts is `verdict`, both in one piece and byte by byte.
fn is_said(alloc: Global, texts: Texts<'_>, verdict: Verdict) -> bool {
    said_whole(alloc, texts) == Ok(verdict) && said_at(alloc, texts, (0, 0, 0)) == Ok(verdict)
}

pub(crate) fn is_yes(alloc: Global, texts: Texts<'_>) -> bool {
    is_said(alloc, texts, Verdict::Yes)
}

pub(crate) fn is_no(alloc: Global, texts: Texts<'_>, ask: u64, why: Why) -> bool {
    is_said(alloc, texts, Verdict::No { ask, why })
}

const ROW: &[u8] = b"1 2 0\na 0\n";

const ROW_ANSWERS: &[u8] = b"s SATISFIABLE\nv -1 2 0\n";

const ROW_STEPS: &[u8] = &[
    0x02, 0x00, 0x01, 0x02, 0x01, 0x02, 0x05, 0x02, 0x00, 0x02, 0x0b, 0x00, 0x0a, 0x02, 0x01, 0x02,
    0x0b, 0x00, 0x0d,
];

const SIXTH: &[u8] = b"1 2 0\n1 -2 0\n-1 2 0\n-1 -2 0\na 0\n";

const UNITS: &[u8] = b"1 0\n-1 0\na 0\n";

const NONE_LEFT: &[u8] = b"s UNSATISFIABLE\nf 0\n";

static CONFIRMED: [Texts<'static>; 10] = [
    (UNITS, NONE_LEFT, &[2, 0, 1, 5, 1, 0, 5, 1, 1]),
    (ROW, ROW_ANSWERS, ROW_STEPS),
    // Bytes after the end.
    (
        ROW,
        ROW_ANSWERS,
        &[
            2, 0, 1, 2, 1, 2, 5, 2, 0, 2, 11, 0, 10, 2, 1, 2, 11, 0, 13, 255, 7,
        ],
    ),
    (b"", b"", &[13]),
    (b"268435457 0\n", b"c refused 1 limit\n", &[13]),
    (b"1 2", b"c malformed 1\n", &[13]),
    // With a header, there is one ask, at the end of the text. A `%` ends the text.
    (b"p cnf 2 1\n1 2 0\n%\n0\n", ROW_ANSWERS, ROW_STEPS),
    (b"c x\n p\tcnf 007 1 \r\n1 2 0", ROW_ANSWERS, ROW_STEPS),
    (b"p cnf 2 1\n1 2 0\na 0\n", ROW_ANSWERS, ROW_STEPS),
    (b"1 2 0\na 0\n%\n1 0\n", ROW_ANSWERS, ROW_STEPS),
];

fn confirmed() -> &'static [Texts<'static>] {
    &CONFIRMED
}

#[test]
fn texts_that_match(rt: HostRuntime) {
    for &texts in confirmed() {
        assert!(rt; is_yes(rt.alloc(), texts), "{texts:?}");
    }
}

/// Texts, the ask that isn't confirmed, and why.
static NOT_CONFIRMED: [(Texts<'static>, u64, Why); 14] = [
    // The certificate belongs to a script with another sign, or with another name.
    (
        (b"1 -2 0\na 0\n", ROW_ANSWERS, ROW_STEPS),
        1,
        Why::ClauseDiffers,
    ),
    (
        (b"1 3 0\na 0\n", ROW_ANSWERS, ROW_STEPS),
        1,
        Why::StepOutOfPlace,
    ),
    ((UNITS, NONE_LEFT, &[0x0d]), 1, Why::StepOutOfPlace),
    ((UNITS, NONE_LEFT, &[]), 1, Why::CertificateEnds),
    ((ROW, b"", ROW_STEPS), 1, Why::AnswerMissing),
    (
        (ROW, b"s SATISFIABLE\nv 1 2 0\n", ROW_STEPS),
        1,
        Why::AnswerDiffers,
    ),
    (
        (ROW, b"s SATISFIABLE\nv -1  2 0\n", ROW_STEPS),
        1,
        Why::AnswerText,
    ),
    (
        (
            ROW,
            b"s SATISFIABLE\nv -1 2 0\ns SATISFIABLE\nv -1 2 0\n",
            ROW_STEPS,
        ),
        2,
        Why::AnswerExtra,
    ),
    (
        (
            ROW,
            ROW_ANSWERS,
            &[2, 0, 1, 2, 1, 2, 5, 2, 0, 3, 11, 0, 10, 2, 1, 2, 11, 0, 13],
        ),
        1,
        Why::ClauseDiffers,
    ),
    (
        (
            ROW,
            ROW_ANSWERS,
            &[2, 0, 2, 2, 1, 2, 5, 2, 0, 2, 11, 0, 10, 2, 1, 2, 11, 0, 13],
        ),
        1,
        Why::NameDiffers,
    ),
    (
        (
            ROW,
            ROW_ANSWERS,
            &[2, 0, 1, 2, 0, 2, 5, 2, 0, 2, 11, 0, 10, 2, 1, 2, 11, 0, 13],
        ),
        1,
        Why::NameNotFresh,
    ),
    ((b"1 2", b"", &[13]), 1, Why::AnswerMissing),
    ((b"1 2 0\n", ROW_ANSWERS, ROW_STEPS), 1, Why::StepOutOfPlace),
    (
        (b"p cnf 2 1\n1 2 0\n", b"", ROW_STEPS),
        1,
        Why::AnswerMissing,
    ),
];

fn not_confirmed() -> &'static [(Texts<'static>, u64, Why)] {
    &NOT_CONFIRMED
}

#[test]
fn texts_that_do_not_match(rt: HostRuntime) {
    for &(texts, ask, why) in not_confirmed() {
        assert!(rt; is_no(rt.alloc(), texts, ask, why), "{texts:?}");
    }
}

/// Returns `true` if the verdict on `ROW` with the given answers is `verdict`, when its certificate consists of
/// `front`, `steps` and `following`.
fn is_said_of(
    alloc: Global,
    answers: &[u8],
    (front, steps, following): Texts<'_>,
    verdict: Verdict,
) -> bool {
    let mut certificate = Vec::new(alloc);
    append(&mut certificate, &[front, steps, following])
        && is_said(alloc, (ROW, answers, certificate.as_slice()), verdict)
}

/// Returns `true` if the verdict is `verdict` when `step` is inserted into the certificate of `ROW` at byte `place`.
fn is_said_with(alloc: Global, place: usize, step: &[u8], verdict: Verdict) -> bool {
    let (front, following) = ROW_STEPS.split_at(place.min(ROW_STEPS.len()));
    is_said_of(alloc, ROW_ANSWERS, (front, step, following), verdict)
}

/// Returns `true` if the certificate of `ROW`, cut inside a step that begins at byte `place`, is refused because it
/// ends.
fn is_cut_in(alloc: Global, place: usize, step: &[u8]) -> bool {
    let ends = Verdict::No {
        ask: 1,
        why: Why::CertificateEnds,
    };
    let front = &ROW_STEPS[..place.min(ROW_STEPS.len())];
    let cut = (front, &step[..step.len().min(1)], b"".as_slice());
    is_said_of(alloc, ROW_ANSWERS, cut, ends)
}

const REFUSED: Verdict = Verdict::No {
    ask: 1,
    why: Why::StepRefused,
};

/// The position before the clause in the certificate of `ROW`.
const BETWEEN: usize = 6;

/// A position in the certificate of `ROW`, steps that are inserted there, and the verdict.
static STEPS_BETWEEN: [(usize, &[u8], Verdict); 14] = [
    (
        BETWEEN,
        &[12, 0, 0],
        Verdict::No {
            ask: 1,
            why: Why::StepOutOfPlace,
        },
    ),
    (BETWEEN, &[6, 1, 2, 0, 1, 0], Verdict::Yes),
    // A solver name, a mode and a width.
    (BETWEEN, &[1, 0, 1], Verdict::Yes),
    (BETWEEN, &[4, 0, 1], Verdict::Yes),
    (BETWEEN, &[9, 8], Verdict::Yes),
    (BETWEEN, &[9, 64], Verdict::Yes),
    // A witness variable can't occur in a clause.
    (BETWEEN, &[4, 0, 0], REFUSED),
    // A variable that occurs in a tautology is known and can be deleted; one with a name can't be.
    (BETWEEN, &[6, 1, 2, 10, 11, 0, 3, 5], Verdict::Yes),
    (BETWEEN, &[3, 0], REFUSED),
    (BETWEEN, &[3, 5], REFUSED),
    // A unit that doesn't follow, and a clause that isn't stored.
    (BETWEEN, &[7, 1, 0, 9], REFUSED),
    (BETWEEN, &[8, 2, 0, 2, 1], REFUSED),
    // A variable with a solver name is known; a deleted variable isn't.
    (
        0,
        &[1, 0, 1],
        Verdict::No {
            ask: 1,
            why: Why::NameNotFresh,
        },
    ),
    (0, &[1, 0, 1, 3, 0], Verdict::Yes),
];

fn steps_between() -> &'static [(usize, &'static [u8], Verdict)] {
    &STEPS_BETWEEN
}

#[test]
fn steps_may_stand_between(rt: HostRuntime) {
    for &(place, step, verdict) in steps_between() {
        let right = is_said_with(rt.alloc(), place, step, verdict)
            && is_cut_in(rt.alloc(), place, step);
        assert!(rt; right, "{step:?}");
    }
}

/// Certificates of four clauses that no valuation satisfies, up to the step that records `unsat`: with hashes of 8 bits
/// and of 64 bits.
const FOUR_AT_8: &[u8] = &[
    2, 0, 1, 2, 1, 2, 5, 2, 0, 2, 5, 2, 0, 3, 5, 2, 1, 2, 5, 2, 1, 3, 11, 0, 9, 8, 6, 0, 1, 0, 2,
    68, 230, 1, 7, 1, 2, 230, 1, 6, 0, 0, 1, 68,
];

const FOUR_AT_64: &[u8] = &[
    2, 0, 1, 2, 1, 2, 5, 2, 0, 2, 5, 2, 0, 3, 5, 2, 1, 2, 5, 2, 1, 3, 11, 0, 6, 0, 1, 0, 2, 170,
    144, 212, 148, 208, 146, 197, 200, 68, 193, 152, 142, 147, 200, 235, 167, 245, 230, 1, 7, 1, 2,
    149, 152, 174, 154, 232, 203, 167, 228, 230, 1, 6, 0, 0, 1, 254, 144, 244, 157, 240, 178, 197,
    217, 68,
];

/// Certificates of the clauses of `FOUR_AT_8`: with solver names, as a run writes it; and with hashes of 0 bits, so
/// that all clauses are in one bucket.
const FOUR_AS_WRITTEN: &[u8] = &[
    2, 0, 1, 1, 0, 1, 2, 1, 2, 1, 1, 2, 5, 2, 0, 2, 5, 2, 0, 3, 5, 2, 1, 2, 5, 2, 1, 3, 11, 0, 9,
    8, 6, 0, 1, 0, 2, 68, 230, 1, 7, 1, 2, 230, 1, 6, 0, 0, 1, 68,
];

const FOUR_AT_0: &[u8] = &[
    2, 0, 1, 2, 1, 2, 5, 2, 0, 2, 5, 2, 0, 3, 5, 2, 1, 2, 5, 2, 1, 3, 11, 0, 9, 0, 6, 0, 1, 0, 1,
    0, 6, 0, 0, 1, 0,
];

/// Returns `true` if each prefix of the certificate `whole` is confirmed exactly when it has at least `from` bytes.
fn counts_from(alloc: Global, whole: &[u8], from: usize) -> bool {
    let ends = Verdict::No {
        ask: 1,
        why: Why::CertificateEnds,
    };
    for cut in 0..whole.len() {
        let said = said_whole(alloc, (SIXTH, NONE_LEFT, &whole[..cut]));
        if said != Ok(if cut < from { ends } else { Verdict::Yes }) {
            return false;
        }
    }
    is_yes(alloc, (SIXTH, NONE_LEFT, whole))
}

/// Returns `true` if `certificate`, with an ask and the end appended, is confirmed exactly when all of `certificate`
/// is there.
fn is_confirmed_from_its_end(alloc: Global, certificate: &[u8]) -> bool {
    let mut whole = Vec::new(alloc);
    append(&mut whole, &[certificate, &[11, 0, 13]])
        && counts_from(alloc, whole.as_slice(), certificate.len())
}

#[test]
fn certificates_count_up_to_unsat(rt: HostRuntime) {
    for &certificate in &[FOUR_AT_8, FOUR_AT_64, FOUR_AS_WRITTEN, FOUR_AT_0] {
        let right = is_confirmed_from_its_end(rt.alloc(), certificate);
        assert!(rt; right, "{certificate:?}");
    }
}

/// A certificate of the clauses of `FOUR_AT_8` with an empty core, although `unsat` isn't recorded.
const EMPTY_CORE_AT_8: &[u8] = &[
    2, 0, 1, 2, 1, 2, 5, 2, 0, 2, 5, 2, 0, 3, 5, 2, 1, 2, 5, 2, 1, 3, 11, 0, 9, 8, 6, 0, 1, 0, 2,
    68, 230, 1, 12, 0, 2, 230, 1, 68, 11, 0, 13,
];

#[test]
fn cores_are_confirmed(rt: HostRuntime) {
    assert!(rt; is_yes(rt.alloc(), (SIXTH, NONE_LEFT, EMPTY_CORE_AT_8)));
}

/// Returns how many looks a verdict on `texts` adds to `looks`.
fn looks_added(alloc: Global, texts: Texts<'_>, looks: &mut Looks) -> u64 {
    let before = looks.get();
    let _ = said_by(alloc, texts, looks);
    looks.get().saturating_sub(before)
}

/// Returns the number of looks that a new checker takes for a certificate.
fn looks_of(alloc: Global, certificate: &[u8]) -> u64 {
    let mut checker = Checker::new(alloc);
    let looks = looks_by(&mut checker, certificate);
    drop(checker);
    looks
}

/// Returns the number of looks of `checker`, which has accepted nothing yet, for a certificate.
fn looks_by(checker: &mut Checker, certificate: &[u8]) -> u64 {
    let _ = checker.check_proof(&mut Counted::new(certificate));
    checker.looks()
}

/// Answers and certificates for one script. Only the last answers don't match.
static LOOKED_AT: [(&[u8], &[u8]); 4] = [
    (NONE_LEFT, FOUR_AT_8),
    (NONE_LEFT, FOUR_AT_64),
    (NONE_LEFT, EMPTY_CORE_AT_8),
    (b"s UNSATISFIABLE\nf 1 0\n", FOUR_AT_8),
];

fn looked_at() -> &'static [(&'static [u8], &'static [u8])] {
    &LOOKED_AT
}

/// Returns `true` if a verdict adds as many looks as the checker takes, and at least one.
fn are_counted(alloc: Global, answers: &[u8], certificate: &[u8], looks: &mut Looks) -> bool {
    let counted = looks_of(alloc, certificate);
    counted > 0 && looks_added(alloc, (SIXTH, answers, certificate), looks) == counted
}

#[test]
fn looks_are_those_of_the_checker(rt: HostRuntime) {
    let mut looks = Looks::new();
    for &(answers, certificate) in looked_at() {
        let right = are_counted(rt.alloc(), answers, certificate, &mut looks);
        assert!(rt; right, "{certificate:?}");
    }
}

/// The answers, what follows the ask's assumptions in the certificate of `ROW`, and why the verdict is `No`.
static CORES: [(&[u8], &[u8], Why); 10] = [
    (b"s UNSATISFIABLE\nf 0\n", &[12, 0, 0], Why::StepRefused),
    (
        b"s UNSATISFIABLE\nf 0\n",
        &[12, 1, 0, 0],
        Why::AnswerDiffers,
    ),
    (b"s UNSATISFIABLE\nf 0\n", &[13], Why::StepOutOfPlace),
    (b"s UNSATISFIABLE\nf 0\n", &[11, 0], Why::StepOutOfPlace),
    (b"s UNSATISFIABLE\nf 0\n", &[0], Why::StepRefused),
    (b"s UNSATISFIABLE\nf 0\n", &[], Why::CertificateEnds),
    (
        b"s UNSATISFIABLE\nf -2 0\n",
        &[12, 1, 3, 0],
        Why::StepRefused,
    ),
    (
        b"s UNSATISFIABLE\nf -2 0\n",
        &[12, 2, 3, 3, 1, 7],
        Why::StepRefused,
    ),
    (
        b"s UNSATISFIABLE\nf -2 0\n",
        &[12, 1, 0, 0],
        Why::AnswerDiffers,
    ),
    (
        b"s UNSATISFIABLE\nf -2 0\n",
        &[12, 0, 0],
        Why::AnswerDiffers,
    ),
];

fn cores() -> &'static [(&'static [u8], &'static [u8], Why)] {
    &CORES
}

/// Returns `true` if the verdict is `No` because of `why`, when `following` follows the ask's assumptions in the
/// certificate of `ROW`.
fn is_refused_after(alloc: Global, answers: &[u8], following: &[u8], why: Why) -> bool {
    let verdict = Verdict::No { ask: 1, why };
    is_said_of(alloc, answers, (&ROW_STEPS[..12], following, b""), verdict)
}

#[test]
fn cores_are_compared(rt: HostRuntime) {
    for &(answers, following, why) in cores() {
        let right = is_refused_after(rt.alloc(), answers, following, why);
        assert!(rt; right, "{following:?}");
    }
}

/// Three asks: the first two are answered with a model and `unknown`; a clause comes before the third.
const THIRD: &[u8] = b"1 2 0\na 0\na 0\n3 0\na 0\n";

/// The certificate up to the end of the second ask.
const TWO_ASKS: &[u8] = &[
    2, 0, 1, 2, 1, 2, 5, 2, 0, 2, 11, 0, 10, 2, 1, 2, 11, 0, 11, 0, 11, 0,
];

const TWO_ANSWERS: &[u8] = b"s SATISFIABLE\nv -1 2 0\ns UNKNOWN\n";

const THIRD_ANSWER: &[u8] = b"s SATISFIABLE\nv -1 2 3 0\n";

/// What follows the first asks in the answers and in the certificate, and the ask and the reason of a `No`, or `None`
/// for a `Yes`.
pub(crate) type Tail<'a> = (&'a [u8], &'a [u8], Option<(u64, Why)>);

/// Every reason for a `No` at the third ask or after it.
static THIRD_ASKS: [Tail<'static>; 13] = [
    (THIRD_ANSWER, THIRD_STEPS, None),
    (b"", THIRD_STEPS, Some((3, Why::AnswerMissing))),
    (
        b"s SATISFIABLE\n",
        THIRD_STEPS,
        Some((3, Why::AnswerMissing)),
    ),
    (
        b"s SATISFIABLE\nv -1 2 3 0\ns UNKNOWN\n",
        THIRD_STEPS,
        Some((4, Why::AnswerExtra)),
    ),
    (
        b"s SATISFIABLE\nv -1 2 03 0\n",
        THIRD_STEPS,
        Some((3, Why::AnswerText)),
    ),
    (
        THIRD_ANSWER,
        &[2, 2, 3, 5, 1, 5],
        Some((3, Why::ClauseDiffers)),
    ),
    (THIRD_ANSWER, &[2, 2, 4], Some((3, Why::NameDiffers))),
    (THIRD_ANSWER, &[2, 1, 3], Some((3, Why::NameNotFresh))),
    (
        THIRD_ANSWER,
        &[2, 2, 3, 5, 1, 4, 11, 1, 4],
        Some((3, Why::AskDiffers)),
    ),
    (
        b"s SATISFIABLE\nv 1 2 3 0\n",
        THIRD_STEPS,
        Some((3, Why::AnswerDiffers)),
    ),
    (
        THIRD_ANSWER,
        &[2, 2, 3, 5, 1, 4, 11, 0, 6, 0, 1, 0, 0],
        Some((3, Why::StepRefused)),
    ),
    (
        THIRD_ANSWER,
        &[2, 2, 3, 5, 1, 4, 11, 0],
        Some((3, Why::CertificateEnds)),
    ),
    (
        THIRD_ANSWER,
        &[2, 2, 3, 5, 1, 4, 11, 0, 13],
        Some((3, Why::StepOutOfPlace)),
    ),
];

fn third_asks() -> &'static [Tail<'static>] {
    &THIRD_ASKS
}

const THIRD_STEPS: &[u8] = &[2, 2, 3, 5, 1, 4, 11, 0, 10, 3, 1, 2, 4, 11, 0, 13];

/// The first two asks of `THIRD`, then the empty clause and two more asks.
const EMPTY_THIRD: &[u8] = b"1 2 0\na 0\na 0\n0\na 0\na 0\n";

/// Once the empty clause has recorded `unsat`, the rest of the certificate isn't needed.
static EMPTY_ASKS: [Tail<'static>; 7] = [
    (
        b"s UNSATISFIABLE\nf 0\ns UNSATISFIABLE\nf 0\n",
        &[5, 0],
        None,
    ),
    (
        b"s UNSATISFIABLE\nf 0\ns UNSATISFIABLE\nf 0\n",
        &[5, 0, 255],
        None,
    ),
    (
        b"s UNSATISFIABLE\nf 0\n",
        &[5, 0],
        Some((4, Why::AnswerMissing)),
    ),
    (
        b"s UNSATISFIABLE\nf 0\ns UNSATISFIABLE\nf 0\ns UNSATISFIABLE\nf 0\n",
        &[5, 0],
        Some((5, Why::AnswerExtra)),
    ),
    (
        b"s UNSATISFIABLE\nf 0\ns UNSATISFIABLE\nf  0\n",
        &[5, 0],
        Some((4, Why::AnswerText)),
    ),
    (
        b"s UNSATISFIABLE\nf 0\ns UNSATISFIABLE\nf 1 0\n",
        &[5, 0],
        Some((4, Why::AnswerDiffers)),
    ),
    (
        b"s UNSATISFIABLE\nf 0\ns UNKNOWN\n",
        &[5, 0],
        Some((4, Why::AnswerDiffers)),
    ),
];

fn empty_asks() -> &'static [Tail<'static>] {
    &EMPTY_ASKS
}

/// Tests the verdict on a script, when `answers` and `steps` follow the answers `first` and the steps `shown`.
pub(crate) fn is_said_after(
    alloc: Global,
    (script, first, shown): Texts<'_>,
    (answers, steps, no): Tail<'_>,
) -> bool {
    let mut answered = Vec::new(alloc);
    let mut certificate = Vec::new(alloc);
    let verdict = match no {
        None => Verdict::Yes,
        Some((ask, why)) => Verdict::No { ask, why },
    };
    append(&mut answered, &[first, answers])
        && append(&mut certificate, &[shown, steps])
        && is_said(
            alloc,
            (script, answered.as_slice(), certificate.as_slice()),
            verdict,
        )
}

/// Tests the verdict on a script whose first two asks are answered as in `TWO_ANSWERS`.
fn is_said_after_two(alloc: Global, script: &[u8], tail: Tail<'_>) -> bool {
    is_said_after(alloc, (script, TWO_ANSWERS, TWO_ASKS), tail)
}

#[test]
fn later_asks_are_named(rt: HostRuntime) {
    for &tail in third_asks() {
        assert!(rt; is_said_after_two(rt.alloc(), THIRD, tail), "{tail:?}");
    }
    for &tail in empty_asks() {
        assert!(rt;
            is_said_after_two(rt.alloc(), EMPTY_THIRD, tail),
            "{tail:?}"
        );
    }
}

/// Memory is requested for items that were read, never for an announced count: here 2^63-1 literals are announced, and
/// none follows.
#[test]
fn counts_promise_nothing(rt: HostRuntime) {
    let promise = &[5, 255, 255, 255, 255, 255, 255, 255, 255, 127];
    let texts = (ROW, ROW_ANSWERS, promise.as_slice());
    assert!(rt; is_no(rt.alloc(), texts, 1, Why::CertificateEnds));
}

pub(crate) fn is_confirmed(alloc: Global, script: &[u8], budget: u64) -> bool {
    let written = run_on(alloc, &mut fails_at(script, 0), budget);
    let texts = (
        script,
        written.answers.as_slice(),
        written.certificate.as_slice(),
    );
    written.fault.is_none() && is_yes(alloc, texts)
}

const OUT_OF_PLACE: Verdict = Verdict::No {
    ask: 1,
    why: Why::StepOutOfPlace,
};

/// Texts; the reads of script, answers and certificate that fail; and the verdict. Nothing after the step that decides
/// is read.
static DECIDED_BEFORE: [(Texts<'static>, (u64, u64, u64), Verdict); 5] = [
    ((UNITS, NONE_LEFT, &[0x0d]), (0, 0, 2), OUT_OF_PLACE),
    // The first command ends with its fourth byte; then a step is expected.
    ((UNITS, NONE_LEFT, &[0x0d]), (5, 1, 2), OUT_OF_PLACE),
    ((ROW, b"s UNKNOWN\n", ROW_STEPS), (11, 11, 17), OUT_OF_PLACE),
    (
        (ROW, b"c s\n", ROW_STEPS),
        (11, 5, 13),
        Verdict::No {
            ask: 1,
            why: Why::AnswerText,
        },
    ),
    ((ROW, ROW_ANSWERS, ROW_STEPS), (0, 0, 20), Verdict::Yes),
];

fn decided_before() -> &'static [(Texts<'static>, (u64, u64, u64), Verdict)] {
    &DECIDED_BEFORE
}

#[test]
fn nothing_is_read_after_the_decision(rt: HostRuntime) {
    for &(texts, failing, verdict) in decided_before() {
        assert!(rt;
            said_at(rt.alloc(), texts, failing) == Ok(verdict),
            "{texts:?}"
        );
    }
}

/// Returns `true` if `fault` is returned whenever one of the first `reads` reads of a text fails. The text is the
/// script (0), the answers (1) or the certificate (2).
fn each_fails(alloc: Global, texts: Texts<'_>, text: u8, reads: u64, fault: ConfirmFault) -> bool {
    for failing in 1..=reads {
        let reads = match text {
            0 => (failing, 0, 0),
            1 => (0, failing, 0),
            _ => (0, 0, failing),
        };
        if said_at(alloc, texts, reads) != Err(fault) {
            return false;
        }
    }
    true
}

/// Returns `true` if every failing read is reported as a fault of its text, and no further read is made. Script and
/// answers are read up to their end, which takes one more read; the certificate is read `reads` times.
fn each_read_fails(alloc: Global, texts: Texts<'_>, reads: u64) -> bool {
    let script = (texts.0.len() as u64).saturating_add(1);
    let answers = (texts.1.len() as u64).saturating_add(1);
    let following = (
        script.saturating_add(1),
        answers.saturating_add(1),
        reads.saturating_add(1),
    );
    each_fails(alloc, texts, 0, script, ConfirmFault::ScriptRead)
        && each_fails(alloc, texts, 1, answers, ConfirmFault::AnswersRead)
        && each_fails(alloc, texts, 2, reads, ConfirmFault::CertificateRead)
        && said_at(alloc, texts, following) == Ok(Verdict::Yes)
}

/// Tests `each_read_fails` on what a run writes for a script.
fn each_read_of_run_fails(alloc: Global, script: &[u8], reads: u64) -> bool {
    let written = run_on(alloc, &mut fails_at(script, 0), AMPLE);
    let texts = (
        script,
        written.answers.as_slice(),
        written.certificate.as_slice(),
    );
    written.fault.is_none() && each_read_fails(alloc, texts, reads)
}

/// Scripts, and how many bytes of their certificates are read: all of them if the last ask has a model, otherwise those
/// up to the step that records `unsat`.
static READ_IN_TURN: [(&[u8], u64); 5] = [
    (ROW, 27),
    (SIXTH, 50),
    (b"1 2 0\n-2 0\nh 2 0\na -1 0\n", 48),
    (b"1 0\na -1 0\n2 0\na 0\n-3 -4 0\na 3 4 0\n", 72),
    (b"1 0\na 1 0\nh 1 0\n-1 0\na 0\n", 47),
];

#[test]
fn each_read_fails_in_turn(rt: HostRuntime) {
    for &(script, reads) in &READ_IN_TURN {
        let right = each_read_of_run_fails(rt.alloc(), script, reads);
        assert!(rt; right, "{script:?}");
    }
}
