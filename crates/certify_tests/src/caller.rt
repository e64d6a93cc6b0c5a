//! A caller of `confirm` with a contract of its own, and calls of `headline_over`.
ghost use Rattle.std.specs.Prelude.{◌≡◌, true};
ghost use Rattle.certify.specs.Devices.{reader_before_after};
ghost use Rattle.certify.specs.confirm.VerdictPromises.{GaveRightAnswers};

use certify::confirm::confirm;
use certify::headline::headline_over;
use certify::verdict::{Verdict, Why};
use sat_base::{Counted, CountedRead};
use sat_checker::Looks;
use std::alloc::Global;

/// Returns `true` if a certificate shows that the answers to a script are correct.
fn are_right<S: CountedRead, A: CountedRead, C: CountedRead>(
    alloc: Global,
    script: &mut S,
    answers: &mut A,
    certificate: &mut C,
) -> bool
    ensures { result ≡ true → GaveRightAnswers (reader_before_after S.seen script.old script.new)
        (reader_before_after A.seen answers.old answers.new) }
{
    let mut looks = Looks::new();
    match confirm(alloc, script, answers, certificate, &mut looks) {
        Ok(Verdict::Yes) => true,
        _ => false,
    }
}

/// Returns `true` if the answers and the certificate are confirmed for a script of one unit clause and an ask.
fn is_shown(alloc: Global, answers: &[u8], certificate: &[u8]) -> bool {
    are_right(
        alloc,
        &mut Counted::new(b"1 0\na 0\n".as_slice()),
        &mut Counted::new(answers),
        &mut Counted::new(certificate),
    )
}

#[test]
fn answers_are_shown_right(rt: HostRuntime) {
    let model = b"s SATISFIABLE\nv 1 0\n".as_slice();
    let steps = [2, 0, 1, 5, 1, 0, 11, 0, 10, 1, 0, 11, 0, 13];
    assert!(rt; is_shown(rt.alloc(), model, &steps));
    assert!(rt; !is_shown(rt.alloc(), b"s UNKNOWN\n", &steps));
}

/// Returns two verdicts about a script of one unit clause and an ask: on what `run` writes, and on `claimed`
/// and `shown`.
fn said_of(alloc: Global, claimed: &[u8], shown: &[u8]) -> Option<(Verdict, Verdict)> {
    let script = b"1 0\na 0\n".as_slice();
    match headline_over(alloc, script, 1, claimed, shown, &mut Looks::new()) {
        Ok(verdicts) => Some((verdicts.own, verdicts.other)),
        Err(_) => None,
    }
}

#[test]
fn runs_are_certified(rt: HostRuntime) {
    let model = b"s SATISFIABLE\nv 1 0\n".as_slice();
    let steps = [2, 0, 1, 5, 1, 0, 11, 0, 10, 1, 0, 11, 0, 13];
    assert!(rt; said_of(rt.alloc(), model, &steps) == Some((Verdict::Yes, Verdict::Yes)));
    let wrong = Verdict::No {
        ask: 1,
        why: Why::AnswerDiffers,
    };
    let other = b"s SATISFIABLE\nv -1 0\n".as_slice();
    assert!(rt; said_of(rt.alloc(), other, &steps) == Some((Verdict::Yes, wrong)));
}
