//! Tests of steps that are accepted or refused, read from their bytes and fed one by one.

use crate::calls::{Answer, Answered, Call, Calls, answers, are_answered, first_wrong};
use crate::kinds::Kind;
use crate::listeners::{FailsAt, add_quiet};
use sat_base::{CountedRead, Lit, StepReader};
use sat_checker::{Checker, CheckerError, SelfChecker};
use std::alloc::Global;

/// Feeds a checker the steps of a text, up to the first refused step.
fn fed<C: SelfChecker, R: CountedRead>(
    checker: &mut C,
    steps: &mut StepReader<'_, R>,
) -> Result<(), CheckerError> {
    for _ in 0..100 {
        if steps.advance().is_err() {
            return Ok(());
        }
        checker.self_check_step(&steps.step())?;
    }
    Ok(())
}

/// Feeds a checker the steps of a reader, up to the first refused step.
pub(crate) fn read_by<C: SelfChecker, R: CountedRead>(
    alloc: Global,
    checker: &mut C,
    reader: &mut R,
) -> Result<(), CheckerError> {
    fed(checker, &mut StepReader::new(alloc, reader))
}

/// Returns `true` if calls have the given results while a processor and a transcript accept everything that is
/// announced.
fn is_answered_to_listeners(alloc: Global, calls: &[Answered]) -> bool {
    let mut checker: Checker<FailsAt, FailsAt> = Checker::notifying(alloc);
    let right = add_quiet(&mut checker) && answers(alloc, &mut checker, calls);
    drop(checker);
    right
}

/// Returns `true` if steps have the result `answer`, and an empty clause after them has the result `following`. The
/// steps are read in one chunk and in chunks of one byte, with and without listeners.
pub(crate) fn is_answered(
    alloc: Global,
    text: &'static [u8],
    answer: Answer,
    following: Answer,
) -> bool {
    let empty = (Call::Clause(&[]), following);
    let calls = [(Call::Steps(text), answer), empty];
    are_answered(alloc, &calls)
        && are_answered(alloc, &[(Call::StepsByOne(text), answer), empty])
        && is_answered_to_listeners(alloc, &calls)
}

const TAKEN: Answer = (None, false, false);

const REFUTED: Answer = (None, true, false);

const REFUSED: Answer = (Some(Kind::CheckFailed), false, false);

/// Steps that name the first variable and hide it.
const HIDDEN: &[u8] = &[2, 0, 1, 2, 0, 0];

static CALLS: [Calls; 2] = [
    (
        "a refused clause isn't the last",
        &[
            (Call::Steps(HIDDEN), TAKEN),
            (Call::Clause(&[1]), REFUSED),
            (Call::Clause(&[]), REFUTED),
        ],
    ),
    (
        "contradicting units are settled, which may be asked again, and a checker that has failed settles nothing",
        &[
            (Call::Clause(&[1]), TAKEN),
            (Call::Clause(&[-1]), REFUTED),
            (Call::Settle, REFUTED),
            (Call::Settle, REFUTED),
            // The variable is deleted, and can't be deleted again.
            (Call::Steps(&[3, 0]), REFUTED),
            (Call::Steps(&[3, 0]), (Some(Kind::CheckFailed), true, false)),
            (Call::Settle, (Some(Kind::HasFailed), true, false)),
        ],
    ),
];

fn all_calls() -> &'static [Calls] {
    &CALLS
}

#[test]
fn calls_around_steps_are_answered(rt: HostRuntime) {
    let wrong = first_wrong(rt.alloc(), all_calls());
    assert!(rt; wrong == None, "{wrong:?}");
}

/// Returns `true` if a conflict of two units is pending until it is settled.
fn is_pending_once(checker: &mut Checker, lit: Lit) -> bool {
    checker.is_settled()
        && checker.add_clause(&[lit]).is_ok()
        && checker.add_clause(&[!lit]).is_ok()
        && !checker.is_settled()
        && checker.self_check_delayed_steps().is_ok()
        && checker.is_settled()
}

#[test]
fn conflicts_are_pending_until_settled(rt: HostRuntime) {
    let mut checker = Checker::new(rt.alloc());
    let right = is_pending_once(&mut checker, Lit::from_code(0));
    drop(checker);
    assert!(rt; right);
}
