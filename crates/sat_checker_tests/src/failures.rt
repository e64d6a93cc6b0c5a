//! Tests of processors and transcripts that return a fault, at each of their calls.

use crate::announcements::{
    CONFLICT, CONFLICT_BEFORE, CONFLICT_SAID_BEFORE, REFUTATION, REFUTED, REFUTED_SAID, UNITS,
    check_with,
};
use crate::calls::{Answer, Answered, Call, END, error_of};
use crate::dimacs::PAIRS;
use crate::hearing::{
    Heard, HeardCalls, Listener, Notice, Said, add_listener, add_reader, are_done, are_heard,
    first_unheard,
};
use crate::kinds::Kind;
use crate::proofs;
use std::alloc::Global;

/// The number of transcript steps for a number of announcements of the refutation. The fifth announcement has none.
const STEPS: [usize; 7] = [0, 1, 2, 3, 4, 4, 5];

/// Returns how many times the listener at position `place` is called without a fault, if the listener at
/// position `failing` returns a fault for announcement number `at`. Listeners after `failing` are not notified
/// of that announcement.
fn calls(place: usize, failing: usize, at: usize) -> usize {
    if place < failing {
        at
    } else {
        at.saturating_sub(1)
    }
}

/// Returns the announcements that the listener at position `place` accepts.
fn accepted(place: usize, failing: usize, at: usize) -> &'static [Notice] {
    &REFUTED[..calls(place, failing, at).min(REFUTED.len())]
}

/// Returns the steps that the transcript at position `place` accepts.
fn said(place: usize, failing: usize, at: usize) -> &'static [Said] {
    &REFUTED_SAID[..STEPS[calls(place, failing, at).min(6)].min(REFUTED_SAID.len())]
}

/// Adds two processors at positions 1 and 2, and two transcripts at positions 3 and 4.
fn add_four(checker: &mut Heard, failing: usize, at: usize) -> bool {
    add_listener(checker, accepted(1, failing, at))
        && add_reader(checker, said(3, failing, at))
        && add_listener(checker, accepted(2, failing, at))
        && add_reader(checker, said(4, failing, at))
}

/// Returns `true` if a call of a checker returns the fault of a listener that expects no more.
fn is_ended(alloc: Global, checker: &mut Heard, call: Call) -> bool {
    error_of(alloc, checker, call) == Some(Kind::NoMore)
}

/// Returns `true` if a proof ends with the fault of a listener that expects no more, with a processor of the caller's
/// own at position 0.
fn is_ended_with_own(alloc: Global, checker: &mut Heard, awaited: &'static [Notice]) -> bool {
    let mut own = Listener::new(awaited);
    check_with(alloc, checker, REFUTATION, &mut own) == Some(Kind::NoMore) && own.is_done()
}

/// Returns `true` if all calls of a checker return `HasFailed`.
fn has_failed(alloc: Global, checker: &mut Heard) -> bool {
    for call in [Call::Proof(END), Call::Clause(&[]), Call::Settle] {
        if error_of(alloc, checker, call) != Some(Kind::HasFailed) {
            return false;
        }
    }
    true
}

/// Returns `true` if a fault of the listener at position `failing` ends the steps at announcement number `at`. The
/// steps are read as a proof with a processor of the caller's own, or fed one by one.
fn ends(alloc: Global, failing: usize, at: usize, with_own: bool) -> bool {
    let mut checker = Heard::notifying(alloc);
    let ended = add_four(&mut checker, failing, at)
        && (if with_own {
            is_ended_with_own(alloc, &mut checker, accepted(0, failing, at))
        } else {
            is_ended(alloc, &mut checker, Call::Steps(REFUTATION))
        })
        && has_failed(alloc, &mut checker);
    let left = are_done(checker.into_processors(), 2);
    ended && left
}

/// The positions, and the announcements at which the listener at that position is called.
static FAULTS: [(usize, &[usize]); 5] = [
    (0, &[1, 2, 3, 4, 5, 6]),
    (1, &[1, 2, 3, 4, 5, 6]),
    (2, &[1, 2, 3, 4, 5, 6]),
    (3, &[1, 2, 3, 4, 6]),
    (4, &[1, 2, 3, 4, 6]),
];

fn faults() -> &'static [(usize, &'static [usize])] {
    &FAULTS
}

/// Returns the first announcement at which a fault does not end the steps, or `None`.
fn first_unended(alloc: Global, failing: usize, announcements: &[usize]) -> Option<usize> {
    for at in announcements {
        if !ends(alloc, failing, *at, true) || failing > 0 && !ends(alloc, failing, *at, false) {
            return Some(*at);
        }
    }
    None
}

#[test]
fn faults_end_steps(rt: HostRuntime) {
    for &(place, announcements) in faults() {
        let unended = first_unended(rt.alloc(), place, announcements);
        assert!(rt; unended == None, "{place}");
    }
}

const TAKEN: Answer = (None, false, false);

const FAULT: Answer = (Some(Kind::NoMore), false, false);

const HAS_FAILED: Answer = (Some(Kind::HasFailed), false, false);

/// Returns calls that add a formula of four clauses, after which the checker can still be used.
fn taken(call: Call) -> [Answered; 2] {
    [(call, TAKEN), (Call::Proof(END), (None, false, true))]
}

/// Returns calls in which a fault ends the formula, and the checker has failed.
fn ended(call: Call) -> [Answered; 4] {
    [
        (call, FAULT),
        (Call::Proof(END), HAS_FAILED),
        (Call::Clause(&[]), HAS_FAILED),
        (Call::Settle, HAS_FAILED),
    ]
}

/// Returns `true` if the first `count` clauses of a formula are announced, and the next announcement ends the formula.
fn is_reported_up_to(alloc: Global, call: Call, count: usize) -> bool {
    let (announced, said) = (accepted(0, 1, count), said(0, 1, count));
    if count == 4 {
        are_heard(alloc, announced, said, &taken(call))
    } else {
        are_heard(alloc, announced, said, &ended(call))
    }
}

/// Returns the first number of clauses after which a fault does not end a formula, given as such or as a text,
/// or `None`.
fn first_unreported(alloc: Global) -> Option<usize> {
    for count in 0..5 {
        if !is_reported_up_to(alloc, Call::Formula(proofs::PAIRS), count)
            || !is_reported_up_to(alloc, Call::Dimacs(PAIRS), count)
        {
            return Some(count);
        }
    }
    None
}

#[test]
fn faults_end_formulas(rt: HostRuntime) {
    let wrong = first_unreported(rt.alloc());
    assert!(rt; wrong == None, "{wrong:?}");
}

const UNSAT: Answer = (None, true, false);

const UNSAT_FAULT: Answer = (Some(Kind::NoMore), true, false);

const UNSAT_HAS_FAILED: Answer = (Some(Kind::HasFailed), true, false);

/// A fault at the empty clause of a unit conflict ends `self_check_delayed_steps`.
const SETTLED: &[Answered] = &[
    (Call::Steps(UNITS), UNSAT),
    (Call::Settle, UNSAT_FAULT),
    (Call::Proof(END), UNSAT_HAS_FAILED),
    (Call::Clause(&[]), UNSAT_HAS_FAILED),
    (Call::Settle, UNSAT_HAS_FAILED),
];

/// A fault at that empty clause also ends a proof.
const ENDED: &[Answered] = &[
    (Call::Steps(UNITS), UNSAT),
    (Call::Proof(END), UNSAT_FAULT),
    (Call::Proof(END), UNSAT_HAS_FAILED),
    (Call::Clause(&[]), UNSAT_HAS_FAILED),
    (Call::Settle, UNSAT_HAS_FAILED),
];

static DELAYED: [HeardCalls; 4] = [
    (
        "a processor answers a fault to the empty clause that is settled",
        CONFLICT_BEFORE,
        CONFLICT_SAID_BEFORE,
        SETTLED,
    ),
    (
        "a processor answers a fault to the empty clause at the end",
        CONFLICT_BEFORE,
        CONFLICT_SAID_BEFORE,
        ENDED,
    ),
    (
        "a transcript answers a fault to the empty clause that is settled",
        CONFLICT,
        CONFLICT_SAID_BEFORE,
        SETTLED,
    ),
    (
        "a transcript answers a fault to the empty clause at the end",
        CONFLICT,
        CONFLICT_SAID_BEFORE,
        ENDED,
    ),
];

fn delayed() -> &'static [HeardCalls] {
    &DELAYED
}

#[test]
fn faults_end_delayed_steps(rt: HostRuntime) {
    let wrong = first_unheard(rt.alloc(), delayed());
    assert!(rt; wrong == None, "{wrong:?}");
}
