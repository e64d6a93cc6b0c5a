//! Tests of processors that listen to a solver's own checker.

use crate::calls::{Call, FieldsAfter, Kind, Part, done, first_of, plain};
use crate::driver::{Bytes, Closed, Made, Play, Proved, played};
use anyhow::anyhow;
use sat_base::{Counted, CountedWrite};
use sat_checker::{CheckedProofStep, Checker, CheckerData, Nobody, ProofProcessor};
use sat_solver::{ProofFormat, ReturnedParts, Solver};
use std::alloc::Global;

/// A processor that mixes all announcements into one number, and returns an error at call number `at`, counted from 1.
#[derive(Drop)]
struct Listener {
    calls: u64,
    at: u64,
    heard: u64,
}

impl Listener {
    fn new(at: u64) -> Listener {
        Listener {
            calls: 0,
            at,
            heard: 0,
        }
    }
}

/// Returns a number for the kind of an announcement, and a number that the announcement contains.
fn mark(step: &CheckedProofStep<'_>) -> (u64, u64) {
    match step {
        CheckedProofStep::UserVar { var, .. } => (1, var.index() as u64),
        CheckedProofStep::AddClause { id, .. } => (2, *id),
        CheckedProofStep::DuplicatedClause { id, .. } => (3, *id),
        CheckedProofStep::TautologicalClause { id, .. } => (4, *id),
        CheckedProofStep::AtClause { id, .. } => (5, *id),
        CheckedProofStep::MakeIrredundant { id, .. } => (6, *id),
        CheckedProofStep::DeleteClause { id, .. } => (7, *id),
        CheckedProofStep::DeleteAtClause { id, .. } => (8, *id),
        CheckedProofStep::DeleteRatClause { id, .. } => (9, *id),
        CheckedProofStep::Model { assignment } => (10, assignment.len() as u64),
        CheckedProofStep::Assumptions { assumptions } => (11, assumptions.len() as u64),
        CheckedProofStep::FailedAssumptions { failed_core, .. } => (12, failed_core.len() as u64),
        CheckedProofStep::DeleteVar { var } => (13, var.index() as u64),
    }
}

impl ProofProcessor for Listener {
    ghost use Rattle.std.specs.Prelude.{⊤};

    ghost takes = { λ _ _ _ _. ⊤ };

    fn process_step(
        &mut self,
        step: &CheckedProofStep<'_>,
        _names: CheckerData<'_>,
    ) -> anyhow::Result<()> {
        self.calls = self.calls.saturating_add(1);
        if self.calls == self.at {
            return Err(anyhow!("a fault"));
        }
        let (kind, number) = mark(step);
        self.heard = self.heard.wrapping_mul(31).wrapping_add(kind);
        self.heard = self.heard.wrapping_mul(31).wrapping_add(number);
        Ok(())
    }
}

impl Made for Listener {
    fn made(_alloc: Global) -> Listener {
        Listener::new(0)
    }
}

/// Clauses between asks: an ask with a model, one with a core, and finally clauses that can't be satisfied.
const SESSION: &[Part<'static>] = &[(
    Kind::Right,
    &[
        Call::Clause(&[1, 2]),
        Call::Clause(&[1, -2]),
        Call::Assume(&[3]),
        Call::Solve(true),
        Call::Assume(&[-1]),
        Call::Solve(false),
        Call::Clause(&[-1, 2]),
        Call::Clause(&[-1, -2]),
        Call::Assume(&[3]),
        Call::Solve(false),
    ],
)];

/// A play of all calls with two processors. The first fails at the given call of its own, counted from 1.
#[derive(Drop)]
struct Hearing(u64);

impl<W: CountedWrite + Drop + Made> Play<Solver<W, Listener>, Kind> for Hearing {
    fn play(self, alloc: Global, solver: &mut Solver<W, Listener>) -> Kind {
        let first = done(solver.add_proof_processor(Listener::new(self.0)));
        let second = done(solver.add_proof_processor(Listener::new(0)));
        first_of(&[first, second, plain(SESSION).play(alloc, solver)])
    }
}

type Heard = ((Kind, Closed<Bytes>), bool);

/// Returns the number of calls of each processor, and the first one's mixed number, or `None` unless there are
/// two processors.
fn calls_of(processors: &[Listener]) -> Option<(u64, u64, u64)> {
    if processors.len() != 2 {
        return None;
    }
    let (first, second) = (&processors[0], &processors[1]);
    Some((first.calls, second.calls, first.heard))
}

/// Returns how many times the checker of a proof's text calls a processor, and the processor's mixed number.
fn of_text(alloc: Global, text: &[u8]) -> Option<(u64, u64)> {
    let mut checker: Checker<Listener, Nobody> = Checker::notifying(alloc);
    let added = checker.add_processor(Listener::new(0)).is_ok();
    let taken = checker.check_proof(&mut Counted::new(text)).is_ok();
    let returned = checker.into_processors();
    if !added || !taken || returned.processors.len() != 1 {
        return None;
    }
    Some((returned.processors[0].calls, returned.processors[0].heard))
}

/// Returns the outcome of the calls and of the closing, whether the solver has failed, and the text of the proof.
fn end_of(((kind, closed), failed): Heard) -> (Kind, bool, Option<Vec<u8>>) {
    match closed {
        Ok(Some(target)) => (kind, failed, Some(target.into_inner())),
        Ok(None) => (kind, failed, None),
        Err(_) => (kind, failed, None),
    }
}

type Came = (Kind, bool, Option<Vec<u8>>);

/// Plays the session with two processors, the first of which fails at call number `at`. Returns the outcome, and what
/// `calls_of` returns for the processors.
fn of_solver(alloc: Global, at: u64) -> (Came, Option<(u64, u64, u64)>) {
    let act = FieldsAfter(Proved {
        target: Bytes::made(alloc),
        format: ProofFormat::Varisat,
        act: Hearing(at),
    });
    let (heard, returned) = played::<
        ReturnedParts<Bytes, Listener>,
        Solver<Bytes, Listener>,
        Heard,
        FieldsAfter<Proved<Bytes, Hearing>>,
    >(alloc, act);
    (end_of(heard), calls_of(&returned.processors))
}

/// Returns the number of announcements, if both processors receive all of them, and a checker of the text makes
/// equal ones.
fn announcements(alloc: Global) -> Option<u64> {
    let ((kind, _, text), heard) = of_solver(alloc, 0);
    match text {
        Some(text) => reported_alike(alloc, kind, &text, heard?),
        None => None,
    }
}

/// Returns the number of announcements, if the session succeeded, both processors were called that many times, and a
/// checker of the text makes equal announcements.
fn reported_alike(
    alloc: Global,
    kind: Kind,
    text: &[u8],
    (first, second, heard): (u64, u64, u64),
) -> Option<u64> {
    let same = kind == Kind::Right
        && first == second
        && of_text(alloc, text) == Some((first, heard));
    if same { Some(first) } else { None }
}

/// Returns `true` if a fault of the first processor at call number `at` ends the session, and the second processor was
/// called once less.
fn fails_at(alloc: Global, at: u64) -> bool {
    match of_solver(alloc, at) {
        ((Kind::Processor, true, _), Some((first, second, _))) => {
            first == at && second.saturating_add(1) == at
        }
        _ => false,
    }
}

/// Returns `true` if a fault at each announcement ends the session, and there are more than eight announcements.
fn each_fails(alloc: Global) -> bool {
    match announcements(alloc) {
        Some(count) => {
            for at in 1..=count {
                if !fails_at(alloc, at) {
                    return false;
                }
            }
            count > 8
        }
        None => false,
    }
}

#[test]
fn announcements_are_those_of_the_text_and_each_may_fail(rt: HostRuntime) {
    assert!(rt; each_fails(rt.alloc()));
}
