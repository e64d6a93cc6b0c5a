//! Tests in which each call of a proof's target fails in turn, in each format, with and without the solver's own
//! checker; and tests that a solver doesn't call a target or a processor while it is dropped.

use crate::calls::{Call, CallParts, FieldsAfter, Kind, Part, done, kind_of};
use crate::devices::{ByFew, Tally, by_few};
use crate::driver::{Closed, Play, Proved, played};
use sat_base::Counted;
use sat_solver::{ProofFormat, ReturnedParts, Solver};
use std::alloc::Global;
use std::cell::Cell;

const ROWS: &[&[i64]] = &[
    &[1, 2, 3],
    &[1, 2, -3],
    &[1, -2, 3],
    &[1, -2, -3],
    &[-1, 2, 3],
    &[-1, 2, -3],
    &[-1, -2, 3],
    &[4, 5],
];

const LINES: &[Part<'static>] = &[(Kind::Right, &[Call::Formula(ROWS), Call::Solve(true)])];

/// A name is hidden, and is introduced again before a second ask.
const STEPS: &[Part<'static>] = &[(
    Kind::Right,
    &[
        Call::Formula(ROWS),
        Call::Solve(true),
        Call::Hide(4),
        Call::Clause(&[-1, -2, -3, 4]),
        Call::Assume(&[-4, 6]),
        Call::Solve(false),
    ],
)];

const CHECKED: &[Part<'static>] = &[(Kind::Right, &[Call::Check])];

/// A session: the calls that are made first, which start the solver's own checker if there are any; the format of the
/// proof; and the other calls.
type Row = (
    &'static [Part<'static>],
    ProofFormat,
    &'static [Part<'static>],
);

const SESSIONS: &[Row] = &[
    (&[], ProofFormat::Varisat, STEPS),
    (CHECKED, ProofFormat::Varisat, STEPS),
    (&[], ProofFormat::Drat, LINES),
    (CHECKED, ProofFormat::Drat, LINES),
    (&[], ProofFormat::BinaryDrat, LINES),
    (CHECKED, ProofFormat::BinaryDrat, LINES),
];

type Few = Counted<ByFew>;

type Ended = ((Kind, Closed<Few>), bool);

fn calls_of(target: Few) -> u64 {
    target.into_inner().calls
}

/// Returns the outcome of a session, including the closing of its proof, and the number of calls of the target, which
/// is returned by the closing or else by the solver.
fn end_of(answered: Kind, closed: Closed<Few>, left: Option<Few>) -> (Kind, u64) {
    match (closed, left) {
        (Ok(Some(target)), None) => (answered, calls_of(target)),
        (Err(error), Some(target)) => {
            let kind = if answered == Kind::Right {
                kind_of(&error)
            } else {
                answered
            };
            (kind, calls_of(target))
        }
        _ => (Kind::Wrong, 0),
    }
}

/// Plays a session whose target accepts seven bytes at a time and fails at call number `failing`. Returns the outcome,
/// whether the solver has failed afterwards, and the number of calls of the target.
fn end_with(alloc: Global, (front, format, parts): Row, failing: u64) -> (Kind, bool, u64) {
    let act = FieldsAfter(Proved {
        target: by_few(alloc, 7, failing),
        format,
        act: CallParts { front, parts },
    });
    let (((answered, closed), failed), left) = played::<
        Option<Few>,
        Solver<Few>,
        Ended,
        FieldsAfter<Proved<Few, CallParts<'_>>>,
    >(alloc, act);
    let (kind, calls) = end_of(answered, closed, left);
    (kind, failed, calls)
}

/// Returns `true` if a failure of each call of the target is reported, no call follows it, and the target is returned.
fn each_fails(alloc: Global, row: Row) -> bool {
    let (whole, _, calls) = end_with(alloc, row, 0);
    for at in 1..=calls {
        if end_with(alloc, row, at) != (Kind::Target, true, at) {
            return false;
        }
    }
    whole == Kind::Right && calls > 2
}

fn sessions() -> &'static [Row] {
    SESSIONS
}

#[test]
fn each_call_of_a_target_fails(rt: HostRuntime) {
    for row in sessions() {
        assert!(rt; each_fails(rt.alloc(), *row));
    }
}

/// A play that passes a proof's target and a processor to a solver that has been used, and asks.
#[derive(Drop)]
struct Late<'a>(&'a Cell<u64>);

impl<'a> Play<Solver<Counted<Tally<'a>>, Tally<'a>>, [Kind; 4]> for Late<'a> {
    fn play(self, _alloc: Global, solver: &mut Solver<Counted<Tally<'a>>, Tally<'a>>) -> [Kind; 4] {
        let used = done(solver.assume(&[]));
        let target = Counted::new(Tally { calls: self.0 });
        let proof = done(solver.write_proof(target, ProofFormat::Varisat));
        let processor = done(solver.add_proof_processor(Tally { calls: self.0 }));
        [used, proof, processor, done(solver.solve())]
    }
}

/// Plays `Late`. Returns the results of its calls, and how many times target and processor are called, including while
/// they are dropped.
fn reported_late(alloc: Global) -> ([Kind; 4], u64) {
    let calls = Cell::new(0);
    let (kinds, left) = played::<
        ReturnedParts<Counted<Tally<'_>>, Tally<'_>>,
        Solver<Counted<Tally<'_>>, Tally<'_>>,
        [Kind; 4],
        Late<'_>,
    >(alloc, Late(&calls));
    drop(left);
    (kinds, calls.get())
}

#[test]
fn what_comes_too_late_is_not_called(rt: HostRuntime) {
    let refused = [Kind::Right, Kind::TooLate, Kind::TooLate, Kind::Right];
    assert!(rt; reported_late(rt.alloc()) == (refused, 0));
}
