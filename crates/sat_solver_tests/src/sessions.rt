//! Tests of asks that are repeated, of texts that are faulty or not read to their end, of variable counts, and of modes
//! and parameters.

use crate::calls::{Call, Kind, Part, SAME, are, plain};
use crate::driver::{Bytes, is_accepted, result_of};
use crate::scripts::{first_wrong, text_of};
use sat_base::{CnfFormula, Counted, ExtendFormula, Var};
use sat_solver::{ProofFormat, Solver, SolverConfigUpdate, SolverError};
use std::alloc::Global;
use std::io;
use std::io::{ErrorKind, Read};

/// A fault of the text counts if it comes before the end of the clause with the witness variable.
const FAULT_AFTER_WITNESS: &[Part<'static>] = &[
    (Kind::Right, &[Call::Witness(3)]),
    (Kind::Malformed, &[Call::Text(b"3 x")]),
    (Kind::Limit, &[Call::Text(b"3 268435457 0")]),
    (
        Kind::Witness,
        &[Call::Text(b"3 0 x"), Call::Text(b"3 0 268435457 0")],
    ),
    (
        Kind::Right,
        &[
            Call::New(4),
            Call::Solve(true),
            Call::Model(&[-1, -2, -3, -4]),
        ],
    ),
];

const HEADER: &[Part<'static>] = &[(
    Kind::Right,
    &[
        Call::Text(b"p cnf 9 1\n1 2 0\n"),
        Call::Counts([2, 1, 0]),
        Call::Solve(true),
        Call::Model(&[-1, 2]),
        Call::New(3),
    ],
)];

const NO_ROUNDS: SolverConfigUpdate = SolverConfigUpdate {
    max_steps: Some(0),
    ..SAME
};

/// Parameters out of their ranges are refused, together with one in its range, and nothing changes.
const OUT_OF_RANGE: &[Part<'static>] = &[
    (
        Kind::OutOfRange,
        &[
            Call::Set(SolverConfigUpdate {
                clause_activity_decay: Some(499),
                ..NO_ROUNDS
            }),
            Call::Set(SolverConfigUpdate {
                clause_activity_decay: Some(1000),
                ..NO_ROUNDS
            }),
            Call::Set(SolverConfigUpdate {
                reduce_locals_interval: Some(0),
                ..NO_ROUNDS
            }),
            Call::Set(SolverConfigUpdate {
                reduce_mids_interval: Some(0),
                ..NO_ROUNDS
            }),
        ],
    ),
    (Kind::Right, &[Call::Solve(true)]),
];

const MODES: &[Part<'static>] = &[
    (
        Kind::Right,
        &[
            Call::Sample(1),
            Call::Witness(2),
            Call::Witness(3),
            Call::Sample(3),
        ],
    ),
    (Kind::Witness, &[Call::Clause(&[1, 2])]),
    (
        Kind::Right,
        &[
            Call::Clause(&[1, -3]),
            Call::Solve(true),
            Call::Sample(2),
            Call::Model(&[-1, -2, -3]),
        ],
    ),
];

const SESSIONS: &[&[Part<'static>]] = &[FAULT_AFTER_WITNESS, HEADER, OUT_OF_RANGE, MODES];

fn sessions() -> &'static [&'static [Part<'static>]] {
    SESSIONS
}

#[test]
fn sessions_are_answered(rt: HostRuntime) {
    let wrong = first_wrong(rt.alloc(), sessions());
    assert!(rt; wrong == None, "{wrong:?}");
}

/// Returns `true` if a session has an empty proof in the format `format`.
fn has_no_line(alloc: Global, format: ProofFormat, parts: &[Part<'_>]) -> bool {
    match text_of(alloc, format, &[], parts) {
        Some(text) => text.is_empty(),
        None => false,
    }
}

/// Modes are set without a target, and have no line in the DRAT formats.
#[test]
fn modes_have_no_lines(rt: HostRuntime) {
    assert!(rt; result_of(rt.alloc(), plain(MODES)) == Kind::Right);
    assert!(rt; has_no_line(rt.alloc(), ProofFormat::Drat, MODES));
    assert!(rt; has_no_line(rt.alloc(), ProofFormat::BinaryDrat, MODES));
}

/// Calls before an ask, the ask twice, and calls after it.
type Asked = (&'static [Call], &'static [Call], &'static [Call]);

const ASKED: &[Asked] = &[
    (
        &[],
        &[Call::Solve(true), Call::Solve(true)],
        &[Call::Steps(1), Call::Model(&[])],
    ),
    (
        &[Call::Clause(&[1, 2])],
        &[Call::Solve(true), Call::Solve(true)],
        &[
            Call::Steps(1),
            Call::Model(&[-1, 2]),
            Call::Clause(&[1]),
            Call::Solve(true),
        ],
    ),
    (
        &[Call::Clause(&[-1, -2]), Call::Assume(&[1, 2])],
        &[Call::Solve(false), Call::Solve(false)],
        &[Call::Core(&[2, 1]), Call::Clause(&[3]), Call::Solve(false)],
    ),
    (
        &[Call::Clause(&[1]), Call::Solve(true), Call::Clause(&[-1])],
        &[Call::Solve(false), Call::Solve(false)],
        &[Call::Core(&[])],
    ),
];

/// Returns `true` if the proof of a session is accepted, and is the same if the session asks once.
fn is_answered_again(alloc: Global, (before, asks, after): Asked) -> bool {
    let twice = [
        (Kind::Right, before),
        (Kind::Right, asks),
        (Kind::Right, after),
    ];
    let once = [
        (Kind::Right, before),
        (Kind::Right, &asks[..asks.len().min(1)]),
        (Kind::Right, after),
    ];
    match (
        text_of(alloc, ProofFormat::Varisat, &[], &twice),
        text_of(alloc, ProofFormat::Varisat, &[], &once),
    ) {
        (Some(text), Some(wanted)) => {
            text.as_slice() == wanted.as_slice() && is_accepted(alloc, &text)
        }
        (Some(_), None) => false,
        (None, _) => false,
    }
}

fn asked() -> &'static [Asked] {
    ASKED
}

#[test]
fn repeated_asks_have_no_steps(rt: HostRuntime) {
    for row in asked() {
        assert!(rt; is_answered_again(rt.alloc(), *row));
    }
}

/// A reader that fails once its text is read.
#[derive(Drop)]
struct Broken<'a> {
    text: &'a [u8],
}

impl Read for Broken<'_> {
    fn read(&mut self, buf: &mut [u8]) -> io::Result<usize> {
        if self.text.is_empty() {
            return Err(io::Error::from(ErrorKind::Interrupted));
        }
        self.text.read(buf)
    }
}

fn has_model(solver: &mut Solver<Bytes>, model: &[i64]) -> bool {
    if !matches!(solver.solve(), Ok(true)) {
        return false;
    }
    match solver.model() {
        Ok(Some(lits)) => are(&lits, model),
        Ok(None) => false,
        Err(_) => false,
    }
}

/// Returns `true` if the failure of a read after `text` is reported, and the clauses read before it have the model
/// `model`.
fn is_reported_after(solver: &mut Solver<Bytes>, text: &[u8], model: &[i64]) -> bool {
    let added = solver.add_dimacs_cnf(&mut Counted::new(Broken { text }));
    matches!(added, Err(SolverError::Read)) && has_model(solver, model)
}

fn keeps(alloc: Global, (text, model): (&[u8], &[i64])) -> bool {
    let mut solver = Solver::new(alloc);
    let kept = is_reported_after(&mut solver, text, model);
    drop(solver);
    kept
}

/// What is read before a failure, and the model of the clauses that are added. A number ends at the byte after it.
const READ: [(&[u8], &[i64]); 4] = [
    (b"1 0", &[]),
    (b"1 0 ", &[1]),
    (b"1 0 2 0", &[1]),
    (b"1 0 2 0 ", &[1, 2]),
];

#[test]
fn clauses_before_a_failed_read_remain(rt: HostRuntime) {
    for row in &READ {
        assert!(rt; keeps(rt.alloc(), *row));
    }
}

/// Adds the clause 1 2 as a formula of nine variables. Returns the number of variables that have no value, and the
/// next name.
fn counts(alloc: Global, solver: &mut Solver<Bytes>) -> Option<(u64, Var)> {
    let mut formula = CnfFormula::new(alloc);
    formula.set_var_count(9);
    let lits = [Var::from_index(0).positive(), Var::from_index(1).positive()];
    if formula.add_clause(&lits).is_err() || solver.add_formula(&formula).is_err() {
        return None;
    }
    let vars = solver.progress().vars;
    match solver.new_var() {
        Ok(name) => Some((vars, name)),
        Err(_) => None,
    }
}

fn counts_in_new(alloc: Global) -> Option<(u64, Var)> {
    let mut solver = Solver::new(alloc);
    let found = counts(alloc, &mut solver);
    drop(solver);
    found
}

#[test]
fn variable_counts_introduce_no_name(rt: HostRuntime) {
    assert!(rt; counts_in_new(rt.alloc()) == Some((2, Var::from_index(2))));
}
