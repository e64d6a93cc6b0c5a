//! Calls of a checker, one after another, and their results.
//!
//! Tests are lists of calls, and a single function makes the calls, so the tests are cheap to prove.

use crate::devices::by_one;
use crate::kinds::{Kind, dimacs_failure, failure};
use crate::steps::read_by;
use sat_base::{CnfFormula, Counted, ExtendFormula, Lit};
use sat_checker::{Checker, ProofProcessor, ProofTranscriptProcessor, SelfChecker};
use std::alloc::Global;

/// Clauses, by the numbers of their literals.
pub(crate) type Clauses = &'static [&'static [i64]];

/// A call of a checker. If a call has a number, its text is read byte by byte and the read with this number fails; with
/// 0, none fails.
#[derive(Clone, Copy)]
pub(crate) enum Call {
    Clause(&'static [i64]),
    Formula(Clauses),
    /// A formula's text.
    Dimacs(&'static [u8]),
    DimacsByOne(&'static [u8], u64),
    /// Steps that are fed one by one.
    Steps(&'static [u8]),
    StepsByOne(&'static [u8]),
    /// Steps that are fed as a proof.
    Proof(&'static [u8]),
    ProofByOne(&'static [u8], u64),
    /// A call of `self_check_delayed_steps`.
    Settle,
}

/// The result of a call: its error, whether unsat is recorded afterwards, and whether `End` was accepted.
pub(crate) type Answer = (Option<Kind>, bool, bool);

/// A call, and its result.
pub(crate) type Answered = (Call, Answer);

/// The name of a test, and its calls of a new checker.
pub(crate) type Calls = (&'static str, &'static [Answered]);

/// A proof that consists of its end.
pub(crate) const END: &[u8] = &[13];

/// Appends the literals with the given DIMACS numbers. Returns `false` if memory runs out.
fn push_lits(lits: &mut Vec<Lit>, numbers: &[i64]) -> bool {
    for number in numbers {
        let pushed = match Lit::from_dimacs(*number) {
            Some(lit) => lits.push(lit).is_ok(),
            None => false,
        };
        if !pushed {
            return false;
        }
    }
    true
}

/// Returns the clause with the given literals, or `None` if memory runs out.
fn clause_of(alloc: Global, numbers: &[i64]) -> Option<Vec<Lit>> {
    let mut lits = Vec::new(alloc);
    if push_lits(&mut lits, numbers) {
        Some(lits)
    } else {
        None
    }
}

fn add_clause<P: ProofProcessor, T: ProofTranscriptProcessor>(
    alloc: Global,
    checker: &mut Checker<P, T>,
    numbers: &[i64],
) -> Option<Kind> {
    match clause_of(alloc, numbers) {
        Some(lits) => failure(alloc, &checker.add_clause(lits.as_slice())),
        None => Some(Kind::OutOfMemory),
    }
}

/// Adds clauses to a formula. Returns `false` if memory runs out.
fn fill(alloc: Global, formula: &mut CnfFormula, clauses: Clauses) -> bool {
    for numbers in clauses {
        let added = match clause_of(alloc, *numbers) {
            Some(lits) => formula.add_clause(lits.as_slice()).is_ok(),
            None => false,
        };
        if !added {
            return false;
        }
    }
    true
}

fn add_formula<P: ProofProcessor, T: ProofTranscriptProcessor>(
    alloc: Global,
    checker: &mut Checker<P, T>,
    clauses: Clauses,
) -> Option<Kind> {
    let mut formula = CnfFormula::new(alloc);
    if !fill(alloc, &mut formula, clauses) {
        return Some(Kind::OutOfMemory);
    }
    failure(alloc, &checker.add_formula(&formula))
}

fn read<P: ProofProcessor, T: ProofTranscriptProcessor>(
    alloc: Global,
    checker: &mut Checker<P, T>,
    text: &[u8],
) -> Option<Kind> {
    dimacs_failure(alloc, &checker.add_dimacs_cnf(&mut Counted::new(text)))
}

fn read_by_one<P: ProofProcessor, T: ProofTranscriptProcessor>(
    alloc: Global,
    checker: &mut Checker<P, T>,
    text: &[u8],
    failing: u64,
) -> Option<Kind> {
    dimacs_failure(alloc, &checker.add_dimacs_cnf(&mut by_one(text, failing)))
}

fn feed<P: ProofProcessor, T: ProofTranscriptProcessor>(
    alloc: Global,
    checker: &mut Checker<P, T>,
    text: &[u8],
) -> Option<Kind> {
    failure(alloc, &read_by(alloc, checker, &mut Counted::new(text)))
}

fn feed_by_one<P: ProofProcessor, T: ProofTranscriptProcessor>(
    alloc: Global,
    checker: &mut Checker<P, T>,
    text: &[u8],
) -> Option<Kind> {
    failure(alloc, &read_by(alloc, checker, &mut by_one(text, 0)))
}

fn check<P: ProofProcessor, T: ProofTranscriptProcessor>(
    alloc: Global,
    checker: &mut Checker<P, T>,
    text: &[u8],
) -> Option<Kind> {
    failure(alloc, &checker.check_proof(&mut Counted::new(text)))
}

fn check_by_one<P: ProofProcessor, T: ProofTranscriptProcessor>(
    alloc: Global,
    checker: &mut Checker<P, T>,
    text: &[u8],
    failing: u64,
) -> Option<Kind> {
    failure(alloc, &checker.check_proof(&mut by_one(text, failing)))
}

/// Makes a call, and returns its error.
pub(crate) fn error_of<P: ProofProcessor, T: ProofTranscriptProcessor>(
    alloc: Global,
    checker: &mut Checker<P, T>,
    call: Call,
) -> Option<Kind> {
    match call {
        Call::Clause(numbers) => add_clause(alloc, checker, numbers),
        Call::Formula(clauses) => add_formula(alloc, checker, clauses),
        Call::Dimacs(text) => read(alloc, checker, text),
        Call::DimacsByOne(text, failing) => read_by_one(alloc, checker, text, failing),
        Call::Steps(text) => feed(alloc, checker, text),
        Call::StepsByOne(text) => feed_by_one(alloc, checker, text),
        Call::Proof(text) => check(alloc, checker, text),
        Call::ProofByOne(text, failing) => check_by_one(alloc, checker, text, failing),
        Call::Settle => failure(alloc, &checker.self_check_delayed_steps()),
    }
}

/// Returns `true` if calls of `checker`, one after another, have the given results.
pub(crate) fn answers<P: ProofProcessor, T: ProofTranscriptProcessor>(
    alloc: Global,
    checker: &mut Checker<P, T>,
    calls: &[Answered],
) -> bool {
    for (call, answer) in calls {
        let error = error_of(alloc, checker, *call);
        if (error, checker.unsat(), checker.ended()) != *answer {
            return false;
        }
    }
    true
}

/// Returns `true` if calls of a new checker, one after another, have the given results.
pub(crate) fn are_answered(alloc: Global, calls: &[Answered]) -> bool {
    let mut checker = Checker::new(alloc);
    let right = answers(alloc, &mut checker, calls);
    drop(checker);
    right
}

/// Returns the name of the first test in which a call has another result, or `None`.
pub(crate) fn first_wrong(alloc: Global, rows: &[Calls]) -> Option<&'static str> {
    for row in rows {
        if !are_answered(alloc, row.1) {
            return Some(row.0);
        }
    }
    None
}
