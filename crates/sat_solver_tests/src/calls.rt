//! Sessions: calls of a solver, and the result of each call.

use crate::driver::{Made, Play};
use sat_base::{CnfFormula, Counted, CountedWrite, ExtendFormula, Lit, Var};
use sat_checker::ProofProcessor;
use sat_solver::{Progress, ProofFormat, Solver, SolverConfigUpdate, SolverError};
use std::alloc::{AllocError, Global};
use std::io::ErrorKind;

/// The result of a call.
#[derive(Clone, Copy, PartialEq, Eq)]
pub(crate) enum Kind {
    /// The call succeeds with the expected result.
    Right,
    Wrong,
    Interrupted,
    Processor,
    /// The call fails with the target's error.
    Target,
    Witness,
    Assumed,
    TooLate,
    NotInDrat,
    Limit,
    Malformed,
    OutOfRange,
    Failed,
    Other,
}

/// A call of a solver, with the result that it has if it isn't refused. Names and literals are numbers.
pub(crate) enum Call {
    Clause(&'static [i64]),
    Formula(&'static [&'static [i64]]),
    Text(&'static [u8]),
    Assume(&'static [i64]),
    Set(SolverConfigUpdate),
    /// Sets how many rounds an ask may take.
    Allow(u64),
    Solve(bool),
    /// An ask under the first literals, which has the second ones as its model. There are no assumptions afterwards.
    Sat(&'static [i64], &'static [i64]),
    /// An ask under the first literals, which has the second ones as its core. There are no assumptions afterwards.
    Unsat(&'static [i64], &'static [i64]),
    Model(&'static [i64]),
    Core(&'static [i64]),
    /// Neither a model nor a core is known.
    Unknown,
    /// The number of variables without a value, of clauses of two literals, and of long clauses.
    Counts([u64; 3]),
    /// The number of rounds.
    Steps(u64),
    /// The smallest and the largest number of restarts.
    Restarts(u64, u64),
    Hide(i64),
    Witness(i64),
    Sample(i64),
    New(i64),
    /// The names that hidden variables are given.
    Observe(&'static [i64]),
    Check,
    AddProcessor,
    Proof,
    Close,
}

/// Calls that all have results of the same kind.
pub(crate) type Part<'a> = (Kind, &'a [Call]);

pub(crate) fn right_if(is_right: bool) -> Kind {
    if is_right { Kind::Right } else { Kind::Wrong }
}

pub(crate) fn kind_of(error: &SolverError) -> Kind {
    match error {
        SolverError::Interrupted => Kind::Interrupted,
        SolverError::ProofProcessorError { .. } => Kind::Processor,
        SolverError::ProofIoError { cause } => {
            if cause.kind() == ErrorKind::Interrupted {
                Kind::Target
            } else {
                Kind::Other
            }
        }
        SolverError::WitnessVariable => Kind::Witness,
        SolverError::AssumedVariable => Kind::Assumed,
        SolverError::TooLate => Kind::TooLate,
        SolverError::NotInDrat => Kind::NotInDrat,
        SolverError::VariableLimit => Kind::Limit,
        SolverError::Malformed => Kind::Malformed,
        SolverError::OutOfRange => Kind::OutOfRange,
        SolverError::HasFailed => Kind::Failed,
        _ => Kind::Other,
    }
}

pub(crate) fn done<T: Drop>(came: Result<T, SolverError>) -> Kind {
    match came {
        Ok(_) => Kind::Right,
        Err(error) => kind_of(&error),
    }
}

/// Returns the first kind that isn't `Right`, or `Right`.
pub(crate) fn first_of(kinds: &[Kind]) -> Kind {
    for kind in kinds {
        if *kind != Kind::Right {
            return *kind;
        }
    }
    Kind::Right
}

/// Replaces the literals in `lits` by those with the given numbers.
pub(crate) fn read(lits: &mut Vec<Lit>, numbers: &[i64]) -> Result<(), AllocError> {
    lits.clear();
    for number in numbers {
        if let Some(lit) = Lit::from_dimacs(*number) {
            lits.push(lit)?;
        }
    }
    Ok(())
}

/// Returns `true` if the literals have the DIMACS numbers `numbers`, in order.
pub(crate) fn are(lits: &[Lit], numbers: &[i64]) -> bool {
    if lits.len() != numbers.len() {
        return false;
    }
    for at in 0..lits.len() {
        if lits[at].to_dimacs() != numbers[at] {
            return false;
        }
    }
    true
}

/// Returns `true` if the names have the DIMACS numbers `names`, in order.
fn are_names(users: &[Var], names: &[i64]) -> bool {
    if users.len() != names.len() {
        return false;
    }
    for at in 0..users.len() {
        if users[at].to_dimacs() != names[at] {
            return false;
        }
    }
    true
}

fn name(number: i64) -> Var {
    match Var::from_dimacs(number) {
        Some(name) => name,
        None => Var::from_index(0),
    }
}

fn add<W: CountedWrite + Drop, P: ProofProcessor>(
    solver: &mut Solver<W, P>,
    lits: &mut Vec<Lit>,
    numbers: &[i64],
) -> Kind {
    if read(lits, numbers).is_err() {
        return Kind::Other;
    }
    done(solver.add_clause(lits))
}

fn assume<W: CountedWrite + Drop, P: ProofProcessor>(
    solver: &mut Solver<W, P>,
    lits: &mut Vec<Lit>,
    numbers: &[i64],
) -> Kind {
    if read(lits, numbers).is_err() {
        return Kind::Other;
    }
    done(solver.assume(lits))
}

/// Adds the clauses `rows` to a formula. Returns `false` if memory runs out.
fn fill(formula: &mut CnfFormula, lits: &mut Vec<Lit>, rows: &[&[i64]]) -> bool {
    for at in 0..rows.len() {
        if read(lits, rows[at]).is_err() || formula.add_clause(lits).is_err() {
            return false;
        }
    }
    true
}

fn add_filled<W: CountedWrite + Drop, P: ProofProcessor>(
    solver: &mut Solver<W, P>,
    formula: &mut CnfFormula,
    lits: &mut Vec<Lit>,
    rows: &[&[i64]],
) -> Kind {
    if !fill(formula, lits, rows) {
        return Kind::Other;
    }
    done(solver.add_formula(formula))
}

fn add_formula<W: CountedWrite + Drop, P: ProofProcessor>(
    alloc: Global,
    solver: &mut Solver<W, P>,
    lits: &mut Vec<Lit>,
    rows: &[&[i64]],
) -> Kind {
    let mut formula = CnfFormula::new(alloc);
    add_filled(solver, &mut formula, lits, rows)
}

fn ask<W: CountedWrite + Drop, P: ProofProcessor>(solver: &mut Solver<W, P>, sat: bool) -> Kind {
    match solver.solve() {
        Ok(found) => right_if(found == sat),
        Err(error) => kind_of(&error),
    }
}

fn has_model<W: CountedWrite + Drop, P: ProofProcessor>(
    solver: &Solver<W, P>,
    line: &[i64],
) -> Kind {
    match solver.model() {
        Ok(Some(lits)) => right_if(are(&lits, line)),
        Ok(None) => Kind::Wrong,
        Err(error) => kind_of(&error),
    }
}

fn has_core<W: CountedWrite + Drop, P: ProofProcessor>(
    solver: &Solver<W, P>,
    core: &[i64],
) -> Kind {
    match solver.failed_core() {
        Some(lits) => right_if(are(lits, core)),
        None => Kind::Wrong,
    }
}

fn is_unknown<W: CountedWrite + Drop, P: ProofProcessor>(solver: &Solver<W, P>) -> Kind {
    match solver.model() {
        Ok(model) => right_if(model.is_none() && solver.failed_core().is_none()),
        Err(error) => kind_of(&error),
    }
}

fn ask_for_model<W: CountedWrite + Drop, P: ProofProcessor>(
    solver: &mut Solver<W, P>,
    lits: &mut Vec<Lit>,
    assumed: &[i64],
    line: &[i64],
) -> Kind {
    let under = assume(solver, lits, assumed);
    let answer = ask(solver, true);
    let known = has_model(solver, line);
    first_of(&[under, answer, known, assume(solver, lits, &[])])
}

fn ask_for_core<W: CountedWrite + Drop, P: ProofProcessor>(
    solver: &mut Solver<W, P>,
    lits: &mut Vec<Lit>,
    assumed: &[i64],
    core: &[i64],
) -> Kind {
    let under = assume(solver, lits, assumed);
    let answer = ask(solver, false);
    let known = has_core(solver, core);
    first_of(&[under, answer, known, assume(solver, lits, &[])])
}

fn bring_in<W: CountedWrite + Drop, P: ProofProcessor>(
    solver: &mut Solver<W, P>,
    number: i64,
) -> Kind {
    match solver.new_var() {
        Ok(name) => right_if(name.to_dimacs() == number),
        Err(error) => kind_of(&error),
    }
}

fn observe<W: CountedWrite + Drop, P: ProofProcessor>(
    solver: &mut Solver<W, P>,
    names: &[i64],
) -> Kind {
    match solver.observe_internal_vars() {
        Ok(users) => right_if(are_names(&users, names)),
        Err(error) => kind_of(&error),
    }
}

fn has_counts(progress: Progress, counts: [u64; 3]) -> Kind {
    right_if([progress.vars, progress.binary, progress.irred] == counts)
}

fn has_steps(progress: Progress, steps: u64, rounds: u64) -> Kind {
    right_if(steps == rounds && progress.conflicts == rounds)
}

fn has_restarts(progress: Progress, least: u64, most: u64) -> Kind {
    right_if(least <= progress.restarts && progress.restarts <= most)
}

/// Makes a call about a proof, a checker or a processor, and returns the kind of its result.
fn begin<W: CountedWrite + Drop + Made, P: ProofProcessor + Made>(
    alloc: Global,
    solver: &mut Solver<W, P>,
    call: &Call,
) -> Kind {
    match call {
        Call::Check => done(solver.enable_self_checking()),
        Call::AddProcessor => done(solver.add_proof_processor(P::made(alloc))),
        Call::Proof => done(solver.write_proof(W::made(alloc), ProofFormat::Varisat)),
        Call::Close => done(solver.close_proof()),
        _ => Kind::Other,
    }
}

/// Makes a call about names, and returns the kind of its result.
fn set<W: CountedWrite + Drop + Made, P: ProofProcessor + Made>(
    alloc: Global,
    solver: &mut Solver<W, P>,
    call: &Call,
) -> Kind {
    match call {
        Call::Hide(number) => done(solver.hide_var(name(*number))),
        Call::Witness(number) => done(solver.witness_var(name(*number))),
        Call::Sample(number) => done(solver.sample_var(name(*number))),
        Call::New(number) => bring_in(solver, *number),
        Call::Observe(names) => observe(solver, *names),
        _ => begin(alloc, solver, call),
    }
}

/// Makes a call that checks what the solver knows, and returns the kind of its result.
fn inspect<W: CountedWrite + Drop + Made, P: ProofProcessor + Made>(
    alloc: Global,
    solver: &mut Solver<W, P>,
    call: &Call,
) -> Kind {
    match call {
        Call::Model(line) => has_model(solver, *line),
        Call::Core(core) => has_core(solver, *core),
        Call::Unknown => is_unknown(solver),
        Call::Counts(counts) => has_counts(solver.progress(), *counts),
        Call::Steps(rounds) => has_steps(solver.progress(), solver.steps(), *rounds),
        Call::Restarts(least, most) => has_restarts(solver.progress(), *least, *most),
        _ => set(alloc, solver, call),
    }
}

fn allow<W: CountedWrite + Drop, P: ProofProcessor>(
    solver: &mut Solver<W, P>,
    rounds: u64,
) -> Kind {
    let mut update = SolverConfigUpdate::new();
    update.max_steps = Some(rounds);
    done(solver.config(&update))
}

/// Makes a call, and returns the kind of its result.
fn make<W: CountedWrite + Drop + Made, P: ProofProcessor + Made>(
    alloc: Global,
    solver: &mut Solver<W, P>,
    lits: &mut Vec<Lit>,
    call: &Call,
) -> Kind {
    match call {
        Call::Clause(numbers) => add(solver, lits, *numbers),
        Call::Formula(rows) => add_formula(alloc, solver, lits, *rows),
        Call::Text(text) => done(solver.add_dimacs_cnf(&mut Counted::new(*text))),
        Call::Assume(numbers) => assume(solver, lits, *numbers),
        Call::Set(update) => done(solver.config(update)),
        Call::Allow(rounds) => allow(solver, *rounds),
        Call::Solve(sat) => ask(solver, *sat),
        Call::Sat(assumed, line) => ask_for_model(solver, lits, *assumed, *line),
        Call::Unsat(assumed, core) => ask_for_core(solver, lits, *assumed, *core),
        _ => inspect(alloc, solver, call),
    }
}

/// Makes calls, up to the first whose result isn't of the kind `kind`, and returns the kind of that result.
fn make_part<W: CountedWrite + Drop + Made, P: ProofProcessor + Made>(
    alloc: Global,
    solver: &mut Solver<W, P>,
    lits: &mut Vec<Lit>,
    calls: &[Call],
    kind: Kind,
) -> Kind {
    for at in 0..calls.len() {
        let came = make(alloc, solver, lits, &calls[at]);
        if came != kind {
            return came;
        }
    }
    kind
}

/// Makes calls, up to the first whose result isn't of the kind that its part has, and returns the kind of that result;
/// or returns `Right`.
fn make_all<W: CountedWrite + Drop + Made, P: ProofProcessor + Made>(
    alloc: Global,
    solver: &mut Solver<W, P>,
    lits: &mut Vec<Lit>,
    parts: &[Part<'_>],
) -> Kind {
    for at in 0..parts.len() {
        let (kind, calls) = parts[at];
        let came = make_part(alloc, solver, lits, calls, kind);
        if came != kind {
            return if came == Kind::Right {
                Kind::Wrong
            } else {
                came
            };
        }
    }
    Kind::Right
}

/// A play that makes the calls of `front`, and then those of `parts`.
#[derive(Drop)]
pub(crate) struct CallParts<'a> {
    pub(crate) front: &'a [Part<'a>],
    pub(crate) parts: &'a [Part<'a>],
}

/// Returns a play without calls in `front`.
pub(crate) fn plain<'a>(parts: &'a [Part<'a>]) -> CallParts<'a> {
    CallParts { front: &[], parts }
}

impl<W: CountedWrite + Drop + Made, P: ProofProcessor + Made> Play<Solver<W, P>, Kind>
    for CallParts<'_> {
    fn play(self, alloc: Global, solver: &mut Solver<W, P>) -> Kind {
        let mut lits = Vec::new(alloc);
        let begun = make_all(alloc, solver, &mut lits, self.front);
        first_of(&[begun, make_all(alloc, solver, &mut lits, self.parts)])
    }
}

/// An update that changes no parameter.
pub(crate) const SAME: SolverConfigUpdate = SolverConfigUpdate {
    vsids_decay: None,
    clause_activity_decay: None,
    reduce_locals_interval: None,
    reduce_mids_interval: None,
    luby_restart_interval_scale: None,
    max_steps: None,
};

/// Every call that returns a `Result`.
const EACH: &[Part<'static>] = &[(
    Kind::Failed,
    &[
        Call::Clause(&[]),
        Call::Formula(&[&[1]]),
        Call::Text(b"1 0"),
        Call::Assume(&[]),
        Call::Set(SAME),
        Call::Solve(true),
        Call::Unknown,
        Call::Hide(1),
        Call::Witness(1),
        Call::Sample(1),
        Call::New(1),
        Call::Observe(&[]),
        Call::Check,
        Call::AddProcessor,
        Call::Proof,
        Call::Close,
    ],
)];

/// A play, and then a check whether every call reports that the solver has failed, and no core is known.
#[derive(Drop)]
pub(crate) struct FieldsAfter<A>(pub(crate) A);

impl<W: CountedWrite + Drop + Made, P: ProofProcessor + Made, R, A: Play<Solver<W, P>, R>> Play<
    Solver<W, P>,
    (R, bool),
> for FieldsAfter<A> {
    fn play(self, alloc: Global, solver: &mut Solver<W, P>) -> (R, bool) {
        let FieldsAfter(act) = self;
        let answered = act.play(alloc, solver);
        let failed = plain(EACH).play(alloc, solver) == Kind::Right;
        (answered, failed && solver.failed_core().is_none())
    }
}
