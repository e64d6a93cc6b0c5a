#![tactic(auto)]

ghost use Rattle.std.specs.Prelude.{IfOk, IfSome, MatchResult};
ghost use Rattle.sat_solver.specs.facade.Answers.{IsCore, IsModel};

use sat_base::{Counted, CountedWrite, ExtendFormula, Lit};
use sat_solver::{ProofFormat, Solver, SolverError};
use std::alloc::Global;

/// A model, or otherwise assumptions that cannot all be true.
pub type Answer = Result<Vec<Lit>, Vec<Lit>>;

/// Asks under assumptions. Returns `None` if the rounds of this ask are exhausted.
pub fn ask<W: CountedWrite + Drop>(
    alloc: Global,
    solver: &mut Solver<W>,
    assumptions: &[Lit],
) -> Result<Option<Answer>, SolverError>
    ensures right { IfOk result (λ known. IfSome known (λ answer. MatchResult answer
        (λ model. IsModel solver.new model.items) (λ core. IsCore solver.new core.items))) }
{
    solver.assume(assumptions)?;
    match solver.solve() {
        Ok(_) => {}
        Err(SolverError::Interrupted) => return Ok(None),
        Err(error) => return Err(error),
    }
    if let Some(model) = solver.model()? {
        return Ok(Some(Ok(model)));
    }
    match solver.failed_core() {
        Some(core) => Ok(Some(Err(core.to_vec(alloc)?))),
        None => Ok(None),
    }
}

/// The results of two asks, and the proof of both.
#[derive(Drop)]
pub struct Solved<W> {
    pub refuted: Option<Answer>,
    pub satisfied: Option<Answer>,
    /// The target, which has received the complete proof.
    pub target: Option<W>,
}

/// Adds two clauses, asks first under an assumption that they exclude, and then under none.
fn ask_twice<W: CountedWrite + Drop>(
    alloc: Global,
    solver: &mut Solver<W>,
    target: W,
) -> Result<Solved<W>, SolverError> {
    solver.write_proof(target, ProofFormat::Varisat)?;
    let x = solver.new_lit()?;
    let y = solver.new_lit()?;
    solver.add_clause(&[x, y])?;
    solver.add_clause(&[!x, y])?;
    let refuted = ask(alloc, solver, &[!y])?;
    let satisfied = ask(alloc, solver, &[])?;
    let target = solver.close_proof()?;
    Ok(Solved {
        refuted,
        satisfied,
        target,
    })
}

/// Asks twice, as `ask_twice` does, with a new solver. To write to a file, pass
/// `Counted::new(File::create(rt, path)?)`.
pub fn solve<W: CountedWrite + Drop>(alloc: Global, target: W) -> Result<Solved<W>, SolverError> {
    let mut solver = Solver::new(alloc);
    let solved = ask_twice(alloc, &mut solver, target);
    drop(solver);
    solved
}

/// Returns `true` if the first ask has a core of one literal, the second a model of two, and the target a proof.
fn are_answered(solved: &Solved<Counted<Vec<u8>>>) -> bool {
    let refuted = match &solved.refuted {
        Some(Err(core)) => core.len() == 1,
        _ => false,
    };
    let satisfied = match &solved.satisfied {
        Some(Ok(model)) => model.len() == 2,
        _ => false,
    };
    refuted && satisfied && solved.target.is_some()
}

#[test]
fn two_asks_are_answered(rt: HostRuntime) {
    let target = Counted::new(Vec::new(rt.alloc()));
    match solve(rt.alloc(), target) {
        Ok(solved) => {
            assert!(rt; are_answered(&solved));
            drop(solved);
        }
        Err(_) => assert!(rt; false),
    }
}
