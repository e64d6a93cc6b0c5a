//! Calls to the solver of a run.
//!
//! `steps_record_answers` is a law: it does nothing at run time, and its contract says what the solver's steps record.
ghost use Rattle.std.specs.Prelude.{IfOk, IfErr, OnOk};
ghost use Rattle.sat_solver.specs.variables.VariableRoom.{user_vars_in};
ghost use Rattle.sat_solver.specs.facade.Calls.{HasFullStore};
ghost use Rattle.certify.specs.run.SolverCalls.{AssumptionsAccepted, ClauseAccepted, FailsIf, AreAllowedNames};
ghost use Rattle.certify.specs.run.SolverCalls.{IsCaused, IsReadySolver};
ghost use Rattle.certify.specs.run.SolverCalls.{RoundsLimited, RefusedForRoom, Searched, Solved};

use super::faults::{fault_of, is_interrupted};
use crate::fault::RunFault;
use crate::summary::{Answer, AskReport};
use sat_base::{CountedWrite, Lit};
use sat_solver::facade::laws::steps_record_answers;
use sat_solver::{Solver, SolverConfigUpdate};

/// Adds a clause to the solver. None of the clause's names may be refused.
pub fn add_clause<C: CountedWrite + Drop>(
    solver: &mut Solver<C>,
    literals: &[Lit],
) -> Result<(), RunFault>
    requires ready { IsReadySolver solver.old }
    requires allowed { AreAllowedNames solver.old literals.now }
    ensures added { OnOk result (ClauseAccepted solver.old solver.new literals.now) }
    ensures fails { FailsIf result solver.old solver.new }
    ensures cause { IfErr result (λ e. IsCaused e (HasFullStore solver.new)
        (RefusedForRoom solver.old solver.new (user_vars_in literals.now))) }
{
    match solver.add_clause(literals) {
        Ok(()) => {
            steps_record_answers(solver);
            Ok(())
        }
        Err(error) => Err(fault_of(error)),
    }
}

/// Replaces the solver's assumptions with `literals`, none of whose names may be refused.
pub fn assume<C: CountedWrite + Drop>(
    solver: &mut Solver<C>,
    literals: &[Lit],
) -> Result<(), RunFault>
    requires ready { IsReadySolver solver.old }
    requires allowed { AreAllowedNames solver.old literals.now }
    ensures assumed { OnOk result (AssumptionsAccepted solver.old solver.new literals.now) }
    ensures fails { FailsIf result solver.old solver.new }
    // Assuming literals stores no clause.
    ensures cause { IfErr result (λ e. IsCaused e ⊥ (RefusedForRoom solver.old solver.new (user_vars_in literals.now))) }
{
    match solver.assume(literals) {
        Ok(()) => {
            steps_record_answers(solver);
            Ok(())
        }
        Err(error) => Err(fault_of(error)),
    }
}

/// Limits every search from now on to `budget` rounds.
fn limit_rounds<C: CountedWrite + Drop>(solver: &mut Solver<C>, budget: u64)
    requires { IsReadySolver solver.old }
    ensures { RoundsLimited budget solver.old solver.new }
{
    let mut update = SolverConfigUpdate::new();
    update.max_steps = Some(budget);
    solver.config(&update).unwrap();
}

/// Searches for an answer, and returns it. The answer is unknown if the rounds are exhausted.
fn solve<C: CountedWrite + Drop>(solver: &mut Solver<C>) -> Result<Answer, RunFault>
    requires { IsReadySolver solver.old }
    ensures solved { IfOk result (λ answer. Solved answer solver.old solver.new) }
    ensures fails { FailsIf result solver.old solver.new }
    ensures cause { IfErr result (λ e. IsCaused e (HasFullStore solver.new) ⊥) }
{
    let solved = solver.solve();
    steps_record_answers(solver);
    match solved {
        Ok(true) => Ok(Answer::Sat),
        Ok(false) => Ok(Answer::Unsat),
        Err(error) => {
            if is_interrupted(&error) {
                return Ok(Answer::Unknown);
            }
            Err(fault_of(error))
        }
    }
}

/// Searches for an answer, with at most `budget` rounds. Returns the answer, and the number of rounds.
pub fn search<C: CountedWrite + Drop>(
    solver: &mut Solver<C>,
    budget: u64,
) -> Result<AskReport, RunFault>
    requires { IsReadySolver solver.old }
    ensures searched { IfOk result (λ report. Searched budget report solver.old solver.new) }
    ensures fails { FailsIf result solver.old solver.new }
    ensures cause { IfErr result (λ e. IsCaused e (HasFullStore solver.new) ⊥) }
{
    limit_rounds(solver, budget);
    let before = solver.steps();
    let answer = solve(solver)?;
    Ok(AskReport {
        answer,
        steps: solver.steps() - before,
    })
}
