//! Answers asks.
ghost use Rattle.std.specs.Prelude.{◌≡◌, [], IfErr, IfOk, OnOk};
ghost use Rattle.sat_base.specs.script.Language.{Reading};
ghost use Rattle.sat_base.specs.script.Script.{Ask};
ghost use Rattle.sat_solver.specs.facade.Calls.{HasFullStore};
ghost use Rattle.certify.specs.answers.AnswerForms.{named_literals};
ghost use Rattle.certify.specs.run.Asking.{AskEffect};
ghost use Rattle.certify.specs.run.SolverCalls.{FailsIf, AreAllowedNames, IsCaused, IsReadySolver, LacksVariablesFor};
ghost use Rattle.certify.specs.run.BetweenCommands.{CommandCarriedOut, IsCausedByCommand, StopsInCommand, WritesBoth};

use super::page::Page;
use super::session::RunState;
use super::solver::{assume, search};
use super::write::write_answer;
use crate::fault::RunFault;
use crate::summary::AskReport;
use sat_base::{CountedWrite, Lit};
use sat_solver::Solver;

/// Searches for the answer to an ask, and writes the text of the answer to `page`. Returns the report on the ask.
fn ask<C: CountedWrite + Drop>(
    solver: &mut Solver<C>,
    literals: &[Lit],
    budget: u64,
    page: &mut Page,
) -> Result<AskReport, RunFault>
    requires ready { IsReadySolver solver.old }
    requires allowed { AreAllowedNames solver.old literals.now }
    ensures effect { IfOk result (λ report. AskEffect budget report literals.now page.new.text.items solver.old
        solver.new) }
    ensures ready { OnOk result (IsReadySolver solver.new) }
    // Afterwards, an ask without literals is allowed, since it contains no name to refuse.
    ensures allowed { OnOk result (AreAllowedNames solver.new []) }
    ensures fails { FailsIf result solver.old solver.new }
    ensures cause { IfErr result (λ e. IsCaused e (HasFullStore solver.new)
        (LacksVariablesFor solver.old solver.new (Ask (named_literals literals.now)))) }
{
    assume(solver, literals)?;
    let report = search(solver, budget)?;
    page.push_answer(solver, report.answer)?;
    Ok(report)
}

/// Answers the last command, which must be an ask with these literals. None of their names may be refused.
pub fn answer_ask<A: CountedWrite, C: CountedWrite + Drop>(
    session: &mut RunState<C>,
    answers: &mut A,
    literals: &[Lit],
) -> Result<(), RunFault>
    requires ready { IsReadySolver session.old.solver }
    requires allowed { AreAllowedNames session.old.solver literals.now }
    ensures carried { OnOk result (CommandCarriedOut session.old session.new (Ask (named_literals literals.now))
        (A.seen answers.old) (A.seen answers.new)) }
    ensures stops { (left : Reading)
        → StopsInCommand result session.old session.new (Ask (named_literals literals.now)) left (A.seen answers.old)
        (A.seen answers.new) }
    ensures cause { IsCausedByCommand result session.old session.new (Ask (named_literals literals.now)) }
    ensures names { session.new.names ≡ session.old.names }
    ensures written { WritesBoth result (A.seen answers.old) (A.seen answers.new) session.old.solver
        session.new.solver }
{
    let report = ask(
        &mut session.solver,
        literals,
        session.budget,
        &mut session.page,
    )?;
    // The ask is closed in the certificate before its answer is written, so the steps show the rounds of every answer.
    assume(&mut session.solver, &[])?;
    session.asks.push(report)?;
    write_answer(answers, &session.page.text)?;
    Ok(())
}
