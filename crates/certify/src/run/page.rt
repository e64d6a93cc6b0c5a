//! Writes the answers of a run's solver to a buffer, as text.
ghost use Rattle.std.specs.Prelude.{◌≡◌, ◌++◌, IfErr, OnOk, []};
ghost use Rattle.certify.specs.answers.Answers.{outcome_text};
ghost use Rattle.certify.specs.run.SolverCalls.{IsAnswerOfState, IsReadySolver};
ghost use Rattle.certify.specs.run.Reporting.{IsReportedRight, outcome_for};

use crate::answers::write::{push_sat, push_unknown, push_unsat};
use crate::fault::RunFault;
use crate::summary::Answer;
use sat_base::{CountedWrite, Lit};
use sat_checker::sorted_lits::copy_canonical;
use sat_solver::Solver;
use std::alloc::{AllocError, Global};

/// Appends the text of the solver's model.
fn push_model<C: CountedWrite + Drop>(
    text: &mut Vec<u8>,
    solver: &Solver<C>,
) -> Result<(), RunFault>
    requires ready { IsReadySolver solver.now }
    requires sat { IsAnswerOfState solver.now.answer Answer.Sat }
    ensures text { OnOk result (text.new.items ≡ text.old.items ++ outcome_text (outcome_for Answer.Sat solver.now)) }
    ensures right { OnOk result (IsReportedRight Answer.Sat solver.now) }
    ensures memory { IfErr result (λ e. e ≡ RunFault.OutOfMemory) }
{
    match solver.model() {
        Ok(Some(line)) => Ok(push_sat(text, &line)?),
        Ok(None) => unreachable!(),
        Err(_) => Err(RunFault::OutOfMemory),
    }
}

/// Appends the text of the solver's core, with the literals in order.
fn push_core<C: CountedWrite + Drop>(
    text: &mut Vec<u8>,
    solver: &Solver<C>,
    core: &mut Vec<Lit>,
) -> Result<(), AllocError>
    requires ready { IsReadySolver solver.now }
    requires unsat { IsAnswerOfState solver.now.answer Answer.Unsat }
    ensures text { OnOk result (text.new.items ≡ text.old.items ++ outcome_text (outcome_for Answer.Unsat solver.now)) }
    ensures right { OnOk result (IsReportedRight Answer.Unsat solver.now) }
{
    match solver.failed_core() {
        Some(failed) => {
            copy_canonical(core, failed)?;
            push_unsat(text, core)
        }
        None => unreachable!(),
    }
}

/// A buffer for the texts of answers.
#[derive(Drop)]
pub struct Page {
    /// The literals of one core.
    core: Vec<Lit>,
    /// The text of one answer.
    pub(crate) text: Vec<u8>,
}

impl Page {
    /// Returns an empty page. Never allocates.
    pub fn new(alloc: Global) -> Page
        ensures core { result.core.items ≡ [] }
        ensures text { result.text.items ≡ [] }
    {
        Page {
            core: Vec::new(alloc),
            text: Vec::new(alloc),
        }
    }

    /// Replaces the text with that of the solver's last answer, which must be `answer`.
    pub fn push_answer<C: CountedWrite + Drop>(
        &mut self,
        solver: &Solver<C>,
        answer: Answer,
    ) -> Result<(), RunFault>
        requires ready { IsReadySolver solver.now }
        requires answer { IsAnswerOfState solver.now.answer answer }
        ensures text { OnOk result (self.new.text.items ≡ outcome_text (outcome_for answer solver.now)) }
        ensures right { OnOk result (IsReportedRight answer solver.now) }
        ensures memory { IfErr result (λ e. e ≡ RunFault.OutOfMemory) }
    {
        self.text.clear();
        match answer {
            Answer::Sat => push_model(&mut self.text, solver),
            Answer::Unsat => Ok(push_core(&mut self.text, solver, &mut self.core)?),
            Answer::Unknown => Ok(push_unknown(&mut self.text)?),
        }
    }
}
