//! Adds a formula, clause by clause.
ghost use Rattle.std.specs.Prelude.{◌≤◌};
ghost use Rattle.sat_checker.specs.CheckerView.{view_of, looks_of, FaultNeedsListener, FailsAgain};
ghost use Rattle.sat_checker.specs.declared.error.CheckerError.TheVariants.{HasFailed};
ghost use Rattle.sat_checker.specs.listeners.ProcessingView.{EachListenerReceives};
ghost use Rattle.sat_checker.specs.ClausesView.{AddClausesResult};

use crate::announce::transcript::ProofTranscriptProcessor;
use crate::checker::Checker;
use crate::error::CheckerError;
use crate::processing::ProofProcessor;
use sat_base::CnfFormula;

impl<P: ProofProcessor, T: ProofTranscriptProcessor> Checker<P, T> {
    /// Adds the clauses of a formula, in order, and stops at the first one that is not accepted. The clauses before
    /// that one remain.
    pub fn add_formula(&mut self, formula: &CnfFormula) -> Result<(), CheckerError>
        ensures adds { AddClausesResult (EachListenerReceives P.takes T.reads)
            result (view_of self.old) (view_of self.new) formula.now.clauses }
        ensures rise { looks_of (view_of self.old) ≤ looks_of (view_of self.new) }
        ensures faults { FaultNeedsListener result self.old }
        ensures failed { FailsAgain HasFailed result self.old self.new }
    {
        if self.kernel.failed {
            return Err(CheckerError::HasFailed);
        }
        for clause in formula.iter() {
            self.add_clause(clause)?;
        }
        Ok(())
    }
}
