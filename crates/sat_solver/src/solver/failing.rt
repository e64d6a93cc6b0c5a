//! How a call to a solver fails.
ghost use Rattle.std.specs.Prelude.{◌≡◌};
ghost use Rattle.sat_solver.specs.cdcl.Faults.{StoresError};
ghost use Rattle.sat_solver.specs.solver.FailedEngine.{failed_with};

use crate::SolverError;
use crate::cdcl::fault::{Fault, report};
use crate::solver::Engine;
use sat_base::CountedWrite;
use sat_checker::ProofProcessor;

impl<W: CountedWrite + Drop, P: ProofProcessor> Engine<W, P> {
    /// Marks the solver as failed, and returns the error for `fault`. From now on, every call that can return an error
    /// returns `HasFailed`.
    pub(crate) fn fail(&mut self, fault: Fault) -> SolverError
        requires kept { StoresError fault self.old.context.proof }
        ensures error { result ≡ fault }
        ensures fails { self.new ≡ failed_with self.old }
    {
        self.failed = true;
        report(fault, &mut self.context.proof)
    }
}
