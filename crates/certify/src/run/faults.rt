//! Translates errors from a run's solver.
ghost use Rattle.std.specs.Prelude.{◌≡◌};
ghost use Rattle.certify.specs.run.SolverCalls.{IsSolverFault, fault_for, is_interrupted};

use crate::fault::RunFault;
use sat_solver::SolverError;

/// Returns the fault of a run whose solver returned `error`.
pub fn fault_of(error: SolverError) -> RunFault
    requires { IsSolverFault error }
    ensures { result ≡ fault_for error }
{
    match error {
        SolverError::ProofIoError { .. } => RunFault::CertificateWrite,
        SolverError::OutOfMemory => RunFault::OutOfMemory,
        SolverError::StoreFull => RunFault::StoreFull,
        // All variable indices are in use.
        _ => RunFault::CounterEnd,
    }
}

/// Returns `true` if the error says that the rounds were exhausted.
pub fn is_interrupted(error: &SolverError) -> bool
    ensures { result ≡ is_interrupted error.now }
{
    matches!(error, SolverError::Interrupted)
}
