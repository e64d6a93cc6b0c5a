//! What a fault of a formula's text means for the engine.
ghost use Rattle.std.specs.Prelude.{◌≡◌, false};
ghost use Rattle.sat_solver.specs.solver.Formulas.{is_solver_out_of_memory, text_fault, with_failed};
ghost use Rattle.sat_solver.specs.solver.Whole.{EngineInvariant};

use crate::SolverError;
use crate::solver::Engine;
use sat_base::{CountedWrite, DimacsError};
use sat_checker::ProofProcessor;
use std::alloc::Global;

/// Returns the solver's error for `error`, an error in a formula's text.
fn text_fault(error: DimacsError) -> SolverError
    ensures { result ≡ text_fault error }
{
    match error {
        DimacsError::Malformed { .. } => SolverError::Malformed,
        DimacsError::Limit { .. } => SolverError::VariableLimit,
        DimacsError::Read => SolverError::Read,
        DimacsError::OutOfMemory => SolverError::OutOfMemory,
        DimacsError::HasFailed => SolverError::HasFailed,
    }
}

/// Returns `true` if `error` makes the solver fail, which only `OutOfMemory` does.
fn is_out_of_memory(error: DimacsError) -> bool
    ensures { result ≡ is_solver_out_of_memory error }
{
    match error {
        DimacsError::OutOfMemory => true,
        DimacsError::Malformed { .. } => false,
        DimacsError::Limit { .. } => false,
        DimacsError::Read => false,
        DimacsError::HasFailed => false,
    }
}

impl<W: CountedWrite + Drop, P: ProofProcessor> Engine<W, P> {
    /// Returns `true` if a call failed.
    pub fn is_failed(&self) -> bool
        ensures { result ≡ self.now.failed }
    {
        self.failed
    }

    /// Returns the allocator of the search.
    pub fn alloc(&self) -> Global {
        self.context.search.alloc
    }

    /// Marks the solver as failed if `error`, an error in a formula's text, is `OutOfMemory`. Returns the solver's
    /// error for `error`. No earlier call may have failed.
    pub fn stop_at(&mut self, error: DimacsError) -> SolverError
        requires solver { EngineInvariant self.old }
        requires going { self.old.failed ≡ false }
        ensures solver { EngineInvariant self.new }
        ensures fault { result ≡ text_fault error }
        ensures failed { self.new ≡ with_failed (is_solver_out_of_memory error) self.old }
    {
        self.failed = is_out_of_memory(error);
        text_fault(error)
    }
}
