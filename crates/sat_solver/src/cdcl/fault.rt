//! Why a call failed. The underlying error is stored with the proof until the solver reports it.
ghost use Rattle.std.specs.Prelude.{◌≡◌};
ghost use Rattle.sat_solver.specs.cdcl.Faults.{error_of_fault, StoresError};
ghost use Rattle.sat_solver.specs.proof.ProofView.{without_listener_error};

use crate::SolverError;
use crate::proof::emitted::CheckFault;
use crate::proof::kept::Kept;
use crate::proof::{Proof, ProofError};
use sat_base::CountedWrite;
use sat_checker::ProofProcessor;
use sat_store::StoreError;
use std::alloc::AllocError;
use std::io;
use std::marker::Model;
use thiserror::Error;

/// The kind of a fault.
#[derive(Debug, Drop, Error)]
pub enum FaultKind {
    /// A call to the target failed.
    #[error("a call to the proof's target failed")]
    Write(Kept<io::Error>),
    /// A listener returned a fault.
    #[error("a listener returned an error")]
    Processor(Kept<anyhow::Error>),
    #[error("out of memory")]
    OutOfMemory,
    #[error("the store of clauses is full")]
    StoreFull,
    #[error("no variable is left")]
    VariableLimit,
    #[error("a counter is at its end")]
    CounterEnd,
}

/// Why a call failed. Contracts describe a fault as the error that the solver reports.
#[derive(Debug, Drop, Error)]
#[error("{kind}")]
pub struct Fault {
    kind: FaultKind,
}

impl Model for Fault {
    ghost use Rattle.sat_solver.specs.cdcl.Faults.{error_of_fault};
    ghost use Rattle.sat_solver.specs.declared.error.SolverError.{SolverError};

    ghost Value = { SolverError };

    ghost view = { λ f. error_of_fault f.kind };
}

impl Fault {
    /// Creates a fault of the kind `kind`.
    pub fn of(kind: FaultKind) -> Fault
        ensures { result ≡ error_of_fault kind }
    {
        Fault { kind }
    }
}

impl From<AllocError> for Fault {
    ghost use Rattle.std.specs.Prelude.{◌≡◌};
    ghost use Rattle.sat_solver.specs.declared.error.SolverError.TheVariants.{OutOfMemory};

    ghost from_gives = { λ _ e. e ≡ OutOfMemory };

    fn from(_e: AllocError) -> Fault {
        Fault::of(FaultKind::OutOfMemory)
    }
}

impl From<StoreError> for Fault {
    ghost use Rattle.std.specs.Prelude.{◌≡◌};
    ghost use Rattle.sat_solver.specs.Recovery.{error_of_buffer};

    ghost from_gives = { λ s e. e ≡ error_of_buffer s };

    fn from(error: StoreError) -> Fault {
        match error {
            StoreError::StoreFull => Fault::of(FaultKind::StoreFull),
            StoreError::OutOfMemory => Fault::of(FaultKind::OutOfMemory),
        }
    }
}

impl From<CheckFault> for Fault {
    ghost use Rattle.std.specs.Prelude.{◌≡◌};
    ghost use Rattle.sat_solver.specs.cdcl.StepEffects.{error_of_check};

    ghost from_gives = { λ f e. e ≡ error_of_check f };

    fn from(fault: CheckFault) -> Fault {
        match fault {
            CheckFault::OutOfMemory => Fault::of(FaultKind::OutOfMemory),
            CheckFault::CounterEnd => Fault::of(FaultKind::CounterEnd),
            CheckFault::Processor(kept) => Fault::of(FaultKind::Processor(kept)),
        }
    }
}

impl From<ProofError> for Fault {
    ghost use Rattle.std.specs.Prelude.{◌≡◌};
    ghost use Rattle.sat_solver.specs.cdcl.StepEffects.{error_of_proof};

    ghost from_gives = { λ p e. e ≡ error_of_proof p };

    fn from(error: ProofError) -> Fault {
        match error {
            ProofError::Write(kept) => Fault::of(FaultKind::Write(kept)),
            ProofError::OutOfMemory => Fault::of(FaultKind::OutOfMemory),
            ProofError::Check(fault) => Fault::from(fault),
        }
    }
}

/// Returns the solver's error for `fault`, with the underlying error that `proof` stored, if any. Removes a listener's
/// error from `proof`.
pub fn report<W: CountedWrite + Drop, P: ProofProcessor>(
    fault: Fault,
    proof: &mut Proof<W, P>,
) -> SolverError
    requires kept { StoresError fault proof.old }
    ensures error { result ≡ fault }
    ensures proof { proof.new ≡ without_listener_error proof.old }
{
    let complaint = proof.take_complaint();
    match (fault.kind, complaint, proof.cause()) {
        (FaultKind::OutOfMemory, _, _) => SolverError::OutOfMemory,
        (FaultKind::StoreFull, _, _) => SolverError::StoreFull,
        (FaultKind::VariableLimit, _, _) => SolverError::VariableLimit,
        (FaultKind::CounterEnd, _, _) => SolverError::CounterEnd,
        (FaultKind::Write(_), _, Some(cause)) => SolverError::ProofIoError { cause },
        (FaultKind::Processor(_), Some(cause), _) => SolverError::ProofProcessorError { cause },
        (FaultKind::Write(_), _, None) => unreachable!(),
        (FaultKind::Processor(_), None, _) => unreachable!(),
    }
}
