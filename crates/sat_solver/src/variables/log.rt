//! Receivers of proof steps.
ghost use Rattle.std.specs.Prelude.{◌≡◌, ◌∷◌, List, OnOk, IfErr};
ghost use Rattle.sat_base.specs.steps.Steps.{Step};
ghost use Rattle.sat_base.specs.steps.StepViews.{step_of};
ghost use Rattle.sat_solver.specs.session.Session.{IsAllowedStep, session_after};
ghost use Rattle.sat_solver.specs.proof.Widths.{KeepsWidth};
ghost use Rattle.sat_solver.specs.declared.variables.error.NameError.{NameError as Fault};
ghost use Rattle.sat_solver.specs.variables.NameFailures.{IsFailure, EmitsOrFails};

use crate::proof::{Proof, ProofError};
use crate::variables::error::NameError;
use sat_base::{CountedWrite, ProofStep};
use sat_checker::ProofProcessor;

/// A receiver of proof steps. It receives the steps one after another.
pub trait StepLog: Drop {
    /// The steps so far, newest first.
    ghost steps: { Self → List Step };

    /// The invariant between steps.
    ghost keeps: { Self → Type 0 };

    /// `took old new` holds if steps were made and accepted between the states `old` and `new`.
    ghost took: { Self → Self → Type 0 };

    /// `broke old fault new` holds if steps were made between the states `old` and `new`, and the last step was not
    /// accepted because of `fault`.
    ghost broke: { Self → Fault → Self → Type 0 };

    /// Receives a step, which must be allowed after the steps so far.
    fn step(&mut self, step: &ProofStep<'_>) -> Result<(), NameError>
        requires keeps { keeps self.old }
        requires may { IsAllowedStep (session_after (steps self.old)) (step_of step.now) }
        requires width { KeepsWidth (step_of step.now) }
        ensures keeps { OnOk result (keeps self.new) }
        ensures steps { OnOk result (steps self.new ≡ step_of step.now ∷ steps self.old) }
        ensures fails { IfErr result IsFailure }
        ensures emits { EmitsOrFails took broke result self.old self.new };
}

impl<W: CountedWrite + Drop, P: ProofProcessor> StepLog for Proof<W, P> {
    ghost use Rattle.sat_solver.specs.proof.ProofView.{HasAllowedSteps, steps_of};
    ghost use Rattle.sat_solver.specs.session.Emitting.{EmitsSomeChecked};
    ghost use Rattle.sat_solver.specs.variables.StepFailures.{StepNotAccepted};

    ghost steps = { λ p. steps_of p };

    ghost keeps = { λ p. HasAllowedSteps p };

    ghost took = { EmitsSomeChecked W.seen };

    ghost broke = { StepNotAccepted W.seen };

    #[inline(always)]
    fn step(&mut self, step: &ProofStep<'_>) -> Result<(), NameError> {
        match self.add_step(step) {
            Ok(()) => Ok(()),
            Err(ProofError::Write(cause)) => Err(NameError::Write(cause)),
            Err(ProofError::OutOfMemory) => Err(NameError::OutOfMemory),
            Err(ProofError::Check(fault)) => Err(NameError::Check(fault)),
        }
    }
}
