//! All steps that a solver has made, and its own checker, which receives them as they are made.
ghost use Rattle.std.specs.Prelude.{ℕ, ◌≡◌, ◌∷◌, [], true, false, OnOk};
ghost use Rattle.sat_base.specs.steps.StepViews.{step_of};
ghost use Rattle.sat_solver.specs.proof.Checked.{has_begun, fault_of_failure, FedUnless, IsCheckerFailure};
ghost use Rattle.sat_solver.specs.proof.ListenerErrors.{IsListenerError};
ghost use Rattle.sat_solver.specs.session.Session.{AreAllowedSteps};
ghost use Rattle.sat_solver.specs.proof.Widths.{narrowed, KeepsWidth};

use crate::proof::checker::{Checked, is_end};
use crate::proof::kept::Kept;
use crate::session::history::History;
use crate::session::roll::Roll;
use sat_base::{HashBits, ProofStep};
use sat_checker::{CheckerError, Nobody, ProofProcessor};
use std::alloc::Global;
use thiserror::Error;

/// Why a solver's own checker failed.
#[derive(Debug, Drop, Error)]
pub enum CheckFault {
    #[error("out of memory")]
    OutOfMemory,
    /// No id is left, or the count of a clause has reached its maximum.
    #[error("a counter is at its end")]
    CounterEnd,
    /// A listener returned a fault, which is stored with the steps.
    #[error("a listener returned an error")]
    Processor(Kept<anyhow::Error>),
}

/// Returns why a checker failed. The checker must not have rejected a step. A listener's error is moved to `complaint`.
fn store_cause(complaint: &mut Option<anyhow::Error>, error: CheckerError) -> CheckFault
    requires { IsCheckerFailure error }
    ensures fault { result ≡ fault_of_failure error }
    ensures kept { IsListenerError result complaint.new }
{
    match error {
        CheckerError::OutOfMemory => CheckFault::OutOfMemory,
        CheckerError::CounterEnd => CheckFault::CounterEnd,
        CheckerError::ProofProcessorError { cause } => {
            let kept = Kept::of(&cause);
            *complaint = Some(cause);
            CheckFault::Processor(kept)
        }
        CheckerError::CheckFailed => unreachable!(),
        CheckerError::HasFailed => unreachable!(),
        CheckerError::ProofIncomplete => unreachable!(),
        CheckerError::IoError => unreachable!(),
        CheckerError::ParseError => unreachable!(),
    }
}

/// All steps that were made, as a ghost, and the checker that receives the steps, if any.
#[derive(Drop)]
pub struct EmittedSteps<P: ProofProcessor = Nobody> {
    pub history: History,
    own: Option<Checked<P>>,
    /// The listeners that were added to the checker.
    roll: Roll<P>,
    /// Whether a step other than the end of a proof has been made.
    begun: bool,
    /// Whether the checker has missed a step.
    lost: bool,
    /// The error from a listener, until it is returned to the caller.
    complaint: Option<anyhow::Error>,
    ghost counted: { begun ≡ has_begun history.steps },
    ghost may: { ∥ AreAllowedSteps history.steps ∥₁ },
    ghost fed: { ∥ FedUnless P.takes lost own roll.items history.steps ∥₁ },
}

impl<P: ProofProcessor> EmittedSteps<P> {
    ghost use Rattle.sat_solver.specs.proof.EmittedView.{emitted_listeners, emitted_is_checked};
    ghost use Rattle.sat_solver.specs.proof.EmittedView.{emitted_has_missed_step, EmittedStartsChecker};
    ghost use Rattle.sat_solver.specs.proof.EmittedView.{EmittedReturnsListeners, EmittedReturnsNotifiedListeners};
    ghost use Rattle.sat_solver.specs.proof.EmittedView.{EmittedIsReported, LastWidthIs, EmittedEffect};
    ghost use Rattle.sat_solver.specs.proof.EmittedView.{CheckerCallResult, CheckerResultAfterMissedStep};
    ghost use Rattle.sat_solver.specs.proof.EmittedView.{EmittedAddListenerResult, emitted_without_listener_error};

    /// Creates a value without steps or checker.
    pub fn new() -> EmittedSteps<P>
        ensures steps { result.history.steps ≡ [] }
        ensures checked { emitted_is_checked result ≡ false }
        ensures taking { emitted_has_missed_step result ≡ false }
    {
        EmittedSteps {
            history: History::new(),
            own: None,
            roll: Roll::new(),
            begun: false,
            lost: false,
            complaint: None,
        }
    }

    /// Returns `true` if there is a checker.
    pub fn is_checked(&self) -> bool
        ensures { result ≡ emitted_is_checked self.now }
    {
        self.own.is_some()
    }

    /// Returns `true` if a step other than the end of a proof has been made.
    pub fn has_begun(&self) -> bool
        ensures { result ≡ has_begun self.now.history.steps }
    {
        self.begun
    }

    /// Starts a checker if there is none, or restarts one that has missed a step. No step other than the end of a proof
    /// may have been made. Never allocates.
    pub fn check(&mut self, alloc: Global)
        requires { has_begun self.old.history.steps ≡ false }
        ensures { EmittedStartsChecker self.old self.new }
    {
        let Some(own) = &mut self.own else {
            self.own = Some(Checked::new(alloc));
            self.lost = false;
            return;
        };
        if self.lost {
            self.roll = own.begin_anew(alloc);
            self.lost = false;
        }
    }

    /// Adds a listener, which the checker notifies from now on. If memory runs out, the listener is dropped, and the
    /// checker receives no further steps.
    pub fn add_processor(&mut self, processor: P) -> Result<(), CheckFault>
        requires begun { has_begun self.old.history.steps ≡ false }
        requires taking { emitted_has_missed_step self.old ≡ false }
        requires checked { emitted_is_checked self.old ≡ true }
        ensures steps { self.new.history.steps ≡ self.old.history.steps }
        ensures listens { EmittedAddListenerResult result processor self.old self.new }
    {
        let Some(own) = &mut self.own else {
            return Ok(());
        };
        let roll = self.roll.and(&processor);
        match own.add_processor(processor) {
            Ok(()) => {
                self.roll = roll;
                Ok(())
            }
            Err(error) => {
                self.lost = true;
                Err(store_cause(&mut self.complaint, error))
            }
        }
    }

    /// Records a step that the checker does not receive. The checker receives no steps from now on.
    pub fn skip(&mut self, step: &ProofStep<'_>)
        requires { AreAllowedSteps (step_of step.now ∷ self.old.history.steps) }
        ensures { EmittedEffect (step_of step.now) self.old self.new }
    {
        self.history = self.history.and(step);
        self.begun = self.begun || !is_end(step);
        self.lost = true;
    }

    /// Records `step`, and passes `cut` to the checker if there is one and it has not missed a step. `cut` must be
    /// `step` with its hashes shortened to the width `bits`.
    #[inline(always)]
    pub fn take(
        &mut self,
        bits: HashBits,
        step: &ProofStep<'_>,
        cut: &ProofStep<'_>,
    ) -> Result<(), CheckFault>
        requires may { AreAllowedSteps (step_of step.now ∷ self.old.history.steps) }
        requires width { KeepsWidth (step_of step.now) }
        requires cut { emitted_is_checked self.old ≡ true → step_of cut.now ≡ narrowed bits (step_of step.now) }
        ensures makes { EmittedEffect (step_of step.now) self.old self.new }
        ensures taking { OnOk result (emitted_has_missed_step self.new ≡ emitted_has_missed_step self.old) }
        ensures width { OnOk result (LastWidthIs bits self.new) }
        ensures fails { CheckerCallResult result self.new }
    {
        let Some(_own) = &self.own else {
            self.history = self.history.and(step);
            self.begun = self.begun || !is_end(step);
            return Ok(());
        };
        self.take_checked(bits, step, cut)
    }

    /// Does the same as `take`, if there is a checker. This is a separate function because an error from the checker
    /// is large.
    #[inline(never)]
    fn take_checked(
        &mut self,
        bits: HashBits,
        step: &ProofStep<'_>,
        cut: &ProofStep<'_>,
    ) -> Result<(), CheckFault>
        requires may { AreAllowedSteps (step_of step.now ∷ self.old.history.steps) }
        requires width { KeepsWidth (step_of step.now) }
        requires cut { emitted_is_checked self.old ≡ true → step_of cut.now ≡ narrowed bits (step_of step.now) }
        ensures makes { EmittedEffect (step_of step.now) self.old self.new }
        ensures taking { OnOk result (emitted_has_missed_step self.new ≡ emitted_has_missed_step self.old) }
        ensures width { OnOk result (LastWidthIs bits self.new) }
        ensures fails { CheckerCallResult result self.new }
    {
        self.history = self.history.and(step);
        self.begun = self.begun || !is_end(step);
        if self.lost {
            return Ok(());
        }
        match &mut self.own {
            None => Ok(()),
            Some(own) => match own.take(bits, step, cut) {
                Ok(()) => Ok(()),
                Err(error) => {
                    self.lost = true;
                    Err(store_cause(&mut self.complaint, error))
                }
            },
        }
    }

    /// Makes the checker, if any, announce what is pending without waiting for the next step. Fails if the checker has
    /// missed a step.
    pub fn take_delayed(&mut self) -> Result<(), CheckFault>
        ensures steps { self.new.history.steps ≡ self.old.history.steps }
        ensures listening { emitted_listeners self.new ≡ emitted_listeners self.old }
        ensures taking { OnOk result (emitted_has_missed_step self.new ≡ emitted_has_missed_step self.old) }
        ensures width { OnOk result ((bits : ℕ) → LastWidthIs bits self.old → LastWidthIs bits self.new) }
        ensures fails { CheckerResultAfterMissedStep (emitted_has_missed_step self.old) result self.new }
        ensures reported { OnOk result (EmittedIsReported self.new) }
    {
        match &mut self.own {
            None => Ok(()),
            Some(own) => {
                if self.lost {
                    return Err(CheckFault::OutOfMemory);
                }
                match own.take_delayed() {
                    Ok(()) => Ok(()),
                    Err(error) => {
                        self.lost = true;
                        Err(store_cause(&mut self.complaint, error))
                    }
                }
            }
        }
    }

    /// Returns the error from a listener, if any, and removes it.
    pub fn take_complaint(&mut self) -> Option<anyhow::Error>
        ensures gives { result ≡ self.old.complaint }
        ensures same { self.new ≡ emitted_without_listener_error self.old }
    {
        self.complaint.take()
    }

    /// Returns the listeners in the order in which they were added, even after a failure. Afterwards there is
    /// no checker.
    pub fn take_processors(&mut self, alloc: Global) -> Vec<P>
        ensures returned { EmittedReturnsListeners self.old result.items }
        ensures whole { EmittedReturnsNotifiedListeners self.old result.items }
    {
        let own = self.own.take();
        self.roll = Roll::new();
        match own {
            None => Vec::new(alloc),
            Some(own) => own.into_processors(),
        }
    }
}
