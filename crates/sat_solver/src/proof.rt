//! The proof that a solver writes. Every step is made here.
ghost use Rattle.std.specs.Prelude.{◌≡◌, ◌∷◌, [], true, false, Some, OnOk, IfErr};
ghost use Rattle.sat_base.specs.device.Sink.{empty_sink};
ghost use Rattle.sat_base.specs.steps.StepViews.{step_of};
ghost use Rattle.sat_solver.specs.proof.Counting.{nothing_counted, counting_after};
ghost use Rattle.sat_solver.specs.proof.Checked.{has_begun};
ghost use Rattle.sat_solver.specs.proof.EmittedView.{EmittedEffect};
ghost use Rattle.sat_solver.specs.session.Session.{IsAllowedStep, AreAllowedSteps};
ghost use Rattle.sat_solver.specs.proof.Widths.{narrowed, KeepsWidth};
ghost use Rattle.sat_solver.specs.proof.ProofView.{Closed, IsAtWidth, Open, with_ask_begun, proof_listeners, is_open};
ghost use Rattle.sat_solver.specs.proof.ProofView.{is_drat};
ghost use Rattle.sat_solver.specs.proof.ProofView.{has_asked};
ghost use Rattle.sat_solver.specs.proof.ProofView.{target_of, steps_of, session_of, is_checked, has_missed_step};
ghost use Rattle.sat_solver.specs.proof.ProofView.{StartsChecker};
ghost use Rattle.sat_solver.specs.proof.ProofView.{AllStepsReported, HasAllowedSteps, EmitsExactly, EmitResult};
ghost use Rattle.sat_solver.specs.proof.ProofView.{WritesToTarget, TargetReceives};
ghost use Rattle.sat_solver.specs.proof.ProofView.{FailsOnlyInChecker, FailsOnlyInCheckerAfterMissedStep};
ghost use Rattle.sat_solver.specs.proof.ProofView.{FlushesTarget, FlushesOrFails};
ghost use Rattle.sat_solver.specs.proof.ProofView.{ClosesTarget, ReturnsListeners, ReturnsNotifiedListeners};
ghost use Rattle.sat_solver.specs.proof.ProofView.{ReturnsTarget, HasCause, AddListenerEffect};
ghost use Rattle.sat_solver.specs.proof.ProofView.{without_listener_error};
ghost use Rattle.sat_solver.specs.facade.Judged.{CanBeObserved, IsObserved};

pub mod checker;
pub mod drat;
pub mod emitted;
pub mod format;
pub mod hash_bits;
pub mod kept;
pub mod map_step;
pub mod native;
pub mod output;
pub mod truncate;

use crate::facade::judged::{Judged, Observed};
use crate::proof::emitted::{CheckFault, EmittedSteps};
use crate::proof::format::ProofFormat;
use crate::proof::hash_bits::Counting;
use crate::proof::kept::Kept;
use crate::proof::output::{OutputError, ProofOutput};
use crate::proof::truncate::{CutLists, has_hashes, narrow, narrow_units};
use crate::variables::Variables;
use sat_base::{CountedWrite, ProofStep, Var};
use sat_checker::{Nobody, ProofProcessor};
use std::alloc::Global;
use std::{io, mem};
use thiserror::Error;

/// Why a step was not written, or not checked.
#[derive(Debug, Drop, Error)]
pub enum ProofError {
    /// A call to the target failed. The underlying error is stored with the proof.
    #[error("a call to the proof's target failed")]
    Write(Kept<io::Error>),
    /// The memory for the step's text or its shortened hashes could not be allocated. The step was not made.
    #[error("out of memory")]
    OutOfMemory,
    /// The solver's own checker failed. If it failed at a step, the step was made.
    #[error("the solver's own checker failed")]
    Check(CheckFault),
}

impl From<CheckFault> for ProofError {
    ghost use Rattle.std.specs.Prelude.{◌≡◌};
    ghost use Rattle.sat_solver.specs.declared.proof.ProofError.TheVariants.{Check};

    ghost from_gives = { λ f e. e ≡ Check f };

    fn from(fault: CheckFault) -> ProofError {
        ProofError::Check(fault)
    }
}

/// All steps that a solver has made, the solver's own checker, if any, and the open target for the steps' text, if any.
/// After the target fails, it is not used again, and steps are made as if no target were open.
#[derive(Drop)]
pub struct Proof<W, P: ProofProcessor = Nobody> {
    alloc: Global,
    made: EmittedSteps<P>,
    /// The counts that determine the width of hashes, whether a target is open or not.
    counting: Counting,
    lists: CutLists,
    /// The buffer in which DRAT lines are assembled.
    text: Vec<u8>,
    output: Option<ProofOutput<W>>,
    broken: bool,
    /// The error from the last failed call to a target, if any.
    cause: Option<io::Error>,
}

impl<W: CountedWrite + Drop, P: ProofProcessor> Proof<W, P> {
    /// Creates a proof without steps, checker or target. Never allocates.
    pub fn new(alloc: Global) -> Proof<W, P>
        ensures steps { steps_of result ≡ [] }
        ensures checked { is_checked result ≡ false }
        ensures taking { has_missed_step result ≡ false }
        ensures asked { has_asked result ≡ false }
        ensures target { target_of W.seen result ≡ Closed nothing_counted }
    {
        Proof {
            alloc,
            made: EmittedSteps::new(),
            counting: Counting::new(),
            lists: CutLists::new(alloc),
            text: Vec::new(alloc),
            output: None,
            broken: false,
            cause: None,
        }
    }

    /// Returns `true` if a target is open, so that steps are written.
    pub fn is_open(&self) -> bool
        ensures { result ≡ is_open (target_of W.seen self.now) }
    {
        match &self.output {
            None => false,
            Some(_) => !self.broken,
        }
    }

    /// Returns `true` if a target that receives DRAT lines is open.
    pub fn is_drat(&self) -> bool
        ensures { result ≡ is_drat (target_of W.seen self.now) }
    {
        match &self.output {
            None => false,
            Some(output) => !self.broken && output.is_drat(),
        }
    }

    /// Returns `true` if an ask has begun.
    pub fn has_asked(&self) -> bool
        ensures { result ≡ has_asked self.now }
    {
        self.counting.solving
    }

    /// Returns `true` if a step other than the end of a proof has been made.
    pub fn has_begun(&self) -> bool
        ensures { result ≡ has_begun (steps_of self.now) }
    {
        self.made.has_begun()
    }

    /// Returns the script state after hidden variables got the names `users`, where `judged` is the one before. There
    /// must be one.
    pub fn judge_observed(&self, judged: &Judged, names: &Variables, users: &[Var]) -> Judged
        requires { CanBeObserved judged.now.state names.now (steps_of self.now) users.now }
        ensures { IsObserved judged.now.state result.state names.now (steps_of self.now) users.now }
    {
        judged.observed(&Observed {
            names,
            history: &self.made.history,
            users,
        })
    }

    /// Starts a checker if there is none, or restarts one that has missed a step. The checker receives all steps from
    /// now on.
    ///
    /// No step other than the end of a proof may have been made. Never allocates.
    pub fn begin_checking(&mut self, alloc: Global)
        requires { has_begun (steps_of self.old) ≡ false }
        ensures checks { StartsChecker self.old self.new }
        ensures asked { has_asked self.new ≡ has_asked self.old }
        ensures target { target_of W.seen self.new ≡ target_of W.seen self.old }
    {
        self.made.check(alloc);
    }

    /// Adds a listener, which the checker notifies from now on. If memory runs out, the listener is dropped, and the
    /// checker receives no further step.
    pub fn add_processor(&mut self, processor: P) -> Result<(), ProofError>
        requires begun { has_begun (steps_of self.old) ≡ false }
        requires taking { has_missed_step self.old ≡ false }
        requires checked { is_checked self.old ≡ true }
        ensures { AddListenerEffect W.seen result processor self.old self.new }
    {
        self.made.add_processor(processor)?;
        Ok(())
    }

    /// Opens a target, to which steps are written from now on, at first with hashes of full width. Drops an earlier
    /// target that failed. No other target may be open. Never allocates.
    pub fn open(&mut self, format: ProofFormat, target: W)
        requires { is_open (target_of W.seen self.old) ≡ false }
        ensures steps { steps_of self.new ≡ steps_of self.old }
        ensures listening { proof_listeners self.new ≡ proof_listeners self.old }
        ensures taking { has_missed_step self.new ≡ has_missed_step self.old }
        ensures asked { has_asked self.new ≡ false }
        ensures target { target_of W.seen self.new ≡ Open format nothing_counted (empty_sink (W.seen target)) }
    {
        self.counting = Counting::new();
        self.output = Some(ProofOutput::new(format, target));
        self.broken = false;
    }

    /// Begins an ask. From now on, hashes may be shortened if the number of clauses permits.
    pub fn begin_ask(&mut self)
        ensures keeps { HasAllowedSteps self.old → HasAllowedSteps self.new }
        ensures adds { EmitsExactly W.seen [] self.old self.new }
        ensures taking { has_missed_step self.new ≡ has_missed_step self.old }
        ensures same { self.new ≡ with_ask_begun self.old }
    {
        self.counting.solving = true;
    }

    /// Stops using the target, and stores `cause`, the error from its last call. Returns the fault to report.
    fn break_off(&mut self, cause: io::Error) -> ProofError
        ensures fault { result ≡ ProofError.Write cause }
        ensures breaks { self.new ≡ record self.old { broken = true; cause = Some cause } }
    {
        let kept = Kept::of(&cause);
        self.broken = true;
        self.cause = Some(cause);
        ProofError::Write(kept)
    }

    /// Writes `cut` to the open target, if any. `cut` must be `step` with its hashes shortened to the width in
    /// `counting`, which must be the counts after the step. Stores these counts if the call succeeds.
    #[inline(always)]
    fn put(
        &mut self,
        counting: Counting,
        step: &ProofStep<'_>,
        cut: &ProofStep<'_>,
    ) -> Result<(), ProofError>
        requires width { KeepsWidth (step_of step.now) }
        requires counted { counting ≡ counting_after (step_of step.now) self.old.counting }
        requires cut { step_of cut.now ≡ narrowed counting.bits (step_of step.now) }
        ensures made { self.new.made ≡ self.old.made }
        ensures counting { OnOk result (self.new.counting ≡ counting) }
        ensures stays { IfErr result (λ e. self.new.counting ≡ self.old.counting) }
        ensures asked { has_asked self.new ≡ has_asked self.old }
        ensures puts { WritesToTarget result (step_of step.now ∷ []) (target_of W.seen self.old) (target_of W.seen self.new) }
        ensures cause { IfErr result (λ e. HasCause e self.new) }
    {
        if self.try_put(&counting, step, cut) {
            return Ok(());
        }
        self.put_long(&counting, step, cut)
    }

    /// Buffers the text of `cut` if it is certain to fit, or writes nothing if no target is open. Returns `false` if
    /// the text is still to be written.
    ///
    /// `cut` must be `_step` with its hashes shortened to the width in `counting`.
    #[inline(always)]
    fn try_put(&mut self, counting: &Counting, _step: &ProofStep<'_>, cut: &ProofStep<'_>) -> bool
        requires width { KeepsWidth (step_of _step.now) }
        requires counted { counting.now ≡ counting_after (step_of _step.now) self.old.counting }
        requires cut { step_of cut.now ≡ narrowed counting.now.bits (step_of _step.now) }
        ensures made { self.new.made ≡ self.old.made }
        ensures counting { result ≡ true → self.new.counting ≡ counting.now }
        ensures asked { has_asked self.new ≡ has_asked self.old }
        ensures puts { result ≡ true → TargetReceives (target_of W.seen self.old) (step_of _step.now ∷ [])
            (target_of W.seen self.new) }
        ensures stays { result ≡ false → self.new ≡ self.old }
    {
        if self.broken {
            self.counting = *counting;
            return true;
        }
        let Some(output) = &mut self.output else {
            self.counting = *counting;
            return true;
        };
        if output.try_write((self.counting.bits, counting.bits), cut) {
            self.counting = *counting;
            return true;
        }
        false
    }

    /// Writes `cut` to the open target, if any, however long its text is. This is a separate function because an error
    /// from a target is large.
    #[inline(never)]
    fn put_long(
        &mut self,
        counting: &Counting,
        step: &ProofStep<'_>,
        cut: &ProofStep<'_>,
    ) -> Result<(), ProofError>
        requires width { KeepsWidth (step_of step.now) }
        requires counted { counting.now ≡ counting_after (step_of step.now) self.old.counting }
        requires cut { step_of cut.now ≡ narrowed counting.now.bits (step_of step.now) }
        ensures made { self.new.made ≡ self.old.made }
        ensures counting { OnOk result (self.new.counting ≡ counting.now) }
        ensures stays { IfErr result (λ e. self.new.counting ≡ self.old.counting) }
        ensures asked { has_asked self.new ≡ has_asked self.old }
        ensures puts { WritesToTarget result (step_of step.now ∷ []) (target_of W.seen self.old) (target_of W.seen self.new) }
        ensures cause { IfErr result (λ e. HasCause e self.new) }
    {
        if self.broken {
            self.counting = *counting;
            return Ok(());
        }
        let Some(output) = &mut self.output else {
            self.counting = *counting;
            return Ok(());
        };
        let widths = (self.counting.bits, counting.bits);
        match output.write(&mut self.text, widths, cut) {
            Ok(()) => {
                self.counting = *counting;
                Ok(())
            }
            Err(OutputError::Write(cause)) => Err(self.break_off(cause)),
            Err(OutputError::OutOfMemory) => Err(ProofError::OutOfMemory),
        }
    }

    /// Records `step`, and passes `cut` to the checker, if any. `cut` must be `step` with its hashes shortened to the
    /// current width.
    #[inline(always)]
    fn take(&mut self, step: &ProofStep<'_>, cut: &ProofStep<'_>) -> Result<(), ProofError>
        requires may { AreAllowedSteps (step_of step.now ∷ steps_of self.old) }
        requires width { KeepsWidth (step_of step.now) }
        requires cut { is_checked self.old ≡ true
            → step_of cut.now ≡ narrowed self.old.counting.bits (step_of step.now) }
        ensures makes { EmittedEffect (step_of step.now) self.old.made self.new.made }
        ensures taking { OnOk result (has_missed_step self.new ≡ has_missed_step self.old) }
        ensures width { OnOk result (IsAtWidth self.new) }
        ensures asked { has_asked self.new ≡ has_asked self.old }
        ensures target { target_of W.seen self.new ≡ target_of W.seen self.old }
        ensures fails { FailsOnlyInChecker result self.new }
    {
        self.made.take(self.counting.bits, step, cut)?;
        Ok(())
    }

    /// Writes `cut` to the open target, if any, records `step`, and passes `cut` to the checker, if any. The checker
    /// does not receive a step if the target fails while the step's text is being written.
    ///
    /// `cut` must be `step` with its hashes shortened to the width in `counting`, which must be the counts after
    /// the step.
    #[inline(always)]
    fn record<'s>(
        &mut self,
        counting: Counting,
        step: &ProofStep<'s>,
        cut: &ProofStep<'s>,
    ) -> Result<(), ProofError>
        requires keeps { HasAllowedSteps self.old }
        requires may { IsAllowedStep (session_of self.old) (step_of step.now) }
        requires width { KeepsWidth (step_of step.now) }
        requires counted { counting ≡ counting_after (step_of step.now) self.old.counting }
        requires cut { step_of cut.now ≡ narrowed counting.bits (step_of step.now) }
        ensures keeps { HasAllowedSteps self.new }
        ensures records { EmitResult W.seen result (step_of step.now ∷ []) self.old self.new }
    {
        match self.put(counting, step, cut) {
            Ok(()) => self.take(step, cut),
            Err(ProofError::Write(e)) => {
                self.made.skip(step);
                Err(ProofError::Write(e))
            }
            Err(ProofError::OutOfMemory) => Err(ProofError::OutOfMemory),
            Err(ProofError::Check(fault)) => Err(ProofError::Check(fault)),
        }
    }

    /// Makes a step, with its hashes shortened to the width after the step. The shortened hashes are stored in `lists`.
    fn record_cut(&mut self, lists: &mut CutLists, step: &ProofStep<'_>) -> Result<(), ProofError>
        requires keeps { HasAllowedSteps self.old }
        requires may { IsAllowedStep (session_of self.old) (step_of step.now) }
        requires width { KeepsWidth (step_of step.now) }
        ensures keeps { HasAllowedSteps self.new }
        ensures records { EmitResult W.seen result (step_of step.now ∷ []) self.old self.new }
    {
        let counting = self.counting.with(step);
        match *step {
            ProofStep::AtClause {
                redundant,
                clause,
                propagation_hashes,
            } => {
                if narrow(&mut lists.hashes, propagation_hashes, counting.bits).is_err() {
                    return Err(ProofError::OutOfMemory);
                }
                let whole = ProofStep::AtClause {
                    redundant,
                    clause,
                    propagation_hashes,
                };
                let cut = ProofStep::AtClause {
                    redundant,
                    clause,
                    propagation_hashes: &lists.hashes,
                };
                self.record(counting, &whole, &cut)
            }
            ProofStep::UnitClauses { units } => {
                if narrow_units(&mut lists.units, units, counting.bits).is_err() {
                    return Err(ProofError::OutOfMemory);
                }
                let whole = ProofStep::UnitClauses { units };
                let cut = ProofStep::UnitClauses {
                    units: &lists.units,
                };
                self.record(counting, &whole, &cut)
            }
            ProofStep::FailedAssumptions {
                failed_core,
                propagation_hashes,
            } => {
                if narrow(&mut lists.hashes, propagation_hashes, counting.bits).is_err() {
                    return Err(ProofError::OutOfMemory);
                }
                let whole = ProofStep::FailedAssumptions {
                    failed_core,
                    propagation_hashes,
                };
                let cut = ProofStep::FailedAssumptions {
                    failed_core,
                    propagation_hashes: &lists.hashes,
                };
                self.record(counting, &whole, &cut)
            }
            _ => self.record(counting, step, step),
        }
    }

    /// Counts a step that is not written because no target is open.
    #[inline(always)]
    fn count(&mut self, step: &ProofStep<'_>)
        requires shut { is_open (target_of W.seen self.old) ≡ false }
        requires width { KeepsWidth (step_of step.now) }
        ensures made { self.new.made ≡ self.old.made }
        ensures asked { has_asked self.new ≡ has_asked self.old }
        ensures takes { TargetReceives (target_of W.seen self.old) (step_of step.now ∷ []) (target_of W.seen self.new) }
    {
        self.counting = self.counting.with(step);
    }

    /// Makes a step, which the session must allow: writes the step to the open target, if any, and passes it to the
    /// checker, if any. If the memory for the step's text or its hashes cannot be allocated, the step is not made.
    #[inline(always)]
    pub fn add_step(&mut self, step: &ProofStep<'_>) -> Result<(), ProofError>
        requires keeps { HasAllowedSteps self.old }
        requires may { IsAllowedStep (session_of self.old) (step_of step.now) }
        requires width { KeepsWidth (step_of step.now) }
        ensures keeps { HasAllowedSteps self.new }
        ensures records { EmitResult W.seen result (step_of step.now ∷ []) self.old self.new }
    {
        if !self.made.is_checked() && !self.is_open() {
            self.count(step);
            return self.take(step, &ProofStep::End);
        }
        if has_hashes(step) {
            return self.step_with_hashes(step);
        }
        let counting = self.counting.with(step);
        self.record(counting, step, step)
    }

    /// Makes a step that has hashes. The shortened hashes are stored in `self.lists`.
    #[inline(never)]
    fn step_with_hashes(&mut self, step: &ProofStep<'_>) -> Result<(), ProofError>
        requires keeps { HasAllowedSteps self.old }
        requires may { IsAllowedStep (session_of self.old) (step_of step.now) }
        requires width { KeepsWidth (step_of step.now) }
        ensures keeps { HasAllowedSteps self.new }
        ensures records { EmitResult W.seen result (step_of step.now ∷ []) self.old self.new }
    {
        let mut lists = mem::replace(&mut self.lists, CutLists::new(self.alloc));
        let recorded = self.record_cut(&mut lists, step);
        self.lists = lists;
        recorded
    }

    /// Writes pending bytes to the open target, if any, and flushes it.
    fn flush_target(&mut self) -> Result<(), ProofError>
        ensures flushes { FlushesTarget W.seen result self.old self.new }
        ensures taking { has_missed_step self.new ≡ has_missed_step self.old }
        ensures width { IsAtWidth self.old → IsAtWidth self.new }
        ensures asked { has_asked self.new ≡ has_asked self.old }
    {
        if self.broken {
            return Ok(());
        }
        let Some(output) = &mut self.output else {
            return Ok(());
        };
        match output.flush() {
            Ok(()) => Ok(()),
            Err(cause) => Err(self.break_off(cause)),
        }
    }

    /// Makes the checker, if any, announce what is pending.
    fn take_delayed(&mut self) -> Result<(), ProofError>
        ensures steps { steps_of self.new ≡ steps_of self.old }
        ensures listening { proof_listeners self.new ≡ proof_listeners self.old }
        ensures taking { OnOk result (has_missed_step self.new ≡ has_missed_step self.old) }
        ensures asked { has_asked self.new ≡ has_asked self.old }
        ensures width { OnOk result (IsAtWidth self.old → IsAtWidth self.new) }
        ensures target { target_of W.seen self.new ≡ target_of W.seen self.old }
        ensures fails { FailsOnlyInCheckerAfterMissedStep (has_missed_step self.old) result self.new }
        ensures reported { OnOk result (AllStepsReported self.new) }
    {
        self.made.take_delayed()?;
        Ok(())
    }

    /// Writes pending bytes to the open target, if any, and flushes it. Then makes the checker, if any, announce what
    /// is pending.
    pub fn flush_proof(&mut self) -> Result<(), ProofError>
        ensures keeps { HasAllowedSteps self.old → HasAllowedSteps self.new }
        ensures flushes { FlushesOrFails W.seen result self.old self.new }
    {
        self.flush_target()?;
        self.take_delayed()
    }

    /// Writes the `End` step, flushes the target and returns it. Returns `None` if no target is open. After an error,
    /// the proof keeps the target.
    pub fn close_proof(&mut self) -> Result<Option<W>, ProofError>
        requires { HasAllowedSteps self.old }
        ensures keeps { HasAllowedSteps self.new }
        ensures closes { ClosesTarget W.seen result self.old self.new }
    {
        if !self.is_open() {
            return Ok(None);
        }
        self.add_step(&ProofStep::End)?;
        self.flush_proof()?;
        Ok(self.take_target())
    }

    /// Returns the target, if any, without flushing it. Its pending bytes are lost.
    pub fn take_target(&mut self) -> Option<W>
        ensures keeps { HasAllowedSteps self.old → HasAllowedSteps self.new }
        ensures gives { ReturnsTarget W.seen result self.old self.new }
    {
        self.broken = false;
        match self.output.take() {
            None => None,
            Some(output) => Some(output.into_writer()),
        }
    }

    /// Returns the error from the last failed call to a target, or `None` if no call failed.
    pub fn cause(&self) -> Option<io::Error>
        ensures { result ≡ self.now.cause }
    {
        self.cause
    }

    /// Returns the error from a listener, if any, and removes it from the proof.
    pub fn take_complaint(&mut self) -> Option<anyhow::Error>
        ensures gives { result ≡ self.old.made.complaint }
        ensures same { self.new ≡ without_listener_error self.old }
    {
        self.made.take_complaint()
    }

    /// Returns the checker's listeners in the order in which they were added, even after a failure. Afterwards there is
    /// no checker.
    pub fn take_processors(&mut self, alloc: Global) -> Vec<P>
        ensures returned { ReturnsListeners self.old result.items }
        ensures whole { ReturnsNotifiedListeners self.old result.items }
    {
        self.made.take_processors(alloc)
    }
}
