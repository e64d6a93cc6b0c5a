//! The part of a checker that checks steps, and notifies listeners of what the steps announce.
ghost use Rattle.std.specs.Prelude.{List, ◌≤◌, ◌≡◌, true, false, [], None, Ok, Err, OnOk, IsTrue, MatchResult};
ghost use Rattle.sat_base.specs.steps.StepViews.{step_of};
ghost use Rattle.sat_checker.specs.KernelView as kernels;
ghost use Rattle.sat_checker.specs.KernelView.{step_error, kernel_has_failed, kernel_looks, KernelHasAccepted};
ghost use Rattle.sat_checker.specs.CheckerView.{checker_view, StepResult, SettlingResult};
ghost use Rattle.sat_checker.specs.announcements.Announcements.{Notice};
ghost use Rattle.sat_checker.specs.inner.NotifyingSteps.{notices_with, changed_by, with_earlier_data, earlier_data_of};
ghost use Rattle.sat_checker.specs.inner.NotifyingSteps.{error_of_store};
ghost use Rattle.sat_checker.specs.inner.NotifyingSteps.{error_of_fault};
ghost use Rattle.sat_checker.specs.inner.NotifyingSteps.{records_of_status, AcceptsNoticesUnchanged};
ghost use Rattle.sat_checker.specs.inner.NotifyingSteps.{NotifiesAndKeepsState};
ghost use Rattle.sat_checker.specs.inner.VariablesView.{variable_at};
ghost use Rattle.sat_checker.specs.listeners.AnnouncementView.{variables_of};
ghost use Rattle.sat_checker.specs.listeners.Receiving.{call_listeners, ReceivesAll, OwnReceivesFirst};
ghost use Rattle.sat_checker.specs.listeners.Receiving.{ReceivesUpToFault};
ghost use Rattle.sat_checker.specs.listeners.ProcessingView.{listeners_of, EachListenerReceives};

use crate::announce::announcement::{CheckedProofStep, CheckerData, EarlierData};
use crate::announce::notes::Notes;
use crate::announce::pending::PendingAnnouncements;
use crate::announce::transcript::ProofTranscriptProcessor;
use crate::error::CheckerError;
use crate::looks::Looks;
use crate::processing::{Processing, ProcessingError, ProofProcessor};
use crate::state::CheckerState;
use crate::state::status::{Records, Status};
use crate::store::StoreError;
use crate::variables::Variables;
use sat_base::ProofStep;
use std::alloc::Global;
use thiserror::Error;

/// Returns the checker's error for an error that occurred while listeners were being notified.
fn fault(error: ProcessingError) -> CheckerError
    ensures { result ≡ error_of_fault error }
{
    match error {
        ProcessingError::OutOfMemory => CheckerError::OutOfMemory,
        ProcessingError::ProofProcessorError { cause } => {
            CheckerError::ProofProcessorError { cause }
        }
    }
}

/// Returns the variable whose name or mode the step may change, with its current data. Returns `None` if there is no
/// such variable, or no listener.
fn changed(variables: &Variables, step: &ProofStep<'_>, listening: bool) -> Option<EarlierData>
    ensures { IsTrue listening → earlier_data_of result ≡ changed_by (variable_at variables.now) (step_of step.now) }
{
    if !listening {
        return None;
    }
    match *step {
        ProofStep::UserVarName { global: var, .. }
        | ProofStep::DeleteVar { var }
        | ProofStep::ChangeSamplingMode { var, .. } => {
            let data = variables.data(var);
            Some(EarlierData { var, data })
        }
        ProofStep::SolverVarName { .. }
        | ProofStep::AddClause { .. }
        | ProofStep::AtClause { .. }
        | ProofStep::UnitClauses { .. }
        | ProofStep::DeleteClause { .. }
        | ProofStep::ChangeHashBits { .. }
        | ProofStep::Model { .. }
        | ProofStep::Assumptions { .. }
        | ProofStep::FailedAssumptions { .. }
        | ProofStep::End => None,
    }
}

/// Returns `true` if there is a listener: the caller's own processor, or another listener.
fn listens<P: ProofProcessor, T: ProofTranscriptProcessor>(
    has_own: bool,
    others: &Processing<P, T>,
) -> bool
    ensures { result ≡ false → (has_own ≡ false)
        × (listeners_of others.now ≡ record { processors = []; transcripts = [] }) }
{
    has_own || !others.is_quiet()
}

/// Notifies the listeners of the announcements in `news`, in order, up to the first error.
#[inline(always)]
fn notify_pending<O: ProofProcessor, P: ProofProcessor, T: ProofTranscriptProcessor>(
    news: &PendingAnnouncements,
    names: CheckerData<'_>,
    own: &mut O,
    others: &mut Processing<P, T>,
) -> Result<(), ProcessingError>
    ensures { MatchResult result (λ _. ReceivesAll (OwnReceivesFirst O.takes (EachListenerReceives P.takes T.reads))
        (notices_with (variables_of names.entry) news.now) (call_listeners own.old others.old) (call_listeners own.new others.new))
        (λ e. ReceivesUpToFault (OwnReceivesFirst O.takes (EachListenerReceives P.takes T.reads)) e
        (notices_with (variables_of names.entry) news.now) (call_listeners own.old others.old) (call_listeners own.new others.new)) }
{
    for place in 0..news.len() {
        match others.step_with(own, &news.get(place), names) {
            Ok(()) => {}
            Err(error) => return Err(error),
        }
    }
    Ok(())
}

/// Why a step is not accepted when it is checked without notifying listeners.
#[derive(Clone, Copy, Debug, Drop, Error)]
pub enum StepRefusal {
    /// The checker failed in an earlier call.
    #[error("the checker has failed before")]
    HasFailed,
    /// The step was refused.
    #[error("a proof step is refused")]
    CheckFailed,
    /// Memory ran out.
    #[error("out of memory")]
    OutOfMemory,
    /// The last id, 2^64-2, has already been assigned, or a clause is already stored 2^64-1 times.
    #[error("a counter is at its end")]
    CounterEnd,
}

/// Returns the refusal for an error from the store.
fn refusal(error: StoreError) -> StepRefusal
    ensures { step_error result ≡ error_of_store error }
{
    match error {
        StoreError::OutOfMemory => StepRefusal::OutOfMemory,
        StoreError::CounterEnd => StepRefusal::CounterEnd,
    }
}

/// A checker without its listeners.
#[derive(Drop)]
pub(crate) struct Kernel {
    pub(crate) state: CheckerState,
    /// What was recorded after the last accepted step.
    pub(crate) records: Records,
    pub(crate) failed: bool,
    pub(crate) looks: Looks,
    /// What the current step announces.
    notes: Notes,
}

impl Kernel {
    /// Creates a kernel that has accepted no steps yet. Never allocates.
    pub fn new(alloc: Global) -> Kernel
        ensures valid { KernelHasAccepted result [] }
        ensures goes_on { kernel_has_failed result ≡ false }
        ensures settled { result.state.formula.status.conflict ≡ None }
        ensures looks { kernel_looks result ≡ 0 }
    {
        Kernel {
            state: CheckerState::new(alloc),
            records: Status::new().records(),
            failed: false,
            looks: Looks::new(),
            notes: Notes::new(alloc),
        }
    }

    /// Checks the next step, accepts it if it passes, and notifies the listeners of what it announces. If `has_own` is
    /// true, `own`, the caller's processor, is notified first.
    pub fn check_step<O: ProofProcessor, P: ProofProcessor, T: ProofTranscriptProcessor>(
        &mut self,
        step: &ProofStep<'_>,
        own: &mut O,
        has_own: bool,
        others: &mut Processing<P, T>,
    ) -> Result<(), CheckerError>
        // If the caller has no processor, `own` must accept everything and never change.
        requires { has_own ≡ false → (v : _) (t : Notice) → O.takes v t (Ok tt) v }
        ensures correct { kernels.KernelStepResult result self.old (step_of step.now) self.new }
        ensures goes_on { OnOk result (kernel_has_failed self.new ≡ false) }
        ensures notifies { StepResult (OwnReceivesFirst O.takes (EachListenerReceives P.takes T.reads)) result
            (checker_view self.old (call_listeners own.old others.old)) (step_of step.now)
            (checker_view self.new (call_listeners own.new others.new)) }
        ensures looks { kernels.LooksAtMost self.old (step_of step.now) self.new }
        ensures rise { kernel_looks self.old ≤ kernel_looks self.new }
        ensures failed { kernel_has_failed self.old ≡ true
            → (result ≡ Err CheckerError.HasFailed) × (self.new ≡ self.old) × (others.new ≡ others.old) }
    {
        if self.failed {
            return Err(CheckerError::HasFailed);
        }
        match self.process_unit_conflicts(own, others) {
            Ok(()) => {
                let listening = listens(has_own, others);
                self.step(step, own, listening, others)
            }
            Err(error) => Err(error),
        }
    }

    /// Checks the next step, and accepts it if it passes. Notifies no listener.
    pub fn accept_step(&mut self, step: &ProofStep<'_>) -> Result<(), StepRefusal>
        ensures correct { kernels.KernelStepResult (kernels.step_result_of result) self.old (step_of step.now) self.new }
        ensures looks { kernels.LooksAtMost self.old (step_of step.now) self.new }
        ensures rise { kernel_looks self.old ≤ kernel_looks self.new }
        ensures failed { kernel_has_failed self.old ≡ true
            → (result ≡ Err StepRefusal.HasFailed) × (self.new ≡ self.old) }
    {
        if self.failed {
            return Err(StepRefusal::HasFailed);
        }
        match self.settle_unannounced() {
            Ok(()) => self.step_unannounced(step),
            Err(refusal) => Err(refusal),
        }
    }

    /// If a unit conflict is pending, gives its empty clause the next id. Notifies no listener.
    fn settle_unannounced(&mut self) -> Result<(), StepRefusal>
        requires { kernel_has_failed self.old ≡ false }
        ensures correct { kernels.KernelSettlingResult (kernels.step_result_of result) self.old self.new }
        ensures goes_on { OnOk result ((kernel_has_failed self.new ≡ false)
            × (self.new.state.formula.status.conflict ≡ None)) }
        ensures looks { kernel_looks self.new ≡ kernel_looks self.old }
    {
        let Some((_stored, _contradicting)) = self.state.formula.status.conflict else {
            return Ok(());
        };
        if self.state.formula.settle().is_err() {
            self.failed = true;
            return Err(StepRefusal::CounterEnd);
        }
        Ok(())
    }

    /// Checks the next step, and accepts it if it passes. No unit conflict may be pending. Notifies no listener.
    fn step_unannounced(&mut self, step: &ProofStep<'_>) -> Result<(), StepRefusal>
        requires well { kernel_has_failed self.old ≡ false }
        requires settled { self.old.state.formula.status.conflict ≡ None }
        ensures correct { kernels.KernelStepResult (kernels.step_result_of result) self.old (step_of step.now) self.new }
        ensures looks { kernels.LooksAtMost self.old (step_of step.now) self.new }
        ensures rise { kernel_looks self.old ≤ kernel_looks self.new }
    {
        self.notes.begin(false);
        match self
            .state
            .check_step(step, &mut self.notes, &mut self.looks)
        {
            Ok(true) => {
                let records = self.state.formula.status.records();
                self.records = records;
                Ok(())
            }
            Ok(false) => {
                self.failed = true;
                Err(StepRefusal::CheckFailed)
            }
            Err(error) => {
                self.failed = true;
                Err(refusal(error))
            }
        }
    }

    /// If a unit conflict is pending, gives its empty clause the next id, and announces that clause.
    #[inline(always)]
    pub fn process_unit_conflicts<
        O: ProofProcessor,
        P: ProofProcessor,
        T: ProofTranscriptProcessor,
    >(&mut self, own: &mut O, others: &mut Processing<P, T>) -> Result<(), CheckerError>
        requires { kernel_has_failed self.old ≡ false }
        ensures correct { kernels.KernelSettlingResult result self.old self.new }
        ensures goes_on { OnOk result ((kernel_has_failed self.new ≡ false)
            × (self.new.state.formula.status.conflict ≡ None)) }
        ensures looks { kernel_looks self.new ≡ kernel_looks self.old }
        ensures notifies { SettlingResult (OwnReceivesFirst O.takes (EachListenerReceives P.takes T.reads))
            result (checker_view self.old (call_listeners own.old others.old)) (checker_view self.new (call_listeners own.new others.new)) }
    {
        if self.state.formula.status.conflict.is_none() {
            return Ok(());
        }
        self.settle_conflict(own, others)
    }

    /// Does what `process_unit_conflicts` does if a unit conflict is pending.
    #[inline(never)]
    fn settle_conflict<O: ProofProcessor, P: ProofProcessor, T: ProofTranscriptProcessor>(
        &mut self,
        own: &mut O,
        others: &mut Processing<P, T>,
    ) -> Result<(), CheckerError>
        requires { kernel_has_failed self.old ≡ false }
        ensures correct { kernels.KernelSettlingResult result self.old self.new }
        ensures goes_on { OnOk result ((kernel_has_failed self.new ≡ false)
            × (self.new.state.formula.status.conflict ≡ None)) }
        ensures looks { kernel_looks self.new ≡ kernel_looks self.old }
        ensures notifies { SettlingResult (OwnReceivesFirst O.takes (EachListenerReceives P.takes T.reads))
            result (checker_view self.old (call_listeners own.old others.old)) (checker_view self.new (call_listeners own.new others.new)) }
    {
        let Some((stored, contradicting)) = self.state.formula.status.conflict else {
            return Ok(());
        };
        let id = self.state.formula.status.next_id;
        if self.state.formula.settle().is_err() {
            self.failed = true;
            return Err(CheckerError::CounterEnd);
        }
        let step = CheckedProofStep::AtClause {
            id,
            redundant: false,
            clause: &[],
            propagations: &[stored, contradicting],
        };
        match others.step_with(own, &step, CheckerData::new(&self.state.variables)) {
            Ok(()) => Ok(()),
            Err(error) => {
                self.failed = true;
                Err(fault(error))
            }
        }
    }

    /// Checks the next step, accepts it if it passes, and notifies the listeners if `listening` is true. No unit
    /// conflict may be pending.
    fn step<O: ProofProcessor, P: ProofProcessor, T: ProofTranscriptProcessor>(
        &mut self,
        step: &ProofStep<'_>,
        own: &mut O,
        listening: bool,
        others: &mut Processing<P, T>,
    ) -> Result<(), CheckerError>
        requires well { kernel_has_failed self.old ≡ false }
        requires settled { self.old.state.formula.status.conflict ≡ None }
        requires quiet { listening ≡ false
            → AcceptsNoticesUnchanged (OwnReceivesFirst O.takes (EachListenerReceives P.takes T.reads)) (call_listeners own.old others.old) }
        ensures correct { kernels.KernelStepResult result self.old (step_of step.now) self.new }
        ensures goes_on { OnOk result (kernel_has_failed self.new ≡ false) }
        ensures notifies { StepResult (OwnReceivesFirst O.takes (EachListenerReceives P.takes T.reads)) result
            (checker_view self.old (call_listeners own.old others.old)) (step_of step.now)
            (checker_view self.new (call_listeners own.new others.new)) }
        ensures looks { kernels.LooksAtMost self.old (step_of step.now) self.new }
        ensures rise { kernel_looks self.old ≤ kernel_looks self.new }
    {
        self.notes.begin(listening);
        let was = changed(&self.state.variables, step, listening);
        match self
            .state
            .check_step(step, &mut self.notes, &mut self.looks)
        {
            Ok(true) => self.announce(&was, own, listening, others),
            Ok(false) => {
                self.failed = true;
                Err(CheckerError::CheckFailed)
            }
            Err(error) => {
                self.failed = true;
                Err(CheckerError::from(error))
            }
        }
    }

    /// Updates the records after an accepted step, and notifies the listeners, if there are any, of what was noted.
    #[inline(always)]
    fn announce<O: ProofProcessor, P: ProofProcessor, T: ProofTranscriptProcessor>(
        &mut self,
        was: &Option<EarlierData>,
        own: &mut O,
        listening: bool,
        others: &mut Processing<P, T>,
    ) -> Result<(), CheckerError>
        requires well { kernel_has_failed self.old ≡ false }
        requires quiet { listening ≡ false
            → AcceptsNoticesUnchanged (OwnReceivesFirst O.takes (EachListenerReceives P.takes T.reads)) (call_listeners own.old others.old) }
        ensures { (reported : List Notice) → (IsTrue listening
            → reported ≡ notices_with (with_earlier_data (earlier_data_of was.now) (variable_at self.old.state.variables))
            self.old.notes.news) → NotifiesAndKeepsState (OwnReceivesFirst O.takes (EachListenerReceives P.takes T.reads)) reported result
            (checker_view self.old (call_listeners own.old others.old)) (checker_view self.new (call_listeners own.new others.new)) }
    {
        self.records = self.state.formula.status.records();
        if !listening {
            return Ok(());
        }
        // If there is nothing to announce, `notify` is not called.
        if self.notes.news.is_empty() {
            return Ok(());
        }
        self.notify(was, own, others)
    }

    /// Notifies the listeners of what was noted about an accepted step. The records must already be updated.
    #[inline(never)]
    fn notify<O: ProofProcessor, P: ProofProcessor, T: ProofTranscriptProcessor>(
        &mut self,
        was: &Option<EarlierData>,
        own: &mut O,
        others: &mut Processing<P, T>,
    ) -> Result<(), CheckerError>
        requires well { kernel_has_failed self.old ≡ false }
        requires recorded { self.old.records ≡ records_of_status self.old.state.formula.status }
        ensures { NotifiesAndKeepsState (OwnReceivesFirst O.takes (EachListenerReceives P.takes T.reads))
            (notices_with (with_earlier_data (earlier_data_of was.now) (variable_at self.old.state.variables)) self.old.notes.news)
            result (checker_view self.old (call_listeners own.old others.old)) (checker_view self.new (call_listeners own.new others.new)) }
    {
        let names = CheckerData::before(&self.state.variables, was);
        match notify_pending(&self.notes.news, names, own, others) {
            Ok(()) => Ok(()),
            Err(error) => {
                self.failed = true;
                Err(fault(error))
            }
        }
    }
}
