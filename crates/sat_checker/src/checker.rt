//! The checker of proof steps.
ghost use Rattle.std.specs.Prelude.{◌≤◌, ◌≡◌, ◌-◌, ◌^◌, ◌++◌, ◌∷◌, ◌↔◌, IsTrue, false, [], List, min};
ghost use Rattle.sat_base.specs.steps.Steps.{Step, AddClause};
ghost use Rattle.sat_base.specs.steps.StepViews.{step_of};
ghost use Rattle.sat_checker.specs.Stored.{is_known, name_of};
ghost use Rattle.sat_checker.specs.Accepts.{ready_after};
ghost use Rattle.sat_checker.specs.KernelView as kernels;
ghost use Rattle.sat_checker.specs.KernelView.{kernel_has_failed, kernel_looks, LooksAtMost, KernelHasAccepted};
ghost use Rattle.sat_checker.specs.CheckerView.{kernel_of, view_of, looks_of, added_listeners, AddListenerResult};
ghost use Rattle.sat_checker.specs.CheckerView.{StepResult, SettlingResult, AddClauseResult};
ghost use Rattle.sat_checker.specs.CheckerView.{FaultNeedsListener, FailsAgain};
ghost use Rattle.sat_checker.specs.declared.error.CheckerError.TheVariants.{HasFailed};
ghost use Rattle.sat_checker.specs.listeners.ProcessingView.{EachListenerReceives};

mod dimacs;
mod formula;
mod proof;

use crate::announce::transcript::ProofTranscriptProcessor;
use crate::error::CheckerError;
use crate::internal::SelfChecker;
use crate::kernel::{Kernel, StepRefusal};
use crate::looks::Looks;
use crate::processing::{Nobody, Processing, Processors, ProofProcessor};
use sat_base::{Lit, ProofStep, Var};
use std::alloc::Global;

/// A checker. It receives the clauses of a formula and the steps of a proof one after another, and notifies its
/// processors and transcripts of the announcements. A checker fails when it refuses a step, runs out of memory,
/// exhausts a counter, or gets an error from a listener. From then on, every call that would add or check something
/// returns `HasFailed`.
#[derive(Drop)]
pub struct Checker<P: ProofProcessor = Nobody, T: ProofTranscriptProcessor = Nobody> {
    pub(crate) kernel: Kernel,
    processing: Processing<P, T>,
}

impl Checker<Nobody, Nobody> {
    /// Creates a checker that has no listeners and has accepted no steps yet. Never allocates.
    pub fn new(alloc: Global) -> Checker<Nobody, Nobody>
        ensures valid { KernelHasAccepted (kernel_of result) [] }
        ensures goes_on { kernel_has_failed (kernel_of result) ≡ false }
        ensures settled { kernels.KernelHasNoPendingConflict (kernel_of result) }
        ensures looks { kernel_looks (kernel_of result) ≡ 0 }
        ensures listeners { added_listeners result ≡ record { processors = []; transcripts = [] } }
    {
        Checker::notifying(alloc)
    }

    /// Checks the next step, and accepts it if it passes. Gives the same verdict as `self_check_step`, but notifies no
    /// listeners and returns a smaller error.
    pub fn accept_step(&mut self, step: &ProofStep<'_>) -> Result<(), StepRefusal>
        ensures correct { kernels.KernelStepResult (kernels.step_result_of result)
            (kernel_of self.old) (step_of step.now) (kernel_of self.new) }
        ensures looks { LooksAtMost (kernel_of self.old) (step_of step.now) (kernel_of self.new) }
        ensures rise { kernel_looks (kernel_of self.old) ≤ kernel_looks (kernel_of self.new) }
        ensures failed { FailsAgain StepRefusal.HasFailed result self.old self.new }
    {
        self.kernel.accept_step(step)
    }
}

impl<P: ProofProcessor, T: ProofTranscriptProcessor> Checker<P, T> {
    /// Creates a checker, as `new` does, for processors of type `P` and transcripts of type `T`. The checker has no
    /// listeners yet.
    pub fn notifying(alloc: Global) -> Checker<P, T>
        ensures valid { KernelHasAccepted (kernel_of result) [] }
        ensures goes_on { kernel_has_failed (kernel_of result) ≡ false }
        ensures settled { kernels.KernelHasNoPendingConflict (kernel_of result) }
        ensures looks { kernel_looks (kernel_of result) ≡ 0 }
        ensures listeners { added_listeners result ≡ record { processors = []; transcripts = [] } }
    {
        Checker {
            kernel: Kernel::new(alloc),
            processing: Processing::new(alloc),
        }
    }

    /// Creates a checker, as `notifying` does, with `listeners`, which another checker may have returned. Both lists
    /// keep their order.
    pub fn with_listeners(alloc: Global, listeners: Processors<P, T>) -> Checker<P, T>
        ensures valid { KernelHasAccepted (kernel_of result) [] }
        ensures goes_on { kernel_has_failed (kernel_of result) ≡ false }
        ensures settled { kernels.KernelHasNoPendingConflict (kernel_of result) }
        ensures looks { kernel_looks (kernel_of result) ≡ 0 }
        ensures listeners { added_listeners result
            ≡ record { processors = listeners.processors.items; transcripts = listeners.transcripts.items } }
    {
        Checker {
            kernel: Kernel::new(alloc),
            processing: Processing::again(alloc, listeners),
        }
    }

    /// Adds a processor, which is notified of all announcements from now on. If memory runs out, the processor is
    /// dropped, and the checker fails.
    pub fn add_processor(&mut self, processor: P) -> Result<(), CheckerError>
        ensures { AddListenerResult result (kernel_of self.old) (kernel_of self.new)
            (added_listeners self.old) (added_listeners self.new)
            (record (added_listeners self.old) {
              processors = (added_listeners self.old).processors ++ processor ∷ [];
            }) }
    {
        if self.kernel.failed {
            return Err(CheckerError::HasFailed);
        }
        if self.processing.add_processor(processor).is_err() {
            self.kernel.failed = true;
            return Err(CheckerError::OutOfMemory);
        }
        Ok(())
    }

    /// Adds a transcript, which is notified of all transcript steps from now on. If memory runs out, the transcript is
    /// dropped, and the checker fails.
    pub fn add_transcript(&mut self, transcript: T) -> Result<(), CheckerError>
        ensures { AddListenerResult result (kernel_of self.old) (kernel_of self.new)
            (added_listeners self.old) (added_listeners self.new)
            (record (added_listeners self.old) {
              transcripts = (added_listeners self.old).transcripts ++ transcript ∷ [];
            }) }
    {
        if self.kernel.failed {
            return Err(CheckerError::HasFailed);
        }
        if self.processing.add_transcript(transcript).is_err() {
            self.kernel.failed = true;
            return Err(CheckerError::OutOfMemory);
        }
        Ok(())
    }

    /// Returns the processors and the transcripts, each in the order in which they were added. This works even after
    /// the checker has failed.
    pub fn into_processors(self) -> Processors<P, T>
        ensures processors { result.processors.items ≡ (added_listeners self).processors }
        ensures transcripts { result.transcripts.items ≡ (added_listeners self).transcripts }
    {
        let Checker { kernel, processing } = self;
        drop(kernel);
        processing.into_processors()
    }

    /// Adds a clause of the formula. Unless unsat is recorded, refuses a clause that contains a hidden variable or a
    /// witness variable. A refused clause changes nothing.
    pub fn add_clause(&mut self, clause: &[Lit]) -> Result<(), CheckerError>
        ensures checks { AddClauseResult (EachListenerReceives P.takes T.reads)
            result (view_of self.old) clause.now (view_of self.new) }
        ensures looks { LooksAtMost (kernel_of self.old) (AddClause clause.now) (kernel_of self.new) }
        ensures rise { looks_of (view_of self.old) ≤ looks_of (view_of self.new) }
        ensures faults { FaultNeedsListener result self.old }
        ensures failed { FailsAgain HasFailed result self.old self.new }
    {
        if self.kernel.failed {
            return Err(CheckerError::HasFailed);
        }
        if !self.kernel.state.may_add(clause) {
            return Err(CheckerError::CheckFailed);
        }
        self.check_step(&ProofStep::AddClause { clause })
    }

    /// Checks the next step, and accepts it if it passes.
    fn check_step(&mut self, step: &ProofStep<'_>) -> Result<(), CheckerError>
        ensures correct { kernels.KernelStepResult result (kernel_of self.old) (step_of step.now) (kernel_of self.new) }
        ensures notifies { StepResult (EachListenerReceives P.takes T.reads)
            result (view_of self.old) (step_of step.now) (view_of self.new) }
        ensures looks { LooksAtMost (kernel_of self.old) (step_of step.now) (kernel_of self.new) }
        ensures rise { kernel_looks (kernel_of self.old) ≤ kernel_looks (kernel_of self.new) }
        ensures faults { FaultNeedsListener result self.old }
        ensures failed { FailsAgain HasFailed result self.old self.new }
    {
        let mut nobody = Nobody {};
        self.kernel
            .check_step(step, &mut nobody, false, &mut self.processing)
    }

    /// Returns `true` if unsat is recorded: the checker has an empty clause or a unit conflict, so the accepted steps
    /// rule out every valuation.
    pub fn unsat(&self) -> bool
        ensures { (steps : List Step) → KernelHasAccepted (kernel_of self.now) steps → result ≡ (ready_after steps).unsat }
    {
        self.kernel.records.unsat
    }

    /// Returns `true` if no unit conflict is pending. `self_check_delayed_steps` gives the empty clause of a pending
    /// conflict an id.
    pub fn is_settled(&self) -> bool
        ensures { IsTrue result ↔ kernels.KernelHasNoPendingConflict (kernel_of self.now) }
    {
        self.kernel.state.formula.status.conflict.is_none()
    }

    /// Returns `true` if `End` has been accepted.
    pub fn ended(&self) -> bool
        ensures { (steps : List Step) → KernelHasAccepted (kernel_of self.now) steps → result ≡ (ready_after steps).ended }
    {
        self.kernel.records.ended
    }

    /// Returns `true` if a `DeleteVar` has been accepted.
    pub fn var_deleted(&self) -> bool
        ensures { (steps : List Step) → KernelHasAccepted (kernel_of self.now) steps → result ≡ (ready_after steps).var_deleted }
    {
        self.kernel.records.var_deleted
    }

    /// Returns the user's name for a variable, if it has one after the accepted steps. This works even after the
    /// checker has failed.
    pub fn user_name(&self, var: Var) -> Option<Var>
        ensures { (steps : List Step) → KernelHasAccepted (kernel_of self.now) steps → result ≡ name_of var (ready_after steps) }
    {
        self.kernel.state.variables.data(var).name.get()
    }

    /// Returns `true` if the variable is known after the accepted steps. This works even after the checker has failed.
    pub fn knows(&self, var: Var) -> bool
        ensures { (steps : List Step) → KernelHasAccepted (kernel_of self.now) steps → result ≡ is_known var (ready_after steps) }
    {
        self.kernel.state.variables.data(var).known
    }

    /// Returns the number of looks at literals of stored clauses, saturating at 2^64-1.
    pub fn looks(&self) -> u64
        ensures { result ≡ min (kernel_looks (kernel_of self.now)) (2 ^ 64 - 1) }
    {
        self.kernel.looks.get()
    }
}

impl<P: ProofProcessor, T: ProofTranscriptProcessor> SelfChecker for Checker<P, T> {
    ghost checks = { λ c step r d. kernels.KernelStepResult r (kernel_of c) step (kernel_of d)
        × LooksAtMost (kernel_of c) step (kernel_of d)
        × StepResult (EachListenerReceives P.takes T.reads) r (view_of c) step (view_of d) };

    ghost settles = { λ c r d. kernels.KernelSettlingResult r (kernel_of c) (kernel_of d)
        × SettlingResult (EachListenerReceives P.takes T.reads) r (view_of c) (view_of d) };

    fn self_check_step(&mut self, step: &ProofStep<'_>) -> Result<(), CheckerError>
        ensures correct { kernels.KernelStepResult result (kernel_of self.old) (step_of step.now) (kernel_of self.new) }
        ensures looks { LooksAtMost (kernel_of self.old) (step_of step.now) (kernel_of self.new) }
        ensures rise { kernel_looks (kernel_of self.old) ≤ kernel_looks (kernel_of self.new) }
        ensures notifies { StepResult (EachListenerReceives P.takes T.reads)
            result (view_of self.old) (step_of step.now) (view_of self.new) }
        ensures faults { FaultNeedsListener result self.old }
        ensures failed { FailsAgain HasFailed result self.old self.new }
    {
        self.check_step(step)
    }

    fn self_check_delayed_steps(&mut self) -> Result<(), CheckerError>
        ensures correct { kernels.KernelSettlingResult result (kernel_of self.old) (kernel_of self.new) }
        ensures notifies { SettlingResult (EachListenerReceives P.takes T.reads)
            result (view_of self.old) (view_of self.new) }
        ensures faults { FaultNeedsListener result self.old }
        ensures failed { FailsAgain HasFailed result self.old self.new }
    {
        if self.kernel.failed {
            return Err(CheckerError::HasFailed);
        }
        let mut nobody = Nobody {};
        self.kernel
            .process_unit_conflicts(&mut nobody, &mut self.processing)
    }
}
