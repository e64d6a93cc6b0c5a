//! A solver's own checker. It receives the steps that a proof in the format `Varisat` contains, except for the ends
//! of proofs.
ghost use Rattle.std.specs.Prelude.{◌≡◌, [], OnOk};
ghost use Rattle.sat_base.specs.steps.StepViews.{step_of};
ghost use Rattle.sat_checker.specs.CheckerView.{view_of};
ghost use Rattle.sat_checker.specs.listeners.ProcessingView.{listeners_of};
ghost use Rattle.sat_solver.specs.proof.Checked.{is_end, IsFed, AcceptsStepOrFails, ReceivesWidthOrFails};
ghost use Rattle.sat_solver.specs.proof.Checked.{SettlesOrFails, FeedsOwnChecker};
ghost use Rattle.sat_solver.specs.proof.Checked.{AddsOwnListener, CheckerRestarts, listeners_of_checked};
ghost use Rattle.sat_solver.specs.proof.Widths.{narrowed, KeepsWidth};

use crate::proof::hash_bits::Counting;
use crate::session::roll::Roll;
use sat_base::{HashBits, ProofStep};
use sat_checker::{Checker, CheckerError, Nobody, Processors, ProofProcessor, SelfChecker};
use std::alloc::Global;
use std::mem;

/// Returns `true` if the step is the end of a proof.
#[inline(always)]
pub fn is_end(step: &ProofStep<'_>) -> bool
    ensures { result ≡ is_end (step_of step.now) }
{
    match step {
        ProofStep::End => true,
        ProofStep::SolverVarName { .. } => false,
        ProofStep::UserVarName { .. } => false,
        ProofStep::DeleteVar { .. } => false,
        ProofStep::ChangeSamplingMode { .. } => false,
        ProofStep::AddClause { .. } => false,
        ProofStep::AtClause { .. } => false,
        ProofStep::UnitClauses { .. } => false,
        ProofStep::DeleteClause { .. } => false,
        ProofStep::ChangeHashBits { .. } => false,
        ProofStep::Model { .. } => false,
        ProofStep::Assumptions { .. } => false,
        ProofStep::FailedAssumptions { .. } => false,
    }
}

/// Passes a step to the checker, which notifies its listeners. A step that the solver is allowed to make is
/// never rejected.
fn feed<P: ProofProcessor>(
    checker: &mut Checker<P, Nobody>,
    step: &ProofStep<'_>,
) -> Result<(), CheckerError>
    ensures { FeedsOwnChecker P.takes result (view_of checker.old) (step_of step.now) (view_of checker.new) }
{
    checker.self_check_step(step)
}

/// A checker, and the width that it was last set to.
#[derive(Drop)]
pub struct Checked<P: ProofProcessor> {
    bits: HashBits,
    checker: Checker<P, Nobody>,
}

impl<P: ProofProcessor> Checked<P> {
    /// Creates a checker that has received no steps. Never allocates.
    pub fn new(alloc: Global) -> Checked<P>
        ensures { IsFed P.takes result [] [] }
    {
        Checked {
            bits: Counting::new().bits,
            checker: Checker::notifying(alloc),
        }
    }

    /// Sets the checker's width to `bits`, if this changes the width.
    fn take_width(&mut self, bits: HashBits) -> Result<(), CheckerError>
        ensures takes { ReceivesWidthOrFails P.takes result self.old self.new }
        ensures bits { OnOk result (self.new.bits ≡ bits) }
    {
        if self.bits.get() == bits.get() {
            return Ok(());
        }
        self.bits = bits;
        feed(
            &mut self.checker,
            &ProofStep::ChangeHashBits { bits: self.bits },
        )
    }

    /// Passes `cut` to the checker, preceded by its width if the width has changed. `cut` must be `step` with its
    /// hashes shortened to the width `bits`.
    ///
    /// If the step is the end of a proof, the checker receives only the width. A step that the solver is allowed to
    /// make is never rejected.
    pub fn take(
        &mut self,
        bits: HashBits,
        step: &ProofStep<'_>,
        cut: &ProofStep<'_>,
    ) -> Result<(), CheckerError>
        requires width { KeepsWidth (step_of step.now) }
        requires cut { step_of cut.now ≡ narrowed bits (step_of step.now) }
        ensures takes { AcceptsStepOrFails P.takes result self.old (step_of step.now) self.new }
        ensures bits { OnOk result (self.new.bits ≡ bits) }
    {
        self.take_width(bits)?;
        if is_end(step) {
            return Ok(());
        }
        feed(&mut self.checker, cut)
    }

    /// If a unit conflict is pending, gives its empty clause an id.
    pub fn take_delayed(&mut self) -> Result<(), CheckerError>
        ensures takes { SettlesOrFails P.takes result self.old self.new }
        ensures bits { self.new.bits ≡ self.old.bits }
    {
        self.checker.self_check_delayed_steps()
    }
    /// Adds a listener, which is notified of all announcements from now on. If memory runs out, the listener is
    /// dropped, and the checker fails.
    pub fn add_processor(&mut self, processor: P) -> Result<(), CheckerError>
        ensures { AddsOwnListener P.takes result self.old processor self.new }
    {
        self.checker.add_processor(processor)
    }

    /// Restarts the checker as if it had received no steps, but keeps its listeners. Returns the roll of the listeners.
    /// Never allocates.
    pub fn begin_anew(&mut self, alloc: Global) -> Roll<P>
        ensures { CheckerRestarts P.takes self.old self.new result.items }
    {
        let former = mem::replace(&mut self.checker, Checker::notifying(alloc)).into_processors();
        let roll = Roll::of(&former.processors);
        self.bits = Counting::new().bits;
        let listeners = Processors {
            processors: former.processors,
            transcripts: Vec::new(alloc),
        };
        self.checker = Checker::with_listeners(alloc, listeners);
        roll
    }

    /// Returns the listeners in the order in which they were added, even after a failure.
    pub fn into_processors(self) -> Vec<P>
        ensures { result.items ≡ (listeners_of (listeners_of_checked self)).processors }
    {
        self.checker.into_processors().processors
    }
}
