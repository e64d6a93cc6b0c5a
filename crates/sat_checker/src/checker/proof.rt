//! Checks complete proofs, which are read step by step.
ghost use Rattle.std.specs.Prelude.{◌≡◌, ◌≢◌, ◌≤◌, ◌<◌, false, MatchBool, Ok, OnOk, IsErrOf};
ghost use Rattle.sat_base.specs.device.Device.{max_reads};
ghost use Rattle.sat_base.specs.device.Reading.{new_source, AtEnd};
ghost use Rattle.sat_base.specs.steps.Steps.{End};
ghost use Rattle.sat_base.specs.steps.StepReading.{reader_source, reader_borrow, has_reader_failed as is_stopped};
ghost use Rattle.sat_base.specs.steps.StepViews.{step_of};
ghost use Rattle.sat_checker.specs.KernelView.{kernel_has_failed, kernel_looks};
ghost use Rattle.sat_checker.specs.CheckerView.{kernel_of, view_of, view_with, looks_of};
ghost use Rattle.sat_checker.specs.CheckerView.{FaultNeedsListener, FailsAgain};
ghost use Rattle.sat_checker.specs.declared.error.CheckerError.TheVariants.{HasFailed, OutOfMemory};
ghost use Rattle.sat_checker.specs.announcements.Announcements.{Notice};
ghost use Rattle.sat_checker.specs.ProofView.{ProofResult, FoundNoEnd};
ghost use Rattle.sat_checker.specs.inner.ProofSteps.{NextStepResult, CountsReads, read_error, is_step_out_of_memory};
ghost use Rattle.sat_checker.specs.inner.ProofSteps.{at_source, bytes_left};
ghost use Rattle.sat_checker.specs.listeners.Receiving.{OwnReceivesFirst};
ghost use Rattle.sat_checker.specs.listeners.ProcessingView.{EachListenerReceives};

use crate::announce::transcript::ProofTranscriptProcessor;
use crate::checker::Checker;
use crate::error::CheckerError;
use crate::processing::{Nobody, ProofProcessor};
use sat_base::{CountedRead, ProofStep, StepError, StepReader};

/// Returns the checker's error for an error from the step reader.
fn unread_error(error: StepError) -> CheckerError
    ensures { result ≡ read_error error }
{
    match error {
        StepError::Ends => CheckerError::ProofIncomplete,
        StepError::Cut => CheckerError::ProofIncomplete,
        StepError::BadByte => CheckerError::ParseError,
        StepError::Read => CheckerError::IoError,
        StepError::OutOfMemory => CheckerError::OutOfMemory,
        StepError::HasFailed => CheckerError::HasFailed,
    }
}

/// Returns `true` if the error is `OutOfMemory`, which makes the checker fail.
fn is_step_out_of_memory(error: StepError) -> bool
    ensures { result ≡ is_step_out_of_memory error }
{
    match error {
        StepError::OutOfMemory => true,
        StepError::Ends => false,
        StepError::Cut => false,
        StepError::BadByte => false,
        StepError::Read => false,
        StepError::HasFailed => false,
    }
}

/// Returns `true` if the step is `End`.
fn is_end(step: &ProofStep<'_>) -> bool
    ensures { MatchBool result (step_of step.now ≡ End) (step_of step.now ≢ End) }
{
    matches!(step, ProofStep::End)
}

impl<P: ProofProcessor, T: ProofTranscriptProcessor> Checker<P, T> {
    /// Reads and checks the steps of a proof up to its `End`, and ignores what follows. Holds one step in memory at a
    /// time. Steps that were accepted before an error remain in effect. If the proof is malformed, ends early or can't
    /// be read, the checker can still be used.
    pub fn check_proof<R: CountedRead>(&mut self, reader: &mut R) -> Result<(), CheckerError>
        ensures proof { ProofResult (EachListenerReceives P.takes T.reads)
            result (view_of self.old) (view_of self.new) (R.seen reader.old) (R.seen reader.new) }
        ensures unended { IsErrOf result OutOfMemory → FoundNoEnd (R.seen reader.old) (R.seen reader.new) }
        ensures rise { looks_of (view_of self.old) ≤ looks_of (view_of self.new) }
        ensures faults { FaultNeedsListener result self.old }
        ensures failed { FailsAgain HasFailed result self.old self.new }
    {
        let mut nobody = Nobody {};
        self.check_proof_by(reader, &mut nobody, false)
    }

    /// Checks a proof, as `check_proof` does, and notifies `own` of every announcement before notifying the
    /// checker's listeners.
    pub fn check_proof_with<R: CountedRead, O: ProofProcessor>(
        &mut self,
        reader: &mut R,
        own: &mut O,
    ) -> Result<(), CheckerError>
        ensures proof { ProofResult (OwnReceivesFirst O.takes (EachListenerReceives P.takes T.reads))
            result (view_with own.old self.old) (view_with own.new self.new) (R.seen reader.old) (R.seen reader.new) }
        ensures unended { IsErrOf result OutOfMemory → FoundNoEnd (R.seen reader.old) (R.seen reader.new) }
        ensures rise { looks_of (view_of self.old) ≤ looks_of (view_of self.new) }
        ensures failed { FailsAgain HasFailed result self.old self.new }
    {
        self.check_proof_by(reader, own, true)
    }

    /// Checks a proof, and notifies `own` of every announcement before notifying the checker's listeners. If `has_own`
    /// is false, the caller has no processor, and `own` must accept everything and never change.
    fn check_proof_by<R: CountedRead, O: ProofProcessor>(
        &mut self,
        reader: &mut R,
        own: &mut O,
        has_own: bool,
    ) -> Result<(), CheckerError>
        requires { has_own ≡ false → (v : _) (t : Notice) → O.takes v t (Ok tt) v }
        ensures proof { ProofResult (OwnReceivesFirst O.takes (EachListenerReceives P.takes T.reads))
            result (view_with own.old self.old) (view_with own.new self.new) (R.seen reader.old) (R.seen reader.new) }
        ensures unended { IsErrOf result OutOfMemory → FoundNoEnd (R.seen reader.old) (R.seen reader.new) }
        ensures rise { kernel_looks (kernel_of self.old) ≤ kernel_looks (kernel_of self.new) }
        ensures failed { FailsAgain HasFailed result self.old self.new }
    {
        if self.kernel.failed {
            return Err(CheckerError::HasFailed);
        }
        let mut steps = StepReader::new(self.kernel.state.alloc, reader);
        self.check_steps(&mut steps, own, has_own)
    }

    /// Checks the steps of a proof up to its `End`. The reader `steps` must not already have read anything.
    fn check_steps<R: CountedRead, O: ProofProcessor>(
        &mut self,
        steps: &mut StepReader<'_, R>,
        own: &mut O,
        has_own: bool,
    ) -> Result<(), CheckerError>
        requires quiet { has_own ≡ false → (v : _) (t : Notice) → O.takes v t (Ok tt) v }
        requires well { kernel_has_failed (kernel_of self.old) ≡ false }
        requires fresh { reader_source R.seen steps.old ≡ new_source (reader_source R.seen steps.old).reader }
        requires open_yet { is_stopped steps.old ≡ false }
        ensures same { reader_borrow steps.new ≡ reader_borrow steps.old }
        ensures proof { ProofResult (OwnReceivesFirst O.takes (EachListenerReceives P.takes T.reads))
            result (view_with own.old self.old) (view_with own.new self.new)
            (reader_source R.seen steps.old).reader (reader_source R.seen steps.new).reader }
        ensures unended { IsErrOf result OutOfMemory
            → FoundNoEnd (reader_source R.seen steps.old).reader (reader_source R.seen steps.new).reader }
        ensures rise { kernel_looks (kernel_of self.old) ≤ kernel_looks (kernel_of self.new) }
    {
        loop {
            if self.check_next(steps, own, has_own)? {
                return Ok(());
            }
        }
    }

    /// Reads and checks the next step. Returns `true` if the step is `End`.
    fn check_next<R: CountedRead, O: ProofProcessor>(
        &mut self,
        steps: &mut StepReader<'_, R>,
        own: &mut O,
        has_own: bool,
    ) -> Result<bool, CheckerError>
        requires quiet { has_own ≡ false → (v : _) (t : Notice) → O.takes v t (Ok tt) v }
        requires well { kernel_has_failed (kernel_of self.old) ≡ false }
        requires open_yet { is_stopped steps.old ≡ false }
        ensures same { reader_borrow steps.new ≡ reader_borrow steps.old }
        ensures bound { (reader_source R.seen steps.new).reads ≤ max_reads }
        ensures goes_on { OnOk result ((kernel_has_failed (kernel_of self.new) ≡ false) × (is_stopped steps.new ≡ false)) }
        ensures takes { OnOk result (bytes_left (reader_source R.seen steps.new)
            < bytes_left (reader_source R.seen steps.old)) }
        ensures steps_on { NextStepResult (OwnReceivesFirst O.takes (EachListenerReceives P.takes T.reads))
            result (at_source (view_with own.old self.old) (reader_source R.seen steps.old))
            (at_source (view_with own.new self.new) (reader_source R.seen steps.new)) }
        ensures calls { CountsReads (reader_source R.seen steps.old) (reader_source R.seen steps.new) }
        ensures unended { OnOk result (AtEnd (reader_source R.seen steps.new)
            → AtEnd (reader_source R.seen steps.old)) }
        ensures starved { IsErrOf result OutOfMemory
            → AtEnd (reader_source R.seen steps.new) → AtEnd (reader_source R.seen steps.old) }
        ensures rise { kernel_looks (kernel_of self.old) ≤ kernel_looks (kernel_of self.new) }
    {
        if let Err(error) = steps.advance() {
            self.kernel.failed = is_step_out_of_memory(error);
            return Err(unread_error(error));
        }
        let step = steps.step();
        match self
            .kernel
            .check_step(&step, own, has_own, &mut self.processing)
        {
            Ok(()) => Ok(is_end(&step)),
            Err(error) => Err(error),
        }
    }
}
