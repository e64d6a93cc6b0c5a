//! Reads a certificate's steps, and feeds them to a checker.
ghost use Rattle.std.specs.Prelude.{◌≡◌, ◌<◌, OnOk, false};
ghost use Rattle.sat_base.specs.steps.StepReading.{reader_source};
ghost use Rattle.sat_base.specs.steps.StepViews.{step_of};
ghost use Rattle.sat_checker.specs.KernelView.{LooksAtMost};
ghost use Rattle.certify.specs.confirm.Feeding.{FeedsStep, SettlesConflict};
ghost use Rattle.certify.specs.confirm.Stepping.{ReadsOneStep, is_ordered_tag};
ghost use Rattle.certify.specs.confirm.Streams.{StepsGoOn, StepsGoOnIf, StepReadsAreFew, CallReturns, SameLoan};
ghost use Rattle.certify.specs.confirm.Streams.{most_bytes_left};
ghost use Rattle.certify.specs.confirm.Streams.{stream_of};
ghost use Rattle.sat_checker.specs.CheckerView.{kernel_of};
ghost use Rattle.sat_checker.specs.declared.kernel.Kernel.{Kernel};

use crate::confirm::stop::{Stop, refused, refused_step, unread};
use sat_base::{CountedRead, ProofStep, StepReader};
use sat_checker::{Checker, SelfChecker};

/// Returns `true` if `tag` is the tag of an ordered step. Steps with other tags can be anywhere in a certificate.
pub(crate) fn is_ordered(tag: u8) -> bool
    ensures { result ≡ is_ordered_tag tag }
{
    tag == 2 || tag == 5 || tag == 10 || tag == 11 || tag == 12 || tag == 13
}

/// Reads the next step, without feeding it to the checker.
pub(crate) fn read_next<R: CountedRead>(steps: &mut StepReader<'_, R>) -> Result<(), Stop>
    requires { StepsGoOn R.seen steps.old }
    ensures same { SameLoan steps.old steps.new }
    ensures bound { StepReadsAreFew R.seen steps.new }
    ensures goes_on { StepsGoOnIf result R.seen steps.new }
    ensures takes { OnOk result (most_bytes_left (reader_source R.seen steps.new)
        < most_bytes_left (reader_source R.seen steps.old)) }
    ensures reads { (checker : Kernel)
        → CallReturns (λ x. false) result (stream_of R.seen steps.old checker) (stream_of R.seen steps.new checker)
        ReadsOneStep }
{
    match steps.advance() {
        Ok(()) => Ok(()),
        Err(error) => Err(unread(error)),
    }
}

/// Feeds a step to the checker. If the check fails, the certificate is rejected, whatever is expected; if memory or a
/// counter ends, that is a fault.
pub(crate) fn feed(checker: &mut Checker, step: &ProofStep<'_>) -> Result<(), Stop>
    ensures feeds { FeedsStep result (kernel_of checker.old) (step_of step.now) (kernel_of checker.new) }
    ensures looks { LooksAtMost (kernel_of checker.old) (step_of step.now) (kernel_of checker.new) }
{
    match checker.accept_step(step) {
        Ok(()) => Ok(()),
        Err(refusal) => Err(refused_step(refusal)),
    }
}

/// Settles a pending unit conflict, if there is one.
pub(crate) fn settle(checker: &mut Checker) -> Result<(), Stop>
    ensures { SettlesConflict result (kernel_of checker.old) (kernel_of checker.new) }
{
    // Usually no conflict is pending. Returning here avoids clearing memory for the large result of the call below.
    if checker.is_settled() {
        return Ok(());
    }
    match checker.self_check_delayed_steps() {
        Ok(()) => Ok(()),
        Err(error) => Err(refused(error)),
    }
}
