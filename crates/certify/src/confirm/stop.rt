//! Why a confirmation ends early.
ghost use Rattle.std.specs.Prelude.{◌≡◌};
ghost use Rattle.sat_checker.specs.KernelView.{step_error};
ghost use Rattle.certify.specs.confirm.Feeding.{stop_for_checker};
ghost use Rattle.certify.specs.confirm.CallResults.{stop_for_answers_read, stop_for_script_read};
ghost use Rattle.certify.specs.confirm.Streams.{stop_for_step};

use crate::verdict::Why;
use sat_base::{ReadError, StepError};
use sat_checker::{CheckerError, StepRefusal};
use std::alloc::{AllocError, AllocFailed};
use thiserror::Error;

/// Why a confirmation ends before the end of the texts.
#[derive(Clone, Copy, Debug, Drop, Error)]
pub(crate) enum Stop {
    /// The first mismatch.
    #[error("the texts do not match")]
    No(Why),
    /// The script's reader failed, or was read 2^48 times.
    #[error("the script cannot be read")]
    ScriptRead,
    /// The answers' reader failed, or was read 2^48 times.
    #[error("the answers cannot be read")]
    AnswersRead,
    /// The certificate's reader failed, or was read 2^48 times.
    #[error("the certificate cannot be read")]
    CertificateRead,
    #[error("out of memory")]
    OutOfMemory,
    /// A count of the checker would exceed 64 bits.
    #[error("a count of the checker is at its end")]
    CounterEnd,
    /// A command's number would exceed 64 bits.
    #[error("a command's number is past 64 bits")]
    TooMany,
}

impl From<AllocError> for Stop {
    ghost use Rattle.std.specs.Prelude.{◌≡◌};
    ghost use Rattle.certify.specs.declared.confirm.stop.Stop.TheVariants.{OutOfMemory};

    ghost from_gives = { λ _ e. e ≡ OutOfMemory };

    fn from(_e: AllocError) -> Stop {
        Stop::OutOfMemory
    }
}

impl<T: Drop> From<AllocFailed<T>> for Stop {
    ghost use Rattle.std.specs.Prelude.{◌≡◌};
    ghost use Rattle.certify.specs.declared.confirm.stop.Stop.TheVariants.{OutOfMemory};

    ghost from_gives = { λ _ e. e ≡ OutOfMemory };

    fn from(_e: AllocFailed<T>) -> Stop {
        Stop::OutOfMemory
    }
}

/// Returns why the script can't be read.
pub(crate) fn unread_script(error: ReadError) -> Stop
    ensures { result ≡ stop_for_script_read error }
{
    match error {
        ReadError::Failed => Stop::ScriptRead,
        ReadError::OutOfMemory => Stop::OutOfMemory,
    }
}

/// Returns why the answers can't be read.
pub(crate) fn unread_answers(error: ReadError) -> Stop
    ensures { result ≡ stop_for_answers_read error }
{
    match error {
        ReadError::Failed => Stop::AnswersRead,
        ReadError::OutOfMemory => Stop::OutOfMemory,
    }
}

/// Returns why no step was read. A step reader that has failed is never called again, so `HasFailed` does not occur.
pub(crate) fn unread(error: StepError) -> Stop
    ensures { result ≡ stop_for_step error }
{
    match error {
        StepError::Ends => Stop::No(Why::CertificateEnds),
        StepError::Cut => Stop::No(Why::CertificateEnds),
        StepError::BadByte => Stop::No(Why::StepRefused),
        StepError::Read => Stop::CertificateRead,
        StepError::OutOfMemory => Stop::OutOfMemory,
        StepError::HasFailed => Stop::CertificateRead,
    }
}

/// Returns why a step is not accepted. A checker that has not failed never returns `HasFailed`.
pub(crate) fn refused_step(refusal: StepRefusal) -> Stop
    ensures { result ≡ stop_for_checker (step_error refusal) }
{
    match refusal {
        StepRefusal::CheckFailed => Stop::No(Why::StepRefused),
        StepRefusal::OutOfMemory => Stop::OutOfMemory,
        StepRefusal::CounterEnd => Stop::CounterEnd,
        StepRefusal::HasFailed => Stop::No(Why::StepRefused),
    }
}

/// Returns why a pending conflict is not settled. A checker that has not failed returns one of the first three errors.
/// The checker of a confirmation has no listener, so the last error does not occur.
pub(crate) fn refused(error: CheckerError) -> Stop
    ensures { result ≡ stop_for_checker error }
{
    match error {
        CheckerError::CheckFailed => Stop::No(Why::StepRefused),
        CheckerError::OutOfMemory => Stop::OutOfMemory,
        CheckerError::CounterEnd => Stop::CounterEnd,
        CheckerError::HasFailed => Stop::No(Why::StepRefused),
        CheckerError::ProofIncomplete => Stop::No(Why::StepRefused),
        CheckerError::IoError => Stop::No(Why::StepRefused),
        CheckerError::ParseError => Stop::No(Why::StepRefused),
        CheckerError::ProofProcessorError { .. } => Stop::OutOfMemory,
    }
}
