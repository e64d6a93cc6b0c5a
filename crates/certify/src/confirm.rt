//! Confirms that a script, answers and a certificate match.
ghost use Rattle.std.specs.Prelude.{◌≡◌, ◌+◌, ◌≤◌, ◌⊎◌, IfOk, IsErrOf};
ghost use Rattle.sat_base.specs.device.Device.{max_reads, ReadFails};
ghost use Rattle.certify.specs.script.Decided.{MakesNoReadOnceDecided};
ghost use Rattle.certify.specs.Devices.{reader_before_after};
ghost use Rattle.certify.specs.confirm.VerdictPromises.{GaveRightAnswers, ResultIsExact, ConfirmGuarantee};
ghost use Rattle.certify.specs.confirm.VerdictPromises.{KeepsReadFailures};
ghost use Rattle.certify.specs.confirm.VerdictPromises.{LooksAreBounded};
ghost use Rattle.certify.specs.confirm.ConfirmedScript.{confirm_result};

pub(crate) mod answers;
pub(crate) mod certificate;
pub(crate) mod commands;
pub(crate) mod confirmation;
pub(crate) mod expect;
pub(crate) mod feed;
pub(crate) mod follow;
pub(crate) mod lines;
pub(crate) mod literals;
pub(crate) mod names;
pub(crate) mod ordered;
pub(crate) mod stop;
pub(crate) mod variables;

use crate::script::stream::CommandStream;
use crate::verdict::{ConfirmFault, Verdict};
use commands::ConfirmState;
use confirmation::Confirmation;
use sat_base::{CountedRead, StepReader};
use sat_checker::Looks;
use std::alloc::Global;
use stop::Stop;

/// Returns the verdict of a confirmation that ended with `ended`, after `asks` completely confirmed asks.
fn conclude(ended: Result<(), Stop>, asks: u64) -> Result<Verdict, ConfirmFault>
    ensures { result ≡ confirm_result ended asks }
{
    match ended {
        Ok(()) => Ok(Verdict::Yes),
        Err(Stop::No(why)) => Ok(Verdict::No {
            ask: asks.saturating_add(1),
            why,
        }),
        Err(Stop::ScriptRead) => Err(ConfirmFault::ScriptRead),
        Err(Stop::AnswersRead) => Err(ConfirmFault::AnswersRead),
        Err(Stop::CertificateRead) => Err(ConfirmFault::CertificateRead),
        Err(Stop::OutOfMemory) => Err(ConfirmFault::OutOfMemory),
        Err(Stop::TooMany | Stop::CounterEnd) => Err(ConfirmFault::CounterEnd),
    }
}

/// Compares a script, answers and a certificate up to the first mismatch or fault. Returns how the comparison ended,
/// and the number of completely confirmed asks.
fn compare<S: CountedRead, A: CountedRead, C: CountedRead>(
    alloc: Global,
    script: &mut S,
    answers: &mut A,
    certificate: &mut C,
    looks: &mut Looks,
) -> (Result<(), Stop>, u64)
    ensures promised { ConfirmGuarantee (confirm_result result.0 result.1) (reader_before_after S.seen script.old script.new)
        (reader_before_after A.seen answers.old answers.new) (reader_before_after C.seen certificate.old certificate.new) }
    ensures looks { LooksAreBounded (C.seen certificate.old) (C.seen certificate.new) looks.old looks.new }
    ensures stops { MakesNoReadOnceDecided (S.seen script.old) (S.seen script.new) }
{
    let mut confirmation = Confirmation {
        script: CommandStream::new(alloc),
        session: ConfirmState::new(alloc),
    };
    let mut steps = StepReader::new(alloc, certificate);
    let ended = confirmation.confirm_all(script, answers, &mut steps);
    looks.add(&confirmation.session.matching.certificate.checker);
    let asks = confirmation.session.asks;
    drop(confirmation);
    (ended, asks)
}

/// Compares a script, answers and a certificate. The verdict is `Yes` exactly when they match. The texts are read in
/// chunks of at most 4,096 bytes, no further than the next decision needs, and no text is held in memory as a whole. A
/// line of answers of 1,024 bytes or more is examined only at its end, and each time its length has quadrupled.
/// The looks of the checker that receives the certificate's steps are added to `looks`, whatever is returned.
pub fn confirm<S: CountedRead, A: CountedRead, C: CountedRead>(
    alloc: Global,
    script: &mut S,
    answers: &mut A,
    certificate: &mut C,
    looks: &mut Looks,
) -> Result<Verdict, ConfirmFault>
    // The verdict is `Yes` exactly when the bytes given by the three readers match, whatever bytes might follow them. So
    // `No` means that they do not match, whatever might follow.
    ensures exact { ResultIsExact result S.seen A.seen C.seen (script.old, answers.old, certificate.old)
        (script.new, answers.new, certificate.new) }
    // `Yes` means that the answers are correct, whoever wrote the answers and the certificate.
    ensures sound { IfOk result (λ v. v ≡ Verdict.Yes → GaveRightAnswers (reader_before_after S.seen script.old script.new)
        (reader_before_after A.seen answers.old answers.new)) }

    // A reader's fault is returned only if exactly one of its reads failed, which was the last, or if 2^48 reads were
    // made and none failed.
    ensures script_read { IsErrOf result ConfirmFault.ScriptRead → ReadFails (S.seen script.old) (S.seen script.new) }
    ensures answers_read { IsErrOf result ConfirmFault.AnswersRead
        → ReadFails (A.seen answers.old) (A.seen answers.new) }
    ensures certificate_read { IsErrOf result ConfirmFault.CertificateRead
        → ReadFails (C.seen certificate.old) (C.seen certificate.new) }
    // This fault is never returned.
    ensures counter_end { IsErrOf result ConfirmFault.CounterEnd → ⊥ }
    // If the certificate's reader gave n bytes, `looks` rises by at most 16 (n + 1)^2: by at most the sum of the bounds
    // for the accepted steps and for at most one step that is not accepted.
    ensures looks { LooksAreBounded (C.seen certificate.old) (C.seen certificate.new) looks.old looks.new }

    // A read has failed only if the fault of its reader is returned: no verdict follows a failed read.
    ensures kept_script { IsErrOf result ConfirmFault.ScriptRead ⊎ KeepsReadFailures S.seen script.old script.new }
    ensures kept_answers { IsErrOf result ConfirmFault.AnswersRead ⊎ KeepsReadFailures A.seen answers.old answers.new }
    ensures kept_certificate { IsErrOf result ConfirmFault.CertificateRead
        ⊎ KeepsReadFailures C.seen certificate.old certificate.new }
    // At most 2^48 reads are made of each text.
    ensures script_reads { (S.seen script.new).calls ≤ (S.seen script.old).calls + max_reads }
    ensures answers_reads { (A.seen answers.new).calls ≤ (A.seen answers.old).calls + max_reads }
    ensures certificate_reads { (C.seen certificate.new).calls ≤ (C.seen certificate.old).calls + max_reads }
    // Once the script has ended by a line that begins with `%`, or is malformed, no read of it is made.
    ensures stops { MakesNoReadOnceDecided (S.seen script.old) (S.seen script.new) }
{
    let (ended, asks) = compare(alloc, script, answers, certificate, looks);
    conclude(ended, asks)
}
