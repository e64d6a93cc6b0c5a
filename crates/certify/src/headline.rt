//! The headline for texts in memory: runs a script, confirms what the run wrote, and confirms any other answers to
//! the script.
ghost use Rattle.std.specs.Prelude.{◌≡◌, ◌≤◌, ◌+◌, IfOk, OnOk};
ghost use Rattle.sat_base.specs.device.Device.{GaveEnough};
ghost use Rattle.certify.specs.script.Decided.{MakesNoReadOnceDecided};
ghost use Rattle.certify.specs.Devices.{reader_before_after};
ghost use Rattle.certify.specs.laws.EndToEnd.{CertifyGuarantee, VerdictGuarantee, most_looks_for};
ghost use Rattle.certify.specs.laws.Headline.{Headline};
ghost use Rattle.certify.specs.program.Failures.{ReadsStopAtFailure};
ghost use Rattle.certify.specs.run.FinishedRun.{CertificateGuarantee, rounds_of_asks};

use crate::confirm::confirm;
use crate::fault::RunFault;
use crate::run::run;
use crate::summary::Summary;
use crate::verdict::{ConfirmFault, Verdict};
use sat_base::{Counted, CountedRead};
use sat_checker::Looks;
use std::alloc::Global;
use thiserror::Error;

/// The answers to a script, with a summary and a certificate.
#[derive(Drop)]
pub struct Written {
    pub summary: Summary,
    pub answers: Vec<u8>,
    pub certificate: Vec<u8>,
}

/// The answers to a script, the verdict on them, and the verdict on other answers to the same script.
#[derive(Drop)]
pub struct Verdicts {
    pub written: Written,
    pub own: Verdict,
    pub other: Verdict,
}

/// Why there are no verdicts.
#[derive(Clone, Copy, Debug, Drop, PartialEq, Eq, Error)]
pub enum HeadlineFault {
    #[error("the run is not finished: {0}")]
    Run(RunFault),
    #[error("there is no verdict: {0}")]
    Confirm(ConfirmFault),
}

/// Answers a script. Returns the answers and the certificate, which are kept in memory.
pub(crate) fn run_in_memory<S: CountedRead>(
    alloc: Global,
    script: &mut S,
    budget: u64,
) -> Result<Written, RunFault>
    ensures wrote { IfOk result (λ w. GaveEnough (S.seen script.old) (S.seen script.new)
        (λ text. CertificateGuarantee text budget w.summary w.answers.items w.certificate.items)) }
    ensures kept { OnOk result ((S.seen script.new).failures ≡ (S.seen script.old).failures) }
    ensures reads { ReadsStopAtFailure (reader_before_after S.seen script.old script.new) }
    ensures stops { MakesNoReadOnceDecided (S.seen script.old) (S.seen script.new) }
{
    let mut answers = Counted::new(Vec::new(alloc));
    let mut certificate = Counted::new(Vec::new(alloc));
    match run(alloc, script, &mut answers, &mut certificate, budget) {
        Ok(summary) => Ok(Written {
            summary,
            answers: answers.into_inner(),
            certificate: certificate.into_inner(),
        }),
        Err(fault) => Err(fault),
    }
}

/// Answers a script in memory. Returns the answers and the certificate.
pub(crate) fn run_over(alloc: Global, script: &[u8], budget: u64) -> Result<Written, RunFault>
    ensures { IfOk result (λ w. CertificateGuarantee script.now budget w.summary w.answers.items w.certificate.items) }
{
    run_in_memory(alloc, &mut Counted::new(script), budget)
}

/// Compares a script, answers and a certificate in memory. Returns the verdict.
pub(crate) fn confirm_over(
    alloc: Global,
    script: &[u8],
    answers: &[u8],
    certificate: &[u8],
    looks: &mut Looks,
) -> Result<Verdict, ConfirmFault>
    ensures says { IfOk result (VerdictGuarantee script.now answers.now certificate.now) }
    ensures looks { looks.new ≤ looks.old + most_looks_for certificate.now }
{
    let mut script = Counted::new(script);
    let mut answers = Counted::new(answers);
    let mut certificate = Counted::new(certificate);
    confirm(alloc, &mut script, &mut answers, &mut certificate, looks)
}

/// Returns the verdict on what a run wrote, and the verdict on the answers `claimed` with the certificate `shown`.
fn verdicts_over(
    alloc: Global,
    script: &[u8],
    written: &Written,
    claimed: &[u8],
    shown: &[u8],
    looks: &mut Looks,
) -> Result<(Verdict, Verdict), ConfirmFault>
    ensures own { IfOk result (λ v. VerdictGuarantee script.now written.now.answers.items written.now.certificate.items v.0) }
    ensures other { IfOk result (λ v. VerdictGuarantee script.now claimed.now shown.now v.1) }
    ensures looks { OnOk result
        (looks.new ≤ looks.old + most_looks_for written.now.certificate.items + most_looks_for shown.now) }
{
    let own = match confirm_over(alloc, script, &written.answers, &written.certificate, looks) {
        Ok(own) => own,
        Err(fault) => return Err(fault),
    };
    match confirm_over(alloc, script, claimed, shown, looks) {
        Ok(other) => Ok((own, other)),
        Err(fault) => Err(fault),
    }
}

/// Answers a script, confirms what was written, and confirms the answers `claimed` with the certificate `shown`.
/// Returns both verdicts, with what was written.
pub fn certify_over(
    alloc: Global,
    script: &[u8],
    budget: u64,
    claimed: &[u8],
    shown: &[u8],
    looks: &mut Looks,
) -> Result<Verdicts, HeadlineFault>
    ensures { IfOk result (λ v. CertifyGuarantee script.now budget claimed.now shown.now
        v.written.summary v.written.answers.items v.written.certificate.items v.own v.other looks.old looks.new) }
{
    match run_over(alloc, script, budget) {
        Ok(written) => match verdicts_over(alloc, script, &written, claimed, shown, looks) {
            Ok((own, other)) => Ok(Verdicts {
                written,
                own,
                other,
            }),
            Err(fault) => Err(HeadlineFault::Confirm(fault)),
        },
        Err(fault) => Err(HeadlineFault::Run(fault)),
    }
}

/// Answers `script` with at most `budget` rounds for each ask. Returns the answers with a certificate, the verdict on
/// them, and the verdict on the answers `claimed` with the certificate `shown`, whoever made these.
pub fn headline_over(
    alloc: Global,
    script: &[u8],
    budget: u64,
    claimed: &[u8],
    shown: &[u8],
    looks: &mut Looks,
) -> Result<Verdicts, HeadlineFault>
    // Every accepted ask gets one correct answer, which is unknown only if its rounds are exhausted. The certificate
    // has an empowering clause for every round, except one that found the answer. The verdict on these answers is
    // `Yes`. If the other verdict is `Yes`, the other answers are correct. The number of looks is bounded.
    ensures headline { IfOk result (λ v. Headline script.now budget (rounds_of_asks v.written.summary.asks.items)
        v.written.answers.items v.written.certificate.items v.own claimed.now shown.now v.other looks.old looks.new) }
    // As for `confirm`, both verdicts are `Yes` exactly when the three texts match, and then the answers are correct.
    ensures verdicts { IfOk result (λ v.
        VerdictGuarantee script.now v.written.answers.items v.written.certificate.items v.own
        × VerdictGuarantee script.now claimed.now shown.now v.other) }
{
    certify_over(alloc, script, budget, claimed, shown, looks)
}
