//! Carries out calls that name files, with any readers and writers instead of the files. All calls return the status.
ghost use Rattle.std.specs.Prelude.{◌≡◌, ◌≤◌, ◌↔◌, ◌⊎◌, None, [], IfOk, OnErr, OnOk, true};
ghost use Rattle.sat_base.specs.device.Device.{WriterFails, WriterAccepts};
ghost use Rattle.certify.specs.script.Decided.{MakesNoReadOnceDecided};
ghost use Rattle.certify.specs.Devices.{reader_before_after, writer_before_after};
ghost use Rattle.certify.specs.declared.verdict.Verdict.TheVariants.{Yes};
ghost use Rattle.certify.specs.program.Calls.{HasStatus};
ghost use Rattle.certify.specs.program.Failures.{ConfirmStopsAtFailure, ReadsStopAtFailure, RunStopsAtFailure};
ghost use Rattle.certify.specs.program.HintPrinting.{PrintsHintVerdictPrefix, WritesHintsPrefix, PrintsHintVerdict};
ghost use Rattle.certify.specs.program.HintPrinting.{WritesHints};
ghost use Rattle.certify.specs.program.HintPrinting.{hint_verdict_text, is_proved};
ghost use Rattle.certify.specs.program.Printing.{PrintsYesOrNoPrefix, PrintsLine, PrintsYesOrNo, WroteFinishedRun};
ghost use Rattle.certify.specs.program.Printing.{yes_or_no_text};
ghost use Rattle.certify.specs.run.Unfinished.{Stopped};

use crate::confirm::confirm;
use crate::program::fault::{HintCallFault, ProgramFault};
use crate::program::hint_line::{hint_status, push_hint_verdict};
use crate::program::printing::{DONE, REFUSED, print_line, report};
use crate::program::progress::report_progress;
use crate::program::verdict_line::{push_yes_or_no, status};
use crate::run::run;
use crate::summary::Summary;
use crate::verdict::{ConfirmFault, Verdict};
use sat_base::{CountedRead, CountedWrite};
use sat_checker::Looks;
use sat_hints::{HintError, HintFault, HintVerdict, check, convert};
use std::alloc::Global;

/// Returns the status after a finished run.
fn run_status(summary: &Summary) -> u8
    ensures small { result ≤ 1 }
    ensures done { (result ≡ 0) ↔ (summary.now.malformed ≡ None) }
{
    match summary.malformed {
        Some(_) => REFUSED,
        None => DONE,
    }
}

/// Answers a script, and writes the solver's counts to `errors`. Returns the status.
pub(super) fn run_text<S: CountedRead, A: CountedWrite, C: CountedWrite, E: CountedWrite>(
    alloc: Global,
    script: &mut S,
    answers: &mut A,
    certificate: &mut C,
    budget: u64,
    errors: &mut E,
) -> Result<u8, ProgramFault>
    ensures small { HasStatus result }
    ensures ran { IfOk result (λ s. WroteFinishedRun s budget (reader_before_after S.seen script.old script.new)
        (writer_before_after A.seen answers.old answers.new) (writer_before_after C.seen certificate.old certificate.new)) }
    ensures unfinished { OnErr result
        (Stopped budget (reader_before_after S.seen script.old script.new) (writer_before_after A.seen answers.old answers.new)
        (writer_before_after C.seen certificate.old certificate.new)) }
    ensures stops { MakesNoReadOnceDecided (S.seen script.old) (S.seen script.new) }
    ensures calls { RunStopsAtFailure (reader_before_after S.seen script.old script.new)
        (writer_before_after A.seen answers.old answers.new) (writer_before_after C.seen certificate.old certificate.new) }
{
    match run(alloc, script, answers, certificate, budget) {
        Ok(summary) => {
            report_progress(errors, &summary);
            Ok(run_status(&summary))
        }
        Err(fault) => Err(ProgramFault::Run(fault)),
    }
}

/// Writes the line for a verdict to `output`. Returns the status.
fn print_yes_or_no<O: CountedWrite>(
    alloc: Global,
    verdict: Verdict,
    output: &mut O,
) -> Result<u8, ProgramFault>
    ensures small { HasStatus result }
    ensures printed { IfOk result (λ s. PrintsLine s (yes_or_no_text verdict) (verdict ≡ Yes) (O.seen output.old)
        (O.seen output.new)) }
    ensures cut { OnErr result ((O.seen output.new ≡ O.seen output.old)
        ⊎ WriterFails (O.seen output.old) (O.seen output.new) (yes_or_no_text verdict)) }
{
    let mut line = Vec::new(alloc);
    if push_yes_or_no(&mut line, verdict).is_err() {
        return Err(ProgramFault::Confirm(ConfirmFault::OutOfMemory));
    }
    print_line(output, &line)?;
    Ok(status(verdict, false))
}

/// Confirms answers to a script, and writes `yes` or `no ASK WHY` to `output`. Returns the status.
pub(super) fn confirm_given<S: CountedRead, A: CountedRead, C: CountedRead, O: CountedWrite>(
    alloc: Global,
    script: &mut S,
    answers: &mut A,
    certificate: &mut C,
    output: &mut O,
) -> Result<u8, ProgramFault>
    ensures small { HasStatus result }
    ensures printed { IfOk result (λ s. PrintsYesOrNo s (reader_before_after S.seen script.old script.new)
        (reader_before_after A.seen answers.old answers.new) (reader_before_after C.seen certificate.old certificate.new)
        (writer_before_after O.seen output.old output.new)) }
    ensures cut { OnErr result ((O.seen output.new ≡ O.seen output.old)
        ⊎ PrintsYesOrNoPrefix (reader_before_after S.seen script.old script.new) (reader_before_after A.seen answers.old answers.new)
        (reader_before_after C.seen certificate.old certificate.new) (writer_before_after O.seen output.old output.new)) }
    ensures stops { MakesNoReadOnceDecided (S.seen script.old) (S.seen script.new) }
    ensures calls { ConfirmStopsAtFailure (reader_before_after S.seen script.old script.new)
        (reader_before_after A.seen answers.old answers.new) (reader_before_after C.seen certificate.old certificate.new) }
{
    let mut looks = Looks::new();
    let verdict = confirm(alloc, script, answers, certificate, &mut looks)?;
    print_yes_or_no(alloc, verdict, output)
}

/// Writes the hint text of a certificate to `hints`. If the certificate has none, writes why to `errors`. Returns
/// the status.
pub(super) fn write_hints<C: CountedRead, H: CountedWrite, E: CountedWrite>(
    alloc: Global,
    certificate: &mut C,
    hints: &mut H,
    errors: &mut E,
) -> Result<u8, ProgramFault>
    ensures small { HasStatus result }
    ensures written { IfOk result (λ s. WritesHints s (reader_before_after C.seen certificate.old certificate.new)
        (writer_before_after H.seen hints.old hints.new)) }
    ensures cut { OnErr result (WritesHintsPrefix (reader_before_after C.seen certificate.old certificate.new)
        (writer_before_after H.seen hints.old hints.new)) }
{
    match convert(alloc, certificate, hints) {
        Ok(()) => finish_hints(hints),
        Err(HintError::Refused(_)) => {
            report(errors, "Refused");
            Ok(REFUSED)
        }
        Err(HintError::HasDeleteVar) => {
            report(errors, "HasDeleteVar");
            Ok(REFUSED)
        }
        Err(HintError::Read) => Err(ProgramFault::Hints(HintCallFault::Read)),
        Err(HintError::Write) => Err(ProgramFault::Hints(HintCallFault::Write)),
        Err(HintError::OutOfMemory) => Err(ProgramFault::Hints(HintCallFault::OutOfMemory)),
    }
}

/// Flushes the writer of a hint text. Returns the status.
fn finish_hints<H: CountedWrite>(hints: &mut H) -> Result<u8, ProgramFault>
    ensures done { IfOk result (λ status. status ≡ 0) }
    ensures took { OnOk result (WriterAccepts (H.seen hints.old) (H.seen hints.new) []) }
    ensures flushed { OnOk result ((H.seen hints.new).flushed ≡ true) }
    ensures breaks { OnErr result (WriterFails (H.seen hints.old) (H.seen hints.new) []) }
{
    match hints.flush_counted() {
        Ok(()) => Ok(DONE),
        Err(_) => Err(ProgramFault::Hints(HintCallFault::Write)),
    }
}

/// Writes the line for the verdict on a hint text to `output`. Returns the status.
fn print_hint_verdict<O: CountedWrite>(
    alloc: Global,
    verdict: HintVerdict,
    output: &mut O,
) -> Result<u8, ProgramFault>
    ensures small { HasStatus result }
    ensures printed { IfOk result (λ s. PrintsLine s (hint_verdict_text verdict) (is_proved verdict ≡ true)
        (O.seen output.old) (O.seen output.new)) }
    ensures cut { OnErr result ((O.seen output.new ≡ O.seen output.old)
        ⊎ WriterFails (O.seen output.old) (O.seen output.new) (hint_verdict_text verdict)) }
{
    let mut line = Vec::new(alloc);
    if push_hint_verdict(&mut line, verdict).is_err() {
        return Err(ProgramFault::Hints(HintCallFault::OutOfMemory));
    }
    print_line(output, &line)?;
    Ok(hint_status(verdict))
}

/// Checks a hint text, and writes the verdict to `output`. Returns the status.
pub(super) fn check_text<H: CountedRead, O: CountedWrite>(
    alloc: Global,
    text: &mut H,
    output: &mut O,
) -> Result<u8, ProgramFault>
    ensures small { HasStatus result }
    ensures printed { IfOk result (λ s. PrintsHintVerdict s (reader_before_after H.seen text.old text.new)
        (writer_before_after O.seen output.old output.new)) }
    ensures cut { OnErr result ((O.seen output.new ≡ O.seen output.old)
        ⊎ PrintsHintVerdictPrefix (reader_before_after H.seen text.old text.new) (writer_before_after O.seen output.old output.new)) }
    ensures calls { ReadsStopAtFailure (reader_before_after H.seen text.old text.new) }
{
    let verdict = check(alloc, text)?;
    print_hint_verdict(alloc, verdict, output)
}
