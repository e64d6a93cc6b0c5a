//! Handles the call without arguments: answers a script while it is read from standard input. The certificate and the
//! bytes that were read are kept in memory.
ghost use Rattle.std.specs.Prelude.{◌≡◌, ◌⊎◌, [], IfOk, OnErr, false};
ghost use Rattle.certify.specs.script.Decided.{MakesNoReadOnceDecided};
ghost use Rattle.certify.specs.Devices.{reader_before_after, writer_before_after};
ghost use Rattle.certify.specs.program.Calls.{HasStatus};
ghost use Rattle.certify.specs.program.Copies.{GaveKept};
ghost use Rattle.certify.specs.program.Failures.{ReadsStopAtFailure};
ghost use Rattle.certify.specs.program.Printing.{PrintsWrittenPrefix, IsWritten, Prints, PrintsPrefix, PrintsWritten};

use crate::fault::RunFault;
use crate::headline::{Written, run_in_memory};
use crate::program::fault::ProgramFault;
use crate::program::keeping::Keeping;
use crate::program::printing::{print_line, write_out};
use crate::program::progress::report_progress;
use crate::program::verdict_line::{confirm_texts, status};
use sat_base::{CountedRead, CountedWrite};
use std::alloc::Global;
use std::io;

/// Writes the answers to a script to `output`, and then the line for the verdict on them, which is `Yes`. Returns
/// the status.
fn print_confirmed<O: CountedWrite>(
    alloc: Global,
    script: &[u8],
    written: &Written,
    output: &mut O,
) -> Result<u8, ProgramFault>
    requires { IsWritten script.now written.now }
    ensures small { HasStatus result }
    ensures printed { IfOk result (λ s. PrintsWritten s written.now (O.seen output.old) (O.seen output.new)) }
    ensures cut { OnErr result (PrintsWrittenPrefix written.now (O.seen output.old) (O.seen output.new)) }
{
    write_out(output, &written.answers)?;
    let mut line = Vec::new(alloc);
    let verdict = confirm_texts(
        alloc,
        script,
        &written.answers,
        &written.certificate,
        &mut line,
    )?;
    print_line(output, &line)?;
    Ok(status(verdict, written.summary.malformed.is_some()))
}

/// Returns the fault of a run in memory. If a write to memory failed, or memory for a copy of the script ran out, it is
/// `OutOfMemory`. `error` is the error of the read that failed, if one did.
fn fault_in_memory(fault: RunFault, is_refused: bool, error: Option<io::Error>) -> ProgramFault {
    if is_refused {
        return ProgramFault::Run(RunFault::OutOfMemory);
    }
    match fault {
        RunFault::ScriptRead => ProgramFault::Input(error),
        RunFault::AnswersWrite | RunFault::CertificateWrite => {
            ProgramFault::Run(RunFault::OutOfMemory)
        }
        _ => ProgramFault::Run(fault),
    }
}

/// Answers a script, with at most 2^64-1 rounds for each ask, and keeps the bytes that are read.
fn run_kept<R: CountedRead>(alloc: Global, script: &mut Keeping<R>) -> Result<Written, ProgramFault>
    requires nothing { script.old.kept.items ≡ [] }
    requires enough { script.old.is_refused ≡ false }
    ensures gave { IfOk result (λ w. GaveKept (R.seen script.old.reader) (R.seen script.new.reader) script.new.kept.items
        (λ text. IsWritten text w)) }
    ensures reads { ReadsStopAtFailure (reader_before_after R.seen script.old.reader script.new.reader) }
    ensures stops { MakesNoReadOnceDecided (R.seen script.old.reader) (R.seen script.new.reader) }
{
    match run_in_memory(alloc, script, u64::MAX) {
        Ok(written) => {
            if script.is_refused {
                return Err(ProgramFault::Run(RunFault::OutOfMemory));
            }
            Ok(written)
        }
        Err(fault) => Err(fault_in_memory(fault, script.is_refused, script.error)),
    }
}

/// Answers a script, writes the answers to `output`, and confirms them. Returns the status.
fn answer_kept<R: CountedRead, O: CountedWrite, E: CountedWrite>(
    alloc: Global,
    script: &mut Keeping<R>,
    output: &mut O,
    errors: &mut E,
) -> Result<u8, ProgramFault>
    requires nothing { script.old.kept.items ≡ [] }
    requires enough { script.old.is_refused ≡ false }
    ensures small { HasStatus result }
    ensures printed { IfOk result (λ s. Prints s (reader_before_after R.seen script.old.reader script.new.reader)
        (writer_before_after O.seen output.old output.new)) }
    ensures cut { OnErr result ((O.seen output.new ≡ O.seen output.old)
        ⊎ PrintsPrefix (reader_before_after R.seen script.old.reader script.new.reader)
        (writer_before_after O.seen output.old output.new)) }
    ensures reads { ReadsStopAtFailure (reader_before_after R.seen script.old.reader script.new.reader) }
    ensures stops { MakesNoReadOnceDecided (R.seen script.old.reader) (R.seen script.new.reader) }
{
    let written = run_kept(alloc, script)?;
    report_progress(errors, &written.summary);
    print_confirmed(alloc, &script.kept, &written, output)
}

/// Answers a script, writes the answers to `output`, and confirms them. Returns the reader and the status.
fn answer_and_return<R: CountedRead + Drop, O: CountedWrite, E: CountedWrite>(
    alloc: Global,
    input: R,
    output: &mut O,
    errors: &mut E,
) -> (R, Result<u8, ProgramFault>)
    ensures small { HasStatus result.1 }
    ensures printed { IfOk result.1
        (λ s. Prints s (R.seen input, R.seen result.0) (writer_before_after O.seen output.old output.new)) }
    ensures cut { OnErr result.1 ((O.seen output.new ≡ O.seen output.old)
        ⊎ PrintsPrefix (R.seen input, R.seen result.0) (writer_before_after O.seen output.old output.new)) }
    ensures reads { ReadsStopAtFailure (R.seen input, R.seen result.0) }
    ensures stops { MakesNoReadOnceDecided (R.seen input) (R.seen result.0) }
{
    let mut script = Keeping::new(alloc, input);
    let result = answer_kept(alloc, &mut script, output, errors);
    (script.into_reader(), result)
}

/// Answers the script on `input`, as far as it is read, writes the answers to `output`, and confirms them. Returns the
/// status.
pub(super) fn answer<I: CountedRead, O: CountedWrite, E: CountedWrite>(
    alloc: Global,
    input: &mut I,
    output: &mut O,
    errors: &mut E,
) -> Result<u8, ProgramFault>
    ensures small { HasStatus result }
    ensures printed { IfOk result (λ s. Prints s (reader_before_after I.seen input.old input.new)
        (writer_before_after O.seen output.old output.new)) }
    ensures cut { OnErr result ((O.seen output.new ≡ O.seen output.old)
        ⊎ PrintsPrefix (reader_before_after I.seen input.old input.new) (writer_before_after O.seen output.old output.new)) }
    ensures reads { ReadsStopAtFailure (reader_before_after I.seen input.old input.new) }
    ensures stops { MakesNoReadOnceDecided (I.seen input.old) (I.seen input.new) }
{
    let (lent, result) = answer_and_return(alloc, input, output, errors);
    let _input: &mut I = lent;
    result
}
