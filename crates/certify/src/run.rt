//! Answers a script while reading it, and writes a certificate.
ghost use Rattle.std.specs.Prelude.{◌≡◌, ◌+◌, ◌≤◌, ◌⊎◌, true, IfOk, OnErr, OnOk, IsErrOf};
ghost use Rattle.sat_base.specs.device.Device.{max_reads, ReadFails};
ghost use Rattle.certify.specs.script.Decided.{MakesNoReadOnceDecided};
ghost use Rattle.certify.specs.Devices.{reader_before_after, writer_before_after};
ghost use Rattle.certify.specs.run.FinishedRun.{WritesAnswers, CertificateIsGuaranteed, LastWriterCallFails};
ghost use Rattle.certify.specs.run.FinishedRun.{KeepsWriteFailures};
ghost use Rattle.certify.specs.run.Running.{ScriptReadsAreFew, FinishesOrFaults};
ghost use Rattle.certify.specs.script.LastChunk.{EndsAtLine};
ghost use Rattle.certify.specs.run.Unfinished.{CounterEnds, Stopped, ReceivedStepsPrefix};

pub mod ask;
pub mod commands;
pub(crate) mod end;
pub mod faults;
pub mod names;
pub mod page;
pub mod refuse;
pub(crate) mod serve;
pub mod session;
pub mod solver;
pub mod write;

use crate::fault::RunFault;
use crate::script::stream::CommandStream;
use crate::summary::Summary;
use end::end_run;
use sat_base::{CountedRead, CountedWrite};
use serve::serve_all;
use session::RunState;
use std::alloc::Global;

/// Answers a script. Returns the certificate's writer, and a summary or a fault.
fn answer<S: CountedRead, A: CountedWrite, C: CountedWrite + Drop>(
    alloc: Global,
    script: &mut S,
    answers: &mut A,
    certificate: C,
    budget: u64,
) -> (C, Result<Summary, RunFault>)
    ensures runs { FinishesOrFaults result.1 budget (reader_before_after S.seen script.old script.new)
        (writer_before_after A.seen answers.old answers.new) (C.seen certificate, C.seen result.0) }
    ensures unfinished { OnErr result.1
        (Stopped budget (reader_before_after S.seen script.old script.new) (writer_before_after A.seen answers.old answers.new)
        (C.seen certificate, C.seen result.0)) }
    ensures steps { ReceivedStepsPrefix (C.seen certificate, C.seen result.0) }
    ensures counter_end { IsErrOf result.1 RunFault.CounterEnd → CounterEnds (reader_before_after S.seen script.old script.new)
        (C.seen certificate, C.seen result.0) }
    ensures reads { ScriptReadsAreFew (reader_before_after S.seen script.old script.new) }
    ensures stops { MakesNoReadOnceDecided (S.seen script.old) (S.seen script.new) }
    ensures line { IfOk result.1 (λ s. EndsAtLine (S.seen script.old) (S.seen script.new) s.line) }
{
    let mut session = RunState::new(alloc, certificate, budget);
    let mut stream = CommandStream::new(alloc);
    let served = serve_all(&mut session, &mut stream, script, answers);
    let line = stream.line();
    end_run(session, answers, served, line)
}

/// Answers a script, and writes the certificate to a borrowed writer. Returns the summary.
fn answer_into<S: CountedRead, A: CountedWrite, C: CountedWrite>(
    alloc: Global,
    script: &mut S,
    answers: &mut A,
    certificate: &mut C,
    budget: u64,
) -> Result<Summary, RunFault>
    ensures runs { FinishesOrFaults result budget (reader_before_after S.seen script.old script.new)
        (writer_before_after A.seen answers.old answers.new) (writer_before_after C.seen certificate.old certificate.new) }
    ensures unfinished { OnErr result
        (Stopped budget (reader_before_after S.seen script.old script.new) (writer_before_after A.seen answers.old answers.new)
        (writer_before_after C.seen certificate.old certificate.new)) }
    ensures steps { ReceivedStepsPrefix (writer_before_after C.seen certificate.old certificate.new) }
    ensures counter_end { IsErrOf result RunFault.CounterEnd → CounterEnds (reader_before_after S.seen script.old script.new)
        (writer_before_after C.seen certificate.old certificate.new) }
    ensures reads { ScriptReadsAreFew (reader_before_after S.seen script.old script.new) }
    ensures stops { MakesNoReadOnceDecided (S.seen script.old) (S.seen script.new) }
    ensures line { IfOk result (λ s. EndsAtLine (S.seen script.old) (S.seen script.new) s.line) }
{
    let (lent, result) = answer(alloc, script, answers, certificate, budget);
    let _certificate: &mut C = lent;
    result
}

/// Answers every accepted ask of a script, with at most `budget` rounds of search each. Appends the answers and a
/// certificate to what the writers already hold.
///
/// A command is served as soon as it is read; at most 4,096 bytes are read at a time. Both writers are flushed before a
/// summary is returned.
pub fn run<S: CountedRead, A: CountedWrite, C: CountedWrite>(
    alloc: Global,
    script: &mut S,
    answers: &mut A,
    certificate: &mut C,
    budget: u64,
) -> Result<Summary, RunFault>
    // The answers' writer received correct answers to the bytes that were read, whatever bytes might follow them, and
    // the summary fits both.
    ensures answered { IfOk result
        (λ s. WritesAnswers budget s (reader_before_after S.seen script.old script.new) (writer_before_after A.seen answers.old answers.new)) }
    // The certificate's writer received steps that a checker accepts one by one, among them those of the accepted
    // commands and of these answers, in order. Once the steps record that the clauses are unsatisfiable, some may be
    // missing, and every ask without an answer gets the empty core. Every ask opened before derives as many empowering
    // clauses as it took rounds, or one fewer if it has a model or a core.
    ensures guaranteed { CertificateIsGuaranteed result budget S.seen A.seen C.seen (script.old, answers.old, certificate.old)
        (script.new, answers.new, certificate.new) }
    ensures flushed { OnOk result (((A.seen answers.new).flushed ≡ true) × ((C.seen certificate.new).flushed ≡ true)) }
    // If the run is not finished, the answers' writer received a prefix of correct answers to the bytes that were read,
    // whatever bytes might follow them. Every unknown answer among them has exhausted its rounds. The certificate's
    // writer received a prefix of the text of accepted steps, which begin with those for the first commands. In each
    // answered ask, as many empowering clauses were derived in these steps as its rounds have learned.
    ensures unfinished { OnErr result
        (Stopped budget (reader_before_after S.seen script.old script.new) (writer_before_after A.seen answers.old answers.new)
        (writer_before_after C.seen certificate.old certificate.new)) }
    // Whatever is returned, the certificate's writer received a prefix of the text of steps that a checker accepts, and
    // nothing else.
    ensures steps { ReceivedStepsPrefix (writer_before_after C.seen certificate.old certificate.new) }

    // A device's fault is returned only if exactly one call to the device failed, which was the last, or if 2^48 reads
    // were made and none failed.
    ensures script_read { IsErrOf result RunFault.ScriptRead → ReadFails (S.seen script.old) (S.seen script.new) }
    ensures answers_write { IsErrOf result RunFault.AnswersWrite
        → LastWriterCallFails (A.seen answers.old) (A.seen answers.new) }
    ensures certificate_write { IsErrOf result RunFault.CertificateWrite
        → LastWriterCallFails (C.seen certificate.old) (C.seen certificate.new) }
    // `CounterEnd` is returned only if the bytes that were read contain at least 2^64-1 commands, or introduce more than
    // 2^28 variables and contain an accepted command whose names need more than are left after some steps.
    ensures counter_end { IsErrOf result RunFault.CounterEnd → CounterEnds (reader_before_after S.seen script.old script.new)
        (writer_before_after C.seen certificate.old certificate.new) }
    // A call to a device has failed only if the fault of that device is returned.
    ensures kept_script { IsErrOf result RunFault.ScriptRead
        ⊎ ((S.seen script.new).failures ≡ (S.seen script.old).failures) }
    ensures kept_answers { IsErrOf result RunFault.AnswersWrite ⊎ KeepsWriteFailures A.seen answers.old answers.new }
    ensures kept_certificate { IsErrOf result RunFault.CertificateWrite
        ⊎ KeepsWriteFailures C.seen certificate.old certificate.new }
    // At most 2^48 reads are made of the script.
    ensures reads { (S.seen script.new).calls ≤ (S.seen script.old).calls + max_reads }
    // Once the script has ended by a line that begins with `%`, or is malformed, no read of it is made.
    ensures stops { MakesNoReadOnceDecided (S.seen script.old) (S.seen script.new) }
    // The summary's line is that of the last byte of the script that was consumed.
    ensures line { IfOk result (λ s. EndsAtLine (S.seen script.old) (S.seen script.new) s.line) }
{
    answer_into(alloc, script, answers, certificate, budget)
}
