//! Writes to the standard streams, and defines the statuses.
ghost use Rattle.std.specs.Prelude.{◌≡◌, [], OnErr, OnOk, true};
ghost use Rattle.sat_base.specs.device.Device.{WriterFails, WriterAccepts};

use crate::program::fault::ProgramFault;
use sat_base::CountedWrite;

/// The call has done everything, and what it checked is confirmed or proved.
pub(super) const DONE: u8 = 0;
/// The script is malformed, the answers are not confirmed, the hint text is bad, or the certificate has none.
pub(super) const REFUSED: u8 = 1;
/// The arguments don't match the usage, or an output is the input or the other output.
const MISUSED: u8 = 2;
/// A fault occurred. Its name is written to standard error.
const FAILED: u8 = 3;

/// What is written if the arguments are not a valid call: the usage, and a line that explains its words.
const USAGE: &str = "\
    usage: certify [run S A C [STEPS] | confirm S A C | hints C H | check H]\n\
    S: script, A: its answers, C: their certificate, H: hint text, STEPS: limit on search rounds per ask; \
    an output must not be an input or the other output; without arguments, standard input is the script\n";

/// Writes a line with the name of a fault or rejection to standard error. If that fails, the error is ignored.
pub(super) fn report<E: CountedWrite>(errors: &mut E, name: &str) {
    let _ = errors.write_all_counted(b"certify: ");
    let _ = errors.write_all_counted(name.as_bytes());
    let _ = errors.write_all_counted(b"\n");
    let _ = errors.flush_counted();
}

/// Writes the usage and its explanation to standard error. If that fails, the error is ignored. Returns the status.
pub(super) fn report_misuse<E: CountedWrite>(errors: &mut E) -> u8
    ensures { result ≡ 2 }
{
    let _ = errors.write_all_counted(USAGE.as_bytes());
    let _ = errors.flush_counted();
    MISUSED
}

/// Writes the name of a fault to standard error. Returns the status, which is the same for all faults.
pub(super) fn failed<E: CountedWrite>(errors: &mut E, fault: ProgramFault) -> u8
    ensures { result ≡ 3 }
{
    report(errors, fault.name());
    FAILED
}

/// Writes to standard output. If that fails, the fault is named `AnswersWrite`, whatever is written.
pub(super) fn write_out<O: CountedWrite>(output: &mut O, bytes: &[u8]) -> Result<(), ProgramFault>
    ensures takes { OnOk result (WriterAccepts (O.seen output.old) (O.seen output.new) bytes.now) }
    ensures breaks { OnErr result (WriterFails (O.seen output.old) (O.seen output.new) bytes.now) }
{
    match output.write_all_counted(bytes) {
        Ok(()) => Ok(()),
        Err(error) => Err(ProgramFault::Output(error)),
    }
}

/// Flushes standard output, so that no write error is missed.
pub(super) fn flush_out<O: CountedWrite>(output: &mut O) -> Result<(), ProgramFault>
    ensures took { OnOk result (WriterAccepts (O.seen output.old) (O.seen output.new) []) }
    ensures flushed { OnOk result ((O.seen output.new).flushed ≡ true) }
    ensures breaks { OnErr result (WriterFails (O.seen output.old) (O.seen output.new) []) }
{
    match output.flush_counted() {
        Ok(()) => Ok(()),
        Err(error) => Err(ProgramFault::Output(error)),
    }
}

/// Writes the last line to standard output, and flushes it.
pub(super) fn print_line<O: CountedWrite>(output: &mut O, line: &[u8]) -> Result<(), ProgramFault>
    ensures took { OnOk result (WriterAccepts (O.seen output.old) (O.seen output.new) line.now) }
    ensures flushed { OnOk result ((O.seen output.new).flushed ≡ true) }
    ensures breaks { OnErr result (WriterFails (O.seen output.old) (O.seen output.new) line.now) }
{
    write_out(output, line)?;
    flush_out(output)
}
