//! The line after the name of a fault: which device failed, and why.
ghost use Rattle.std.specs.Prelude.{◌≡◌};

use crate::fault::RunFault;
use crate::program::fault::{HintCallFault, ProgramFault};
use crate::program::opened::{OpenCall, OpenFault, OpenFile, OpenHints, OpenRun, OpenTexts};
use crate::program::printing::failed;
use crate::verdict::ConfirmFault;
use sat_base::CountedWrite;
use std::io;
use std::io::Write;

/// The size of the buffer for the system's reason. A reason that is longer is cut.
const REASON: usize = 128;

/// The reason if no call failed.
const TOO_MANY_READS: &[u8] = b"2^48 reads did not reach the end";

/// A device that failed.
#[derive(Clone, Copy)]
struct FailedDevice<'a> {
    /// The path of a file, as in the arguments, or the name of a standard stream.
    name: &'a str,
    /// The error of the call that failed, or `None` if 2^48 reads did not reach the end.
    error: Option<io::Error>,
}

/// Writes the system's reason for `error` to `text`, as far as it fits. Returns the number of bytes written.
fn fill_reason(text: &mut [u8], error: &io::Error) -> usize {
    let size = text.len();
    let mut room: &mut [u8] = text;
    let _ = write!(room, "{error}");
    size.saturating_sub(room.len())
}

/// Writes a line with the name of a device and a reason to standard error. If that fails, the error is ignored.
fn report_reason<E: CountedWrite>(errors: &mut E, name: &str, reason: &[u8]) {
    let _ = errors.write_all_counted(b"certify: ");
    let _ = errors.write_all_counted(name.as_bytes());
    let _ = errors.write_all_counted(b": ");
    let _ = errors.write_all_counted(reason);
    let _ = errors.write_all_counted(b"\n");
    let _ = errors.flush_counted();
}

/// Writes a line with the name of a device and the system's reason to standard error. If that fails, the error is
/// ignored.
fn report_device<E: CountedWrite>(errors: &mut E, device: FailedDevice<'_>) {
    let Some(error) = device.error else {
        report_reason(errors, device.name, TOO_MANY_READS);
        return;
    };
    let mut reason = [0; REASON];
    let count = fill_reason(&mut reason, &error).min(REASON);
    report_reason(errors, device.name, &reason[..count]);
}

/// Writes the name of a fault to standard error, and then the path of the file that was not opened or created, and the
/// system's reason. Returns the status.
pub(super) fn not_opened<E: CountedWrite>(errors: &mut E, unopened: &OpenFault<'_>) -> u8
    ensures { result ≡ 3 }
{
    let status = failed(errors, unopened.fault);
    let device = FailedDevice {
        name: unopened.path,
        error: Some(unopened.error),
    };
    report_device(errors, device);
    status
}

/// Returns a file that failed, with its last error.
fn failed_file<'a, F>(file: &OpenFile<'a, F>) -> FailedDevice<'a> {
    FailedDevice {
        name: file.path,
        error: file.error,
    }
}

/// Returns the file of a run that failed, if one did.
fn failed_in_run<'a, F, G>(
    run: &OpenRun<'a, F, G>,
    fault: ProgramFault,
) -> Option<FailedDevice<'a>> {
    match fault {
        ProgramFault::Run(RunFault::ScriptRead) => Some(failed_file(&run.script)),
        ProgramFault::Run(RunFault::AnswersWrite) => Some(failed_file(&run.answers)),
        ProgramFault::Run(RunFault::CertificateWrite) => Some(failed_file(&run.certificate)),
        _ => None,
    }
}

/// Returns the file of a confirmation that failed, if one did.
fn failed_text<'a, F>(texts: &OpenTexts<'a, F>, fault: ProgramFault) -> Option<FailedDevice<'a>> {
    match fault {
        ProgramFault::Confirm(ConfirmFault::ScriptRead) => Some(failed_file(&texts.script)),
        ProgramFault::Confirm(ConfirmFault::AnswersRead) => Some(failed_file(&texts.answers)),
        ProgramFault::Confirm(ConfirmFault::CertificateRead) => {
            Some(failed_file(&texts.certificate))
        }
        _ => None,
    }
}

/// Returns the certificate or its hint text if it failed.
fn failed_in_hints<'a, F, G>(
    files: &OpenHints<'a, F, G>,
    fault: ProgramFault,
) -> Option<FailedDevice<'a>> {
    match fault {
        ProgramFault::Hints(HintCallFault::Read) => Some(failed_file(&files.certificate)),
        ProgramFault::Hints(HintCallFault::Write) => Some(failed_file(&files.hints)),
        _ => None,
    }
}

/// Returns the file of a call that failed, if one did.
fn failed_in_call<'a, F, G>(
    call: &OpenCall<'a, F, G>,
    fault: ProgramFault,
) -> Option<FailedDevice<'a>> {
    match call {
        OpenCall::Standard => None,
        OpenCall::Run(run) => failed_in_run(run, fault),
        OpenCall::Confirm(texts) => failed_text(texts, fault),
        OpenCall::Hints(files) => failed_in_hints(files, fault),
        OpenCall::Check(hints) => match fault {
            ProgramFault::Hints(HintCallFault::Read) => Some(failed_file(hints)),
            _ => None,
        },
    }
}

/// Returns the file or the standard stream that failed, if one did.
fn failed_device<'a, F, G>(
    call: &OpenCall<'a, F, G>,
    fault: ProgramFault,
) -> Option<FailedDevice<'a>> {
    match fault {
        ProgramFault::Input(error) => Some(FailedDevice {
            name: "standard input",
            error,
        }),
        ProgramFault::Output(error) => Some(FailedDevice {
            name: "standard output",
            error: Some(error),
        }),
        _ => failed_in_call(call, fault),
    }
}

/// Writes the name of a fault of an open call to standard error, and then the device that failed, if one did, with the
/// system's reason. Returns the status.
pub(super) fn broken<F, G, E: CountedWrite>(
    errors: &mut E,
    call: &OpenCall<'_, F, G>,
    fault: ProgramFault,
) -> u8
    ensures { result ≡ 3 }
{
    let status = failed(errors, fault);
    if let Some(device) = failed_device(call, fault) {
        report_device(errors, device);
    }
    status
}
