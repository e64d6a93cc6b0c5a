//! What the program does with its arguments and its standard streams.
ghost use Rattle.std.specs.Prelude.{MatchResult, map};
ghost use Rattle.std.specs.String.{string_bytes};
ghost use Rattle.certify.specs.Devices.{reader_before_after, writer_before_after};
ghost use Rattle.certify.specs.program.Calls.{status_of};
ghost use Rattle.certify.specs.program.Effects.{Unread, effect};
ghost use Rattle.certify.specs.program.FileCalls.{DoesCall};
ghost use Rattle.certify.specs.program.Program.{Obeys};

mod call;
mod fault;
mod hint_line;
pub(crate) mod keeping;
mod kept_error;
pub mod opened;
mod overlap;
mod printing;
mod progress;
mod reason;
mod standard;
mod texts;
mod verdict_line;

use crate::fault::RunFault;
use crate::program::call::call_of;
use crate::program::fault::ProgramFault;
use crate::program::opened::{OpenCall, open_call};
use crate::program::printing::{failed, report_misuse};
use crate::program::reason::{broken, not_opened};
use crate::program::standard::answer;
use crate::program::texts::{check_text, confirm_given, run_text, write_hints};
use sat_base::{CountedRead, CountedWrite};
use std::alloc::Global;
use std::fs::Files;
use std::io;
use std::io::{Read, Write};

/// Does what the arguments ask for. `arguments` does not contain the program's own name.
///
/// - Without arguments: answers the script on `input` while reading it, confirms the answers with a certificate that is
///   kept in memory, and writes the answers and `c confirmed` to `output`. Nothing is read past the end of the script.
/// - `run S A C [STEPS]`: answers the script in the file S, and writes the answers to A and the certificate to C. Each
///   ask may take at most STEPS rounds of search. STEPS is at most 2^64-1, which is the default.
/// - `confirm S A C`: checks whether the answers in A to the script in S are confirmed by the certificate in C, and
///   writes `yes` or `no ASK WHY` to `output`.
/// - `hints C H`: writes the hint text of the certificate in C to the file H.
/// - `check H`: checks the hint text in H, and writes `proved empty=E cores=K lines=L`, where E is 0 or 1, or `bad LINE
///   WHY` to `output`.
///
/// An output must not overwrite the input or the other output. So a call is refused, like invalid arguments, in three
/// cases: the argument for an output equals the argument for the input, byte for byte; two of these paths lead to the
/// same regular file; or the arguments for both outputs are equal, and no file is found there yet. The outputs may be
/// the same file if it is not regular, such as a terminal. A call is refused before any file is opened for writing,
/// unless only the creation of the first output shows that both outputs are the same file. Files are opened in the
/// order of the arguments. After a finished run, one line with the solver's counts is written to `errors`.
///
/// Returns the status:
///
/// - 0 if everything is done, confirmed or proved.
/// - 1 if the script is malformed, the answers are not confirmed or the hint text is bad; or if a certificate has no
///   hint text, with the reason on `errors`.
/// - 2 for any other arguments, or arguments that are not text, with the usage on `errors`.
/// - 3 after a fault, with its name on `errors`. Nothing more is written to `output` after the fault.
///
/// If writing to `errors` fails, the error is ignored.
pub fn program<R: AllocGlobal + Files, I: CountedRead, O: CountedWrite, E: CountedWrite>(
    rt: &R,
    arguments: io::Result<Vec<String>>,
    input: &mut I,
    output: &mut O,
    errors: &mut E,
) -> u8
    // The call that the arguments ask for is made: `DoesCall` has one line for each call. For other arguments,
    // nothing is read from `input`, and nothing is written to `output`.
    ensures { MatchResult arguments
        (λ words. Obeys R.File.remaining R.File.contents (map string_bytes words.items)
        (effect result (reader_before_after I.seen input.old input.new) (writer_before_after O.seen output.old output.new)))
        (λ error. Unread error
        (effect result (reader_before_after I.seen input.old input.new) (writer_before_after O.seen output.old output.new))) }
{
    match arguments {
        Ok(words) => obey(rt, &words, input, output, errors),
        Err(e) => {
            if e.kind() != io::ErrorKind::OutOfMemory {
                return report_misuse(errors);
            }
            failed(errors, ProgramFault::Run(RunFault::OutOfMemory))
        }
    }
}

/// Does what the arguments `words` ask for: opens the files, and carries out the call. Returns the status.
fn obey<R: AllocGlobal + Files, I: CountedRead, O: CountedWrite, E: CountedWrite>(
    rt: &R,
    words: &[String],
    input: &mut I,
    output: &mut O,
    errors: &mut E,
) -> u8
    ensures { Obeys R.File.remaining R.File.contents (map string_bytes words.now)
        (effect result (reader_before_after I.seen input.old input.new) (writer_before_after O.seen output.old output.new)) }
{
    let Some(call) = call_of(words) else {
        return report_misuse(errors);
    };
    match open_call(rt, &call) {
        Ok(Some(mut opened)) => carry_out(rt.alloc(), &mut opened, input, output, errors),
        Ok(None) => report_misuse(errors),
        Err(unopened) => not_opened(errors, &unopened),
    }
}

/// Carries out a call whose files are open, and does nothing else. Returns the status.
pub fn carry_out<F: Read, G: Write, I: CountedRead, O: CountedWrite, E: CountedWrite>(
    alloc: Global,
    call: &mut OpenCall<'_, F, G>,
    input: &mut I,
    output: &mut O,
    errors: &mut E,
) -> u8
    ensures { DoesCall F.remaining G.contents call.old call.new
        (effect result (reader_before_after I.seen input.old input.new) (writer_before_after O.seen output.old output.new)) }
{
    match make_call(alloc, call, input, output, errors) {
        Ok(status) => status,
        Err(fault) => broken(errors, call, fault),
    }
}

/// Carries out a call whose files are open. Returns the status, or a fault.
fn make_call<F: Read, G: Write, I: CountedRead, O: CountedWrite, E: CountedWrite>(
    alloc: Global,
    call: &mut OpenCall<'_, F, G>,
    input: &mut I,
    output: &mut O,
    errors: &mut E,
) -> Result<u8, ProgramFault>
    ensures { DoesCall F.remaining G.contents call.old call.new
        (effect (status_of result) (reader_before_after I.seen input.old input.new) (writer_before_after O.seen output.old output.new)) }
{
    match call {
        OpenCall::Standard => answer(alloc, input, output, errors),
        OpenCall::Run(run) => run_text(
            alloc,
            &mut run.script,
            &mut run.answers,
            &mut run.certificate,
            run.budget,
            errors,
        ),
        OpenCall::Confirm(texts) => confirm_given(
            alloc,
            &mut texts.script,
            &mut texts.answers,
            &mut texts.certificate,
            output,
        ),
        OpenCall::Hints(files) => write_hints(
            alloc,
            &mut files.certificate,
            &mut files.hints,
            errors,
        ),
        OpenCall::Check(hints) => check_text(alloc, hints, output),
    }
}
