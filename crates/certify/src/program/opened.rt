//! Opens the files of a call, in the order of the arguments.
ghost use Rattle.std.specs.Prelude.{IfOk, MatchOption, MatchResult, refl};
ghost use Rattle.std.specs.Io.{ReadsAtMost, WritesAtMost};
ghost use Rattle.std.specs.Io.KnownBytes.{Keeps, ReadConsumes, WriteAppends};
ghost use Rattle.sat_base.specs.device.Counting.{device_of, reader_of, writer_of};
ghost use Rattle.sat_base.specs.device.Device.{FlushesOnce, ReadsOnce, WritesOnce};
ghost use Rattle.certify.specs.program.Calls.{Check, Hints, NamesFiles, WritesFiles, confirm_request, request_of};
ghost use Rattle.certify.specs.program.Calls.{run_request};
ghost use Rattle.certify.specs.program.FileCalls.{IsOpenedFor, IsUnread, IsUnwritten};

use crate::fault::RunFault;
use crate::program::call::{Call, RunFiles};
use crate::program::fault::{HintCallFault, ProgramFault};
use crate::program::kept_error::keep_error;
use crate::program::overlap::{is_one_file, overlaps};
use crate::verdict::ConfirmFault;
use sat_base::{Counted, CountedRead, CountedWrite};
use std::fs::{File, Files};
use std::io;
use std::io::{Read, Write};

/// A file that was opened or created, and the path that led to it. It is read or written through its device.
#[derive(Drop)]
pub struct OpenFile<'a, F> {
    pub path: &'a str,
    pub device: Counted<F>,
    /// The error of the last call that failed, or `None` if none did.
    pub error: Option<io::Error>,
}

impl<F: Read> Read for OpenFile<'_, F> {
    ghost remaining = { λ f. F.remaining (device_of f.device) };

    fn read(&mut self, buf: &mut [u8]) -> io::Result<usize>
        ensures bound { ReadsAtMost result buf.new }
        ensures bytes { ReadConsumes (F.remaining (device_of self.old.device)) (F.remaining (device_of self.new.device))
            result buf.new }
        ensures once { ReadsOnce result buf.new (reader_of F.remaining self.old.device)
            (reader_of F.remaining self.new.device) }
    {
        self.read_counted(buf)
    }
}

impl<F: Read> CountedRead for OpenFile<'_, F> {
    ghost seen = { λ f. reader_of F.remaining f.device };

    ghost known_bytes = { λ f. refl };

    fn read_counted(&mut self, buf: &mut [u8]) -> io::Result<usize> {
        let result = self.device.read_counted(buf);
        keep_error(&mut self.error, &result);
        result
    }
}

impl<F: Write> Write for OpenFile<'_, F> {
    ghost contents = { λ f. F.contents (device_of f.device) };

    fn write(&mut self, piece: &[u8]) -> io::Result<usize>
        ensures bound { WritesAtMost result piece.now }
        ensures bytes { WriteAppends (F.contents (device_of self.old.device)) (F.contents (device_of self.new.device))
            result piece.now }
        ensures once { WritesOnce result piece.now (writer_of F.contents self.old.device)
            (writer_of F.contents self.new.device) }
    {
        self.write_counted(piece)
    }

    fn flush(&mut self) -> io::Result<()>
        ensures bytes { Keeps (F.contents (device_of self.old.device)) (F.contents (device_of self.new.device)) }
        ensures once { FlushesOnce result (writer_of F.contents self.old.device)
            (writer_of F.contents self.new.device) }
    {
        self.flush_counted()
    }
}

impl<F: Write> CountedWrite for OpenFile<'_, F> {
    ghost seen = { λ f. writer_of F.contents f.device };

    ghost known_bytes = { λ f. refl };

    fn write_counted(&mut self, piece: &[u8]) -> io::Result<usize> {
        let result = self.device.write_counted(piece);
        keep_error(&mut self.error, &result);
        result
    }

    fn flush_counted(&mut self) -> io::Result<()> {
        let result = self.device.flush_counted();
        keep_error(&mut self.error, &result);
        result
    }

    fn write_all_counted(&mut self, piece: &[u8]) -> io::Result<()> {
        let result = self.device.write_all_counted(piece);
        keep_error(&mut self.error, &result);
        result
    }
}

/// The files of a confirmation.
#[derive(Drop)]
pub struct OpenTexts<'a, F> {
    pub script: OpenFile<'a, F>,
    pub answers: OpenFile<'a, F>,
    pub certificate: OpenFile<'a, F>,
}

/// The files of a run, and its budget. `F` is read, and `G` is written.
#[derive(Drop)]
pub struct OpenRun<'a, F, G> {
    pub script: OpenFile<'a, F>,
    pub answers: OpenFile<'a, G>,
    pub certificate: OpenFile<'a, G>,
    pub budget: u64,
}

/// A certificate and its hint text, open.
#[derive(Drop)]
pub struct OpenHints<'a, F, G> {
    pub certificate: OpenFile<'a, F>,
    pub hints: OpenFile<'a, G>,
}

/// A call whose files are open. Files of the type `F` are read, and those of the type `G` are written.
#[derive(Drop)]
pub enum OpenCall<'a, F, G> {
    /// Without arguments.
    Standard,
    /// `run S A C [STEPS]`
    Run(OpenRun<'a, F, G>),
    /// `confirm S A C`
    Confirm(OpenTexts<'a, F>),
    /// `hints C H`
    Hints(OpenHints<'a, F, G>),
    /// `check H`
    Check(OpenFile<'a, F>),
}

/// Why a call was not opened: the fault, the path of the file that couldn't be opened or created, and the system's
/// error.
#[derive(Clone, Copy)]
pub(super) struct OpenFault<'a> {
    pub(super) fault: ProgramFault,
    pub(super) path: &'a str,
    pub(super) error: io::Error,
}

/// Opens a file for reading. The error has `fault` if that fails.
fn open<'a, R: Files>(
    rt: &R,
    path: &'a str,
    fault: ProgramFault,
) -> Result<OpenFile<'a, R::File>, OpenFault<'a>>
    ensures { IfOk result (IsUnread R.File.remaining path.now) }
{
    match File::open(rt, path) {
        Ok(file) => Ok(OpenFile {
            path,
            device: Counted::new(file),
            error: None,
        }),
        Err(error) => Err(OpenFault { fault, path, error }),
    }
}

/// Creates an empty file for writing. The error has `fault` if that fails.
fn make<'a, R: Files>(
    rt: &R,
    path: &'a str,
    fault: ProgramFault,
) -> Result<OpenFile<'a, R::File>, OpenFault<'a>>
    ensures { IfOk result (IsUnwritten R.File.contents path.now) }
{
    match File::create(rt, path) {
        Ok(file) => Ok(OpenFile {
            path,
            device: Counted::new(file),
            error: None,
        }),
        Err(error) => Err(OpenFault { fault, path, error }),
    }
}

/// Opens the files of a run. Returns `None` if an output is the script or the other output, which may be known only
/// once the first output exists.
fn open_run<'a, R: Files>(
    rt: &R,
    files: RunFiles<'a>,
    budget: u64,
) -> Result<Option<OpenCall<'a, R::File, R::File>>, OpenFault<'a>>
    ensures { IfOk result (λ made. MatchOption made (WritesFiles (run_request files.entry budget))
        (IsOpenedFor R.File.remaining R.File.contents (run_request files.entry budget))) }
{
    if overlaps(rt, files) {
        return Ok(None);
    }
    let script = open(rt, files.script, ProgramFault::Run(RunFault::ScriptRead))?;
    let answers = make(rt, files.answers, ProgramFault::Run(RunFault::AnswersWrite))?;
    if is_one_file(rt, files.answers, files.certificate) {
        return Ok(None);
    }
    let certificate = make(
        rt,
        files.certificate,
        ProgramFault::Run(RunFault::CertificateWrite),
    )?;
    Ok(Some(OpenCall::Run(OpenRun {
        script,
        answers,
        certificate,
        budget,
    })))
}

/// Opens the files of a confirmation.
fn open_confirm<'a, R: Files>(
    rt: &R,
    files: RunFiles<'a>,
) -> Result<OpenCall<'a, R::File, R::File>, OpenFault<'a>>
    ensures { IfOk result (IsOpenedFor R.File.remaining R.File.contents (confirm_request files.entry)) }
{
    let script = open(
        rt,
        files.script,
        ProgramFault::Confirm(ConfirmFault::ScriptRead),
    )?;
    let answers = open(
        rt,
        files.answers,
        ProgramFault::Confirm(ConfirmFault::AnswersRead),
    )?;
    let certificate = open(
        rt,
        files.certificate,
        ProgramFault::Confirm(ConfirmFault::CertificateRead),
    )?;
    Ok(OpenCall::Confirm(OpenTexts {
        script,
        answers,
        certificate,
    }))
}

/// Opens a certificate and creates its hint text. Returns `None` if they are the same file.
fn open_hints<'a, R: Files>(
    rt: &R,
    certificate: &'a str,
    hints: &'a str,
) -> Result<Option<OpenCall<'a, R::File, R::File>>, OpenFault<'a>>
    ensures { IfOk result (λ made. MatchOption made (WritesFiles (Hints certificate.now hints.now))
        (IsOpenedFor R.File.remaining R.File.contents (Hints certificate.now hints.now))) }
{
    if is_one_file(rt, certificate, hints) {
        return Ok(None);
    }
    let certificate = open(rt, certificate, ProgramFault::Hints(HintCallFault::Read))?;
    let hints = make(rt, hints, ProgramFault::Hints(HintCallFault::Write))?;
    Ok(Some(OpenCall::Hints(OpenHints { certificate, hints })))
}

/// Opens a hint text.
fn open_check<'a, R: Files>(
    rt: &R,
    hints: &'a str,
) -> Result<OpenCall<'a, R::File, R::File>, OpenFault<'a>>
    ensures { IfOk result (IsOpenedFor R.File.remaining R.File.contents (Check hints.now)) }
{
    let hints = open(rt, hints, ProgramFault::Hints(HintCallFault::Read))?;
    Ok(OpenCall::Check(hints))
}

/// Opens the files of a call, and does nothing else. Returns `None` if an output is another file of the call. If the
/// call names no files, this doesn't fail.
pub(super) fn open_call<'a, R: Files>(
    rt: &R,
    call: &Call<'a>,
) -> Result<Option<OpenCall<'a, R::File, R::File>>, OpenFault<'a>>
    ensures { MatchResult result (λ made. MatchOption made (WritesFiles (request_of call.now))
        (IsOpenedFor R.File.remaining R.File.contents (request_of call.now))) (λ _. NamesFiles (request_of call.now)) }
{
    match *call {
        Call::Standard => Ok(Some(OpenCall::Standard)),
        Call::Run { files, budget } => open_run(rt, files, budget),
        Call::Confirm { files } => match open_confirm(rt, files) {
            Ok(opened) => Ok(Some(opened)),
            Err(fault) => Err(fault),
        },
        Call::Hints { certificate, hints } => open_hints(rt, certificate, hints),
        Call::Check { hints } => match open_check(rt, hints) {
            Ok(opened) => Ok(Some(opened)),
            Err(fault) => Err(fault),
        },
    }
}
