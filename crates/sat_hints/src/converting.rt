//! Writing the hint text of a certificate.
ghost use Rattle.std.specs.Prelude.{◌≡◌, [], false};
ghost use Rattle.std.specs.Option.{option_map};
ghost use Rattle.sat_checker.specs.CheckerView.{kernel_of, view_of};
ghost use Rattle.sat_checker.specs.KernelView.{kernel_has_failed, KernelHasNoPendingConflict, KernelHasAccepted};
ghost use Rattle.sat_checker.specs.listeners.AnnouncementView.{announcement_of};
ghost use Rattle.sat_checker.specs.listeners.ProcessingView.{listeners_of};
ghost use Rattle.sat_hints.specs.Conversion.{announced_line};
ghost use Rattle.sat_hints.specs.Converts.{Converts};
ghost use Rattle.sat_hints.specs.inner.LineReading.{line_of_view};
ghost use Rattle.sat_hints.specs.inner.LineWriting.{outlet, PutsText};
ghost use Rattle.sat_hints.specs.inner.LinesWritten.{hint_error_of, SendsHintText};
ghost use Rattle.sat_hints.specs.inner.AnnouncedLines.{text_if, PutsAnnouncedLine};

use crate::error::HintError;
use crate::line::HintLine;
use crate::line_writer::LineWriter;
use sat_base::{CountedRead, CountedWrite};
use sat_checker::{CheckedProofStep, Checker, CheckerData, CheckerError, ProofProcessor};
use std::alloc::Global;

/// Returns the line for an announcement, if there is one. Only new clauses, removals of clauses, failed cores and
/// deletions of variables have lines.
fn announced_line<'a>(step: &CheckedProofStep<'a>) -> Option<HintLine<'a>>
    ensures { option_map line_of_view result ≡ announced_line (announcement_of step.now) }
{
    match step {
        CheckedProofStep::AddClause { id, clause } => Some(HintLine::Input { id: *id, clause }),
        CheckedProofStep::AtClause {
            id,
            redundant: _,
            clause,
            propagations,
        } => Some(HintLine::Derived {
            id: *id,
            clause,
            ids: propagations,
        }),
        CheckedProofStep::DeleteClause { id, clause: _ } => Some(HintLine::Removed { id: *id }),
        CheckedProofStep::DeleteAtClause {
            id,
            keep_as_redundant,
            clause: _,
            propagations: _,
        } => {
            if *keep_as_redundant {
                None
            } else {
                Some(HintLine::Removed { id: *id })
            }
        }
        CheckedProofStep::FailedAssumptions {
            failed_core,
            propagations,
        } => Some(HintLine::Core {
            core: failed_core,
            ids: propagations,
        }),
        CheckedProofStep::DeleteVar { var } => Some(HintLine::Fresh { var: *var }),
        CheckedProofStep::UserVar { .. } => None,
        CheckedProofStep::DuplicatedClause { .. } => None,
        CheckedProofStep::TautologicalClause { .. } => None,
        CheckedProofStep::MakeIrredundant { .. } => None,
        CheckedProofStep::DeleteRatClause { .. } => None,
        CheckedProofStep::Model { .. } => None,
        CheckedProofStep::Assumptions { .. } => None,
    }
}

impl<W: CountedWrite> LineWriter<W> {
    /// Appends the line for an announcement, if there is one.
    fn put_announced(&mut self, step: &CheckedProofStep<'_>)
        ensures { PutsText (text_if (announced_line (announcement_of step.now))) (outlet W.seen self.old)
            (outlet W.seen self.new) }
    {
        match announced_line(step) {
            Some(line) => self.put_line(&line),
            None => {}
        }
    }
}

impl<W: CountedWrite + Drop> ProofProcessor for LineWriter<W> {
    ghost takes = { PutsAnnouncedLine W.seen };

    fn process_step(
        &mut self,
        step: &CheckedProofStep<'_>,
        _names: CheckerData<'_>,
    ) -> anyhow::Result<()> {
        self.put_announced(step);
        if self.has_failed() {
            return Err(anyhow::Error::msg("a write failed"));
        }
        Ok(())
    }
}

/// Returns the `HintError` for an error from a checker whose only listener is the line writer.
fn hint_error(error: CheckerError) -> HintError
    ensures { result ≡ hint_error_of error }
{
    match error {
        CheckerError::IoError => HintError::Read,
        CheckerError::OutOfMemory => HintError::OutOfMemory,
        CheckerError::ProofProcessorError { cause: _ } => HintError::Write,
        CheckerError::ProofIncomplete => HintError::Refused(CheckerError::ProofIncomplete),
        CheckerError::ParseError => HintError::Refused(CheckerError::ParseError),
        CheckerError::CheckFailed => HintError::Refused(CheckerError::CheckFailed),
        CheckerError::CounterEnd => HintError::Refused(CheckerError::CounterEnd),
        CheckerError::HasFailed => HintError::Refused(CheckerError::HasFailed),
    }
}

/// Writes the lines of a certificate, which `checker` checks. Some bytes may still be pending at the end.
fn write_checked<R: CountedRead, W: CountedWrite + Drop>(
    checker: &mut Checker,
    certificate: &mut R,
    lines: &mut LineWriter<W>,
) -> Result<(), HintError>
    requires valid { KernelHasAccepted (kernel_of checker.old) [] }
    requires goes_on { kernel_has_failed (kernel_of checker.old) ≡ false }
    requires settled { KernelHasNoPendingConflict (kernel_of checker.old) }
    requires listeners { listeners_of (view_of checker.old).listeners ≡ record { processors = []; transcripts = [] } }
    requires well { lines.old.failed ≡ false }
    ensures { SendsHintText result (R.seen certificate.old) (R.seen certificate.new) (outlet W.seen lines.old)
        (outlet W.seen lines.new) }
{
    match checker.check_proof_with(certificate, lines) {
        Err(error) => Err(hint_error(error)),
        Ok(()) => Ok(()),
    }
}

/// Writes the lines of a certificate. Some bytes may still be pending at the end.
fn write_lines<R: CountedRead, W: CountedWrite + Drop>(
    alloc: Global,
    certificate: &mut R,
    lines: &mut LineWriter<W>,
) -> Result<(), HintError>
    requires { lines.old.failed ≡ false }
    ensures { SendsHintText result (R.seen certificate.old) (R.seen certificate.new) (outlet W.seen lines.old)
        (outlet W.seen lines.new) }
{
    let mut checker = Checker::new(alloc);
    write_checked(&mut checker, certificate, lines)
}

/// Writes all lines of a certificate, including the last pending bytes. No bytes may be pending beforehand.
fn write_text<R: CountedRead, W: CountedWrite + Drop>(
    alloc: Global,
    certificate: &mut R,
    lines: &mut LineWriter<W>,
) -> Result<(), HintError>
    requires well { lines.old.failed ≡ false }
    requires none { (outlet W.seen lines.old).sink.waiting ≡ [] }
    ensures { Converts result (R.seen certificate.old) (R.seen certificate.new)
        (outlet W.seen lines.old).sink.writer (outlet W.seen lines.new).sink.writer }
{
    match write_lines(alloc, certificate, lines) {
        Err(error) => Err(error),
        Ok(()) => {
            lines.write_out();
            if lines.has_failed() {
                return Err(HintError::Write);
            }
            Ok(())
        }
    }
}

/// Writes the hint text of a certificate, and checks the certificate. Writes in chunks of at most 4,096 bytes. Needs
/// memory for a checker, but none for lines.
pub fn convert<R: CountedRead, W: CountedWrite>(
    alloc: Global,
    certificate: &mut R,
    out: &mut W,
) -> Result<(), HintError>
    ensures { Converts result (R.seen certificate.old) (R.seen certificate.new) (W.seen out.old) (W.seen out.new) }
{
    let mut lines: LineWriter<&mut W> = LineWriter::new(out);
    let result = write_text(alloc, certificate, &mut lines);
    let _out = lines.into_writer();
    result
}
