//! Where the text of a proof is written.
ghost use Rattle.std.specs.Prelude.{◌≡◌, ◌∷◌, true, false};
ghost use Rattle.sat_base.specs.device.Sink.{FlushesSink, empty_sink};
ghost use Rattle.sat_base.specs.steps.StepViews.{step_of};
ghost use Rattle.sat_solver.specs.proof.Counting.{width_change};
ghost use Rattle.sat_solver.specs.proof.OutputView.{is_drat_format, output_format, output_sink, WritesLines};
ghost use Rattle.sat_solver.specs.proof.OutputView.{WritesToSink};
ghost use Rattle.sat_solver.specs.proof.OutputView.{SinkReceivesSteps};

use crate::proof::drat::put_step;
use crate::proof::format::ProofFormat;
use crate::proof::native::{try_write_at, write_at};
use sat_base::{CountedWrite, HashBits, ProofStep, StepWriter};
use std::alloc::AllocError;
use std::io;
use thiserror::Error;

/// Why the text of a step was not written.
#[derive(Debug, Drop, Error)]
pub enum OutputError {
    /// A call to the writer failed.
    #[error("a call to the writer failed")]
    Write(io::Error),
    /// Memory ran out, and nothing of the step's text was written.
    #[error("out of memory")]
    OutOfMemory,
}

impl From<io::Error> for OutputError {
    ghost use Rattle.std.specs.Prelude.{◌≡◌};
    ghost use Rattle.sat_solver.specs.declared.proof.output.OutputError.TheVariants.{Write};

    ghost from_gives = { λ c e. e ≡ Write c };

    fn from(cause: io::Error) -> OutputError {
        OutputError::Write(cause)
    }
}

impl From<AllocError> for OutputError {
    ghost use Rattle.std.specs.Prelude.{◌≡◌};
    ghost use Rattle.sat_solver.specs.declared.proof.output.OutputError.TheVariants.{OutOfMemory};

    ghost from_gives = { λ _ e. e ≡ OutOfMemory };

    fn from(_e: AllocError) -> OutputError {
        OutputError::OutOfMemory
    }
}

/// A writer of DRAT lines. All lines of a step are written in one call.
#[derive(Drop)]
pub struct DratWriter<W> {
    pub writer: W,
    pub binary: bool,
}

impl<W: CountedWrite> DratWriter<W> {
    /// Writes the lines of a step, which are assembled in `text`.
    fn write(&mut self, text: &mut Vec<u8>, step: &ProofStep<'_>) -> Result<(), OutputError>
        ensures binary { self.new.binary ≡ self.old.binary }
        ensures puts { WritesLines self.old.binary result (step_of step.now) (W.seen self.old.writer)
            (W.seen self.new.writer) }
    {
        text.clear();
        put_step(text, self.binary, step)?;
        self.writer.write_all_counted(text)?;
        Ok(())
    }
}

/// A writer of steps, or of DRAT lines.
#[derive(Drop)]
pub enum ProofOutput<W> {
    Steps(StepWriter<W>),
    Lines(DratWriter<W>),
}

impl<W: CountedWrite> ProofOutput<W> {
    /// Creates an output that has written nothing. Never allocates.
    pub fn new(format: ProofFormat, writer: W) -> ProofOutput<W>
        ensures format { output_format result ≡ format }
        ensures sink { output_sink W.seen result ≡ empty_sink (W.seen writer) }
    {
        match format {
            ProofFormat::Varisat => ProofOutput::Steps(StepWriter::new(writer)),
            ProofFormat::Drat => ProofOutput::Lines(DratWriter {
                writer,
                binary: false,
            }),
            ProofFormat::BinaryDrat => ProofOutput::Lines(DratWriter {
                writer,
                binary: true,
            }),
        }
    }

    /// Returns `true` if DRAT lines are written.
    pub fn is_drat(&self) -> bool
        ensures { result ≡ is_drat_format (output_format self.now) }
    {
        match self {
            ProofOutput::Steps(_) => false,
            ProofOutput::Lines(_) => true,
        }
    }

    /// Writes a step, whose hashes are shortened to its width. `widths` contains the width of the previous step and
    /// that of this step. DRAT lines are assembled in `text`.
    #[inline(never)]
    pub fn write(
        &mut self,
        text: &mut Vec<u8>,
        widths: (HashBits, HashBits),
        step: &ProofStep<'_>,
    ) -> Result<(), OutputError>
        ensures format { output_format self.new ≡ output_format self.old }
        ensures puts { WritesToSink (output_format self.old) result (step_of step.now ∷ width_change widths.0 widths.1)
            (output_sink W.seen self.old) (output_sink W.seen self.new) }
    {
        match self {
            ProofOutput::Steps(writer) => write_at(writer, widths, step),
            ProofOutput::Lines(lines) => lines.write(text, step),
        }
    }

    /// Buffers the bytes of a step if it has the same width as the previous step and they are certain to fit. Returns
    /// `true` if the bytes were buffered; DRAT lines never are. Never calls the writer.
    #[inline(always)]
    pub fn try_write(&mut self, widths: (HashBits, HashBits), step: &ProofStep<'_>) -> bool
        ensures format { output_format self.new ≡ output_format self.old }
        ensures sends { result ≡ true → SinkReceivesSteps (output_format self.old)
            (step_of step.now ∷ width_change widths.0 widths.1) (output_sink W.seen self.old) (output_sink W.seen self.new) }
        ensures stays { result ≡ false → self.new ≡ self.old }
    {
        match self {
            ProofOutput::Steps(writer) => try_write_at(writer, widths, step),
            ProofOutput::Lines(_) => false,
        }
    }

    /// Writes pending bytes, and flushes the writer.
    pub fn flush(&mut self) -> io::Result<()>
        ensures format { output_format self.new ≡ output_format self.old }
        ensures flushes { FlushesSink result (output_sink W.seen self.old) (output_sink W.seen self.new) }
    {
        match self {
            ProofOutput::Steps(writer) => writer.flush(),
            ProofOutput::Lines(lines) => lines.writer.flush_counted(),
        }
    }

    /// Returns the writer. Its pending bytes are lost.
    pub fn into_writer(self) -> W
        ensures { W.seen result ≡ (output_sink W.seen self).writer }
    {
        match self {
            ProofOutput::Steps(writer) => writer.into_writer(),
            ProofOutput::Lines(lines) => {
                let DratWriter {
                    writer,
                    binary: _binary,
                } = lines;
                writer
            }
        }
    }
}
