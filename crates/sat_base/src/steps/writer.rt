//! Writes proof steps.
ghost use Rattle.std.specs.Prelude.{◌≡◌, [], OnOk, true, false};
ghost use Rattle.sat_base.specs.device.Device.{WritesText};
ghost use Rattle.sat_base.specs.device.Sink.{SendsText, AddsToSink, FlushesSink, empty_sink};
ghost use Rattle.sat_base.specs.steps.StepBytes.{step_bytes};
ghost use Rattle.sat_base.specs.steps.StepText.{SpellsStep};
ghost use Rattle.sat_base.specs.steps.StepViews.{step_of};
ghost use Rattle.sat_base.specs.steps.StepWriting.{steps_sink};

use crate::device::output::Output;
use crate::device::pending::Pending;
use crate::{CountedWrite, ProofStep};
use std::io;

/// The buffer size for writing a proof. A longer buffer takes `run` beyond the stack that Linux maps at the start: the
/// stack could then not grow once memory has run out.
const LONG_PIECE: usize = 8_192;

/// The buffer size for writing a single step.
const SHORT_PIECE: usize = 64;

/// A writer of proof steps. It buffers at most 8,192 pending bytes, so a proof of N bytes takes about N/8,192 writes.
/// The pending bytes are written out when the buffer has no room for more, by `flush`, and by `into_inner`.
#[derive(Drop)]
pub struct StepWriter<W> {
    output: Output<W, Pending<LONG_PIECE>>,
}

impl<W: CountedWrite> StepWriter<W> {
    /// Returns a step writer that writes its bytes to `writer`. Writes nothing yet, and never allocates.
    pub fn new(writer: W) -> StepWriter<W>
        ensures { steps_sink W.seen result ≡ empty_sink (W.seen writer) }
    {
        StepWriter {
            output: Output::new(writer, Pending::new()),
        }
    }

    /// Writes a step. After an error, a prefix of the pending bytes followed by the bytes of the step may have been
    /// written, and no bytes are pending.
    pub fn write(&mut self, step: &ProofStep<'_>) -> io::Result<()>
        ensures sends { SendsText (step_bytes (step_of step.now)) result (steps_sink W.seen self.old)
            (steps_sink W.seen self.new) }
        ensures spells { OnOk result (SpellsStep (step_of step.now) (step_bytes (step_of step.now))) }
    {
        let put = self.output.put_step(step);
        if put.is_ok() {
            return Ok(());
        }
        self.output.give_error(put)
    }

    /// Writes a step if its bytes certainly fit into the buffer. Returns whether the step was written. Does not call
    /// the underlying writer.
    #[inline(always)] // so that a caller's step needs no space in memory
    pub fn try_write(&mut self, step: &ProofStep<'_>) -> bool
        ensures sends { result ≡ true → AddsToSink (steps_sink W.seen self.old) (steps_sink W.seen self.new)
            (step_bytes (step_of step.now)) }
        ensures spells { result ≡ true → SpellsStep (step_of step.now) (step_bytes (step_of step.now)) }
        ensures stays { result ≡ false → self.new ≡ self.old }
    {
        self.output.try_step(step)
    }

    /// Writes out the pending bytes, and flushes the underlying writer.
    pub fn flush(&mut self) -> io::Result<()>
        ensures { FlushesSink result (steps_sink W.seen self.old) (steps_sink W.seen self.new) }
    {
        let flushed = self.output.flush();
        self.output.give_error(flushed)
    }

    /// Writes out the pending bytes, if there are any. Returns the underlying writer, and the result of writing.
    pub fn into_inner(self) -> (W, io::Result<()>)
        ensures puts { WritesText (steps_sink W.seen self).waiting result.1 (steps_sink W.seen self).writer
            (W.seen result.0) }
        ensures idle { (steps_sink W.seen self).waiting ≡ [] → W.seen result.0 ≡ (steps_sink W.seen self).writer }
    {
        let StepWriter { mut output } = self;
        let rest = output.write_rest();
        let result = output.give_error(rest);
        (output.into_writer(), result)
    }

    /// Returns the underlying writer. Pending bytes are lost.
    pub fn into_writer(self) -> W
        ensures { W.seen result ≡ (steps_sink W.seen self).writer }
    {
        let StepWriter { output } = self;
        output.into_writer()
    }
}

/// Writes the bytes of a step in pieces of at most 64 bytes, so that most steps take a single write. Never allocates.
/// After an error, a prefix of the bytes may have been written.
pub fn write_step<W: CountedWrite>(writer: &mut W, step: &ProofStep<'_>) -> io::Result<()>
    ensures puts { WritesText (step_bytes (step_of step.now)) result (W.seen writer.old) (W.seen writer.new) }
    ensures spells { OnOk result (SpellsStep (step_of step.now) (step_bytes (step_of step.now))) }
{
    let mut output: Output<&mut W, Pending<SHORT_PIECE>> = Output::new(writer, Pending::new());
    let written = output.write_step(step);
    let result = output.give_error(written);
    let _writer = output.into_writer();
    result
}
