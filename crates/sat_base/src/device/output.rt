//! A buffered writer.
ghost use Rattle.std.specs.Prelude.{◌≡◌, ◌<◌, ◌∷◌, [], is_ok};
ghost use Rattle.sat_base.specs.device.Sink.{SendsText, FlushesSink, sink_of, empty_sink};

use crate::CountedWrite;
use crate::device::kept_error::{WriteFailed, keep_error};
use crate::device::room::Room;
use std::io;

/// A writer with a buffer. Bytes in the buffer are pending: they are written out when the buffer has no room for more,
/// or on request.
#[derive(Drop)]
pub(crate) struct Output<W, P> {
    pub(crate) writer: W,
    pub(crate) pending: P,
    /// The error from a failed call, until `give_error` returns it.
    pub(crate) error: Option<io::Error>,
}

// Every byte is passed to `put`, and functions that return a `Result` are inlined only with the attribute.
impl<W: CountedWrite, P: Room> Output<W, P> {
    /// Returns an output without pending bytes.
    pub(crate) fn new(writer: W, pending: P) -> Output<W, P>
        requires { P.waiting pending ≡ [] }
        ensures { sink_of W.seen P.waiting result ≡ empty_sink (W.seen writer) }
    {
        Output {
            writer,
            pending,
            error: None,
        }
    }

    /// Writes out the pending bytes.
    fn write_out(&mut self) -> Result<(), WriteFailed>
        ensures sends { SendsText [] result (sink_of W.seen P.waiting self.old) (sink_of W.seen P.waiting self.new) }
        ensures none { P.waiting self.new.pending ≡ [] }
        ensures size { P.size self.new.pending ≡ P.size self.old.pending }
    {
        let result = self.writer.write_all_counted(self.pending.as_slice());
        self.pending.clear();
        keep_error(&mut self.error, result)
    }

    /// Writes a byte to the buffer. If the buffer is full, writes out the pending bytes first.
    #[inline(always)]
    pub(crate) fn put(&mut self, byte: u8) -> Result<(), WriteFailed>
        ensures { SendsText (byte ∷ []) result (sink_of W.seen P.waiting self.old) (sink_of W.seen P.waiting self.new) }
    {
        if self.pending.free() == 0 {
            return self.write_out_and_put(byte);
        }
        self.pending.push(byte);
        Ok(())
    }

    /// Writes out the pending bytes, and then writes a byte to the buffer.
    fn write_out_and_put(&mut self, byte: u8) -> Result<(), WriteFailed>
        requires { 0 < P.size self.old.pending }
        ensures { SendsText (byte ∷ []) result (sink_of W.seen P.waiting self.old) (sink_of W.seen P.waiting self.new) }
    {
        self.write_out()?;
        self.pending.push(byte);
        Ok(())
    }

    /// Writes bytes to the buffer. If the buffer has no room for them, writes out the pending bytes first. Bytes that
    /// don't fit into the empty buffer are written directly to the writer.
    pub(crate) fn put_all(&mut self, bytes: &[u8]) -> Result<(), WriteFailed>
        ensures { SendsText bytes.now result (sink_of W.seen P.waiting self.old) (sink_of W.seen P.waiting self.new) }
    {
        if bytes.len() <= self.pending.free() {
            self.pending.push_all(bytes);
            return Ok(());
        }
        self.write_out()?;
        self.put_first(bytes)
    }

    /// Writes bytes to the buffer, which must be empty, or directly to the writer if they don't fit into the buffer.
    fn put_first(&mut self, bytes: &[u8]) -> Result<(), WriteFailed>
        requires { P.waiting self.old.pending ≡ [] }
        ensures { SendsText bytes.now result (sink_of W.seen P.waiting self.old) (sink_of W.seen P.waiting self.new) }
    {
        if bytes.len() <= self.pending.free() {
            self.pending.push_all(bytes);
            return Ok(());
        }
        let result = self.writer.write_all_counted(bytes);
        keep_error(&mut self.error, result)
    }

    /// Writes out the pending bytes, if there are any.
    pub(crate) fn write_rest(&mut self) -> Result<(), WriteFailed>
        ensures sends { SendsText [] result (sink_of W.seen P.waiting self.old) (sink_of W.seen P.waiting self.new) }
        ensures none { P.waiting self.new.pending ≡ [] }
        ensures idle { P.waiting self.old.pending ≡ [] → W.seen self.new.writer ≡ W.seen self.old.writer }
    {
        if self.pending.as_slice().is_empty() {
            return Ok(());
        }
        self.write_out()
    }

    /// Writes out the pending bytes, and flushes the writer.
    pub(crate) fn flush(&mut self) -> Result<(), WriteFailed>
        ensures { FlushesSink result (sink_of W.seen P.waiting self.old) (sink_of W.seen P.waiting self.new) }
    {
        self.write_rest()?;
        let result = self.writer.flush_counted();
        keep_error(&mut self.error, result)
    }

    /// Returns the result with the stored error instead of the marker `WriteFailed`. If no error was stored, which the
    /// contracts don't rule out, the error is `ErrorKind::Other`.
    #[inline(never)] // callers reserve no space for the error on the path without one
    pub(crate) fn give_error(&mut self, answer: Result<(), WriteFailed>) -> io::Result<()>
        ensures alike { is_ok result ≡ is_ok answer }
        ensures writer { self.new.writer ≡ self.old.writer }
        ensures pending { self.new.pending ≡ self.old.pending }
    {
        match answer {
            Ok(()) => Ok(()),
            Err(_) => match self.error.take() {
                Some(error) => Err(error),
                None => Err(io::Error::from(io::ErrorKind::Other)),
            },
        }
    }

    /// Returns the writer. Pending bytes are lost.
    pub(crate) fn into_writer(self) -> W
        ensures { result ≡ self.writer }
    {
        let Output {
            writer,
            pending: _pending,
            error: _error,
        } = self;
        writer
    }
}
