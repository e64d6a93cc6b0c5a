//! A buffered reader.
ghost use Rattle.std.specs.Prelude.{◌≡◌, ◌<◌, ◌≤◌};
ghost use Rattle.sat_base.specs.device.ReadRoom.{HasReadRoom, ReadsWithinRoom};
ghost use Rattle.sat_base.specs.device.Reading.{source_of, ConsumesNextByte, ConsumesByteWithinText};

use crate::device::ahead::Ahead;
use crate::{CountedRead, StepError};

/// A reader, from which at most 4,096 bytes are read at a time, and the last chunk that it returned. Both are borrowed.
pub(crate) struct Input<'r, R> {
    pub(crate) reader: &'r mut R,
    pub(crate) ahead: &'r mut Ahead,
    /// The largest number of bytes that the next read may return.
    pub(crate) room: usize,
}

impl<R> Drop for Input<'_, R> {
    /// Changes neither the reader nor the bytes that were read ahead.
    fn drop(self)
        ensures reader { self.exit.0.now ≡ self.entry.reader.now }
        ensures ahead { self.exit.1.0.now ≡ self.entry.ahead.now }
    {
        let Input {
            reader: _reader,
            ahead: _ahead,
            room: _room,
        } = self;
    }
}

// Many bytes are read by `next_byte` or `byte_within`, and functions that return a `Result` are inlined only with
// the attribute.
impl<'r, R: CountedRead> Input<'r, R> {
    /// Returns an input that borrows both a reader and the bytes that were read ahead from it. It reads at most `room`
    /// bytes at a time.
    pub(crate) fn new(reader: &'r mut R, ahead: &'r mut Ahead, room: usize) -> Input<'r, R>
        ensures reader { result.reader.ghost_name ≡ reader.entry.ghost_name }
        ensures ahead { result.ahead.ghost_name ≡ ahead.entry.ghost_name }
        ensures reads { result.reader.now ≡ reader.old }
        ensures waits { result.ahead.now ≡ ahead.old }
        ensures room { result.room ≡ room }
    {
        Input {
            reader,
            ahead,
            room,
        }
    }

    /// Consumes the next byte and returns it, or returns `None` at the end of the text.
    #[inline(always)]
    pub(crate) fn next_byte(&mut self) -> Result<Option<u8>, StepError>
        requires { HasReadRoom self.old }
        ensures reads { ConsumesNextByte result (source_of R.seen self.old) (source_of R.seen self.new) }
        ensures within { ReadsWithinRoom self.old self.new }
    {
        if self.ahead.at < self.ahead.end {
            return Ok(Some(self.ahead.take_byte()));
        }
        self.first_byte()
    }

    /// Reads the next chunk. Consumes its first byte and returns it, or returns `None` at the end of the text.
    fn first_byte(&mut self) -> Result<Option<u8>, StepError>
        requires over { self.old.ahead.now.end ≤ self.old.ahead.now.at }
        requires some { 0 < self.old.room }
        ensures reads { ConsumesNextByte result (source_of R.seen self.old) (source_of R.seen self.new) }
        ensures within { ReadsWithinRoom self.old self.new }
    {
        self.ahead.refill(self.reader, self.room)?;
        if self.ahead.end == 0 {
            return Ok(None);
        }
        Ok(Some(self.ahead.take_byte()))
    }

    /// Consumes the next byte and returns it. The end of the text is an error.
    #[inline(always)]
    pub(crate) fn byte_within(&mut self) -> Result<u8, StepError>
        requires { HasReadRoom self.old }
        ensures reads { ConsumesByteWithinText result (source_of R.seen self.old) (source_of R.seen self.new) }
        ensures within { ReadsWithinRoom self.old self.new }
    {
        match self.next_byte()? {
            Some(byte) => Ok(byte),
            None => Err(StepError::Cut),
        }
    }
}
