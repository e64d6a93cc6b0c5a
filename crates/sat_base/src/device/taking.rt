//! Reads bytes ahead, and consumes them. This is kept apart from `Ahead` itself, since the contracts are about readers.
ghost use Rattle.std.specs.Prelude.{◌≡◌, ◌+◌, ◌<◌, ◌≤◌, ◌∷◌, take, drop, OnOk, OnErr};
ghost use Rattle.sat_base.specs.device.Device.{max_reads, max_read_size};
ghost use Rattle.sat_base.specs.device.ReadRoom.{unread};
ghost use Rattle.sat_base.specs.device.Reading.{ReadsAheadUnderAnyBorrows};
ghost use Rattle.sat_base.specs.device.Waiting.{waiting};

use crate::device::ahead::{Ahead, PIECE};
use crate::device::whole::MAX_READS;
use crate::{CountedRead, StepError};

impl Ahead {
    /// Returns an empty buffer. No reads have been counted yet.
    pub(crate) fn new() -> Ahead
        ensures end { result.end ≡ 0 }
        ensures reads { result.reads ≡ 0 }
    {
        Ahead {
            piece: [0; PIECE],
            at: 0,
            end: 0,
            reads: 0,
        }
    }

    /// Returns the number of bytes that were read and not yet consumed.
    #[inline(always)]
    pub(crate) fn unread(&self) -> usize
        ensures { result ≡ unread self.now }
    {
        self.end.saturating_sub(self.at)
    }

    /// Consumes the next byte that was read and returns it. There must be one.
    #[inline(always)]
    pub(crate) fn take_byte(&mut self) -> u8
        requires { self.old.at < self.old.end }
        ensures byte { waiting self.old ≡ result ∷ waiting self.new }
        ensures reads { self.new.reads ≡ self.old.reads }
        ensures left { unread self.new + 1 ≡ unread self.old }
    {
        let byte = self.piece[self.at];
        self.at += 1;
        byte
    }

    /// Returns the byte at position `at` in the buffer, without consuming it.
    #[inline(always)]
    pub(crate) fn byte_at(&self, at: usize) -> u8
        requires { at < self.now.end }
        ensures { drop at (take self.now.end self.now.piece)
            ≡ result ∷ drop (at + 1) (take self.now.end self.now.piece) }
    {
        self.piece[at]
    }

    /// Reads the next chunk, of at most 4,096 bytes. The last chunk must have been consumed completely.
    fn refill_whole<R: CountedRead>(&mut self, reader: &mut R) -> Result<(), StepError>
        requires over { self.old.end ≤ self.old.at }
        requires reads { self.old.reads < max_reads }
        ensures bytes { ReadsAheadUnderAnyBorrows R.seen result reader.old self.old reader.new self.new }
        ensures at { OnOk result (self.new.at ≡ 0) }
        ensures left { unread self.new ≤ max_read_size }
        ensures none { OnErr result (unread self.new ≡ 0) }
    {
        self.reads += 1;
        self.at = 0;
        self.end = 0;
        match reader.read_counted(&mut self.piece) {
            Ok(count) => {
                self.end = count;
                Ok(())
            }
            Err(_) => Err(StepError::Read),
        }
    }

    /// Reads a single byte. The last chunk must have been consumed completely.
    fn refill_one<R: CountedRead>(&mut self, reader: &mut R) -> Result<(), StepError>
        requires over { self.old.end ≤ self.old.at }
        requires reads { self.old.reads < max_reads }
        ensures bytes { ReadsAheadUnderAnyBorrows R.seen result reader.old self.old reader.new self.new }
        ensures at { OnOk result (self.new.at ≡ 0) }
        ensures left { unread self.new ≤ 1 }
        ensures none { OnErr result (unread self.new ≡ 0) }
    {
        self.reads += 1;
        self.at = 0;
        self.end = 0;
        let mut first = [0; 1];
        match reader.read_counted(&mut first) {
            Ok(count) => {
                self.piece[0] = first[0];
                self.end = count;
                Ok(())
            }
            Err(_) => Err(StepError::Read),
        }
    }

    /// Reads the next chunk, of at most `room` bytes: 4,096, or a single byte if `room` is less. The last chunk must
    /// have been consumed completely.
    pub(crate) fn refill<R: CountedRead>(
        &mut self,
        reader: &mut R,
        room: usize,
    ) -> Result<(), StepError>
        requires over { self.old.end ≤ self.old.at }
        requires some { 0 < room }
        ensures bytes { ReadsAheadUnderAnyBorrows R.seen result reader.old self.old reader.new self.new }
        ensures at { OnOk result (self.new.at ≡ 0) }
        ensures left { unread self.new ≤ room }
        ensures none { OnErr result (unread self.new ≡ 0) }
    {
        if self.reads >= MAX_READS {
            return Err(StepError::Read);
        }
        if room < PIECE {
            return self.refill_one(reader);
        }
        self.refill_whole(reader)
    }
}
