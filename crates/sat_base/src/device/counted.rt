//! Readers and writers whose calls are counted.
ghost use Rattle.std.specs.Prelude.{◌≡◌, ℕ, List, Option, refl};
ghost use Rattle.std.specs.Io.{ReadsAtMost, WritesAtMost};
ghost use Rattle.std.specs.Io.KnownBytes.{ReadConsumes, WriteAppends, Keeps};
ghost use Rattle.sat_base.specs.device.Device.{ReadsOnce, WritesOnce, FlushesOnce};
ghost use Rattle.sat_base.specs.device.Counting.{device_of, reader_of, writer_of, new_reader, new_writer};

use crate::device::tally::Tally;
use crate::device::{CountedRead, CountedWrite};
use std::io;
use std::io::{Read, Write};

/// A wrapper around any reader or writer. It counts the calls and the failed calls, and records the bytes read and
/// written; only contracts see these.
#[derive(Drop)]
pub struct Counted<D> {
    device: D,
    tally: Tally,
}

impl<D> Counted<D> {
    /// Returns a wrapper of a device. No calls have been counted yet.
    pub fn new(device: D) -> Counted<D>
        ensures device { device_of result ≡ device }
        ensures reader { (remaining : D → Option (List ℕ))
            → reader_of remaining result ≡ new_reader (remaining device) }
        ensures writer { (contents : D → Option (List ℕ)) → writer_of contents result ≡ new_writer (contents device) }
    {
        Counted {
            device,
            tally: Tally::new(),
        }
    }

    /// Returns the device.
    pub fn into_inner(self) -> D
        ensures { result ≡ device_of self }
    {
        let Counted {
            device,
            tally: _tally,
        } = self;
        device
    }
}

impl<D: Read> Read for Counted<D> {
    ghost remaining = { λ c. D.remaining (device_of c) };

    fn read(&mut self, buf: &mut [u8]) -> io::Result<usize>
        ensures bound { ReadsAtMost result buf.new }
        ensures bytes { ReadConsumes (D.remaining (device_of self.old)) (D.remaining (device_of self.new)) result
            buf.new }
        ensures once { ReadsOnce result buf.new (reader_of D.remaining self.old) (reader_of D.remaining self.new) }
    {
        self.read_counted(buf)
    }
}

impl<D: Read> CountedRead for Counted<D> {
    ghost seen = { λ c. reader_of D.remaining c };

    ghost known_bytes = { λ c. refl };

    fn read_counted(&mut self, buf: &mut [u8]) -> io::Result<usize> {
        let result = self.device.read(buf);
        self.tally = match &result {
            Ok(0) if !buf.is_empty() => self.tally.and_end(),
            Ok(count) => self.tally.and_read(&buf[..*count]),
            Err(_) => self.tally.and_failure(),
        };
        result
    }
}

impl<D: Write> Write for Counted<D> {
    ghost contents = { λ c. D.contents (device_of c) };

    fn write(&mut self, piece: &[u8]) -> io::Result<usize>
        ensures bound { WritesAtMost result piece.now }
        ensures bytes { WriteAppends (D.contents (device_of self.old)) (D.contents (device_of self.new)) result
            piece.now }
        ensures once { WritesOnce result piece.now (writer_of D.contents self.old) (writer_of D.contents self.new) }
    {
        self.write_counted(piece)
    }

    fn flush(&mut self) -> io::Result<()>
        ensures bytes { Keeps (D.contents (device_of self.old)) (D.contents (device_of self.new)) }
        ensures once { FlushesOnce result (writer_of D.contents self.old) (writer_of D.contents self.new) }
    {
        self.flush_counted()
    }
}

impl<D: Write> CountedWrite for Counted<D> {
    ghost seen = { λ c. writer_of D.contents c };

    ghost known_bytes = { λ c. refl };

    fn write_counted(&mut self, piece: &[u8]) -> io::Result<usize> {
        let result = self.device.write(piece);
        self.tally = match &result {
            Ok(0) if !piece.is_empty() => self.tally.and_failure(),
            Ok(count) => self.tally.and_write(&piece[..*count]),
            Err(_) => self.tally.and_failure(),
        };
        result
    }

    fn flush_counted(&mut self) -> io::Result<()> {
        let result = self.device.flush();
        self.tally = if result.is_ok() {
            self.tally.and_flush()
        } else {
            self.tally.and_failure()
        };
        result
    }
}
