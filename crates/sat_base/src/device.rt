//! Readers and writers whose contracts describe what was read and written, and how many calls failed.
ghost use Rattle.std.specs.Prelude.{◌≡◌};
ghost use Rattle.std.specs.Io.{ReadsAtMost, WritesAtMost};
ghost use Rattle.sat_base.specs.device.Device.{Reader, Writer, ReadsOnce, WritesOnce, FlushesOnce, WritesText, lent_reader};
ghost use Rattle.sat_base.specs.device.Device.{lent_writer};

pub(crate) mod ahead;
mod counted;
pub(crate) mod input;
pub(crate) mod kept_error;
pub(crate) mod output;
pub(crate) mod pending;
pub(crate) mod room;
mod taking;
mod tally;
pub(crate) mod whole;

pub use self::counted::Counted;
pub use self::whole::{Feed, ReadError, read_into, read_whole};
use std::io;
use std::io::{ErrorKind, Read, Write};

/// A reader whose contracts see the number of reads, the number of failed reads, the bytes that were read, and whether
/// the last read found the end.
pub trait CountedRead: Read {
    ghost seen: { Self → Reader };

    /// Reads once, and returns the number of bytes read. Every `Err` counts as a failed call, even `Interrupted`, and
    /// the call is not repeated.
    fn read_counted(&mut self, buf: &mut [u8]) -> io::Result<usize>
        ensures bound { ReadsAtMost result buf.new }
        ensures once { ReadsOnce result buf.new (seen self.old) (seen self.new) };

    // The bytes still to come are those that the contracts of `Read` describe.
    ghost known_bytes: { (r : Self) → (seen r).to_come ≡ Self.remaining r };
}

/// A writer whose contracts see the number of calls, the number of failed calls, and the bytes received.
pub trait CountedWrite: Write {
    ghost seen: { Self → Writer };

    /// Writes once. The call counts as failed if it returns `Err`, or if it accepts no bytes although `piece` is
    /// not empty.
    fn write_counted(&mut self, piece: &[u8]) -> io::Result<usize>
        ensures bound { WritesAtMost result piece.now }
        ensures once { WritesOnce result piece.now (seen self.old) (seen self.new) };

    /// Flushes once.
    fn flush_counted(&mut self) -> io::Result<()>
        ensures { FlushesOnce result (seen self.old) (seen self.new) };

    /// Writes all of `piece`, in as many calls as are needed, or up to the first call that fails. After a failure, a
    /// prefix of `piece` may have been written.
    fn write_all_counted(&mut self, piece: &[u8]) -> io::Result<()>
        ensures { WritesText piece.now result (seen self.old) (seen self.new) }
    {
        let mut written = 0;
        while written < piece.len() {
            let count = self.write_counted(&piece[written..])?;
            if count == 0 {
                return Err(io::Error::from(ErrorKind::WriteZero));
            }
            written += count;
        }
        Ok(())
    }

    // The bytes that the writer holds are those that the contracts of `Write` describe.
    ghost known_bytes: { (w : Self) → (seen w).contents ≡ Self.contents w };
}

impl<R: CountedRead> CountedRead for &mut R {
    ghost seen = { λ r. lent_reader r.ghost_name (R.seen r.now) };

    ghost known_bytes = { λ r. R.known_bytes r.now };

    fn read_counted(&mut self, buf: &mut [u8]) -> io::Result<usize> {
        CountedRead::read_counted(&mut **self, buf)
    }
}

impl<W: CountedWrite> CountedWrite for &mut W {
    ghost seen = { λ w. lent_writer w.ghost_name (W.seen w.now) };

    ghost known_bytes = { λ w. W.known_bytes w.now };

    fn write_counted(&mut self, piece: &[u8]) -> io::Result<usize> {
        CountedWrite::write_counted(&mut **self, piece)
    }

    fn flush_counted(&mut self) -> io::Result<()> {
        CountedWrite::flush_counted(&mut **self)
    }

    fn write_all_counted(&mut self, piece: &[u8]) -> io::Result<()> {
        CountedWrite::write_all_counted(&mut **self, piece)
    }
}
