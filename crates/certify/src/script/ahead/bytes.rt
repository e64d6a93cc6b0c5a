//! Reads chunks, and consumes their bytes.
ghost use Rattle.std.specs.Prelude.{◌≡◌, ◌+◌, ◌≤◌, ◌<◌, [], length, drop, IfOk, OnOk};
ghost use Rattle.sat_base.specs.dimacs.Parsing.{LastReadGaveBytes};
ghost use Rattle.certify.specs.script.LastPiece.{RefillsAhead, source_in, waiting_bytes};

use super::{LastPiece, PIECE};
use sat_base::{CountedRead, ReadError};

/// The largest number of reads from one reader.
const MAX_READS: u64 = 1 << 48;

impl LastPiece {
    /// Returns an empty buffer. No reads have been counted yet.
    pub fn new() -> LastPiece
        ensures waiting { waiting_bytes result ≡ [] }
        ensures reads { result.reads ≡ 0 }
    {
        LastPiece {
            piece: [0; PIECE],
            at: 0,
            end: 0,
            reads: 0,
        }
    }

    /// Returns the bytes that have not been consumed yet.
    pub fn waiting(&self) -> &[u8]
        ensures { result.now ≡ waiting_bytes self.now }
    {
        &self.piece[self.at..self.end]
    }

    /// Consumes the first `count` bytes that have not been consumed yet. There must be at least that many.
    pub fn consume(&mut self, count: usize)
        requires { count ≤ length (waiting_bytes self.old) }
        ensures waiting { waiting_bytes self.new ≡ drop count (waiting_bytes self.old) }
        ensures reads { self.new.reads ≡ self.old.reads }
    {
        self.at += count;
    }

    /// Reads the next chunk. The last chunk must have been consumed completely. Returns the length of the new chunk,
    /// which is 0 only if the reader is at its end.
    pub fn refill<R: CountedRead>(&mut self, reader: &mut R) -> Result<usize, ReadError>
        requires { waiting_bytes self.old ≡ [] }
        ensures bytes { RefillsAhead result (source_in R.seen reader.old self.old) (source_in R.seen reader.new self.new) }
        ensures reads { OnOk result (self.new.reads ≡ self.old.reads + 1) }
        ensures last { IfOk result (λ n. 0 < n → LastReadGaveBytes (R.seen reader.old) (R.seen reader.new)) }
    {
        if self.reads >= MAX_READS {
            return Err(ReadError::Failed);
        }
        self.reads += 1;
        self.at = 0;
        self.end = 0;
        match reader.read_counted(&mut self.piece) {
            Ok(count) => {
                self.end = count;
                Ok(count)
            }
            Err(_) => Err(ReadError::Failed),
        }
    }
}
