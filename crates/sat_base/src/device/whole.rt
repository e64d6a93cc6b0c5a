//! Reads a reader to its end.
ghost use Rattle.std.specs.Prelude.{◌≡◌, ◌+◌, ◌<◌, ◌≤◌, ◌++◌, ℕ, List, [], length, IfOk, IfErr, OnOk, IsErrOf};
ghost use Rattle.std.specs.Io.{ReadsAtMost};
ghost use Rattle.sat_base.specs.device.Device.{max_reads, ReadFails, ReadsOnce, GaveAll, GaveMore};

use crate::CountedRead;
use crate::device::ahead::PIECE;
use std::alloc::{AllocError, Global};
use thiserror::Error;

/// The largest number of reads from one reader.
pub(crate) const MAX_READS: u64 = 1 << 48;

/// Why a reader was not read to its end.
#[derive(Clone, Copy, Debug, Drop, PartialEq, Eq, Error)]
pub enum ReadError {
    /// A read failed, or 2^48 reads did not reach the end.
    #[error("a read failed")]
    Failed,
    #[error("out of memory")]
    OutOfMemory,
}

impl From<AllocError> for ReadError {
    ghost use Rattle.std.specs.Prelude.{◌≡◌};
    ghost use Rattle.sat_base.specs.declared.device.whole.ReadError.TheVariants.{OutOfMemory};

    ghost from_gives = { λ _ e. e ≡ OutOfMemory };

    fn from(_e: AllocError) -> ReadError {
        ReadError::OutOfMemory
    }
}

/// Reads once, and returns the number of bytes read.
fn read_piece<R: CountedRead>(reader: &mut R, room: &mut [u8]) -> Result<usize, ReadError>
    ensures bound { ReadsAtMost result room.new }
    ensures once { ReadsOnce result room.new (R.seen reader.old) (R.seen reader.new) }
    ensures failed { IfErr result (λ e. e ≡ ReadError.Failed) }
{
    match reader.read_counted(room) {
        Ok(count) => Ok(count),
        Err(_) => Err(ReadError::Failed),
    }
}

/// A receiver of the bytes of a text, which arrive in chunks.
pub trait Feed {
    /// Whether a receiver was fed exactly this text.
    ghost was_fed: { Self → List ℕ → Type 0 };

    /// Receives the next bytes.
    fn feed(&mut self, piece: &[u8]) -> Result<(), AllocError>
        requires { (text : List ℕ) × was_fed self.old text }
        ensures { (text : List ℕ) → was_fed self.old text → OnOk result (was_fed self.new (text ++ piece.now)) };
}

/// Stores all bytes.
impl Feed for Vec<u8> {
    ghost was_fed = { λ v text. v.items ≡ text };

    fn feed(&mut self, piece: &[u8]) -> Result<(), AllocError> {
        self.extend_from_slice(piece)
    }
}

/// Reads to the end of `reader`, in chunks of at most 4,096 bytes, and feeds every chunk to `taker`. Stops at the first
/// read that fails, or at the first chunk for which memory runs out.
pub fn read_into<R: CountedRead, F: Feed>(reader: &mut R, taker: &mut F) -> Result<(), ReadError>
    requires { F.was_fed taker.old [] }
    ensures gave { OnOk result ((text : List ℕ) × GaveAll (R.seen reader.old) (R.seen reader.new) text
        × F.was_fed taker.new text) }
    ensures front { GaveMore (R.seen reader.old) (R.seen reader.new) }
    ensures kept { OnOk result ((R.seen reader.new).failures ≡ (R.seen reader.old).failures) }
    // No failed read is repeated.
    ensures failed { IsErrOf result ReadError.Failed → ReadFails (R.seen reader.old) (R.seen reader.new) }
    ensures memory { IsErrOf result ReadError.OutOfMemory
        → (R.seen reader.new).failures ≡ (R.seen reader.old).failures }
    // Memory runs out only after a byte has been read.
    ensures some { IsErrOf result ReadError.OutOfMemory
        → length (R.seen reader.old).given < length (R.seen reader.new).given }
    ensures reads { (R.seen reader.new).calls ≤ (R.seen reader.old).calls + max_reads }
{
    let mut piece = [0; PIECE];
    for _ in 0..MAX_READS {
        match read_piece(reader, &mut piece) {
            Ok(0) => return Ok(()),
            Ok(count) => taker.feed(&piece[..count])?,
            Err(e) => return Err(e),
        }
    }
    Err(ReadError::Failed)
}

/// Reads to the end of `reader`, in chunks of at most 4,096 bytes, and returns all bytes. Stops at the first read that
/// fails. After an error, the bytes that were read are lost.
pub fn read_whole<R: CountedRead>(alloc: Global, reader: &mut R) -> Result<Vec<u8>, ReadError>
    ensures gave { IfOk result (λ v. GaveAll (R.seen reader.old) (R.seen reader.new) v.items) }
    ensures front { GaveMore (R.seen reader.old) (R.seen reader.new) }
    ensures kept { OnOk result ((R.seen reader.new).failures ≡ (R.seen reader.old).failures) }
    // No failed read is repeated.
    ensures failed { IsErrOf result ReadError.Failed → ReadFails (R.seen reader.old) (R.seen reader.new) }
    ensures memory { IsErrOf result ReadError.OutOfMemory
        → (R.seen reader.new).failures ≡ (R.seen reader.old).failures }
    // Memory runs out only after a byte has been read.
    ensures some { IsErrOf result ReadError.OutOfMemory
        → length (R.seen reader.old).given < length (R.seen reader.new).given }
    ensures reads { (R.seen reader.new).calls ≤ (R.seen reader.old).calls + max_reads }
{
    let mut whole = Vec::new(alloc);
    match read_into(reader, &mut whole) {
        Ok(()) => Ok(whole),
        Err(e) => Err(e),
    }
}
