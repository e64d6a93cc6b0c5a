//! Bytes that are read from a reader before they are needed.
ghost use Rattle.std.specs.Prelude.{◌≤◌};
ghost use Rattle.sat_base.specs.device.Device.{max_reads};

mod bytes;

/// The largest number of bytes that a reader is asked for.
const PIECE: usize = 4096;

/// The last chunk that a reader gave. The bytes from `at` to `end` have not been consumed yet.
#[derive(Drop)]
pub(crate) struct LastPiece {
    piece: [u8; PIECE],
    at: usize,
    end: usize,
    /// The number of reads so far.
    reads: u64,
    ghost ordered: { at ≤ end },
    ghost within: { end ≤ 4096 },
    ghost bounded: { reads ≤ max_reads },
}
