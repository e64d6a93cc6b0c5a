//! A buffer of bytes that are read before they are needed.
ghost use Rattle.std.specs.Prelude.{◌≤◌};
ghost use Rattle.sat_base.specs.device.Device.{max_reads};

/// The size of buffers: the largest number of bytes in one read, and the largest number of pending bytes.
pub(crate) const PIECE: usize = 4096;

/// The last chunk that was read. The bytes from `at` to `end` have not been consumed yet.
#[derive(Drop)]
pub(crate) struct Ahead {
    pub(crate) piece: [u8; PIECE],
    pub(crate) at: usize,
    pub(crate) end: usize,
    /// The number of reads so far.
    pub(crate) reads: u64,
    pub(crate) ghost within: { end ≤ 4096 },
    pub(crate) ghost bounded: { reads ≤ max_reads },
}
