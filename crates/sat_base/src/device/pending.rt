//! A buffer of bytes that are written out together.
ghost use Rattle.std.specs.Prelude.{◌≡◌, ◌≤◌, ◌<◌};

/// A buffer of `N` bytes, of which the first `len` are pending.
#[derive(Drop)]
pub(crate) struct Pending<const N: usize> {
    pub(crate) bytes: [u8; N],
    pub(crate) len: usize,
    pub(crate) ghost within: { len ≤ N },
    pub(crate) ghost some: { 0 < N },
}

impl<const N: usize> Pending<N> {
    /// Returns a buffer without pending bytes.
    pub(crate) fn new() -> Pending<N>
        requires { 0 < N }
        ensures { result.len ≡ 0 }
    {
        Pending {
            bytes: [0; N],
            len: 0,
        }
    }
}
