//! Buffers for pending bytes.
ghost use Rattle.std.specs.Prelude.{◌≡◌, ◌+◌, ◌++◌, ◌∷◌, [], ◌≤◌, ◌<◌, ℕ, List, length, take};

use crate::device::pending::Pending;

/// A buffer of a fixed size, of which the first bytes are pending. A buffer for a single step is smaller than one for a
/// whole proof.
pub(crate) trait Room: Drop {
    ghost waiting: { Self → List ℕ };

    ghost size: { Self → ℕ };

    /// Returns the number of bytes that can still be added.
    fn free(&self) -> usize
        ensures room { result + length (waiting self.now) ≡ size self.now }
        ensures some { 0 < size self.now };

    /// Adds a byte. There must be room for it.
    fn push(&mut self, byte: u8)
        requires { length (waiting self.old) < size self.old }
        ensures waiting { waiting self.new ≡ waiting self.old ++ (byte ∷ []) }
        ensures size { size self.new ≡ size self.old };

    /// Adds the first `count` of four bytes. There must be room for four bytes.
    fn push_some(&mut self, bytes: [u8; 4], count: usize)
        requires count { count ≤ 4 }
        requires room { length (waiting self.old) + 4 ≤ size self.old }
        ensures waiting { waiting self.new ≡ waiting self.old ++ take count bytes }
        ensures size { size self.new ≡ size self.old };

    /// Adds bytes. There must be room for them.
    fn push_all(&mut self, piece: &[u8])
        requires { length (waiting self.old) + length piece.now ≤ size self.old }
        ensures waiting { waiting self.new ≡ waiting self.old ++ piece.now }
        ensures size { size self.new ≡ size self.old };

    /// Removes all bytes.
    fn clear(&mut self)
        ensures waiting { waiting self.new ≡ [] }
        ensures size { size self.new ≡ size self.old };

    /// Returns the pending bytes, oldest first, as a slice.
    fn as_slice(&self) -> &[u8]
        ensures { result.now ≡ waiting self.now };
}

// `free` and `push` are called for every byte.
impl<const N: usize> Room for Pending<N> {
    ghost waiting = { λ p. take p.len p.bytes };

    ghost size = { λ p. N };

    #[inline(always)]
    fn free(&self) -> usize {
        N - self.len
    }

    #[inline(always)]
    fn push(&mut self, byte: u8) {
        self.bytes[self.len] = byte;
        self.len += 1;
    }

    #[inline(always)]
    fn push_some(&mut self, bytes: [u8; 4], count: usize) {
        let [first, second, third, fourth] = bytes;
        let at = self.len;
        self.bytes[at] = first;
        self.bytes[at + 1] = second;
        self.bytes[at + 2] = third;
        self.bytes[at + 3] = fourth;
        self.len = at + count;
    }

    fn push_all(&mut self, piece: &[u8]) {
        let end = self.len + piece.len();
        let all = &mut self.bytes[..];
        all[self.len..end].copy_from_slice(piece);
        self.len = end;
    }

    fn clear(&mut self) {
        self.len = 0;
    }

    fn as_slice(&self) -> &[u8] {
        let all = &self.bytes[..];
        &all[..self.len]
    }
}
