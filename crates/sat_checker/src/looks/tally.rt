//! The exact number of looks, which only contracts see. It is zero-sized, and its functions do nothing at run time.
ghost use Rattle.std.specs.Prelude.{◌≡◌, ◌+◌, ℕ};
ghost use Rattle.std.specs.Borrow.{ftrue};

use std::marker::Model;

/// The number of looks at literals, without an upper limit.
#[derive(Drop)]
pub(crate) struct LookTally {
    pub ghost seen: { ℕ },
}

impl Model for LookTally {
    ghost also_owns = { λ _. ftrue };
}

impl LookTally {
    /// Creates a count of zero.
    pub(crate) fn new() -> LookTally
        ensures { result.seen ≡ 0 }
    {
        LookTally {}
    }

    /// Returns the count increased by `_more`.
    pub(crate) fn and(&self, _more: u64) -> LookTally
        ensures { result.seen ≡ self.now.seen + _more }
    {
        LookTally {}
    }

    /// Returns the sum of two counts.
    pub(crate) fn and_all(&self, _other: &LookTally) -> LookTally
        ensures { result.seen ≡ self.now.seen + _other.now.seen }
    {
        LookTally {}
    }
}
