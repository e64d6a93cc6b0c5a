//! The history of calls to a device: a zero-sized value that only contracts see, whose functions do nothing at run
//! time.
ghost use Rattle.std.specs.Prelude.{ℕ, Bool, List};
ghost use Rattle.std.specs.Borrow.{ftrue};

use std::marker::Model;

/// The numbers of calls and of failed calls, the bytes read and written, and the kind of the last call.
///
/// The counts are unbounded.
#[derive(Drop)]
pub(crate) struct Tally {
    pub ghost calls: { ℕ },
    pub ghost failures: { ℕ },
    pub ghost given: { List ℕ },
    pub ghost taken: { List ℕ },
    /// Whether the last call was a read that returned no bytes although the buffer was not empty.
    pub ghost ended: { Bool },
    /// Whether the last call was a flush that did not fail.
    pub ghost flushed: { Bool },
    pub ghost failed: { Bool },
    /// The number of flushes that did not fail.
    pub ghost flushes: { ℕ },
}

impl Model for Tally {
    ghost also_owns = { λ _. ftrue };
}

impl Tally {
    ghost use Rattle.std.specs.Prelude.{◌≡◌};
    ghost use Rattle.sat_base.specs.device.Counting.{no_calls, after_read, after_end, after_write, after_flush};
    ghost use Rattle.sat_base.specs.device.Counting.{after_failure};

    /// Returns the tally before the first call.
    pub(crate) fn new() -> Tally
        ensures { result ≡ no_calls }
    {
        Tally {}
    }

    /// Returns the tally after another read, which gave `bytes`.
    pub(crate) fn and_read(&self, bytes: &[u8]) -> Tally
        ensures { result ≡ after_read bytes.now self.now }
    {
        Tally {}
    }

    /// Returns the tally after another read, which found the end.
    pub(crate) fn and_end(&self) -> Tally
        ensures { result ≡ after_end self.now }
    {
        Tally {}
    }

    /// Returns the tally after another write, which accepted `bytes`.
    pub(crate) fn and_write(&self, bytes: &[u8]) -> Tally
        ensures { result ≡ after_write bytes.now self.now }
    {
        Tally {}
    }

    /// Returns the tally after another flush, which did not fail.
    pub(crate) fn and_flush(&self) -> Tally
        ensures { result ≡ after_flush self.now }
    {
        Tally {}
    }

    /// Returns the tally after another call, which failed.
    pub(crate) fn and_failure(&self) -> Tally
        ensures { result ≡ after_failure self.now }
    {
        Tally {}
    }
}
