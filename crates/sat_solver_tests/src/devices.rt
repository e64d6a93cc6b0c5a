//! Writers that accept few bytes, or fail.

use crate::driver::Made;
use sat_base::Counted;
use sat_checker::{CheckedProofStep, CheckerData, ProofProcessor};
use std::alloc::Global;
use std::cell::Cell;
use std::io;
use std::io::{ErrorKind, Write};

/// A writer that accepts at most `most` bytes of a piece. Call number `failing` fails, counted from 1 and
/// including flushes.
#[derive(Drop)]
pub(crate) struct ByFew {
    pub(crate) taken: Vec<u8>,
    pub(crate) calls: u64,
    most: usize,
    failing: u64,
}

impl Write for ByFew {
    fn write(&mut self, piece: &[u8]) -> io::Result<usize> {
        self.calls = self.calls.saturating_add(1);
        if self.calls == self.failing {
            return Err(io::Error::from(ErrorKind::Interrupted));
        }
        self.taken.write(&piece[..piece.len().min(self.most)])
    }

    fn flush(&mut self) -> io::Result<()> {
        self.calls = self.calls.saturating_add(1);
        if self.calls == self.failing {
            return Err(io::Error::from(ErrorKind::Interrupted));
        }
        Ok(())
    }
}

pub(crate) fn by_few(alloc: Global, most: usize, failing: u64) -> Counted<ByFew> {
    Counted::new(ByFew {
        taken: Vec::new(alloc),
        calls: 0,
        most,
        failing,
    })
}

impl Made for Counted<ByFew> {
    fn made(alloc: Global) -> Counted<ByFew> {
        by_few(alloc, 1, 0)
    }
}

/// A target and a processor that count their calls.
#[derive(Drop)]
pub(crate) struct Tally<'a> {
    pub(crate) calls: &'a Cell<u64>,
}

impl Tally<'_> {
    fn count(&self) {
        self.calls.set(self.calls.get().saturating_add(1));
    }
}

impl Write for Tally<'_> {
    fn write(&mut self, piece: &[u8]) -> io::Result<usize> {
        self.count();
        Ok(piece.len())
    }

    fn flush(&mut self) -> io::Result<()> {
        self.count();
        Ok(())
    }
}

impl ProofProcessor for Tally<'_> {
    ghost use Rattle.std.specs.Prelude.{⊤};

    ghost takes = { λ _ _ _ _. ⊤ };

    fn process_step(
        &mut self,
        _step: &CheckedProofStep<'_>,
        _names: CheckerData<'_>,
    ) -> anyhow::Result<()> {
        self.count();
        Ok(())
    }
}
