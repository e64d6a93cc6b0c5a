//! The count of looks at literals of stored clauses.
ghost use Rattle.std.specs.Prelude.{◌≡◌, ◌+◌, ◌-◌, ◌^◌, min};
ghost use Rattle.sat_checker.specs.CheckerView.{kernel_of};
ghost use Rattle.sat_checker.specs.KernelView.{kernel_looks};

pub(crate) mod tally;

use crate::announce::transcript::ProofTranscriptProcessor;
use crate::checker::Checker;
use crate::looks::tally::LookTally;
use crate::processing::ProofProcessor;
use std::marker::Model;

/// The number of looks at literals of stored clauses. In contracts, this number has no upper limit.
#[derive(Drop)]
pub struct Looks {
    held: u64,
    tally: LookTally,
}

impl Model for Looks {
    ghost use Rattle.std.specs.Prelude.{ℕ, ◌≡◌, ◌-◌, ◌^◌, min};

    ghost Value = { ℕ };

    ghost view = { λ s. s.tally.seen };

    ghost invariant = { λ s. s.held ≡ min s.tally.seen (2 ^ 64 - 1) };
}

impl Looks {
    /// Creates a count of zero.
    pub fn new() -> Looks
        ensures { result ≡ 0 }
    {
        Looks {
            held: 0,
            tally: LookTally::new(),
        }
    }

    /// Returns the number of looks, saturating at 2^64-1.
    pub fn get(&self) -> u64
        ensures { result ≡ min self.now (2 ^ 64 - 1) }
    {
        self.held
    }

    /// Adds the looks of a checker.
    pub fn add<P: ProofProcessor, T: ProofTranscriptProcessor>(&mut self, checker: &Checker<P, T>)
        ensures { self.new ≡ self.old + kernel_looks (kernel_of checker.now) }
    {
        self.join(&checker.kernel.looks);
    }

    /// Adds another count.
    fn join(&mut self, other: &Looks)
        ensures { self.new ≡ self.old + other.now }
    {
        self.tally = self.tally.and_all(&other.tally);
        self.held = self.held.saturating_add(other.held);
    }

    /// Adds `more` looks.
    #[inline(always)]
    pub(crate) fn count(&mut self, more: usize)
        ensures { self.new ≡ self.old + more }
    {
        let more = more as u64;
        self.tally = self.tally.and(more);
        self.held = self.held.saturating_add(more);
    }
}
