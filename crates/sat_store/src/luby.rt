//! The Luby sequence, which determines the gaps between restarts.
ghost use Rattle.std.specs.Prelude.{◌≡◌, ◌+◌, ◌<◌, ◌≤◌, ◌^◌};
ghost use Rattle.sat_store.specs.schedule.Luby.{luby, wrapped_term_number};

use std::marker::Model;

/// The Luby sequence: 1, 1, 2, 1, 1, 2, 4 and so on. After term 2^64 - 1, it starts again with the first term.
///
/// Contracts see the number of the last term that was returned, which is initially 0.
#[derive(Drop)]
pub struct LubySequence {
    /// The number of the last term that was returned.
    given: u64,
}

impl Model for LubySequence {
    ghost use Rattle.std.specs.Prelude.{ℕ, ◌+◌, ◌<◌, ◌^◌};

    ghost Value = { ℕ };

    ghost view = { λ s. s.given };

    ghost invariant = { λ s. s.given + 1 < 2 ^ 64 };
}

impl Default for LubySequence {
    ghost use Rattle.std.specs.Prelude.{◌≡◌};

    ghost is_default = { λ s. s ≡ 0 };

    /// Returns the sequence before its first term.
    fn default() -> LubySequence {
        LubySequence { given: 0 }
    }
}

impl LubySequence {
    /// Returns the next term.
    pub fn advance(&mut self) -> u64
        ensures term { result ≡ luby (self.old + 1) }
        ensures next { self.new ≡ wrapped_term_number (self.old + 1) }
    {
        let term = self.given + 1;
        self.given = if term == u64::MAX { 0 } else { term };
        luby_term(term)
    }
}

/// Returns the term with this number. Terms are numbered from 1.
fn luby_term(number: u64) -> u64
    requires { 0 < number }
    ensures { result ≡ luby number }
{
    let mut rest = number;
    let mut bits: u32 = 64;
    while bits > 0 {
        bits -= 1;
        let half = power_of_two(bits);
        if rest == half - 1 + half {
            return half;
        }
        if rest >= half {
            rest = rest - half + 1;
        }
    }
    0
}

/// Returns 2 to the power of `bits`.
fn power_of_two(bits: u32) -> u64
    requires { bits < 64 }
    ensures value { result ≡ 2 ^ bits }
    ensures bound { 0 < result }
    ensures half { result + result ≤ 2 ^ 64 }
{
    1 << bits
}
