//! A filter for sets of levels.
ghost use Rattle.std.specs.Prelude.{ℕ, ◌≡◌, ◌%◌, ◌==◌, if◌then◌else◌, true, false};
ghost use Rattle.sat_store.specs.levels.Levels.{level_passes};

use std::marker::Model;

/// A set of levels, stored as one bit for each remainder modulo 64.
#[derive(Clone, Copy)]
pub struct LevelAbstraction {
    /// Bit `level % 64` is set for each level that was added.
    bits: u64,
}

impl Model for LevelAbstraction {
    ghost use Rattle.std.specs.Prelude.{ℕ};

    ghost Value = { ℕ };

    ghost view = { λ a. a.bits };

    ghost inverse = { λ n. record { bits = n } };
}

impl Default for LevelAbstraction {
    ghost use Rattle.std.specs.Prelude.{ℕ, ◌≡◌, false};
    ghost use Rattle.sat_store.specs.levels.Levels.{level_passes};

    ghost is_default = { λ filter. (level : ℕ) → level_passes filter level ≡ false };

    /// Returns the empty set.
    fn default() -> LevelAbstraction {
        LevelAbstraction { bits: 0 }
    }
}

impl LevelAbstraction {
    /// Adds a level, and with it all levels that have the same remainder.
    pub fn add(&mut self, level: usize)
        ensures { (other : ℕ) → level_passes self.new other
            ≡ (if other % 64 == level % 64 then true else level_passes self.old other) }
    {
        self.bits |= 1 << (level % 64);
    }

    /// Returns `true` if `level`, or any level with the same remainder, was added.
    pub fn test(&self, level: usize) -> bool
        ensures { result ≡ level_passes self.now level }
    {
        self.bits >> (level % 64) & 1 == 1
    }
}
