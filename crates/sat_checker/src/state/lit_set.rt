//! Sets of literals.
ghost use Rattle.std.specs.Prelude.{◌≡◌, [], OnOk};
ghost use Rattle.sat_checker.specs.LiteralSets.{canonical, is_among, is_subset_of, mentions};

use crate::sorted_lits::copy_canonical;
use crate::units::valuation::mentions;
use sat_base::{Lit, Var};
use std::alloc::{AllocError, Global};
use std::marker::Model;

/// A set of literals. In contracts, the value is the sorted list of its literals.
#[derive(Drop)]
pub(crate) struct LitSet {
    lits: Vec<Lit>,
}

impl Model for LitSet {
    ghost use Rattle.std.specs.Prelude.{List, ℕ};
    ghost use Rattle.sat_checker.specs.inner.Marks.{IsIncreasing};

    ghost Value = { List ℕ };

    ghost view = { λ s. s.lits.items };

    ghost invariant = { λ s. IsIncreasing s.lits.items };
}

impl LitSet {
    /// Creates an empty set.
    pub fn new(alloc: Global) -> LitSet
        ensures { result ≡ [] }
    {
        LitSet {
            lits: Vec::new(alloc),
        }
    }

    /// Replaces the set's literals with `literals`. After an error, the set is empty.
    #[tactic(auto, using(crate::proofs::lemmas::sets::Canonical::canonical_increasing))]
    pub fn replace(&mut self, literals: &[Lit]) -> Result<(), AllocError>
        ensures { OnOk result (self.new ≡ canonical literals.now) }
    {
        match copy_canonical(&mut self.lits, literals) {
            Ok(_signs) => Ok(()),
            Err(error) => {
                self.lits.clear();
                Err(error)
            }
        }
    }

    /// Returns `true` if the literal is in the set.
    fn has(&self, lit: Lit) -> bool
        ensures { result ≡ is_among self.now lit }
    {
        self.lits.binary_search(&lit).is_ok()
    }

    /// Returns `true` if all literals of `part` are in the set.
    pub fn has_all(&self, part: &[Lit]) -> bool
        ensures { result ≡ is_subset_of part.now self.now }
    {
        for lit in part {
            if !self.has(*lit) {
                return false;
            }
        }
        true
    }

    /// Returns `true` if the set contains a literal of the variable.
    pub fn mentions(&self, var: Var) -> bool
        ensures { result ≡ mentions self.now var }
    {
        mentions(&self.lits, var)
    }
}
