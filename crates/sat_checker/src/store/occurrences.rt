//! How many times each literal occurs in the stored clauses.
ghost use Rattle.std.specs.Prelude.{ℕ, true, ◌≡◌, ◌+◌, ◌*◌, ◌^◌, ◌<◌, ◌≤◌, ◌==◌, if◌then◌else◌, All, OnOk, MatchBool};
ghost use Rattle.sat_base.specs.values.Tables.{near_count, HasPlaceFor};
ghost use Rattle.sat_checker.specs.inner.OccurrenceView.{count_at, times_in};

use sat_base::{Lit, Table, Var};
use std::alloc::{AllocError, Global};

/// A count for each literal, indexed by literal code. Counts have 32 bits: a clause contains a literal at most once,
/// and callers count fewer than 2^32 clauses.
#[derive(Drop)]
pub struct Occurrences {
    counts: Table<u32>,
}

impl Occurrences {
    /// Creates a table in which every count is zero.
    pub fn new(alloc: Global) -> Occurrences
        ensures { (l : ℕ) → count_at result l ≡ 0 }
    {
        Occurrences {
            counts: Table::new(alloc),
        }
    }

    /// Returns how many counts are in the table's list, rather than in its tree. Other tables of the same literals may
    /// have lists of this length.
    pub fn near_count(&self) -> usize
        ensures { result ≡ near_count self.now.counts }
    {
        self.counts.near_count()
    }

    /// Allows `more` more counts to be in the table's list, rather than in its tree.
    #[inline(always)]
    pub fn grant(&mut self, more: usize)
        ensures room { (l : ℕ) → HasPlaceFor self.old.counts l → HasPlaceFor self.new.counts l }
        ensures same { (l : ℕ) → count_at self.new l ≡ count_at self.old l }
    {
        self.counts.grant(more);
    }

    /// Makes room for the count of a literal.
    #[inline(always)]
    fn make_room_for(&mut self, lit: Lit) -> Result<(), AllocError>
        ensures room { OnOk result (HasPlaceFor self.new.counts lit) }
        ensures others { (l : ℕ) → HasPlaceFor self.old.counts l → HasPlaceFor self.new.counts l }
        ensures same { (l : ℕ) → count_at self.new l ≡ count_at self.old l }
    {
        self.counts.make_room(lit.code(), 0)
    }

    /// Makes room for the counts of literals.
    pub fn make_room(&mut self, literals: &[Lit]) -> Result<(), AllocError>
        ensures room { OnOk result (All (HasPlaceFor self.new.counts) literals.now) }
        ensures same { (l : ℕ) → count_at self.new l ≡ count_at self.old l }
    {
        for lit in literals {
            self.make_room_for(*lit)?;
        }
        Ok(())
    }

    /// Adds one to the count of a literal.
    #[inline(always)]
    fn add_one(&mut self, lit: Lit)
        requires room { HasPlaceFor self.old.counts lit }
        requires few { count_at self.old lit + 1 < 2 ^ 32 }
        ensures room { (l : ℕ) → HasPlaceFor self.old.counts l → HasPlaceFor self.new.counts l }
        ensures counted { (l : ℕ) → count_at self.new l ≡ (if l == lit then 1 else 0) + count_at self.old l }
    {
        let had = self.count(lit);
        self.counts.put(lit.code(), had + 1);
    }

    /// Subtracts one from the count of a literal, which must be above zero.
    #[inline(always)]
    fn take_one(&mut self, lit: Lit)
        requires { 0 < count_at self.old lit }
        ensures { (l : ℕ) → (if l == lit then 1 else 0) + count_at self.new l ≡ count_at self.old l }
    {
        let had = self.count(lit);
        self.counts.put(lit.code(), had - 1);
    }

    /// Adds one to a literal's count for each of its occurrences in `literals`.
    pub fn add(&mut self, literals: &[Lit])
        requires room { All (HasPlaceFor self.old.counts) literals.now }
        requires few { (l : ℕ) → count_at self.old l + times_in l literals.now < 2 ^ 32 }
        ensures { (l : ℕ) → count_at self.new l ≡ count_at self.old l + times_in l literals.now }
    {
        for lit in literals {
            self.add_one(*lit);
        }
    }

    /// Subtracts one from a literal's count for each of its occurrences in `literals`. These occurrences must have been
    /// counted before.
    pub fn subtract(&mut self, literals: &[Lit])
        requires { (l : ℕ) → times_in l literals.now ≤ count_at self.old l }
        ensures { (l : ℕ) → count_at self.new l + times_in l literals.now ≡ count_at self.old l }
    {
        for lit in literals {
            self.take_one(*lit);
        }
    }

    /// Returns `true` if the count of a literal is above zero.
    #[inline(always)]
    pub fn has_literal(&self, lit: Lit) -> bool
        ensures { result ≡ true → 0 < count_at self.now lit }
    {
        self.count(lit) > 0
    }

    /// Returns the count of a literal.
    #[inline(always)]
    fn count(&self, lit: Lit) -> u32
        ensures { result ≡ count_at self.now lit }
    {
        self.counts.get(lit.code(), 0)
    }

    /// Returns `true` if the count of a literal of the variable is above zero.
    pub fn has(&self, var: Var) -> bool
        ensures { MatchBool result (0 < count_at self.now (2 * var) + count_at self.now (2 * var + 1))
            (count_at self.now (2 * var) + count_at self.now (2 * var + 1) ≡ 0) }
    {
        self.count(var.lit(true)) > 0 || self.count(var.lit(false)) > 0
    }
}
