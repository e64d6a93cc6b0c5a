//! Numbers and places that belong to literals, indexed by literal code.
ghost use Rattle.std.specs.Prelude.{ℕ, ◌≡◌, ◌==◌, ◌+◌, ◌^◌, ◌<◌, OnOk, Some, None, if◌then◌else◌};
ghost use Rattle.sat_base.specs.values.Tables.{HasPlaceFor};
ghost use Rattle.sat_checker.specs.inner.LitNumbers.{number_at, place_at};

use sat_base::{Lit, Table};
use std::alloc::{AllocError, Global};

/// Numbers for some of the literals, indexed by literal code. For the others, 2^64-1 is stored, which is not a
/// valid number.
#[derive(Drop)]
pub(crate) struct LitNumbers {
    numbers: Table<u64>,
}

impl LitNumbers {
    /// Creates a table without numbers.
    pub fn new(alloc: Global) -> LitNumbers
        ensures { (l : ℕ) → number_at result l ≡ None }
    {
        LitNumbers {
            numbers: Table::new(alloc),
        }
    }

    /// Returns the number of a literal, if it has one.
    pub fn get(&self, lit: Lit) -> Option<u64>
        ensures { result ≡ number_at self.now lit }
    {
        let number = self.numbers.get(lit.code(), u64::MAX);
        if number == u64::MAX {
            return None;
        }
        Some(number)
    }

    /// Allows `more` more numbers to be in the table's list, rather than in its tree.
    #[inline(always)]
    pub fn grant(&mut self, more: usize)
        ensures room { (l : ℕ) → HasPlaceFor self.old.numbers l → HasPlaceFor self.new.numbers l }
        ensures same { (l : ℕ) → number_at self.new l ≡ number_at self.old l }
    {
        self.numbers.grant(more);
    }

    /// Makes room for the number of a literal.
    pub fn make_room(&mut self, lit: Lit) -> Result<(), AllocError>
        ensures room { OnOk result (HasPlaceFor self.new.numbers lit) }
        ensures same { (l : ℕ) → number_at self.new l ≡ number_at self.old l }
    {
        self.numbers.make_room(lit.code(), u64::MAX)
    }

    /// Sets the number of a literal. There must be room for the number, and it must be below 2^64-1.
    pub fn put(&mut self, lit: Lit, number: u64)
        requires room { HasPlaceFor self.old.numbers lit }
        requires number { number + 1 < 2 ^ 64 }
        ensures { (l : ℕ) → number_at self.new l ≡ (if l == lit then Some number else number_at self.old l) }
    {
        self.numbers.put(lit.code(), number);
    }

    /// Removes the number of a literal.
    pub fn forget(&mut self, lit: Lit)
        ensures { (l : ℕ) → number_at self.new l ≡ (if l == lit then None else number_at self.old l) }
    {
        self.numbers.reset(lit.code(), u64::MAX);
    }
}

/// Places of some of the literals on a trail, indexed by literal code. For the others, 2^32-1 is stored, which is not a
/// valid place.
#[derive(Drop)]
pub(crate) struct LitPlaces {
    places: Table<u32>,
}

impl LitPlaces {
    /// Creates a table without places.
    pub fn new(alloc: Global) -> LitPlaces
        ensures { (l : ℕ) → place_at result l ≡ None }
    {
        LitPlaces {
            places: Table::new(alloc),
        }
    }

    /// Returns the place of a literal, if it has one.
    pub fn get(&self, lit: Lit) -> Option<u32>
        ensures { result ≡ place_at self.now lit }
    {
        let place = self.places.get(lit.code(), u32::MAX);
        if place == u32::MAX {
            return None;
        }
        Some(place)
    }

    /// Allows `more` additional places to be in the table's list, rather than in its tree.
    #[inline(always)]
    pub fn grant(&mut self, more: usize)
        ensures room { (l : ℕ) → HasPlaceFor self.old.places l → HasPlaceFor self.new.places l }
        ensures same { (l : ℕ) → place_at self.new l ≡ place_at self.old l }
    {
        self.places.grant(more);
    }

    /// Makes room for the place of a literal.
    pub fn make_room(&mut self, lit: Lit) -> Result<(), AllocError>
        ensures room { OnOk result (HasPlaceFor self.new.places lit) }
        ensures same { (l : ℕ) → place_at self.new l ≡ place_at self.old l }
    {
        self.places.make_room(lit.code(), u32::MAX)
    }

    /// Sets the place of a literal. There must be room for the place, and it must be below 2^32-1.
    pub fn put(&mut self, lit: Lit, place: u32)
        requires room { HasPlaceFor self.old.places lit }
        requires place { place + 1 < 2 ^ 32 }
        ensures { (l : ℕ) → place_at self.new l ≡ (if l == lit then Some place else place_at self.old l) }
    {
        self.places.put(lit.code(), place);
    }

    /// Removes the place of a literal.
    pub fn forget(&mut self, lit: Lit)
        ensures { (l : ℕ) → place_at self.new l ≡ (if l == lit then None else place_at self.old l) }
    {
        self.places.reset(lit.code(), u32::MAX);
    }
}
