//! The stored clauses of two or more literals, with the hashes by which steps name them.
ghost use Rattle.std.specs.Prelude.{ℕ, List, true, false, length, ◌≡◌, [], ◌+◌, ◌*◌, ◌<◌, ◌≤◌, ◌^◌, Some, IfOk, OnOk};
ghost use Rattle.std.specs.Prelude.{Err};
ghost use Rattle.std.specs.Prelude.{MatchBool};
ghost use Rattle.sat_checker.specs.inner.LookCounts.{LooksOver, LooksUpTo};
ghost use Rattle.sat_checker.specs.inner.Marks.{IsIncreasing};
ghost use Rattle.sat_checker.specs.Stored.{Stored, nothing_stored};
ghost use Rattle.sat_checker.specs.Looks.{stored_literal_count};
ghost use Rattle.sat_checker.specs.inner.StoreView.{RepresentsClauses, rehashed, StoreEffect, AppendsNewId};
ghost use Rattle.sat_checker.specs.inner.StoreView.{PreservesIdOrder};
ghost use Rattle.sat_checker.specs.inner.StoreView.{RemovesCountOrRefuses};
ghost use Rattle.sat_checker.specs.inner.StoreView.{with_count_removed, store_count_in, found_clause};
ghost use Rattle.sat_checker.specs.inner.SlotView.{slot_ids, live_clauses, live_literal_count, removed_count};
ghost use Rattle.sat_checker.specs.Storing.{clause_with, clause_with_id, with_solver_name};
ghost use Rattle.sat_checker.specs.Accepts.{IsStrictSubset};
ghost use Rattle.sat_checker.specs.LiteralSets.{mentions, canonical};
ghost use Rattle.sat_checker.specs.inner.ModelTests.{are_all_true, irredundant_length};
ghost use Rattle.std.specs.List.{list_any};

pub mod clauses;
pub(crate) mod filed_hash;
pub mod links;
pub mod occurrences;
pub mod slots;
pub mod sorted_pairs;

use crate::hash::ClauseHasher;
use crate::looks::Looks;
use crate::sorted_lits::is_subset;
use crate::store::clauses::{Clauses, all_bits};
use crate::units::assigned::Assigned;
use crate::units::valuation::{has_just_assumed, is_strictly_assumed};
use sat_base::{HashBits, Lit, Var};
use std::alloc::{AllocError, Global};
use thiserror::Error;

/// Why a clause can't be stored.
#[derive(Clone, Copy, Debug, Drop, Error)]
pub enum StoreError {
    /// Memory ran out.
    #[error("out of memory")]
    OutOfMemory,
    /// The last id has already been assigned, or a count is already 2^64-1.
    #[error("a counter is at its end")]
    CounterEnd,
}

impl From<AllocError> for StoreError {
    ghost use Rattle.std.specs.Prelude.{◌≡◌};
    ghost use Rattle.sat_checker.specs.declared.store.StoreError.TheVariants.{OutOfMemory};

    ghost from_gives = { λ _ e. e ≡ OutOfMemory };

    fn from(_e: AllocError) -> StoreError {
        StoreError::OutOfMemory
    }
}

/// How a clause is stored: its id, whether the clause is new, and how many times it was already stored as irredundant.
#[derive(Clone, Copy)]
pub struct Placed {
    pub id: u64,
    pub is_new: bool,
    pub irredundant: u64,
}

/// A stored clause that was found by its literals, with its counts.
#[derive(Clone, Copy)]
pub struct Found {
    pub id: u64,
    pub irredundant: u64,
    pub redundant: u64,
}

/// The stored clauses, and the current hasher. A checker doesn't expose its store.
#[derive(Drop)]
pub struct Store {
    pub clauses: Clauses,
    pub hasher: ClauseHasher,
    /// Whether the clauses still have to be filed under the current hashes.
    pub stale: bool,
}

impl Store {
    /// Creates an empty store with 64-bit hashes.
    pub fn new(alloc: Global) -> Store
        ensures kept { RepresentsClauses result nothing_stored }
        ensures ids { slot_ids result.clauses ≡ [] }
    {
        Store {
            clauses: Clauses::new(alloc),
            hasher: ClauseHasher::new(alloc, all_bits()),
            stale: false,
        }
    }

    /// Files the clauses under the current hashes, if that has not been done yet. This must happen before a hash is
    /// looked up. Never allocates.
    #[inline(always)]
    pub fn rehash_if_needed(&mut self, looks: &mut Looks)
        ensures filed { self.new ≡ rehashed self.old }
        ensures looks { LooksOver (RepresentsClauses (rehashed self.old)) stored_literal_count looks.old looks.new }
    {
        if !self.stale {
            return;
        }
        self.rehash(looks);
    }

    /// Files the clauses under the current hashes.
    #[inline(never)]
    fn rehash(&mut self, looks: &mut Looks)
        requires { self.old.stale ≡ true }
        ensures filed { self.new ≡ rehashed self.old }
        ensures looks { LooksUpTo (live_literal_count self.old.clauses) looks.old looks.new }
    {
        self.clauses.rehash(&self.hasher, looks);
        self.stale = false;
    }

    /// Stores the clause with the literals `literals`, which must be sorted and must not repeat: under the id `id` if
    /// the clause is new, and otherwise by adding one to a count. Returns how the clause is stored.
    pub fn store_clause(
        &mut self,
        id: u64,
        redundant: bool,
        literals: &[Lit],
        looks: &mut Looks,
    ) -> Result<Placed, StoreError>
        requires { IsIncreasing literals.now }
        ensures ok { IfOk result (λ placed. (f : Stored) → RepresentsClauses self.old f
            → StoreEffect self.new f id redundant literals.now placed.id placed.is_new) }
        ensures placed { IfOk result (λ placed. AppendsNewId self.old.clauses self.new.clauses id placed.is_new) }
        ensures counted { IfOk result (λ placed. (f : Stored) → RepresentsClauses self.old f
            → store_count_in false (clause_with literals.now f.clauses) ≡ placed.irredundant) }
        // The count to be increased is already at its maximum.
        ensures full { result ≡ Err StoreError.CounterEnd → (f : Stored) → RepresentsClauses self.old f
            → 2 ^ 64 ≤ store_count_in redundant (clause_with literals.now f.clauses) + 1 }
        ensures looks { LooksOver (RepresentsClauses self.old) stored_literal_count looks.old looks.new }
    {
        let hash = self.hasher.clause_hash(literals);
        let Some(place) = self.clauses.find(hash, literals, looks) else {
            self.clauses.push(id, redundant, hash, literals)?;
            return Ok(Placed {
                id,
                is_new: true,
                irredundant: 0,
            });
        };
        if self.clauses.count(place, redundant) == u64::MAX {
            return Err(StoreError::CounterEnd);
        }
        let irredundant = self.clauses.count(place, false);
        self.clauses.add_count(place, redundant);
        Ok(Placed {
            id: self.clauses.id(place),
            is_new: false,
            irredundant,
        })
    }

    /// Returns the clause with the sorted literals `literals`, if it is stored.
    #[inline(never)]
    pub fn stored(&self, literals: &[Lit], looks: &mut Looks) -> Option<Found>
        ensures found { (f : Stored) → RepresentsClauses self.now f
            → clause_with literals.now f.clauses ≡ found_clause literals.now result }
        ensures looks { LooksOver (RepresentsClauses self.now) stored_literal_count looks.old looks.new }
    {
        let hash = self.hasher.clause_hash(literals);
        let Some(place) = self.clauses.find(hash, literals, looks) else {
            return None;
        };
        Some(Found {
            id: self.clauses.id(place),
            irredundant: self.clauses.count(place, false),
            redundant: self.clauses.count(place, true),
        })
    }

    /// Subtracts one from a count of the clause with the sorted literals `literals`: from the redundant count if
    /// `redundant` is true, and from the irredundant count otherwise. Returns `false` if the clause is not stored or
    /// this count is zero.
    pub fn delete_clause(&mut self, redundant: bool, literals: &[Lit], looks: &mut Looks) -> bool
        ensures deleted { (f : Stored) → RepresentsClauses self.old f
            → RemovesCountOrRefuses result redundant literals.now f (RepresentsClauses self.new (with_count_removed redundant literals.now f)) }
        ensures ids { slot_ids self.new.clauses ≡ slot_ids self.old.clauses }
        ensures looks { LooksOver (RepresentsClauses self.old) stored_literal_count looks.old looks.new }
    {
        let hash = self.hasher.clause_hash(literals);
        let Some(place) = self.clauses.find(hash, literals, looks) else {
            return false;
        };
        if self.clauses.count(place, redundant) == 0 {
            return false;
        }
        self.clauses.take_count(place, redundant, literals);
        true
    }

    /// Subtracts one from the redundant count of the first clause with the hash of the assumed literals, if the clause
    /// consists of exactly these literals and that count is positive. Returns `true` if this is done. Otherwise,
    /// nothing changes.
    pub fn delete_assumed(&mut self, assigned: &Assigned, looks: &mut Looks) -> bool
        ensures deleted { (f : Stored) → RepresentsClauses self.old f → MatchBool result
            ((0 < store_count_in true (clause_with (canonical assigned.now.literals) f.clauses))
            × RepresentsClauses self.new (with_count_removed true (canonical assigned.now.literals) f))
            (RepresentsClauses self.new f) }
        ensures ids { slot_ids self.new.clauses ≡ slot_ids self.old.clauses }
        ensures looks { LooksOver (RepresentsClauses self.old) stored_literal_count looks.old looks.new }
    {
        let literals = assigned.literals();
        let _count = self.clauses.len();
        let hash = self.hasher.clause_hash(literals);
        let Some(place) = self.clauses.first(hash) else {
            return false;
        };
        if !has_just_assumed(assigned, self.clauses.literals(place, looks)) {
            return false;
        }
        if self.clauses.count(place, true) == 0 {
            return false;
        }
        self.clauses.take_count(place, true, literals);
        true
    }

    /// Drops the removed clauses from memory if they make up more than half of all clauses, or if their literals waste
    /// much of the buffer. This changes the places of other clauses. If memory runs out, all clauses are kept.
    pub fn compact(&mut self, looks: &mut Looks) -> Result<(), AllocError>
        ensures kept { (f : Stored) → RepresentsClauses self.old f → RepresentsClauses self.new f }
        ensures ids { PreservesIdOrder self.old.clauses self.new.clauses }
        ensures few { OnOk result (2 * removed_count self.new.clauses ≤ length self.new.clauses) }
        ensures looks { LooksOver (RepresentsClauses self.old) stored_literal_count looks.old looks.new }
    {
        self.clauses.compact(looks)
    }

    /// Sets how many bits of every hash are kept from now on. Counts no looks: `rehash_if_needed` later files the
    /// clauses under their new hashes.
    pub fn set_bits(&mut self, bits: HashBits)
        ensures set { (f : Stored) → RepresentsClauses (rehashed self.old) f
            → RepresentsClauses (rehashed self.new) (record f { width = bits }) }
        ensures ids { slot_ids self.new.clauses ≡ slot_ids self.old.clauses }
    {
        if self.hasher.bits() == bits {
            return;
        }
        self.hasher.set_bits(bits);
        self.stale = true;
    }

    /// Sets the solver name of a variable, or removes it if `name` is `None`. Counts no looks: `rehash_if_needed` later
    /// files the clauses under their new hashes.
    pub fn set_solver_name(&mut self, var: Var, name: Option<Var>) -> Result<(), AllocError>
        ensures set { OnOk result ((f : Stored) → RepresentsClauses (rehashed self.old) f
            → RepresentsClauses (rehashed self.new) (with_solver_name var name f)) }
        ensures ids { slot_ids self.new.clauses ≡ slot_ids self.old.clauses }
    {
        if self.hasher.solver_name(var) == name {
            return Ok(());
        }
        self.hasher.set_solver_name(var, name)?;
        if !self.clauses.mention(var) {
            return Ok(());
        }
        self.stale = true;
        Ok(())
    }

    /// Returns `true` if the clause with the id `id` is present, and its literals are a proper subset of `literals`,
    /// which must be sorted. Ids must increase with places.
    pub fn has_strict_part(&self, id: u64, literals: &[Lit], looks: &mut Looks) -> bool
        requires { IsIncreasing literals.now }
        ensures part { IsIncreasing (slot_ids self.now.clauses) → MatchBool result
            (IsStrictSubset (clause_with_id id (live_clauses self.now.clauses)) literals.now)
            (IsStrictSubset (clause_with_id id (live_clauses self.now.clauses)) literals.now → ⊥) }
        ensures looks { LooksOver (RepresentsClauses self.now) stored_literal_count looks.old looks.new }
        // If the clause is present, only its literals are looked at.
        ensures lent { (c : List ℕ) → IsIncreasing (slot_ids self.now.clauses)
            → clause_with_id id (live_clauses self.now.clauses) ≡ Some c → looks.new ≡ looks.old + length c }
    {
        let _count = self.clauses.len();
        let Some(place) = self.clauses.place_of(id) else {
            return false;
        };
        is_subset(self.clauses.literals(place, looks), literals, true)
    }

    /// Returns `true` if the clause with the id `id` is present, and its literals are a proper subset of the assumed
    /// literals. Ids must increase with places.
    pub fn has_part_assumed(&self, id: u64, assigned: &Assigned, looks: &mut Looks) -> bool
        ensures part { IsIncreasing (slot_ids self.now.clauses) → MatchBool result
            (IsStrictSubset (clause_with_id id (live_clauses self.now.clauses)) assigned.now.literals)
            (IsStrictSubset (clause_with_id id (live_clauses self.now.clauses)) assigned.now.literals → ⊥) }
        ensures looks { LooksOver (RepresentsClauses self.now) stored_literal_count looks.old looks.new }
    {
        let _count = self.clauses.len();
        let Some(place) = self.clauses.place_of(id) else {
            return false;
        };
        is_strictly_assumed(assigned, self.clauses.literals(place, looks))
    }

    /// Finds the clause that consists of exactly the assumed literals, without using its hash. Returns how many times
    /// it is stored: as redundant if `redundant` is true, and as irredundant otherwise.
    pub fn assumed_count(&self, redundant: bool, assigned: &Assigned, looks: &mut Looks) -> u64
        ensures found { (f : Stored) → RepresentsClauses self.now f
            → result ≡ store_count_in redundant (clause_with (canonical assigned.now.literals) f.clauses) }
        ensures looks { LooksOver (RepresentsClauses self.now) stored_literal_count looks.old looks.new }
    {
        self.clauses.assumed_count(redundant, assigned, looks)
    }

    /// Returns `true` if any stored clause contains the variable. Counts no looks.
    pub fn mention(&self, var: Var) -> bool
        ensures { (f : Stored) → RepresentsClauses (rehashed self.now) f
            → result ≡ list_any (λ c. mentions c.literals var) f.clauses }
    {
        self.clauses.mention(var)
    }

    /// Returns `true` if every clause that is stored as irredundant contains an assumed literal.
    pub fn are_satisfied(&self, assigned: &Assigned, looks: &mut Looks) -> bool
        ensures found { (f : Stored) → RepresentsClauses (rehashed self.now) f
            → result ≡ are_all_true assigned.now.literals f.clauses }
        ensures looks { LooksOver (RepresentsClauses (rehashed self.now)) stored_literal_count looks.old looks.new }
        // If the result is true, exactly the literals of the irredundant clauses were looked at.
        ensures all { (f : Stored) → RepresentsClauses (rehashed self.now) f → result ≡ true
            → looks.new ≡ looks.old + irredundant_length f.clauses }
    {
        self.clauses.are_satisfied(assigned, looks)
    }
}
