//! The stored clauses of two or more literals.
ghost use Rattle.std.specs.Prelude.{◌≡◌, ◌+◌, ◌*◌, ◌<◌, ◌≤◌, ◌^◌, [], ◌∷◌, ◌++◌, length, true, false, None, OnOk};
ghost use Rattle.std.specs.Prelude.{ℕ, OnErr, IfSome};
ghost use Rattle.std.specs.List.{AllByRecursion, list_any};
ghost use Rattle.sat_checker.specs.inner.LookCounts.{LooksUpTo};
ghost use Rattle.sat_checker.specs.inner.ModelTests.{are_all_true, irredundant_length};
ghost use Rattle.sat_checker.specs.Looks.{total_length};
ghost use Rattle.sat_checker.specs.inner.Marks.{IsIncreasing};
ghost use Rattle.sat_checker.specs.inner.SlotView.{slot_at, literals_at, all_lits, stored_slot, with_count_at};
ghost use Rattle.sat_checker.specs.inner.SlotView.{without_count_at, slot_count, is_removed, removed_count};
ghost use Rattle.sat_checker.specs.inner.SlotView.{slots_not_removed};
ghost use Rattle.sat_checker.specs.inner.SlotView.{CompactsOrKeeps, IsPresentAt, slot_ids, places_of, bucket_in};
ghost use Rattle.sat_checker.specs.inner.SlotView.{is_same_at};
ghost use Rattle.sat_checker.specs.inner.SlotView.{found_among, rehashed_slots, live_clauses, live_literal_count};
ghost use Rattle.sat_checker.specs.Storing.{clause_with_id, clause_with};
ghost use Rattle.sat_checker.specs.LiteralSets.{mentions, is_among, canonical};
ghost use Rattle.sat_checker.specs.inner.StoreView.{store_count_in};
ghost use Rattle.sat_checker.specs.inner.PairView.{first_of, places_after};
ghost use Rattle.sat_checker.specs.inner.IndexView.{IndexesSlots, slot_pairs};
ghost use Rattle.sat_checker.specs.inner.OccurrenceView.{SlotsInvariant, times_in};

use crate::hash::{ClauseHasher, mixed};
use crate::looks::Looks;
use crate::store::filed_hash::FiledHash;
use crate::store::occurrences::Occurrences;
use crate::store::slots::{Slots, in_buffer};
use crate::store::sorted_pairs::{SortedPairs, with_places};
use crate::units::assigned::Assigned;
use crate::units::valuation::{has_just_assumed, makes_true};
use sat_base::{ClauseHash, HashBits, Lit, Var};
use std::alloc::{AllocError, Global};
use std::marker::Model;

/// Clauses at their places. Those that are not removed can be found by their hashes, and the occurrences of their
/// literals are counted.
#[derive(Drop)]
pub struct Clauses {
    alloc: Global,
    slots: Slots,
    index: SortedPairs,
    occurrences: Occurrences,
    /// The number of removed clauses.
    gone: usize,
    /// The number of literals of removed clauses in the buffer. This only affects when the clauses are compacted.
    unused: usize,
}

impl Model for Clauses {
    ghost use Rattle.std.specs.Prelude.{List, ◌≡◌};
    ghost use Rattle.sat_checker.specs.inner.SlotView.{Slot, removed_count};
    ghost use Rattle.sat_checker.specs.inner.OccurrenceView.{SlotsInvariant};

    ghost Value = { List Slot };

    ghost view = { λ s. s.slots };

    ghost invariant = { λ s. SlotsInvariant s.slots s.index s.occurrences × (s.gone ≡ removed_count s.slots) };
}

impl Clauses {
    /// Creates an empty list of clauses.
    pub fn new(alloc: Global) -> Clauses
        ensures { result ≡ [] }
    {
        Clauses {
            alloc,
            slots: Slots::new(alloc),
            index: SortedPairs::new(alloc),
            occurrences: Occurrences::new(alloc),
            gone: 0,
            unused: 0,
        }
    }

    /// Returns a reference to the index: the mixed hashes and places of the clauses that are not removed, in order of
    /// their places.
    pub fn index(&self) -> &SortedPairs
        ensures { IndexesSlots result.now self.now }
    {
        &self.index
    }

    /// Returns the number of places, including those of removed clauses.
    pub fn len(&self) -> usize
        ensures count { result ≡ length self.now }
        ensures increasing { AllByRecursion IsIncreasing (all_lits self.now) }
    {
        self.slots.len()
    }

    /// Returns the literals of the clause at `place` as a slice. Counts one look for each literal.
    #[inline(always)]
    pub fn literals(&self, place: usize, looks: &mut Looks) -> &[Lit]
        requires { place < length self.now }
        ensures lent { result.now ≡ literals_at self.now place }
        ensures looks { looks.new ≡ looks.old + length (literals_at self.now place) }
    {
        self.slots.literals(place, looks)
    }

    /// Returns the id of the clause at `place`.
    pub fn id(&self, place: usize) -> u64
        requires { place < length self.now }
        ensures { result ≡ (slot_at self.now place).clause.id }
    {
        self.slots.id(place)
    }

    /// Returns how many times the clause at `place` is stored: as redundant if `redundant` is true, and as
    /// irredundant otherwise.
    pub fn count(&self, place: usize, redundant: bool) -> u64
        requires { place < length self.now }
        ensures { result ≡ slot_count redundant (slot_at self.now place) }
    {
        self.slots.count(place, redundant)
    }

    /// Returns the place of the first clause, in order of ids, with the hash `hash`, or `None` if there is none.
    #[inline(always)]
    pub fn first(&self, hash: ClauseHash) -> Option<usize>
        ensures { result ≡ first_of (places_of hash self.now) }
    {
        self.index.first(mixed(hash))
    }

    /// Returns the place of the next clause with the hash `hash` after the one at `place`, which must have this hash.
    #[inline(always)]
    pub fn next(&self, hash: ClauseHash, place: usize) -> Option<usize>
        requires { is_among (places_of hash self.now) place ≡ true }
        ensures { result ≡ first_of (places_after place (places_of hash self.now)) }
    {
        self.index.next(mixed(hash), place)
    }

    /// Returns `true` if the literals of the clause at `place` are `literals`.
    fn is_same(&self, place: usize, literals: &[Lit], looks: &mut Looks) -> bool
        requires { place < length self.now }
        ensures same { result ≡ is_same_at self.now literals.now place }
        ensures looks { looks.new ≡ looks.old + length (literals_at self.now place) }
    {
        self.literals(place, looks) == literals
    }

    /// Returns the first place of a clause with the hash `hash` and the literals `literals`, if there is one.
    #[tactic(auto, using(crate::proofs::lemmas::store::Finding::finding))]
    pub fn find(&self, hash: ClauseHash, literals: &[Lit], looks: &mut Looks) -> Option<usize>
        ensures found { result ≡ found_among self.now literals.now (places_of hash self.now) }
        ensures looks { LooksUpTo (total_length (bucket_in hash self.now)) looks.old looks.new }
    {
        let mut next = self.first(hash);
        while let Some(place) = next {
            if self.is_same(place, literals, looks) {
                return Some(place);
            }
            next = self.next(hash, place);
        }
        None
    }

    /// Returns the place of the clause with the id `id`, if this clause is present. Ids must increase with places.
    pub fn place_of(&self, id: u64) -> Option<usize>
        ensures found { IfSome result (IsPresentAt self.now id) }
        ensures absent { result ≡ None → IsIncreasing (slot_ids self.now) → clause_with_id id (live_clauses self.now) ≡ None }
    {
        let place = self.slots.place_of(id)?;
        if self.slots.is_removed(place) {
            return None;
        }
        Some(place)
    }

    /// Returns how many entries a table indexed by these clauses' literals may keep in its list. The list is faster
    /// than the tree that contains the other entries.
    pub fn near_count(&self) -> usize {
        self.occurrences.near_count()
    }

    /// Allows `more` more literals to have their counts in a list, rather than in a tree.
    #[inline(always)]
    pub fn grant(&mut self, more: usize)
        ensures { self.new ≡ self.old }
    {
        self.occurrences.grant(more);
    }

    /// Returns `true` if any clause that is not removed contains the literal. Counts no looks.
    #[inline(always)]
    pub fn have_literal(&self, lit: Lit) -> bool
        ensures { result ≡ true → list_any (λ c. is_among c.literals lit) (live_clauses self.now) ≡ true }
    {
        self.occurrences.has_literal(lit)
    }

    /// Returns `true` if any clause that is not removed contains the variable. Counts no looks.
    pub fn mention(&self, var: Var) -> bool
        ensures { result ≡ list_any (λ c. mentions c.literals var) (live_clauses self.now) }
    {
        self.occurrences.has(var)
    }

    /// Returns `true` if every clause that is stored as irredundant contains an assumed literal.
    pub fn are_satisfied(&self, assigned: &Assigned, looks: &mut Looks) -> bool
        ensures found { result ≡ are_all_true assigned.now.literals (live_clauses self.now) }
        ensures looks { LooksUpTo (live_literal_count self.now) looks.old looks.new }
        // If the result is true, exactly the literals of the irredundant clauses were looked at.
        ensures all { result ≡ true → looks.new ≡ looks.old + irredundant_length (live_clauses self.now) }
    {
        for place in 0..self.slots.len() {
            if self.slots.count(place, false) == 0 {
                continue;
            }
            if !makes_true(assigned, self.slots.literals(place, looks)) {
                return false;
            }
        }
        true
    }

    /// Finds the clause that consists of exactly the assumed literals, without using its hash. Returns how many times
    /// it is stored: as redundant if `redundant` is true, and as irredundant otherwise.
    pub fn assumed_count(&self, redundant: bool, assigned: &Assigned, looks: &mut Looks) -> u64
        ensures found { result ≡ store_count_in redundant (clause_with (canonical assigned.now.literals) (live_clauses self.now)) }
        ensures looks { LooksUpTo (live_literal_count self.now) looks.old looks.new }
    {
        for place in 0..self.slots.len() {
            if self.slots.is_removed(place) {
                continue;
            }
            if has_just_assumed(assigned, self.slots.literals(place, looks)) {
                return self.slots.count(place, redundant);
            }
        }
        0
    }

    /// Appends a clause that is stored once: as redundant if `redundant` is true, and as irredundant otherwise. If
    /// memory runs out, the list is empty afterwards.
    pub fn push(
        &mut self,
        id: u64,
        redundant: bool,
        hash: ClauseHash,
        literals: &[Lit],
    ) -> Result<(), AllocError>
        requires { IsIncreasing literals.now }
        ensures { OnOk result (self.new ≡ self.old ++ stored_slot redundant id hash literals.now ∷ []) }
    {
        let alloc = self.alloc;
        let added = add(
            &mut self.slots,
            &mut self.index,
            &mut self.occurrences,
            id,
            redundant,
            hash,
            literals,
        );
        if added.is_err() {
            *self = Clauses::new(alloc);
            return Err(AllocError);
        }
        Ok(())
    }

    /// Files the present clauses again, under the hashes that `hasher` computes. Never allocates.
    pub fn rehash(&mut self, hasher: &ClauseHasher, looks: &mut Looks)
        ensures hashed { self.new ≡ rehashed_slots hasher.now self.old }
        ensures looks { LooksUpTo (live_literal_count self.old) looks.old looks.new }
    {
        file_all(&mut self.slots, hasher, &mut self.index, looks);
    }

    /// Adds one to a count of the clause at `place`, which must not be removed: to the redundant count if `redundant`
    /// is true, and to the irredundant count otherwise.
    pub fn add_count(&mut self, place: usize, redundant: bool)
        requires inside { place < length self.old }
        requires there { is_removed (slot_at self.old place) ≡ false }
        requires room { slot_count redundant (slot_at self.old place) + 1 < 2 ^ 64 }
        ensures { self.new ≡ with_count_at redundant place self.old }
    {
        self.slots.add_count(place, redundant);
    }

    /// Subtracts one from a count of the clause at `place`, whose literals must be `literals`, in any order: from the
    /// redundant count if `redundant` is true, and from the irredundant count otherwise. If both counts are now zero,
    /// the clause is removed.
    pub fn take_count(&mut self, place: usize, redundant: bool, literals: &[Lit])
        requires inside { place < length self.old }
        requires literals { (l : ℕ) → times_in l literals.now ≡ times_in l (literals_at self.old place) }
        requires some { 0 < slot_count redundant (slot_at self.old place) }
        ensures { self.new ≡ without_count_at redundant place self.old }
    {
        let _count = self.slots.len();
        self.slots.take_count(place, redundant);
        if self.slots.is_removed(place) {
            self.index.remove(place);
            self.occurrences.subtract(literals);
            self.gone += 1;
            self.unused = self.unused.saturating_add(in_buffer(literals.len()));
        }
    }

    /// Returns `true` if the literals of removed clauses fill more than half of the buffer, and are more than four for
    /// each clause.
    fn wastes_buffer(&self) -> bool {
        self.unused > self.slots.buffered() / 2 && self.unused / 4 > self.slots.len()
    }

    /// Drops the removed clauses from memory if they make up more than half of all clauses, or if their literals waste
    /// much of the buffer. This changes the places of other clauses. If memory runs out, all clauses are kept.
    pub fn compact(&mut self, looks: &mut Looks) -> Result<(), AllocError>
        ensures left { CompactsOrKeeps self.old self.new }
        ensures few { OnOk result (2 * removed_count self.new ≤ length self.new) }
        ensures looks { LooksUpTo (live_literal_count self.old) looks.old looks.new }
    {
        if self.gone <= self.slots.len() / 2 && !self.wastes_buffer() {
            return Ok(());
        }
        drop_removed(self.alloc, &mut self.slots, &mut self.index, looks)?;
        self.gone = 0;
        self.unused = 0;
        Ok(())
    }
}

/// Returns the full width of a hash, 64 bits.
pub(crate) fn all_bits() -> HashBits
    ensures { result ≡ 64 }
{
    HashBits::new(64).unwrap()
}

/// Appends a clause that is stored once: as redundant if `redundant` is true, and as irredundant otherwise.
fn add(
    slots: &mut Slots,
    index: &mut SortedPairs,
    occurrences: &mut Occurrences,
    id: u64,
    redundant: bool,
    hash: ClauseHash,
    literals: &[Lit],
) -> Result<(), AllocError>
    requires kept { SlotsInvariant slots.old index.old occurrences.old }
    requires increasing { IsIncreasing literals.now }
    ensures kept { OnOk result (SlotsInvariant slots.new index.new occurrences.new) }
    ensures slots { OnOk result (slots.new ≡ slots.old ++ stored_slot redundant id hash literals.now ∷ []) }
{
    occurrences.make_room(literals)?;
    slots.push(id, 0, 0, FiledHash::new(hash), literals)?;
    index.push(mixed(hash))?;
    let count = slots.len();
    slots.add_count(count - 1, redundant);
    let _places = index.places();
    occurrences.add(literals);
    Ok(())
}

/// Files the remaining clauses in `next`, from the last to the first, under the places that they will have once the
/// removed clauses are dropped.
fn file_live(slots: &Slots, index: &SortedPairs, next: &mut SortedPairs)
    requires filed { IndexesSlots index.now slots.now }
    requires none { next.old.pairs ≡ [] }
    requires places { next.old.places ≡ length (slots_not_removed slots.now) }
    ensures { next.new ≡ record { pairs = slot_pairs (slots_not_removed slots.now); places = next.old.places } }
{
    let mut to = next.places();
    let count = slots.len();
    for done in 0..count {
        let place = count - 1 - done;
        if slots.is_removed(place) {
            continue;
        }
        to -= 1;
        next.file_before(to, index.hash(place));
    }
}

/// Drops the removed clauses from memory, and files the others under their new places. If memory runs out,
/// nothing changes.
fn drop_removed(
    alloc: Global,
    slots: &mut Slots,
    index: &mut SortedPairs,
    looks: &mut Looks,
) -> Result<(), AllocError>
    requires { IndexesSlots index.old slots.old }
    ensures left { OnOk result (slots.new ≡ slots_not_removed slots.old) }
    ensures filed { OnOk result (IndexesSlots index.new (slots_not_removed slots.old)) }
    ensures err { OnErr result ((slots.new ≡ slots.old) × (index.new ≡ index.old)) }
    ensures looks { LooksUpTo (live_literal_count slots.old) looks.old looks.new }
{
    let mut left = Slots::new(alloc);
    left.push_live(slots, looks)?;
    let mut next = with_places(alloc, left.len())?;
    file_live(slots, index, &mut next);
    *index = next;
    *slots = left;
    Ok(())
}

/// Hashes all clauses that are not removed, and files them in `index`, from the last to the first.
fn file_all(slots: &mut Slots, hasher: &ClauseHasher, index: &mut SortedPairs, looks: &mut Looks)
    requires places { index.old.places ≡ length slots.old }
    ensures hashed { slots.new ≡ rehashed_slots hasher.now slots.old }
    ensures filed { IndexesSlots index.new (rehashed_slots hasher.now slots.old) }
    ensures looks { LooksUpTo (live_literal_count slots.old) looks.old looks.new }
{
    index.clear();
    let count = slots.len();
    for done in 0..count {
        let place = count - 1 - done;
        if slots.is_removed(place) {
            continue;
        }
        let hash = hasher.clause_hash(slots.literals(place, looks));
        slots.set_hash(place, hash);
        index.file_before(place, mixed(hash));
    }
}
