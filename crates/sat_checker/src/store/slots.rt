//! The clauses at their places, with sorted literals, ids, counts and hashes.
ghost use Rattle.std.specs.Prelude.{◌≡◌, ◌+◌, ◌<◌, ◌^◌, ℕ, List, ◌∷◌, [], ◌++◌, length, nat_le, false, None, OnOk};
ghost use Rattle.std.specs.Prelude.{OnErr, IfOk, IfSome, if◌then◌else◌};
ghost use Rattle.std.specs.List.{AllByRecursion};
ghost use Rattle.sat_checker.specs.LiteralSets.{is_among};
ghost use Rattle.sat_checker.specs.inner.Marks.{IsIncreasing};
ghost use Rattle.sat_checker.specs.inner.SlotView.{lits_in, LitsWithin, slot_at, literals_at, all_lits, slot_ids};
ghost use Rattle.sat_checker.specs.inner.SlotView.{slot_with, with_count_at, without_count_at, with_hash_at};
ghost use Rattle.sat_checker.specs.inner.SlotView.{slot_count, is_removed, slots_not_removed, live_literal_count};
ghost use Rattle.sat_checker.specs.inner.LookCounts.{LooksUpTo};

use crate::looks::Looks;
use crate::store::filed_hash::FiledHash;
use sat_base::{ClauseHash, Lit};
use std::alloc::{AllocError, Global};
use std::marker::Model;

/// The literals of a clause. Up to four literals are stored inline, and more in a buffer.
#[derive(Clone, Copy)]
pub struct ClauseLits {
    inline: [Lit; 4],
    len: u32,
    start: u32,
}

impl ClauseLits {
    /// Stores literals inline, or at the end of `buffer`, and returns where they are.
    fn new(buffer: &mut Vec<Lit>, literals: &[Lit]) -> Result<ClauseLits, AllocError>
        ensures kept { (more : List ℕ) × (buffer.new.items ≡ buffer.old.items ++ more) }
        ensures within { IfOk result (λ c. LitsWithin buffer.new.items c) }
        ensures literals { IfOk result (λ c. lits_in buffer.new.items c ≡ literals.now) }
    {
        let mut inline = [Lit::from_code(0); 4];
        let len = literals.len();
        let start = buffer.len();
        if len <= 4 {
            inline[..len].copy_from_slice(literals);
            return Ok(ClauseLits {
                inline,
                len: len as u32,
                start: 0,
            });
        }
        if len > u32::MAX as usize || start > u32::MAX as usize {
            return Err(AllocError);
        }
        buffer.extend_from_slice(literals)?;
        Ok(ClauseLits {
            inline,
            len: len as u32,
            start: start as u32,
        })
    }

    /// Returns the literals as a slice. If they are not stored inline, they must be in `buffer`.
    pub fn slice<'a>(&'a self, buffer: &'a [Lit]) -> &'a [Lit]
        requires { LitsWithin buffer.now self.now }
        ensures { result.now ≡ lits_in buffer.now self.now }
    {
        let len = self.len as usize;
        if len <= 4 {
            &self.inline[..len]
        } else {
            let start = self.start as usize;
            &buffer[start..start + len]
        }
    }
}

/// Returns how many literals of a clause with `count` literals are in the buffer.
pub(crate) fn in_buffer(count: usize) -> usize
    ensures { result ≡ (if nat_le count 4 then 0 else count) }
{
    if count <= 4 { 0 } else { count }
}

/// A clause at its place, in 48 bytes. Its hash is in the index.
#[derive(Drop)]
struct Entry {
    lits: ClauseLits,
    id: u64,
    irredundant: u64,
    redundant: u64,
    hash: FiledHash,
}

/// Clauses at their places, including the removed ones. In contracts, the value is the list of these clauses.
#[derive(Drop)]
pub(crate) struct Slots {
    entries: Vec<Entry>,
    buffer: Vec<Lit>,
}

impl Model for Slots {
    ghost use Rattle.std.specs.Prelude.{List, map};
    ghost use Rattle.std.specs.List.{All};
    ghost use Rattle.sat_checker.specs.inner.SlotView.{Slot};
    ghost use Rattle.sat_checker.specs.inner.EntryView.{slot_of, IsEntry};

    ghost Value = { List Slot };

    ghost view = { λ s. map (slot_of s.buffer.items) s.entries.items };

    ghost invariant = { λ s. All (IsEntry s.buffer.items) s.entries.items };
}

impl Slots {
    /// Creates an empty list of clauses.
    pub fn new(alloc: Global) -> Slots
        ensures { result ≡ [] }
    {
        Slots {
            entries: Vec::new(alloc),
            buffer: Vec::new(alloc),
        }
    }

    /// Returns the number of places, including those of removed clauses.
    pub fn len(&self) -> usize
        ensures count { result ≡ length self.now }
        ensures increasing { AllByRecursion IsIncreasing (all_lits self.now) }
    {
        self.entries.len()
    }

    /// Returns the literals of the clause at `place` as a slice. Counts one look for each literal. Other modules can
    /// access the literals only through this function.
    #[inline(always)]
    pub fn literals(&self, place: usize, looks: &mut Looks) -> &[Lit]
        requires { place < length self.now }
        ensures lent { result.now ≡ literals_at self.now place }
        ensures looks { looks.new ≡ looks.old + length (literals_at self.now place) }
    {
        let literals = self.entries[place].lits.slice(&self.buffer);
        looks.count(literals.len());
        literals
    }

    /// Returns the id of the clause at `place`.
    pub fn id(&self, place: usize) -> u64
        requires { place < length self.now }
        ensures { result ≡ (slot_at self.now place).clause.id }
    {
        self.entries[place].id
    }

    /// Returns the place of the clause with the id `id`, if there is one. Ids must increase with places.
    pub fn place_of(&self, id: u64) -> Option<usize>
        ensures found { IfSome result (λ place. (place < length self.now) × ((slot_at self.now place).clause.id ≡ id)) }
        ensures absent { result ≡ None → IsIncreasing (slot_ids self.now) → is_among (slot_ids self.now) id ≡ false }
    {
        self.entries
            .binary_search_by_key(&id, |entry| entry.id)
            .ok()
    }

    /// Returns the number of literals in the buffer, including those of removed clauses.
    pub fn buffered(&self) -> usize {
        self.buffer.len()
    }

    /// Returns how many times the clause at `place` is stored: as redundant if `redundant` is true, and as
    /// irredundant otherwise.
    pub fn count(&self, place: usize, redundant: bool) -> u64
        requires { place < length self.now }
        ensures { result ≡ slot_count redundant (slot_at self.now place) }
    {
        let entry = &self.entries[place];
        if redundant {
            entry.redundant
        } else {
            entry.irredundant
        }
    }

    /// Returns `true` if the clause at `place` is removed, that is, whether both of its counts are zero.
    pub fn is_removed(&self, place: usize) -> bool
        requires { place < length self.now }
        ensures { result ≡ is_removed (slot_at self.now place) }
    {
        self.count(place, false) == 0 && self.count(place, true) == 0
    }

    /// Appends a clause with the given id, counts, hash and literals.
    pub fn push(
        &mut self,
        id: u64,
        irredundant: u64,
        redundant: u64,
        hash: FiledHash,
        literals: &[Lit],
    ) -> Result<(), AllocError>
        requires { IsIncreasing literals.now }
        ensures ok { OnOk result (self.new ≡ self.old ++ slot_with id irredundant redundant hash.hash literals.now
            ∷ []) }
        ensures err { OnErr result (self.new ≡ self.old) }
    {
        let lits = ClauseLits::new(&mut self.buffer, literals)?;
        self.entries.push(Entry {
            lits,
            id,
            irredundant,
            redundant,
            hash,
        })?;
        Ok(())
    }

    /// Appends the clauses of `others` that are not removed. Counts one look for each literal that it copies.
    pub fn push_live(&mut self, others: &Slots, looks: &mut Looks) -> Result<(), AllocError>
        ensures copied { OnOk result (self.new ≡ self.old ++ slots_not_removed others.now) }
        ensures looks { LooksUpTo (live_literal_count others.now) looks.old looks.new }
    {
        for place in 0..others.len() {
            if others.is_removed(place) {
                continue;
            }
            let literals = others.literals(place, looks);
            let entry = &others.entries[place];
            self.push(
                entry.id,
                entry.irredundant,
                entry.redundant,
                entry.hash.same(),
                literals,
            )?;
        }
        Ok(())
    }

    /// Adds one to a count of the clause at `place`: to the redundant count if `redundant` is true, and to the
    /// irredundant count otherwise.
    pub fn add_count(&mut self, place: usize, redundant: bool)
        requires inside { place < length self.old }
        requires room { slot_count redundant (slot_at self.old place) + 1 < 2 ^ 64 }
        ensures { self.new ≡ with_count_at redundant place self.old }
    {
        let entry = &mut self.entries[place];
        if redundant {
            entry.redundant += 1;
        } else {
            entry.irredundant += 1;
        }
    }

    /// Subtracts one from a count of the clause at `place`: from the redundant count if `redundant` is true, and from
    /// the irredundant count otherwise. The count must not be zero.
    pub fn take_count(&mut self, place: usize, redundant: bool)
        requires inside { place < length self.old }
        requires some { 0 < slot_count redundant (slot_at self.old place) }
        ensures { self.new ≡ without_count_at redundant place self.old }
    {
        let entry = &mut self.entries[place];
        if redundant {
            entry.redundant -= 1;
        } else {
            entry.irredundant -= 1;
        }
    }

    /// Sets the hash under which the clause at `place` is filed.
    pub fn set_hash(&mut self, place: usize, hash: ClauseHash)
        requires { place < length self.old }
        ensures { self.new ≡ with_hash_at hash place self.old }
    {
        self.entries[place].hash = FiledHash::new(hash);
    }
}
