//! The clauses that are present, by id.
ghost use Rattle.std.specs.Prelude.{◌≡◌, ◌<◌, ℕ, [], None, length, slice_index, slice_index_or, OnOk, MatchOption};
ghost use Rattle.std.specs.Prelude.{false};
ghost use Rattle.sat_checker.specs.SortedSets.{IsIncreasing};
ghost use Rattle.sat_hints.specs.inner.Clauses.{present_clause_at, clause_in, occurrences_of, AddsPresentClause};
ghost use Rattle.sat_hints.specs.inner.Clauses.{IdsBelow, FindsPresentClause};
ghost use Rattle.sat_hints.specs.inner.Clauses.{PresentInvariant, SamePresentClauses, RemovesPresentClause};

use crate::guesses::Guesses;
use sat_base::{FlatLists, Lit};
use std::alloc::{AllocError, Global};

/// Clauses in order of their ids. Removed clauses are kept until they make up more than half of the stored data.
#[derive(Drop)]
pub(crate) struct Present {
    ids: Vec<u64>,
    clauses: FlatLists<Lit>,
    removed: Vec<bool>,
    guesses: Guesses,
    /// The number of stored clauses plus the number of their literals. `unused` is the same sum for the
    /// removed clauses.
    total: usize,
    unused: usize,
    alloc: Global,
}

impl Present {
    /// Returns an empty collection of clauses. Never allocates.
    pub(crate) fn new(alloc: Global) -> Present
        ensures store { PresentInvariant result }
        ensures none { result.ids.items ≡ [] }
        ensures clauses { (id : ℕ) → clause_in result id ≡ None }
        ensures times { (l : ℕ) → occurrences_of result l ≡ 0 }
    {
        Present {
            ids: Vec::new(alloc),
            clauses: FlatLists::new(alloc),
            removed: Vec::new(alloc),
            guesses: Guesses::new(alloc),
            total: 0,
            unused: 0,
            alloc,
        }
    }

    /// Returns the place of the clause under `id`, or `None` if no clause is present.
    #[inline(always)]
    pub(crate) fn find(&self, id: u64) -> Option<usize>
        requires { PresentInvariant self.now }
        ensures { MatchOption result (clause_in self.now id ≡ None)
            (FindsPresentClause self.now id) }
    {
        let Ok(place) = self.guesses.search(&self.ids, id) else {
            return None;
        };
        if self.removed[place] {
            return None;
        }
        Some(place)
    }

    /// Returns the literals of the clause at `place` as a slice.
    #[inline(always)]
    pub(crate) fn clause(&self, place: usize) -> &[Lit]
        requires { place < length self.now.clauses }
        ensures { result.now ≡ present_clause_at self.now place }
    {
        self.clauses.get(place)
    }

    /// Returns the number of clauses, including removed ones.
    pub(crate) fn len(&self) -> usize
        ensures { result ≡ length self.now.ids.items }
    {
        self.ids.len()
    }

    /// Returns how many entries a table of marks for the clauses' literals may keep in its list, rather than in
    /// its tree.
    pub(crate) fn near_limit(&self) -> usize {
        self.total.saturating_mul(4)
    }

    /// Returns `true` if the clause at `place` is removed.
    pub(crate) fn is_removed(&self, place: usize) -> bool
        requires { place < length self.now.removed.items }
        ensures { result ≡ slice_index_or self.now.removed.items place false }
    {
        self.removed[place]
    }

    /// Adds a clause, given as a sorted set, under `id`, which must be above all earlier ids.
    pub(crate) fn push(&mut self, id: u64, clause: &[Lit]) -> Result<(), AllocError>
        requires store { PresentInvariant self.old }
        requires above { IdsBelow self.old.ids.items id }
        requires increasing { IsIncreasing clause.now }
        ensures { OnOk result (AddsPresentClause self.old self.new id clause.now) }
    {
        self.guesses.note(id, self.ids.len())?;
        self.ids.push(id)?;
        self.removed.push(false)?;
        self.clauses.push(clause)?;
        self.total = self.total.saturating_add(clause.len()).saturating_add(1);
        Ok(())
    }

    /// Removes the clause at `place`, and drops the removed clauses from memory if there are many.
    pub(crate) fn remove(&mut self, place: usize) -> Result<(), AllocError>
        requires store { PresentInvariant self.old }
        requires within { place < length self.old.clauses }
        ensures { OnOk result (RemovesPresentClause self.old self.new (slice_index self.old.ids.items place)) }
    {
        self.take_out(place);
        self.compact_if_sparse()
    }

    /// Marks the clause at `place` as removed.
    fn take_out(&mut self, place: usize)
        requires store { PresentInvariant self.old }
        requires within { place < length self.old.clauses }
        ensures { RemovesPresentClause self.old self.new (slice_index self.old.ids.items place) }
    {
        self.removed[place] = true;
        let count = self.clauses.get(place).len();
        self.unused = self.unused.saturating_add(count).saturating_add(1);
    }

    /// Drops the removed clauses from memory if they make up more than half of the stored data.
    fn compact_if_sparse(&mut self) -> Result<(), AllocError>
        requires { PresentInvariant self.old }
        ensures { OnOk result (SamePresentClauses self.old self.new) }
    {
        if self.unused <= self.total / 2 {
            return Ok(());
        }
        self.compact()
    }

    /// Drops the removed clauses from memory.
    fn compact(&mut self) -> Result<(), AllocError>
        requires { PresentInvariant self.old }
        ensures { OnOk result (SamePresentClauses self.old self.new) }
    {
        let mut kept = Present::new(self.alloc);
        std::mem::swap(&mut kept.guesses, &mut self.guesses);
        self.keep_in(&mut kept)?;
        *self = kept;
        Ok(())
    }

    /// Appends the present clauses, in order, to `kept`, which must be empty.
    fn keep_in(&self, kept: &mut Present) -> Result<(), AllocError>
        requires store { PresentInvariant self.now }
        requires none { kept.old.ids.items ≡ [] }
        requires empty { PresentInvariant kept.old }
        requires clauses { (id : ℕ) → clause_in kept.old id ≡ None }
        requires times { (l : ℕ) → occurrences_of kept.old l ≡ 0 }
        ensures { OnOk result (SamePresentClauses self.now kept.new) }
    {
        for place in 0..self.ids.len() {
            if self.removed[place] {
                continue;
            }
            kept.push(self.ids[place], self.clauses.get(place))?;
        }
        Ok(())
    }
}
