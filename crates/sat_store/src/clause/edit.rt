//! A mutable view of a clause, which borrows from the buffer.
ghost use Rattle.std.specs.Prelude.{◌≡◌, ◌<◌, ◌≤◌, ℕ, length, min, slice_index, slice_set, take};
ghost use Rattle.std.specs.Map.Iter.{ShowsInOrder};
ghost use Rattle.sat_store.specs.clause.Header.{is_learned};
ghost use Rattle.sat_store.specs.clause.Buffer.{swapped};

use crate::clause::alloc::{ClauseAlloc, ClauseRef};
use crate::clause::header::ClauseHeader;
use crate::clause::tier::Tier;
use crate::clause::view::LitsIter;
use sat_base::Lit;

/// A mutable view of a clause in the buffer.
#[derive(Drop)]
pub struct ClauseMut<'a> {
    /// The buffer of the clause.
    pub buffer: &'a mut ClauseAlloc,
    /// The reference to the clause.
    pub cref: ClauseRef,
}

impl<'a> ClauseMut<'a> {
    ghost use Rattle.sat_store.specs.clause.Edits.{EditsClause, IsViewOfClause, view_header, view_lits};

    /// Returns the view itself, which can set the fields of the header.
    pub fn header_mut(&mut self) -> &mut ClauseMut<'a>
        ensures same { result.ghost_name ≡ self.entry.ghost_name }
        ensures value { result.now ≡ self.old }
    {
        self
    }

    /// Returns the view itself, which can set and swap the literals.
    pub fn lits_mut(&mut self) -> &mut ClauseMut<'a>
        ensures same { result.ghost_name ≡ self.entry.ghost_name }
        ensures value { result.now ≡ self.old }
    {
        self
    }

    /// Returns the header.
    pub fn header(&self) -> ClauseHeader
        requires { IsViewOfClause self.now }
        ensures { result ≡ view_header self.now }
    {
        self.buffer.header(self.cref)
    }

    /// Returns `true` if the clause was deleted.
    pub fn deleted(&self) -> bool
        requires { IsViewOfClause self.now }
        ensures { result ≡ (view_header self.now).deleted }
    {
        self.header().deleted()
    }

    /// Returns the tier of the clause.
    pub fn tier(&self) -> Tier
        requires { IsViewOfClause self.now }
        ensures { result ≡ (view_header self.now).tier }
    {
        self.header().tier()
    }

    /// Returns `true` if the clause is learned: its tier is not `Irred`.
    pub fn redundant(&self) -> bool
        requires { IsViewOfClause self.now }
        ensures { result ≡ is_learned (view_header self.now).tier }
    {
        self.header().redundant()
    }

    /// Returns `true` if the clause is marked.
    pub fn mark(&self) -> bool
        requires { IsViewOfClause self.now }
        ensures { result ≡ (view_header self.now).mark }
    {
        self.header().mark()
    }

    /// Returns `true` if the clause has been used since this flag was last cleared.
    pub fn active(&self) -> bool
        requires { IsViewOfClause self.now }
        ensures { result ≡ (view_header self.now).active }
    {
        self.header().active()
    }

    /// Returns the glue of the clause, which is at most 63.
    pub fn glue(&self) -> usize
        requires { IsViewOfClause self.now }
        ensures { result ≡ (view_header self.now).glue }
    {
        self.header().glue()
    }

    /// Returns the activity of the clause.
    pub fn activity(&self) -> u32
        requires { IsViewOfClause self.now }
        ensures { result ≡ (view_header self.now).activity }
    {
        self.header().activity()
    }

    /// Returns the number of literals.
    pub fn len(&self) -> usize
        requires { IsViewOfClause self.now }
        ensures { result ≡ length (view_lits self.now) }
    {
        self.buffer.len(self.cref)
    }

    /// Returns the literal at position `at`.
    pub fn get(&self, at: usize) -> Lit
        requires clause { IsViewOfClause self.now }
        requires within { at < length (view_lits self.now) }
        ensures { result ≡ slice_index (view_lits self.now) at }
    {
        self.buffer.lit(self.cref, at)
    }

    /// Returns an iterator over the literals, in order.
    pub fn iter(&self) -> LitsIter<'_>
        requires { IsViewOfClause self.now }
        ensures rest { result ≡ view_lits self.now }
        ensures runs { ShowsInOrder (λ (x : ℕ). x) }
    {
        self.buffer.clause(self.cref).lits().iter()
    }

    /// Replaces the literal at position `at`.
    pub fn set(&mut self, at: usize, lit: Lit)
        requires clause { IsViewOfClause self.old }
        requires within { at < length (view_lits self.old) }
        ensures buffer { self.new.buffer.ghost_name ≡ self.old.buffer.ghost_name }
        ensures edit { EditsClause self.old self.new (view_header self.old) (slice_set (view_lits self.old) at lit) }
    {
        self.buffer.set_lit(self.cref, at, lit);
    }

    /// Swaps the literals at positions `i` and `j`.
    pub fn swap(&mut self, i: usize, j: usize)
        requires clause { IsViewOfClause self.old }
        requires first_within { i < length (view_lits self.old) }
        requires second_within { j < length (view_lits self.old) }
        ensures buffer { self.new.buffer.ghost_name ≡ self.old.buffer.ghost_name }
        ensures edit { EditsClause self.old self.new (view_header self.old) (swapped (view_lits self.old) i j) }
    {
        self.buffer.swap_lits(self.cref, i, j);
    }

    /// Replaces the header. The new header must have the length of the old one.
    fn set_header(&mut self, header: ClauseHeader)
        requires clause { IsViewOfClause self.old }
        requires same_len { header.len ≡ (view_header self.old).len }
        ensures buffer { self.new.buffer.ghost_name ≡ self.old.buffer.ghost_name }
        ensures edit { EditsClause self.old self.new header (view_lits self.old) }
    {
        self.buffer.set_header(self.cref, header);
    }

    /// Drops the literals from position `len` on.
    pub fn set_len(&mut self, len: usize)
        requires clause { IsViewOfClause self.old }
        requires no_longer { len ≤ length (view_lits self.old) }
        ensures buffer { self.new.buffer.ghost_name ≡ self.old.buffer.ghost_name }
        ensures edit { EditsClause self.old self.new (record (view_header self.old) { len = len })
            (take len (view_lits self.old)) }
    {
        let mut header = self.buffer.header(self.cref);
        header.set_len(len);
        self.buffer.set_header(self.cref, header);
    }

    /// Sets whether the clause was deleted.
    pub fn set_deleted(&mut self, deleted: bool)
        requires { IsViewOfClause self.old }
        ensures buffer { self.new.buffer.ghost_name ≡ self.old.buffer.ghost_name }
        ensures edit { EditsClause self.old self.new (record (view_header self.old) { deleted = deleted })
            (view_lits self.old) }
    {
        let mut header = self.header();
        header.set_deleted(deleted);
        self.set_header(header);
    }

    /// Sets the tier of the clause.
    pub fn set_tier(&mut self, tier: Tier)
        requires { IsViewOfClause self.old }
        ensures buffer { self.new.buffer.ghost_name ≡ self.old.buffer.ghost_name }
        ensures edit { EditsClause self.old self.new (record (view_header self.old) { tier = tier }) (view_lits self.old) }
    {
        let mut header = self.header();
        header.set_tier(tier);
        self.set_header(header);
    }

    /// Marks the clause, or clears its mark.
    pub fn set_mark(&mut self, mark: bool)
        requires { IsViewOfClause self.old }
        ensures buffer { self.new.buffer.ghost_name ≡ self.old.buffer.ghost_name }
        ensures edit { EditsClause self.old self.new (record (view_header self.old) { mark = mark }) (view_lits self.old) }
    {
        let mut header = self.header();
        header.set_mark(mark);
        self.set_header(header);
    }

    /// Sets whether the clause counts as used.
    pub fn set_active(&mut self, active: bool)
        requires { IsViewOfClause self.old }
        ensures buffer { self.new.buffer.ghost_name ≡ self.old.buffer.ghost_name }
        ensures edit { EditsClause self.old self.new (record (view_header self.old) { active = active })
            (view_lits self.old) }
    {
        let mut header = self.header();
        header.set_active(active);
        self.set_header(header);
    }

    /// Sets the glue of the clause to `glue`, or to 63 if `glue` is larger.
    pub fn set_glue(&mut self, glue: usize)
        requires { IsViewOfClause self.old }
        ensures buffer { self.new.buffer.ghost_name ≡ self.old.buffer.ghost_name }
        ensures edit { EditsClause self.old self.new (record (view_header self.old) { glue = min glue 63 })
            (view_lits self.old) }
    {
        let mut header = self.header();
        header.set_glue(glue);
        self.set_header(header);
    }

    /// Sets the activity of the clause.
    pub fn set_activity(&mut self, activity: u32)
        requires { IsViewOfClause self.old }
        ensures buffer { self.new.buffer.ghost_name ≡ self.old.buffer.ghost_name }
        ensures edit { EditsClause self.old self.new (record (view_header self.old) { activity = activity })
            (view_lits self.old) }
    {
        let mut header = self.header();
        header.set_activity(activity);
        self.set_header(header);
    }
}
