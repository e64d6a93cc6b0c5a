//! The buffer of the long clauses.
ghost use Rattle.std.specs.Prelude.{◌≡◌, ◌<◌, ◌≤◌, ◌^◌, ◌+◌, ◌-◌, ◌*◌, ◌↔◌, ◌++◌, [], length, slice_index, slice_set};
ghost use Rattle.std.specs.Prelude.{take, IfOk, OnErr, vec_len, vec_capacity};
ghost use Rattle.std.specs.List.{All};
ghost use Rattle.sat_base.specs.values.Literals.{var_limit};
ghost use Rattle.sat_store.specs.clause.Buffer.{IsClause, header_at, lits_at, ChangesClauseAt, AppendsClause, swapped};
ghost use Rattle.sat_store.specs.clause.Full.{IfStoreFull};

use crate::clause::edit::ClauseMut;
use crate::clause::header::ClauseHeader;
use crate::clause::view::Clause;
use sat_base::Lit;
use std::alloc::{AllocError, Global};
use std::error::Error;
use std::fmt;
use std::marker::Model;

/// The number of words that precede a clause's literals.
const HEADER_LEN: usize = 3;

/// A reference to a clause in a `ClauseAlloc`. Clauses that were added later have greater references.
///
/// Contracts see the offset of the first word of the clause.
#[derive(Clone, Copy, Debug, PartialEq, Eq, PartialOrd, Ord)]
pub struct ClauseRef {
    offset: u32,
}

impl Model for ClauseRef {
    ghost use Rattle.std.specs.Prelude.{ℕ};

    ghost Value = { ℕ };

    ghost view = { λ c. c.offset };

    ghost inverse = { λ o. record { offset = o } };
}

impl ClauseRef {
    /// Returns the offset of the first word of the clause.
    pub fn offset(self) -> usize
        ensures { result ≡ self }
    {
        self.offset as usize
    }
}

/// Why a clause was not stored.
#[derive(Clone, Copy, Debug, PartialEq, Eq)]
pub enum StoreError {
    /// The buffer has more than 2^32 - 1 words, so a reference can't represent the next offset.
    StoreFull,
    /// An allocation failed.
    OutOfMemory,
}

impl fmt::Display for StoreError {
    /// Writes a short message in lower case.
    fn fmt<W: fmt::Write>(&self, f: &mut fmt::Formatter<W>) -> fmt::Result {
        match self {
            StoreError::StoreFull => write!(f, "no room for another clause"),
            StoreError::OutOfMemory => write!(f, "out of memory"),
        }
    }
}

impl Error for StoreError {}

impl From<AllocError> for StoreError {
    ghost use Rattle.std.specs.Prelude.{◌≡◌};
    ghost use Rattle.sat_store.specs.declared.clause.alloc.StoreError.TheVariants.{OutOfMemory};

    ghost from_gives = { λ _ e. e ≡ OutOfMemory };

    /// Returns `OutOfMemory`.
    fn from(_e: AllocError) -> StoreError {
        StoreError::OutOfMemory
    }
}

/// The buffer of the long clauses: a map from references to headers and literals.
///
/// Contracts see the words of the buffer, and read them only through `IsClause`, `header_at` and `lits_at`.
#[derive(Debug, Drop)]
pub struct ClauseAlloc {
    words: Vec<u32>,
}

impl Model for ClauseAlloc {
    ghost use Rattle.std.specs.Prelude.{ℕ, List};

    ghost Value = { List ℕ };

    ghost view = { λ a. a.words.items };
}

impl ClauseAlloc {
    /// Returns an empty buffer. Never allocates.
    pub fn new(alloc: Global) -> ClauseAlloc
        ensures { result ≡ [] }
    {
        ClauseAlloc {
            words: Vec::new(alloc),
        }
    }

    /// Returns an empty buffer with capacity for `capacity` words.
    pub fn with_capacity(alloc: Global, capacity: usize) -> Result<ClauseAlloc, AllocError>
        ensures { IfOk result (λ words. words ≡ []) }
    {
        Ok(ClauseAlloc {
            words: Vec::with_capacity(alloc, capacity)?,
        })
    }

    /// Returns the number of words in use, including those of deleted and shortened clauses.
    pub fn buffer_size(&self) -> usize
        ensures { result ≡ length self.now }
    {
        self.words.len()
    }

    /// Appends a clause of three or more literals, and returns the reference to it. The length of the clause is the
    /// number of literals, whatever the header says.
    pub fn add_clause(
        &mut self,
        header: ClauseHeader,
        lits: &[Lit],
    ) -> Result<ClauseRef, StoreError>
        requires long { 3 ≤ length lits.now }
        requires fits { length lits.now < 2 ^ 32 }
        ensures added { IfOk result (λ cref. AppendsClause self.old self.new cref header lits.now) }
        ensures full { (result ≡ Err StoreError.StoreFull) ↔ (2 ^ 32 - 1 < length self.old) }
        ensures kept { OnErr result (self.new ≡ self.old) }
    {
        let offset = self.words.len();
        if offset > 4294967295 {
            return Err(StoreError::StoreFull);
        }
        self.words.reserve(HEADER_LEN + lits.len())?;
        self.words.push_reserved(header.activity());
        self.words.push_reserved(header.flags());
        self.words.push_reserved(lits.len() as u32);
        push_lits(&mut self.words, lits);
        Ok(ClauseRef {
            offset: offset as u32,
        })
    }

    /// Appends a copy of a clause from another buffer.
    ///
    /// Never returns `StoreFull` if the length of this buffer is at most the offset of `cref`.
    pub fn copy_clause(
        &mut self,
        from: &ClauseAlloc,
        cref: ClauseRef,
    ) -> Result<ClauseRef, StoreError>
        requires { IsClause from.now cref }
        ensures added { IfOk result (λ c. AppendsClause self.old self.new c (header_at from.now cref)
            (lits_at from.now cref)) }
        ensures full { (result ≡ Err StoreError.StoreFull) ↔ (2 ^ 32 - 1 < length self.old) }
        ensures room { length self.old ≤ cref → IfStoreFull result ⊥ }
        ensures kept { OnErr result (self.new ≡ self.old) }
    {
        let offset = self.words.len();
        if offset > u32::MAX as usize {
            return Err(StoreError::StoreFull);
        }
        let at = cref.offset as usize;
        let end = at + HEADER_LEN + from.words[at + 2] as usize;
        self.words.extend_from_slice(&from.words[at..end])?;
        Ok(ClauseRef {
            offset: offset as u32,
        })
    }

    /// Removes a clause, and all clauses after it.
    pub fn truncate(&mut self, cref: ClauseRef)
        ensures { self.new ≡ take cref self.old }
    {
        self.words.truncate(cref.offset as usize);
    }

    /// Returns the header of a clause.
    #[inline(always)] // read for each clause that an inner loop looks at
    pub fn header(&self, cref: ClauseRef) -> ClauseHeader
        requires { IsClause self.now cref }
        ensures value { result ≡ header_at self.now cref }
        ensures bound { result.len < 2 ^ 32 }
    {
        let at = cref.offset as usize;
        ClauseHeader::from_words(self.words[at], self.words[at + 1], self.words[at + 2])
    }

    /// Returns a mutable view of a clause, for setting fields of its header.
    pub fn header_mut(&mut self, cref: ClauseRef) -> ClauseMut<'_>
        ensures buffer { result.buffer.ghost_name ≡ self.entry.ghost_name }
        ensures words { result.buffer.now ≡ self.old }
        ensures cref { result.cref ≡ cref }
    {
        self.clause_mut(cref)
    }

    /// Replaces the header of a clause. A smaller length drops literals from the end of the clause.
    pub fn set_header(&mut self, cref: ClauseRef, header: ClauseHeader)
        requires clause { IsClause self.old cref }
        requires no_longer { header.len ≤ length (lits_at self.old cref) }
        ensures header { header_at self.new cref ≡ header }
        ensures lits { lits_at self.new cref ≡ take header.len (lits_at self.old cref) }
        ensures others { ChangesClauseAt self.old self.new cref }
    {
        let at = cref.offset as usize;
        self.words[at] = header.activity();
        self.words[at + 1] = header.flags();
        self.words[at + 2] = header.len() as u32;
    }

    /// Sets the activity of a clause.
    #[inline(always)] // called for each clause that analysis uses
    pub fn set_activity(&mut self, cref: ClauseRef, activity: u32)
        requires { IsClause self.old cref }
        ensures header { header_at self.new cref ≡ record (header_at self.old cref) { activity = activity } }
        ensures lits { lits_at self.new cref ≡ lits_at self.old cref }
        ensures others { ChangesClauseAt self.old self.new cref }
    {
        self.words[cref.offset as usize] = activity;
    }

    /// Replaces the tier, the flags and the glue of a clause with those of a header. The clause keeps its activity and
    /// its length.
    #[inline(always)] // called for each clause that analysis uses
    pub fn set_flags(&mut self, cref: ClauseRef, header: ClauseHeader)
        requires { IsClause self.old cref }
        ensures header { header_at self.new cref ≡ record header {
          activity = (header_at self.old cref).activity;
          len = (header_at self.old cref).len;
        } }
        ensures lits { lits_at self.new cref ≡ lits_at self.old cref }
        ensures others { ChangesClauseAt self.old self.new cref }
    {
        self.words[cref.offset as usize + 1] = header.flags();
    }

    /// Returns a view of a clause.
    pub fn clause(&self, cref: ClauseRef) -> Clause<'_>
        requires { IsClause self.now cref }
        ensures header { result.header ≡ header_at self.now cref }
        ensures lits { result.lits ≡ lits_at self.now cref }
    {
        let at = cref.offset as usize;
        let end = at + HEADER_LEN + self.words[at + 2] as usize;
        Clause::new(&self.words[at..end])
    }

    /// Returns a mutable view of a clause.
    pub fn clause_mut(&mut self, cref: ClauseRef) -> ClauseMut<'_>
        ensures buffer { result.buffer.ghost_name ≡ self.entry.ghost_name }
        ensures words { result.buffer.now ≡ self.old }
        ensures cref { result.cref ≡ cref }
    {
        ClauseMut { buffer: self, cref }
    }

    /// Returns the number of literals of a clause.
    #[inline(always)] // read for each clause that an inner loop looks at
    pub fn len(&self, cref: ClauseRef) -> usize
        requires { IsClause self.now cref }
        ensures lits { result ≡ length (lits_at self.now cref) }
        ensures header { result ≡ (header_at self.now cref).len }
    {
        self.words[cref.offset as usize + 2] as usize
    }

    /// Returns the literal of a clause at position `at`.
    #[inline(always)] // read for each literal that an inner loop looks at
    pub fn lit(&self, cref: ClauseRef, at: usize) -> Lit
        requires clause { IsClause self.now cref }
        requires within { at < length (lits_at self.now cref) }
        ensures value { result ≡ slice_index (lits_at self.now cref) at }
        ensures bound { result < 2 * var_limit }
    {
        Lit::from_code(self.words[cref.offset as usize + HEADER_LEN + at] as usize)
    }

    /// Replaces the literal of a clause at position `at`.
    #[inline(always)] // written for each clause that an inner loop reorders
    pub fn set_lit(&mut self, cref: ClauseRef, at: usize, lit: Lit)
        requires clause { IsClause self.old cref }
        requires within { at < length (lits_at self.old cref) }
        ensures header { header_at self.new cref ≡ header_at self.old cref }
        ensures lits { lits_at self.new cref ≡ slice_set (lits_at self.old cref) at lit }
        ensures others { ChangesClauseAt self.old self.new cref }
    {
        self.words[cref.offset as usize + HEADER_LEN + at] = lit.code() as u32;
    }

    /// Swaps the literals of a clause at positions `i` and `j`.
    #[inline(always)] // written for each clause that an inner loop reorders
    pub fn swap_lits(&mut self, cref: ClauseRef, i: usize, j: usize)
        requires clause { IsClause self.old cref }
        requires first_within { i < length (lits_at self.old cref) }
        requires second_within { j < length (lits_at self.old cref) }
        ensures header { header_at self.new cref ≡ header_at self.old cref }
        ensures lits { lits_at self.new cref ≡ swapped (lits_at self.old cref) i j }
        ensures others { ChangesClauseAt self.old self.new cref }
    {
        let base = cref.offset as usize + HEADER_LEN;
        let first = self.words[base + i];
        self.words[base + i] = self.words[base + j];
        self.words[base + j] = first;
    }
}

/// Appends the codes of literals to `words`. Capacity for them must have been reserved.
fn push_lits(words: &mut Vec<u32>, lits: &[Lit])
    requires { vec_len words.old + length lits.now ≤ vec_capacity words.old }
    ensures words { words.new.items ≡ words.old.items ++ lits.now }
    ensures literals { All (λ l. l < 2 * var_limit) lits.now }
{
    for lit in lits {
        words.push_reserved(lit.code() as u32);
    }
}
