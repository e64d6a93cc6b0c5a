//! Read-only views of a clause, which borrow from the buffer.
ghost use Rattle.std.specs.Prelude.{◌≡◌, ◌<◌, ◌*◌, List, ℕ, [], length, slice_index, drop, IsTrue, ◌↔◌};
ghost use Rattle.std.specs.List.{All};
ghost use Rattle.std.specs.Iterator.{at_most};
ghost use Rattle.std.specs.Map.Iter.{TakesFirst, ShowsInOrder};
ghost use Rattle.sat_base.specs.values.Literals.{var_limit};
ghost use Rattle.sat_store.specs.clause.Buffer.{IsClause, header_at, lits_at};

use crate::clause::header::ClauseHeader;
use sat_base::Lit;
use std::iter::FusedIterator;
use std::marker::Model;

/// The number of words that precede a clause's literals.
const HEADER_LEN: usize = 3;

/// A read-only view of a clause. Contracts see the header and the literals of the clause.
#[derive(Drop)]
pub struct Clause<'a> {
    words: &'a [u32],
}

impl<'a> Model for Clause<'a> {
    ghost use Rattle.sat_store.specs.clause.Buffer.{HeadedClause, IsClause, header_at, lits_at};

    ghost Value = { HeadedClause };

    ghost view = { λ c. record { header = header_at c.words.now 0; lits = lits_at c.words.now 0 } };

    ghost invariant = { λ c. IsClause c.words.now 0 };
}

impl<'a> Clause<'a> {
    /// Returns a view of the clause that `words` holds.
    pub(crate) fn new(words: &'a [u32]) -> Clause<'a>
        requires { IsClause words.now 0 }
        ensures header { result.header ≡ header_at words.now 0 }
        ensures lits { result.lits ≡ lits_at words.now 0 }
    {
        Clause { words }
    }

    /// Returns the header.
    pub fn header(&self) -> ClauseHeader
        ensures { result ≡ self.now.header }
    {
        ClauseHeader::from_words(self.words[0], self.words[1], self.words[2])
    }

    /// Returns the literals.
    pub fn lits(&self) -> Lits<'a>
        ensures { result ≡ self.now.lits }
    {
        let len = self.words[2] as usize;
        Lits {
            words: &self.words[HEADER_LEN..HEADER_LEN + len],
        }
    }
}

/// A read-only view of a clause's literals. Contracts see the list of literals.
#[derive(Drop)]
pub struct Lits<'a> {
    words: &'a [u32],
}

impl<'a> Model for Lits<'a> {
    ghost use Rattle.std.specs.Prelude.{ℕ, ◌*◌, ◌<◌, List};
    ghost use Rattle.std.specs.List.{All};
    ghost use Rattle.sat_base.specs.values.Literals.{var_limit};

    ghost Value = { List ℕ };

    ghost view = { λ l. l.words.now };

    ghost invariant = { λ l. All (λ x. x < 2 * var_limit) l.words.now };
}

impl<'a> Lits<'a> {
    /// Returns an empty list of literals.
    pub fn none() -> Lits<'a>
        ensures { result ≡ [] }
    {
        Lits { words: &[] }
    }

    /// Returns the literals after the first one. There must be at least one.
    pub fn without_first(&self) -> Lits<'a>
        requires { 0 < length self.now }
        ensures { result ≡ drop 1 self.now }
    {
        Lits {
            words: &self.words[1..],
        }
    }

    /// Returns the number of literals.
    pub fn len(&self) -> usize
        ensures { result ≡ length self.now }
    {
        self.words.len()
    }

    /// Returns `true` if there are no literals.
    pub fn is_empty(&self) -> bool
        ensures { IsTrue result ↔ self.now ≡ [] }
    {
        self.words.is_empty()
    }

    /// Returns the literal at position `at`.
    pub fn get(&self, at: usize) -> Lit
        requires { at < length self.now }
        ensures { result ≡ slice_index self.now at }
    {
        let words = self.words;
        Lit::from_code(words[at] as usize)
    }

    /// Returns an iterator over the literals, in order.
    pub fn iter(&self) -> LitsIter<'a>
        ensures rest { result ≡ self.now }
        ensures runs { ShowsInOrder (λ (x : ℕ). x) }
    {
        LitsIter { words: self.words }
    }
}

/// An iterator over the literals of a clause, in order. Contracts see the literals that are still to come.
#[derive(Drop)]
pub struct LitsIter<'a> {
    words: &'a [u32],
}

impl<'a> Model for LitsIter<'a> {
    ghost use Rattle.std.specs.Prelude.{ℕ, ◌*◌, ◌<◌, List};
    ghost use Rattle.std.specs.List.{All};
    ghost use Rattle.sat_base.specs.values.Literals.{var_limit};

    ghost Value = { List ℕ };

    ghost view = { λ l. l.words.now };

    ghost invariant = { λ l. All (λ x. x < 2 * var_limit) l.words.now };
}

impl<'a> Iterator for LitsIter<'a> {
    type Item = Lit;

    ghost next_gives = { TakesFirst (λ (x : ℕ). x) };

    ghost remaining = { λ s. at_most (length s) };

    /// Returns the next literal, or `None` at the end.
    fn next(&mut self) -> Option<Lit> {
        let (first, others) = self.words.split_first()?;
        self.words = others;
        Some(Lit::from_code(*first as usize))
    }
}

impl<'a> FusedIterator for LitsIter<'a> {}
