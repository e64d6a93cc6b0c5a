//! The literals of reasons and conflicts.
ghost use Rattle.std.specs.Prelude.{ℕ, ◌≡◌, ◌<◌, ◌↔◌, ◌++◌, [], length, slice_index, IsTrue};
ghost use Rattle.std.specs.Iterator.{at_most};
ghost use Rattle.std.specs.Map.Iter.{TakesFirst, ShowsInOrder};
ghost use Rattle.sat_store.specs.clause.Buffer.{IsClause, lits_at};
ghost use Rattle.sat_parts.specs.prop.ReasonLits.{reason_lits, conflict_lits};

use crate::prop::graph::{Conflict, Reason};
use sat_base::Lit;
use sat_store::{ClauseAlloc, Lits, LitsIter};
use std::iter::FusedIterator;
use std::marker::Model;

/// The literals of a reason or a conflict: those that the reason or conflict holds itself, or those of a long clause.
/// Contracts see the list of the literals.
#[derive(Drop)]
pub struct CauseLits<'a> {
    own: &'a [Lit],
    long: Lits<'a>,
}

impl<'a> Model for CauseLits<'a> {
    ghost use Rattle.std.specs.Prelude.{ℕ, ◌≡◌, ◌⊎◌, List, [], ◌++◌};

    ghost Value = { List ℕ };

    ghost view = { λ l. l.own.now ++ l.long };

    ghost invariant = { λ l. (l.own.now ≡ []) ⊎ (l.long ≡ []) };
}

impl<'a> CauseLits<'a> {
    /// Returns the number of literals.
    pub fn len(&self) -> usize
        ensures { result ≡ length self.now }
    {
        if self.own.is_empty() {
            self.long.len()
        } else {
            self.own.len()
        }
    }

    /// Returns `true` if there are no literals.
    pub fn is_empty(&self) -> bool
        ensures { IsTrue result ↔ self.now ≡ [] }
    {
        self.len() == 0
    }

    /// Returns the literal at position `at`.
    pub fn get(&self, at: usize) -> Lit
        requires { at < length self.now }
        ensures { result ≡ slice_index self.now at }
    {
        let own = self.own;
        if at < own.len() {
            own[at]
        } else {
            self.long.get(at - own.len())
        }
    }

    /// Returns the literals that the reason or conflict holds itself, and the literals of its long clause. At least one
    /// of the two lists is empty.
    #[inline(always)] // called for each reason that conflict analysis looks at
    pub fn parts(&self) -> (&'a [Lit], &Lits<'a>)
        ensures { result.0.now ++ result.1.now ≡ self.now }
    {
        (self.own, &self.long)
    }

    /// Returns an iterator over the literals, in order.
    pub fn iter(&self) -> CauseLitsIter<'a>
        ensures rest { result ≡ self.now }
        ensures runs { ShowsInOrder (λ (x : ℕ). x) }
    {
        CauseLitsIter {
            own: self.own,
            long: self.long.iter(),
        }
    }
}

/// An iterator over the literals of a reason or a conflict. Contracts see the literals that are still to come.
#[derive(Drop)]
pub struct CauseLitsIter<'a> {
    own: &'a [Lit],
    long: LitsIter<'a>,
}

impl<'a> Model for CauseLitsIter<'a> {
    ghost use Rattle.std.specs.Prelude.{ℕ, List, ◌++◌};

    ghost Value = { List ℕ };

    ghost view = { λ l. l.own.now ++ l.long };
}

impl<'a> Iterator for CauseLitsIter<'a> {
    type Item = Lit;

    ghost next_gives = { TakesFirst (λ (x : ℕ). x) };

    ghost remaining = { λ s. at_most (length s) };

    /// Returns the next literal, or `None` at the end.
    fn next(&mut self) -> Option<Lit> {
        if let Some((first, others)) = self.own.split_first() {
            self.own = others;
            return Some(*first);
        }
        self.long.next()
    }
}

impl<'a> FusedIterator for CauseLitsIter<'a> {}

impl Reason {
    /// Returns the false literals that made the reason's literal true: none for a unit or a decision.
    ///
    /// In a long clause, that literal is the first one, and the others are returned.
    pub fn lits<'a>(&'a self, clauses: &'a ClauseAlloc) -> CauseLits<'a>
        requires clause { (o : ℕ) → self.now ≡ Reason.Long o → IsClause clauses.now o }
        requires some { (o : ℕ) → self.now ≡ Reason.Long o → 0 < length (lits_at clauses.now o) }
        ensures { result ≡ reason_lits clauses.now self.now }
    {
        match self {
            Reason::Unit => CauseLits {
                own: &[],
                long: Lits::none(),
            },
            Reason::Binary(lits) => CauseLits {
                own: lits,
                long: Lits::none(),
            },
            Reason::Long(cref) => CauseLits {
                own: &[],
                long: clauses.clause(*cref).lits().without_first(),
            },
        }
    }
}

impl Conflict {
    /// Returns the literals of the falsified clause.
    pub fn lits<'a>(&'a self, clauses: &'a ClauseAlloc) -> CauseLits<'a>
        requires { (o : ℕ) → self.now ≡ Conflict.Long o → IsClause clauses.now o }
        ensures { result ≡ conflict_lits clauses.now self.now }
    {
        match self {
            Conflict::Binary(lits) => CauseLits {
                own: lits,
                long: Lits::none(),
            },
            Conflict::Long(cref) => CauseLits {
                own: &[],
                long: clauses.clause(*cref).lits(),
            },
        }
    }
}
