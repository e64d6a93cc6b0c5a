//! An iterator over the live clauses.
ghost use Rattle.std.specs.Prelude.{ℕ, ◌≡◌, ◌<◌, ◌≤◌, [], length, take, false, slice_index};
ghost use Rattle.std.specs.Iterator.{at_most};
ghost use Rattle.std.specs.Map.Iter.{TakesFirst, ShowsInOrder};
ghost use Rattle.sat_parts.specs.clause.Db.{DbMatchesBuffer, AreClauseOffsets, live_refs};
ghost use Rattle.sat_store.specs.clause.Buffer.{header_at};

use crate::clause::db::ClauseDb;
use sat_store::{ClauseAlloc, ClauseRef};
use std::iter::FusedIterator;
use std::marker::Model;

/// An iterator over the live clauses in a list, in order. Contracts see the clauses that are still to come.
#[derive(Drop)]
pub struct ClausesIter<'a> {
    clauses: &'a ClauseAlloc,
    refs: &'a [ClauseRef],
}

impl<'a> Model for ClausesIter<'a> {
    ghost use Rattle.std.specs.Prelude.{ℕ, List};
    ghost use Rattle.sat_parts.specs.clause.Db.{AreClauseOffsets, live_refs};

    ghost Value = { List ℕ };

    ghost view = { λ i. live_refs i.clauses.now i.refs.now };

    ghost invariant = { λ i. AreClauseOffsets i.clauses.now i.refs.now };
}

/// Returns an iterator over the live clauses, in the order in which they were added.
pub fn clauses_iter<'a>(clauses: &'a ClauseAlloc, db: &'a ClauseDb) -> ClausesIter<'a>
    requires { DbMatchesBuffer clauses.now db.now }
    ensures rest { result ≡ live_refs clauses.now db.now.refs }
    ensures runs { ShowsInOrder (λ (x : ℕ). x) }
{
    ClausesIter {
        clauses,
        refs: db.refs(),
    }
}

/// Returns the position of the first live clause, or the number of clauses if none is live.
fn first_live(clauses: &ClauseAlloc, refs: &[ClauseRef]) -> usize
    requires { AreClauseOffsets clauses.now refs.now }
    ensures within { result ≤ length refs.now }
    ensures none { live_refs clauses.now (take result refs.now) ≡ [] }
    ensures live { result < length refs.now → (header_at clauses.now (slice_index refs.now result)).deleted ≡ false }
{
    for at in 0..refs.len() {
        if !clauses.header(refs[at]).deleted() {
            return at;
        }
    }
    refs.len()
}

impl<'a> Iterator for ClausesIter<'a> {
    type Item = ClauseRef;

    ghost next_gives = { TakesFirst (λ (x : ℕ). x) };

    ghost remaining = { λ s. at_most (length s) };

    /// Returns the next live clause, or `None` at the end.
    fn next(&mut self) -> Option<ClauseRef> {
        let at = first_live(self.clauses, self.refs);
        if at == self.refs.len() {
            return None;
        }
        let cref = self.refs[at];
        self.refs = &self.refs[at + 1..];
        Some(cref)
    }
}

impl<'a> FusedIterator for ClausesIter<'a> {}
