//! Deletes the live clauses that fail a test.
ghost use Rattle.std.specs.Prelude.{◌≡◌, false};
ghost use Rattle.std.specs.List.Retain.{IsFiltered};
ghost use Rattle.sat_parts.specs.clause.Db.{DbMatchesBuffer, live_refs};
ghost use Rattle.sat_parts.specs.clause.Filtered.{AcceptsEachClause, ReturnsForClause, SameClausesAt};

use crate::clause::db::{ClauseDb, delete_clause};
use crate::prop::watch::Watchlists;
use sat_store::{ClauseAlloc, ClauseRef};

/// Deletes the live clauses for which `keep` returns false, and disables the watch lists.
///
/// Calls `keep` once for every live clause, in the order in which the clauses were added.
pub fn filter_clauses<F: FnMut(&ClauseAlloc, ClauseRef) -> bool>(
    clauses: &mut ClauseAlloc,
    db: &mut ClauseDb,
    watchlists: &mut Watchlists,
    mut keep: F,
)
    requires db { DbMatchesBuffer clauses.old db.old }
    requires callable { AcceptsEachClause F.FnMut clauses.old (live_refs clauses.old db.old.refs) }
    ensures filtered { IsFiltered (ReturnsForClause F.FnMut clauses.old) keep
        (live_refs clauses.old db.old.refs) (live_refs clauses.new db.new.refs) }
    ensures kept { SameClausesAt clauses.old clauses.new (live_refs clauses.new db.new.refs) }
    ensures db { DbMatchesBuffer clauses.new db.new }
    ensures refs { db.new.refs ≡ db.old.refs }
    ensures watches { watchlists.new ≡ record watchlists.old { enabled = false } }
{
    watchlists.disable();
    for at in 0..db.len() {
        let cref = db.cref(at);
        if clauses.header(cref).deleted() {
            continue;
        }
        if keep(&*clauses, cref) {
            continue;
        }
        delete_clause(clauses, db, watchlists, cref);
    }
}
