//! The list of long clauses.
ghost use Rattle.std.specs.Prelude.{◌≡◌, ◌+◌, ◌-◌, ◌^◌, ◌<◌, ◌≤◌, ◌↔◌, ℕ, List, Err, [], false, true, length, min};
ghost use Rattle.std.specs.Prelude.{slice_index, slice_index_or, IsTrue, IfOk, OnErr};
ghost use Rattle.std.specs.List.{Contains};
ghost use Rattle.sat_base.specs.values.Literals.{negated, variable};
ghost use Rattle.sat_store.specs.clause.Buffer.{IsClause, HoldsClauses, AppendsClause, header_at, lits_at};
ghost use Rattle.sat_store.specs.clause.Full.{IfStoreFull};
ghost use Rattle.sat_store.specs.clause.Header.{tier_index};
ghost use Rattle.sat_parts.specs.clause.Db.{no_clauses, DbMatchesBuffer, live_refs, tier_count_more, tier_count_less};
ghost use Rattle.sat_parts.specs.clause.Db.{PutsHeader};
ghost use Rattle.sat_parts.specs.clause.Db.{AddsLongClause, DeletesClause, MovesClauseToTier, ShortensClause};
ghost use Rattle.sat_parts.specs.clause.Db.{IsLockedClause};
ghost use Rattle.sat_parts.specs.clause.Stored.{lit_of};
ghost use Rattle.sat_parts.specs.prop.WatchLists.{with_first_two_watched};

use crate::prop::assignment::Assignment;
use crate::prop::graph::{ImplGraph, Reason};
use crate::prop::watch::Watchlists;
use sat_base::Lit;
use sat_store::{ClauseAlloc, ClauseHeader, ClauseRef, StoreError, Tier};
use std::alloc::Global;
use std::marker::Model;

/// The number of words of a clause before its literals.
const HEADER_LEN: usize = 3;

/// The long clauses, in the order in which they were added, and the number of clauses in each tier.
///
/// A deleted clause stays in the list until garbage is collected. Contracts see a `Db`. `DbMatchesBuffer` states that
/// the `Db` lists the clauses of a buffer.
#[derive(Drop)]
pub struct ClauseDb {
    pub(crate) clauses: Vec<ClauseRef>,
    pub(crate) count_by_tier: [usize; 4],
    pub(crate) garbage_size: usize,
}

impl Model for ClauseDb {
    ghost use Rattle.sat_parts.specs.clause.Db.{Db};

    ghost Value = { Db };

    ghost view = { λ d. record { refs = d.clauses.items; counts = d.count_by_tier; garbage = d.garbage_size } };
}

impl ClauseDb {
    /// Returns an empty list. Never allocates.
    pub fn new(alloc: Global) -> ClauseDb
        ensures empty { result ≡ no_clauses }
        ensures holds { DbMatchesBuffer [] result }
    {
        ClauseDb {
            clauses: Vec::new(alloc),
            count_by_tier: [0; 4],
            garbage_size: 0,
        }
    }

    /// Returns the number of clauses in a tier.
    pub fn count_by_tier(&self, tier: Tier) -> usize
        ensures { result ≡ slice_index self.now.counts (tier_index tier) }
    {
        self.count_by_tier[tier.index()]
    }

    /// Returns all clauses in the list, including deleted ones, in the order in which they were added, as a slice.
    pub fn refs(&self) -> &[ClauseRef]
        ensures { result.now ≡ self.now.refs }
    {
        &self.clauses
    }

    /// Returns the number of clauses in the list, including deleted ones.
    pub fn len(&self) -> usize
        ensures { result ≡ length self.now.refs }
    {
        self.clauses.len()
    }

    /// Returns the clause at position `at` in the list. The clause may be deleted.
    pub fn cref(&self, at: usize) -> ClauseRef
        requires { at < length self.now.refs }
        ensures { result ≡ slice_index self.now.refs at }
    {
        self.clauses[at]
    }

    /// Returns the number of words of deleted clauses. The number saturates at 2^64 - 1.
    pub fn garbage_size(&self) -> usize
        ensures { result ≡ self.now.garbage }
    {
        self.garbage_size
    }

    /// Adds one to the number of clauses in a tier.
    fn count_more(&mut self, tier: Tier)
        requires { slice_index_or self.old.counts (tier_index tier) 0 + 1 < 2 ^ 64 }
        ensures { self.new ≡ record self.old { counts = tier_count_more tier self.old.counts } }
    {
        self.count_by_tier[tier.index()] += 1;
    }

    /// Subtracts one from the number of clauses in a tier.
    fn count_less(&mut self, tier: Tier)
        requires { 0 < slice_index_or self.old.counts (tier_index tier) 0 }
        ensures { self.new ≡ record self.old { counts = tier_count_less tier self.old.counts } }
    {
        self.count_by_tier[tier.index()] -= 1;
    }

    /// Counts the words of a clause of `len` literals as garbage.
    fn waste(&mut self, len: usize)
        requires { len < 2 ^ 32 }
        ensures { self.new ≡ record self.old { garbage = min (self.old.garbage + (len + 3)) (2 ^ 64 - 1) } }
    {
        self.garbage_size = self.garbage_size.saturating_add(len + HEADER_LEN);
    }
}

/// Replaces the header of a clause. The new header must have the length of the old one.
pub(crate) fn put_header(clauses: &mut ClauseAlloc, cref: ClauseRef, header: ClauseHeader)
    requires clause { IsClause clauses.old cref }
    requires len { header.len ≡ (header_at clauses.old cref).len }
    ensures { (refs : List ℕ) → HoldsClauses clauses.old refs → Contains refs cref
        → PutsHeader clauses.old clauses.new refs cref header }
{
    clauses.set_header(cref, header);
}

/// Stores a clause, and watches its first two literals if the watch lists are enabled. Returns the reference to the
/// clause.
fn store_clause(
    clauses: &mut ClauseAlloc,
    watchlists: &mut Watchlists,
    header: ClauseHeader,
    lits: &[Lit],
) -> Result<ClauseRef, StoreError>
    requires long { 3 ≤ length lits.now }
    requires fits { length lits.now < 2 ^ 32 }
    requires first { negated (slice_index_or lits.now 0 0) < length watchlists.old.lists }
    requires second { negated (slice_index_or lits.now 1 0) < length watchlists.old.lists }
    ensures added { IfOk result (λ cref. AppendsClause clauses.old clauses.new cref header lits.now) }
    ensures watched { IfOk result (λ cref. watchlists.new ≡ with_first_two_watched cref lits.now watchlists.old) }
    ensures full { IfStoreFull result (2 ^ 32 - 1 < length clauses.old) }
    ensures kept { OnErr result (clauses.new ≡ clauses.old) }
    ensures unwatched { OnErr result (watchlists.new ≡ watchlists.old) }
{
    let cref = clauses.add_clause(header, lits)?;
    let watched = watchlists.watch_clause(cref, [lits[0], lits[1]]);
    if let Err(_) = watched {
        clauses.truncate(cref);
        return Err(StoreError::OutOfMemory);
    }
    Ok(cref)
}

/// Adds a clause to the tier in its header, and watches its first two literals if the watch lists are enabled. Returns
/// the reference to the clause.
///
/// The length of the clause is the number of literals, whatever the header says. If there is an error, nothing changes.
/// The error is `StoreFull` if references can't represent the next offset, and `OutOfMemory` otherwise.
pub fn add_clause(
    clauses: &mut ClauseAlloc,
    db: &mut ClauseDb,
    watchlists: &mut Watchlists,
    header: ClauseHeader,
    lits: &[Lit],
) -> Result<ClauseRef, StoreError>
    requires db { DbMatchesBuffer clauses.old db.old }
    requires live { header.deleted ≡ false }
    requires long { 3 ≤ length lits.now }
    requires fits { length lits.now < 2 ^ 32 }
    requires first { negated (slice_index_or lits.now 0 0) < length watchlists.old.lists }
    requires second { negated (slice_index_or lits.now 1 0) < length watchlists.old.lists }
    ensures added { IfOk result (λ cref. AddsLongClause clauses.old db.old clauses.new db.new cref header lits.now) }
    ensures watched { IfOk result (λ cref. watchlists.new ≡ with_first_two_watched cref lits.now watchlists.old) }
    ensures full { (result ≡ Err StoreError.StoreFull) ↔ (2 ^ 32 - 1 < length clauses.old) }
    ensures same_words { OnErr result (clauses.new ≡ clauses.old) }
    ensures same_list { OnErr result (db.new ≡ db.old) }
    ensures same_watches { OnErr result (watchlists.new ≡ watchlists.old) }
{
    if clauses.buffer_size() > 4294967295 {
        return Err(StoreError::StoreFull);
    }
    db.clauses.reserve(1)?;
    let cref = store_clause(clauses, watchlists, header, lits)?;
    db.clauses.push_reserved(cref);
    db.count_more(header.tier());
    Ok(cref)
}

/// Moves a live clause to another tier.
pub fn set_clause_tier(clauses: &mut ClauseAlloc, db: &mut ClauseDb, cref: ClauseRef, tier: Tier)
    requires db { DbMatchesBuffer clauses.old db.old }
    requires live { Contains (live_refs clauses.old db.old.refs) cref }
    ensures { MovesClauseToTier clauses.old db.old clauses.new db.new cref tier }
{
    let mut header = clauses.header(cref);
    let old = header.tier();
    if old.index() == tier.index() {
        return;
    }
    db.count_less(old);
    db.count_more(tier);
    header.set_tier(tier);
    put_header(clauses, cref, header);
}

/// Deletes a live clause, and disables the watch lists.
pub fn delete_clause(
    clauses: &mut ClauseAlloc,
    db: &mut ClauseDb,
    watchlists: &mut Watchlists,
    cref: ClauseRef,
)
    requires db { DbMatchesBuffer clauses.old db.old }
    requires live { Contains (live_refs clauses.old db.old.refs) cref }
    ensures deleted { DeletesClause clauses.old db.old clauses.new db.new cref }
    ensures watches { watchlists.new ≡ record watchlists.old { enabled = false } }
{
    watchlists.disable();
    let mut header = clauses.header(cref);
    db.count_less(header.tier());
    db.waste(header.len());
    header.set_deleted(true);
    put_header(clauses, cref, header);
}

/// Returns `true` if the first literal of the clause is true and the clause is the reason for that literal.
fn is_asserting(
    clauses: &ClauseAlloc,
    graph: &ImplGraph,
    assignment: &Assignment,
    cref: ClauseRef,
) -> bool
    requires clause { IsClause clauses.now cref }
    requires some { 0 < length (lits_at clauses.now cref) }
    requires value { variable (lit_of clauses.now cref 0) < length assignment.now.current }
    requires node { variable (lit_of clauses.now cref 0) < length graph.now }
    ensures { IsTrue result ↔ IsLockedClause clauses.now assignment.now.current graph.now cref }
{
    let first = clauses.lit(cref, 0);
    if !assignment.lit_is_true(first) {
        return false;
    }
    let reason = graph.reason(first.var());
    match reason {
        Reason::Unit => false,
        Reason::Binary(_) => false,
        Reason::Long(named) => named == cref,
    }
}

/// Deletes a live clause unless its first literal is true and the clause is the reason for that literal. Returns
/// whether the clause was deleted.
pub fn try_delete_clause(
    clauses: &mut ClauseAlloc,
    db: &mut ClauseDb,
    watchlists: &mut Watchlists,
    graph: &ImplGraph,
    assignment: &Assignment,
    cref: ClauseRef,
) -> bool
    requires db { DbMatchesBuffer clauses.old db.old }
    requires live { Contains (live_refs clauses.old db.old.refs) cref }
    requires value { variable (lit_of clauses.old cref 0) < length assignment.now.current }
    requires node { variable (lit_of clauses.old cref 0) < length graph.now }
    ensures kept { result ≡ false → IsLockedClause clauses.old assignment.now.current graph.now cref }
    ensures free { result ≡ true → IsLockedClause clauses.old assignment.now.current graph.now cref → ⊥ }
    ensures deleted { result ≡ true → DeletesClause clauses.old db.old clauses.new db.new cref }
    ensures watches { result ≡ true → watchlists.new ≡ record watchlists.old { enabled = false } }
    ensures same { result ≡ false → (clauses.new ≡ clauses.old) × (db.new ≡ db.old)
        × (watchlists.new ≡ watchlists.old) }
{
    if is_asserting(clauses, graph, assignment, cref) {
        return false;
    }
    delete_clause(clauses, db, watchlists, cref);
    true
}

/// Drops the literals of a live clause from position `len` on, and disables the watch lists. `len` must be at least 3.
pub fn shorten_clause(
    clauses: &mut ClauseAlloc,
    db: &ClauseDb,
    watchlists: &mut Watchlists,
    cref: ClauseRef,
    len: usize,
)
    requires db { DbMatchesBuffer clauses.old db.now }
    requires live { Contains (live_refs clauses.old db.now.refs) cref }
    requires long { 3 ≤ len }
    requires no_longer { len ≤ length (lits_at clauses.old cref) }
    ensures shortened { ShortensClause clauses.old db.now clauses.new cref len }
    ensures watches { watchlists.new ≡ record watchlists.old { enabled = false } }
{
    watchlists.disable();
    let mut header = clauses.header(cref);
    header.set_len(len);
    clauses.set_header(cref, header);
}
