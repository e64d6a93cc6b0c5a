//! Passes over the clauses in one tier.
ghost use Rattle.std.specs.Prelude.{◌≡◌, IfOk, OnOk, OnErr};
ghost use Rattle.std.specs.List.{Contains, filter};
ghost use Rattle.sat_store.specs.clause.Buffer.{IsClause, header_at};
ghost use Rattle.sat_parts.specs.clause.Db.{DbMatchesBuffer, PutsHeader, live_refs, is_live_in_tier};
ghost use Rattle.sat_parts.specs.clause.Activity.{PutsHeaders};
ghost use Rattle.sat_parts.specs.clause.Reduced.{reduced_header, with_mark};

use crate::clause::db::{ClauseDb, put_header, set_clause_tier};
use sat_store::{ClauseAlloc, ClauseRef, Tier};
use std::alloc::{AllocError, Global};

/// If the clause is live and in tier Mid, clears its active flag, or moves the clause to tier Local if the flag is
/// not set.
fn reduce_one(clauses: &mut ClauseAlloc, db: &mut ClauseDb, cref: ClauseRef)
    requires db { DbMatchesBuffer clauses.old db.old }
    requires there { Contains db.old.refs cref }
    ensures put { PutsHeader clauses.old clauses.new db.old.refs cref (reduced_header (header_at clauses.old cref)) }
    ensures db { DbMatchesBuffer clauses.new db.new }
    ensures refs { db.new.refs ≡ db.old.refs }
    ensures live { live_refs clauses.new db.new.refs ≡ live_refs clauses.old db.old.refs }
{
    let mut header = clauses.header(cref);
    if header.deleted() {
        return;
    }
    if header.tier().index() != 2 {
        return;
    }
    if header.active() {
        header.set_active(false);
        put_header(clauses, cref, header);
        return;
    }
    set_clause_tier(clauses, db, cref, Tier::Local);
}

/// Moves to tier Local the clauses in tier Mid that have not been used since the last call. Clears the active flag of
/// the other clauses in tier Mid.
pub fn reduce_mids(clauses: &mut ClauseAlloc, db: &mut ClauseDb)
    requires { DbMatchesBuffer clauses.old db.old }
    ensures headers { PutsHeaders clauses.old clauses.new db.old.refs (λ p. reduced_header (header_at clauses.old p)) }
    ensures db { DbMatchesBuffer clauses.new db.new }
    ensures refs { db.new.refs ≡ db.old.refs }
    ensures live { live_refs clauses.new db.new.refs ≡ live_refs clauses.old db.old.refs }
{
    for at in 0..db.len() {
        let cref = db.cref(at);
        reduce_one(clauses, db, cref);
    }
}

/// Returns `true` if a clause is live and in `tier`.
fn is_of_tier(clauses: &ClauseAlloc, cref: ClauseRef, tier: Tier) -> bool
    requires { IsClause clauses.now cref }
    ensures { result ≡ is_live_in_tier clauses.now tier cref }
{
    let header = clauses.header(cref);
    if header.deleted() {
        return false;
    }
    header.tier().index() == tier.index()
}

/// Returns the live clauses in a tier, in the order in which they were added.
fn clauses_of_tier(
    alloc: Global,
    clauses: &ClauseAlloc,
    db: &ClauseDb,
    tier: Tier,
) -> Result<Vec<ClauseRef>, AllocError>
    requires { DbMatchesBuffer clauses.now db.now }
    ensures { IfOk result (λ list. list.items ≡ filter (is_live_in_tier clauses.now tier) db.now.refs) }
{
    let mut list = Vec::new(alloc);
    for at in 0..db.len() {
        let cref = db.cref(at);
        if is_of_tier(clauses, cref, tier) {
            list.push(cref)?;
        }
    }
    Ok(list)
}

/// Marks a clause if it is live and in `tier`.
fn mark_one(clauses: &mut ClauseAlloc, _db: &ClauseDb, cref: ClauseRef, tier: Tier)
    requires db { DbMatchesBuffer clauses.old _db.now }
    requires there { Contains _db.now.refs cref }
    ensures put { PutsHeader clauses.old clauses.new _db.now.refs cref (with_mark tier (header_at clauses.old cref)) }
    ensures db { DbMatchesBuffer clauses.new _db.now }
    ensures live { live_refs clauses.new _db.now.refs ≡ live_refs clauses.old _db.now.refs }
{
    let mut header = clauses.header(cref);
    if header.deleted() {
        return;
    }
    if header.tier().index() != tier.index() {
        return;
    }
    header.set_mark(true);
    put_header(clauses, cref, header);
}

/// Marks every live clause in a tier.
fn mark_tier(clauses: &mut ClauseAlloc, db: &ClauseDb, tier: Tier)
    requires { DbMatchesBuffer clauses.old db.now }
    ensures headers { PutsHeaders clauses.old clauses.new db.now.refs (λ p. with_mark tier (header_at clauses.old p)) }
    ensures db { DbMatchesBuffer clauses.new db.now }
    ensures live { live_refs clauses.new db.now.refs ≡ live_refs clauses.old db.now.refs }
{
    for at in 0..db.len() {
        let cref = db.cref(at);
        mark_one(clauses, db, cref, tier);
    }
}

/// Marks the live clauses in a tier. Returns them, each once, in the order in which they were added.
///
/// If memory runs out, nothing changes.
pub fn dedup_and_mark_by_tier(
    alloc: Global,
    clauses: &mut ClauseAlloc,
    db: &ClauseDb,
    tier: Tier,
) -> Result<Vec<ClauseRef>, AllocError>
    requires { DbMatchesBuffer clauses.old db.now }
    ensures list { IfOk result (λ list. list.items ≡ filter (is_live_in_tier clauses.old tier) db.now.refs) }
    ensures marks { OnOk result (PutsHeaders clauses.old clauses.new db.now.refs
        (λ p. with_mark tier (header_at clauses.old p))) }
    ensures db { DbMatchesBuffer clauses.new db.now }
    ensures live { live_refs clauses.new db.now.refs ≡ live_refs clauses.old db.now.refs }
    ensures same { OnErr result (clauses.new ≡ clauses.old) }
{
    let list = clauses_of_tier(alloc, clauses, db, tier)?;
    mark_tier(clauses, db, tier);
    Ok(list)
}
