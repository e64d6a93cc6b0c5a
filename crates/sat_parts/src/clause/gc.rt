//! Garbage collection of deleted clauses.
ghost use Rattle.std.specs.Prelude.{ℕ, ◌≡◌, ◌<◌, ◌≤◌, ◌/◌, [], length, slice_index, false, OnOk, OnErr, IfOk};
ghost use Rattle.sat_base.specs.values.Literals.{variable};
ghost use Rattle.sat_store.specs.clause.Buffer.{IsClause};
ghost use Rattle.sat_store.specs.clause.Full.{IfStoreFull};
ghost use Rattle.sat_parts.specs.clause.Db.{DbMatchesBuffer, live_refs};
ghost use Rattle.sat_parts.specs.clause.Collected.{CopiesOneClause, CopyInvariant, ReasonsHaveLitFirst};
ghost use Rattle.sat_parts.specs.clause.Collected.{ReasonsNameCopies, CollectsGarbage};
ghost use Rattle.sat_parts.specs.clause.Collected.{CollectsNothing, after_collection};
ghost use Rattle.sat_parts.specs.prop.Graphs.{HasReason, with_reason};

use crate::clause::db::ClauseDb;
use crate::prop::graph::{ImplGraph, Reason};
use crate::prop::trail::Trail;
use crate::prop::watch::Watchlists;
use sat_base::Lit;
use sat_store::{ClauseAlloc, ClauseRef, StoreError};
use std::alloc::Global;

/// Appends a copy of a clause to the buffer `to`, and the reference to the copy to `refs`.
fn copy_one(
    clauses: &ClauseAlloc,
    cref: ClauseRef,
    to: &mut ClauseAlloc,
    refs: &mut Vec<ClauseRef>,
) -> Result<(), StoreError>
    requires { IsClause clauses.now cref }
    ensures copied { OnOk result (CopiesOneClause clauses.now cref to.old refs.old.items to.new refs.new.items) }
    ensures room { length to.old ≤ cref → IfStoreFull result ⊥ }
{
    let copy = to.copy_clause(clauses, cref)?;
    match refs.push(copy) {
        Ok(()) => Ok(()),
        Err(_) => Err(StoreError::OutOfMemory),
    }
}

/// Copies the live clauses, in order, to the buffer `to`, and lists the copies in `refs`. Both must be empty.
fn copy_live(
    clauses: &ClauseAlloc,
    db: &ClauseDb,
    to: &mut ClauseAlloc,
    refs: &mut Vec<ClauseRef>,
) -> Result<(), StoreError>
    requires db { DbMatchesBuffer clauses.now db.now }
    requires no_words { to.old ≡ [] }
    requires no_refs { refs.old.items ≡ [] }
    ensures copied { OnOk result (CopyInvariant clauses.now db.now.refs to.new refs.new.items (length db.now.refs)) }
    ensures room { IfStoreFull result ⊥ }
{
    for at in 0..db.len() {
        let cref = db.cref(at);
        if !clauses.header(cref).deleted() {
            match copy_one(clauses, cref, to, refs) {
                Ok(()) => {}
                Err(error) => return Err(error),
            }
        }
    }
    Ok(())
}

/// Replaces the reason for a literal with the clause `to` if the reason is the clause `from`.
fn move_reason(graph: &mut ImplGraph, lit: Lit, from: ClauseRef, to: ClauseRef)
    ensures moved { HasReason graph.old (variable lit) from →
        graph.new ≡ with_reason (variable lit) (Reason.Long to) graph.old }
    ensures kept { (HasReason graph.old (variable lit) from → ⊥) → graph.new ≡ graph.old }
{
    if lit.index() >= graph.nodes.len() {
        return;
    }
    let reason = graph.reason(lit.var());
    if let Reason::Long(cref) = reason {
        if cref == from {
            graph.update_reason(lit.var(), Reason::Long(to));
        }
    }
}

/// For every live clause that is the reason for its first literal, replaces the reason with the copy of the clause
/// in `refs`.
///
/// The trail is not read. The contract uses it to say which reasons matter.
fn move_reasons(
    clauses: &ClauseAlloc,
    db: &ClauseDb,
    refs: &Vec<ClauseRef>,
    graph: &mut ImplGraph,
    _trail: &Trail,
)
    requires db { DbMatchesBuffer clauses.now db.now }
    requires size { length refs.now.items ≡ length (live_refs clauses.now db.now.refs) }
    requires low { (k : ℕ) → k < length refs.now.items
        → slice_index refs.now.items k ≤ slice_index (live_refs clauses.now db.now.refs) k }
    requires firsts { ReasonsHaveLitFirst clauses.now (live_refs clauses.now db.now.refs) _trail.now.lits graph.old }
    ensures { ReasonsNameCopies (live_refs clauses.now db.now.refs) refs.now.items _trail.now.lits graph.old graph.new }
{
    let mut next = 0;
    for at in 0..db.len() {
        let cref = db.cref(at);
        if !clauses.header(cref).deleted() {
            let first = clauses.lit(cref, 0);
            move_reason(graph, first, cref, refs[next]);
            next += 1;
        }
    }
}

/// Copies of the live clauses in a new buffer.
#[derive(Drop)]
struct Copied {
    clauses: ClauseAlloc,
    refs: Vec<ClauseRef>,
}

/// Copies the live clauses into a new buffer, and returns the copies.
fn copy_all(alloc: Global, clauses: &ClauseAlloc, db: &ClauseDb) -> Result<Copied, StoreError>
    requires { DbMatchesBuffer clauses.now db.now }
    ensures copied { IfOk result (λ x. CopyInvariant clauses.now db.now.refs x.clauses x.refs.items (length db.now.refs)) }
    ensures room { IfStoreFull result ⊥ }
{
    let live = clauses.buffer_size().saturating_sub(db.garbage_size());
    // Also reserves capacity for clauses that are learned later.
    let mut to = match ClauseAlloc::with_capacity(alloc, live.saturating_mul(2)) {
        Ok(to) => to,
        Err(_) => return Err(StoreError::OutOfMemory),
    };
    let mut refs = Vec::new(alloc);
    match copy_live(clauses, db, &mut to, &mut refs) {
        Ok(()) => Ok(Copied { clauses: to, refs }),
        Err(error) => Err(error),
    }
}

/// Replaces the buffer and the list with those of the copied clauses.
fn put_copied(copied: Copied, clauses: &mut ClauseAlloc, db: &mut ClauseDb)
    ensures words { clauses.new ≡ copied.clauses }
    ensures list { db.new ≡ after_collection copied.refs.items db.old }
{
    let Copied { clauses: to, refs } = copied;
    *clauses = to;
    db.clauses = refs;
    db.garbage_size = 0;
}

/// Collects garbage if deleted clauses take up more than half of the buffer.
///
/// Moves the live clauses to a new buffer, in order, updates the reasons for the literals on the trail, and disables
/// the watch lists. If memory runs out, nothing changes.
pub fn collect_garbage(
    alloc: Global,
    clauses: &mut ClauseAlloc,
    db: &mut ClauseDb,
    graph: &mut ImplGraph,
    watchlists: &mut Watchlists,
    trail: &Trail,
) -> Result<(), StoreError>
    requires db { DbMatchesBuffer clauses.old db.old }
    requires firsts { ReasonsHaveLitFirst clauses.old (live_refs clauses.old db.old.refs) trail.now.lits graph.old }
    ensures collected { length clauses.old / 2 < db.old.garbage →
        OnOk result (CollectsGarbage clauses.old db.old graph.old trail.now.lits clauses.new db.new graph.new) }
    ensures watches { length clauses.old / 2 < db.old.garbage
        → OnOk result (watchlists.new ≡ record watchlists.old { enabled = false }) }
    ensures not_due { db.old.garbage ≤ length clauses.old / 2 →
        CollectsNothing clauses.old db.old graph.old watchlists.old clauses.new db.new graph.new watchlists.new }
    ensures room { IfStoreFull result ⊥ }
    ensures same { OnErr result (CollectsNothing clauses.old db.old graph.old watchlists.old clauses.new db.new
        graph.new watchlists.new) }
{
    if db.garbage_size() <= clauses.buffer_size() / 2 {
        return Ok(());
    }
    match copy_all(alloc, clauses, db) {
        Ok(copied) => {
            move_reasons(clauses, db, &copied.refs, graph, trail);
            watchlists.disable();
            put_copied(copied, clauses, db);
            Ok(())
        }
        Err(error) => Err(error),
    }
}
