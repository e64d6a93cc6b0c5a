//! Tests of passes over clauses, and of functions for a single clause.
ghost use Rattle.std.specs.Prelude.{◌≡◌, ◌≤◌, ◌<◌, ◌==◌, IsTrue, OnOk, [], length};
ghost use Rattle.std.specs.List.{Contains, filter};
ghost use Rattle.sat_store.specs.clause.Buffer.{IsClause, lits_at};
ghost use Rattle.sat_parts.specs.clause.Db.{DbMatchesBuffer, live_refs};

use crate::lists::{counts, store_four};
use sat_base::{Lit, Var};
use sat_parts::{
    Assignment, ClauseActivity, ClauseDb, ImplGraph, Reason, Watchlists, bump_clause_activity,
    decay_clause_activities, dedup_and_mark_by_tier, filter_clauses, reduce_mids, shorten_clause,
    try_delete_clause,
};
use sat_store::{ClauseAlloc, ClauseRef, StoreError, Tier};
use std::alloc::{AllocError, Global};

/// Returns `true` if `cref` is at index `at` of the list and isn't deleted.
fn stands_at(clauses: &ClauseAlloc, db: &ClauseDb, at: usize, cref: ClauseRef) -> bool
    requires db { DbMatchesBuffer clauses.now db.now }
    requires within { at < length db.now.refs }
    ensures live { IsTrue result → Contains (live_refs clauses.now db.now.refs) cref }
    ensures clause { IsTrue result → IsClause clauses.now cref }
    ensures long { IsTrue result → 3 ≤ length (lits_at clauses.now cref) }
{
    let there = db.cref(at);
    if clauses.header(there).deleted() {
        return false;
    }
    there == cref
}

/// Returns `true` if `cref` is a live clause of the list.
pub fn is_among(clauses: &ClauseAlloc, db: &ClauseDb, cref: ClauseRef) -> bool
    requires { DbMatchesBuffer clauses.now db.now }
    ensures live { IsTrue result → Contains (live_refs clauses.now db.now.refs) cref }
    ensures clause { IsTrue result → IsClause clauses.now cref }
    ensures long { IsTrue result → 3 ≤ length (lits_at clauses.now cref) }
{
    for at in 0..db.len() {
        if stands_at(clauses, db, at, cref) {
            return true;
        }
    }
    false
}

/// Returns the tier, the mark and the activity of the clause at index `at` of the list.
fn fields(clauses: &ClauseAlloc, db: &ClauseDb, at: usize) -> Option<(Tier, bool, u32)>
    requires { DbMatchesBuffer clauses.now db.now }
{
    if at >= db.len() {
        return None;
    }
    let header = clauses.header(db.cref(at));
    Some((header.tier(), header.mark(), header.activity()))
}

/// Adds four clauses, one of each tier.
pub fn four(
    clauses: &mut ClauseAlloc,
    db: &mut ClauseDb,
    watchlists: &mut Watchlists,
) -> Result<(), StoreError>
    requires empty { clauses.old ≡ [] }
    requires db { DbMatchesBuffer clauses.old db.old }
    requires none { live_refs clauses.old db.old.refs ≡ [] }
    requires lists { watchlists.old.lists ≡ [] }
    ensures db { OnOk result (DbMatchesBuffer clauses.new db.new) }
{
    watchlists.set_var_count(7)?;
    let _ = store_four(clauses, db, watchlists)?;
    Ok(())
}

/// Reduces the clauses of tier Mid, and marks those of tier Local. Returns whether the tiers and marks are as expected.
fn tiers_and_marks(
    alloc: Global,
    clauses: &mut ClauseAlloc,
    db: &mut ClauseDb,
) -> Result<bool, AllocError>
    requires { DbMatchesBuffer clauses.old db.old }
    ensures { OnOk result (DbMatchesBuffer clauses.new db.new) }
{
    reduce_mids(clauses, db);
    let list = dedup_and_mark_by_tier(alloc, clauses, db, Tier::Local)?;
    Ok(
        list.len() == 2
            && counts(db) == [1, 1, 0, 2]
            && fields(clauses, db, 1) == Some((Tier::Core, false, 0))
            && fields(clauses, db, 2) == Some((Tier::Local, true, 0))
            && fields(clauses, db, 3) == Some((Tier::Local, true, 0)),
    )
}

/// Bumps the first clause, decays the activities by one half, and bumps the clause again. Returns the next bump, and
/// the fields of the clause.
fn raised(clauses: &mut ClauseAlloc, db: &ClauseDb) -> Option<(u64, Option<(Tier, bool, u32)>)>
    requires { DbMatchesBuffer clauses.old db.now }
    ensures { DbMatchesBuffer clauses.new db.now }
{
    if db.len() == 0 {
        return None;
    }
    let cref = db.cref(0);
    let mut activity = ClauseActivity::default();
    activity.set_decay(500);
    bump_clause_activity(&mut activity, clauses, db, cref);
    decay_clause_activities(&mut activity, clauses, db);
    bump_clause_activity(&mut activity, clauses, db, cref);
    Some((activity.bump(), fields(clauses, db, 0)))
}

/// Keeps the first three literals of a clause, and returns how many it had, or 0 if it isn't live.
fn shortened(
    clauses: &mut ClauseAlloc,
    db: &ClauseDb,
    watchlists: &mut Watchlists,
    cref: ClauseRef,
) -> usize
    requires { DbMatchesBuffer clauses.old db.now }
    ensures { DbMatchesBuffer clauses.new db.now }
{
    if !is_among(clauses, db, cref) {
        return 0;
    }
    let len = clauses.len(cref);
    shorten_clause(clauses, db, watchlists, cref, 3);
    len
}

/// Keeps only the clauses of three literals.
fn keep_short(clauses: &mut ClauseAlloc, db: &mut ClauseDb, watchlists: &mut Watchlists)
    requires { DbMatchesBuffer clauses.old db.old }
    ensures db { DbMatchesBuffer clauses.new db.new }
    ensures short { live_refs clauses.new db.new.refs
        ≡ filter (λ o. length (lits_at clauses.old o) == 3) (live_refs clauses.old db.old.refs) }
{
    filter_clauses(
        clauses,
        db,
        watchlists,
        |clauses, cref| clauses.len(cref) == 3,
    );
}

/// Deletes a clause unless it is a reason. Returns whether it was deleted, or `None` if it isn't live.
fn tried(
    clauses: &mut ClauseAlloc,
    db: &mut ClauseDb,
    watchlists: &mut Watchlists,
    graph: &ImplGraph,
    assignment: &Assignment,
    cref: ClauseRef,
) -> Option<bool>
    requires { DbMatchesBuffer clauses.old db.old }
{
    if !is_among(clauses, db, cref) {
        return None;
    }
    let first = clauses.lit(cref, 0).index();
    if first >= assignment.assignment().len() || first >= graph.nodes.len() {
        return None;
    }
    Some(try_delete_clause(clauses, db, watchlists, graph, assignment, cref))
}

/// Shortens the last clause, and deletes it, as it isn't a reason. Returns whether that succeeded.
fn cut_and_tried(
    alloc: Global,
    clauses: &mut ClauseAlloc,
    db: &mut ClauseDb,
    watchlists: &mut Watchlists,
) -> Result<bool, AllocError>
    requires { DbMatchesBuffer clauses.old db.old }
{
    let mut assignment = Assignment::new(alloc);
    let mut graph = ImplGraph::new(alloc);
    assignment.set_var_count(7)?;
    graph.set_var_count(7)?;
    if db.len() != 4 {
        return Ok(false);
    }
    let last = db.cref(3);
    let lens = (
        shortened(clauses, db, watchlists, last),
        shortened(clauses, db, watchlists, last),
    );
    let first = tried(clauses, db, watchlists, &graph, &assignment, last);
    Ok(lens == (5, 3) && first == Some(true) && db.garbage_size() == 6 && !watchlists.enabled())
}

/// Tries to delete the first clause, which is the reason of its first literal. Returns whether it was kept.
fn reason_stays(
    alloc: Global,
    clauses: &mut ClauseAlloc,
    db: &mut ClauseDb,
    watchlists: &mut Watchlists,
) -> Result<bool, AllocError>
    requires { DbMatchesBuffer clauses.old db.old }
{
    let mut assignment = Assignment::new(alloc);
    let mut graph = ImplGraph::new(alloc);
    assignment.set_var_count(7)?;
    graph.set_var_count(7)?;
    if db.len() != 4 {
        return Ok(false);
    }
    let first = db.cref(0);
    assignment.assign_lit(Lit::from_code(0));
    graph.update_reason(Var::from_index(0), Reason::Long(first));
    let answer = tried(clauses, db, watchlists, &graph, &assignment, first);
    Ok(answer == Some(false) && db.garbage_size() == 0 && watchlists.enabled())
}

fn reason_row(
    alloc: Global,
    clauses: &mut ClauseAlloc,
    db: &mut ClauseDb,
    watchlists: &mut Watchlists,
) -> Result<bool, StoreError>
    requires empty { clauses.old ≡ [] }
    requires db { DbMatchesBuffer clauses.old db.old }
    requires none { live_refs clauses.old db.old.refs ≡ [] }
    requires lists { watchlists.old.lists ≡ [] }
{
    four(clauses, db, watchlists)?;
    Ok(reason_stays(alloc, clauses, db, watchlists)?)
}

fn activities_row(
    clauses: &mut ClauseAlloc,
    db: &mut ClauseDb,
    watchlists: &mut Watchlists,
) -> Result<bool, StoreError>
    requires empty { clauses.old ≡ [] }
    requires db { DbMatchesBuffer clauses.old db.old }
    requires none { live_refs clauses.old db.old.refs ≡ [] }
    requires lists { watchlists.old.lists ≡ [] }
{
    four(clauses, db, watchlists)?;
    Ok(raised(clauses, db) == Some((2048, Some((Tier::Irred, false, 3072)))))
}

fn cut_row(
    alloc: Global,
    clauses: &mut ClauseAlloc,
    db: &mut ClauseDb,
    watchlists: &mut Watchlists,
) -> Result<bool, StoreError>
    requires empty { clauses.old ≡ [] }
    requires db { DbMatchesBuffer clauses.old db.old }
    requires none { live_refs clauses.old db.old.refs ≡ [] }
    requires lists { watchlists.old.lists ≡ [] }
{
    four(clauses, db, watchlists)?;
    Ok(cut_and_tried(alloc, clauses, db, watchlists)?)
}

fn passes_row(
    alloc: Global,
    clauses: &mut ClauseAlloc,
    db: &mut ClauseDb,
    watchlists: &mut Watchlists,
) -> Result<bool, StoreError>
    requires empty { clauses.old ≡ [] }
    requires db { DbMatchesBuffer clauses.old db.old }
    requires none { live_refs clauses.old db.old.refs ≡ [] }
    requires lists { watchlists.old.lists ≡ [] }
{
    four(clauses, db, watchlists)?;
    Ok(tiers_and_marks(alloc, clauses, db)?)
}

fn filter_row(
    clauses: &mut ClauseAlloc,
    db: &mut ClauseDb,
    watchlists: &mut Watchlists,
) -> Result<bool, StoreError>
    requires empty { clauses.old ≡ [] }
    requires db { DbMatchesBuffer clauses.old db.old }
    requires none { live_refs clauses.old db.old.refs ≡ [] }
    requires lists { watchlists.old.lists ≡ [] }
{
    four(clauses, db, watchlists)?;
    keep_short(clauses, db, watchlists);
    Ok(counts(db) == [1, 1, 1, 0] && db.garbage_size() == 8 && !watchlists.enabled())
}

#[test]
fn reason_is_not_deleted(rt: HostRuntime) {
    let mut clauses = ClauseAlloc::new(rt.alloc());
    let mut db = ClauseDb::new(rt.alloc());
    let mut watchlists = Watchlists::new(rt.alloc());
    assert!(rt; reason_row(rt.alloc(), &mut clauses, &mut db, &mut watchlists) == Ok(true));
    assert!(rt; counts(&db) == [1, 1, 1, 1]);
    drop(clauses);
    drop(db);
    drop(watchlists);
}

#[test]
fn clauses_are_filtered(rt: HostRuntime) {
    let mut clauses = ClauseAlloc::new(rt.alloc());
    let mut db = ClauseDb::new(rt.alloc());
    let mut watchlists = Watchlists::new(rt.alloc());
    assert!(rt; filter_row(&mut clauses, &mut db, &mut watchlists) == Ok(true));
    drop(clauses);
    drop(db);
    drop(watchlists);
}

#[test]
fn tiers_and_marks_of_passes(rt: HostRuntime) {
    let mut clauses = ClauseAlloc::new(rt.alloc());
    let mut db = ClauseDb::new(rt.alloc());
    let mut watchlists = Watchlists::new(rt.alloc());
    assert!(rt; passes_row(rt.alloc(), &mut clauses, &mut db, &mut watchlists) == Ok(true));
    drop(clauses);
    drop(db);
    drop(watchlists);
}

#[test]
fn bumped_clause_is_raised(rt: HostRuntime) {
    let mut clauses = ClauseAlloc::new(rt.alloc());
    let mut db = ClauseDb::new(rt.alloc());
    let mut watchlists = Watchlists::new(rt.alloc());
    assert!(rt; activities_row(&mut clauses, &mut db, &mut watchlists) == Ok(true));
    drop(clauses);
    drop(db);
    drop(watchlists);
}

#[test]
fn clause_is_shortened_and_deleted(rt: HostRuntime) {
    let mut clauses = ClauseAlloc::new(rt.alloc());
    let mut db = ClauseDb::new(rt.alloc());
    let mut watchlists = Watchlists::new(rt.alloc());
    assert!(rt; cut_row(rt.alloc(), &mut clauses, &mut db, &mut watchlists) == Ok(true));
    drop(clauses);
    drop(db);
    drop(watchlists);
}
