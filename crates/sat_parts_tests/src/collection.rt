//! Tests of a collection while a clause is the reason of a literal.
ghost use Rattle.std.specs.Prelude.{◌≡◌, ◌<◌, IsTrue, OnOk, [], length};
ghost use Rattle.sat_parts.specs.clause.Db.{DbMatchesBuffer, live_refs};
ghost use Rattle.sat_parts.specs.clause.Collected.{ReasonsHaveLitFirst};
ghost use Rattle.sat_parts_tests.specs.Firsts.{HasFirst};

use crate::lists::store;
use crate::passes::is_among;
use sat_base::{Lit, Var};
use sat_parts::{
    Assignment, ClauseDb, ImplGraph, Reason, Trail, Watchlists, collect_garbage, delete_clause,
    enqueue_assignment,
};
use sat_store::{ClauseAlloc, ClauseRef, StoreError, Tier};
use std::alloc::{AllocError, Global};

/// Returns `true` if the reason of a literal, if it is a long clause, is a live clause whose first literal is `lit`.
fn reason_holds(clauses: &ClauseAlloc, db: &ClauseDb, graph: &ImplGraph, lit: Lit) -> bool
    requires { DbMatchesBuffer clauses.now db.now }
    ensures { IsTrue result → HasFirst clauses.now (live_refs clauses.now db.now.refs) graph.now lit }
{
    if lit.index() >= graph.nodes.len() {
        return false;
    }
    let reason = graph.reason(lit.var());
    match reason {
        Reason::Unit => true,
        Reason::Binary(_) => true,
        Reason::Long(cref) => is_among(clauses, db, cref) && clauses.lit(cref, 0) == lit,
    }
}

/// Returns `true` if the reasons of the trail's literals are as a collection requires.
fn reasons_hold(clauses: &ClauseAlloc, db: &ClauseDb, graph: &ImplGraph, trail: &Trail) -> bool
    requires { DbMatchesBuffer clauses.now db.now }
    ensures { IsTrue result → ReasonsHaveLitFirst clauses.now (live_refs clauses.now db.now.refs) trail.now.lits graph.now }
{
    let lits = trail.trail();
    for at in 0..lits.len() {
        if !reason_holds(clauses, db, graph, lits[at]) {
            return false;
        }
    }
    true
}

/// Adds two clauses, and deletes the first one. Returns the second one, or `None` if the first one isn't live.
fn two_clauses(
    clauses: &mut ClauseAlloc,
    db: &mut ClauseDb,
    watchlists: &mut Watchlists,
) -> Result<Option<ClauseRef>, StoreError>
    requires db { DbMatchesBuffer clauses.old db.old }
    requires lists { watchlists.old.lists ≡ [] }
    ensures db { OnOk result (DbMatchesBuffer clauses.new db.new) }
{
    watchlists.set_var_count(7)?;
    let codes = [
        Lit::from_code(0),
        Lit::from_code(2),
        Lit::from_code(4),
        Lit::from_code(6),
        Lit::from_code(8),
    ];
    let first = store(clauses, db, watchlists, Tier::Irred, &codes)?;
    let codes = [Lit::from_code(10), Lit::from_code(12), Lit::from_code(14)];
    let second = store(clauses, db, watchlists, Tier::Core, &codes)?;
    if !is_among(clauses, db, first) {
        return Ok(None);
    }
    delete_clause(clauses, db, watchlists, first);
    Ok(Some(second))
}

/// Makes the sixth variable true, with a clause as its reason.
fn enqueue_by(
    assignment: &mut Assignment,
    graph: &mut ImplGraph,
    trail: &mut Trail,
    cref: ClauseRef,
) -> Result<bool, AllocError>
    requires { length trail.old.lits < trail.old.room }
{
    assignment.set_var_count(7)?;
    graph.set_var_count(7)?;
    let lit = Lit::from_code(10);
    if !assignment.lit_is_unk(lit) {
        return Ok(false);
    }
    enqueue_assignment(assignment, graph, trail, lit, Reason::Long(cref));
    Ok(true)
}

/// Collects, and returns whether the only remaining clause was moved, is the reason of the sixth variable, and isn't
/// marked.
fn is_moved(
    alloc: Global,
    clauses: &mut ClauseAlloc,
    db: &mut ClauseDb,
    graph: &mut ImplGraph,
    watchlists: &mut Watchlists,
    trail: &Trail,
) -> Result<bool, StoreError>
    requires { DbMatchesBuffer clauses.old db.old }
{
    if !reasons_hold(clauses, db, graph, trail) {
        return Ok(false);
    }
    collect_garbage(alloc, clauses, db, graph, watchlists, trail)?;
    if graph.nodes.len() != 7 || db.len() != 1 {
        return Ok(false);
    }
    let cref = db.cref(0);
    Ok(
        is_among(clauses, db, cref)
            && !clauses.header(cref).mark()
            && graph.reason(Var::from_index(5)) == Reason::Long(cref)
            && (cref.offset(), clauses.buffer_size()) == (0, 6)
            && !watchlists.enabled(),
    )
}

fn row(
    alloc: Global,
    clauses: &mut ClauseAlloc,
    db: &mut ClauseDb,
    watchlists: &mut Watchlists,
) -> Result<bool, StoreError>
    requires db { DbMatchesBuffer clauses.old db.old }
    requires lists { watchlists.old.lists ≡ [] }
{
    let cref = match two_clauses(clauses, db, watchlists)? {
        Some(cref) => cref,
        None => return Ok(false),
    };
    let mut assignment = Assignment::new(alloc);
    let mut graph = ImplGraph::new(alloc);
    let mut trail = Trail::new(alloc);
    trail.set_var_count(7)?;
    if !enqueue_by(&mut assignment, &mut graph, &mut trail, cref)? {
        return Ok(false);
    }
    is_moved(alloc, clauses, db, &mut graph, watchlists, &trail)
}

#[test]
fn reason_follows_its_clause(rt: HostRuntime) {
    let mut clauses = ClauseAlloc::new(rt.alloc());
    let mut db = ClauseDb::new(rt.alloc());
    let mut watchlists = Watchlists::new(rt.alloc());
    assert!(rt; row(rt.alloc(), &mut clauses, &mut db, &mut watchlists) == Ok(true));
    assert!(rt; db.count_by_tier(Tier::Core) == 1);
    drop(clauses);
    drop(db);
    drop(watchlists);
}
