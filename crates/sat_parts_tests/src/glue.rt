//! Tests of the levels of a clause that is in the buffer.
ghost use Rattle.std.specs.Prelude.{ℕ, ◌≡◌, ◌<◌, IsTrue, [], length, slice_index};
ghost use Rattle.sat_base.specs.values.Literals.{variable};
ghost use Rattle.sat_store.specs.clause.Buffer.{IsClause, lits_at};
ghost use Rattle.sat_parts.specs.clause.Db.{DbMatchesBuffer, live_refs};
ghost use Rattle.sat_parts.specs.prop.Graphs.{node_of};

use crate::passes::{four, is_among};
use crate::table::make_flags;
use sat_base::Lit;
use sat_parts::{
    ClauseDb, ImplGraph, ImplNode, Reason, Watchlists, compute_clause_glue,
    compute_clause_glue_below,
};
use sat_store::{ClauseAlloc, ClauseRef, StoreError, TmpFlags};
use std::alloc::AllocError;

/// Returns `true` if every literal of a clause has a node with a level below `bound`.
fn levels_below(graph: &ImplGraph, clauses: &ClauseAlloc, cref: ClauseRef, bound: usize) -> bool
    requires { IsClause clauses.now cref }
    ensures nodes { IsTrue result → (k : ℕ) → k < length (lits_at clauses.now cref) →
        variable (slice_index (lits_at clauses.now cref) k) < length graph.now }
    ensures levels { IsTrue result → (k : ℕ) → k < length (lits_at clauses.now cref) →
        (node_of graph.now (variable (slice_index (lits_at clauses.now cref) k))).level < bound }
{
    for at in 0..clauses.len(cref) {
        let lit = clauses.lit(cref, at);
        if lit.index() >= graph.nodes.len() || graph.level(lit.var()) >= bound {
            return false;
        }
    }
    true
}

/// Adds the nodes of three variables, whose reasons are binary clauses with the false literal `lit`. The second node
/// has the level 3.
fn make_nodes(graph: &mut ImplGraph, lit: Lit) -> Result<(), AllocError> {
    for index in 0u32..3 {
        let level = if index == 1 { 3 } else { 0 };
        graph.nodes.push(ImplNode {
            reason: Reason::Binary([lit]),
            level,
            depth: index,
        })?;
    }
    Ok(())
}

/// Returns the glue of the first clause of the list, or `None` if the clause isn't live, a level is too high, or the
/// glue that is counted only up to 1 isn't 1.
fn glue_of_first(
    flags: &mut TmpFlags,
    graph: &ImplGraph,
    clauses: &ClauseAlloc,
    db: &ClauseDb,
) -> Result<Option<usize>, AllocError>
    requires flags { flags.old.flags.items ≡ [] }
    requires db { DbMatchesBuffer clauses.now db.now }
{
    make_flags(flags)?;
    if db.len() == 0 {
        return Ok(None);
    }
    let cref = db.cref(0);
    if !is_among(clauses, db, cref) || !levels_below(graph, clauses, cref, 10) {
        return Ok(None);
    }
    if compute_clause_glue_below(flags, graph, clauses, cref, 1) != 1 {
        return Ok(None);
    }
    Ok(Some(compute_clause_glue(flags, graph, clauses, cref)))
}

fn row(
    clauses: &mut ClauseAlloc,
    db: &mut ClauseDb,
    watchlists: &mut Watchlists,
    graph: &mut ImplGraph,
    flags: &mut TmpFlags,
) -> Result<Option<usize>, StoreError>
    requires empty { clauses.old ≡ [] }
    requires db { DbMatchesBuffer clauses.old db.old }
    requires none { live_refs clauses.old db.old.refs ≡ [] }
    requires lists { watchlists.old.lists ≡ [] }
    requires flags { flags.old.flags.items ≡ [] }
{
    four(clauses, db, watchlists)?;
    make_nodes(graph, Lit::from_code(6))?;
    Ok(glue_of_first(flags, graph, clauses, db)?)
}

#[test]
fn levels_of_a_clause_are_counted(rt: HostRuntime) {
    let mut clauses = ClauseAlloc::new(rt.alloc());
    let mut db = ClauseDb::new(rt.alloc());
    let mut watchlists = Watchlists::new(rt.alloc());
    let mut graph = ImplGraph::new(rt.alloc());
    let mut flags = TmpFlags::new(rt.alloc());
    let glue = row(
        &mut clauses,
        &mut db,
        &mut watchlists,
        &mut graph,
        &mut flags,
    );
    assert!(rt; glue == Ok(Some(2)));
    assert!(rt; flags.flags.as_slice() == [false; 10].as_slice());
    drop(clauses);
    drop(db);
    drop(watchlists);
    drop(graph);
    drop(flags);
}
