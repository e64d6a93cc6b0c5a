//! The data of a search as one struct, and the operations on it.
ghost use Rattle.std.specs.Prelude.{◌≡◌, ◌≤◌, OnOk, length, []};
ghost use Rattle.sat_base.specs.values.Literals.{var_limit};
ghost use Rattle.sat_parts.specs.prop.Trails.{no_trail};
ghost use Rattle.sat_parts.specs.parts.Whole.{SearchStateInvariant};
ghost use Rattle.sat_parts.specs.parts.Frame.{AddsVars};

pub mod assumptions;
pub mod clauses;
pub mod load;
pub mod reduce;
pub mod sorting;
pub mod steps;
pub mod units;
pub mod unused;
pub mod variables;

use crate::{Assignment, BinaryClauses, ClauseDb, ImplGraph, Trail, Watchlists};
use sat_store::{ClauseAlloc, Vsids};
use std::alloc::{AllocError, Global};

/// The clauses, the assignment, and the queue of variables to decide.
#[derive(Drop)]
pub struct SearchState {
    pub clauses: ClauseAlloc,
    pub db: ClauseDb,
    pub watchlists: Watchlists,
    pub binary: BinaryClauses,
    pub assignment: Assignment,
    pub graph: ImplGraph,
    pub trail: Trail,
    pub vsids: Vsids,
}

/// Raises the number of variables to `count`, which must not be lower than before.
///
/// New variables have no value, are in no clause, and are not available for decisions.
pub fn set_var_count(parts: &mut SearchState, count: usize) -> Result<(), AllocError>
    requires holds { SearchStateInvariant parts.old }
    requires more { length parts.old.assignment.current ≤ count }
    requires few { count ≤ var_limit }
    ensures holds { OnOk result (SearchStateInvariant parts.new) }
    ensures grown { OnOk result (AddsVars parts.old parts.new count) }
{
    parts.watchlists.set_var_count(count)?;
    parts.binary.set_var_count(count)?;
    parts.assignment.set_var_count(count)?;
    parts.graph.set_var_count(count)?;
    parts.trail.set_var_count(count)?;
    parts.vsids.set_var_count(count)
}

/// Returns the data of a search without variables or clauses. The first propagation builds the watch lists.
pub fn new_search_state(alloc: Global) -> SearchState
    ensures holds { SearchStateInvariant result }
    ensures none { result.assignment.current ≡ [] }
    ensures refs { result.db.refs ≡ [] }
    ensures implied { result.binary.implied ≡ [] }
    ensures trail { result.trail ≡ no_trail }
{
    let mut watchlists = Watchlists::new(alloc);
    watchlists.disable();
    SearchState {
        clauses: ClauseAlloc::new(alloc),
        db: ClauseDb::new(alloc),
        watchlists,
        binary: BinaryClauses::new(alloc),
        assignment: Assignment::new(alloc),
        graph: ImplGraph::new(alloc),
        trail: Trail::new(alloc),
        vsids: Vsids::new(alloc),
    }
}
