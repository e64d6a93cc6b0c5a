//! Propagation of all literals in the queue.
ghost use Rattle.std.specs.Prelude.{ℕ, List, ◌≡◌, IfOk};
ghost use Rattle.sat_parts.specs.prop.Ready.{state_of, IsReadyToPropagate, WatchedPropagationResult};

use crate::binary::BinaryClauses;
use crate::clause::db::ClauseDb;
use crate::prop::assignment::Assignment;
use crate::prop::binary::propagate_binary;
use crate::prop::graph::{Conflict, ImplGraph};
use crate::prop::long::propagate_long;
use crate::prop::trail::Trail;
use crate::prop::watch::Watchlists;
use sat_store::ClauseAlloc;
use std::alloc::{AllocError, Global};

/// Propagates all literals in the queue, each over the binary clauses and then over the long clauses.
///
/// Returns `Ok(Err(conflict))` if a clause is falsified. The list of clauses is not read. If memory runs out, the state
/// may be inconsistent and must not be used again.
pub(crate) fn propagate_queue(
    alloc: Global,
    clauses: &mut ClauseAlloc,
    _db: &ClauseDb,
    watchlists: &mut Watchlists,
    assignment: &mut Assignment,
    graph: &mut ImplGraph,
    trail: &mut Trail,
    binary: &BinaryClauses,
) -> Result<Result<(), Conflict>, AllocError>
    ghost live: { List ℕ }
    requires { IsReadyToPropagate clauses.old live watchlists.old.lists binary.now.implied
        (state_of assignment.old graph.old trail.old) }
    ensures propagated { IfOk result (λ r. WatchedPropagationResult live binary.now.implied
        clauses.old (state_of assignment.old graph.old trail.old)
        clauses.new (state_of assignment.new graph.new trail.new) watchlists.new.lists r) }
    ensures last { assignment.new.last ≡ assignment.old.last }
    ensures enabled { watchlists.new.enabled ≡ watchlists.old.enabled }
{
    'queue: while let Some(lit) = trail.pop_queue() {
        let over_binary = propagate_binary(binary, assignment, graph, trail, lit)?;
        match over_binary {
            Ok(()) => {}
            Err(conflict) => return Ok(Err(conflict)),
        }
        let over_long = propagate_long(alloc, clauses, watchlists, assignment, graph, trail, lit)?;
        match over_long {
            Ok(()) => {}
            Err(conflict) => return Ok(Err(conflict)),
        }
    }
    Ok(Ok(()))
}
