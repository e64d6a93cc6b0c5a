//! Unit propagation, and the data that it works on.
ghost use Rattle.std.specs.Prelude.{◌≡◌, true, IfOk, OnOk};
ghost use Rattle.sat_parts.specs.clause.Db.{DbMatchesBuffer};
ghost use Rattle.sat_parts.specs.prop.Ready.{state_of};
ghost use Rattle.sat_parts.specs.prop.Propagation.{PropagationPrecondition, PropagationResult};

pub mod assignment;
pub mod binary;
pub mod cause;
pub mod graph;
mod lit_values;
pub mod long;
mod queue;
pub mod trail;
pub mod watch;

use crate::binary::BinaryClauses;
use crate::clause::db::ClauseDb;
use crate::prop::assignment::Assignment;
use crate::prop::graph::{Conflict, ImplGraph};
use crate::prop::queue::propagate_queue;
use crate::prop::trail::Trail;
use crate::prop::watch::{Watchlists, enable_watchlists};
use sat_store::ClauseAlloc;
use std::alloc::{AllocError, Global};

/// Propagates all literals in the queue, each over the binary clauses and then over the long clauses.
///
/// Builds the watch lists first if they are disabled. Returns `Ok(Ok(()))` if every literal was propagated, and
/// `Ok(Err(conflict))` if a clause is falsified. If memory runs out, the state may be inconsistent and must not be
/// used again.
pub fn propagate(
    alloc: Global,
    clauses: &mut ClauseAlloc,
    db: &ClauseDb,
    watchlists: &mut Watchlists,
    assignment: &mut Assignment,
    graph: &mut ImplGraph,
    trail: &mut Trail,
    binary: &BinaryClauses,
) -> Result<Result<(), Conflict>, AllocError>
    requires { PropagationPrecondition clauses.old db.now.refs watchlists.old binary.now.implied
        (state_of assignment.old graph.old trail.old) }
    ensures given { IfOk result (λ r. PropagationResult db.now.refs binary.now.implied
        clauses.old (state_of assignment.old graph.old trail.old)
        clauses.new (state_of assignment.new graph.new trail.new) watchlists.new r) }
    ensures held { DbMatchesBuffer clauses.old db.now → OnOk result (DbMatchesBuffer clauses.new db.now) }
    ensures enabled { OnOk result (watchlists.new.enabled ≡ true) }
    ensures last { IfOk result (λ _. assignment.new.last ≡ assignment.old.last) }
{
    enable_watchlists(watchlists, clauses, db)?;
    propagate_queue(
        alloc, clauses, db, watchlists, assignment, graph, trail, binary,
    )
}
