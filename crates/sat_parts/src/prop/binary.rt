//! Propagation over binary clauses.
ghost use Rattle.std.specs.Prelude.{◌≡◌, length, IfOk, IsOk};
ghost use Rattle.sat_parts.specs.prop.State.{StateIsConsistent, IsQueueCurrent, HasLeftQueue, level, current_level};
ghost use Rattle.sat_parts.specs.prop.Ready.{state_of, AreImpliedLists};
ghost use Rattle.sat_parts.specs.prop.Walk.{BinaryWalkEffect};

use crate::binary::BinaryClauses;
use crate::prop::assignment::Assignment;
use crate::prop::graph::{Conflict, ImplGraph, Reason};
use crate::prop::trail::{Trail, enqueue_assignment};
use sat_base::Lit;
use std::alloc::AllocError;

/// Assigns all literals that `lit` implies through binary clauses. `lit` must have left the queue. Never allocates.
///
/// Stops at the first binary clause whose literals are both false, and returns `Ok(Err(conflict))`. Never returns
/// `Err`.
pub fn propagate_binary(
    binary: &BinaryClauses,
    assignment: &mut Assignment,
    graph: &mut ImplGraph,
    trail: &mut Trail,
    lit: Lit,
) -> Result<Result<(), Conflict>, AllocError>
    requires lists { AreImpliedLists binary.now.implied (length assignment.old.current) }
    requires agrees { StateIsConsistent (state_of assignment.old graph.old trail.old) }
    requires queue { IsQueueCurrent (state_of assignment.old graph.old trail.old) }
    requires left { HasLeftQueue (state_of assignment.old graph.old trail.old) lit }
    requires top { level (state_of assignment.old graph.old trail.old) lit
        ≡ current_level (state_of assignment.old graph.old trail.old) }
    ensures memory { IsOk result }
    ensures walked { IfOk result (λ r. BinaryWalkEffect binary.now.implied lit
        (state_of assignment.old graph.old trail.old) (state_of assignment.new graph.new trail.new) r) }
    ensures last { assignment.new.last ≡ assignment.old.last }
{
    let false_lit = !lit;
    for implied in binary.implied(lit) {
        let implied = *implied;
        if assignment.lit_is_false(implied) {
            return Ok(Err(Conflict::Binary([implied, false_lit])));
        }
        if !assignment.lit_is_true(implied) {
            enqueue_assignment(
                assignment,
                graph,
                trail,
                implied,
                Reason::Binary([false_lit]),
            );
        }
    }
    Ok(Ok(()))
}
