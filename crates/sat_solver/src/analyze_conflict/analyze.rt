//! Learns a clause from a conflict.
ghost use Rattle.std.specs.Prelude.{ℕ, ◌≡◌, ◌<◌, length, OnOk, IfOk};
ghost use Rattle.sat_store.specs.clause.Buffer.{IsClause};
ghost use Rattle.sat_parts.specs.clause.Glue.{FlagsAreClear};
ghost use Rattle.sat_parts.specs.prop.ReasonLits.{conflict_lits};
ghost use Rattle.sat_parts.specs.prop.Ready.{AreAllFalse, state_of};
ghost use Rattle.sat_solver.specs.analyze_conflict.Marks.{CanAnalyze, HasCurrentLevelLit};
ghost use Rattle.sat_solver.specs.analyze_conflict.Derivation.{AnalysisResultOf};
ghost use Rattle.sat_solver.specs.analyze_conflict.Seen.{IsResolution};

use crate::analyze_conflict::resolve::{begin_conflict, finish_conflict, resolve_conflict};
use crate::analyze_conflict::state::AnalyzeConflict;
use crate::minimize::minimize_clause;
use sat_parts::{Assignment, Conflict, ImplGraph, Trail};
use sat_store::ClauseAlloc;
use std::alloc::AllocError;

/// Learns a clause from `conflict`, which must be above level 0, and stores the clause in `analysis`. Returns the level
/// to backtrack to. At that level, all literals of the learned clause but the first are false, so that the clause
/// implies its first literal.
pub fn analyze_conflict(
    analysis: &mut AnalyzeConflict,
    clauses: &ClauseAlloc,
    assignment: &Assignment,
    graph: &ImplGraph,
    trail: &Trail,
    conflict: &Conflict,
) -> Result<usize, AllocError>
    requires can { CanAnalyze clauses.now (state_of assignment.now graph.now trail.now) }
    requires size { length analysis.old.flags ≡ length assignment.now.current }
    requires clear { FlagsAreClear analysis.old.flags }
    requires valid { (o : ℕ) → conflict.now ≡ Conflict.Long o → IsClause clauses.now o }
    requires fails { AreAllFalse assignment.now.current (conflict_lits clauses.now conflict.now) }
    requires top { HasCurrentLevelLit (state_of assignment.now graph.now trail.now) (conflict_lits clauses.now conflict.now) }
    ensures learns { IfOk result (λ back. AnalysisResultOf clauses.now (state_of assignment.now graph.now trail.now)
        conflict.now analysis.new back) }
    ensures resolution { OnOk result
        (IsResolution clauses.now (state_of assignment.now graph.now trail.now) conflict.now analysis.new) }
    ensures size { OnOk result (length analysis.new.flags ≡ length assignment.now.current) }
{
    begin_conflict(analysis, clauses, assignment, graph, trail, conflict)?;
    let at = resolve_conflict(analysis, clauses, assignment, graph, trail, conflict)?;
    finish_conflict(analysis, clauses, assignment, graph, trail, conflict, at)?;
    let resolved = analysis.used().len();
    minimize_clause(analysis, clauses, assignment, graph, trail, conflict)?;
    analysis.clear_flags();
    analysis.order_used(graph, resolved)?;
    Ok(analysis.put_second(graph))
}
