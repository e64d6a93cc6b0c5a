//! Learns a clause from a conflict that propagation found.
ghost use Rattle.std.specs.Prelude.{ℕ, ◌≡◌, ◌<◌, length, OnOk, IfOk};
ghost use Rattle.std.specs.List.{Contains};
ghost use Rattle.sat_parts.specs.clause.Db.{live_refs};
ghost use Rattle.sat_parts.specs.clause.Glue.{FlagsAreClear};
ghost use Rattle.sat_parts.specs.prop.Ready.{IsConflict, state_of};
ghost use Rattle.sat_parts.specs.prop.TrailWord.{LevelsBeginWithDecisions};
ghost use Rattle.sat_solver.specs.analyze_conflict.Derivation.{AnalysisResultOf};
ghost use Rattle.sat_solver.specs.analyze_conflict.Seen.{IsResolution};
ghost use Rattle.sat_solver.specs.analyze_conflict.Marks.{PropagationInvariantBelow, AreInTurnAbove};

use crate::analyze_conflict::analyze::analyze_conflict;
use crate::analyze_conflict::state::AnalyzeConflict;
use sat_parts::{Assignment, BinaryClauses, ClauseDb, Conflict, ImplGraph, Trail, Watchlists};
use sat_store::ClauseAlloc;
use std::alloc::AllocError;

/// Learns a clause from `conflict`, which propagation must have found above level 0. Returns the level to backtrack to.
pub fn learn_from_conflict(
    analysis: &mut AnalyzeConflict,
    clauses: &ClauseAlloc,
    db: &ClauseDb,
    watchlists: &Watchlists,
    binary: &BinaryClauses,
    assignment: &Assignment,
    graph: &ImplGraph,
    trail: &Trail,
    conflict: &Conflict,
) -> Result<usize, AllocError>
    requires asks { PropagationInvariantBelow clauses.now db.now.refs watchlists.now binary.now.implied
        (state_of assignment.now graph.now trail.now) }
    requires conflict { IsConflict clauses.now (live_refs clauses.now db.now.refs) binary.now.implied
        assignment.now.current conflict.now }
    requires above { 0 < length trail.now.starts }
    requires levelled { LevelsBeginWithDecisions (state_of assignment.now graph.now trail.now) }
    requires turns { AreInTurnAbove clauses.now db.now.refs binary.now.implied
        (state_of assignment.now graph.now trail.now) }
    requires size { length analysis.old.flags ≡ length assignment.now.current }
    requires clear { FlagsAreClear analysis.old.flags }
    ensures learns { IfOk result (λ back. AnalysisResultOf clauses.now (state_of assignment.now graph.now trail.now)
        conflict.now analysis.new back) }
    ensures resolution { OnOk result
        (IsResolution clauses.now (state_of assignment.now graph.now trail.now) conflict.now analysis.new) }
    ensures live { OnOk result ((o : ℕ) → Contains analysis.new.antecedents o
        → Contains (live_refs clauses.now db.now.refs) o) }
    ensures clear { OnOk result (FlagsAreClear analysis.new.flags) }
    ensures size { OnOk result (length analysis.new.flags ≡ length assignment.now.current) }
{
    analyze_conflict(analysis, clauses, assignment, graph, trail, conflict)
}
