//! Resolution up to the first unique implication point.
ghost use Rattle.std.specs.Prelude.{ℕ, ◌≡◌, ◌<◌, length, OnOk, IfOk};
ghost use Rattle.sat_store.specs.clause.Buffer.{IsClause};
ghost use Rattle.sat_parts.specs.clause.Glue.{FlagsAreClear, LitsHaveNodes};
ghost use Rattle.sat_parts.specs.prop.ReasonLits.{conflict_lits};
ghost use Rattle.sat_parts.specs.prop.Ready.{state_of, AreAllFalse};
ghost use Rattle.sat_solver.specs.analyze_conflict.AnalysisState.{with_seen_literals};
ghost use Rattle.sat_solver.specs.analyze_conflict.Marks.{CanAnalyze, IsResolvent, IsFirstResolvent};
ghost use Rattle.sat_solver.specs.analyze_conflict.Marks.{HasCurrentLevelLit};
ghost use Rattle.sat_solver.specs.analyze_conflict.Derivation.{IsUipClause};
ghost use Rattle.sat_solver.specs.analyze_conflict.Seen.{CollectionInvariant, BeginsCollecting, CollectionResult};

use crate::analyze_conflict::state::AnalyzeConflict;
use sat_parts::{Assignment, CauseLits, Conflict, ImplGraph, Trail};
use sat_store::ClauseAlloc;
use std::alloc::AllocError;

/// Adds the false literals `lits` to the analysis, one after another. Those at level `top` or above are still to
/// be resolved.
#[inline(always)] // called for each clause that analysis uses
pub(crate) fn add_all(
    analysis: &mut AnalyzeConflict,
    graph: &ImplGraph,
    top: usize,
    lits: &CauseLits,
) -> Result<(), AllocError>
    requires nodes { LitsHaveNodes graph.now lits.now }
    requires flags { length analysis.old.flags ≡ length graph.now }
    ensures { OnOk result (analysis.new ≡ with_seen_literals graph.now top lits.now analysis.old) }
{
    let (own, long) = lits.parts();
    analysis.add_own(graph, top, own)?;
    analysis.add_long(graph, top, long)?;
    Ok(())
}

/// Resolves with the reason for the last flagged literal before position `before` of the trail. Returns the position of
/// this literal.
fn resolve_next(
    analysis: &mut AnalyzeConflict,
    clauses: &ClauseAlloc,
    assignment: &Assignment,
    graph: &ImplGraph,
    trail: &Trail,
    conflict: &Conflict,
    before: usize,
) -> Result<usize, AllocError>
    requires can { CanAnalyze clauses.now (state_of assignment.now graph.now trail.now) }
    requires resolving { IsResolvent clauses.now (state_of assignment.now graph.now trail.now) conflict.now analysis.old
        before }
    requires collecting { CollectionInvariant clauses.now (state_of assignment.now graph.now trail.now) conflict.now analysis.old
        before }
    requires two { 1 < analysis.old.pending }
    ensures next { IfOk result (λ p. (p < before)
        × IsResolvent clauses.now (state_of assignment.now graph.now trail.now) conflict.now analysis.new p
        × CollectionInvariant clauses.now (state_of assignment.now graph.now trail.now) conflict.now analysis.new p) }
{
    let lits = trail.trail();
    let place = analysis.last_flagged(lits, before);
    let lit = lits[place];
    let reason = graph.reason(lit.var());
    analysis.use_reason(&reason, lit)?;
    add_all(
        analysis,
        graph,
        trail.current_level(),
        &reason.lits(clauses),
    )?;
    Ok(place)
}

/// Resolves until exactly one literal of the current level is left. Returns a position on the trail that comes after
/// this literal.
pub(crate) fn resolve_conflict(
    analysis: &mut AnalyzeConflict,
    clauses: &ClauseAlloc,
    assignment: &Assignment,
    graph: &ImplGraph,
    trail: &Trail,
    conflict: &Conflict,
) -> Result<usize, AllocError>
    requires can { CanAnalyze clauses.now (state_of assignment.now graph.now trail.now) }
    requires resolving { IsFirstResolvent clauses.now (state_of assignment.now graph.now trail.now) conflict.now
        analysis.old }
    requires collecting { BeginsCollecting clauses.now (state_of assignment.now graph.now trail.now) conflict.now
        analysis.old }
    ensures next { IfOk result (λ p. (analysis.new.pending ≡ 1)
        × IsResolvent clauses.now (state_of assignment.now graph.now trail.now) conflict.now analysis.new p
        × CollectionInvariant clauses.now (state_of assignment.now graph.now trail.now) conflict.now analysis.new p) }
{
    let mut at = trail.trail().len();
    while analysis.pending() > 1 {
        at = resolve_next(analysis, clauses, assignment, graph, trail, conflict, at)?;
    }
    Ok(at)
}

/// Begins an analysis with the literals of the falsified clause.
pub(crate) fn begin_conflict(
    analysis: &mut AnalyzeConflict,
    clauses: &ClauseAlloc,
    assignment: &Assignment,
    graph: &ImplGraph,
    trail: &Trail,
    conflict: &Conflict,
) -> Result<(), AllocError>
    requires can { CanAnalyze clauses.now (state_of assignment.now graph.now trail.now) }
    requires size { length analysis.old.flags ≡ length assignment.now.current }
    requires clear { FlagsAreClear analysis.old.flags }
    requires valid { (o : ℕ) → conflict.now ≡ Conflict.Long o → IsClause clauses.now o }
    requires fails { AreAllFalse assignment.now.current (conflict_lits clauses.now conflict.now) }
    requires top { HasCurrentLevelLit (state_of assignment.now graph.now trail.now) (conflict_lits clauses.now conflict.now) }
    ensures resolving { OnOk result
        (IsFirstResolvent clauses.now (state_of assignment.now graph.now trail.now) conflict.now analysis.new) }
    ensures collecting { OnOk result
        (BeginsCollecting clauses.now (state_of assignment.now graph.now trail.now) conflict.now analysis.new) }
{
    analysis.begin(conflict)?;
    add_all(
        analysis,
        graph,
        trail.current_level(),
        &conflict.lits(clauses),
    )?;
    Ok(())
}

/// Finds the last flagged literal before position `before` of the trail. Makes its negation the first literal of the
/// learned clause.
pub(crate) fn finish_conflict(
    analysis: &mut AnalyzeConflict,
    clauses: &ClauseAlloc,
    assignment: &Assignment,
    graph: &ImplGraph,
    trail: &Trail,
    conflict: &Conflict,
    before: usize,
) -> Result<(), AllocError>
    requires can { CanAnalyze clauses.now (state_of assignment.now graph.now trail.now) }
    requires resolving { IsResolvent clauses.now (state_of assignment.now graph.now trail.now) conflict.now analysis.old
        before }
    requires collecting { CollectionInvariant clauses.now (state_of assignment.now graph.now trail.now) conflict.now analysis.old
        before }
    requires one { analysis.old.pending ≡ 1 }
    ensures resolved { OnOk result
        (IsUipClause clauses.now (state_of assignment.now graph.now trail.now) conflict.now analysis.new) }
    ensures collected { OnOk result
        (CollectionResult clauses.now (state_of assignment.now graph.now trail.now) conflict.now analysis.new) }
{
    let lits = trail.trail();
    let place = analysis.last_flagged(lits, before);
    let lit = lits[place];
    analysis.unflag_pending(lit);
    analysis.add_first(!lit)?;
    Ok(())
}
