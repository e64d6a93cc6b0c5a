//! Finds the assumptions that, together with the clauses, falsify an assumption.
ghost use Rattle.std.specs.Prelude.{◌≡◌, ◌<◌, false, length, OnOk, IfOk};
ghost use Rattle.sat_parts.specs.clause.Glue.{FlagsAreClear};
ghost use Rattle.sat_parts.specs.prop.Graphs.{has_no_clause};
ghost use Rattle.sat_parts.specs.prop.Ready.{state_of};
ghost use Rattle.sat_parts.specs.prop.State.{StateIsConsistent, node, level};
ghost use Rattle.sat_parts.specs.prop.Values.{IsFalseLit};
ghost use Rattle.sat_solver.specs.analyze_conflict.Marks.{CanAnalyze};
ghost use Rattle.sat_solver.specs.assumptions.FailedAssumptions.{IsFailedAssumption, TraceInvariant, TraceResult};

use crate::analyze_conflict::resolve::add_all;
use crate::analyze_conflict::state::AnalyzeConflict;
use sat_base::Lit;
use sat_parts::{Assignment, ImplGraph, Trail};
use sat_store::ClauseAlloc;
use std::alloc::AllocError;

/// Begins an analysis with the clause that falsifies the assumption `failed`. Returns the position of the negation of
/// `failed` on the trail.
fn begin_trace(
    analysis: &mut AnalyzeConflict,
    clauses: &ClauseAlloc,
    assignment: &Assignment,
    graph: &ImplGraph,
    trail: &Trail,
    failed: Lit,
) -> Result<usize, AllocError>
    requires can { CanAnalyze clauses.now (state_of assignment.now graph.now trail.now) }
    requires size { length analysis.old.flags ≡ length assignment.now.current }
    requires clear { FlagsAreClear analysis.old.flags }
    requires fails { IsFalseLit assignment.now.current failed }
    requires above { 0 < level (state_of assignment.now graph.now trail.now) failed }
    requires caused { has_no_clause (node (state_of assignment.now graph.now trail.now) failed).reason ≡ false }
    ensures { IfOk result (λ p. TraceInvariant clauses.now (state_of assignment.now graph.now trail.now) failed analysis.new
        p) }
{
    analysis.begin_core(failed)?;
    analysis.add_used(!failed)?;
    let reason = graph.reason(failed.var());
    add_all(analysis, graph, 1, &reason.lits(clauses))?;
    Ok(graph.depth(failed.var()) - 1)
}

/// Handles the last flagged literal before position `before` of the trail: uses its reason if the reason is a clause,
/// and adds the literal to the core otherwise. Returns the position of the literal.
fn trace_next(
    analysis: &mut AnalyzeConflict,
    clauses: &ClauseAlloc,
    assignment: &Assignment,
    graph: &ImplGraph,
    trail: &Trail,
    failed: Lit,
    before: usize,
) -> Result<usize, AllocError>
    requires can { CanAnalyze clauses.now (state_of assignment.now graph.now trail.now) }
    requires tracing { TraceInvariant clauses.now (state_of assignment.now graph.now trail.now) failed analysis.old before }
    requires some { 0 < analysis.old.pending }
    ensures { IfOk result (λ p. (p < before)
        × TraceInvariant clauses.now (state_of assignment.now graph.now trail.now) failed analysis.new p) }
{
    let lits = trail.trail();
    let place = analysis.last_flagged(lits, before);
    let lit = lits[place];
    let reason = graph.reason(lit.var());
    if reason.is_unit() {
        analysis.add_decision_to_core(lit)?;
        return Ok(place);
    }
    analysis.use_reason(&reason, lit)?;
    add_all(analysis, graph, 1, &reason.lits(clauses))?;
    Ok(place)
}

/// Traces reasons back, from position `from` of the trail, until no literal is flagged.
fn trace(
    analysis: &mut AnalyzeConflict,
    clauses: &ClauseAlloc,
    assignment: &Assignment,
    graph: &ImplGraph,
    trail: &Trail,
    failed: Lit,
    from: usize,
) -> Result<(), AllocError>
    requires can { CanAnalyze clauses.now (state_of assignment.now graph.now trail.now) }
    requires fails { IsFalseLit assignment.now.current failed }
    requires tracing { TraceInvariant clauses.now (state_of assignment.now graph.now trail.now) failed analysis.old from }
    ensures { OnOk result (TraceResult clauses.now (state_of assignment.now graph.now trail.now) failed analysis.new) }
{
    let mut at = from;
    while analysis.pending() > 0 {
        at = trace_next(analysis, clauses, assignment, graph, trail, failed, at)?;
    }
    Ok(())
}

/// Finds assumptions that contradict the false assumption `failed`, and the clauses that show the contradiction.
///
/// Afterwards, the core of `analysis` contains the assumptions, and the reasons for its used literals are the clauses.
pub fn analyze_assumption(
    analysis: &mut AnalyzeConflict,
    clauses: &ClauseAlloc,
    assignment: &Assignment,
    graph: &ImplGraph,
    trail: &Trail,
    failed: Lit,
) -> Result<(), AllocError>
    requires agrees { StateIsConsistent (state_of assignment.now graph.now trail.now) }
    requires can { 0 < length trail.now.starts → CanAnalyze clauses.now (state_of assignment.now graph.now trail.now) }
    requires size { length analysis.old.flags ≡ length assignment.now.current }
    requires clear { FlagsAreClear analysis.old.flags }
    requires fails { IsFalseLit assignment.now.current failed }
    ensures fails { OnOk result (IsFailedAssumption clauses.now (state_of assignment.now graph.now trail.now) failed
        analysis.new.core analysis.new.used) }
    ensures clear { OnOk result (FlagsAreClear analysis.new.flags) }
    ensures size { OnOk result (length analysis.new.flags ≡ length assignment.now.current) }
{
    if graph.level(failed.var()) == 0 {
        return analysis.begin_core(failed);
    }
    if graph.reason(failed.var()).is_unit() {
        analysis.begin_core(failed)?;
        return analysis.add_core(!failed);
    }
    let from = begin_trace(analysis, clauses, assignment, graph, trail, failed)?;
    trace(analysis, clauses, assignment, graph, trail, failed, from)?;
    analysis.reverse_used();
    Ok(())
}
