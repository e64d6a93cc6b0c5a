//! Minimizes learned clauses: removes literals that must be false whenever the other literals of the clause are false.
ghost use Rattle.std.specs.Prelude.{◌≡◌, ◌<◌, ◌∷◌, [], length, OnOk, IfOk};
ghost use Rattle.sat_base.specs.values.Literals.{variable};
ghost use Rattle.sat_parts.specs.clause.Glue.{LitsHaveNodes};
ghost use Rattle.sat_parts.specs.prop.ReasonLits.{conflict_lits};
ghost use Rattle.sat_parts.specs.prop.Ready.{state_of, AreAllFalse};
ghost use Rattle.sat_solver.specs.analyze_conflict.Marks.{CanAnalyze};
ghost use Rattle.sat_solver.specs.analyze_conflict.Derivation.{IsAsserting, HasUnorderedDerivation, FlagsAmong};
ghost use Rattle.sat_solver.specs.analyze_conflict.Derivation.{IsUipClause};
ghost use Rattle.sat_solver.specs.analyze_conflict.Seen.{AppendsLowerUsedLits};
ghost use Rattle.sat_solver.specs.analyze_conflict.Minimization.{MinimizationIsDone, MinimizationResult};
ghost use Rattle.sat_solver.specs.analyze_conflict.Minimization.{CanStartSearch, marked_reasons};

use crate::analyze_conflict::state::AnalyzeConflict;
use sat_base::Lit;
use sat_parts::{Assignment, CauseLits, Conflict, ImplGraph, Trail};
use sat_store::{ClauseAlloc, LevelAbstraction, Lits};
use std::alloc::AllocError;

/// Marks a literal of a reason, unless the literal is already marked or its level is 0.
///
/// Returns `false`, and does not mark the literal, if its reason is not a clause or its level is not in `levels`.
#[inline(always)]
fn mark_literal(
    analysis: &mut AnalyzeConflict,
    graph: &ImplGraph,
    levels: &LevelAbstraction,
    lit: Lit,
) -> Result<bool, AllocError>
    requires node { variable lit < length graph.now }
    requires flags { length analysis.old.flags ≡ length graph.now }
    ensures follows { IfOk result (λ b. marked_reasons graph.now levels.now (lit ∷ []) analysis.old
        ≡ record { work = analysis.new; whole = b }) }
    ensures flags { OnOk result (length analysis.new.flags ≡ length graph.now) }
{
    if analysis.is_flagged(lit) {
        return Ok(true);
    }
    let level = graph.level(lit.var());
    if level == 0 {
        return Ok(true);
    }
    let reason = graph.reason(lit.var());
    if reason.is_unit() || !levels.test(level) {
        return Ok(false);
    }
    analysis.mark(lit)?;
    Ok(true)
}

/// Calls `mark_literal` for each literal in `lits` in turn, until a call returns `false`. Returns `true` if all calls
/// returned `true`.
fn mark_literals(
    analysis: &mut AnalyzeConflict,
    graph: &ImplGraph,
    levels: &LevelAbstraction,
    lits: &[Lit],
) -> Result<bool, AllocError>
    requires nodes { LitsHaveNodes graph.now lits.now }
    requires flags { length analysis.old.flags ≡ length graph.now }
    ensures follows { IfOk result (λ b. marked_reasons graph.now levels.now lits.now analysis.old
        ≡ record { work = analysis.new; whole = b }) }
    ensures flags { OnOk result (length analysis.new.flags ≡ length graph.now) }
{
    for lit in lits {
        if !mark_literal(analysis, graph, levels, *lit)? {
            return Ok(false);
        }
    }
    Ok(true)
}

/// Calls `mark_literal` for each literal of a long clause in turn, until a call returns `false`. Returns `true` if all
/// calls returned `true`.
fn mark_long_lits(
    analysis: &mut AnalyzeConflict,
    graph: &ImplGraph,
    levels: &LevelAbstraction,
    lits: &Lits<'_>,
) -> Result<bool, AllocError>
    requires nodes { LitsHaveNodes graph.now lits.now }
    requires flags { length analysis.old.flags ≡ length graph.now }
    ensures { IfOk result (λ b. marked_reasons graph.now levels.now lits.now analysis.old
        ≡ record { work = analysis.new; whole = b }) }
{
    for at in 0..lits.len() {
        if !mark_literal(analysis, graph, levels, lits.get(at))? {
            return Ok(false);
        }
    }
    Ok(true)
}

/// Calls `mark_literal` for each literal of a reason in turn, until a call returns `false`. Returns `true` if all calls
/// returned `true`.
fn mark_reason(
    analysis: &mut AnalyzeConflict,
    graph: &ImplGraph,
    levels: &LevelAbstraction,
    lits: &CauseLits,
) -> Result<bool, AllocError>
    requires nodes { LitsHaveNodes graph.now lits.now }
    requires flags { length analysis.old.flags ≡ length graph.now }
    ensures { IfOk result (λ b. marked_reasons graph.now levels.now lits.now analysis.old
        ≡ record { work = analysis.new; whole = b }) }
{
    let (own, long) = lits.parts();
    if !mark_literals(analysis, graph, levels, own)? {
        return Ok(false);
    }
    let whole = mark_long_lits(analysis, graph, levels, long)?;
    Ok(whole)
}

/// Returns `true` if reasons show that `lit` must be false whenever the other literals of the learned clause are false.
/// If so, the literals that have these reasons are among the used literals afterwards.
fn is_implied(
    analysis: &mut AnalyzeConflict,
    clauses: &ClauseAlloc,
    assignment: &Assignment,
    graph: &ImplGraph,
    trail: &Trail,
    conflict: &Conflict,
    levels: &LevelAbstraction,
    low: usize,
    lit: Lit,
) -> Result<bool, AllocError>
    requires can { CanAnalyze clauses.now (state_of assignment.now graph.now trail.now) }
    requires searching { MinimizationIsDone clauses.now (state_of assignment.now graph.now trail.now) conflict.now low
        analysis.old }
    requires may { CanStartSearch (state_of assignment.now graph.now trail.now) analysis.old lit }
    ensures { IfOk result (λ b. MinimizationResult clauses.now (state_of assignment.now graph.now trail.now) conflict.now low lit
        analysis.old analysis.new b) }
{
    let top = analysis.used().len();
    analysis.add_used(!lit)?;
    let mut at = top;
    while at < analysis.used().len() {
        let next = analysis.used()[at];
        let reason = graph.reason(next.var());
        if !mark_reason(analysis, graph, levels, &reason.lits(clauses))? {
            analysis.undo(top);
            return Ok(false);
        }
        at += 1;
    }
    Ok(true)
}

/// Returns a filter that contains the levels of `lits`, and possibly other levels.
fn levels_of(graph: &ImplGraph, lits: &[Lit]) -> LevelAbstraction
    requires { LitsHaveNodes graph.now lits.now }
{
    let mut levels = LevelAbstraction::default();
    for lit in lits {
        levels.add(graph.level(lit.var()));
    }
    levels
}

/// Removes from the learned clause the literals that reasons show to be false whenever its other literals are false.
/// Never removes the first literal.
pub(crate) fn minimize_clause(
    analysis: &mut AnalyzeConflict,
    clauses: &ClauseAlloc,
    assignment: &Assignment,
    graph: &ImplGraph,
    trail: &Trail,
    conflict: &Conflict,
) -> Result<(), AllocError>
    requires can { CanAnalyze clauses.now (state_of assignment.now graph.now trail.now) }
    requires fails { AreAllFalse assignment.now.current (conflict_lits clauses.now conflict.now) }
    requires resolved { IsUipClause clauses.now (state_of assignment.now graph.now trail.now) conflict.now
        analysis.old }
    ensures asserting { OnOk result (IsAsserting (state_of assignment.now graph.now trail.now) analysis.new.clause) }
    ensures grounds { OnOk result (HasUnorderedDerivation clauses.now (state_of assignment.now graph.now trail.now) conflict.now
        analysis.new) }
    ensures among { OnOk result (FlagsAmong analysis.new) }
    ensures kept { OnOk result (AppendsLowerUsedLits (state_of assignment.now graph.now trail.now) analysis.old analysis.new) }
    ensures size { OnOk result (length analysis.new.flags ≡ length analysis.old.flags) }
{
    let levels = levels_of(graph, analysis.clause());
    let low = analysis.used().len();
    let mut kept = 1;
    for at in 1..analysis.clause().len() {
        let lit = analysis.clause()[at];
        let reason = graph.reason(lit.var());
        if reason.is_unit()
            || !is_implied(
                analysis, clauses, assignment, graph, trail, conflict, &levels, low, lit,
            )?
        {
            analysis.set_clause_lit(kept, lit);
            kept += 1;
        }
    }
    analysis.cut(kept);
    Ok(())
}
