//! The operations of a round of the search: propagate, decide, learn, backtrack.
ghost use Rattle.std.specs.Prelude.{ℕ, List, ◌≡◌, ◌≢◌, ◌+◌, ◌<◌, ◌≤◌, OnOk, IfOk, MatchResult, MatchOption, Some, None};
ghost use Rattle.std.specs.Prelude.{true, false, [], length};
ghost use Rattle.sat_base.specs.values.Literals.{variable};
ghost use Rattle.sat_store.specs.heap.Vsids.{Queue, is_available};
ghost use Rattle.sat_parts.specs.prop.Values.{IsUnassignedLit, value_of};
ghost use Rattle.sat_parts.specs.prop.State.{current_level};
ghost use Rattle.sat_parts.specs.prop.Ready.{IsConflict};
ghost use Rattle.sat_parts.specs.clause.Db.{live_refs};
ghost use Rattle.sat_parts.specs.parts.Whole.{state, SearchStateInvariant, SearchStateInvariantBelow};
ghost use Rattle.sat_parts.specs.parts.Whole.{IsFullyPropagated, IsPicked, AllAssigned};
ghost use Rattle.sat_parts.specs.parts.Round.{UnitsHaveNoReason, LevelZeroInvariant};
ghost use Rattle.sat_parts.specs.prop.Trails.{without_levels_above};
ghost use Rattle.sat_parts.specs.prop.TrailWord.{decided_on};
ghost use Rattle.sat_parts.specs.parts.Words.{WordExtends, TrailWordExtendsFor, KeepsRemovedAndIdleForAll};
ghost use Rattle.sat_parts.specs.parts.Words.{TrailWordExtends};
ghost use Rattle.sat_parts.specs.parts.Words.{IsPickableOrAssumed};
ghost use Rattle.sat_parts.specs.parts.Learned.{IsAnalyzedClause, IsUnitAfterBacktracking};
ghost use Rattle.sat_parts.specs.parts.Frame.{AddsNoUnit, SameClauses, ReordersLits, AddsLearnedClause, KeepsLevelsTo};
ghost use Rattle.sat_parts.specs.parts.Frame.{AddsNoClauseOrUnit};
ghost use Rattle.sat_parts.specs.parts.Frame.{KeepsLevels, OpensLevel, EnqueuesFirst};
ghost use Rattle.sat_parts.specs.parts.Full.{IsBufferFull};
ghost use Rattle.sat_store.specs.clause.Full.{IfStoreFull};

use crate::parts::SearchState;
use crate::{Assignment, Conflict, Reason, add_clause, backtrack, enqueue_assignment, propagate};
use sat_base::{Lit, Var};
use sat_store::{ClauseHeader, StoreError, Vsids};
use std::alloc::{AllocError, Global};

/// Propagates all literals in the queue. Returns `Ok(Err(conflict))` if a clause is falsified. After a conflict, the
/// invariant holds again only once the current level has been undone.
pub fn propagate_all(
    alloc: Global,
    parts: &mut SearchState,
) -> Result<Result<(), Conflict>, AllocError>
    requires holds { SearchStateInvariantBelow (length parts.old.trail.starts + 1) parts.old }
    ensures holds { IfOk result (λ r. MatchResult r (λ _. SearchStateInvariantBelow (length parts.new.trail.starts + 1) parts.new)
        (λ e. SearchStateInvariantBelow (length parts.new.trail.starts) parts.new
        × IsConflict parts.new.clauses (live_refs parts.new.clauses parts.new.db.refs) parts.new.binary.implied
        parts.new.assignment.current e)) }
    ensures done { IfOk result (λ r. OnOk r (IsFullyPropagated parts.new)) }
    ensures units { 0 < length parts.old.trail.starts → UnitsHaveNoReason (state parts.old)
        → OnOk result (UnitsHaveNoReason (state parts.new)) }
    ensures base { 0 < length parts.old.trail.starts → LevelZeroInvariant parts.old.trail → OnOk result (LevelZeroInvariant parts.new.trail) }
    ensures starts { OnOk result (parts.new.trail.starts ≡ parts.old.trail.starts) }
    ensures moved { OnOk result (ReordersLits parts.old parts.new) }
    ensures carries { OnOk result (AddsNoUnit (state parts.old) (state parts.new)) }
    ensures keeps { OnOk result (KeepsLevels parts.old parts.new) }
    ensures word { OnOk result (TrailWordExtends parts.old parts.new) }
{
    propagate(
        alloc,
        &mut parts.clauses,
        &parts.db,
        &mut parts.watchlists,
        &mut parts.assignment,
        &mut parts.graph,
        &mut parts.trail,
        &parts.binary,
    )
}

/// Removes variables from the queue, highest activity first, up to the first unassigned one. Returns that variable, or
/// `None` if the queue contains none.
pub fn pick(vsids: &mut Vsids, assignment: &Assignment) -> Option<Var>
    requires size { length vsids.old.available ≡ length assignment.now.current }
    ensures size { length vsids.new.available ≡ length vsids.old.available }
    ensures kept { (u : ℕ) → value_of assignment.now.current u ≡ None
        → MatchOption result (is_available vsids.old u ≡ false)
        (λ v. u ≢ v → is_available vsids.old u ≡ true → is_available vsids.new u ≡ true) }
    ensures open { MatchOption result ℕ
        (λ v. (v < length assignment.now.current) × (value_of assignment.now.current v ≡ None)) }
    ensures picked { MatchOption result ℕ (λ v. is_available vsids.old v ≡ true) }
    ensures fewer { (u : ℕ) → is_available vsids.old u ≡ false → is_available vsids.new u ≡ false }
{
    while let Some(var) = vsids.next() {
        if assignment.var_value(var).is_none() {
            return Some(var);
        }
    }
    None
}

/// Decides on an unassigned variable that was picked: assigns the last value of the variable, at a new level.
fn decide_on(parts: &mut SearchState, var: Var) -> Result<(), AllocError>
    requires picked { IsPicked parts.old var }
    requires done { IsFullyPropagated parts.old }
    ensures holds { OnOk result (SearchStateInvariant parts.new) }
    ensures deeper { OnOk result (OpensLevel parts.old parts.new) }
    ensures same { OnOk result (AddsNoClauseOrUnit parts.old parts.new) }
    ensures keeps { OnOk result (KeepsLevels parts.old parts.new) }
    ensures word { (assumed : List ℕ) (q : Queue) → is_available q var ≡ true
        → ((u : ℕ) → is_available q u ≡ false → is_available parts.old.vsids u ≡ false)
        → OnOk result (WordExtends assumed (state parts.old) q (state parts.new) parts.new.vsids) }
{
    let lit = var.lit(parts.assignment.last_var_value(var));
    parts.trail.new_decision_level()?;
    enqueue_assignment(
        &mut parts.assignment,
        &mut parts.graph,
        &mut parts.trail,
        lit,
        Reason::Unit,
    );
    Ok(())
}

/// Makes the literal of a learned unit clause true at level 0.
fn learn_unit(parts: &mut SearchState, header: ClauseHeader, lits: &[Lit])
    requires holds { SearchStateInvariant parts.old }
    requires one { length lits.now ≡ 1 }
    requires pending { IsUnitAfterBacktracking (state parts.old) parts.old.vsids lits.now }
    ensures holds { SearchStateInvariant parts.new }
    ensures trail { EnqueuesFirst lits.now parts.old parts.new }
    ensures learnt { AddsLearnedClause parts.old parts.new header lits.now }
    ensures stay { KeepsRemovedAndIdleForAll parts.old parts.new }
{
    let _ = header;
    enqueue_assignment(
        &mut parts.assignment,
        &mut parts.graph,
        &mut parts.trail,
        lits[0],
        Reason::Unit,
    );
}

/// Adds a learned binary clause, and makes its first literal true with the clause as the reason.
fn learn_binary(
    parts: &mut SearchState,
    header: ClauseHeader,
    lits: &[Lit],
) -> Result<(), AllocError>
    requires holds { SearchStateInvariant parts.old }
    requires two { length lits.now ≡ 2 }
    requires pending { IsUnitAfterBacktracking (state parts.old) parts.old.vsids lits.now }
    ensures holds { OnOk result (SearchStateInvariant parts.new) }
    ensures trail { OnOk result (EnqueuesFirst lits.now parts.old parts.new) }
    ensures learnt { OnOk result (AddsLearnedClause parts.old parts.new header lits.now) }
    ensures stay { OnOk result (KeepsRemovedAndIdleForAll parts.old parts.new) }
{
    let _ = header;
    let first = lits[0];
    let second = lits[1];
    parts.binary.add_binary_clause([first, second])?;
    enqueue_assignment(
        &mut parts.assignment,
        &mut parts.graph,
        &mut parts.trail,
        first,
        Reason::Binary([second]),
    );
    Ok(())
}

/// Adds a learned long clause, and makes its first literal true with the clause as the reason.
fn learn_long(parts: &mut SearchState, header: ClauseHeader, lits: &[Lit]) -> Result<(), StoreError>
    requires holds { SearchStateInvariant parts.old }
    requires live { header.deleted ≡ false }
    requires long { 3 ≤ length lits.now }
    requires pending { IsUnitAfterBacktracking (state parts.old) parts.old.vsids lits.now }
    ensures holds { OnOk result (SearchStateInvariant parts.new) }
    ensures trail { OnOk result (EnqueuesFirst lits.now parts.old parts.new) }
    ensures learnt { OnOk result (AddsLearnedClause parts.old parts.new header lits.now) }
    ensures stay { OnOk result (KeepsRemovedAndIdleForAll parts.old parts.new) }
    ensures full { IfStoreFull result (IsBufferFull parts.new) }
{
    let cref = add_clause(
        &mut parts.clauses,
        &mut parts.db,
        &mut parts.watchlists,
        header,
        lits,
    )?;
    enqueue_assignment(
        &mut parts.assignment,
        &mut parts.graph,
        &mut parts.trail,
        lits[0],
        Reason::Long(cref),
    );
    Ok(())
}

/// Adds a learned clause, and makes its first literal true. All other literals of the clause must be false.
pub fn learn(parts: &mut SearchState, header: ClauseHeader, lits: &[Lit]) -> Result<(), StoreError>
    requires holds { SearchStateInvariant parts.old }
    requires live { header.deleted ≡ false }
    requires pending { IsUnitAfterBacktracking (state parts.old) parts.old.vsids lits.now }
    ensures holds { OnOk result (SearchStateInvariant parts.new) }
    ensures trail { OnOk result (EnqueuesFirst lits.now parts.old parts.new) }
    ensures learnt { OnOk result (AddsLearnedClause parts.old parts.new header lits.now) }
    ensures stay { OnOk result (KeepsRemovedAndIdleForAll parts.old parts.new) }
    ensures full { IfStoreFull result (IsBufferFull parts.new) }
{
    if lits.len() == 1 {
        learn_unit(parts, header, lits);
        return Ok(());
    }
    if lits.len() == 2 {
        learn_binary(parts, header, lits)?;
        return Ok(());
    }
    learn_long(parts, header, lits)
}

/// Undoes the levels above `level`, which must be lower than the current one.
pub fn undo(parts: &mut SearchState, level: usize)
    ghost top: { ℕ }
    requires holds { SearchStateInvariantBelow top parts.old }
    requires units { UnitsHaveNoReason (state parts.old) }
    requires base { LevelZeroInvariant parts.old.trail }
    requires below { level < length parts.old.trail.starts }
    requires due { level < top }
    ensures holds { SearchStateInvariant parts.new }
    ensures pending { (ls : List ℕ) → IsAnalyzedClause (state parts.old) ls level
        → IsUnitAfterBacktracking (state parts.new) parts.new.vsids ls }
    ensures starts { length parts.new.trail.starts ≡ level }
    ensures trail { parts.new.trail ≡ without_levels_above level parts.old.trail }
    ensures graph { parts.new.graph ≡ parts.old.graph }
    ensures same { SameClauses parts.old parts.new }
    ensures carries { AddsNoUnit (state parts.old) (state parts.new) }
    ensures keeps { KeepsLevelsTo level (state parts.old) (state parts.new) }
    ensures stay { KeepsRemovedAndIdleForAll parts.old parts.new }
{
    backtrack(
        &mut parts.assignment,
        &mut parts.trail,
        &mut parts.vsids,
        level,
    );
}

/// Undoes all levels above 0.
pub fn full_restart(parts: &mut SearchState)
    requires holds { SearchStateInvariant parts.old }
    ensures holds { SearchStateInvariant parts.new }
    ensures bottom { parts.new.trail.starts ≡ [] }
    ensures same { SameClauses parts.old parts.new }
    ensures carries { AddsNoUnit (state parts.old) (state parts.new) }
    ensures stay { KeepsRemovedAndIdleForAll parts.old parts.new }
{
    if parts.trail.current_level() == 0 {
        return;
    }
    undo(parts, 0);
}

/// Decides on an unassigned variable, if there is one. Returns whether there was one.
pub fn make_decision(parts: &mut SearchState) -> Result<bool, AllocError>
    requires holds { SearchStateInvariant parts.old }
    requires done { IsFullyPropagated parts.old }
    ensures holds { OnOk result (SearchStateInvariant parts.new) }
    ensures all { IfOk result (λ decided. decided ≡ false → IsFullyPropagated parts.new × AllAssigned parts.new) }
    ensures same { OnOk result (AddsNoClauseOrUnit parts.old parts.new) }
    ensures keeps { OnOk result (KeepsLevels parts.old parts.new) }
    ensures word { OnOk result (TrailWordExtends parts.old parts.new) }
    ensures flat { IfOk result (λ decided. decided ≡ false → parts.new.trail ≡ parts.old.trail) }
    ensures deeper { IfOk result (λ decided. decided ≡ true → OpensLevel parts.old parts.new) }
{
    let picked = pick(&mut parts.vsids, &parts.assignment);
    match picked {
        None => Ok(false),
        Some(var) => {
            decide_on(parts, var)?;
            Ok(true)
        }
    }
}

/// Makes an unassigned literal true as an assumption, at a level of its own.
pub fn assume(parts: &mut SearchState, lit: Lit) -> Result<(), AllocError>
    requires holds { SearchStateInvariant parts.old }
    requires done { IsFullyPropagated parts.old }
    requires there { variable lit < length parts.old.assignment.current }
    requires open { IsUnassignedLit parts.old.assignment.current lit }
    ensures holds { OnOk result (SearchStateInvariant parts.new) }
    ensures word { (assumed : List ℕ) → IsPickableOrAssumed assumed parts.old.vsids (variable lit)
        → OnOk result (TrailWordExtendsFor assumed parts.old parts.new) }
    ensures same { OnOk result (AddsNoClauseOrUnit parts.old parts.new) }
    ensures decided { OnOk result (state parts.new ≡ decided_on lit (state parts.old)) }
    ensures keeps { OnOk result (KeepsLevels parts.old parts.new) }
    ensures deeper { OnOk result (OpensLevel parts.old parts.new) }
{
    parts.trail.new_decision_level()?;
    enqueue_assignment(
        &mut parts.assignment,
        &mut parts.graph,
        &mut parts.trail,
        lit,
        Reason::Unit,
    );
    Ok(())
}
