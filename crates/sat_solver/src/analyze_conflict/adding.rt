//! Adds literals to an analysis whose lists have capacity for them.
ghost use Rattle.std.specs.Prelude.{◌≡◌, ◌+◌, ◌<◌, ◌≤◌, length, OnOk, vec_len, vec_capacity};
ghost use Rattle.sat_base.specs.values.Literals.{variable};
ghost use Rattle.sat_parts.specs.clause.Glue.{LitsHaveNodes};
ghost use Rattle.sat_solver.specs.analyze_conflict.AddedState.{added_state};
ghost use Rattle.sat_solver.specs.analyze_conflict.AnalysisState.{with_seen_literal, with_seen_literals};

use sat_base::{Lit, Var};
use sat_parts::ImplGraph;
use sat_store::Lits;
use std::alloc::AllocError;

/// Reserves capacity for `count` more elements in each of two lists.
#[inline(always)] // called for each clause that analysis uses
pub(crate) fn make_room<A: Drop, B: Drop>(
    first: &mut Vec<A>,
    second: &mut Vec<B>,
    count: usize,
) -> Result<(), AllocError>
    ensures first { first.new.items ≡ first.old.items }
    ensures second { second.new.items ≡ second.old.items }
    ensures first_room { OnOk result (vec_len first.new + count ≤ vec_capacity first.new) }
    ensures second_room { OnOk result (vec_len second.new + count ≤ vec_capacity second.new) }
{
    if first.capacity() - first.len() < count || second.capacity() - second.len() < count {
        return grow(first, second, count);
    }
    Ok(())
}

/// Allocates, so that each of two lists has capacity for `count` more elements.
#[cold]
#[inline(never)] // keeps its registers out of the analysis
fn grow<A: Drop, B: Drop>(
    first: &mut Vec<A>,
    second: &mut Vec<B>,
    count: usize,
) -> Result<(), AllocError>
    ensures first { first.new.items ≡ first.old.items }
    ensures second { second.new.items ≡ second.old.items }
    ensures first_room { OnOk result (vec_len first.new + count ≤ vec_capacity first.new) }
    ensures second_room { OnOk result (vec_len second.new + count ≤ vec_capacity second.new) }
{
    first.reserve(count)?;
    second.reserve(count)
}

/// Adds a false literal and flags its variable, unless the variable is already flagged or its level is 0. `clause` and
/// `seen` must have capacity for the literal.
///
/// A literal below level `top` is added to `clause`. Any other literal is still to be resolved, so it is counted in
/// `pending`.
#[inline(always)] // called for each literal of a clause that analysis uses
fn add(
    clause: &mut Vec<Lit>,
    seen: &mut Vec<Var>,
    flags: &mut [bool],
    pending: &mut usize,
    graph: &ImplGraph,
    top: usize,
    lit: Lit,
)
    requires node { variable lit < length graph.now }
    requires flag { variable lit < length flags.old }
    requires clause_room { vec_len clause.old < vec_capacity clause.old }
    requires seen_room { vec_len seen.old < vec_capacity seen.old }
    ensures added { added_state clause.new.items seen.new.items flags.new pending.new
        ≡ with_seen_literal graph.now top lit (added_state clause.old.items seen.old.items flags.old pending.old) }
    ensures flags { length flags.new ≡ length flags.old }
    ensures clause_len { vec_len clause.new ≤ vec_len clause.old + 1 }
    ensures clause_capacity { vec_capacity clause.new ≡ vec_capacity clause.old }
    ensures seen_len { vec_len seen.new ≤ vec_len seen.old + 1 }
    ensures seen_capacity { vec_capacity seen.new ≡ vec_capacity seen.old }
{
    let index = lit.index();
    if flags[index] {
        return;
    }
    let level = graph.level(lit.var());
    if level == 0 {
        return;
    }
    flags[index] = true;
    seen.push_reserved(lit.var());
    if level < top {
        clause.push_reserved(lit);
        return;
    }
    *pending = pending.saturating_add(1);
}

/// Adds the false literals `lits`, one after another. `clause` and `seen` must have capacity for all of them.
#[inline(always)] // called for each clause that analysis uses
pub(crate) fn add_lits(
    clause: &mut Vec<Lit>,
    seen: &mut Vec<Var>,
    flags: &mut [bool],
    pending: &mut usize,
    graph: &ImplGraph,
    top: usize,
    lits: &[Lit],
)
    requires nodes { LitsHaveNodes graph.now lits.now }
    requires flags { length flags.old ≡ length graph.now }
    requires clause_room { vec_len clause.old + length lits.now ≤ vec_capacity clause.old }
    requires seen_room { vec_len seen.old + length lits.now ≤ vec_capacity seen.old }
    ensures added { added_state clause.new.items seen.new.items flags.new pending.new
        ≡ with_seen_literals graph.now top lits.now (added_state clause.old.items seen.old.items flags.old pending.old) }
    ensures flags { length flags.new ≡ length flags.old }
{
    for lit in lits {
        add(clause, seen, flags, pending, graph, top, *lit);
    }
}

/// Adds the false literals of a long clause, one after another. `clause` and `seen` must have capacity for all of them.
#[inline(always)] // called for each clause that analysis uses
pub(crate) fn add_long_lits(
    clause: &mut Vec<Lit>,
    seen: &mut Vec<Var>,
    flags: &mut [bool],
    pending: &mut usize,
    graph: &ImplGraph,
    top: usize,
    lits: &Lits<'_>,
)
    requires nodes { LitsHaveNodes graph.now lits.now }
    requires flags { length flags.old ≡ length graph.now }
    requires clause_room { vec_len clause.old + length lits.now ≤ vec_capacity clause.old }
    requires seen_room { vec_len seen.old + length lits.now ≤ vec_capacity seen.old }
    ensures { added_state clause.new.items seen.new.items flags.new pending.new
        ≡ with_seen_literals graph.now top lits.now (added_state clause.old.items seen.old.items flags.old pending.old) }
{
    for at in 0..lits.len() {
        add(clause, seen, flags, pending, graph, top, lits.get(at));
    }
}
