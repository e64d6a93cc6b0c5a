//! Tests of assignments that are made and undone, and of the levels of a clause.
ghost use Rattle.std.specs.Prelude.{ℕ, ◌≡◌, ◌<◌, IfOk, IsTrue, OnOk, [], length, slice_index, slice_index_or, false};
ghost use Rattle.sat_base.specs.values.Literals.{variable};
ghost use Rattle.sat_parts.specs.prop.Graphs.{node_of};
ghost use Rattle.sat_parts.specs.parts.Whole.{SearchStateInvariant, IsFullyPropagated};

use crate::loading::loaded;
use sat_base::{Lit, Var};
use sat_parts::parts::clauses::bump_variable;
use sat_parts::parts::new_search_state;
use sat_parts::parts::steps::{assume, full_restart, pick, propagate_all};
use sat_parts::parts::units::clear_units;
use sat_parts::{ImplGraph, Reason, SearchState, compute_glue};
use sat_store::{StoreError, TmpFlags};
use std::alloc::{AllocError, Global};

/// The number of variables.
const COUNT: usize = 5;

/// Returns the reason, the level and the depth of a variable, or `None` if there is no such variable.
fn node(graph: &ImplGraph, index: usize) -> Option<(Reason, usize, usize)> {
    if index >= graph.nodes.len() || index >= COUNT {
        return None;
    }
    let var = Var::from_index(index);
    Some((graph.reason(var), graph.level(var), graph.depth(var)))
}

/// Loads two clauses and a unit, propagates, and removes the unit from the trail. Returns whether the unit was on the
/// trail without a reason.
fn begun(alloc: Global, parts: &mut SearchState) -> Result<bool, StoreError>
    requires holds { SearchStateInvariant parts.old }
    requires none { parts.old.assignment.current ≡ [] }
    ensures holds { IfOk result (λ ok. IsTrue ok → SearchStateInvariant parts.new) }
    ensures done { IfOk result (λ ok. IsTrue ok → IsFullyPropagated parts.new) }
{
    let clauses: [&[i64]; 3] = [&[-3, 4], &[-3, -4, 5], &[1]];
    if !loaded(alloc, parts, COUNT, &clauses)? {
        return Ok(false);
    }
    match propagate_all(alloc, parts)? {
        Ok(()) => {
            let is_unit = node(&parts.graph, 0) == Some((Reason::Unit, 0, 1));
            clear_units(parts);
            Ok(is_unit)
        }
        Err(_) => Ok(false),
    }
}

/// Decides an unassigned literal and propagates. Returns whether that could be done without a conflict.
fn advance(alloc: Global, parts: &mut SearchState, lit: Lit) -> Result<bool, AllocError>
    requires holds { SearchStateInvariant parts.old }
    requires done { IsFullyPropagated parts.old }
    ensures holds { IfOk result (λ ok. IsTrue ok → SearchStateInvariant parts.new) }
    ensures done { IfOk result (λ ok. IsTrue ok → IsFullyPropagated parts.new) }
{
    if lit.index() >= parts.assignment.assignment().len() || !parts.assignment.lit_is_unk(lit) {
        return Ok(false);
    }
    assume(parts, lit)?;
    match propagate_all(alloc, parts)? {
        Ok(()) => Ok(true),
        Err(_) => Ok(false),
    }
}

/// Returns `true` if the nodes are as expected: for a unit that is no longer on the trail, for two decisions, and for
/// what the second decision implies by the clause of two literals and by the long clause.
fn nodes_are_right(parts: &SearchState) -> bool {
    let cref = match parts.db.refs().first() {
        Some(cref) => *cref,
        None => return false,
    };
    let graph = &parts.graph;
    node(graph, 0) == Some((Reason::Unit, 0, 4294967295))
        && node(graph, 1) == Some((Reason::Unit, 1, 1))
        && node(graph, 2) == Some((Reason::Unit, 2, 2))
        && node(graph, 3) == Some((Reason::Binary([Lit::from_code(5)]), 2, 3))
        && node(graph, 4) == Some((Reason::Long(cref), 2, 4))
}

/// Returns `true` if every literal has a node with a level below `bound`.
fn levels_below(graph: &ImplGraph, lits: &[Lit], bound: usize) -> bool
    ensures nodes { IsTrue result → (k : ℕ) → k < length lits.now
        → variable (slice_index lits.now k) < length graph.now }
    ensures levels { IsTrue result → (k : ℕ) → k < length lits.now
        → (node_of graph.now (variable (slice_index lits.now k))).level < bound }
{
    for at in 0..lits.len() {
        let lit = lits[at];
        if lit.index() >= graph.nodes.len() || graph.level(lit.var()) >= bound {
            return false;
        }
    }
    true
}

/// Creates ten flags, all false.
pub fn make_flags(flags: &mut TmpFlags) -> Result<(), AllocError>
    requires { flags.old.flags.items ≡ [] }
    ensures clear { OnOk result ((k : ℕ) → slice_index_or flags.new.flags.items k false ≡ false) }
    ensures size { OnOk result (length flags.new.flags.items ≡ 10) }
{
    flags.set_var_count(COUNT)?;
    Ok(())
}

/// Returns the glue of the literals, or 99 if a literal has no node of a level below 10.
fn glue_of(flags: &mut TmpFlags, graph: &ImplGraph, lits: &[Lit]) -> Result<usize, AllocError>
    requires { flags.old.flags.items ≡ [] }
{
    make_flags(flags)?;
    if !levels_below(graph, lits, 10) {
        return Ok(99);
    }
    Ok(compute_glue(flags, graph, lits))
}

/// Makes the decisions. Returns whether they are possible, and the nodes are as expected.
fn decisions(alloc: Global, parts: &mut SearchState) -> Result<bool, AllocError>
    requires holds { SearchStateInvariant parts.old }
    requires done { IsFullyPropagated parts.old }
    ensures holds { IfOk result (λ ok. IsTrue ok → SearchStateInvariant parts.new) }
{
    if !advance(alloc, parts, Lit::from_code(2))? {
        return Ok(false);
    }
    if !advance(alloc, parts, Lit::from_code(4))? {
        return Ok(false);
    }
    Ok(nodes_are_right(parts) && parts.trail.current_level() == 2)
}

/// Undoes all levels. Returns whether the trail is empty, and an unassigned variable that was bumped is picked.
fn undone(parts: &mut SearchState) -> bool
    requires { SearchStateInvariant parts.old }
{
    full_restart(parts);
    let raised = Var::from_index(2);
    if parts.assignment.assignment().len() <= raised.index() {
        return false;
    }
    bump_variable(parts, raised);
    parts.trail.trail().is_empty()
        && parts.trail.current_level() == 0
        && pick(&mut parts.vsids, &parts.assignment) == Some(raised)
}

fn table(alloc: Global, parts: &mut SearchState, flags: &mut TmpFlags) -> Result<bool, StoreError>
    requires holds { SearchStateInvariant parts.old }
    requires none { parts.old.assignment.current ≡ [] }
    requires flags { flags.old.flags.items ≡ [] }
{
    if !begun(alloc, parts)? || !decisions(alloc, parts)? {
        return Ok(false);
    }
    let lits = [
        Lit::from_code(0),
        Lit::from_code(2),
        Lit::from_code(4),
        Lit::from_code(6),
    ];
    if glue_of(flags, &parts.graph, &lits)? != 3 {
        return Ok(false);
    }
    Ok(undone(parts))
}

/// Returns `true` if the variable is unassigned, and its last value was `value`.
fn has_lost(parts: &SearchState, index: usize, value: bool) -> bool {
    if index >= parts.assignment.assignment().len() || index >= COUNT {
        return false;
    }
    let var = Var::from_index(index);
    parts.assignment.var_value(var).is_none() && parts.assignment.last_var_value(var) == value
}

#[test]
fn levels_are_entered_and_undone(rt: HostRuntime) {
    let mut parts = new_search_state(rt.alloc());
    let mut flags = TmpFlags::new(rt.alloc());
    assert!(rt; table(rt.alloc(), &mut parts, &mut flags) == Ok(true));
    for index in 1..COUNT {
        assert!(rt; has_lost(&parts, index, true));
    }
    assert!(rt; !has_lost(&parts, 0, true));
    assert!(rt; flags.flags.as_slice() == [false; 10].as_slice());
    drop(parts);
    drop(flags);
}
