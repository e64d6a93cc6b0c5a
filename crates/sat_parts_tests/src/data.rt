//! Tests of single parts of a search.
ghost use Rattle.std.specs.Prelude.{◌≡◌, ◌<◌, [], length};
ghost use Rattle.sat_base.specs.values.Literals.{variable};
ghost use Rattle.sat_parts.specs.prop.Trails.{no_trail};
ghost use Rattle.sat_parts.specs.prop.Values.{IsUnassignedLit};

use sat_base::{Lit, Var};
use sat_parts::{
    Assignment, BinaryClauses, ImplGraph, Reason, Trail, enqueue_assignment, fast_option_eq,
};
use std::alloc::AllocError;

fn values(values: &mut Assignment) -> bool
    requires { length values.old.current ≡ 2 }
{
    let (first, second) = (Var::from_index(0), Var::from_index(1));
    values.assign_lit(first.negative());
    values.set_var(second, Some(true));
    let read = (
        values.lit_value(first.positive()),
        values.lit_is_true(first.negative()),
        values.lit_is_false(second.negative()),
        values.lit_is_unk(second.positive()),
    );
    let first_value = values.var_value(first);
    values.unassign_var(second);
    read == (Some(false), true, true, false)
        && fast_option_eq(first_value, Some(false))
        && values.var_value(second).is_none()
        && !values.last_var_value(first)
        && values.assignment().len() == 2
}

fn nodes(graph: &mut ImplGraph) -> bool
    requires { length graph.old ≡ 2 }
{
    let (first, second) = (Var::from_index(0), Var::from_index(1));
    let reason = Reason::Binary([second.negative()]);
    graph.update_reason(first, reason);
    graph.update_removed_unit(second);
    graph.reason(first) == reason
        && !reason.is_unit()
        && !graph.is_removed_unit(first)
        && graph.is_removed_unit(second)
        && graph.reason(second) == Reason::Unit
        && (graph.level(second), graph.depth(second)) == (0, 4294967295)
}

fn implications(binary: &mut BinaryClauses) -> Result<bool, AllocError>
    requires { length binary.old.implied ≡ 4 }
{
    let (first, second) = (Lit::from_code(0), Lit::from_code(3));
    binary.add_binary_clause([first, second])?;
    Ok(
        binary.count() == 1
            && binary.implied(!first) == [second].as_slice()
            && binary.implied(!second) == [first].as_slice()
            && binary.implied(first).is_empty(),
    )
}

/// Assigns the first variable, and removes the clauses of assigned variables. Returns whether only the two clauses
/// without the first variable remain.
fn removal(binary: &mut BinaryClauses, values: &mut Assignment) -> Result<bool, AllocError>
    requires lists { length binary.old.implied ≡ 6 }
    requires values { length values.old.current ≡ 3 }
{
    let (first, second, third) = (Lit::from_code(0), Lit::from_code(3), Lit::from_code(4));
    binary.add_binary_clause([first, second])?;
    binary.add_binary_clause([second, third])?;
    binary.add_binary_clause([!second, third])?;
    values.assign_lit(!first);
    binary.remove_assigned(values);
    Ok(
        binary.count() == 2
            && binary.implied(!first).is_empty()
            && binary.implied(!second) == [third].as_slice()
            && binary.implied(!third) == [second, !second].as_slice(),
    )
}

fn removal_row(binary: &mut BinaryClauses, values: &mut Assignment) -> Result<bool, AllocError>
    requires lists { binary.old.implied ≡ [] }
{
    binary.set_var_count(3)?;
    values.set_var_count(3)?;
    removal(binary, values)
}

#[test]
fn clauses_with_a_value_are_removed(rt: HostRuntime) {
    let mut binary = BinaryClauses::new(rt.alloc());
    let mut values = Assignment::new(rt.alloc());
    assert!(rt; removal_row(&mut binary, &mut values) == Ok(true));
    drop(binary);
    drop(values);
}

fn values_row(assignment: &mut Assignment) -> Result<bool, AllocError> {
    assignment.set_var_count(2)?;
    Ok(values(assignment))
}

fn nodes_row(graph: &mut ImplGraph) -> Result<bool, AllocError> {
    graph.set_var_count(2)?;
    Ok(nodes(graph))
}

fn implications_row(binary: &mut BinaryClauses) -> Result<bool, AllocError>
    requires lists { binary.old.implied ≡ [] }
{
    binary.set_var_count(2)?;
    implications(binary)
}

#[test]
fn parts_are_read_back(rt: HostRuntime) {
    let mut assignment = Assignment::new(rt.alloc());
    let mut graph = ImplGraph::new(rt.alloc());
    let mut binary = BinaryClauses::new(rt.alloc());
    assert!(rt; values_row(&mut assignment) == Ok(true));
    assert!(rt; nodes_row(&mut graph) == Ok(true));
    assert!(rt; implications_row(&mut binary) == Ok(true));
    drop(assignment);
    drop(graph);
    drop(binary);
}

/// Returns whether a unit is in the queue and in the count of level 0, and is only in the count once the trail
/// is cleared.
fn cleared(assignment: &mut Assignment, graph: &mut ImplGraph, trail: &mut Trail, lit: Lit) -> bool
    requires value { variable lit < length assignment.old.current }
    requires node { variable lit < length graph.old }
    requires open { IsUnassignedLit assignment.old.current lit }
    requires room { length trail.old.lits < trail.old.room }
    requires starts { trail.old.starts ≡ [] }
{
    enqueue_assignment(assignment, graph, trail, lit, Reason::Unit);
    let before = (trail.queue_head(), trail.top_level_assignment_count());
    trail.clear();
    before == (Some(lit), 1)
        && trail.queue_head().is_none()
        && trail.top_level_assignment_count() == 1
        && trail.trail().is_empty()
}

fn clear_row(
    assignment: &mut Assignment,
    graph: &mut ImplGraph,
    trail: &mut Trail,
) -> Result<bool, AllocError>
    requires values { assignment.old.current ≡ [] }
    requires trail { trail.old ≡ no_trail }
{
    assignment.set_var_count(2)?;
    graph.set_var_count(2)?;
    trail.set_var_count(2)?;
    Ok(cleared(assignment, graph, trail, Lit::from_index(1, false)))
}

#[test]
fn cleared_literals_stay_counted(rt: HostRuntime) {
    let mut assignment = Assignment::new(rt.alloc());
    let mut graph = ImplGraph::new(rt.alloc());
    let mut trail = Trail::new(rt.alloc());
    assert!(rt; clear_row(&mut assignment, &mut graph, &mut trail) == Ok(true));
    drop(assignment);
    drop(graph);
    drop(trail);
}
