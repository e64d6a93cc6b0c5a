//! Tests of the two parts of propagation, each on its own, and of building watch lists.
ghost use Rattle.std.specs.Prelude.{ℕ, List, ◌≡◌, ◌+◌, ◌<◌, [], length};
ghost use Rattle.sat_parts.specs.prop.State.{level, current_level};
ghost use Rattle.sat_parts.specs.prop.Ready.{LongPropagationInvariant};
ghost use Rattle.sat_parts.specs.parts.Whole.{state, SearchStateInvariant, SearchStateInvariantBelow};

use crate::loading::loaded;
use crate::propagation::{names_first, reads};
use sat_base::{Lit, Var};
use sat_parts::parts::new_search_state;
use sat_parts::parts::steps::propagate_all;
use sat_parts::{
    Conflict, Reason, SearchState, enable_watchlists, propagate_binary, propagate_long,
};
use sat_store::StoreError;
use std::alloc::{AllocError, Global};

/// The number of variables.
const COUNT: usize = 3;

/// Propagates the next literal of the queue over the clauses of two literals. Returns `None` if the queue is empty.
fn over_binary(parts: &mut SearchState) -> Result<Option<Result<(), Conflict>>, AllocError>
    requires { SearchStateInvariantBelow (length parts.old.trail.starts + 1) parts.old }
{
    let next = parts.trail.pop_queue();
    match next {
        None => Ok(None),
        Some(lit) => {
            let found = propagate_binary(
                &parts.binary,
                &mut parts.assignment,
                &mut parts.graph,
                &mut parts.trail,
                lit,
            )?;
            Ok(Some(found))
        }
    }
}

/// Propagates the next literal of the queue over the long clauses. Returns `None` if the queue is empty.
fn over_long(
    alloc: Global,
    parts: &mut SearchState,
) -> Result<Option<Result<(), Conflict>>, AllocError>
    ghost live: { List ℕ }
    requires { LongPropagationInvariant parts.old.clauses live parts.old.watchlists.lists
        (state parts.old) (λ l. level (state parts.old) l < current_level (state parts.old) + 1) }
{
    let next = parts.trail.pop_queue();
    match next {
        None => Ok(None),
        Some(lit) => {
            let found = propagate_long(
                alloc,
                &mut parts.clauses,
                &mut parts.watchlists,
                &mut parts.assignment,
                &mut parts.graph,
                &mut parts.trail,
                lit,
            )?;
            Ok(Some(found))
        }
    }
}

/// Builds the watch lists, and propagates the next literal over the long clauses.
fn built_and_over_long(
    alloc: Global,
    parts: &mut SearchState,
) -> Result<Option<Result<(), Conflict>>, AllocError>
    requires { SearchStateInvariantBelow (length parts.old.trail.starts + 1) parts.old }
{
    enable_watchlists(&mut parts.watchlists, &parts.clauses, &parts.db)?;
    over_long(alloc, parts)
}

/// Loads clauses, and propagates one literal over the long ones if `is_long`, otherwise over those of two literals.
/// Returns `None` if they aren't clauses over three variables, or the queue is empty.
fn found_alone(
    alloc: Global,
    parts: &mut SearchState,
    clauses: &[&[i64]],
    is_long: bool,
) -> Result<Option<Result<(), Conflict>>, StoreError>
    requires holds { SearchStateInvariant parts.old }
    requires none { parts.old.assignment.current ≡ [] }
{
    if !loaded(alloc, parts, COUNT, clauses)? {
        return Ok(None);
    }
    if is_long {
        Ok(built_and_over_long(alloc, parts)?)
    } else {
        Ok(over_binary(parts)?)
    }
}

/// Loads clauses, and propagates over all of them. Returns `None` if they aren't clauses over three variables.
fn found_together(
    alloc: Global,
    parts: &mut SearchState,
    clauses: &[&[i64]],
) -> Result<Option<Result<(), Conflict>>, StoreError>
    requires holds { SearchStateInvariant parts.old }
    requires none { parts.old.assignment.current ≡ [] }
{
    if !loaded(alloc, parts, COUNT, clauses)? {
        return Ok(None);
    }
    let found = propagate_all(alloc, parts)?;
    Ok(Some(found))
}

/// Returns `true` if the reason of the third variable is the first long clause.
fn third_by_first(parts: &SearchState) -> bool {
    match parts.db.refs().first() {
        Some(cref) => parts.graph.nodes.len() == 3
            && parts.graph.reason(Var::from_index(2)) == Reason::Long(*cref),
        None => false,
    }
}

#[test]
fn long_clauses_alone(rt: HostRuntime) {
    let mut parts = new_search_state(rt.alloc());
    let clauses: [&[i64]; 4] = [&[3, -1, -2], &[-1, -3], &[1], &[2]];
    let found = found_alone(rt.alloc(), &mut parts, &clauses, true);
    assert!(rt; found == Ok(Some(Ok(()))));
    assert!(rt; reads(parts.trail.trail(), &[1, 2, 3]));
    assert!(rt; third_by_first(&parts));
    assert!(rt; parts.watchlists.enabled());
    drop(parts);
}

#[test]
fn binary_clauses_alone(rt: HostRuntime) {
    let mut parts = new_search_state(rt.alloc());
    let clauses: [&[i64]; 4] = [&[3, -1, -2], &[-1, -3], &[1], &[2]];
    let found = found_alone(rt.alloc(), &mut parts, &clauses, false);
    assert!(rt; found == Ok(Some(Ok(()))));
    assert!(rt; reads(parts.trail.trail(), &[1, 2, -3]));
    assert!(rt; !parts.watchlists.enabled());
    drop(parts);
}

#[test]
fn binary_conflict_alone(rt: HostRuntime) {
    let mut parts = new_search_state(rt.alloc());
    let clauses: [&[i64]; 3] = [&[-2, -1], &[1], &[2]];
    let found = found_alone(rt.alloc(), &mut parts, &clauses, false);
    let lits = [Lit::from_code(3), Lit::from_code(1)];
    assert!(rt; found == Ok(Some(Err(Conflict::Binary(lits)))));
    drop(parts);
}

#[test]
fn binary_clauses_go_before_long_ones(rt: HostRuntime) {
    let mut parts = new_search_state(rt.alloc());
    let clauses: [&[i64]; 4] = [&[3, -1, -2], &[-1, -3], &[1], &[2]];
    let found = found_together(rt.alloc(), &mut parts, &clauses);
    assert!(rt; reads(parts.trail.trail(), &[1, 2, -3]));
    assert!(rt; names_first(&parts.db, &found));
    drop(parts);
}
