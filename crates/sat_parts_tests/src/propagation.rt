//! Tests of propagating units.
ghost use Rattle.std.specs.Prelude.{◌≡◌, []};
ghost use Rattle.sat_parts.specs.parts.Whole.{SearchStateInvariant};

use crate::loading::loaded;
use sat_base::Lit;
use sat_parts::parts::new_search_state;
use sat_parts::parts::steps::propagate_all;
use sat_parts::{ClauseDb, Conflict, SearchState};
use sat_store::StoreError;
use std::alloc::Global;

/// The number of variables.
const COUNT: usize = 3;

/// Loads clauses, and propagates. Returns `None` if they aren't clauses over three variables.
fn propagated(
    alloc: Global,
    parts: &mut SearchState,
    clauses: &[&[i64]],
) -> Result<Option<Result<(), Conflict>>, StoreError>
    requires holds { SearchStateInvariant parts.old }
    requires none { parts.old.assignment.current ≡ [] }
{
    if !loaded(alloc, parts, COUNT, clauses)? {
        return Ok(None);
    }
    let found = propagate_all(alloc, parts)?;
    Ok(Some(found))
}

/// Loads clauses, and propagates twice. Returns `None` if they aren't clauses over three variables. The second call
/// requires no more than what the first call ensures.
fn propagated_twice(
    alloc: Global,
    parts: &mut SearchState,
    clauses: &[&[i64]],
) -> Result<Option<Result<(), Conflict>>, StoreError>
    requires holds { SearchStateInvariant parts.old }
    requires none { parts.old.assignment.current ≡ [] }
{
    if !loaded(alloc, parts, COUNT, clauses)? {
        return Ok(None);
    }
    match propagate_all(alloc, parts)? {
        Ok(()) => {
            let found = propagate_all(alloc, parts)?;
            Ok(Some(found))
        }
        Err(conflict) => Ok(Some(Err(conflict))),
    }
}

/// Returns `true` if the literals have the DIMACS numbers `numbers`, in order.
pub fn reads(lits: &[Lit], numbers: &[i64]) -> bool {
    if lits.len() != numbers.len() {
        return false;
    }
    for (at, number) in numbers.iter().enumerate() {
        if lits[at].to_dimacs() != *number {
            return false;
        }
    }
    true
}

/// Returns `true` if the conflict is the first long clause.
pub fn names_first(
    db: &ClauseDb,
    found: &Result<Option<Result<(), Conflict>>, StoreError>,
) -> bool {
    match db.refs().first() {
        Some(cref) => *found == Ok(Some(Err(Conflict::Long(*cref)))),
        None => false,
    }
}

#[test]
fn long_clause_after_binary(rt: HostRuntime) {
    let mut parts = new_search_state(rt.alloc());
    let clauses: [&[i64]; 3] = [&[-1, 2], &[-1, -2, 3], &[1]];
    let found = propagated(rt.alloc(), &mut parts, &clauses);
    assert!(rt; found == Ok(Some(Ok(()))));
    assert!(rt; reads(parts.trail.trail(), &[1, 2, 3]));
    assert!(rt; parts.trail.fully_propagated());
    assert!(rt; parts.watchlists.enabled());
    drop(parts);
}

#[test]
fn falsified_clause_is_named(rt: HostRuntime) {
    let mut parts = new_search_state(rt.alloc());
    let clauses: [&[i64]; 4] = [&[-1, 2], &[-1, -2, 3], &[-2, -3], &[1]];
    let found = propagated(rt.alloc(), &mut parts, &clauses);
    assert!(rt; reads(parts.trail.trail(), &[1, 2, -3]));
    assert!(rt; names_first(&parts.db, &found));
    drop(parts);
}

#[test]
fn falsified_binary_clause_is_named(rt: HostRuntime) {
    let mut parts = new_search_state(rt.alloc());
    let clauses: [&[i64]; 3] = [&[-1, 2], &[-1, -2], &[1]];
    let found = propagated(rt.alloc(), &mut parts, &clauses);
    let lits = [Lit::from_index(1, false), Lit::from_index(0, false)];
    assert!(rt; found == Ok(Some(Err(Conflict::Binary(lits)))));
    drop(parts);
}

#[test]
fn nothing_is_left_to_propagate(rt: HostRuntime) {
    let mut parts = new_search_state(rt.alloc());
    let clauses: [&[i64]; 3] = [&[-1, 2], &[-1, -2, 3], &[1]];
    let found = propagated_twice(rt.alloc(), &mut parts, &clauses);
    assert!(rt; found == Ok(Some(Ok(()))));
    assert!(rt; reads(parts.trail.trail(), &[1, 2, 3]));
    drop(parts);
}
