//! Propagation over long clauses, with two watched literals per clause.
ghost use Rattle.std.specs.Prelude.{ℕ, List, ◌≡◌, ◌≢◌, ◌+◌, ◌*◌, ◌<◌, ◌≤◌, ◌⊎◌, ◌↔◌, length, IfOk, IsTrue, slice_set};
ghost use Rattle.std.specs.Prelude.{MatchOption};
ghost use Rattle.sat_store.specs.clause.Buffer.{IsClause};
ghost use Rattle.sat_parts.specs.clause.Orders.{PermutesClause};
ghost use Rattle.sat_parts.specs.clause.Stored.{lit_of, size_of};
ghost use Rattle.sat_parts.specs.prop.Values.{IsFalseLit};
ghost use Rattle.sat_parts.specs.prop.State.{HasLeftQueue, level, current_level};
ghost use Rattle.sat_parts.specs.prop.Ready.{state_of, LongPropagationInvariant};
ghost use Rattle.sat_parts.specs.prop.Walk.{WalkInvariant, PutsFalseLitSecond, VisitedIn, WatchWalkEffect};
ghost use Rattle.sat_parts.specs.prop.Walk.{LongWalkEffect};

use crate::prop::assignment::Assignment;
use crate::prop::graph::{Conflict, ImplGraph, Reason};
use crate::prop::trail::{Trail, enqueue_assignment};
use crate::prop::watch::{Watch, WatchList, Watchlists};
use sat_base::Lit;
use sat_store::{ClauseAlloc, ClauseRef};
use std::alloc::{AllocError, Global};

/// The result of visiting a clause after a literal became false. Some variants carry the first literal of the clause.
#[derive(Clone, Copy)]
enum Visit {
    /// The clause no longer watches the literal.
    Stale,
    /// The clause watches another literal instead.
    Moved,
    /// The first literal is true.
    Keep(Lit),
    /// The first literal is unassigned, and all others are false.
    Propagates(Lit),
    /// All literals are false.
    Falsified(Lit),
}

/// Returns the position of the first literal that is not false, searching from the third literal on, or the length of
/// the clause if there is none.
#[inline(always)] // called for each clause that propagation reads
fn find_open(clauses: &ClauseAlloc, assignment: &Assignment, cref: ClauseRef) -> usize
    requires clause { IsClause clauses.now cref }
    requires below { (k : ℕ) → k < size_of clauses.now cref
        → lit_of clauses.now cref k < 2 * length assignment.now.current }
    requires long { 2 ≤ size_of clauses.now cref }
    ensures from { 2 ≤ result }
    ensures within { result ≤ size_of clauses.now cref }
    ensures before { (k : ℕ) → 2 ≤ k → k < result → IsFalseLit assignment.now.current (lit_of clauses.now cref k) }
    ensures found { result < size_of clauses.now cref
        → IsFalseLit assignment.now.current (lit_of clauses.now cref result) → ⊥ }
{
    let len = clauses.len(cref);
    for at in 2..len {
        if !assignment.lit_is_false(clauses.lit(cref, at)) {
            return at;
        }
    }
    len
}

/// Returns whether one of two numbers is `x`.
#[inline(always)] // a branch for each of the two is often predicted wrongly
fn is_either(x: u32, a: u32, b: u32) -> bool
    ensures { IsTrue result ↔ ((a ≡ x) ⊎ (b ≡ x)) }
{
    u64::from(a.wrapping_sub(x)) * u64::from(b.wrapping_sub(x)) == 0
}

/// Moves a literal to the second position if it is one of the first two literals. Returns the other of the two, which
/// is now the first literal.
///
/// Otherwise, returns `None`, and the clause does not change.
#[inline(always)] // called for each clause that propagation reads
fn orient(clauses: &mut ClauseAlloc, cref: ClauseRef, lit: Lit) -> Option<Lit>
    requires clause { IsClause clauses.old cref }
    requires long { 2 ≤ size_of clauses.old cref }
    ensures shuffles { PermutesClause clauses.old clauses.new cref }
    ensures oriented { MatchOption result
        ((lit_of clauses.old cref 0 ≢ lit) × (lit_of clauses.old cref 1 ≢ lit) × (clauses.new ≡ clauses.old))
        (λ other. PutsFalseLitSecond clauses.old clauses.new cref lit × (other ≡ lit_of clauses.new cref 0)) }
{
    let first = clauses.lit(cref, 0).code() as u32;
    let second = clauses.lit(cref, 1).code() as u32;
    let code = lit.code() as u32;
    if !is_either(code, first, second) {
        return None;
    }
    let other = Lit::from_code((first + second - code) as usize);
    clauses.set_lit(cref, 0, other);
    clauses.set_lit(cref, 1, lit);
    Some(other)
}

/// Swaps the second literal of a clause, `second`, and the literal at position `at`, which is returned.
#[inline(always)] // called for each clause that gets a new watch in propagation
fn swap_second(clauses: &mut ClauseAlloc, cref: ClauseRef, second: Lit, at: usize) -> Lit
    requires clause { IsClause clauses.old cref }
    requires second { lit_of clauses.old cref 1 ≡ second }
    requires following { 2 ≤ at }
    requires within { at < size_of clauses.old cref }
    ensures shuffles { PermutesClause clauses.old clauses.new cref }
    ensures value { result ≡ lit_of clauses.old cref at }
    ensures first { lit_of clauses.new cref 0 ≡ lit_of clauses.old cref 0 }
    ensures moved { lit_of clauses.new cref 1 ≡ result }
{
    let found = clauses.lit(cref, at);
    clauses.set_lit(cref, 1, found);
    clauses.set_lit(cref, at, second);
    found
}

/// Visits a clause after a literal that it may watch became false, and returns the result of the visit.
fn visit_clause(
    clauses: &mut ClauseAlloc,
    watchlists: &mut Watchlists,
    assignment: &Assignment,
    cref: ClauseRef,
    false_lit: Lit,
) -> Result<Visit, AllocError>
    requires clause { IsClause clauses.old cref }
    requires long { 2 ≤ size_of clauses.old cref }
    requires below { (k : ℕ) → k < size_of clauses.old cref
        → lit_of clauses.old cref k < 2 * length assignment.now.current }
    requires room { length watchlists.old.lists ≡ 2 * length assignment.now.current }
    requires falsified { IsFalseLit assignment.now.current false_lit }
    ensures shuffles { PermutesClause clauses.old clauses.new cref }
    ensures visited { IfOk result (λ r. VisitedIn clauses.old clauses.new assignment.now watchlists.old watchlists.new
        cref false_lit r) }
    ensures enabled { watchlists.new.enabled ≡ watchlists.old.enabled }
{
    let Some(first) = orient(clauses, cref, false_lit) else {
        return Ok(Visit::Stale);
    };
    if assignment.lit_is_true(first) {
        return Ok(Visit::Keep(first));
    }
    let at = find_open(clauses, assignment, cref);
    if at < clauses.len(cref) {
        let second = swap_second(clauses, cref, false_lit, at);
        let watch = Watch {
            cref,
            blocking: first,
        };
        watchlists.add_watch(!second, watch)?;
        return Ok(Visit::Moved);
    }
    if assignment.lit_is_false(first) {
        Ok(Visit::Falsified(first))
    } else {
        Ok(Visit::Propagates(first))
    }
}

/// Visits the watches of a literal that has left the queue. Returns a falsified clause if there is one.
///
/// If memory runs out, the state may be inconsistent and must not be used again.
fn propagate_list(
    clauses: &mut ClauseAlloc,
    watchlists: &mut Watchlists,
    assignment: &mut Assignment,
    graph: &mut ImplGraph,
    trail: &mut Trail,
    list: &mut WatchList,
    lit: Lit,
) -> Result<Option<ClauseRef>, AllocError>
    ghost live: { List ℕ }
    requires { WalkInvariant clauses.old live (state_of assignment.old graph.old trail.old) watchlists.old.lists list.old lit 0
        0 }
    ensures walked { IfOk result (λ found. WatchWalkEffect live
        clauses.old (state_of assignment.old graph.old trail.old)
        clauses.new (state_of assignment.new graph.new trail.new) (slice_set watchlists.new.lists lit list.new) found) }
    ensures last { assignment.new.last ≡ assignment.old.last }
    ensures enabled { watchlists.new.enabled ≡ watchlists.old.enabled }
{
    let false_lit = !lit;
    let mut kept = 0;
    let end = list.len();
    for at in 0..end {
        let cref = list.cref(at);
        let blocking = list.blocking(at);
        if assignment.lit_is_true(blocking) {
            list.set(kept, cref, blocking);
            kept += 1;
        } else {
            match visit_clause(clauses, watchlists, assignment, cref, false_lit)? {
                Visit::Stale => {}
                Visit::Moved => {}
                Visit::Keep(first) => {
                    list.set(kept, cref, first);
                    kept += 1;
                }
                Visit::Propagates(first) => {
                    list.set(kept, cref, first);
                    kept += 1;
                    enqueue_assignment(assignment, graph, trail, first, Reason::Long(cref));
                }
                Visit::Falsified(first) => {
                    list.set(kept, cref, first);
                    list.cut(kept + 1, at + 1);
                    return Ok(Some(cref));
                }
            }
        }
    }
    list.keep(kept);
    Ok(None)
}

/// Propagates a literal over the long clauses. The literal must have left the queue.
///
/// All literals before `lit` on the trail must have been propagated. Returns `Ok(Err(conflict))` if a live clause is
/// falsified. If memory runs out, the state may be inconsistent and must not be used again.
pub fn propagate_long(
    alloc: Global,
    clauses: &mut ClauseAlloc,
    watchlists: &mut Watchlists,
    assignment: &mut Assignment,
    graph: &mut ImplGraph,
    trail: &mut Trail,
    lit: Lit,
) -> Result<Result<(), Conflict>, AllocError>
    ghost live: { List ℕ }
    requires ready { LongPropagationInvariant clauses.old live watchlists.old.lists (state_of assignment.old graph.old trail.old)
        (λ l. l ≢ lit) }
    requires left { HasLeftQueue (state_of assignment.old graph.old trail.old) lit }
    requires top { level (state_of assignment.old graph.old trail.old) lit
        ≡ current_level (state_of assignment.old graph.old trail.old) }
    ensures walked { IfOk result (λ r. LongWalkEffect live
        clauses.old (state_of assignment.old graph.old trail.old)
        clauses.new (state_of assignment.new graph.new trail.new) watchlists.new.lists r) }
    ensures last { assignment.new.last ≡ assignment.old.last }
    ensures enabled { watchlists.new.enabled ≡ watchlists.old.enabled }
{
    let mut list = watchlists.take_list(alloc, lit);
    let found = propagate_list(
        clauses, watchlists, assignment, graph, trail, &mut list, lit,
    )?;
    watchlists.put_list(lit, list);
    match found {
        None => Ok(Ok(())),
        Some(cref) => Ok(Err(Conflict::Long(cref))),
    }
}
