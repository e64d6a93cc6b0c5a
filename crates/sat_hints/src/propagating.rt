//! A test for whether clauses are unit in turn, with the last one falsified, which does not depend on memory.
ghost use Rattle.std.specs.Prelude.{◌≡◌, ◌≢◌, ◌⊎◌, [], true, false, None, MatchBool};
ghost use Rattle.sat_checker.specs.LiteralSets.{is_tautology};
ghost use Rattle.sat_checker.specs.inner.AssumedRoom.{AgreeWithinRoom, RoomIsKept, signed};
ghost use Rattle.sat_hints.specs.inner.LineChecking.{refutation_failure_of, WhyNotRefuted};
ghost use Rattle.sat_hints.specs.inner.ActiveClauses.{active_clauses, HasRoomForPresent, ActiveClausesInvariant};

use crate::active_clauses::ActiveClauses;
use crate::answer::HintWhy;
use crate::naming::are_present;
use sat_base::Lit;
use sat_checker::unsorted_lits::include_both_signs;
use sat_checker::{Assigned, Look, assume_if_roomy, look_at};

/// Assumes those of the literals, or of their negations if `negate` is true, for which there is room. Returns `true` if
/// the literals include both signs of a variable.
#[inline(never)]
fn assume_roomy(assumed: &mut Assigned, literals: &[Lit], negate: bool) -> bool
    requires { assumed.old.literals ≡ [] }
    ensures assumes { MatchBool result (is_tautology (signed negate literals.now) ≡ true)
        ((is_tautology (signed negate literals.now) ≡ false)
        × AgreeWithinRoom assumed.old.room assumed.new.literals (signed negate literals.now)) }
    ensures room { assumed.new.room ≡ assumed.old.room }
{
    if include_both_signs(literals) {
        return true;
    }
    for literal in literals {
        assume_if_roomy(assumed, *literal ^ negate);
    }
    false
}

/// Assumes the literals, or their negations if `negate` is true. If memory runs out for a literal, that literal is in
/// no clause, and only the literals for which there is room are assumed. Returns `true` if the literals include both
/// signs of a variable.
fn assume_all(assumed: &mut Assigned, literals: &[Lit], negate: bool) -> bool
    requires { assumed.old.literals ≡ [] }
    ensures assumes { MatchBool result (is_tautology (signed negate literals.now) ≡ true)
        ((is_tautology (signed negate literals.now) ≡ false)
        × AgreeWithinRoom assumed.old.room assumed.new.literals (signed negate literals.now)) }
    ensures stays { RoomIsKept assumed.old.room assumed.new.room }
{
    for literal in literals {
        let lit = *literal ^ negate;
        if assumed.is_true(!lit) {
            return true;
        }
        if assumed.is_true(lit) {
            continue;
        }
        match assumed.assume(lit) {
            Ok(()) => {}
            Err(_) => {
                assumed.undo_to(0);
                return assume_roomy(assumed, literals, negate);
            }
        }
    }
    false
}

/// Returns the fault of a line that names a clause that is not unit in turn. `following` must be the ids that the line
/// names after that clause. If no clause is present under one of these ids, the fault is `UnknownId`.
fn not_unit(active: &ActiveClauses, following: &[u64]) -> HintWhy
    requires { ActiveClausesInvariant active.now }
    ensures { (active_clauses active.now following.now ≡ None) × (result ≡ HintWhy.UnknownId)
        ⊎ (active_clauses active.now following.now ≢ None) × (result ≡ HintWhy.NotUnit) }
{
    if are_present(active, following) {
        return HintWhy::NotUnit;
    }
    HintWhy::UnknownId
}

/// Returns why the clauses under `ids` do not lead to a conflict under the assumed literals. Returns `None` if they do.
fn follow(active: &ActiveClauses, ids: &[u64], assumed: &mut Assigned) -> Option<HintWhy>
    requires active { ActiveClausesInvariant active.now }
    requires room { HasRoomForPresent assumed.old.room active.now }
    ensures follows { result ≡ refutation_failure_of assumed.old.literals (active_clauses active.now ids.now) }
    ensures room { assumed.new.room ≡ assumed.old.room }
{
    if ids.is_empty() {
        return Some(HintWhy::NotFalsified);
    }
    let last = ids.len() - 1;
    for turn in 0..last {
        let Some(clause) = active.find_clause(ids[turn]) else {
            return Some(HintWhy::UnknownId);
        };
        match look_at(assumed, clause) {
            Look::Opens(lit) => assumed.assume_in_room(lit),
            Look::Falsified | Look::Rests => return Some(not_unit(active, &ids[turn + 1..])),
        }
    }
    let Some(clause) = active.find_clause(ids[last]) else {
        return Some(HintWhy::UnknownId);
    };
    match look_at(assumed, clause) {
        Look::Falsified => None,
        Look::Opens(_) | Look::Rests => Some(HintWhy::NotFalsified),
    }
}

/// Returns why the clauses under `ids` do not lead to a conflict under the literals, or under their negations if
/// `negate` is true. Returns `None` if they do, or if the literals include both signs of a variable and all clauses are
/// present.
fn conflict_under(
    active: &ActiveClauses,
    ids: &[u64],
    literals: &[Lit],
    negate: bool,
    assumed: &mut Assigned,
) -> Option<HintWhy>
    requires active { ActiveClausesInvariant active.now }
    requires room { HasRoomForPresent assumed.old.room active.now }
    requires nothing { assumed.old.literals ≡ [] }
    ensures runs { WhyNotRefuted active.now (signed negate literals.now) ids.now result }
    ensures stays { RoomIsKept assumed.old.room assumed.new.room }
{
    if !assume_all(assumed, literals, negate) {
        return follow(active, ids, assumed);
    }
    if are_present(active, ids) {
        return None;
    }
    Some(HintWhy::UnknownId)
}

/// Does what `conflict_under` does, then undoes what was assumed, and returns the same. Nothing may be assumed
/// beforehand.
pub(crate) fn conflict(
    active: &ActiveClauses,
    ids: &[u64],
    literals: &[Lit],
    negate: bool,
    assumed: &mut Assigned,
) -> Option<HintWhy>
    requires active { ActiveClausesInvariant active.now }
    requires room { HasRoomForPresent assumed.old.room active.now }
    requires nothing { assumed.old.literals ≡ [] }
    ensures runs { WhyNotRefuted active.now (signed negate literals.now) ids.now result }
    ensures nothing { assumed.new.literals ≡ [] }
    ensures stays { RoomIsKept assumed.old.room assumed.new.room }
{
    let why = conflict_under(active, ids, literals, negate, assumed);
    assumed.undo_to(0);
    why
}
