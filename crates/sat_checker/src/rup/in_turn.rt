//! Checks units one after another once memory has run out for one of them. Earlier units are assumed if there is room
//! for them; otherwise, they are searched for in the list of units.
ghost use Rattle.std.specs.Prelude.{ℕ, ◌≡◌, ◌-◌, ◌*◌, [], ◌∷◌, length, map, not, ◌&&◌, IfOk, OnErr, IsTrue, ◌↔◌};
ghost use Rattle.sat_checker.specs.Accepts.{PassesByHashes};
ghost use Rattle.sat_checker.specs.LiteralSets.{is_among};
ghost use Rattle.sat_checker.specs.Looks.{stored_literal_count};
ghost use Rattle.sat_checker.specs.Stored.{Stored, is_unit};
ghost use Rattle.sat_checker.specs.inner.InTurn.{with_assumed, is_first_of_variable, AssumesUnits};
ghost use Rattle.sat_checker.specs.inner.InTurn.{OtherUnitsPassInTurn};
ghost use Rattle.sat_checker.specs.inner.WalkResults.{AssumesMore};
ghost use Rattle.sat_checker.specs.inner.LookCounts.{LooksOver};
ghost use Rattle.sat_checker.specs.inner.AssumedRoom.{HasStoredRoom};
ghost use Rattle.sat_checker.specs.inner.StoreView.{RepresentsClauses};

use crate::looks::Looks;
use crate::rup::check_in_room;
use crate::rup::passed::Passed;
use crate::store::Store;
use crate::units::assigned::Assigned;
use sat_base::{ClauseHash, Lit};
use std::alloc::AllocError;

/// Assumes a unit if there is room for it, unless the unit or its negation is already assumed.
fn assume(assigned: &mut Assigned, lit: Lit)
    ensures { assigned.new ≡ record assigned.old { literals = with_assumed lit assigned.old } }
{
    if assigned.has_room(lit) && !assigned.is_true(lit) && !assigned.is_true(!lit) {
        assigned.assume_in_room(lit);
    }
}

/// Returns `true` if the first unit with the same variable as `lit` is `lit` itself.
fn is_first_of_variable(units: &[(Lit, ClauseHash)], lit: Lit) -> bool
    ensures { result ≡ is_first_of_variable (map (λ u. u.0) units.now) lit }
{
    for unit in units {
        if unit.0 == lit {
            return true;
        }
        if unit.0 == !lit {
            return false;
        }
    }
    false
}

/// Returns `true` if there is no room for `lit`, and the first unit in `before` with the same variable is `lit` itself.
fn is_unit_before(assigned: &Assigned, before: &[(Lit, ClauseHash)], lit: Lit) -> bool
    ensures { result ≡ (not (is_among assigned.now.room lit) && is_first_of_variable (map (λ u. u.0) before.now) lit) }
{
    !assigned.has_room(lit) && is_first_of_variable(before, lit)
}

/// Returns `true` if a unit passes, given the units before it. Runs out of memory only if there is no room for a
/// literal of a stored clause.
fn passes(
    store: &Store,
    before: &[(Lit, ClauseHash)],
    unit: (Lit, ClauseHash),
    assigned: &mut Assigned,
    passed: &mut Passed,
    looks: &mut Looks,
) -> Result<bool, AllocError>
    ensures exact { IfOk result (λ yes. (f : Stored) → RepresentsClauses store.now f
        → HasStoredRoom assigned.old.room f.clauses → AssumesUnits assigned.old (map (λ u. u.0) before.now) f
        → IsTrue yes ↔ PassesByHashes f (unit.0 ∷ []) (unit.1 ∷ [])) }
    ensures short { OnErr result ((f : Stored) → RepresentsClauses store.now f
        → HasStoredRoom assigned.old.room f.clauses → ⊥) }
    ensures extends { AssumesMore assigned.old assigned.new }
    ensures same { (f : Stored) → RepresentsClauses store.now f → HasStoredRoom assigned.old.room f.clauses
        → assigned.new ≡ assigned.old }
    ensures looks { LooksOver (RepresentsClauses store.now) stored_literal_count looks.old looks.new }
{
    assigned.are_in_room();
    if is_unit_before(assigned, before, unit.0) {
        return Ok(true);
    }
    let count = assigned.len();
    passed.clear();
    let answer = check_in_room(
        &store.clauses,
        &[unit.0],
        false,
        &[unit.1],
        assigned,
        passed,
        looks,
    );
    assigned.undo_to(count);
    answer
}

/// Returns `true` if every unit in `units` after the first passes, given the units before it. Exactly the stored units
/// must be assumed.
pub(crate) fn pass_in_turn(
    store: &Store,
    units: &[(Lit, ClauseHash)],
    assigned: &mut Assigned,
    passed: &mut Passed,
    looks: &mut Looks,
) -> Result<bool, AllocError>
    ensures exact { IfOk result (λ pass. (f : Stored) → RepresentsClauses store.now f
        → ((l : ℕ) → is_among assigned.old.literals l ≡ is_unit f l) → HasStoredRoom assigned.old.room f.clauses
        → IsTrue pass ↔ OtherUnitsPassInTurn f units.now) }
    ensures short { OnErr result ((f : Stored) → RepresentsClauses store.now f
        → HasStoredRoom assigned.old.room f.clauses → ⊥) }
    ensures extends { AssumesMore assigned.old assigned.new }
    ensures looks { LooksOver (RepresentsClauses store.now)
        (λ f. (length units.now - 1) * stored_literal_count f) looks.old looks.new }
{
    assigned.are_in_room();
    for place in 1..units.len() {
        assume(assigned, units[place - 1].0);
        let (before, _) = units.split_at(place);
        if !passes(store, before, units[place], assigned, passed, looks)? {
            return Ok(false);
        }
    }
    Ok(true)
}
