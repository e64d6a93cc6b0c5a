//! Comparisons of literals with the assumed literals, used to check a model and to find a clause without its hash.
ghost use Rattle.std.specs.Prelude.{ℕ, ◌≡◌, [], ◌&&◌, not, true, reverse, IfOk, MatchBool};
ghost use Rattle.std.specs.List.{list_any};
ghost use Rattle.sat_checker.specs.LiteralSets.{is_among, is_subset_of, mentions, canonical, same_literals};
ghost use Rattle.sat_checker.specs.Accepts.{VariablesDistinct};
ghost use Rattle.sat_checker.specs.inner.Marks.{IsIncreasing};
ghost use Rattle.sat_checker.specs.inner.AssumedRoom.{RoomIsKept};

use crate::units::assigned::{Assigned, assume_if_roomy};
use sat_base::{Lit, Var};
use std::alloc::AllocError;

/// Assumes the literals, from the last to the first, up to a literal whose variable has already occurred. Returns
/// whether the variables are all different.
#[tactic(auto, using(crate::proofs::lemmas::state::Models::setting_apart))]
pub(crate) fn assume_apart(assigned: &mut Assigned, literals: &[Lit]) -> Result<bool, AllocError>
    requires { assigned.old.literals ≡ [] }
    ensures exact { IfOk result (λ yes. MatchBool yes
        (VariablesDistinct literals.now × (assigned.new.literals ≡ literals.now)) (VariablesDistinct literals.now → ⊥)) }
    ensures stays { RoomIsKept assigned.old.room assigned.new.room }
{
    for place in (0..literals.len()).rev() {
        let lit = literals[place];
        if assigned.is_true(lit) {
            return Ok(false);
        }
        if assigned.is_true(!lit) {
            return Ok(false);
        }
        assigned.assume(lit)?;
    }
    Ok(true)
}

/// Assumes the literals, from the first to the last, up to one for which there is no room or that is already assumed.
/// Returns `true` if this assumed all of them. Never allocates.
pub(crate) fn assume_distinct(assigned: &mut Assigned, literals: &[Lit]) -> bool
    requires { assigned.old.literals ≡ [] }
    ensures assumed { result ≡ true → assigned.new.literals ≡ reverse literals.now }
    ensures room { assigned.new.room ≡ assigned.old.room }
{
    for lit in literals {
        if !assigned.assume_new(*lit) {
            return false;
        }
    }
    true
}

/// Assumes only the literals for which there is room. Never allocates.
pub(crate) fn assume_roomy(assigned: &mut Assigned, literals: &[Lit])
    requires { assigned.old.literals ≡ [] }
    ensures marked { (l : ℕ) → is_among assigned.new.literals l
        ≡ (is_among assigned.old.room l && is_among literals.now l) }
    ensures room { assigned.new.room ≡ assigned.old.room }
{
    for lit in literals {
        assume_if_roomy(assigned, *lit);
    }
}

/// Returns `true` if there is room for all of the literals.
#[tactic(auto, using(crate::proofs::lemmas::sets::Parts::each_literal))]
pub(crate) fn have_room(assigned: &Assigned, literals: &[Lit]) -> bool
    ensures { result ≡ is_subset_of literals.now assigned.now.room }
{
    for lit in literals {
        if !assigned.has_room(*lit) {
            return false;
        }
    }
    true
}

/// Returns `true` if all of the literals are assumed.
#[tactic(auto, using(crate::proofs::lemmas::sets::Parts::each_literal))]
fn are_assumed(assigned: &Assigned, literals: &[Lit]) -> bool
    ensures { result ≡ is_subset_of literals.now assigned.now.literals }
{
    for lit in literals {
        if !assigned.is_true(*lit) {
            return false;
        }
    }
    true
}

/// Returns `true` if a clause of sorted literals consists of exactly the assumed literals.
pub(crate) fn has_just_assumed(assigned: &Assigned, clause: &[Lit]) -> bool
    requires { IsIncreasing clause.now }
    ensures { result ≡ same_literals clause.now (canonical assigned.now.literals) }
{
    let assumed = assigned.literals();
    clause.len() == assumed.len() && are_assumed(assigned, clause)
}

/// Returns `true` if the literals of a clause, which must be sorted, are a proper subset of the assumed literals.
pub(crate) fn is_strictly_assumed(assigned: &Assigned, clause: &[Lit]) -> bool
    requires { IsIncreasing clause.now }
    ensures { result ≡ (is_subset_of clause.now assigned.now.literals && not (is_subset_of assigned.now.literals clause.now)) }
{
    let assumed = assigned.literals();
    clause.len() < assumed.len() && are_assumed(assigned, clause)
}

/// Returns `true` if a literal of the clause is assumed.
#[tactic(auto, using(crate::proofs::lemmas::state::Scanning::any_literal))]
pub(crate) fn makes_true(assigned: &Assigned, clause: &[Lit]) -> bool
    ensures { result ≡ list_any (is_among assigned.now.literals) clause.now }
{
    for lit in clause {
        if assigned.is_true(*lit) {
            return true;
        }
    }
    false
}

/// Returns `true` if the clause contains a literal of the variable.
#[tactic(auto, using(crate::proofs::lemmas::state::Scanning::any_literal))]
pub(crate) fn mentions(clause: &[Lit], var: Var) -> bool
    ensures { result ≡ mentions clause.now var }
{
    for lit in clause {
        if lit.var() == var {
            return true;
        }
    }
    false
}
