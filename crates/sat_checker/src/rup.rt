//! The propagation check of a clause: a walk over the stored clauses whose hashes a step lists, with notes on the
//! clauses that were used.
ghost use Rattle.std.specs.Prelude.{◌≡◌, ◌+◌, ◌*◌, ◌<◌, ◌≤◌, [], ◌∷◌, length, IfOk, if◌then◌else◌, None, Some, map};
ghost use Rattle.std.specs.Prelude.{true, false, IsTrue, ◌↔◌, ◌⊎◌, OnErr, MatchBool};
ghost use Rattle.std.specs.List.{list_any};
ghost use Rattle.sat_checker.specs.LiteralSets.{is_among, is_tautology};
ghost use Rattle.sat_checker.specs.Looks.{total_length};
ghost use Rattle.sat_checker.specs.Propagation.{PassesCheck};
ghost use Rattle.sat_checker.specs.inner.WalkResults.{AssumesMore, WalksBucket};
ghost use Rattle.sat_checker.specs.inner.LookCounts.{LooksUpTo};
ghost use Rattle.sat_checker.specs.inner.Reasons.{clause_at, clauses_by_hash, clauses_by_hashes, noted_length};
ghost use Rattle.sat_checker.specs.inner.Reasons.{NotesReasons, RecordsWalk};
ghost use Rattle.sat_checker.specs.inner.Reasons.{ReachesConflict, ExplainsCheck};
ghost use Rattle.sat_checker.specs.inner.AssumedRoom.{HasClauseRoom, HasClausesRoom, HasStoredRoom, signed};
ghost use Rattle.sat_checker.specs.inner.AssumedRoom.{NegationsAssumedInRoom};
ghost use Rattle.sat_checker.specs.inner.SlotView.{literals_at, bucket_in, bucket_of, live_clauses, live_literal_count};
ghost use Rattle.sat_checker.specs.inner.Walk.{clause_state, walk_clause, walk_buckets, negations_assumed};

pub(crate) mod in_turn;
pub(crate) mod needed;
pub(crate) mod noted;
pub(crate) mod passed;
pub(crate) mod propagations;

use crate::looks::Looks;
use crate::rup::passed::Passed;
use crate::store::clauses::Clauses;
use crate::units::assigned::{Assigned, Look, assume_if_roomy, look_at};
use crate::unsorted_lits::include_both_signs;
use sat_base::{ClauseHash, Lit};
use std::alloc::AllocError;

/// Assumes the literal that the clause at `place` implies, if there is one, and notes the clause. Returns `true` if the
/// clause is falsified. Runs out of memory only if there is no room for a literal of the clause.
#[tactic(auto, using(crate::proofs::lemmas::propagation::Walking::meeting))]
fn visit(
    clauses: &Clauses,
    place: usize,
    assigned: &mut Assigned,
    passed: &mut Passed,
    looks: &mut Looks,
) -> Result<bool, AllocError>
    requires { place < length clauses.now }
    ensures reached { IfOk result (λ conflict. walk_clause (clause_state assigned.old.literals (literals_at clauses.now place))
        assigned.old.literals ≡ (if conflict then None else Some assigned.new.literals)) }
    ensures short { OnErr result (HasClauseRoom assigned.old.room (literals_at clauses.now place) → ⊥) }
    ensures extends { AssumesMore assigned.old assigned.new }
    ensures same { HasClauseRoom assigned.old.room (literals_at clauses.now place)
        → assigned.new.room ≡ assigned.old.room }
    ensures looks { looks.new ≡ looks.old + length (literals_at clauses.now place) }
    ensures noted { IfOk result (λ conflict. NotesReasons clauses.now conflict passed.old assigned.old.literals
        (clause_at clauses.now place ∷ []) passed.new assigned.new.literals) }
    ensures read { IfOk result (λ _. noted_length clauses.now passed.new
        ≤ noted_length clauses.now passed.old + length (literals_at clauses.now place)) }
{
    match look_at(assigned, clauses.literals(place, looks)) {
        Look::Falsified => {
            passed.end_at(place);
            Ok(true)
        }
        Look::Opens(lit) => {
            assigned.assume(lit)?;
            passed.note(place, lit);
            Ok(false)
        }
        Look::Rests => Ok(false),
    }
}

/// How a walk over a bucket ended.
#[derive(Clone, Copy)]
pub(crate) enum Walked {
    Empty,
    Conflict,
    Open,
}

/// Walks over the clauses with the hash `hash`, in order, up to the first falsified clause. Returns how the walk ended.
#[tactic(auto, using(crate::proofs::lemmas::announcements::Noting::noting))]
fn walk_bucket(
    clauses: &Clauses,
    hash: ClauseHash,
    assigned: &mut Assigned,
    passed: &mut Passed,
    looks: &mut Looks,
) -> Result<Walked, AllocError>
    ensures says { IfOk result
        (λ b. WalksBucket b (bucket_in hash clauses.now) assigned.old.literals assigned.new.literals) }
    ensures short { OnErr result (HasClausesRoom assigned.old.room (bucket_in hash clauses.now) → ⊥) }
    ensures extends { AssumesMore assigned.old assigned.new }
    ensures same { HasClausesRoom assigned.old.room (bucket_in hash clauses.now)
        → assigned.new.room ≡ assigned.old.room }
    ensures looks { LooksUpTo (total_length (bucket_in hash clauses.now)) looks.old looks.new }
    ensures noted { IfOk result (λ b. RecordsWalk clauses.now b passed.old assigned.old.literals
        (clauses_by_hash hash clauses.now) passed.new assigned.new.literals) }
    ensures read { IfOk result
        (λ _. noted_length clauses.now passed.new + looks.old ≤ noted_length clauses.now passed.old + looks.new) }
{
    let Some(first) = clauses.first(hash) else {
        return Ok(Walked::Empty);
    };
    let mut next = Some(first);
    while let Some(place) = next {
        if visit(clauses, place, assigned, passed, looks)? {
            return Ok(Walked::Conflict);
        }
        next = clauses.next(hash, place);
    }
    Ok(Walked::Open)
}

/// Walks over the buckets of the hashes, in order. Returns `true` if a clause is falsified before an empty bucket is
/// reached.
#[tactic(auto, using(crate::proofs::lemmas::store::Buckets::over_hashes))]
fn walk_hashes(
    clauses: &Clauses,
    hashes: &[ClauseHash],
    assigned: &mut Assigned,
    passed: &mut Passed,
    looks: &mut Looks,
) -> Result<bool, AllocError>
    ensures found { IfOk result
        (λ yes. yes ≡ walk_buckets assigned.old.literals (map (bucket_of clauses.now) hashes.now)) }
    ensures short { OnErr result (HasStoredRoom assigned.old.room (live_clauses clauses.now) → ⊥) }
    ensures extends { AssumesMore assigned.old assigned.new }
    ensures same { HasStoredRoom assigned.old.room (live_clauses clauses.now) → assigned.new.room ≡ assigned.old.room }
    ensures looks { LooksUpTo (length hashes.now * live_literal_count clauses.now) looks.old looks.new }
    ensures noted { IfOk result (λ yes. IsTrue yes
        → ReachesConflict clauses.now passed.old assigned.old.literals (clauses_by_hashes hashes.now clauses.now) passed.new) }
    ensures read { IfOk result
        (λ _. noted_length clauses.now passed.new + looks.old ≤ noted_length clauses.now passed.old + looks.new) }
{
    for hash in hashes {
        match walk_bucket(clauses, *hash, assigned, passed, looks)? {
            Walked::Empty => return Ok(false),
            Walked::Conflict => return Ok(true),
            Walked::Open => {}
        }
    }
    Ok(false)
}

/// Assumes that the clause that consists of `literals`, or of their negations if `negate` is true, is false. Stops at
/// the first literal of the clause that is already true, and returns `true` if there is one.
#[tactic(auto, using(crate::proofs::lemmas::propagation::Denied::denying))]
fn deny(assigned: &mut Assigned, literals: &[Lit], negate: bool) -> Result<bool, AllocError>
    ensures denied { IfOk result (λ reached. negations_assumed assigned.old.literals (signed negate literals.now)
        ≡ (if reached then None else Some assigned.new.literals)) }
    ensures extends { AssumesMore assigned.old assigned.new }
{
    for literal in literals {
        let lit = *literal ^ negate;
        if assigned.is_true(lit) {
            return Ok(true);
        }
        assigned.assume_once(!lit)?;
    }
    Ok(false)
}

/// Assumes what `deny` assumes, as far as there is room. Returns `true` if a literal of the clause was already true, or
/// the clause contains both signs of a variable. Never allocates.
fn deny_in_room(assigned: &mut Assigned, literals: &[Lit], negate: bool) -> bool
    ensures reached { MatchBool result ((list_any (is_among assigned.old.literals) (signed negate literals.now) ≡ true)
        ⊎ (is_tautology (signed negate literals.now) ≡ true))
        (NegationsAssumedInRoom assigned.old (signed negate literals.now) assigned.new) }
    ensures extends { AssumesMore assigned.old assigned.new }
    ensures same { assigned.new.room ≡ assigned.old.room }
{
    if include_both_signs(literals) {
        return true;
    }
    assigned.are_in_room();
    for literal in literals {
        let lit = *literal ^ negate;
        assigned.are_in_room();
        if assigned.is_true(lit) {
            return true;
        }
        assume_if_roomy(assigned, !lit);
    }
    false
}

/// Does what `check_clause_with_hashes` does once memory has run out: assumes only literals for which there is room.
/// Other literals are in no stored clause. The notes are unusable afterwards.
#[inline(never)]
pub(crate) fn check_in_room(
    clauses: &Clauses,
    literals: &[Lit],
    negate: bool,
    hashes: &[ClauseHash],
    assigned: &mut Assigned,
    passed: &mut Passed,
    looks: &mut Looks,
) -> Result<bool, AllocError>
    requires { noted_length clauses.now passed.old ≡ 0 }
    ensures exact { IfOk result (λ yes. HasStoredRoom assigned.old.room (live_clauses clauses.now) → IsTrue yes
        ↔ PassesCheck assigned.old.literals (signed negate literals.now)
        (map (bucket_of clauses.now) hashes.now)) }
    ensures short { OnErr result (HasStoredRoom assigned.old.room (live_clauses clauses.now) → ⊥) }
    ensures extends { AssumesMore assigned.old assigned.new }
    ensures same { HasStoredRoom assigned.old.room (live_clauses clauses.now) → assigned.new.room ≡ assigned.old.room }
    ensures looks { LooksUpTo (length hashes.now * live_literal_count clauses.now) looks.old looks.new }
    ensures lost { passed.new.lost ≡ true }
    ensures read { IfOk result (λ _. noted_length clauses.now passed.new + looks.old ≤ looks.new) }
{
    let _count = clauses.len();
    if deny_in_room(assigned, literals, negate) {
        passed.lose();
        return Ok(true);
    }
    let found = walk_hashes(clauses, hashes, assigned, passed, looks);
    passed.lose();
    found
}

/// Checks the clause that consists of `literals`, or of their negations if `negate` is true, by propagation from the
/// assumed literals over the clauses with the hashes in `hashes`. Returns `true` if it passes. What the check assumes
/// stays assumed. If the clause passes because of a conflict, the notes explain the conflict, unless they are
/// incomplete. Runs out of memory only if there is no room for a literal of a stored clause.
pub(crate) fn check_clause_with_hashes(
    clauses: &Clauses,
    literals: &[Lit],
    negate: bool,
    hashes: &[ClauseHash],
    assigned: &mut Assigned,
    passed: &mut Passed,
    looks: &mut Looks,
) -> Result<bool, AllocError>
    ensures exact { IfOk result (λ yes. HasStoredRoom assigned.old.room (live_clauses clauses.now) → IsTrue yes
        ↔ PassesCheck assigned.old.literals (signed negate literals.now)
        (map (bucket_of clauses.now) hashes.now)) }
    ensures short { OnErr result (HasStoredRoom assigned.old.room (live_clauses clauses.now) → ⊥) }
    ensures extends { AssumesMore assigned.old assigned.new }
    ensures looks { LooksUpTo (length hashes.now * live_literal_count clauses.now) looks.old looks.new }
    ensures explained { IfOk result (λ yes. IsTrue yes → passed.new.lost ≡ false
        → ExplainsCheck clauses.now passed.new assigned.old.literals (signed negate literals.now) hashes.now) }
    ensures read { IfOk result (λ _. noted_length clauses.now passed.new + looks.old ≤ looks.new) }
{
    let _count = clauses.len();
    passed.clear();
    let before = assigned.len();
    match deny(assigned, literals, negate) {
        Ok(true) => Ok(true),
        Ok(false) => walk_hashes(clauses, hashes, assigned, passed, looks),
        Err(_) => {
            assigned.undo_to(before);
            check_in_room(clauses, literals, negate, hashes, assigned, passed, looks)
        }
    }
}
