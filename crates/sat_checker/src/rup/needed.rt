//! Finds the clauses and units from which a conflict follows, by going backwards through the notes on a walk.
ghost use Rattle.std.specs.Prelude.{ℕ, ◌≡◌, ◌+◌, ◌<◌, ◌==◌, ◌||◌, ◌++◌, [], map, length, reverse, OnOk, Some, true};
ghost use Rattle.std.specs.Prelude.{false};
ghost use Rattle.sat_base.specs.values.Literals.{negated};
ghost use Rattle.sat_checker.specs.LiteralSets.{is_among};
ghost use Rattle.sat_checker.specs.announcements.Needed.{ConflictCauses, negations_except, with_cause, needed_units};
ghost use Rattle.sat_checker.specs.announcements.Needed.{conflict_ids};
ghost use Rattle.sat_checker.specs.inner.LookCounts.{LooksUpTo};
ghost use Rattle.sat_checker.specs.inner.Marks.{IsIncreasing};
ghost use Rattle.sat_checker.specs.inner.NeededView.{MarksCauses};
ghost use Rattle.sat_checker.specs.inner.Reasons.{clause_at, conflict_at, noted_length, AreNotedPlaces};
ghost use Rattle.sat_checker.specs.inner.Reasons.{IsConflictPlace, ExplainsConflict};
ghost use Rattle.sat_checker.specs.inner.SlotView.{literals_at};

use crate::looks::Looks;
use crate::rup::passed::{Passed, Reason};
use crate::store::clauses::Clauses;
use crate::units::Units;
use crate::units::assigned::Assigned;
use sat_base::Lit;
use std::alloc::{AllocError, Global};

/// The marked literals, and the ids of the needed clauses, in reverse order.
#[derive(Drop)]
pub(crate) struct Needed {
    marked: Assigned,
    ids: Vec<u64>,
}

/// Marks a literal.
#[inline(always)]
fn mark(marked: &mut Assigned, lit: Lit) -> Result<(), AllocError>
    ensures marked { OnOk result ((m : ℕ) → is_among marked.new.literals m
        ≡ (lit == m || is_among marked.old.literals m)) }
{
    marked.assume_once(lit)
}

/// Marks the negations of a clause's literals.
#[tactic(auto, using(crate::proofs::lemmas::announcements::Marking::marking))]
pub(crate) fn mark_all(marked: &mut Assigned, clause: &[Lit]) -> Result<(), AllocError>
    ensures marked { OnOk result ((m : ℕ) → is_among marked.new.literals m
        ≡ (is_among (map negated clause.now) m || is_among marked.old.literals m)) }
{
    for lit in clause {
        mark(marked, !*lit)?;
    }
    Ok(())
}

/// Marks the negations of a clause's literals other than `made`.
#[tactic(auto, using(crate::proofs::lemmas::announcements::Marking::marking))]
fn mark_others(marked: &mut Assigned, clause: &[Lit], made: Lit) -> Result<(), AllocError>
    ensures marked { OnOk result ((m : ℕ) → is_among marked.new.literals m
        ≡ (is_among (negations_except made clause.now) m || is_among marked.old.literals m)) }
{
    for lit in clause {
        if *lit == made {
            continue;
        }
        mark(marked, !*lit)?;
    }
    Ok(())
}

/// Lists the ids of the units that are marked but not in `denied`, in increasing order.
#[tactic(auto, using(crate::proofs::lemmas::announcements::Listing::listing))]
fn list_units(
    marked: &Assigned,
    denied: &Assigned,
    units: &Units,
    ids: &mut Vec<u64>,
) -> Result<(), AllocError>
    requires { ids.old.items ≡ [] }
    ensures { OnOk result ((g : ConflictCauses) → ((m : ℕ) → is_among marked.now.literals m ≡ is_among g.literals m)
        → IsIncreasing (map (λ u. u.id) units.now.units)
        → ids.new.items ≡ map (λ u. u.id) (needed_units denied.now.literals g units.now.units)) }
{
    units.stand_once();
    for lit in marked.literals() {
        if denied.is_true(*lit) {
            continue;
        }
        if let Some(id) = units.id(*lit) {
            ids.push(id)?;
        }
    }
    ids.sort_unstable();
    Ok(())
}

impl Needed {
    /// Creates a value without marks or ids.
    pub fn new(alloc: Global) -> Needed
        ensures marked { result.marked.literals ≡ [] }
        ensures none { result.ids.items ≡ [] }
    {
        Needed {
            marked: Assigned::new(alloc),
            ids: Vec::new(alloc),
        }
    }

    /// Starts with the falsified clause, which must be at `place`: marks the negations of its literals, and records
    /// its id.
    #[tactic(auto, using(crate::proofs::lemmas::announcements::Marking::following))]
    pub fn begin(
        &mut self,
        clauses: &Clauses,
        place: usize,
        looks: &mut Looks,
    ) -> Result<(), AllocError>
        requires { place < length clauses.now }
        ensures followed { OnOk result (MarksCauses self.new (conflict_at clauses.now (Some place))) }
        ensures looks { looks.new ≡ looks.old + length (literals_at clauses.now place) }
    {
        self.ids.clear();
        self.marked.allow(clauses.near_count());
        self.marked.undo_to(0);
        mark_all(&mut self.marked, clauses.literals(place, looks))?;
        self.ids.push(clauses.id(place))?;
        Ok(())
    }

    /// Follows a reason. If its literal is marked, its clause is needed: marks the negations of the clause's other
    /// literals, and records the id of the clause.
    #[tactic(auto, using(crate::proofs::lemmas::announcements::Marking::following))]
    pub fn follow(
        &mut self,
        clauses: &Clauses,
        reason: Reason,
        looks: &mut Looks,
    ) -> Result<(), AllocError>
        requires { reason.place < length clauses.now }
        ensures followed { OnOk result ((g : ConflictCauses) → MarksCauses self.old g
            → MarksCauses self.new (with_cause reason.lit (clause_at clauses.now reason.place) g)) }
        ensures looks { LooksUpTo (length (literals_at clauses.now reason.place)) looks.old looks.new }
    {
        if !self.marked.is_true(reason.lit) {
            return Ok(());
        }
        mark_others(
            &mut self.marked,
            clauses.literals(reason.place, looks),
            reason.lit,
        )?;
        self.ids.push(clauses.id(reason.place))?;
        Ok(())
    }

    /// Follows the notes on a walk from its conflict back to its start.
    pub fn follow_all(
        &mut self,
        clauses: &Clauses,
        passed: &Passed,
        looks: &mut Looks,
    ) -> Result<(), AllocError>
        requires there { AreNotedPlaces clauses.now passed.now }
        requires reached { IsConflictPlace clauses.now passed.now.conflict }
        requires whole { passed.now.lost ≡ false }
        ensures followed { OnOk result
            ((whole : ConflictCauses) → ExplainsConflict clauses.now passed.now whole → MarksCauses self.new whole) }
        ensures looks { LooksUpTo (noted_length clauses.now passed.now) looks.old looks.new }
    {
        let Some(place) = passed.conflict() else {
            return Ok(());
        };
        self.begin(clauses, place, looks)?;
        let reasons = passed.reasons();
        let count = reasons.len();
        for done in 0..count {
            let reason = reasons[count - 1 - done];
            self.follow(clauses, reason, looks)?;
        }
        Ok(())
    }

    /// Returns `true` if a marked literal is a unit.
    pub fn has_unit(&self, units: &Units) -> bool
        ensures { result ≡ false → (l : ℕ) → is_among self.now.marked.literals l ≡ true
            → is_among (map (λ u. u.literal) units.now.units) l ≡ false }
    {
        for lit in self.marked.literals() {
            if units.is_unit(*lit) {
                return true;
            }
        }
        false
    }

    /// Appends the ids of the needed clauses to `ids`, with the falsified clause last.
    pub fn list_clauses(&mut self, ids: &mut Vec<u64>) -> Result<(), AllocError>
        ensures { OnOk result (ids.new.items ≡ ids.old.items ++ reverse self.old.ids.items) }
    {
        self.ids.reverse();
        ids.extend_from_slice(&self.ids)
    }

    /// Lists the ids of the needed units, in increasing order, and then the ids of the needed clauses, with the
    /// falsified clause last.
    pub fn list(
        &mut self,
        denied: &Assigned,
        units: &Units,
        ids: &mut Vec<u64>,
    ) -> Result<(), AllocError>
        requires { ids.old.items ≡ [] }
        ensures { OnOk result ((g : ConflictCauses) → MarksCauses self.old g
            → IsIncreasing (map (λ u. u.id) units.now.units)
            → ids.new.items ≡ conflict_ids denied.now.literals g units.now.units) }
    {
        list_units(&self.marked, denied, units, ids)?;
        self.list_clauses(ids)
    }
}
