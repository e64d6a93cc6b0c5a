//! For a clause that passed the propagation check, the ids of the clauses from which it follows. They are listed only
//! if a listener needs them.
ghost use Rattle.std.specs.Prelude.{ℕ, List, ◌≡◌, ◌+◌, ◌++◌, [], map, OnOk, false};
ghost use Rattle.sat_base.specs.values.Literals.{negated};
ghost use Rattle.sat_checker.specs.LiteralSets.{canonical};
ghost use Rattle.sat_checker.specs.Stored.{Stored};
ghost use Rattle.sat_checker.specs.announcements.Needed.{ConflictCauses, conflict_causes, conflict_ids, propagations};
ghost use Rattle.sat_checker.specs.inner.LookCounts.{LooksUpTo};
ghost use Rattle.sat_checker.specs.inner.Marks.{IsIncreasing};
ghost use Rattle.sat_checker.specs.inner.Reasons.{clauses_by_hashes, noted_length, AreNotedPlaces, IsConflictPlace};
ghost use Rattle.sat_checker.specs.inner.Reasons.{ExplainsConflict};
ghost use Rattle.sat_checker.specs.inner.Reasons.{ExplainsUnlessSatisfied};
ghost use Rattle.sat_checker.specs.inner.StoreView.{RepresentsClauses};

use crate::looks::Looks;
use crate::rup::needed::{Needed, mark_all};
use crate::rup::passed::Passed;
use crate::sorted_lits::has_both_signs;
use crate::store::Store;
use crate::units::Units;
use crate::units::assigned::Assigned;
use sat_base::Lit;
use std::alloc::{AllocError, Global};

/// The propagations of a clause that passed the check, and buffers that are reused.
#[derive(Drop)]
pub(crate) struct Propagations {
    ids: Vec<u64>,
    needed: Needed,
    denied: Assigned,
}

impl Propagations {
    /// Creates an empty list.
    pub fn new(alloc: Global) -> Propagations
        ensures { result.ids.items ≡ [] }
    {
        Propagations {
            ids: Vec::new(alloc),
            needed: Needed::new(alloc),
            denied: Assigned::new(alloc),
        }
    }

    /// Returns the ids as a slice.
    pub fn ids(&self) -> &[u64]
        ensures { result.now ≡ self.now.ids.items }
    {
        &self.ids
    }

    /// Lists the propagations of a clause that passed the check, using the notes on the check. Returns an error if the
    /// notes are unusable or memory runs out. `literals` must be the sorted literals of `clause`.
    #[inline(never)]
    pub fn list(
        &mut self,
        store: &Store,
        units: &Units,
        passed: &Passed,
        clause: &[Lit],
        literals: &[Lit],
        looks: &mut Looks,
    ) -> Result<(), AllocError>
        requires canonical { literals.now ≡ canonical clause.now }
        requires explained { passed.now.lost ≡ false → (whole : ConflictCauses)
            × ExplainsUnlessSatisfied store.now.clauses passed.now (map (λ u. u.literal) units.now.units) clause.now whole }
        ensures listed { OnOk result
            ((f : Stored) (hashes : List ℕ) → RepresentsClauses store.now f → units.now.units ≡ f.units
            → (passed.now.lost ≡ false
            → ExplainsUnlessSatisfied store.now.clauses passed.now (map (λ u. u.literal) units.now.units) clause.now
            (conflict_causes (map negated clause.now ++ map (λ u. u.literal) units.now.units) (clauses_by_hashes hashes store.now.clauses)))
            → IsIncreasing (map (λ u. u.id) f.units) → self.new.ids.items ≡ propagations f clause.now hashes) }
        ensures looks { LooksUpTo (noted_length store.now.clauses passed.now) looks.old looks.new }
    {
        self.ids.clear();
        if passed.is_lost() {
            return Err(AllocError);
        }
        if has_both_signs(literals) {
            return Ok(());
        }
        if let Some(id) = units.true_id(literals) {
            self.ids.push(id)?;
            return Ok(());
        }
        self.list_conflict(store, units, passed, clause, looks)
    }

    /// Lists the ids of the units and clauses from which the noted conflict follows. `clause` must be the clause whose
    /// negation led to the conflict.
    fn list_conflict(
        &mut self,
        store: &Store,
        units: &Units,
        passed: &Passed,
        clause: &[Lit],
        looks: &mut Looks,
    ) -> Result<(), AllocError>
        requires empty { self.old.ids.items ≡ [] }
        requires whole { passed.now.lost ≡ false }
        requires there { AreNotedPlaces store.now.clauses passed.now }
        requires reached { IsConflictPlace store.now.clauses passed.now.conflict }
        ensures listed { OnOk result ((whole : ConflictCauses) → ExplainsConflict store.now.clauses passed.now whole
            → IsIncreasing (map (λ u. u.id) units.now.units)
            → self.new.ids.items ≡ conflict_ids (map negated clause.now) whole units.now.units) }
        ensures looks { LooksUpTo (noted_length store.now.clauses passed.now) looks.old looks.new }
    {
        self.needed.follow_all(&store.clauses, passed, looks)?;
        if !self.needed.has_unit(units) {
            return self.needed.list_clauses(&mut self.ids);
        }
        self.denied.allow(store.clauses.near_count());
        self.denied.undo_to(0);
        mark_all(&mut self.denied, clause)?;
        self.needed.list(&self.denied, units, &mut self.ids)
    }
}
