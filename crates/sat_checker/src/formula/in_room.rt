//! Decides, by marking literals, whether they are a model of the stored formula, and whether a clause may be deleted.
//! If there is no memory for a literal's mark, the literal is in no stored clause.
ghost use Rattle.std.specs.Prelude.{ℕ, ◌≡◌, ◌*◌, ◌<◌, ◌&&◌, ◌↔◌, not, IfOk, OnErr, IsErrOf, IsTrue};
ghost use Rattle.std.specs.Prelude.{false, MatchBool};
ghost use Rattle.std.specs.List.{list_any};
ghost use Rattle.sat_base.specs.steps.Steps.{DeleteClause};
ghost use Rattle.sat_base.specs.steps.StepViews.{deletion_of};
ghost use Rattle.sat_base.specs.values.Literals.{negated};
ghost use Rattle.sat_checker.specs.LiteralSets.{canonical, is_among};
ghost use Rattle.sat_checker.specs.Accepts.{Accepts, FitsModel, IsStrictSubset};
ghost use Rattle.sat_checker.specs.Looks.{stored_literal_count};
ghost use Rattle.sat_checker.specs.Stored.{Stored};
ghost use Rattle.sat_checker.specs.Storing.{last_literals, clause_with};
ghost use Rattle.sat_checker.specs.inner.FormulaView.{RepresentsFormula, rehashed_in, DiffersInNotesAndRoom};
ghost use Rattle.sat_checker.specs.inner.LookCounts.{LooksOver};
ghost use Rattle.sat_checker.specs.inner.ModelTests.{are_all_true};
ghost use Rattle.sat_checker.specs.inner.AssumedRoom.{AgreeWithinRoom};
ghost use Rattle.sat_checker.specs.inner.StoreView.{store_count_in};
ghost use Rattle.sat_checker.specs.declared.store.StoreError.TheVariants.{OutOfMemory};

use crate::formula::Formula;
use crate::looks::Looks;
use crate::state::status::LastClause;
use crate::store::StoreError;
use crate::units::valuation::{assume_apart, assume_roomy, have_room, is_strictly_assumed};
use crate::unsorted_lits::are_apart;
use sat_base::{DeleteClauseProof, Lit};
use std::alloc::AllocError;

impl Formula {
    /// Returns `true` if the literals are a model of the stored formula. Runs out of memory only if they are.
    pub fn fits(&mut self, literals: &[Lit], looks: &mut Looks) -> Result<bool, AllocError>
        ensures exact { IfOk result (λ fits. (f : Stored) → RepresentsFormula (rehashed_in self.old) f
            → IsTrue fits ↔ FitsModel f literals.now) }
        ensures on_error { OnErr result ((f : Stored) → RepresentsFormula (rehashed_in self.old) f → FitsModel f literals.now) }
        ensures rest { DiffersInNotesAndRoom self.old self.new }
        ensures looks { LooksOver (RepresentsFormula (rehashed_in self.old)) stored_literal_count looks.old looks.new }
    {
        if self.status.unsat {
            return Ok(false);
        }
        self.marks.allow(literals.len().saturating_mul(4));
        self.marks.undo_to(0);
        match assume_apart(&mut self.marks, literals) {
            Ok(apart) => Ok(apart && self.is_model(literals, looks)),
            Err(_) => self.fail_if_model(literals, looks),
        }
    }

    /// Does what `fits` does once memory has run out: returns `false` if the literals are not a model of the stored
    /// formula, and an error if they are.
    fn fail_if_model(&mut self, literals: &[Lit], looks: &mut Looks) -> Result<bool, AllocError>
        requires { self.old.status.unsat ≡ false }
        ensures exact { IfOk result (λ fits. (f : Stored) → RepresentsFormula (rehashed_in self.old) f
            → IsTrue fits ↔ FitsModel f literals.now) }
        ensures on_error { OnErr result ((f : Stored) → RepresentsFormula (rehashed_in self.old) f → FitsModel f literals.now) }
        ensures rest { DiffersInNotesAndRoom self.old self.new }
        ensures looks { LooksOver (RepresentsFormula (rehashed_in self.old)) stored_literal_count looks.old looks.new }
    {
        if !are_apart(literals) {
            return Ok(false);
        }
        self.mark_in_room(literals);
        if self.is_model(literals, looks) {
            return Err(AllocError);
        }
        Ok(false)
    }

    /// Marks exactly those literals in `literals` for which there is room.
    fn mark_in_room(&mut self, literals: &[Lit])
        ensures marked { (l : ℕ) → is_among self.new.marks.literals l
            ≡ (is_among self.old.marks.room l && is_among literals.now l) }
        ensures room { self.new.marks.room ≡ self.old.marks.room }
        ensures rest { DiffersInNotesAndRoom self.old self.new }
    {
        self.marks.undo_to(0);
        assume_roomy(&mut self.marks, literals);
    }

    /// Returns `true` if the literals include no negation of a unit, and satisfy every irredundant clause. The literals
    /// for which there is room must be marked.
    fn is_model(&self, literals: &[Lit], looks: &mut Looks) -> bool
        requires { AgreeWithinRoom self.now.marks.room self.now.marks.literals literals.now }
        ensures reached { (f : Stored) → RepresentsFormula (rehashed_in self.now) f
            → result ≡ (not (list_any (λ u. is_among literals.now (negated u.literal)) f.units)
            && are_all_true literals.now f.clauses) }
        ensures looks { LooksOver (RepresentsFormula (rehashed_in self.now)) stored_literal_count looks.old looks.new }
    {
        !self.units.are_contradicted(literals) && self.store.are_satisfied(&self.marks, looks)
    }

    /// Decides on a deletion once memory has run out: returns `false` if the clause may not be deleted for the reason
    /// `proof`, and `OutOfMemory` if it may.
    pub fn fail_if_deletable(
        &mut self,
        clause: &[Lit],
        proof: DeleteClauseProof,
        looks: &mut Looks,
    ) -> Result<bool, StoreError>
        ensures refused { IfOk result (λ accepted. (accepted ≡ false) × ((f : Stored) → RepresentsFormula self.old f
            → Accepts f (DeleteClause clause.now (deletion_of proof)) → ⊥)) }
        ensures on_error { OnErr result ((f : Stored) → RepresentsFormula self.old f
            → Accepts f (DeleteClause clause.now (deletion_of proof))) }
        ensures memory { OnErr result (IsErrOf result OutOfMemory) }
        ensures looks { LooksOver (RepresentsFormula self.old) (λ f. 2 * stored_literal_count f) looks.old looks.new }
    {
        if self.may_delete_in_room(clause, proof, looks) {
            return Err(StoreError::OutOfMemory);
        }
        Ok(false)
    }

    /// Returns `true` if a clause may be deleted for the reason `proof`. Never allocates.
    pub fn may_delete_in_room(
        &mut self,
        clause: &[Lit],
        proof: DeleteClauseProof,
        looks: &mut Looks,
    ) -> bool
        ensures exact { (f : Stored) → RepresentsFormula self.old f
            → MatchBool result (Accepts f (DeleteClause clause.now (deletion_of proof)))
            (Accepts f (DeleteClause clause.now (deletion_of proof)) → ⊥) }
        ensures rest { DiffersInNotesAndRoom self.old self.new }
        ensures looks { LooksOver (RepresentsFormula self.old) (λ f. 2 * stored_literal_count f) looks.old looks.new }
    {
        if !have_room(&self.marks, clause) {
            return false;
        }
        self.mark_in_room(clause);
        self.may_delete_marked(clause, proof, looks)
    }

    /// Returns `true` if a clause may be deleted for the reason `proof`. Exactly the literals of `clause` must be
    /// marked.
    fn may_delete_marked(&self, clause: &[Lit], proof: DeleteClauseProof, looks: &mut Looks) -> bool
        requires { (l : ℕ) → is_among self.now.marks.literals l ≡ is_among clause.now l }
        ensures exact { (f : Stored) → RepresentsFormula self.now f
            → MatchBool result (Accepts f (DeleteClause clause.now (deletion_of proof)))
            (Accepts f (DeleteClause clause.now (deletion_of proof)) → ⊥) }
        ensures looks { LooksOver (RepresentsFormula self.now) (λ f. 2 * stored_literal_count f) looks.old looks.new }
    {
        match proof {
            DeleteClauseProof::Redundant => self.marked_has_count(true, clause, looks),
            DeleteClauseProof::Satisfied => {
                self.units.has_any(clause) && self.marked_has_count(false, clause, looks)
            }
            DeleteClauseProof::Simplified => {
                self.has_last_marked(looks) && self.marked_has_count(false, clause, looks)
            }
        }
    }

    /// Returns `true` if a clause is stored as redundant, if `redundant` is true, or as irredundant otherwise. Exactly
    /// the literals of `clause` must be marked.
    fn marked_has_count(&self, redundant: bool, clause: &[Lit], looks: &mut Looks) -> bool
        requires { (l : ℕ) → is_among self.now.marks.literals l ≡ is_among clause.now l }
        ensures found { (f : Stored) → RepresentsFormula self.now f
            → MatchBool result (0 < store_count_in redundant (clause_with (canonical clause.now) f.clauses))
            (0 < store_count_in redundant (clause_with (canonical clause.now) f.clauses) → ⊥) }
        ensures looks { LooksOver (RepresentsFormula self.now) stored_literal_count looks.old looks.new }
    {
        self.store.assumed_count(redundant, &self.marks, looks) > 0
    }

    /// Returns `true` if the last irredundant clause stored is still stored, and its literals are a proper subset of
    /// the marked literals.
    fn has_last_marked(&self, looks: &mut Looks) -> bool
        ensures part { (f : Stored) → RepresentsFormula self.now f
            → MatchBool result (IsStrictSubset (last_literals f.last f) self.now.marks.literals)
            (IsStrictSubset (last_literals f.last f) self.now.marks.literals → ⊥) }
        ensures looks { LooksOver (RepresentsFormula self.now) stored_literal_count looks.old looks.new }
    {
        match self.status.last {
            LastClause::NoneYet => false,
            LastClause::Empty(_) => is_strictly_assumed(&self.marks, &[]),
            LastClause::Single(id, lit) => {
                if self.units.id(lit) != Some(id) {
                    return false;
                }
                is_strictly_assumed(&self.marks, &[lit])
            }
            LastClause::Long(id) => self.store.has_part_assumed(id, &self.marks, looks),
        }
    }
}
