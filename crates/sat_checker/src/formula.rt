//! The stored formula: clauses, units, and what is recorded about them.
ghost use Rattle.std.specs.Prelude.{◌≡◌, ◌+◌, ◌-◌, ◌≤◌, ◌*◌, [], ◌∷◌, length, IfOk, OnOk, OnErr, IsErrOf};
ghost use Rattle.std.specs.Prelude.{ℕ, List, None, IsTrue, ◌↔◌, MatchBool, MatchResult, map, not, ◌&&◌, false};
ghost use Rattle.std.specs.Prelude.{if◌then◌else◌, true, reverse};
ghost use Rattle.sat_base.specs.steps.Steps.{DeleteClause, Redundant, Satisfied, Simplified};
ghost use Rattle.sat_base.specs.steps.StepViews.{deletion_of};
ghost use Rattle.std.specs.List.{list_any};
ghost use Rattle.sat_base.specs.values.Literals.{negated};
ghost use Rattle.sat_checker.specs.inner.LookCounts.{LooksOver};
ghost use Rattle.sat_checker.specs.inner.ModelTests.{are_all_true};
ghost use Rattle.sat_checker.specs.LiteralSets.{canonical, is_among, is_tautology};
ghost use Rattle.sat_checker.specs.Accepts.{PassesByHashes, UnitsPassInTurn, IsStrictSubset, FitsModel};
ghost use Rattle.sat_checker.specs.Accepts.{VariablesDistinct};
ghost use Rattle.sat_checker.specs.Stored.{Stored, nothing_stored};
ghost use Rattle.sat_checker.specs.Looks.{stored_literal_count};
ghost use Rattle.sat_checker.specs.Storing.{with_conflict_settled, with_unit, with_contradiction, with_canonical};
ghost use Rattle.sat_checker.specs.Storing.{with_stored};
ghost use Rattle.sat_checker.specs.Storing.{with_input, with_units, last_literals, without_variable};
ghost use Rattle.sat_checker.specs.announcements.Announcements.{announced_derived, announced_derived_set};
ghost use Rattle.sat_checker.specs.announcements.Announcements.{announced_derived_units, id_of_set};
ghost use Rattle.sat_checker.specs.announcements.Needed.{propagations};
ghost use Rattle.sat_checker.specs.inner.Reasons.{noted_length};
ghost use Rattle.sat_checker.specs.inner.StoreView.{RemovesCountOrRefuses, with_count_removed};
ghost use Rattle.sat_checker.specs.inner.Marks.{IsIncreasing};
ghost use Rattle.sat_checker.specs.declared.store.StoreError.TheVariants.{CounterEnd};
ghost use Rattle.sat_checker.specs.inner.FormulaView.{RepresentsFormula, rehashed_in, HasCheckData};
ghost use Rattle.sat_checker.specs.inner.FormulaView.{DiffersInNotesAndRoom};
ghost use Rattle.sat_checker.specs.inner.FormulaView.{FormulaEffect};
ghost use Rattle.sat_checker.specs.inner.FormulaView.{DecidesChange, DeletionEffect, DeletionIsAccepted};
ghost use Rattle.sat_checker.specs.inner.FormulaView.{NotesExplainCheck};
ghost use Rattle.sat_checker.specs.inner.InTurn.{OtherUnitsPassInTurn};
ghost use Rattle.sat_checker.specs.inner.AssumedRoom.{signed, HasClauseRoom};
ghost use Rattle.sat_checker.specs.listeners.AnnouncingView.{announced_change, HasNoStoredUnitClause};
ghost use Rattle.sat_checker.specs.listeners.NotedView.{AppendsAnnouncements, ChangeIsAnnounced};

pub(crate) mod in_room;

use crate::announce::notes::Notes;
use crate::announce::step_announcements::{StoreClauseResult, change_of};
use crate::looks::Looks;
use crate::rup::passed::Passed;
use crate::sorted_lits::{has_both_signs, is_strictly_increasing, is_subset};
use crate::state::status::{LastClause, Status};
use crate::store::{Store, StoreError};
use crate::units::Units;
use crate::units::assigned::{Assigned, make_room_for};
use crate::units::valuation::assume_distinct;
use sat_base::{ClauseHash, DeleteClauseProof, Lit, Var};
use std::alloc::{AllocError, Global};

/// Stored clauses and units.
#[derive(Drop)]
pub(crate) struct Formula {
    pub(crate) store: Store,
    pub(crate) units: Units,
    pub(crate) status: Status,
    /// Marks on the literals of a model or of a clause.
    pub(crate) marks: Assigned,
    /// The notes on the last propagation check.
    pub(crate) passed: Passed,
}

impl Formula {
    /// Creates an empty formula with 64-bit hashes.
    pub fn new(alloc: Global) -> Formula
        ensures { RepresentsFormula result nothing_stored }
    {
        Formula {
            store: Store::new(alloc),
            units: Units::new(alloc),
            marks: Assigned::new(alloc),
            status: Status::new(),
            passed: Passed::new(alloc),
        }
    }

    /// Files the stored clauses under the current hashes, if that has not been done yet. Never allocates.
    #[inline(always)]
    pub fn rehash_if_needed(&mut self, looks: &mut Looks)
        ensures kept { (f : Stored) → RepresentsFormula (rehashed_in self.old) f → RepresentsFormula self.new f }
        ensures looks { LooksOver (RepresentsFormula (rehashed_in self.old)) stored_literal_count looks.old looks.new }
    {
        self.store.rehash_if_needed(looks);
    }

    /// Checks the clause that consists of `literals`, or of their negations if `negate` is true, by propagation over
    /// the clauses with the hashes in `hashes`. Returns `true` if it passes. The result does not depend on the ids of
    /// clauses and units. If `listening` is true, the notes on the check are kept for a listener.
    pub fn check(
        &mut self,
        literals: &[Lit],
        negate: bool,
        hashes: &[ClauseHash],
        listening: bool,
        looks: &mut Looks,
    ) -> Result<bool, AllocError>
        ensures exact { IfOk result (λ passes. (f : Stored) → HasCheckData self.old f
            → IsTrue passes ↔ PassesByHashes f (signed negate literals.now) hashes.now) }
        // Memory does not run out, because there is room for the literals of all stored clauses.
        ensures short { OnErr result ((f : Stored) → HasCheckData self.old f → ⊥) }
        ensures rest { DiffersInNotesAndRoom self.old self.new }
        ensures looks { LooksOver (HasCheckData self.old) (λ f. length hashes.now * stored_literal_count f) looks.old looks.new }
        ensures explained { IfOk result (λ passes. IsTrue passes → self.new.passed.lost ≡ false
            → NotesExplainCheck self.new (signed negate literals.now) hashes.now) }
        ensures read { IfOk result (λ _. noted_length self.new.store.clauses self.new.passed + looks.old ≤ looks.new) }
    {
        self.passed.listen(listening);
        self.units.check_clause(
            &self.store,
            literals,
            negate,
            hashes,
            &mut self.passed,
            looks,
        )
    }

    /// If a unit conflict is pending, gives its empty clause the next id.
    pub fn settle(&mut self) -> Result<(), StoreError>
        ensures settles { FormulaEffect result (rehashed_in self.old) with_conflict_settled (rehashed_in self.new) }
        ensures none { OnOk result (self.new.status.conflict ≡ None) }
        ensures spent { OnErr result (IsErrOf result CounterEnd) }
    {
        if self.status.conflict.is_some() {
            self.status.take_id()?;
            self.status.conflict = None;
        }
        Ok(())
    }

    /// Stores the literal `lit` as a unit. After an error, the units are unchanged.
    pub fn store_unit_clause(&mut self, lit: Lit) -> Result<(), StoreError>
        ensures stored { FormulaEffect result self.old (with_unit lit) self.new }
        ensures kept { OnErr result ((f : Stored) → HasCheckData self.old f → HasCheckData self.new f) }
    {
        if self.units.is_unit(lit) {
            return Ok(());
        }
        if self.units.is_unit(!lit) {
            return self.store_contradiction(lit);
        }
        let id = self.status.take_id()?;
        self.units.push(id, lit)?;
        Ok(())
    }

    /// Gives an id to a unit whose negation is stored, and records unsat and a unit conflict.
    fn store_contradiction(&mut self, lit: Lit) -> Result<(), StoreError>
        ensures stored { FormulaEffect result self.old (with_contradiction lit) self.new }
        ensures kept { OnErr result ((f : Stored) → HasCheckData self.old f → HasCheckData self.new f) }
    {
        let stored = self.units.id(!lit);
        let id = self.status.take_id()?;
        self.status.unsat = true;
        self.status.record_conflict(stored, id);
        Ok(())
    }

    /// Stores an empty clause, which always counts as new. Returns what this changes.
    fn store_empty(&mut self, redundant: bool) -> Result<StoreClauseResult, StoreError>
        ensures stored { FormulaEffect result self.old (with_canonical redundant []) self.new }
        ensures change { ChangeIsAnnounced result redundant [] self.old }
    {
        let id = self.status.take_id()?;
        self.status.unsat = true;
        self.status.note_last(redundant, LastClause::Empty(id));
        Ok(StoreClauseResult::New)
    }

    /// Stores a clause of one literal. Returns what this changes.
    fn store_single(&mut self, redundant: bool, lit: Lit) -> Result<StoreClauseResult, StoreError>
        ensures stored { FormulaEffect result self.old (with_canonical redundant (lit ∷ [])) self.new }
        ensures change { ChangeIsAnnounced result redundant (lit ∷ []) self.old }
    {
        let change = self.unit_change(lit);
        self.store_unit_clause(lit)?;
        if redundant {
            return Ok(change);
        }
        if let Some(id) = self.units.id(lit) {
            self.status.last = LastClause::Single(id, lit);
        }
        Ok(change)
    }

    /// Allows `more` more literals to have their entries in lists, rather than in trees.
    pub fn grant(&mut self, more: usize)
        ensures { self.new ≡ self.old }
    {
        self.units.grant(more);
        self.marks.grant(more);
        self.store.clauses.grant(more);
    }

    /// Makes room for the literals of a clause and for their negations, so that these can be assumed and marked. For
    /// literals of stored clauses, there already is room.
    fn make_room(&mut self, literals: &[Lit]) -> Result<(), AllocError>
        ensures room { OnOk result ((f : Stored) → RepresentsFormula self.old f
            → HasClauseRoom self.new.units.room literals.now × HasClauseRoom self.new.marks.room literals.now) }
        ensures rest { DiffersInNotesAndRoom self.old self.new }
    {
        for lit in literals {
            if self.store.clauses.have_literal(*lit) {
                continue;
            }
            self.make_new_room(&[*lit])?;
        }
        Ok(())
    }

    /// Makes room for literals and for their negations, so that these can be assumed and marked.
    #[inline(never)]
    fn make_new_room(&mut self, literals: &[Lit]) -> Result<(), AllocError>
        ensures room { OnOk result
            (HasClauseRoom self.new.units.room literals.now × HasClauseRoom self.new.marks.room literals.now) }
        ensures rest { DiffersInNotesAndRoom self.old self.new }
    {
        self.units.make_room_for(literals)?;
        make_room_for(&mut self.marks, literals)
    }

    /// Stores a clause of two or more literals. Returns what this changes.
    fn store_long(
        &mut self,
        redundant: bool,
        literals: &[Lit],
        looks: &mut Looks,
    ) -> Result<StoreClauseResult, StoreError>
        requires increasing { IsIncreasing literals.now }
        requires long { 2 ≤ length literals.now }
        ensures stored { FormulaEffect result self.old (with_canonical redundant literals.now) self.new }
        ensures change { ChangeIsAnnounced result redundant literals.now self.old }
        ensures looks { LooksOver (RepresentsFormula self.old) stored_literal_count looks.old looks.new }
    {
        self.make_room(literals)?;
        let id = self.status.next_id;
        let placed = self.store.store_clause(id, redundant, literals, looks)?;
        self.status
            .note_last(redundant, LastClause::Long(placed.id));
        match self.status.take_id_if(placed.is_new) {
            Ok(()) => Ok(change_of(redundant, placed)),
            Err(error) => Err(error),
        }
    }

    /// Stores the clause with the literals `literals`, which must be sorted and must not repeat. Returns what
    /// this changes.
    pub fn store_canonical(
        &mut self,
        redundant: bool,
        literals: &[Lit],
        looks: &mut Looks,
    ) -> Result<StoreClauseResult, StoreError>
        requires { IsIncreasing literals.now }
        ensures stored { FormulaEffect result self.old (with_canonical redundant literals.now) self.new }
        ensures change { ChangeIsAnnounced result redundant literals.now self.old }
        ensures looks { LooksOver (RepresentsFormula self.old) stored_literal_count looks.old looks.new }
    {
        if literals.is_empty() {
            return self.store_empty(redundant);
        }
        if literals.len() == 1 {
            return self.store_single(redundant, literals[0]);
        }
        self.store_long(redundant, literals, looks)
    }

    /// Stores the clause with the sorted literals `literals`, unless it is a tautology. Returns what this changes.
    pub fn store_clause(
        &mut self,
        redundant: bool,
        literals: &[Lit],
        looks: &mut Looks,
    ) -> Result<StoreClauseResult, StoreError>
        requires { IsIncreasing literals.now }
        ensures stored { (clause : List ℕ) → literals.now ≡ canonical clause
            → FormulaEffect result self.old (with_stored redundant clause) self.new }
        ensures change { IfOk result (λ change. (f : Stored) → RepresentsFormula self.old f → HasNoStoredUnitClause f → (ids : List ℕ)
            → announced_change change f.next_id redundant literals.now ids ≡ (if is_tautology literals.now then []
            else announced_derived_set redundant literals.now ids f (id_of_set literals.now f))) }
        ensures looks { LooksOver (RepresentsFormula self.old) stored_literal_count looks.old looks.new }
    {
        if has_both_signs(literals) {
            return Ok(StoreClauseResult::Duplicate);
        }
        self.store_canonical(redundant, literals, looks)
    }

    /// Stores a clause of the formula, given by its sorted literals. An id is assigned even if the clause is a
    /// tautology or already stored.
    pub fn store_input(&mut self, literals: &[Lit], looks: &mut Looks) -> Result<(), StoreError>
        requires { IsIncreasing literals.now }
        ensures stored { (clause : List ℕ) → literals.now ≡ canonical clause
            → FormulaEffect result self.old (with_input clause) self.new }
        ensures looks { LooksOver (RepresentsFormula self.old) stored_literal_count looks.old looks.new }
    {
        let id = self.status.next_id;
        self.store_clause(false, literals, looks)?;
        let unnumbered = self.status.next_id == id;
        self.status.take_id_if(unnumbered)
    }

    /// Stores a derived clause, given by its sorted literals, and notes its announcement. The ids of the clauses from
    /// which it follows must already be listed in `notes`.
    pub fn store_derived(
        &mut self,
        redundant: bool,
        literals: &[Lit],
        notes: &mut Notes,
        looks: &mut Looks,
    ) -> Result<(), StoreError>
        requires { IsIncreasing literals.now }
        ensures stored { (clause : List ℕ) → literals.now ≡ canonical clause
            → FormulaEffect result self.old (with_stored redundant clause) self.new }
        ensures noted { OnOk result ((f : Stored) (clause hashes : List ℕ) → RepresentsFormula self.old f → HasNoStoredUnitClause f
            → literals.now ≡ canonical clause
            → (IsTrue notes.old.listening → notes.old.rests_on.ids.items ≡ propagations f clause hashes)
            → AppendsAnnouncements notes.old (announced_derived redundant clause hashes f) notes.new) }
        ensures looks { LooksOver (RepresentsFormula self.old) stored_literal_count looks.old looks.new }
    {
        let id = self.status.next_id;
        let change = self.store_clause(redundant, literals, looks)?;
        notes.derived(change, id, redundant, literals)?;
        Ok(())
    }

    /// Checks the unit `lit` by propagation over the clauses with the hash `hash`, and stores the unit if it passes.
    /// Returns `true` if the unit passes. Returns an error only if the unit would otherwise pass.
    fn store_checked(
        &mut self,
        lit: Lit,
        hash: ClauseHash,
        notes: &mut Notes,
        looks: &mut Looks,
    ) -> Result<bool, StoreError>
        ensures decides { (f : Stored) → RepresentsFormula self.old f
            → DecidesChange result (PassesByHashes f (lit ∷ []) (hash ∷ [])) (RepresentsFormula self.new (with_unit lit f))
            (with_unit lit f) }
        ensures kept { OnErr result ((f : Stored) → HasCheckData self.old f → HasCheckData self.new f) }
        ensures noted { IfOk result (λ passes. IsTrue passes → (f : Stored) → RepresentsFormula self.old f → HasNoStoredUnitClause f
            → AppendsAnnouncements notes.old (announced_derived false (lit ∷ []) (hash ∷ []) f) notes.new) }
        ensures listening { notes.new.listening ≡ notes.old.listening }
        ensures looks { LooksOver (RepresentsFormula self.old) (λ f. 2 * stored_literal_count f) looks.old looks.new }
    {
        if !self.check(&[lit], false, &[hash], notes.has_listener(), looks)? {
            return Ok(false);
        }
        self.note_unit(lit, notes, looks)?;
        self.store_unit_clause(lit)?;
        Ok(true)
    }

    /// Returns `true` if every unit after the first passes, given the units before it. The units are not stored.
    fn pass_in_turn(
        &mut self,
        units: &[(Lit, ClauseHash)],
        looks: &mut Looks,
    ) -> Result<bool, AllocError>
        ensures exact { IfOk result (λ pass. (f : Stored) → HasCheckData self.old f
            → IsTrue pass ↔ OtherUnitsPassInTurn f units.now) }
        ensures short { OnErr result ((f : Stored) → HasCheckData self.old f → ⊥) }
        ensures looks { LooksOver (HasCheckData self.old)
            (λ f. (length units.now - 1) * stored_literal_count f) looks.old looks.new }
    {
        self.units
            .pass_in_turn(&self.store, units, &mut self.passed, looks)
    }

    /// Returns the error `fault`, which occurred at the first of the units, or false if a later unit is refused.
    fn fail_unless_refused(
        &mut self,
        fault: StoreError,
        units: &[(Lit, ClauseHash)],
        looks: &mut Looks,
    ) -> Result<bool, StoreError>
        ensures exact { (f : Stored) → HasCheckData self.old f → MatchResult result
            (λ passes. (passes ≡ false) × (OtherUnitsPassInTurn f units.now → ⊥))
            (λ e. (e ≡ fault) × OtherUnitsPassInTurn f units.now) }
        ensures never { IfOk result (λ passes. passes ≡ false) }
        ensures looks { LooksOver (HasCheckData self.old)
            (λ f. (length units.now - 1) * stored_literal_count f) looks.old looks.new }
    {
        if !self.pass_in_turn(units, looks)? {
            return Ok(false);
        }
        Err(fault)
    }

    /// Checks and stores units, one after another. Returns `true` if all units pass.
    pub fn store_units(
        &mut self,
        units: &[(Lit, ClauseHash)],
        notes: &mut Notes,
        looks: &mut Looks,
    ) -> Result<bool, StoreError>
        ensures decides { (f : Stored) → RepresentsFormula self.old f
            → DecidesChange result (UnitsPassInTurn f units.now) (RepresentsFormula self.new (with_units (map (λ u. u.0) units.now) f))
            (with_units (map (λ u. u.0) units.now) f) }
        ensures noted { IfOk result (λ passes. IsTrue passes → (f : Stored) → RepresentsFormula self.old f → HasNoStoredUnitClause f
            → AppendsAnnouncements notes.old (announced_derived_units units.now f) notes.new) }
        ensures looks { LooksOver (RepresentsFormula self.old)
            (λ f. length units.now * (2 * stored_literal_count f)) looks.old looks.new }
    {
        for place in 0..units.len() {
            let unit = units[place];
            match self.store_checked(unit.0, unit.1, notes, looks) {
                Ok(true) => {}
                Ok(false) => return Ok(false),
                Err(fault) => {
                    let (_, left) = units.split_at(place);
                    return self.fail_unless_refused(fault, left, looks);
                }
            }
        }
        Ok(true)
    }

    /// Subtracts one from a count of the clause with the sorted literals `literals`: from the redundant count if
    /// `redundant` is true, and from the irredundant count otherwise. Returns `false` if the clause is not stored or
    /// this count is zero.
    fn take_count(&mut self, redundant: bool, literals: &[Lit], looks: &mut Looks) -> bool
        ensures decides { (f : Stored) → RepresentsFormula self.old f
            → RemovesCountOrRefuses result redundant literals.now f (RepresentsFormula self.new (with_count_removed redundant literals.now f)) }
        ensures looks { LooksOver (RepresentsFormula self.old) stored_literal_count looks.old looks.new }
    {
        self.store.delete_clause(redundant, literals, looks)
    }

    /// Drops the removed clauses from memory if there are many. If memory runs out, all clauses are kept.
    pub fn compact(&mut self, looks: &mut Looks) -> Result<(), AllocError>
        ensures kept { (f : Stored) → RepresentsFormula self.old f → RepresentsFormula self.new f }
        ensures looks { LooksOver (RepresentsFormula self.old) stored_literal_count looks.old looks.new }
    {
        self.store.compact(looks)
    }

    /// Deletes a clause for the reason `proof`. Returns `true` if the deletion is allowed. `literals` must be the
    /// literals of `clause`, sorted and without repeats.
    pub fn delete(
        &mut self,
        clause: &[Lit],
        proof: DeleteClauseProof,
        literals: &[Lit],
        looks: &mut Looks,
    ) -> bool
        requires { literals.now ≡ canonical clause.now }
        ensures decides { DeletionEffect result self.old (DeleteClause clause.now (deletion_of proof)) self.new }
        ensures looks { LooksOver (RepresentsFormula self.old) (λ f. 2 * stored_literal_count f) looks.old looks.new }
    {
        match proof {
            DeleteClauseProof::Redundant => self.delete_redundant(clause, literals, looks),
            DeleteClauseProof::Satisfied => self.delete_satisfied(clause, literals, looks),
            DeleteClauseProof::Simplified => self.delete_simplified(clause, literals, looks),
        }
    }

    /// Deletes a redundant clause whose literals are not in increasing order, if there is no listener, `proof` is
    /// `Redundant`, and `delete_marked` can delete it. Returns `true` if it is deleted. Otherwise, no clause changes.
    #[inline(always)]
    pub fn delete_given(
        &mut self,
        clause: &[Lit],
        proof: DeleteClauseProof,
        listening: bool,
        looks: &mut Looks,
    ) -> bool
        ensures decides { (f : Stored) → RepresentsFormula self.old f → MatchBool result
            (DeletionIsAccepted self.new f (DeleteClause clause.now (deletion_of proof))) (RepresentsFormula self.new f) }
        ensures looks { LooksOver (RepresentsFormula self.old) stored_literal_count looks.old looks.new }
        ensures quiet { listening ≡ true → looks.new ≡ looks.old }
        ensures unannounced { result ≡ true → listening ≡ false }
    {
        if listening || is_strictly_increasing(clause) {
            return false;
        }
        match proof {
            DeleteClauseProof::Redundant => self.delete_marked(clause, looks),
            DeleteClauseProof::Satisfied | DeleteClauseProof::Simplified => false,
        }
    }

    /// Deletes a redundant clause if it is the first with its hash, and there is room for its literals, which must not
    /// repeat. Returns `true` if it is deleted. Otherwise, no clause changes.
    fn delete_marked(&mut self, clause: &[Lit], looks: &mut Looks) -> bool
        ensures decides { (f : Stored) → RepresentsFormula self.old f → MatchBool result
            (DeletionIsAccepted self.new f (DeleteClause clause.now Redundant)) (RepresentsFormula self.new f) }
        ensures looks { LooksOver (RepresentsFormula self.old) stored_literal_count looks.old looks.new }
    {
        if !self.mark_distinct(clause) {
            return false;
        }
        self.store.delete_assumed(&self.marks, looks)
    }

    /// Marks the literals of a clause, up to one for which there is no room or that is repeated. Returns `true` if this
    /// marks all of them, and then no other literal is marked.
    fn mark_distinct(&mut self, clause: &[Lit]) -> bool
        ensures marked { result ≡ true → self.new.marks.literals ≡ reverse clause.now }
        ensures rest { DiffersInNotesAndRoom self.old self.new }
    {
        self.marks.undo_to(0);
        assume_distinct(&mut self.marks, clause)
    }

    /// Deletes a redundant clause. Returns `true` if the deletion is allowed.
    fn delete_redundant(&mut self, clause: &[Lit], literals: &[Lit], looks: &mut Looks) -> bool
        requires { literals.now ≡ canonical clause.now }
        ensures decides { DeletionEffect result self.old (DeleteClause clause.now Redundant) self.new }
        ensures looks { LooksOver (RepresentsFormula self.old) stored_literal_count looks.old looks.new }
    {
        self.take_count(true, literals, looks)
    }

    /// Deletes an irredundant clause that a unit satisfies. Returns `true` if the deletion is allowed.
    fn delete_satisfied(&mut self, clause: &[Lit], literals: &[Lit], looks: &mut Looks) -> bool
        requires { literals.now ≡ canonical clause.now }
        ensures decides { DeletionEffect result self.old (DeleteClause clause.now Satisfied) self.new }
        ensures looks { LooksOver (RepresentsFormula self.old) stored_literal_count looks.old looks.new }
    {
        if !self.units.has_any(clause) {
            return false;
        }
        self.take_count(false, literals, looks)
    }

    /// Returns `true` if the last irredundant clause stored is still stored, and its literals are a proper subset of
    /// `literals`, which must be sorted.
    fn has_last_within(&self, literals: &[Lit], looks: &mut Looks) -> bool
        requires { IsIncreasing literals.now }
        ensures part { (f : Stored) → RepresentsFormula self.now f
            → MatchBool result (IsStrictSubset (last_literals f.last f) literals.now)
            (IsStrictSubset (last_literals f.last f) literals.now → ⊥) }
        ensures looks { LooksOver (RepresentsFormula self.now) stored_literal_count looks.old looks.new }
    {
        match self.status.last {
            LastClause::NoneYet => false,
            LastClause::Empty(_) => is_subset(&[], literals, true),
            LastClause::Single(id, lit) => {
                if self.units.id(lit) != Some(id) {
                    return false;
                }
                is_subset(&[lit], literals, true)
            }
            LastClause::Long(id) => self.store.has_strict_part(id, literals, looks),
        }
    }

    /// Deletes an irredundant clause whose literals properly include those of the last irredundant clause stored.
    /// Returns `true` if the deletion is allowed.
    fn delete_simplified(&mut self, clause: &[Lit], literals: &[Lit], looks: &mut Looks) -> bool
        requires { literals.now ≡ canonical clause.now }
        ensures decides { DeletionEffect result self.old (DeleteClause clause.now Simplified) self.new }
        ensures looks { LooksOver (RepresentsFormula self.old) (λ f. 2 * stored_literal_count f) looks.old looks.new }
    {
        if !self.has_last_within(literals, looks) {
            return false;
        }
        self.take_count(false, literals, looks)
    }

    /// Removes the unit of a variable that is being deleted, if there is one, and records that a variable was deleted.
    pub fn forget(&mut self, var: Var)
        ensures { (f : Stored) → RepresentsFormula (rehashed_in self.old) f
            → RepresentsFormula (rehashed_in self.new) (without_variable var f) }
    {
        self.units.forget(var);
        self.status.var_deleted = true;
    }
}
