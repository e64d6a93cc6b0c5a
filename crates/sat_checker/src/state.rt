//! The checker's state, and how each step changes it.
ghost use Rattle.std.specs.Prelude.{ℕ, List, ◌≡◌, ◌+◌, ◌*◌, false, None, Some, MatchBool, OnErr, OnOk};
ghost use Rattle.sat_checker.specs.Stored.{Stored, nothing_stored};
ghost use Rattle.sat_checker.specs.Looks.{stored_literal_count};
ghost use Rattle.sat_checker.specs.Accepts.{CanBeDeleted, CanBeAdded};
ghost use Rattle.sat_base.specs.steps.Steps.{SolverVarName, UserVarName, ChangeSamplingMode, AddClause, AtClause};
ghost use Rattle.sat_base.specs.steps.Steps.{ChangeHashBits, Assumptions, End, UnitClauses, DeleteClause, Model};
ghost use Rattle.sat_base.specs.steps.Steps.{FailedAssumptions, DeleteVar};
ghost use Rattle.sat_base.specs.steps.StepViews.{deletion_of, step_of};
ghost use Rattle.sat_checker.specs.announcements.Announcements.{announced_derived, announced_input};
ghost use Rattle.sat_checker.specs.inner.FormulaView.{NotesExplainCheck};
ghost use Rattle.sat_checker.specs.inner.LookCounts.{LooksOver};
ghost use Rattle.sat_checker.specs.inner.Reasons.{noted_length};
ghost use Rattle.sat_checker.specs.inner.StateView.{RepresentsStored, RepresentsFiled, ChangesStored};
ghost use Rattle.sat_checker.specs.inner.StateView.{with_added_clause};
ghost use Rattle.sat_checker.specs.inner.StateView.{with_derived};
ghost use Rattle.sat_checker.specs.inner.StateView.{DecidesStep, KeepsDataUnlessAccepted, LooksWithin};
ghost use Rattle.sat_checker.specs.inner.VariablesView.{KeepsVariableData};
ghost use Rattle.sat_checker.specs.listeners.AnnouncingView.{HasNoStoredUnitClause};
ghost use Rattle.sat_checker.specs.listeners.NotedView.{Announces, AppendsAnnouncements};

pub(crate) mod lit_set;
pub(crate) mod status;

use crate::announce::notes::Notes;
use crate::formula::Formula;
use crate::looks::Looks;
use crate::sorted_lits::{copy_negated, sorted_set};
use crate::state::lit_set::LitSet;
use crate::store::StoreError;
use crate::variables::Variables;
use sat_base::{ClauseHash, DeleteClauseProof, HashBits, Lit, ProofStep, Var};
use std::alloc::Global;

/// Everything on which the verdict on a step depends.
#[derive(Drop)]
pub(crate) struct CheckerState {
    pub(crate) alloc: Global,
    pub(crate) formula: Formula,
    pub(crate) variables: Variables,
    pub(crate) assumed: LitSet,
    /// A buffer for the sorted literals of a clause.
    pub(crate) buffer: Vec<Lit>,
}

impl CheckerState {
    /// Checks a `SolverVarName` step. If it is accepted, applies it and returns `true`.
    fn solver_var_name(&mut self, var: Var, name: Option<Var>) -> Result<bool, StoreError>
        ensures decides { DecidesStep result self.old (SolverVarName var name) self.new }
        ensures kept { KeepsDataUnlessAccepted result self.old self.new }
    {
        if let Some(solver) = name {
            self.formula.store.set_solver_name(var, Some(solver))?;
            self.variables.learn_var(var)?;
            return Ok(true);
        }
        self.formula.store.set_solver_name(var, None)?;
        Ok(true)
    }

    /// Checks a `UserVarName` step. If it is accepted, applies it and returns `true`.
    fn user_var_name(
        &mut self,
        var: Var,
        user: Option<Var>,
        notes: &mut Notes,
    ) -> Result<bool, StoreError>
        ensures decides { DecidesStep result self.old (UserVarName var user) self.new }
        ensures kept { KeepsDataUnlessAccepted result self.old self.new }
        ensures noted { Announces result self.old (UserVarName var user) notes.old notes.new }
    {
        if !self.variables.may_rename(var, user) {
            return Ok(false);
        }
        let before = self.variables.data(var);
        let more = if before.known { 0 } else { 2 };
        self.formula.grant(more);
        notes.renaming(var, user, before)?;
        if !self.variables.rename(var, user)? {
            return Ok(false);
        }
        Ok(true)
    }

    /// Checks a `ChangeSamplingMode` step. If it is accepted, applies it and returns `true`.
    fn change_sampling_mode(
        &mut self,
        var: Var,
        sample: bool,
        notes: &mut Notes,
    ) -> Result<bool, StoreError>
        ensures decides { DecidesStep result self.old (ChangeSamplingMode var sample) self.new }
        ensures kept { KeepsDataUnlessAccepted result self.old self.new }
        ensures noted { Announces result self.old (ChangeSamplingMode var sample) notes.old notes.new }
    {
        let before = self.variables.data(var);
        if !before.known {
            return Ok(false);
        }
        notes.mode_change(var, sample, before)?;
        if !self.variables.set_mode(var, sample)? {
            return Ok(false);
        }
        Ok(true)
    }

    /// Checks an `AddClause` step. If it is accepted, applies it and returns `true`.
    fn add_clause(
        &mut self,
        clause: &[Lit],
        notes: &mut Notes,
        looks: &mut Looks,
    ) -> Result<bool, StoreError>
        ensures decides { DecidesStep result self.old (AddClause clause.now) self.new }
        ensures kept { KeepsDataUnlessAccepted result self.old self.new }
        ensures looks { LooksWithin self.old (AddClause clause.now) looks.old looks.new }
        ensures noted { Announces result self.old (AddClause clause.now) notes.old notes.new }
    {
        if self.formula.status.unsat {
            return Ok(true);
        }
        if !self.variables.are_sampling(clause) {
            return Ok(false);
        }
        self.formula.rehash_if_needed(looks);
        self.store_input(clause, notes, looks)?;
        Ok(true)
    }

    /// Stores an input clause, and notes its announcement.
    fn store_input(
        &mut self,
        clause: &[Lit],
        notes: &mut Notes,
        looks: &mut Looks,
    ) -> Result<(), StoreError>
        ensures stored { ChangesStored result self.old (with_added_clause clause.now) self.new }
        ensures kept { OnErr result (KeepsVariableData self.old.variables self.new.variables) }
        ensures noted { OnOk result ((f : Stored) → RepresentsFiled self.old f
            → AppendsAnnouncements notes.old (announced_input clause.now f) notes.new) }
        ensures looks { LooksOver (RepresentsFiled self.old) (λ f. 2 * stored_literal_count f) looks.old looks.new }
    {
        let literals = sorted_set(&mut self.buffer, clause)?;
        self.formula.note_input(literals, notes, looks)?;
        self.formula.store_input(literals, looks)?;
        self.variables.learn(clause)?;
        Ok(())
    }

    /// Checks an `AtClause` step. If it is accepted, applies it and returns `true`.
    fn at_clause(
        &mut self,
        redundant: bool,
        clause: &[Lit],
        hashes: &[ClauseHash],
        notes: &mut Notes,
        looks: &mut Looks,
    ) -> Result<bool, StoreError>
        ensures decides { DecidesStep result self.old (AtClause redundant clause.now hashes.now) self.new }
        ensures kept { KeepsDataUnlessAccepted result self.old self.new }
        ensures looks { LooksWithin self.old (AtClause redundant clause.now hashes.now) looks.old looks.new }
        ensures noted { Announces result self.old (AtClause redundant clause.now hashes.now) notes.old notes.new }
    {
        self.formula.rehash_if_needed(looks);
        if !self
            .formula
            .check(clause, false, hashes, notes.has_listener(), looks)?
        {
            return Ok(false);
        }
        self.store_derived(redundant, clause, notes, looks)?;
        Ok(true)
    }

    /// Stores a derived clause, and notes its announcement. The clause must be the one that passed the last
    /// propagation check.
    fn store_derived(
        &mut self,
        redundant: bool,
        clause: &[Lit],
        notes: &mut Notes,
        looks: &mut Looks,
    ) -> Result<(), StoreError>
        requires { self.old.formula.passed.lost ≡ false
            → (hashes : List ℕ) × NotesExplainCheck self.old.formula clause.now hashes }
        ensures stored { ChangesStored result self.old (with_derived redundant clause.now) self.new }
        ensures kept { OnErr result (KeepsVariableData self.old.variables self.new.variables) }
        ensures noted { OnOk result ((f : Stored) (hashes : List ℕ) → RepresentsFiled self.old f → HasNoStoredUnitClause f
            → (self.old.formula.passed.lost ≡ false → NotesExplainCheck self.old.formula clause.now hashes)
            → AppendsAnnouncements notes.old (announced_derived redundant clause.now hashes f) notes.new) }
        ensures looks { LooksOver (RepresentsFiled self.old)
            (λ f. noted_length self.old.formula.store.clauses self.old.formula.passed + stored_literal_count f)
            looks.old looks.new }
    {
        let literals = sorted_set(&mut self.buffer, clause)?;
        self.formula
            .note_propagations(clause, literals, notes, looks)?;
        self.formula
            .store_derived(redundant, literals, notes, looks)?;
        self.variables.learn(clause)?;
        Ok(())
    }

    /// Applies a `ChangeHashBits` step, which is always accepted, and returns `true`.
    fn change_hash_bits(&mut self, bits: HashBits) -> Result<bool, StoreError>
        ensures decides { DecidesStep result self.old (ChangeHashBits bits) self.new }
        ensures kept { KeepsDataUnlessAccepted result self.old self.new }
    {
        self.formula.store.set_bits(bits);
        Ok(true)
    }

    /// Applies an `Assumptions` step, which is always accepted, and returns `true`.
    fn assumptions(&mut self, literals: &[Lit], notes: &mut Notes) -> Result<bool, StoreError>
        ensures decides { DecidesStep result self.old (Assumptions literals.now) self.new }
        ensures kept { KeepsDataUnlessAccepted result self.old self.new }
        ensures noted { Announces result self.old (Assumptions literals.now) notes.old notes.new }
    {
        self.assumed.replace(literals)?;
        notes.assumptions(literals)?;
        self.variables.learn(literals)?;
        Ok(true)
    }

    /// Applies an `End` step, which is always accepted, and returns `true`.
    fn end(&mut self) -> Result<bool, StoreError>
        ensures decides { DecidesStep result self.old End self.new }
        ensures kept { KeepsDataUnlessAccepted result self.old self.new }
    {
        self.formula.status.ended = true;
        Ok(true)
    }

    /// Checks a `UnitClauses` step. If it is accepted, applies it and returns `true`.
    fn unit_clauses(
        &mut self,
        units: &[(Lit, ClauseHash)],
        notes: &mut Notes,
        looks: &mut Looks,
    ) -> Result<bool, StoreError>
        ensures decides { DecidesStep result self.old (UnitClauses units.now) self.new }
        ensures kept { KeepsDataUnlessAccepted result self.old self.new }
        ensures looks { LooksWithin self.old (UnitClauses units.now) looks.old looks.new }
        ensures noted { Announces result self.old (UnitClauses units.now) notes.old notes.new }
    {
        self.formula.rehash_if_needed(looks);
        if !self.formula.store_units(units, notes, looks)? {
            return Ok(false);
        }
        self.variables.learn_units(units)?;
        Ok(true)
    }

    /// Checks a `DeleteClause` step, and applies it if it is accepted. If there is no memory for the clause's sorted
    /// literals, returns `OutOfMemory` only if the step would otherwise be accepted.
    fn delete_clause(
        &mut self,
        clause: &[Lit],
        proof: DeleteClauseProof,
        notes: &mut Notes,
        looks: &mut Looks,
    ) -> Result<bool, StoreError>
        ensures decides { DecidesStep result self.old (DeleteClause clause.now (deletion_of proof)) self.new }
        ensures kept { KeepsDataUnlessAccepted result self.old self.new }
        ensures looks { LooksWithin self.old (DeleteClause clause.now (deletion_of proof)) looks.old looks.new }
        ensures noted { Announces result self.old (DeleteClause clause.now (deletion_of proof)) notes.old notes.new }
    {
        self.formula.rehash_if_needed(looks);
        if self
            .formula
            .delete_given(clause, proof, notes.has_listener(), looks)
        {
            self.formula.compact(looks)?;
            return Ok(true);
        }
        let Ok(literals) = sorted_set(&mut self.buffer, clause) else {
            return self.formula.fail_if_deletable(clause, proof, looks);
        };
        let deletion = self.formula.deletion(notes, literals, proof, looks);
        if !self.formula.delete(clause, proof, literals, looks) {
            return Ok(false);
        }
        notes.deleted(literals, deletion)?;
        self.formula.compact(looks)?;
        Ok(true)
    }

    /// Checks a `Model` step. If it is accepted, applies it and returns `true`.
    fn model(
        &mut self,
        assignment: &[Lit],
        notes: &mut Notes,
        looks: &mut Looks,
    ) -> Result<bool, StoreError>
        ensures decides { DecidesStep result self.old (Model assignment.now) self.new }
        ensures kept { KeepsDataUnlessAccepted result self.old self.new }
        ensures looks { LooksWithin self.old (Model assignment.now) looks.old looks.new }
        ensures noted { Announces result self.old (Model assignment.now) notes.old notes.new }
    {
        if !self.formula.fits(assignment, looks)? {
            return Ok(false);
        }
        notes.model(assignment)?;
        self.variables.learn(assignment)?;
        Ok(true)
    }

    /// Checks a `FailedAssumptions` step. If it is accepted, applies it and returns `true`.
    fn failed_assumptions(
        &mut self,
        core: &[Lit],
        hashes: &[ClauseHash],
        notes: &mut Notes,
        looks: &mut Looks,
    ) -> Result<bool, StoreError>
        ensures decides { DecidesStep result self.old (FailedAssumptions core.now hashes.now) self.new }
        ensures kept { KeepsDataUnlessAccepted result self.old self.new }
        ensures looks { LooksWithin self.old (FailedAssumptions core.now hashes.now) looks.old looks.new }
        ensures noted { Announces result self.old (FailedAssumptions core.now hashes.now) notes.old notes.new }
    {
        if !self.assumed.has_all(core) {
            return Ok(false);
        }
        self.formula.rehash_if_needed(looks);
        if !self
            .formula
            .check(core, true, hashes, notes.has_listener(), looks)?
        {
            return Ok(false);
        }
        copy_negated(&mut self.buffer, core)?;
        self.formula.note_core(core, &self.buffer, notes, looks)?;
        Ok(true)
    }

    /// Checks a `DeleteVar` step. If it is accepted, applies it and returns `true`. Counts no looks.
    fn delete_var(&mut self, var: Var, notes: &mut Notes) -> Result<bool, StoreError>
        ensures decides { DecidesStep result self.old (DeleteVar var) self.new }
        ensures kept { KeepsDataUnlessAccepted result self.old self.new }
        ensures noted { Announces result self.old (DeleteVar var) notes.old notes.new }
    {
        if !self.may_delete(var) {
            return Ok(false);
        }
        notes.var_deleted(var)?;
        self.formula.forget(var);
        self.variables.forget(var);
        Ok(true)
    }

    /// Returns `true` if the variable can be deleted: it is known, has no name, isn't assumed, and is in no stored
    /// clause of two or more literals.
    fn may_delete(&self, var: Var) -> bool
        ensures { (f : Stored) → RepresentsStored self.now f
            → MatchBool result (CanBeDeleted f var) (CanBeDeleted f var → ⊥) }
    {
        let data = self.variables.data(var);
        if !data.known {
            return false;
        }
        if data.name.get().is_some() {
            return false;
        }
        if self.assumed.mentions(var) {
            return false;
        }
        !self.formula.store.mention(var)
    }

    /// Creates a state in which nothing is stored.
    pub fn new(alloc: Global) -> CheckerState
        ensures { RepresentsStored result nothing_stored }
    {
        CheckerState {
            alloc,
            formula: Formula::new(alloc),
            variables: Variables::new(alloc),
            assumed: LitSet::new(alloc),
            buffer: Vec::new(alloc),
        }
    }

    /// Checks a step, and applies it if it is accepted. Returns `true` if the step is accepted, and notes its
    /// announcements.
    pub fn check_step(
        &mut self,
        step: &ProofStep<'_>,
        notes: &mut Notes,
        looks: &mut Looks,
    ) -> Result<bool, StoreError>
        ensures decides { DecidesStep result self.old (step_of step.now) self.new }
        ensures kept { KeepsDataUnlessAccepted result self.old self.new }
        ensures looks { LooksWithin self.old (step_of step.now) looks.old looks.new }
        ensures noted { Announces result self.old (step_of step.now) notes.old notes.new }
    {
        match *step {
            ProofStep::SolverVarName { global, solver } => self.solver_var_name(global, solver),
            ProofStep::UserVarName { global, user } => self.user_var_name(global, user, notes),
            ProofStep::DeleteVar { var } => self.delete_var(var, notes),
            ProofStep::ChangeSamplingMode { var, sample } => {
                self.change_sampling_mode(var, sample, notes)
            }
            ProofStep::AddClause { clause } => self.add_clause(clause, notes, looks),
            ProofStep::AtClause {
                redundant,
                clause,
                propagation_hashes,
            } => self.at_clause(redundant, clause, propagation_hashes, notes, looks),
            ProofStep::UnitClauses { units } => self.unit_clauses(units, notes, looks),
            ProofStep::DeleteClause { clause, proof } => {
                self.delete_clause(clause, proof, notes, looks)
            }
            ProofStep::ChangeHashBits { bits } => self.change_hash_bits(bits),
            ProofStep::Model { assignment } => self.model(assignment, notes, looks),
            ProofStep::Assumptions { assumptions } => self.assumptions(assumptions, notes),
            ProofStep::FailedAssumptions {
                failed_core,
                propagation_hashes,
            } => self.failed_assumptions(failed_core, propagation_hashes, notes, looks),
            ProofStep::End => self.end(),
        }
    }

    /// Returns `true` if a clause of the formula is accepted: unsat is recorded, or every variable of the clause is
    /// unknown or has the mode sample.
    pub fn may_add(&self, clause: &[Lit]) -> bool
        ensures { (f : Stored) → RepresentsStored self.now f
            → MatchBool result (CanBeAdded f clause.now) (CanBeAdded f clause.now → ⊥) }
    {
        self.formula.status.unsat || self.variables.are_sampling(clause)
    }
}
