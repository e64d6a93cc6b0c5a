//! Notes on what a step announces, which are made only if there is a listener. The notes on a refused step
//! are meaningless.
ghost use Rattle.std.specs.Prelude.{ℕ, Bool, false, ◌≡◌, ◌∷◌, [], List, OnOk, IsTrue, map};
ghost use Rattle.sat_base.specs.steps.Steps.{DeleteClause, FailedAssumptions};
ghost use Rattle.sat_base.specs.steps.StepViews.{deletion_of};
ghost use Rattle.sat_base.specs.values.Literals.{negated};
ghost use Rattle.sat_checker.specs.LiteralSets.{canonical};
ghost use Rattle.sat_checker.specs.Looks.{stored_literal_count};
ghost use Rattle.sat_checker.specs.Stored.{Stored};
ghost use Rattle.sat_checker.specs.announcements.Announcements as announcements;
ghost use Rattle.sat_checker.specs.announcements.Announcements.{announced, announced_derived, announced_derived_set};
ghost use Rattle.sat_checker.specs.announcements.Announcements.{id_of_set, announced_input};
ghost use Rattle.sat_checker.specs.announcements.Announcements.{announced_mode_change, announced_name_change};
ghost use Rattle.sat_checker.specs.announcements.Needed.{propagations};
ghost use Rattle.sat_checker.specs.inner.FormulaView.{NotesExplainCheck, RepresentsFormula};
ghost use Rattle.sat_checker.specs.inner.LookCounts.{LooksOver, LooksUpTo};
ghost use Rattle.sat_checker.specs.inner.Marks.{IsIncreasing};
ghost use Rattle.sat_checker.specs.inner.Reasons.{noted_length};
ghost use Rattle.sat_checker.specs.inner.VariablesView.{mode_in, variable_of_data};
ghost use Rattle.sat_checker.specs.listeners.AnnouncingView.{announced_change, deletion_announced};
ghost use Rattle.sat_checker.specs.listeners.AnnouncingView.{HasNoStoredUnitClause};
ghost use Rattle.sat_checker.specs.listeners.NotedView.{AppendsAnnouncements};

use crate::announce::pending::PendingAnnouncements;
use crate::announce::step_announcements::{Deletion, StoreClauseResult};
use crate::formula::Formula;
use crate::looks::Looks;
use crate::rup::propagations::Propagations;
use crate::sorted_lits::{copy_canonical, has_both_signs};
use crate::variables::VarData;
use sat_base::{DeleteClauseProof, Lit, Var};
use std::alloc::{AllocError, Global};

/// Notes on what a step announces.
#[derive(Drop)]
pub(crate) struct Notes {
    /// Whether there is a listener. If there is none, nothing is noted.
    listening: bool,
    pub(crate) news: PendingAnnouncements,
    rests_on: Propagations,
    /// A buffer for sorted literals.
    literals: Vec<Lit>,
}

impl Notes {
    /// Creates empty notes, without a listener.
    pub fn new(alloc: Global) -> Notes
        ensures listening { result.listening ≡ false }
        ensures none { result.news ≡ [] }
    {
        Notes {
            listening: false,
            news: PendingAnnouncements::new(alloc),
            rests_on: Propagations::new(alloc),
            literals: Vec::new(alloc),
        }
    }

    /// Returns `true` if a listener needs the notes.
    #[inline(always)]
    pub fn has_listener(&self) -> bool
        ensures { result ≡ self.now.listening }
    {
        self.listening
    }

    /// Starts the notes on a step. `listening` says whether there is a listener; if there is, earlier notes are
    /// removed.
    pub fn begin(&mut self, listening: bool)
        ensures listening { self.new.listening ≡ listening }
        ensures none { IsTrue listening → self.new.news ≡ [] }
    {
        self.listening = listening;
        if listening {
            self.news.clear();
        }
    }

    /// Notes that `var`, whose data was `before`, gets the name `user`, or loses its name if `user` is `None`.
    pub fn renaming(
        &mut self,
        var: Var,
        user: Option<Var>,
        before: VarData,
    ) -> Result<(), AllocError>
        ensures { OnOk result (AppendsAnnouncements self.old (announced_name_change var user (variable_of_data before)) self.new) }
    {
        if !self.listening {
            return Ok(());
        }
        self.news.renaming(var, user, before)
    }

    /// Notes that the mode of `var`, whose data was `before`, becomes sample if `sampling` is true, and witness
    /// otherwise. Notes nothing if this change is not announced.
    pub fn mode_change(
        &mut self,
        var: Var,
        sampling: bool,
        before: VarData,
    ) -> Result<(), AllocError>
        ensures { OnOk result (AppendsAnnouncements self.old (announced_mode_change var sampling (mode_in before.mode) before.name)
            self.new) }
    {
        if !self.listening {
            return Ok(());
        }
        self.news.mode_change(var, sampling, before)
    }

    /// Notes that a variable was deleted.
    pub fn var_deleted(&mut self, var: Var) -> Result<(), AllocError>
        ensures { OnOk result (AppendsAnnouncements self.old (announcements.DeleteVar var ∷ []) self.new) }
    {
        if !self.listening {
            return Ok(());
        }
        self.news.delete_var(var)
    }

    /// Notes the announcement of a derived clause with the sorted literals `literals`, if `change`, the change to what
    /// is stored, requires one. `rests_on` must already list the ids of the clauses from which the derived
    /// clause follows.
    #[inline(always)]
    pub fn derived(
        &mut self,
        change: StoreClauseResult,
        id: u64,
        redundant: bool,
        literals: &[Lit],
    ) -> Result<(), AllocError>
        ensures { OnOk result (AppendsAnnouncements self.old
            (announced_change change id redundant literals.now self.old.rests_on.ids.items) self.new) }
    {
        if !self.listening {
            return Ok(());
        }
        self.news
            .derived(change, id, redundant, literals, self.rests_on.ids())
    }

    /// Notes the announcement, if any, of the deletion `deletion` of the clause with the literals `literals`.
    pub fn deleted(&mut self, literals: &[Lit], deletion: Deletion) -> Result<(), AllocError>
        ensures { OnOk result (AppendsAnnouncements self.old (deletion_announced literals.now deletion) self.new) }
    {
        if !self.listening {
            return Ok(());
        }
        self.news.deleted(literals, deletion)
    }

    /// Notes a model.
    pub fn model(&mut self, assignment: &[Lit]) -> Result<(), AllocError>
        ensures { OnOk result (AppendsAnnouncements self.old (announcements.Model assignment.now ∷ []) self.new) }
    {
        if !self.listening {
            return Ok(());
        }
        self.news.model(assignment)
    }

    /// Notes assumptions.
    pub fn assumptions(&mut self, assumptions: &[Lit]) -> Result<(), AllocError>
        ensures { OnOk result (AppendsAnnouncements self.old (announcements.Assumptions assumptions.now ∷ []) self.new) }
    {
        if !self.listening {
            return Ok(());
        }
        self.news.assumptions(assumptions)
    }
}

impl Formula {
    /// Notes the announcement of an input clause with the sorted literals `literals`, before the clause is stored.
    pub fn note_input(
        &self,
        literals: &[Lit],
        notes: &mut Notes,
        looks: &mut Looks,
    ) -> Result<(), AllocError>
        requires { IsIncreasing literals.now }
        ensures noted { OnOk result ((f : Stored) (clause : List ℕ) → RepresentsFormula self.now f
            → literals.now ≡ canonical clause → AppendsAnnouncements notes.old (announced_input clause f) notes.new) }
        ensures looks { LooksOver (RepresentsFormula self.now) stored_literal_count looks.old looks.new }
    {
        if !notes.listening {
            return Ok(());
        }
        let both_signs = has_both_signs(literals);
        let same = self.id_of_set(literals, looks);
        notes
            .news
            .input(self.status.next_id, literals, both_signs, same)
    }

    /// Returns what the announcement of a deletion depends on. `literals` must be the sorted literals of the clause.
    /// The result is meaningful only if there is a listener.
    #[inline(always)]
    pub fn deletion(
        &self,
        notes: &Notes,
        literals: &[Lit],
        proof: DeleteClauseProof,
        looks: &mut Looks,
    ) -> Deletion
        ensures reported { IsTrue notes.now.listening → (f : Stored) → RepresentsFormula self.now f
            → (clause : List ℕ) → literals.now ≡ canonical clause
            → deletion_announced literals.now result ≡ announced f (DeleteClause clause (deletion_of proof)) }
        ensures looks { LooksOver (RepresentsFormula self.now) stored_literal_count looks.old looks.new }
        ensures quiet { notes.now.listening ≡ false → looks.new ≡ looks.old }
    {
        if !notes.listening {
            return Deletion {
                redundant: true,
                stored: None,
                from: None,
            };
        }
        self.find_deletion(literals, proof, looks)
    }

    /// Returns what `deletion` returns if there is a listener: looks up the clause, and the id of the clause from which
    /// it follows.
    #[inline(never)]
    fn find_deletion(
        &self,
        literals: &[Lit],
        proof: DeleteClauseProof,
        looks: &mut Looks,
    ) -> Deletion
        ensures reported { (f : Stored) → RepresentsFormula self.now f → (clause : List ℕ) → literals.now ≡ canonical clause
            → deletion_announced literals.now result ≡ announced f (DeleteClause clause (deletion_of proof)) }
        ensures looks { LooksOver (RepresentsFormula self.now) stored_literal_count looks.old looks.new }
    {
        let stored = self.store.stored(literals, looks);
        match proof {
            DeleteClauseProof::Redundant => Deletion {
                redundant: true,
                stored,
                from: None,
            },
            DeleteClauseProof::Satisfied => Deletion {
                redundant: false,
                stored,
                from: self.units.true_id(literals),
            },
            DeleteClauseProof::Simplified => Deletion {
                redundant: false,
                stored,
                from: self.status.last.id(),
            },
        }
    }

    /// If there is a listener, lists the ids of the clauses from which a derived clause follows. The clause must be the
    /// one that passed the last propagation check, and `literals` must be its sorted literals.
    #[inline(always)]
    pub fn note_propagations(
        &self,
        clause: &[Lit],
        literals: &[Lit],
        notes: &mut Notes,
        looks: &mut Looks,
    ) -> Result<(), AllocError>
        requires set { literals.now ≡ canonical clause.now }
        requires explained { self.now.passed.lost ≡ false → (hashes : List ℕ) × NotesExplainCheck self.now clause.now hashes }
        ensures listed { OnOk result ((f : Stored) (hashes : List ℕ) → RepresentsFormula self.now f
            → (self.now.passed.lost ≡ false → NotesExplainCheck self.now clause.now hashes) → IsTrue notes.old.listening
            → notes.new.rests_on.ids.items ≡ propagations f clause.now hashes) }
        ensures listening { notes.new.listening ≡ notes.old.listening }
        ensures news { notes.new.news ≡ notes.old.news }
        ensures looks { LooksUpTo (noted_length self.now.store.clauses self.now.passed) looks.old looks.new }
    {
        if !notes.listening {
            return Ok(());
        }
        notes.rests_on.list(
            &self.store,
            &self.units,
            &self.passed,
            clause,
            literals,
            looks,
        )
    }

    /// Returns what storing the unit `lit` would change.
    pub fn unit_change(&self, lit: Lit) -> StoreClauseResult
        ensures { (f : Stored) → RepresentsFormula self.now f → HasNoStoredUnitClause f → (redundant : Bool) (ids : List ℕ) →
            announced_change result f.next_id redundant (lit ∷ []) ids
            ≡ announced_derived_set redundant (lit ∷ []) ids f (id_of_set (lit ∷ []) f) }
    {
        match self.units.id(lit) {
            None => StoreClauseResult::New,
            Some(_) => StoreClauseResult::Duplicate,
        }
    }

    /// Notes the announcement of a derived unit, if there is one, before the unit is stored. The unit must be the
    /// clause that passed the last propagation check.
    pub fn note_unit(
        &self,
        lit: Lit,
        notes: &mut Notes,
        looks: &mut Looks,
    ) -> Result<(), AllocError>
        requires explained { self.now.passed.lost ≡ false → (hashes : List ℕ) × NotesExplainCheck self.now (lit ∷ []) hashes }
        ensures noted { OnOk result ((f : Stored) (hashes : List ℕ) → RepresentsFormula self.now f → HasNoStoredUnitClause f
            → (self.now.passed.lost ≡ false → NotesExplainCheck self.now (lit ∷ []) hashes)
            → AppendsAnnouncements notes.old (announced_derived false (lit ∷ []) hashes f) notes.new) }
        ensures listening { notes.new.listening ≡ notes.old.listening }
        ensures looks { LooksUpTo (noted_length self.now.store.clauses self.now.passed) looks.old looks.new }
    {
        if !notes.listening {
            return Ok(());
        }
        notes.rests_on.list(
            &self.store,
            &self.units,
            &self.passed,
            &[lit],
            &[lit],
            looks,
        )?;
        let change = self.unit_change(lit);
        let id = self.status.next_id;
        notes
            .news
            .derived(change, id, false, &[lit], notes.rests_on.ids())
    }

    /// Notes the announcement of a failed core. `denied` must be the clause that consists of the negations of the
    /// core's literals, and must have passed the last propagation check.
    pub fn note_core(
        &self,
        core: &[Lit],
        denied: &[Lit],
        notes: &mut Notes,
        looks: &mut Looks,
    ) -> Result<(), AllocError>
        requires denied { denied.now ≡ map negated core.now }
        requires explained { self.now.passed.lost ≡ false → (hashes : List ℕ) × NotesExplainCheck self.now denied.now hashes }
        ensures noted { OnOk result ((f : Stored) (hashes : List ℕ) → RepresentsFormula self.now f
            → (self.now.passed.lost ≡ false → NotesExplainCheck self.now denied.now hashes)
            → AppendsAnnouncements notes.old (announced f (FailedAssumptions core.now hashes)) notes.new) }
        ensures looks { LooksUpTo (noted_length self.now.store.clauses self.now.passed) looks.old looks.new }
    {
        if !notes.listening {
            return Ok(());
        }
        copy_canonical(&mut notes.literals, denied)?;
        notes.rests_on.list(
            &self.store,
            &self.units,
            &self.passed,
            denied,
            &notes.literals,
            looks,
        )?;
        copy_canonical(&mut notes.literals, core)?;
        notes
            .news
            .failed_assumptions(&notes.literals, notes.rests_on.ids())
    }
}
