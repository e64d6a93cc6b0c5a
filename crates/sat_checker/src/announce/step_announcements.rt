//! What a step announces, given what is stored and known before the step.
ghost use Rattle.std.specs.Prelude.{◌≡◌, ◌+◌, ◌++◌, ◌∷◌, [], OnOk, OnErr, if◌then◌else◌};
ghost use Rattle.sat_checker.specs.Looks.{stored_literal_count};
ghost use Rattle.sat_checker.specs.Stored.{Stored};
ghost use Rattle.sat_checker.specs.announcements.Announcements as announcements;
ghost use Rattle.sat_checker.specs.announcements.Announcements.{id_of_set, announced_input_set, irredundant_deletion};
ghost use Rattle.sat_checker.specs.announcements.Announcements.{is_sample, has_witness_mode, last_id};
ghost use Rattle.sat_checker.specs.announcements.Announcements.{announced_mode_change};
ghost use Rattle.sat_checker.specs.announcements.Announcements.{announced_name};
ghost use Rattle.sat_checker.specs.announcements.Announcements.{option_to_list, redundant_deletion};
ghost use Rattle.sat_checker.specs.announcements.Announcements.{announced_name_change};
ghost use Rattle.sat_checker.specs.inner.FormulaView.{last_in, RepresentsFormula};
ghost use Rattle.sat_checker.specs.inner.LookCounts.{LooksOver};
ghost use Rattle.sat_checker.specs.inner.StoreView.{found_clause};
ghost use Rattle.sat_checker.specs.inner.VariablesView.{mode_in, variable_of_data};
ghost use Rattle.sat_checker.specs.listeners.AnnouncementView.{is_sampling};
ghost use Rattle.sat_checker.specs.listeners.AnnouncingView.{announced_change, change_in, deletion_announced};

use crate::announce::announcement::{CheckedSamplingMode, CheckedUserVar};
use crate::announce::pending::PendingAnnouncements;
use crate::formula::Formula;
use crate::looks::Looks;
use crate::state::status::LastClause;
use crate::store::{Found, Placed};
use crate::variables::{SamplingMode, VarData};
use sat_base::{Lit, Var};
use std::alloc::AllocError;

/// What storing a derived clause changes.
#[derive(Clone, Copy)]
pub(crate) enum StoreClauseResult {
    /// The clause is new.
    New,
    /// The clause with this id becomes irredundant.
    NewlyIrredundant(u64),
    /// The clause was already stored, or is a tautology. Nothing is announced.
    Duplicate,
}

/// What the announcement of a deletion depends on: whether the redundant or the irredundant count drops by one, how the
/// clause is stored, and, for the irredundant count, the id of the clause from which the deleted clause follows.
#[derive(Clone, Copy)]
pub(crate) struct Deletion {
    pub(crate) redundant: bool,
    pub(crate) stored: Option<Found>,
    pub(crate) from: Option<u64>,
}

impl Formula {
    /// Returns the id under which the clause with the sorted literals `literals` is stored. Returns `None` if there is
    /// no such clause, or if `literals` is empty.
    pub fn id_of_set(&self, literals: &[Lit], looks: &mut Looks) -> Option<u64>
        ensures id { (f : Stored) → RepresentsFormula self.now f → result ≡ id_of_set literals.now f }
        ensures looks { LooksOver (RepresentsFormula self.now) stored_literal_count looks.old looks.new }
    {
        if literals.is_empty() {
            return None;
        }
        if literals.len() == 1 {
            return self.units.id(literals[0]);
        }
        match self.store.stored(literals, looks) {
            Some(clause) => Some(clause.id),
            None => None,
        }
    }
}

/// Returns what storing a derived clause of two or more literals changed. `placed` is the result of storing it.
pub(crate) fn change_of(redundant: bool, placed: Placed) -> StoreClauseResult
    ensures { result ≡ change_in redundant placed }
{
    if placed.is_new {
        return StoreClauseResult::New;
    }
    if redundant {
        return StoreClauseResult::Duplicate;
    }
    if placed.irredundant == 0 {
        return StoreClauseResult::NewlyIrredundant(placed.id);
    }
    StoreClauseResult::Duplicate
}

/// Returns the mode that is announced for a named variable whose mode is `mode`.
fn checked_mode(mode: SamplingMode) -> CheckedSamplingMode
    ensures { is_sampling result ≡ is_sample (mode_in mode) }
{
    match mode {
        SamplingMode::Sample => CheckedSamplingMode::Sample,
        SamplingMode::Witness | SamplingMode::Hide => CheckedSamplingMode::Witness,
    }
}

/// Returns `Sample` if `sampling` is true, and `Witness` otherwise.
fn mode_of(sampling: bool) -> CheckedSamplingMode
    ensures { is_sampling result ≡ sampling }
{
    if sampling {
        CheckedSamplingMode::Sample
    } else {
        CheckedSamplingMode::Witness
    }
}

impl LastClause {
    /// Returns the id of the last irredundant clause stored, if there is one.
    pub fn id(self) -> Option<u64>
        ensures { result ≡ last_id (last_in self) }
    {
        match self {
            LastClause::NoneYet => None,
            LastClause::Empty(id) | LastClause::Single(id, _) | LastClause::Long(id) => Some(id),
        }
    }
}

/// Returns `true` if the mode is `Sample` (if `sampling` is true) or `Witness` (if `sampling` is false).
fn has_mode(mode: SamplingMode, sampling: bool) -> bool
    ensures { result ≡ (if sampling then is_sample (mode_in mode) else has_witness_mode (mode_in mode)) }
{
    match mode {
        SamplingMode::Sample => sampling,
        SamplingMode::Witness => !sampling,
        SamplingMode::Hide => false,
    }
}

impl PendingAnnouncements {
    /// Adds the announcement of an input clause with the id `id` and the sorted literals `literals`. `both_signs` says
    /// whether they include both signs of a variable; `same` is the id under which they are already stored, if any.
    pub fn input(
        &mut self,
        id: u64,
        literals: &[Lit],
        both_signs: bool,
        same: Option<u64>,
    ) -> Result<(), AllocError>
        ensures ok { OnOk result (self.new ≡ self.old
            ++ (if both_signs then announcements.TautologicalClause id literals.now ∷ [] else announced_input_set id literals.now same)) }
        ensures err { OnErr result (self.new ≡ self.old) }
    {
        if both_signs {
            return self.tautological_clause(id, literals);
        }
        match same {
            None => self.add_clause(id, literals),
            Some(same) => self.duplicated_clause(id, same, literals),
        }
    }

    /// Adds the announcement of a derived clause, if `change`, the change to what is stored, requires one.
    pub fn derived(
        &mut self,
        change: StoreClauseResult,
        id: u64,
        redundant: bool,
        literals: &[Lit],
        propagations: &[u64],
    ) -> Result<(), AllocError>
        ensures ok { OnOk result (self.new ≡ self.old ++ announced_change change id redundant literals.now propagations.now) }
        ensures err { OnErr result (self.new ≡ self.old) }
    {
        match change {
            StoreClauseResult::New => self.at_clause(id, redundant, literals, propagations),
            StoreClauseResult::NewlyIrredundant(id) => self.make_irredundant(id, literals),
            StoreClauseResult::Duplicate => Ok(()),
        }
    }

    /// Adds the announcement of a clause whose redundant count drops by one, if this removes the clause. `stored` is
    /// the clause before the count drops.
    pub fn redundant_deleted(
        &mut self,
        literals: &[Lit],
        stored: Option<Found>,
    ) -> Result<(), AllocError>
        ensures ok { OnOk result (self.new ≡ self.old ++ redundant_deletion (found_clause literals.now stored)) }
        ensures err { OnErr result (self.new ≡ self.old) }
    {
        let Some(clause) = stored else {
            return Ok(());
        };
        if clause.irredundant == 0 && clause.redundant == 1 {
            return self.delete_clause(clause.id, literals);
        }
        Ok(())
    }

    /// Adds the announcement of a clause whose irredundant count drops by one, if this makes the count zero. `stored`
    /// is the clause before the count drops, and `from` is the id of the clause from which it follows, if any.
    pub fn irredundant_deleted(
        &mut self,
        literals: &[Lit],
        stored: Option<Found>,
        from: Option<u64>,
    ) -> Result<(), AllocError>
        ensures ok { OnOk result (self.new ≡ self.old ++ irredundant_deletion (option_to_list from)
            (found_clause literals.now stored)) }
        ensures err { OnErr result (self.new ≡ self.old) }
    {
        let Some(clause) = stored else {
            return Ok(());
        };
        if clause.irredundant != 1 {
            return Ok(());
        }
        let kept = clause.redundant > 0;
        match from {
            Some(from) => self.delete_at_clause(clause.id, kept, literals, &[from]),
            None => self.delete_at_clause(clause.id, kept, literals, &[]),
        }
    }

    /// Adds the announcement, if any, of the deletion `deletion` of the clause with the literals `literals`.
    pub fn deleted(&mut self, literals: &[Lit], deletion: Deletion) -> Result<(), AllocError>
        ensures ok { OnOk result (self.new ≡ self.old ++ deletion_announced literals.now deletion) }
        ensures err { OnErr result (self.new ≡ self.old) }
    {
        if deletion.redundant {
            return self.redundant_deleted(literals, deletion.stored);
        }
        self.irredundant_deleted(literals, deletion.stored, deletion.from)
    }

    /// Adds the announcement that `var`, whose data was `before`, gets the name `name`.
    pub fn naming(&mut self, var: Var, name: Var, before: VarData) -> Result<(), AllocError>
        ensures ok { OnOk result (self.new ≡ self.old ++ announced_name var name (variable_of_data before)) }
        ensures err { OnErr result (self.new ≡ self.old) }
    {
        let user = CheckedUserVar {
            user_var: name,
            sampling_mode: checked_mode(before.mode),
            new_var: !before.known,
        };
        self.user_var(var, Some(user))
    }

    /// Adds the announcement that `var`, whose data was `before`, gets the name `user`, or loses its name if `user`
    /// is `None`.
    pub fn renaming(
        &mut self,
        var: Var,
        user: Option<Var>,
        before: VarData,
    ) -> Result<(), AllocError>
        ensures ok { OnOk result (self.new ≡ self.old ++ announced_name_change var user (variable_of_data before)) }
        ensures err { OnErr result (self.new ≡ self.old) }
    {
        match user {
            Some(name) => self.naming(var, name, before),
            None => self.user_var(var, None),
        }
    }

    /// Adds the announcement that the mode of `var`, whose data was `before`, changes. There is no announcement if the
    /// variable has no name or already has the new mode.
    pub fn mode_change(
        &mut self,
        var: Var,
        sampling: bool,
        before: VarData,
    ) -> Result<(), AllocError>
        ensures ok { OnOk result (self.new ≡ self.old ++ announced_mode_change var sampling (mode_in before.mode) before.name) }
        ensures err { OnErr result (self.new ≡ self.old) }
    {
        let Some(name) = before.name.get() else {
            return Ok(());
        };
        if has_mode(before.mode, sampling) {
            return Ok(());
        }
        let user = CheckedUserVar {
            user_var: name,
            sampling_mode: mode_of(sampling),
            new_var: false,
        };
        self.user_var(var, Some(user))
    }
}
