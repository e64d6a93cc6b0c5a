//! The names in use, and their modes.
ghost use Rattle.std.specs.Prelude.{◌≡◌, ◌+◌, ◌<◌, ◌≤◌, List, None, false, true, OnOk};
ghost use Rattle.std.specs.Bool.{MatchBool};
ghost use Rattle.sat_base.specs.values.Literals.{var_limit};
ghost use Rattle.sat_base.specs.script.Script.{Command as Spelled, Literal, names_of};
ghost use Rattle.sat_base.specs.script.ScriptState.{ScriptState, state_after_accepted, introduce, names_from};
ghost use Rattle.sat_base.specs.script.ScriptState.{new_names, refusal_of_names, initial_state};
ghost use Rattle.certify.specs.script.Commands.{IsPrefixWithinLimit, RepresentsCommand, kind_of};
ghost use Rattle.certify.specs.answers.AnswerForms.{named_literals};
ghost use Rattle.certify.specs.refusals.Names.{IntroducesNothing, NamesChangeBy, IsIntroduced, IsInUse};
ghost use Rattle.certify.specs.refusals.Names.{ListsNamesInUse, NamesHaveState};
ghost use Rattle.certify.specs.refusals.Names.{ReportsRefusal};
ghost use Rattle.certify.specs.refusals.Names.{state_after_used_name, with_name_state, has_literals, is_witnessed};
ghost use Rattle.certify.specs.refusals.Names.{limit_refusal};
ghost use Rattle.certify.specs.refusals.Names.{refusal_of_option};
ghost use Rattle.certify.specs.refusals.Names.{name_state_in, states_of, state_after_name};

use super::{NameState, Refusal};
use crate::script::{Command, CommandKind};
use sat_base::{Lit, Table, Var};
use std::alloc::{AllocError, Global};

/// All names that have ever been used, and their states. Names that no command has hidden or given a mode need
/// no memory.
#[derive(Drop)]
pub struct Names {
    /// The largest name that has ever been used, or 0.
    used: usize,
    /// The states of names, indexed from name 1. Names without an entry have the mode sample.
    states: Table<NameState>,
}

/// Consecutive new names: the index of the first one, and their number.
#[derive(Clone, Copy, Debug, Drop, PartialEq, Eq)]
pub struct NewNames {
    pub first: usize,
    pub count: usize,
}

/// Returns the refusal for a name past the limit if `past_limit` is true, and otherwise `None`.
fn limit_refusal(past_limit: bool) -> Option<Refusal>
    ensures { result ≡ limit_refusal past_limit }
{
    if past_limit {
        Some(Refusal::Limit)
    } else {
        None
    }
}

/// Returns `true` if the command is a clause or an ask. These commands only introduce names.
fn is_of_literals(kind: CommandKind) -> bool
    ensures { result ≡ has_literals (kind_of kind) }
{
    match kind {
        CommandKind::Clause => true,
        CommandKind::Ask => true,
        CommandKind::Hide => false,
        CommandKind::Witness => false,
        CommandKind::Sample => false,
    }
}

impl Names {
    /// Returns the state before the first command, in which no name has been used.
    pub fn new(alloc: Global) -> Names
        ensures { NamesHaveState result initial_state }
    {
        Names {
            used: 0,
            states: Table::new(alloc),
        }
    }

    /// Returns the state of a name. A name that has never been used counts as hidden.
    fn state(&self, var: Var) -> NameState
        ensures { result ≡ name_state_in (states_of self.now) (var + 1) }
    {
        let index = var.index();
        if index < self.used {
            return self.states.get(index, NameState::Sampled);
        }
        NameState::Hidden
    }

    /// Returns `true` if the name is in use and its mode is witness.
    fn is_witness(&self, var: Var) -> bool
        ensures witness { result ≡ is_witnessed (name_state_in (states_of self.now) (var + 1)) }
        ensures bound { var < var_limit }
    {
        match self.state(var) {
            NameState::Witnessed => true,
            NameState::Sampled => false,
            NameState::Hidden => false,
        }
    }

    /// Returns `true` if the name is in use.
    fn is_in_use(&self, var: Var) -> bool
        ensures { result ≡ true → IsInUse self.now (var + 1) }
    {
        if let NameState::Hidden = self.state(var) {
            return false;
        }
        true
    }

    /// Returns `true` if the command is a clause or an ask all of whose names are in use. Such a command changes no
    /// names.
    pub(crate) fn are_known(&self, kind: CommandKind, literals: &[Lit]) -> bool
        ensures { result ≡ true → IntroducesNothing (kind_of kind) (names_of (named_literals literals.now)) self.now }
    {
        if !is_of_literals(kind) {
            return false;
        }
        for lit in literals {
            if !self.is_in_use(lit.var()) {
                return false;
            }
        }
        true
    }

    /// Returns why a clause or an ask with these literals is refused, or `None`.
    fn literal_refusal(&self, literals: &[Lit], past_limit: bool) -> Option<Refusal>
        ensures judges { (j : ScriptState) (ls : List Literal) → NamesHaveState self.now j → IsPrefixWithinLimit literals.now past_limit ls
            → refusal_of_option result ≡ refusal_of_names j (names_of ls) }
        ensures within { result ≡ None → past_limit ≡ false }
    {
        for lit in literals {
            let var = lit.var();
            if self.is_witness(var) {
                return Some(Refusal::Witness(var));
            }
        }
        limit_refusal(past_limit)
    }

    /// Returns why a command is refused, or `None`.
    pub fn refusal(&self, command: Command<'_>) -> Option<Refusal>
        ensures judges { ReportsRefusal result self.now command.entry }
        ensures within { result ≡ None → command.entry.past_limit ≡ false }
    {
        match command.kind {
            CommandKind::Clause => self.literal_refusal(command.literals, command.past_limit),
            CommandKind::Ask => self.literal_refusal(command.literals, command.past_limit),
            CommandKind::Hide => limit_refusal(command.past_limit),
            CommandKind::Witness => limit_refusal(command.past_limit),
            CommandKind::Sample => limit_refusal(command.past_limit),
        }
    }

    /// Returns the names that get new variables when the name `var` is introduced, in order. If `var` has never been
    /// used, these are all names up to `var`, beginning with the first one that has never been used. Otherwise, `var`
    /// is the only one if it is hidden, and there are none if it is in use.
    pub fn new_names(&self, var: Var) -> NewNames
        ensures names { (j : ScriptState) → NamesHaveState self.now j
            → new_names (var + 1) j ≡ names_from result.count (result.first + 1) }
        ensures within { result.first + result.count ≤ var_limit }
    {
        let index = var.index();
        if index >= self.used {
            return NewNames {
                first: self.used,
                count: index + 1 - self.used,
            };
        }
        match self.states.get(index, NameState::Sampled) {
            NameState::Hidden => NewNames {
                first: index,
                count: 1,
            },
            NameState::Sampled => NewNames {
                first: index,
                count: 0,
            },
            NameState::Witnessed => NewNames {
                first: index,
                count: 0,
            },
        }
    }

    /// Returns `true` if `line` contains exactly one literal for each name in use, in increasing order of names.
    pub fn are_listed(&self, line: &[Lit]) -> bool
        ensures { MatchBool result (ListsNamesInUse self.now line.now) (ListsNamesInUse self.now line.now → ⊥) }
    {
        let mut at = 0;
        for index in 0..self.used {
            if let NameState::Hidden = self.states.get(index, NameState::Sampled) {
                continue;
            }
            if at >= line.len() {
                return false;
            }
            if line[at].index() != index {
                return false;
            }
            at += 1;
        }
        at == line.len()
    }

    /// Introduces all names up to the one with this index, beginning with the first one that has never been used.
    fn grow(&mut self, index: usize)
        requires fresh { self.old.used ≤ index }
        requires within { index < var_limit }
        ensures changes { NamesChangeBy self.old self.new (introduce (index + 1)) }
        ensures in_use { IsIntroduced self.old self.new (index + 1) }
    {
        self.used = index + 1;
    }

    /// Introduces a name. If the name has never been used, also introduces all names below it that have never
    /// been used.
    pub fn introduce(&mut self, var: Var)
        ensures changes { NamesChangeBy self.old self.new (introduce (var + 1)) }
        ensures in_use { IsIntroduced self.old self.new (var + 1) }
    {
        let index = var.index();
        if index >= self.used {
            self.grow(index);
            return;
        }
        if let NameState::Hidden = self.states.get(index, NameState::Sampled) {
            self.states.reset(index, NameState::Sampled);
        }
    }

    /// Sets the state of a name. Does nothing if the name has never been used.
    fn set_state(&mut self, var: Var, state: NameState) -> Result<(), AllocError>
        ensures { OnOk result (IsInUse self.old (var + 1) → NamesChangeBy self.old self.new (with_name_state state (var + 1))) }
    {
        let index = var.index();
        if index >= self.used {
            return Ok(());
        }
        self.states.set(index, state, NameState::Sampled)
    }

    /// Applies an accepted command of this kind to one of its names, which is in use.
    fn change(&mut self, kind: CommandKind, var: Var) -> Result<(), AllocError>
        ensures { OnOk result (IsInUse self.old (var + 1)
            → NamesChangeBy self.old self.new (state_after_used_name (kind_of kind) (var + 1))) }
    {
        match kind {
            CommandKind::Clause => Ok(()),
            CommandKind::Ask => Ok(()),
            CommandKind::Hide => self.set_state(var, NameState::Hidden),
            CommandKind::Witness => self.set_state(var, NameState::Witnessed),
            CommandKind::Sample => self.set_state(var, NameState::Sampled),
        }
    }

    /// Introduces one name of an accepted command of this kind, and applies the command to the name.
    pub fn take(&mut self, kind: CommandKind, var: Var) -> Result<(), AllocError>
        ensures { OnOk result (NamesChangeBy self.old self.new (state_after_name (kind_of kind) (var + 1))) }
    {
        self.introduce(var);
        self.change(kind, var)
    }

    /// Applies an accepted command to all of its names.
    pub fn accept(&mut self, command: Command<'_>) -> Result<(), AllocError>
        requires { command.past_limit ≡ false }
        ensures { OnOk result ((j : ScriptState) (c : Spelled) → NamesHaveState self.old j → RepresentsCommand command.entry c
            → NamesHaveState self.new (state_after_accepted c j)) }
    {
        if self.are_known(command.kind, command.literals) {
            return Ok(());
        }
        for lit in command.literals {
            self.take(command.kind, lit.var())?;
        }
        Ok(())
    }
}
