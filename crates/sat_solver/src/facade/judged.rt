//! The script state of a solver, as a ghost. It has size zero, and its functions do nothing at run time.
ghost use Rattle.std.specs.Prelude.{◌≡◌};
ghost use Rattle.std.specs.Borrow.{ftrue};
ghost use Rattle.sat_base.specs.script.ScriptState.{ScriptState, initial_state};
ghost use Rattle.sat_solver.specs.facade.Judged.{CanBeObserved, IsObserved, state_after_change};

use crate::session::history::History;
use crate::variables::Variables;
use sat_base::{Lit, Var};
use std::marker::Model;

/// A call of a solver that can change the script state.
#[derive(Clone, Copy)]
pub enum Call<'a> {
    /// `add_clause` with these literals.
    AddClause(&'a [Lit]),
    /// `assume` with these literals.
    Assume(&'a [Lit]),
    /// `hide_var` with this name.
    HideVar(Var),
    /// `witness_var` with this name.
    WitnessVar(Var),
    /// `sample_var` with this name.
    SampleVar(Var),
    /// `new_var`, and the name that it returned, if any.
    NewVar(Option<Var>),
}

/// A call, and whether it succeeded.
#[derive(Clone, Copy)]
pub struct Change<'a> {
    /// The call.
    pub call: Call<'a>,
    /// Whether it succeeded.
    pub done: bool,
}

/// The solver after hidden variables got names.
#[derive(Clone, Copy)]
pub struct Observed<'a> {
    /// The names, and the variables that they refer to.
    pub names: &'a Variables,
    /// All steps.
    pub history: &'a History,
    /// The names that were given to hidden variables.
    pub users: &'a [Var],
}

/// The script state of a solver.
#[derive(Drop)]
pub struct Judged {
    pub ghost state: { ScriptState },
}

impl Model for Judged {
    ghost also_owns = { λ _. ftrue };
}

impl Judged {
    /// Creates the state before the first command.
    pub fn new() -> Judged
        ensures { result.state ≡ initial_state }
    {
        Judged {}
    }

    /// Returns the state after a call. A call that did not succeed changes nothing.
    pub fn after(&self, _change: &Change<'_>) -> Judged
        ensures { result.state ≡ state_after_change _change.now self.now.state }
    {
        Judged {}
    }

    /// Returns a state that `observe_internal_vars` leads to. There must be one.
    pub fn observed(&self, _seen: &Observed<'_>) -> Judged
        requires { CanBeObserved self.now.state _seen.now.names.now _seen.now.history.now.steps _seen.now.users.now }
        ensures { IsObserved self.now.state result.state _seen.now.names.now _seen.now.history.now.steps _seen.now.users.now }
    {
        Judged {}
    }
}
