//! The variables that names have in a certificate.
ghost use Rattle.std.specs.Prelude.{ℕ, ◌≡◌, ◌+◌, ◌<◌, None, Some, OnOk};
ghost use Rattle.sat_base.specs.values.Literals.{var_limit};
ghost use Rattle.certify.specs.confirm.Variables.{SetsVariable, variable_in};

use sat_base::{MaybeVar, Table, Var};
use std::alloc::{AllocError, Global};

/// A map from names to variables. Its memory depends on how many names have a variable, not on how large the names are.
#[derive(Drop)]
pub(crate) struct NamedVars {
    variables: Table<MaybeVar>,
}

impl NamedVars {
    /// Returns a map in which no name has a variable. Never allocates.
    pub fn new(alloc: Global) -> NamedVars
        ensures { (name : ℕ) → variable_in result name ≡ None }
    {
        NamedVars {
            variables: Table::new(alloc),
        }
    }

    /// Returns the variable of `name`, or `None`.
    #[inline]
    pub fn get(&self, name: Var) -> Option<Var>
        ensures { result ≡ variable_in self.now (name + 1) }
    {
        self.variables.get(name.index(), MaybeVar::none()).get()
    }

    /// Sets the variable of `name` to `variable`.
    pub fn put(&mut self, name: Var, variable: Var) -> Result<(), AllocError>
        ensures put { OnOk result (SetsVariable self.old self.new (name + 1) (Some variable)) }
        ensures within { name < var_limit }
    {
        self.variables.set(
            name.index(),
            MaybeVar::new(Some(variable)),
            MaybeVar::none(),
        )
    }

    /// Removes the variable of `name`.
    pub fn remove(&mut self, name: Var)
        ensures { SetsVariable self.old self.new (name + 1) None }
    {
        self.variables.reset(name.index(), MaybeVar::none());
    }
}
