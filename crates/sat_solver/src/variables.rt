//! Names, variables and indices of a solver.
ghost use Rattle.std.specs.Prelude.{ℕ, ◌≡◌, ◌≤◌, ◌<◌, None, Some, OnOk, IfSome, IfNone, MatchOption, true, false};
ghost use Rattle.sat_solver.specs.variables.Variables.{VariablesInvariant, data_at, global_of, user_of, solver_of};
ghost use Rattle.sat_solver.specs.variables.Variables.{names_used};
ghost use Rattle.sat_solver.specs.variables.Variables.{variables_used};
ghost use Rattle.sat_solver.specs.variables.Free.{is_free};
ghost use Rattle.sat_solver.specs.variables.Naming.{IsVariableForName, NamesFull, NoVariableLeft, StoresDeletion};
ghost use Rattle.sat_solver.specs.variables.Naming.{StoresHiding, StoresIndex};
ghost use Rattle.sat_solver.specs.variables.Naming.{StoresMode, StoresName, StoresObserving, StoresUnit, IsNextIndex};
ghost use Rattle.sat_solver.specs.variables.Naming.{IsNextUser};

pub mod error;
pub mod free;
pub mod initialize;
pub mod laws;
pub mod log;
pub mod maps;
pub mod modes;
pub mod observe;
pub mod refuse;
pub mod room;
pub mod solver_vars;
pub mod user_vars;

use crate::variables::free::FreeIndices;
use crate::variables::maps::{link, put_data, put_global, set_data, set_mode, set_unit, unlink};
use sat_base::Var;
use sat_store::{SamplingMode, VarBiMap, VarData};
use std::alloc::{AllocError, Global};

/// The caller's names (`user`), the proof variables (`global`), and the indices of the search (`solver`), with maps
/// between them.
#[derive(Drop)]
pub struct Variables {
    pub global_from_user: VarBiMap,
    pub solver_from_global: VarBiMap,

    /// The variable that each index of the search belongs to, or belonged to last.
    pub globals: Vec<Var>,

    /// The data of each variable, indexed by variable.
    pub var_data: Vec<VarData>,

    /// Names that were used and are no longer in use.
    pub free_users: FreeIndices,

    /// Variables that were used and are no longer in use.
    pub free_globals: FreeIndices,

    /// Indices that were used and are no longer in use.
    pub free_solvers: FreeIndices,

    /// False only if no variable has the mode witness.
    pub witnessed: bool,

    /// True only if every name that has ever been used is in use and has the variable with the same index.
    pub own_names: bool,
}

/// Returns `true` if every name still has the variable with the same index after the name `user` gets the variable
/// `global`. `own` says whether this was so before.
fn stays_identity(own: bool, user: Var, global: Var) -> bool
    ensures own { result ≡ true → own ≡ true }
    ensures same { result ≡ true → global ≡ user }
{
    own && user.index() == global.index()
}

impl Variables {
    /// Creates a value without names, variables or indices. Never allocates.
    pub fn new(alloc: Global) -> Variables
        ensures tidy { VariablesInvariant result }
        ensures none { variables_used result ≡ 0 }
    {
        Variables {
            global_from_user: VarBiMap::new(alloc),
            solver_from_global: VarBiMap::new(alloc),
            globals: Vec::new(alloc),
            var_data: Vec::new(alloc),
            free_users: FreeIndices::new(alloc),
            free_globals: FreeIndices::new(alloc),
            free_solvers: FreeIndices::new(alloc),
            witnessed: false,
            own_names: true,
        }
    }

    /// Returns the variable to use for `user`, a name that is not in use: the variable with the same index if that is
    /// free, or else the lowest free variable. Returns `None` if all variables are in use.
    #[tactic(auto, using(crate::proofs::lemmas::variables::NextVariables::finding_room))]
    pub(crate) fn room_for(&self, user: Var) -> Option<Var>
        requires tidy { VariablesInvariant self.now }
        requires within { user ≤ names_used self.now }
        ensures { MatchOption result (NoVariableLeft self.now) (IsVariableForName self.now user) }
    {
        let index = user.index();
        if index >= self.var_data.len() || self.var_data[index].deleted {
            return Some(user);
        }
        if let Some(free) = self.free_globals.lowest() {
            return Some(free);
        }
        if self.var_data.len() < Var::max_count() {
            return Some(Var::from_index(self.var_data.len()));
        }
        None
    }

    /// Gives the name `user` to `global`, which must be the variable that `room_for` returns for this name.
    pub(crate) fn put_name(&mut self, user: Var, global: Var) -> Result<(), AllocError>
        requires tidy { VariablesInvariant self.old }
        requires named { global_of self.old user ≡ None }
        requires low { user ≤ names_used self.old }
        requires room { IsVariableForName self.old user global }
        ensures { OnOk result (StoresName self.old self.new user global) }
    {
        put_data(&mut self.var_data, global, VarData::user_default())?;
        link(&mut self.global_from_user, user, global)?;
        self.free_users.reserve(user)?;
        self.free_globals.reserve(global)?;
        self.free_users.remove(user);
        self.free_globals.remove(global);
        self.own_names = stays_identity(self.own_names, user, global);
        Ok(())
    }

    /// Returns the lowest index that was never used. There is such an index, because the variable `_global` is in use
    /// and has no index. No index that was used may be free.
    fn new_index(&self, _global: Var) -> Var
        requires tidy { VariablesInvariant self.now }
        requires live { (data_at self.now _global).deleted ≡ false }
        requires without { solver_of self.now _global ≡ None }
        requires none { (x : ℕ) → is_free self.now.free_solvers x ≡ false }
        ensures { IsNextIndex self.now result }
    {
        Var::from_index(self.solver_from_global.bwd().watermark())
    }

    /// Returns the index for `global`, a variable in use that has no index: the lowest index that is not in use.
    pub(crate) fn next_index(&self, global: Var) -> Var
        requires tidy { VariablesInvariant self.now }
        requires live { (data_at self.now global).deleted ≡ false }
        requires without { solver_of self.now global ≡ None }
        ensures { IsNextIndex self.now result }
    {
        match self.free_solvers.lowest() {
            Some(free) => free,
            None => self.new_index(global),
        }
    }

    /// Gives the index `solver` to the variable `global`.
    pub(crate) fn put_index(&mut self, global: Var, solver: Var) -> Result<(), AllocError>
        requires without { solver_of self.old global ≡ None }
        requires next { IsNextIndex self.old solver }
        requires tidy { VariablesInvariant self.old }
        ensures { OnOk result (StoresIndex self.old self.new global solver true) }
    {
        put_global(&mut self.globals, solver, global)?;
        link(&mut self.solver_from_global, global, solver)?;
        self.free_solvers.reserve(solver)?;
        self.free_solvers.remove(solver);
        Ok(())
    }

    /// Removes the index `solver` of the variable `global`. Never allocates.
    pub(crate) fn take_index(&mut self, global: Var, solver: Var)
        requires tidy { VariablesInvariant self.old }
        requires there { solver_of self.old global ≡ Some solver }
        ensures puts { StoresIndex self.old self.new global solver false }
        ensures globals { self.new.globals ≡ self.old.globals }
    {
        self.free_solvers.put(solver);
        unlink(&mut self.solver_from_global, global, solver);
    }

    /// Hides the variable `global`. Its name `user` can be introduced again from now on. Never allocates.
    pub(crate) fn put_hidden(&mut self, user: Var, global: Var)
        requires tidy { VariablesInvariant self.old }
        requires named { global_of self.old user ≡ Some global }
        requires within { global < variables_used self.old }
        ensures { StoresHiding self.old self.new user global }
    {
        self.free_users.put(user);
        unlink(&mut self.global_from_user, user, global);
        set_mode(&mut self.var_data, global, SamplingMode::Hide);
        self.own_names = false;
    }

    /// Gives the name `user` to the hidden variable `global`, and sets its mode to witness.
    pub(crate) fn put_observed(&mut self, user: Var, global: Var) -> Result<(), AllocError>
        requires tidy { VariablesInvariant self.old }
        requires free { global_of self.old user ≡ None }
        requires nameless { user_of self.old global ≡ None }
        requires low { user ≤ names_used self.old }
        requires within { global < variables_used self.old }
        ensures { OnOk result (StoresObserving self.old self.new user global) }
    {
        link(&mut self.global_from_user, user, global)?;
        self.free_users.reserve(user)?;
        self.free_users.remove(user);
        set_mode(&mut self.var_data, global, SamplingMode::Witness);
        self.witnessed = true;
        self.own_names = false;
        Ok(())
    }

    /// Sets the mode of a variable.
    pub(crate) fn put_mode(&mut self, global: Var, mode: SamplingMode)
        requires within { global < variables_used self.old }
        ensures { StoresMode self.old self.new global mode }
    {
        set_mode(&mut self.var_data, global, mode);
        self.witnessed = true;
    }

    /// Deletes a variable, so that it is no longer in use. Never allocates.
    pub(crate) fn put_deleted(&mut self, global: Var)
        requires tidy { VariablesInvariant self.old }
        requires within { global < variables_used self.old }
        ensures { StoresDeletion self.old self.new global }
    {
        self.free_globals.put(global);
        set_data(&mut self.var_data, global, VarData::default());
    }

    /// Returns the mode of a variable, which must have been introduced at some point.
    pub(crate) fn mode(&self, global: Var) -> SamplingMode
        requires within { global < variables_used self.now }
        ensures { result ≡ (data_at self.now global).sampling_mode }
    {
        self.var_data[global.index()].sampling_mode
    }

    /// Returns the number of names that have ever been used.
    pub fn name_count(&self) -> usize
        ensures { result ≡ names_used self.now }
    {
        self.global_from_user.fwd().watermark()
    }

    /// Returns the number of variables that have ever been used.
    pub fn used_count(&self) -> usize
        ensures { result ≡ variables_used self.now }
    {
        self.var_data.len()
    }

    /// Returns `true` if a variable is no longer in use. The variable must have been introduced at some point.
    pub fn is_deleted(&self, global: Var) -> bool
        requires within { global < variables_used self.now }
        ensures { result ≡ (data_at self.now global).deleted }
    {
        self.var_data[global.index()].deleted
    }

    /// Returns `true` if a variable is assumed. The variable must have been introduced at some point.
    pub fn is_marked(&self, global: Var) -> bool
        requires within { global < variables_used self.now }
        ensures { result ≡ (data_at self.now global).assumed }
    {
        self.var_data[global.index()].assumed
    }

    /// Returns the stored value of a variable's unit, or `None`. The variable must have been introduced at some point.
    pub(crate) fn unit(&self, global: Var) -> Option<bool>
        requires within { global < variables_used self.now }
        ensures { result ≡ (data_at self.now global).unit }
    {
        self.var_data[global.index()].unit
    }

    /// Stores the value of a variable's unit, or `None`. This is done before the index of the variable is released.
    pub fn set_unit(&mut self, global: Var, unit: Option<bool>)
        requires within { global < variables_used self.old }
        ensures { StoresUnit self.old self.new global unit }
    {
        set_unit(&mut self.var_data, global, unit);
    }

    /// Returns the lowest name never used, or `None` if all names were used. No name may be hidden.
    fn first_unused(&self) -> Option<Var>
        requires tidy { VariablesInvariant self.now }
        requires none { (u : ℕ) → is_free self.now.free_users u ≡ false }
        ensures next { IfSome result (IsNextUser self.now) }
        ensures full { IfNone result (NamesFull self.now) }
    {
        let used = self.global_from_user.fwd().watermark();
        if used < Var::max_count() {
            return Some(Var::from_index(used));
        }
        None
    }

    /// Returns the next name to introduce: the lowest hidden name, or the lowest name never used if no name is hidden.
    /// Returns `None` if all names are in use.
    #[tactic(auto, using(crate::proofs::lemmas::variables::NextNames::next_hidden))]
    pub(crate) fn next_user(&self) -> Option<Var>
        requires tidy { VariablesInvariant self.now }
        ensures next { IfSome result (IsNextUser self.now) }
        ensures full { IfNone result (NamesFull self.now) }
    {
        match self.free_users.lowest() {
            Some(free) => Some(free),
            None => self.first_unused(),
        }
    }
}
