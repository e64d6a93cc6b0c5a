//! Introduces and hides names, and sets their modes.
ghost use Rattle.std.specs.Prelude.{◌≡◌, ◌==◌, ◌||◌, not, length, true, false, IfOk, IfErr, OnOk};
ghost use Rattle.sat_solver.specs.solver.Naming.{EngineHides, EngineWitnesses, EngineSamples, SetsMode};
ghost use Rattle.sat_solver.specs.solver.Naming.{EngineNewNameResult, EngineObserveFails, EngineObserved};
ghost use Rattle.sat_solver.specs.variables.NamingSteps.{LeavesNoIdleVariable};
ghost use Rattle.sat_solver.specs.solver.Whole.{EngineInvariant, steps_in};
ghost use Rattle.sat_solver.specs.facade.Judged.{CanBeObserved, IsObserved};

use crate::SolverError;
use crate::cdcl::fault::Fault;
use crate::facade::judged::Judged;
use crate::solver::Engine;
use crate::variables::error::NameError;
use crate::variables::modes::{hide_var, set_sampling_mode};
use crate::variables::observe::observe_internal_vars;
use crate::variables::refuse::is_assumed;
use crate::variables::room::has_room_for;
use crate::variables::user_vars::new_user_var;
use sat_base::{CountedWrite, Var};
use sat_checker::ProofProcessor;

/// Returns `true` if `error` is `VariableLimit`.
fn is_limit(error: &NameError) -> bool
    ensures limit { result ≡ true → error.now ≡ NameError.VariableLimit }
    ensures other { result ≡ false → error.now ≡ NameError.VariableLimit → ⊥ }
{
    match error {
        NameError::VariableLimit => true,
        NameError::OutOfMemory => false,
        NameError::Write(_) => false,
        NameError::Check(_) => false,
    }
}

/// Returns `true` if a solver counts as used after it has introduced the names `users`. `used` says whether it did
/// before.
fn is_used(used: bool, users: &[Var]) -> bool
    ensures { result ≡ (used || not (length users.now == 0)) }
{
    used || !users.is_empty()
}

impl<W: CountedWrite + Drop, P: ProofProcessor> Engine<W, P> {
    /// Hides a name, which is introduced first if it is not in use.
    pub fn hide_var(&mut self, user: Var) -> Result<(), SolverError>
        requires { EngineInvariant self.old }
        ensures solver { EngineInvariant self.new }
        ensures hides { EngineHides W.seen result self.old self.new user }
        ensures gone { OnOk result (LeavesNoIdleVariable (steps_in self.new)) }
    {
        if self.failed {
            return Err(SolverError::HasFailed);
        }
        if is_assumed(&self.names, user) {
            return Err(SolverError::AssumedVariable);
        }
        if !has_room_for(&self.names, user) {
            return Err(SolverError::VariableLimit);
        }
        self.used = true;
        match hide_var(&mut self.names, &mut self.context.proof, user) {
            Ok(()) => Ok(()),
            Err(error) => Err(self.fail(Fault::from(error))),
        }
    }

    /// Sets the mode of a name to sample if `sample` is true, and to witness otherwise. If the name is not in use, it
    /// is introduced first.
    fn set_mode(&mut self, user: Var, sample: bool) -> Result<(), SolverError>
        requires { EngineInvariant self.old }
        ensures solver { EngineInvariant self.new }
        ensures sets { SetsMode W.seen result self.old self.new user sample }
    {
        if self.failed {
            return Err(SolverError::HasFailed);
        }
        if is_assumed(&self.names, user) {
            return Err(SolverError::AssumedVariable);
        }
        if !has_room_for(&self.names, user) {
            return Err(SolverError::VariableLimit);
        }
        self.used = true;
        match set_sampling_mode(&mut self.names, &mut self.context.proof, user, sample) {
            Ok(()) => Ok(()),
            Err(error) => Err(self.fail(Fault::from(error))),
        }
    }

    /// Sets the mode of a name to witness. If the name is not in use, it is introduced first.
    pub fn witness_var(&mut self, user: Var) -> Result<(), SolverError>
        requires { EngineInvariant self.old }
        ensures solver { EngineInvariant self.new }
        ensures witnesses { EngineWitnesses W.seen result self.old self.new user }
    {
        self.set_mode(user, false)
    }

    /// Sets the mode of a name to sample, which is also the mode of new names. If the name is not in use, it is
    /// introduced first.
    pub fn sample_var(&mut self, user: Var) -> Result<(), SolverError>
        requires { EngineInvariant self.old }
        ensures solver { EngineInvariant self.new }
        ensures samples { EngineSamples W.seen result self.old self.new user }
    {
        self.set_mode(user, true)
    }

    /// Introduces a name and returns it: the lowest hidden name, or the lowest name never used if no name is hidden.
    pub fn new_var(&mut self) -> Result<Var, SolverError>
        requires { EngineInvariant self.old }
        ensures solver { EngineInvariant self.new }
        ensures names { EngineNewNameResult W.seen result self.old self.new }
    {
        if self.failed {
            return Err(SolverError::HasFailed);
        }
        match new_user_var(&mut self.names, &mut self.context.proof) {
            Ok(user) => {
                self.used = true;
                Ok(user)
            }
            Err(error) => {
                if is_limit(&error) {
                    return Err(SolverError::VariableLimit);
                }
                self.used = true;
                Err(self.fail(Fault::from(error)))
            }
        }
    }

    /// Gives a name with the mode witness to every hidden variable that is still in use. Returns the names.
    pub fn observe_internal_vars(&mut self) -> Result<Vec<Var>, SolverError>
        requires { EngineInvariant self.old }
        ensures solver { EngineInvariant self.new }
        ensures observes { IfOk result (λ users. EngineObserved W.seen self.old self.new users.items) }
        ensures fails { IfErr result (λ e. EngineObserveFails W.seen e self.old self.new) }
    {
        if self.failed {
            return Err(SolverError::HasFailed);
        }
        let mut users = Vec::new(self.context.search.alloc);
        match observe_internal_vars(&mut self.names, &mut self.context.proof, &mut users) {
            Ok(()) => {
                self.used = is_used(self.used, &users);
                Ok(users)
            }
            Err(error) => Err(self.fail(Fault::from(error))),
        }
    }

    /// Returns a script state that `observe_internal_vars` leads to from `judged` if it returns `users`. Such a state
    /// must exist.
    pub fn judge_observed(&self, judged: &Judged, users: &[Var]) -> Judged
        requires { CanBeObserved judged.now.state self.now.names (steps_in self.now) users.now }
        ensures { IsObserved judged.now.state result.state self.now.names (steps_in self.now) users.now }
    {
        self.context
            .proof
            .judge_observed(judged, &self.names, users)
    }
}
