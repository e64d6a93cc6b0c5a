//! Hides names, and sets their modes.
ghost use Rattle.std.specs.Prelude.{◌≡◌, ◌+◌, [], ◌∷◌, IfErr, OnOk};
ghost use Rattle.sat_solver.specs.facade.Calls.{WritesSteps};
ghost use Rattle.sat_solver.specs.facade.Naming.{OnlyMakes};
ghost use Rattle.sat_solver.specs.variables.Refusing.{names_in};
ghost use Rattle.certify.specs.run.SolverCalls.{AgreesWithChecker, FailsIf, IsCaused, IsReadySolver, LacksVariablesFor};
ghost use Rattle.certify.specs.run.SolverCalls.{RefusedForRoom};
ghost use Rattle.certify.specs.run.NonAskCommands.{ChangesNameState, NonAskCarriedOut, command_for_state};
ghost use Rattle.certify.specs.run.NonAskCommands.{due_for_state, IsStepForState};

use super::faults::fault_of;
use crate::fault::RunFault;
use crate::refusals::NameState;
use sat_base::{CountedWrite, Lit, Var};
use sat_solver::facade::laws::steps_record_answers;
use sat_solver::{Solver, SolverError};

/// Introduces the name `user`, and sets its state.
fn change_name<C: CountedWrite + Drop>(
    solver: &mut Solver<C>,
    user: Var,
    state: NameState,
) -> Result<(), SolverError>
    ensures changes { ChangesNameState result solver.old solver.new user state }
    ensures steps { OnOk result (OnlyMakes (IsStepForState state (user + 1)) (due_for_state state ((user + 1) ∷ [])) solver.old solver.new) }
    ensures text { WritesSteps result solver.old solver.new }
    ensures checker { AgreesWithChecker result solver.old solver.new }
{
    match state {
        NameState::Hidden => solver.hide_var(user),
        NameState::Sampled => solver.sample_var(user),
        NameState::Witnessed => solver.witness_var(user),
    }
}

/// Introduces the name `user`, and sets its state. The solver must have no assumptions.
fn set_name<C: CountedWrite + Drop>(
    solver: &mut Solver<C>,
    user: Var,
    state: NameState,
) -> Result<(), RunFault>
    requires ready { IsReadySolver solver.old }
    requires free { solver.old.assumptions ≡ [] }
    ensures obeyed { OnOk result (NonAskCarriedOut (command_for_state state ((user + 1) ∷ [])) solver.old solver.new) }
    ensures fails { FailsIf result solver.old solver.new }
    // Setting states stores no clause.
    ensures cause { IfErr result (λ e. IsCaused e ⊥ (RefusedForRoom solver.old solver.new (user ∷ []))) }
{
    match change_name(solver, user, state) {
        Ok(()) => {
            steps_record_answers(solver);
            Ok(())
        }
        Err(error) => Err(fault_of(error)),
    }
}

/// Introduces the names of literals, and sets their state. The solver must have no assumptions.
pub(crate) fn set_names<C: CountedWrite + Drop>(
    solver: &mut Solver<C>,
    literals: &[Lit],
    state: NameState,
) -> Result<(), RunFault>
    requires ready { IsReadySolver solver.old }
    requires free { solver.old.assumptions ≡ [] }
    ensures obeyed { OnOk result (NonAskCarriedOut (command_for_state state (names_in literals.now)) solver.old solver.new) }
    ensures fails { FailsIf result solver.old solver.new }
    // Setting states stores no clause.
    ensures cause { IfErr result (λ e. IsCaused e ⊥ (LacksVariablesFor solver.old solver.new
        (command_for_state state (names_in literals.now)))) }
{
    for lit in literals {
        set_name(solver, lit.var(), state)?;
    }
    Ok(())
}
