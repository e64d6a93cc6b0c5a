//! Updates the variables of names after an accepted step.
ghost use Rattle.std.specs.Prelude.{◌+◌, OnOk};
ghost use Rattle.sat_base.specs.steps.StepViews.{step_of};
ghost use Rattle.sat_checker.specs.matching.Expected.{NewName, NoName};
ghost use Rattle.certify.specs.confirm.Comparing.{due_of};
ghost use Rattle.certify.specs.confirm.NamesAfterStep.{NamesFollowStep};

use crate::confirm::expect::Expected;
use crate::confirm::variables::NamedVars;
use sat_base::{ProofStep, Var};
use std::alloc::AllocError;

/// Sets the variable of `name` to the one in the step.
fn follow_new_name(
    variables: &mut NamedVars,
    name: Var,
    step: &ProofStep<'_>,
) -> Result<(), AllocError>
    ensures { OnOk result (NamesFollowStep (λ o ask. NewName (name + 1)) variables.old (step_of step.now) variables.new) }
{
    let ProofStep::UserVarName {
        global,
        user: _user,
    } = *step
    else {
        return Ok(());
    };
    variables.put(name, global)
}

/// Removes the variable of `name`.
fn follow_no_name(variables: &mut NamedVars, name: Var, step: &ProofStep<'_>)
    ensures { NamesFollowStep (λ o ask. NoName (name + 1)) variables.old (step_of step.now) variables.new }
{
    variables.remove(name);
}

/// Updates the variables of names after an accepted step.
pub(crate) fn follow(
    variables: &mut NamedVars,
    expected: &Expected<'_>,
    step: &ProofStep<'_>,
) -> Result<(), AllocError>
    ensures { OnOk result (NamesFollowStep (due_of expected.now) variables.old (step_of step.now) variables.new) }
{
    match *expected {
        Expected::NewName(name) => follow_new_name(variables, name, step),
        Expected::NoName(name) => {
            follow_no_name(variables, name, step);
            Ok(())
        }
        Expected::Clause(_) => Ok(()),
        Expected::Ask(_) => Ok(()),
        Expected::Model { names: _names, .. } => Ok(()),
        Expected::Core(_) => Ok(()),
        Expected::Close => Ok(()),
        Expected::End => Ok(()),
    }
}
