//! Gives names to hidden variables.
ghost use Rattle.std.specs.Prelude.{◌≡◌, ◌<◌, true, false, IfOk, IfErr, OnOk};
ghost use Rattle.sat_solver.specs.variables.Variables.{variables_used};
ghost use Rattle.sat_solver.specs.variables.Calls.{NamesInvariant};
ghost use Rattle.sat_solver.specs.variables.Observing.{IsHidden, NamesHidden, NamesAllHidden};
ghost use Rattle.sat_solver.specs.variables.NameFailures.{EmitsOrFails};

use crate::variables::Variables;
use crate::variables::error::NameError;
use crate::variables::log::StepLog;
use sat_base::{ProofStep, Var};

/// Returns `true` if a variable is in use and has no name. The variable must have been introduced at some point.
fn is_hidden(variables: &Variables, global: Var) -> bool
    requires within { global < variables_used variables.now }
    ensures hidden { result ≡ true → IsHidden variables.now global }
    ensures shown { result ≡ false → IsHidden variables.now global → ⊥ }
{
    if variables.is_deleted(global) {
        return false;
    }
    variables.global_from_user.bwd().get(global).is_none()
}

/// Gives the next name and the mode witness to a hidden variable, and returns the name. Never returns `VariableLimit`.
fn observe_var<W: StepLog>(
    variables: &mut Variables,
    writer: &mut W,
    global: Var,
) -> Result<Var, NameError>
    requires valid { NamesInvariant variables.old (W.steps writer.old) }
    requires keeps { W.keeps writer.old }
    requires hidden { IsHidden variables.old global }
    ensures names { IfOk result (λ user. NamesHidden variables.old variables.new (W.steps writer.old)
        (W.steps writer.new) global user) }
    ensures left { IfErr result (λ e. e ≡ NameError.VariableLimit → ⊥) }
    ensures keeps { OnOk result (W.keeps writer.new) }
    ensures emits { EmitsOrFails W.took W.broke result writer.old writer.new }
{
    let Some(user) = variables.next_user() else {
        return Err(NameError::VariableLimit);
    };
    variables.put_observed(user, global)?;
    writer.step(&ProofStep::ChangeSamplingMode {
        var: global,
        sample: false,
    })?;
    writer.step(&ProofStep::UserVarName {
        global,
        user: Some(user),
    })?;
    Ok(user)
}

/// Gives a name and the mode witness to every hidden variable in use, in increasing order of the variables. Replaces
/// the content of `users` with these names.
pub fn observe_internal_vars<W: StepLog>(
    variables: &mut Variables,
    writer: &mut W,
    users: &mut Vec<Var>,
) -> Result<(), NameError>
    requires valid { NamesInvariant variables.old (W.steps writer.old) }
    requires keeps { W.keeps writer.old }
    ensures names { OnOk result (NamesAllHidden variables.old variables.new (W.steps writer.old) (W.steps writer.new)
        users.new.items) }
    ensures left { IfErr result (λ e. e ≡ NameError.VariableLimit → ⊥) }
    ensures keeps { OnOk result (W.keeps writer.new) }
    ensures emits { EmitsOrFails W.took W.broke result writer.old writer.new }
{
    users.clear();
    let count = variables.used_count();
    for index in 0..count {
        let global = Var::from_index(index);
        if !is_hidden(variables, global) {
            continue;
        }
        let user = observe_var(variables, writer, global)?;
        users.push(user)?;
    }
    Ok(())
}
