//! Introduces names, and writes the steps.
ghost use Rattle.std.specs.Prelude.{ℕ, ◌≡◌, ◌≤◌, ◌<◌, ◌+◌, ◌-◌, None, Some, List, ◌∷◌, IfOk, IfErr, OnOk};
ghost use Rattle.sat_base.specs.script.ScriptState.{names_from};
ghost use Rattle.sat_solver.specs.variables.Variables.{global_of, names_used};
ghost use Rattle.sat_solver.specs.variables.Naming.{IsNextUser};
ghost use Rattle.sat_solver.specs.variables.Calls.{NamesInvariant, IntroducesOne, IntroducesAll, IntroducesNameUnseen};
ghost use Rattle.sat_solver.specs.variables.NameFailures.{EmitsOrFails, FailsByVariableLimitOrFault, FailsOnlyByFault};
ghost use Rattle.sat_solver.specs.variables.VariableRoom.{LeavesRoom};

use crate::variables::Variables;
use crate::variables::error::NameError;
use crate::variables::log::StepLog;
use sat_base::{ProofStep, Var};

/// Introduces the name `user`, which must not be in use, and returns its new variable.
fn new_name<W: StepLog>(
    variables: &mut Variables,
    writer: &mut W,
    user: Var,
) -> Result<Var, NameError>
    requires valid { NamesInvariant variables.old (W.steps writer.old) }
    requires keeps { W.keeps writer.old }
    requires free { global_of variables.old user ≡ None }
    requires within { user ≤ names_used variables.old }
    ensures names { IfOk result (λ v. IntroducesOne variables.old variables.new (W.steps writer.old) (W.steps writer.new)
        user v) }
    ensures limit { IfErr result (λ e. FailsByVariableLimitOrFault e variables.old variables.new writer.old writer.new) }
    ensures keeps { OnOk result (W.keeps writer.new) }
    ensures emits { EmitsOrFails W.took W.broke result writer.old writer.new }
{
    let Some(global) = variables.room_for(user) else {
        return Err(NameError::VariableLimit);
    };
    let _within = global.index();
    variables.put_name(user, global)?;
    writer.step(&ProofStep::UserVarName {
        global,
        user: Some(user),
    })?;
    Ok(global)
}

#[tactic(auto, using(crate::proofs::lemmas::variables::NamingSteps::none_yet, crate::proofs::lemmas::variables::NamingSteps::last_named))]
/// Introduces all names up to `user`, beginning with the lowest one never used. Returns the variable of `user`.
fn introduce_up_to<W: StepLog>(
    variables: &mut Variables,
    writer: &mut W,
    user: Var,
) -> Result<Var, NameError>
    requires valid { NamesInvariant variables.old (W.steps writer.old) }
    requires keeps { W.keeps writer.old }
    requires new { names_used variables.old ≤ user }
    ensures variable { IfOk result (λ v. global_of variables.new user ≡ Some v) }
    ensures names { OnOk result (IntroducesAll variables.old variables.new (W.steps writer.old) (W.steps writer.new)
        (names_from (user + 1 - names_used variables.old) (names_used variables.old + 1))) }
    ensures leaves { OnOk result (LeavesRoom variables.old variables.new user) }
    ensures room { (us : List ℕ) → FailsOnlyByFault result variables.old (user ∷ us) }
    ensures keeps { OnOk result (W.keeps writer.new) }
    ensures emits { EmitsOrFails W.took W.broke result writer.old writer.new }
{
    for index in variables.global_from_user.fwd().watermark()..user.index() {
        new_name(variables, writer, Var::from_index(index))?;
    }
    new_name(variables, writer, user)
}

/// Returns the variable of a name. If the name is not in use, introduces it, together with all lower names that were
/// never used.
#[tactic(auto, using(crate::proofs::lemmas::variables::NamingSteps::last_named, crate::proofs::lemmas::variables::BroughtIn::ok_new))]
pub fn global_from_user<W: StepLog>(
    variables: &mut Variables,
    writer: &mut W,
    user: Var,
) -> Result<Var, NameError>
    requires valid { NamesInvariant variables.old (W.steps writer.old) }
    requires keeps { W.keeps writer.old }
    ensures variable { IfOk result (λ v. global_of variables.new user ≡ Some v) }
    ensures brought { OnOk result (IntroducesNameUnseen variables.old variables.new (W.steps writer.old) (W.steps writer.new) user) }
    ensures room { (us : List ℕ) → FailsOnlyByFault result variables.old (user ∷ us) }
    ensures keeps { OnOk result (W.keeps writer.new) }
    ensures emits { EmitsOrFails W.took W.broke result writer.old writer.new }
{
    if user.index() >= variables.global_from_user.fwd().watermark() {
        return introduce_up_to(variables, writer, user);
    }
    if variables.own_names {
        return Ok(user);
    }
    if let Some(global) = variables.global_from_user.fwd().get(user) {
        return Ok(global);
    }
    new_name(variables, writer, user)
}

/// Introduces a name and returns it: the lowest hidden name, or the lowest name never used if no name is hidden. If no
/// variable is left, nothing changes.
pub fn new_user_var<W: StepLog>(variables: &mut Variables, writer: &mut W) -> Result<Var, NameError>
    requires valid { NamesInvariant variables.old (W.steps writer.old) }
    requires keeps { W.keeps writer.old }
    ensures next { IfOk result (IsNextUser variables.old) }
    ensures brought { IfOk result (λ user. IntroducesNameUnseen variables.old variables.new (W.steps writer.old) (W.steps writer.new)
        user) }
    ensures limit { IfErr result (λ e. FailsByVariableLimitOrFault e variables.old variables.new writer.old writer.new) }
    ensures keeps { OnOk result (W.keeps writer.new) }
    ensures emits { EmitsOrFails W.took W.broke result writer.old writer.new }
{
    let Some(user) = variables.next_user() else {
        return Err(NameError::VariableLimit);
    };
    new_name(variables, writer, user)?;
    Ok(user)
}
