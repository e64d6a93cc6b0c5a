//! Sets modes of variables, hides names, and deletes variables.
ghost use Rattle.std.specs.Prelude.{ℕ, ◌≡◌, ◌⊎◌, ◌+◌, true, false, Some, None, [], ◌∷◌, ◌++◌, map, IfErr, OnOk};
ghost use Rattle.sat_base.specs.script.ScriptState.{without_name, with_mode, introduce, new_names};
ghost use Rattle.sat_solver.specs.session.Session.{session_after};
ghost use Rattle.sat_solver.specs.variables.Variables.{data_at, global_of, user_of, solver_of, script_mode, mode_for};
ghost use Rattle.sat_base.specs.steps.Steps.{UserVarName, ChangeSamplingMode, DeleteVar};
ghost use Rattle.sat_solver.specs.session.AllowedSteps.{OnlyAllowedSteps};
ghost use Rattle.sat_solver.specs.variables.NamingSteps.{DeletesIdleVariable, LeavesNoIdleVariable, IsHidingStep};
ghost use Rattle.sat_solver.specs.variables.NamingSteps.{IsModeStep};
ghost use Rattle.sat_solver.specs.variables.NamingSteps.{ChangesModeTo};
ghost use Rattle.sat_checker.specs.matching.Expected.{NewName, NoName};
ghost use Rattle.sat_solver.specs.variables.Naming.{VariablesAreKeptOrNew, KeepsOthers};
ghost use Rattle.sat_solver.specs.variables.Calls.{NamesInvariant, ChangesScriptState, KeepsScriptState};
ghost use Rattle.sat_solver.specs.variables.Search.{KeepsWhatSearchSees, KeepsSearchUpToUnits, ForgetsUnits};
ghost use Rattle.sat_solver.specs.variables.Search.{KeepsUnits};
ghost use Rattle.sat_solver.specs.variables.Refusing.{IsAssumed};
ghost use Rattle.sat_solver.specs.variables.NameFailures.{IsFailure, EmitsOrFails, FailsOnlyByFault};

use crate::variables::Variables;
use crate::variables::error::NameError;
use crate::variables::log::StepLog;
use crate::variables::user_vars::global_from_user;
use sat_base::{ProofStep, Var};
use sat_store::SamplingMode;

/// Hides the variable `global`, whose name is `user`, and writes the step.
fn hide_global<W: StepLog>(
    variables: &mut Variables,
    writer: &mut W,
    user: Var,
    global: Var,
) -> Result<(), NameError>
    requires valid { NamesInvariant variables.old (W.steps writer.old) }
    requires keeps { W.keeps writer.old }
    requires named { global_of variables.old user ≡ Some global }
    ensures does { OnOk result (ChangesScriptState variables.old variables.new (W.steps writer.old) (W.steps writer.new)
        (without_name (user + 1)) (λ j. NoName (user + 1) ∷ [])) }
    ensures unseen { OnOk result (KeepsWhatSearchSees variables.old variables.new (W.steps writer.old) (W.steps writer.new)) }
    ensures others { OnOk result (KeepsOthers variables.old variables.new user) }
    ensures only { OnOk result ((u v : ℕ) → global_of variables.new u ≡ Some v → global_of variables.old u ≡ Some v) }
    ensures live { OnOk result ((data_at variables.new global).deleted ≡ false) }
    ensures nameless { OnOk result (user_of variables.new global ≡ None) }
    ensures step { OnOk result (W.steps writer.new ≡ UserVarName global None ∷ W.steps writer.old) }
    ensures fails { IfErr result IsFailure }
    ensures keeps { OnOk result (W.keeps writer.new) }
    ensures emits { EmitsOrFails W.took W.broke result writer.old writer.new }
{
    variables.put_hidden(user, global);
    writer.step(&ProofStep::UserVarName { global, user: None })?;
    Ok(())
}

/// Deletes a hidden variable, which must have no index and must not be assumed. Such a variable is in no clause.
pub fn delete_var<W: StepLog>(
    variables: &mut Variables,
    writer: &mut W,
    global: Var,
) -> Result<(), NameError>
    requires valid { NamesInvariant variables.old (W.steps writer.old) }
    requires keeps { W.keeps writer.old }
    requires live { (data_at variables.old global).deleted ≡ false }
    requires nameless { user_of variables.old global ≡ None }
    requires without { solver_of variables.old global ≡ None }
    requires unmarked { (data_at variables.old global).assumed ≡ false }
    ensures does { OnOk result (KeepsScriptState variables.old variables.new (W.steps writer.old) (W.steps writer.new)) }
    ensures step { OnOk result (W.steps writer.new ≡ DeleteVar global ∷ W.steps writer.old) }
    ensures solvers { OnOk result (variables.new.solver_from_global ≡ variables.old.solver_from_global) }
    ensures globals { OnOk result (variables.new.globals ≡ variables.old.globals) }
    ensures users { OnOk result (variables.new.global_from_user ≡ variables.old.global_from_user) }
    ensures forgets { OnOk result (ForgetsUnits (session_after (W.steps writer.old))
        (session_after (W.steps writer.new)) global) }
    ensures fails { IfErr result IsFailure }
    ensures keeps { OnOk result (W.keeps writer.new) }
    ensures emits { EmitsOrFails W.took W.broke result writer.old writer.new }
{
    variables.put_deleted(global);
    writer.step(&ProofStep::DeleteVar { var: global })?;
    Ok(())
}

/// Deletes a hidden variable if it has no index and is not assumed. Such a variable is in no clause.
pub(crate) fn delete_idle<W: StepLog>(
    variables: &mut Variables,
    writer: &mut W,
    global: Var,
) -> Result<(), NameError>
    requires valid { NamesInvariant variables.old (W.steps writer.old) }
    requires keeps { W.keeps writer.old }
    requires live { (data_at variables.old global).deleted ≡ false }
    requires nameless { user_of variables.old global ≡ None }
    ensures does { OnOk result (KeepsScriptState variables.old variables.new (W.steps writer.old) (W.steps writer.new)) }
    ensures units { OnOk result (KeepsUnits variables.new (W.steps writer.old) (W.steps writer.new)) }
    ensures alike { OnOk result (KeepsSearchUpToUnits variables.old variables.new (W.steps writer.old) (W.steps writer.new)) }
    ensures goes { OnOk result (DeletesIdleVariable variables.old (W.steps writer.old) (W.steps writer.new) global) }
    ensures users { OnOk result (variables.new.global_from_user ≡ variables.old.global_from_user) }
    ensures fails { IfErr result IsFailure }
    ensures keeps { OnOk result (W.keeps writer.new) }
    ensures emits { EmitsOrFails W.took W.broke result writer.old writer.new }
{
    if variables.is_marked(global) {
        return Ok(());
    }
    if variables.solver_from_global.fwd().get(global).is_some() {
        return Ok(());
    }
    delete_var(variables, writer, global)?;
    Ok(())
}

/// Introduces a name if it is not in use, and hides its variable. If the variable has no index, it is deleted
/// immediately. The name must not be assumed.
pub fn hide_var<W: StepLog>(
    variables: &mut Variables,
    writer: &mut W,
    user: Var,
) -> Result<(), NameError>
    requires valid { NamesInvariant variables.old (W.steps writer.old) }
    requires keeps { W.keeps writer.old }
    requires free { IsAssumed variables.old user → ⊥ }
    ensures does { OnOk result (ChangesScriptState variables.old variables.new (W.steps writer.old) (W.steps writer.new)
        (λ j. without_name (user + 1) (introduce (user + 1) j))
        (λ j. map NewName (new_names (user + 1) j) ++ (NoName (user + 1) ∷ []))) }
    ensures others { OnOk result (KeepsOthers variables.old variables.new user) }
    ensures fresh { OnOk result (VariablesAreKeptOrNew variables.old variables.new) }
    ensures units { OnOk result (KeepsUnits variables.new (W.steps writer.old) (W.steps writer.new)) }
    ensures alike { OnOk result (KeepsSearchUpToUnits variables.old variables.new (W.steps writer.old) (W.steps writer.new)) }
    ensures comes { OnOk result (OnlyAllowedSteps IsHidingStep (W.steps writer.old) (W.steps writer.new)) }
    ensures gone { OnOk result (LeavesNoIdleVariable (W.steps writer.new)) }
    ensures room { FailsOnlyByFault result variables.old (user ∷ []) }
    ensures keeps { OnOk result (W.keeps writer.new) }
    ensures emits { EmitsOrFails W.took W.broke result writer.old writer.new }
{
    let global = global_from_user(variables, writer, user)?;
    hide_global(variables, writer, user, global)?;
    delete_idle(variables, writer, global)
}

/// Returns the mode sample if `sample` is true, and witness otherwise. The mode hide is set only when a variable loses
/// its name.
fn mode_of(sample: bool) -> SamplingMode
    ensures { result ≡ mode_for sample }
{
    if sample {
        SamplingMode::Sample
    } else {
        SamplingMode::Witness
    }
}

/// Returns `true` if `mode` is the mode that `sample` stands for: sample if it is true, and witness otherwise.
#[tactic(auto, using(crate::proofs::lemmas::variables::ModeChanges::other_modes))]
fn is_mode(mode: SamplingMode, sample: bool) -> bool
    ensures same { result ≡ true → mode ≡ mode_for sample }
    ensures other { result ≡ false → mode ≡ mode_for sample → ⊥ }
{
    match mode {
        SamplingMode::Sample => sample,
        SamplingMode::Witness => !sample,
        SamplingMode::Hide => false,
    }
}

/// Sets the mode of `global`, the variable of the name `user`, to sample if `sample` is true, and to witness otherwise.
/// If the variable already has this mode, nothing is written.
fn set_global_mode<W: StepLog>(
    variables: &mut Variables,
    writer: &mut W,
    user: Var,
    global: Var,
    sample: bool,
) -> Result<(), NameError>
    requires valid { NamesInvariant variables.old (W.steps writer.old) }
    requires keeps { W.keeps writer.old }
    requires named { global_of variables.old user ≡ Some global }
    ensures does { OnOk result (ChangesScriptState variables.old variables.new (W.steps writer.old) (W.steps writer.new)
        (with_mode (script_mode sample) (user + 1)) (λ j. [])) }
    ensures sets { OnOk result ((W.steps writer.new ≡ W.steps writer.old)
        ⊎ ((W.steps writer.new ≡ ChangeSamplingMode global sample ∷ W.steps writer.old)
        × ChangesModeTo (session_after (W.steps writer.old)) global sample)) }
    ensures users { OnOk result (variables.new.global_from_user ≡ variables.old.global_from_user) }
    ensures unseen { OnOk result (KeepsWhatSearchSees variables.old variables.new (W.steps writer.old) (W.steps writer.new)) }
    ensures fails { IfErr result IsFailure }
    ensures keeps { OnOk result (W.keeps writer.new) }
    ensures emits { EmitsOrFails W.took W.broke result writer.old writer.new }
{
    if is_mode(variables.mode(global), sample) {
        return Ok(());
    }
    variables.put_mode(global, mode_of(sample));
    writer.step(&ProofStep::ChangeSamplingMode {
        var: global,
        sample,
    })?;
    Ok(())
}

/// Introduces a name if it is not in use, and sets the mode of its variable. The name must not be assumed.
pub fn set_sampling_mode<W: StepLog>(
    variables: &mut Variables,
    writer: &mut W,
    user: Var,
    sample: bool,
) -> Result<(), NameError>
    requires valid { NamesInvariant variables.old (W.steps writer.old) }
    requires keeps { W.keeps writer.old }
    requires free { IsAssumed variables.old user → ⊥ }
    ensures does { OnOk result (ChangesScriptState variables.old variables.new (W.steps writer.old) (W.steps writer.new)
        (λ j. with_mode (script_mode sample) (user + 1) (introduce (user + 1) j))
        (λ j. map NewName (new_names (user + 1) j) ++ [])) }
    ensures others { OnOk result (KeepsOthers variables.old variables.new user) }
    ensures fresh { OnOk result (VariablesAreKeptOrNew variables.old variables.new) }
    ensures unseen { OnOk result (KeepsWhatSearchSees variables.old variables.new (W.steps writer.old) (W.steps writer.new)) }
    ensures comes { OnOk result (OnlyAllowedSteps (IsModeStep (user + 1) sample) (W.steps writer.old)
        (W.steps writer.new)) }
    ensures room { FailsOnlyByFault result variables.old (user ∷ []) }
    ensures keeps { OnOk result (W.keeps writer.new) }
    ensures emits { EmitsOrFails W.took W.broke result writer.old writer.new }
{
    let global = global_from_user(variables, writer, user)?;
    set_global_mode(variables, writer, user, global, sample)
}
