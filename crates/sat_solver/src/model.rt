//! Models over proof variables and over names, from the values of the search.
ghost use Rattle.std.specs.Prelude.{◌≡◌, ◌<◌, ◌++◌, OnOk, Option, None, slice_index_or};
ghost use Rattle.sat_solver.specs.variables.Variables.{VariablesInvariant, global_of, names_used, variables_used};
ghost use Rattle.sat_solver.specs.Models.{has_true_value, value_in, literal_in, model_to, name_literal, named_to};

use crate::variables::Variables;
use sat_base::{Lit, Var};
use std::alloc::AllocError;

/// Returns `true` if `value` is true. In a model, a variable without a value is false.
fn holds(value: Option<bool>) -> bool
    ensures { result ≡ has_true_value value }
{
    match value {
        Some(value) => value,
        None => false,
    }
}

/// Returns the value of the index `solver` of the search, or `false` if the index has no value.
fn value_at(values: &[Option<bool>], solver: Var) -> bool
    ensures { result ≡ has_true_value (slice_index_or values.now solver None) }
{
    let index = solver.index();
    if index >= values.len() {
        return false;
    }
    holds(values[index])
}

/// Returns the value of a proof variable in a model. If the variable has an index, this is the value of the index;
/// otherwise it is the value of the variable's unit, or `false` if there is none.
pub fn value_of(variables: &Variables, values: &[Option<bool>], global: Var) -> bool
    requires within { global < variables_used variables.now }
    ensures { result ≡ value_in variables.now values.now global }
{
    match variables.solver_from_global.fwd().get(global) {
        Some(solver) => value_at(values, solver),
        None => holds(variables.unit(global)),
    }
}

/// If a proof variable is in use, appends to `lits` the variable's literal that is true in the model.
fn push_value(
    variables: &Variables,
    values: &[Option<bool>],
    global: Var,
    lits: &mut Vec<Lit>,
) -> Result<(), AllocError>
    requires within { global < variables_used variables.now }
    ensures { OnOk result (lits.new.items ≡ lits.old.items ++ literal_in variables.now values.now global) }
{
    if variables.is_deleted(global) {
        return Ok(());
    }
    let value = value_of(variables, values, global);
    lits.push(global.lit(value))?;
    Ok(())
}

/// Replaces the content of `lits` with a model: the true literal of every proof variable in use, in increasing order.
pub fn reconstruct_global_model(
    variables: &Variables,
    values: &[Option<bool>],
    lits: &mut Vec<Lit>,
) -> Result<(), AllocError>
    requires tidy { VariablesInvariant variables.now }
    ensures { OnOk result (lits.new.items ≡ model_to variables.now values.now (variables_used variables.now)) }
{
    lits.clear();
    let count = variables.used_count();
    for index in 0..count {
        push_value(variables, values, Var::from_index(index), lits)?;
    }
    Ok(())
}

/// If a name is in use, appends to `lits` the name's literal that is true in the model.
fn push_named(
    variables: &Variables,
    values: &[Option<bool>],
    user: Var,
    lits: &mut Vec<Lit>,
) -> Result<(), AllocError>
    requires tidy { VariablesInvariant variables.now }
    ensures { OnOk result (lits.new.items ≡ lits.old.items ++ name_literal variables.now values.now user
        (global_of variables.now user)) }
{
    let Some(global) = variables.global_from_user.fwd().get(user) else {
        return Ok(());
    };
    let value = value_of(variables, values, global);
    lits.push(user.lit(value))?;
    Ok(())
}

/// Replaces the content of `lits` with a model: the true literal of every name in use, in increasing order.
pub fn named_lits(
    variables: &Variables,
    values: &[Option<bool>],
    lits: &mut Vec<Lit>,
) -> Result<(), AllocError>
    requires tidy { VariablesInvariant variables.now }
    ensures { OnOk result (lits.new.items ≡ named_to variables.now values.now (names_used variables.now)) }
{
    lits.clear();
    let count = variables.name_count();
    for index in 0..count {
        push_named(variables, values, Var::from_index(index), lits)?;
    }
    Ok(())
}
