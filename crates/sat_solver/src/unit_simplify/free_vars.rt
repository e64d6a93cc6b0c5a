//! Releases the indices of variables that are in no clause.
ghost use Rattle.std.specs.Prelude.{◌≡◌, ◌+◌, ◌<◌, ◌≤◌, IfErr, OnOk, Some, false, true, length, slice_index_or};
ghost use Rattle.std.specs.Prelude.{slice_set};
ghost use Rattle.sat_base.specs.values.Literals.{var_limit};
ghost use Rattle.sat_solver.specs.session.Session.{session_after};
ghost use Rattle.sat_solver.specs.variables.Variables.{solver_of, IsUnitOf, IsInNoNonUnitClause};
ghost use Rattle.sat_solver.specs.variables.Calls.{NamesInvariant};
ghost use Rattle.sat_solver.specs.variables.NameFailures.{IsFailure, EmitsOrFails};
ghost use Rattle.sat_parts.specs.parts.Whole.{InNoClause};
ghost use Rattle.sat_solver.specs.unit_simplify.FreedIndices.{FreesIndex, CanFreeIndices, FreesSome, IsIndexOfAssumed};
ghost use Rattle.sat_solver.specs.unit_simplify.FreedIndices.{IndicesAreUsed};
ghost use Rattle.sat_solver.specs.unit_simplify.FreedVars.{freed_below, freed_search, MarksAtMost};

use crate::context::Search;
use crate::variables::Variables;
use crate::variables::error::NameError;
use crate::variables::log::StepLog;
use crate::variables::modes::delete_idle;
use crate::variables::solver_vars::remove_solver_var;
use sat_base::Var;
use sat_parts::SearchState;
use sat_parts::parts::unused::mark_used;

/// Removes the index of the variable `global`, whose unit must already be stored. If the variable is hidden and not
/// assumed, deletes it.
fn remove_var<S: StepLog>(
    variables: &mut Variables,
    writer: &mut S,
    global: Var,
    index: Var,
) -> Result<(), NameError>
    requires valid { NamesInvariant variables.old (S.steps writer.old) }
    requires keeps { S.keeps writer.old }
    requires there { solver_of variables.old global ≡ Some index }
    requires unit { IsUnitOf variables.old (session_after (S.steps writer.old)) global }
    requires unused { IsInNoNonUnitClause (session_after (S.steps writer.old)) global }
    ensures gone { OnOk result (FreesIndex variables.old variables.new (S.steps writer.old) (S.steps writer.new) global) }
    ensures keeps { OnOk result (S.keeps writer.new) }
    ensures fails { IfErr result IsFailure }
    ensures emits { EmitsOrFails S.took S.broke result writer.old writer.new }
{
    remove_solver_var(variables, writer, global, index)?;
    if variables.global_from_user.bwd().get(global).is_some() {
        return Ok(());
    }
    delete_idle(variables, writer, global)
}

/// Marks `index` in `used`.
fn mark(used: &mut Vec<bool>, index: Var)
    requires { index < length used.old.items }
    ensures { used.new.items ≡ slice_set used.old.items index true }
{
    used[index.index()] = true;
}

/// Releases `index`, which no clause may use. If its variable is assumed, or no variable has the index, marks the index
/// in `used` instead. The search keeps the value of the index.
fn release_unused<S: StepLog>(
    variables: &mut Variables,
    writer: &mut S,
    search: &Search,
    used: &mut Vec<bool>,
    index: Var,
) -> Result<(), NameError>
    requires keeps { S.keeps writer.old }
    requires may { CanFreeIndices variables.old (S.steps writer.old) (freed_search used.old.items index search.now) }
    requires there { index < length search.now.parts.assignment.current }
    requires size { index < length used.old.items }
    requires unmarked { slice_index_or used.old.items index false ≡ false }
    requires unused { InNoClause search.now.parts index }
    ensures frees { OnOk result (FreesSome variables.old variables.new (S.steps writer.old) (S.steps writer.new)
        (freed_search used.old.items index search.now) (freed_search used.new.items (index + 1) search.now)) }
    ensures left { OnOk result (IsIndexOfAssumed variables.new (session_after (S.steps writer.old)) index) }
    ensures marks { OnOk result (MarksAtMost index used.old.items used.new.items) }
    ensures keeps { OnOk result (S.keeps writer.new) }
    ensures fails { IfErr result IsFailure }
    ensures emits { EmitsOrFails S.took S.broke result writer.old writer.new }
{
    let Some(global) = variables.solver_from_global.bwd().get(index) else {
        mark(used, index);
        return Ok(());
    };
    if variables.is_marked(global) {
        mark(used, index);
        return Ok(());
    }
    variables.set_unit(global, search.parts.assignment.var_value(index));
    remove_var(variables, writer, global, index)?;
    Ok(())
}

/// Clears the values of the indices that are not marked in `used`, and makes these indices unavailable for decisions,
/// from the last to the first.
fn free_unmarked(parts: &mut SearchState, used: &Vec<bool>)
    requires size { length used.now.items ≤ length parts.old.assignment.current }
    requires queue { length used.now.items ≤ length parts.old.vsids.available }
    requires few { length used.now.items ≤ var_limit }
    ensures { parts.new ≡ freed_below used.now.items (length used.now.items) parts.old }
{
    for index in (0..used.len()).rev() {
        if used[index] {
            continue;
        }
        let var = Var::from_index(index);
        parts.assignment.set_var(var, None);
        parts.vsids.make_unavailable(var);
    }
}

/// Releases, in order, the indices of the variables that are in no clause and not assumed. Stores the units of these
/// variables, and deletes those that are hidden.
pub fn free_indices<S: StepLog>(
    variables: &mut Variables,
    writer: &mut S,
    search: &mut Search,
    used: &mut Vec<bool>,
) -> Result<(), NameError>
    requires keeps { S.keeps writer.old }
    requires may { CanFreeIndices variables.old (S.steps writer.old) search.old }
    ensures frees { OnOk result (FreesSome variables.old variables.new (S.steps writer.old) (S.steps writer.new)
        search.old search.new) }
    ensures left { OnOk result (IndicesAreUsed variables.new (session_after (S.steps writer.old)) search.old.parts) }
    ensures keeps { OnOk result (S.keeps writer.new) }
    ensures fails { IfErr result IsFailure }
    ensures emits { EmitsOrFails S.took S.broke result writer.old writer.new }
{
    mark_used(used, &search.parts)?;
    for index in 0..used.len() {
        if used[index] {
            continue;
        }
        release_unused(variables, writer, search, used, Var::from_index(index))?;
    }
    free_unmarked(&mut search.parts, used);
    Ok(())
}
