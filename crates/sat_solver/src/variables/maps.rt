//! Changes maps and data of variables.
ghost use Rattle.std.specs.Prelude.{ℕ, ◌≡◌, ◌==◌, ◌+◌, ◌≤◌, ◌<◌, max, length, None, Some, OnOk, if◌then◌else◌};
ghost use Rattle.std.specs.Prelude.{slice_index_or};
ghost use Rattle.sat_store.specs.variables.Maps.{target, AreInverse, Links, Unlinks};
ghost use Rattle.sat_store.specs.variables.VarData.{unused_variable};

use sat_base::Var;
use sat_store::{SamplingMode, VarBiMap, VarData};
use std::alloc::AllocError;

/// Maps `from` to `into`, and `into` back to `from`. Neither variable may already be mapped.
pub(crate) fn link(map: &mut VarBiMap, from: Var, into: Var) -> Result<(), AllocError>
    requires from_unmapped { target map.old.fwd from ≡ None }
    requires into_unmapped { target map.old.bwd into ≡ None }
    ensures linked { OnOk result (Links map.old map.new from into) }
    ensures inverse { OnOk result (AreInverse map.new) }
{
    map.fwd_mut().insert(into, from)?;
    let _inverse = map.fwd();
    Ok(())
}

#[tactic(auto, using(crate::proofs::lemmas::variables::MapLemmas::pushed))]
/// Sets the data of a variable. The index of the variable must be at most the length of the list.
pub(crate) fn put_data(list: &mut Vec<VarData>, var: Var, new: VarData) -> Result<(), AllocError>
    requires within { var ≤ length list.old.items }
    ensures put { OnOk result ((v : ℕ) → slice_index_or list.new.items v unused_variable ≡
        (if v == var then new else slice_index_or list.old.items v unused_variable)) }
    ensures size { OnOk result (length list.new.items ≡ max (length list.old.items) (var + 1)) }
{
    let index = var.index();
    if index == list.len() {
        list.push(new)?;
    } else {
        list[index] = new;
    }
    Ok(())
}

#[tactic(auto, using(crate::proofs::lemmas::variables::MapLemmas::pushed))]
/// Sets the variable of the index `solver`, which must be at most the length of the list.
pub(crate) fn put_global(list: &mut Vec<Var>, solver: Var, global: Var) -> Result<(), AllocError>
    requires within { solver ≤ length list.old.items }
    ensures put { OnOk result ((x : ℕ) → slice_index_or list.new.items x 0
        ≡ (if x == solver then global else slice_index_or list.old.items x 0)) }
    ensures size { OnOk result (length list.new.items ≡ max (length list.old.items) (solver + 1)) }
{
    let index = solver.index();
    if index == list.len() {
        list.push(global)?;
    } else {
        list[index] = global;
    }
    Ok(())
}

/// Removes the mapping between `from` and `into`.
pub(crate) fn unlink(map: &mut VarBiMap, from: Var, into: Var)
    requires { target map.old.fwd from ≡ Some into }
    ensures unlinked { Unlinks map.old map.new from into }
    ensures inverse { AreInverse map.new }
{
    map.fwd_mut().remove(from);
    let _inverse = map.fwd();
}

/// Sets the data of a variable, whose index must be less than the length of the list.
pub(crate) fn set_data(list: &mut Vec<VarData>, var: Var, new: VarData)
    requires within { var < length list.old.items }
    ensures put { (v : ℕ) → slice_index_or list.new.items v unused_variable ≡
        (if v == var then new else slice_index_or list.old.items v unused_variable) }
    ensures size { length list.new.items ≡ length list.old.items }
{
    list[var.index()] = new;
}

/// Sets the mode of a variable.
pub(crate) fn set_mode(list: &mut Vec<VarData>, var: Var, mode: SamplingMode)
    requires within { var < length list.old.items }
    ensures put { (v : ℕ) → slice_index_or list.new.items v unused_variable ≡
        (if v == var then record (slice_index_or list.old.items var unused_variable) { sampling_mode = mode }
        else slice_index_or list.old.items v unused_variable) }
    ensures size { length list.new.items ≡ length list.old.items }
{
    list[var.index()].sampling_mode = mode;
}

/// Sets whether a variable is marked as assumed.
pub(crate) fn set_assumed(list: &mut Vec<VarData>, var: Var, assumed: bool)
    requires within { var < length list.old.items }
    ensures put { (v : ℕ) → slice_index_or list.new.items v unused_variable ≡
        (if v == var then record (slice_index_or list.old.items var unused_variable) { assumed = assumed }
        else slice_index_or list.old.items v unused_variable) }
    ensures size { length list.new.items ≡ length list.old.items }
{
    list[var.index()].assumed = assumed;
}

/// Stores the value of a variable's unit, or `None`.
pub(crate) fn set_unit(list: &mut Vec<VarData>, var: Var, unit: Option<bool>)
    requires within { var < length list.old.items }
    ensures put { (v : ℕ) → slice_index_or list.new.items v unused_variable ≡
        (if v == var then record (slice_index_or list.old.items var unused_variable) { unit = unit }
        else slice_index_or list.old.items v unused_variable) }
    ensures size { length list.new.items ≡ length list.old.items }
{
    list[var.index()].unit = unit;
}
