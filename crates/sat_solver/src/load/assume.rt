//! Accepts assumptions over names.
ghost use Rattle.std.specs.Prelude.{ℕ, ◌≡◌, ◌<◌, OnOk, map, length, slice_index_or};
ghost use Rattle.sat_base.specs.steps.Steps.{Assumptions};
ghost use Rattle.sat_checker.specs.LiteralSets.{mentions};
ghost use Rattle.sat_solver.specs.session.Session.{session_after};
ghost use Rattle.sat_solver.specs.session.LiveClauses.{with_var};
ghost use Rattle.sat_store.specs.variables.VarData.{unused_variable};
ghost use Rattle.sat_solver.specs.variables.Variables.{VariablesInvariant, data_at};
ghost use Rattle.sat_solver.specs.load.Literals.{HaveNoWitness, AreImages, global_with_index};
ghost use Rattle.sat_solver.specs.load.Assumed.{MarksAssumed, StoresMarks, IntroducesAssumptions};
ghost use Rattle.sat_solver.specs.variables.Calls.{NamesInvariant};
ghost use Rattle.sat_solver.specs.variables.NameFailures.{EmitsOrFails, FailsOnlyByFault};
ghost use Rattle.sat_solver.specs.variables.VariableRoom.{user_vars_in};
ghost use Rattle.sat_parts.specs.clause.Glue.{VariablesBelow};

use crate::load::literals::{MappedLits, solver_from_user_lits};
use crate::proof::map_step::map_lits;
use crate::variables::Variables;
use crate::variables::error::NameError;
use crate::variables::log::StepLog;
use crate::variables::maps::set_assumed;
use sat_base::{Lit, ProofStep};
use sat_store::VarData;
use std::alloc::AllocError;

/// Sets whether the variables of `lits` are marked as assumed.
fn mark_all(list: &mut Vec<VarData>, lits: &[Lit], assumed: bool)
    requires within { VariablesBelow lits.now (length list.old.items) }
    ensures marks { MarksAssumed (λ v. slice_index_or list.old.items v unused_variable)
        (λ v. slice_index_or list.new.items v unused_variable) lits.now assumed }
    ensures size { length list.new.items ≡ length list.old.items }
{
    for lit in lits {
        set_assumed(list, lit.var(), assumed);
    }
}

/// Clears the marks of the earlier assumptions. Lists the new assumptions over proof variables, and marks
/// their variables.
fn change_marks(
    variables: &mut Variables,
    _user: &[Lit],
    asked: &mut MappedLits,
) -> Result<(), AllocError>
    requires tidy { VariablesInvariant variables.old }
    requires marked { (v : ℕ) → mentions asked.old.globals.items v ≡ (data_at variables.old v).assumed }
    requires images { AreImages variables.old _user.now asked.old.order.items }
    ensures puts { OnOk result (StoresMarks variables.old variables.new asked.new.globals.items) }
    ensures globals { OnOk result (asked.new.globals.items
        ≡ map (with_var (global_with_index variables.old)) asked.old.order.items) }
    ensures order { asked.new.order ≡ asked.old.order }
    ensures given { asked.new.given ≡ asked.old.given }
{
    mark_all(&mut variables.var_data, &asked.globals, false);
    map_lits(&variables.globals, &asked.order, &mut asked.globals)?;
    mark_all(&mut variables.var_data, &asked.globals, true);
    Ok(())
}

/// Replaces the assumptions with `lits`, none of whose names may have the mode witness. `asked` must contain the
/// earlier assumptions over proof variables, and contains the new assumptions afterwards.
pub fn assume<W: StepLog>(
    variables: &mut Variables,
    writer: &mut W,
    lits: &[Lit],
    asked: &mut MappedLits,
) -> Result<(), NameError>
    requires valid { NamesInvariant variables.old (W.steps writer.old) }
    requires keeps { W.keeps writer.old }
    requires sampled { HaveNoWitness variables.old lits.now }
    requires asked { asked.old.globals.items ≡ (session_after (W.steps writer.old)).assumed }
    ensures assumes { OnOk result (IntroducesAssumptions variables.old variables.new (W.steps writer.old)
        (W.steps writer.new) lits.now asked.new) }
    ensures room { FailsOnlyByFault result variables.old (user_vars_in lits.now) }
    ensures keeps { OnOk result (W.keeps writer.new) }
    ensures emits { EmitsOrFails W.took W.broke result writer.old writer.new }
{
    solver_from_user_lits(variables, writer, lits, asked)?;
    change_marks(variables, lits, asked)?;
    writer.step(&ProofStep::Assumptions {
        assumptions: &asked.globals,
    })?;
    Ok(())
}
