//! Gives variables indices of the search, removes such indices, and writes the steps.
ghost use Rattle.std.specs.Prelude.{◌≡◌, false, Some, None, IfOk, IfErr, OnOk};
ghost use Rattle.sat_solver.specs.session.Session.{session_after};
ghost use Rattle.sat_solver.specs.variables.Variables.{data_at, solver_of, IsUnitOf, IsInNoNonUnitClause};
ghost use Rattle.sat_solver.specs.variables.Calls.{NamesInvariant};
ghost use Rattle.sat_solver.specs.variables.Indexing.{Indexes, Unindexes};
ghost use Rattle.sat_solver.specs.variables.NameFailures.{IsFailure, EmitsOrFails};

use crate::variables::Variables;
use crate::variables::error::NameError;
use crate::variables::log::StepLog;
use sat_base::{ProofStep, Var};

/// An index of the search that a variable was given, and the value of the variable's unit, or `None`.
#[derive(Clone, Copy)]
pub struct Given {
    pub solver: Var,
    pub unit: Option<bool>,
}

/// Gives the lowest free index to a variable that has no index, and returns the index. Appends the index and the value
/// of the variable's unit to `given`.
fn new_index<W: StepLog>(
    variables: &mut Variables,
    writer: &mut W,
    global: Var,
    given: &mut Vec<Given>,
) -> Result<Var, NameError>
    requires valid { NamesInvariant variables.old (W.steps writer.old) }
    requires keeps { W.keeps writer.old }
    requires live { (data_at variables.old global).deleted ≡ false }
    requires without { solver_of variables.old global ≡ None }
    ensures indexes { IfOk result (Indexes variables.old variables.new (W.steps writer.old) (W.steps writer.new)
        given.old.items given.new.items global) }
    ensures fails { IfErr result IsFailure }
    ensures keeps { OnOk result (W.keeps writer.new) }
    ensures emits { EmitsOrFails W.took W.broke result writer.old writer.new }
{
    let solver = variables.next_index(global);
    variables.put_index(global, solver)?;
    let unit = variables.unit(global);
    given.push(Given { solver, unit })?;
    writer.step(&ProofStep::SolverVarName {
        global,
        solver: Some(solver),
    })?;
    Ok(solver)
}

/// Returns the index of a variable. A variable without an index gets the lowest free one: this writes the step, and
/// appends the index and the value of the variable's unit to `given`.
pub fn solver_from_global<W: StepLog>(
    variables: &mut Variables,
    writer: &mut W,
    global: Var,
    given: &mut Vec<Given>,
) -> Result<Var, NameError>
    requires valid { NamesInvariant variables.old (W.steps writer.old) }
    requires keeps { W.keeps writer.old }
    requires live { (data_at variables.old global).deleted ≡ false }
    ensures indexes { IfOk result (Indexes variables.old variables.new (W.steps writer.old) (W.steps writer.new)
        given.old.items given.new.items global) }
    ensures fails { IfErr result IsFailure }
    ensures keeps { OnOk result (W.keeps writer.new) }
    ensures emits { EmitsOrFails W.took W.broke result writer.old writer.new }
{
    if let Some(solver) = variables.solver_from_global.fwd().get(global) {
        return Ok(solver);
    }
    new_index(variables, writer, global, given)
}

/// Removes the index of a variable. The unit of the variable must already be stored, and no clause of two or more
/// literals may contain the variable.
pub fn remove_solver_var<W: StepLog>(
    variables: &mut Variables,
    writer: &mut W,
    global: Var,
    solver: Var,
) -> Result<(), NameError>
    requires valid { NamesInvariant variables.old (W.steps writer.old) }
    requires keeps { W.keeps writer.old }
    requires there { solver_of variables.old global ≡ Some solver }
    requires unit { IsUnitOf variables.old (session_after (W.steps writer.old)) global }
    requires unused { IsInNoNonUnitClause (session_after (W.steps writer.old)) global }
    ensures gone { OnOk result (Unindexes variables.old variables.new (W.steps writer.old) (W.steps writer.new) global
        solver) }
    ensures fails { IfErr result IsFailure }
    ensures keeps { OnOk result (W.keeps writer.new) }
    ensures emits { EmitsOrFails W.took W.broke result writer.old writer.new }
{
    variables.take_index(global, solver);
    writer.step(&ProofStep::SolverVarName {
        global,
        solver: None,
    })?;
    Ok(())
}
