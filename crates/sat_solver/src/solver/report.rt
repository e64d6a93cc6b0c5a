//! Writes answers to the proof, over proof variables, and lists failed cores for the caller, over names.
ghost use Rattle.std.specs.Prelude.{◌≡◌, OnOk, map};
ghost use Rattle.sat_solver.specs.variables.Variables.{global_at};
ghost use Rattle.sat_solver.specs.cdcl.Iterations.{IsComplete, IsFalseAssumption};
ghost use Rattle.sat_solver.specs.solver.Joined.{NamesSearchInvariant, lit_over_names, user_by};
ghost use Rattle.sat_solver.specs.solver.Answering.{WritesModelOrFails, WritesFailedCoreOrFails};

use crate::assumptions::failed_core::write_core;
use crate::cdcl::fault::Fault;
use crate::context::Context;
use crate::model::reconstruct_global_model;
use crate::variables::Variables;
use sat_base::{CountedWrite, Lit, ProofStep, Var};
use sat_checker::ProofProcessor;
use std::alloc::AllocError;

/// Returns the name of the variable whose index is `index`, or `None`.
fn name_at(names: &Variables, index: Var) -> Option<Var>
    ensures { result ≡ user_by names.now (global_at names.now index) }
{
    match names.solver_from_global.bwd().get(index) {
        Some(global) => names.global_from_user.bwd().get(global),
        None => None,
    }
}

/// Returns the literal over names for `lit`, a literal of the search. If its variable has no name, returns `lit`.
fn name_lit(names: &Variables, lit: Lit) -> Lit
    ensures { result ≡ lit_over_names names.now lit }
{
    match name_at(names, lit.var()) {
        Some(user) => user.lit(lit.is_positive()),
        None => lit,
    }
}

/// Replaces the content of `named` with the literals over names for `lits`, which are literals of the search.
fn name_lits(names: &Variables, lits: &[Lit], named: &mut Vec<Lit>) -> Result<(), AllocError>
    ensures { OnOk result (named.new.items ≡ map (lit_over_names names.now) lits.now) }
{
    named.clear();
    for lit in lits {
        named.push(name_lit(names, *lit))?;
    }
    Ok(())
}

/// Writes the model that a search found: a literal for every proof variable in use. Stores the literals in `model`.
pub fn write_model<W: CountedWrite + Drop, P: ProofProcessor>(
    context: &mut Context<W, P>,
    names: &Variables,
    model: &mut Vec<Lit>,
) -> Result<(), Fault>
    requires joined { NamesSearchInvariant names.now context.old }
    requires complete { IsComplete context.old.search.assumptions.lits.items context.old.search.parts }
    ensures { WritesModelOrFails W.seen result names.now context.old context.new }
{
    let values = context.search.parts.assignment.assignment();
    reconstruct_global_model(names, values, model)?;
    let step = ProofStep::Model { assignment: model };
    context.proof.add_step(&step)?;
    Ok(())
}

/// Writes the failed core, which consists of assumptions that contradict the clauses. Lists the core over names
/// in `failed_core`.
pub fn write_failed_core<W: CountedWrite + Drop, P: ProofProcessor>(
    context: &mut Context<W, P>,
    names: &Variables,
    failed_core: &mut Vec<Lit>,
) -> Result<(), Fault>
    requires joined { NamesSearchInvariant names.now context.old }
    requires failing { IsFalseAssumption context.old.search.assumptions.lits.items context.old.search.parts context.old.search.failed }
    ensures { WritesFailedCoreOrFails W.seen result names.now context.old context.new failed_core.new.items }
{
    write_core(&mut context.proof, &mut context.search)?;
    name_lits(names, context.search.analysis.core(), failed_core)?;
    Ok(())
}
