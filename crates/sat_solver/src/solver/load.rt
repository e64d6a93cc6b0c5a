//! Passes clauses and assumptions over names to a search.
ghost use Rattle.sat_solver.specs.load.Literals.{HaveNoWitness};
ghost use Rattle.std.specs.Prelude.{◌≡◌, IfErr};
ghost use Rattle.sat_solver.specs.variables.VariableRoom.{HasVariablesFor, user_vars_in};
ghost use Rattle.sat_parts.specs.parts.Full.{IsBufferFull};
ghost use Rattle.sat_solver.specs.cdcl.StepEffects.{IsFault, IsFaultOr};
ghost use Rattle.sat_solver.specs.proof.ProofView.{session_of};
ghost use Rattle.sat_solver.specs.solver.Joined.{NamesSearchInvariant};
ghost use Rattle.sat_solver.specs.solver.AddingToSearch.{AddsClauseToSearch, SetsAssumptionsInSearch};

use crate::assumptions::set_assumptions;
use crate::cdcl::fault::Fault;
use crate::context::Context;
use crate::load::assume::assume;
use crate::load::clause::add_clause;
use crate::load::literals::MappedLits;
use crate::load::load_clause;
use crate::load::restart::full_restart;
use crate::variables::Variables;
use crate::variables::initialize::new_indices;
use sat_base::{CountedWrite, Lit};
use sat_checker::ProofProcessor;
use sat_parts::parts::sorting::Sorting;

/// Buffers in which a clause is assembled.
#[derive(Drop)]
pub struct Loading {
    pub taken: MappedLits,
    pub sorting: Sorting,
}

/// Restarts the search and adds the clause `lits`, none of whose names may have the mode witness. Returns `true` if
/// the formula may still be satisfiable.
pub fn add_clause_to_search<W: CountedWrite + Drop, P: ProofProcessor>(
    context: &mut Context<W, P>,
    names: &mut Variables,
    lits: &[Lit],
    loading: &mut Loading,
) -> Result<bool, Fault>
    requires joined { NamesSearchInvariant names.old context.old }
    requires sampled { HaveNoWitness names.old lits.now }
    ensures takes { AddsClauseToSearch W.seen result names.old names.new context.old context.new lits.now }
    ensures room { HasVariablesFor names.old (user_vars_in lits.now) → IfErr result (IsFaultOr (IsBufferFull context.new.search.parts)) }
{
    full_restart(&mut context.search);
    let both_signs = add_clause(names, &mut context.proof, lits, &mut loading.taken)?;
    new_indices(&mut context.search, &names.globals, &loading.taken.given)?;
    if both_signs {
        return Ok(true);
    }
    load_clause(
        &mut context.proof,
        &mut context.search,
        &loading.taken.lits,
        &mut loading.sorting,
    )
}

/// Restarts the search and replaces the assumptions with `lits`, none of whose names may have the mode witness.
pub fn set_assumptions_in_search<W: CountedWrite + Drop, P: ProofProcessor>(
    context: &mut Context<W, P>,
    names: &mut Variables,
    lits: &[Lit],
    asked: &mut MappedLits,
) -> Result<(), Fault>
    requires joined { NamesSearchInvariant names.old context.old }
    requires sampled { HaveNoWitness names.old lits.now }
    requires asked { asked.old.globals.items ≡ (session_of context.old.proof).assumed }
    ensures takes { SetsAssumptionsInSearch W.seen result names.old names.new context.old context.new lits.now asked.new }
    ensures room { HasVariablesFor names.old (user_vars_in lits.now) → IfErr result IsFault }
{
    full_restart(&mut context.search);
    assume(names, &mut context.proof, lits, asked)?;
    new_indices(&mut context.search, &names.globals, &asked.given)?;
    set_assumptions(&mut context.search, &asked.order)?;
    Ok(())
}
