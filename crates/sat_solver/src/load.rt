//! Loads clauses into a search.
ghost use Rattle.std.specs.Prelude.{◌≡◌, ◌<◌, length, true, OnOk};
ghost use Rattle.sat_base.specs.steps.Steps.{DeleteClause, Satisfied};
ghost use Rattle.sat_solver.specs.session.AllowedSteps.{OnlyAllowedSteps, DeletesJustAdded};
ghost use Rattle.sat_solver.specs.session.Session.{IsAllowedStep};
ghost use Rattle.sat_solver.specs.proof.ProofView.{HasAllowedSteps, steps_of, session_of};
ghost use Rattle.sat_solver.specs.session.Naming.{global_of_index};
ghost use Rattle.sat_solver.specs.cdcl.Joint.{global_in};
ghost use Rattle.sat_solver.specs.load.Loaded.{CanLoad, IsAdded, satisfied_step, DeletesSatisfied, DeletesTrue};
ghost use Rattle.sat_solver.specs.load.Loaded.{LoadsClause};
ghost use Rattle.sat_parts.specs.clause.Glue.{VariablesBelow};

pub mod assume;
pub mod clause;
pub mod faults;
pub mod literals;
pub mod restart;

use crate::cdcl::fault::Fault;
use crate::context::Search;
use crate::decision::make_all_available;
use crate::proof::Proof;
use crate::proof::map_step::map_lits;
use sat_base::{CountedWrite, DeleteClauseProof, Lit, ProofStep, Var};
use sat_checker::ProofProcessor;
use sat_parts::parts::load::{Loaded, load};
use sat_parts::parts::sorting::Sorting;

/// Writes the deletion of the clause `lits`, which has a true literal.
pub fn delete_satisfied<W: CountedWrite + Drop, P: ProofProcessor>(
    proof: &mut Proof<W, P>,
    globals: &[Var],
    lits: &[Lit],
    clause: &mut Vec<Lit>,
) -> Result<(), Fault>
    requires keeps { HasAllowedSteps proof.old }
    requires names { VariablesBelow lits.now (length globals.now) }
    requires may { IsAllowedStep (session_of proof.old) (satisfied_step (global_of_index globals.now) lits.now) }
    ensures { DeletesSatisfied W.seen result proof.old proof.new (global_of_index globals.now) lits.now }
{
    map_lits(globals, lits, clause)?;
    let step = ProofStep::DeleteClause {
        clause,
        proof: DeleteClauseProof::Satisfied,
    };
    proof.add_step(&step)?;
    Ok(())
}

/// Writes the deletion of the clause `lits`, which has a true literal. Returns `true`, since the formula may
/// still be satisfiable.
fn delete_true<W: CountedWrite + Drop, P: ProofProcessor>(
    proof: &mut Proof<W, P>,
    search: &mut Search,
    lits: &[Lit],
) -> Result<bool, Fault>
    requires keeps { HasAllowedSteps proof.old }
    requires names { VariablesBelow lits.now (length search.old.globals.items) }
    requires may { IsAllowedStep (session_of proof.old) (satisfied_step (global_in search.old) lits.now) }
    ensures same { search.new ≡ record search.old { scratch = search.new.scratch } }
    ensures deletes { DeletesTrue W.seen result proof.old proof.new (global_in search.old) lits.now }
{
    let clause = &mut search.scratch.clause;
    delete_satisfied(proof, &search.globals, lits, clause)?;
    Ok(true)
}

/// Loads the clause `lits`, which the last step added. The search must be at level 0. A clause that has a true literal
/// and at least one other literal is deleted at once. Returns `true` if the formula may still be satisfiable. Returns
/// `false` after an empty clause, or after a clause whose only literal is false. In these cases, unsat is recorded.
pub fn load_clause<W: CountedWrite + Drop, P: ProofProcessor>(
    proof: &mut Proof<W, P>,
    search: &mut Search,
    lits: &[Lit],
    sorting: &mut Sorting,
) -> Result<bool, Fault>
    requires keeps { HasAllowedSteps proof.old }
    requires added { IsAdded (steps_of proof.old) search.old lits.now }
    requires may { CanLoad search.old lits.now }
    ensures goes { LoadsClause W.seen result proof.old proof.new search.old search.new }
    ensures comes { OnOk result (OnlyAllowedSteps DeletesJustAdded (steps_of proof.old) (steps_of proof.new)) }
{
    make_all_available(&mut search.parts, lits);
    let loaded = load(&mut search.parts, lits, sorting)?;
    match loaded {
        Loaded::Stored => Ok(true),
        Loaded::Unit => Ok(true),
        Loaded::Falsified => Ok(false),
        Loaded::Satisfied => {
            if sorting.lits.len() < 2 {
                return Ok(true);
            }
            delete_true(proof, search, &sorting.lits)
        }
    }
}
