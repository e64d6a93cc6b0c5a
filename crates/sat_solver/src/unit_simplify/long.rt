//! Removes long clauses that units satisfy, and the literals that units falsify.
ghost use Rattle.sat_solver.specs.proof.ProofView.{HasAllowedSteps, session_of};
ghost use Rattle.sat_solver.specs.cdcl.StepEffects.{EmitsSteps};
ghost use Rattle.sat_solver.specs.cdcl.Joint.{SearchInvariant};
ghost use Rattle.sat_solver.specs.unit_simplify.EmptyTrail.{HasEmptyTrail, StrengthensAll, StrengthensOrFails};
ghost use Rattle.sat_solver.specs.unit_simplify.ClauseStatus.{HasTrue};
ghost use Rattle.sat_parts.specs.parts.Whole.{HasLongClause};

use crate::cdcl::fault::Fault;
use crate::clause::reduce::map_clause;
use crate::context::Search;
use crate::proof::Proof;
use crate::unit_simplify::clause_status::{ClauseStatus, clause_status};
use crate::unit_simplify::steps::deletion_for;
use crate::unit_simplify::strengthen::strengthen_clause;
use sat_base::{CountedWrite, DeleteClauseProof, Lit, ProofStep};
use sat_checker::ProofProcessor;
use sat_parts::parts::clauses::delete_long;
use sat_store::ClauseRef;

/// Deletes a long clause that has a true literal, and writes the step for the deletion.
fn delete_true<W: CountedWrite + Drop, P: ProofProcessor>(
    proof: &mut Proof<W, P>,
    search: &mut Search,
    cref: ClauseRef,
) -> Result<(), Fault>
    requires keeps { HasAllowedSteps proof.old }
    requires search { SearchInvariant (session_of proof.old) search.old }
    requires flat { HasEmptyTrail search.old.parts }
    requires live { HasLongClause search.old.parts cref }
    requires satisfied { HasTrue search.old.parts cref }
    ensures { StrengthensOrFails W.seen result proof.old proof.new search.old search.new cref }
{
    map_clause(
        &search.parts,
        &search.globals,
        cref,
        &mut search.scratch.clause,
    )?;
    let redundant = search.parts.clauses.header(cref).redundant();
    delete_long(&mut search.parts, cref);
    let step = ProofStep::DeleteClause {
        clause: &search.scratch.clause,
        proof: deletion_for(redundant, DeleteClauseProof::Satisfied),
    };
    proof.add_step(&step)?;
    Ok(())
}

/// Deletes a live long clause if one of its literals is true. Otherwise, removes its false literals, if any.
fn simplify_clause<W: CountedWrite + Drop, P: ProofProcessor>(
    proof: &mut Proof<W, P>,
    search: &mut Search,
    cref: ClauseRef,
    part: &mut Vec<Lit>,
) -> Result<(), Fault>
    requires keeps { HasAllowedSteps proof.old }
    requires search { SearchInvariant (session_of proof.old) search.old }
    requires flat { HasEmptyTrail search.old.parts }
    requires live { HasLongClause search.old.parts cref }
    ensures { StrengthensOrFails W.seen result proof.old proof.new search.old search.new cref }
{
    match clause_status(&search.parts, cref) {
        ClauseStatus::Whole => Ok(()),
        ClauseStatus::Satisfied => delete_true(proof, search, cref),
        ClauseStatus::Shorter => strengthen_clause(proof, search, cref, part),
    }
}

/// Simplifies every live long clause, including redundant ones, in the order of the list of clauses. Afterwards, no
/// literal of a live long clause has a value.
pub fn simplify_clauses<W: CountedWrite + Drop, P: ProofProcessor>(
    proof: &mut Proof<W, P>,
    search: &mut Search,
    part: &mut Vec<Lit>,
) -> Result<(), Fault>
    requires keeps { HasAllowedSteps proof.old }
    requires search { SearchInvariant (session_of proof.old) search.old }
    requires flat { HasEmptyTrail search.old.parts }
    ensures { EmitsSteps W.seen result proof.old proof.new
        (λ _ _. StrengthensAll (session_of proof.new) search.old search.new) }
{
    for at in 0..search.parts.db.len() {
        let cref = search.parts.db.cref(at);
        if search.parts.clauses.header(cref).deleted() {
            continue;
        }
        simplify_clause(proof, search, cref, part)?;
    }
    Ok(())
}
