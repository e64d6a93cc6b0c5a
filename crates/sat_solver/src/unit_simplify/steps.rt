//! The steps that delete or strengthen clauses.
ghost use Rattle.std.specs.Prelude.{◌≡◌, ◌&&◌, true, nat_lt};
ghost use Rattle.sat_base.specs.steps.StepViews.{deletion_of};
ghost use Rattle.sat_base.specs.steps.Steps.{Simplified};
ghost use Rattle.sat_solver.specs.proof.ProofView.{HasAllowedSteps, session_of};
ghost use Rattle.sat_solver.specs.session.Quiet.{has_at_most_one};
ghost use Rattle.sat_solver.specs.cdcl.StepEffects.{HaveIndices};
ghost use Rattle.sat_solver.specs.unit_simplify.StrengtheningSteps.{deletion, CanStrengthen, WritesStrengthening};

use crate::cdcl::fault::Fault;
use crate::context::Scratch;
use crate::proof::Proof;
use sat_base::{CountedWrite, DeleteClauseProof, Lit, ProofStep};
use sat_checker::ProofProcessor;

/// Returns why a clause may be deleted: it is redundant if `redundant` is true; otherwise the reason is `other`.
pub fn deletion_for(redundant: bool, other: DeleteClauseProof) -> DeleteClauseProof
    ensures { deletion_of result ≡ deletion redundant (deletion_of other) }
{
    if redundant {
        return DeleteClauseProof::Redundant;
    }
    other
}

/// Returns `true` if the step that strengthens a clause to `len` literals marks the result as redundant: if the
/// clause was redundant, and `len` is at least three.
fn stays_redundant(redundant: bool, len: usize) -> bool
    ensures { result ≡ (redundant && nat_lt 2 len) }
{
    redundant && len > 2
}

/// Writes two steps: the first derives `part`, the literals that remain of a clause, and the second deletes the clause.
pub fn write_strengthening<W: CountedWrite + Drop, P: ProofProcessor>(
    proof: &mut Proof<W, P>,
    scratch: &Scratch,
    part: &[Lit],
    redundant: bool,
) -> Result<(), Fault>
    requires keeps { HasAllowedSteps proof.old }
    requires named { HaveIndices (session_of proof.old).solver_names part.now }
    requires may { CanStrengthen (session_of proof.old) redundant part.now scratch.now.hashes.items scratch.now.clause.items }
    requires few { has_at_most_one scratch.now.hashes.items ≡ true }
    ensures { WritesStrengthening W.seen result proof.old proof.new redundant part.now scratch.now.hashes.items
        scratch.now.clause.items }
{
    let derived = ProofStep::AtClause {
        redundant: stays_redundant(redundant, part.len()),
        clause: part,
        propagation_hashes: &scratch.hashes,
    };
    proof.add_step(&derived)?;
    let deleted = ProofStep::DeleteClause {
        clause: &scratch.clause,
        proof: deletion_for(redundant, DeleteClauseProof::Simplified),
    };
    proof.add_step(&deleted)?;
    Ok(())
}
