//! Simplifies using the units at level 0: removes clauses, literals of clauses, and indices of variables that are in
//! no clause.
ghost use Rattle.sat_solver.specs.proof.ProofView.{HasAllowedSteps, session_of};
ghost use Rattle.sat_solver.specs.cdcl.StepEffects.{EmitsSteps};
ghost use Rattle.sat_solver.specs.cdcl.Joint.{SearchInvariant};
ghost use Rattle.sat_solver.specs.unit_simplify.EmptyTrail.{HasEmptyTrail, StrengthensAll};
ghost use Rattle.sat_solver.specs.unit_simplify.Passes.{JointInvariant, Simplifies};

pub mod binary;
pub mod clause_status;
pub mod free_vars;
pub mod long;
pub mod prove_units;
pub mod steps;
pub mod strengthen;

use crate::cdcl::fault::Fault;
use crate::context::Search;
use crate::proof::Proof;
use crate::unit_simplify::binary::simplify_binary;
use crate::unit_simplify::free_vars::free_indices;
use crate::unit_simplify::long::simplify_clauses;
use crate::variables::Variables;
use sat_base::CountedWrite;
use sat_checker::ProofProcessor;

/// Removes the binary clauses that have an assigned variable and the long clauses that have a true literal. Removes the
/// false literals of the remaining long clauses.
fn strengthen_all<W: CountedWrite + Drop, P: ProofProcessor>(
    proof: &mut Proof<W, P>,
    search: &mut Search,
) -> Result<(), Fault>
    requires keeps { HasAllowedSteps proof.old }
    requires search { SearchInvariant (session_of proof.old) search.old }
    requires flat { HasEmptyTrail search.old.parts }
    ensures { EmitsSteps W.seen result proof.old proof.new
        (λ _ _. StrengthensAll (session_of proof.new) search.old search.new) }
{
    simplify_binary(proof, search)?;
    let mut part = Vec::new(search.alloc);
    simplify_clauses(proof, search, &mut part)
}

/// Simplifies at level 0. Propagation must be complete, and the trail must be empty.
///
/// Removes satisfied clauses and false literals. Then releases, in order, the indices of the variables that are in no
/// clause and not assumed. If such a variable is hidden, it is deleted.
pub fn unit_simplify<W: CountedWrite + Drop, P: ProofProcessor>(
    proof: &mut Proof<W, P>,
    search: &mut Search,
    names: &mut Variables,
) -> Result<(), Fault>
    requires together { JointInvariant names.old proof.old search.old }
    requires flat { HasEmptyTrail search.old.parts }
    ensures { Simplifies W.seen result names.old names.new proof.old proof.new search.old search.new }
{
    strengthen_all(proof, search)?;
    let mut used = Vec::new(search.alloc);
    free_indices(names, proof, search, &mut used)?;
    Ok(())
}
