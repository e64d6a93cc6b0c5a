//! The beginning of a round: new literals at level 0 are propagated and used to simplify.
ghost use Rattle.sat_solver.specs.unit_simplify.Passes.{JointInvariant, BeginsRound};

use crate::cdcl::fault::Fault;
use crate::context::Search;
use crate::proof::Proof;
use crate::unit_simplify::prove_units::prove_units;
use crate::unit_simplify::unit_simplify;
use crate::variables::Variables;
use sat_base::CountedWrite;
use sat_checker::ProofProcessor;
use sat_parts::Conflict;
use sat_parts::parts::steps::propagate_all;

/// Simplifies at level 0 if there are literals that have not yet been used to simplify.
///
/// Before that, propagates, writes the units of the trail, and removes them from the trail. Returns the clause that
/// propagation falsified, or `None`. Does nothing above level 0, or if there are no new literals at level 0.
pub fn begin_round<W: CountedWrite + Drop, P: ProofProcessor>(
    proof: &mut Proof<W, P>,
    search: &mut Search,
    names: &mut Variables,
) -> Result<Option<Conflict>, Fault>
    requires together { JointInvariant names.old proof.old search.old }
    ensures { BeginsRound W.seen result names.old names.new proof.old proof.new search.old search.new }
{
    if search.parts.trail.current_level() > 0 || search.parts.trail.trail().is_empty() {
        return Ok(None);
    }
    let propagated = propagate_all(search.alloc, &mut search.parts)?;
    match propagated {
        Err(conflict) => return Ok(Some(conflict)),
        Ok(()) => {}
    }
    prove_units(
        proof,
        &mut search.parts,
        &search.globals,
        &mut search.scratch.units,
    )?;
    unit_simplify(proof, search, names)?;
    Ok(None)
}
