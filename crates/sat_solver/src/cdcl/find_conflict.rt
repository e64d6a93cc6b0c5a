//! The iterations of a search: propagation, and then an assumption or a decision.
ghost use Rattle.std.specs.Prelude.{IfOk};
ghost use Rattle.sat_solver.specs.proof.ProofView.{HasAllowedSteps, session_of};
ghost use Rattle.sat_parts.specs.parts.Assumed.{HaveVariablesIn, PlacesAreCorrect};
ghost use Rattle.sat_parts.specs.parts.Whole.{state, SearchStateInvariant, IsFullyPropagated};
ghost use Rattle.sat_solver.specs.cdcl.StepEffects.{EmitsSteps};
ghost use Rattle.sat_solver.specs.cdcl.Joint.{SearchInvariant};
ghost use Rattle.sat_solver.specs.cdcl.Iterations.{DecisionEffect, StopsSearch};

use crate::cdcl::fault::Fault;
use crate::context::Search;
use crate::proof::Proof;
use crate::unit_simplify::prove_units::prove_units;
use sat_base::{CountedWrite, Lit};
use sat_checker::ProofProcessor;
use sat_parts::parts::assumptions::{Assumptions, EnqueueAssumption, enqueue_assumption};
use sat_parts::parts::steps::{make_decision, propagate_all};
use sat_parts::{Conflict, SearchState};
use std::alloc::AllocError;

/// Why a search stopped.
#[derive(Clone, Copy)]
pub enum FoundConflict {
    /// A clause is falsified.
    Falsified(Conflict),
    /// Every variable that is in a clause has a value.
    Complete,
    /// This assumption is false.
    Failed(Lit),
}

/// Begins a level with the next assumption, or with the variable that has the highest activity if no assumption is
/// left. Returns `None` if a level was begun; otherwise returns why the search stopped.
fn assume_or_decide(
    parts: &mut SearchState,
    assumptions: &mut Assumptions,
) -> Result<Option<FoundConflict>, AllocError>
    requires holds { SearchStateInvariant parts.old }
    requires done { IsFullyPropagated parts.old }
    requires there { HaveVariablesIn assumptions.old.lits.items parts.old }
    requires placed { PlacesAreCorrect assumptions.old (state parts.old) }
    ensures { IfOk result (λ found. DecisionEffect found assumptions.old assumptions.new parts.old parts.new) }
{
    match enqueue_assumption(parts, assumptions)? {
        EnqueueAssumption::Conflict(lit) => return Ok(Some(FoundConflict::Failed(lit))),
        EnqueueAssumption::Enqueued => return Ok(None),
        EnqueueAssumption::Done => {}
    }
    if make_decision(parts)? {
        return Ok(None);
    }
    Ok(Some(FoundConflict::Complete))
}

/// Propagates, assumes and decides until the search stops. Returns why it stopped.
///
/// The search stops if a clause is falsified, if an assumption is false, or if every variable that is in a clause has a
/// value. New literals at level 0 are written, and removed from the trail.
pub fn find_conflict<W: CountedWrite + Drop, P: ProofProcessor>(
    proof: &mut Proof<W, P>,
    search: &mut Search,
) -> Result<FoundConflict, Fault>
    requires keeps { HasAllowedSteps proof.old }
    requires search { SearchInvariant (session_of proof.old) search.old }
    ensures { EmitsSteps W.seen result proof.old proof.new
        (λ stop _. StopsSearch stop (session_of proof.new) search.old search.new) }
{
    'turns: loop {
        let propagated = propagate_all(search.alloc, &mut search.parts)?;
        match propagated {
            Err(conflict) => return Ok(FoundConflict::Falsified(conflict)),
            Ok(()) => {}
        }
        prove_units(
            proof,
            &mut search.parts,
            &search.globals,
            &mut search.scratch.units,
        )?;
        let found = assume_or_decide(&mut search.parts, &mut search.assumptions)?;
        match found {
            Some(stop) => return Ok(stop),
            None => {}
        }
    }
}
