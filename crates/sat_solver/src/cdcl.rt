//! A round: a search up to a conflict and the clause learned from it, or up to an answer.
ghost use Rattle.std.specs.Prelude.{◌≡◌, ◌<◌, ◌≤◌, length};
ghost use Rattle.sat_solver.specs.proof.ProofView.{HasAllowedSteps, steps_of, session_of};
ghost use Rattle.sat_parts.specs.parts.Whole.{HasConflict};
ghost use Rattle.sat_solver.specs.session.Naming.{global_of_index};
ghost use Rattle.sat_solver.specs.session.Matching.{SessionMatchesParts, TrueLitsHaveIndices};
ghost use Rattle.sat_solver.specs.cdcl.StepEffects.{EmitsSteps};
ghost use Rattle.sat_solver.specs.cdcl.Iterations.{IsFalsifiedAt};
ghost use Rattle.sat_solver.specs.cdcl.Rounds.{LastRefutes, RoundEffect};
ghost use Rattle.sat_solver.specs.cdcl.Ending.{RoundEndsOrFails};
ghost use Rattle.sat_solver.specs.unit_simplify.Passes.{JointInvariant};

pub mod begin;
pub mod fault;
pub mod find_conflict;
pub mod learn;

use crate::cdcl::begin::begin_round;
use crate::cdcl::fault::Fault;
use crate::cdcl::find_conflict::{FoundConflict, find_conflict};
use crate::cdcl::learn::learn_from;
use crate::context::{Scratch, Search};
use crate::proof::Proof;
use crate::proof::map_step::name_clauses;
use crate::schedule::RoundOutcome;
use crate::unit_simplify::prove_units::write_units;
use crate::variables::Variables;
use sat_base::{CountedWrite, ProofStep, Var};
use sat_checker::ProofProcessor;
use sat_parts::{Conflict, SearchState};

/// Writes the units of the trail, and then the empty clause, which follows from `conflict`. The search must be at
/// level 0.
fn refute<W: CountedWrite + Drop, P: ProofProcessor>(
    proof: &mut Proof<W, P>,
    parts: &SearchState,
    globals: &[Var],
    scratch: &mut Scratch,
    conflict: &Conflict,
) -> Result<(), Fault>
    requires keeps { HasAllowedSteps proof.old }
    requires refuted { HasConflict parts.now conflict.now }
    requires bottom { length parts.now.trail.starts ≡ 0 }
    requires fits { SessionMatchesParts parts.now (session_of proof.old) (global_of_index globals.now) }
    requires named { TrueLitsHaveIndices parts.now.assignment.current (session_of proof.old) (global_of_index globals.now) }
    requires names { length parts.now.assignment.current ≤ length globals.now }
    ensures { EmitsSteps W.seen result proof.old proof.new
        (λ _ steps. LastRefutes (steps_of proof.old) steps (session_of proof.new)) }
{
    write_units(proof, parts, globals, &mut scratch.units)?;
    name_clauses(parts, &[], conflict, &mut scratch.hashes)?;
    let step = ProofStep::AtClause {
        redundant: false,
        clause: &[],
        propagation_hashes: &scratch.hashes,
    };
    proof.add_step(&step)?;
    Ok(())
}

/// Learns a clause from `conflict`, or writes the empty clause if the search is at level 0. Returns `Learned` or
/// `Unsat` accordingly.
fn learn_or_refute<W: CountedWrite + Drop, P: ProofProcessor>(
    proof: &mut Proof<W, P>,
    search: &mut Search,
    conflict: &Conflict,
) -> Result<RoundOutcome, Fault>
    requires keeps { HasAllowedSteps proof.old }
    requires stopped { IsFalsifiedAt (session_of proof.old) search.old conflict.now }
    ensures { RoundEffect W.seen result proof.old proof.new search.old search.new }
{
    if search.parts.trail.current_level() > 0 {
        learn_from(proof, search, conflict)?;
        return Ok(RoundOutcome::Learned);
    }
    refute(
        proof,
        &search.parts,
        &search.globals,
        &mut search.scratch,
        conflict,
    )?;
    Ok(RoundOutcome::Unsat)
}

/// Runs a round, which ends in a conflict and the clause learned from it, or in an answer. If there are new literals at
/// level 0, the round begins with a simplification. Returns the outcome of the round.
pub fn conflict_step<W: CountedWrite + Drop, P: ProofProcessor>(
    proof: &mut Proof<W, P>,
    search: &mut Search,
    names: &mut Variables,
) -> Result<RoundOutcome, Fault>
    requires together { JointInvariant names.old proof.old search.old }
    ensures { RoundEndsOrFails W.seen result names.old names.new proof.old proof.new search.old search.new }
{
    let begun = begin_round(proof, search, names)?;
    match begun {
        Some(conflict) => return learn_or_refute(proof, search, &conflict),
        None => {}
    }
    let stop = find_conflict(proof, search)?;
    match stop {
        FoundConflict::Complete => Ok(RoundOutcome::Model),
        FoundConflict::Failed(lit) => {
            search.failed = lit;
            Ok(RoundOutcome::Failed)
        }
        FoundConflict::Falsified(conflict) => learn_or_refute(proof, search, &conflict),
    }
}
