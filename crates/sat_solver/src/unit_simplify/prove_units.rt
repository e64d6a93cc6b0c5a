//! Writes units at level 0, and removes them from the trail.
ghost use Rattle.std.specs.Prelude.{◌≡◌, ◌+◌, ◌<◌, ◌≤◌, length};
ghost use Rattle.sat_solver.specs.proof.ProofView.{HasAllowedSteps, session_of};
ghost use Rattle.sat_parts.specs.parts.Round.{UnitsHaveNoReason, LevelZeroInvariant};
ghost use Rattle.sat_parts.specs.parts.Whole.{state, SearchStateInvariantBelow, IsFullyPropagated};
ghost use Rattle.sat_solver.specs.session.Naming.{global_of_index};
ghost use Rattle.sat_solver.specs.session.Matching.{SessionMatchesParts, TrueLitsHaveIndices};
ghost use Rattle.sat_solver.specs.session.WritingUnits.{IsReadyForUnits};
ghost use Rattle.sat_solver.specs.cdcl.StepEffects.{EmitsSteps};
ghost use Rattle.sat_solver.specs.unit_simplify.AfterUnits.{LevelZeroLitsAreUnits, TakesUnitsOff};

use crate::cdcl::fault::Fault;
use crate::proof::Proof;
use crate::proof::map_step::collect_units;
use sat_base::{ClauseHash, CountedWrite, Lit, ProofStep, Var};
use sat_checker::ProofProcessor;
use sat_parts::SearchState;
use sat_parts::parts::units::clear_units;

/// Writes, as units, the literals on the trail whose reasons are clauses. The search must be at level 0.
pub fn write_units<W: CountedWrite + Drop, P: ProofProcessor>(
    proof: &mut Proof<W, P>,
    parts: &SearchState,
    globals: &[Var],
    units: &mut Vec<(Lit, ClauseHash)>,
) -> Result<(), Fault>
    requires keeps { HasAllowedSteps proof.old }
    requires orderly { IsReadyForUnits parts.now }
    requires bottom { length parts.now.trail.starts ≡ 0 }
    requires fits { SessionMatchesParts parts.now (session_of proof.old) (global_of_index globals.now) }
    requires named { TrueLitsHaveIndices parts.now.assignment.current (session_of proof.old) (global_of_index globals.now) }
    requires names { length parts.now.assignment.current ≤ length globals.now }
    ensures { EmitsSteps W.seen result proof.old proof.new
        (λ _ _. LevelZeroLitsAreUnits parts.now (session_of proof.new) (global_of_index globals.now)) }
{
    collect_units(parts, globals, units)?;
    if units.is_empty() {
        return Ok(());
    }
    proof.add_step(&ProofStep::UnitClauses { units })?;
    Ok(())
}

/// Writes the units of the trail and removes them from the trail, if the search is at level 0.
pub fn prove_units<W: CountedWrite + Drop, P: ProofProcessor>(
    proof: &mut Proof<W, P>,
    parts: &mut SearchState,
    globals: &[Var],
    units: &mut Vec<(Lit, ClauseHash)>,
) -> Result<(), Fault>
    requires keeps { HasAllowedSteps proof.old }
    requires holds { SearchStateInvariantBelow (length parts.old.trail.starts + 1) parts.old }
    requires done { IsFullyPropagated parts.old }
    requires units { 0 < length parts.old.trail.starts → UnitsHaveNoReason (state parts.old) × LevelZeroInvariant parts.old.trail }
    requires fits { SessionMatchesParts parts.old (session_of proof.old) (global_of_index globals.now) }
    requires named { TrueLitsHaveIndices parts.old.assignment.current (session_of proof.old) (global_of_index globals.now) }
    requires names { length parts.old.assignment.current ≤ length globals.now }
    ensures { EmitsSteps W.seen result proof.old proof.new
        (λ _ _. TakesUnitsOff parts.old parts.new (session_of proof.new) (global_of_index globals.now)) }
{
    if parts.trail.current_level() > 0 {
        return Ok(());
    }
    write_units(proof, parts, globals, units)?;
    clear_units(parts);
    Ok(())
}
