//! Writes the step for a failed core.
ghost use Rattle.std.specs.Prelude.{◌≡◌, ◌≤◌, map, length, OnOk};
ghost use Rattle.sat_solver.specs.session.LiveClauses.{with_var};
ghost use Rattle.sat_solver.specs.proof.ProofView.{HasAllowedSteps, session_of};
ghost use Rattle.sat_parts.specs.parts.Assumed.{HaveVariablesIn};
ghost use Rattle.sat_parts.specs.parts.Whole.{SearchStateInvariant};
ghost use Rattle.sat_solver.specs.assumptions.Core.{causes_hashes, WritesCoreStep, AssumptionFails};
ghost use Rattle.sat_solver.specs.cdcl.Joint.{global_in, HasClearFlags, SearchInvariant};
ghost use Rattle.sat_solver.specs.cdcl.Iterations.{IsFalseAssumption};

use crate::analyze_conflict::analyze_assumption;
use crate::cdcl::fault::Fault;
use crate::context::Search;
use crate::proof::Proof;
use crate::proof::map_step::{map_lits, name_reasons};
use sat_base::{CountedWrite, ProofStep};
use sat_checker::ProofProcessor;
use std::alloc::AllocError;

/// Fills `search.scratch` for the step that states a core: the core's literals over proof variables, and the hashes of
/// the clauses that show that the core contradicts the clauses.
fn prepare_core(search: &mut Search) -> Result<(), AllocError>
    requires holds { SearchStateInvariant search.old.parts }
    requires names { length search.old.parts.assignment.current ≤ length search.old.globals.items }
    requires there { HaveVariablesIn search.old.assumptions.lits.items search.old.parts }
    requires failing { IsFalseAssumption search.old.assumptions.lits.items search.old.parts search.old.failed }
    requires fails { AssumptionFails search.old.parts search.old.failed search.old.analysis }
    ensures same { search.new ≡ record search.old { scratch = search.new.scratch } }
    ensures clause { OnOk result (search.new.scratch.clause.items
        ≡ map (with_var (global_in search.old)) search.old.analysis.core) }
    ensures hashes { OnOk result (search.new.scratch.hashes.items
        ≡ causes_hashes search.old.parts search.old.analysis.used) }
{
    map_lits(
        &search.globals,
        search.analysis.core(),
        &mut search.scratch.clause,
    )?;
    name_reasons(
        &search.parts,
        search.analysis.used(),
        &mut search.scratch.hashes,
    )
}

/// Finds assumptions that contradict the failed assumption, and fills `search.scratch` for the step that states
/// this core.
fn find_core(search: &mut Search) -> Result<(), AllocError>
    requires holds { SearchStateInvariant search.old.parts }
    requires free { HasClearFlags search.old }
    requires there { HaveVariablesIn search.old.assumptions.lits.items search.old.parts }
    requires failing { IsFalseAssumption search.old.assumptions.lits.items search.old.parts search.old.failed }
    ensures same { search.new ≡ record search.old { analysis = search.new.analysis; scratch = search.new.scratch } }
    ensures free { OnOk result (HasClearFlags search.new) }
    ensures fails { OnOk result (AssumptionFails search.old.parts search.old.failed search.new.analysis) }
    ensures clause { OnOk result (search.new.scratch.clause.items
        ≡ map (with_var (global_in search.old)) search.new.analysis.core) }
    ensures hashes { OnOk result (search.new.scratch.hashes.items
        ≡ causes_hashes search.old.parts search.new.analysis.used) }
{
    let parts = &search.parts;
    analyze_assumption(
        &mut search.analysis,
        &parts.clauses,
        &parts.assignment,
        &parts.graph,
        &parts.trail,
        search.failed,
    )?;
    prepare_core(search)
}

/// Finds a failed core, and writes the step that states it. Afterwards, `search.analysis` contains the core.
pub fn write_core<W: CountedWrite + Drop, P: ProofProcessor>(
    proof: &mut Proof<W, P>,
    search: &mut Search,
) -> Result<(), Fault>
    requires keeps { HasAllowedSteps proof.old }
    requires search { SearchInvariant (session_of proof.old) search.old }
    requires failing { IsFalseAssumption search.old.assumptions.lits.items search.old.parts search.old.failed }
    ensures { WritesCoreStep W.seen result proof.old proof.new search.old search.new }
{
    find_core(search)?;
    let step = ProofStep::FailedAssumptions {
        failed_core: &search.scratch.clause,
        propagation_hashes: &search.scratch.hashes,
    };
    proof.add_step(&step)?;
    Ok(())
}
