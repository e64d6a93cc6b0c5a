//! The progress of a solver.
ghost use Rattle.std.specs.Prelude.{◌≡◌, false, slice_index_or};
ghost use Rattle.sat_solver.specs.variables.Variables.{VariablesInvariant};
ghost use Rattle.sat_solver.specs.solver.Progressing.{is_unassigned_at, unassigned_count, solver_unassigned_count};
ghost use Rattle.sat_solver.specs.solver.Progressing.{EngineIsOngoing, CountsClausesIn};
ghost use Rattle.sat_solver.specs.solver.View.{engine_has_failed, restarts_in, rounds_in};
ghost use Rattle.sat_solver.specs.solver.Whole.{EngineInvariant};

use crate::Progress;
use crate::solver::Engine;
use crate::variables::Variables;
use sat_base::{CountedWrite, Var};
use sat_checker::ProofProcessor;
use sat_store::Tier;

/// Returns `true` if the variable `global` has the index `index`, and this index has no value.
fn is_open(names: &Variables, global: Var, index: usize, values: &[Option<bool>]) -> bool
    ensures { VariablesInvariant names.now → slice_index_or names.now.globals.items index 0 ≡ global
        → result ≡ is_unassigned_at names.now values.now index }
{
    let Some(solver) = names.solver_from_global.fwd().get(global) else {
        return false;
    };
    if solver.index() != index || index >= values.len() {
        return false;
    }
    values[index].is_none()
}

/// Returns the number of variables that have an index but no value.
fn unassigned_count(names: &Variables, values: &[Option<bool>]) -> u64
    ensures { VariablesInvariant names.now → result ≡ unassigned_count names.now values.now }
{
    let mut count: u64 = 0;
    for index in 0..names.globals.len() {
        if is_open(names, names.globals[index], index, values) {
            count = count.saturating_add(1);
        }
    }
    count
}

impl<W: CountedWrite + Drop, P: ProofProcessor> Engine<W, P> {
    /// Returns the current numbers of rounds, restarts, variables without a value, and clauses of each kind.
    /// Never allocates.
    pub fn progress(&self) -> Progress
        ensures conflicts { result.conflicts ≡ rounds_in self.now }
        ensures restarts { result.restarts ≡ restarts_in self.now }
        ensures vars { EngineInvariant self.now → engine_has_failed self.now ≡ false → result.vars ≡ solver_unassigned_count self.now }
        ensures clauses { EngineIsOngoing self.now → CountsClausesIn result self.now }
    {
        let parts = &self.context.search.parts;
        Progress {
            conflicts: self.clock.rounds,
            restarts: self.clock.restarts.count,
            vars: unassigned_count(&self.names, parts.assignment.assignment()),
            binary: parts.binary.implications() as u64 / 2,
            irred: parts.db.count_by_tier(Tier::Irred) as u64,
            core: parts.db.count_by_tier(Tier::Core) as u64,
            mid: parts.db.count_by_tier(Tier::Mid) as u64,
            local: parts.db.count_by_tier(Tier::Local) as u64,
        }
    }
}
