//! The state of a run between commands.
ghost use Rattle.std.specs.Prelude.{◌≡◌, [], ◌+◌};
ghost use Rattle.sat_base.specs.device.Sink.{empty_sink};
ghost use Rattle.sat_base.specs.script.ScriptState.{initial_state};
ghost use Rattle.sat_solver.specs.proof.Counting.{nothing_counted as uncounted};
ghost use Rattle.sat_solver.specs.proof.ProofView.{Open};
ghost use Rattle.certify.specs.run.SolverCalls.{IsReadySolver};
ghost use Rattle.certify.specs.run.BetweenCommands.{RunInvariant, HasStateBetweenCommands};

use super::page::Page;
use crate::refusals::Names;
use crate::summary::AskReport;
use sat_base::CountedWrite;
use sat_solver::facade::laws::steps_record_answers;
use sat_solver::{ProofFormat, Solver, SolverConfigUpdate};
use std::alloc::Global;

/// The number of rounds between reductions of the learned clauses in tier Local. The solver's default is 15,000, and
/// 10,000 for tier Mid. With more frequent reductions, fewer clauses are watched.
const REDUCE_LOCALS_INTERVAL: u64 = 1_000;
/// The number of rounds between reductions of the learned clauses in tier Mid.
const REDUCE_MIDS_INTERVAL: u64 = 1_000;

/// The state of a run between commands.
#[derive(Drop)]
pub struct RunState<C: CountedWrite + Drop> {
    pub(crate) names: Names,
    pub(crate) solver: Solver<C>,
    /// The largest number of rounds for each ask.
    pub(crate) budget: u64,
    pub(crate) page: Page,
    /// The number of commands so far, including the refused ones.
    pub(crate) commands: u64,
    pub(crate) refused: u64,
    pub(crate) asks: Vec<AskReport>,
}

/// Returns a solver that writes its proof steps to `certificate`.
fn solver_into<C: CountedWrite + Drop>(alloc: Global, certificate: C) -> Solver<C>
    ensures ready { IsReadySolver result }
    ensures state { result.state ≡ initial_state }
    ensures steps { result.steps ≡ [] }
    ensures target { result.target ≡ Open ProofFormat.Varisat uncounted (empty_sink (C.seen certificate)) }
    ensures rounds { result.clock.rounds ≡ 0 }
    ensures free { result.assumptions ≡ [] }
{
    let mut solver = Solver::new(alloc);
    let mut update = SolverConfigUpdate::new();
    update.reduce_locals_interval = Some(REDUCE_LOCALS_INTERVAL);
    update.reduce_mids_interval = Some(REDUCE_MIDS_INTERVAL);
    solver.config(&update).unwrap();
    solver
        .write_proof(certificate, ProofFormat::Varisat)
        .unwrap();
    steps_record_answers(&solver);
    solver
}

impl<C: CountedWrite + Drop> RunState<C> {
    /// Returns the state before the first command. The run writes its certificate to `certificate`.
    pub fn new(alloc: Global, certificate: C, budget: u64) -> RunState<C>
        ensures goes_on { RunInvariant result }
        ensures at { HasStateBetweenCommands result initial_state }
        ensures steps { result.solver.steps ≡ [] }
        ensures target { result.solver.target
            ≡ Open ProofFormat.Varisat uncounted (empty_sink (C.seen certificate)) }
        ensures rounds { result.solver.clock.rounds ≡ 0 }
        ensures budget { result.budget ≡ budget }
        ensures commands { result.commands ≡ 0 }
        ensures refused { result.refused ≡ 0 }
        ensures asks { result.asks.items ≡ [] }
    {
        RunState {
            names: Names::new(alloc),
            solver: solver_into(alloc, certificate),
            budget,
            page: Page::new(alloc),
            commands: 0,
            refused: 0,
            asks: Vec::new(alloc),
        }
    }
}
