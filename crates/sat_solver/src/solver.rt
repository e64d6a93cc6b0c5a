//! The fields of a solver, and its calls as methods that write to them.
//!
//! Callers use `facade::Solver`, which has the same methods and says more about each of them. `EngineInvariant` is the
//! invariant between calls: `notifying` establishes it, and every call preserves it.
ghost use Rattle.std.specs.Prelude.{◌≡◌, []};
ghost use Rattle.sat_base.specs.script.ScriptState.{initial_state};
ghost use Rattle.sat_solver.specs.facade.Inner.{view_of};
ghost use Rattle.sat_solver.specs.facade.View.{IsInitial};
ghost use Rattle.sat_solver.specs.solver.View.{EngineIsInState, rounds_in};
ghost use Rattle.sat_solver.specs.solver.Whole.{SolverInvariant};

pub mod answers;
pub mod assume;
pub mod clauses;
pub mod configure;
pub mod failing;
pub mod find;
pub mod formulas;
pub mod load;
pub mod names;
pub mod progress;
pub mod proof;
pub mod report;
pub mod solve;

use crate::SolverConfig;
use crate::context::{Context, new_search};
use crate::load::literals::MappedLits;
use crate::proof::Proof;
use crate::schedule::restarts::Restarts;
use crate::solver::find::{LastAnswers, Schedule};
use crate::solver::load::Loading;
use crate::state::SatState;
use crate::variables::Variables;
use sat_base::{CountedWrite, Lit};
use sat_checker::{Nobody, ProofProcessor};
use sat_parts::parts::sorting::new_sorting;
use sat_store::LubySequence;
use std::alloc::Global;

/// The fields of a solver.
#[derive(Drop)]
pub struct Engine<W: CountedWrite + Drop, P: ProofProcessor = Nobody> {
    context: Context<W, P>,
    names: Variables,
    clock: Schedule,
    reported: LastAnswers,
    state: SatState,
    /// Whether a call failed. If so, every later call that can return an error returns `HasFailed`.
    failed: bool,
    /// Whether the solver has received a clause, a name, assumptions or an ask.
    used: bool,
    /// The clause that is being added.
    loading: Loading,
    /// The assumptions, over indices of the search and over proof variables.
    asked: MappedLits,
    /// The assumptions, over names.
    assumed: Vec<Lit>,
}

impl<W: CountedWrite + Drop, P: ProofProcessor> Engine<W, P> {
    /// Creates a solver without clauses or names, whose listeners are of type `P`. It has no listeners yet.
    /// Never allocates.
    pub fn notifying(alloc: Global) -> Engine<W, P>
        ensures view { IsInitial (view_of W.seen initial_state result) }
        ensures whole { SolverInvariant result }
        ensures agree { EngineIsInState result initial_state [] }
    {
        let config = SolverConfig::default();
        Engine {
            context: Context {
                proof: Proof::new(alloc),
                search: new_search(alloc),
                config,
            },
            names: Variables::new(alloc),
            clock: Schedule {
                restarts: Restarts {
                    sequence: LubySequence::default(),
                    scale: config.luby_restart_interval_scale,
                    next: 0,
                    count: 0,
                },
                rounds: 0,
            },
            reported: LastAnswers {
                model: Vec::new(alloc),
                failed_core: Vec::new(alloc),
            },
            state: SatState::Unknown,
            failed: false,
            used: false,
            loading: Loading {
                taken: MappedLits::new(alloc),
                sorting: new_sorting(alloc),
            },
            asked: MappedLits::new(alloc),
            assumed: Vec::new(alloc),
        }
    }

    /// Returns the number of rounds (not proof steps) so far, over all calls to `solve`, even after a failed call. A
    /// round ends in a conflict or an answer. The number saturates at 2^64-1.
    pub fn steps(&self) -> u64
        ensures { result ≡ rounds_in self.now }
    {
        self.clock.rounds
    }
}
