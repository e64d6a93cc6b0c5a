//! Parameters of a solver.
ghost use Rattle.std.specs.Prelude.{◌≡◌, false};
ghost use Rattle.sat_parts.specs.parts.Whole.{SearchStateInvariant};
ghost use Rattle.sat_solver.specs.clause.Activity.{DecaysAreInRange};
ghost use Rattle.sat_solver.specs.declared.state.SatState.TheVariants.{Unsat};
ghost use Rattle.sat_solver.specs.solver.Configuring.{EngineConfigures, PassesToSearch};
ghost use Rattle.sat_solver.specs.solver.Whole.{EngineInvariant};

use crate::clause::activity::config_changed;
use crate::context::Context;
use crate::solver::Engine;
use crate::state::SatState;
use crate::{SolverConfigUpdate, SolverError};
use sat_base::CountedWrite;
use sat_checker::ProofProcessor;

/// Sets the decays of the search to those in the parameters, unless the clauses are known to be unsatisfiable.
fn pass_decays<W: CountedWrite + Drop, P: ProofProcessor>(
    context: &mut Context<W, P>,
    state: SatState,
)
    requires holds { (state ≡ Unsat → ⊥) → SearchStateInvariant context.old.search.parts }
    requires decays { DecaysAreInRange context.old.config }
    ensures { PassesToSearch state context.old context.new }
{
    match state {
        SatState::Unsat => {}
        SatState::Unknown => config_changed(&mut context.search, &context.config),
        SatState::Sat => config_changed(&mut context.search, &context.config),
        SatState::UnsatUnderAssumptions => config_changed(&mut context.search, &context.config),
    }
}

impl<W: CountedWrite + Drop, P: ProofProcessor> Engine<W, P> {
    /// Applies `update` to the parameters. If one of its fields is out of range, returns `OutOfRange` and
    /// changes nothing.
    pub fn config(&mut self, update: &SolverConfigUpdate) -> Result<(), SolverError>
        requires { EngineInvariant self.old }
        ensures solver { EngineInvariant self.new }
        ensures configures { EngineConfigures result update.now self.old self.new }
    {
        if self.failed {
            return Err(SolverError::HasFailed);
        }
        update.apply(&mut self.context.config)?;
        let scale = update.luby_restart_interval_scale;
        self.clock.restarts.scale = scale.unwrap_or(self.clock.restarts.scale);
        pass_decays(&mut self.context, self.state);
        Ok(())
    }
}
