//! Answers asks.
ghost use Rattle.std.specs.Prelude.{◌≡◌, OnOk};
ghost use Rattle.sat_solver.specs.solver.Whole.{EngineInvariant, SolverInvariant};
ghost use Rattle.sat_solver.specs.solver.Calls.{EngineSolves};
ghost use Rattle.sat_solver.specs.solver.Found.{SearchedBy};
ghost use Rattle.sat_solver.specs.solver.SearchingForAnswer.{AnswersOrBreaks};

use crate::SolverError;
use crate::cdcl::fault::Fault;
use crate::solver::Engine;
use crate::solver::find::find_answer;
use crate::state::SatState;
use sat_base::CountedWrite;
use sat_checker::ProofProcessor;

impl<W: CountedWrite + Drop, P: ProofProcessor> Engine<W, P> {
    /// Searches for an answer if none is known.
    fn find_if_unknown(&mut self) -> Result<(), Fault>
        requires whole { SolverInvariant self.old }
        ensures answers { AnswersOrBreaks W.seen result self.old self.new }
        ensures searched { OnOk result (self.old.state ≡ SatState.Unknown → SearchedBy W.seen self.new.state self.old.clock
            self.new.clock self.old.names self.new.names self.old.context self.new.context self.new.reported.failed_core.items) }
    {
        match self.state {
            SatState::Unknown => {}
            SatState::Sat => return Ok(()),
            SatState::UnsatUnderAssumptions => return Ok(()),
            SatState::Unsat => return Ok(()),
        }
        let found = find_answer(
            &mut self.context,
            &mut self.names,
            &mut self.reported,
            &mut self.clock,
        )?;
        match found {
            None => Ok(()),
            Some(state) => {
                self.state = state;
                Ok(())
            }
        }
    }

    /// Returns `true` if the clauses and the assumptions can be satisfied, and `false` if they cannot.
    pub fn solve(&mut self) -> Result<bool, SolverError>
        requires { EngineInvariant self.old }
        ensures solver { EngineInvariant self.new }
        ensures solves { EngineSolves W.seen result self.old self.new }
    {
        if self.failed {
            return Err(SolverError::HasFailed);
        }
        self.used = true;
        self.context.proof.begin_ask();
        if let Err(fault) = self.find_if_unknown() {
            return Err(self.fail(fault));
        }
        if let Err(error) = self.context.proof.flush_proof() {
            return Err(self.fail(Fault::from(error)));
        }
        match self.state {
            SatState::Unknown => Err(SolverError::Interrupted),
            SatState::Sat => Ok(true),
            SatState::UnsatUnderAssumptions => Ok(false),
            SatState::Unsat => Ok(false),
        }
    }
}
