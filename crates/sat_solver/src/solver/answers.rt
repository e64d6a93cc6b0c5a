//! The model or the core of the last answer.
ghost use Rattle.std.specs.Prelude.{◌≡◌, false, IfOk, IfErr, MatchOption};
ghost use Rattle.sat_solver.specs.declared.error.SolverError.TheVariants as errors;
ghost use Rattle.sat_solver.specs.solver.Answers.{EngineHasNone, EngineHasNoCore, EngineIsCore, EngineIsModel};
ghost use Rattle.sat_solver.specs.solver.Answers.{EngineModelFails};
ghost use Rattle.sat_solver.specs.solver.Whole.{EngineInvariant, engine_line};

use crate::SolverError;
use crate::model::named_lits;
use crate::solver::Engine;
use crate::state::SatState;
use sat_base::{CountedWrite, Lit};
use sat_checker::ProofProcessor;

impl<W: CountedWrite + Drop, P: ProofProcessor> Engine<W, P> {
    /// Returns the literals of a model, one for every name in use, in increasing order.
    fn model_lits(&self) -> Result<Vec<Lit>, SolverError>
        requires solver { EngineInvariant self.now }
        requires going { self.now.failed ≡ false }
        ensures line { IfOk result (λ lits. lits.items ≡ engine_line self.now) }
        ensures memory { IfErr result (λ e. e ≡ errors.OutOfMemory) }
    {
        let mut lits = Vec::new(self.context.search.alloc);
        let values = self.context.search.parts.assignment.assignment();
        named_lits(&self.names, values, &mut lits)?;
        Ok(lits)
    }

    /// Returns a model, or `None` if there is none. A model has one literal for every name in use, in increasing order.
    pub fn model(&self) -> Result<Option<Vec<Lit>>, SolverError>
        requires { EngineInvariant self.now }
        ensures model { IfOk result (λ o. MatchOption o (EngineHasNone self.now) (λ lits. EngineIsModel self.now lits.items)) }
        ensures fails { IfErr result (λ e. EngineModelFails e self.now) }
    {
        if self.failed {
            return Err(SolverError::HasFailed);
        }
        match self.state {
            SatState::Unknown => Ok(None),
            SatState::UnsatUnderAssumptions => Ok(None),
            SatState::Unsat => Ok(None),
            SatState::Sat => Ok(Some(self.model_lits()?)),
        }
    }

    /// Returns a list of assumptions that together contradict the clauses, or `None` if no such list is known.
    pub fn failed_core(&self) -> Option<&[Lit]>
        requires { EngineInvariant self.now }
        ensures { MatchOption result (EngineHasNoCore self.now) (λ core. EngineIsCore self.now core.now) }
    {
        if self.failed {
            return None;
        }
        match self.state {
            SatState::Unknown => None,
            SatState::Sat => None,
            SatState::UnsatUnderAssumptions => Some(&self.reported.failed_core),
            SatState::Unsat => Some(&[]),
        }
    }
}
