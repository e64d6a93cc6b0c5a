//! Sets the assumptions for later asks.
ghost use Rattle.std.specs.Prelude.{◌≡◌, true, false, OnOk, IfErr, IsErrOf};
ghost use Rattle.sat_solver.specs.variables.VariableRoom.{HasVariablesFor, user_vars_in};
ghost use Rattle.sat_solver.specs.cdcl.StepEffects.{IsFault};
ghost use Rattle.sat_base.specs.script.ScriptState.{introduce_all};
ghost use Rattle.sat_solver.specs.load.Literals.{HaveNoWitness};
ghost use Rattle.sat_solver.specs.variables.Refusing.{names_in};
ghost use Rattle.sat_solver.specs.declared.state.SatState.TheVariants.{Unsat};
ghost use Rattle.sat_solver.specs.solver.Adding.{EngineAssumesOrRefuses, EngineIsDrat, due_for_assumptions};
ghost use Rattle.sat_solver.specs.solver.Asking.{SetAssumptionsResult};
ghost use Rattle.sat_solver.specs.solver.View.{engine_has_failed};
ghost use Rattle.sat_solver.specs.solver.Whole.{EngineInvariant, SolverInvariant};

use crate::SolverError;
use crate::cdcl::fault::{Fault, FaultKind};
use crate::load::assume::assume;
use crate::solver::Engine;
use crate::solver::load::set_assumptions_in_search;
use crate::state::SatState;
use crate::variables::refuse::leftmost_witness;
use crate::variables::room::has_room;
use sat_base::{CountedWrite, Lit};
use sat_checker::ProofProcessor;

impl<W: CountedWrite + Drop, P: ProofProcessor> Engine<W, P> {
    /// Accepts the assumptions `lits` without passing them to the search. The clauses must be known to be
    /// unsatisfiable, and none of the names in `lits` may have the mode witness.
    fn ask_known(&mut self, lits: &[Lit]) -> Result<(), Fault>
        requires whole { SolverInvariant self.old }
        requires unsat { self.old.state ≡ Unsat }
        requires sampled { HaveNoWitness self.old.names lits.now }
        ensures asks { SetAssumptionsResult W.seen result self.old self.new lits.now }
        ensures room { HasVariablesFor self.old.names (user_vars_in lits.now) → IfErr result IsFault }
        ensures clock { self.new.clock ≡ self.old.clock }
    {
        assume(
            &mut self.names,
            &mut self.context.proof,
            lits,
            &mut self.asked,
        )?;
        Ok(())
    }

    /// Accepts the assumptions `lits`, none of whose names may have the mode witness.
    fn ask(&mut self, lits: &[Lit]) -> Result<(), Fault>
        requires whole { SolverInvariant self.old }
        requires sampled { HaveNoWitness self.old.names lits.now }
        ensures asks { SetAssumptionsResult W.seen result self.old self.new lits.now }
        ensures room { HasVariablesFor self.old.names (user_vars_in lits.now) → IfErr result IsFault }
        ensures clock { self.new.clock ≡ self.old.clock }
    {
        match self.state {
            SatState::Unsat => return self.ask_known(lits),
            SatState::Unknown => {}
            SatState::Sat => {}
            SatState::UnsatUnderAssumptions => {}
        }
        set_assumptions_in_search(&mut self.context, &mut self.names, lits, &mut self.asked)?;
        self.state = SatState::Unknown;
        Ok(())
    }

    /// Replaces the assumptions with `lits`, and introduces the names in `lits` from left to right.
    pub fn assume(&mut self, lits: &[Lit]) -> Result<(), SolverError>
        requires { EngineInvariant self.old }
        ensures solver { EngineInvariant self.new }
        ensures assumes { EngineAssumesOrRefuses W.seen result self.old self.new lits.now }
        ensures drat { engine_has_failed self.old ≡ false → EngineIsDrat W.seen self.old → IsErrOf result SolverError.NotInDrat }
    {
        if self.failed {
            return Err(SolverError::HasFailed);
        }
        if self.context.proof.is_drat() {
            return Err(SolverError::NotInDrat);
        }
        if leftmost_witness(&self.names, lits).is_some() {
            return Err(SolverError::WitnessVariable);
        }
        if !has_room(&self.names, lits) {
            return Err(SolverError::VariableLimit);
        }
        self.used = true;
        let asked = self.ask(lits);
        self.assumed.clear();
        let listed = self.assumed.extend_from_slice(lits);
        if let Err(fault) = asked {
            return Err(self.fail(fault));
        }
        match listed {
            Ok(()) => Ok(()),
            Err(_) => Err(self.fail(Fault::of(FaultKind::OutOfMemory))),
        }
    }
}
