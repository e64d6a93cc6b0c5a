//! Adds clauses.
ghost use Rattle.std.specs.Prelude.{◌≡◌, true, false, IfErr, IsErrOf};
ghost use Rattle.sat_solver.specs.variables.VariableRoom.{HasVariablesFor, user_vars_in};
ghost use Rattle.sat_solver.specs.cdcl.StepEffects.{IsFault, IsFaultOr};
ghost use Rattle.sat_solver.specs.load.Literals.{HaveNoWitness};
ghost use Rattle.sat_solver.specs.declared.state.SatState.TheVariants.{Unsat};
ghost use Rattle.sat_solver.specs.solver.Adding.{EngineAddsClause, EngineDratAdmitsClauses, EngineDratRefusesClauses};
ghost use Rattle.sat_solver.specs.solver.Adding.{AddClauseResult};
ghost use Rattle.sat_solver.specs.solver.View.{engine_has_failed};
ghost use Rattle.sat_solver.specs.solver.Whole.{EngineHasFullStore, EngineInvariant, SolverInvariant};

use crate::SolverError;
use crate::cdcl::fault::Fault;
use crate::load::clause::leave_out_clause;
use crate::solver::Engine;
use crate::solver::load::add_clause_to_search;
use crate::state::SatState;
use crate::variables::refuse::leftmost_witness;
use crate::variables::room::has_room;
use sat_base::{CountedWrite, Lit};
use sat_checker::ProofProcessor;

impl<W: CountedWrite + Drop, P: ProofProcessor> Engine<W, P> {
    /// Returns `true` if DRAT lines are written and an ask has begun.
    fn drat_refuses_clauses(&self) -> bool
        ensures yes { result ≡ true → EngineDratRefusesClauses W.seen self.now }
        ensures no { result ≡ false → EngineDratAdmitsClauses W.seen self.now }
    {
        if !self.context.proof.is_drat() {
            return false;
        }
        self.context.proof.has_asked()
    }

    /// Introduces the names of a clause, but does not add the clause. The clauses must be known to be unsatisfiable.
    fn leave_out(&mut self, lits: &[Lit]) -> Result<(), Fault>
        requires whole { SolverInvariant self.old }
        requires unsat { self.old.state ≡ Unsat }
        ensures takes { AddClauseResult W.seen result self.old self.new lits.now }
        ensures room { HasVariablesFor self.old.names (user_vars_in lits.now) → IfErr result IsFault }
        ensures assumed { self.new.assumed ≡ self.old.assumed }
        ensures clock { self.new.clock ≡ self.old.clock }
    {
        leave_out_clause(&mut self.names, &mut self.context.proof, lits)?;
        Ok(())
    }

    /// Adds a clause, none of whose names may have the mode witness.
    fn take(&mut self, lits: &[Lit]) -> Result<(), Fault>
        requires whole { SolverInvariant self.old }
        requires sampled { HaveNoWitness self.old.names lits.now }
        ensures takes { AddClauseResult W.seen result self.old self.new lits.now }
        ensures room { HasVariablesFor self.old.names (user_vars_in lits.now) → IfErr result (IsFaultOr (EngineHasFullStore self.new)) }
        ensures assumed { self.new.assumed ≡ self.old.assumed }
        ensures clock { self.new.clock ≡ self.old.clock }
    {
        match self.state {
            SatState::Unsat => return self.leave_out(lits),
            SatState::Unknown => {}
            SatState::Sat => {}
            SatState::UnsatUnderAssumptions => {}
        }
        let left = add_clause_to_search(
            &mut self.context,
            &mut self.names,
            lits,
            &mut self.loading,
        )?;
        self.state = if left {
            SatState::Unknown
        } else {
            SatState::Unsat
        };
        Ok(())
    }

    /// Adds a clause, and introduces its names from left to right.
    pub fn add_clause(&mut self, lits: &[Lit]) -> Result<(), SolverError>
        requires { EngineInvariant self.old }
        ensures solver { EngineInvariant self.new }
        ensures adds { EngineAddsClause W.seen result self.old self.new lits.now }
        ensures drat { engine_has_failed self.old ≡ false → EngineDratRefusesClauses W.seen self.old → IsErrOf result SolverError.NotInDrat }
    {
        if self.failed {
            return Err(SolverError::HasFailed);
        }
        if self.drat_refuses_clauses() {
            return Err(SolverError::NotInDrat);
        }
        if leftmost_witness(&self.names, lits).is_some() {
            return Err(SolverError::WitnessVariable);
        }
        if !has_room(&self.names, lits) {
            return Err(SolverError::VariableLimit);
        }
        self.used = true;
        match self.take(lits) {
            Ok(()) => Ok(()),
            Err(fault) => Err(self.fail(fault)),
        }
    }
}
