//! An incremental solver that writes a proof. Contracts describe it by one record, `SolverView`.
ghost use Rattle.std.specs.Result.{result_ok};
ghost use Rattle.std.specs.Prelude.{◌≡◌, ◌≤◌, ◌+◌, true, false, Ok, Err, OnOk, IfOk, IfErr, IsErrOf, MatchOption};
ghost use Rattle.std.specs.Prelude.{IfSome};
ghost use Rattle.sat_base.specs.device.Device.{max_reads};
ghost use Rattle.sat_base.specs.dimacs.Parsing.{MakesNoReadAfterEnd};
ghost use Rattle.sat_solver.specs.proof.EmittedView.{ReturnsIfChecked, ReturnsNotifiedIfChecked};
ghost use Rattle.sat_solver.specs.proof.ProofView.{ReturnsWriter, returned_writer};
ghost use Rattle.sat_solver.specs.variables.NamingSteps.{IsDue, LeavesNoIdleVariable, IsHidingStep, IsModeStep};
ghost use Rattle.sat_base.specs.script.ScriptState.{Sampled, Witnessed};
ghost use Rattle.sat_solver.specs.facade.View.{IsInitial};
ghost use Rattle.sat_solver.specs.solver.Calls.{MakesRounds};
ghost use Rattle.sat_solver.specs.facade.Calls.{ReachesBySteps, WritesSteps};
ghost use Rattle.sat_solver.specs.facade.Checking.{CheckerAfter, CheckerAfterAsk, CheckerAfterClosing};
ghost use Rattle.sat_solver.specs.facade.Adding.{AddsClause, AssumesOrRefuses, IsDrat, DratRefusesClauses};
ghost use Rattle.sat_solver.specs.facade.Adding.{StepsOfAssumptions};
ghost use Rattle.sat_solver.specs.facade.Adding.{StepsOfClause};
ghost use Rattle.sat_solver.specs.facade.Answers.{HasNoCore, HasNoModel, IsCore, IsModel, IsOngoing, ModelFails};
ghost use Rattle.sat_solver.specs.facade.Answers.{Solves};
ghost use Rattle.sat_solver.specs.facade.Answers.{StepsOfAsk};
ghost use Rattle.sat_solver.specs.facade.Configuring.{Configures};
ghost use Rattle.sat_solver.specs.facade.Extending.{CallsAddClause, CallsNewVar};
ghost use Rattle.sat_solver.specs.facade.Formulas.{AddsFormula, AddsText};
ghost use Rattle.sat_solver.specs.facade.Inner.{Between};
ghost use Rattle.sat_solver.specs.facade.Naming.{Hides, ObserveFails, NewNameResult, Observed, ObservesBetween};
ghost use Rattle.sat_solver.specs.facade.Naming.{OnlyMakes};
ghost use Rattle.sat_solver.specs.facade.Naming.{Samples, Witnesses, due_for_hiding, due_for_mode, due_for_name};
ghost use Rattle.sat_solver.specs.facade.Proving.{AddsProcessor, ClosesProof, ClosesText, EnablesChecking};
ghost use Rattle.sat_solver.specs.facade.Proving.{IsCertificate};
ghost use Rattle.sat_solver.specs.facade.Proving.{MakesLast};
ghost use Rattle.sat_solver.specs.facade.Proving.{IsDratRefutation, OpensProof, ReturnsAcceptedPrefix, writer_given};

mod formulas;
pub(crate) mod judged;
pub mod laws;

use crate::facade::judged::{Call, Change, Judged};
use crate::proof::format::ProofFormat;
use crate::solver::Engine;
use crate::solver::proof::ReturnedParts;
use crate::state::SatState;
use crate::{Progress, SolverConfigUpdate, SolverError};
use sat_base::{CnfFormula, CountedRead, CountedWrite, DimacsParser, ExtendFormula, Lit, Var};
use sat_checker::{Nobody, ProofProcessor};
use std::alloc::Global;
use std::marker::Model;

/// A solver for clauses over names. It answers any number of asks, under assumptions, and writes a proof.
#[derive(Drop)]
pub struct Solver<W: CountedWrite + Drop, P: ProofProcessor = Nobody> {
    inner: Engine<W, P>,
    /// The script state, as a ghost.
    judge: Judged,
}

/// Returns the name that `new_var` returned, if any.
fn name_in(answer: &Result<Var, SolverError>) -> Option<Var>
    ensures { result ≡ result_ok answer.now }
{
    match answer {
        Ok(user) => Some(*user),
        Err(_) => None,
    }
}

impl<W: CountedWrite + Drop, P: ProofProcessor> Model for Solver<W, P> {
    ghost use Rattle.sat_solver.specs.facade.View.{SolverView};
    ghost use Rattle.sat_solver.specs.facade.Inner.{IsJudged, view_of};

    ghost Value = { SolverView P };

    ghost view = { λ s. view_of W.seen s.judge.state s.inner };

    ghost invariant = { λ s. IsJudged s.inner s.judge.state };
}

impl<W: CountedWrite + Drop> Solver<W, Nobody> {
    /// Creates a solver without clauses, names or listeners. Never allocates.
    pub fn new(alloc: Global) -> Solver<W, Nobody>
        ensures { IsInitial result }
    {
        Solver::notifying(alloc)
    }
}

impl<W: CountedWrite + Drop, P: ProofProcessor> Solver<W, P> {
    /// Creates a solver without clauses or names, whose listeners are of type `P`. It has no listeners yet.
    /// Never allocates.
    pub fn notifying(alloc: Global) -> Solver<W, P>
        ensures { IsInitial result }
    {
        Solver {
            inner: Engine::notifying(alloc),
            judge: Judged::new(),
        }
    }

    /// Returns the number of rounds (not proof steps) so far, over all calls to `solve`, even after a failed call. A
    /// round ends in a conflict or an answer. Once the number is 2^64-1, no further round runs, and `solve` returns
    /// `Interrupted` unless an answer is known.
    pub fn steps(&self) -> u64
        ensures { result ≡ self.now.clock.rounds }
    {
        self.inner.steps()
    }

    /// Returns the current numbers of rounds (`conflicts`), restarts, variables that have an index but no value, and
    /// stored clauses of each kind. Never allocates.
    ///
    /// The index of a variable is its number in the search. A variable that no clause or assumption has used has no
    /// index. A clause with a single literal is not stored: it gives its variable a value at once. Contracts do not
    /// state how clauses, assumptions, asks and names change the numbers of variables and clauses.
    ///
    /// Once the solver has failed, only the numbers of rounds and restarts are exact. Once the clauses are known to be
    /// unsatisfiable, the numbers of clauses are not exact either.
    pub fn progress(&self) -> Progress
        ensures conflicts { result.conflicts ≡ self.now.clock.rounds }
        ensures restarts { result.restarts ≡ self.now.clock.restarts.count }
        ensures vars { self.now.failed ≡ false → result.vars ≡ self.now.progress.vars }
        ensures clauses { IsOngoing self.now → result ≡ self.now.progress }
    {
        self.inner.progress()
    }

    /// Adds a clause, and introduces its names from left to right.
    ///
    /// A hidden name gets a new variable. A name that was never used is introduced together with all lower names that
    /// were never used. Clauses can also be added after asks, which discards the answer.
    ///
    /// Once the clauses alone are known to be unsatisfiable, the clause still becomes part of the script state, but the
    /// only steps are those that introduce its names. Adding a clause makes this known only if the clause is empty, or
    /// has a single literal (repeated or not) whose negation is a unit: the single literal of an earlier clause, or a
    /// literal that an ask derived. In all other cases, `solve` finds it out.
    ///
    /// Refusals: `NotInDrat` after the first `solve` if DRAT lines are written; `WitnessVariable` if a name in `lits`
    /// has the mode witness; `VariableLimit` if there is no variable for a name that would be introduced. Any other
    /// error means that the solver has failed.
    pub fn add_clause(&mut self, lits: &[Lit]) -> Result<(), SolverError>
        ensures adds { AddsClause result self.old self.new lits.now }
        ensures drat { self.old.failed ≡ false → DratRefusesClauses self.old → IsErrOf result SolverError.NotInDrat }
        ensures steps { OnOk result (StepsOfClause self.old self.new lits.now) }
        ensures text { WritesSteps result self.old self.new }
        ensures checker { CheckerAfter P.takes result self.old self.new }
    {
        let result = self.inner.add_clause(lits);
        let call = Call::AddClause(lits);
        let done = result.is_ok();
        self.judge = self.judge.after(&Change { call, done });
        result
    }

    /// Adds the clauses of a formula in order, as if by calling `add_clause` for each, and stops at the first that is
    /// refused. The clauses before it remain. The formula's variable count introduces no name.
    pub fn add_formula(&mut self, formula: &CnfFormula) -> Result<(), SolverError>
        ensures adds { AddsFormula P.takes result self.old self.new formula.now.clauses }
        ensures text { ReachesBySteps self.old self.new }
    {
        if self.is_failed() {
            return Err(SolverError::HasFailed);
        }
        for clause in formula.iter() {
            self.add_clause(clause)?;
        }
        Ok(())
    }

    /// Adds the clauses of a text in DIMACS CNF, in order. The text is read in chunks of 4,096 bytes.
    ///
    /// The text may have one header, before its first clause; a header anywhere else is malformed. The numbers in the
    /// header are ignored, and its variable count introduces no name. A line whose first nonblank byte is `c` is a
    /// comment. A line whose first nonblank byte is `%` ends the text: no chunk after it is read. A text that ends
    /// inside a clause is malformed.
    ///
    /// Clauses before an error, or before a clause that is refused, remain. After `Read`, these are the clauses whose
    /// closing 0 is followed by a blank in the bytes that were read.
    ///
    /// Refusals: `Malformed` if the text is malformed; `VariableLimit` if the number of a literal is above 2^28, or if
    /// there is no variable for a name that a clause would introduce; `Read` if a read failed, or if the text has not
    /// ended after 2^48 reads; and those of `add_clause`. Any other error means that the solver has failed.
    pub fn add_dimacs_cnf<R: CountedRead>(&mut self, reader: &mut R) -> Result<(), SolverError>
        ensures adds { AddsText P.takes result self.old self.new (R.seen reader.old) (R.seen reader.new) }
        // No read is made after the one that gave the line that ends the text.
        ensures stops { MakesNoReadAfterEnd (R.seen reader.old) (R.seen reader.new) }
        ensures reads { (R.seen reader.new).calls ≤ (R.seen reader.old).calls + max_reads }
        ensures text { ReachesBySteps self.old self.new }
    {
        if self.is_failed() {
            return Err(SolverError::HasFailed);
        }
        let mut parser = DimacsParser::new(self.alloc());
        self.add_text(&mut parser, reader)
    }

    /// Replaces the assumptions with `lits`, and introduces the names in `lits` from left to right.
    ///
    /// The assumptions apply to every later `solve` until the next `assume`. The answer is discarded even if the
    /// assumptions are unchanged, unless the clauses alone are known to be unsatisfiable.
    ///
    /// Refusals: `NotInDrat` if DRAT lines are written; `WitnessVariable` if a name in `lits` has the mode witness;
    /// `VariableLimit` if there is no variable for a name that would be introduced. Any other error means that the
    /// solver has failed.
    pub fn assume(&mut self, lits: &[Lit]) -> Result<(), SolverError>
        ensures assumes { AssumesOrRefuses result self.old self.new lits.now }
        ensures drat { self.old.failed ≡ false → IsDrat self.old → IsErrOf result SolverError.NotInDrat }
        ensures steps { OnOk result (StepsOfAssumptions self.old self.new lits.now) }
        ensures text { WritesSteps result self.old self.new }
        ensures checker { CheckerAfter P.takes result self.old self.new }
    {
        let result = self.inner.assume(lits);
        let call = Call::Assume(lits);
        let done = result.is_ok();
        self.judge = self.judge.after(&Change { call, done });
        result
    }

    /// Returns `true` if the clauses and the assumptions can be satisfied, and `false` if they cannot. The contract of
    /// `model` states that the first answer is correct (`IsModel`), and that of `failed_core` the second (`IsCore`).
    /// Without assumptions, `false` means that the clauses alone are known to be unsatisfiable (law
    /// `unsat_without_assumptions`).
    ///
    /// Before each round, a restart and the reductions are made if they are due (`rounds`). The first restart is due
    /// before the first round of all. Every round, except one that gives the answer, derives exactly one empowering
    /// clause (`StepsOfAsk`).
    ///
    /// Returns `Interrupted` if the rounds that the parameters allow for this call are exhausted, or if the number of
    /// rounds over all calls has reached 2^64-1. The next `solve` then continues the search, though no contract states
    /// this. If neither a clause nor assumptions have been accepted since the last answer, returns that answer again,
    /// without running a round or making a step. Once the clauses alone are known to be unsatisfiable, returns false,
    /// likewise without a round or a step, even after further clauses or assumptions.
    ///
    /// By the time this call returns an answer or `Interrupted`, it has flushed the open target, if any, even if it
    /// returns a known answer again. The solver's own checker, if any, has by then received all steps and announced
    /// everything that was pending.
    pub fn solve(&mut self) -> Result<bool, SolverError>
        ensures solves { Solves result self.old self.new }
        ensures steps { self.old.failed ≡ false → self.new.failed ≡ false → StepsOfAsk self.old self.new }
        ensures rounds { self.old.failed ≡ false → self.new.failed ≡ false → self.old.answer ≡ SatState.Unknown
            → Between ⟦<P as ProofProcessor>⟧ W.seen (MakesRounds W.seen) self.old self.new }
        ensures text { WritesSteps result self.old self.new }
        ensures checker { CheckerAfterAsk P.takes result self.old self.new }
    {
        self.inner.solve()
    }

    /// Returns a model, or `None` if there is none. A model has one literal for every name in use, in increasing order.
    ///
    /// There is a model only after a `solve` that returned true, and only until a clause or assumptions are accepted.
    /// Names that were introduced after this `solve` are false, except those that `observe_internal_vars` introduced,
    /// which have the values of their variables. This includes names that were hidden after this `solve` and introduced
    /// again. The solver can still be used after `OutOfMemory`.
    pub fn model(&self) -> Result<Option<Vec<Lit>>, SolverError>
        ensures model { IfOk result (λ o. MatchOption o (HasNoModel self.now) (λ lits. IsModel self.now lits.items)) }
        ensures fails { IfErr result (λ e. ModelFails e self.now) }
    {
        self.inner.model()
    }

    /// Returns a list of assumptions that together contradict the clauses, or `None` if no such list is known.
    ///
    /// The list need be neither minimal nor sorted. A list is known after a `solve` that returned false, until a clause or
    /// assumptions are accepted. Once the clauses alone are known to be unsatisfiable, even without a `solve`, the list
    /// is known and empty; otherwise, a known list is not empty. Returns `None` once the solver has failed.
    pub fn failed_core(&self) -> Option<&[Lit]>
        ensures { MatchOption result (HasNoCore self.now) (λ core. IsCore self.now core.now) }
    {
        self.inner.failed_core()
    }

    /// Applies `update` to the parameters. If one of its fields is out of range, returns `OutOfRange` and
    /// changes nothing.
    ///
    /// The new parameters apply to all later rounds; the answer is unchanged. A new `luby_restart_interval_scale`
    /// changes only the gaps after the next restart, not when that restart is due.
    pub fn config(&mut self, update: &SolverConfigUpdate) -> Result<(), SolverError>
        ensures { Configures result update.now self.old self.new }
    {
        self.inner.config(update)
    }

    /// Hides a name, whatever its mode. If the name is not in use, it is introduced first.
    ///
    /// The clauses keep the variable of the name, and the name can be introduced again, for a new variable. The answer
    /// is unchanged.
    ///
    /// A variable has no index (number in the search) if no clause or assumption has used it, if a simplification has
    /// found it unused, or if it occurs only in clauses that were added once the clauses were known to be
    /// unsatisfiable. Such a variable is deleted immediately. Any other variable remains in use, at least until a
    /// simplification finds that no clause uses it.
    ///
    /// Refusals: `AssumedVariable` if the name is assumed; `VariableLimit` if there is no variable for a name that
    /// would be introduced. Any other error means that the solver has failed.
    pub fn hide_var(&mut self, user: Var) -> Result<(), SolverError>
        ensures hides { Hides result self.old self.new user }
        ensures gone { OnOk result (LeavesNoIdleVariable self.new.steps) }
        ensures steps { OnOk result (OnlyMakes IsHidingStep (due_for_hiding user) self.old self.new) }
        ensures text { WritesSteps result self.old self.new }
        ensures checker { CheckerAfter P.takes result self.old self.new }
    {
        let result = self.inner.hide_var(user);
        let call = Call::HideVar(user);
        let done = result.is_ok();
        self.judge = self.judge.after(&Change { call, done });
        result
    }

    /// Sets the mode of a name to witness. If the name is not in use, it is introduced first.
    ///
    /// While the name has this mode, clauses and assumptions that contain it are refused. It keeps the mode until
    /// `sample_var`, or until it is hidden: afterwards, a clause that contains it introduces it again, with the mode
    /// sample. The answer is unchanged.
    ///
    /// Refusals: `AssumedVariable` if the name is assumed; `VariableLimit` if there is no variable for a name that
    /// would be introduced. Any other error means that the solver has failed.
    pub fn witness_var(&mut self, user: Var) -> Result<(), SolverError>
        ensures witnesses { Witnesses result self.old self.new user }
        ensures steps { OnOk result (OnlyMakes (IsModeStep (user + 1) false) (due_for_mode Witnessed user) self.old self.new) }
        ensures text { WritesSteps result self.old self.new }
        ensures checker { CheckerAfter P.takes result self.old self.new }
    {
        let result = self.inner.witness_var(user);
        let call = Call::WitnessVar(user);
        let done = result.is_ok();
        self.judge = self.judge.after(&Change { call, done });
        result
    }

    /// Sets the mode of a name to sample, which is also the mode of new names. If the name is not in use, it is
    /// introduced first.
    ///
    /// The answer is unchanged. Refusals: `AssumedVariable` if the name is assumed, even if it already has this mode;
    /// `VariableLimit` if there is no variable for a name that would be introduced. Any other error means that the
    /// solver has failed.
    pub fn sample_var(&mut self, user: Var) -> Result<(), SolverError>
        ensures samples { Samples result self.old self.new user }
        ensures steps { OnOk result (OnlyMakes (IsModeStep (user + 1) true) (due_for_mode Sampled user) self.old self.new) }
        ensures text { WritesSteps result self.old self.new }
        ensures checker { CheckerAfter P.takes result self.old self.new }
    {
        let result = self.inner.sample_var(user);
        let call = Call::SampleVar(user);
        let done = result.is_ok();
        self.judge = self.judge.after(&Change { call, done });
        result
    }

    /// Introduces a name and returns it: the lowest hidden name, or the lowest name never used if no name is hidden.
    ///
    /// The answer is unchanged; if it is a model, the new name is false in it. Returns `VariableLimit` only if every
    /// proof variable is in use, and then changes nothing. Any other error means that the solver has failed.
    pub fn new_var(&mut self) -> Result<Var, SolverError>
        ensures names { NewNameResult result self.old self.new }
        ensures steps { IfOk result (λ v. OnlyMakes IsDue (due_for_name v) self.old self.new) }
        ensures text { WritesSteps result self.old self.new }
        ensures checker { CheckerAfter P.takes result self.old self.new }
    {
        let result = self.inner.new_var();
        let call = Call::NewVar(name_in(&result));
        self.judge = self.judge.after(&Change { call, done: true });
        result
    }

    /// Gives a name with the mode witness to every variable in use that has no name. Returns the names.
    ///
    /// Visits the variables in increasing order, and gives each the name that `new_var` would return. The answer is
    /// unchanged. If there is no such variable, this call does not prevent a proof from being opened. Any error means
    /// that the solver has failed.
    pub fn observe_internal_vars(&mut self) -> Result<Vec<Var>, SolverError>
        ensures observes { IfOk result (λ users. Observed self.old self.new users.items) }
        ensures steps { IfOk result (λ users. ObservesBetween self.old self.new users.items) }
        ensures fails { IfErr result (λ e. ObserveFails e self.old self.new) }
        ensures text { WritesSteps result self.old self.new }
        ensures checker { CheckerAfter P.takes result self.old self.new }
    {
        let users = self.inner.observe_internal_vars()?;
        self.judge = self.inner.judge_observed(&self.judge, &users);
        Ok(users)
    }

    /// Opens a proof: all further steps are written to `target` in the format `format`.
    ///
    /// Returns `TooLate` if the solver has accepted a clause, a name or assumptions, if an ask has begun, or if a proof
    /// is open. If an error is returned, the target is dropped. While DRAT lines are written, `assume` returns
    /// `NotInDrat`, and so does `add_clause` after the first `solve`.
    ///
    /// DRAT lines list derived and deleted clauses, but not added ones. Their literals refer to proof variables, which
    /// are numbered from 1. Until a name is hidden, the variable of name n has the number n; afterwards the numbers
    /// may differ.
    pub fn write_proof(&mut self, target: W, format: ProofFormat) -> Result<(), SolverError>
        ensures { OpensProof result format (W.seen target) self.old self.new }
    {
        self.inner.write_proof(target, format)
    }

    /// Starts the solver's own checker, which receives all further steps.
    ///
    /// The checker receives the steps that a proof in the format `Varisat` would contain, except for the ends of
    /// proofs, and rejects none of these steps. Returns `TooLate`, even if there is a checker, if the solver has
    /// accepted a clause, a name or assumptions, or if an ask has begun. Otherwise, a checker that is there already
    /// stays.
    pub fn enable_self_checking(&mut self) -> Result<(), SolverError>
        ensures { EnablesChecking result self.old self.new }
    {
        self.inner.enable_self_checking()
    }

    /// Adds a listener to the solver's own checker, starting one if there is none.
    ///
    /// Returns `TooLate` when `enable_self_checking` does. If memory runs out, the solver fails permanently. If an
    /// error is returned, the listener is dropped.
    pub fn add_proof_processor(&mut self, processor: P) -> Result<(), SolverError>
        ensures { AddsProcessor result processor self.old self.new }
    {
        self.inner.add_proof_processor(processor)
    }

    /// Writes the `End` step, flushes the target and returns it. Returns `None` if no proof is open. After an error,
    /// the solver keeps the target.
    ///
    /// The target has received the text of all steps since the proof was opened, and a checker accepts these steps. The
    /// contract assumes that only ends of proofs came before them. This always holds, since `write_proof` refuses a
    /// solver that has been used.
    ///
    /// The DRAT lines of all steps are a derivation; if the clauses are known to be unsatisfiable, they refute them.
    pub fn close_proof(&mut self) -> Result<Option<W>, SolverError>
        ensures closes { ClosesProof (writer_given W.seen result) self.old self.new }
        ensures steps { IfOk result (λ o. IfSome o (λ _. MakesLast self.old self.new)) }
        ensures text { ClosesText (writer_given W.seen result) self.old self.new }
        ensures checker { CheckerAfterClosing P.takes result self.old self.new }
        ensures certificate { IfOk result (λ o. IfSome o (λ given. IsCertificate (W.seen given) self.old self.new)) }
        ensures drat { IfOk result (λ o. IfSome o (λ _. IsDratRefutation self.old self.new)) }
    {
        self.inner.close_proof()
    }

    /// Returns the target without flushing it, if a proof is open or its target failed. Pending bytes are lost. The
    /// target has received a prefix of the text of steps that a checker accepts, even if the solver has failed. It can
    /// have received the `End` step only if `close_proof` returned an error.
    pub fn into_target(self) -> Option<W>
        ensures gives { ReturnsWriter self.target (returned_writer W.seen result) }
        ensures front { ReturnsAcceptedPrefix (returned_writer W.seen result) self }
    {
        let solver = self;
        solver.inner.into_target()
    }

    /// Returns the listeners in the order in which they were added, and the target, even after a failure. After a
    /// failure, the listeners may have been notified of only a prefix of the announcements.
    ///
    /// After two contradictory units, the empty clause that follows from them is announced with the next step (`End`
    /// included) or the next `solve`. If neither has followed, the listeners may not have been notified of the empty
    /// clause. The target is the one that `into_target` would return.
    pub fn into_processors(self) -> ReturnedParts<W, P>
        ensures target { ReturnsWriter self.target (returned_writer W.seen result.target) }
        ensures front { ReturnsAcceptedPrefix (returned_writer W.seen result.target) self }
        ensures processors { ReturnsIfChecked P.takes self.listeners result.processors.items self.steps }
        ensures whole { self.lost ≡ false → ReturnsNotifiedIfChecked P.takes self.listeners result.processors.items self.steps }
    {
        let solver = self;
        solver.inner.into_processors()
    }
}

impl<W: CountedWrite + Drop, P: ProofProcessor> ExtendFormula for Solver<W, P> {
    type Error = SolverError;

    ghost ready = { λ _. Unit {0} };

    ghost adds = { λ old clause new. CallsAddClause P.takes (Ok tt) old new clause };

    ghost refuses_clause = { λ old clause e new. CallsAddClause P.takes (Err e) old new clause };

    ghost makes = { λ old v new. CallsNewVar P.takes (Ok v) old new };

    ghost refuses_variable = { λ old e new. CallsNewVar P.takes (Err e) old new };

    fn add_clause(&mut self, lits: &[Lit]) -> Result<(), SolverError> {
        Solver::add_clause(self, lits)
    }

    fn new_var(&mut self) -> Result<Var, SolverError> {
        Solver::new_var(self)
    }
}
