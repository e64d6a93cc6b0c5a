//! Writes steps whose bytes fit into the buffer, which calls no writer and can't fail.
ghost use Rattle.std.specs.Prelude.{◌≡◌, ◌+◌, ◌*◌, ◌≤◌, length, true, false};
ghost use Rattle.sat_base.specs.device.Sink.{AddsToSink, sink_of};
ghost use Rattle.sat_base.specs.device.Waiting.{HasByteRoom, UsesRoom};
ghost use Rattle.sat_base.specs.steps.Spellings as spelling;
ghost use Rattle.sat_base.specs.steps.StepBytes.{number_bytes, items_in};
ghost use Rattle.sat_base.specs.steps.StepViews.{step_of, deletion_of};

use crate::device::output::Output;
use crate::device::room::Room;
use crate::steps::fields::tag;
use crate::steps::numbers::{LONGEST, push_code, push_hash, push_number};
use crate::{ClauseHash, CountedWrite, DeleteClauseProof, HashBits, Lit, ProofStep, Var};

/// Returns the lengths of a step's list of literals and of its list of hashes. A list of units counts as both.
#[inline(always)] // most callers know the step, so only one arm is left
fn list_lengths(step: &ProofStep<'_>) -> (usize, usize)
    ensures { result.0 + result.1 ≡ items_in (step_of step.now) }
{
    match *step {
        ProofStep::AddClause { clause } => (clause.len(), 0),
        ProofStep::AtClause {
            clause,
            propagation_hashes,
            ..
        } => (clause.len(), propagation_hashes.len()),
        ProofStep::UnitClauses { units } => (units.len(), units.len()),
        ProofStep::DeleteClause { clause, .. } => (clause.len(), 0),
        ProofStep::Model { assignment } => (assignment.len(), 0),
        ProofStep::Assumptions { assumptions } => (assumptions.len(), 0),
        ProofStep::FailedAssumptions {
            failed_core,
            propagation_hashes,
        } => (failed_core.len(), propagation_hashes.len()),
        _ => (0, 0),
    }
}

impl<W: CountedWrite, P: Room> Output<W, P> {
    /// Appends a number to the pending bytes.
    #[inline(always)]
    fn push_one(&mut self, number: u64)
        requires { HasByteRoom 10 P.waiting P.size self.old.pending }
        ensures sends { AddsToSink (sink_of W.seen P.waiting self.old) (sink_of W.seen P.waiting self.new)
            (number_bytes number) }
        ensures room { UsesRoom 10 P.waiting P.size self.old.pending self.new.pending }
    {
        push_number(&mut self.pending, number);
    }

    /// Appends the code of a literal to the pending bytes.
    #[inline(always)]
    fn push_code(&mut self, code: u64)
        requires { HasByteRoom 10 P.waiting P.size self.old.pending }
        ensures sends { AddsToSink (sink_of W.seen P.waiting self.old) (sink_of W.seen P.waiting self.new)
            (number_bytes code) }
        ensures room { UsesRoom 10 P.waiting P.size self.old.pending self.new.pending }
    {
        push_code(&mut self.pending, code);
    }

    /// Appends a hash to the pending bytes.
    #[inline(always)]
    fn push_hash(&mut self, hash: ClauseHash)
        requires { HasByteRoom 10 P.waiting P.size self.old.pending }
        ensures sends { AddsToSink (sink_of W.seen P.waiting self.old) (sink_of W.seen P.waiting self.new)
            (number_bytes hash) }
        ensures room { UsesRoom 10 P.waiting P.size self.old.pending self.new.pending }
    {
        push_hash(&mut self.pending, hash);
    }

    /// Appends a variable to the pending bytes.
    #[inline(always)]
    fn push_variable(&mut self, var: Var)
        requires { HasByteRoom 10 P.waiting P.size self.old.pending }
        ensures sends { spelling.PushesSpelling spelling.a_variable var W.seen P.waiting self.old self.new }
        ensures room { UsesRoom 10 P.waiting P.size self.old.pending self.new.pending }
    {
        self.push_one(var.index() as u64);
    }

    /// Appends an optional variable to the pending bytes.
    #[inline(always)]
    fn push_optional(&mut self, var: Option<Var>)
        requires { HasByteRoom 10 P.waiting P.size self.old.pending }
        ensures sends { spelling.PushesSpelling spelling.an_optional_variable var W.seen P.waiting self.old self.new }
        ensures room { UsesRoom 10 P.waiting P.size self.old.pending self.new.pending }
    {
        match var {
            None => self.push_one(0),
            Some(var) => self.push_one(var.index() as u64 + 1),
        }
    }

    /// Appends a flag to the pending bytes.
    #[inline(always)]
    fn push_flag(&mut self, flag: bool)
        requires { HasByteRoom 10 P.waiting P.size self.old.pending }
        ensures sends { spelling.PushesSpelling spelling.a_flag flag W.seen P.waiting self.old self.new }
        ensures room { UsesRoom 10 P.waiting P.size self.old.pending self.new.pending }
    {
        if flag {
            self.push_one(1)
        } else {
            self.push_one(0)
        }
    }

    /// Appends a width, which is a number of hash bits, to the pending bytes.
    #[inline(always)]
    fn push_width(&mut self, bits: HashBits)
        requires { HasByteRoom 10 P.waiting P.size self.old.pending }
        ensures sends { spelling.PushesSpelling spelling.a_width bits W.seen P.waiting self.old self.new }
        ensures room { UsesRoom 10 P.waiting P.size self.old.pending self.new.pending }
    {
        self.push_one(bits.get() as u64);
    }

    /// Appends the reason for the deletion of a clause to the pending bytes.
    #[inline(always)]
    fn push_deletion(&mut self, proof: DeleteClauseProof)
        requires { HasByteRoom 10 P.waiting P.size self.old.pending }
        ensures sends { spelling.PushesSpelling spelling.a_deletion (deletion_of proof) W.seen P.waiting self.old self.new }
        ensures room { UsesRoom 10 P.waiting P.size self.old.pending self.new.pending }
    {
        match proof {
            DeleteClauseProof::Redundant => self.push_one(0),
            DeleteClauseProof::Simplified => self.push_one(1),
            DeleteClauseProof::Satisfied => self.push_one(2),
        }
    }

    /// Appends a list of literals to the pending bytes.
    #[inline(always)]
    fn push_literals(&mut self, lits: &[Lit])
        requires { HasByteRoom (10 * (length lits.now + 1)) P.waiting P.size self.old.pending }
        ensures sends { spelling.PushesSpelling spelling.literals lits.now W.seen P.waiting self.old self.new }
        ensures room { UsesRoom (10 * (length lits.now + 1)) P.waiting P.size self.old.pending self.new.pending }
    {
        self.push_one(lits.len() as u64);
        for lit in lits {
            self.push_code(lit.code() as u64);
        }
    }

    /// Appends a list of hashes to the pending bytes.
    #[inline(always)]
    fn push_hashes(&mut self, hashes: &[ClauseHash])
        requires { HasByteRoom (10 * (length hashes.now + 1)) P.waiting P.size self.old.pending }
        ensures sends { spelling.PushesSpelling spelling.hashes hashes.now W.seen P.waiting self.old self.new }
        ensures room { UsesRoom (10 * (length hashes.now + 1)) P.waiting P.size self.old.pending self.new.pending }
    {
        self.push_one(hashes.len() as u64);
        for hash in hashes {
            self.push_hash(*hash);
        }
    }

    /// Appends a literal and its hash to the pending bytes.
    #[inline(always)]
    fn push_unit(&mut self, unit: (Lit, ClauseHash))
        requires { HasByteRoom 20 P.waiting P.size self.old.pending }
        ensures sends { spelling.PushesSpelling (spelling.both spelling.a_literal spelling.a_hash) unit W.seen P.waiting
            self.old self.new }
        ensures room { UsesRoom 20 P.waiting P.size self.old.pending self.new.pending }
    {
        let (lit, hash) = unit;
        self.push_one(lit.code() as u64);
        self.push_one(hash);
    }

    /// Appends a list of units to the pending bytes.
    fn push_units(&mut self, units: &[(Lit, ClauseHash)])
        requires { HasByteRoom (20 * length units.now + 10) P.waiting P.size self.old.pending }
        ensures sends { spelling.PushesSpelling spelling.units units.now W.seen P.waiting self.old self.new }
        ensures room { UsesRoom (20 * length units.now + 10) P.waiting P.size self.old.pending self.new.pending }
    {
        self.push_one(units.len() as u64);
        for unit in units {
            self.push_unit(*unit);
        }
    }

    /// Appends a variable and an optional variable to the pending bytes.
    #[inline(always)]
    fn push_variables(&mut self, first: Var, second: Option<Var>)
        requires { HasByteRoom 20 P.waiting P.size self.old.pending }
        ensures { spelling.PushesSpelling spelling.variables (first, second) W.seen P.waiting self.old self.new }
    {
        self.push_variable(first);
        self.push_optional(second);
    }

    /// Appends a variable and its mode to the pending bytes.
    #[inline(always)]
    fn push_mode(&mut self, var: Var, sample: bool)
        requires { HasByteRoom 20 P.waiting P.size self.old.pending }
        ensures { spelling.PushesSpelling spelling.a_mode (var, sample) W.seen P.waiting self.old self.new }
    {
        self.push_variable(var);
        self.push_flag(sample);
    }

    /// Appends a list of literals, and then a list of hashes, to the pending bytes.
    #[inline(always)]
    fn push_both_lists(&mut self, lits: &[Lit], hashes: &[ClauseHash])
        requires { HasByteRoom (10 * (length lits.now + length hashes.now + 2)) P.waiting P.size self.old.pending }
        ensures { spelling.PushesSpelling spelling.both_lists (lits.now, hashes.now) W.seen P.waiting self.old self.new }
    {
        self.push_literals(lits);
        self.push_hashes(hashes);
    }

    /// Appends the fields of a derived clause to the pending bytes.
    #[inline(always)]
    fn push_derived(&mut self, redundant: bool, clause: &[Lit], hashes: &[ClauseHash])
        requires { HasByteRoom (10 * (length clause.now + length hashes.now + 3)) P.waiting P.size self.old.pending }
        ensures { spelling.PushesSpelling spelling.a_derived (redundant, (clause.now, hashes.now)) W.seen P.waiting self.old
            self.new }
    {
        self.push_flag(redundant);
        self.push_both_lists(clause, hashes);
    }

    /// Appends a clause, and then the reason for its deletion, to the pending bytes.
    #[inline(always)]
    fn push_deleted(&mut self, clause: &[Lit], proof: DeleteClauseProof)
        requires { HasByteRoom (10 * (length clause.now + 2)) P.waiting P.size self.old.pending }
        ensures { spelling.PushesSpelling spelling.a_deleted (clause.now, deletion_of proof) W.seen P.waiting self.old
            self.new }
    {
        self.push_literals(clause);
        self.push_deletion(proof);
    }

    /// Appends the fields of a step to the pending bytes.
    #[inline(always)]
    fn push_fields(&mut self, step: &ProofStep<'_>)
        requires { HasByteRoom (10 * (items_in (step_of step.now) + 3)) P.waiting P.size self.old.pending }
        ensures { spelling.PushesSpelling spelling.fields (step_of step.now) W.seen P.waiting self.old self.new }
    {
        match *step {
            ProofStep::SolverVarName { global, solver } => self.push_variables(global, solver),
            ProofStep::UserVarName { global, user } => self.push_variables(global, user),
            ProofStep::DeleteVar { var } => self.push_variable(var),
            ProofStep::ChangeSamplingMode { var, sample } => self.push_mode(var, sample),
            ProofStep::AddClause { clause } => self.push_literals(clause),
            ProofStep::AtClause {
                redundant,
                clause,
                propagation_hashes,
            } => self.push_derived(redundant, clause, propagation_hashes),
            ProofStep::UnitClauses { units } => self.push_units(units),
            ProofStep::DeleteClause { clause, proof } => self.push_deleted(clause, proof),
            ProofStep::ChangeHashBits { bits } => self.push_width(bits),
            ProofStep::Model { assignment } => self.push_literals(assignment),
            ProofStep::Assumptions { assumptions } => self.push_literals(assumptions),
            ProofStep::FailedAssumptions {
                failed_core,
                propagation_hashes,
            } => self.push_both_lists(failed_core, propagation_hashes),
            ProofStep::End => {}
        }
    }

    /// Returns `true` if the bytes of a step certainly fit into the buffer. A number takes at most ten bytes, and
    /// besides the items of its lists a step has at most three numbers and its tag.
    #[inline(always)]
    fn has_room(&self, step: &ProofStep<'_>) -> bool
        ensures { result ≡ true → HasByteRoom (10 * (items_in (step_of step.now) + 4)) P.waiting P.size
            self.now.pending }
    {
        let spare = self.pending.free() / LONGEST;
        let (first, second) = list_lengths(step);
        4 <= spare && first <= spare - 4 && second <= spare - 4 - first
    }

    /// Appends the bytes of a step to the pending bytes. There must be room for them.
    #[inline(always)]
    fn push_step(&mut self, step: &ProofStep<'_>)
        requires { HasByteRoom (10 * (items_in (step_of step.now) + 4)) P.waiting P.size self.old.pending }
        ensures { spelling.PushesSpelling spelling.a_step (step_of step.now) W.seen P.waiting self.old self.new }
    {
        self.pending.push(tag(step));
        self.push_fields(step);
    }

    /// Appends the bytes of a step to the pending bytes if they certainly fit. Returns whether they do.
    #[inline(always)]
    pub(super) fn try_step(&mut self, step: &ProofStep<'_>) -> bool
        ensures sends { result ≡ true → spelling.PushesSpelling spelling.a_step (step_of step.now) W.seen P.waiting self.old
            self.new }
        ensures stays { result ≡ false → self.new ≡ self.old }
    {
        if !self.has_room(step) {
            return false;
        }
        self.push_step(step);
        true
    }
}
