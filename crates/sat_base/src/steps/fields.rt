//! Reads and writes steps: a tag, and then the fields of the step.
#![tactic(auto, using(crate::proofs::lemmas::device::Sending::sending))]

ghost use Rattle.std.specs.Prelude.{◌≡◌, ◌<◌, OnOk, [], ℕ, List, IsTrue, false};
ghost use Rattle.sat_base.specs.device.ReadRoom.{unread_in, HasReadRoom, ReadsWithinRoom, HasItemRoom};
ghost use Rattle.sat_base.specs.device.Reading.{ReadsFromInput, source_of, map_result, AnswersStepRead};
ghost use Rattle.sat_base.specs.device.Reading.{SpellsFieldsOfTag};
ghost use Rattle.sat_base.specs.steps.Kinds.{step_with, step_of_lists, is_tag, has_lists};
ghost use Rattle.sat_base.specs.steps.Spellings.{SendsSpelling, fields, a_step};
ghost use Rattle.sat_base.specs.steps.StepText.{tag_of};
ghost use Rattle.sat_base.specs.steps.StepViews.{step_of};

use crate::device::input::Input;
use crate::device::kept_error::WriteFailed;
use crate::device::output::Output;
use crate::device::room::Room;
use crate::steps::kind::StepKind;
use crate::steps::step_lists::Lists;
use crate::{CountedRead, CountedWrite, ProofStep, StepError};

/// Returns the tag of a step.
#[inline(always)] // most callers know the step
pub(super) fn tag(step: &ProofStep<'_>) -> u8
    ensures { result ≡ tag_of (step_of step.now) }
{
    match *step {
        ProofStep::SolverVarName { .. } => 1,
        ProofStep::UserVarName { .. } => 2,
        ProofStep::DeleteVar { .. } => 3,
        ProofStep::ChangeSamplingMode { .. } => 4,
        ProofStep::AddClause { .. } => 5,
        ProofStep::AtClause { .. } => 6,
        ProofStep::UnitClauses { .. } => 7,
        ProofStep::DeleteClause { .. } => 8,
        ProofStep::ChangeHashBits { .. } => 9,
        ProofStep::Model { .. } => 10,
        ProofStep::Assumptions { .. } => 11,
        ProofStep::FailedAssumptions { .. } => 12,
        ProofStep::End => 13,
    }
}

/// Returns `true` if some kind of step has this tag.
fn is_tag(tag: u8) -> bool
    ensures { result ≡ is_tag tag }
{
    0 < tag && tag < 14
}

/// Returns `true` if steps with this tag have lists.
fn has_lists(tag: u8) -> bool
    ensures { result ≡ has_lists tag }
{
    tag == 5 || tag == 6 || tag == 7 || tag == 8 || tag == 10 || tag == 11 || tag == 12
}

impl<R: CountedRead> Input<'_, R> {
    /// Reads the fields of a step with this tag, and returns them as its kind. Steps with this tag must have no lists.
    fn plain_fields(&mut self, tag: u8) -> Result<StepKind, StepError>
        requires known { IsTrue (is_tag tag) }
        requires plain { has_lists tag ≡ false }
        requires room { unread_in self.old < self.old.room }
        ensures reads { (literals hashes : List ℕ) (units : List (ℕ × ℕ))
            → ReadsFromInput (SpellsFieldsOfTag tag) (map_result (λ k. step_with k literals hashes units) result) R.seen self.old
            self.new }
        ensures within { ReadsWithinRoom self.old self.new }
    {
        if tag < 5 {
            let var = self.variable()?;
            if tag == 3 {
                Ok(StepKind::DeleteVar { var })
            } else if tag == 4 {
                let sample = self.flag()?;
                Ok(StepKind::ChangeSamplingMode { var, sample })
            } else {
                let named = self.optional()?;
                if tag == 1 {
                    Ok(StepKind::SolverVarName {
                        global: var,
                        solver: named,
                    })
                } else {
                    Ok(StepKind::UserVarName {
                        global: var,
                        user: named,
                    })
                }
            }
        } else if tag == 9 {
            let bits = self.width()?;
            Ok(StepKind::ChangeHashBits { bits })
        } else {
            Ok(StepKind::End)
        }
    }

    /// Reads the fields of a step with this tag, and its lists into `lists`. Returns the kind of the step. Steps with
    /// this tag must have lists.
    fn list_fields(&mut self, lists: &mut Lists, tag: u8) -> Result<StepKind, StepError>
        requires tag { IsTrue (has_lists tag) }
        requires room { HasReadRoom self.old }
        requires lists { HasItemRoom lists.old self.old.room }
        ensures reads { ReadsFromInput (SpellsFieldsOfTag tag) (map_result (step_of_lists lists.new) result) R.seen self.old
            self.new }
        ensures within { ReadsWithinRoom self.old self.new }
        ensures lists { HasItemRoom lists.new self.old.room }
    {
        if tag == 6 {
            let redundant = self.flag_and_lists(lists)?;
            Ok(StepKind::AtClause { redundant })
        } else if tag == 7 {
            self.units(&mut lists.units)?;
            Ok(StepKind::UnitClauses)
        } else if tag == 8 {
            let proof = self.clause_and_deletion(lists)?;
            Ok(StepKind::DeleteClause { proof })
        } else if tag == 12 {
            self.both_lists(lists)?;
            Ok(StepKind::FailedAssumptions)
        } else {
            self.literals(&mut lists.literals)?;
            if tag == 5 {
                Ok(StepKind::AddClause)
            } else if tag == 10 {
                Ok(StepKind::Model)
            } else {
                Ok(StepKind::Assumptions)
            }
        }
    }

    /// Reads the fields of a step with this tag, and its lists, if any, into `lists`. Returns the kind of the step.
    fn fields(&mut self, lists: &mut Lists, tag: u8) -> Result<StepKind, StepError>
        requires tag { IsTrue (is_tag tag) }
        requires room { unread_in self.old < self.old.room }
        requires lists { HasItemRoom lists.old self.old.room }
        ensures reads { ReadsFromInput (SpellsFieldsOfTag tag) (map_result (step_of_lists lists.new) result) R.seen self.old
            self.new }
        ensures within { ReadsWithinRoom self.old self.new }
        ensures lists { HasItemRoom lists.new self.old.room }
    {
        if has_lists(tag) {
            self.list_fields(lists, tag)
        } else {
            self.plain_fields(tag)
        }
    }

    /// Reads the next step, and its lists, if any, into `lists`. Returns the kind of the step.
    pub(super) fn read_step(&mut self, lists: &mut Lists) -> Result<StepKind, StepError>
        requires room { HasReadRoom self.old }
        requires lists { HasItemRoom lists.old self.old.room }
        ensures reads { AnswersStepRead (map_result (step_of_lists lists.new) result) (source_of R.seen self.old)
            (source_of R.seen self.new) }
        ensures within { ReadsWithinRoom self.old self.new }
        ensures lists { HasItemRoom lists.new self.old.room }
    {
        match self.next_byte()? {
            None => Err(StepError::Ends),
            Some(tag) => {
                if !is_tag(tag) {
                    return Err(StepError::BadByte);
                }
                self.fields(lists, tag)
            }
        }
    }
}

impl<W: CountedWrite, P: Room> Output<W, P> {
    /// Writes the fields of a step to the buffer.
    fn put_fields(&mut self, step: &ProofStep<'_>) -> Result<(), WriteFailed>
        ensures { SendsSpelling fields (step_of step.now) result W.seen P.waiting self.old self.new }
    {
        match *step {
            ProofStep::SolverVarName { global, solver } => self.put_variables(global, solver),
            ProofStep::UserVarName { global, user } => self.put_variables(global, user),
            ProofStep::DeleteVar { var } => self.put_variable(var),
            ProofStep::ChangeSamplingMode { var, sample } => self.put_mode(var, sample),
            ProofStep::AddClause { clause } => self.put_literals(clause),
            ProofStep::AtClause {
                redundant,
                clause,
                propagation_hashes,
            } => self.put_derived(redundant, clause, propagation_hashes),
            ProofStep::UnitClauses { units } => self.put_units(units),
            ProofStep::DeleteClause { clause, proof } => self.put_deleted(clause, proof),
            ProofStep::ChangeHashBits { bits } => self.put_width(bits),
            ProofStep::Model { assignment } => self.put_literals(assignment),
            ProofStep::Assumptions { assumptions } => self.put_literals(assumptions),
            ProofStep::FailedAssumptions {
                failed_core,
                propagation_hashes,
            } => self.put_both_lists(failed_core, propagation_hashes),
            ProofStep::End => Ok(()),
        }
    }

    /// Writes the tag and the fields of a step to the buffer.
    pub(super) fn put_step(&mut self, step: &ProofStep<'_>) -> Result<(), WriteFailed>
        ensures { SendsSpelling a_step (step_of step.now) result W.seen P.waiting self.old self.new }
    {
        self.put(tag(step))?;
        self.put_fields(step)
    }

    /// Writes out the pending bytes, and then the bytes of a step.
    pub(super) fn write_step(&mut self, step: &ProofStep<'_>) -> Result<(), WriteFailed>
        ensures writes { SendsSpelling a_step (step_of step.now) result W.seen P.waiting self.old self.new }
        ensures none { OnOk result (P.waiting self.new.pending ≡ []) }
    {
        self.put_step(step)?;
        self.write_rest()
    }
}
