//! A reader of proof steps.
ghost use Rattle.std.specs.Prelude.{◌≡◌, ℕ, List, false};
ghost use Rattle.sat_base.specs.steps.StepText.{tag_of};
ghost use Rattle.sat_base.specs.steps.StepViews.{step_of};
ghost use Rattle.sat_base.specs.device.ReadRoom.{unread, HasCapacityFor};
ghost use Rattle.sat_base.specs.device.Reading.{AnswersStepRead, with_result_value, source, new_source, map_result};
ghost use Rattle.sat_base.specs.steps.Kinds.{step_of_lists, step_with};
ghost use Rattle.sat_base.specs.steps.StepReading.{reader_source, has_reader_failed, reader_borrow, last_step_in};
ghost use Rattle.sat_base.specs.steps.StepReading.{is_stop};
ghost use Rattle.sat_base.specs.steps.StepReading.{AdvanceEffect};

use crate::device::ahead::Ahead;
use crate::device::input::Input;
use crate::steps::kind::StepKind;
use crate::steps::read_state::ReadState;
use crate::steps::step_lists::Lists;
use crate::{CountedRead, ProofStep, StepError};
use std::alloc::Global;

/// The buffers of a step reader: the bytes that were read ahead, and the current step.
#[derive(Drop)]
pub struct Buffers {
    state: ReadState,
    /// The current step, except for its lists.
    kind: StepKind,
    failed: bool,
}

/// A reader of proof steps. It reads at most 4,096 bytes at a time.
pub struct StepReader<'r, R, B: Drop = Buffers> {
    reader: &'r mut R,
    buffers: B,
}

impl<R, B: Drop> Drop for StepReader<'_, R, B> {
    /// Doesn't change the underlying reader.
    fn drop(self)
        ensures { self.exit.0.now ≡ self.entry.reader.now }
    {
        let StepReader {
            reader: _reader,
            buffers: _buffers,
        } = self;
    }
}

/// Returns `true` if no more steps can be read after this error.
fn stops(error: StepError) -> bool
    ensures { result ≡ is_stop error }
{
    match error {
        StepError::Ends => false,
        StepError::Cut => true,
        StepError::BadByte => true,
        StepError::Read => true,
        StepError::OutOfMemory => true,
        StepError::HasFailed => true,
    }
}

/// Returns the tag of a step of this kind.
#[inline(always)] // a caller that asks for one tag compares once
fn tag(kind: StepKind) -> u8
    ensures { (literals hashes : List ℕ) (units : List (ℕ × ℕ))
        → result ≡ tag_of (step_with kind literals hashes units) }
{
    match kind {
        StepKind::SolverVarName { .. } => 1,
        StepKind::UserVarName { .. } => 2,
        StepKind::DeleteVar { .. } => 3,
        StepKind::ChangeSamplingMode { .. } => 4,
        StepKind::AddClause => 5,
        StepKind::AtClause { .. } => 6,
        StepKind::UnitClauses => 7,
        StepKind::DeleteClause { .. } => 8,
        StepKind::ChangeHashBits { .. } => 9,
        StepKind::Model => 10,
        StepKind::Assumptions => 11,
        StepKind::FailedAssumptions => 12,
        StepKind::End => 13,
    }
}

/// Reads the next step, from the bytes in `ahead` and then from `reader`, and returns its kind. Memory for the items in
/// a chunk is reserved before the chunk is read, so storing them never allocates.
fn read_from<R: CountedRead>(
    reader: &mut R,
    ahead: &mut Ahead,
    lists: &mut Lists,
) -> Result<StepKind, StepError>
    requires { HasCapacityFor lists.old (unread ahead.old) }
    ensures reads { AnswersStepRead (map_result (step_of_lists lists.new) result) (source R.seen reader.old ahead.old)
        (source R.seen reader.new ahead.new) }
    ensures room { HasCapacityFor lists.new (unread ahead.new) }
{
    let unread = ahead.unread();
    lists.make_room(unread);
    let mut input = Input::new(reader, ahead, lists.room(unread));
    input.read_step(lists)
}

impl<'r, R: CountedRead> StepReader<'r, R, Buffers> {
    /// Returns a step reader that reads its bytes from `reader`. Reads nothing yet, and never allocates.
    pub fn new(alloc: Global, reader: &'r mut R) -> StepReader<'r, R, Buffers>
        ensures same { reader_borrow result ≡ reader.entry.ghost_name }
        ensures source { reader_source R.seen result ≡ new_source (R.seen reader.old) }
        ensures fresh { has_reader_failed result ≡ false }
    {
        let buffers = Buffers {
            state: ReadState {
                ahead: Ahead::new(),
                lists: Lists::new(alloc),
            },
            kind: StepKind::End,
            failed: false,
        };
        StepReader { reader, buffers }
    }

    /// Reads the next step, which `step` then returns. After any error other than `Ends`, all later calls
    /// return `HasFailed`. Memory for the lists of a step is requested before its bytes are read: after `OutOfMemory`,
    /// the bytes given after the steps before are a proper prefix of a step.
    pub fn advance(&mut self) -> Result<(), StepError>
        ensures { AdvanceEffect R.seen self.old self.new (with_result_value (last_step_in self.new) result) }
    {
        if self.buffers.failed {
            return Err(StepError::HasFailed);
        }
        match read_from(
            self.reader,
            &mut self.buffers.state.ahead,
            &mut self.buffers.state.lists,
        ) {
            Ok(kind) => {
                self.buffers.kind = kind;
                Ok(())
            }
            Err(error) => {
                self.buffers.failed = stops(error);
                Err(error)
            }
        }
    }

    /// Returns the tag, from 1 to 13, of the step that `advance` has read. After an error, the tag is unspecified.
    pub fn tag(&self) -> u8
        ensures { result ≡ tag_of (last_step_in self.now) }
    {
        tag(self.buffers.kind)
    }

    /// Returns the step that `advance` has read. After an error, the step is unspecified.
    pub fn step(&self) -> ProofStep<'_>
        ensures { step_of result ≡ last_step_in self.now }
    {
        self.buffers.state.lists.step(self.buffers.kind)
    }
}
