//! Reads and writes fields of steps that consist of a single number.
ghost use Rattle.sat_base.specs.device.ReadRoom.{HasReadRoom, ReadsWithinRoom};
ghost use Rattle.sat_base.specs.device.Reading.{ReadsFromInput, map_result};
ghost use Rattle.sat_base.specs.steps.Spellings.{SendsSpelling, a_variable, an_optional_variable, a_flag, a_width};
ghost use Rattle.sat_base.specs.steps.Spellings.{a_deletion};
ghost use Rattle.sat_base.specs.steps.StepText.{SpellsVariable, SpellsOptionalVariable, SpellsFlag, SpellsWidth};
ghost use Rattle.sat_base.specs.steps.StepText.{SpellsDeletion};
ghost use Rattle.sat_base.specs.steps.StepViews.{deletion_of};

use crate::device::input::Input;
use crate::device::kept_error::WriteFailed;
use crate::device::output::Output;
use crate::device::room::Room;
use crate::var::MAX_COUNT;
use crate::{CountedRead, CountedWrite, DeleteClauseProof, HashBits, StepError, Var};

/// The largest index of a variable.
const LARGEST_INDEX: u64 = MAX_COUNT as u64 - 1;

impl<R: CountedRead> Input<'_, R> {
    /// Reads and returns a variable.
    pub(super) fn variable(&mut self) -> Result<Var, StepError>
        requires { HasReadRoom self.old }
        ensures reads { ReadsFromInput SpellsVariable result R.seen self.old self.new }
        ensures within { ReadsWithinRoom self.old self.new }
    {
        let index = self.number(LARGEST_INDEX)?;
        Ok(Var::from_index(index as usize))
    }

    /// Reads and returns an optional variable.
    pub(super) fn optional(&mut self) -> Result<Option<Var>, StepError>
        requires { HasReadRoom self.old }
        ensures reads { ReadsFromInput SpellsOptionalVariable result R.seen self.old self.new }
        ensures within { ReadsWithinRoom self.old self.new }
    {
        let above = self.number(LARGEST_INDEX + 1)?;
        if above == 0 {
            return Ok(None);
        }
        Ok(Some(Var::from_index((above - 1) as usize)))
    }

    /// Reads and returns a flag.
    pub(super) fn flag(&mut self) -> Result<bool, StepError>
        requires { HasReadRoom self.old }
        ensures reads { ReadsFromInput SpellsFlag result R.seen self.old self.new }
        ensures within { ReadsWithinRoom self.old self.new }
    {
        let bit = self.number(1)?;
        if bit == 0 {
            return Ok(false);
        }
        Ok(true)
    }

    /// Reads and returns a width, which is a number of hash bits.
    pub(super) fn width(&mut self) -> Result<HashBits, StepError>
        requires { HasReadRoom self.old }
        ensures reads { ReadsFromInput SpellsWidth result R.seen self.old self.new }
        ensures within { ReadsWithinRoom self.old self.new }
    {
        let bits = self.number(64)?;
        Ok(HashBits::of_width(bits as u32))
    }

    /// Reads and returns the reason for the deletion of a clause.
    pub(super) fn deletion(&mut self) -> Result<DeleteClauseProof, StepError>
        requires { HasReadRoom self.old }
        ensures reads { ReadsFromInput SpellsDeletion (map_result deletion_of result) R.seen self.old self.new }
        ensures within { ReadsWithinRoom self.old self.new }
    {
        let code = self.number(2)?;
        if code == 0 {
            return Ok(DeleteClauseProof::Redundant);
        }
        if code == 1 {
            return Ok(DeleteClauseProof::Simplified);
        }
        Ok(DeleteClauseProof::Satisfied)
    }
}

impl<W: CountedWrite, P: Room> Output<W, P> {
    /// Writes a variable to the buffer.
    pub(super) fn put_variable(&mut self, var: Var) -> Result<(), WriteFailed>
        ensures { SendsSpelling a_variable var result W.seen P.waiting self.old self.new }
    {
        self.put_number(var.index() as u64)
    }

    /// Writes an optional variable to the buffer.
    pub(super) fn put_optional(&mut self, var: Option<Var>) -> Result<(), WriteFailed>
        ensures { SendsSpelling an_optional_variable var result W.seen P.waiting self.old self.new }
    {
        match var {
            None => self.put_number(0),
            Some(var) => self.put_number(var.index() as u64 + 1),
        }
    }

    /// Writes a flag to the buffer.
    pub(super) fn put_flag(&mut self, flag: bool) -> Result<(), WriteFailed>
        ensures { SendsSpelling a_flag flag result W.seen P.waiting self.old self.new }
    {
        if flag {
            self.put_number(1)
        } else {
            self.put_number(0)
        }
    }

    /// Writes a width, which is a number of hash bits, to the buffer.
    pub(super) fn put_width(&mut self, bits: HashBits) -> Result<(), WriteFailed>
        ensures { SendsSpelling a_width bits result W.seen P.waiting self.old self.new }
    {
        self.put_number(bits.get() as u64)
    }

    /// Writes the reason for the deletion of a clause to the buffer.
    pub(super) fn put_deletion(&mut self, proof: DeleteClauseProof) -> Result<(), WriteFailed>
        ensures { SendsSpelling a_deletion (deletion_of proof) result W.seen P.waiting self.old self.new }
    {
        match proof {
            DeleteClauseProof::Redundant => self.put_number(0),
            DeleteClauseProof::Simplified => self.put_number(1),
            DeleteClauseProof::Satisfied => self.put_number(2),
        }
    }
}
