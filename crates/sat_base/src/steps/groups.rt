//! Reads and writes the fields of those steps that have more than one.
#![tactic(auto, using(crate::proofs::lemmas::device::Sending::sending))]

ghost use Rattle.sat_base.specs.device.ReadRoom.{HasReadRoom, ReadsWithinRoom, HasItemRoom};
ghost use Rattle.sat_base.specs.device.Reading.{ReadsFromInput, map_result};
ghost use Rattle.sat_base.specs.steps.Kinds.{literals_and_hashes};
ghost use Rattle.sat_base.specs.steps.Formats.{Both};
ghost use Rattle.sat_base.specs.steps.StepText.{SpellsFlag, SpellsDeletion, SpellsLiterals, SpellsHashes};
ghost use Rattle.sat_base.specs.steps.Spellings as spelling;
ghost use Rattle.sat_base.specs.steps.StepViews.{deletion_of};

use crate::device::input::Input;
use crate::device::kept_error::WriteFailed;
use crate::device::output::Output;
use crate::device::room::Room;
use crate::steps::step_lists::Lists;
use crate::{ClauseHash, CountedRead, CountedWrite, DeleteClauseProof, Lit, StepError, Var};

impl<R: CountedRead> Input<'_, R> {
    /// Reads a flag, and then a list of literals and a list of hashes. Returns the flag.
    pub(super) fn flag_and_lists(&mut self, lists: &mut Lists) -> Result<bool, StepError>
        requires room { HasReadRoom self.old }
        requires lists { HasItemRoom lists.old self.old.room }
        ensures reads { ReadsFromInput (Both SpellsFlag (Both SpellsLiterals SpellsHashes))
            (map_result (λ f. (f, literals_and_hashes lists.new)) result) R.seen self.old self.new }
        ensures within { ReadsWithinRoom self.old self.new }
        ensures lists { HasItemRoom lists.new self.old.room }
    {
        let flag = self.flag()?;
        self.both_lists(lists)?;
        Ok(flag)
    }

    /// Reads a clause, and then the reason for its deletion. Returns the reason.
    pub(super) fn clause_and_deletion(
        &mut self,
        lists: &mut Lists,
    ) -> Result<DeleteClauseProof, StepError>
        requires room { HasReadRoom self.old }
        requires lists { HasItemRoom lists.old self.old.room }
        ensures reads { ReadsFromInput (Both SpellsLiterals SpellsDeletion)
            (map_result (λ p. (lists.new.literals.items, deletion_of p)) result) R.seen self.old self.new }
        ensures within { ReadsWithinRoom self.old self.new }
        ensures lists { HasItemRoom lists.new self.old.room }
    {
        self.literals(&mut lists.literals)?;
        self.deletion()
    }
}

impl<W: CountedWrite, P: Room> Output<W, P> {
    /// Writes a variable and an optional variable to the buffer.
    pub(super) fn put_variables(
        &mut self,
        first: Var,
        second: Option<Var>,
    ) -> Result<(), WriteFailed>
        ensures { spelling.SendsSpelling spelling.variables (first, second) result W.seen P.waiting self.old self.new }
    {
        self.put_variable(first)?;
        self.put_optional(second)
    }

    /// Writes a variable and its mode to the buffer.
    pub(super) fn put_mode(&mut self, var: Var, sample: bool) -> Result<(), WriteFailed>
        ensures { spelling.SendsSpelling spelling.a_mode (var, sample) result W.seen P.waiting self.old self.new }
    {
        self.put_variable(var)?;
        self.put_flag(sample)
    }

    /// Writes the fields of a derived clause to the buffer.
    pub(super) fn put_derived(
        &mut self,
        redundant: bool,
        clause: &[Lit],
        hashes: &[ClauseHash],
    ) -> Result<(), WriteFailed>
        ensures { spelling.SendsSpelling spelling.a_derived (redundant, (clause.now, hashes.now)) result W.seen
            P.waiting self.old self.new }
    {
        self.put_flag(redundant)?;
        self.put_both_lists(clause, hashes)
    }

    /// Writes a clause, and then the reason for its deletion, to the buffer.
    pub(super) fn put_deleted(
        &mut self,
        clause: &[Lit],
        proof: DeleteClauseProof,
    ) -> Result<(), WriteFailed>
        ensures { spelling.SendsSpelling spelling.a_deleted (clause.now, deletion_of proof) result W.seen P.waiting
            self.old self.new }
    {
        self.put_literals(clause)?;
        self.put_deletion(proof)
    }
}
