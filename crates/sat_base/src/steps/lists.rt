//! Reads and writes lists of literals, of hashes and of units.
#![tactic(auto, using(crate::proofs::lemmas::device::Sending::sending))]

ghost use Rattle.std.specs.Prelude.{[], ◌≡◌, ◌+◌, ◌<◌, ◌≤◌, vec_len, vec_capacity};
ghost use Rattle.sat_base.specs.device.ReadRoom.{unread, unread_in, HasReadRoom, ReadsWithinRoom, HasItemRoom};
ghost use Rattle.sat_base.specs.device.ReadRoom.{ReservesItem};
ghost use Rattle.sat_base.specs.device.Reading.{ReadsFromInput, with_result_value};
ghost use Rattle.sat_base.specs.device.ConsumedAhead.{ConsumesItems};
ghost use Rattle.sat_base.specs.steps.Kinds.{literals_and_hashes};
ghost use Rattle.sat_base.specs.steps.Formats.{Both, Times};
ghost use Rattle.sat_base.specs.steps.StepText.{SpellsLiteral, SpellsHash, SpellsLiterals, SpellsHashes};
ghost use Rattle.sat_base.specs.steps.StepText.{SpellsHashedLiterals};
ghost use Rattle.sat_base.specs.steps.Spellings as spelling;

use crate::device::ahead::{Ahead, PIECE};
use crate::device::input::Input;
use crate::device::kept_error::WriteFailed;
use crate::device::output::Output;
use crate::device::room::Room;
use crate::steps::numbers::LONGEST;
use crate::steps::step_lists::Lists;
use crate::var::MAX_COUNT;
use crate::{ClauseHash, CountedRead, CountedWrite, Lit, StepError};

/// The largest code of a literal.
const LARGEST_CODE: u64 = 2 * MAX_COUNT as u64 - 1;

/// The largest number of bytes of an item.
const LONGEST_ITEM: usize = 2 * LONGEST;

/// Returns how many bytes may be read at once if the next item of `list` is not complete in the `unread` bytes, at most
/// `room`. As many items as bytes can be stored without allocating. Requests memory for a chunk if the item may be
/// incomplete.
fn room_for<T>(list: &mut Vec<T>, unread: usize, room: usize) -> usize
    requires { vec_len list.old + unread ≤ vec_capacity list.old }
    ensures items { list.new.items ≡ list.old.items }
    ensures len { vec_len list.new ≡ vec_len list.old }
    ensures capacity { vec_capacity list.old ≤ vec_capacity list.new }
    ensures room { vec_len list.new + result ≤ vec_capacity list.new }
    ensures most { result ≤ room }
    ensures least { unread ≤ room → unread ≤ result }
{
    if unread < LONGEST_ITEM {
        let _ = list.reserve(PIECE);
    }
    room.min(list.capacity() - list.len())
}

impl Ahead {
    /// Appends at most `most` literals that are complete in the buffered bytes to `lits`, which must have capacity for
    /// as many literals as there are bytes. Returns how many were appended.
    fn take_literals(&mut self, most: u64, lits: &mut Vec<Lit>) -> u64
        requires { vec_len lits.old + unread self.old ≤ vec_capacity lits.old }
        ensures takes { ConsumesItems SpellsLiteral most result lits.old.items lits.new.items self.old self.new }
        ensures room { vec_len lits.new + unread self.new ≤ vec_capacity lits.new }
        ensures capacity { vec_capacity lits.new ≡ vec_capacity lits.old }
        ensures left { unread self.new ≤ unread self.old }
    {
        let mut at = self.at;
        let mut taken = 0;
        while taken < most {
            match self.code_at(at, LARGEST_CODE) {
                Some((code, following)) => {
                    lits.push_reserved(Lit::from_code(code as usize));
                    at = following;
                    taken += 1;
                }
                None => break,
            }
        }
        self.at = at;
        taken
    }

    /// Appends at most `most` hashes that are complete in the buffered bytes to `hashes`, which must have capacity for
    /// as many hashes as there are bytes. Returns how many were appended.
    fn take_hashes(&mut self, most: u64, hashes: &mut Vec<ClauseHash>) -> u64
        requires { vec_len hashes.old + unread self.old ≤ vec_capacity hashes.old }
        ensures takes { ConsumesItems SpellsHash most result hashes.old.items hashes.new.items self.old self.new }
        ensures room { vec_len hashes.new + unread self.new ≤ vec_capacity hashes.new }
        ensures capacity { vec_capacity hashes.new ≡ vec_capacity hashes.old }
        ensures left { unread self.new ≤ unread self.old }
    {
        let mut at = self.at;
        let mut taken = 0;
        while taken < most {
            match self.number_at(at, u64::MAX) {
                Some((hash, following)) => {
                    hashes.push_reserved(hash);
                    at = following;
                    taken += 1;
                }
                None => break,
            }
        }
        self.at = at;
        taken
    }
}

impl<R: CountedRead> Input<'_, R> {
    /// Reads and returns a literal.
    #[inline(always)] // called for each literal of a list
    fn literal(&mut self) -> Result<Lit, StepError>
        requires { HasReadRoom self.old }
        ensures reads { ReadsFromInput SpellsLiteral result R.seen self.old self.new }
        ensures within { ReadsWithinRoom self.old self.new }
    {
        let code = self.number(LARGEST_CODE)?;
        Ok(Lit::from_code(code as usize))
    }

    /// Reads and returns a literal and its hash.
    fn unit(&mut self) -> Result<(Lit, ClauseHash), StepError>
        requires { HasReadRoom self.old }
        ensures reads { ReadsFromInput (Both SpellsLiteral SpellsHash) result R.seen self.old self.new }
        ensures within { ReadsWithinRoom self.old self.new }
    {
        let lit = self.literal()?;
        let hash = self.number(u64::MAX)?;
        Ok((lit, hash))
    }

    /// Reads and returns the next literal of `lits`, which must have capacity for as many literals as there are
    /// buffered bytes. It then has capacity for the literal too.
    fn literal_for(&mut self, lits: &mut Vec<Lit>) -> Result<Lit, StepError>
        requires room { HasReadRoom self.old }
        requires list { vec_len lits.old + unread_in self.old ≤ vec_capacity lits.old }
        ensures reads { ReadsFromInput SpellsLiteral result R.seen self.old self.new }
        ensures within { ReadsWithinRoom self.old self.new }
        ensures items { ReservesItem result lits.old lits.new (unread_in self.new) }
    {
        let room = self.room;
        let most = room_for(lits, self.ahead.unread(), room);
        if most == 0 {
            return Err(StepError::OutOfMemory);
        }
        self.room = most;
        let lit = self.literal();
        self.room = room;
        lit
    }

    /// Reads and returns the next hash of `hashes`, which must have capacity for as many hashes as there are buffered
    /// bytes. It then has capacity for the hash too.
    fn hash_for(&mut self, hashes: &mut Vec<ClauseHash>) -> Result<ClauseHash, StepError>
        requires room { HasReadRoom self.old }
        requires list { vec_len hashes.old + unread_in self.old ≤ vec_capacity hashes.old }
        ensures reads { ReadsFromInput SpellsHash result R.seen self.old self.new }
        ensures within { ReadsWithinRoom self.old self.new }
        ensures items { ReservesItem result hashes.old hashes.new (unread_in self.new) }
    {
        let room = self.room;
        let most = room_for(hashes, self.ahead.unread(), room);
        if most == 0 {
            return Err(StepError::OutOfMemory);
        }
        self.room = most;
        let hash = self.number(u64::MAX);
        self.room = room;
        hash
    }

    /// Reads and returns the next unit of `units`, which must have capacity for as many units as there are buffered
    /// bytes. It then has capacity for the unit too.
    fn unit_for(
        &mut self,
        units: &mut Vec<(Lit, ClauseHash)>,
    ) -> Result<(Lit, ClauseHash), StepError>
        requires room { HasReadRoom self.old }
        requires list { vec_len units.old + unread_in self.old ≤ vec_capacity units.old }
        ensures reads { ReadsFromInput (Both SpellsLiteral SpellsHash) result R.seen self.old self.new }
        ensures within { ReadsWithinRoom self.old self.new }
        ensures items { ReservesItem result units.old units.new (unread_in self.new) }
    {
        let room = self.room;
        let most = room_for(units, self.ahead.unread(), room);
        if most == 0 {
            return Err(StepError::OutOfMemory);
        }
        self.room = most;
        let unit = self.unit();
        self.room = room;
        unit
    }

    /// Reads `count` literals into `lits`, which must be empty.
    fn literal_items(&mut self, count: u64, lits: &mut Vec<Lit>) -> Result<(), StepError>
        requires empty { lits.old.items ≡ [] }
        requires list { vec_len lits.old + unread_in self.old ≤ vec_capacity lits.old }
        requires room { unread_in self.old < self.old.room }
        ensures reads { ReadsFromInput (Times SpellsLiteral count) (with_result_value lits.new.items result) R.seen self.old self.new }
        ensures within { ReadsWithinRoom self.old self.new }
        ensures capacity { vec_capacity lits.old ≤ vec_capacity lits.new }
    {
        let mut left = count;
        while left > 0 {
            let taken = self.ahead.take_literals(left, lits);
            left -= taken;
            if taken > 0 {
                continue;
            }
            let lit = self.literal_for(lits)?;
            lits.push_reserved(lit);
            left -= 1;
        }
        Ok(())
    }

    /// Reads `count` hashes into `hashes`, which must be empty.
    fn hash_items(&mut self, count: u64, hashes: &mut Vec<ClauseHash>) -> Result<(), StepError>
        requires empty { hashes.old.items ≡ [] }
        requires list { vec_len hashes.old + unread_in self.old ≤ vec_capacity hashes.old }
        requires room { unread_in self.old < self.old.room }
        ensures reads { ReadsFromInput (Times SpellsHash count) (with_result_value hashes.new.items result) R.seen self.old self.new }
        ensures within { ReadsWithinRoom self.old self.new }
        ensures capacity { vec_capacity hashes.old ≤ vec_capacity hashes.new }
    {
        let mut left = count;
        while left > 0 {
            let taken = self.ahead.take_hashes(left, hashes);
            left -= taken;
            if taken > 0 {
                continue;
            }
            let hash = self.hash_for(hashes)?;
            hashes.push_reserved(hash);
            left -= 1;
        }
        Ok(())
    }

    /// Reads `count` units into `units`, which must be empty.
    fn unit_items(
        &mut self,
        count: u64,
        units: &mut Vec<(Lit, ClauseHash)>,
    ) -> Result<(), StepError>
        requires empty { units.old.items ≡ [] }
        requires list { vec_len units.old + unread_in self.old ≤ vec_capacity units.old }
        requires room { unread_in self.old < self.old.room }
        ensures reads { ReadsFromInput (Times (Both SpellsLiteral SpellsHash) count) (with_result_value units.new.items result) R.seen
            self.old self.new }
        ensures within { ReadsWithinRoom self.old self.new }
        ensures capacity { vec_capacity units.old ≤ vec_capacity units.new }
    {
        for _ in 0..count {
            let unit = self.unit_for(units)?;
            units.push_reserved(unit);
        }
        Ok(())
    }

    /// Reads a list of literals, and replaces the contents of `lits` with it.
    pub(super) fn literals(&mut self, lits: &mut Vec<Lit>) -> Result<(), StepError>
        requires room { HasReadRoom self.old }
        requires list { self.old.room ≤ vec_capacity lits.old + 1 }
        ensures reads { ReadsFromInput SpellsLiterals (with_result_value lits.new.items result) R.seen self.old self.new }
        ensures within { ReadsWithinRoom self.old self.new }
        ensures capacity { vec_capacity lits.old ≤ vec_capacity lits.new }
    {
        lits.clear();
        let count = self.number(u64::MAX)?;
        self.literal_items(count, lits)
    }

    /// Reads a list of hashes, and replaces the contents of `hashes` with it.
    pub(super) fn hashes(&mut self, hashes: &mut Vec<ClauseHash>) -> Result<(), StepError>
        requires room { HasReadRoom self.old }
        requires list { self.old.room ≤ vec_capacity hashes.old + 1 }
        ensures reads { ReadsFromInput SpellsHashes (with_result_value hashes.new.items result) R.seen self.old self.new }
        ensures within { ReadsWithinRoom self.old self.new }
        ensures capacity { vec_capacity hashes.old ≤ vec_capacity hashes.new }
    {
        hashes.clear();
        let count = self.number(u64::MAX)?;
        self.hash_items(count, hashes)
    }

    /// Reads a list of units, and replaces the contents of `units` with it.
    pub(super) fn units(&mut self, units: &mut Vec<(Lit, ClauseHash)>) -> Result<(), StepError>
        requires room { HasReadRoom self.old }
        requires list { self.old.room ≤ vec_capacity units.old + 1 }
        ensures reads { ReadsFromInput SpellsHashedLiterals (with_result_value units.new.items result) R.seen self.old self.new }
        ensures within { ReadsWithinRoom self.old self.new }
        ensures capacity { vec_capacity units.old ≤ vec_capacity units.new }
    {
        units.clear();
        let count = self.number(u64::MAX)?;
        self.unit_items(count, units)
    }

    /// Reads a list of literals, and then a list of hashes.
    pub(super) fn both_lists(&mut self, lists: &mut Lists) -> Result<(), StepError>
        requires room { HasReadRoom self.old }
        requires lists { HasItemRoom lists.old self.old.room }
        ensures reads { ReadsFromInput (Both SpellsLiterals SpellsHashes) (with_result_value (literals_and_hashes lists.new) result) R.seen
            self.old self.new }
        ensures within { ReadsWithinRoom self.old self.new }
        ensures lists { HasItemRoom lists.new self.old.room }
    {
        self.literals(&mut lists.literals)?;
        self.hashes(&mut lists.hashes)
    }
}

impl<W: CountedWrite, P: Room> Output<W, P> {
    /// Writes a list of literals to the buffer.
    pub(super) fn put_literals(&mut self, lits: &[Lit]) -> Result<(), WriteFailed>
        ensures { spelling.SendsSpelling spelling.literals lits.now result W.seen P.waiting self.old self.new }
    {
        self.put_number(lits.len() as u64)?;
        for lit in lits {
            self.put_number(lit.code() as u64)?;
        }
        Ok(())
    }

    /// Writes a list of hashes to the buffer.
    pub(super) fn put_hashes(&mut self, hashes: &[ClauseHash]) -> Result<(), WriteFailed>
        ensures { spelling.SendsSpelling spelling.hashes hashes.now result W.seen P.waiting self.old self.new }
    {
        self.put_number(hashes.len() as u64)?;
        for hash in hashes {
            self.put_hash(*hash)?;
        }
        Ok(())
    }

    /// Writes a literal and its hash to the buffer.
    fn put_unit(&mut self, unit: (Lit, ClauseHash)) -> Result<(), WriteFailed>
        ensures { spelling.SendsSpelling (spelling.both spelling.a_literal spelling.a_hash) unit result W.seen P.waiting
            self.old self.new }
    {
        let (lit, hash) = unit;
        self.put_number(lit.code() as u64)?;
        self.put_hash(hash)
    }

    /// Writes a list of units to the buffer.
    pub(super) fn put_units(&mut self, units: &[(Lit, ClauseHash)]) -> Result<(), WriteFailed>
        ensures { spelling.SendsSpelling spelling.units units.now result W.seen P.waiting self.old self.new }
    {
        self.put_number(units.len() as u64)?;
        for unit in units {
            self.put_unit(*unit)?;
        }
        Ok(())
    }

    /// Writes a list of literals, and then a list of hashes, to the buffer.
    pub(super) fn put_both_lists(
        &mut self,
        lits: &[Lit],
        hashes: &[ClauseHash],
    ) -> Result<(), WriteFailed>
        ensures { spelling.SendsSpelling spelling.both_lists (lits.now, hashes.now) result W.seen P.waiting self.old
            self.new }
    {
        self.put_literals(lits)?;
        self.put_hashes(hashes)
    }
}
