//! Reads and writes numbers in LEB128.
ghost use Rattle.std.specs.Prelude.{◌≡◌, ◌+◌, ◌++◌, ◌-◌, ◌*◌, ◌^◌, ◌<◌, ◌≤◌, ℕ, Some, None, OnOk, length};
ghost use Rattle.sat_base.specs.device.ReadRoom.{unread, HasReadRoom, ReadsWithinRoom};
ghost use Rattle.sat_base.specs.device.Reading.{ReadsFromInput};
ghost use Rattle.sat_base.specs.device.ConsumedAhead.{ConsumesNumber, IsEncodedBetween};
ghost use Rattle.sat_base.specs.device.Sink.{SendsText, sink_of};
ghost use Rattle.sat_base.specs.steps.StepBytes.{number_bytes};
ghost use Rattle.sat_base.specs.steps.Numbers.{SpellsNumberBelow};

use crate::device::ahead::Ahead;
use crate::device::input::Input;
use crate::device::kept_error::WriteFailed;
use crate::device::output::Output;
use crate::device::room::Room;
use crate::{ClauseHash, CountedRead, CountedWrite, StepError};
use std::alloc::AllocError;

/// The largest number of bytes in the encoding of a number.
pub(super) const LONGEST: usize = 10;

/// The place value of the ninth group of a number.
const LARGEST_PLACE: u64 = 1 << 56;

/// Returns the number that the byte `first` encodes, or that `first` and `second` encode if `first` says that the
/// number continues.
#[inline(always)]
fn one_or_two(first: u64, second: u64) -> u64
    requires first { first < 256 }
    requires second { second < 256 }
    ensures one { first < 128 → result ≡ first }
    ensures two { 128 ≤ first → result ≡ first - 128 + 128 * second }
{
    let long = first / 128;
    first + 128 * long * second - 128 * long
}

impl Ahead {
    /// Returns the number that is encoded at `from` in at most four bytes, and the position after the number. The
    /// position is `from` if there is no such number.
    #[inline(always)] // each literal and each hash goes through it
    fn short_number_at(&self, from: usize) -> (u64, usize)
        requires { from + 4 ≤ self.now.end }
        ensures { (from < result.1 → IsEncodedBetween (2 ^ 28) result.0 from result.1 self.now) }
    {
        let first = self.byte_at(from) as u64;
        if first < 128 {
            return (first, from + 1);
        }
        let second = self.byte_at(from + 1) as u64;
        if second < 128 {
            if second == 0 {
                return (0, from);
            }
            return (first - 128 + 128 * second, from + 2);
        }
        let third = self.byte_at(from + 2) as u64;
        if third < 128 {
            if third == 0 {
                return (0, from);
            }
            return (first - 128 + 128 * (second - 128) + 16384 * third, from + 3);
        }
        let fourth = self.byte_at(from + 3) as u64;
        if fourth < 128 && fourth > 0 {
            return (
                first - 128 + 128 * (second - 128) + 16384 * (third - 128) + 2097152 * fourth,
                from + 4,
            );
        }
        (0, from)
    }

    /// Returns the number that is encoded at `from` in at most eight bytes, and the position after the number, if the
    /// number is complete in the buffered bytes and at most `largest`.
    #[inline(never)] // keeps the path of short numbers small
    fn long_number_at(&self, from: usize, largest: u64) -> Option<(u64, usize)>
        ensures { (number following : ℕ) → result ≡ Some (number, following)
            → IsEncodedBetween (largest + 1) number from following self.now }
    {
        let mut at = from;
        let mut value = 0;
        let mut place = 1;
        while at < self.end && place < LARGEST_PLACE {
            let byte = self.byte_at(at) as u64;
            at += 1;
            if byte < 128 {
                let number = value + place * byte;
                if number > largest || byte == 0 && place > 1 {
                    return None;
                }
                return Some((number, at));
            }
            value += place * (byte - 128);
            place *= 128;
        }
        None
    }

    /// Returns the number at `from` and the position after it, if the number is complete in the buffered bytes, has at
    /// most eight bytes and is at most `largest`.
    #[inline(always)] // each literal and each hash goes through it
    pub(super) fn number_at(&self, from: usize, largest: u64) -> Option<(u64, usize)>
        ensures { (number following : ℕ) → result ≡ Some (number, following)
            → IsEncodedBetween (largest + 1) number from following self.now }
    {
        if self.end >= 4 && from <= self.end - 4 {
            let (number, following) = self.short_number_at(from);
            if following > from && number <= largest {
                return Some((number, following));
            }
        }
        self.long_number_at(from, largest)
    }

    /// Does what `number_at` does. Numbers of one byte and of two bytes share a branch, since their order
    /// is unpredictable.
    #[inline(always)] // each literal goes through it
    pub(super) fn code_at(&self, from: usize, largest: u64) -> Option<(u64, usize)>
        ensures { (number following : ℕ) → result ≡ Some (number, following)
            → IsEncodedBetween (largest + 1) number from following self.now }
    {
        if self.end >= 2 && from <= self.end - 2 {
            let first = self.byte_at(from) as u64;
            let second = self.byte_at(from + 1) as u64;
            let other = (second == 0) | (second >= 128);
            if !((first >= 128) & other) {
                let number = one_or_two(first, second);
                if number > largest {
                    return None;
                }
                return Some((number, from + 1 + (first / 128) as usize));
            }
        }
        self.number_at(from, largest)
    }

    /// Consumes the next number and returns it, if it is complete in the buffered bytes, has at most eight bytes and is
    /// at most `largest`.
    #[inline(always)] // each number outside a list goes through it
    pub(crate) fn take_number(&mut self, largest: u64) -> Option<u64>
        ensures some { (number : ℕ) → result ≡ Some number → ConsumesNumber (largest + 1) number self.old self.new }
        ensures left { (number : ℕ) → result ≡ Some number → unread self.new < unread self.old }
        ensures none { result ≡ None → self.new ≡ self.old }
    {
        match self.number_at(self.at, largest) {
            Some((number, following)) => {
                self.at = following;
                Some(number)
            }
            None => None,
        }
    }
}

impl<R: CountedRead> Input<'_, R> {
    /// Reads and returns a number. A number above `largest` is an error.
    #[inline(always)] // each literal and each hash goes through it
    pub(super) fn number(&mut self, largest: u64) -> Result<u64, StepError>
        requires some { 0 < largest }
        requires room { HasReadRoom self.old }
        ensures reads { ReadsFromInput (SpellsNumberBelow (largest + 1)) result R.seen self.old self.new }
        ensures within { ReadsWithinRoom self.old self.new }
    {
        if let Some(number) = self.ahead.take_number(largest) {
            return Ok(number);
        }
        self.number_by_bytes(largest)
    }

    /// Reads a number byte by byte, and returns it. The number may be cut off by the end of a chunk or of the text, or
    /// be invalid.
    #[inline(never)] // so that numbers that are buffered completely pay nothing for it
    fn number_by_bytes(&mut self, largest: u64) -> Result<u64, StepError>
        requires some { 0 < largest }
        requires room { HasReadRoom self.old }
        ensures reads { ReadsFromInput (SpellsNumberBelow (largest + 1)) result R.seen self.old self.new }
        ensures within { ReadsWithinRoom self.old self.new }
    {
        let mut value = 0;
        let mut place = 1;
        // The largest group that may come next if the number is not to exceed `largest`.
        let mut room = largest;
        loop {
            let byte = self.byte_within()?;
            if byte == 0 {
                return if place == 1 {
                    Ok(0)
                } else {
                    Err(StepError::BadByte)
                };
            }
            if byte as u64 > room {
                return Err(StepError::BadByte);
            }
            if byte < 128 {
                return Ok(value + place * byte as u64);
            }
            let group = (byte - 128) as u64;
            value += place * group;
            place *= 128;
            room = (room - group) / 128;
        }
    }
}

/// Appends the bytes of a number to `pending`, which must have room for ten bytes.
#[inline(always)] // each field and each large literal or hash goes through it
pub(super) fn push_number<P: Room>(pending: &mut P, number: u64)
    requires room { length (P.waiting pending.old) + 10 ≤ P.size pending.old }
    ensures waiting { P.waiting pending.new ≡ P.waiting pending.old ++ number_bytes number }
    ensures short { length (P.waiting pending.new) ≤ length (P.waiting pending.old) + 10 }
    ensures size { P.size pending.new ≡ P.size pending.old }
{
    let mut rest = number;
    while rest >= 128 {
        pending.push((rest % 128) as u8 + 128);
        rest /= 128;
    }
    pending.push(rest as u8);
}

/// Appends the bytes of a number below 2^14 to `pending`, which must have room for four bytes. There is no branch on
/// whether there are one or two, which is unpredictable.
#[inline(always)] // each literal goes through it
fn push_one_or_two<P: Room>(pending: &mut P, number: u32)
    requires small { number < 16384 }
    requires room { length (P.waiting pending.old) + 4 ≤ P.size pending.old }
    ensures waiting { P.waiting pending.new ≡ P.waiting pending.old ++ number_bytes number }
    ensures size { P.size pending.new ≡ P.size pending.old }
{
    let second = number / 128;
    let more = u32::from(second > 0);
    let bytes = [(number % 128 + 128 * more) as u8, second as u8, 0, 0];
    pending.push_some(bytes, (1 + more) as usize);
}

/// Appends the bytes of a number from 2^14 to 2^28 - 1 to `pending`, which must have room for four bytes. There is no
/// branch on whether there are three or four, which is unpredictable.
#[inline(always)] // each hash goes through it
fn push_three_or_four<P: Room>(pending: &mut P, number: u32)
    requires large { 16384 ≤ number }
    requires small { number < 268435456 }
    requires room { length (P.waiting pending.old) + 4 ≤ P.size pending.old }
    ensures waiting { P.waiting pending.new ≡ P.waiting pending.old ++ number_bytes number }
    ensures size { P.size pending.new ≡ P.size pending.old }
{
    let fourth = number / 2097152;
    let more = u32::from(fourth > 0);
    let bytes = [
        (number % 128 + 128) as u8,
        (number / 128 % 128 + 128) as u8,
        (number / 16384 % 128 + 128 * more) as u8,
        fourth as u8,
    ];
    pending.push_some(bytes, (3 + more) as usize);
}

/// Appends the bytes of a literal's code to `pending`, which must have room for ten bytes. Does what `push_number`
/// does, but is faster for numbers below 2^14.
#[inline(always)] // each literal goes through it
pub(super) fn push_code<P: Room>(pending: &mut P, number: u64)
    requires room { length (P.waiting pending.old) + 10 ≤ P.size pending.old }
    ensures waiting { P.waiting pending.new ≡ P.waiting pending.old ++ number_bytes number }
    ensures short { length (P.waiting pending.new) ≤ length (P.waiting pending.old) + 10 }
    ensures size { P.size pending.new ≡ P.size pending.old }
{
    if number < 16384 {
        push_one_or_two(pending, number as u32);
        return;
    }
    push_number(pending, number);
}

/// Appends the bytes of a hash to `pending`, which must have room for ten bytes. Does what `push_number` does, but is
/// faster for numbers below 2^28.
#[inline(always)] // each hash goes through it
pub(super) fn push_hash<P: Room>(pending: &mut P, number: u64)
    requires room { length (P.waiting pending.old) + 10 ≤ P.size pending.old }
    ensures waiting { P.waiting pending.new ≡ P.waiting pending.old ++ number_bytes number }
    ensures short { length (P.waiting pending.new) ≤ length (P.waiting pending.old) + 10 }
    ensures size { P.size pending.new ≡ P.size pending.old }
{
    if number < 16384 {
        push_one_or_two(pending, number as u32);
        return;
    }
    if number < 268435456 {
        push_three_or_four(pending, number as u32);
        return;
    }
    push_number(pending, number);
}

/// Appends a number in unsigned LEB128: in groups of seven bits, the lowest group first, each in its own byte. The top
/// bit is set in every byte but the last.
pub fn push_leb128(out: &mut Vec<u8>, number: u64) -> Result<(), AllocError>
    ensures { OnOk result (out.new.items ≡ out.old.items ++ number_bytes number) }
{
    let mut rest = number;
    while rest >= 128 {
        out.push((rest % 128) as u8 + 128)?;
        rest /= 128;
    }
    out.push(rest as u8)?;
    Ok(())
}

impl<W: CountedWrite, P: Room> Output<W, P> {
    /// Writes the bytes of a number to the buffer. If there is room for the longest number, the room isn't checked
    /// again for every byte.
    #[inline(always)] // each literal goes through it
    pub(super) fn put_number(&mut self, number: u64) -> Result<(), WriteFailed>
        ensures { SendsText (number_bytes number) result (sink_of W.seen P.waiting self.old)
            (sink_of W.seen P.waiting self.new) }
    {
        if self.pending.free() < LONGEST {
            return self.put_by_bytes(number);
        }
        push_number(&mut self.pending, number);
        Ok(())
    }

    /// Writes the bytes of a hash to the buffer. Does what `put_number` does, but is faster for numbers below 2^28.
    #[inline(always)] // each hash goes through it
    pub(super) fn put_hash(&mut self, hash: ClauseHash) -> Result<(), WriteFailed>
        ensures { SendsText (number_bytes hash) result (sink_of W.seen P.waiting self.old)
            (sink_of W.seen P.waiting self.new) }
    {
        if self.pending.free() < LONGEST {
            return self.put_by_bytes(hash);
        }
        push_hash(&mut self.pending, hash);
        Ok(())
    }

    /// Writes a number to the buffer byte by byte. Before any byte, the pending bytes may have to be written out.
    #[inline(never)] // so that numbers for which there is room pay nothing for it
    fn put_by_bytes(&mut self, number: u64) -> Result<(), WriteFailed>
        ensures { SendsText (number_bytes number) result (sink_of W.seen P.waiting self.old)
            (sink_of W.seen P.waiting self.new) }
    {
        let mut rest = number;
        while rest >= 128 {
            self.put((rest % 128) as u8 + 128)?;
            rest /= 128;
        }
        self.put(rest as u8)
    }
}
