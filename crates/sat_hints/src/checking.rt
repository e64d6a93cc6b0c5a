//! Checking a hint text, line by line.
ghost use Rattle.std.specs.Prelude.{◌≡◌, ◌<◌, ◌≤◌, ◌+◌, ◌⊎◌, List, ℕ, [], length, take, IfErr, IfOk, IsErrOf, OnErr};
ghost use Rattle.std.specs.Prelude.{MatchOption, OnOk, vec_len};
ghost use Rattle.sat_base.specs.device.Device.{GaveEnough, ReadFails, max_reads, max_read_size};
ghost use Rattle.sat_hints.specs.Lines.{Line, HasNoLf};
ghost use Rattle.sat_hints.specs.Checks.{VerdictHolds};
ghost use Rattle.sat_hints.specs.Faults.{GaveTextBeforeFault};
ghost use Rattle.sat_hints.specs.inner.LineChecking.{HasAcceptedLines, IsReadyChecker};
ghost use Rattle.sat_hints.specs.inner.LineReading.{BeginsWithNoLine};
ghost use Rattle.sat_hints.specs.inner.LineRoom.{HasListRoom, KeepsListRoom};
ghost use Rattle.sat_hints.specs.inner.Holding.{HasReadText, IsReadyIf, IsWholeLine, ReadsFurther, VerdictIsCorrect};
ghost use Rattle.sat_hints.specs.inner.Holding.{AcceptsLineBytes, ChecksLineBytes, ChecksNextChunk, HasRoomFor};
ghost use Rattle.sat_hints.specs.inner.Holding.{HasRoomIf};
ghost use Rattle.sat_hints.specs.inner.Holding.{CanRunOutOfMemoryAtEnd};
ghost use Rattle.sat_hints.specs.inner.Holding.{CanRunOutOfMemory, ReadsChunk};

use crate::answer::{HintFault, HintVerdict, HintWhy};
use crate::line_checking::LineChecker;
use crate::prefixes::{Place, following};
use crate::reading::Lists;
use sat_base::CountedRead;
use std::alloc::{AllocError, Global};

/// The number of bytes that are requested in each read.
const PIECE: usize = 4096;

/// The largest number of reads.
const MAX_READS: u64 = 1 << 48;

/// The current line, and the state after the lines before it.
#[derive(Drop)]
struct Checking {
    /// The bytes of a line whose LF has not been read yet. There is capacity for the next chunk, too.
    held: Vec<u8>,
    /// The place in the line after the bytes in `held`.
    place: Place,
    lists: Lists,
    checker: LineChecker,
}

/// Returns the length of the first line, including its LF, or `None` if there is no LF among the bytes.
#[inline(always)]
fn line_end(bytes: &[u8]) -> Option<usize>
    ensures { MatchOption result (HasNoLf bytes.now)
        (λ end. (0 < end) × (end ≤ length bytes.now) × IsWholeLine (take end bytes.now)) }
{
    for (place, byte) in bytes.iter().enumerate() {
        if *byte == b'\n' {
            return Some(place + 1);
        }
    }
    None
}

/// Reads and checks a line, given as bytes, for whose lists there must be room. Returns why the line is at fault, or
/// `None`. Runs out of memory only if the line is not at fault.
fn check_line(
    lists: &mut Lists,
    checker: &mut LineChecker,
    bytes: &[u8],
) -> Result<Option<HintWhy>, AllocError>
    requires ready { IsReadyChecker checker.old }
    requires room { HasListRoom lists.old (length bytes.now) }
    ensures ready { IfOk result (λ why. IsReadyIf why checker.new) }
    ensures takes { IfOk result (λ why. IsWholeLine bytes.now → (lines : List Line) → HasAcceptedLines checker.old lines
        → ChecksLineBytes why checker.old checker.new lines bytes.now) }
    ensures on_error { OnErr result (IsWholeLine bytes.now → (lines : List Line) → HasAcceptedLines checker.old lines
        → AcceptsLineBytes lines bytes.now) }
    ensures room { KeepsListRoom lists.old lists.new }
{
    match lists.read_line(bytes) {
        Some((head, _)) => checker.take(&lists.line(head)),
        None => Ok(Some(HintWhy::Syntax)),
    }
}

impl Checking {
    /// Returns a checker that has read nothing. Never allocates.
    fn new(alloc: Global) -> Checking
        ensures ready { IsReadyChecker result.checker }
        ensures read { HasReadText result [] }
        ensures none { vec_len result.held ≡ 0 }
    {
        Checking {
            held: Vec::new(alloc),
            place: Place::Letter,
            lists: Lists::new(alloc),
            checker: LineChecker::new(alloc),
        }
    }

    /// Reserves memory for the next chunk: to complete the line that has begun, and to read its lists. So a complete
    /// line that is at fault is refused even if memory runs out.
    fn make_room(&mut self) -> Result<(), AllocError>
        ensures room { OnOk result (HasRoomFor self.new max_read_size) }
        ensures checker { self.new.checker ≡ self.old.checker }
        ensures place { self.new.place ≡ self.old.place }
        ensures held { self.new.held.items ≡ self.old.held.items }
        ensures len { vec_len self.new.held ≡ vec_len self.old.held }
    {
        self.held.reserve(PIECE)?;
        self.lists.make_room(self.held.capacity())
    }

    /// Returns how many bytes the first read may request. If there is no memory for a chunk, this is a single byte,
    /// which can be checked without allocating.
    fn first_room(&mut self) -> usize
        requires { vec_len self.old.held ≡ 0 }
        ensures room { HasRoomFor self.new result }
        ensures least { 0 < result }
        ensures most { result ≤ max_read_size }
        ensures checker { self.new.checker ≡ self.old.checker }
        ensures place { self.new.place ≡ self.old.place }
        ensures held { self.new.held.items ≡ self.old.held.items }
    {
        match self.make_room() {
            Ok(()) => PIECE,
            Err(_) => 1,
        }
    }

    /// Checks the line that consists of the held bytes and `bytes`, which must end with the line's LF. Returns why the
    /// line is at fault, or `None`. There must be room for the bytes, so memory runs out only if the line is not at
    /// fault.
    fn end_line(&mut self, bytes: &[u8]) -> Result<Option<HintWhy>, AllocError>
        requires ready { IsReadyChecker self.old.checker }
        requires some { 0 < vec_len self.old.held }
        requires room { HasRoomFor self.old (length bytes.now) }
        requires ends { IsWholeLine bytes.now }
        ensures ready { IfOk result (λ why. IsReadyIf why self.new.checker) }
        ensures empty { IfOk result (λ why. self.new.held.items ≡ []) }
        ensures reads { IfOk result (λ why. ReadsFurther why self.old bytes.now self.new) }
        ensures stops { OnErr result (CanRunOutOfMemoryAtEnd self.old bytes.now) }
        ensures room { KeepsListRoom self.old.lists self.new.lists }
    {
        self.held.extend_from_slice(bytes)?;
        let why = check_line(&mut self.lists, &mut self.checker, &self.held)?;
        self.held.clear();
        self.place = Place::Letter;
        Ok(why)
    }

    /// Holds further bytes of a line, and makes room for the next chunk. These bytes must not contain an LF. Returns a
    /// fault if no line can continue with them.
    fn hold(&mut self, bytes: &[u8]) -> Result<Option<HintWhy>, AllocError>
        requires ready { IsReadyChecker self.old.checker }
        requires inside { HasNoLf bytes.now }
        ensures ready { IfOk result (λ why. IsReadyIf why self.new.checker) }
        ensures room { IfOk result (λ why. HasRoomIf why self.new) }
        ensures reads { IfOk result (λ why. ReadsFurther why self.old bytes.now self.new) }
        ensures stops { OnErr result (CanRunOutOfMemory self.old bytes.now) }
    {
        let Some(place) = following(self.place, bytes) else {
            return Ok(Some(HintWhy::Syntax));
        };
        self.held.extend_from_slice(bytes)?;
        self.place = place;
        self.make_room()?;
        Ok(None)
    }

    /// Holds the bytes after the last line that was read in place. `bytes` must not begin with a line, so an LF among
    /// these bytes is a fault. Returns the fault, or `None`.
    fn hold_rest(&mut self, bytes: &[u8]) -> Result<Option<HintWhy>, AllocError>
        requires ready { IsReadyChecker self.old.checker }
        requires empty { self.old.held.items ≡ [] }
        requires none { BeginsWithNoLine bytes.now }
        ensures ready { IfOk result (λ why. IsReadyIf why self.new.checker) }
        ensures room { IfOk result (λ why. HasRoomIf why self.new) }
        ensures reads { IfOk result (λ why. ReadsFurther why self.old bytes.now self.new) }
        ensures stops { OnErr result (CanRunOutOfMemory self.old bytes.now) }
    {
        match line_end(bytes) {
            Some(_) => Ok(Some(HintWhy::Syntax)),
            None => self.hold(bytes),
        }
    }

    /// Does what `feed` does if no bytes are held, and returns the same. Lines are read in place, without being copied.
    fn feed_in_place(&mut self, piece: &[u8]) -> Result<Option<HintWhy>, AllocError>
        requires ready { IsReadyChecker self.old.checker }
        requires empty { self.old.held.items ≡ [] }
        requires room { HasListRoom self.old.lists (length piece.now) }
        ensures ready { IfOk result (λ why. IsReadyIf why self.new.checker) }
        ensures room { IfOk result (λ why. HasRoomIf why self.new) }
        ensures reads { IfOk result (λ why. ReadsFurther why self.old piece.now self.new) }
        ensures stops { OnErr result (CanRunOutOfMemory self.old piece.now) }
    {
        let mut rest = piece;
        while let Some(found) = self.lists.read_line(rest) {
            let (head, following) = found;
            match self.checker.take(&self.lists.line(head))? {
                Some(why) => return Ok(Some(why)),
                None => {}
            }
            rest = following;
        }
        self.hold_rest(rest)
    }

    /// Checks the next bytes of the text, for which there must be room, and makes room for the next chunk. Returns the
    /// reason for the first fault, if there is one.
    fn feed(&mut self, piece: &[u8]) -> Result<Option<HintWhy>, AllocError>
        requires ready { IsReadyChecker self.old.checker }
        requires room { HasRoomFor self.old (length piece.now) }
        ensures ready { IfOk result (λ why. IsReadyIf why self.new.checker) }
        ensures room { IfOk result (λ why. HasRoomIf why self.new) }
        ensures reads { IfOk result (λ why. ReadsFurther why self.old piece.now self.new) }
        ensures stops { OnErr result (CanRunOutOfMemory self.old piece.now) }
    {
        if self.held.is_empty() {
            return self.feed_in_place(piece);
        }
        let Some(end) = line_end(piece) else {
            return self.hold(piece);
        };
        let (line, rest) = piece.split_at(end);
        match self.end_line(line)? {
            Some(why) => Ok(Some(why)),
            None => self.feed_in_place(rest),
        }
    }

    /// Does what `feed` does, but returns a verdict if a line is at fault.
    fn check_chunk(&mut self, piece: &[u8]) -> Result<Option<HintVerdict>, HintFault>
        requires ready { IsReadyChecker self.old.checker }
        requires room { HasRoomFor self.old (length piece.now) }
        ensures memory { IfErr result (λ e. e ≡ HintFault.OutOfMemory) }
        ensures takes { IfOk result (λ verdict. ReadsChunk verdict self.old piece.now self.new) }
        ensures stops { OnErr result (CanRunOutOfMemory self.old piece.now) }
    {
        match self.feed(piece)? {
            Some(why) => Ok(Some(self.checker.bad(why))),
            None => Ok(None),
        }
    }

    /// Returns the verdict on the text, which must end after the bytes that have been read so far.
    fn finish(&self) -> HintVerdict
        ensures { (text : List ℕ) → HasReadText self.now text → VerdictHolds result text }
    {
        if self.held.is_empty() {
            return self.checker.proved();
        }
        self.checker.bad(HintWhy::Syntax)
    }

    /// Reads and checks the next chunk, of at most as many bytes as `chunk` has. Returns the verdict on the text, if it
    /// is determined.
    fn check_next<R: CountedRead>(
        &mut self,
        text: &mut R,
        chunk: &mut [u8],
    ) -> Result<Option<HintVerdict>, HintFault>
        requires ready { IsReadyChecker self.old.checker }
        requires room { HasRoomFor self.old (length chunk.old) }
        requires some { 0 < length chunk.old }
        requires few { length chunk.old ≤ max_read_size }
        ensures calls { (R.seen text.new).calls ≡ (R.seen text.old).calls + 1 }
        ensures checks { ChecksNextChunk result (R.seen text.old) (R.seen text.new) self.old self.new }
    {
        match text.read_counted(chunk) {
            Ok(0) => Ok(Some(self.finish())),
            Ok(count) => self.check_chunk(&chunk[..count]),
            Err(_) => Err(HintFault::Read),
        }
    }

    /// Reads and checks a text, up to the first line at fault. Returns the verdict on the text.
    fn check_text<R: CountedRead>(&mut self, text: &mut R) -> Result<HintVerdict, HintFault>
        requires ready { IsReadyChecker self.old.checker }
        requires fresh { HasReadText self.old [] }
        requires none { vec_len self.old.held ≡ 0 }
        ensures given { GaveEnough (R.seen text.old) (R.seen text.new) (VerdictIsCorrect result) }
        ensures stops { IfErr result (GaveTextBeforeFault (R.seen text.old) (R.seen text.new)) }
        ensures kept { IsErrOf result HintFault.Read ⊎ ((R.seen text.new).failures ≡ (R.seen text.old).failures) }
        ensures read { IsErrOf result HintFault.Read → ReadFails (R.seen text.old) (R.seen text.new) }
        ensures some { IsErrOf result HintFault.OutOfMemory
            → length (R.seen text.old).given < length (R.seen text.new).given }
        ensures reads { (R.seen text.new).calls ≤ (R.seen text.old).calls + max_reads }
    {
        let mut chunk = [0; PIECE];
        let mut most = self.first_room();
        for _ in 0..MAX_READS {
            match self.check_next(text, &mut chunk[..most])? {
                Some(verdict) => return Ok(verdict),
                None => {}
            }
            most = PIECE;
        }
        Err(HintFault::Read)
    }
}

/// Checks a hint text, and returns the verdict. Reads the text in chunks of at most 4,096 bytes, up to the first line
/// at fault.
pub fn check<R: CountedRead>(alloc: Global, text: &mut R) -> Result<HintVerdict, HintFault>
    // The verdict is correct for the text that was read, whatever follows.
    ensures given { GaveEnough (R.seen text.old) (R.seen text.new) (VerdictIsCorrect result) }
    // After a fault, the text that was read is a derivation and a proper prefix of a line, or memory ran out for a line that
    // is accepted. No read found the end.
    ensures stops { IfErr result (GaveTextBeforeFault (R.seen text.old) (R.seen text.new)) }
    // If a read fails, the error `Read` is returned, and the read is not repeated.
    ensures kept { IsErrOf result HintFault.Read ⊎ ((R.seen text.new).failures ≡ (R.seen text.old).failures) }
    ensures read { IsErrOf result HintFault.Read → ReadFails (R.seen text.old) (R.seen text.new) }
    // Memory runs out only after bytes have been read.
    ensures some { IsErrOf result HintFault.OutOfMemory
        → length (R.seen text.old).given < length (R.seen text.new).given }
    ensures reads { (R.seen text.new).calls ≤ (R.seen text.old).calls + max_reads }
{
    let mut checking = Checking::new(alloc);
    checking.check_text(text)
}
