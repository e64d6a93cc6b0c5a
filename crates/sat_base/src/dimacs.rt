//! Parses formulas in DIMACS CNF, in chunks of any size.
ghost use Rattle.std.specs.Prelude.{◌≡◌, ◌≤◌, ◌<◌, ◌+◌, ◌++◌, ◌⊎◌, false, length, Ok, Err, IfOk, IfErr, OnOk, IsErrOf};
ghost use Rattle.std.specs.Io.{ReadsAtMost};
ghost use Rattle.sat_base.specs.device.Device.{max_reads, ReadFails, GaveEnough};
ghost use Rattle.sat_base.specs.values.Literals.{var_limit};
ghost use Rattle.sat_base.specs.text.Text.{dimacs_header};
ghost use Rattle.sat_base.specs.text.Tokenizing.{capped};
ghost use Rattle.sat_base.specs.values.Formulas.{clauses_var_count};
ghost use Rattle.sat_base.specs.dimacs.ParserPlaces.{with_parser};
ghost use Rattle.sat_base.specs.dimacs.Parsing.{no_progress, clauses_read, lines_read, capped_header, with_all_taken};
ghost use Rattle.sat_base.specs.dimacs.Parsing.{FeedsPiece, HasNoFaultSoFar, GaveTextWithoutFault, FinishEffect};
ghost use Rattle.sat_base.specs.dimacs.Parsing.{Parses};
ghost use Rattle.sat_base.specs.dimacs.Parsing.{OnlyTakesClauses};
ghost use Rattle.sat_base.specs.dimacs.Parsing.{ParsesInParts, RefusesPiece, ReportsEnded, MakesNoReadAfterEnd};
ghost use Rattle.sat_base.specs.dimacs.Parsing.{CallsClosureForAll};
ghost use Rattle.sat_base.specs.dimacs.Faults.{ReadsOnceUnlessEnded};

mod clauses;
pub mod error;
mod faults;
mod history;
mod parser;

use self::error::{DimacsError, IncrementalError};
use self::parser::Parser;
use crate::device::ahead::PIECE;
use crate::device::whole::MAX_READS;
use crate::{CnfFormula, CountedRead};
use std::alloc::Global;
use std::io;
use std::marker::Model;

/// A parser of DIMACS CNF, which receives the text of a formula in chunks. Of the text, it stores only the clauses that
/// have not been taken yet, the unfinished clause, and the header.
///
/// Contracts see the bytes that were fed, the clauses that were taken, and whether the parser has stopped. The parser
/// stops at a fault in the text, when memory runs out, and when the text is finished. Even then, the clauses read so
/// far can be taken.
#[derive(Drop)]
pub struct DimacsParser {
    parser: Parser,
}

impl Model for DimacsParser {
    ghost use Rattle.sat_base.specs.dimacs.Parsing.{Progress};

    ghost Value = { Progress };

    ghost use Rattle.sat_base.specs.dimacs.ParserPlaces.{ParserInvariant, progress_of};

    ghost view = { λ d. progress_of d.parser };

    ghost invariant = { λ d. ParserInvariant d.parser };
}

/// Returns the closure's error, if there is one, and the parser's result otherwise.
fn refusal_or<E: Drop>(
    seen: Result<(), E>,
    answer: Result<(), DimacsError>,
) -> Result<(), IncrementalError<E>>
    ensures refused { IfErr seen (λ e. result ≡ Err (IncrementalError.Caller e)) }
    ensures fault { OnOk seen (IfErr answer (λ e. result ≡ Err (IncrementalError.Dimacs e))) }
    ensures well { OnOk seen (IfOk answer (λ u. result ≡ Ok u)) }
{
    match seen {
        Err(e) => Err(IncrementalError::Caller(e)),
        Ok(()) => match answer {
            Err(e) => Err(IncrementalError::Dimacs(e)),
            Ok(()) => Ok(()),
        },
    }
}

impl DimacsParser {
    /// Returns a parser for a new text. Never allocates.
    pub fn new(alloc: Global) -> DimacsParser
        ensures { result ≡ no_progress }
    {
        DimacsParser {
            parser: Parser::new(alloc),
        }
    }

    /// Feeds the next bytes of the text to the parser. After an `Err`, the parser has stopped, either at a fault or
    /// because memory ran out. A fault is on the line of the malformed word, or of the number above 2^28. A malformed
    /// word is reported at the first byte after which it can no longer become valid.
    pub fn feed(&mut self, piece: &[u8]) -> Result<(), DimacsError>
        ensures answer { FeedsPiece result piece.now self.old self.new }
        // No finished line has a fault, and the unfinished word can still become valid.
        ensures sound { OnOk result (HasNoFaultSoFar self.new) }
    {
        self.parser.feed(piece)
    }

    /// Handles the end of the text. A text that ends inside a clause is malformed on its last line. This is reported
    /// even if no memory is left, since memory is needed only if the last clause is complete.
    pub fn finish(&mut self) -> Result<(), DimacsError>
        ensures { FinishEffect result self.old self.new }
    {
        self.parser.finish()
    }

    /// Returns a formula with the clauses that have been read since the last call, and with `var_count` variables. Does
    /// not allocate.
    pub fn take_formula(&mut self) -> CnfFormula
        ensures progress { self.new ≡ with_all_taken self.old }
        ensures clauses { clauses_read self.old ≡ self.old.taken ++ result.clauses }
        ensures count { result.var_count ≡ clauses_var_count (clauses_read self.old) }
    {
        self.parser.take_formula()
    }

    /// Returns the highest variable number in the complete clauses of the text so far, or 0.
    pub fn var_count(&self) -> usize
        ensures count { result ≡ clauses_var_count (clauses_read self.now) }
        ensures bound { result ≤ var_limit }
    {
        self.parser.clauses.formula.var_count()
    }

    /// Returns the number of complete clauses of the text so far, capped at 2^64-1.
    pub fn clause_count(&self) -> u64
        ensures { result ≡ capped (length (clauses_read self.now)) }
    {
        self.parser.clauses.count
    }

    /// Returns the numbers of variables and of clauses in the header, if there is one. Both are capped at 2^64-1. They
    /// are not checked against the clauses.
    pub fn header(&self) -> Option<(u64, u64)>
        ensures { result ≡ capped_header (dimacs_header (lines_read self.now)) }
    {
        self.parser.clauses.header
    }

    /// Returns `true` if a line that begins with `%` has ended the text. If so, all later bytes are ignored, and only
    /// `finish` needs to be called.
    pub fn has_ended(&self) -> bool
        ensures { ReportsEnded result self.now }
    {
        self.parser.has_ended()
    }

    /// Reads a formula up to the end of its text, which is the end of the reader or a line that begins with `%`.
    /// Returns `OutOfMemory` only if the bytes that were read have no fault.
    pub fn parse<R: CountedRead>(alloc: Global, reader: &mut R) -> Result<CnfFormula, DimacsError>
        // The formula or the fault is that for the bytes that were read, whatever bytes might follow them.
        ensures given { GaveEnough (R.seen reader.old) (R.seen reader.new) (Parses result) }
        // A read has failed only if `Read` is returned, and no read is repeated.
        ensures kept { IsErrOf result DimacsError.Read ⊎ ((R.seen reader.new).failures ≡ (R.seen reader.old).failures) }
        ensures read { IsErrOf result DimacsError.Read → ReadFails (R.seen reader.old) (R.seen reader.new) }
        // If a read fails or memory runs out, no line that was read has a fault, and the unfinished word can still
        // become valid.
        ensures sound { IsErrOf result DimacsError.Read ⊎ IsErrOf result DimacsError.OutOfMemory
            → GaveTextWithoutFault (R.seen reader.old) (R.seen reader.new) }
        // No read is made after the one that gave the line that ends the text.
        ensures stops { MakesNoReadAfterEnd (R.seen reader.old) (R.seen reader.new) }
        ensures reads { (R.seen reader.new).calls ≤ (R.seen reader.old).calls + max_reads }
        ensures fresh { IsErrOf result DimacsError.HasFailed → ⊥ }
    {
        let mut parser = DimacsParser::new(alloc);
        parser.read_formula(reader)
    }

    /// Reads the next bytes of the text, or none if a line that begins with `%` has ended the text. Returns the number
    /// of bytes read.
    fn read_next<R: CountedRead>(&self, reader: &mut R, room: &mut [u8]) -> io::Result<usize>
        ensures bound { ReadsAtMost result room.new }
        ensures reads { ReadsOnceUnlessEnded result room.new self.now.fed (R.seen reader.old) (R.seen reader.new) }
        ensures goes_on { (R.seen reader.old).calls < (R.seen reader.new).calls → ReportsEnded false self.now }
    {
        if self.has_ended() {
            return Ok(0);
        }
        reader.read_counted(room)
    }

    /// Feeds the next bytes to the parser. If memory runs out, returns the first fault in these bytes instead, if there
    /// is one.
    fn feed_or_find_fault(&mut self, piece: &[u8]) -> Result<(), DimacsError>
        ensures fed { OnOk result (FeedsPiece (Ok tt) piece.now self.old self.new) }
        ensures sound { OnOk result (HasNoFaultSoFar self.new) }
        ensures refused { IfErr result (λ e. RefusesPiece e piece.now self.old) }
    {
        self.parser.feed_or_find_fault(piece)
    }

    /// Reads a text up to its end, and returns all of its clauses.
    fn read_formula<R: CountedRead>(&mut self, reader: &mut R) -> Result<CnfFormula, DimacsError>
        requires { self.old ≡ no_progress }
        ensures given { GaveEnough (R.seen reader.old) (R.seen reader.new) (Parses result) }
        ensures kept { IsErrOf result DimacsError.Read ⊎ ((R.seen reader.new).failures ≡ (R.seen reader.old).failures) }
        ensures read { IsErrOf result DimacsError.Read → ReadFails (R.seen reader.old) (R.seen reader.new) }
        ensures sound { IsErrOf result DimacsError.Read ⊎ IsErrOf result DimacsError.OutOfMemory
            → GaveTextWithoutFault (R.seen reader.old) (R.seen reader.new) }
        ensures stops { MakesNoReadAfterEnd (R.seen reader.old) (R.seen reader.new) }
        ensures reads { (R.seen reader.new).calls ≤ (R.seen reader.old).calls + max_reads }
        ensures fresh { IsErrOf result DimacsError.HasFailed → ⊥ }
    {
        let mut piece = [0; PIECE];
        for _ in 0..MAX_READS {
            match self.read_next(reader, &mut piece) {
                Ok(0) => {
                    self.finish()?;
                    return Ok(self.take_formula());
                }
                Ok(count) => self.feed_or_find_fault(&piece[..count])?,
                Err(_) => return Err(DimacsError::Read),
            }
        }
        Err(DimacsError::Read)
    }

    /// Reads a formula up to the end of its text, as `parse` does, and calls the closure with the parser after every
    /// chunk and after the end. The closure is also called after a chunk that has a fault or needs too much memory, but
    /// not after a failed read. If the closure returns an error, that error is returned immediately, even if the text
    /// has a fault. Clauses that the closure does not take remain in the parser.
    pub fn parse_incremental<R: CountedRead, E: Drop, F: FnMut(&mut DimacsParser) -> Result<(), E>>(
        alloc: Global,
        reader: &mut R,
        closure: F,
    ) -> Result<DimacsParser, IncrementalError<E>>
        requires { F.IsAlwaysCallable closure }
        // If no call to the closure does more than take clauses, the result is that for the bytes that were read,
        // whatever bytes might follow them. By the contract of `take_formula`, the clauses that were taken and those
        // that remain together make up the clauses of the text.
        ensures given { OnlyTakesClauses (λ f p r q g. F.step f p r q g) closure
            → ParsesInParts (R.seen reader.old) (R.seen reader.new) result }
        // Whatever the closure does, it was called with the parser after every chunk that the reader gave.
        ensures visited { CallsClosureForAll (λ f p r q g. F.step f p r q g) closure (R.seen reader.old) (R.seen reader.new)
            result }
        // A read has failed only if `Read` is returned, and no read is repeated.
        ensures kept { IsErrOf result (IncrementalError.Dimacs DimacsError.Read)
            ⊎ ((R.seen reader.new).failures ≡ (R.seen reader.old).failures) }
        ensures read { IsErrOf result (IncrementalError.Dimacs DimacsError.Read)
            → ReadFails (R.seen reader.old) (R.seen reader.new) }
        ensures reads { (R.seen reader.new).calls ≤ (R.seen reader.old).calls + max_reads }
    {
        let mut parser = DimacsParser::new(alloc);
        match parser.read_parts(reader, closure) {
            Ok(()) => Ok(parser),
            Err(e) => Err(e),
        }
    }

    /// Reads a text up to its end, and calls the closure after every chunk and after the end.
    fn read_parts<R: CountedRead, E: Drop, F: FnMut(&mut DimacsParser) -> Result<(), E>>(
        &mut self,
        reader: &mut R,
        mut closure: F,
    ) -> Result<(), IncrementalError<E>>
        requires fresh { self.old ≡ no_progress }
        requires callable { F.IsAlwaysCallable closure }
        ensures given { OnlyTakesClauses (λ f p r q g. F.step f p r q g) closure
            → ParsesInParts (R.seen reader.old) (R.seen reader.new) (with_parser self.new result) }
        ensures visited { CallsClosureForAll (λ f p r q g. F.step f p r q g) closure (R.seen reader.old) (R.seen reader.new)
            (with_parser self.new result) }
        ensures kept { IsErrOf (with_parser self.new result) (IncrementalError.Dimacs DimacsError.Read)
            ⊎ ((R.seen reader.new).failures ≡ (R.seen reader.old).failures) }
        ensures read { IsErrOf (with_parser self.new result) (IncrementalError.Dimacs DimacsError.Read)
            → ReadFails (R.seen reader.old) (R.seen reader.new) }
        ensures reads { (R.seen reader.new).calls ≤ (R.seen reader.old).calls + max_reads }
    {
        let mut piece = [0; PIECE];
        for _ in 0..MAX_READS {
            match self.read_next(reader, &mut piece) {
                Ok(0) => {
                    let answer = self.finish();
                    return refusal_or(closure(self), answer);
                }
                Ok(count) => {
                    let answer = self.feed(&piece[..count]);
                    refusal_or(closure(self), answer)?;
                }
                Err(_) => return Err(IncrementalError::Dimacs(DimacsError::Read)),
            }
        }
        Err(IncrementalError::Dimacs(DimacsError::Read))
    }
}
