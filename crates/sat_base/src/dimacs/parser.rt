//! The implementation of `DimacsParser`.
ghost use Rattle.std.specs.Prelude.{◌≡◌, ◌++◌, ◌∷◌, [], ℕ, List, true, false, Ok, OnOk, IfErr};
ghost use Rattle.sat_base.specs.text.Text.{Scan};
ghost use Rattle.sat_base.specs.text.Tokenizing.{capped, HasRemainingScan};
ghost use Rattle.sat_base.specs.values.Formulas.{clauses_var_count};
ghost use Rattle.sat_base.specs.dimacs.Parsing.{FeedsPiece, FinishEffect, HasNoFaultSoFar, no_progress, with_all_taken};
ghost use Rattle.sat_base.specs.dimacs.Parsing.{clauses_read, RefusesPiece, ReportsEnded};
ghost use Rattle.sat_base.specs.dimacs.ParserPlaces.{ParserInvariant, progress_of, IsResultOfEnd};

use super::clauses::{Clauses, Refusal, is_literal};
use super::error::DimacsError;
use super::faults::error_within;
use super::history::History;
use crate::{CnfFormula, Tokenizer};
use std::alloc::Global;

/// A parser, which receives the bytes of a text and stores the clauses read so far.
#[derive(Drop)]
pub(crate) struct Parser {
    pub(crate) alloc: Global,
    pub(crate) tokenizer: Tokenizer,
    pub(crate) clauses: Clauses,
    pub(crate) history: History,
    /// Whether no more bytes are accepted.
    pub(crate) stopped: bool,
    /// Whether the text has ended or has a fault.
    pub(crate) ended: bool,
}

impl Parser {
    /// Returns a parser for a new text. Never allocates.
    pub(crate) fn new(alloc: Global) -> Parser
        ensures parser { ParserInvariant result }
        ensures progress { progress_of result ≡ no_progress }
    {
        Parser {
            alloc,
            tokenizer: Tokenizer::new(),
            clauses: Clauses::new(alloc),
            history: History::new(),
            stopped: false,
            ended: false,
        }
    }

    /// Returns the line of the last byte.
    fn line(&self) -> u64
        ensures { (before : List ℕ → Scan) → HasRemainingScan self.now.tokenizer before → result ≡ capped (before []).last }
    {
        self.tokenizer.line()
    }

    /// Receives the next byte.
    fn push(&mut self, byte: u8) -> Result<(), DimacsError>
        requires parser { ParserInvariant self.old }
        requires open { self.old.stopped ≡ false }
        ensures parser { ParserInvariant self.new }
        ensures answer { FeedsPiece result (byte ∷ []) (progress_of self.old) (progress_of self.new) }
    {
        let Some(token) = self.tokenizer.push(byte) else {
            self.history = self.history.and_byte(byte);
            if self.tokenizer.is_wrong() {
                self.stopped = true;
                self.ended = true;
                return Err(DimacsError::Malformed { line: self.line() });
            }
            return Ok(());
        };
        match self.clauses.take(token) {
            Ok(()) => {
                self.history = self.history.and_byte(byte);
                Ok(())
            }
            Err(Refusal::Malformed) => {
                self.history = self.history.and_byte(byte);
                self.stopped = true;
                self.ended = true;
                Err(DimacsError::Malformed { line: self.line() })
            }
            Err(Refusal::Limit) => {
                self.history = self.history.and_byte(byte);
                self.stopped = true;
                self.ended = true;
                Err(DimacsError::Limit { line: self.line() })
            }
            Err(Refusal::OutOfMemory) => {
                self.stopped = true;
                Err(DimacsError::OutOfMemory)
            }
        }
    }

    /// Receives the next bytes.
    pub(crate) fn feed(&mut self, piece: &[u8]) -> Result<(), DimacsError>
        requires { ParserInvariant self.old }
        ensures parser { ParserInvariant self.new }
        ensures answer { FeedsPiece result piece.now (progress_of self.old) (progress_of self.new) }
        ensures sound { OnOk result (HasNoFaultSoFar (progress_of self.new)) }
    {
        if self.stopped {
            return Err(DimacsError::HasFailed);
        }
        for byte in piece {
            self.push(*byte)?;
        }
        Ok(())
    }

    /// Receives the next bytes. If memory runs out, returns the first fault in these bytes instead, if there is one,
    /// even if the fault is later in the text.
    pub(crate) fn feed_or_find_fault(&mut self, piece: &[u8]) -> Result<(), DimacsError>
        requires { ParserInvariant self.old }
        ensures parser { ParserInvariant self.new }
        ensures fed { OnOk result (FeedsPiece (Ok tt) piece.now (progress_of self.old) (progress_of self.new)) }
        ensures sound { OnOk result (HasNoFaultSoFar (progress_of self.new)) }
        ensures refused { IfErr result (λ e. RefusesPiece e piece.now (progress_of self.old)) }
    {
        let tokenizer = self.tokenizer.copied();
        match self.feed(piece) {
            Ok(()) => Ok(()),
            Err(error) => Err(error_within(tokenizer, piece, error)),
        }
    }

    /// Returns `true` if a line that begins with `%` has ended the text, so that only `finish` needs to be called.
    pub(crate) fn has_ended(&self) -> bool
        requires { ParserInvariant self.now }
        ensures { ReportsEnded result (progress_of self.now) }
    {
        if self.stopped {
            return false;
        }
        self.tokenizer.is_over()
    }

    /// Handles the end of the text. No word may be unfinished.
    fn end(&mut self) -> Result<(), DimacsError>
        ensures parser { self.new ≡ record self.old { stopped = true; ended = true } }
        ensures answer { IsResultOfEnd result self.old }
    {
        self.stopped = true;
        self.ended = true;
        if self.clauses.is_inside() {
            return Err(DimacsError::Malformed { line: self.line() });
        }
        Ok(())
    }

    /// Handles the end of the text, including an unfinished word.
    pub(crate) fn finish(&mut self) -> Result<(), DimacsError>
        requires { ParserInvariant self.old }
        ensures parser { ParserInvariant self.new }
        ensures answer { FinishEffect result (progress_of self.old) (progress_of self.new) }
    {
        if self.stopped {
            return Err(DimacsError::HasFailed);
        }
        let Some(token) = self.tokenizer.finish() else {
            return self.end();
        };
        // After a literal the text ends inside a clause, whatever memory there is.
        if is_literal(token) {
            self.stopped = true;
            self.ended = true;
            return Err(DimacsError::Malformed { line: self.line() });
        }
        match self.clauses.take(token) {
            Ok(()) => self.end(),
            Err(Refusal::Malformed) => {
                self.stopped = true;
                self.ended = true;
                Err(DimacsError::Malformed { line: self.line() })
            }
            Err(Refusal::Limit) => {
                self.stopped = true;
                self.ended = true;
                Err(DimacsError::Limit { line: self.line() })
            }
            Err(Refusal::OutOfMemory) => {
                self.stopped = true;
                Err(DimacsError::OutOfMemory)
            }
        }
    }

    /// Returns the clauses that have been read since the last call.
    pub(crate) fn take_formula(&mut self) -> CnfFormula
        requires { ParserInvariant self.old }
        ensures parser { ParserInvariant self.new }
        ensures progress { progress_of self.new ≡ with_all_taken (progress_of self.old) }
        ensures clauses { clauses_read (progress_of self.old) ≡ self.old.history.taken ++ result.clauses }
        ensures count { result.var_count ≡ clauses_var_count (clauses_read (progress_of self.old)) }
    {
        self.history = self.history.and_clauses(&self.clauses.formula);
        self.clauses.take_formula(self.alloc)
    }
}
