//! Reads scripts command by command.
ghost use Rattle.std.specs.Prelude.{◌≡◌, ℕ, List, [], false};
ghost use Rattle.sat_base.specs.script.Script.{Command as SpelledCommand};
ghost use Rattle.certify.specs.script.LastPiece.{IsNotAtEnd, source_in, waiting_bytes};
ghost use Rattle.certify.specs.script.Commands.{HasWholeCommand, RepresentsCommand, RestMatters, ReaderMeansIf};
ghost use Rattle.certify.specs.script.Commands.{ReaderMeans};
ghost use Rattle.certify.specs.script.LastChunk.{AccountsTowards, AccountsUpTo};
ghost use Rattle.certify.specs.script.LastChunk.{HasConsumed, HasConsumedValid, KeepsAccount};
ghost use Rattle.sat_base.specs.script.Language.{reading, plain_reading};
ghost use Rattle.certify.specs.script.Streaming.{ReadsTowardsNext, NextCommandResult, LeavesFewerCalls, FinishesText};
ghost use Rattle.certify.specs.script.Streaming.{ConsumesWaiting};
ghost use Rattle.sat_base.specs.text.Text.{scan};
ghost use Rattle.sat_base.specs.text.Tokenizing.{capped};

use super::reader::ScriptReader;
use super::{Command, Reached, ScriptEnd};
use crate::script::ahead::LastPiece;
use sat_base::{CountedRead, ReadError};
use std::alloc::{AllocError, Global};

/// What comes next in a script.
#[derive(Clone, Copy)]
pub(crate) enum Next {
    /// A command.
    Command,
    /// The last command. The payload says how the text ends after it.
    Last(ScriptEnd),
    /// The end of the text, without another command. The payload says how the text ends.
    End(ScriptEnd),
}

/// A script that is read as its commands are needed, in chunks of at most 4,096 bytes.
#[derive(Drop)]
pub(crate) struct CommandStream {
    reader: ScriptReader,
    ahead: LastPiece,
}

impl CommandStream {
    /// Returns a stream of the commands of a new script.
    pub fn new(alloc: Global) -> CommandStream
        ensures means { ReaderMeans result.reader reading }
        ensures counts { ReaderMeansIf false result.reader plain_reading }
        ensures text { HasConsumedValid result.reader [] }
        ensures waiting { waiting_bytes result.ahead ≡ [] }
        ensures reads { result.ahead.reads ≡ 0 }
    {
        CommandStream {
            reader: ScriptReader::new(alloc),
            ahead: LastPiece::new(),
        }
    }

    /// Returns the command that was completed last.
    pub fn command(&self) -> Command<'_>
        ensures { (c : SpelledCommand) → HasWholeCommand self.now.reader c → RepresentsCommand result c }
    {
        self.reader.command()
    }

    /// Consumes bytes that have already been read, up to the end of a command. Returns how far the reader got.
    fn take(&mut self) -> Result<Reached, AllocError>
        ensures { ConsumesWaiting result self.old self.new }
    {
        let (count, reached) = self.reader.push(self.ahead.waiting())?;
        self.ahead.consume(count);
        Ok(reached)
    }

    /// Returns the line number of the last byte that was consumed, or 0 if none was. Lines are numbered from 1, and the
    /// number is capped at 2^64-1.
    pub fn line(&self) -> u64
        ensures { (text : List ℕ) → HasConsumed self.now.reader text → result ≡ capped (scan text).last }
    {
        self.reader.line()
    }

    /// Handles the end of the text. Returns that end, with the command that it completes, if any.
    fn finish(&mut self) -> Next
        ensures tokenizer { self.new.reader.tokenizer ≡ self.old.reader.tokenizer }
        ensures finishes { FinishesText result self.old.reader self.new.reader }
        ensures ahead { self.new.ahead ≡ self.old.ahead }
    {
        let (whole, end) = self.reader.finish();
        if whole {
            return Next::Last(end);
        }
        Next::End(end)
    }

    /// Reads more bytes. Returns `None` if there are any, and otherwise how the text ends. All bytes read so far must
    /// have been consumed, and no line may have begun with `%`.
    fn refill<S: CountedRead>(&mut self, script: &mut S) -> Result<Option<Next>, ReadError>
        requires waiting { waiting_bytes self.old.ahead ≡ [] }
        requires looks_on { RestMatters self.old.reader }
        ensures brings { ReadsTowardsNext result (source_in S.seen script.old self.old.ahead)
            (source_in S.seen script.new self.new.ahead) self.old.reader self.new.reader }
        ensures falls { LeavesFewerCalls result self.old.ahead self.new.ahead }
        ensures stops { KeepsAccount AccountsTowards result (source_in S.seen script.old self.old.ahead)
            (source_in S.seen script.new self.new.ahead) self.old.reader self.new.reader }
    {
        if self.ahead.refill(script)? == 0 {
            return Ok(Some(self.finish()));
        }
        Ok(None)
    }

    /// Reads more bytes, unless the text has ended at a line that begins with `%`. Returns `None` if there are any. All
    /// bytes read so far must have been consumed.
    fn read_on<S: CountedRead>(&mut self, script: &mut S) -> Result<Option<Next>, ReadError>
        requires open_yet { IsNotAtEnd (source_in S.seen script.old self.old.ahead) }
        requires waiting { waiting_bytes self.old.ahead ≡ [] }
        ensures brings { ReadsTowardsNext result (source_in S.seen script.old self.old.ahead)
            (source_in S.seen script.new self.new.ahead) self.old.reader self.new.reader }
        ensures falls { LeavesFewerCalls result self.old.ahead self.new.ahead }
        ensures stops { KeepsAccount AccountsTowards result (source_in S.seen script.old self.old.ahead)
            (source_in S.seen script.new self.new.ahead) self.old.reader self.new.reader }
    {
        match self.reader.end_if_over() {
            Some(end) => Ok(Some(Next::End(end))),
            None => self.refill(script),
        }
    }

    /// Consumes bytes, or reads more if all have been consumed. Returns `None` if this neither completes a command nor
    /// reaches the end of the text.
    fn advance<S: CountedRead>(&mut self, script: &mut S) -> Result<Option<Next>, ReadError>
        requires { IsNotAtEnd (source_in S.seen script.old self.old.ahead) }
        ensures brings { ReadsTowardsNext result (source_in S.seen script.old self.old.ahead)
            (source_in S.seen script.new self.new.ahead) self.old.reader self.new.reader }
        ensures falls { LeavesFewerCalls result self.old.ahead self.new.ahead }
        ensures stops { KeepsAccount AccountsTowards result (source_in S.seen script.old self.old.ahead)
            (source_in S.seen script.new self.new.ahead) self.old.reader self.new.reader }
    {
        if self.ahead.waiting().is_empty() {
            return self.read_on(script);
        }
        match self.take()? {
            Reached::More => Ok(None),
            Reached::Command => Ok(Some(Next::Command)),
            Reached::Malformed => Ok(Some(Next::End(ScriptEnd::Malformed))),
        }
    }

    /// Reads up to the end of the next command, or to the end of the text. Returns which of the two it is.
    pub fn next<S: CountedRead>(&mut self, script: &mut S) -> Result<Next, ReadError>
        requires { IsNotAtEnd (source_in S.seen script.old self.old.ahead) }
        ensures arrives { NextCommandResult result (source_in S.seen script.old self.old.ahead)
            (source_in S.seen script.new self.new.ahead) self.old.reader self.new.reader }
        ensures stops { KeepsAccount AccountsUpTo result (source_in S.seen script.old self.old.ahead)
            (source_in S.seen script.new self.new.ahead) self.old.reader self.new.reader }
    {
        loop {
            if let Some(next) = self.advance(script)? {
                return Ok(next);
            }
        }
    }
}
