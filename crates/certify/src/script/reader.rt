//! Reads scripts.
ghost use Rattle.std.specs.Prelude.{◌≡◌, ◌<◌, ◌≤◌, ℕ, Bool, false, List, [], None, length, take, IfOk, MatchOption};
ghost use Rattle.sat_base.specs.script.Script.{Command as SpelledCommand};
ghost use Rattle.sat_base.specs.script.Language.{Reading, reading, plain_reading};
ghost use Rattle.sat_base.specs.text.Text.{Scan, scan};
ghost use Rattle.sat_base.specs.text.Tokenizing.{capped, HasRemainingScan, ReceivesPrefix};
ghost use Rattle.sat_base.specs.text.WrongWords.{HasValidContinuation};
ghost use Rattle.certify.specs.script.Commands.{EndsScript, EndsWhateverFollows, HasWholeCommand, RepresentsCommand};
ghost use Rattle.certify.specs.script.Commands.{RestMatters, CanContinue};
ghost use Rattle.certify.specs.script.Commands.{ReaderMeansIf, ReaderMeans, ReceivesBytes};
ghost use Rattle.certify.specs.script.LastChunk.{ConsumesText, HasConsumed, HasConsumedValid};

use super::commands::Commands;
use super::{Command, Reached, ScriptEnd};
use sat_base::{Token, Tokenizer};
use std::alloc::{AllocError, Global};

/// A reader of scripts. It receives the bytes of a script in chunks of any size, and returns a reference to every
/// command as soon as the command is complete. It stores no bytes, and only one command. After malformed text, it must
/// not be called again.
#[derive(Drop)]
pub struct ScriptReader {
    tokenizer: Tokenizer,
    commands: Commands,
}

/// Consumes one or more bytes, of which only the last can end a token. Returns how many bytes were consumed, and the
/// token, if one ended. A number and the space or LF after it are usually consumed in one call.
#[inline(always)]
fn take_token(tokenizer: &mut Tokenizer, bytes: &[u8]) -> (usize, Option<Token>)
    requires { 0 < length bytes.now }
    ensures some { 0 < result.0 }
    ensures within { result.0 ≤ length bytes.now }
    ensures takes { ReceivesPrefix tokenizer.old (take result.0 bytes.now) result.1 tokenizer.new }
    ensures right { (result.1 ≡ None → ⊥) → (after : List ℕ → Scan) → HasRemainingScan tokenizer.new after
        → HasValidContinuation after }
{
    match tokenizer.push_whole(bytes) {
        Some((count, negative, value)) => (count, Some(Token::Number { negative, value })),
        None => tokenizer.push_some(bytes),
    }
}

impl ScriptReader {
    /// Returns a reader for a new script.
    pub fn new(alloc: Global) -> ScriptReader
        ensures means { ReaderMeans result reading }
        ensures counts { ReaderMeansIf false result plain_reading }
        ensures text { HasConsumedValid result [] }
    {
        ScriptReader {
            tokenizer: Tokenizer::new(),
            commands: Commands::new(alloc),
        }
    }

    /// Returns the command that was completed last.
    pub fn command(&self) -> Command<'_>
        ensures { (c : SpelledCommand) → HasWholeCommand self.now c → RepresentsCommand result c }
    {
        Command {
            kind: self.commands.draft.kind,
            literals: &self.commands.draft.literals,
            past_limit: self.commands.draft.past_limit,
        }
    }

    /// Consumes bytes up to the one that completes a command or makes the text malformed, or all bytes if there is no
    /// such byte. Returns how many bytes were consumed, and which of the three cases it was.
    pub fn push(&mut self, bytes: &[u8]) -> Result<(usize, Reached), AllocError>
        ensures within { IfOk result (λ r. r.0 ≤ length bytes.now) }
        ensures some { IfOk result (λ r. 0 < length bytes.now → 0 < r.0) }
        // In the case `More`, all bytes were consumed.
        ensures all { IfOk result (λ r. r.1 ≡ Reached.More → r.0 ≡ length bytes.now) }
        // A malformed word is reported at the first byte after which it can no longer become a valid one.
        ensures right { IfOk result (λ r. 0 < length bytes.now → r.1 ≡ Reached.More → CanContinue self.new) }
        ensures takes { IfOk result (λ r. ReceivesBytes r.1 self.old (take r.0 bytes.now) self.new) }
        ensures text { IfOk result (λ r. ConsumesText r.1 self.old (take r.0 bytes.now) self.new) }
    {
        let mut at = 0;
        while at < bytes.len() {
            let (count, token) = take_token(&mut self.tokenizer, &bytes[at..]);
            at += count;
            let Some(token) = token else {
                if self.tokenizer.is_wrong() {
                    return Ok((at, Reached::Malformed));
                }
                continue;
            };
            match self.commands.take(token)? {
                Reached::More => {}
                Reached::Command => return Ok((at, Reached::Command)),
                Reached::Malformed => return Ok((at, Reached::Malformed)),
            }
        }
        Ok((at, Reached::More))
    }

    /// If a line has begun with `%`, returns how the script ends, since whatever follows is ignored. Otherwise
    /// returns `None`.
    pub fn end_if_over(&self) -> Option<ScriptEnd>
        ensures { MatchOption result (RestMatters self.now) (EndsWhateverFollows self.now) }
    {
        if self.tokenizer.is_over() {
            return Some(self.commands.ending());
        }
        None
    }

    /// Returns the line number of the last byte that was consumed, or 0 if none was. Lines are numbered from 1, and the
    /// number is capped at 2^64-1.
    pub fn line(&self) -> u64
        ensures { (text : List ℕ) → HasConsumed self.now text → result ≡ capped (scan text).last }
    {
        self.tokenizer.line()
    }

    /// Handles the end of the text. Returns whether the end completes a command, and how the script ends.
    pub fn finish(&mut self) -> (bool, ScriptEnd)
        ensures tokenizer { self.new.tokenizer ≡ self.old.tokenizer }
        ensures ends { (asks : Bool) (before : List ℕ → Reading) → ReaderMeansIf asks self.old before
            → EndsScript asks result.0 result.1 self.new (before []) }
    {
        match self.tokenizer.finish() {
            None => (false, self.commands.ending()),
            Some(token) => self.commands.finish_with(token),
        }
    }
}
