//! Reads the answers to a script, and checks that every line is an expected one.
ghost use Rattle.std.specs.Prelude.{◌≡◌, [], true, false};
ghost use Rattle.std.specs.Bool.{MatchBool};
ghost use Rattle.certify.specs.answers.Answers.{malformed_line, refused_line};
ghost use Rattle.certify.specs.answers.AnswerForms.{named_literals};
ghost use Rattle.certify.specs.answers.AnswerReading.{outcome_of};
ghost use Rattle.certify.specs.confirm.Lines.{ReadsDueLine, stop_for_answer};
ghost use Rattle.certify.specs.confirm.CallResults.{AnswersCall, ResultDecides};
ghost use Rattle.certify.specs.confirm.Lines.{IsOneLine, ReadsReply, IsWantedLine, NextLine, ReadsFirstLine};
ghost use Rattle.certify.specs.confirm.Lines.{ReadsSecondLine};
ghost use Rattle.certify.specs.confirm.Lines.{answers_source};
ghost use Rattle.certify.specs.refusals.Names.{refusal_of_code};
ghost use Rattle.certify.specs.script.LastPiece.{IsNotAtEnd, waiting_bytes};

use crate::answers::read::{AnswerFault, AnswerKind, read_kind, read_line};
use crate::answers::refused::push_refused;
use crate::answers::write::push_malformed;
use crate::confirm::lines::{Lines, Wanted};
use crate::confirm::stop::{Stop, unread_answers};
use crate::refusals::Refusal;
use crate::verdict::Why;
use sat_base::{CountedRead, Lit};
use std::alloc::Global;

/// An answer, and the literals of its second line. The variable of a literal is a name.
#[derive(Drop)]
pub(crate) struct Reply {
    pub kind: AnswerKind,
    pub lits: Vec<Lit>,
}

/// The answers, of which only the current line is held in memory.
#[derive(Drop)]
pub(crate) struct Answers {
    lines: Lines,
    pub reply: Reply,
    /// The line that is expected, if there is only one possibility.
    due: Vec<u8>,
}

/// Returns `true` if `line`, which was read, is the expected line `due`.
fn is_same(line: &[u8], due: &[u8]) -> bool
    ensures { MatchBool result (line.now ≡ due.now) (line.now ≡ due.now → ⊥) }
{
    line == due
}

/// Returns `true` if the line that was read is empty, which means that the answers have ended.
fn is_none(line: &[u8]) -> bool
    ensures { MatchBool result (line.now ≡ []) (line.now ≡ [] → ⊥) }
{
    line.is_empty()
}

/// Returns `true` if `settled` rules out an answer of this kind: if `settled` is true, only the kind `Unsat` is
/// allowed.
fn rules_out_kind(settled: bool, kind: AnswerKind) -> bool
    ensures { MatchBool result ((settled ≡ true) × (kind ≡ AnswerKind.Unsat → ⊥))
        (settled ≡ true → kind ≡ AnswerKind.Unsat) }
{
    if !settled {
        return false;
    }
    match kind {
        AnswerKind::Sat => true,
        AnswerKind::Unsat => false,
        AnswerKind::Unknown => true,
    }
}

/// Returns `true` if `settled` rules out the literals of an answer: if `settled` is true, only an answer without
/// literals is allowed.
fn rules_out_literals(settled: bool, lits: &[Lit]) -> bool
    ensures { MatchBool result ((settled ≡ true) × (lits.now ≡ [] → ⊥)) (settled ≡ true → lits.now ≡ []) }
{
    if !settled {
        return false;
    }
    !lits.is_empty()
}

/// Returns why a confirmation ends if no answer could be read.
fn answer_stop(fault: AnswerFault) -> Stop
    ensures { result ≡ stop_for_answer fault }
{
    match fault {
        AnswerFault::Missing => Stop::No(Why::AnswerMissing),
        AnswerFault::Text => Stop::No(Why::AnswerText),
        AnswerFault::OutOfMemory => Stop::OutOfMemory,
    }
}

impl Answers {
    /// Returns the state before the first line.
    pub fn new(alloc: Global) -> Answers
        ensures waiting { waiting_bytes result.lines.ahead ≡ [] }
        ensures reads { result.lines.ahead.reads ≡ 0 }
    {
        Answers {
            lines: Lines::new(alloc),
            reply: Reply {
                kind: AnswerKind::Unknown,
                lits: Vec::new(alloc),
            },
            due: Vec::new(alloc),
        }
    }

    /// Reads the next line of the answers. Stops early once the bytes can no longer begin an allowed line.
    fn next_line<A: CountedRead>(&mut self, answers: &mut A, wanted: Wanted) -> Result<(), Stop>
        ensures line { NextLine (IsWantedLine wanted self.old.due.items) result
            (answers_source A.seen answers.old self.old) (answers_source A.seen answers.new self.new)
            self.new.lines.line.items }
        ensures due { self.new.due.items ≡ self.old.due.items }
    {
        match self.lines.next(answers, wanted, &self.due) {
            Ok(()) => Ok(()),
            Err(error) => Err(unread_answers(error)),
        }
    }

    /// Reads the next line, which must be the expected line.
    fn take_due<A: CountedRead>(&mut self, answers: &mut A) -> Result<(), Stop>
        requires open_yet { IsNotAtEnd (answers_source A.seen answers.old self.old) }
        requires line { IsOneLine self.old.due.items }
        ensures { AnswersCall true result (answers_source A.seen answers.old self.old)
            (answers_source A.seen answers.new self.new)
            (λ before following. ReadsDueLine before following self.old.due.items) }
    {
        self.next_line(answers, Wanted::Due)?;
        if is_same(&self.lines.line, &self.due) {
            return Ok(());
        }
        if is_none(&self.lines.line) {
            return Err(Stop::No(Why::AnswerMissing));
        }
        Err(Stop::No(Why::AnswerText))
    }

    /// Expects the line that says that command `number` is refused, and why.
    pub fn refuse<A: CountedRead>(
        &mut self,
        answers: &mut A,
        number: u64,
        refusal: Refusal,
    ) -> Result<(), Stop>
        requires open_yet { IsNotAtEnd (answers_source A.seen answers.old self.old) }
        ensures { AnswersCall true result (answers_source A.seen answers.old self.old)
            (answers_source A.seen answers.new self.new)
            (λ before following. ReadsDueLine before following (refused_line number (refusal_of_code refusal))) }
    {
        self.due.clear();
        push_refused(&mut self.due, number, refusal)?;
        self.take_due(answers)
    }

    /// Expects the last line of the answers to a script that is malformed at command `number`.
    pub fn refuse_rest<A: CountedRead>(&mut self, answers: &mut A, number: u64) -> Result<(), Stop>
        requires open_yet { IsNotAtEnd (answers_source A.seen answers.old self.old) }
        ensures { AnswersCall true result (answers_source A.seen answers.old self.old)
            (answers_source A.seen answers.new self.new)
            (λ before following. ReadsDueLine before following (malformed_line number)) }
    {
        self.due.clear();
        push_malformed(&mut self.due, number)?;
        self.take_due(answers)
    }

    /// Reads the first line of an answer. Returns the kind of the answer.
    fn read_first<A: CountedRead>(&mut self, answers: &mut A) -> Result<AnswerKind, Stop>
        requires open_yet { IsNotAtEnd (answers_source A.seen answers.old self.old) }
        ensures { AnswersCall true result (answers_source A.seen answers.old self.old)
            (answers_source A.seen answers.new self.new) (ReadsFirstLine) }
    {
        self.next_line(answers, Wanted::First)?;
        match read_kind(&self.lines.line) {
            Ok((kind, _)) => Ok(kind),
            Err(fault) => Err(answer_stop(fault)),
        }
    }

    /// Reads the second line of an answer of this kind, if such answers have one.
    fn read_second<A: CountedRead>(&mut self, answers: &mut A, kind: AnswerKind) -> Result<(), Stop>
        requires open_yet { IsNotAtEnd (answers_source A.seen answers.old self.old) }
        ensures { AnswersCall true result (answers_source A.seen answers.old self.old)
            (answers_source A.seen answers.new self.new) (ReadsSecondLine kind (named_literals self.new.reply.lits.items)) }
    {
        if let AnswerKind::Unknown = kind {
            self.reply.lits.clear();
            return Ok(());
        }
        self.next_line(answers, Wanted::Second(kind))?;
        match read_line(kind, &self.lines.line, &mut self.reply.lits) {
            Ok(_) => Ok(()),
            Err(fault) => Err(answer_stop(fault)),
        }
    }

    /// Reads an answer into `reply`. `settled` is true if `unsat` is recorded; then any answer other than `Unsat`
    /// without literals is a mismatch.
    pub fn read<A: CountedRead>(&mut self, answers: &mut A, settled: bool) -> Result<(), Stop>
        requires open_yet { IsNotAtEnd (answers_source A.seen answers.old self.old) }
        ensures { AnswersCall true result (answers_source A.seen answers.old self.old)
            (answers_source A.seen answers.new self.new)
            (λ before following. ReadsReply before following
            (outcome_of self.new.reply.kind (named_literals self.new.reply.lits.items)) settled) }
    {
        let kind = self.read_first(answers)?;
        if rules_out_kind(settled, kind) {
            return Err(Stop::No(Why::AnswerDiffers));
        }
        self.read_second(answers, kind)?;
        if rules_out_literals(settled, &self.reply.lits) {
            return Err(Stop::No(Why::AnswerDiffers));
        }
        self.reply.kind = kind;
        Ok(())
    }

    /// Expects the end of the answers.
    pub fn expect_over<A: CountedRead>(&mut self, answers: &mut A) -> Result<(), Stop>
        requires open_yet { IsNotAtEnd (answers_source A.seen answers.old self.old) }
        ensures { AnswersCall false result (answers_source A.seen answers.old self.old)
            (answers_source A.seen answers.new self.new) (λ before following. ResultDecides (before ≡ [])) }
    {
        self.next_line(answers, Wanted::Nothing)?;
        if is_none(&self.lines.line) {
            return Ok(());
        }
        Err(Stop::No(Why::AnswerExtra))
    }
}
