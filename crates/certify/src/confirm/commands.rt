//! Confirms commands one by one.
ghost use Rattle.std.specs.Prelude.{◌≡◌, ◌+◌, ◌^◌, ◌<◌, ℕ, List, [], true, false};
ghost use Rattle.sat_base.specs.script.Script.{Clean, Command as Spelled};
ghost use Rattle.sat_base.specs.script.ScriptState.{initial_state};
ghost use Rattle.sat_base.specs.steps.Steps.{Step};
ghost use Rattle.sat_checker.specs.CheckerView.{kernel_of};
ghost use Rattle.sat_checker.specs.KernelView.{kernel_looks};
ghost use Rattle.certify.specs.answers.AnswerForms.{named_literals};
ghost use Rattle.certify.specs.confirm.Streams.{CertificateCall, StepsGoOn, StepsGoOnIf, StepReadsAreFew, SameLoan};
ghost use Rattle.certify.specs.confirm.Streams.{stream_of};
ghost use Rattle.certify.specs.confirm.VerdictPromises.{command_count};
ghost use Rattle.certify.specs.confirm.Confirming.{ConfirmsAnswer, ConfirmsContent, ConfirmsRest, ConfirmsCommand};
ghost use Rattle.certify.specs.confirm.Confirming.{TableHoldsAt, MeetsContent, MeetsOutcome, MeetsShowing};
ghost use Rattle.certify.specs.confirm.Confirming.{name_table_of};
ghost use Rattle.certify.specs.confirm.Lines.{outcome_of_reply};
ghost use Rattle.certify.specs.confirm.ConfirmStates.{CommandCall, answers_source_in, stream_in};
ghost use Rattle.certify.specs.script.LastPiece.{IsNotAtEnd, waiting_bytes};
ghost use Rattle.certify.specs.script.Commands.{RepresentsCommand, end_reading, kind_of};

use crate::answers::read::AnswerKind;
use crate::confirm::answers::{Answers, Reply};
use crate::confirm::certificate::Certificate;
use crate::confirm::expect::Expected;
use crate::confirm::names::Matching;
use crate::confirm::stop::Stop;
use crate::refusals::Names;
use crate::script::{Command, CommandKind, ScriptEnd};
use sat_base::{CountedRead, Lit, StepReader};
use std::alloc::Global;

/// The state of a confirmation after some commands, with the current line of the answers.
#[derive(Drop)]
pub(crate) struct ConfirmState {
    pub matching: Matching,
    answers: Answers,
    /// The number of the last command.
    pub number: u64,
    /// The number of accepted asks that are confirmed completely.
    pub asks: u64,
}

/// Expects the step that shows that the answer to an ask is correct. An unknown answer needs no step.
fn show<C: CountedRead>(
    matching: &mut Matching,
    steps: &mut StepReader<'_, C>,
    ask: &[Lit],
    reply: &Reply,
) -> Result<(), Stop>
    requires goes_on { StepsGoOn C.seen steps.old }
    ensures same { SameLoan steps.old steps.new }
    ensures bound { StepReadsAreFew C.seen steps.new }
    ensures goes_on { StepsGoOnIf result C.seen steps.new }
    ensures names { matching.new.names ≡ matching.old.names }
    ensures confirms { CertificateCall result (stream_in C.seen steps.old matching.old)
        (stream_in C.seen steps.new matching.new)
        (MeetsShowing matching.old.names (named_literals ask.now) (outcome_of_reply reply.now) matching.old.certificate.names
        matching.new.certificate.names) }
{
    let line = reply.lits.as_slice();
    match reply.kind {
        AnswerKind::Sat => {
            let names = &matching.names;
            let expected = Expected::Model { names, ask, line };
            matching.certificate.expect(steps, &expected)
        }
        AnswerKind::Unsat => matching.certificate.expect(steps, &Expected::Core(line)),
        AnswerKind::Unknown => Ok(()),
    }
}

/// Expects the step that shows that the answer to an ask is correct, and then the end of the ask.
fn close<C: CountedRead>(
    matching: &mut Matching,
    steps: &mut StepReader<'_, C>,
    ask: &[Lit],
    reply: &Reply,
) -> Result<(), Stop>
    requires goes_on { StepsGoOn C.seen steps.old }
    ensures same { SameLoan steps.old steps.new }
    ensures bound { StepReadsAreFew C.seen steps.new }
    ensures goes_on { StepsGoOnIf result C.seen steps.new }
    ensures names { matching.new.names ≡ matching.old.names }
    ensures confirms { CertificateCall result (stream_in C.seen steps.old matching.old)
        (stream_in C.seen steps.new matching.new)
        (MeetsOutcome matching.old.names (named_literals ask.now) (outcome_of_reply reply.now) matching.old.certificate.names
        matching.new.certificate.names) }
{
    show(matching, steps, ask, reply)?;
    matching.certificate.expect(steps, &Expected::Close)
}

/// Expects the step for the clause or the assumptions of a command, after the steps for its names. Other commands need
/// no such step.
fn expect_content<C: CountedRead>(
    certificate: &mut Certificate,
    steps: &mut StepReader<'_, C>,
    command: Command<'_>,
) -> Result<(), Stop>
    requires goes_on { StepsGoOn C.seen steps.old }
    ensures same { SameLoan steps.old steps.new }
    ensures bound { StepReadsAreFew C.seen steps.new }
    ensures goes_on { StepsGoOnIf result C.seen steps.new }
    ensures confirms { CertificateCall result (stream_of C.seen steps.old (kernel_of certificate.old.checker))
        (stream_of C.seen steps.new (kernel_of certificate.new.checker))
        (MeetsContent (kind_of command.entry.kind) (named_literals command.entry.literals.now) certificate.old.names
        certificate.new.names) }
{
    match command.kind {
        CommandKind::Clause => certificate.expect(steps, &Expected::Clause(command.literals)),
        CommandKind::Ask => certificate.expect(steps, &Expected::Ask(command.literals)),
        CommandKind::Hide => Ok(()),
        CommandKind::Witness => Ok(()),
        CommandKind::Sample => Ok(()),
    }
}

impl ConfirmState {
    /// Returns the state before the first command.
    pub fn new(alloc: Global) -> ConfirmState
        ensures valid { (rest : List ℕ) (step : Step) → TableHoldsAt (name_table_of result.matching)
            (record { checker = kernel_of result.matching.certificate.checker; step = step; rest = rest }) initial_state [] }
        ensures looks { kernel_looks (kernel_of result.matching.certificate.checker) ≡ 0 }
        ensures number { result.number ≡ 0 }
        ensures waiting { waiting_bytes result.answers.lines.ahead ≡ [] }
        ensures reads { result.answers.lines.ahead.reads ≡ 0 }
    {
        ConfirmState {
            matching: Matching {
                certificate: Certificate::new(alloc),
                names: Names::new(alloc),
            },
            answers: Answers::new(alloc),
            number: 0,
            asks: 0,
        }
    }

    /// Reads the answer to an ask, after the step with the assumptions. Expects the step that shows that the answer is
    /// correct, and the end of the ask.
    fn confirm_answer<A: CountedRead, C: CountedRead>(
        &mut self,
        answers: &mut A,
        steps: &mut StepReader<'_, C>,
        ask: &[Lit],
    ) -> Result<(), Stop>
        requires goes_on { StepsGoOn C.seen steps.old }
        requires open_yet { IsNotAtEnd (answers_source_in A.seen answers.old self.old) }
        ensures number { self.new.number ≡ self.old.number }
        ensures confirms { CommandCall ⊥ true result A.seen C.seen answers.old answers.new steps.old steps.new self.old
            self.new (ConfirmsAnswer self.old.number (named_literals ask.now) (name_table_of self.old.matching)
            (name_table_of self.new.matching)) }
    {
        let settled = self.matching.certificate.checker.unsat();
        self.answers.read(answers, settled)?;
        close(&mut self.matching, steps, ask, &self.answers.reply)?;
        self.asks = self.asks.saturating_add(1);
        Ok(())
    }

    /// Confirms the clause or the ask of a command, after the names of the command.
    fn confirm_content<A: CountedRead, C: CountedRead>(
        &mut self,
        answers: &mut A,
        steps: &mut StepReader<'_, C>,
        command: Command<'_>,
    ) -> Result<(), Stop>
        requires goes_on { StepsGoOn C.seen steps.old }
        requires open_yet { IsNotAtEnd (answers_source_in A.seen answers.old self.old) }
        ensures number { self.new.number ≡ self.old.number }
        ensures confirms { CommandCall ⊥ true result A.seen C.seen answers.old answers.new steps.old steps.new self.old
            self.new (ConfirmsContent self.old.number (kind_of command.entry.kind)
            (named_literals command.entry.literals.now) (name_table_of self.old.matching) (name_table_of self.new.matching)) }
    {
        expect_content(&mut self.matching.certificate, steps, command)?;
        if let CommandKind::Ask = command.kind {
            return self.confirm_answer(answers, steps, command.literals);
        }
        Ok(())
    }

    /// Confirms the next command.
    pub fn confirm_command<A: CountedRead, C: CountedRead>(
        &mut self,
        answers: &mut A,
        steps: &mut StepReader<'_, C>,
        command: Command<'_>,
    ) -> Result<(), Stop>
        requires goes_on { StepsGoOn C.seen steps.old }
        requires open_yet { IsNotAtEnd (answers_source_in A.seen answers.old self.old) }
        ensures number { self.new.number ≡ self.old.number }
        ensures confirms { (c : Spelled) → RepresentsCommand command.entry c
            → CommandCall ⊥ true result A.seen C.seen answers.old answers.new steps.old steps.new self.old self.new
            (ConfirmsCommand self.old.number c (name_table_of self.old.matching) (name_table_of self.new.matching)) }
    {
        if let Some(refusal) = self.matching.names.refusal(command) {
            return self.answers.refuse(answers, self.number, refusal);
        }
        self.matching
            .take_names(steps, command.kind, command.literals)?;
        self.confirm_content(answers, steps, command)
    }

    /// Confirms that the certificate's next ordered step is its end, and that the answers have ended.
    fn confirm_over<A: CountedRead, C: CountedRead>(
        &mut self,
        answers: &mut A,
        steps: &mut StepReader<'_, C>,
    ) -> Result<(), Stop>
        requires goes_on { StepsGoOn C.seen steps.old }
        requires open_yet { IsNotAtEnd (answers_source_in A.seen answers.old self.old) }
        ensures confirms { (n : ℕ) → CommandCall ⊥ false result A.seen C.seen answers.old answers.new steps.old
            steps.new self.old self.new (λ before following u v. ConfirmsRest n ([], Clean) (name_table_of self.old.matching)
            before u) }
    {
        self.matching.certificate.expect(steps, &Expected::End)?;
        self.answers.expect_over(answers)
    }

    /// Confirms the ask without literals that is due after the last command, and then the end.
    fn confirm_asked<A: CountedRead, C: CountedRead>(
        &mut self,
        answers: &mut A,
        steps: &mut StepReader<'_, C>,
    ) -> Result<(), Stop>
        requires goes_on { StepsGoOn C.seen steps.old }
        requires open_yet { IsNotAtEnd (answers_source_in A.seen answers.old self.old) }
        ensures confirms { CommandCall (2 ^ 64 < self.old.number + 1 + command_count (end_reading ScriptEnd.Asked)) false
            result A.seen C.seen answers.old answers.new steps.old steps.new self.old self.new
            (λ before following u v. ConfirmsRest (self.old.number + 1) (end_reading ScriptEnd.Asked)
            (name_table_of self.old.matching) before u) }
    {
        if self.number == u64::MAX {
            return Err(Stop::TooMany);
        }
        self.number += 1;
        let ask = Command {
            kind: CommandKind::Ask,
            literals: &[],
            past_limit: false,
        };
        self.confirm_command(answers, steps, ask)?;
        self.confirm_over(answers, steps)
    }

    /// Confirms that the last line of the answers reports the malformed command, and then confirms the end.
    fn confirm_malformed<A: CountedRead, C: CountedRead>(
        &mut self,
        answers: &mut A,
        steps: &mut StepReader<'_, C>,
    ) -> Result<(), Stop>
        requires goes_on { StepsGoOn C.seen steps.old }
        requires open_yet { IsNotAtEnd (answers_source_in A.seen answers.old self.old) }
        ensures confirms { CommandCall (2 ^ 64 < self.old.number + 1 + command_count (end_reading ScriptEnd.Malformed)) false
            result A.seen C.seen answers.old answers.new steps.old steps.new self.old self.new
            (λ before following u v. ConfirmsRest (self.old.number + 1) (end_reading ScriptEnd.Malformed)
            (name_table_of self.old.matching) before u) }
    {
        if self.number == u64::MAX {
            return Err(Stop::TooMany);
        }
        self.answers.refuse_rest(answers, self.number + 1)?;
        self.confirm_over(answers, steps)
    }

    /// Confirms what follows the last command, if the script ends with `end`.
    pub fn confirm_end<A: CountedRead, C: CountedRead>(
        &mut self,
        answers: &mut A,
        steps: &mut StepReader<'_, C>,
        end: ScriptEnd,
    ) -> Result<(), Stop>
        requires goes_on { StepsGoOn C.seen steps.old }
        requires open_yet { IsNotAtEnd (answers_source_in A.seen answers.old self.old) }
        ensures confirms { CommandCall (2 ^ 64 < self.old.number + 1 + command_count (end_reading end)) false result A.seen
            C.seen answers.old answers.new steps.old steps.new self.old self.new
            (λ before following u v. ConfirmsRest (self.old.number + 1) (end_reading end) (name_table_of self.old.matching)
            before u) }
    {
        match end {
            ScriptEnd::Clean => self.confirm_over(answers, steps),
            ScriptEnd::Asked => self.confirm_asked(answers, steps),
            ScriptEnd::Malformed => self.confirm_malformed(answers, steps),
        }
    }
}
