//! Confirms the commands of a script as they are read, and then its end.
ghost use Rattle.std.specs.Prelude.{◌≡◌, ◌+◌, ◌^◌, ◌<◌, ◌≤◌, [], ◌∷◌, true, false, OnOk};
ghost use Rattle.sat_base.specs.device.Device.{Reader};
ghost use Rattle.certify.specs.script.Decided.{MakesNoReadOnceDecided};
ghost use Rattle.sat_base.specs.script.Script.{Command as Spelled};
ghost use Rattle.certify.specs.confirm.Streams.{StepsGoOn, StepReadsAreFew, SameLoan};
ghost use Rattle.certify.specs.confirm.VerdictPromises.{command_count};
ghost use Rattle.certify.specs.confirm.Confirming.{ConfirmsRest, ConfirmsCommand, name_table_of};
ghost use Rattle.certify.specs.confirm.ConfirmStates.{CommandCall, answers_source_in};
ghost use Rattle.certify.specs.confirm.ConfirmedScript.{ConfirmsScript, script_source, confirm_place};
ghost use Rattle.certify.specs.script.LastChunk.{AccountsForValidBytes};
ghost use Rattle.certify.specs.script.LastPiece.{IsNotAtEnd};
ghost use Rattle.certify.specs.script.Commands.{HasWholeCommand, ReaderMeans, end_reading};
ghost use Rattle.sat_base.specs.script.Language.{prepend_commands, reading};

use crate::confirm::commands::ConfirmState;
use crate::confirm::stop::{Stop, unread_script};
use crate::script::ScriptEnd;
use crate::script::stream::{CommandStream, Next};
use sat_base::{CountedRead, StepReader};
use std::alloc::Global;

/// A script, which is read as its commands are needed, and the state of its confirmation.
#[derive(Drop)]
pub(crate) struct Confirmation {
    pub script: CommandStream,
    pub session: ConfirmState,
}

impl Confirmation {
    /// Counts and confirms the command that was read last.
    fn confirm_next<A: CountedRead, C: CountedRead>(
        &mut self,
        answers: &mut A,
        steps: &mut StepReader<'_, C>,
    ) -> Result<(), Stop>
        requires goes_on { StepsGoOn C.seen steps.old }
        requires open_yet { IsNotAtEnd (answers_source_in A.seen answers.old self.old.session) }
        requires whole { (c : Spelled) × HasWholeCommand self.old.script.reader c }
        ensures script { self.new.script ≡ self.old.script }
        ensures number { OnOk result (self.new.session.number ≡ self.old.session.number + 1) }
        ensures confirms { (c : Spelled) → HasWholeCommand self.old.script.reader c
            → CommandCall (2 ^ 64 ≤ self.old.session.number + 1) true result A.seen C.seen answers.old answers.new
            steps.old steps.new self.old.session self.new.session
            (ConfirmsCommand (self.old.session.number + 1) c (name_table_of self.old.session.matching)
            (name_table_of self.new.session.matching)) }
    {
        if self.session.number == u64::MAX {
            return Err(Stop::TooMany);
        }
        self.session.number += 1;
        self.session
            .confirm_command(answers, steps, self.script.command())
    }

    /// Confirms the command that was read last, and then the end of the script, which follows it.
    fn confirm_last<A: CountedRead, C: CountedRead>(
        &mut self,
        answers: &mut A,
        steps: &mut StepReader<'_, C>,
        end: ScriptEnd,
    ) -> Result<(), Stop>
        requires goes_on { StepsGoOn C.seen steps.old }
        requires open_yet { IsNotAtEnd (answers_source_in A.seen answers.old self.old.session) }
        requires whole { (c : Spelled) × HasWholeCommand self.old.script.reader c }
        ensures script { self.new.script ≡ self.old.script }
        ensures confirms { (c : Spelled) → HasWholeCommand self.old.script.reader c
            → CommandCall (2 ^ 64 < self.old.session.number + 1 + command_count (prepend_commands (c ∷ []) (end_reading end)))
            false result A.seen C.seen answers.old answers.new steps.old steps.new self.old.session self.new.session
            (λ before following u v. ConfirmsRest (self.old.session.number + 1) (prepend_commands (c ∷ []) (end_reading end))
            (name_table_of self.old.session.matching) before u) }
    {
        self.confirm_next(answers, steps)?;
        self.session.confirm_end(answers, steps, end)
    }

    /// Confirms all commands of the script, and then its end. Stops at the first mismatch or fault, and returns it.
    pub fn confirm_all<S: CountedRead, A: CountedRead, C: CountedRead>(
        &mut self,
        script: &mut S,
        answers: &mut A,
        steps: &mut StepReader<'_, C>,
    ) -> Result<(), Stop>
        requires goes_on { StepsGoOn C.seen steps.old }
        requires open_yet { IsNotAtEnd (answers_source_in A.seen answers.old self.old.session) }
        requires script_open { IsNotAtEnd (script_source S.seen script.old self.old) }
        requires reads { ReaderMeans self.old.script.reader reading }
        ensures same { SameLoan steps.old steps.new }
        ensures bound { StepReadsAreFew C.seen steps.new }
        ensures ends { ConfirmsScript reading result
            (confirm_place S.seen A.seen C.seen script.old answers.old steps.old self.old)
            (confirm_place S.seen A.seen C.seen script.new answers.new steps.new self.new) }
        ensures stops { (start : Reader) → AccountsForValidBytes start (script_source S.seen script.old self.old) self.old.script.reader
            → MakesNoReadOnceDecided start (S.seen script.new) }
    {
        loop {
            let next = match self.script.next(script) {
                Ok(next) => next,
                Err(error) => return Err(unread_script(error)),
            };
            match next {
                Next::Command => self.confirm_next(answers, steps)?,
                Next::Last(end) => return self.confirm_last(answers, steps, end),
                Next::End(end) => return self.session.confirm_end(answers, steps, end),
            }
        }
    }
}
