//! Serves the commands of a script as they are read, and then its end.
ghost use Rattle.std.specs.Prelude.{◌≡◌, ◌+◌, ◌∷◌, [], false, IfErr, IfOk, OnErr, OnOk};
ghost use Rattle.sat_base.specs.device.Device.{WriterAccepts};
ghost use Rattle.sat_base.specs.script.ScriptState.{ScriptState, initial_state};
ghost use Rattle.sat_base.specs.script.Script.{Command as Spelled, Malformed};
ghost use Rattle.certify.specs.answers.Answers.{malformed_line};
ghost use Rattle.certify.specs.script.LastChunk.{AccountsForBytes, KeepsAccount};
ghost use Rattle.certify.specs.script.LastPiece.{IsNotAtEnd, source_in};
ghost use Rattle.certify.specs.script.Commands.{RepresentsCommand, RepresentsSomeCommand, ReaderMeans, ReaderMeansIf};
ghost use Rattle.certify.specs.script.Commands.{end_reading};
ghost use Rattle.sat_base.specs.script.Language.{Reading, prepend_commands, reading, plain_reading};
ghost use Rattle.certify.specs.run.Stopping.{StopsServing};
ghost use Rattle.certify.specs.run.SolverCalls.{IsCaused, IsReadySolver};
ghost use Rattle.certify.specs.run.BetweenCommands.{IsCausedByScript, RunInvariant, HasStateBetweenCommands};
ghost use Rattle.certify.specs.run.BetweenCommands.{CommandServed};
ghost use Rattle.certify.specs.run.BetweenCommands.{StopsInScript, WritesBoth, run_place};
ghost use Rattle.certify.specs.run.ServedScript.{ServesScript, ServesWholeScript, run_fault};

use super::ask::answer_ask;
use super::commands::serve_command;
use super::session::RunState;
use super::write::write_answer;
use crate::answers::write::push_malformed;
use crate::fault::RunFault;
use crate::script::stream::{CommandStream, Next};
use crate::script::{Command, ScriptEnd};
use sat_base::{CountedRead, CountedWrite, ReadError};

/// Returns the fault of a run whose script can't be read.
fn script_read_fault(error: ReadError) -> RunFault
    ensures { result ≡ run_fault error }
{
    match error {
        ReadError::Failed => RunFault::ScriptRead,
        ReadError::OutOfMemory => RunFault::OutOfMemory,
    }
}

/// Serves the last command, unless the number of commands would exceed 64 bits.
fn serve_next<A: CountedWrite, C: CountedWrite + Drop>(
    session: &mut RunState<C>,
    answers: &mut A,
    command: Command<'_>,
) -> Result<(), RunFault>
    requires goes_on { RunInvariant session.old }
    requires whole { RepresentsSomeCommand command }
    ensures served { (c : Spelled) → RepresentsCommand command.entry c
        → OnOk result (CommandServed session.old session.new c (A.seen answers.old) (A.seen answers.new)) }
    ensures stops { (c : Spelled) → RepresentsCommand command.entry c → (left : Reading)
        → StopsInScript result session.old session.new (prepend_commands (c ∷ []) left) (A.seen answers.old)
        (A.seen answers.new) }
    ensures cause { (c : Spelled) → RepresentsCommand command.entry c → (left : Reading)
        → IsCausedByScript result session.old session.new (prepend_commands (c ∷ []) left) }
    ensures written { WritesBoth result (A.seen answers.old) (A.seen answers.new) session.old.solver
        session.new.solver }
{
    if session.commands == u64::MAX {
        return Err(RunFault::CounterEnd);
    }
    serve_command(session, answers, command)
}

/// Writes the line that says that the text is malformed at command `number`.
fn report_malformed<A: CountedWrite, C: CountedWrite + Drop>(
    session: &mut RunState<C>,
    answers: &mut A,
    number: u64,
) -> Result<(), RunFault>
    ensures takes { OnOk result (WriterAccepts (A.seen answers.old) (A.seen answers.new) (malformed_line number)) }
    ensures same { session.new ≡ record session.old { page = session.new.page } }
    ensures stops { (j : ScriptState) → OnErr result
        (StopsServing session.old.budget (record (run_place session.old j) { number = number }) ([], Malformed)
        session.new.solver.steps (A.seen answers.old) (A.seen answers.new)) }
    ensures cause { IfErr result (λ e. IsCaused e ⊥ ⊥) }
    ensures written { WritesBoth result (A.seen answers.old) (A.seen answers.new) session.old.solver
        session.new.solver }
{
    session.page.text.clear();
    push_malformed(&mut session.page.text, number)?;
    write_answer(answers, &session.page.text)
}

/// Serves the end of a script. Returns the number of the command at which it is malformed, or `None`.
fn serve_end<A: CountedWrite, C: CountedWrite + Drop>(
    session: &mut RunState<C>,
    answers: &mut A,
    end: ScriptEnd,
) -> Result<Option<u64>, RunFault>
    requires { RunInvariant session.old }
    ensures serves { (j : ScriptState) → HasStateBetweenCommands session.old j
        → IfOk result (λ at. ServesWholeScript j (end_reading end) 0 at session.old session.new (A.seen answers.old)
        (A.seen answers.new)) }
    ensures stops { StopsInScript result session.old session.new (end_reading end) (A.seen answers.old) (A.seen answers.new) }
    ensures cause { IsCausedByScript result session.old session.new (end_reading end) }
    ensures ready { OnOk result (IsReadySolver session.new.solver) }
    ensures written { WritesBoth result (A.seen answers.old) (A.seen answers.new) session.old.solver
        session.new.solver }
{
    match end {
        ScriptEnd::Clean => Ok(None),
        ScriptEnd::Asked => {
            answer_ask(session, answers, &[])?;
            Ok(None)
        }
        ScriptEnd::Malformed => {
            let Some(number) = session.commands.checked_add(1) else {
                return Err(RunFault::CounterEnd);
            };
            report_malformed(session, answers, number)?;
            Ok(Some(number))
        }
    }
}

/// Serves the last command, and then the end of the script. Returns the number of the command at which the script is
/// malformed, or `None`.
fn serve_last<A: CountedWrite, C: CountedWrite + Drop>(
    session: &mut RunState<C>,
    answers: &mut A,
    command: Command<'_>,
    end: ScriptEnd,
) -> Result<Option<u64>, RunFault>
    requires goes_on { RunInvariant session.old }
    requires whole { RepresentsSomeCommand command }
    ensures serves { (c : Spelled) → RepresentsCommand command.entry c → (j : ScriptState) → HasStateBetweenCommands session.old j
        → IfOk result (λ at. ServesWholeScript j (prepend_commands (c ∷ []) (end_reading end)) 1 at session.old
        session.new (A.seen answers.old) (A.seen answers.new)) }
    ensures stops { (c : Spelled) → RepresentsCommand command.entry c
        → StopsInScript result session.old session.new (prepend_commands (c ∷ []) (end_reading end)) (A.seen answers.old)
        (A.seen answers.new) }
    ensures cause { (c : Spelled) → RepresentsCommand command.entry c
        → IsCausedByScript result session.old session.new (prepend_commands (c ∷ []) (end_reading end)) }
    ensures ready { OnOk result (IsReadySolver session.new.solver) }
    ensures written { WritesBoth result (A.seen answers.old) (A.seen answers.new) session.old.solver
        session.new.solver }
{
    serve_next(session, answers, command)?;
    serve_end(session, answers, end)
}

/// Serves all commands, and then the end of the script. Returns the number of the command at which the script is
/// malformed, or `None`.
pub(crate) fn serve_all<S: CountedRead, A: CountedWrite, C: CountedWrite + Drop>(
    session: &mut RunState<C>,
    stream: &mut CommandStream,
    script: &mut S,
    answers: &mut A,
) -> Result<Option<u64>, RunFault>
    requires goes_on { RunInvariant session.old }
    requires at { HasStateBetweenCommands session.old initial_state }
    requires open_yet { IsNotAtEnd (source_in S.seen script.old stream.old.ahead) }
    requires means { ReaderMeans stream.old.reader reading }
    requires counts { ReaderMeansIf false stream.old.reader plain_reading }
    ensures serves { ServesScript initial_state reading plain_reading result
        (source_in S.seen script.old stream.old.ahead) (source_in S.seen script.new stream.new.ahead) session.old
        session.new (A.seen answers.old) (A.seen answers.new) }
    ensures stops { KeepsAccount (λ at. AccountsForBytes) result (source_in S.seen script.old stream.old.ahead)
        (source_in S.seen script.new stream.new.ahead) stream.old.reader stream.new.reader }
{
    loop {
        let next = match stream.next(script) {
            Ok(next) => next,
            Err(error) => return Err(script_read_fault(error)),
        };
        match next {
            Next::Command => serve_next(session, answers, stream.command())?,
            Next::Last(end) => return serve_last(session, answers, stream.command(), end),
            Next::End(end) => return serve_end(session, answers, end),
        }
    }
}
