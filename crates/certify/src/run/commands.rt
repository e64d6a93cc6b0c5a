//! Serves commands.
ghost use Rattle.std.specs.Prelude.{◌≡◌, ◌<◌, ◌-◌, ◌^◌, ◌∷◌, [], false, OnOk};
ghost use Rattle.sat_base.specs.script.Language.{Reading, prepend_commands};
ghost use Rattle.sat_base.specs.script.Script.{Command as Spelled};
ghost use Rattle.sat_base.specs.script.ScriptState.{ScriptState, state_after_accepted};
ghost use Rattle.certify.specs.refusals.Names.{NamesHaveState};
ghost use Rattle.certify.specs.script.Commands.{RepresentsCommand, RepresentsSomeCommand};
ghost use Rattle.certify.specs.run.BetweenCommands.{NamesAcceptCommand, CommandCarriedOut, IsCausedByCommand};
ghost use Rattle.certify.specs.run.BetweenCommands.{IsCausedByScript, RunInvariant};
ghost use Rattle.certify.specs.run.BetweenCommands.{CommandServed};
ghost use Rattle.certify.specs.run.BetweenCommands.{StopsInCommand, StopsInScript, WritesBoth, command_of_lent};

use super::ask::answer_ask;
use super::names::set_names;
use super::refuse::refuse;
use super::session::RunState;
use super::solver::add_clause;
use crate::fault::RunFault;
use crate::refusals::NameState;
use crate::script::{Command, CommandKind};
use sat_base::CountedWrite;

/// Makes the solver carry out the last command, which must not be refused. If the command is an ask, writes the answer.
fn carry_out<A: CountedWrite, C: CountedWrite + Drop>(
    session: &mut RunState<C>,
    answers: &mut A,
    command: Command<'_>,
) -> Result<(), RunFault>
    requires goes_on { RunInvariant session.old }
    requires allowed { NamesAcceptCommand session.old.names (command_of_lent command) }
    ensures carried { OnOk result (CommandCarriedOut session.old session.new (command_of_lent command.entry)
        (A.seen answers.old) (A.seen answers.new)) }
    ensures stops { (left : Reading)
        → StopsInCommand result session.old session.new (command_of_lent command.entry) left (A.seen answers.old)
        (A.seen answers.new) }
    ensures cause { IsCausedByCommand result session.old session.new (command_of_lent command.entry) }
    ensures names { session.new.names ≡ session.old.names }
    ensures written { WritesBoth result (A.seen answers.old) (A.seen answers.new) session.old.solver
        session.new.solver }
{
    match command.kind {
        CommandKind::Clause => add_clause(&mut session.solver, command.literals),
        CommandKind::Ask => answer_ask(session, answers, command.literals),
        CommandKind::Hide => set_names(&mut session.solver, command.literals, NameState::Hidden),
        CommandKind::Witness => {
            set_names(&mut session.solver, command.literals, NameState::Witnessed)
        }
        CommandKind::Sample => set_names(&mut session.solver, command.literals, NameState::Sampled),
    }
}

/// Serves the last command, which must not be refused.
fn serve_allowed<A: CountedWrite, C: CountedWrite + Drop>(
    session: &mut RunState<C>,
    answers: &mut A,
    command: Command<'_>,
) -> Result<(), RunFault>
    requires goes_on { RunInvariant session.old }
    requires allowed { NamesAcceptCommand session.old.names (command_of_lent command) }
    requires within { command.past_limit ≡ false }
    ensures carried { OnOk result (CommandCarriedOut session.old session.new (command_of_lent command.entry)
        (A.seen answers.old) (A.seen answers.new)) }
    ensures stops { (left : Reading)
        → StopsInCommand result session.old session.new (command_of_lent command.entry) left (A.seen answers.old)
        (A.seen answers.new) }
    ensures cause { IsCausedByCommand result session.old session.new (command_of_lent command.entry) }
    ensures names { OnOk result ((j : ScriptState) (c : Spelled) → NamesHaveState session.old.names j → RepresentsCommand command.entry c
        → NamesHaveState session.new.names (state_after_accepted c j)) }
    ensures written { WritesBoth result (A.seen answers.old) (A.seen answers.new) session.old.solver
        session.new.solver }
{
    carry_out(session, answers, command)?;
    session.names.accept(command)?;
    Ok(())
}

/// Serves a command: refuses it, or carries it out. If it is an ask that is not refused, writes the answer.
pub fn serve_command<A: CountedWrite, C: CountedWrite + Drop>(
    session: &mut RunState<C>,
    answers: &mut A,
    command: Command<'_>,
) -> Result<(), RunFault>
    requires goes_on { RunInvariant session.old }
    requires few { session.old.commands < 2 ^ 64 - 1 }
    requires whole { RepresentsSomeCommand command }
    ensures served { (c : Spelled) → RepresentsCommand command.entry c
        → OnOk result (CommandServed session.old session.new c (A.seen answers.old) (A.seen answers.new)) }
    ensures stops { (c : Spelled) → RepresentsCommand command.entry c → (left : Reading)
        → StopsInScript result session.old session.new (prepend_commands (c ∷ []) left) (A.seen answers.old)
        (A.seen answers.new) }
    ensures cause { (c : Spelled) → RepresentsCommand command.entry c → (left : Reading)
        → IsCausedByScript result session.old session.new (prepend_commands (c ∷ []) left) }
    ensures written { WritesBoth result (A.seen answers.old) (A.seen answers.new) session.old.solver
        session.new.solver }
{
    session.commands += 1;
    match session.names.refusal(command) {
        Some(refusal) => refuse(session, answers, refusal),
        None => serve_allowed(session, answers, command),
    }
}
