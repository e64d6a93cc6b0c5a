//! Refuses commands.
ghost use Rattle.std.specs.Prelude.{◌+◌, ◌<◌, ◌≡◌, ◌∷◌, [], Some, IfErr, OnErr, OnOk};
ghost use Rattle.sat_base.specs.script.ScriptState.{ScriptState, refusal_of};
ghost use Rattle.sat_base.specs.script.Language.{Reading, prepend_commands};
ghost use Rattle.sat_base.specs.script.Script.{Command as Spelled};
ghost use Rattle.certify.specs.run.Stopping.{StopsServing};
ghost use Rattle.certify.specs.refusals.Names.{refusal_of_code};
ghost use Rattle.certify.specs.run.SolverCalls.{IsCaused};
ghost use Rattle.certify.specs.run.BetweenCommands.{CommandRefused, WritesBoth, place_before_latest};

use super::session::RunState;
use super::write::write_answer;
use crate::answers::refused::push_refused;
use crate::fault::RunFault;
use crate::refusals::Refusal;
use sat_base::CountedWrite;

/// Counts a refusal of the last command, and writes the line that reports it. Does not call the solver.
pub fn refuse<A: CountedWrite, C: CountedWrite + Drop>(
    session: &mut RunState<C>,
    answers: &mut A,
    refusal: Refusal,
) -> Result<(), RunFault>
    requires { session.old.refused < session.old.commands }
    ensures refused { OnOk result (CommandRefused session.old session.new (refusal_of_code refusal) (A.seen answers.old)
        (A.seen answers.new)) }
    ensures stops { (j : ScriptState) (c : Spelled) (left : Reading) → refusal_of j c ≡ Some (refusal_of_code refusal)
        → OnErr result (StopsServing session.old.budget (place_before_latest session.old j) (prepend_commands (c ∷ []) left)
        session.new.solver.steps (A.seen answers.old) (A.seen answers.new)) }
    // A refusal stores no clause, and introduces no name.
    ensures cause { IfErr result (λ e. IsCaused e ⊥ ⊥) }
    ensures written { WritesBoth result (A.seen answers.old) (A.seen answers.new) session.old.solver
        session.new.solver }
{
    session.refused += 1;
    session.page.text.clear();
    push_refused(&mut session.page.text, session.commands, refusal)?;
    write_answer(answers, &session.page.text)
}
