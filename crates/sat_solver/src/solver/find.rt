//! Runs rounds until there is an answer, and writes the step for the answer.
ghost use Rattle.std.specs.Prelude.{◌≡◌, ◌<◌, IfOk, IfErr};
ghost use Rattle.sat_solver.specs.schedule.Counting.{AnswersWithin, RoundsAreBounded, NoAnswerTakesRounds};
ghost use Rattle.sat_solver.specs.schedule.Counting.{AnswerTakesRound};
ghost use Rattle.sat_solver.specs.schedule.Counting.{round_allowance};
ghost use Rattle.sat_solver.specs.schedule.Solving.{search_var_count};
ghost use Rattle.sat_solver.specs.solver.Joined.{NamesSearchInvariant};
ghost use Rattle.sat_solver.specs.solver.Answering.{CallFailsWithStoredError};
ghost use Rattle.sat_solver.specs.solver.Found.{ScheduleFindsAnswer, OutcomeHolds, SearchedBy, ReportsOutcome};
ghost use Rattle.sat_solver.specs.solver.Found.{state_found};

use crate::cdcl::fault::Fault;
use crate::context::Context;
use crate::schedule::restarts::Restarts;
use crate::schedule::{RoundOutcome, search};
use crate::solver::report::{write_failed_core, write_model};
use crate::state::SatState;
use crate::variables::Variables;
use sat_base::{CountedWrite, Lit};
use sat_checker::ProofProcessor;

/// The last answers: a model over proof variables, and a failed core over names.
#[derive(Drop)]
pub struct LastAnswers {
    pub model: Vec<Lit>,
    pub failed_core: Vec<Lit>,
}

/// The number of rounds so far, and when restarts are due.
#[derive(Drop)]
pub struct Schedule {
    pub restarts: Restarts,
    pub rounds: u64,
}

/// Writes the step for a model or a failed core, and stores the answer in `reported`. Returns the state that follows
/// from `outcome`, or `None` if `outcome` is not an answer.
fn report<W: CountedWrite + Drop, P: ProofProcessor>(
    context: &mut Context<W, P>,
    names: &Variables,
    reported: &mut LastAnswers,
    outcome: RoundOutcome,
) -> Result<Option<SatState>, Fault>
    requires { OutcomeHolds outcome names.now context.old }
    ensures { ReportsOutcome W.seen result outcome names.now context.old context.new reported.new.failed_core.items }
{
    match outcome {
        RoundOutcome::Learned => Ok(None),
        RoundOutcome::Model => {
            write_model(context, names, &mut reported.model)?;
            Ok(Some(SatState::Sat))
        }
        RoundOutcome::Failed => {
            write_failed_core(context, names, &mut reported.failed_core)?;
            Ok(Some(SatState::UnsatUnderAssumptions))
        }
        RoundOutcome::Unsat => Ok(Some(SatState::Unsat)),
    }
}

/// Runs rounds until there is an answer, but at most as many as the parameters allow, and writes the step for the
/// answer. Returns the state that follows from the answer, or `None` if there is no answer.
pub fn find_answer<W: CountedWrite + Drop, P: ProofProcessor>(
    context: &mut Context<W, P>,
    names: &mut Variables,
    reported: &mut LastAnswers,
    clock: &mut Schedule,
) -> Result<Option<SatState>, Fault>
    requires joined { NamesSearchInvariant names.old context.old }
    requires scale { 0 < clock.old.restarts.scale }
    ensures scale { clock.new.restarts.scale ≡ clock.old.restarts.scale }
    ensures counts { RoundsAreBounded (search_var_count context.old) context.old.config.max_steps clock.old.rounds clock.new.rounds }
    ensures round { AnswerTakesRound result clock.old.rounds clock.new.rounds }
    ensures interrupted { NoAnswerTakesRounds result (round_allowance context.old.config.max_steps clock.old.rounds) clock.old.rounds
        clock.new.rounds }
    ensures answered { AnswersWithin result (search_var_count context.old)
        (round_allowance context.old.config.max_steps clock.old.rounds) }
    ensures finds { IfOk result (λ r. ScheduleFindsAnswer W.seen r clock.old clock.new names.old names.new context.old context.new
        reported.new) }
    ensures searched { IfOk result (λ r. SearchedBy W.seen (state_found r) clock.old clock.new names.old names.new
        context.old context.new reported.new.failed_core.items) }
    ensures breaks { IfErr result (λ e. CallFailsWithStoredError W.seen e context.old context.new) }
{
    let max_steps = context.config.max_steps;
    let found = search(
        context,
        names,
        &mut clock.restarts,
        &mut clock.rounds,
        max_steps,
    )?;
    match found {
        None => Ok(None),
        Some(outcome) => report(context, names, reported, outcome),
    }
}
