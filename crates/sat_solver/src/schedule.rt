//! Rounds, with restarts between them.
ghost use Rattle.std.specs.Prelude.{◌≡◌, ◌+◌, ◌-◌, ◌^◌, ◌<◌, IfOk, IfErr, None};
ghost use Rattle.sat_solver.specs.schedule.Climbing.{KeepsProgress};
ghost use Rattle.sat_solver.specs.schedule.Counting.{AnswersWithin, RoundsAreBounded, NoAnswerTakesRounds};
ghost use Rattle.sat_solver.specs.schedule.Counting.{AnswerTakesRound};
ghost use Rattle.sat_solver.specs.schedule.Counting.{round_allowance};
ghost use Rattle.sat_solver.specs.schedule.Rounds.{LastRoundAnswers, RestartsWhereDue};
ghost use Rattle.sat_solver.specs.schedule.Solving.{IsWordOf, search_var_count, ContextInvariant};
ghost use Rattle.sat_solver.specs.schedule.Solving.{ReachedByAsManyRounds};
ghost use Rattle.sat_solver.specs.schedule.Solving.{AskEndsWithin};
ghost use Rattle.sat_solver.specs.schedule.Solving.{SearchFails};
ghost use Rattle.sat_solver.specs.schedule.Solving.{Restarted, ReducedAt, RoundOf};
ghost use Rattle.sat_solver.specs.solver.Found.{NoAnswerFound};
ghost use Rattle.sat_solver.specs.solver.Joined.{NamesSearchInvariant, KeepsNamesSearchInvariant};

pub mod restarts;

use crate::cdcl::conflict_step;
use crate::cdcl::fault::Fault;
use crate::clause::reduce::reduce;
use crate::context::Context;
use crate::schedule::restarts::{Restarts, begin_gap};
use crate::variables::Variables;
use sat_base::CountedWrite;
use sat_checker::ProofProcessor;
use sat_parts::parts::assumptions::restart;

/// The outcome of a round.
#[derive(Clone, Copy, Debug, Drop, PartialEq, Eq)]
pub enum RoundOutcome {
    /// A clause was learned from a conflict.
    Learned,
    Model,
    Unsat,
    /// An assumption is false.
    Failed,
}

impl RoundOutcome {
    ghost use Rattle.std.specs.Prelude.{◌≡◌, ◌↔◌, IsTrue};

    /// Returns `true` if a clause was learned.
    fn is_learned(self) -> bool
        ensures { IsTrue result ↔ (self ≡ RoundOutcome.Learned) }
    {
        match self {
            RoundOutcome::Learned => true,
            RoundOutcome::Model => false,
            RoundOutcome::Unsat => false,
            RoundOutcome::Failed => false,
        }
    }
}

/// Restarts the search if a restart is due before round `round`.
fn restart_where_due<W: CountedWrite + Drop, P: ProofProcessor>(
    context: &mut Context<W, P>,
    restarts: &mut Restarts,
    round: u64,
)
    requires core { ContextInvariant context.old }
    requires scale { 0 < restarts.old.scale }
    requires counts { round + 1 < 2 ^ 64 }
    ensures joined { KeepsNamesSearchInvariant context.old context.new }
    ensures scale { restarts.new.scale ≡ restarts.old.scale }
    ensures most { search_var_count context.new ≡ search_var_count context.old }
    ensures come { KeepsProgress IsWordOf round context.old restarts.old.next restarts.old.sequence
        context.new restarts.new.next restarts.new.sequence }
    ensures goes { ReachedByAsManyRounds W.seen context.old context.new }
    ensures due { RestartsWhereDue Restarted round context.old restarts.old context.new restarts.new }
{
    if round < restarts.next {
        return;
    }
    restart(&mut context.search.parts, &context.search.assumptions);
    begin_gap(restarts, round);
}

/// Runs rounds until there is an answer, but at most `max_steps` rounds. Returns the answer, or `None` if there
/// is none.
///
/// Counts the rounds in `rounds`, the number of rounds over all calls. No round is run once this number has
/// reached 2^64-1.
pub fn search<W: CountedWrite + Drop, P: ProofProcessor>(
    context: &mut Context<W, P>,
    names: &mut Variables,
    restarts: &mut Restarts,
    rounds: &mut u64,
    max_steps: u64,
) -> Result<Option<RoundOutcome>, Fault>
    requires joined { NamesSearchInvariant names.old context.old }
    requires scale { 0 < restarts.old.scale }
    ensures scale { restarts.new.scale ≡ restarts.old.scale }
    ensures counts { RoundsAreBounded (search_var_count context.old) max_steps rounds.old rounds.new }
    ensures round { AnswerTakesRound result rounds.old rounds.new }
    ensures interrupted { NoAnswerTakesRounds result (round_allowance max_steps rounds.old) rounds.old rounds.new }
    ensures answered { AnswersWithin result (search_var_count context.old) (round_allowance max_steps rounds.old) }
    ensures goes { IfOk result (λ r. r ≡ None
        → NoAnswerFound W.seen (rounds.new - rounds.old) names.old names.new context.old context.new) }
    ensures ends { IfOk result (λ r. AskEndsWithin W.seen (rounds.new - rounds.old) r context.old names.old context.new names.new) }
    ensures rounds { IfOk result (λ o. LastRoundAnswers Restarted (ReducedAt W.seen) (RoundOf W.seen) o context.old names.old
        restarts.old rounds.old context.new names.new restarts.new rounds.new) }
    ensures fails { IfErr result (λ e. SearchFails W.seen context.old e context.new) }
{
    let end = rounds.saturating_add(max_steps);
    while *rounds < end {
        restart_where_due(context, restarts, *rounds);
        reduce(
            &mut context.proof,
            &mut context.search,
            &context.config,
            *rounds,
        )?;
        let outcome = conflict_step(&mut context.proof, &mut context.search, names)?;
        *rounds += 1;
        if !outcome.is_learned() {
            return Ok(Some(outcome));
        }
    }
    Ok(None)
}
