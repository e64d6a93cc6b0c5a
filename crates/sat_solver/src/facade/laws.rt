//! Laws about solvers. Each law is the contract of a function that does nothing.
ghost use Rattle.std.specs.Prelude.{◌≡◌, false, []};
ghost use Rattle.sat_solver.specs.facade.Answers.{is_unsat};
ghost use Rattle.sat_solver.specs.facade.Laws.{CallsReachBySteps, FlushedIsText, ReachingAddsUp};
ghost use Rattle.sat_solver.specs.facade.Recording.{RecordsAnswer};
ghost use Rattle.sat_solver.specs.facade.States.{MatchesState};
ghost use Rattle.sat_solver.specs.session.Session.{AreAllowedSteps};

use crate::facade::Solver;
use crate::state::SatState;
use sat_base::CountedWrite;
use sat_checker::ProofProcessor;

/// States that a call only appends steps, and that the target receives only their text, whatever the call returns.
pub fn calls_go_on<W: CountedWrite + Drop, P: ProofProcessor>(
    _old: &Solver<W, P>,
    _new: &Solver<W, P>,
)
    ensures { CallsReachBySteps _old.now _new.now }
{}

/// States that calls made one after another only append steps, as each of them does, so that the law `calls_go_on`
/// extends to any number of calls.
pub fn steps_add_up<P: ProofProcessor>()
    ensures { ReachingAddsUp P }
{}

/// States that the names and the steps of a solver that has not failed agree with its script state, and that its own
/// checker has missed no step.
pub fn solvers_are_judged<W: CountedWrite + Drop, P: ProofProcessor>(solver: &Solver<W, P>)
    ensures judged { solver.now.failed ≡ false → MatchesState solver.now }
    ensures checked { solver.now.failed ≡ false → solver.now.lost ≡ false }
{
    // The invariant of the fields says so.
    let _ = &solver.inner;
}

/// States that every step of a solver was allowed when it was made, even if a call has failed. If no call has failed,
/// the steps record unsat exactly if the answer is `Unsat`.
pub fn steps_record_answers<W: CountedWrite + Drop, P: ProofProcessor>(solver: &Solver<W, P>)
    ensures allowed { ∥ AreAllowedSteps solver.now.steps ∥₁ }
    ensures records { solver.now.failed ≡ false → RecordsAnswer solver.now }
{
    // The fields say so.
    let _ = &solver.inner;
}

/// States that if `solve` returned false and there are no assumptions, the clauses alone are known to be unsatisfiable:
/// the answer is `Unsat`, not `UnsatUnderAssumptions`.
pub fn unsat_without_assumptions<W: CountedWrite + Drop, P: ProofProcessor>(solver: &Solver<W, P>)
    ensures { solver.now.failed ≡ false → solver.now.assumptions ≡ [] → is_unsat solver.now.answer
        → solver.now.answer ≡ SatState.Unsat }
{
    // The invariant of the fields says so.
    let _ = &solver.inner;
}

/// States that a flushed target has received the text of all steps since it was opened, if all calls to it succeeded.
pub fn flushed_targets_took_texts()
    ensures { FlushedIsText }
{}
