//! Laws about what a search may write. Each law is the contract of a function that does nothing.
ghost use Rattle.sat_solver.specs.session.Empowering.{LearnedIsEmpoweringInSession};
ghost use Rattle.sat_solver.specs.session.MatchingLaws.{LearnedIsAllowed, ModelIsAllowed, LearnedIsNew, EmptyMatches};

/// States that the step that derives a learned clause may be written.
pub fn learned_is_allowed()
    ensures { LearnedIsAllowed }
{}

/// States that the true literals may be written as a model if all variables are assigned.
pub fn model_is_allowed()
    ensures { ModelIsAllowed }
{}

/// States that a learned clause is new. If all its literals but the first are assumed to be false, unit propagation
/// with the units and the stored clauses neither assigns its first literal nor falsifies a clause.
pub fn learned_is_new()
    ensures { LearnedIsNew }
{}

/// States that the empty session matches parts without variables.
pub fn empty_matches()
    ensures { EmptyMatches }
{}

/// States that a learned clause is empowering in the session: if all its literals but the first are assumed to be
/// false, unit propagation with the session's units and clauses neither assigns its first literal nor falsifies a
/// clause.
pub fn learned_is_empowering_in()
    ensures { LearnedIsEmpoweringInSession }
{}
