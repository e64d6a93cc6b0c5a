//! Laws about trails. Each law is the contract of a function that does nothing.
ghost use Rattle.sat_solver.specs.session.AnswerFacts.{CompleteIsModel};
ghost use Rattle.sat_solver.specs.session.TrailUnits.{TrailUnitsAreAllowed};

/// States that every live clause has a true literal if no clause is falsified or unit and all literals of the clauses
/// have values.
pub fn complete_is_model()
    ensures { CompleteIsModel }
{}

/// States that the units of a trail at level 0 may be written in the order of the trail.
pub fn trail_units_are_allowed()
    ensures { TrailUnitsAreAllowed }
{}
