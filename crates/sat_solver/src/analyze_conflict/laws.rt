//! Laws about conflict analysis. Each law is the contract of a function that does nothing.
ghost use Rattle.sat_solver.specs.analyze_conflict.Empowering.{LearnedIsEmpowering};

/// States that a learned clause is new. If all its literals but the first are assumed to be false, unit propagation
/// with the units and the stored clauses neither assigns its first literal nor falsifies a clause.
pub fn learned_is_empowering()
    ensures { LearnedIsEmpowering }
{}
