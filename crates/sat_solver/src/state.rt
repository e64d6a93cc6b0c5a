//! What a solver knows about its clauses and assumptions.

/// What a solver knows about its clauses and assumptions.
#[derive(Clone, Copy, Debug, Drop, PartialEq, Eq)]
pub enum SatState {
    Unknown,
    /// The last model satisfies the clauses and the assumptions.
    Sat,
    /// The assumptions contradict the clauses.
    UnsatUnderAssumptions,
    /// The clauses alone are unsatisfiable.
    Unsat,
}

impl Default for SatState {
    ghost use Rattle.std.specs.Prelude.{◌≡◌};
    ghost use Rattle.sat_solver.specs.declared.state.SatState.TheVariants.{Unknown};

    ghost is_default = { λ s. s ≡ Unknown };

    /// Returns the state of a solver that has no answer yet.
    fn default() -> SatState {
        SatState::Unknown
    }
}
