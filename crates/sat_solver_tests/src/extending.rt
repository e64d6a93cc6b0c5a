//! Tests of a solver that is filled by code which knows only the trait `ExtendFormula`.

use crate::driver::{Play, result_of};
use sat_base::{CountedWrite, ExtendFormula, Lit};
use sat_solver::{Solver, SolverError};
use std::alloc::Global;

/// Adds a unit clause of a new literal, and returns the literal.
fn add_unit<F: ExtendFormula>(formula: &mut F) -> Result<Lit, F::Error>
    requires { F.ready formula.old }
    ensures { F.ready formula.new }
{
    let lit = formula.new_lit()?;
    formula.add_clause(&[lit])?;
    Ok(lit)
}

/// Returns `true` if the model consists of the two literals `wanted`.
fn is_model<W: CountedWrite + Drop>(
    solver: &Solver<W>,
    wanted: [Lit; 2],
) -> Result<bool, SolverError> {
    match solver.model()? {
        Some(lits) => Ok(lits.as_slice() == wanted.as_slice()),
        None => Ok(false),
    }
}

/// A play that adds two new literals as unit clauses, and checks that a model has both.
#[derive(Drop)]
struct Units;

impl<W: CountedWrite + Drop> Play<Solver<W>, Result<bool, SolverError>> for Units {
    fn play(self, _alloc: Global, solver: &mut Solver<W>) -> Result<bool, SolverError> {
        let one = add_unit(solver)?;
        let two = add_unit(solver)?;
        let sat = solver.solve()?;
        Ok(is_model(solver, [one, two])? && sat)
    }
}

#[test]
fn a_solver_is_extended(rt: HostRuntime) {
    match result_of(rt.alloc(), Units) {
        Ok(right) => assert!(rt; right),
        Err(_) => assert!(rt; false),
    }
}
