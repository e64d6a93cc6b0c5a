//! Errors in adding clauses and variables to formulas.

use std::alloc::AllocError;
use thiserror::Error;

/// Why no clause or variable was added to a formula.
#[derive(Clone, Copy, Debug, Drop, PartialEq, Eq, Error)]
pub enum FormulaError {
    /// All 2^28 variables are in use.
    #[error("no variable is left")]
    VariableLimit,
    #[error("out of memory")]
    OutOfMemory,
}

impl From<AllocError> for FormulaError {
    ghost use Rattle.std.specs.Prelude.{◌≡◌};
    ghost use Rattle.sat_base.specs.declared.formula.error.FormulaError.TheVariants.{OutOfMemory};

    ghost from_gives = { λ _ e. e ≡ OutOfMemory };

    fn from(_e: AllocError) -> FormulaError {
        FormulaError::OutOfMemory
    }
}
