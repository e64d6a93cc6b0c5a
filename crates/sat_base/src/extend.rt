//! A trait for types that clauses and variables can be added to.
ghost use Rattle.std.specs.Prelude.{◌≡◌, ℕ, List, true, MatchResult};
ghost use Rattle.sat_base.specs.values.Literals.{mk_lit};

use crate::{Lit, Var};

/// A formula to which clauses and variables can be added, or an owner of such a formula, such as a solver. Every
/// implementation defines relations that specify the effects of its methods. In these relations, a clause is a list of
/// literal codes, and a variable is an index.
pub trait ExtendFormula {
    /// Why a clause was not added, or no variable was returned.
    type Error;

    /// The invariant between calls. Every call preserves the invariant, whatever the call returns.
    ghost ready: { Self → Type 0 };

    /// Relates the states before and after a clause is added.
    ghost adds: { Self → List ℕ → Self → Type 0 };

    /// Relates the states before and after a clause is refused with an error.
    ghost refuses_clause: { Self → List ℕ → Self.Error → Self → Type 0 };

    /// Relates the states before and after a new variable is returned.
    ghost makes: { Self → ℕ → Self → Type 0 };

    /// Relates the states before and after an error is returned instead of a new variable.
    ghost refuses_variable: { Self → Self.Error → Self → Type 0 };

    /// Adds a clause.
    fn add_clause(&mut self, lits: &[Lit]) -> Result<(), Self::Error>
        requires { ready self.old }
        ensures ready { ready self.new }
        ensures adds { MatchResult result (λ _. adds self.old lits.now self.new)
            (λ e. refuses_clause self.old lits.now e self.new) };

    /// Returns a new variable.
    fn new_var(&mut self) -> Result<Var, Self::Error>
        requires { ready self.old }
        ensures ready { ready self.new }
        ensures makes { MatchResult result (λ v. makes self.old v self.new) (λ e. refuses_variable self.old e self.new) };

    /// Returns the positive literal of a new variable.
    fn new_lit(&mut self) -> Result<Lit, Self::Error>
        requires { ready self.old }
        ensures ready { ready self.new }
        ensures makes { MatchResult result (λ l. (v : ℕ) × makes self.old v self.new × (l ≡ mk_lit v true))
            (λ e. refuses_variable self.old e self.new) }
    {
        match self.new_var() {
            Ok(var) => Ok(var.positive()),
            Err(e) => Err(e),
        }
    }
}
