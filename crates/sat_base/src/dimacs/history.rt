//! The history of a parser: a zero-sized value that only contracts see, whose functions do nothing at run time.
ghost use Rattle.std.specs.Prelude.{◌≡◌, ◌++◌, ◌∷◌, [], ℕ, List};
ghost use Rattle.std.specs.Borrow.{ftrue};

use crate::CnfFormula;
use std::marker::Model;

/// The bytes that were fed to a parser, and the clauses that were taken from it.
#[derive(Drop)]
pub(crate) struct History {
    pub ghost fed: { List ℕ },
    pub ghost taken: { List (List ℕ) },
}

impl Model for History {
    ghost also_owns = { λ _. ftrue };
}

impl History {
    /// Returns the history of a new parser.
    pub(crate) fn new() -> History
        ensures { (result.fed ≡ []) × (result.taken ≡ []) }
    {
        History {}
    }

    /// Returns the history after one more byte.
    pub(crate) fn and_byte(&self, byte: u8) -> History
        ensures { (result.fed ≡ self.now.fed ++ byte ∷ []) × (result.taken ≡ self.now.taken) }
    {
        History {}
    }

    /// Returns the history after the clauses of a formula were taken.
    pub(crate) fn and_clauses(&self, formula: &CnfFormula) -> History
        ensures { (result.fed ≡ self.now.fed) × (result.taken ≡ self.now.taken ++ formula.now.clauses) }
    {
        History {}
    }
}
