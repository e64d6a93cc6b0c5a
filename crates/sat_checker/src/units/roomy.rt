//! The literals for which there is room, which only contracts see. The list is zero-sized, and its functions do nothing
//! at run time.
ghost use Rattle.std.specs.Prelude.{ℕ, ◌≡◌, ◌∷◌, [], List};
ghost use Rattle.std.specs.Borrow.{ftrue};

use std::marker::Model;

/// The literals for which there is room, without repeats.
#[derive(Drop)]
pub(crate) struct Roomy {
    pub ghost literals: { List ℕ },
}

impl Model for Roomy {
    ghost also_owns = { λ _. ftrue };
}

impl Roomy {
    /// Creates an empty list of literals.
    pub(crate) fn new() -> Roomy
        ensures { result.literals ≡ [] }
    {
        Roomy {}
    }

    /// Returns the list with the literal `_code` added.
    pub(crate) fn and(&self, _code: usize) -> Roomy
        ensures { result.literals ≡ _code ∷ self.now.literals }
    {
        Roomy {}
    }
}
