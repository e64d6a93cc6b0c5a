//! The notes on a walk, which are complete even if memory ran out for a note. Only contracts see them: they are
//! zero-sized, and their functions do nothing at run time.
ghost use Rattle.std.specs.Prelude.{◌≡◌, ◌++◌, ◌∷◌, [], List};
ghost use Rattle.std.specs.Borrow.{ftrue};
ghost use Rattle.sat_checker.specs.declared.rup.passed.Reason.{Reason};

use std::marker::Model;

/// All reasons in the order in which they were noted.
#[derive(Drop)]
pub(crate) struct Noted {
    pub ghost reasons: { List Reason },
}

impl Model for Noted {
    ghost also_owns = { λ _. ftrue };
}

impl Noted {
    /// Creates notes that contain no reasons.
    pub(crate) fn new() -> Noted
        ensures { result.reasons ≡ [] }
    {
        Noted {}
    }

    /// Returns the notes with a reason appended.
    pub(crate) fn and(&self, _place: usize, _code: usize) -> Noted
        ensures { result.reasons ≡ self.now.reasons ++ (record { place = _place; lit = _code }) ∷ [] }
    {
        Noted {}
    }
}
