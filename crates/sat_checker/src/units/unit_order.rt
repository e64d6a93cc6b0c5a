//! The order in which units were stored, which only contracts see. The list is zero-sized, and its functions do nothing
//! at run time.
ghost use Rattle.std.specs.Prelude.{◌≡◌, ◌++◌, ◌∷◌, [], List, filter, not, ◌==◌};
ghost use Rattle.std.specs.Borrow.{ftrue};
ghost use Rattle.sat_checker.specs.Stored.{StoredUnit};

use std::marker::Model;

/// The stored units, oldest first.
#[derive(Drop)]
pub(crate) struct UnitOrder {
    pub ghost units: { List StoredUnit },
}

impl Model for UnitOrder {
    ghost also_owns = { λ _. ftrue };
}

impl UnitOrder {
    /// Creates an empty list of units.
    pub(crate) fn new() -> UnitOrder
        ensures { result.units ≡ [] }
    {
        UnitOrder {}
    }

    /// Returns the list with a unit appended.
    pub(crate) fn and(&self, _id: u64, _code: usize) -> UnitOrder
        ensures { result.units ≡ self.now.units ++ (record { id = _id; literal = _code }) ∷ [] }
    {
        UnitOrder {}
    }

    /// Returns the list without the unit of the literal `_code`.
    pub(crate) fn without(&self, _code: usize) -> UnitOrder
        ensures { result.units ≡ filter (λ u. not (u.literal == _code)) self.now.units }
    {
        UnitOrder {}
    }
}
