//! Laws about names. Each law is the contract of a function that does nothing.
ghost use Rattle.sat_solver.specs.variables.Searching.{SearchesPreserveNames, SearchesAgree, UnitsPreserveNames};

/// States that steps of the search preserve the invariant of names, and leave the script state unchanged.
pub fn searches_preserve_names()
    ensures stand { SearchesPreserveNames }
    ensures agree { SearchesAgree }
{}

/// States that storing the value of a unit preserves the invariant of names, and leaves the script state unchanged.
pub fn units_preserve_names()
    ensures { UnitsPreserveNames }
{}
