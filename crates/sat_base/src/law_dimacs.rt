//! Laws about the texts of formulas, for use only in proofs.
ghost use Rattle.sat_base.specs.dimacs.DimacsRows.{CleanRows, FaultRows, HeaderRows, PrefixRows};
ghost use Rattle.sat_base.specs.dimacs.DimacsSpelling.{OneFormula, CleanIfSpelled};
ghost use Rattle.sat_base.specs.dimacs.WrittenDimacs.{WrittenIsRead};

/// States that every text is read as exactly one list of clauses and one end. A text is read as a given list of
/// clauses, without a fault, exactly when its words outside comments and before a `%` line spell that list: an optional
/// header, and then one clause after another. The call does nothing.
pub fn dimacs_laws()
    ensures one { OneFormula }
    ensures spelled { CleanIfSpelled }
{}

/// States that the text written for a formula is read as that formula: its clauses in order, without a fault, and a
/// header with the numbers of variables and clauses. The call does nothing.
pub fn written_dimacs_is_read()
    ensures { WrittenIsRead }
{}

/// Gives example texts and their meaning. The call does nothing.
pub fn dimacs_rows()
    ensures clean { CleanRows }
    ensures faults { FaultRows }
    ensures headers { HeaderRows }
    // The prefix of a text up to its last blank, and the prefix up to its last LF.
    ensures parts { PrefixRows }
{}
