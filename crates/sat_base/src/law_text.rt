//! Laws about the meaning of texts, for use only in proofs.
ghost use Rattle.sat_base.specs.script.ScriptSpelling.{OneReading, ReadIfSpelled};
ghost use Rattle.sat_base.specs.script.ScriptRows.{ReadRows, MalformedRows};

/// States that every script is read as exactly one list of commands and one end. A script is read as a given list of
/// commands and a given end exactly when its words spell them: an optional header, one command after another, and then
/// the end, or words that begin no command. After a header, an ask without literals is added at a clean end if there is
/// no other ask. The call does nothing.
pub fn script_laws()
    ensures one { OneReading }
    ensures spelled { ReadIfSpelled }
    // Example texts with their meaning.
    ensures read { ReadRows }
    ensures malformed { MalformedRows }
{}
