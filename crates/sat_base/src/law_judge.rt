//! Laws about the state after the commands of a script.
ghost use Rattle.sat_base.specs.script.ScriptStateLaws.{GivenIdentitiesSuffice, ScriptStateInvariantHolds, NamesAreInUse, NamesAreListed};

/// States the following about the state after a script. The list of names in use is increasing and within the limit,
/// and every identity has a mode. The clauses and the names in use don't depend on identities that have not been
/// assigned. An increasing list with exactly the names in use is equal to the list of names in use. A name that a
/// command introduces is in use, and so are all names in correct models and cores. The call does nothing.
pub fn judge_laws()
    ensures kept { ScriptStateInvariantHolds }
    ensures given { GivenIdentitiesSuffice }
    ensures listed { NamesAreListed }
    ensures in_use { NamesAreInUse }
{}
