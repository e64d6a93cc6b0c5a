//! Laws about when a clause passes, how each step changes what is stored, and what always holds for it. Each law is the
//! contract of a function that does nothing.
ghost use Rattle.sat_checker.specs.FewBytes.{IdsWithinBytes, CountersNeverExhausted};
ghost use Rattle.sat_checker.specs.Invariants.{AllClausesHold, OrderInvariantHolds, StoredInvariantHolds};
ghost use Rattle.sat_checker.specs.Invariants.{SettlingKeepsContents};
ghost use Rattle.sat_checker.specs.Invariants.{EffectChangesContents, ContentsAfterSteps, StoredIffCounted};
ghost use Rattle.sat_checker.specs.Invariants.{DerivedIsLast};
ghost use Rattle.sat_checker.specs.Invariants.{SettlingKeepsLastClause, LastClauseIsKept, PendingConflictIsIgnored};
ghost use Rattle.sat_checker.specs.Invariants.{RemovalLowersCount};
ghost use Rattle.sat_checker.specs.Invariants.{UnsatIsPermanent};
ghost use Rattle.sat_checker.specs.ConflictPropagation.{HashIgnoresOrder, PropagatingPasses, PropagatesOnMore};
ghost use Rattle.sat_checker.specs.ConflictPropagation.{UnitInTurnConflicts, UnitInTurnPropagates};

/// States that a clause passes if hashes name stored clauses that lead to a conflict, whatever else the
/// buckets contain.
pub fn named_clauses_pass()
    ensures passes { PropagatingPasses }
    ensures turns { UnitInTurnPropagates }
    ensures conflict { UnitInTurnConflicts }
    ensures more { PropagatesOnMore }
    ensures order { HashIgnoresOrder }
{}

/// States how each step changes the contents of the checker: the counts of clauses, the units, the names and
/// the settings.
pub fn contents_follow_steps()
    ensures step { EffectChangesContents }
    ensures settled { SettlingKeepsContents }
    ensures steps { ContentsAfterSteps }
    ensures taking { RemovalLowersCount }
    ensures counted { StoredIffCounted }
{}

/// States that what is stored after accepted steps satisfies `StoredInvariant`, and that every valuation that the steps
/// allow satisfies all stored clauses. Also states that `unsat`, once recorded, stays recorded, and that a pending unit
/// conflict does not affect which steps are accepted.
pub fn stored_is_tidy()
    ensures tidy { StoredInvariantHolds }
    ensures unsat { UnsatIsPermanent }
    ensures pending { PendingConflictIsIgnored }
    ensures clauses { AllClausesHold }
{}

/// States which clause is the last irredundant one stored, and what holds for that clause after every list of
/// accepted steps.
pub fn last_was_derived()
    ensures orderly { OrderInvariantHolds }
    ensures derived { DerivedIsLast }
    ensures stays { LastClauseIsKept }
    ensures settled { SettlingKeepsLastClause }
{}

/// States that steps assign no more ids than they have bytes. Hence, the steps that a reader can provide to a new
/// checker never exhaust the ids or counts.
pub fn bytes_bound_ids()
    ensures ids { IdsWithinBytes }
    ensures spent { CountersNeverExhausted }
{}
