//! Laws about the definitions. Each law is the contract of a function that does nothing.
ghost use Rattle.sat_checker.specs.DimacsView.{EndedClausesAreFirst, ReadClausesAreFirst};
ghost use Rattle.sat_checker.specs.Laws.{CanonicalIsSortedSet, CoresAreAssumed, CoresHaveNoModel, DeletedIsNameless};
ghost use Rattle.sat_checker.specs.Laws.{DeletionIsRecorded, EmptyClauseIdIsAssigned, FormulaMatchesSteps};
ghost use Rattle.sat_checker.specs.Laws.{KnownUntilDeleted, ModelsExtend};
ghost use Rattle.sat_checker.specs.Laws.{NamedIsKnown, NamesDistinct, SameLiteralsAreEqual, SortedSetsAreEqual};
ghost use Rattle.sat_checker.specs.Laws.{TautologyHasBothSigns, UnknownHasInitialData, UnsatMeansNoModel};
ghost use Rattle.sat_checker.specs.MeaningRows.{DeletedIsFree, EitherLiteralSatisfies, FourClausesHaveNoModel};
ghost use Rattle.sat_checker.specs.MeaningRows.{LooksOfThreeSteps, LooksByStepKind};
ghost use Rattle.sat_checker.specs.MeaningRows.{OnlyAddedConstrains, StoredConstrains, UnsatExcludesAll};
ghost use Rattle.sat_checker.specs.Rows.{DeletesAssumedVar, AddedAfterUnsat, CoreWithBothSigns, DuplicateBecomesLast};
ghost use Rattle.sat_checker.specs.Rows.{DeletedKeepsSolverName, LastWithOneCount};
ghost use Rattle.sat_checker.specs.Rows.{FoundBySolverName, CollidingHashes, ConflictAndUnit, EmptyBucketFirst};
ghost use Rattle.sat_checker.specs.Rows.{EmptyBucketAfterConflict};
ghost use Rattle.sat_checker.specs.Rows.{OnlyEndIsAccepted};
ghost use Rattle.sat_checker.specs.Rows.{FourClauses, HashesOfOneTwo, AddsHiddenVar, HiddenVarGetsNoName};
ghost use Rattle.sat_checker.specs.Rows.{DeletesVarInClause};
ghost use Rattle.sat_checker.specs.Rows.{ContradictionKeepsLast, LastUnitIsNoSubset, ModelAgainstUnit};
ghost use Rattle.sat_checker.specs.Rows.{ModelWithBothSigns};
ghost use Rattle.sat_checker.specs.Rows.{ModelMissesClause, ModelAccepted, NameTaken, NameGivenAgain, HashGivenOnce};
ghost use Rattle.sat_checker.specs.Rows.{HashGivenTwice};
ghost use Rattle.sat_checker.specs.Rows.{SecondNameRefused, NamelessLosesNoName, NoRedundantCount, CoreNotAssumed};
ghost use Rattle.sat_checker.specs.Rows.{Refuted};
ghost use Rattle.sat_checker.specs.Rows.{RefutedAtWidthZero, SimplifiedByRemoved, SimplifiedByItself};
ghost use Rattle.sat_checker.specs.Rows.{SimplifiedBySubset};
ghost use Rattle.sat_checker.specs.Rows.{SolverNameChangesHash, StoredTwice, Tautologies, TwoCounts, TwoUnits};
ghost use Rattle.sat_checker.specs.Rows.{UnitConflict};
ghost use Rattle.sat_checker.specs.Rows.{UnitForgotten, UnitsInWrongOrder, DeletesUnknownVar, UnknownVarGetsNoMode};
ghost use Rattle.sat_checker.specs.Rows.{DeletesNamedVar, AddsWitnessVar};
ghost use Rattle.sat_checker.specs.Rows.{WitnessGetsName};

/// States that the sorted form of a clause represents the set of its literals, and that a tautology contains both signs
/// of a variable.
pub fn clauses_are_sets()
    ensures sorted { CanonicalIsSortedSet }
    ensures signs { TautologyHasBothSigns }
    ensures sets { SortedSetsAreEqual }
    ensures same { SameLiteralsAreEqual }
{}

/// States that after every list of accepted steps, the valuations that satisfy the stored formula are exactly those
/// that the steps allow. If unsat is recorded, there are none.
pub fn stored_formula_is_fold()
    ensures fold { FormulaMatchesSteps }
    ensures unsat { UnsatMeansNoModel }
{}

/// States what accepted models and failed cores mean.
pub fn answers_are_sound()
    ensures models { ModelsExtend }
    ensures cores { CoresHaveNoModel }
    ensures assumed { CoresAreAssumed }
{}

/// States that a variable is known once it is given a name, and until it is deleted; that it has no name when it is
/// deleted; that names are distinct; that unknown variables have their initial data; and that a deletion is recorded.
pub fn variables_are_kept()
    ensures named { NamedIsKnown }
    ensures stays { KnownUntilDeleted }
    ensures nameless { DeletedIsNameless }
    ensures apart { NamesDistinct }
    ensures unknowns { UnknownHasInitialData }
    ensures deletion { DeletionIsRecorded }
{}

/// States that if the last irredundant clause stored is empty, its id has already been assigned.
pub fn last_id_was_given()
    ensures { EmptyClauseIdIsAssigned }
{}

/// States that the clauses read from a prefix of a text are the first clauses of the text, whatever follows.
pub fn clauses_read_are_first()
    ensures ended { EndedClausesAreFirst }
    ensures read { ReadClausesAreFirst }
{}

/// Gives worked examples of hashes, of names, and of what is stored.
pub fn rows_of_storing()
    ensures hashes { HashesOfOneTwo }
    ensures end { OnlyEndIsAccepted }
    ensures named { NameGivenAgain }
    ensures four { FourClauses }
    ensures twice { StoredTwice }
    ensures conflict { UnitConflict }
    ensures unit_after { ConflictAndUnit }
{}

/// Gives worked examples of derived clauses, at widths 64, 8 and 0.
pub fn rows_of_deriving()
    ensures refuted { Refuted }
    ensures at_zero { RefutedAtWidthZero }
    ensures once { HashGivenOnce }
    ensures twice { HashGivenTwice }
    ensures colliding { CollidingHashes }
    ensures solver_names { SolverNameChangesHash }
{}

/// Gives worked examples of deletions of clauses and of variables.
pub fn rows_of_deleting()
    ensures part { SimplifiedBySubset }
    ensures itself { SimplifiedByItself }
    ensures gone { SimplifiedByRemoved }
    ensures redundant { NoRedundantCount }
    ensures forgotten { UnitForgotten }
    ensures in_clause { DeletesVarInClause }
    ensures with_name { DeletesNamedVar }
    ensures assumed { DeletesAssumedVar }
    ensures unknown { DeletesUnknownVar }
{}

/// Gives worked examples of names and modes.
pub fn rows_of_names()
    ensures witness { AddsWitnessVar }
    ensures hidden { AddsHiddenVar }
    ensures taken { NameTaken }
    ensures twice { SecondNameRefused }
    ensures hidden_named { HiddenVarGetsNoName }
    ensures none { NamelessLosesNoName }
{}

/// Gives worked examples of models and cores.
pub fn rows_of_answers()
    ensures model { ModelAccepted }
    ensures unit { ModelAgainstUnit }
    ensures clause { ModelMissesClause }
    ensures twice { ModelWithBothSigns }
    ensures signs { CoreWithBothSigns }
    ensures not_assumed { CoreNotAssumed }
{}

/// Gives worked examples of hashes over solver names, of units in one step, and of empty buckets.
pub fn rows_of_buckets()
    ensures by_name { FoundBySolverName }
    ensures name_left { DeletedKeepsSolverName }
    ensures units { TwoUnits }
    ensures turned { UnitsInWrongOrder }
    ensures following { EmptyBucketAfterConflict }
    ensures before { EmptyBucketFirst }
{}

/// Gives worked examples of counts, and of the last irredundant clause stored.
pub fn rows_of_counts()
    ensures duplicate { DuplicateBecomesLast }
    ensures counts { TwoCounts }
    ensures one_count { LastWithOneCount }
    ensures conflict { ContradictionKeepsLast }
    ensures unit { LastUnitIsNoSubset }
{}

/// Gives worked examples of steps with little effect.
pub fn rows_of_effects()
    ensures unsat { AddedAfterUnsat }
    ensures tautologies { Tautologies }
    ensures witness { WitnessGetsName }
    ensures unknown { UnknownVarGetsNoMode }
{}

/// Gives worked examples of what steps mean, of what satisfies the stored formula, and of looks.
pub fn rows_of_meaning()
    ensures either { EitherLiteralSatisfies }
    ensures four { FourClausesHaveNoModel }
    ensures deleted { DeletedIsFree }
    ensures added { OnlyAddedConstrains }
    ensures stored { StoredConstrains }
    ensures unsat { UnsatExcludesAll }
    ensures kinds { LooksByStepKind }
    ensures all { LooksOfThreeSteps }
{}
