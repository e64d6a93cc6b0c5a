//! Laws about propagation and the search, each of which is the contract of a function with an empty body.
ghost use Rattle.sat_parts.specs.prop.Implied.{AssignedIsImplied};
ghost use Rattle.sat_parts.specs.prop.TrailWord.{LevelsArePreserved, TrailWordsIncrease};

/// States that every assigned literal follows from the clauses, the units, the decisions and the assumptions.
pub fn assigned_is_implied()
    ensures { AssignedIsImplied }
{}

/// States that decisions, propagation and backtracking preserve the shape of levels.
///
/// Every level begins with a decision, and every other literal above level 0 has a clause as its reason.
pub fn levels_are_preserved()
    ensures { LevelsArePreserved }
{}

/// States how the word of a trail ends, and that it is greater than the word was before levels were undone.
pub fn trail_words_increase()
    ensures { TrailWordsIncrease }
{}
