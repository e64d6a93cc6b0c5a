//! Laws about the definitions.
//!
//! Each law is the contract of a function that does nothing.
ghost use Rattle.sat_hints.specs.Laws.{AcceptedConverts, AnnouncedIsProved, AnnouncedIsDerivation, CoreLinesFail};
ghost use Rattle.sat_hints.specs.Laws.{DerivedClausesHold, EmptyMeansNoModel, LinesAllowModels, LinesAllowOnlyModels};
ghost use Rattle.sat_hints.specs.Laws.{OneVerdict};
ghost use Rattle.sat_hints.specs.Laws.{PresentClausesHold, ProofIsProved, ProvedIsNotBad, ReadStepsAreWithinLimits};

/// States that derivations are sound. Lines allow the valuations in which the clauses of the formula hold, but the
/// value of a variable that becomes new may change. Every derived clause holds in all valuations that the lines before
/// it allow, and no core has only true literals in such a valuation. The present clauses hold in all valuations that
/// the lines allow. If the lines derive the empty clause, they allow no valuation.
pub fn derivations_are_sound()
    ensures derived { DerivedClausesHold }
    ensures cores { CoreLinesFail }
    ensures present { PresentClausesHold }
    ensures empty { EmptyMeansNoModel }
    ensures formula { LinesAllowOnlyModels }
    ensures left { LinesAllowModels }
{}

/// States that no line of a proved text is at fault, and that a text has at most one verdict.
pub fn verdicts_exclude()
    ensures exclude { ProvedIsNotBad }
    ensures one { OneVerdict }
{}

/// States that the lines for the announcements of accepted steps are a derivation, even if variables are deleted. The
/// text of these lines gets the verdict `Proved` if the next id is below 2^64 and all steps are within their limits.
/// Steps that are spelled by bytes always are.
pub fn announcements_derive()
    ensures derive { AnnouncedIsDerivation }
    ensures read { ReadStepsAreWithinLimits }
    ensures proved { AnnouncedIsProved }
{}

/// States that `convert` writes the hint text of a certificate of accepted steps, unless a read, a write or an
/// allocation fails. The bytes that the reader of the certificate provides must be known.
pub fn accepted_converts()
    ensures { AcceptedConverts }
{}

/// States that for a proved text, `check` returns the verdict `Proved` with the correct fields, unless a read or an
/// allocation fails. The bytes that the reader of the text provides must be known.
pub fn proof_is_proved()
    ensures { ProofIsProved }
{}
