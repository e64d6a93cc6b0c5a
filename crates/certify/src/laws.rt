//! Laws about answers, matching and the checker.
//!
//! Each law is the contract of a function that does nothing.
ghost use Rattle.certify.specs.laws.Confirmed.{CertifiedMatches};
ghost use Rattle.certify.specs.laws.EndToEnd.{FinishedIsConfirmed};
ghost use Rattle.certify.specs.laws.HeadlineLaws.{CertifyImpliesHeadline, RightByEvents, RightByOutcomes, SameAnswers};
ghost use Rattle.certify.specs.laws.HeadlineLaws.{MatchingAnswersAreRight, SameMatches, SameReports, ReadingsAgree};
ghost use Rattle.certify.specs.laws.HintTexts.{RunsHaveHints};
ghost use Rattle.certify.specs.laws.Laws.{AskKeepsClauses, AskDependsOnNames, MatchingIsRight, NoModelAndCore};
ghost use Rattle.certify.specs.laws.Laws.{ClausesAreSets, TautologyChangesNothing, TextsDetermineOutcomes};
ghost use Rattle.certify.specs.laws.Laws.{TextsThatMatchAreRight};
ghost use Rattle.sat_checker.specs.matching.Checking.{IsSound};
ghost use Rattle.sat_checker.specs.matching.ProofChecking.{checker_rules};
ghost use Rattle.certify.specs.laws.Rows.{AnswersTwice, AskAloneText, AfterEndUncertified, ChainCertified};
ghost use Rattle.certify.specs.laws.Rows.{UnknownUncertified, ClauseAndAskCertified, ClauseAndAskExpected};
ghost use Rattle.certify.specs.laws.Rows.{ClauseAndAskMatches, ClauseAndAskRight, ClauseAndAskSteps, ClauseAndAskText};
ghost use Rattle.certify.specs.laws.Rows.{ClauseUncertified, CoreUncertified, EarlyUncertified, EmptyMatches};
ghost use Rattle.certify.specs.laws.Rows.{EmptyText, EndAloneDoesNotMatch, EndAloneUncertified, HiddenAndBackExpected};
ghost use Rattle.certify.specs.laws.Rows.{HiddenAndBackState, HiddenAtOnceState, KnownWithoutRounds, LeftOutCertified};
ghost use Rattle.certify.specs.laws.Rows.{LeftmostRefuses, MalformedText, ModelUncertified, NameOnOldVariable};
ghost use Rattle.certify.specs.laws.Rows.{NoAnswers, TwoUnitsMatches, TwoUnitsRight, TwoUnitsSteps, WitnessRefusedText};
ghost use Rattle.certify.specs.laws.Rows.{WitnessRefusesAsk};

pub mod commands;
pub mod names;

/// States that the answers are correct if script, answers and certificate match, both as steps and outcomes and
/// as texts.
pub fn matching_is_right()
    ensures steps { MatchingIsRight }
    ensures texts { TextsThatMatchAreRight }
    ensures answers { MatchingAnswersAreRight }
{}

/// States that correct answers, and the certificate that a run writes for them, match their script, so they
/// are confirmed.
pub fn certified_is_confirmed()
    ensures { CertifiedMatches }
{}

/// States that what a finished run wrote is confirmed, if the three texts are read as they were written.
pub fn finished_is_confirmed()
    ensures { FinishedIsConfirmed }
{}

/// States that the contract of `certify_over` implies the headline.
pub fn certified_is_headline()
    ensures { CertifyImpliesHeadline }
{}

/// States that the short definitions in the contracts of `run` and `confirm` are equivalent to those that the proofs
/// about matching and runs use.
pub fn short_definitions_agree()
    ensures script { ReadingsAgree }
    ensures answers { SameAnswers }
    ensures events { RightByEvents }
    ensures right { RightByOutcomes }
    ensures matching { SameMatches }
    ensures reports { SameReports }
{}

/// States that `convert` does not refuse the certificate of a finished run, and that the hint text that it writes
/// is proved.
pub fn runs_have_hints()
    ensures { RunsHaveHints }
{}

/// States that the proof checker has the seven properties that matching needs.
pub fn checking_is_sound()
    ensures { IsSound checker_rules }
{}

/// States that no ask has both a correct model and a correct core.
pub fn model_excludes_core()
    ensures { NoModelAndCore }
{}

/// States that neither a repeated literal nor a tautology changes which valuations satisfy the clauses.
pub fn clauses_as_sets()
    ensures repeat { ClausesAreSets }
    ensures tautology { TautologyChangesNothing }
{}

/// States that the literals of an ask don't constrain later asks: only the names that the ask introduced remain.
pub fn asks_are_independent()
    ensures clauses { AskKeepsClauses }
    ensures names { AskDependsOnNames }
{}

/// States that different outcomes have different texts.
pub fn texts_determine_outcomes()
    ensures { TextsDetermineOutcomes }
{}

/// Gives examples of scripts and their answers, including scripts with refused commands and a malformed script.
pub fn rows_of_text()
    ensures empty { EmptyText }
    ensures ask_alone { AskAloneText }
    ensures clause_and_ask { ClauseAndAskText }
    ensures witness { WitnessRefusedText }
    ensures leftmost { LeftmostRefuses }
    ensures ask { WitnessRefusesAsk }
    ensures malformed { MalformedText }
{}

/// Gives examples of the identities of names, and of the expected steps.
pub fn rows_of_names()
    ensures hidden { HiddenAtOnceState }
    ensures back { HiddenAndBackState }
    ensures back_expected { HiddenAndBackExpected }
    ensures expected { ClauseAndAskExpected }
{}

/// Gives examples of scripts, answers and certificates that match, as steps and as bytes, with correct answers.
pub fn rows_that_match()
    ensures empty { EmptyMatches }
    ensures model_bytes { ClauseAndAskMatches }
    ensures core_bytes { TwoUnitsMatches }
    ensures model { ClauseAndAskRight }
    ensures model_steps { ClauseAndAskSteps }
    ensures core { TwoUnitsRight }
    ensures core_steps { TwoUnitsSteps }
{}

/// Gives examples that don't match: a name that gets its old variable again, a certificate with only `End`, missing
/// answers, and answers written twice.
pub fn rows_that_fail()
    ensures old_variable { NameOnOldVariable }
    ensures end_alone { EndAloneDoesNotMatch }
    ensures missing { NoAnswers }
    ensures extra { AnswersTwice }
{}

/// Gives examples of certificates: steps that a run can write, and steps that it can't, since a step is missing or
/// follows `End`.
pub fn rows_of_certificates()
    ensures model { ClauseAndAskCertified }
    ensures left_out { LeftOutCertified }
    ensures without_rounds { KnownWithoutRounds }
    ensures derived { ChainCertified }
    ensures unknown { UnknownUncertified }
    ensures early { EarlyUncertified }
    ensures core { CoreUncertified }
    ensures end_alone { EndAloneUncertified }
    ensures clause_needed { ClauseUncertified }
    ensures model_needed { ModelUncertified }
    ensures following_end { AfterEndUncertified }
{}
