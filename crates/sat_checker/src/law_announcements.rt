//! Laws about announcements. Each law is the contract of a function that does nothing.
ghost use Rattle.sat_checker.specs.announcements.Promises.{ConflictIsAnnounced, ConflictIsFollowedBackwards};
ghost use Rattle.sat_checker.specs.announcements.Promises.{DeletedFollowByPropagation, IdsAreAnnounced};
ghost use Rattle.sat_checker.specs.announcements.Promises.{PropagationsInTurn};
ghost use Rattle.sat_checker.specs.announcements.Promises.{SimplifiedIsAnnounced, TautologiesNeedNoIds};
ghost use Rattle.sat_checker.specs.announcements.Promises.{NoticesAreAppended};
ghost use Rattle.sat_checker.specs.announcements.Rows.{AnswersTranscribed, AssumedAnnounced, CollidingAnnounced};
ghost use Rattle.sat_checker.specs.announcements.Rows.{ConflictAndUnitAnnounced};
ghost use Rattle.sat_checker.specs.announcements.Rows.{Contradiction, CoreAnnounced, CoreOfBothSigns};
ghost use Rattle.sat_checker.specs.announcements.Rows.{DerivedIrredundant};
ghost use Rattle.sat_checker.specs.announcements.Rows.{DerivedIrredundantAgain, DerivedNew, DerivedRedundantAgain};
ghost use Rattle.sat_checker.specs.announcements.Rows.{DerivedTautology, DerivedUnitAgain, InputAfterUnsat};
ghost use Rattle.sat_checker.specs.announcements.Rows.{InputDuplicate, InputNew, InputRedundant, InputTautology};
ghost use Rattle.sat_checker.specs.announcements.Rows.{InputUnitAgain, InputsTranscribed, ModeChanged, ModeUnchanged};
ghost use Rattle.sat_checker.specs.announcements.Rows.{ModeOfNameless, ModelAnnounced, ModesTranscribed, NameOfUnknown};
ghost use Rattle.sat_checker.specs.announcements.Rows.{NameOfUnknownTranscribed};
ghost use Rattle.sat_checker.specs.announcements.Rows.{NameOfKnown, NameOfKnownTranscribed, NameRemoved};
ghost use Rattle.sat_checker.specs.announcements.Rows.{NameRemovedTranscribed};
ghost use Rattle.sat_checker.specs.announcements.Rows.{HashGivenTwiceAnnounced, OthersTranscribed, OthersAnnounce};
ghost use Rattle.sat_checker.specs.announcements.Rows.{UnneededClauseLeftOut};
ghost use Rattle.sat_checker.specs.announcements.Rows.{RedundantDeleted, IrredundantCountLeft};
ghost use Rattle.sat_checker.specs.announcements.Rows.{RefutedAtWidthZeroAnnounced, RefutedTranscribed};
ghost use Rattle.sat_checker.specs.announcements.Rows.{RefutedAnnounced, SatisfiedDeleted, KeptAsRedundant};
ghost use Rattle.sat_checker.specs.announcements.Rows.{OneIrredundantCountLeft};
ghost use Rattle.sat_checker.specs.announcements.Rows.{SimplifiedByEmpty, SimplifiedDeleted, SolverNameSet};
ghost use Rattle.sat_checker.specs.announcements.Rows.{OnlyLowestUnit};
ghost use Rattle.sat_checker.specs.announcements.Rows.{UnitsFirst, AssumedUnitsLeftOut};
ghost use Rattle.sat_checker.specs.listeners.ProcessingView.{NoListenerNoFault};

use crate::announce::transcript::ProofTranscriptProcessor;
use crate::processing::ProofProcessor;

/// States which clauses and units justify a clause that passes the propagation check.
pub fn propagations_run_to_conflict()
    ensures in_turn { PropagationsInTurn }
    ensures exact { ConflictIsFollowedBackwards }
    ensures tautology { TautologiesNeedNoIds }
    ensures deleted { DeletedFollowByPropagation }
{}

/// States that the ids of stored clauses were announced, as were the ids that are referred to by the announcements of a
/// conflict's empty clause and of a simplified deletion.
pub fn ids_are_announced()
    ensures stored { IdsAreAnnounced }
    ensures delayed { ConflictIsAnnounced }
    ensures simplified { SimplifiedIsAnnounced }
{}

/// States the order in which steps and delayed conflicts are announced.
pub fn announcements_are_in_order()
    ensures { NoticesAreAppended }
{}

/// States that without listeners, announcements cause no error and no allocation failure.
pub fn faults_come_from_listeners<P: ProofProcessor, T: ProofTranscriptProcessor>()
    ensures { NoListenerNoFault P.takes T.reads }
{}

/// Gives worked examples of the clauses from which derived clauses follow, at widths 64, 8 and 0.
pub fn rows_of_propagations()
    ensures refuted { RefutedAnnounced }
    ensures at_zero { RefutedAtWidthZeroAnnounced }
    ensures twice { HashGivenTwiceAnnounced }
    ensures colliding { CollidingAnnounced }
    ensures units { UnitsFirst }
    ensures held { AssumedUnitsLeftOut }
    ensures passed { UnneededClauseLeftOut }
    ensures alone { OnlyLowestUnit }
{}

/// Gives worked examples of unit conflicts, whose empty clause is announced later.
pub fn rows_of_conflicts()
    ensures contradiction { Contradiction }
    ensures unit_after { ConflictAndUnitAnnounced }
{}

/// Gives worked examples of input clauses.
pub fn rows_of_inputs()
    ensures fresh { InputNew }
    ensures duplicate { InputDuplicate }
    ensures redundant { InputRedundant }
    ensures unit { InputUnitAgain }
    ensures tautology { InputTautology }
    ensures unsat { InputAfterUnsat }
{}

/// Gives worked examples of derived clauses.
pub fn rows_of_derived()
    ensures fresh { DerivedNew }
    ensures irredundant { DerivedIrredundant }
    ensures redundant_again { DerivedRedundantAgain }
    ensures irredundant_again { DerivedIrredundantAgain }
    ensures unit_again { DerivedUnitAgain }
    ensures tautology { DerivedTautology }
{}

/// Gives worked examples of deleted clauses.
pub fn rows_of_deleted()
    ensures redundant { RedundantDeleted }
    ensures redundant_stays { IrredundantCountLeft }
    ensures satisfied { SatisfiedDeleted }
    ensures kept { KeptAsRedundant }
    ensures simplified { SimplifiedDeleted }
    ensures by_empty { SimplifiedByEmpty }
    ensures satisfied_stays { OneIrredundantCountLeft }
{}

/// Gives worked examples of names, modes, models and cores.
pub fn rows_of_users()
    ensures name { NameOfUnknown }
    ensures known { NameOfKnown }
    ensures removed { NameRemoved }
    ensures solver_name { SolverNameSet }
    ensures mode { ModeChanged }
    ensures mode_left { ModeUnchanged }
    ensures nameless { ModeOfNameless }
    ensures model { ModelAnnounced }
    ensures assumed { AssumedAnnounced }
    ensures core { CoreAnnounced }
    ensures signs { CoreOfBothSigns }
    ensures others { OthersAnnounce }
{}

/// Gives worked examples of transcripts.
pub fn rows_of_transcripts()
    ensures name { NameOfUnknownTranscribed }
    ensures known { NameOfKnownTranscribed }
    ensures removed { NameRemovedTranscribed }
    ensures modes { ModesTranscribed }
    ensures inputs { InputsTranscribed }
    ensures refuted { RefutedTranscribed }
    ensures others { OthersTranscribed }
    ensures answers { AnswersTranscribed }
{}
