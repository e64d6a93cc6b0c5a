//! Laws about sessions. Each law is the contract of a function that does nothing.
ghost use Rattle.sat_solver.specs.session.Promises.{CoresAreRight, AllowedIsAccepted, ModelsAreRight};
ghost use Rattle.sat_solver.specs.session.Promises.{SessionsAreAccepted};
ghost use Rattle.sat_solver.specs.session.Promises.{UnsatIsRight};
ghost use Rattle.sat_solver.specs.proof.Checked.{NeverFailsWithoutListeners};
ghost use Rattle.sat_solver.specs.proof.Drat.{DratIsCorrect};
ghost use Rattle.sat_solver.specs.session.OrderedSteps.{WidthsKeepOrder};
ghost use Rattle.sat_solver.specs.session.NamedMeaning.{NamedCoresAreRight, NamedModelsAreRight, NamedUnsatIsRight};
ghost use Rattle.sat_solver.specs.session.NamedMeaning.{NeverHiddenMeans};
ghost use Rattle.sat_solver.specs.proof.ProofRows.{CountRow, LineRows, WidthRows};
ghost use Rattle.sat_solver.specs.proof.ProofTexts.{BrokenIsPrefix, ClosedIsText, TruncationsAreAllowed};
ghost use Rattle.sat_solver.specs.session.SessionRows.{CollidingIsAllowed, HiddenIsAllowed};
ghost use Rattle.sat_solver.specs.proof.Widths.{WidthsAreFree};

use sat_checker::law_announcements::faults_come_from_listeners;
use sat_checker::{Nobody, ProofProcessor};

/// States that a checker accepts every step that a session may write.
pub fn sessions_are_accepted()
    ensures step { AllowedIsAccepted }
    ensures steps { SessionsAreAccepted }
{}

/// States what answers mean for the clauses that were added.
pub fn answers_are_right()
    ensures cores { CoresAreRight }
    ensures unsat { UnsatIsRight }
    ensures models { ModelsAreRight }
{}

/// States that steps that may be written with hashes of full width may also be written with hashes shortened to
/// any widths.
pub fn widths_are_free()
    ensures may { WidthsAreFree }
    ensures order { WidthsKeepOrder }
    ensures cuts { TruncationsAreAllowed }
{}

/// States that a solver's own checker, if it has no listeners, never fails because of one.
pub fn never_fails_without_listeners<P: ProofProcessor>()
    ensures { NeverFailsWithoutListeners P.takes }
{
    faults_come_from_listeners::<P, Nobody>();
}

/// Gives worked examples: derived clauses whose hashes collide, and a hidden variable that is deleted before a model.
pub fn rows_of_sessions()
    ensures colliding { CollidingIsAllowed }
    ensures hidden { HiddenIsAllowed }
{}

/// States that models, cores and a recorded `unsat` give correct answers for a script's names, if the steps mean what
/// the script's accepted clauses mean.
pub fn named_answers_are_right()
    ensures models { NamedModelsAreRight }
    ensures cores { NamedCoresAreRight }
    ensures unsat { NamedUnsatIsRight }
{}

/// States that the steps mean what the accepted clauses mean if no name has ever been hidden.
pub fn never_hidden_means_clauses()
    ensures { NeverHiddenMeans }
{}

/// States what the target of a proof has received since it was opened.
///
/// If the proof was closed, the target has received the text of all steps that were made while it was open. If the
/// target failed, it has received a prefix of this text.
pub fn targets_take_texts()
    ensures closed { ClosedIsText }
    ensures broken { BrokenIsPrefix }
{}

/// States that the DRAT lines of allowed steps are a derivation. Once the steps have recorded `unsat`, unit propagation
/// refutes the remaining clauses.
pub fn lines_are_derived()
    ensures { DratIsCorrect }
{}

/// Gives worked examples: widths for certain numbers of clauses, the counting of a step, and DRAT lines.
pub fn rows_of_proofs()
    ensures widths { WidthRows }
    ensures count { CountRow }
    ensures lines { LineRows }
{}
