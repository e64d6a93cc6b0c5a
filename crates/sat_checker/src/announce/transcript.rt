//! Transcripts: announcements expressed with the user's variable names.
ghost use Rattle.std.specs.Prelude.{◌≡◌, IfOk, OnOk, Result, if◌then◌else◌, []};
ghost use Rattle.std.specs.Option.{option_map};
ghost use Rattle.anyhow.specs.declared.error.Error.{Error};
ghost use Rattle.sat_checker.specs.announcements.Transcripts.{Transcribed, SampleVar, WitnessVar, derived_transcript};
ghost use Rattle.sat_checker.specs.announcements.Transcripts.{in_user_names, transcript};
ghost use Rattle.sat_checker.specs.announcements.Announcements.{UserVar};
ghost use Rattle.sat_checker.specs.listeners.AnnouncementView.{announcement_of, announced_user, variables_of};
ghost use Rattle.sat_checker.specs.listeners.TranscriptView.{transcribed_of};

use crate::announce::announcement::{
    CheckedProofStep, CheckedSamplingMode, CheckedUserVar, CheckerData,
};
use sat_base::{Lit, Var};
use std::alloc::{AllocError, Global};

/// A step of a transcript, which borrows its lists. Variables are identified by the user's names for them.
#[derive(Clone, Copy)]
pub enum ProofTranscriptStep<'a> {
    /// The variable is a witness from now on.
    WitnessVar { var: Var },
    /// The variable is sampled from now on.
    SampleVar { var: Var },
    /// The variable is hidden from now on.
    HideVar { var: Var },
    /// A variable that was already known, but had no explicit name, gets this name.
    ObserveInternalVar { var: Var },
    /// A clause of the formula.
    AddClause { clause: &'a [Lit] },
    /// The formula has no model.
    Unsat,
    Model { assignment: &'a [Lit] },
    Assume { assumptions: &'a [Lit] },
    FailedAssumptions { failed_core: &'a [Lit] },
}

/// Receives the steps of a transcript.
pub trait ProofTranscriptProcessor: Drop {
    /// Relates the transcript before a call to `process_step`, the step, the result, and the transcript after the call.
    ghost reads: { Self → Transcribed → Result (Unit {0}) Error → Self → Type 0 };

    /// Receives a step.
    fn process_step(&mut self, step: &ProofTranscriptStep<'_>) -> anyhow::Result<()>
        ensures { reads self.old (transcribed_of step.now) result self.new };
}

/// Converts announcements to transcript steps.
#[derive(Drop)]
pub struct Transcript {
    /// A buffer for literals over the user's names.
    lits: Vec<Lit>,
}

impl Transcript {
    /// Creates a transcript. Never allocates.
    pub fn new(alloc: Global) -> Transcript
        ensures { result.lits.items ≡ [] }
    {
        Transcript {
            lits: Vec::new(alloc),
        }
    }

    /// Returns the transcript step for an announcement, if there is one.
    pub fn transcript_step(
        &mut self,
        step: &CheckedProofStep<'_>,
        names: CheckerData<'_>,
    ) -> Result<Option<ProofTranscriptStep<'_>>, AllocError>
        ensures { IfOk result (λ said.
            option_map transcribed_of said ≡ transcript (variables_of names.entry) (announcement_of step.now)) }
    {
        match *step {
            CheckedProofStep::UserVar { var, user_var } => Ok(name_change(names, var, user_var)),
            CheckedProofStep::AddClause { clause, .. }
            | CheckedProofStep::DuplicatedClause { clause, .. }
            | CheckedProofStep::TautologicalClause { clause, .. } => {
                self.rename(clause, names)?;
                Ok(Some(ProofTranscriptStep::AddClause { clause: &self.lits }))
            }
            CheckedProofStep::AtClause { clause, .. } => Ok(derivation(clause)),
            CheckedProofStep::Model { assignment } => {
                self.rename(assignment, names)?;
                Ok(Some(ProofTranscriptStep::Model {
                    assignment: &self.lits,
                }))
            }
            CheckedProofStep::Assumptions { assumptions } => {
                self.rename(assumptions, names)?;
                Ok(Some(ProofTranscriptStep::Assume {
                    assumptions: &self.lits,
                }))
            }
            CheckedProofStep::FailedAssumptions { failed_core, .. } => {
                self.rename(failed_core, names)?;
                Ok(Some(ProofTranscriptStep::FailedAssumptions {
                    failed_core: &self.lits,
                }))
            }
            CheckedProofStep::DeleteVar { .. }
            | CheckedProofStep::MakeIrredundant { .. }
            | CheckedProofStep::DeleteClause { .. }
            | CheckedProofStep::DeleteAtClause { .. }
            | CheckedProofStep::DeleteRatClause { .. } => Ok(None),
        }
    }

    /// Sets the buffer to the literals, with variables replaced by the user's names. Literals whose variable has no
    /// such name are dropped.
    fn rename(&mut self, literals: &[Lit], names: CheckerData<'_>) -> Result<(), AllocError>
        ensures { OnOk result (self.new.lits.items ≡ in_user_names (variables_of names.entry) literals.now) }
    {
        self.lits.clear();
        for lit in literals {
            if let Some(name) = names.user_from_proof_var(lit.var()) {
                self.lits.push(name.lit(lit.is_positive()))?;
            }
        }
        Ok(())
    }
}

/// Returns the transcript step for a change in a variable's name or mode, if there is one.
fn name_change<'s>(
    names: CheckerData<'_>,
    var: Var,
    user_var: Option<CheckedUserVar>,
) -> Option<ProofTranscriptStep<'s>>
    ensures { option_map transcribed_of result ≡ transcript (variables_of names.entry)
        (UserVar var (option_map announced_user user_var)) }
{
    let explicit = names.explicit_name(var);
    let Some(user) = user_var else {
        let name = explicit?;
        return Some(ProofTranscriptStep::HideVar { var: name });
    };
    if explicit.is_some() {
        return Some(mode_change(user));
    }
    if user.new_var {
        return None;
    }
    Some(ProofTranscriptStep::ObserveInternalVar { var: user.user_var })
}

/// Returns the transcript step for a change in a variable's mode.
fn mode_change<'s>(user: CheckedUserVar) -> ProofTranscriptStep<'s>
    ensures { transcribed_of result
        ≡ (if (announced_user user).sampling then SampleVar user.user_var else WitnessVar user.user_var) }
{
    let var = user.user_var;
    match user.sampling_mode {
        CheckedSamplingMode::Sample => ProofTranscriptStep::SampleVar { var },
        CheckedSamplingMode::Witness => ProofTranscriptStep::WitnessVar { var },
    }
}

/// Returns the transcript step for a derived clause: `Unsat` if the clause is empty, and `None` otherwise.
fn derivation<'s>(clause: &[Lit]) -> Option<ProofTranscriptStep<'s>>
    ensures { option_map transcribed_of result ≡ derived_transcript clause.now }
{
    if clause.is_empty() {
        return Some(ProofTranscriptStep::Unsat);
    }
    None
}
