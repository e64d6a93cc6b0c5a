//! Listeners: processors and transcripts.
ghost use Rattle.std.specs.Prelude.{◌≡◌, ◌++◌, ◌∷◌, [], true, IfErr, OnOk, OnErr, Result, Some};
ghost use Rattle.anyhow.specs.declared.error.Error.{Error as Cause};
ghost use Rattle.sat_checker.specs.announcements.Announcements.{Notice};
ghost use Rattle.sat_checker.specs.announcements.Transcripts.{transcript};
ghost use Rattle.sat_checker.specs.inner.VariablesView.{variable_at};
ghost use Rattle.sat_checker.specs.listeners.AnnouncementView.{announcement_of, notice_of, variables_of};
ghost use Rattle.sat_checker.specs.listeners.Receiving.{call_listeners, AcceptsAllUnchanged, OwnReceivesFirst};
ghost use Rattle.sat_checker.specs.listeners.TranscriptView.{transcribed_of};
ghost use Rattle.sat_checker.specs.listeners.Notifying.{AllNotified, NotifiedUpToFault, Transcribes};
ghost use Rattle.sat_checker.specs.listeners.ProcessingView.{listeners_of, EachListenerReceives};

pub(crate) mod boxes;

use crate::announce::announcement::{CheckedProofStep, CheckerData};
use crate::announce::transcript::{ProofTranscriptProcessor, ProofTranscriptStep, Transcript};
use crate::variables::Variables;
use std::alloc::{AllocError, Global};
use thiserror::Error;

/// Receives what a checker announces.
pub trait ProofProcessor: Drop {
    /// Relates the processor before a call to `process_step`, the announcement, the result, and the processor after
    /// the call.
    ghost takes: { Self → Notice → Result (Unit {0}) Cause → Self → Type 0 };

    /// Receives an announcement. During the call, variables can be looked up in `names`.
    fn process_step(
        &mut self,
        step: &CheckedProofStep<'_>,
        names: CheckerData<'_>,
    ) -> anyhow::Result<()>
        ensures { takes self.old (notice_of step.now names.entry) result self.new };
}

/// Notifies the processors of an announcement, in order, up to the first error.
fn notify_processors<P: ProofProcessor>(
    processors: &mut [P],
    step: &CheckedProofStep<'_>,
    names: CheckerData<'_>,
) -> anyhow::Result<()>
    ensures ok { OnOk result (AllNotified (λ r b d. P.takes b (notice_of step.now names.entry) r d) processors.old
        processors.new) }
    ensures err { IfErr result (λ cause. NotifiedUpToFault (λ r b d. P.takes b (notice_of step.now names.entry) r d) cause
        processors.old processors.new) }
{
    for processor in processors.iter_mut() {
        match processor.process_step(step, names) {
            Ok(()) => {}
            Err(cause) => return Err(cause),
        }
    }
    Ok(())
}

/// Notifies the transcripts of a step, in order, up to the first error.
fn notify_transcripts<T: ProofTranscriptProcessor>(
    transcripts: &mut [T],
    step: &ProofTranscriptStep<'_>,
) -> anyhow::Result<()>
    ensures ok { OnOk result (AllNotified (λ r b d. T.reads b (transcribed_of step.now) r d) transcripts.old
        transcripts.new) }
    ensures err { IfErr result
        (λ cause. NotifiedUpToFault (λ r b d. T.reads b (transcribed_of step.now) r d) cause transcripts.old transcripts.new) }
{
    for transcript in transcripts.iter_mut() {
        match transcript.process_step(step) {
            Ok(()) => {}
            Err(cause) => return Err(cause),
        }
    }
    Ok(())
}

/// Why not all listeners were notified.
#[derive(Debug, Drop, Error)]
pub enum ProcessingError {
    /// Memory ran out.
    #[error("out of memory")]
    OutOfMemory,
    /// A processor or a transcript returned an error.
    #[error("Error in proof processor: {cause}")]
    ProofProcessorError { cause: anyhow::Error },
}

impl From<AllocError> for ProcessingError {
    ghost use Rattle.std.specs.Prelude.{◌≡◌};
    ghost use Rattle.sat_checker.specs.declared.processing.ProcessingError.TheVariants.{OutOfMemory};

    ghost from_gives = { λ _ e. e ≡ OutOfMemory };

    fn from(_e: AllocError) -> ProcessingError {
        ProcessingError::OutOfMemory
    }
}

/// Notifies the transcripts of a step, as `notify_transcripts` does, but returns a `ProcessingError`.
fn notify_all<T: ProofTranscriptProcessor>(
    transcripts: &mut [T],
    step: &ProofTranscriptStep<'_>,
) -> Result<(), ProcessingError>
    ensures { Transcribes (λ said r b d. T.reads b said r d)
        (Some (transcribed_of step.now)) result transcripts.old transcripts.new }
{
    match notify_transcripts(transcripts, step) {
        Ok(()) => Ok(()),
        Err(cause) => Err(ProcessingError::ProofProcessorError { cause }),
    }
}

/// Notifies the transcripts of the transcript step for an announcement, if there is one.
fn transcribe<T: ProofTranscriptProcessor>(
    made: &mut Transcript,
    transcripts: &mut [T],
    step: &CheckedProofStep<'_>,
    names: CheckerData<'_>,
) -> Result<(), ProcessingError>
    ensures { Transcribes (λ said r b d. T.reads b said r d)
        (transcript (variables_of names.entry) (announcement_of step.now)) result transcripts.old transcripts.new }
{
    if transcripts.is_empty() {
        return Ok(());
    }
    match made.transcript_step(step, names) {
        Ok(Some(said)) => notify_all(transcripts, &said),
        Ok(None) => Ok(()),
        Err(error) => Err(ProcessingError::from(error)),
    }
}

/// Processors and transcripts, each in the order in which they were added.
#[derive(Drop)]
pub struct Processors<P: ProofProcessor, T: ProofTranscriptProcessor> {
    pub processors: Vec<P>,
    pub transcripts: Vec<T>,
}

/// The listeners of a checker.
#[derive(Drop)]
pub struct Processing<P: ProofProcessor, T: ProofTranscriptProcessor> {
    processors: Vec<P>,
    transcripts: Vec<T>,
    transcript: Transcript,
}

impl<P: ProofProcessor, T: ProofTranscriptProcessor> Processing<P, T> {
    /// Creates an empty collection of listeners. Never allocates.
    pub fn new(alloc: Global) -> Processing<P, T>
        ensures { listeners_of result ≡ record { processors = []; transcripts = [] } }
    {
        Processing {
            processors: Vec::new(alloc),
            transcripts: Vec::new(alloc),
            transcript: Transcript::new(alloc),
        }
    }

    /// Creates a collection with the given listeners, in the given order. Never allocates.
    pub fn again(alloc: Global, listeners: Processors<P, T>) -> Processing<P, T>
        ensures { listeners_of result
            ≡ record { processors = listeners.processors.items; transcripts = listeners.transcripts.items } }
    {
        let Processors {
            processors,
            transcripts,
        } = listeners;
        Processing {
            processors,
            transcripts,
            transcript: Transcript::new(alloc),
        }
    }

    /// Adds a processor. If memory runs out, the processor is dropped.
    pub fn add_processor(&mut self, processor: P) -> Result<(), AllocError>
        ensures ok { OnOk result (listeners_of self.new
            ≡ record (listeners_of self.old) { processors = (listeners_of self.old).processors ++ processor ∷ [] }) }
        ensures err { OnErr result (listeners_of self.new ≡ listeners_of self.old) }
    {
        self.processors.push(processor)?;
        Ok(())
    }

    /// Adds a transcript. If memory runs out, the transcript is dropped.
    pub fn add_transcript(&mut self, transcript: T) -> Result<(), AllocError>
        ensures ok { OnOk result (listeners_of self.new
            ≡ record (listeners_of self.old) { transcripts = (listeners_of self.old).transcripts ++ transcript ∷ [] }) }
        ensures err { OnErr result (listeners_of self.new ≡ listeners_of self.old) }
    {
        self.transcripts.push(transcript)?;
        Ok(())
    }

    /// Returns `true` if there are no listeners.
    pub fn is_quiet(&self) -> bool
        ensures { result ≡ true → listeners_of self.now ≡ record { processors = []; transcripts = [] } }
    {
        self.processors.is_empty() && self.transcripts.is_empty()
    }

    /// Notifies the processors of an announcement, and then the transcripts of its transcript step, if there is one.
    /// Both groups are notified in the order in which their members were added, up to the first error.
    #[inline(never)]
    pub fn step(
        &mut self,
        step: &CheckedProofStep<'_>,
        names: CheckerData<'_>,
    ) -> Result<(), ProcessingError>
        ensures { EachListenerReceives P.takes T.reads self.old (notice_of step.now names.entry) result self.new }
    {
        match notify_processors(&mut self.processors, step, names) {
            Ok(()) => transcribe(&mut self.transcript, &mut self.transcripts, step, names),
            Err(cause) => Err(ProcessingError::ProofProcessorError { cause }),
        }
    }

    /// Notifies `own`, the caller's processor, of an announcement, and then the other listeners, as `step` does.
    #[inline(always)]
    pub fn step_with<O: ProofProcessor>(
        &mut self,
        own: &mut O,
        step: &CheckedProofStep<'_>,
        names: CheckerData<'_>,
    ) -> Result<(), ProcessingError>
        ensures { OwnReceivesFirst O.takes (EachListenerReceives P.takes T.reads)
            (call_listeners own.old self.old) (notice_of step.now names.entry) result (call_listeners own.new self.new) }
    {
        match own.process_step(step, names) {
            Ok(()) => {
                if self.is_quiet() {
                    return Ok(());
                }
                self.step(step, names)
            }
            Err(cause) => Err(ProcessingError::ProofProcessorError { cause }),
        }
    }

    /// Returns the processors and the transcripts, each in the order in which they were added.
    pub fn into_processors(self) -> Processors<P, T>
        ensures processors { result.processors.items ≡ (listeners_of self).processors }
        ensures transcripts { result.transcripts.items ≡ (listeners_of self).transcripts }
    {
        let Processing {
            processors,
            transcripts,
            transcript: _,
        } = self;
        Processors {
            processors,
            transcripts,
        }
    }
}

/// A listener that accepts everything and does nothing. It is both a processor and a transcript.
#[derive(Drop)]
pub struct Nobody {}

impl ProofProcessor for Nobody {
    ghost takes = { AcceptsAllUnchanged };

    fn process_step(
        &mut self,
        _step: &CheckedProofStep<'_>,
        _names: CheckerData<'_>,
    ) -> anyhow::Result<()> {
        Ok(())
    }
}

impl ProofTranscriptProcessor for Nobody {
    ghost use Rattle.std.specs.Prelude.{◌≡◌, Ok};

    ghost reads = { λ old said r new. (r ≡ Ok tt) × (new ≡ old) };

    fn process_step(&mut self, _step: &ProofTranscriptStep<'_>) -> anyhow::Result<()> {
        Ok(())
    }
}

/// Notifies all listeners of an announcement. During the call, they can look up the variables in `variables`.
pub fn process_step<P: ProofProcessor, T: ProofTranscriptProcessor>(
    processing: &mut Processing<P, T>,
    variables: &Variables,
    step: &CheckedProofStep<'_>,
) -> Result<(), ProcessingError>
    ensures { EachListenerReceives P.takes T.reads processing.old
        (record { announcement = announcement_of step.now; variables = variable_at variables.now }) result
        processing.new }
{
    processing.step(step, CheckerData::new(variables))
}
