//! Boxed processors and transcripts, which the caller creates. A checker whose listeners are boxed can have listeners
//! of different types.
ghost use Rattle.std.specs.Prelude.{◌≡◌};

use crate::announce::announcement::{CheckedProofStep, CheckerData};
use crate::announce::transcript::{ProofTranscriptProcessor, ProofTranscriptStep};
use crate::processing::ProofProcessor;

/// Passes every announcement to the processor in the box.
impl ProofProcessor for Box<dyn ProofProcessor> {
    ghost use Rattle.std.specs.Prelude.{◌≡◌};

    ghost takes = { λ old t r new. (after : _) × (new ≡ record old { value = after })
        × (ProofProcessor-box old).takes old.value t r after };

    fn process_step(
        &mut self,
        step: &CheckedProofStep<'_>,
        names: CheckerData<'_>,
    ) -> anyhow::Result<()> {
        let object = self.as_mut();
        object.process_step(step, names)
    }
}

/// Passes every transcript step to the transcript in the box.
impl ProofTranscriptProcessor for Box<dyn ProofTranscriptProcessor> {
    ghost use Rattle.std.specs.Prelude.{◌≡◌};

    ghost reads = { λ old said r new. (after : _) × (new ≡ record old { value = after })
        × (ProofTranscriptProcessor-box old).reads old.value said r after };

    fn process_step(&mut self, step: &ProofTranscriptStep<'_>) -> anyhow::Result<()> {
        let object = self.as_mut();
        object.process_step(step)
    }
}
