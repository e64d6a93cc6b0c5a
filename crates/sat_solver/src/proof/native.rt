//! Writes steps to a target in binary. A step is preceded by its width if the width has changed.
ghost use Rattle.std.specs.Prelude.{◌≡◌, ◌∷◌, true, false};
ghost use Rattle.sat_base.specs.steps.StepViews.{step_of};
ghost use Rattle.sat_base.specs.steps.StepWriting.{steps_sink};
ghost use Rattle.sat_solver.specs.declared.proof.format.ProofFormat.TheVariants.{Varisat};
ghost use Rattle.sat_solver.specs.proof.Counting.{width_change};
ghost use Rattle.sat_solver.specs.proof.OutputView.{WritesToSink, SinkReceivesSteps};

use crate::proof::output::OutputError;
use sat_base::{CountedWrite, HashBits, ProofStep, StepWriter};

/// Writes the width `now`, if it differs from `before`.
fn write_width<W: CountedWrite>(
    writer: &mut StepWriter<W>,
    before: HashBits,
    now: HashBits,
) -> Result<(), OutputError>
    ensures { WritesToSink Varisat result (width_change before now) (steps_sink W.seen writer.old)
        (steps_sink W.seen writer.new) }
{
    if before.get() == now.get() {
        return Ok(());
    }
    writer.write(&ProofStep::ChangeHashBits { bits: now })?;
    Ok(())
}

/// Buffers a step if it has the same width as the previous step and is certain to fit. Returns `true` if the step was
/// buffered.
///
/// `widths` contains the width of the previous step and that of this step.
#[inline(always)]
pub fn try_write_at<W: CountedWrite>(
    writer: &mut StepWriter<W>,
    widths: (HashBits, HashBits),
    step: &ProofStep<'_>,
) -> bool
    ensures sends { result ≡ true → SinkReceivesSteps Varisat (step_of step.now ∷ width_change widths.0 widths.1)
        (steps_sink W.seen writer.old) (steps_sink W.seen writer.new) }
    ensures stays { result ≡ false → writer.new ≡ writer.old }
{
    let (before, now) = widths;
    if before.get() != now.get() {
        return false;
    }
    writer.try_write(step)
}

/// Writes a step, preceded by its width if the width has changed. `widths` contains the width of the previous step and
/// that of this step.
pub fn write_at<W: CountedWrite>(
    writer: &mut StepWriter<W>,
    widths: (HashBits, HashBits),
    step: &ProofStep<'_>,
) -> Result<(), OutputError>
    ensures { WritesToSink Varisat result (step_of step.now ∷ width_change widths.0 widths.1)
        (steps_sink W.seen writer.old) (steps_sink W.seen writer.new) }
{
    let (before, now) = widths;
    write_width(writer, before, now)?;
    writer.write(step)?;
    Ok(())
}
