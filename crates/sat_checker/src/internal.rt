//! The trait through which a solver has the steps of its own proof checked.
ghost use Rattle.std.specs.Prelude.{Result};
ghost use Rattle.sat_base.specs.steps.Steps.{Step};
ghost use Rattle.sat_base.specs.steps.StepViews.{step_of};
ghost use Rattle.sat_checker.specs.declared.error.CheckerError.{CheckerError as ErrorOfChecker};

use crate::error::CheckerError;
use sat_base::ProofStep;

/// Checks the steps of a proof one at a time, as a solver emits them.
pub trait SelfChecker {
    /// Relates the state before a call to `self_check_step`, the step, the result, and the state after the call.
    ghost checks: { Self → Step → Result (Unit {0}) ErrorOfChecker → Self → Type 0 };

    /// Relates the state before a call to `self_check_delayed_steps`, the result, and the state after the call.
    ghost settles: { Self → Result (Unit {0}) ErrorOfChecker → Self → Type 0 };

    /// Checks the next step, and accepts it if it passes.
    fn self_check_step(&mut self, step: &ProofStep<'_>) -> Result<(), CheckerError>
        ensures { checks self.old (step_of step.now) result self.new };

    /// If a unit conflict is pending, gives its empty clause an id, as `self_check_step` would do first.
    fn self_check_delayed_steps(&mut self) -> Result<(), CheckerError>
        ensures { settles self.old result self.new };
}
