//! Finds the next ordered step of a certificate, and feeds the steps before it to the checker.
ghost use Rattle.std.specs.Prelude.{◌<◌, IfNone, IfOk};
ghost use Rattle.sat_base.specs.steps.StepReading.{reader_source};
ghost use Rattle.sat_checker.specs.CheckerView.{kernel_of};
ghost use Rattle.certify.specs.confirm.Stepping.{is_fed, is_fed_so_far};
ghost use Rattle.certify.specs.confirm.Streams.{StepsGoOn, StepsGoOnIf, StepReadsAreFew, CallReturns, SameLoan};
ghost use Rattle.certify.specs.confirm.Streams.{most_bytes_left};
ghost use Rattle.certify.specs.confirm.Streams.{stream_of};
ghost use Rattle.certify.specs.declared.confirm.variables.NamedVars.{NamedVars};
ghost use Rattle.certify.specs.confirm.Awaiting.{AwaitsNext, AwaitsByOneStep};

use crate::confirm::feed::{feed, is_ordered, read_next, settle};
use crate::confirm::stop::Stop;
use sat_base::{CountedRead, StepReader};
use sat_checker::Checker;

/// The result of looking for an ordered step.
#[derive(Clone, Copy)]
pub(crate) enum Awaited {
    /// The step that was read last is ordered. It has not been fed to the checker yet.
    Step,
    /// The checker has recorded `unsat`, so nothing more is read.
    Cut,
}

/// Reads one more step, unless `unsat` is recorded. If the step is not ordered, feeds it to the checker and
/// returns `None`.
fn advance<R: CountedRead>(
    checker: &mut Checker,
    steps: &mut StepReader<'_, R>,
) -> Result<Option<Awaited>, Stop>
    requires { StepsGoOn R.seen steps.old }
    ensures same { SameLoan steps.old steps.new }
    ensures bound { StepReadsAreFew R.seen steps.new }
    ensures goes_on { StepsGoOnIf result R.seen steps.new }
    ensures takes { IfOk result (λ awaited. IfNone awaited
        (most_bytes_left (reader_source R.seen steps.new) < most_bytes_left (reader_source R.seen steps.old))) }
    ensures confirms { (names : NamedVars)
        → CallReturns is_fed_so_far result (stream_of R.seen steps.old (kernel_of checker.old))
        (stream_of R.seen steps.new (kernel_of checker.new)) (AwaitsByOneStep names) }
{
    if checker.unsat() {
        return Ok(Some(Awaited::Cut));
    }
    read_next(steps)?;
    if is_ordered(steps.tag()) {
        return Ok(Some(Awaited::Step));
    }
    let step = steps.step();
    feed(checker, &step)?;
    Ok(None)
}

/// Feeds the steps before the next ordered step to the checker. Returns `Step` if that step was read, or `Cut` if
/// `unsat` is recorded before it.
fn find_ordered<R: CountedRead>(
    checker: &mut Checker,
    steps: &mut StepReader<'_, R>,
) -> Result<Awaited, Stop>
    requires { StepsGoOn R.seen steps.old }
    ensures same { SameLoan steps.old steps.new }
    ensures bound { StepReadsAreFew R.seen steps.new }
    ensures goes_on { StepsGoOnIf result R.seen steps.new }
    ensures confirms { (names : NamedVars)
        → CallReturns is_fed result (stream_of R.seen steps.old (kernel_of checker.old))
        (stream_of R.seen steps.new (kernel_of checker.new)) (AwaitsNext names) }
{
    loop {
        if let Some(awaited) = advance(checker, steps)? {
            return Ok(awaited);
        }
    }
}

/// Feeds the steps before the next ordered step to the checker, and then settles a pending unit conflict. Returns
/// `Step` if the ordered step was read, or `Cut` if `unsat` is recorded before it.
pub(crate) fn await_ordered<R: CountedRead>(
    checker: &mut Checker,
    steps: &mut StepReader<'_, R>,
) -> Result<Awaited, Stop>
    requires { StepsGoOn R.seen steps.old }
    ensures same { SameLoan steps.old steps.new }
    ensures bound { StepReadsAreFew R.seen steps.new }
    ensures goes_on { StepsGoOnIf result R.seen steps.new }
    ensures confirms { (names : NamedVars)
        → CallReturns is_fed result (stream_of R.seen steps.old (kernel_of checker.old))
        (stream_of R.seen steps.new (kernel_of checker.new)) (AwaitsNext names) }
{
    let awaited = find_ordered(checker, steps)?;
    settle(checker)?;
    Ok(awaited)
}
