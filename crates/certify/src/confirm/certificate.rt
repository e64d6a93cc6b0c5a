//! Matches a certificate step by step with what a script and its answers expect.
ghost use Rattle.std.specs.Prelude.{◌≡◌, []};
ghost use Rattle.sat_checker.specs.CheckerView.{kernel_of};
ghost use Rattle.sat_checker.specs.KernelView.{kernel_looks};
ghost use Rattle.certify.specs.confirm.Streams.{CertificateCall, StepsGoOn, StepsGoOnIf, StepReadsAreFew, SameLoan};
ghost use Rattle.certify.specs.confirm.Streams.{stream_of};
ghost use Rattle.certify.specs.confirm.Awaiting.{MeetsDue, IsUnmetResult};
ghost use Rattle.certify.specs.confirm.Comparing.{due_of};

use crate::confirm::expect::{Expected, Known, fits, why_not_optional};
use crate::confirm::feed::feed;
use crate::confirm::follow::follow;
use crate::confirm::literals::LitScratch;
use crate::confirm::ordered::{Awaited, await_ordered};
use crate::confirm::stop::Stop;
use crate::confirm::variables::NamedVars;
use sat_base::{CountedRead, StepReader};
use sat_checker::Checker;
use std::alloc::Global;

/// The checker that receives a certificate's steps, and the variables of the names.
#[derive(Drop)]
pub(crate) struct Certificate {
    pub checker: Checker,
    pub names: NamedVars,
    room: LitScratch,
}

/// Returns an error unless the expected step may be missing once `unsat` is recorded.
fn require_optional(expected: &Expected<'_>) -> Result<(), Stop>
    ensures { IsUnmetResult (due_of expected.now) result }
{
    let Some(why) = why_not_optional(expected) else {
        return Ok(());
    };
    Err(Stop::No(why))
}

impl Certificate {
    ghost use Rattle.certify.specs.confirm.Awaiting.{CheckerIsAt};

    /// Returns the state before the first step.
    pub fn new(alloc: Global) -> Certificate
        ensures valid { CheckerIsAt (kernel_of result.checker) result.names [] }
        ensures looks { kernel_looks (kernel_of result.checker) ≡ 0 }
    {
        Certificate {
            checker: Checker::new(alloc),
            names: NamedVars::new(alloc),
            room: LitScratch::new(alloc),
        }
    }

    /// Reads and feeds the steps up to the next ordered step, which must be the expected one. Once `unsat` is recorded,
    /// reads no more steps, but checks that the expected step may be missing.
    pub fn expect<R: CountedRead>(
        &mut self,
        steps: &mut StepReader<'_, R>,
        expected: &Expected<'_>,
    ) -> Result<(), Stop>
        requires { StepsGoOn R.seen steps.old }
        ensures same { SameLoan steps.old steps.new }
        ensures bound { StepReadsAreFew R.seen steps.new }
        ensures goes_on { StepsGoOnIf result R.seen steps.new }
        ensures confirms { CertificateCall result (stream_of R.seen steps.old (kernel_of self.old.checker))
            (stream_of R.seen steps.new (kernel_of self.new.checker))
            (MeetsDue (due_of expected.now) self.old.names self.new.names) }
    {
        match await_ordered(&mut self.checker, steps)? {
            Awaited::Cut => return require_optional(expected),
            Awaited::Step => {}
        }
        let step = steps.step();
        let known = Known {
            checker: &self.checker,
            variables: &self.names,
        };
        if let Some(why) = fits(known, &step, expected, &mut self.room)? {
            return Err(Stop::No(why));
        }
        feed(&mut self.checker, &step)?;
        follow(&mut self.names, expected, &step)?;
        Ok(())
    }
}
