//! The output of a run.

use certify::fault::RunFault;
use certify::run::run;
use sat_base::{Counted, CountedRead};
use std::alloc::Global;

/// A budget that is larger than any worked script needs.
pub(crate) const AMPLE: u64 = 1 << 20;

/// The answers and the certificate that a run writes, even before a fault.
#[derive(Drop)]
pub(crate) struct Written {
    pub(crate) fault: Option<RunFault>,
    pub(crate) answers: Vec<u8>,
    pub(crate) certificate: Vec<u8>,
}

impl Written {
    /// Returns `true` if the run finished and wrote the answers `answers`.
    pub(crate) fn has_answers(&self, answers: &[u8]) -> bool {
        self.fault.is_none() && self.answers.as_slice() == answers
    }
}

pub(crate) fn run_on<S: CountedRead>(alloc: Global, script: &mut S, budget: u64) -> Written {
    let mut answers = Counted::new(Vec::new(alloc));
    let mut certificate = Counted::new(Vec::new(alloc));
    let fault = run(alloc, script, &mut answers, &mut certificate, budget).err();
    Written {
        fault,
        answers: answers.into_inner(),
        certificate: certificate.into_inner(),
    }
}
