//! Tests of boxed listeners of several types.
use crate::listeners::FailsAt;
use sat_base::Lit;
use sat_checker::{
    CheckedProofStep, Checker, CheckerData, CheckerError, ProofProcessor, ProofTranscriptProcessor,
};
use std::alloc::Global;

type BoxChecker = Checker<Box<dyn ProofProcessor>, Box<dyn ProofTranscriptProcessor>>;

/// A processor that accepts everything.
#[derive(Drop)]
struct Quiet {}

impl ProofProcessor for Quiet {
    ghost use Rattle.std.specs.Prelude.{⊤};

    ghost takes = { λ _ _ _ _. ⊤ };

    fn process_step(
        &mut self,
        _step: &CheckedProofStep<'_>,
        _names: CheckerData<'_>,
    ) -> anyhow::Result<()> {
        Ok(())
    }
}

/// Adds two boxes of different types. The second returns a fault at call number `at`.
fn add_boxes(checker: &mut BoxChecker, alloc: Global, at: u64) -> bool {
    let Ok(quiet) = Box::new(alloc, Quiet {}) else {
        return false;
    };
    let Ok(fails) = Box::new(alloc, FailsAt::new(at)) else {
        return false;
    };
    let first = checker.add_processor(quiet);
    let second = checker.add_processor(fails);
    first.is_ok() && second.is_ok()
}

/// Returns `true` if the clause of `lit` is added, `false` if a listener returns a fault, and `None` for any
/// other error.
fn is_added(checker: &mut BoxChecker, lit: Lit) -> Option<bool> {
    match checker.add_clause(&[lit]) {
        Ok(()) => Some(true),
        Err(CheckerError::ProofProcessorError { cause: _ }) => Some(false),
        Err(_) => None,
    }
}

/// Adds two clauses, while the second box returns a fault at call number `at`. Returns what `add_boxes` and the two
/// calls return, and the number of processors at the end.
fn reported_boxes(alloc: Global, at: u64) -> (bool, Option<bool>, Option<bool>, usize) {
    let mut checker: BoxChecker = Checker::notifying(alloc);
    let added = add_boxes(&mut checker, alloc, at);
    let first = is_added(&mut checker, Lit::from_code(0));
    let second = is_added(&mut checker, Lit::from_code(2));
    let back = checker.into_processors();
    (added, first, second, back.processors.len())
}

#[test]
fn boxes_are_reported_in_order(rt: HostRuntime) {
    let quiet = reported_boxes(rt.alloc(), 0);
    assert!(rt; quiet == (true, Some(true), Some(true), 2));
    let fails = reported_boxes(rt.alloc(), 2);
    assert!(rt; fails == (true, Some(true), Some(false), 2));
}
