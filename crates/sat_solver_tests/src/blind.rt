//! A checker that can't distinguish hashes: it receives each step with a width of 0 and with hashes of 0.

use sat_base::{
    ClauseHash, Counted, CountedRead, DeleteClauseProof, HashBits, Lit, ProofStep, StepError,
    StepReader,
};
use sat_checker::{Checker, SelfChecker};
use std::alloc::{AllocError, Global};

/// Scratch memory for the hashes of a step, and the number of clauses that were deleted as redundant.
#[derive(Drop)]
struct Blanks {
    hashes: Vec<ClauseHash>,
    units: Vec<(Lit, ClauseHash)>,
    reductions: u64,
}

impl Blanks {
    fn new(alloc: Global) -> Blanks {
        Blanks {
            hashes: Vec::new(alloc),
            units: Vec::new(alloc),
            reductions: 0,
        }
    }

    /// Sets the hashes to as many zeros as `hashes` has items.
    fn take_hashes(&mut self, hashes: &[ClauseHash]) -> Result<(), AllocError> {
        self.hashes.clear();
        for _ in hashes {
            self.hashes.push(0)?;
        }
        Ok(())
    }

    /// Sets the units to `units`, but with hashes of 0.
    fn take_units(&mut self, units: &[(Lit, ClauseHash)]) -> Result<(), AllocError> {
        self.units.clear();
        for unit in units {
            self.units.push((unit.0, 0))?;
        }
        Ok(())
    }
}

fn is_taken<C: SelfChecker>(checker: &mut C, step: &ProofStep<'_>) -> bool {
    checker.self_check_step(step).is_ok()
}

/// Passes a step that has hashes to the checker, with hashes of 0. Returns whether it is accepted, or `None` for a step
/// of another kind.
fn takes_hashed<C: SelfChecker>(
    checker: &mut C,
    blanks: &mut Blanks,
    step: &ProofStep<'_>,
) -> Option<bool> {
    match *step {
        ProofStep::AtClause {
            redundant,
            clause,
            propagation_hashes,
        } => {
            let room = blanks.take_hashes(propagation_hashes).is_ok();
            let blind = ProofStep::AtClause {
                redundant,
                clause,
                propagation_hashes: &blanks.hashes,
            };
            Some(room && is_taken(checker, &blind))
        }
        ProofStep::FailedAssumptions {
            failed_core,
            propagation_hashes,
        } => {
            let room = blanks.take_hashes(propagation_hashes).is_ok();
            let blind = ProofStep::FailedAssumptions {
                failed_core,
                propagation_hashes: &blanks.hashes,
            };
            Some(room && is_taken(checker, &blind))
        }
        ProofStep::UnitClauses { units } => {
            let room = blanks.take_units(units).is_ok();
            let blind = ProofStep::UnitClauses {
                units: &blanks.units,
            };
            Some(room && is_taken(checker, &blind))
        }
        _ => None,
    }
}

fn is_reduction(step: &ProofStep<'_>) -> bool {
    match step {
        ProofStep::DeleteClause { proof, .. } => *proof == DeleteClauseProof::Redundant,
        _ => false,
    }
}

/// Passes a step to the checker, with a width and hashes of 0. Returns whether it is accepted.
fn takes<C: SelfChecker>(checker: &mut C, blanks: &mut Blanks, step: &ProofStep<'_>) -> bool {
    if let Some(taken) = takes_hashed(checker, blanks, step) {
        return taken;
    }
    if is_reduction(step) {
        blanks.reductions = blanks.reductions.saturating_add(1);
    }
    if let ProofStep::ChangeHashBits { .. } = step {
        return match HashBits::new(0) {
            Some(bits) => is_taken(checker, &ProofStep::ChangeHashBits { bits }),
            None => false,
        };
    }
    is_taken(checker, step)
}

/// An upper bound on the number of steps in a proof.
const MOST: usize = 10_000;

/// Returns `true` if every step of a reader, up to the end of its proof, is accepted.
fn are_taken<C: SelfChecker, R: CountedRead>(
    checker: &mut C,
    blanks: &mut Blanks,
    steps: &mut StepReader<'_, R>,
) -> bool {
    for _ in 0..MOST {
        match steps.advance() {
            Ok(()) => {}
            Err(StepError::Ends) => return true,
            Err(_) => return false,
        }
        if !takes(checker, blanks, &steps.step()) {
            return false;
        }
    }
    false
}

fn are_read<C: SelfChecker, R: CountedRead>(
    alloc: Global,
    checker: &mut C,
    blanks: &mut Blanks,
    reader: &mut R,
) -> bool {
    are_taken(checker, blanks, &mut StepReader::new(alloc, reader))
}

/// Returns the number of clauses that a proof deletes as redundant, or `None` if its steps aren't accepted when all
/// hashes are 0.
pub(crate) fn reductions(alloc: Global, text: &[u8]) -> Option<u64> {
    let mut checker = Checker::new(alloc);
    let mut blanks = Blanks::new(alloc);
    let taken = are_read(alloc, &mut checker, &mut blanks, &mut Counted::new(text));
    drop(checker);
    if taken { Some(blanks.reductions) } else { None }
}
