//! A caller that writes a proof into a borrowed target.
ghost use Rattle.sat_solver_tests.specs.Calling.{CallAnswers, PutsOwned};

use sat_base::{CountedWrite, ProofStep};
use sat_solver::ProofFormat;
use sat_solver::inner::{Proof, ProofError};
use std::alloc::Global;

/// Writes an ask without assumptions, and the last step, into `target`, and returns `target`.
fn write_owned<W: CountedWrite + Drop>(
    alloc: Global,
    target: W,
) -> (Option<W>, Result<(), ProofError>)
    ensures { PutsOwned W.seen result.1 target result.0 }
{
    let mut proof: Proof<W> = Proof::new(alloc);
    proof.open(ProofFormat::Varisat, target);
    let written = match proof.add_step(&ProofStep::Assumptions { assumptions: &[] }) {
        Ok(()) => match proof.close_proof() {
            Ok(target) => (target, Ok(())),
            Err(error) => (proof.take_target(), Err(error)),
        },
        Err(error) => (proof.take_target(), Err(error)),
    };
    drop(proof);
    written
}

/// Writes what `write_owned` writes into a borrowed target.
pub fn write_lent<C: CountedWrite>(alloc: Global, target: &mut C) -> Result<(), ProofError>
    ensures { CallAnswers result (C.seen target.old) (C.seen target.new) }
{
    let (lent, result) = write_owned(alloc, target);
    match lent {
        Some(lent) => {
            let _target: &mut C = lent;
            result
        }
        None => result,
    }
}
