//! Tests of proofs that are written, and of targets that fail.
ghost use Rattle.sat_solver.specs.proof.ProofView.{HasAllowedSteps};

use crate::caller::write_lent;
use crate::devices::{ByFew, by_few};
use sat_base::{Counted, CountedWrite, Lit, ProofStep, Var};
use sat_solver::ProofFormat;
use sat_solver::inner::Proof;
use std::alloc::{AllocError, Global};

/// How many bytes of a piece a target accepts at most, and which call of it fails, counted from 1.
type Device = (usize, u64);

/// The number of calls of a target, the number of bytes that it accepted, and whether they are a prefix of the text.
type Seen = (u64, usize, bool);

const NOTHING: Seen = (0, 0, true);

/// The text of two steps, of two more steps, and of the last step.
const TEXT: &[u8] = &[1, 3, 1, 11, 0, 1, 3, 1, 11, 0, 13];

/// Makes two steps. Returns whether both succeed.
fn make_two<W: CountedWrite + Drop>(proof: &mut Proof<W>) -> bool
    requires { HasAllowedSteps proof.old }
    ensures { HasAllowedSteps proof.new }
{
    let name = ProofStep::SolverVarName {
        global: Var::from_index(3),
        solver: Some(Var::from_index(0)),
    };
    let first = proof.add_step(&name).is_ok();
    let ask = ProofStep::Assumptions { assumptions: &[] };
    proof.add_step(&ask).is_ok() && first
}

/// Returns what a target saw, or `NOTHING` if there is no target.
fn seen(target: Option<Counted<ByFew>>, text: &[u8]) -> Seen {
    match target {
        None => NOTHING,
        Some(target) => {
            let device = target.into_inner();
            let len = device.taken.len();
            (device.calls, len, text.starts_with(&device.taken))
        }
    }
}

/// Closes a proof. Returns whether the closing returned the target, or `None` if the closing failed; and what the
/// target saw.
fn closed(mut proof: Proof<Counted<ByFew>>, text: &[u8]) -> (Option<bool>, Seen)
    requires { HasAllowedSteps proof }
{
    let (came, target) = match proof.close_proof() {
        Ok(Some(target)) => (Some(true), Some(target)),
        Ok(None) => (Some(false), proof.take_target()),
        Err(_) => (None, proof.take_target()),
    };
    drop(proof);
    (came, seen(target, text))
}

/// Makes two steps, flushes them, makes two more steps, and closes the proof. Returns whether the steps succeed,
/// whether the flush does, and what `closed` returns.
fn written(alloc: Global, device: Device) -> (bool, bool, (Option<bool>, Seen)) {
    let mut proof: Proof<Counted<ByFew>> = Proof::new(alloc);
    proof.open(ProofFormat::Varisat, by_few(alloc, device.0, device.1));
    let first = make_two(&mut proof);
    let flushed = proof.flush_proof().is_ok();
    let second = make_two(&mut proof);
    (first && second, flushed, closed(proof, TEXT))
}

/// Makes a step of more bytes than the buffer holds, and two more steps. Returns whether the first step succeeds,
/// whether the others do, and what `closed` returns.
fn long_written(
    alloc: Global,
    device: Device,
) -> Result<(bool, bool, (Option<bool>, Seen)), AllocError> {
    let lits: Vec<Lit> = vec![in alloc; Var::from_index(0).positive(); 20_000]?;
    let mut proof: Proof<Counted<ByFew>> = Proof::new(alloc);
    proof.open(ProofFormat::Varisat, by_few(alloc, device.0, device.1));
    let long = proof.add_step(&ProofStep::Assumptions { assumptions: &lits });
    let long = long.is_ok();
    let more = make_two(&mut proof);
    Ok((long, more, closed(proof, &[11, 160, 156, 1, 0])))
}

/// Makes steps without a target. Returns whether they succeed, and what `closed` returns.
fn unwritten(alloc: Global) -> (bool, (Option<bool>, Seen)) {
    let mut proof: Proof<Counted<ByFew>> = Proof::new(alloc);
    let made = make_two(&mut proof) && proof.flush_proof().is_ok();
    (made && !proof.is_open(), closed(proof, &[]))
}

/// Returns `true` if a caller's steps reach a borrowed target.
fn is_lent(alloc: Global) -> bool {
    let mut target = Counted::new(Vec::new(alloc));
    let done = write_lent(alloc, &mut target).is_ok();
    done && target.into_inner().as_slice() == [11, 0, 13].as_slice()
}

/// A device, whether the flush succeeds, the result of closing, and what the device saw.
type Row = (Device, bool, Option<bool>, Seen);

/// A device that accepts 4 bytes of a piece and never fails; the same device with each of its calls failing; a device
/// that accepts one byte of a piece; and one that accepts all.
const ROWS: &[Row] = &[
    ((4, 0), true, Some(true), (6, 11, true)),
    ((4, 1), false, Some(false), (1, 0, true)),
    ((4, 2), false, Some(false), (2, 4, true)),
    ((4, 3), false, Some(false), (3, 5, true)),
    ((4, 4), true, None, (4, 5, true)),
    ((4, 5), true, None, (5, 9, true)),
    ((4, 6), true, None, (6, 11, true)),
    ((4, 7), true, Some(true), (6, 11, true)),
    ((1, 0), true, Some(true), (13, 11, true)),
    ((64, 0), true, Some(true), (4, 11, true)),
    ((0, 0), false, Some(false), (1, 0, true)),
];

/// Returns `true` if each row has the expected results.
fn rows_are_right(alloc: Global) -> bool {
    for (device, flushed, came, saw) in ROWS {
        if written(alloc, *device) != (true, *flushed, (*came, *saw)) {
            return false;
        }
    }
    true
}

#[test]
fn a_fault_is_answered_once_and_the_target_is_left_alone(rt: HostRuntime) {
    assert!(rt; rows_are_right(rt.alloc()));
}

#[test]
fn steps_need_no_target(rt: HostRuntime) {
    assert!(rt; unwritten(rt.alloc()) == (true, (Some(false), NOTHING)));
}

#[test]
fn a_step_fails_at_a_full_buffer(rt: HostRuntime) {
    let answer = long_written(rt.alloc(), (4, 2));
    assert!(rt; answer == Ok((false, true, (Some(false), (2, 4, true)))));
}

#[test]
fn a_lent_target_takes_the_text(rt: HostRuntime) {
    assert!(rt; is_lent(rt.alloc()));
}
