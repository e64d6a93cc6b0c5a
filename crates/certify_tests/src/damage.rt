//! Tests of answers and certificates in which one bit is flipped.

use crate::confirm::said_whole;
use crate::written::{AMPLE, run_on};
use certify::verdict::{ConfirmFault, Verdict};
use sat_base::Counted;
use std::alloc::Global;

fn turn(bytes: &mut [u8], place: usize, bit: usize) {
    if place < bytes.len() && bit < 8 {
        bytes[place] ^= 1 << bit;
    }
}

/// Returns `true` if there is a verdict, which may be `Yes` only if `may_match`.
fn may_be(said: Result<Verdict, ConfirmFault>, may_match: bool) -> bool {
    match said {
        Ok(Verdict::Yes) => may_match,
        Ok(Verdict::No { .. }) => true,
        Err(_) => false,
    }
}

/// Returns `true` if answers with one flipped bit are never confirmed.
fn answers_are_denied(
    alloc: Global,
    script: &[u8],
    answers: &mut [u8],
    certificate: &[u8],
) -> bool {
    for at in 0..answers.len() {
        for bit in 0..8 {
            turn(answers, at, bit);
            let said = said_whole(alloc, (script, answers, certificate));
            turn(answers, at, bit);
            if !may_be(said, false) {
                return false;
            }
        }
    }
    true
}

/// Returns `true` if there is a verdict for every certificate with one flipped bit. It may be `Yes`, since the answers
/// are correct.
fn certificates_are_reported(
    alloc: Global,
    script: &[u8],
    answers: &[u8],
    certificate: &mut [u8],
) -> bool {
    for at in 0..certificate.len() {
        for bit in 0..8 {
            turn(certificate, at, bit);
            let said = said_whole(alloc, (script, answers, certificate));
            turn(certificate, at, bit);
            if !may_be(said, true) {
                return false;
            }
        }
    }
    true
}

/// Tests `answers_are_denied` and `certificates_are_reported` on what a run writes for a script.
fn are_reported(alloc: Global, script: &[u8]) -> bool {
    let mut written = run_on(alloc, &mut Counted::new(script), AMPLE);
    answers_are_denied(alloc, script, &mut written.answers, &written.certificate)
        && certificates_are_reported(alloc, script, &written.answers, &mut written.certificate)
}

/// Scripts in which a variable is deleted, asks have cores and a model, a hidden name is introduced again, and the
/// clauses are refuted.
static SCRIPTS: [&[u8]; 4] = [
    b"1 2 0\n-2 0\nh 2 0\na -1 0\n",
    b"1 0\na -1 0\n2 0\na 0\n-3 -4 0\na 3 4 0\n",
    b"1 0\na 1 0\nh 1 0\n-1 0\na 0\n",
    b"1 2 0\n1 -2 0\n-1 2 0\n-1 -2 0\na 0\n",
];

#[test]
fn turned_bits_are_reported(rt: HostRuntime) {
    for &script in &SCRIPTS {
        assert!(rt; are_reported(rt.alloc(), script), "{script:?}");
    }
}
