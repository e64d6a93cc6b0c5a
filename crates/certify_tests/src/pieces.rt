//! Tests of texts with a clause of 5,000 literals that are read in pieces. No read asks for more than 4,096 bytes.

use crate::devices::in_pieces;
use crate::written::run_on;
use certify::answers::write::{push_literal, push_sat};
use certify::confirm::confirm;
use certify::verdict::{ConfirmFault, Verdict};
use sat_base::{Counted, CountedWrite, Lit, ProofStep, Var, write_step};
use sat_checker::Looks;
use std::alloc::{AllocError, Global};
use std::io;

const COUNT: usize = 5000;

/// Returns the positive literals of the first `COUNT` names.
fn literals(alloc: Global) -> Result<Vec<Lit>, AllocError> {
    let mut lits = Vec::new(alloc);
    for index in 0..COUNT {
        lits.push(Lit::from_index(index, true))?;
    }
    Ok(lits)
}

/// Returns a script with a clause of the literals, and an ask.
fn script_of(alloc: Global, lits: &[Lit]) -> Result<Vec<u8>, AllocError> {
    let mut script = Vec::new(alloc);
    for lit in lits {
        push_literal(&mut script, *lit)?;
        script.push(b' ')?;
    }
    script.extend_from_slice(b"0\na 0\n")?;
    Ok(script)
}

/// Returns the answer with a model in which all literals are true.
fn answers_of(alloc: Global, lits: &[Lit]) -> Result<Vec<u8>, AllocError> {
    let mut answers = Vec::new(alloc);
    push_sat(&mut answers, lits)?;
    Ok(answers)
}

/// Writes a step for each variable that gives it a user name.
fn write_names<W: CountedWrite>(out: &mut W) -> io::Result<()> {
    for index in 0..COUNT {
        let var = Var::from_index(index);
        let user = Some(var);
        write_step(out, &ProofStep::UserVarName { global: var, user })?;
    }
    Ok(())
}

/// Writes the steps of the clause and the ask.
fn write_steps<W: CountedWrite>(out: &mut W, lits: &[Lit]) -> io::Result<()> {
    write_names(out)?;
    let none = ProofStep::Assumptions { assumptions: &[] };
    write_step(out, &ProofStep::AddClause { clause: lits })?;
    write_step(out, &none)?;
    write_step(out, &ProofStep::Model { assignment: lits })?;
    write_step(out, &none)?;
    write_step(out, &ProofStep::End)
}

fn certificate_of(alloc: Global, lits: &[Lit]) -> io::Result<Vec<u8>> {
    let mut out = Counted::new(Vec::new(alloc));
    write_steps(&mut out, lits)?;
    Ok(out.into_inner())
}

/// Returns the verdict on texts that are read in pieces of `piece` bytes, and the size of the largest buffer that a
/// reader was given.
fn said_in(
    alloc: Global,
    texts: (&[u8], &[u8], &[u8]),
    piece: usize,
) -> (Result<Verdict, ConfirmFault>, usize) {
    let mut script = in_pieces(texts.0, piece);
    let mut answers = in_pieces(texts.1, piece);
    let mut certificate = in_pieces(texts.2, piece);
    let said = confirm(
        alloc,
        &mut script,
        &mut answers,
        &mut certificate,
        &mut Looks::new(),
    );
    let asked = script
        .into_inner()
        .largest
        .max(answers.into_inner().largest);
    (said, asked.max(certificate.into_inner().largest))
}

/// Returns `true` if texts are confirmed in pieces of various sizes.
fn are_confirmed(alloc: Global, texts: (&[u8], &[u8], &[u8])) -> bool {
    for piece in [1, 2, 4095, 4096, 8192] {
        let (said, asked) = said_in(alloc, texts, piece);
        if said != Ok(Verdict::Yes) || asked > 4096 {
            return false;
        }
    }
    true
}

/// Returns `true` if the clause and its model are confirmed.
fn is_confirmed(alloc: Global) -> io::Result<bool> {
    let lits = literals(alloc)?;
    let script = script_of(alloc, &lits)?;
    let answers = answers_of(alloc, &lits)?;
    let certificate = certificate_of(alloc, &lits)?;
    Ok(are_confirmed(alloc, (&script, &answers, &certificate)))
}

/// Returns the answers of a run over a script in pieces of `piece` bytes, if they are confirmed in such pieces and no
/// larger read was requested.
fn answers_in(alloc: Global, script: &[u8], piece: usize) -> Option<Vec<u8>> {
    let mut reader = in_pieces(script, piece);
    let written = run_on(alloc, &mut reader, 1);
    let texts = (
        script,
        written.answers.as_slice(),
        written.certificate.as_slice(),
    );
    let is_confirmed = written.fault.is_none()
        && reader.into_inner().largest <= 4096
        && said_in(alloc, texts, piece).0 == Ok(Verdict::Yes);
    if is_confirmed {
        Some(written.answers)
    } else {
        None
    }
}

/// Returns `true` if runs over a clause of all literals are confirmed, with the same answers in pieces of 1 byte and of
/// 4,096 bytes.
fn is_run(alloc: Global) -> Result<bool, AllocError> {
    let lits = literals(alloc)?;
    let script = script_of(alloc, &lits)?;
    match (
        answers_in(alloc, &script, 1),
        answers_in(alloc, &script, 4096),
    ) {
        (Some(bytewise), Some(whole)) => Ok(bytewise.as_slice() == whole.as_slice()),
        (Some(_), None) => Ok(false),
        (None, _) => Ok(false),
    }
}

#[test]
fn no_text_is_held_whole(rt: HostRuntime) {
    assert!(rt; is_confirmed(rt.alloc()).unwrap_or(false));
}

#[test]
fn a_run_of_many_literals_is_confirmed(rt: HostRuntime) {
    assert!(rt; is_run(rt.alloc()) == Ok(true));
}
