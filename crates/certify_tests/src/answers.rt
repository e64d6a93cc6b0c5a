//! Tests of how answers are written and read.

use certify::answers::read::{AnswerFault, AnswerKind, read_kind, read_line, read_outcome};
use certify::answers::write::{
    push_literal, push_malformed, push_refused_limit, push_sat, push_unknown, push_unsat,
};
use sat_base::{Lit, take_text};
use std::alloc::{AllocError, Global};

/// Appends the literals with the given DIMACS numbers, except 0 and numbers past the limit. Returns `false` if memory
/// runs out.
fn push_lits(lits: &mut Vec<Lit>, numbers: &[i64]) -> bool {
    for number in numbers {
        let pushed = match Lit::from_dimacs(*number) {
            Some(lit) => lits.push(lit).is_ok(),
            None => true,
        };
        if !pushed {
            return false;
        }
    }
    true
}

/// An answer's kind, the numbers of its line, and its text.
type Answer = (AnswerKind, &'static [i64], &'static [u8]);

static ANSWERS: [Answer; 6] = [
    (AnswerKind::Sat, &[-1, 2], b"s SATISFIABLE\nv -1 2 0\n"),
    (AnswerKind::Unsat, &[1, -1], b"s UNSATISFIABLE\nf 1 -1 0\n"),
    (AnswerKind::Sat, &[], b"s SATISFIABLE\nv 0\n"),
    (AnswerKind::Unsat, &[], b"s UNSATISFIABLE\nf 0\n"),
    (AnswerKind::Unknown, &[], b"s UNKNOWN\n"),
    (
        AnswerKind::Sat,
        &[-268435456],
        b"s SATISFIABLE\nv -268435456 0\n",
    ),
];

fn all_answers() -> &'static [Answer] {
    &ANSWERS
}

fn push(out: &mut Vec<u8>, kind: AnswerKind, line: &[Lit]) -> Result<(), AllocError> {
    match kind {
        AnswerKind::Sat => push_sat(out, line),
        AnswerKind::Unsat => push_unsat(out, line),
        AnswerKind::Unknown => push_unknown(out),
    }
}

/// Returns `true` if `text` is what is written for an answer with the literals `line`.
fn is_written(alloc: Global, kind: AnswerKind, line: &[Lit], text: &[u8]) -> bool {
    let mut out = Vec::new(alloc);
    push(&mut out, kind, line).is_ok() && out.as_slice() == text
}

/// Returns `true` if an answer of kind `kind` with the literals `line` is read from the start of `text`, and `rest` is
/// left. The vector that receives the literals isn't empty before.
fn is_read(alloc: Global, text: &[u8], kind: AnswerKind, line: &[Lit], rest: &[u8]) -> bool {
    let mut found = Vec::new(alloc);
    push_lits(&mut found, &[7])
        && read_outcome(text, &mut found) == Ok((kind, rest))
        && found.as_slice() == line
}

/// Returns `true` if `text` is written for an answer with the literals `line`, and is read as that answer, both on its
/// own and when another answer follows.
fn is_text_of(alloc: Global, kind: AnswerKind, line: &[Lit], text: &[u8]) -> bool {
    let mut longer = Vec::new(alloc);
    longer.extend_from_slice(text).is_ok()
        && push_unknown(&mut longer).is_ok()
        && is_written(alloc, kind, line, text)
        && is_read(alloc, text, kind, line, b"")
        && is_read(alloc, longer.as_slice(), kind, line, b"s UNKNOWN\n")
}

fn has_text(alloc: Global, (kind, numbers, text): Answer) -> bool {
    let mut line = Vec::new(alloc);
    push_lits(&mut line, numbers) && is_text_of(alloc, kind, line.as_slice(), text)
}

#[test]
fn answers_are_written_and_read(rt: HostRuntime) {
    for &answer in all_answers() {
        assert!(rt; has_text(rt.alloc(), answer), "{answer:?}");
    }
}

/// Returns the fault with which `bytes` are refused as an answer, or `None`.
fn fault_of(alloc: Global, bytes: &[u8]) -> Option<AnswerFault> {
    let mut line = Vec::new(alloc);
    read_outcome(bytes, &mut line).err()
}

static OUT_OF_FORM: [&[u8]; 13] = [
    b"s UNSATISFIABLE\nf -1 1 0\n",
    b"s UNSATISFIABLE\nf 1 1 0\n",
    b"s SATISFIABLE\nv 2 1 0\n",
    b"s SATISFIABLE\nv 1 -1 0\n",
    b"s SATISFIABLE\nv 01 0\n",
    b"s SATISFIABLE\nv -0 0\n",
    b"s SATISFIABLE\nv 1  2 0\n",
    b"s SATISFIABLE\nv  0\n",
    b"s SATISFIABLE\nv 1 0",
    b"s SATISFIABLE\nf 1 0\n",
    b"s SATISFIABLE",
    b"c refused 1 limit\n",
    b"s SATISFIABLE\nv -268435457 0\n",
];

fn out_of_form() -> &'static [&'static [u8]] {
    &OUT_OF_FORM
}

/// Texts that end where a line is expected.
static MISSING: [&[u8]; 3] = [b"", b"s SATISFIABLE\n", b"s UNSATISFIABLE\n"];

/// Returns `true` if every text is refused with `fault`.
fn are_refused(alloc: Global, texts: &[&[u8]], fault: AnswerFault) -> bool {
    for text in texts {
        if fault_of(alloc, *text) != Some(fault) {
            return false;
        }
    }
    true
}

#[test]
fn other_texts_are_no_answers(rt: HostRuntime) {
    assert!(rt; are_refused(rt.alloc(), out_of_form(), AnswerFault::Text));
    assert!(rt; are_refused(rt.alloc(), &MISSING, AnswerFault::Missing));
}

/// Returns `true` if the literals `core` are read from the line of a core at the start of `text`, and `rest` is left.
fn core_is_read(alloc: Global, text: &[u8], core: &[i64], rest: &[u8]) -> bool {
    let mut wanted = Vec::new(alloc);
    let mut line = Vec::new(alloc);
    push_lits(&mut wanted, core)
        && read_line(AnswerKind::Unsat, text, &mut line) == Ok(rest)
        && line.as_slice() == wanted.as_slice()
}

const CORE: &[u8] = b"f 3 0\nrest";

const REST: &[u8] = b"rest";

#[test]
fn single_lines_are_read(rt: HostRuntime) {
    assert!(rt; read_kind(b"s UNSATISFIABLE\nf 3 0\nrest") == Ok((AnswerKind::Unsat, CORE)));
    assert!(rt; core_is_read(rt.alloc(), CORE, &[3], REST));
    assert!(rt; (take_text(CORE, b"f 3 0\n"), take_text(CORE, b"f 4 0\n")) == (Some(REST), None));
}

fn push_others(out: &mut Vec<u8>) -> Result<(), AllocError> {
    push_refused_limit(out, 12)?;
    push_malformed(out, 1)?;
    push_malformed(out, u64::MAX)?;
    push_literal(out, Lit::from_index(9, false))
}

#[test]
fn other_lines_are_written(rt: HostRuntime) {
    let mut out = Vec::new(rt.alloc());
    assert!(rt; push_others(&mut out).is_ok());
    let text: &[u8] = b"c refused 12 limit\nc malformed 1\nc malformed 18446744073709551615\n-10";
    assert!(rt; out.as_slice() == text);
}
