//! Tests of written texts, and of writes that fail.
//!
//! A function that owns a formula has no `?`, which would take long to prove.

use crate::devices::by_few;
use crate::dimacs::add_thousand;
use sat_base::{CnfFormula, Counted, ExtendFormula, FormulaError, Lit, Var, write_dimacs};
use std::alloc::Global;

/// Returns a formula's text, or `None` if memory runs out.
fn written(alloc: Global, formula: &CnfFormula) -> Option<Vec<u8>> {
    let mut writer = Counted::new(Vec::new(alloc));
    let is_written = write_dimacs(&mut writer, formula).is_ok();
    let text = writer.into_inner();
    if is_written { Some(text) } else { None }
}

/// Adds nothing at stage 0; at stage 1, a clause and a variable that occurs in no clause; at a later stage, also an
/// empty clause and a clause of the last variable.
fn fill(formula: &mut CnfFormula, stage: u64) -> Result<(), FormulaError> {
    if stage == 0 {
        return Ok(());
    }
    formula.add_clause(&[Lit::from_index(0, true), Lit::from_index(1, false)])?;
    formula.set_var_count(3);
    if stage == 1 {
        return Ok(());
    }
    formula.add_clause(&[])?;
    formula.set_var_count(Var::max_count());
    formula.add_clause(&[Lit::from_index(268_435_455, false)])?;
    Ok(())
}

fn has_text(alloc: Global, formula: &CnfFormula, text: &[u8]) -> bool {
    match written(alloc, formula) {
        Some(found) => found.as_slice() == text,
        None => false,
    }
}

fn stage_has_text(alloc: Global, stage: u64, text: &[u8]) -> bool {
    let mut formula = CnfFormula::new(alloc);
    fill(&mut formula, stage) == Ok(()) && has_text(alloc, &formula, text)
}

const TEXTS: [(u64, &[u8]); 3] = [
    (0, b"p cnf 0 0\n"),
    (1, b"p cnf 3 1\n1 -2 0\n"),
    (2, b"p cnf 268435456 3\n1 -2 0\n0\n-268435456 0\n"),
];

fn texts() -> &'static [(u64, &'static [u8])] {
    &TEXTS
}

#[test]
fn formulas_have_these_texts(rt: HostRuntime) {
    for &(stage, text) in texts() {
        assert!(rt; stage_has_text(rt.alloc(), stage, text), "{stage}");
    }
}

/// Writes a formula to a writer that accepts at most `most` bytes per call, and whose call number `failing` fails,
/// counted from 1. Returns whether the formula was written, the number of calls, and whether the accepted bytes
/// are `text`.
fn by_few_calls(
    alloc: Global,
    formula: &CnfFormula,
    (most, failing): (usize, u64),
    text: &[u8],
) -> (bool, u64, bool) {
    let mut writer = by_few(alloc, most, failing);
    let is_written = write_dimacs(&mut writer, formula).is_ok();
    let device = writer.into_inner();
    (is_written, device.calls, device.taken.as_slice() == text)
}

fn length(alloc: Global, formula: &CnfFormula) -> Option<usize> {
    Some(written(alloc, formula)?.len())
}

/// Returns the first two results of `by_few_calls`.
fn calls(alloc: Global, formula: &CnfFormula, most: usize, failing: u64) -> (bool, u64) {
    let (is_written, calls, _) = by_few_calls(alloc, formula, (most, failing), &[]);
    (is_written, calls)
}

/// Returns the number of the first of three calls whose failure doesn't end the writing, or `None`.
fn wrong_call(alloc: Global, formula: &CnfFormula) -> Option<u64> {
    for failing in [1, 2, 3] {
        if calls(alloc, formula, 4096, failing) != (false, failing) {
            return Some(failing);
        }
    }
    None
}

/// Returns `true` if a thousand clauses are written with three calls, and a failed call is the last one.
fn is_not_tried_again(alloc: Global, formula: &mut CnfFormula) -> bool {
    add_thousand(formula) == Ok(())
        && length(alloc, formula) == Some(8_909)
        && wrong_call(alloc, formula) == None
        && calls(alloc, formula, 4096, 4) == (true, 3)
}

#[test]
fn a_failed_write_is_not_tried_again(rt: HostRuntime) {
    let mut formula = CnfFormula::new(rt.alloc());
    assert!(rt; is_not_tried_again(rt.alloc(), &mut formula));
}

/// Returns the number of the first byte, counted from 1, such that the call that fails for it doesn't leave exactly the
/// bytes before it; or `None`.
fn wrong_byte(alloc: Global, formula: &CnfFormula, text: &[u8]) -> Option<u64> {
    for failing in 1..18 {
        let front = text.get(..(failing - 1) as usize).unwrap_or(&[]);
        if by_few_calls(alloc, formula, (1, failing), front) != (false, failing, true) {
            return Some(failing);
        }
    }
    None
}

/// Returns `true` if a writer can accept a text byte by byte, up to a call that fails, and whether writing fails if the
/// writer accepts no bytes.
fn is_taken_by_bytes(alloc: Global, formula: &mut CnfFormula, text: &[u8]) -> bool {
    fill(formula, 1) == Ok(())
        && wrong_byte(alloc, formula, text) == None
        && by_few_calls(alloc, formula, (1, 18), text) == (true, 17, true)
        && calls(alloc, formula, 0, 0) == (false, 1)
}

#[test]
fn a_text_may_be_taken_byte_by_byte(rt: HostRuntime) {
    let mut formula = CnfFormula::new(rt.alloc());
    assert!(rt; is_taken_by_bytes(rt.alloc(), &mut formula, TEXTS[1].1));
}
