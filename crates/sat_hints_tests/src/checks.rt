//! Tests of checking hint texts, in one piece and byte by byte.

use crate::devices::{by_one, repeating};
use sat_base::Counted;
use sat_hints::{HintFault, HintVerdict, HintWhy, check};
use std::alloc::{AllocError, Global};
use std::test::*;

pub(crate) const fn proved(empty: bool, cores: u64, lines: u64) -> HintVerdict {
    HintVerdict::Proved {
        empty,
        cores,
        lines,
    }
}

type Row = (&'static [u8], HintVerdict);

const fn bad(line: u64, why: HintWhy) -> HintVerdict {
    HintVerdict::Bad { line, why }
}

/// Derivations, and texts whose first faulty line has a single fault.
fn derivations() -> [Row; 15] {
    [
        (b"", proved(false, 0, 0)),
        (b"i 1 1 0\ni 2 -1 0\nd 3 0 1 2 0\n", proved(true, 0, 3)),
        (b"f 1 -1 0 0\n", proved(false, 1, 1)),
        (b"i 1 1 2 0\nd 2 1 0 1 0\n", bad(2, HintWhy::NotFalsified)),
        (
            b"i 1 1 2 3 0\ni 2 1 0\nd 3 1 0 1 2 0\n",
            bad(3, HintWhy::NotUnit),
        ),
        (b"i 1 1 0\ni 1 2 0\n", bad(2, HintWhy::IdOrder)),
        (b"i 1 1 0\nx 1 0\nd 2 1 0 1 0\n", bad(3, HintWhy::UnknownId)),
        (b"i 01 1 0\n", bad(1, HintWhy::Syntax)),
        (
            b"i 1 1 2 0\ni 2 1 -2 0\ni 3 -1 2 0\ni 4 -1 -2 0\nd 5 1 0 1 2 0\nd 6 2 0 5 3 0\nd 7 0 5 6 4 0\n",
            proved(true, 0, 7),
        ),
        // Each reason, at a line that isn't the first, and with a line after it that has another fault.
        (b"i 1 1 0\ni 2 1\ni 1 1 0\n", bad(2, HintWhy::Syntax)),
        (b"i 2 1 0\ni 1 1 0\nx 9 0\n", bad(2, HintWhy::IdOrder)),
        (b"i 1 1 0\nx 9 0\ni 1 1 0\n", bad(2, HintWhy::UnknownId)),
        (
            b"i 1 1 2 0\ni 2 3 0\nd 3 3 0 1 2 0\nx 9 0\n",
            bad(3, HintWhy::NotUnit),
        ),
        (
            b"i 1 1 2 0\ni 2 3 0\nd 3 1 0 2 0\nx 9 0\n",
            bad(3, HintWhy::NotFalsified),
        ),
        (b"i 1 1 0\nd 2 1 0 0\n", bad(2, HintWhy::NotFalsified)),
    ]
}

/// Several faults in a line, clauses and assumptions with both signs of a variable, and lists with repeats.
fn faults() -> [Row; 8] {
    [
        // Several faults in one line.
        (b"i 1 1 2 0\nd 1 3 0 9 0\n", bad(2, HintWhy::IdOrder)),
        (b"i 1 1 2 0\nd 2 3 0 1 9 0\n", bad(2, HintWhy::UnknownId)),
        // A clause that is falsified before it is the last one.
        (
            b"i 1 1 0\ni 2 2 0\nd 3 1 0 1 2 0\n",
            bad(3, HintWhy::NotUnit),
        ),
        // Both signs of a variable.
        (b"d 1 1 -1 0 0\n", proved(false, 0, 1)),
        (
            b"i 1 2 3 0\nd 2 1 -1 0 1 0\nf 4 -4 0 1 2 0\n",
            proved(false, 1, 3),
        ),
        (b"d 1 1 -1 0 5 0\n", bad(1, HintWhy::UnknownId)),
        // Lists are read as sets.
        (b"i 1 1 1 0\nd 2 1 1 0 1 0\n", proved(false, 0, 2)),
        (
            b"i 1 1 1 2 2 0\ni 2 -2 -2 0\nd 3 1 0 2 1 0\n",
            proved(false, 0, 3),
        ),
    ]
}

/// Variables that become new.
fn new_variables() -> [Row; 19] {
    [
        // The four examples from the description of the format: units are removed and can't be named again, and a
        // longer clause prevents the step.
        (
            b"i 1 1 2 0\ni 2 -2 0\nd 3 1 0 2 1 0\nx 1 0\ne 2 0\nf -1 0 3 0\n",
            proved(false, 1, 6),
        ),
        (
            b"i 1 1 2 0\ni 2 -2 0\nd 3 1 0 2 1 0\nx 1 0\ne 2 0\nd 4 -2 0 2 0\n",
            bad(6, HintWhy::UnknownId),
        ),
        (b"i 1 1 2 0\ne 2 0\n", bad(2, HintWhy::VarInUse)),
        (b"e 7 0\n", proved(false, 0, 1)),
        // A unit is a set of one literal, however many times the literal is written.
        (b"i 1 2 2 0\ne 2 0\nx 1 0\n", bad(3, HintWhy::UnknownId)),
        // A clause with both signs of the variable prevents the step.
        (b"i 1 2 -2 0\ne 2 0\n", bad(2, HintWhy::VarInUse)),
        // Units with both signs, and several units of the same variable: all are removed.
        (
            b"i 1 2 0\ni 2 -2 0\ni 3 2 0\ne 2 0\nx 3 0\n",
            bad(5, HintWhy::UnknownId),
        ),
        (
            b"i 1 2 0\ni 2 -2 0\ni 3 2 0\ne 2 0\nd 4 0 1 2 0\n",
            bad(5, HintWhy::UnknownId),
        ),
        // Units of other variables, and the empty clause, remain.
        (
            b"i 1 2 0\ni 2 3 0\ni 3 0\ne 2 0\nx 2 0\nx 3 0\n",
            proved(false, 0, 6),
        ),
        // A unit that is added later remains until the variable becomes new again.
        (
            b"i 1 2 0\ne 2 0\ni 2 -2 0\nf 2 0 2 0\ne 2 0\nx 2 0\n",
            bad(6, HintWhy::UnknownId),
        ),
        // Ids aren't assigned again.
        (b"i 5 2 0\ne 2 0\ni 5 2 0\n", bad(3, HintWhy::IdOrder)),
        (
            b"i 5 2 0\ne 2 0\ni 6 -2 0\nf 2 0 6 0\n",
            proved(false, 1, 4),
        ),
        // A variable becomes new twice; and a variable whose longer clauses were deleted, and are added again.
        (b"e 2 0\ne 2 0\n", proved(false, 0, 2)),
        (
            b"i 1 2 3 0\nx 1 0\ne 2 0\ni 2 2 3 0\ne 2 0\n",
            bad(5, HintWhy::VarInUse),
        ),
        (
            b"i 1 2 3 0\ni 2 -3 2 4 0\nx 1 0\ne 1 0\ne 2 0\n",
            bad(5, HintWhy::VarInUse),
        ),
        (
            b"e 1 0\ni 1 2 3 0\ni 2 -3 -2 4 0\nx 2 0\nx 1 0\ne 2 0\ne 3 0\ne 4 0\n",
            proved(false, 0, 8),
        ),
        // A derived clause with both signs of the variable, and a derived unit.
        (b"d 1 1 -1 0 0\ne 1 0\n", bad(2, HintWhy::VarInUse)),
        (
            b"i 1 1 2 0\ni 2 -2 0\nd 3 1 0 2 1 0\nx 1 0\ne 1 0\nx 3 0\n",
            bad(6, HintWhy::UnknownId),
        ),
        // A core that rests on a unit, before and after the unit is removed.
        (
            b"i 1 2 0\nf -2 0 1 0\ne 2 0\nf -2 0 1 0\n",
            bad(4, HintWhy::UnknownId),
        ),
    ]
}

/// Numbers at their limits, and lines that don't follow the grammar.
fn spellings() -> [Row; 25] {
    [
        // Ids and literals at their limits and past them.
        (b"i 18446744073709551615 1 0\n", proved(false, 0, 1)),
        (b"i 18446744073709551616 1 0\n", bad(1, HintWhy::Syntax)),
        (b"i 0 1 0\n", bad(1, HintWhy::Syntax)),
        (b"i 1 268435456 -268435456 0\n", proved(false, 0, 1)),
        (b"i 1 268435457 0\n", bad(1, HintWhy::Syntax)),
        (b"i 1 -268435457 0\n", bad(1, HintWhy::Syntax)),
        (b"i 1 +1 0\n", bad(1, HintWhy::Syntax)),
        (b"i 1 -0 0\n", bad(1, HintWhy::Syntax)),
        // No LF at the end; blank lines; CR; spaces.
        (b"i 1 1 0", bad(1, HintWhy::Syntax)),
        (b"i 1 1 0\n\ni 2 2 0\n", bad(2, HintWhy::Syntax)),
        (b"i 1 1 0\r\n", bad(1, HintWhy::Syntax)),
        (b"i  1 1 0\n", bad(1, HintWhy::Syntax)),
        (b"i 1 1 0 \n", bad(1, HintWhy::Syntax)),
        (b"i 1 0\n", proved(false, 0, 1)),
        (b"e 7\n", bad(1, HintWhy::Syntax)),
        (b"e 0 0\n", bad(1, HintWhy::Syntax)),
        (b"e -7 0\n", bad(1, HintWhy::Syntax)),
        (b"e 07 0\n", bad(1, HintWhy::Syntax)),
        (b"e 7 0 0\n", bad(1, HintWhy::Syntax)),
        (b"e 7 8 0\n", bad(1, HintWhy::Syntax)),
        (b"e  7 0\n", bad(1, HintWhy::Syntax)),
        (b"e 7 0", bad(1, HintWhy::Syntax)),
        (b"e 268435457 0\n", bad(1, HintWhy::Syntax)),
        (b"f 0 0\n", bad(1, HintWhy::NotFalsified)),
        (b"x 1 0\n", bad(1, HintWhy::UnknownId)),
    ]
}

pub(crate) fn whole(alloc: Global, text: &[u8]) -> Result<HintVerdict, HintFault> {
    let mut reader = Counted::new(text);
    check(alloc, &mut reader)
}

/// Returns the verdict on a text that is read byte by byte. Read number `failing` fails; with 0, none fails.
pub(crate) fn in_bytes(alloc: Global, text: &[u8], failing: u64) -> Result<HintVerdict, HintFault> {
    let mut reader = by_one(text, failing);
    check(alloc, &mut reader)
}

/// Returns `true` if each text has its verdict, read in one piece and byte by byte.
fn hold(alloc: Global, rows: &[Row]) -> bool {
    for row in rows {
        let verdict = Ok(row.1);
        if whole(alloc, row.0) != verdict || in_bytes(alloc, row.0, 0) != verdict {
            return false;
        }
    }
    true
}

#[test]
fn derivations_are_proved(rt: HostRuntime) {
    assert!(rt; hold(rt.alloc(), &derivations()));
}

#[test]
fn variables_become_new(rt: HostRuntime) {
    assert!(rt; hold(rt.alloc(), &new_variables()));
}

#[test]
fn faults_have_their_reasons(rt: HostRuntime) {
    assert!(rt; hold(rt.alloc(), &faults()));
}

#[test]
fn spellings_are_exact(rt: HostRuntime) {
    assert!(rt; hold(rt.alloc(), &spellings()));
}

/// Tests that a failure of each read is reported, including the read that would find the end.
#[test]
fn reads_fail(rt: HostRuntime) {
    let text = b"i 1 1 0\nx 1 0\n";
    for failing in 1..16 {
        let verdict = in_bytes(rt.alloc(), text, failing);
        assert!(rt; verdict == Err(HintFault::Read));
    }
    let verdict = in_bytes(rt.alloc(), text, 16);
    assert!(rt; verdict == Ok(proved(false, 0, 2)));
}

/// Texts that are refused at their last byte, since no valid line has that byte there.
const FRONTS: [&[u8]; 24] = [
    b"q",
    b" ",
    b"0",
    b"i0",
    b"i  ",
    b"i 0",
    b"i -",
    b"i 18446744073709551616",
    b"i 1 01",
    b"i 1 1  ",
    b"i 1 +",
    b"i 1 -0",
    b"i 1 - ",
    b"i 1 --",
    b"i 1 268435457",
    b"i 1 1 0 ",
    b"i 1 1 0\r",
    b"d 1 1 0 -",
    b"d 1 1 0 1 0 ",
    b"x 1 1",
    b"f 0 00",
    b"e -",
    b"e 268435457",
    b"e 7 0\ni 1 q",
];

/// Returns whether a text is refused once it has been read, and the number of reads of one byte.
fn refused_in_bytes(alloc: Global, text: &[u8]) -> (bool, u64) {
    let mut reader = by_one(text, 0);
    let refused = match check(alloc, &mut reader) {
        Ok(HintVerdict::Bad { why, .. }) => why == HintWhy::Syntax,
        _ => false,
    };
    (refused, reader.into_inner().calls)
}

#[test]
fn lines_are_refused_at_the_first_wrong_byte(rt: HostRuntime) {
    for text in &FRONTS {
        assert!(rt; refused_in_bytes(rt.alloc(), text) == (true, text.len() as u64));
    }
}

/// Returns the verdict on a text that is followed by `byte` without end, and the number of reads.
fn without_end(alloc: Global, text: &[u8], byte: u8) -> (Result<HintVerdict, HintFault>, u64) {
    let mut reader = repeating(text, byte);
    let verdict = check(alloc, &mut reader);
    (verdict, reader.into_inner().calls)
}

/// Returns `i 1`, the literal 1 `count` times, and a space.
fn long_line(alloc: Global, count: u64) -> Result<Vec<u8>, AllocError> {
    let mut text = Vec::new(alloc);
    text.extend_from_slice(b"i 1 ")?;
    for _ in 0..count {
        text.extend_from_slice(b"1 ")?;
    }
    Ok(text)
}

fn long_without_end(
    alloc: Global,
    count: u64,
    byte: u8,
) -> Option<(Result<HintVerdict, HintFault>, u64)> {
    match long_line(alloc, count) {
        Ok(text) => Some(without_end(alloc, &text, byte)),
        Err(_) => None,
    }
}

#[test]
fn endless_texts_are_refused(rt: HostRuntime) {
    let refused = Ok(bad(1, HintWhy::Syntax));
    assert!(rt; without_end(rt.alloc(), b"", 0) == (refused, 1));
    assert!(rt; without_end(rt.alloc(), b"", b'0') == (refused, 1));
    assert!(rt; without_end(rt.alloc(), b"i ", b'9') == (refused, 1));
    assert!(rt; without_end(rt.alloc(), b"e 7 0\n", b'i') == (Ok(bad(2, HintWhy::Syntax)), 1));
    assert!(rt; long_without_end(rt.alloc(), 10000, b'q') == Some((refused, 5)));
}
