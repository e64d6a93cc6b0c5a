//! Tests of steps that are written and read back.
//!
//! Functions are short and keep few values, and rows are in tables, which makes the tests cheap to prove.

ghost use Rattle.std.specs.Prelude.{◌≤◌};

use crate::devices::{by_few, by_one};
use sat_base::{
    Counted, CountedRead, DeleteClauseProof, HashBits, Lit, ProofStep, StepError, StepReader,
    StepWriter, Var, write_step,
};
use std::alloc::Global;
use std::io;

/// Returns the text of a step, or `None` if memory runs out.
fn written(alloc: Global, step: &ProofStep<'_>) -> Option<Vec<u8>> {
    let mut writer = Counted::new(Vec::new(alloc));
    let is_written = write_step(&mut writer, step).is_ok();
    let text = writer.into_inner();
    if is_written { Some(text) } else { None }
}

/// Returns whether a step fits into the buffer of a new `StepWriter`, and the text that is written.
fn tried(alloc: Global, step: &ProofStep<'_>) -> (bool, Vec<u8>) {
    let mut steps = StepWriter::new(Counted::new(Vec::new(alloc)));
    let is_tried = steps.try_write(step);
    let (writer, end) = steps.into_inner();
    (is_tried && end.is_ok(), writer.into_inner())
}

/// Returns `true` if `text` is what `try_write` writes for a step.
fn is_tried_so(alloc: Global, step: &ProofStep<'_>, text: &[u8]) -> bool {
    let (is_tried, found) = tried(alloc, step);
    is_tried && found.as_slice() == text
}

/// The errors of two calls.
type Errors = (StepError, Option<StepError>);

/// How a text ends: the errors of two calls, and the number of reads they make after the last byte.
type End = (Errors, u64);

const AT_THE_END: End = ((StepError::Ends, Some(StepError::Ends)), 2);

const CUT: End = ((StepError::Cut, Some(StepError::HasFailed)), 1);

const BAD: End = ((StepError::BadByte, Some(StepError::HasFailed)), 0);

const FAULT: Errors = (StepError::Read, Some(StepError::HasFailed));

/// Reads steps and writes them again, up to the first error. Returns that error and the error of the next call, or
/// `None` if memory runs out or there are too many steps.
fn copied<R: CountedRead>(
    steps: &mut StepReader<'_, R>,
    copy: &mut Counted<Vec<u8>>,
) -> Option<Errors> {
    for _ in 0..100 {
        if let Err(error) = steps.advance() {
            return Some((error, steps.advance().err()));
        }
        if write_step(copy, &steps.step()).is_err() {
            return None;
        }
    }
    None
}

/// Returns `true` if a reader returns the steps of `text`, and then the given errors.
fn gives<R: CountedRead>(alloc: Global, reader: &mut R, text: &[u8], errors: Errors) -> bool {
    let mut copy = Counted::new(Vec::new(alloc));
    let found = copied(&mut StepReader::new(alloc, reader), &mut copy);
    found == Some(errors) && copy.into_inner().as_slice() == text
}

/// Tests `gives` for a text that is read in one piece.
fn whole_gives(alloc: Global, text: &[u8], steps: &[u8], errors: Errors) -> bool {
    gives(alloc, &mut Counted::new(text), steps, errors)
}

/// Tests `gives` for a text that is read byte by byte, while read number `failing`, counted from 1, fails. Also returns
/// the number of reads.
fn pieces_give(
    alloc: Global,
    text: &[u8],
    failing: u64,
    steps: &[u8],
    errors: Errors,
) -> (bool, u64) {
    let mut pieces = by_one(text, failing);
    let is_right = gives(alloc, &mut pieces, steps, errors);
    (is_right, pieces.into_inner().calls)
}

/// Returns `true` if a text, read in one piece or byte by byte, has the given steps and the given end.
fn both_give(alloc: Global, text: &[u8], steps: &[u8], (errors, following): End) -> bool {
    let calls = (text.len() as u64).saturating_add(following);
    whole_gives(alloc, text, steps, errors)
        && pieces_give(alloc, text, 0, steps, errors) == (true, calls)
}

/// Returns the tag of the next step, or `None` on an error.
fn next_tag<R: CountedRead>(steps: &mut StepReader<'_, R>) -> Option<u8> {
    match steps.advance() {
        Ok(()) => Some(steps.tag()),
        Err(_) => None,
    }
}

/// Returns the tag of a reader's first step, or `None` on an error.
fn first_tag<R: CountedRead>(alloc: Global, reader: &mut R) -> Option<u8> {
    next_tag(&mut StepReader::new(alloc, reader))
}

/// Returns `true` if the tag of the step with the text `text` is the first byte of `text`.
fn begins_with_tag(alloc: Global, text: &[u8]) -> bool {
    first_tag(alloc, &mut Counted::new(text)) == text.first().copied()
}

/// Returns `true` if `text` is written for a step, is read as that step, in one piece and byte by byte, and begins with
/// its tag.
fn has_text(alloc: Global, step: &ProofStep<'_>, text: &[u8]) -> bool {
    match written(alloc, step) {
        Some(found) => {
            found.as_slice() == text
                && is_tried_so(alloc, step, text)
                && both_give(alloc, text, text, AT_THE_END)
                && begins_with_tag(alloc, text)
        }
        None => false,
    }
}

/// A step and its text.
type Row<'a> = (ProofStep<'a>, &'static [u8]);

fn rows_about_variables(first: Var, last: Var) -> [Row<'static>; 8] {
    let fifth = Var::from_index(5);
    let late = Var::from_index(128);
    [
        (
            ProofStep::SolverVarName {
                global: fifth,
                solver: None,
            },
            &[1, 5, 0],
        ),
        (
            ProofStep::SolverVarName {
                global: fifth,
                solver: Some(first),
            },
            &[1, 5, 1],
        ),
        (
            ProofStep::UserVarName {
                global: first,
                user: Some(last),
            },
            &[2, 0, 0x80, 0x80, 0x80, 0x80, 1],
        ),
        (
            ProofStep::UserVarName {
                global: last,
                user: Some(last),
            },
            &[2, 0xff, 0xff, 0xff, 0x7f, 0x80, 0x80, 0x80, 0x80, 1],
        ),
        (
            ProofStep::UserVarName {
                global: first,
                user: None,
            },
            &[2, 0, 0],
        ),
        (
            ProofStep::DeleteVar { var: last },
            &[3, 0xff, 0xff, 0xff, 0x7f],
        ),
        (
            ProofStep::ChangeSamplingMode {
                var: first,
                sample: false,
            },
            &[4, 0, 0],
        ),
        (
            ProofStep::ChangeSamplingMode {
                var: late,
                sample: true,
            },
            &[4, 0x80, 1, 1],
        ),
    ]
}

/// Returns the first text that isn't written for its step, or isn't read as that step, or `None`.
fn wrong_text(alloc: Global, rows: &[Row<'_>]) -> Option<&'static [u8]> {
    for (step, text) in rows {
        if !has_text(alloc, step, *text) {
            return Some(*text);
        }
    }
    None
}

fn rows_about_clauses<'a>(
    both: &'a [Lit],
    clause: &'a [Lit],
    units: &'a [(Lit, u64)],
) -> [Row<'a>; 6] {
    [
        (ProofStep::AddClause { clause }, &[5, 2, 0, 3]),
        (
            ProofStep::AtClause {
                redundant: true,
                clause,
                propagation_hashes: &[0, 230],
            },
            &[6, 1, 2, 0, 3, 2, 0, 0xe6, 1],
        ),
        (ProofStep::UnitClauses { units }, &[7, 1, 0, 0x44]),
        (
            ProofStep::DeleteClause {
                clause: both,
                proof: DeleteClauseProof::Redundant,
            },
            &[8, 2, 0, 2, 0],
        ),
        (
            ProofStep::DeleteClause {
                clause: both,
                proof: DeleteClauseProof::Simplified,
            },
            &[8, 2, 0, 2, 1],
        ),
        (
            ProofStep::DeleteClause {
                clause: both,
                proof: DeleteClauseProof::Satisfied,
            },
            &[8, 2, 0, 2, 2],
        ),
    ]
}

fn wrong_about_clauses(alloc: Global) -> Option<&'static [u8]> {
    let first = Lit::from_index(0, true);
    let both = [first, Lit::from_index(1, true)];
    let clause = [first, Lit::from_index(1, false)];
    wrong_text(alloc, &rows_about_clauses(&both, &clause, &[(first, 0x44)]))
}

fn wrong_about_the_last(alloc: Global) -> Option<&'static [u8]> {
    let lits = [Lit::from_index(0, true), Lit::from_index(268435455, false)];
    wrong_text(alloc, &long_rows(&lits))
}

/// Returns rows about the first literal and the negation of the last one.
fn long_rows(lits: &[Lit]) -> [Row<'_>; 4] {
    [
        (
            ProofStep::AddClause { clause: lits },
            &[5, 2, 0, 0xff, 0xff, 0xff, 0xff, 1],
        ),
        (
            ProofStep::AtClause {
                redundant: true,
                clause: lits,
                propagation_hashes: &[0, 230, u64::MAX],
            },
            &[
                6, 1, 2, 0, 0xff, 0xff, 0xff, 0xff, 1, 3, 0, 0xe6, 1, 0xff, 0xff, 0xff, 0xff, 0xff,
                0xff, 0xff, 0xff, 0xff, 1,
            ],
        ),
        (
            ProofStep::Model { assignment: lits },
            &[10, 2, 0, 0xff, 0xff, 0xff, 0xff, 1],
        ),
        (
            ProofStep::Assumptions { assumptions: lits },
            &[11, 2, 0, 0xff, 0xff, 0xff, 0xff, 1],
        ),
    ]
}

fn other_rows(lits: &[Lit], bits: HashBits) -> [Row<'_>; 5] {
    [
        (ProofStep::ChangeHashBits { bits }, &[9, 0x40]),
        (ProofStep::Model { assignment: lits }, &[10, 1, 3]),
        (ProofStep::Assumptions { assumptions: lits }, &[11, 1, 3]),
        (
            ProofStep::FailedAssumptions {
                failed_core: lits,
                propagation_hashes: &[230],
            },
            &[12, 1, 3, 1, 0xe6, 1],
        ),
        (ProofStep::End, &[13]),
    ]
}

fn wrong_about_variables(alloc: Global) -> Option<&'static [u8]> {
    let (first, last) = (Var::from_index(0), Var::from_index(268435455));
    wrong_text(alloc, &rows_about_variables(first, last))
}

fn wrong_of_others(alloc: Global) -> Option<&'static [u8]> {
    match HashBits::new(64) {
        Some(bits) => wrong_text(alloc, &other_rows(&[Lit::from_index(1, false)], bits)),
        None => Some(b"no width of 64"),
    }
}

#[test]
fn steps_have_these_bytes(rt: HostRuntime) {
    let wrong = [
        wrong_about_variables(rt.alloc()),
        wrong_about_clauses(rt.alloc()),
        wrong_about_the_last(rt.alloc()),
        wrong_of_others(rt.alloc()),
    ];
    assert!(rt; wrong == [None; 4], "{wrong:?}");
}

#[test]
fn a_hash_has_at_most_64_bits(rt: HostRuntime) {
    assert!(rt; HashBits::new(64).map(|bits| bits.get()) == Some(64));
    assert!(rt; HashBits::new(65) == None);
}

const FOUR_STEPS: &[u8] = &[5, 2, 0, 3, 12, 1, 3, 2, 0xe6, 1, 9, 1, 0x80, 1, 0, 13];

/// Returns the steps that end before byte number `byte`, counted from 1.
fn steps_before(byte: u64) -> &'static [u8] {
    let mut whole = 0;
    for end in [4, 11, 15, 16] {
        if end < byte {
            whole = end;
        }
    }
    FOUR_STEPS.get(..whole as usize).unwrap_or(&[])
}

/// Returns `true` if a reader whose read number `failing` fails returns the steps before that read, and is not
/// called again.
fn is_a_fault(alloc: Global, failing: u64) -> bool {
    let steps = steps_before(failing);
    pieces_give(alloc, FOUR_STEPS, failing, steps, FAULT) == (true, failing)
}

#[test]
fn each_read_of_steps_may_fail(rt: HostRuntime) {
    for failing in 1..18 {
        assert!(rt; is_a_fault(rt.alloc(), failing), "{failing}");
    }
    // The end was found before the read that fails, which is made by the next call.
    let late = (StepError::Ends, Some(StepError::Read));
    assert!(rt; pieces_give(rt.alloc(), FOUR_STEPS, 18, FOUR_STEPS, late).0);
}

/// A text, its complete steps, and how it ends.
static TEXTS: [(&[u8], &[u8], End); 34] = [
    (&[0], &[], BAD),
    (&[14], &[], BAD),
    (&[0x82], &[], BAD),
    (&[1, 5, 0x80, 0], &[], BAD),
    (&[2, 0xff, 0xff, 0xff, 0xff], &[], BAD),
    (&[3, 0x80, 0x80, 0x80, 0x80], &[], BAD),
    (&[4, 0, 2], &[], BAD),
    (&[5, 0x82, 0], &[], BAD),
    (&[5, 1, 0xff, 0xff, 0xff, 0xff, 2], &[], BAD),
    (&[6, 2], &[], BAD),
    (&[6, 0, 0, 1, 0xe6, 0], &[], BAD),
    (
        &[
            7, 1, 0, 0xff, 0xff, 0xff, 0xff, 0xff, 0xff, 0xff, 0xff, 0xff, 2,
        ],
        &[],
        BAD,
    ),
    (&[8, 2, 0, 2, 3], &[], BAD),
    (&[9, 0x41], &[], BAD),
    (&[9, 0xc0], &[], BAD),
    (&[12, 0x80, 0], &[], BAD),
    (&[12, 0, 0x80, 0], &[], BAD),
    (&[3], &[], CUT),
    (&[3, 0x80], &[], CUT),
    (&[4, 0], &[], CUT),
    (&[7, 1, 0], &[], CUT),
    (&[8, 2, 0, 2], &[], CUT),
    (&[12, 1, 3], &[], CUT),
    (&[5, 2, 0], &[], CUT),
    (&[], &[], AT_THE_END),
    (&[13], &[13], AT_THE_END),
    // Texts that announce 2^63 items, but contain none or one: memory is requested only for items that were read.
    (
        &[5, 0x80, 0x80, 0x80, 0x80, 0x80, 0x80, 0x80, 0x80, 0x80, 1],
        &[],
        CUT,
    ),
    (
        &[
            6, 0, 0x80, 0x80, 0x80, 0x80, 0x80, 0x80, 0x80, 0x80, 0x80, 1,
        ],
        &[],
        CUT,
    ),
    (
        &[
            7, 0x80, 0x80, 0x80, 0x80, 0x80, 0x80, 0x80, 0x80, 0x80, 1, 2, 3,
        ],
        &[],
        CUT,
    ),
    (
        &[8, 0x80, 0x80, 0x80, 0x80, 0x80, 0x80, 0x80, 0x80, 0x80, 1],
        &[],
        CUT,
    ),
    (
        &[
            10, 0x80, 0x80, 0x80, 0x80, 0x80, 0x80, 0x80, 0x80, 0x80, 1, 2,
        ],
        &[],
        CUT,
    ),
    (
        &[11, 0x80, 0x80, 0x80, 0x80, 0x80, 0x80, 0x80, 0x80, 0x80, 1],
        &[],
        CUT,
    ),
    (
        &[
            12, 0, 0x80, 0x80, 0x80, 0x80, 0x80, 0x80, 0x80, 0x80, 0x80, 1,
        ],
        &[],
        CUT,
    ),
    // The memory of lists is reused.
    (
        &[
            7, 2, 0, 0x44, 3, 1, 12, 1, 3, 1, 9, 7, 1, 5, 0, 5, 0, 7, 0, 6, 0, 0, 2, 3, 4, 13,
        ],
        &[
            7, 2, 0, 0x44, 3, 1, 12, 1, 3, 1, 9, 7, 1, 5, 0, 5, 0, 7, 0, 6, 0, 0, 2, 3, 4, 13,
        ],
        AT_THE_END,
    ),
];

fn texts() -> &'static [(&'static [u8], &'static [u8], End)] {
    &TEXTS
}

#[test]
fn texts_end_so(rt: HostRuntime) {
    for &(text, steps, end) in texts() {
        assert!(rt; both_give(rt.alloc(), text, steps, end), "{text:?}");
    }
}

/// Writes a step, flushes, and writes it again.
fn write_twice(
    steps: &mut StepWriter<Counted<Vec<u8>>>,
    step: &ProofStep<'_>,
) -> Result<(), io::Error> {
    steps.write(step)?;
    steps.flush()?;
    steps.write(step)
}

/// Returns whether a step was written twice, and what its writer accepted.
fn half_written(alloc: Global, step: &ProofStep<'_>) -> (bool, Vec<u8>) {
    let mut steps = StepWriter::new(Counted::new(Vec::new(alloc)));
    let is_written = write_twice(&mut steps, step).is_ok();
    (is_written, steps.into_writer().into_inner())
}

#[test]
fn what_waits_is_lost_with_a_writer_of_steps(rt: HostRuntime) {
    let lits = [Lit::from_index(0, true)];
    let (is_written, taken) = half_written(rt.alloc(), &ProofStep::AddClause { clause: &lits });
    assert!(rt; is_written && taken.as_slice() == [5, 1, 0].as_slice());
}

/// Returns the positive literals of 3,000 variables, or of fewer if memory runs out.
fn many_lits(alloc: Global, first: usize) -> Vec<Lit>
    requires { first ≤ 268000000 }
{
    let mut lits = Vec::new(alloc);
    for index in 0..3000 {
        if lits.push(Lit::from_index(first + index, true)).is_err() {
            break;
        }
    }
    lits
}

/// Returns the length of a step's text, if the text, in one piece, is read as the step.
fn length_again(alloc: Global, step: &ProofStep<'_>) -> Option<usize> {
    let text = written(alloc, step)?;
    let is_right = whole_gives(alloc, text.as_slice(), text.as_slice(), AT_THE_END.0);
    is_right.then_some(text.len())
}

#[test]
fn a_long_step_is_read_again(rt: HostRuntime) {
    let lits = many_lits(rt.alloc(), 268000000);
    let long = ProofStep::Model {
        assignment: lits.as_slice(),
    };
    assert!(rt; length_again(rt.alloc(), &long) == Some(15003));
}

#[test]
fn a_long_step_has_no_room(rt: HostRuntime) {
    let lits = many_lits(rt.alloc(), 268000000);
    let long = ProofStep::Model {
        assignment: lits.as_slice(),
    };
    let (is_tried, taken) = tried(rt.alloc(), &long);
    assert!(rt; !is_tried && taken.is_empty());
}

/// Writes a step to a writer that accepts at most `most` bytes per call, and whose call number `failing` fails, counted
/// from 1. Returns whether the step was written, the number of calls, and whether the accepted bytes are a prefix of
/// `text`, and all of it.
fn by_few_calls(
    alloc: Global,
    step: &ProofStep<'_>,
    (most, failing): (usize, u64),
    text: &[u8],
) -> (bool, u64, bool, bool) {
    let mut writer = by_few(alloc, most, failing);
    let is_written = write_step(&mut writer, step).is_ok();
    let device = writer.into_inner();
    let taken = device.taken.as_slice();
    (
        is_written,
        device.calls,
        text.get(..taken.len()) == Some(taken),
        taken == text,
    )
}

/// Returns `true` if writing a step fails if one of the first `calls` calls fails, and the failed call is the last one.
fn may_fail(alloc: Global, step: &ProofStep<'_>, most: usize, calls: u64, text: &[u8]) -> bool {
    for failing in 1..=calls {
        let (is_written, made, begins, _) = by_few_calls(alloc, step, (most, failing), text);
        if is_written || made != failing || !begins {
            return false;
        }
    }
    true
}

/// Returns `true` if a step is written completely to a writer that accepts at most `most` bytes per call, and whether
/// writing fails if one of the calls fails.
fn is_taken_by_few(alloc: Global, step: &ProofStep<'_>, most: usize) -> bool {
    let Some(text) = written(alloc, step) else {
        return false;
    };
    let (is_written, calls, _, is_whole) = by_few_calls(alloc, step, (most, 0), text.as_slice());
    is_written && is_whole && may_fail(alloc, step, most, calls, text.as_slice())
}

#[test]
fn each_write_of_a_short_step_may_fail(rt: HostRuntime) {
    let clause = [Lit::from_index(0, true), Lit::from_index(1, false)];
    let short = ProofStep::AtClause {
        redundant: true,
        clause: &clause,
        propagation_hashes: &[0, 230],
    };
    for most in [1, 4] {
        assert!(rt; is_taken_by_few(rt.alloc(), &short, most), "{most}");
    }
}

/// Returns `true` if writing a step fails after one call if the writer accepts no bytes.
fn is_not_taken(alloc: Global, step: &ProofStep<'_>) -> bool {
    let (is_written, calls, _, _) = by_few_calls(alloc, step, (0, 0), &[]);
    !is_written && calls == 1
}

/// Returns the length of a long step's text, whether a writer that accepts few bytes per call receives the step, and
/// whether writing fails if the writer accepts no bytes.
fn taken(alloc: Global, step: &ProofStep<'_>) -> (Option<usize>, bool, bool) {
    let length = length_again(alloc, step);
    let is_taken = is_taken_by_few(alloc, step, 7);
    (length, is_taken, is_not_taken(alloc, step))
}

#[test]
fn each_write_of_a_long_step_may_fail(rt: HostRuntime) {
    let lits = many_lits(rt.alloc(), 0);
    let long = ProofStep::AddClause {
        clause: lits.as_slice(),
    };
    assert!(rt; taken(rt.alloc(), &long) == (Some(5939), true, true));
}
