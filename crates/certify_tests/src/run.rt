//! Tests of runs over worked scripts, in one piece and in smaller ones, and with each call of a device failing in turn.

use crate::devices::{Watched, Watching, fails_at, in_pieces};
use crate::written::{AMPLE, run_on};
use certify::confirm::confirm;
use certify::fault::RunFault;
use certify::run::run;
use certify::summary::{Answer, AskReport};
use certify::verdict::{ConfirmFault, Verdict};
use sat_base::Counted;
use sat_checker::Looks;
use std::alloc::Global;
use std::cell::Cell;

const FOURTH: &[u8] = b"1 2 0\na 0\n";

const SIXTH: &[u8] = b"1 2 0\n1 -2 0\n-1 2 0\n-1 -2 0\na 0\n";

/// A script, a budget, and the answers.
static ANSWERS: [(&[u8], u64, &[u8]); 57] = [
    (
        b"1 2 0\n3 4 0\n5 6 0\n-1 -3 0\n-1 -5 0\n-3 -5 0\n-2 -4 0\n-2 -6 0\n-4 -6 0\na 0\n",
        AMPLE,
        b"s UNSATISFIABLE\nf 0\n",
    ),
    (b"", AMPLE, b""),
    (b"a 0\n", AMPLE, b"s SATISFIABLE\nv 0\n"),
    // A budget of as many steps as the bound has when there are no variables.
    (b"a 0\n", 8, b"s SATISFIABLE\nv 0\n"),
    (b"3 0\na 0\n", AMPLE, b"s SATISFIABLE\nv -1 -2 3 0\n"),
    (FOURTH, AMPLE, b"s SATISFIABLE\nv -1 2 0\n"),
    (FOURTH, 1, b"s SATISFIABLE\nv -1 2 0\n"),
    (SIXTH, AMPLE, b"s UNSATISFIABLE\nf 0\n"),
    (SIXTH, 2, b"s UNSATISFIABLE\nf 0\n"),
    (SIXTH, 1, b"s UNKNOWN\n"),
    (SIXTH, 0, b"s UNKNOWN\n"),
    (
        b"1 2 0\n1 -2 0\n-1 2 0\n-1 -2 0\n40 0\na 0\n",
        2,
        b"s UNSATISFIABLE\nf 0\n",
    ),
    (
        b"1 0\na 0\n-1 0\n2 0\na 0\n",
        AMPLE,
        b"s SATISFIABLE\nv 1 0\ns UNSATISFIABLE\nf 0\n",
    ),
    (b"1 -1 0\na 0\n", AMPLE, b"s SATISFIABLE\nv -1 0\n"),
    (b"1 0\n-1 0\na 0\n", AMPLE, b"s UNSATISFIABLE\nf 0\n"),
    (b"0\na 0\n", AMPLE, b"s UNSATISFIABLE\nf 0\n"),
    (b"1 0\n-1 0\na 0\n", 0, b"s UNSATISFIABLE\nf 0\n"),
    (b"0\na 0\n", 0, b"s UNSATISFIABLE\nf 0\n"),
    (b"1 0\na 0\n", 0, b"s UNKNOWN\n"),
    (b"-1 -2 0\na 1 2 0\n", AMPLE, b"s UNSATISFIABLE\nf 1 2 0\n"),
    (b"a 1 -1 0\n", AMPLE, b"s UNSATISFIABLE\nf 1 -1 0\n"),
    (
        b"1 2 0\n-2 0\nh 2 0\na -1 0\n",
        AMPLE,
        b"s UNSATISFIABLE\nf -1 0\n",
    ),
    (
        b"1 0\nh 1 0\n-1 0\na 0\n",
        AMPLE,
        b"s SATISFIABLE\nv -1 0\n",
    ),
    (b"h 2 0\na 0\n", AMPLE, b"s SATISFIABLE\nv -1 0\n"),
    (
        b"1 0\na -1 0\na 0\n",
        AMPLE,
        b"s UNSATISFIABLE\nf -1 0\ns SATISFIABLE\nv 1 0\n",
    ),
    (
        b"1 0\na -1 0\n2 0\na 0\n-3 -4 0\na 3 4 0\n",
        AMPLE,
        b"s UNSATISFIABLE\nf -1 0\ns SATISFIABLE\nv 1 2 0\ns UNSATISFIABLE\nf 3 4 0\n",
    ),
    (
        b"1 0\na 1 0\nh 1 0\n-1 0\na 0\n",
        AMPLE,
        b"s SATISFIABLE\nv 1 0\ns SATISFIABLE\nv -1 0\n",
    ),
    (
        b"w 1 0\n1 0\na 0\n",
        AMPLE,
        b"c refused 2 witness 1\ns SATISFIABLE\nv -1 0\n",
    ),
    (b"w 1 0\na 1 0\n", AMPLE, b"c refused 2 witness 1\n"),
    (b"w 1 0\n268435457 1 0\n", AMPLE, b"c refused 2 limit\n"),
    (
        b"w 1 0\n1 268435457 0\ns 1 0\n1 0\na 0\n",
        AMPLE,
        b"c refused 2 witness 1\ns SATISFIABLE\nv 1 0\n",
    ),
    (
        b"h 268435457 0\nw 268435457 0\ns 268435457 0\na 268435457 0\n",
        AMPLE,
        b"c refused 1 limit\nc refused 2 limit\nc refused 3 limit\nc refused 4 limit\n",
    ),
    (b"h 0\nw 0\ns 0\na 0\n", AMPLE, b"s SATISFIABLE\nv 0\n"),
    (b"h 1 1 0\na 0\n", AMPLE, b"s SATISFIABLE\nv 0\n"),
    (
        b"w 1 0\nh 1 0\n1 0\na 0\n",
        AMPLE,
        b"s SATISFIABLE\nv 1 0\n",
    ),
    (b"1 0\nh -1 0\n", AMPLE, b"c malformed 2\n"),
    (b"268435457 0\n", AMPLE, b"c refused 1 limit\n"),
    (
        b"1 0\n268435457 0\na 0\n",
        AMPLE,
        b"c refused 2 limit\ns SATISFIABLE\nv 1 0\n",
    ),
    (b"1 2", AMPLE, b"c malformed 1\n"),
    (b"-0 0\n", AMPLE, b"c malformed 1\n"),
    (b"+1 0\n", AMPLE, b"c malformed 1\n"),
    (b"1 a 0\n", AMPLE, b"c malformed 1\n"),
    (b"b 0\n", AMPLE, b"c malformed 1\n"),
    (b"h -1 0\n", AMPLE, b"c malformed 1\n"),
    (b"a 1 0\n", AMPLE, b"s SATISFIABLE\nv 1 0\n"),
    (
        b"1 0\na 0\nx",
        AMPLE,
        b"s SATISFIABLE\nv 1 0\nc malformed 3\n",
    ),
    (
        b"p cnf 2 1\n1 2 0\n%\n0\n",
        AMPLE,
        b"s SATISFIABLE\nv -1 2 0\n",
    ),
    (b"p cnf 0 0\n", AMPLE, b"s SATISFIABLE\nv 0\n"),
    (b"p cnf 1 1\n1 0\na 0\n", AMPLE, b"s SATISFIABLE\nv 1 0\n"),
    (b"p cnf 1 1\n1 0\n", 0, b"s UNKNOWN\n"),
    (
        b"p cnf 1 1\n268435457 0\n",
        AMPLE,
        b"c refused 1 limit\ns SATISFIABLE\nv 0\n",
    ),
    (b"p cnf 1 1\n1", AMPLE, b"c malformed 1\n"),
    (b"p cnf 1 0\na 268435457 0\n", AMPLE, b"c refused 1 limit\n"),
    (b"p cnf 1 0\nw 1 0\n", AMPLE, b"s SATISFIABLE\nv -1 0\n"),
    (b"1 0\n%\na 0\n", AMPLE, b""),
    (
        b"1 2 0\na 0\na 0\n",
        AMPLE,
        b"s SATISFIABLE\nv -1 2 0\ns SATISFIABLE\nv -1 2 0\n",
    ),
    (
        b"-1 -2 0\na 1 2 0\na 1 2 0\n",
        AMPLE,
        b"s UNSATISFIABLE\nf 1 2 0\ns UNSATISFIABLE\nf 1 2 0\n",
    ),
];

fn all_answers() -> &'static [(&'static [u8], u64, &'static [u8])] {
    &ANSWERS
}

/// Returns the verdict on three texts that are read in pieces of `size` bytes.
pub(crate) fn said_in(
    alloc: Global,
    (script, answers, certificate): (&[u8], &[u8], &[u8]),
    size: usize,
) -> Result<Verdict, ConfirmFault> {
    confirm(
        alloc,
        &mut in_pieces(script, size),
        &mut in_pieces(answers, size),
        &mut in_pieces(certificate, size),
        &mut Looks::new(),
    )
}

/// Returns `true` if a run over a script in pieces of `size` bytes writes the answers `answers`, and they are confirmed
/// with its certificate.
fn is_confirmed_in(alloc: Global, text: &[u8], budget: u64, answers: &[u8], size: usize) -> bool {
    let written = run_on(alloc, &mut in_pieces(text, size), budget);
    let texts = (
        text,
        written.answers.as_slice(),
        written.certificate.as_slice(),
    );
    written.has_answers(answers) && said_in(alloc, texts, size) == Ok(Verdict::Yes)
}

/// Returns `true` if a run over a script writes the answers `answers`, and they are confirmed, in pieces of various
/// sizes.
fn is_confirmed_in_pieces(alloc: Global, text: &[u8], budget: u64, answers: &[u8]) -> bool {
    for size in [1, 2, 4095, 4096] {
        if !is_confirmed_in(alloc, text, budget, answers, size) {
            return false;
        }
    }
    true
}

#[test]
fn scripts_are_answered_and_confirmed_in_pieces(rt: HostRuntime) {
    for &(text, budget, answers) in all_answers() {
        assert!(rt;
            is_confirmed_in_pieces(rt.alloc(), text, budget, answers),
            "{text:?}"
        );
    }
}

/// Scripts, the number of a read of one byte, and the answers that are written before that read.
static ANSWERED_BEFORE: [(&[u8], u64, &[u8]); 5] = [
    (b"a 0\n1 0\na 0\n", 4, b""),
    (b"a 0\n1 0\na 0\n", 5, b"s SATISFIABLE\nv 0\n"),
    (b"a 0\n1 0\na 0\n", 12, b"s SATISFIABLE\nv 0\n"),
    (
        b"a 0\n1 0\na 0\n",
        13,
        b"s SATISFIABLE\nv 0\ns SATISFIABLE\nv 1 0\n",
    ),
    (b"w 1 0\n1 0\na 0\n", 11, b"c refused 2 witness 1\n"),
];

fn answered_before() -> &'static [(&'static [u8], u64, &'static [u8])] {
    &ANSWERED_BEFORE
}

/// Returns how many bytes of answers are written before read number `read` of a script.
fn taken_before(alloc: Global, text: &[u8], read: u64) -> usize {
    let taken = Cell::new(0);
    let mut script = Counted::new(Watching {
        text,
        taken: &taken,
        before: read,
        seen: 0,
    });
    let mut answers = Counted::new(Watched { taken: &taken });
    let mut certificate = fails_at(b"", 0);
    let _ = run(alloc, &mut script, &mut answers, &mut certificate, AMPLE);
    script.into_inner().seen
}

/// Tests that each answer is written before the next command is read, but not before its own ask is read.
#[test]
fn answers_come_before_the_next_command(rt: HostRuntime) {
    for &(text, read, answers) in answered_before() {
        let taken = taken_before(rt.alloc(), text, read);
        assert!(rt; taken == answers.len(), "{text:?} {read} {taken}");
    }
}

/// Returns the size of the largest buffer that a run gives to the reader.
fn largest_piece(alloc: Global, text: &[u8]) -> usize {
    let mut script = in_pieces(text, 4096);
    let _ = run_on(alloc, &mut script, AMPLE);
    script.into_inner().largest
}

#[test]
fn pieces_are_small(rt: HostRuntime) {
    assert!(rt; largest_piece(rt.alloc(), SIXTH) == 4096);
}

/// Returns `true` if `certificate` is what a run writes for a script.
fn is_certified(alloc: Global, text: &[u8], budget: u64, certificate: &[u8]) -> bool {
    let written = run_on(alloc, &mut Counted::new(text), budget);
    written.fault.is_none() && written.certificate.as_slice() == certificate
}

/// A script, a budget, and the certificate.
static CERTIFICATES: [(&[u8], u64, &[u8]); 10] = [
    (b"", AMPLE, &[0x0d]),
    (
        b"a 0\n",
        AMPLE,
        &[0x0b, 0x00, 0x09, 0x06, 0x0a, 0x00, 0x0b, 0x00, 0x0d],
    ),
    (
        b"3 0\na 0\n",
        AMPLE,
        &[
            0x02, 0x00, 0x01, 0x02, 0x01, 0x02, 0x02, 0x02, 0x03, 0x01, 0x02, 0x01, 0x05, 0x01,
            0x04, 0x0b, 0x00, 0x09, 0x06, 0x01, 0x02, 0x00, 0x0a, 0x03, 0x01, 0x03, 0x04, 0x0b,
            0x00, 0x0d,
        ],
    ),
    (
        FOURTH,
        AMPLE,
        &[
            0x02, 0x00, 0x01, 0x01, 0x00, 0x01, 0x02, 0x01, 0x02, 0x01, 0x01, 0x02, 0x05, 0x02,
            0x00, 0x02, 0x0b, 0x00, 0x09, 0x06, 0x0a, 0x02, 0x01, 0x02, 0x0b, 0x00, 0x0d,
        ],
    ),
    (
        b"1 2 0\na 0\na 0\n",
        AMPLE,
        &[
            0x02, 0x00, 0x01, 0x01, 0x00, 0x01, 0x02, 0x01, 0x02, 0x01, 0x01, 0x02, 0x05, 0x02,
            0x00, 0x02, 0x0b, 0x00, 0x09, 0x06, 0x0a, 0x02, 0x01, 0x02, 0x0b, 0x00, 0x0b, 0x00,
            0x0a, 0x02, 0x01, 0x02, 0x0b, 0x00, 0x0d,
        ],
    ),
    (
        b"h 2 0\na 0\n",
        AMPLE,
        &[
            0x02, 0x00, 0x01, 0x02, 0x01, 0x02, 0x02, 0x01, 0x00, 0x03, 0x01, 0x0b, 0x00, 0x09,
            0x06, 0x0a, 0x01, 0x01, 0x0b, 0x00, 0x0d,
        ],
    ),
    (
        SIXTH,
        AMPLE,
        &[
            0x02, 0x00, 0x01, 0x01, 0x00, 0x01, 0x02, 0x01, 0x02, 0x01, 0x01, 0x02, 0x05, 0x02,
            0x00, 0x02, 0x05, 0x02, 0x00, 0x03, 0x05, 0x02, 0x01, 0x02, 0x05, 0x02, 0x01, 0x03,
            0x0b, 0x00, 0x09, 0x08, 0x06, 0x00, 0x01, 0x00, 0x02, 0x44, 0xe6, 0x01, 0x07, 0x01,
            0x02, 0xe6, 0x01, 0x06, 0x00, 0x00, 0x01, 0x44, 0x0b, 0x00, 0x0d,
        ],
    ),
    // In its only round, the ask learns the clause 1 and no more.
    (
        SIXTH,
        1,
        &[
            0x02, 0x00, 0x01, 0x01, 0x00, 0x01, 0x02, 0x01, 0x02, 0x01, 0x01, 0x02, 0x05, 0x02,
            0x00, 0x02, 0x05, 0x02, 0x00, 0x03, 0x05, 0x02, 0x01, 0x02, 0x05, 0x02, 0x01, 0x03,
            0x0b, 0x00, 0x09, 0x08, 0x06, 0x00, 0x01, 0x00, 0x02, 0x44, 0xe6, 0x01, 0x0b, 0x00,
            0x0d,
        ],
    ),
    // A clause's literals are sorted in the order of solver names, without repeats.
    (
        b"-3 1 -2 1 -3 0\n",
        AMPLE,
        &[
            0x02, 0x00, 0x01, 0x02, 0x01, 0x02, 0x02, 0x02, 0x03, 0x01, 0x02, 0x01, 0x01, 0x00,
            0x02, 0x01, 0x01, 0x03, 0x05, 0x03, 0x05, 0x00, 0x03, 0x0d,
        ],
    ),
    // Once `unsat` is recorded, names are still introduced, but no clause is written, and for an ask only its
    // assumptions are.
    (
        b"1 0\na 0\n-1 0\n2 0\na 0\n",
        AMPLE,
        &[
            0x02, 0x00, 0x01, 0x01, 0x00, 0x01, 0x05, 0x01, 0x00, 0x0b, 0x00, 0x09, 0x06, 0x01,
            0x00, 0x00, 0x0a, 0x01, 0x00, 0x0b, 0x00, 0x01, 0x00, 0x01, 0x05, 0x01, 0x01, 0x02,
            0x01, 0x02, 0x0b, 0x00, 0x0b, 0x00, 0x0d,
        ],
    ),
];

fn certificates() -> &'static [(&'static [u8], u64, &'static [u8])] {
    &CERTIFICATES
}

#[test]
fn certificates_are_written(rt: HostRuntime) {
    for &(text, budget, certificate) in certificates() {
        assert!(rt;
            is_certified(rt.alloc(), text, budget, certificate),
            "{text:?}"
        );
    }
}

/// The number of commands, the number of refused ones, and the number of the command at which the text is malformed.
type Counts = (u64, u64, Option<u64>);

/// Returns `true` if a run over a script returns the counts `counts` and the reports `asks`.
fn is_summed_up(
    alloc: Global,
    (text, budget, counts, asks): (&[u8], u64, Counts, &[AskReport]),
) -> bool {
    let mut answers = Counted::new(Vec::new(alloc));
    let mut certificate = Counted::new(Vec::new(alloc));
    match run(
        alloc,
        &mut Counted::new(text),
        &mut answers,
        &mut certificate,
        budget,
    ) {
        Ok(found) => {
            (found.commands, found.refused, found.malformed) == counts
                && found.asks.as_slice() == asks
        }
        Err(_) => false,
    }
}

const SAT: AskReport = AskReport {
    answer: Answer::Sat,
    steps: 1,
};

const UNSAT_BY_TWO: AskReport = AskReport {
    answer: Answer::Unsat,
    steps: 2,
};

const UNSAT_AT_ONCE: AskReport = AskReport {
    answer: Answer::Unsat,
    steps: 0,
};

/// A script, a budget, the counts of a run, and its reports of the asks. An ask at the end of a text is reported, but
/// isn't counted as a command.
static SUMMARIES: [(&[u8], u64, Counts, &[AskReport]); 9] = [
    // Units are kept from one ask to the next.
    (
        b"1 0\na 0\n-1 0\n2 0\na 0\n",
        AMPLE,
        (5, 0, None),
        &[SAT, UNSAT_AT_ONCE],
    ),
    (
        b"1 2 0 1 -2 0 -1 2 0 -1 -2 0 268435457 0 a 0 a 0 x",
        AMPLE,
        (7, 1, Some(8)),
        &[UNSAT_BY_TWO, UNSAT_AT_ONCE],
    ),
    (SIXTH, 2, (5, 0, None), &[UNSAT_BY_TWO]),
    // Names that occur in no clause take no steps.
    (
        b"1 2 0\n1 -2 0\n-1 2 0\n-1 -2 0\n40 0\na 0\n",
        2,
        (6, 0, None),
        &[UNSAT_BY_TWO],
    ),
    (b"p cnf 2 1\n1 2 0\n%\n0\n", AMPLE, (1, 0, None), &[SAT]),
    (b"p cnf 0 0", AMPLE, (0, 0, None), &[SAT]),
    (b"p cnf 1 1\n268435457 0\n", AMPLE, (1, 1, None), &[SAT]),
    (b"p cnf 1 1\n1 0\na 0\n", AMPLE, (2, 0, None), &[SAT]),
    (b"1 0\na 0\n%", AMPLE, (2, 0, None), &[SAT]),
];

fn summaries() -> &'static [(&'static [u8], u64, Counts, &'static [AskReport])] {
    &SUMMARIES
}

#[test]
fn runs_are_summed_up(rt: HostRuntime) {
    for &row in summaries() {
        assert!(rt; is_summed_up(rt.alloc(), row), "{row:?}");
    }
}

/// The numbers of calls of the script's reader, the answers' writer and the certificate's writer.
type Calls = (u64, u64, u64);

/// Returns the fault of a run in which one call of each device fails, counted from 1, and how many calls of each device
/// were made.
fn run_at(alloc: Global, text: &[u8], failing: Calls) -> (Option<RunFault>, Calls) {
    let mut script = fails_at(text, failing.0);
    let mut answers = fails_at(b"", failing.1);
    let mut certificate = fails_at(b"", failing.2);
    let fault = run(alloc, &mut script, &mut answers, &mut certificate, AMPLE).err();
    let calls = (
        script.into_inner().calls,
        answers.into_inner().calls,
        certificate.into_inner().calls,
    );
    (fault, calls)
}

/// A script, and how many calls a run over it makes, or `None` if that isn't tested. The certificate's writer is
/// written to and flushed before each answer and at the end.
static CALLS: [(&[u8], Option<Calls>); 6] = [
    (b"a 0\n", Some((5, 2, 4))),
    (FOURTH, Some((11, 2, 4))),
    (SIXTH, Some((33, 2, 4))),
    (b"1 2 0\n-2 0\nh 2 0\na -1 0\n", None),
    (b"1 0\na -1 0\n2 0\na 0\n-3 -4 0\na 3 4 0\n", None),
    (b"1 0\na 1 0\nh 1 0\n-1 0\na 0\n", None),
];

fn all_calls() -> &'static [(&'static [u8], Option<Calls>)] {
    &CALLS
}

fn calls_of(calls: Calls, device: u8) -> u64 {
    match device {
        0 => calls.0,
        1 => calls.1,
        _ => calls.2,
    }
}

/// Returns `true` if each of the first `calls` calls of a device, if it fails, gives `fault` and is the last call.
fn each_fails(alloc: Global, text: &[u8], device: u8, calls: u64, fault: RunFault) -> bool {
    for failing in 1..=calls {
        let one = match device {
            0 => (failing, 0, 0),
            1 => (0, failing, 0),
            _ => (0, 0, failing),
        };
        let (found, made) = run_at(alloc, text, one);
        if found != Some(fault) || calls_of(made, device) != failing {
            return false;
        }
    }
    true
}

/// Returns `true` if a run makes the calls `wanted`, if given, and reports a failure of each.
fn each_call_fails(alloc: Global, text: &[u8], wanted: Option<Calls>) -> bool {
    let (fault, calls) = run_at(alloc, text, (0, 0, 0));
    fault == None
        && (wanted == None || wanted == Some(calls))
        && each_fails(alloc, text, 0, calls.0, RunFault::ScriptRead)
        && each_fails(alloc, text, 1, calls.1, RunFault::AnswersWrite)
        && each_fails(alloc, text, 2, calls.2, RunFault::CertificateWrite)
}

/// Returns `true` if a failure of each call of a device, including flushes, gives the fault of its text.
#[test]
fn each_call_fails_in_turn(rt: HostRuntime) {
    for &(text, calls) in all_calls() {
        assert!(rt; each_call_fails(rt.alloc(), text, calls), "{text:?}");
    }
}

/// Returns the fault of a run over one ask, with writers that accept only as many bytes as the slices have.
fn fault_of_short(alloc: Global, answers: &mut [u8], certificate: &mut [u8]) -> Option<RunFault> {
    run(
        alloc,
        &mut Counted::new(b"a 0\n".as_slice()),
        &mut Counted::new(answers),
        &mut Counted::new(certificate),
        1,
    )
    .err()
}

/// Tests runs in which one of the writers is too short by a byte.
#[test]
fn short_writers_are_reported(rt: HostRuntime) {
    assert!(rt; fault_of_short(rt.alloc(), &mut [0; 18], &mut [0; 9]) == None);
    assert!(rt;
        fault_of_short(rt.alloc(), &mut [0; 17], &mut [0; 9]) == Some(RunFault::AnswersWrite)
    );
    assert!(rt;
        fault_of_short(rt.alloc(), &mut [0; 18], &mut [0; 8]) == Some(RunFault::CertificateWrite)
    );
}

/// Malformed scripts, each with the command and the line that its summary names.
static MALFORMED: [(&[u8], u64, u64); 8] = [
    (b"x", 1, 1),
    (b"c x\n1 2 0\na 0\n3 x 0\n1 0\n", 3, 4),
    (b"1 0\n\n1x\n\n1 0\n", 2, 3),
    // A command is incomplete at the end of the text.
    (b"1 0\n\n2\n", 2, 3),
    (b"1 0\n\n2", 2, 3),
    (b"1\n2 0 3\n0\n4\n%\n5\n", 3, 5),
    // A number above the limit is refused, and not malformed.
    (b"1 0\n99999999999\n0\n-0x\n", 3, 4),
    (b"p cnf 1 1\n1 0\np cnf 1 1\n", 2, 3),
];

fn malformed() -> &'static [(&'static [u8], u64, u64)] {
    &MALFORMED
}

/// Returns `true` if a run over the script, read in pieces of `size` bytes, reports that it is malformed at `command`,
/// on line `line`.
fn is_malformed_at(alloc: Global, text: &[u8], size: usize, (command, line): (u64, u64)) -> bool {
    let mut answers = Counted::new(Vec::new(alloc));
    let mut certificate = Counted::new(Vec::new(alloc));
    match run(
        alloc,
        &mut in_pieces(text, size),
        &mut answers,
        &mut certificate,
        AMPLE,
    ) {
        Ok(summary) => summary.malformed == Some(command) && summary.line == line,
        Err(_) => false,
    }
}

#[test]
fn the_line_of_malformed_text_is_reported(rt: HostRuntime) {
    for &(text, command, line) in malformed() {
        for size in [1, 2, 3, 4096] {
            assert!(rt;
                is_malformed_at(rt.alloc(), text, size, (command, line)),
                "{text:?}"
            );
        }
    }
}
