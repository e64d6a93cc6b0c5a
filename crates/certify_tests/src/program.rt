//! Tests of the program's statuses and of what it prints.

use crate::devices::{FailsAt, fails_at};
use certify::program::opened::{OpenCall, OpenFile, OpenRun};
use certify::program::{carry_out, program};
use sat_base::{Counted, CountedRead};
use std::alloc::{AllocError, Global};
use std::io;
use std::io::ErrorKind;

/// Arguments of the program.
type Words = io::Result<Vec<String>>;

/// Returns `true` if the program ends with the given status, output and errors.
pub(crate) fn does<I: CountedRead>(
    rt: &HostRuntime,
    words: Words,
    input: &mut I,
    (status, printed, reported): (u8, &str, &str),
) -> bool {
    let mut output = Counted::new(Vec::new(rt.alloc()));
    let mut errors = Counted::new(Vec::new(rt.alloc()));
    let found = program(rt, words, input, &mut output, &mut errors);
    found == status
        && output.into_inner().as_slice() == printed.as_bytes()
        && errors.into_inner().as_slice() == reported.as_bytes()
}

/// The clauses that put four pigeons into three holes.
const PIGEONS: &str = "\
    1 2 3 0\n4 5 6 0\n7 8 9 0\n10 11 12 0\n-1 -4 0\n-1 -7 0\n-1 -10 0\n-4 -7 0\n-4 -10 0\n-7 -10 0\n\
    -2 -5 0\n-2 -8 0\n-2 -11 0\n-5 -8 0\n-5 -11 0\n-8 -11 0\n-3 -6 0\n-3 -9 0\n-3 -12 0\n-6 -9 0\n\
    -6 -12 0\n-9 -12 0\na 0\n";

/// Standard error of runs: without rounds, with the binary clause 1 2, with names that occur in no clause, with one
/// name that is only assumed, and of `PIGEONS`.
const NO_ROUND: &str =
    "[INFO  certify] progress conflicts=0 restarts=0 vars=0 binary=0 irred=0 core=0 mid=0 local=0\n";

const ONE_PAIR: &str =
    "[INFO  certify] progress conflicts=1 restarts=1 vars=2 binary=1 irred=0 core=0 mid=0 local=0\n";

const NO_NAME: &str =
    "[INFO  certify] progress conflicts=1 restarts=1 vars=0 binary=0 irred=0 core=0 mid=0 local=0\n";

const ONE_NAME: &str =
    "[INFO  certify] progress conflicts=1 restarts=1 vars=1 binary=0 irred=0 core=0 mid=0 local=0\n";

const SEVEN_ROUNDS: &str =
    "[INFO  certify] progress conflicts=7 restarts=1 vars=0 binary=19 irred=3 core=1 mid=0 local=0\n";

/// Standard error of runs without rounds: of a script that is malformed at its first command, one without asks, and one
/// whose only command is refused.
const MALFORMED: &str =
    "[INFO  certify] progress conflicts=0 restarts=0 vars=0 binary=0 irred=0 core=0 mid=0 local=0 \
     malformed at command 1, line 1\n";

const NO_ASK: &str =
    "[INFO  certify] progress conflicts=0 restarts=0 vars=0 binary=0 irred=0 core=0 mid=0 local=0 no ask in this script\n";

const REFUSED: &str =
    "[INFO  certify] progress conflicts=0 restarts=0 vars=0 binary=0 irred=0 core=0 mid=0 local=0 no accepted ask in this script\n";

/// A script, the standard output, the status, and the standard error.
static SCRIPTS: [(&str, &str, u8, &str); 15] = [
    (
        PIGEONS,
        "s UNSATISFIABLE\nf 0\nc confirmed\n",
        0,
        SEVEN_ROUNDS,
    ),
    (
        "1 2 0\na 0\n",
        "s SATISFIABLE\nv -1 2 0\nc confirmed\n",
        0,
        ONE_PAIR,
    ),
    ("", "c confirmed\n", 0, NO_ASK),
    (
        "1 0\n-1 0\na 0\n",
        "s UNSATISFIABLE\nf 0\nc confirmed\n",
        0,
        NO_ROUND,
    ),
    (
        "268435457 0\n",
        "c refused 1 limit\nc confirmed\n",
        0,
        REFUSED,
    ),
    ("1 2", "c malformed 1\nc confirmed\n", 1, MALFORMED),
    ("-0 0\n", "c malformed 1\nc confirmed\n", 1, MALFORMED),
    ("+1 0\n", "c malformed 1\nc confirmed\n", 1, MALFORMED),
    ("1 a 0\n", "c malformed 1\nc confirmed\n", 1, MALFORMED),
    ("b 0\n", "c malformed 1\nc confirmed\n", 1, MALFORMED),
    (
        "p cnf 2 1\n1 2 0\n%\n0\n",
        "s SATISFIABLE\nv -1 2 0\nc confirmed\n",
        0,
        ONE_PAIR,
    ),
    (
        "p cnf 0 0\n",
        "s SATISFIABLE\nv 0\nc confirmed\n",
        0,
        NO_NAME,
    ),
    (
        "a 1 0\n",
        "s SATISFIABLE\nv 1 0\nc confirmed\n",
        0,
        ONE_NAME,
    ),
    (
        "p cnf 1 0\na 268435457 0\n",
        "c refused 1 limit\nc confirmed\n",
        0,
        REFUSED,
    ),
    (
        "1 2 0\na -1 0\nh 1 0\nw 2 0\na 2 0\n1 0\na -2 0\n",
        "s SATISFIABLE\nv -1 2 0\nc refused 5 witness 2\nc refused 7 witness 2\nc confirmed\n",
        0,
        ONE_PAIR,
    ),
];

fn scripts() -> &'static [(&'static str, &'static str, u8, &'static str)] {
    &SCRIPTS
}

#[test]
fn answers_are_printed_and_confirmed(rt: HostRuntime) {
    for &(script, printed, status, reported) in scripts() {
        let mut input = Counted::new(script.as_bytes());
        let wanted = (status, printed, reported);
        assert!(rt;
            does(&rt, Ok(Vec::new(rt.alloc())), &mut input, wanted),
            "{script}"
        );
    }
}

fn words(alloc: Global, words: &[&str]) -> Result<Vec<String>, AllocError> {
    let mut list = Vec::new(alloc);
    for word in words {
        list.push(String::from_str(alloc, word)?)?;
    }
    Ok(list)
}

/// Returns `true` if the program, called with the arguments `words`, ends with `status`, prints nothing, and writes
/// `reported` to its errors.
fn is_reported(rt: &HostRuntime, words: Words, status: u8, reported: &str) -> bool {
    let mut input = Counted::new("a 0\n".as_bytes());
    does(rt, words, &mut input, (status, "", reported))
}

/// What is written for arguments that are no call.
pub(crate) const USAGE: &str = "\
    usage: certify [run S A C [STEPS] | confirm S A C | hints C H | check H]\n\
    S: script, A: its answers, C: their certificate, H: hint text, STEPS: limit on search rounds per ask; \
    an output must not be an input or the other output; without arguments, standard input is the script\n";

static MISUSES: [&[&str]; 17] = [
    &["--help"],
    &["-h"],
    &["prove", "h"],
    &["solve", "s", "a", "c"],
    &["confirm", "s", "a", "c", "1"],
    &["confirm", "s", "a"],
    &["check"],
    &["check", "h", "h"],
    &["hints", "c"],
    &["hints", "c", "h", "h"],
    &[""],
    &["run", "s", "a"],
    &["run", "s", "a", "c", "1", "1"],
    &["run", "s", "a", "c", "-1"],
    &["run", "s", "a", "c", "+1"],
    &["run", "s", "a", "c", ""],
    &["run", "s", "a", "c", "18446744073709551616"],
];

fn misuses() -> &'static [&'static [&'static str]] {
    &MISUSES
}

/// Returns `true` if the program prints the usage when it is called with the arguments `list`.
fn is_misuse(rt: &HostRuntime, list: &[&str]) -> bool {
    match words(rt.alloc(), list) {
        Ok(words) => is_reported(rt, Ok(words), 2, USAGE),
        Err(_) => false,
    }
}

#[test]
fn other_arguments_give_the_usage(rt: HostRuntime) {
    for &list in misuses() {
        assert!(rt; is_misuse(&rt, list), "{list:?}");
    }
    let no_text = Err(io::Error::from(ErrorKind::InvalidData));
    assert!(rt; is_reported(&rt, no_text, 2, USAGE));
}

#[test]
fn arguments_want_memory(rt: HostRuntime) {
    let no_memory = Err(io::Error::from(ErrorKind::OutOfMemory));
    assert!(rt; is_reported(&rt, no_memory, 3, "certify: OutOfMemory\n"));
}

/// Returns `true` if a failure of each read is reported, including the read that finds the end.
#[test]
fn standard_input_fails(rt: HostRuntime) {
    let wanted = (
        3,
        "",
        "certify: ScriptRead\ncertify: standard input: operation interrupted\n",
    );
    for failing in 1..12 {
        let mut input = fails_at(b"1 2 0\na 0\n", failing);
        assert!(rt;
            does(&rt, Ok(Vec::new(rt.alloc())), &mut input, wanted),
            "{failing}"
        );
    }
}

/// Returns the status of the program when call number `failing` of its output fails, how many calls were made and bytes
/// accepted, and whether `reported` is written to its errors.
fn output_fails(rt: &HostRuntime, failing: u64, reported: &str) -> (u8, u64, usize, bool) {
    let mut input = Counted::new("1 2 0\na 0\n".as_bytes());
    let mut output = fails_at(b"", failing);
    let mut errors = Counted::new(Vec::new(rt.alloc()));
    let none = Ok(Vec::new(rt.alloc()));
    let status = program(rt, none, &mut input, &mut output, &mut errors);
    let is_so = errors.into_inner().as_slice() == reported.as_bytes();
    let output = output.into_inner();
    (status, output.calls, output.taken, is_so)
}

/// The number of the output's call that fails, and how many bytes were accepted before.
static TAKEN: [(u64, usize); 3] = [(1, 0), (2, 23), (3, 35)];

/// Standard error when the output fails after a run with the binary clause 1 2.
const NOT_PRINTED: &str =
    "[INFO  certify] progress conflicts=1 restarts=1 vars=2 binary=1 irred=0 core=0 mid=0 local=0\n\
     certify: AnswersWrite\n\
     certify: standard output: operation interrupted\n";

/// The calls that fail are the write of the answers, the write of the last line, and the flush. Nothing more is written
/// after the failure.
#[test]
fn standard_output_fails(rt: HostRuntime) {
    for &(failing, taken) in &TAKEN {
        let answer = output_fails(&rt, failing, NOT_PRINTED);
        assert!(rt; answer == (3, failing, taken, true), "{failing}");
    }
}

/// Returns the status of the program when its input fails and then call number `failing` of its errors, and whether
/// nothing is written to its output.
fn errors_fail(rt: &HostRuntime, failing: u64) -> (u8, bool) {
    let mut input = fails_at(b"", 1);
    let mut output = Counted::new(Vec::new(rt.alloc()));
    let mut errors = fails_at(b"", failing);
    let none = Ok(Vec::new(rt.alloc()));
    let status = program(rt, none, &mut input, &mut output, &mut errors);
    (status, output.into_inner().is_empty())
}

/// Returns `true` if the status is the same when any call of standard error fails.
#[test]
fn standard_error_fails(rt: HostRuntime) {
    for failing in 1..11 {
        assert!(rt; errors_fail(&rt, failing) == (3, true), "{failing}");
    }
}

/// Returns `true` if a script is answered when a line begins with `%`, although the next read would fail.
#[test]
fn nothing_is_read_after_the_end(rt: HostRuntime) {
    let mut input = fails_at(b"1 0\na 0\n%", 10);
    let wanted = (0, "s SATISFIABLE\nv 1 0\nc confirmed\n", NO_NAME);
    assert!(rt; does(&rt, Ok(Vec::new(rt.alloc())), &mut input, wanted));
}

/// Returns a file in memory that holds `text`.
fn file<'a>(path: &'a str, text: &'a [u8]) -> OpenFile<'a, FailsAt<'a>> {
    OpenFile {
        path,
        device: fails_at(text, 0),
        error: None,
    }
}

/// Returns the status of a run over files in memory, and how many bytes of answers it wrote.
fn run_in_memory(rt: &HostRuntime, script: &[u8]) -> (u8, usize) {
    let mut call = OpenCall::Run(OpenRun {
        script: file("s", script),
        answers: file("a", b""),
        certificate: file("c", b""),
        budget: u64::MAX,
    });
    let mut input = fails_at(b"", 1);
    let mut output = fails_at(b"", 1);
    let mut errors = Counted::new(Vec::new(rt.alloc()));
    let status = carry_out(rt.alloc(), &mut call, &mut input, &mut output, &mut errors);
    match call {
        OpenCall::Run(run) => (status, run.answers.device.into_inner().taken),
        _ => (status, 0),
    }
}

#[test]
fn a_run_is_carried_out_in_memory(rt: HostRuntime) {
    assert!(rt; run_in_memory(&rt, b"1 2 0\na 0\n") == (0, 23));
}
