//! Tests with texts that never end: a line of answers is refused as soon as no valid line begins with its bytes, a
//! script is malformed at the first byte that no valid text can contain there, and it ends at a line that begins
//! with `%`.

use crate::confirm::said_at;
use crate::devices::fails_at;
use crate::written::{AMPLE, run_on};
use certify::confirm::confirm;
use certify::verdict::{ConfirmFault, Verdict, Why};
use sat_base::Counted;
use sat_checker::Looks;
use std::alloc::Global;
use std::io;
use std::io::Read;

/// A reader that returns a text, and then another text again and again. It counts its reads.
#[derive(Drop)]
struct Endless<'a> {
    text: &'a [u8],
    again: &'a [u8],
    reads: u64,
}

impl Read for Endless<'_> {
    fn read(&mut self, buf: &mut [u8]) -> io::Result<usize> {
        self.reads = self.reads.saturating_add(1);
        if self.text.is_empty() {
            self.text = self.again;
        }
        let count = buf.len().min(self.text.len());
        let (piece, rest) = self.text.split_at(count);
        buf[..count].copy_from_slice(piece);
        self.text = rest;
        Ok(count)
    }
}

/// Returns the verdict on answers that consist of `text` and then `again` without end, and the number of reads of
/// the answers.
fn said_of(
    alloc: Global,
    (script, certificate): (&[u8], &[u8]),
    text: &[u8],
    again: &[u8],
) -> (Result<Verdict, ConfirmFault>, u64) {
    let mut answers = Counted::new(Endless {
        text,
        again,
        reads: 0,
    });
    let said = confirm(
        alloc,
        &mut Counted::new(script),
        &mut answers,
        &mut Counted::new(certificate),
        &mut Looks::new(),
    );
    (said, answers.into_inner().reads)
}

/// A clause of two names, and an ask with a model.
const ASK: (&[u8], &[u8]) = (
    b"1 2 0\na 0\n",
    &[2, 0, 1, 2, 1, 2, 5, 2, 0, 2, 11, 0, 10, 2, 1, 2, 11, 0, 13],
);

/// A script that is malformed.
const MALFORMED: (&[u8], &[u8]) = (b"1 2", &[13]);

/// Script and certificate, the beginning of the answers, what follows without end, and the reason of the `No`.
static ENDLESS: [((&[u8], &[u8]), &[u8], &[u8], Why); 9] = [
    (ASK, b"", b"\0", Why::AnswerText),
    (ASK, b"s SATISFIABLE", b"\0", Why::AnswerText),
    (ASK, b"s SATISFIABLE\n", b"\0", Why::AnswerText),
    (ASK, b"s SATISFIABLE\nv ", b"1 ", Why::AnswerText),
    (ASK, b"s SATISFIABLE\nv -", b"9", Why::AnswerText),
    (ASK, b"s UNSATISFIABLE\nf -1 ", b"1 ", Why::AnswerText),
    (ASK, b"s SATISFIABLE\nv -1 2 0\n", b"s", Why::AnswerExtra),
    (MALFORMED, b"", b"\0", Why::AnswerText),
    (MALFORMED, b"c malformed 1", b"1", Why::AnswerText),
];

fn rows() -> &'static [(
    (&'static [u8], &'static [u8]),
    &'static [u8],
    &'static [u8],
    Why,
)] {
    &ENDLESS
}

/// Returns `true` if the verdict is `No` because of `why`, after at most 11 reads of the answers: one for `text`, and
/// at most ten of one or two bytes, for the digits of a number past the limit.
fn is_refused(alloc: Global, texts: (&[u8], &[u8]), text: &[u8], again: &[u8], why: Why) -> bool {
    let (said, reads) = said_of(alloc, texts, text, again);
    match said {
        Ok(Verdict::No { why: reason, .. }) => reason == why && reads <= 11,
        _ => false,
    }
}

#[test]
fn answers_that_never_end_are_refused(rt: HostRuntime) {
    for &(texts, text, again, why) in rows() {
        assert!(rt; is_refused(rt.alloc(), texts, text, again, why), "{text:?}");
    }
}

/// Scripts that are malformed at their last byte, and their answers.
static MALFORMED_THERE: [(&[u8], &[u8]); 9] = [
    (b"\0", b"c malformed 1\n"),
    (b"1 0\n1x", b"c malformed 2\n"),
    (b"1 0\n2 --", b"c malformed 2\n"),
    (b"a 0\nab", b"s SATISFIABLE\nv 0\nc malformed 2\n"),
    (b"h 0\nc -\n0 +", b"c malformed 3\n"),
    (b"pc", b"c malformed 1\n"),
    (b"p cnf 1 -", b"c malformed 1\n"),
    (b"p cnf 1 1 1", b"c malformed 1\n"),
    (b"0\n\tp", b"c malformed 2\n"),
];

fn malformed_there() -> &'static [(&'static [u8], &'static [u8])] {
    &MALFORMED_THERE
}

/// Returns `true` if a script that is read byte by byte has the answers `answers`, and they are confirmed, although a
/// read after its last byte would fail.
fn is_decided(alloc: Global, text: &[u8], answers: &[u8]) -> bool {
    let following = (text.len() as u64).saturating_add(1);
    let written = run_on(alloc, &mut fails_at(text, following), AMPLE);
    let texts = (
        text,
        written.answers.as_slice(),
        written.certificate.as_slice(),
    );
    written.has_answers(answers) && said_at(alloc, texts, (following, 0, 0)) == Ok(Verdict::Yes)
}

#[test]
fn nothing_is_read_after_a_wrong_word(rt: HostRuntime) {
    for &(text, answers) in malformed_there() {
        assert!(rt; is_decided(rt.alloc(), text, answers), "{text:?}");
    }
}

/// Returns `true` if a script that repeats `again` without end is malformed at once, and is read only once.
fn is_read_once(alloc: Global, again: &[u8]) -> bool {
    let mut script = Counted::new(Endless {
        text: b"",
        again,
        reads: 0,
    });
    let written = run_on(alloc, &mut script, AMPLE);
    written.has_answers(b"c malformed 1\n") && script.into_inner().reads == 1
}

#[test]
fn a_script_that_never_ends_is_read_once(rt: HostRuntime) {
    assert!(rt; is_read_once(rt.alloc(), &[0; 64]));
}

/// Scripts that end at a line that begins with `%`, and their answers.
static ENDED: [(&[u8], &[u8]); 4] = [
    (b"1 0\na 0\n%", b"s SATISFIABLE\nv 1 0\n"),
    (b"1 0\na 0\n \t%\n", b"s SATISFIABLE\nv 1 0\n"),
    (b"p cnf 1 1\n1 0\n%", b"s SATISFIABLE\nv 1 0\n"),
    (b"a 0\n1\n%0\n", b"s SATISFIABLE\nv 0\nc malformed 2\n"),
];

fn ended() -> &'static [(&'static [u8], &'static [u8])] {
    &ENDED
}

/// Returns a reader that returns a script and then zeros without end.
fn with_zeros(text: &[u8]) -> Counted<Endless<'_>> {
    Counted::new(Endless {
        text,
        again: b"0 ",
        reads: 0,
    })
}

/// Returns `true` if a script with zeros after it has the answers `answers`, and they are confirmed, with one read of
/// the script by each of `run` and `confirm`.
fn is_ended(alloc: Global, text: &[u8], answers: &[u8]) -> bool {
    let mut script = with_zeros(text);
    let written = run_on(alloc, &mut script, AMPLE);
    let mut again = with_zeros(text);
    let said = confirm(
        alloc,
        &mut again,
        &mut Counted::new(written.answers.as_slice()),
        &mut Counted::new(written.certificate.as_slice()),
        &mut Looks::new(),
    );
    written.has_answers(answers)
        && said == Ok(Verdict::Yes)
        && script.into_inner().reads == 1
        && again.into_inner().reads == 1
}

#[test]
fn nothing_is_read_after_a_percent_line(rt: HostRuntime) {
    for &(text, answers) in ended() {
        assert!(rt; is_ended(rt.alloc(), text, answers), "{text:?}");
    }
}
