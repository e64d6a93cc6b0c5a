//! Tests of hint texts of what runs write: each is proved.

use crate::devices::{fails_at, in_pieces};
use crate::written::{AMPLE, run_on};
use sat_base::{Counted, CountedRead};
use sat_hints::{HintError, HintFault, HintVerdict, check, convert};
use std::alloc::Global;

/// Returns the certificate that a run writes for a script.
fn certificate_of(alloc: Global, script: &[u8]) -> Vec<u8> {
    run_on(alloc, &mut Counted::new(script), AMPLE).certificate
}

/// Converts a certificate. Returns whether the conversion succeeds, and the hint text.
fn text_of<C: CountedRead>(alloc: Global, certificate: &mut C) -> (bool, Vec<u8>) {
    let mut text = Counted::new(Vec::new(alloc));
    let done = convert(alloc, certificate, &mut text).is_ok();
    (done, text.into_inner())
}

/// Returns the verdict on a hint text that is read in pieces of `size` bytes.
fn said_in(alloc: Global, text: &[u8], size: usize) -> Option<HintVerdict> {
    check(alloc, &mut in_pieces(text, size)).ok()
}

/// Returns the hint text of a certificate and the verdict on it, both read in pieces of `size` bytes.
fn hinted_in(alloc: Global, certificate: &[u8], size: usize) -> (Vec<u8>, Option<HintVerdict>) {
    let (done, text) = text_of(alloc, &mut in_pieces(certificate, size));
    let said = if done {
        said_in(alloc, text.as_slice(), size)
    } else {
        None
    };
    (text, said)
}

/// Whether a text derives an empty clause, how many cores it has, and how many lines.
type Fields = (bool, u64, u64);

/// Returns `true` if `text` is the hint text of a script's certificate, and is proved with the given fields, in one
/// piece and byte by byte.
fn is_hinted(alloc: Global, script: &[u8], text: &[u8], (empty, cores, lines): Fields) -> bool {
    let certificate = certificate_of(alloc, script);
    let proved = HintVerdict::Proved {
        empty,
        cores,
        lines,
    };
    for size in [1, 4096] {
        let (found, said) = hinted_in(alloc, certificate.as_slice(), size);
        if found.as_slice() != text || said != Some(proved) {
            return false;
        }
    }
    true
}

/// A script, the hint text of its certificate, and the text's fields.
static HINTED: [(&[u8], &[u8], Fields); 15] = [
    (b"", b"", (false, 0, 0)),
    (b"a 0\n", b"", (false, 0, 0)),
    (b"3 0\na 0\n", b"i 1 3 0\n", (false, 0, 1)),
    (b"1 2 0\na 0\n", b"i 1 1 2 0\n", (false, 0, 1)),
    (
        b"1 0\n-1 0\na 0\n",
        b"i 1 1 0\ni 2 -1 0\nd 3 0 1 2 0\n",
        (true, 0, 3),
    ),
    (b"0\na 0\n", b"i 1 0\n", (false, 0, 1)),
    (
        b"-1 -2 0\na 1 2 0\n",
        b"i 1 -1 -2 0\nf 1 2 0 1 0\n",
        (false, 1, 2),
    ),
    (b"a 1 -1 0\n", b"f 1 -1 0 0\n", (false, 1, 1)),
    // A hidden variable is deleted during the ask, after another variable has become a unit.
    (
        b"1 2 0\n-2 0\nh 2 0\na -1 0\n",
        b"i 1 1 2 0\ni 2 -2 0\nd 3 1 0 2 1 0\nx 1 0\ne 2 0\nf -1 0 3 0\n",
        (false, 1, 6),
    ),
    // A hidden variable that is a unit, and a hidden variable that never occurred in a clause.
    (
        b"1 0\nh 1 0\n-1 0\na 0\n",
        b"i 1 1 0\ni 2 -2 0\ne 1 0\n",
        (false, 0, 3),
    ),
    (b"h 2 0\na 0\n", b"e 2 0\n", (false, 0, 1)),
    (
        b"1 0\na -1 0\na 0\n",
        b"i 1 1 0\nf -1 0 1 0\n",
        (false, 1, 2),
    ),
    (
        b"1 0\na -1 0\n2 0\na 0\n-3 -4 0\na 3 4 0\n",
        b"i 1 1 0\nf -1 0 1 0\ni 2 2 0\ni 3 -3 -4 0\nf 3 4 0 3 0\n",
        (false, 2, 5),
    ),
    (
        b"1 0\na 1 0\nh 1 0\n-1 0\na 0\n",
        b"i 1 1 0\ni 2 -2 0\ne 1 0\n",
        (false, 0, 3),
    ),
    (
        b"1 2 0\n1 -2 0\n-1 2 0\n-1 -2 0\na 0\n",
        b"i 1 1 2 0\ni 2 1 -2 0\ni 3 -1 2 0\ni 4 -1 -2 0\nd 5 1 0 1 2 0\nd 6 2 0 5 3 0\nd 7 0 5 6 4 0\n",
        (true, 0, 7),
    ),
];

fn all_hinted() -> &'static [(&'static [u8], &'static [u8], Fields)] {
    &HINTED
}

#[test]
fn certificates_have_hint_texts(rt: HostRuntime) {
    for &(script, text, fields) in all_hinted() {
        assert!(rt; is_hinted(rt.alloc(), script, text, fields), "{script:?}");
    }
}

/// Returns `true` if a hint text was proved. `wanted` is whether it derives an empty clause, and how many cores it has.
fn is_proved_with(said: Option<HintVerdict>, wanted: (bool, u64)) -> bool {
    match said {
        Some(HintVerdict::Proved { empty, cores, .. }) => (empty, cores) == wanted,
        _ => false,
    }
}

/// Returns `true` if the hint text of a script's certificate is proved, in one piece and byte by byte. `wanted` is
/// whether it derives an empty clause, and how many cores it has.
pub(crate) fn is_proved(alloc: Global, script: &[u8], wanted: (bool, u64)) -> bool {
    let certificate = certificate_of(alloc, script);
    for size in [1, 4096] {
        let (_, said) = hinted_in(alloc, certificate.as_slice(), size);
        if !is_proved_with(said, wanted) {
            return false;
        }
    }
    true
}

/// The outcome of a conversion.
#[derive(Drop, PartialEq)]
enum End {
    Done,
    Read,
    Write,
    Other,
}

fn end_of(came: Result<(), HintError>) -> End {
    match came {
        Ok(()) => End::Done,
        Err(HintError::Read) => End::Read,
        Err(HintError::Write) => End::Write,
        Err(_) => End::Other,
    }
}

/// Returns the outcome of a conversion in which one read or one write fails, and the number of calls of each device.
fn convert_at(alloc: Global, certificate: &[u8], failing: (u64, u64)) -> (End, u64, u64) {
    let mut reader = fails_at(certificate, failing.0);
    let mut out = fails_at(b"", failing.1);
    let end = end_of(convert(alloc, &mut reader, &mut out));
    (end, reader.into_inner().calls, out.into_inner().calls)
}

/// Returns `true` if a failure of each read and each write of a conversion is reported, and is the last call of its
/// device.
fn each_call_fails(alloc: Global, certificate: &[u8]) -> bool {
    let (end, reads, writes) = convert_at(alloc, certificate, (0, 0));
    for at in 1..=reads {
        let (found, made, _) = convert_at(alloc, certificate, (at, 0));
        if found != End::Read || made != at {
            return false;
        }
    }
    for at in 1..=writes {
        let (found, _, made) = convert_at(alloc, certificate, (0, at));
        if found != End::Write || made != at {
            return false;
        }
    }
    end == End::Done && reads > 50 && writes > 0
}

/// Returns `true` if a failure of each read of a hint text is reported, including the read that finds its end.
fn each_read_fails(alloc: Global, text: &[u8]) -> bool {
    for at in 0..=text.len() {
        let failing = (at as u64).saturating_add(1);
        if check(alloc, &mut fails_at(text, failing)) != Err(HintFault::Read) {
            return false;
        }
    }
    true
}

/// Returns `true` if every failing call is reported, for the certificate that a run writes for a script, and for its
/// hint text.
fn are_reported(alloc: Global, script: &[u8]) -> bool {
    let certificate = certificate_of(alloc, script);
    let (done, text) = text_of(alloc, &mut Counted::new(certificate.as_slice()));
    done && each_call_fails(alloc, certificate.as_slice())
        && each_read_fails(alloc, text.as_slice())
}

#[test]
fn faults_of_devices_are_reported(rt: HostRuntime) {
    assert!(rt; are_reported(rt.alloc(), b"1 2 0\n1 -2 0\n-1 2 0\n-1 -2 0\na 0\n"));
}
