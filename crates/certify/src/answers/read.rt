//! Reads answers line by line, each from the start of a byte slice.
//!
//! Bytes are refused unless they have exactly this form: single spaces, no leading zeros, LF at the end of every line,
//! and names from 1 to 2^28 in order.
ghost use Rattle.std.specs.Prelude.{◌≡◌, ◌++◌, false, ◌*◌, ◌<◌, decimal, MatchOption, MatchResult, List, ℕ};
ghost use Rattle.certify.specs.answers.AnswerForms.{IsName};
ghost use Rattle.certify.specs.answers.AnswerReading.{BeginsNoLiteral, WhyNoLiterals, WhyNoFirstLine, WhyNoSecondLine};
ghost use Rattle.certify.specs.answers.AnswerReading.{WhyNoOutcome, CannotBeginName, CannotBeginLiteral};
ghost use Rattle.certify.specs.answers.AnswerReading.{CannotBeginLiterals};
ghost use Rattle.certify.specs.answers.AnswerReading.{CannotBeginFirstLine, CannotBeginSecondLine, HasSecondLine};
ghost use Rattle.certify.specs.answers.AnswerReading.{IsSecondLineHead};
ghost use Rattle.certify.specs.answers.AnswerReading.{first_answer_line, literal_sort_key, BeginsWithLiteral};
ghost use Rattle.certify.specs.answers.AnswerReading.{BeginsWithLiterals};
ghost use Rattle.certify.specs.answers.AnswerReading.{BeginsWithSecondLine, BeginsWithAnswer};
ghost use Rattle.sat_base.specs.text.NumberWords.{BeginsWithWord, BeginsWithNoWord};
ghost use Rattle.sat_base.specs.values.Literals.{var_limit};

use sat_base::{Lit, Var, append_digit, read_number, take_text};
use std::alloc::AllocFailed;
use thiserror::Error;

/// What an answer says about its ask.
#[derive(Clone, Copy, Debug, Drop, PartialEq, Eq)]
pub enum AnswerKind {
    /// The answer has a `v` line, with a model.
    Sat,
    /// The answer has an `f` line, with a core.
    Unsat,
    Unknown,
}

/// Why no answer was read.
#[derive(Clone, Copy, Debug, Drop, PartialEq, Eq, Error)]
pub enum AnswerFault {
    /// The bytes end where a line is expected.
    #[error("a line of the answers is missing")]
    Missing,
    /// The bytes are not a line of an answer.
    #[error("the answers have a line that isn't in form")]
    Text,
    #[error("out of memory")]
    OutOfMemory,
}

impl<T: Drop> From<AllocFailed<T>> for AnswerFault {
    ghost use Rattle.std.specs.Prelude.{◌≡◌};
    ghost use Rattle.certify.specs.declared.answers.read.AnswerFault.TheVariants.{OutOfMemory};

    ghost from_gives = { λ _ e. e ≡ OutOfMemory };

    fn from(_e: AllocFailed<T>) -> AnswerFault {
        AnswerFault::OutOfMemory
    }
}

/// Returns `true` if `text` begins with `bytes`.
pub fn is_prefix(bytes: &[u8], text: &[u8]) -> bool
    ensures { result ≡ false → (tail : List ℕ) → text.now ≡ bytes.now ++ tail → ⊥ }
{
    match take_text(text, bytes) {
        Some(_) => true,
        None => false,
    }
}

/// Returns the name at the start of `bytes`, and the bytes after the space that must follow it.
#[inline(always)]
fn read_name(bytes: &[u8]) -> Option<(usize, &[u8])>
    ensures { MatchOption result (BeginsWithNoWord decimal IsName bytes.now)
        (λ x. BeginsWithWord decimal IsName bytes.now x.0 x.1.now) }
{
    let (name, rest) = read_number(bytes, Var::max_count() as u64)?;
    Some((name as usize, rest))
}

/// Returns `true` if `bytes`, or some continuation of `bytes`, begins with a name and a space.
fn begins_name(bytes: &[u8]) -> bool
    ensures { result ≡ false → CannotBeginName bytes.now }
{
    let mut name = 0;
    for i in 0..bytes.len() {
        let byte = bytes[i];
        if byte == b' ' && name > 0 {
            return true;
        }
        match append_digit(name, byte, Var::max_count() as u64) {
            Some(more) => name = more,
            None => return false,
        }
    }
    true
}

/// Returns the literal at the start of `bytes`, and the bytes after the space that must follow it. Skips the sign
/// without a branch.
fn read_literal(bytes: &[u8]) -> Option<(Lit, &[u8])>
    ensures { MatchOption result (BeginsNoLiteral bytes.now) (λ x. BeginsWithLiteral bytes.now x.0 x.1.now) }
{
    if bytes.is_empty() {
        return None;
    }
    let negative = bytes[0] == b'-';
    let (name, rest) = read_name(&bytes[usize::from(negative)..])?;
    Some((Lit::from_index(name - 1, !negative), rest))
}

/// Returns `true` if `bytes`, or some continuation of `bytes`, begins with a literal and a space.
fn begins_literal(bytes: &[u8]) -> bool
    ensures { result ≡ false → CannotBeginLiteral bytes.now }
{
    match take_text(bytes, b"-") {
        Some(following) => begins_name(following),
        None => begins_name(bytes),
    }
}

/// Returns the sort key of `lit` in the second line of an answer of this kind.
fn literal_sort_key(kind: AnswerKind, lit: Lit) -> usize
    ensures value { result ≡ literal_sort_key kind lit }
    ensures bound { result < 2 * var_limit }
{
    match kind {
        AnswerKind::Sat => lit.index(),
        _ => lit.code(),
    }
}

/// Reads the literals of the second line of an answer, up to `0` and LF, into `line`. Returns the bytes after the LF. A
/// literal out of order is refused before memory is allocated for it.
fn read_literals<'a>(
    kind: AnswerKind,
    bytes: &'a [u8],
    line: &mut Vec<Lit>,
) -> Result<&'a [u8], AnswerFault>
    requires { HasSecondLine kind }
    ensures { MatchResult result (λ rest. BeginsWithLiterals kind bytes.now line.new.items rest.now)
        (WhyNoLiterals kind bytes.now) }
{
    line.clear();
    let mut rest = bytes;
    let mut least = 0;
    while let Some(found) = read_literal(rest) {
        let (lit, following) = found;
        let place = literal_sort_key(kind, lit);
        if place < least {
            return Err(AnswerFault::Text);
        }
        line.push(lit)?;
        least = place + 1;
        rest = following;
    }
    take_text(rest, b"0\n").ok_or(AnswerFault::Text)
}

/// Returns `true` if `bytes`, or some continuation of `bytes`, begins with the literals of the second line of an answer
/// of this kind, followed by `0` and LF.
fn begins_literals(kind: AnswerKind, bytes: &[u8]) -> bool
    requires { HasSecondLine kind }
    ensures { result ≡ false → CannotBeginLiterals kind bytes.now }
{
    let mut rest = bytes;
    let mut lowest = 0;
    while let Some(found) = read_literal(rest) {
        let (lit, following) = found;
        let place = literal_sort_key(kind, lit);
        if place < lowest {
            return false;
        }
        lowest = place + 1;
        rest = following;
    }
    if is_prefix(rest, b"0\n") {
        return true;
    }
    begins_literal(rest)
}

/// Returns `true` if `bytes`, or some continuation of `bytes`, begins with the first line of an answer.
pub fn begins_kind(bytes: &[u8]) -> bool
    ensures { result ≡ false → CannotBeginFirstLine bytes.now }
{
    if is_prefix(bytes, b"s SATISFIABLE\n") {
        return true;
    }
    if is_prefix(bytes, b"s UNSATISFIABLE\n") {
        return true;
    }
    is_prefix(bytes, b"s UNKNOWN\n")
}

/// Reads the first line of an answer. Returns the kind of the answer, and the bytes after the line.
pub fn read_kind(bytes: &[u8]) -> Result<(AnswerKind, &[u8]), AnswerFault>
    ensures { MatchResult result (λ x. bytes.now ≡ first_answer_line x.0 ++ x.1.now) (WhyNoFirstLine bytes.now) }
{
    if bytes.is_empty() {
        return Err(AnswerFault::Missing);
    }
    if let Some(rest) = take_text(bytes, b"s SATISFIABLE\n") {
        return Ok((AnswerKind::Sat, rest));
    }
    if let Some(rest) = take_text(bytes, b"s UNSATISFIABLE\n") {
        return Ok((AnswerKind::Unsat, rest));
    }
    match take_text(bytes, b"s UNKNOWN\n") {
        Some(rest) => Ok((AnswerKind::Unknown, rest)),
        None => Err(AnswerFault::Text),
    }
}

/// Reads the second line of an answer of this kind, which must begin with `head`, into `line`. Returns the bytes after
/// that line.
fn read_list<'a>(
    kind: AnswerKind,
    head: &[u8],
    bytes: &'a [u8],
    line: &mut Vec<Lit>,
) -> Result<&'a [u8], AnswerFault>
    requires { IsSecondLineHead kind head.now }
    ensures { MatchResult result (λ rest. BeginsWithSecondLine kind bytes.now line.new.items rest.now)
        (WhyNoSecondLine kind bytes.now) }
{
    if bytes.is_empty() {
        return Err(AnswerFault::Missing);
    }
    let following = take_text(bytes, head).ok_or(AnswerFault::Text)?;
    read_literals(kind, following, line)
}

/// Returns `true` if `bytes`, or some continuation of `bytes`, begins with the second line of an answer of this kind,
/// which begins with `head`.
fn begins_list(kind: AnswerKind, head: &[u8], bytes: &[u8]) -> bool
    requires { IsSecondLineHead kind head.now }
    ensures { result ≡ false → CannotBeginSecondLine kind bytes.now }
{
    if is_prefix(bytes, head) {
        return true;
    }
    match take_text(bytes, head) {
        Some(following) => begins_literals(kind, following),
        None => false,
    }
}

/// Returns `true` if `bytes`, or some continuation of `bytes`, begins with the second line of an answer of this kind.
pub fn begins_line(kind: AnswerKind, bytes: &[u8]) -> bool
    ensures { result ≡ false → CannotBeginSecondLine kind bytes.now }
{
    match kind {
        AnswerKind::Sat => begins_list(kind, b"v ", bytes),
        AnswerKind::Unsat => begins_list(kind, b"f ", bytes),
        AnswerKind::Unknown => is_prefix(bytes, b""),
    }
}

/// Reads the second line of an answer of this kind into `line`. Returns the bytes after that line. An unknown
/// answer has no second line: nothing is read, and `line` becomes empty. After a fault, the contents of `line`
/// are unspecified.
pub fn read_line<'a>(
    kind: AnswerKind,
    bytes: &'a [u8],
    line: &mut Vec<Lit>,
) -> Result<&'a [u8], AnswerFault>
    ensures { MatchResult result (λ rest. BeginsWithSecondLine kind bytes.now line.new.items rest.now)
        (WhyNoSecondLine kind bytes.now) }
{
    match kind {
        AnswerKind::Sat => read_list(kind, b"v ", bytes, line),
        AnswerKind::Unsat => read_list(kind, b"f ", bytes, line),
        AnswerKind::Unknown => {
            line.clear();
            Ok(bytes)
        }
    }
}

/// Reads an answer, and the literals of its `v` or `f` line into `line`. Returns the kind of the answer, and the
/// bytes after the answer. The memory of `line` can be reused for every answer. After a fault, the contents of `line`
/// are unspecified.
pub fn read_outcome<'a>(
    bytes: &'a [u8],
    line: &mut Vec<Lit>,
) -> Result<(AnswerKind, &'a [u8]), AnswerFault>
    ensures { MatchResult result (λ x. BeginsWithAnswer x.0 bytes.now line.new.items x.1.now) (WhyNoOutcome bytes.now) }
{
    let (kind, following) = read_kind(bytes)?;
    let rest = read_line(kind, following, line)?;
    Ok((kind, rest))
}
