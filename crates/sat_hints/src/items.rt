//! Writing lists of ids and literals.
//!
//! Every item is a number followed by a space.
ghost use Rattle.std.specs.Prelude.{◌≡◌, ◌+◌, ◌*◌, ◌<◌, ◌≤◌, ◌++◌, ◌∷◌, [], length, take};
ghost use Rattle.sat_hints.specs.Lines.{id_words, literal_words};
ghost use Rattle.sat_hints.specs.inner.LineWriting.{sign_text};

use sat_base::{Lit, write_decimal};

/// The largest number of bytes in an item: a sign, 20 digits and a space.
pub(crate) const MOST_BYTES: usize = 22;

/// Writes 2^64, the ID for the largest id, and a space, after the first `at` bytes. Returns the end of what
/// was written.
#[inline(never)]
fn write_largest(bytes: &mut [u8], at: usize) -> usize
    requires { at + 22 ≤ length bytes.old }
    ensures within { result ≤ at + 22 }
    ensures same { length bytes.new ≡ length bytes.old }
    ensures text { take result bytes.new ≡ take at bytes.old ++ id_words (18446744073709551615 ∷ []) }
{
    let end = write_decimal(bytes, at, 1844674407370955161);
    bytes[end] = b'6';
    bytes[end + 1] = b' ';
    end + 2
}

/// Writes the ID for `id`, which is `id` plus one, and a space, after the first `at` bytes. Returns the end of what
/// was written.
#[inline(always)]
fn write_id(bytes: &mut [u8], at: usize, id: u64) -> usize
    requires { at + 22 ≤ length bytes.old }
    ensures within { result ≤ at + 22 }
    ensures same { length bytes.new ≡ length bytes.old }
    ensures text { take result bytes.new ≡ take at bytes.old ++ id_words (id ∷ []) }
{
    let Some(number) = id.checked_add(1) else {
        return write_largest(bytes, at);
    };
    let end = write_decimal(bytes, at, number);
    bytes[end] = b' ';
    end + 1
}

/// Writes the IDs for `ids`, each followed by a space, after the first `len` bytes. Returns the end of what
/// was written.
pub(crate) fn write_ids(bytes: &mut [u8], len: usize, ids: &[u64]) -> usize
    requires { len + 22 * length ids.now ≤ length bytes.old }
    ensures within { result ≤ length bytes.old }
    ensures same { length bytes.new ≡ length bytes.old }
    ensures text { take result bytes.new ≡ take len bytes.old ++ id_words ids.now }
{
    let mut at = len;
    for id in ids {
        at = write_id(bytes, at, *id);
    }
    at
}

/// Writes `-` after the first `at` bytes if the literal is negative. Returns the end of what was written.
#[inline(always)]
fn write_sign(bytes: &mut [u8], at: usize, literal: Lit) -> usize
    requires { at < length bytes.old }
    ensures within { result ≤ at + 1 }
    ensures same { length bytes.new ≡ length bytes.old }
    ensures text { take result bytes.new ≡ take at bytes.old ++ sign_text literal }
{
    if literal.is_positive() {
        return at;
    }
    bytes[at] = b'-';
    at + 1
}

/// Writes the number of a literal, and a space, after the first `at` bytes. Returns the end of what was written.
#[inline(always)]
fn write_literal(bytes: &mut [u8], at: usize, literal: Lit) -> usize
    requires { at + 22 ≤ length bytes.old }
    ensures within { result ≤ at + 22 }
    ensures same { length bytes.new ≡ length bytes.old }
    ensures text { take result bytes.new ≡ take at bytes.old ++ literal_words (literal ∷ []) }
{
    let start = write_sign(bytes, at, literal);
    let end = write_decimal(bytes, start, literal.index() as u64 + 1);
    bytes[end] = b' ';
    end + 1
}

/// Writes the numbers of literals, each followed by a space, after the first `len` bytes. Returns the end of what
/// was written.
pub(crate) fn write_literals(bytes: &mut [u8], len: usize, literals: &[Lit]) -> usize
    requires { len + 22 * length literals.now ≤ length bytes.old }
    ensures within { result ≤ length bytes.old }
    ensures same { length bytes.new ≡ length bytes.old }
    ensures text { take result bytes.new ≡ take len bytes.old ++ literal_words literals.now }
{
    let mut at = len;
    for literal in literals {
        at = write_literal(bytes, at, *literal);
    }
    at
}
