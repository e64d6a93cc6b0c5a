//! Reads fixed texts and numbers, which have no leading zeros and a space after them, at the start of byte slices.
ghost use Rattle.std.specs.Prelude.{◌≡◌, ◌++◌, ◌∷◌, [], ◌<◌, ◌≤◌, decimal, List, ℕ, MatchBool, MatchOption};
ghost use Rattle.sat_base.specs.text.NumberWords.{BeginsWithWord, EndsNoNumber, IsNumberUpTo, NoNumberContinues};
ghost use Rattle.sat_base.specs.text.NumberWords.{BeginsWithNoWord, digits_so_far};

use crate::decimal::short::short_decimal;

/// Any digit can be appended to a number up to this bound without overflow.
const LONG: u64 = 1_000_000_000_000_000_000;

/// Returns the bytes after `text`, if `bytes` begins with `text`.
#[inline(always)]
pub fn take_text<'a>(bytes: &'a [u8], text: &[u8]) -> Option<&'a [u8]>
    ensures { MatchOption result ((tail : List ℕ) → bytes.now ≡ text.now ++ tail → ⊥)
        (λ rest. bytes.now ≡ text.now ++ rest.now) }
{
    bytes.strip_prefix(text)
}

/// Returns the number with the digit `byte` appended. If `number` is 0, there is no digit yet. Returns `None` if `byte`
/// is not a digit, if it would be a leading zero, or if the result would exceed `limit`.
#[inline(always)]
pub fn append_digit(number: u64, byte: u8, limit: u64) -> Option<u64>
    requires { 9 ≤ limit }
    ensures { MatchOption result (NoNumberContinues limit number byte)
        (λ more. IsNumberUpTo limit more × (decimal more ≡ digits_so_far number ++ byte ∷ [])) }
{
    if byte < b'0' || byte > b'9' {
        return None;
    }
    let digit = (byte - b'0') as u64;
    if number > (limit - digit) / 10 {
        return None;
    }
    let more = 10 * number + digit;
    if more == 0 {
        return None;
    }
    Some(more)
}

/// Returns `true` if `byte` is a space, and `number` is from 1 to `limit`.
#[inline(always)]
fn ends_number(number: u64, byte: u8, limit: u64) -> bool
    ensures { MatchBool result ((byte ≡ 32) × (0 < number) × (number ≤ limit)) (EndsNoNumber number byte limit) }
{
    if byte != b' ' || number == 0 {
        return false;
    }
    number <= limit
}

/// Reads a number from 1 to `limit`, without leading zeros, and the space after it. Returns the number and the
/// remaining bytes, or `None` if `bytes` does not begin with such a number and a space.
#[inline(always)]
pub fn read_number(bytes: &[u8], limit: u64) -> Option<(u64, &[u8])>
    requires { 9 ≤ limit }
    ensures { MatchOption result (BeginsWithNoWord decimal (IsNumberUpTo limit) bytes.now)
        (λ x. BeginsWithWord decimal (IsNumberUpTo limit) bytes.now x.0 x.1.now) }
{
    let Some((number, count)) = short_decimal(bytes) else {
        return read_by_bytes(bytes, limit);
    };
    if bytes[0] == b'0' {
        return None;
    }
    if ends_number(number, bytes[count], limit) {
        return Some((number, &bytes[count + 1..]));
    }
    None
}

/// Does what `read_number` does, byte by byte. A number with at most 19 digits is compared with the limit only at its
/// end.
#[inline(never)]
fn read_by_bytes(bytes: &[u8], limit: u64) -> Option<(u64, &[u8])>
    requires { 9 ≤ limit }
    ensures { MatchOption result (BeginsWithNoWord decimal (IsNumberUpTo limit) bytes.now)
        (λ x. BeginsWithWord decimal (IsNumberUpTo limit) bytes.now x.0 x.1.now) }
{
    if bytes.is_empty() {
        return None;
    }
    if bytes[0] == b'0' {
        return None;
    }
    let mut number: u64 = 0;
    for i in 0..bytes.len() {
        let byte = bytes[i];
        if byte < b'0' || byte > b'9' {
            if ends_number(number, byte, limit) {
                return Some((number, &bytes[i + 1..]));
            }
            return None;
        }
        if number > LONG {
            return read_long(bytes, limit);
        }
        number = 10 * number + (byte - b'0') as u64;
    }
    None
}

/// Does what `read_number` does, but compares the number with the limit at every digit.
#[inline(never)]
fn read_long(bytes: &[u8], limit: u64) -> Option<(u64, &[u8])>
    requires { 9 ≤ limit }
    ensures { MatchOption result (BeginsWithNoWord decimal (IsNumberUpTo limit) bytes.now)
        (λ x. BeginsWithWord decimal (IsNumberUpTo limit) bytes.now x.0 x.1.now) }
{
    let mut number = 0;
    for i in 0..bytes.len() {
        let byte = bytes[i];
        if byte == b' ' && number > 0 {
            return Some((number, &bytes[i + 1..]));
        }
        number = append_digit(number, byte, limit)?;
    }
    None
}
