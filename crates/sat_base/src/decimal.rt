//! Reads and writes numbers in decimal.
ghost use Rattle.std.specs.Prelude.{◌≡◌, ◌+◌, ◌/◌, ◌%◌, ◌<◌, ◌≤◌, ◌++◌, ◌∷◌, [], length, take, decimal, OnOk};

pub mod reading;
pub(crate) mod short;

use std::alloc::AllocError;

/// The largest number of decimal digits of a 64-bit number.
pub const MOST_DIGITS: usize = 20;

/// Writes a number below 100 at position `at`, as two digits.
#[inline(always)]
fn write_pair(bytes: &mut [u8], at: usize, pair: u8)
    requires room { at + 1 < length bytes.old }
    requires two { pair < 100 }
    ensures same { length bytes.new ≡ length bytes.old }
    ensures text { take (at + 2) bytes.new ≡ take at bytes.old ++ (48 + pair / 10) ∷ (48 + pair % 10) ∷ [] }
{
    bytes[at] = b'0' + pair / 10;
    bytes[at + 1] = b'0' + pair % 10;
}

/// Writes the digits of a number below 10,000 after the first `len` bytes. Returns the position after the last digit.
#[inline(always)]
fn write_short(bytes: &mut [u8], len: usize, number: u64) -> usize
    requires room { len + length (decimal number) ≤ length bytes.old }
    requires short { number < 10000 }
    ensures end { result ≡ len + length (decimal number) }
    ensures same { length bytes.new ≡ length bytes.old }
    ensures text { take result bytes.new ≡ take len bytes.old ++ decimal number }
{
    if number < 10 {
        bytes[len] = b'0' + number as u8;
        return len + 1;
    }
    if number < 100 {
        write_pair(bytes, len, number as u8);
        return len + 2;
    }
    if number < 1000 {
        bytes[len] = b'0' + (number / 100) as u8;
        write_pair(bytes, len + 1, (number % 100) as u8);
        return len + 3;
    }
    write_pair(bytes, len, (number / 100) as u8);
    write_pair(bytes, len + 2, (number % 100) as u8);
    len + 4
}

/// Does what `write_decimal` does, recursing over pairs of digits.
fn write_long(bytes: &mut [u8], len: usize, number: u64) -> usize
    requires { len + length (decimal number) ≤ length bytes.old }
    ensures end { result ≡ len + length (decimal number) }
    ensures same { length bytes.new ≡ length bytes.old }
    ensures text { take result bytes.new ≡ take len bytes.old ++ decimal number }
{
    if number < 10000 {
        return write_short(bytes, len, number);
    }
    let at = write_long(bytes, len, number / 100);
    write_pair(bytes, at, (number % 100) as u8);
    at + 2
}

/// Writes a number in decimal, without leading zeros, after the first `len` bytes. Returns the position after the last
/// digit. Most numbers are short, so numbers below 10,000 have a fast path.
#[inline(always)]
pub fn write_decimal(bytes: &mut [u8], len: usize, number: u64) -> usize
    requires { len + length (decimal number) ≤ length bytes.old }
    ensures end { result ≡ len + length (decimal number) }
    ensures same { length bytes.new ≡ length bytes.old }
    ensures text { take result bytes.new ≡ take len bytes.old ++ decimal number }
{
    if number < 10000 {
        return write_short(bytes, len, number);
    }
    write_long(bytes, len, number)
}

/// Appends a number in decimal, without leading zeros.
pub fn push_decimal(out: &mut Vec<u8>, number: u64) -> Result<(), AllocError>
    ensures { OnOk result (out.new.items ≡ out.old.items ++ decimal number) }
{
    let mut digits = [0; MOST_DIGITS];
    let end = write_decimal(&mut digits, 0, number);
    out.extend_from_slice(&digits[..end])
}
