//! Reads numbers of few digits from eight bytes at once, without a branch on how many there are.
ghost use Rattle.std.specs.Prelude.{ℕ, ◌≡◌, ◌+◌, ◌<◌, ◌≤◌, List, length, slice_index, true, false, IfSome};
ghost use Rattle.std.specs.Int.{w64, trailing_zeros};
ghost use Rattle.sat_base.specs.text.Text.{is_digit};
ghost use Rattle.sat_base.specs.text.ShortNumbers.{AreEightDigits, BeginsWithDigits, little_endian_value};
ghost use Rattle.sat_base.specs.text.ShortNumbers.{value_with_digits};

use std::simd::prelude::*;

/// Returns the value of eight digits, the first of which is in the lowest byte.
#[inline(always)]
fn eight_digits(digits: u64) -> u64
    ensures { (ds : List ℕ) → AreEightDigits ds → digits ≡ little_endian_value ds → result ≡ value_with_digits 0 ds }
{
    let pairs = digits.wrapping_mul(2561) >> 8 & 0x00ff_00ff_00ff_00ff;
    let fours = pairs.wrapping_mul(6_553_601) >> 16 & 0x0000_ffff_0000_ffff;
    fours.wrapping_mul(42_949_672_960_001) >> 32
}

/// Returns the position of the lowest bit that is set, or 64 if there is none.
#[inline(always)]
fn lowest_set(mask: u64) -> usize
    ensures { result ≡ trailing_zeros w64 mask }
{
    mask.trailing_zeros() as usize
}

/// Returns how many of the first eight bytes come before the first one that is not a digit. If all are digits, the
/// result is larger than 8.
#[inline(always)]
fn digit_run(bytes: &[u8]) -> usize
    requires { 0 + 8 ≤ length bytes.now }
    ensures digits { (k : ℕ) → result < 8 → k < result → is_digit (slice_index bytes.now k) ≡ true }
    ensures ends { result < 8 → is_digit (slice_index bytes.now result) ≡ false }
{
    let others = (u8x8::from_slice(bytes) - u8x8::splat(b'0')).simd_gt(u8x8::splat(9));
    lowest_set(others.to_bitmask())
}

/// Returns the value of the digits at the start of `bytes`, and how many there are. Returns `None` if there are no
/// digits or more than seven, or fewer than eight bytes.
#[inline(always)]
pub(crate) fn short_decimal(bytes: &[u8]) -> Option<(u64, usize)>
    ensures { IfSome result (λ r. BeginsWithDigits bytes.now r.0 r.1) }
{
    if bytes.len() < 8 {
        return None;
    }
    let count = digit_run(bytes);
    if count == 0 || count > 7 {
        return None;
    }
    let eight = u64::from_le_bytes([
        bytes[0], bytes[1], bytes[2], bytes[3], bytes[4], bytes[5], bytes[6], bytes[7],
    ]);
    let digits = (eight << (64 - 8 * count)) & 0x0f0f_0f0f_0f0f_0f0f;
    Some((eight_digits(digits), count))
}
