//! Tests of numbers in decimal and in LEB128.

use sat_base::{push_decimal, push_leb128};
use std::alloc::Global;
use std::test::*;

/// A number, its digits, and its bytes in LEB128.
type Row = (u64, &'static [u8], &'static [u8]);

static ROWS: [Row; 12] = [
    (0, b"0", &[0]),
    (9, b"9", &[9]),
    (10, b"10", &[10]),
    (99, b"99", &[99]),
    (127, b"127", &[127]),
    (128, b"128", &[128, 1]),
    (1_000, b"1000", &[232, 7]),
    (9_999, b"9999", &[143, 78]),
    (10_000, b"10000", &[144, 78]),
    (624_485, b"624485", &[0xe5, 0x8e, 0x26]),
    (
        1 << 63,
        b"9223372036854775808",
        &[128, 128, 128, 128, 128, 128, 128, 128, 128, 1],
    ),
    (
        u64::MAX,
        b"18446744073709551615",
        &[255, 255, 255, 255, 255, 255, 255, 255, 255, 1],
    ),
];

fn rows() -> &'static [Row] {
    &ROWS
}

/// Returns `true` if a number is appended as the digits of `row`, and as the bytes of `row`.
fn is_appended(alloc: Global, row: &Row) -> bool {
    let mut digits = Vec::new(alloc);
    let mut bytes = Vec::new(alloc);
    push_decimal(&mut digits, row.0).is_ok()
        && push_leb128(&mut bytes, row.0).is_ok()
        && digits.as_slice() == row.1
        && bytes.as_slice() == row.2
}

#[test]
fn numbers_are_appended(rt: HostRuntime) {
    for row in rows() {
        assert!(rt; is_appended(rt.alloc(), row), "{row:?}");
    }
}
