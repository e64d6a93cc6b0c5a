ghost use Rattle.std.specs.Prelude.{◌<◌, ◌≤◌, length};

use sat_base::{Token, Tokenizer};
use std::slice::Iter;
use std::test::*;

const ONE: Token = Token::Number {
    negative: false,
    value: 1,
};

const THREE: Token = Token::Number {
    negative: false,
    value: 3,
};

const ZERO: Option<Token> = Some(Token::Number {
    negative: false,
    value: 0,
});

const SEVEN: Option<Token> = Some(Token::Number {
    negative: false,
    value: 7,
});

const MINUS_SEVEN: Option<Token> = Some(Token::Number {
    negative: true,
    value: 7,
});

const MINUS_TWELVE: Option<Token> = Some(Token::Number {
    negative: true,
    value: 12,
});

/// The highest number that is returned exactly, and a number past it, which is returned as the limit.
const HIGHEST: Option<Token> = Some(Token::Number {
    negative: false,
    value: u64::MAX - 1,
});

const MINUS_LIMIT: Option<Token> = Some(Token::Number {
    negative: true,
    value: u64::MAX,
});

const WRONG: Option<Token> = Some(Token::Wrong);

const LIMIT_HEADER: Option<Token> = Some(Token::Header {
    vars: 7,
    clauses: u64::MAX,
});

/// A byte, the token that it ends, and the tokenizer's line after it.
type Step = (u8, Option<Token>, u64);

/// Returns the first byte, with its line, after which the tokenizer returns another token or has another line,
/// or `None`.
fn wrong_byte(tokenizer: &mut Tokenizer, rows: &[Step]) -> Option<(u8, u64)> {
    for &(byte, token, line) in rows {
        let found = tokenizer.push(byte);
        if found != token || tokenizer.line() != line {
            return Some((byte, line));
        }
    }
    None
}

static STEPS: [Step; 21] = [
    (b'c', None, 1),
    (b'1', None, 1),
    (b'\n', None, 1),
    (b'-', None, 2),
    (b'7', None, 2),
    (b'\t', MINUS_SEVEN, 2),
    (b'0', None, 2),
    (b'0', None, 2),
    (b'\r', ZERO, 2),
    (b'\n', None, 2),
    (b' ', None, 3),
    (b'c', None, 3),
    (b' ', None, 3),
    (b'\n', None, 3),
    (b'a', None, 4),
    (b'\n', Some(Token::Letter(b'a')), 4),
    (b'x', None, 5),
    (b'c', None, 5),
    (b' ', WRONG, 5),
    (b'c', None, 5),
    (b' ', Some(Token::Letter(b'c')), 5),
];

fn steps() -> &'static [Step] {
    &STEPS
}

#[test]
fn gives_tokens_where_they_end(rt: HostRuntime) {
    let mut tokenizer = Tokenizer::new();
    let line = tokenizer.line();
    let wrong = wrong_byte(&mut tokenizer, steps());
    assert!(rt; line == 0 && wrong == None, "{wrong:?}");
    assert!(rt; tokenizer.finish() == None);
}

/// A text, its tokens, each after its line, and the line on which the text ends.
type Row = (&'static [u8], &'static [(u64, Token)], u64);

/// Returns `true` if a token is the next one of `left`, or there is no token.
fn is_next(left: &mut Iter<'_, (u64, Token)>, line: u64, token: Option<Token>) -> bool {
    match token {
        Some(token) => left.next() == Some(&(line, token)),
        None => true,
    }
}

/// Returns `true` if the end of a text returns the last token of `left`, if one is left, and the text ends on line
/// `line`.
fn ends_on(tokenizer: &mut Tokenizer, left: &mut Iter<'_, (u64, Token)>, line: u64) -> bool {
    let token = tokenizer.finish();
    is_next(left, tokenizer.line(), token) && left.next() == None && tokenizer.line() == line
}

/// Returns `true` if a text has the tokens and the last line of `row`.
fn gives(row: &Row) -> bool {
    let mut tokenizer = Tokenizer::new();
    let mut left = row.1.iter();
    for byte in row.0 {
        let token = tokenizer.push(*byte);
        if !is_next(&mut left, tokenizer.line(), token) {
            return false;
        }
    }
    ends_on(&mut tokenizer, &mut left, row.2)
}

/// Reads a number together with the blank after it, if the bytes begin so and `whole` is true; otherwise, reads what
/// `push_some` reads.
fn take_some(tokenizer: &mut Tokenizer, bytes: &[u8], whole: bool) -> (usize, Option<Token>)
    requires { 0 < length bytes.now }
    ensures { result.0 ≤ length bytes.now }
{
    if whole {
        if let Some((count, negative, value)) = tokenizer.push_whole(bytes) {
            return (count, Some(Token::Number { negative, value }));
        }
    }
    tokenizer.push_some(bytes)
}

/// Returns `true` if a text that is passed at once has the tokens and the last line of `row`. If `whole`, numbers are
/// read together with the blank after them.
fn gives_at_once(row: &Row, whole: bool) -> bool {
    let mut tokenizer = Tokenizer::new();
    let mut left = row.1.iter();
    let mut rest = row.0;
    for _ in 0..row.0.len() {
        if rest.is_empty() {
            break;
        }
        let (count, token) = take_some(&mut tokenizer, rest, whole);
        rest = &rest[count..];
        if !is_next(&mut left, tokenizer.line(), token) {
            return false;
        }
    }
    ends_on(&mut tokenizer, &mut left, row.2)
}

/// Returns `true` if bytes return no token.
fn give_nothing(tokenizer: &mut Tokenizer, bytes: &[u8]) -> bool {
    for byte in bytes {
        if tokenizer.push(*byte) != None {
            return false;
        }
    }
    true
}

/// A prefix of a text with a header whose line has not ended.
const FRONT: &[u8] = b"c 1\n\n p\tcnf  007 18446744073709551616 ";

/// Returns `true` if `FRONT` returns no token, and a header once the text ends.
fn gives_header_at_the_end(tokenizer: &mut Tokenizer) -> bool {
    give_nothing(tokenizer, FRONT) && tokenizer.finish() == LIMIT_HEADER && tokenizer.line() == 3
}

#[test]
fn gives_headers_where_their_lines_end(rt: HostRuntime) {
    let mut tokenizer = Tokenizer::new();
    assert!(rt; gives_header_at_the_end(&mut tokenizer));
    let following = [
        (b'\n', LIMIT_HEADER, 3),
        (b'1', None, 4),
        (b' ', Some(ONE), 4),
    ];
    let wrong = wrong_byte(&mut tokenizer, &following);
    assert!(rt; wrong == None, "{wrong:?}");
}

const HEADER: Token = Token::Header {
    vars: 2,
    clauses: 1,
};

/// Lines that begin with `p` and aren't headers; headers, of which a text can have one, before its first word; and
/// lines that begin with `%`, which end the text.
static LINES: [Row; 29] = [
    (b"p", &[(1, Token::Wrong)], 1),
    (b"p ", &[(1, Token::Wrong)], 1),
    (b"pcnf 1 1", &[(1, Token::Wrong)], 1),
    (b"px cnf 1 1", &[(1, Token::Wrong)], 1),
    (b"p c", &[(1, Token::Wrong)], 1),
    (b"p cn 1 1", &[(1, Token::Wrong)], 1),
    (b"p dnf 1 1", &[(1, Token::Wrong)], 1),
    (b"p cnfx 1 1", &[(1, Token::Wrong)], 1),
    (b"p cnf", &[(1, Token::Wrong)], 1),
    (b"p cnf 1", &[(1, Token::Wrong)], 1),
    (b"p cnf 1 ", &[(1, Token::Wrong)], 1),
    (b"p cnf -1 1", &[(1, Token::Wrong)], 1),
    (b"p cnf 1 +1", &[(1, Token::Wrong)], 1),
    (b"p cnf 1x 1", &[(1, Token::Wrong)], 1),
    (b"p cnf 1 1 1", &[(1, Token::Wrong)], 1),
    // The rest of such a line returns no further token, and the next line is read.
    (b"p cnf -1 1 x 2\n3", &[(1, Token::Wrong), (2, THREE)], 2),
    (b"px cnf 1 1 x 2\n3", &[(1, Token::Wrong), (2, THREE)], 2),
    (b"p cnf 1 1 x y\n3", &[(1, Token::Wrong), (2, THREE)], 2),
    (b"p cnf 2 1\n1\n", &[(1, HEADER), (2, ONE)], 2),
    (b"c p\n \r\n  p cnf 2 1\r\n1\n", &[(3, HEADER), (4, ONE)], 4),
    (
        b"p cnf 2 1\nc\n p cnf 2 1\n1",
        &[(1, HEADER), (3, Token::Wrong), (4, ONE)],
        4,
    ),
    (
        b"1\np cnf 2 1\n1",
        &[(1, ONE), (2, Token::Wrong), (3, ONE)],
        3,
    ),
    (
        b"p dnf 2 1\np cnf 2 1",
        &[(1, Token::Wrong), (2, Token::Wrong)],
        2,
    ),
    (
        b"1 p cnf",
        &[(1, ONE), (1, Token::Letter(b'p')), (1, Token::Wrong)],
        1,
    ),
    (b"1\n%\n0\np x\nc\n", &[(1, ONE)], 2),
    (b"1\n\n \t%1 x", &[(1, ONE)], 3),
    (b"%", &[], 1),
    (b"c\n%\n", &[], 2),
    (b"1 %\n1", &[(1, ONE), (1, Token::Wrong), (2, ONE)], 2),
];

fn lines() -> &'static [Row] {
    &LINES
}

/// Returns the first text that doesn't have the tokens of its row, or `None`.
fn wrong_text() -> Option<&'static [u8]> {
    for row in lines() {
        if !gives(row) || !gives_at_once(row, false) || !gives_at_once(row, true) {
            return Some(row.0);
        }
    }
    None
}

#[test]
fn lines_that_begin_with_p_or_percent(rt: HostRuntime) {
    let wrong = wrong_text();
    assert!(rt; wrong == None, "{wrong:?}");
}

/// Returns `true` if a word on the first line returns its token only once the text ends.
fn is_reported_at_the_end(word: &[u8], token: Option<Token>) -> bool {
    let mut tokenizer = Tokenizer::new();
    give_nothing(&mut tokenizer, word) && tokenizer.line() == 1 && tokenizer.finish() == token
}

static WORDS: [(&[u8], Option<Token>); 14] = [
    (b"0", ZERO),
    (b"007", SEVEN),
    (b"-12", MINUS_TWELVE),
    (b"-0", WRONG),
    (b"-00", WRONG),
    (b"+1", WRONG),
    (b"-", WRONG),
    (b"--1", WRONG),
    (b"1-", WRONG),
    (b"1a", WRONG),
    (b"#", WRONG),
    (b"Z", Some(Token::Letter(b'Z'))),
    (b"18446744073709551614", HIGHEST),
    (b"-99999999999999999999999", MINUS_LIMIT),
];

fn words() -> &'static [(&'static [u8], Option<Token>)] {
    &WORDS
}

/// Returns the first word that doesn't return its token at the end of the text, or `None`.
fn wrong_word() -> Option<&'static [u8]> {
    for row in words() {
        if !is_reported_at_the_end(row.0, row.1) {
            return Some(row.0);
        }
    }
    None
}

#[test]
fn reports_numbers_from_wrong_words(rt: HostRuntime) {
    let wrong = wrong_word();
    assert!(rt; wrong == None, "{wrong:?}");
}

/// Returns the number of bytes after which a word or header line is malformed whatever follows, or `None`.
fn wrong_after(text: &[u8]) -> Option<u64> {
    let mut tokenizer = Tokenizer::new();
    let mut count = 0u64;
    for byte in text {
        tokenizer.push(*byte);
        count = count.saturating_add(1);
        if tokenizer.is_wrong() {
            return Some(count);
        }
    }
    None
}

/// Texts, and for each the number of bytes up to the first one after which no valid word or header line can continue.
static TURNS: [(&[u8], Option<u64>); 37] = [
    (b"", None),
    (b"1x0 0", Some(2)),
    (b"--1", Some(2)),
    (b"-x", Some(2)),
    (b"1-", Some(2)),
    (b"+1", Some(1)),
    (b"\0\0", Some(1)),
    (b"\xc3\xa4", Some(1)),
    (b"1\x0b0", Some(2)),
    (b"ab", Some(2)),
    (b"b1", Some(2)),
    (b"a b c", None),
    (b"-", None),
    // Words that a further digit would make valid.
    (b"-0", None),
    (b"-00", None),
    (b"-01 0", None),
    (b"99999999999999999999999", None),
    (b"1 0\n2\t-3\r\n 4_", Some(13)),
    // A word that only its end makes malformed is reported as a token.
    (b"- -0 +", Some(6)),
    (b"c\0+\n_", Some(5)),
    (b" \tc--\n1", None),
    (b"1 c1", Some(4)),
    (b"%--\n+", None),
    (b"1\n %--\n+", None),
    (b"1 %", Some(3)),
    (b"pcnf", Some(2)),
    (b"p cnf 1 1\n1 0", None),
    (b"p dnf 1 1", Some(3)),
    (b"p cx", Some(4)),
    (b"p cnfx", Some(6)),
    (b"p cnf +1", Some(7)),
    (b"p cnf 1 -", Some(9)),
    (b"p cnf 1 1x", Some(10)),
    (b"p cnf 1 1 1", Some(11)),
    // The line's other words are not reported.
    (b"p cn 1 1 x\n", None),
    (b"p cnf 1 1\np", Some(11)),
    (b"1\n\tp", Some(4)),
];

fn turns() -> &'static [(&'static [u8], Option<u64>)] {
    &TURNS
}

#[test]
fn wrong_words_are_reported_at_their_first_wrong_byte(rt: HostRuntime) {
    for &(text, count) in turns() {
        let found = wrong_after(text);
        assert!(rt; found == count, "{text:?} {found:?}");
    }
}

/// Texts, and whether a line that begins with `%` has ended them.
static ENDED: [(&[u8], bool); 7] = [
    (b"", false),
    (b"%", true),
    (b"1 0\n \t%x\n1", true),
    (b"1 %", false),
    (b"c %\n", false),
    (b"p cnf 1 1\n%\n", true),
    (b"1 0\nc\n", false),
];

fn ended() -> &'static [(&'static [u8], bool)] {
    &ENDED
}

/// Returns whether a text has ended after the given bytes.
fn is_over_after(text: &[u8]) -> bool {
    let mut tokenizer = Tokenizer::new();
    for byte in text {
        tokenizer.push(*byte);
    }
    tokenizer.is_over()
}

#[test]
fn a_percent_line_ends_the_text(rt: HostRuntime) {
    for &(text, is_over) in ended() {
        assert!(rt; is_over_after(text) == is_over, "{text:?}");
    }
}
