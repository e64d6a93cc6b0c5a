//! Splits the bytes of formulas and scripts into tokens.
ghost use Rattle.std.specs.Prelude.{◌≡◌, ◌+◌, ◌*◌, ◌-◌, ◌<◌, ◌≤◌, ℕ, List, [], Bool, true, false, None, Some, IfSome};
ghost use Rattle.std.specs.Prelude.{length, take};
ghost use Rattle.sat_base.specs.text.Text.{is_blank, is_digit, is_letter, Scan, scan};
ghost use Rattle.sat_base.specs.text.Chunks.{LeadsByBytes, IgnoresRest};
ghost use Rattle.sat_base.specs.text.WrongWords.{HasValidContinuation, HasNoValidContinuation};
ghost use Rattle.sat_base.specs.text.Tokenizing.{with_digit, capped, place_allows_header, IsInWordOfByte};
ghost use Rattle.sat_base.specs.text.Tokenizing.{MovesPlaceByByte, MovesPlaceByBytes, CanBeginWord};
ghost use Rattle.sat_base.specs.text.Tokenizing.{CompletesAtLineEnd, CompletesAtBlank, MovesPlaceByBlank};
ghost use Rattle.sat_base.specs.text.Tokenizing.{IsBetweenWords};
ghost use Rattle.sat_base.specs.text.Tokenizing.{HasRemainingScan};
ghost use Rattle.sat_base.specs.text.Tokenizing.{ReceivesByte, ReceivesPrefix, HasNoNumberOrLetter, GivesTokenAtEnd};

mod header;

use crate::decimal::short::short_decimal;
use header::{HeaderPlace, Stage, ended_in, next_in_header};

/// A token: a word, or a header line.
#[derive(Clone, Copy, Debug, Drop, PartialEq, Eq)]
pub enum Token {
    /// A number: an optional `-`, and digits. Values above 2^64-1 are capped at 2^64-1. A number with the value 0 is
    /// not negative.
    Number { negative: bool, value: u64 },
    /// A word of one ASCII letter.
    Letter(u8),
    /// A line `p cnf VARS CLAUSES` where a header is allowed. Both numbers are capped at 2^64-1. They are not checked
    /// against the clauses.
    Header { vars: u64, clauses: u64 },
    /// Any other word, such as `-0`, `+1` and `x1`, or any other line that begins with `p`.
    Wrong,
}

/// A place in a text, reduced to what matters for the bytes that follow. A flag says whether a header may still come.
/// If a place has no flag, no further header may come.
#[derive(Clone, Copy, Drop)]
enum Place {
    /// At the start of a line.
    Fresh(bool),
    /// After blanks at the start of a line.
    Leading(bool),
    /// In a comment, or after the malformed word of a header line.
    Comment(bool),
    Between,
    /// After a minus sign.
    Minus,
    /// In a number, whose value is capped at 2^64-1.
    Digits { negative: bool, value: u64 },
    /// After a letter that begins a word.
    Letter(u8),
    /// In a malformed word.
    Bad,
    /// In a header line.
    Header(HeaderPlace),
    /// In a word of a header line that makes the line malformed.
    WrongHeader,
    /// After the `%` that ends the text.
    Over,
}

/// A tokenizer, which receives the bytes of a text and returns the tokens. It stores no bytes.
///
/// Blanks are space, tab, CR and LF. A word is a maximal run of other bytes. A line ends at LF. The first nonblank byte
/// of a line decides what kind of line it is: `c` begins a comment, `%` ends the text, and `p` begins a header line,
/// which is a single token. A header is allowed once, before the first word of any other line.
#[derive(Drop)]
pub struct Tokenizer {
    place: Place,
    /// The number of lines that have ended, capped at 2^64-1.
    lines: u64,
}

// Every byte is passed through several of the functions below, which pass places by value. Without inlining, every
// place would be written to memory and read back. With all of the functions inlined, a tokenizer that is not passed to
// any other function stays in registers.

/// Returns `true` if a byte is a space, a tab, a CR or an LF.
fn is_blank(byte: u8) -> bool
    ensures { result ≡ is_blank byte }
{
    byte == b' ' || byte == b'\t' || byte == b'\r' || byte == b'\n'
}

/// Returns `true` if a byte is an ASCII digit.
fn is_digit(byte: u8) -> bool
    ensures { result ≡ is_digit byte }
{
    byte > 47 && byte < 58
}

/// Returns `true` if a byte is an ASCII letter.
fn is_letter(byte: u8) -> bool
    ensures { result ≡ is_letter byte }
{
    (byte > 64 && byte < 91) || (byte > 96 && byte < 123)
}

/// Returns the value of the number with `digit` appended, capped at 2^64-1.
fn with_digit(value: u64, digit: u8) -> u64
    requires { is_digit digit ≡ true }
    ensures { result ≡ with_digit value digit }
{
    // Most numbers are far below the limit, and a multiplication without a check takes half as long.
    if value < 1 << 60 {
        return value * 10 + (digit - 48) as u64;
    }
    value.saturating_mul(10).saturating_add((digit - 48) as u64)
}

/// Returns the place after `byte`, which begins a word.
#[inline(always)]
fn word_begun(byte: u8) -> Place
    requires { is_blank byte ≡ false }
    ensures { IsInWordOfByte byte result }
{
    if byte == b'-' {
        Place::Minus
    } else if is_digit(byte) {
        Place::Digits {
            negative: false,
            value: (byte - 48) as u64,
        }
    } else if is_letter(byte) {
        Place::Letter(byte)
    } else {
        Place::Bad
    }
}

/// Returns the place after `byte`, the first nonblank byte of a line. `may` says whether a header may still come.
#[inline(always)]
fn line_begun(may: bool, byte: u8) -> Place
    requires { is_blank byte ≡ false }
    ensures { MovesPlaceByByte (Place.Leading may) byte result }
{
    if byte == b'c' {
        return Place::Comment(may);
    }
    if byte == b'%' {
        return Place::Over;
    }
    if byte != b'p' {
        return word_begun(byte);
    }
    if may {
        Place::Header(HeaderPlace::P)
    } else {
        Place::WrongHeader
    }
}

/// Returns the place after `byte`, which follows the digits of a number.
#[inline(always)]
fn number_continues(negative: bool, value: u64, byte: u8) -> Place
    requires { is_blank byte ≡ false }
    ensures { MovesPlaceByByte (Place.Digits negative value) byte result }
{
    if is_digit(byte) {
        Place::Digits {
            negative,
            value: with_digit(value, byte),
        }
    } else {
        Place::Bad
    }
}

/// Appends the digits at the start of `bytes` to a number. Returns the new value, and how many digits were appended.
#[inline(always)]
fn digits_in(value: u64, bytes: &[u8]) -> (u64, usize)
    ensures within { result.1 ≤ length bytes.now }
    ensures moves { (negative : Bool)
        → MovesPlaceByBytes (Place.Digits negative value) (take result.1 bytes.now) (Place.Digits negative result.0) }
{
    let mut value = value;
    for (count, byte) in bytes.iter().enumerate() {
        if !is_digit(*byte) {
            return (value, count);
        }
        value = with_digit(value, *byte);
    }
    (value, bytes.len())
}

/// Returns the value of the digits at the start of `bytes`, and how many digits there are, or `None` if there are none.
#[inline(always)]
fn some_digits_in(bytes: &[u8]) -> Option<(u64, usize)>
    ensures within { IfSome result (λ r. (0 < r.1) × (r.1 ≤ length bytes.now)) }
    ensures plain { IfSome result (λ r. (old : Place) → CanBeginWord old
        → MovesPlaceByBytes old (take r.1 bytes.now) (Place.Digits false r.0)) }
    ensures negative { IfSome result (λ r. MovesPlaceByBytes Place.Minus (take r.1 bytes.now) (Place.Digits true r.0)) }
{
    if let Some((value, count)) = short_decimal(bytes) {
        return Some((value, count));
    }
    some_digits_by_bytes(bytes)
}

/// Does what `some_digits_in` does, byte by byte.
#[inline(never)]
fn some_digits_by_bytes(bytes: &[u8]) -> Option<(u64, usize)>
    ensures within { IfSome result (λ r. (0 < r.1) × (r.1 ≤ length bytes.now)) }
    ensures plain { IfSome result (λ r. (old : Place) → CanBeginWord old
        → MovesPlaceByBytes old (take r.1 bytes.now) (Place.Digits false r.0)) }
    ensures negative { IfSome result (λ r. MovesPlaceByBytes Place.Minus (take r.1 bytes.now) (Place.Digits true r.0)) }
{
    if bytes.is_empty() {
        return None;
    }
    let first = bytes[0];
    if !is_digit(first) {
        return None;
    }
    let (value, count) = digits_in((first - 48) as u64, &bytes[1..]);
    Some((value, count + 1))
}

/// Returns whether the number at the start of `bytes` is negative, its absolute value and its length in bytes, or
/// `None` if `bytes` doesn't begin with a number. Skips the sign without a branch.
#[inline(always)]
fn number_in(bytes: &[u8]) -> Option<(bool, u64, usize)>
    ensures within { IfSome result (λ r. (0 < r.2) × (r.2 ≤ length bytes.now)) }
    ensures moves { IfSome result (λ r. (old : Place) → CanBeginWord old
        → MovesPlaceByBytes old (take r.2 bytes.now) (Place.Digits r.0 r.1)) }
{
    if bytes.is_empty() {
        return None;
    }
    let negative = bytes[0] == b'-';
    let sign = usize::from(negative);
    let (value, count) = some_digits_in(&bytes[sign..])?;
    Some((negative, value, count + sign))
}

/// Returns `true` if a digit or `-` begins a word at `place`.
#[inline(always)]
fn begins_word(place: Place) -> bool
    ensures { result ≡ true → CanBeginWord place }
{
    matches!(place, Place::Between | Place::Fresh(_) | Place::Leading(_))
}

/// Returns the place after `byte`, which follows a minus sign.
#[inline(always)]
fn number_begun(byte: u8) -> Place
    requires { is_blank byte ≡ false }
    ensures { MovesPlaceByByte Place.Minus byte result }
{
    if is_digit(byte) {
        Place::Digits {
            negative: true,
            value: (byte - 48) as u64,
        }
    } else {
        Place::Bad
    }
}

/// Returns the place that follows `place` after the nonblank byte `byte`.
#[inline(always)]
fn next(place: Place, byte: u8) -> Place
    requires { is_blank byte ≡ false }
    ensures { MovesPlaceByByte place byte result }
{
    match place {
        Place::Digits { negative, value } => number_continues(negative, value, byte),
        Place::Between => word_begun(byte),
        Place::Minus => number_begun(byte),
        Place::Fresh(may) => line_begun(may, byte),
        Place::Leading(may) => line_begun(may, byte),
        Place::Comment(may) => Place::Comment(may),
        Place::Letter(_) => Place::Bad,
        Place::Bad => Place::Bad,
        Place::Header(header) => match next_in_header(header, byte) {
            Some(header) => Place::Header(header),
            None => Place::WrongHeader,
        },
        Place::WrongHeader => Place::WrongHeader,
        Place::Over => Place::Over,
    }
}

/// Returns the token for a header line that ends at `place`.
fn header_token(place: HeaderPlace) -> Token
    ensures { CompletesAtLineEnd (Some result) (Place.Header place) }
{
    match ended_in(place) {
        Some(Stage::Both { vars, clauses }) => Token::Header { vars, clauses },
        _ => Token::Wrong,
    }
}

/// Returns the token that is completed if the line ends at `place`, or `None`.
#[inline(always)]
fn token_in(place: Place) -> Option<Token>
    ensures { CompletesAtLineEnd result place }
{
    match place {
        Place::Digits { negative, value } => {
            if negative && value == 0 {
                Some(Token::Wrong)
            } else {
                Some(Token::Number { negative, value })
            }
        }
        Place::Minus => Some(Token::Wrong),
        Place::Bad => Some(Token::Wrong),
        Place::WrongHeader => Some(Token::Wrong),
        Place::Letter(byte) => Some(Token::Letter(byte)),
        Place::Header(header) => Some(header_token(header)),
        Place::Fresh(_) => None,
        Place::Leading(_) => None,
        Place::Comment(_) => None,
        Place::Between => None,
        Place::Over => None,
    }
}

/// Returns the token that a blank within a line completes at `place`, if there is one.
#[inline(always)]
fn token_at_blank(place: Place) -> Option<Token>
    ensures { CompletesAtBlank result place }
{
    match place {
        Place::Header(header) => match ended_in(header) {
            Some(_) => None,
            None => Some(Token::Wrong),
        },
        _ => token_in(place),
    }
}

/// Returns the place that follows `place` after a blank within a line.
#[inline(always)]
fn after_blank(place: Place) -> Place
    ensures leads { MovesPlaceByBlank place result }
    ensures quiet { IsBetweenWords result }
{
    match place {
        Place::Digits { .. } => Place::Between,
        Place::Between => Place::Between,
        Place::Minus => Place::Between,
        Place::Letter(_) => Place::Between,
        Place::Bad => Place::Between,
        Place::Fresh(may) => Place::Leading(may),
        Place::Leading(may) => Place::Leading(may),
        Place::Comment(may) => Place::Comment(may),
        Place::Header(header) => match ended_in(header) {
            Some(ended) => Place::Header(HeaderPlace::Between(ended)),
            None => Place::Comment(false),
        },
        Place::WrongHeader => Place::Comment(false),
        Place::Over => Place::Over,
    }
}

/// Returns `true` if a header may still come on later lines.
fn allows_header(place: Place) -> bool
    ensures { result ≡ place_allows_header place }
{
    match place {
        Place::Fresh(may) => may,
        Place::Leading(may) => may,
        Place::Comment(may) => may,
        _ => false,
    }
}

impl Tokenizer {
    /// Returns a tokenizer positioned before the first byte of a text.
    pub fn new() -> Tokenizer
        ensures { HasRemainingScan result scan }
    {
        Tokenizer {
            place: Place::Fresh(true),
            lines: 0,
        }
    }

    /// Returns an independent copy of the tokenizer.
    pub(crate) fn copied(&self) -> Tokenizer
        ensures { result ≡ self.now }
    {
        Tokenizer {
            place: self.place,
            lines: self.lines,
        }
    }

    /// Receives an LF. Returns the token that the LF ends, if there is one.
    #[inline(always)]
    fn end_line(&mut self) -> Option<Token>
        ensures takes { ReceivesByte self.old 10 result self.new }
        ensures ended { (after : List ℕ → Scan) → HasRemainingScan self.new after → (after []).tokens ≡ [] }
        ensures right { (after : List ℕ → Scan) → HasRemainingScan self.new after → HasValidContinuation after }
    {
        if let Place::Over = self.place {
            return None;
        }
        let token = token_in(self.place);
        self.place = Place::Fresh(allows_header(self.place));
        self.lines = self.lines.saturating_add(1);
        token
    }

    /// Receives the next byte. Returns the token that the byte ends, if there is one. A header ends at its LF, and
    /// a malformed word in a header line ends at the blank after it. After the `%` that ends the text, no byte ends
    /// a token.
    #[inline(always)]
    pub fn push(&mut self, byte: u8) -> Option<Token>
        ensures takes { ReceivesByte self.old byte result self.new }
        // Only a blank ends a word.
        ensures inside { is_blank byte ≡ false → result ≡ None }
        // After a blank, no word is unfinished. After an LF, no header line is unfinished.
        ensures quiet { is_blank byte ≡ true → (after : List ℕ → Scan) → HasRemainingScan self.new after
            → HasNoNumberOrLetter (after []) }
        ensures ended { byte ≡ 10 → (after : List ℕ → Scan) → HasRemainingScan self.new after → (after []).tokens ≡ [] }
        // After a blank, the text can still be continued to a valid one.
        ensures right { is_blank byte ≡ true → (after : List ℕ → Scan) → HasRemainingScan self.new after
            → HasValidContinuation after }
    {
        // Most bytes continue a number, so this place is tested first.
        if let Place::Digits { negative, value } = self.place {
            if is_digit(byte) {
                self.place = number_continues(negative, value, byte);
                return None;
            }
        }
        if !is_blank(byte) {
            self.place = next(self.place, byte);
            return None;
        }
        if byte == b'\n' {
            return self.end_line();
        }
        let token = token_at_blank(self.place);
        self.place = after_blank(self.place);
        token
    }

    /// Receives the number at the start of `bytes`, if a word begins here. Returns the length of the number, or `None`
    /// if nothing was received.
    #[inline(always)]
    fn push_number(&mut self, bytes: &[u8]) -> Option<usize>
        ensures none { result ≡ None → self.new ≡ self.old }
        ensures within { IfSome result (λ n. (0 < n) × (n ≤ length bytes.now)) }
        ensures takes { IfSome result (λ n. LeadsByBytes HasRemainingScan self.old (take n bytes.now) self.new) }
    {
        if !begins_word(self.place) {
            return None;
        }
        let (negative, value, count) = number_in(bytes)?;
        self.place = Place::Digits { negative, value };
        Some(count)
    }

    /// Receives the number at the start of `bytes` and the space or LF after it, if a word begins here. Returns how
    /// many bytes were received, whether the number is negative, and its absolute value, capped at 2^64-1. Otherwise
    /// receives nothing and returns `None`; in that case, `push_some` must be called instead.
    #[inline(always)]
    pub fn push_whole(&mut self, bytes: &[u8]) -> Option<(usize, bool, u64)>
        ensures none { result ≡ None → self.new ≡ self.old }
        ensures within { IfSome result (λ r. (0 < r.0) × (r.0 ≤ length bytes.now)) }
        // The effect is as if the bytes were pushed one by one: the last one ends the number.
        ensures takes { IfSome result (λ r.
            ReceivesPrefix self.old (take r.0 bytes.now) (Some (Token.Number r.1 r.2)) self.new) }
        ensures right { (result ≡ None → ⊥) → (after : List ℕ → Scan) → HasRemainingScan self.new after
            → HasValidContinuation after }
    {
        if !begins_word(self.place) {
            return None;
        }
        let (negative, value, count) = number_in(bytes)?;
        // `-0` is a malformed word.
        if count == bytes.len() || (negative && value == 0) {
            return None;
        }
        let ended = bytes[count];
        if ended == b' ' {
            self.place = Place::Between;
            return Some((count + 1, negative, value));
        }
        if ended == b'\n' {
            self.place = Place::Fresh(false);
            self.lines = self.lines.saturating_add(1);
            return Some((count + 1, negative, value));
        }
        None
    }

    /// Receives one or more bytes, of which only the last can end a token. Returns how many bytes were received, and
    /// the token, if one ended. All digits of a number are received in one call, for speed.
    #[inline(always)]
    pub fn push_some(&mut self, bytes: &[u8]) -> (usize, Option<Token>)
        requires { 0 < length bytes.now }
        ensures some { 0 < result.0 }
        ensures within { result.0 ≤ length bytes.now }
        ensures takes { ReceivesPrefix self.old (take result.0 bytes.now) result.1 self.new }
        ensures right { (result.1 ≡ None → ⊥) → (after : List ℕ → Scan) → HasRemainingScan self.new after
            → HasValidContinuation after }
    {
        let Some(count) = self.push_number(bytes) else {
            return (1, self.push(bytes[0]));
        };
        // Most numbers are followed by the blank that ends them.
        if count == bytes.len() {
            return (count, None);
        }
        (count + 1, self.push(bytes[count]))
    }

    /// Returns `true` if the unfinished word or header line is malformed, whatever follows. It is malformed from the
    /// first byte after which it can no longer become valid. So `1x` is malformed at the `x`, and `--` at the second
    /// `-`, but `-0` only at its end, since it could continue as `-01`.
    #[inline(always)]
    pub fn is_wrong(&self) -> bool
        ensures wrong { result ≡ true → (before : List ℕ → Scan) → HasRemainingScan self.now before → HasNoValidContinuation before }
        ensures right { result ≡ false → (before : List ℕ → Scan) → HasRemainingScan self.now before → HasValidContinuation before }
    {
        match self.place {
            Place::Bad => true,
            Place::WrongHeader => true,
            _ => false,
        }
    }

    /// Returns `true` if a line that begins with `%` has ended the text. This is true exactly when all bytes that
    /// follow are ignored, so that they need not be read. In that case, no token is unfinished.
    #[inline(always)]
    pub fn is_over(&self) -> bool
        ensures over { result ≡ true → (before : List ℕ → Scan) → HasRemainingScan self.now before → IgnoresRest before }
        ensures goes_on { result ≡ false → (before : List ℕ → Scan) → HasRemainingScan self.now before → IgnoresRest before
            → ⊥ }
        ensures none { result ≡ true → (before : List ℕ → Scan) → HasRemainingScan self.now before
            → (before []).tokens ≡ [] }
    {
        matches!(self.place, Place::Over)
    }

    /// Returns the token that is completed if the text ends here, or `None`.
    pub fn finish(&self) -> Option<Token>
        ensures { (before : List ℕ → Scan) → HasRemainingScan self.now before → GivesTokenAtEnd result (before []) }
    {
        token_in(self.place)
    }

    /// Returns the line number of the last byte, or 0 before the first byte. Lines are numbered from 1, and the number
    /// is capped at 2^64-1. After the `%` that ends the text, it is the line of the `%`. The token that the last byte
    /// ended is on this line, and so is the token that `finish` returns.
    pub fn line(&self) -> u64
        ensures { (before : List ℕ → Scan) → HasRemainingScan self.now before → result ≡ capped (before []).last }
    {
        match self.place {
            Place::Fresh(_) => self.lines,
            _ => self.lines.saturating_add(1),
        }
    }
}
