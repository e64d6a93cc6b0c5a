//! Tests of a parser with tables of texts, in one piece and in smaller ones, and of the state after a fault.
//!
//! The tests use a parser and a formula only through functions without `ensures` clauses, and keep few values, which
//! makes them cheap to prove.
ghost use Rattle.std.specs.Prelude.{◌≡◌, ◌<◌, ℕ, List, IfOk, length};
ghost use Rattle.sat_base.specs.device.Device.{GavePrefix};
ghost use Rattle.sat_base.specs.dimacs.Parsing.{FormulaIsDetermined};
ghost use Rattle.sat_base.specs.text.Tokenizing.{capped};
ghost use Rattle.sat_base.specs.dimacs.Dimacs.{dimacs};

use crate::caller::clause_count;
use crate::devices::{by_one, without_end};
use sat_base::{
    CnfFormula, Counted, CountedRead, DimacsError, DimacsParser, ExtendFormula, FormulaError,
    IncrementalError, Lit, write_dimacs,
};
use std::alloc::{AllocError, Global};
use std::test::*;

const MALFORMED: DimacsError = DimacsError::Malformed { line: 2 };

fn feed(parser: &mut DimacsParser, piece: &[u8]) -> Result<(), DimacsError> {
    parser.feed(piece)
}

/// Feeds a text in pieces of `piece` bytes, and finishes the text.
fn read(parser: &mut DimacsParser, text: &[u8], piece: usize) -> Result<(), DimacsError>
    requires { 0 < piece }
{
    for part in text.chunks(piece) {
        feed(parser, part)?;
    }
    parser.finish()
}

/// The header, the number of clauses so far, and the number of variables.
type State = (Option<(u64, u64)>, u64, usize);

fn state(parser: &DimacsParser) -> State {
    (parser.header(), parser.clause_count(), parser.var_count())
}

/// Appends the DIMACS numbers of a formula's literals, with a 0 after each clause.
fn add_numbers(all: &mut Vec<i64>, formula: &CnfFormula) -> Result<(), AllocError> {
    for clause in formula {
        for lit in clause {
            all.push(lit.to_dimacs())?;
        }
        all.push(0)?;
    }
    Ok(())
}

/// Returns the DIMACS numbers of a formula's literals, with a 0 after each clause.
fn numbers(alloc: Global, formula: &CnfFormula) -> Result<Vec<i64>, AllocError> {
    let mut all = Vec::new(alloc);
    add_numbers(&mut all, formula)?;
    Ok(all)
}

/// Returns `true` if `clauses` are the numbers of a formula's literals, with a 0 after each clause.
fn has(alloc: Global, formula: &CnfFormula, clauses: &[i64]) -> bool {
    match numbers(alloc, formula) {
        Ok(all) => all.as_slice() == clauses,
        Err(_) => false,
    }
}

/// Takes the clauses out of a parser. Returns whether they are `clauses`, how many there are, and the number
/// of variables.
fn take(alloc: Global, parser: &mut DimacsParser, clauses: &[i64]) -> (bool, u64, usize) {
    let formula = parser.take_formula();
    let is_right = has(alloc, &formula, clauses);
    (is_right, formula.len() as u64, formula.var_count())
}

/// Returns `true` if no clauses are left to take, and the text is finished.
fn is_finished(parser: &mut DimacsParser) -> bool {
    parser.take_formula().is_empty() && parser.finish() == Err(DimacsError::HasFailed)
}

/// Returns `true` if no clauses are left to take, and nothing more is accepted.
fn is_over(parser: &mut DimacsParser) -> bool {
    parser.take_formula().is_empty()
        && parser.feed(b"1 0\n") == Err(DimacsError::HasFailed)
        && parser.finish() == Err(DimacsError::HasFailed)
}

/// A text, its result, the numbers of its clauses, its header, and the number of its variables.
type Row = (
    &'static [u8],
    Result<(), DimacsError>,
    &'static [i64],
    Option<(u64, u64)>,
    usize,
);

static ROWS: [Row; 11] = [
    (b"", Ok(()), &[], None, 0),
    (b"p cnf 2 1\n1 -2 0\n", Ok(()), &[1, -2, 0], Some((2, 1)), 2),
    (b"p cnf 9 5\n-4 0\n", Ok(()), &[-4, 0], Some((9, 5)), 4),
    (b"1\nc 3\n\t-2\r\n0 3 0", Ok(()), &[1, -2, 0, 3, 0], None, 3),
    (b"0 0\n%\n0\n", Ok(()), &[0, 0], None, 0),
    (b"1 2\n-0 0\n", Err(MALFORMED), &[], None, 0),
    (
        b"1 0\n268435457 0\n",
        Err(DimacsError::Limit { line: 2 }),
        &[1, 0],
        None,
        1,
    ),
    (b"1\n%\n", Err(MALFORMED), &[], None, 0),
    (b"1 0\n2", Err(MALFORMED), &[1, 0], None, 1),
    (b"1 0\np cnf 1 1\n", Err(MALFORMED), &[1, 0], None, 1),
    (b"p cnf 7 1\n3 x", Err(MALFORMED), &[], Some((7, 1)), 0),
];

fn rows() -> &'static [Row] {
    &ROWS
}

/// Returns `true` if a parser that has read the text of `row` has the header and clauses of `row`, also after the
/// clauses are taken, and accepts nothing more.
fn has_read(alloc: Global, parser: &mut DimacsParser, row: &Row) -> bool {
    let found = state(parser);
    let (is_right, count, _) = take(alloc, parser, row.2);
    is_right && found == (row.3, count, row.4) && state(parser) == found && is_over(parser)
}

/// Returns `true` if the text of `row`, in pieces of `piece` bytes, has the results of `row`.
fn says(alloc: Global, row: &Row, piece: usize) -> bool
    requires { 0 < piece }
{
    let mut parser = DimacsParser::new(alloc);
    read(&mut parser, row.0, piece) == row.1 && has_read(alloc, &mut parser, row)
}

/// Returns the first length of pieces with which a row's text has other results, or `None`.
fn wrong_length(alloc: Global, row: &Row) -> Option<usize> {
    for piece in [1, 3, 100] {
        if !says(alloc, row, piece) {
            return Some(piece);
        }
    }
    None
}

#[test]
fn texts_say_clauses_and_faults(rt: HostRuntime) {
    for row in rows() {
        assert!(rt; wrong_length(rt.alloc(), row) == None, "{row:?}");
    }
}

/// A piece, the state after it, the numbers of the clauses that can be taken then, the number of such clauses, and the
/// number of variables so far.
type Piece = (&'static [u8], State, &'static [i64], u64, usize);

static PIECES: [Piece; 3] = [
    (
        b"p cnf 7 2\n-5 1 0 9",
        (Some((7, 2)), 1, 5),
        &[-5, 1, 0],
        1,
        5,
    ),
    (b" 0\n3 0\n", (Some((7, 2)), 3, 9), &[9, 0, 3, 0], 2, 9),
    (b"", (Some((7, 2)), 3, 9), &[], 0, 9),
];

fn pieces() -> &'static [Piece] {
    &PIECES
}

fn goes_on(alloc: Global, parser: &mut DimacsParser, piece: &Piece) -> bool {
    feed(parser, piece.0) == Ok(())
        && state(parser) == piece.1
        && take(alloc, parser, piece.2) == (true, piece.3, piece.4)
}

/// Returns the first piece after which the parser isn't in the state of its row, or `None`.
fn wrong_piece(alloc: Global, parser: &mut DimacsParser) -> Option<Piece> {
    for piece in pieces() {
        if !goes_on(alloc, parser, piece) {
            return Some(*piece);
        }
    }
    None
}

/// Returns `true` if no clauses are left to take after the pieces, and the state doesn't change when the text is
/// finished.
fn ends(alloc: Global, parser: &mut DimacsParser) -> bool {
    take(alloc, parser, &[]) == (true, 0, 9)
        && read(parser, b"", 1) == Ok(())
        && state(parser) == (Some((7, 2)), 3, 9)
}

#[test]
fn clauses_are_taken_as_they_come(rt: HostRuntime) {
    let mut parser = DimacsParser::new(rt.alloc());
    let wrong = wrong_piece(rt.alloc(), &mut parser);
    assert!(rt; wrong == None, "{wrong:?}");
    assert!(rt; ends(rt.alloc(), &mut parser));
}

/// Returns `true` if a formula with `clauses` and `highest` variables is read from a text.
fn is_parsed(alloc: Global, text: &[u8], clauses: &[i64], highest: usize) -> bool {
    match DimacsParser::parse(alloc, &mut Counted::new(text)) {
        Ok(formula) => formula.var_count() == highest && has(alloc, &formula, clauses),
        Err(_) => false,
    }
}

#[test]
fn a_reader_is_read_to_its_end(rt: HostRuntime) {
    let text: &[u8] = b"p cnf 3 2\n1 -3 0\n2 0\n";
    assert!(rt; is_parsed(rt.alloc(), text, &[1, -3, 0, 2, 0], 3));
    let cut: &[u8] = b"1 0\n2 x";
    assert!(rt; clause_count(rt.alloc(), &mut Counted::new(cut)) == Err(MALFORMED));
}

#[test]
fn each_read_may_fail(rt: HostRuntime) {
    let text: &[u8] = b"1 -3 0\n2 0\n";
    for failing in 1..13 {
        assert!(rt; clause_count(rt.alloc(), &mut by_one(text, failing)) == Err(DimacsError::Read));
    }
    assert!(rt; clause_count(rt.alloc(), &mut by_one(text, 13)) == Ok(2));
    let answer = clause_count(rt.alloc(), &mut by_one(b"p cnf 2 2\n1 0 2 0\n", 0));
    assert!(rt; answer == Ok(2));
}

/// What a closure saw: the numbers of the clauses that it took, and how many times it was called.
#[derive(Drop)]
struct Seen {
    numbers: Vec<i64>,
    calls: u64,
}

/// A caller's refusal, with the number of the call.
#[derive(Clone, Copy, Debug, Drop, PartialEq, Eq)]
struct Refused(u64);

/// Takes the clauses out of a parser, but refuses call number `refused`, counted from 1.
fn look(seen: &mut Seen, parser: &mut DimacsParser, refused: u64) -> Result<(), Refused> {
    seen.calls = seen.calls.saturating_add(1);
    if seen.calls == refused {
        return Err(Refused(refused));
    }
    add_numbers(&mut seen.numbers, &parser.take_formula()).map_err(|_| Refused(0))
}

/// Reads a text with a closure that refuses call number `refused`, counted from 1.
fn read_and_look<R: CountedRead>(
    alloc: Global,
    reader: &mut R,
    refused: u64,
) -> (Seen, Result<DimacsParser, IncrementalError<Refused>>) {
    let mut seen = Seen {
        numbers: Vec::new(alloc),
        calls: 0,
    };
    let answer = DimacsParser::parse_incremental(alloc, reader, |parser| {
        look(&mut seen, parser, refused)
    });
    (seen, answer)
}

/// The state of a parser that has read its text, or `None` if clauses are left or more is accepted; or the fault.
type End = Result<Option<State>, IncrementalError<Refused>>;

fn end_of(answer: Result<DimacsParser, IncrementalError<Refused>>) -> End {
    let mut parser = answer?;
    let found = state(&parser);
    Ok((is_finished(&mut parser) && is_over(&mut parser)).then_some(found))
}

/// Returns whether the closure saw `clauses` and was called `calls` times, and the parser's end.
fn looked<R: CountedRead>(
    alloc: Global,
    reader: &mut R,
    clauses: &[i64],
    calls: u64,
) -> (bool, End) {
    let (seen, answer) = read_and_look(alloc, reader, 0);
    let is_right = seen.numbers.as_slice() == clauses && seen.calls == calls;
    (is_right, end_of(answer))
}

/// Reads a text byte by byte, while read number `failing` fails and the closure refuses call number `refused`, both
/// counted from 1. Returns how many times the closure was called, and the fault.
fn in_parts(
    alloc: Global,
    text: &[u8],
    failing: u64,
    refused: u64,
) -> (u64, Option<IncrementalError<Refused>>) {
    let (seen, answer) = read_and_look(alloc, &mut by_one(text, failing), refused);
    (seen.calls, answer.err())
}

/// Adds a thousand clauses, one for each of the first thousand variables.
pub(crate) fn add_thousand(formula: &mut CnfFormula) -> Result<(), FormulaError> {
    for index in 0..1000 {
        formula.add_clause(&[Lit::from_index(index, true), Lit::from_index(1, false)])?;
    }
    Ok(())
}

/// Returns whether a formula of a thousand clauses is written, and its text.
fn long_text(alloc: Global) -> (bool, Vec<u8>) {
    let mut formula = CnfFormula::new(alloc);
    let mut writer = Counted::new(Vec::new(alloc));
    let is_written = add_thousand(&mut formula).is_ok()
        && write_dimacs(&mut writer, &formula).is_ok();
    (is_written, writer.into_inner())
}

/// Returns `true` if a formula has `length` numbers, a closure that is called 4 times sees them in `text`, and the
/// parser has the expected end.
fn are_seen_again(alloc: Global, text: &[u8], formula: &CnfFormula, length: usize) -> bool {
    let end = Some((Some((1_000, 1_000)), 1_000, formula.var_count()));
    match numbers(alloc, formula) {
        Ok(clauses) => {
            clauses.len() == length
                && looked(alloc, &mut Counted::new(text), clauses.as_slice(), 4) == (true, Ok(end))
        }
        Err(_) => false,
    }
}

/// Parses a text, and tests `are_seen_again` with its formula.
fn is_seen_again(alloc: Global, text: &[u8], length: usize) -> bool {
    match DimacsParser::parse(alloc, &mut Counted::new(text)) {
        Ok(formula) => are_seen_again(alloc, text, &formula, length),
        Err(_) => false,
    }
}

#[test]
fn a_caller_sees_each_clause_of_a_long_text(rt: HostRuntime) {
    let (is_written, text) = long_text(rt.alloc());
    assert!(rt; is_written && text.len() == 8_909);
    assert!(rt; is_seen_again(rt.alloc(), text.as_slice(), 3_000));
}

/// A text, the clauses that a caller sees, how many times the closure is called, and the parser's end or the fault.
type Seeing = (&'static [u8], &'static [i64], u64, End);

static SEEN: [Seeing; 4] = [
    (
        b"p cnf 3 2\n1 -3 0\n2 0\n",
        &[1, -3, 0, 2, 0],
        22,
        Ok(Some((Some((3, 2)), 2, 3))),
    ),
    (
        b"1 2\n-0 0\n",
        &[],
        7,
        Err(IncrementalError::Dimacs(MALFORMED)),
    ),
    (
        b"1 0\n268435457 0\n",
        &[1, 0],
        14,
        Err(IncrementalError::Dimacs(DimacsError::Limit { line: 2 })),
    ),
    (
        b"1 0\n2",
        &[1, 0],
        6,
        Err(IncrementalError::Dimacs(MALFORMED)),
    ),
];

fn all_seen() -> &'static [Seeing] {
    &SEEN
}

/// Returns `true` if a caller sees what `row` has in a text that is read byte by byte.
fn is_seen(alloc: Global, row: &Seeing) -> bool {
    let (is_right, end) = looked(alloc, &mut by_one(row.0, 0), row.1, row.2);
    is_right && end == row.3
}

#[test]
fn a_caller_sees_each_piece_and_the_clauses_before_a_fault(rt: HostRuntime) {
    for row in all_seen() {
        assert!(rt; is_seen(rt.alloc(), row), "{row:?}");
    }
}

/// Reads a text byte by byte. Returns the numbers of the clauses that a closure took, how many times the closure was
/// called, how many times the reader was, and the fault.
fn looks_and_reads(
    alloc: Global,
    text: &[u8],
) -> (Vec<i64>, u64, u64, Option<IncrementalError<Refused>>) {
    let mut reader = by_one(text, 0);
    let (seen, answer) = read_and_look(alloc, &mut reader, 0);
    let Seen { numbers, calls } = seen;
    (numbers, calls, reader.into_inner().calls, answer.err())
}

/// After the byte `%`, the text has ended and nothing is read. The closure is called after each piece, and once more
/// after the end.
#[test]
fn a_caller_sees_each_piece_up_to_a_percent_line(rt: HostRuntime) {
    let (numbers, calls, reads, fault) = looks_and_reads(rt.alloc(), b"1\n%\n");
    assert!(rt; numbers.is_empty() && fault == Some(IncrementalError::Dimacs(MALFORMED)));
    assert!(rt; (calls, reads) == (4, 3));
}

/// Returns how many times a reader is called that returns a text byte by byte, and the fault.
fn reads_and_fault(alloc: Global, text: &[u8]) -> (u64, Option<DimacsError>) {
    let mut reader = by_one(text, 0);
    let fault = DimacsParser::parse(alloc, &mut reader).err();
    (reader.into_inner().calls, fault)
}

/// A text, the line that is malformed, and the number of bytes that are read until it is found malformed.
static FIRST_WRONG: [(&[u8], u64, u64); 5] = [
    (b"\0\0\0\n", 1, 1),
    (b"1 0\n2x 0\n", 2, 6),
    (b"1 0\n--2 0\n", 2, 6),
    (b"p cnf 1 x 0\n", 1, 9),
    (b"1\np cnf 1 1\n", 2, 3),
];

fn first_wrong() -> &'static [(&'static [u8], u64, u64)] {
    &FIRST_WRONG
}

/// Nothing is read after the first byte that no valid token can contain there.
#[test]
fn wrong_words_are_reported_at_once(rt: HostRuntime) {
    for &(text, line, reads) in first_wrong() {
        let found = reads_and_fault(rt.alloc(), text);
        assert!(rt;
            found == (reads, Some(DimacsError::Malformed { line })),
            "{text:?} {found:?}"
        );
    }
}

#[test]
fn a_caller_may_refuse_and_a_read_may_fail(rt: HostRuntime) {
    let text: &[u8] = b"1 0\n2 0\n";
    for number in 1..10 {
        let refused = Some(IncrementalError::Caller(Refused(number)));
        assert!(rt; in_parts(rt.alloc(), text, 0, number) == (number, refused));
        let fault = Some(IncrementalError::Dimacs(DimacsError::Read));
        assert!(rt; in_parts(rt.alloc(), text, number, 0) == (number - 1, fault));
    }
    let refused = Some(IncrementalError::Caller(Refused(7)));
    assert!(rt; in_parts(rt.alloc(), b"1 2\n-0 0\n", 0, 7) == (7, refused));
    assert!(rt; in_parts(rt.alloc(), text, 10, 10) == (9, None));
}

/// Returns how many clauses a text has. The clauses are dropped as soon as they are read.
fn count_in_parts<R: CountedRead>(
    alloc: Global,
    reader: &mut R,
) -> Result<u64, IncrementalError<DimacsError>>
    ensures { IfOk result (λ count. (text : List ℕ) × GavePrefix (R.seen reader.old) (R.seen reader.new) text
        × (count ≡ capped (length (dimacs text).clauses)) × FormulaIsDetermined (R.seen reader.old) (R.seen reader.new) text) }
{
    let parser = DimacsParser::parse_incremental(alloc, reader, |parser| {
        parser.take_formula();
        Ok(())
    })?;
    Ok(parser.clause_count())
}

#[test]
fn clauses_are_counted_in_parts(rt: HostRuntime) {
    let answer = count_in_parts(rt.alloc(), &mut by_one(b"p cnf 2 2\n1 0 2 0\n", 0));
    assert!(rt; answer == Ok(2));
}

#[test]
fn a_percent_line_ends_a_formula(rt: HostRuntime) {
    let mut parser = DimacsParser::new(rt.alloc());
    assert!(rt; feed(&mut parser, b"1 0\nc %\n").is_ok() && !parser.has_ended());
    assert!(rt; feed(&mut parser, b" %").is_ok() && parser.has_ended());
    assert!(rt; parser.finish().is_ok() && !parser.has_ended());
}

/// Returns the number of clauses of a text that continues with zeros without end, and how many times it is read.
fn parse_endless(alloc: Global, text: &[u8]) -> (Option<usize>, u64) {
    let mut reader = without_end(text);
    let count = match DimacsParser::parse(alloc, &mut reader) {
        Ok(formula) => Some(formula.len()),
        Err(_) => None,
    };
    (count, reader.into_inner().calls)
}

/// Returns the number of clauses of a text that continues with zeros without end, and how many times it is read, if a
/// caller takes the clauses after every piece.
fn count_endless(alloc: Global, text: &[u8]) -> (Option<u64>, u64) {
    let mut reader = without_end(text);
    let count = count_in_parts(alloc, &mut reader).ok();
    (count, reader.into_inner().calls)
}

#[test]
fn no_piece_is_read_after_a_percent_line(rt: HostRuntime) {
    for text in [&b"1 0\n%"[..], b"1 0\n \t% 2 0\n3 0\n"] {
        assert!(rt; parse_endless(rt.alloc(), text) == (Some(1), 1));
        assert!(rt; count_endless(rt.alloc(), text) == (Some(1), 1));
    }
}

#[test]
fn laws_are_proved(_rt: HostRuntime) {
    sat_base::dimacs_laws();
    sat_base::dimacs_rows();
    sat_base::script_laws();
}
