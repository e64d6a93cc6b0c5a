//! Reads answers line by line.
ghost use Rattle.std.specs.Prelude.{◌≡◌, ◌<◌, [], false, MatchOption};
ghost use Rattle.certify.specs.confirm.Lines.{EndsLineAt, IsWantedLine, IsWrongStart, MovesPrefix, ReadsLineOfKind};
ghost use Rattle.certify.specs.confirm.Lines.{CannotBegin};
ghost use Rattle.certify.specs.script.LastPiece.{source_in, waiting_bytes};

use crate::answers::read::{AnswerKind, begins_kind, begins_line, is_prefix};
use crate::script::ahead::LastPiece;
use sat_base::{CountedRead, ReadError};
use std::alloc::{AllocError, Global};

/// A line of fewer bytes than this is examined after every read; a longer one only once its length has quadrupled.
const HELD: usize = 1024;

/// Which lines are allowed next.
#[derive(Clone, Copy, Drop)]
pub(crate) enum Wanted {
    /// The expected line.
    Due,
    /// The first line of an answer.
    First,
    /// The second line of an answer of the given kind.
    Second(AnswerKind),
    /// No line.
    Nothing,
}

/// The current line of a text that is read in chunks of at most 4,096 bytes.
#[derive(Drop)]
pub(crate) struct Lines {
    ahead: LastPiece,
    /// The bytes of the line, with the LF. At the end of the text, the LF may be missing.
    pub line: Vec<u8>,
}

/// Returns the number of bytes up to and including the first LF, or of all bytes if there is no LF; and whether there
/// is one.
fn up_to_line(bytes: &[u8]) -> (usize, bool)
    ensures { EndsLineAt result.1 bytes.now result.0 }
{
    for i in 0..bytes.len() {
        let byte = bytes[i];
        if byte == b'\n' {
            return (i + 1, true);
        }
    }
    (bytes.len(), false)
}

/// Returns `true` if an allowed line can begin with `bytes`.
fn can_begin(wanted: Wanted, due: &[u8], bytes: &[u8]) -> bool
    ensures { result ≡ false → CannotBegin (IsWantedLine wanted due.now) bytes.now }
{
    match wanted {
        Wanted::Due => is_prefix(bytes, due),
        Wanted::First => begins_kind(bytes),
        Wanted::Second(kind) => begins_line(kind, bytes),
        Wanted::Nothing => false,
    }
}

/// Returns the length at which the line is to be examined again, or `None` if no allowed line begins with `bytes`. If
/// there are fewer than `limit` bytes, they are not examined.
fn look(wanted: Wanted, due: &[u8], bytes: &[u8], limit: usize) -> Option<usize>
    requires { 0 < limit }
    ensures { MatchOption result (IsWrongStart (IsWantedLine wanted due.now) bytes.now) (λ next. 0 < next) }
{
    if bytes.len() < limit {
        return Some(limit);
    }
    if !can_begin(wanted, due, bytes) {
        return None;
    }
    if bytes.len() < HELD {
        return Some(bytes.len() + 1);
    }
    Some(bytes.len().saturating_mul(4))
}

impl Lines {
    /// Returns the state before the first line.
    pub fn new(alloc: Global) -> Lines
        ensures waiting { waiting_bytes result.ahead ≡ [] }
        ensures reads { result.ahead.reads ≡ 0 }
    {
        Lines {
            ahead: LastPiece::new(),
            line: Vec::new(alloc),
        }
    }

    /// Consumes the bytes that were read, up to the end of the line. Returns `true` if the end of the line was reached.
    fn take(&mut self) -> Result<bool, AllocError>
        ensures { MovesPrefix result self.old.ahead self.new.ahead self.old.line.items self.new.line.items }
    {
        let waiting = self.ahead.waiting();
        let (count, whole) = up_to_line(waiting);
        self.line.extend_from_slice(&waiting[..count])?;
        self.ahead.consume(count);
        Ok(whole)
    }

    /// Reads the next line, or the rest of the text if it has no LF. Bytes that turn out not to begin an allowed line
    /// count as a line, so a malformed line is not held in memory as a whole.
    pub fn next<A: CountedRead>(
        &mut self,
        answers: &mut A,
        wanted: Wanted,
        due: &[u8],
    ) -> Result<(), ReadError>
        ensures { ReadsLineOfKind (IsWantedLine wanted due.now) result (source_in A.seen answers.old self.old.ahead)
            (source_in A.seen answers.new self.new.ahead) self.new.line.items }
    {
        self.line.clear();
        let mut limit = 1;
        loop {
            if self.take()? {
                return Ok(());
            }
            match look(wanted, due, &self.line, limit) {
                Some(next) => limit = next,
                None => return Ok(()),
            }
            if self.ahead.refill(answers)? == 0 {
                return Ok(());
            }
        }
    }
}
