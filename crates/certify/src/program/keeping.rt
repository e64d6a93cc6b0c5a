//! A reader that keeps a copy of the bytes that it gives.
ghost use Rattle.std.specs.Prelude.{◌≡◌, ◌+◌, ◌≤◌, ◌++◌, ◌∷◌, [], Some, false, length, true, vec_capacity, vec_len};
ghost use Rattle.std.specs.Io.{ReadsAtMost};
ghost use Rattle.std.specs.Io.KnownBytes.{ReadConsumes};
ghost use Rattle.sat_base.specs.device.Device.{AppendsPrefix, ReadsOnce};
ghost use Rattle.certify.specs.program.Copies.{IsCopy, kept_reader, refusal_count};

use crate::program::kept_error::keep_error;
use sat_base::{Counted, CountedRead};
use std::alloc::Global;
use std::io::{ErrorKind, Read};
use std::{io, mem};

/// A reader of which every read fails.
#[derive(Drop)]
pub(crate) struct Refusing;

impl Read for Refusing {
    // A byte is still to come, so no read can find the end.
    ghost remaining = { λ _. Some (0 ∷ []) };

    fn read(&mut self, _buf: &mut [u8]) -> io::Result<usize> {
        Err(io::Error::from(ErrorKind::OutOfMemory))
    }
}

/// Makes a read that fails, and returns its error.
fn refuse(refusals: &mut Counted<Refusing>) -> io::Error
    ensures { refusal_count refusals.new ≡ refusal_count refusals.old + 1 }
{
    match refusals.read_counted(&mut [0]) {
        Ok(_) => io::Error::from(ErrorKind::OutOfMemory),
        Err(error) => error,
    }
}

/// Appends bytes, for which memory must be reserved.
fn append(kept: &mut Vec<u8>, bytes: &[u8])
    requires { vec_len kept.old + length bytes.now ≤ vec_capacity kept.old }
    ensures { kept.new.items ≡ kept.old.items ++ bytes.now }
{
    let _appended = kept.extend_from_slice(bytes);
}

/// A reader that keeps a copy of the bytes that it gives. Once memory for the copy runs out, every read fails.
#[derive(Drop)]
pub(crate) struct Keeping<R: CountedRead> {
    alloc: Global,
    pub(crate) reader: R,
    /// The bytes given since `new`.
    pub(crate) kept: Vec<u8>,
    /// Makes the reads that fail because memory has run out. Only contracts see their number.
    pub(crate) refusals: Counted<Refusing>,
    /// Whether memory has run out.
    pub(crate) is_refused: bool,
    /// The error of the last read of `reader` that failed, or `None` if none did.
    pub(crate) error: Option<io::Error>,
    pub(crate) ghost copies: { IsCopy (R.seen reader).given kept.items },
    pub(crate) ghost none: { is_refused ≡ false → refusal_count refusals ≡ 0 },
}

impl<R: CountedRead> Keeping<R> {
    /// Returns a reader that has not kept any bytes yet.
    pub(crate) fn new(alloc: Global, reader: R) -> Keeping<R>
        ensures reader { result.reader ≡ reader }
        ensures kept { result.kept.items ≡ [] }
        ensures refused { result.is_refused ≡ false }
    {
        Keeping {
            alloc,
            reader,
            kept: Vec::new(alloc),
            refusals: Counted::new(Refusing),
            is_refused: false,
            error: None,
        }
    }

    /// Returns the reader.
    pub(crate) fn into_reader(self) -> R
        ensures { result ≡ self.reader }
    {
        let Keeping {
            alloc: _alloc,
            reader,
            kept: _kept,
            refusals: _refusals,
            is_refused: _is_refused,
            error: _error,
        } = self;
        reader
    }

    /// Reserves memory for a copy of `count` more bytes. Returns `true` if there is enough, now and at all earlier
    /// calls.
    fn make_room(&mut self, count: usize) -> bool
        ensures reader { self.new.reader ≡ self.old.reader }
        ensures kept { self.new.kept.items ≡ self.old.kept.items }
        ensures refusals { self.new.refusals ≡ self.old.refusals }
        ensures refused { result ≡ false → self.new.is_refused ≡ true }
        ensures kept_on { result ≡ true → self.new.is_refused ≡ false }
        ensures before { result ≡ true → self.old.is_refused ≡ false }
        ensures room { result ≡ true → vec_len self.new.kept + count ≤ vec_capacity self.new.kept }
    {
        if self.is_refused {
            return false;
        }
        if self.kept.reserve(count).is_err() {
            self.is_refused = true;
            return false;
        }
        true
    }

    /// Reads once, and keeps the bytes. Memory for as many as fit into `buf` must be reserved.
    fn read_kept(&mut self, buf: &mut [u8]) -> io::Result<usize>
        requires { vec_len self.old.kept + length buf.old ≤ vec_capacity self.old.kept }
        ensures bound { ReadsAtMost result buf.new }
        ensures once { ReadsOnce result buf.new (R.seen self.old.reader) (R.seen self.new.reader) }
        ensures kept { AppendsPrefix result buf.new self.old.kept.items self.new.kept.items }
        ensures refusals { self.new.refusals ≡ self.old.refusals }
        ensures refused { self.new.is_refused ≡ self.old.is_refused }
    {
        // Until both have changed, the reader and the copy don't agree, so the copy is taken out.
        let mut kept = mem::replace(&mut self.kept, Vec::new(self.alloc));
        let result = self.reader.read_counted(buf);
        if let Ok(count) = &result {
            append(&mut kept, &buf[..*count]);
        }
        self.kept = kept;
        keep_error(&mut self.error, &result);
        result
    }
}

impl<R: CountedRead> Read for Keeping<R> {
    ghost remaining = { λ k. R.remaining k.reader };

    fn read(&mut self, buf: &mut [u8]) -> io::Result<usize>
        ensures bound { ReadsAtMost result buf.new }
        ensures bytes { ReadConsumes (R.remaining self.old.reader) (R.remaining self.new.reader) result buf.new }
        ensures once { ReadsOnce result buf.new
            (kept_reader (R.seen self.old.reader) self.old.kept.items (refusal_count self.old.refusals))
            (kept_reader (R.seen self.new.reader) self.new.kept.items (refusal_count self.new.refusals)) }
    {
        self.read_counted(buf)
    }
}

impl<R: CountedRead> CountedRead for Keeping<R> {
    ghost seen = { λ k. kept_reader (R.seen k.reader) k.kept.items (refusal_count k.refusals) };

    ghost known_bytes = { λ k. R.known_bytes k.reader };

    fn read_counted(&mut self, buf: &mut [u8]) -> io::Result<usize> {
        if !self.make_room(buf.len()) {
            return Err(refuse(&mut self.refusals));
        }
        self.read_kept(buf)
    }
}
