//! Readers and writers for tests.

use sat_base::Counted;
use std::alloc::Global;
use std::cell::Cell;
use std::fmt::Display;
use std::io;
use std::io::{ErrorKind, Read, Write};

/// A device that returns its text byte by byte, and accepts all that is written. Call number `failing`, counted from 1,
/// fails; with 0, none does.
#[derive(Drop)]
pub(crate) struct FailsAt<'a> {
    text: &'a [u8],
    pub(crate) calls: u64,
    pub(crate) taken: usize,
    failing: u64,
}

impl FailsAt<'_> {
    fn call(&mut self) -> io::Result<()> {
        self.calls = self.calls.saturating_add(1);
        if self.calls == self.failing {
            return Err(io::Error::from(ErrorKind::Interrupted));
        }
        Ok(())
    }
}

impl Read for FailsAt<'_> {
    fn read(&mut self, buf: &mut [u8]) -> io::Result<usize> {
        self.call()?;
        if buf.is_empty() {
            return Ok(0);
        }
        match self.text.split_first() {
            Some((byte, rest)) => {
                buf[0] = *byte;
                self.text = rest;
                Ok(1)
            }
            None => Ok(0),
        }
    }
}

impl Write for FailsAt<'_> {
    fn write(&mut self, piece: &[u8]) -> io::Result<usize> {
        self.call()?;
        self.taken = self.taken.saturating_add(piece.len());
        Ok(piece.len())
    }

    fn flush(&mut self) -> io::Result<()> {
        self.call()
    }
}

pub(crate) fn fails_at(text: &[u8], failing: u64) -> Counted<FailsAt<'_>> {
    Counted::new(FailsAt {
        text,
        calls: 0,
        taken: 0,
        failing,
    })
}

/// A reader that returns its text in pieces of at most `size` bytes, and records the size of the largest buffer that it
/// was given.
#[derive(Drop)]
pub(crate) struct Pieces<'a> {
    text: &'a [u8],
    size: usize,
    pub(crate) largest: usize,
}

impl Read for Pieces<'_> {
    fn read(&mut self, buf: &mut [u8]) -> io::Result<usize> {
        self.largest = self.largest.max(buf.len());
        let count = self.size.min(buf.len()).min(self.text.len());
        let (piece, rest) = self.text.split_at(count);
        buf[..count].copy_from_slice(piece);
        self.text = rest;
        Ok(count)
    }
}

pub(crate) fn in_pieces(text: &[u8], size: usize) -> Counted<Pieces<'_>> {
    Counted::new(Pieces {
        text,
        size,
        largest: 0,
    })
}

/// A writer that counts the bytes that it accepted.
#[derive(Drop)]
pub(crate) struct Watched<'a> {
    pub(crate) taken: &'a Cell<usize>,
}

impl Write for Watched<'_> {
    fn write(&mut self, piece: &[u8]) -> io::Result<usize> {
        self.taken.set(self.taken.get().saturating_add(piece.len()));
        Ok(piece.len())
    }

    fn flush(&mut self) -> io::Result<()> {
        Ok(())
    }
}

/// A reader that returns its text byte by byte. At read number `before`, counted from 1, it records how many bytes a
/// writer has accepted so far.
#[derive(Drop)]
pub(crate) struct Watching<'a> {
    pub(crate) text: &'a [u8],
    pub(crate) taken: &'a Cell<usize>,
    pub(crate) before: u64,
    pub(crate) seen: usize,
}

impl Read for Watching<'_> {
    fn read(&mut self, buf: &mut [u8]) -> io::Result<usize> {
        self.before = self.before.saturating_sub(1);
        if self.before == 0 {
            self.seen = self.seen.max(self.taken.get());
            self.before = u64::MAX;
        }
        let count = buf.len().min(self.text.len()).min(1);
        let (piece, rest) = self.text.split_at(count);
        buf[..count].copy_from_slice(piece);
        self.text = rest;
        Ok(count)
    }
}

/// Appends parts to bytes, in order. Returns `false` if memory runs out.
pub(crate) fn append(bytes: &mut Vec<u8>, parts: &[&[u8]]) -> bool {
    for part in parts {
        if bytes.extend_from_slice(*part).is_err() {
            return false;
        }
    }
    true
}

/// Returns `true` if `words` is what is printed for a value.
pub(crate) fn is_printed<T: Display>(alloc: Global, value: &T, words: &str) -> bool {
    match format!(in alloc; "{value}") {
        Ok(printed) => printed.as_str() == words,
        Err(_) => false,
    }
}
