//! Readers and writers for tests.

use sat_base::Counted;
use std::alloc::Global;
use std::io;
use std::io::{ErrorKind, Read, Write};

/// A reader that returns its text byte by byte. Read number `failing` fails, counted from 1; with 0, none does.
#[derive(Drop)]
pub(crate) struct ByOne<'a> {
    text: &'a [u8],
    pub(crate) calls: u64,
    failing: u64,
}

impl Read for ByOne<'_> {
    fn read(&mut self, buf: &mut [u8]) -> io::Result<usize> {
        self.calls = self.calls.saturating_add(1);
        if self.calls == self.failing {
            return Err(io::Error::from(ErrorKind::Interrupted));
        }
        if buf.is_empty() {
            return Ok(0);
        }
        match self.text.split_first() {
            Some((byte, rest)) => {
                buf[0] = *byte;
                self.text = rest;
                Ok(1)
            }
            None => Ok(0),
        }
    }
}

/// A reader that returns a text, and then one byte without end. It counts its reads.
#[derive(Drop)]
pub(crate) struct Endless<'a> {
    text: &'a [u8],
    byte: u8,
    pub(crate) calls: u64,
}

impl Read for Endless<'_> {
    fn read(&mut self, buf: &mut [u8]) -> io::Result<usize> {
        self.calls = self.calls.saturating_add(1);
        for i in 0..buf.len() {
            buf[i] = self.byte;
        }
        let front = self.text.len().min(buf.len());
        let (now, rest) = self.text.split_at(front);
        buf[..front].copy_from_slice(now);
        self.text = rest;
        Ok(buf.len())
    }
}

/// A writer that accepts at most `most` bytes of a piece. Write number `failing` fails, counted from 1; with 0,
/// none does.
#[derive(Drop)]
pub(crate) struct ByFew {
    pub(crate) taken: Vec<u8>,
    calls: u64,
    most: usize,
    failing: u64,
}

impl Write for ByFew {
    fn write(&mut self, piece: &[u8]) -> io::Result<usize> {
        self.calls = self.calls.saturating_add(1);
        if self.calls == self.failing {
            return Err(io::Error::from(ErrorKind::Interrupted));
        }
        self.taken.write(&piece[..piece.len().min(self.most)])
    }

    fn flush(&mut self) -> io::Result<()> {
        Ok(())
    }
}

pub(crate) fn by_one(text: &[u8], failing: u64) -> Counted<ByOne<'_>> {
    Counted::new(ByOne {
        text,
        calls: 0,
        failing,
    })
}

pub(crate) fn repeating(text: &[u8], byte: u8) -> Counted<Endless<'_>> {
    Counted::new(Endless {
        text,
        byte,
        calls: 0,
    })
}

pub(crate) fn by_few(alloc: Global, most: usize, failing: u64) -> Counted<ByFew> {
    Counted::new(ByFew {
        taken: Vec::new(alloc),
        calls: 0,
        most,
        failing,
    })
}
