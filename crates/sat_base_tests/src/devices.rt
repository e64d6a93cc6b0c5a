//! Readers and writers for tests.

use sat_base::{Counted, CountedRead, CountedWrite, ReadError, read_into, read_whole};
use std::alloc::Global;
use std::io;
use std::io::{ErrorKind, Read, Write};

/// A reader that returns its text byte by byte. Read number `failing`, counted from 1, fails.
#[derive(Drop)]
pub(crate) struct ByOne<'a> {
    text: &'a [u8],
    pub(crate) calls: u64,
    failing: u64,
}

impl Read for ByOne<'_> {
    fn read(&mut self, buf: &mut [u8]) -> io::Result<usize> {
        self.calls = self.calls.saturating_add(1);
        if self.calls == self.failing {
            return Err(io::Error::from(ErrorKind::Interrupted));
        }
        if buf.is_empty() {
            return Ok(0);
        }
        match self.text.split_first() {
            Some((byte, rest)) => {
                buf[0] = *byte;
                self.text = rest;
                Ok(1)
            }
            None => Ok(0),
        }
    }
}

/// A reader that returns its text in one piece, and then zeros without end.
#[derive(Drop)]
pub(crate) struct Endless<'a> {
    text: &'a [u8],
    pub(crate) calls: u64,
}

impl Read for Endless<'_> {
    fn read(&mut self, buf: &mut [u8]) -> io::Result<usize> {
        self.calls = self.calls.saturating_add(1);
        let count = self.text.read(buf)?;
        if count > 0 {
            return Ok(count);
        }
        buf.fill(b'0');
        Ok(buf.len())
    }
}

pub(crate) fn without_end(text: &[u8]) -> Counted<Endless<'_>> {
    Counted::new(Endless { text, calls: 0 })
}

/// A writer that accepts at most `most` bytes of a piece. Write number `failing`, counted from 1, fails.
#[derive(Drop)]
pub(crate) struct ByFew {
    pub(crate) taken: Vec<u8>,
    pub(crate) calls: u64,
    most: usize,
    failing: u64,
}

impl Write for ByFew {
    fn write(&mut self, piece: &[u8]) -> io::Result<usize> {
        self.calls = self.calls.saturating_add(1);
        if self.calls == self.failing {
            return Err(io::Error::from(ErrorKind::Interrupted));
        }
        self.taken.write(&piece[..piece.len().min(self.most)])
    }

    fn flush(&mut self) -> io::Result<()> {
        Ok(())
    }
}

/// A writer that accepts no bytes.
#[derive(Drop)]
struct Full {}

impl Write for Full {
    fn write(&mut self, _piece: &[u8]) -> io::Result<usize> {
        Ok(0)
    }

    fn flush(&mut self) -> io::Result<()> {
        Ok(())
    }
}

/// A writer that counts its flushes.
#[derive(Drop)]
struct Flushed {
    flushes: u64,
}

impl Write for Flushed {
    fn write(&mut self, piece: &[u8]) -> io::Result<usize> {
        Ok(piece.len())
    }

    fn flush(&mut self) -> io::Result<()> {
        self.flushes = self.flushes.saturating_add(1);
        Ok(())
    }
}

pub(crate) fn by_one(text: &[u8], failing: u64) -> Counted<ByOne<'_>> {
    Counted::new(ByOne {
        text,
        calls: 0,
        failing,
    })
}

pub(crate) fn by_few(alloc: Global, most: usize, failing: u64) -> Counted<ByFew> {
    Counted::new(ByFew {
        taken: Vec::new(alloc),
        calls: 0,
        most,
        failing,
    })
}

/// Writes a text with a single call and flushes. Returns whether the device received the text.
fn is_passed_on(alloc: Global, text: &[u8]) -> bool {
    let mut writer = Counted::new(Vec::new(alloc));
    let passed = writer.write_all_counted(text).is_ok() && writer.flush_counted().is_ok();
    passed && writer.into_inner().as_slice() == text
}

/// Returns `true` if `text` is what a reader returns up to its end.
fn is_read<R: CountedRead>(alloc: Global, reader: &mut R, text: &[u8]) -> Result<bool, ReadError> {
    Ok(read_whole(alloc, reader)?.as_slice() == text)
}

/// Returns `true` if `text` is what `read_into` appends from a reader.
fn is_fed<R: CountedRead>(alloc: Global, reader: &mut R, text: &[u8]) -> bool {
    let mut held = Vec::new(alloc);
    read_into(reader, &mut held).is_ok() && held.as_slice() == text
}

/// Reads a text byte by byte up to its end, while read number `failing`, counted from 1, fails. Returns whether the
/// text was read, or the fault, and the number of reads.
fn read_by_one(alloc: Global, text: &[u8], failing: u64) -> (Result<bool, ReadError>, u64) {
    let mut reader = by_one(text, failing);
    let answer = is_read(alloc, &mut reader, text);
    (answer, reader.into_inner().calls)
}

#[test]
fn devices_pass_on_what_they_are_given(rt: HostRuntime) {
    assert!(rt; is_passed_on(rt.alloc(), b"abc"));
    assert!(rt; Counted::new(Full {}).write_all_counted(b"abc").is_err());
    assert!(rt; read_by_one(rt.alloc(), b"abc", 0) == (Ok(true), 4));
    assert!(rt; is_fed(rt.alloc(), &mut by_one(b"abc", 0), b"abc"));
}

#[test]
fn each_read_of_a_whole_text_may_fail(rt: HostRuntime) {
    for failing in 1..5 {
        let answer = read_by_one(rt.alloc(), b"abc", failing);
        assert!(rt; answer == (Err(ReadError::Failed), failing));
    }
    assert!(rt; read_by_one(rt.alloc(), b"abc", 5) == (Ok(true), 4));
}

/// Writes a text with one call of `write`. Tests whether all bytes were accepted, and the device received the text.
fn is_written_once(alloc: Global, text: &[u8]) -> bool {
    let mut writer = Counted::new(Vec::new(alloc));
    let taken = writer.write(text).ok();
    taken == Some(text.len()) && writer.into_inner().as_slice() == text
}

/// Flushes by `flush` and by `flush_counted`. Returns how many times the device was flushed, if both calls succeed.
fn flushed_twice() -> Option<u64> {
    let mut writer = Counted::new(Flushed { flushes: 0 });
    let done = writer.flush().is_ok() && writer.flush_counted().is_ok();
    done.then_some(writer.into_inner().flushes)
}

/// Reads a piece of a text with one call of `read`. Returns the number of bytes that were read, and the first byte.
fn read_once(text: &[u8]) -> (Option<usize>, u8) {
    let mut piece = [0; 4];
    let count = by_one(text, 0).read(&mut piece).ok();
    (count, piece[0])
}

#[test]
fn calls_by_the_standard_traits_reach_the_device(rt: HostRuntime) {
    assert!(rt; is_written_once(rt.alloc(), b"abc"));
    assert!(rt; flushed_twice() == Some(2));
    assert!(rt; read_once(b"ab") == (Some(1), b'a'));
}
