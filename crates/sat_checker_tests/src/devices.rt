//! A reader that returns one byte at a time.

use sat_base::Counted;
use std::io;
use std::io::{ErrorKind, Read};

/// A text that is read byte by byte. Read number `failing` fails, counted from 1; with 0, none does.
#[derive(Drop)]
pub(crate) struct ByOne<'a> {
    text: &'a [u8],
    calls: u64,
    failing: u64,
}

impl Read for ByOne<'_> {
    fn read(&mut self, buf: &mut [u8]) -> io::Result<usize> {
        self.calls = self.calls.saturating_add(1);
        if self.calls == self.failing {
            return Err(io::Error::from(ErrorKind::Interrupted));
        }
        if buf.is_empty() {
            return Ok(0);
        }
        match self.text.split_first() {
            Some((byte, rest)) => {
                buf[0] = *byte;
                self.text = rest;
                Ok(1)
            }
            None => Ok(0),
        }
    }
}

pub(crate) fn by_one(text: &[u8], failing: u64) -> Counted<ByOne<'_>> {
    Counted::new(ByOne {
        text,
        calls: 0,
        failing,
    })
}
