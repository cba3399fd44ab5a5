// Readers and writers that fail.

use std::io;
use std::io::{ErrorKind, Read, Write};

/// A reader that gives a few bytes at a time and fails at one of its calls.
#[derive(Drop)]
pub struct Faulty<'a> {
    pub input: &'a [u8],
    pub calls: usize,
}

impl Read for Faulty<'_> {
    fn read(&mut self, buf: &mut [u8]) -> io::Result<usize> {
        if self.calls == 0 {
            return Err(io::Error::from(ErrorKind::Other));
        }
        self.calls -= 1;
        let count = self.input.len().min(buf.len()).min(7);
        let (front, rest) = self.input.split_at(count);
        buf[..count].copy_from_slice(front);
        self.input = rest;
        Ok(count)
    }
}

/// A writer that takes one byte a call, and is interrupted now and then. It fails at one of its
/// calls, or takes nothing from there on.
#[derive(Drop)]
pub struct Narrow {
    pub written: Vec<u8>,
    pub calls: usize,
    pub takes_none: bool,
}

impl Write for Narrow {
    fn write(&mut self, buf: &[u8]) -> io::Result<usize> {
        if self.calls == 0 {
            return if self.takes_none {
                Ok(0)
            } else {
                Err(io::Error::from(ErrorKind::Other))
            };
        }
        self.calls -= 1;
        if self.calls % 5 == 3 {
            return Err(io::Error::from(ErrorKind::Interrupted));
        }
        match buf.first() {
            None => Ok(0),
            Some(byte) => {
                self.written.push(*byte)?;
                Ok(1)
            }
        }
    }

    fn flush(&mut self) -> io::Result<()> {
        Ok(())
    }
}
