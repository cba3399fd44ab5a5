// Readers and writers that fail, or give and take little.

use std::io::{self, ErrorKind, Read, Write};

/// A reader that gives this many bytes a call, and fails at one of its calls.
#[derive(Drop)]
pub(crate) struct Faulty<'a> {
    pub input: &'a [u8],
    pub step: usize,
    pub calls: usize,
}

impl Read for Faulty<'_> {
    fn read(&mut self, buf: &mut [u8]) -> io::Result<usize> {
        if self.calls == 0 {
            return Err(io::Error::from(ErrorKind::Other));
        }
        self.calls -= 1;
        let count = self.input.len().min(buf.len()).min(self.step);
        let (front, rest) = self.input.split_at(count);
        buf[..count].copy_from_slice(front);
        self.input = rest;
        Ok(count)
    }
}

/// What a writer does once its calls are used up.
#[derive(Clone, Copy, Debug, PartialEq, Eq)]
pub(crate) enum Ends {
    Fails,
    TakesNone,
}

/// A writer that takes this many bytes a call, and at one of its calls fails or takes none.
#[derive(Drop)]
pub(crate) struct Narrow {
    pub written: Vec<u8>,
    pub step: usize,
    pub calls: usize,
    pub ends: Ends,
}

impl Write for Narrow {
    fn write(&mut self, buf: &[u8]) -> io::Result<usize> {
        if self.calls == 0 {
            return match self.ends {
                Ends::Fails => Err(io::Error::from(ErrorKind::Other)),
                Ends::TakesNone => Ok(0),
            };
        }
        self.calls -= 1;
        let count = buf.len().min(self.step);
        self.written.extend_from_slice(&buf[..count])?;
        Ok(count)
    }

    fn flush(&mut self) -> io::Result<()> {
        Ok(())
    }
}
