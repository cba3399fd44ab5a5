// A stream that is written to for a short time.

ghost use Rattle.std.specs.Io.{WritesAtMost};

use std::io::{self, ErrorKind, Write};
use std::net::TcpStream;
use std::time::{Clock, Duration, Instant};

/// How long writing a frame takes at most before the last of its writes, in milliseconds.
const LONGEST_WRITE: u64 = 50;

/// A stream whose writes fail once 50 milliseconds have gone by. It knows whether one was too slow.
#[derive(Drop)]
pub(crate) struct Timed<'a, R: Clock> {
    rt: &'a R,
    stream: &'a TcpStream,
    begun: Instant,
    late: bool,
}

impl<'a, R: Clock> Timed<'a, R> {
    /// The stream, whose time begins now. A write of the stream itself waits for room for as long
    /// as was set when it was opened.
    pub(crate) fn new(rt: &'a R, stream: &'a TcpStream) -> io::Result<Timed<'a, R>> {
        let begun = Instant::now(rt)?;
        Ok(Timed {
            rt,
            stream,
            begun,
            late: false,
        })
    }

    /// Whether a write found no room in time.
    pub(crate) fn is_late(&self) -> bool {
        self.late
    }
}

impl<R: Clock> Write for Timed<'_, R> {
    fn write(&mut self, buf: &[u8]) -> io::Result<usize> {
        if self.begun.elapsed(self.rt)? >= Duration::from_millis(LONGEST_WRITE) {
            self.late = true;
            return Err(io::Error::from(ErrorKind::TimedOut));
        }
        let mut stream = self.stream;
        let written = stream.write(buf);
        if let Err(error) = &written {
            // the stream's own time limit for one write has gone by
            self.late = error.kind() == ErrorKind::WouldBlock;
        }
        written
    }

    fn flush(&mut self) -> io::Result<()> {
        Ok(())
    }
}
