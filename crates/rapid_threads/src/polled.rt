// Streams of the system of which no call waits for long.

ghost use Rattle.std.specs.Prelude.{◌≡◌};

use libc::net::{POLLIN, POLLOUT, poll};
use libc::types::pollfd;
use std::io::{self, ErrorKind, Read, Write};
use std::os::fd::{AsRawFd, RawFd};

/// How long a call waits at most, in milliseconds.
const LONGEST_POLL: i32 = 100;

/// How many bytes a write takes at most: as many as go into a pipe at once if it has room.
const MOST: usize = 4_096;

/// A stream of the system of which no call waits for long. A call that can do nothing for 0.1
/// seconds fails as if a signal had interrupted it, and the caller makes it again. A node that ends
/// makes no further call.
#[derive(Drop)]
pub struct Polled<S: Drop> {
    stream: S,
}

impl<S: Drop> Polled<S> {
    /// The stream.
    pub fn new(stream: S) -> Polled<S>
        ensures { result.stream ≡ stream }
    {
        Polled { stream }
    }
}

/// Waits until a descriptor is ready for one of these events, for 0.1 seconds at most.
///
/// # Errors
///
/// `Interrupted` if it is not, or if a signal came.
fn wait_for(fd: RawFd, events: i16) -> io::Result<()> {
    let mut asked = [pollfd {
        fd,
        events,
        revents: 0,
    }];
    // 0 if the time is over; below 0 after a signal, or a fault that the next call meets too
    if poll(&mut asked, LONGEST_POLL) <= 0 {
        return Err(io::Error::from(ErrorKind::Interrupted));
    }
    Ok(())
}

impl<S: Read + AsRawFd + Drop> Read for Polled<S> {
    ghost remaining = { λ p. S.remaining p.stream };

    fn read(&mut self, buf: &mut [u8]) -> io::Result<usize> {
        wait_for(self.stream.as_raw_fd(), POLLIN)?;
        self.stream.read(buf)
    }
}

impl<S: Write + AsRawFd + Drop> Write for Polled<S> {
    ghost contents = { λ p. S.contents p.stream };

    fn write(&mut self, buf: &[u8]) -> io::Result<usize> {
        wait_for(self.stream.as_raw_fd(), POLLOUT)?;
        self.stream.write(&buf[..buf.len().min(MOST)])
    }

    fn flush(&mut self) -> io::Result<()> {
        self.stream.flush()
    }
}
