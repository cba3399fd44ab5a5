// A stream that is read with patience, which ends.

use std::io::{self, ErrorKind, Read};
use std::net::TcpStream;
use std::time::{Clock, Duration, Instant};

/// How long after a connection was accepted its first frame is whole at the latest, in milliseconds.
const FIRST_FRAME: u64 = 5_000;

/// How long after a later frame was begun it is whole at the latest, in milliseconds.
const WHOLE_FRAME: u64 = 5_000;

/// A stream whose reads fail if a frame takes too long. Between frames they wait without a limit. A
/// peer connects only to write at once. So one that is silent from the first, or stops within a
/// frame, only holds a reader and a part of a frame.
#[derive(Drop)]
pub(crate) struct Patient<'a, R: Clock> {
    rt: &'a R,
    stream: &'a TcpStream,
    /// When the frame that is waited for was begun, once a read asked for it.
    since: Option<Instant>,
    /// How long that frame may take; none between frames.
    longest: Option<Duration>,
    /// Whether reads of the stream itself have a limit.
    limited: bool,
    late: bool,
}

impl<'a, R: Clock> Patient<'a, R> {
    /// A stream that was accepted just now, and of which nothing was read.
    pub(crate) fn new(rt: &'a R, stream: &'a TcpStream) -> io::Result<Patient<'a, R>> {
        Ok(Patient {
            rt,
            stream,
            since: Some(Instant::now(rt)?),
            longest: Some(Duration::from_millis(FIRST_FRAME)),
            limited: false,
            late: false,
        })
    }

    /// A frame was whole. The next has not begun yet, or some bytes of it were read already.
    pub(crate) fn end_frame(&mut self, has_more: bool) {
        self.since = None;
        self.longest = if has_more {
            Some(Duration::from_millis(WHOLE_FRAME))
        } else {
            None
        };
    }

    /// Whether a frame took too long.
    pub(crate) fn is_late(&self) -> bool {
        self.late
    }

    /// How long the frame that is waited for may still take, if it was begun `since`.
    fn left(&self, since: Instant, longest: Duration) -> io::Result<Duration> {
        Ok(longest.saturating_sub(since.elapsed(self.rt)?))
    }

    /// Gives the reads of the stream their limit, or takes it away.
    fn limit(&mut self) -> io::Result<()> {
        let Some(longest) = self.longest else {
            if self.limited {
                self.stream.set_read_timeout(None)?;
                self.limited = false;
            }
            return Ok(());
        };
        let since = match self.since {
            Some(since) => since,
            None => Instant::now(self.rt)?,
        };
        self.since = Some(since);
        let left = self.left(since, longest)?;
        if left.is_zero() {
            self.late = true;
            return Err(io::Error::from(ErrorKind::TimedOut));
        }
        self.limited = true;
        self.stream.set_read_timeout(Some(left))
    }
}

impl<R: Clock> Read for Patient<'_, R> {
    fn read(&mut self, buf: &mut [u8]) -> io::Result<usize> {
        self.limit()?;
        let mut stream = self.stream;
        let read = stream.read(buf);
        match &read {
            // what came between frames begins one
            Ok(_) => {
                let whole = Duration::from_millis(WHOLE_FRAME);
                self.longest = Some(self.longest.unwrap_or(whole));
            }
            Err(error) => self.late = error.kind() == ErrorKind::WouldBlock,
        }
        read
    }
}
