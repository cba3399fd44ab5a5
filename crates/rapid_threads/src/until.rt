// Streams that are given up when the node ends.

ghost use Rattle.std.specs.Prelude.{◌≡◌, ◌≢◌, true, IfOk, IfErr, IfSome, OnOk, OnErr, IsErr, IsSome, Ok, Some};
ghost use Rattle.std.specs.IoError.{error_kind};
ghost use Rattle.std.specs.declared.io.ErrorKind.TheVariants.{Interrupted};

use rapid_signals::Ending;
use std::io::{self, ErrorKind, Read, Write};
use std::sync::Wait;
use std::time::{Clock, Duration, Instant};

/// How long an output may still take what is printed once the node ends, in milliseconds.
const LAST_LINES: u64 = 500;

/// An input or an output of a node. A call that was interrupted is not made again once the node
/// ends. An input is given up at once, an output after half a second.
#[derive(Drop)]
pub(crate) struct Until<'a, W: Wait + Clock, S: Drop> {
    rt: &'a W,
    ending: &'a Ending,
    /// When an interrupted call first saw that the node ends.
    ended: Option<Instant>,
    stream: S,
}

impl<'a, W: Wait + Clock, S: Drop> Until<'a, W, S> {
    /// The stream of a node that has this ending.
    pub(crate) fn new(rt: &'a W, ending: &'a Ending, stream: S) -> Until<'a, W, S>
        ensures { result.stream ≡ stream }
    {
        Until {
            rt,
            ending,
            ended: None,
            stream,
        }
    }

    /// Whether the node ended at least this long ago, from when that was first seen.
    fn is_over(&mut self, longest: Duration) -> io::Result<bool>
        ensures seen { IfOk result (λ over. over ≡ true → IsSome self.new.ended) }
        ensures first { IfSome self.old.ended (λ ended. self.new.ended ≡ Some ended) }
        ensures stream { self.new.stream ≡ self.old.stream }
    {
        if !self.ending.has_come(self.rt) {
            return Ok(false);
        }
        let now = Instant::now(self.rt)?;
        let ended = self.ended.unwrap_or(now);
        self.ended = Some(ended);
        Ok(now.saturating_duration_since(ended) >= longest)
    }

    /// The outcome of a call, which is not to be made again if the node ended at least this long
    /// ago. Only the error of an interrupted call becomes another.
    fn settle(&mut self, outcome: io::Result<usize>, longest: Duration) -> io::Result<usize>
        ensures kept { IfOk outcome (λ n. result ≡ Ok n) }
        ensures failed { OnErr outcome (IsErr result) }
        ensures fault { IfErr outcome (λ error. error_kind error ≢ Interrupted → result ≡ outcome) }
        ensures unseen { OnOk outcome (self.new.ended ≡ self.old.ended) }
        ensures first { IfSome self.old.ended (λ ended. self.new.ended ≡ Some ended) }
        ensures stream { self.new.stream ≡ self.old.stream }
    {
        if let Err(error) = &outcome
            && error.kind() == ErrorKind::Interrupted
            && self.is_over(longest)?
        {
            return Err(io::Error::from(ErrorKind::TimedOut));
        }
        outcome
    }
}

impl<W: Wait + Clock, S: Read + Drop> Read for Until<'_, W, S> {
    ghost remaining = { λ u. S.remaining u.stream };

    fn read(&mut self, buf: &mut [u8]) -> io::Result<usize> {
        let read = self.stream.read(buf);
        self.settle(read, Duration::ZERO)
    }
}

impl<W: Wait + Clock, S: Write + Drop> Write for Until<'_, W, S> {
    ghost contents = { λ u. S.contents u.stream };

    fn write(&mut self, buf: &[u8]) -> io::Result<usize> {
        let written = self.stream.write(buf);
        self.settle(written, Duration::from_millis(LAST_LINES))
    }

    fn flush(&mut self) -> io::Result<()> {
        self.stream.flush()
    }
}
