// Readers and writers that count how many of their calls failed. Those of std do not say which of
// their calls failed, so the engines stand on traits of their own, which promise it.

ghost use Rattle.std.specs.Prelude.{◌≡◌, ◌<◌, ◌≤◌, ℕ, List, Option, length, Ok, IfOk};
ghost use Rattle.std.specs.Io.KnownBytes.{ReadConsumes, WriteAppends};
ghost use Rattle.rapid_transport.specs.Counting.{after_call};

use std::io::{ErrorKind, Read, Write};

/// A call of a device failed.
#[derive(Clone, Copy, Debug, PartialEq, Eq)]
pub struct Failed;

/// A device that counts how many of its calls failed. The count stays at 2^64 - 1.
pub trait Counted {
    // How many of its calls failed.
    ghost faults: { Self → ℕ };

    /// How many of its calls failed so far.
    fn failed_calls(&self) -> u64
        ensures { result ≡ faults self.now };
}

/// A reader that counts how many of its calls failed.
pub trait CountedRead: Counted {
    // The bytes that reads will give from here on, if they are known.
    ghost remaining: { Self → Option (List ℕ) };

    /// Reads bytes into the block: none only at the end of the input, or if there is no room.
    fn read_some(&mut self, block: &mut [u8]) -> Result<usize, Failed>
        ensures bound { IfOk result (λ count. count ≤ length block.new) }
        ensures bytes { ReadConsumes (remaining self.old) (remaining self.new) result block.new }
        ensures counts { Self.faults self.new ≡ after_call result (Self.faults self.old) };
}

/// A writer that counts how many of its calls failed.
pub trait CountedWrite: Counted {
    // The bytes that the writer holds, if they are known.
    ghost contents: { Self → Option (List ℕ) };

    // A write of some bytes has taken none. A writer that always takes some gives what cannot hold.
    ghost took_none: { Type 0 } = { Unit {0} };

    /// Writes some of the bytes from the first on, and says how many.
    fn write_some(&mut self, bytes: &[u8]) -> Result<usize, Failed>
        ensures bound { IfOk result (λ count. count ≤ length bytes.now) }
        ensures bytes { WriteAppends (contents self.old) (contents self.new) result bytes.now }
        ensures none { result ≡ Ok 0 → 0 < length bytes.now → took_none }
        ensures counts { Self.faults self.new ≡ after_call result (Self.faults self.old) };
}

/// Counts the failed calls of a stream. A call that a signal interrupts is made again, and is not
/// counted.
#[derive(Drop)]
pub struct Metered<S: Drop> {
    stream: S,
    failed: u64,
}

impl<S: Drop> Metered<S> {
    /// The stream, of which no call has failed yet.
    pub fn new(stream: S) -> Metered<S>
        ensures stream { result.stream ≡ stream }
        ensures none { result.failed ≡ 0 }
    {
        Metered { stream, failed: 0 }
    }

    /// The stream.
    pub fn stream(&self) -> &S
        ensures { result.now ≡ self.now.stream }
    {
        &self.stream
    }
}

/// The outcome of a call, which is counted if it failed.
fn count<T>(failed: &mut u64, outcome: Result<T, Failed>) -> Result<T, Failed>
    ensures same { result ≡ outcome }
    ensures counts { failed.new ≡ after_call outcome failed.old }
{
    if outcome.is_err() {
        *failed = failed.saturating_add(1);
    }
    outcome
}

/// Reads once, and again if a signal interrupts.
fn read<R: Read>(reader: &mut R, block: &mut [u8]) -> Result<usize, Failed>
    ensures bound { IfOk result (λ count. count ≤ length block.new) }
    ensures bytes { ReadConsumes (R.remaining reader.old) (R.remaining reader.new) result block.new }
{
    for _ in 0..u64::MAX {
        match reader.read(block) {
            Ok(count) => return Ok(count),
            Err(error) => {
                if error.kind() != ErrorKind::Interrupted {
                    return Err(Failed);
                }
            }
        }
    }
    Err(Failed)
}

/// Writes once, and again if a signal interrupts.
fn write<W: Write>(writer: &mut W, bytes: &[u8]) -> Result<usize, Failed>
    ensures bound { IfOk result (λ count. count ≤ length bytes.now) }
    ensures bytes { WriteAppends (W.contents writer.old) (W.contents writer.new) result bytes.now }
{
    for _ in 0..u64::MAX {
        match writer.write(bytes) {
            Ok(count) => return Ok(count),
            Err(error) => {
                if error.kind() != ErrorKind::Interrupted {
                    return Err(Failed);
                }
            }
        }
    }
    Err(Failed)
}

impl<S: Drop> Counted for Metered<S> {
    ghost faults = { λ m. m.failed };

    fn failed_calls(&self) -> u64 {
        self.failed
    }
}

impl<S: Read + Drop> CountedRead for Metered<S> {
    ghost remaining = { λ m. S.remaining m.stream };

    fn read_some(&mut self, block: &mut [u8]) -> Result<usize, Failed> {
        count(&mut self.failed, read(&mut self.stream, block))
    }
}

impl<S: Write + Drop> CountedWrite for Metered<S> {
    ghost contents = { λ m. S.contents m.stream };

    fn write_some(&mut self, bytes: &[u8]) -> Result<usize, Failed> {
        count(&mut self.failed, write(&mut self.stream, bytes))
    }
}
