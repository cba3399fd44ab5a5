// The line that an input is in.

ghost use Rattle.std.specs.Prelude.{◌≡◌, ◌≤◌, true, [], ◌++◌, length, OnOk, IfOk};
ghost use Rattle.rapid_text.specs.Endings.{has_no_end, without_return, Keeps};

use std::alloc::{AllocError, Global};
use std::marker::Model;

/// The bytes without one carriage return at their end.
pub fn without_return(line: &[u8]) -> &[u8]
    ensures { result.now ≡ without_return line.now }
{
    let length = line.len();
    if length == 0 || line[length - 1] != b'\r' {
        return line;
    }
    &line[..length - 1]
}

/// The bytes of a line of which the end was not met yet. Of a line that is too long only a
/// beginning is kept, which is too long too.
#[derive(Drop)]
pub struct LineBuffer {
    bytes: Vec<u8>,
}

impl Model for LineBuffer {
    ghost use Rattle.std.specs.Prelude.{◌≡◌, ℕ, List, true};
    ghost use Rattle.rapid_text.specs.Endings.{has_no_end};

    ghost Value = { List ℕ };

    ghost view = { λ l. l.bytes.items };

    ghost invariant = { λ l. has_no_end l.bytes.items ≡ true };
}

impl LineBuffer {
    /// How many bytes are kept of a line: those of the longest one that is allowed, a carriage
    /// return, and one that is too many.
    const KEPT: usize = 258;

    /// A line with no bytes yet, and room for all that are kept.
    pub fn new(alloc: Global) -> Result<LineBuffer, AllocError>
        ensures { IfOk result (λ line. line ≡ []) }
    {
        let bytes = Vec::with_capacity(alloc, LineBuffer::KEPT)?;
        Ok(LineBuffer { bytes })
    }

    /// Adds bytes, none of which ends a line.
    pub fn keep(&mut self, part: &[u8]) -> Result<(), AllocError>
        requires { has_no_end part.now ≡ true }
        ensures ok { OnOk result (Keeps (self.old ++ part.now) self.new) }
        ensures unended { has_no_end self.new ≡ true }
        ensures before { has_no_end self.old ≡ true }
    {
        let room = LineBuffer::KEPT.saturating_sub(self.bytes.len());
        let kept = part.len().min(room);
        self.bytes.extend_from_slice(&part[..kept])?;
        Ok(())
    }

    /// The line, if it ends here: one carriage return at its end is no part of it.
    pub fn ended(&self) -> &[u8]
        ensures value { result.now ≡ without_return self.now }
        ensures unended { has_no_end self.now ≡ true }
    {
        without_return(self.bytes.as_slice())
    }

    /// Whether no byte is kept.
    pub fn is_empty(&self) -> bool
        ensures value { result ≡ true → self.now ≡ [] }
        ensures unended { has_no_end self.now ≡ true }
    {
        self.bytes.is_empty()
    }

    /// The line, if the input ends here.
    pub fn last(&self) -> &[u8]
        ensures value { result.now ≡ self.now }
        ensures unended { has_no_end self.now ≡ true }
    {
        self.bytes.as_slice()
    }

    /// Makes it a line with no bytes yet.
    pub fn clear(&mut self)
        ensures { self.new ≡ [] }
    {
        self.bytes.clear();
    }
}
