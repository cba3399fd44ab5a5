// What is printed, as whole lines.

ghost use Rattle.std.specs.Prelude.{◌≡◌, ◌⊎◌, ◌+◌, ◌≤◌, ◌<◌, ◌==◌, ◌&&◌, ◌++◌, [], true, false, not, length, vec_len, nat_le, if◌then◌else◌, IfErr, IfSome, IfNone, OnOk, OnErr};
ghost use Rattle.std.specs.Io.KnownBytes.{Appends};
ghost use Rattle.rapid_model.specs.Limits.{most_unprinted};
ghost use Rattle.rapid_text.specs.Underway.{AppendsFront};
ghost use Rattle.rapid_signals.specs.declared.fault.RunningFault.TheVariants.{OutOfMemory, Write as CannotWrite};

use crate::fault::RunningFault;
use rapid_text::write_text;
use std::alloc::Global;
use std::io::Write;
use std::mem;
use std::sync::{Condvar, Mutex, Wait};

/// How many bytes wait to be printed at most, if the output takes none.
const MOST_WAITING: usize = 1_048_576;

/// The lines that are to be printed. Many threads add lines, each of them whole, and one prints
/// them in that order, so that no thread waits for the output.
#[derive(Drop)]
pub struct Console {
    alloc: Global,
    pending: Mutex<Pending>,
    changed: Condvar,
}

/// What is not printed yet.
#[derive(Drop)]
struct Pending {
    lines: Vec<u8>,
    closed: bool,
    ghost few: { vec_len lines ≤ most_unprinted },
}

/// Whether lines of this length may wait beside those that wait.
fn has_room(waiting: usize, added: usize) -> bool
    ensures { result ≡ nat_le (waiting + added) most_unprinted }
{
    waiting <= MOST_WAITING && added <= MOST_WAITING - waiting
}

impl Pending {
    /// Nothing waits, and more may come.
    fn new(alloc: Global) -> Pending
        ensures { (result.lines.items ≡ []) × (result.closed ≡ false) }
    {
        Pending {
            lines: Vec::new(alloc),
            closed: false,
        }
    }

    /// Adds lines, if no end was told and there is room for them.
    fn add(&mut self, lines: &[u8]) -> Result<(), RunningFault>
        ensures waits { OnOk result (self.new.lines.items ≡ (if self.old.closed then self.old.lines.items else self.old.lines.items ++ lines.now)) }
        ensures refused { IfErr result (λ e. (self.old.closed ≡ false) × (((e ≡ CannotWrite) × (most_unprinted < length self.old.lines.items + length lines.now)) ⊎ (e ≡ OutOfMemory))) }
        ensures unchanged { OnErr result (self.new.lines.items ≡ self.old.lines.items) }
        ensures open { self.new.closed ≡ self.old.closed }
    {
        if self.closed {
            return Ok(());
        }
        if !has_room(self.lines.len(), lines.len()) {
            return Err(RunningFault::Write);
        }
        match self.lines.extend_from_slice(lines) {
            Ok(()) => Ok(()),
            Err(_) => Err(RunningFault::OutOfMemory),
        }
    }

    /// No more lines come.
    fn close(&mut self)
        ensures { (self.new.lines.items ≡ self.old.lines.items) × (self.new.closed ≡ true) }
    {
        self.closed = true;
    }

    /// Whether who prints waits: there are no lines, and more may come.
    fn is_idle(&self) -> bool
        ensures { result ≡ ((vec_len self.now.lines == 0) && not self.now.closed) }
    {
        self.lines.is_empty() && !self.closed
    }

    /// Takes the lines out, if there are any.
    fn take(&mut self, alloc: Global) -> Option<Vec<u8>>
        ensures all { IfSome result (λ lines. (lines.items ≡ self.old.lines.items) × (0 < vec_len lines) × (vec_len lines ≤ most_unprinted)) }
        ensures none { IfNone result (self.old.lines.items ≡ []) }
        ensures rest { self.new.lines.items ≡ [] }
        ensures open { self.new.closed ≡ self.old.closed }
    {
        if self.lines.is_empty() {
            return None;
        }
        Some(mem::replace(&mut self.lines, Vec::new(alloc)))
    }
}

/// Prints lines; whether all could be written.
fn print_all<W: Write>(writer: &mut W, lines: &[u8]) -> bool
    ensures all { result ≡ true → Appends (W.contents writer.old) (W.contents writer.new) lines.now }
    ensures begun { result ≡ false → AppendsFront (W.contents writer.old) (W.contents writer.new) lines.now }
{
    write_text(writer, lines).is_ok()
}

impl Console {
    /// A console at which nothing was printed.
    pub fn new(alloc: Global) -> Console {
        Console {
            alloc,
            pending: Mutex::new(Pending::new(alloc)),
            changed: Condvar::new(),
        }
    }

    /// Adds lines. A console that is closed prints nothing more. `Write` if more than 1 MiB would
    /// wait then, since the output takes nothing; the lines are not added.
    pub fn add<R: Wait>(&self, rt: &R, lines: &[u8]) -> Result<(), RunningFault> {
        if lines.is_empty() {
            return Ok(());
        }
        let mut pending = self.pending.lock(rt);
        pending.add(lines)?;
        drop(pending);
        self.changed.notify_all();
        Ok(())
    }

    /// No more lines come. What was added is still printed.
    pub fn close<R: Wait>(&self, rt: &R) {
        let mut pending = self.pending.lock(rt);
        pending.close();
        drop(pending);
        self.changed.notify_all();
    }

    /// Waits for lines, and takes them; none if no more come.
    fn next<R: Wait>(&self, rt: &R) -> Option<Vec<u8>>
        ensures { IfSome result (λ lines. (0 < vec_len lines) × (vec_len lines ≤ most_unprinted)) }
    {
        let pending = self.pending.lock(rt);
        let mut pending = self
            .changed
            .wait_while(rt, pending, |pending| pending.is_idle());
        pending.take(self.alloc)
    }

    /// Prints the lines as they are added, until the console is closed; whether all could be
    /// written.
    pub fn print<R: Wait, W: Write>(&self, rt: &R, writer: &mut W) -> bool {
        for _ in rt.forever() {
            let Some(lines) = self.next(rt) else {
                return true;
            };
            if !print_all(writer, lines.as_slice()) {
                return false;
            }
        }
        false
    }
}
