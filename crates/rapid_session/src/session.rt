// The lines that drive a node.

ghost use Rattle.std.specs.Prelude.{◌≡◌, ℕ, ◌<◌, List, [], ◌∷◌, length, IfErr, OnOk, OnErr};
ghost use Rattle.rapid_signals.specs.declared.fault.RunningFault.TheVariants.{OutOfMemory};

use rapid_lines::{Asked, BAD_LINE, Command, NO_VIEW, read_line, write_view};
use rapid_service::{Post, Shared};
use rapid_signals::RunningFault;
use rapid_text::{Engine, RunFault, run};
use rapid_view::{View, ViewError, ViewSeat};
use std::alloc::{AllocError, Global};
use std::io::Read;
use std::sync::Wait;
use std::thread;

/// What answers the lines of a node: it prints at the node's console, among the views that are
/// entered meanwhile, and nothing by itself.
#[derive(Drop)]
struct Session<'a, W: Wait, R: Wait + Copy + Drop, P: Post + Drop> {
    rt: &'a W,
    alloc: Global,
    shared: &'a Shared<R, P>,
    seat: Option<ViewSeat>,
}

/// The current view. It is asked for again while the list of members is still older than its stamp.
fn present<W: Wait>(rt: &W, seat: &mut ViewSeat) -> Result<View, RunningFault>
    ensures { IfErr result (λ e. e ≡ OutOfMemory) }
{
    for _ in rt.forever() {
        match seat.members(rt) {
            Ok(view) => return Ok(view),
            Err(ViewError::Behind(_)) => thread::yield_now(),
            Err(_) => return Err(RunningFault::OutOfMemory),
        }
    }
    unreachable!()
}

/// `count` ticks, or fewer if the node ends.
fn tick<W: Wait, R: Wait + Copy + Drop, P: Post + Drop>(
    rt: &W,
    shared: &Shared<R, P>,
    count: u64,
) -> Result<(), RunningFault> {
    for _ in 0..count {
        if shared.ending().has_come(rt) {
            return Ok(());
        }
        shared.tick(rt)?;
    }
    Ok(())
}

impl<W: Wait, R: Wait + Copy + Drop, P: Post + Drop> Session<'_, W, R, P> {
    /// Prints the current view.
    fn view(&mut self) -> Result<(), RunningFault> {
        if self.seat.is_none() {
            self.seat = self.shared.take_seat(self.rt);
        }
        let mut line = Vec::new(self.alloc);
        match &mut self.seat {
            None => line.extend_from_slice(NO_VIEW)?,
            Some(seat) => write_view(present(self.rt, seat)?.configuration(), &mut line)?,
        }
        self.shared.console().add(self.rt, line.as_slice())?;
        Ok(())
    }

    /// Prints the observed edges.
    fn edges(&mut self) -> Result<(), RunningFault> {
        let mut lines = Vec::new(self.alloc);
        self.shared.write_edges(self.rt, &mut lines)?;
        self.shared.console().add(self.rt, lines.as_slice())?;
        Ok(())
    }

    /// Does what a line asks for.
    fn obey(&mut self, asked: Asked) -> Result<(), RunningFault> {
        match asked {
            Asked::Nothing => Ok(()),
            Asked::Unknown => {
                self.shared.console().add(self.rt, BAD_LINE)?;
                Ok(())
            }
            Asked::Taken(Command::Ticks(count)) => tick(self.rt, self.shared, count),
            Asked::Taken(Command::View) => self.view(),
            Asked::Taken(Command::Edges) => self.edges(),
            Asked::Taken(Command::Leave) => self.shared.leave(self.rt),
            Asked::Taken(Command::Quit) => {
                self.shared.ending().end(self.rt, None);
                Ok(())
            }
        }
    }
}

impl<W: Wait, R: Wait + Copy + Drop, P: Post + Drop> Engine for Session<'_, W, R, P> {
    ghost prints = { λ s lines text n. Unit {0} };

    ghost met = { λ s. 0 };

    /// Does what a line asks for. If the node ends, the input is read no further.
    fn answer(&mut self, line: &[u8], output: &mut Vec<u8>) -> Result<(), AllocError> {
        let _ = &output;
        let done = self.obey(read_line(line));
        if self.shared.goes_on(self.rt, done) {
            Ok(())
        } else {
            Err(AllocError)
        }
    }

    ghost ends = { λ s. tt };

    ghost too_long = { λ s line other later text n h k p. tt };

    ghost speaks = { λ s lines. ([], tt) };
}

/// Answers the lines of an input until it ends or the node does, and then ends the node.
pub fn run_lines<W: Wait, R: Wait + Copy + Drop, P: Post + Drop, I: Read>(
    rt: &W,
    alloc: Global,
    shared: &Shared<R, P>,
    reader: &mut I,
) {
    let mut session = Session {
        rt,
        alloc,
        shared,
        seat: None,
    };
    let mut nothing = Vec::new(alloc);
    let fault = match run(alloc, &mut session, reader, &mut nothing) {
        Ok(()) => None,
        Err(RunFault::Read) => Some(RunningFault::Read),
        Err(RunFault::Write) => Some(RunningFault::Write),
        Err(RunFault::OutOfMemory) => Some(RunningFault::OutOfMemory),
    };
    shared.ending().end(rt, fault);
}
