// The threads of a node.

ghost use Rattle.std.specs.Thread.{IsSend, IsSync};

use crate::node::Node;
use crate::streams::Streams;
use crate::until::Until;
use rapid_lines::Note;
use rapid_signals::{Console, Ending, RunningFault};
use std::io::{Read, Write};
use std::sync::Wait;
use std::sync::atomic::{AtomicBool, Ordering};
use std::thread::{self, Threads};
use std::time::{Clock, Duration};

/// The time between two looks for something to report, in milliseconds.
const BETWEEN_REPORTS: u64 = 1_000;

/// Reports a fault by one line.
pub fn tell_fault<E: Write>(fault: RunningFault, err: &mut E) {
    let _ = writeln!(err, "error: {fault}");
    let _ = err.flush();
}

/// Reports by one line that there are too few file descriptors.
fn warn<E: Write>(err: &mut E) {
    let _ = writeln!(
        err,
        "warning: no file descriptor was left for a connection: messages are lost"
    );
    let _ = err.flush();
}

/// Reports the notes of a node while it goes on, a line each.
fn tell_notes<E: Write>(notes: &[Note], err: &mut E) {
    for note in notes {
        let _ = writeln!(err, "note: {note}");
    }
    let _ = err.flush();
}

/// Prints what is added to the console until that is closed. If it cannot be written, the node
/// ends.
fn print<W: Wait + Clock, O: Write + Drop>(
    rt: &W,
    ending: &Ending,
    console: &Console,
    writer: O,
    unwritten: &AtomicBool,
) {
    let mut writer = Until::new(rt, ending, writer);
    if !console.print(rt, &mut writer) {
        unwritten.store(true, Ordering::SeqCst);
        ending.end(rt, Some(RunningFault::Write));
    }
}

/// Answers the lines of the input until it ends or the node does.
fn answer<W: Wait + Clock, N: Node, I: Read + Drop>(rt: &W, node: &N, reader: I) {
    let mut reader = Until::new(rt, node.ending(), reader);
    node.answer(&mut reader);
}

/// Waits until the node ends. Meanwhile it reports the node's notes, and once that there are too
/// few file descriptors, if so.
fn watch<W: Wait + Clock, N: Node, E: Write>(rt: &W, node: &N, err: &mut E) {
    let between = Duration::from_millis(BETWEEN_REPORTS);
    let ending = node.ending();
    let mut warned = false;
    for _ in rt.forever() {
        let ends = ending.wait(rt, between);
        tell_notes(node.take_notes().as_slice(), err);
        if !warned && node.lacks_descriptors() {
            warned = true;
            warn(err);
        }
        if ends {
            return;
        }
    }
}

/// Reports the node's notes, and the fault by which it ends, once it ends, whoever ends it.
fn report<W: Wait + Clock, N: Node, E: Write + Drop>(rt: &W, node: &N, err: E, told: &AtomicBool) {
    let ending = node.ending();
    let mut err = Until::new(rt, ending, err);
    watch(rt, node, &mut err);
    if let Err(fault) = ending.outcome(rt) {
        tell_fault(fault, &mut err);
        told.store(true, Ordering::SeqCst);
    }
}

/// Ends the node because a thread of it could not be started.
fn give_up<W: Wait>(rt: &W, ending: &Ending) {
    ending.end(rt, Some(RunningFault::OutOfMemory));
}

/// Lets the node take lines while `run` lets it take ticks and messages, until it ends, and reports
/// its notes and its fault. It returns when the threads for that have ended.
fn work<W, N, I, E, F>(rt: &W, node: &N, reader: I, err: E, told: &AtomicBool, run: F)
where
    W: Threads + Wait + Clock + Sync,
    N: Node + Sync,
    I: Read + Send + Drop,
    E: Write + Send + Drop,
    F: FnOnce() + Drop,
    requires { F.IsAlwaysCallable run }
{
    thread::scope(
        thread::scope_env(),
        rt,
        |scope|
            requires { IsSync W.row × IsSync N.row × IsSend I.row × IsSend E.row × F.IsAlwaysCallable run }
        {
            if scope.spawn(move || report(rt, node, err, told)).is_err() {
                return give_up(rt, node.ending());
            }
            if scope.spawn(move || answer(rt, node, reader)).is_err() {
                return give_up(rt, node.ending());
            }
            run();
        },
    );
}

/// Runs the threads of a node until it ends, and says why it did. When it returns all have ended,
/// and what was added to the console is printed. A fault that ends the node is reported at once,
/// and then `told` is true. Meanwhile `run` lets the node take ticks and messages, until it ends.
pub fn run_threads<W, N, I, O, E, F>(
    rt: &W,
    node: &N,
    console: &Console,
    streams: Streams<I, O, E>,
    told: &AtomicBool,
    run: F,
) -> Result<(), RunningFault>
where
    W: Threads + Wait + Clock + Sync,
    N: Node + Sync,
    I: Read + Send + Drop,
    O: Write + Send + Drop,
    E: Write + Send + Drop,
    F: FnOnce() + Drop,
    requires { F.IsAlwaysCallable run }
{
    let Streams {
        reader,
        writer,
        err,
    } = streams;
    let ending = node.ending();
    let unwritten = AtomicBool::new(false);
    let failed = &unwritten;
    thread::scope(
        thread::scope_env(),
        rt,
        |scope|
            requires { IsSync W.row × IsSync N.row × IsSend I.row × IsSend O.row × IsSend E.row × F.IsAlwaysCallable run }
        {
            if scope
                .spawn(move || print(rt, ending, console, writer, failed))
                .is_err()
            {
                return give_up(rt, ending);
            }
            work(rt, node, reader, err, told, run);
            // only now: all threads that print have ended, and what they added is still written
            console.close(rt);
        },
    );
    ending.outcome(rt)?;
    // the node may have ended well, and its last lines were not taken
    if unwritten.load(Ordering::SeqCst) {
        return Err(RunningFault::Write);
    }
    Ok(())
}
