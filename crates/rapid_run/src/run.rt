// A node, from its options to its end.

ghost use Rattle.std.specs.Thread.{IsSync};

use crate::node::AgentNode;
use rapid_agent::Agent;
use rapid_options::NodeOptions;
use rapid_signals::RunningFault;
use rapid_threads::{Streams, run_threads, tell_fault};
use std::alloc::Global;
use std::io::{Read, Write};
use std::net::{Net, TcpListener, TcpStream};
use std::random::RandomSource;
use std::sync::Wait;
use std::sync::atomic::{AtomicBool, Ordering};
use std::thread::Threads;
use std::time::Clock;

/// Runs a node until it ends. If a fault was reported meanwhile, `told` is true then.
fn run<R, S, I, O, E>(
    rt: &R,
    alloc: Global,
    options: NodeOptions,
    source: &S,
    streams: Streams<&mut I, &mut O, &mut E>,
    told: &AtomicBool,
) -> Result<(), RunningFault>
where
    R: Net<Listener = TcpListener, Stream = TcpStream> + Threads + Wait + Clock + Sync,
    S: RandomSource,
    I: Read + Send,
    O: Write + Send,
    E: Write + Send,
{
    let Streams {
        reader,
        writer,
        err,
    } = streams;
    let agent = Agent::open_printing(rt, alloc, &options, source)?;
    let streams = Streams {
        reader: &mut *reader,
        writer: &mut *writer,
        err: &mut *err,
    };
    let node = AgentNode {
        rt,
        alloc,
        agent: &agent,
    };
    let console = agent.shared().console();
    run_threads(
        rt,
        &node,
        console,
        streams,
        told,
        ||
            requires { IsSync R.row }
        {
            // its outcome is asked for once all threads have ended
            let _ = agent.run();
        },
    )
}

/// Runs a node over loopback TCP until it ends: by the line `quit`, at the end of the input, or by
/// a fault. It founds a cluster, whose view is the first that it prints, or joins one by the
/// seed of its options. Without an identifier in its options it draws one from the source. Each
/// view that it enters prints a line. If `tick_ms` is above 0, a ticker also ticks it every
/// `tick_ms` milliseconds.
///
/// When it returns, all its threads have ended and its sockets are closed. What was queued for the
/// peers was sent as far as 0.3 seconds sufficed. It cannot return while a read or a write waits. A
/// call that fails as interrupted is made again until the node ends. So with `Polled` streams it
/// returns within a second of a fault or of `quit`, whatever its input and its outputs do.
///
/// # Errors
///
/// `NoPort` if the port could not be bound, and `NoIdentifier` if the source failed. `Read` and
/// `Write` if the input or the output failed. `Write` also if the output did not take what was
/// printed within half a second after the end. `JournalFull` and `Halted` by the node itself, and
/// `OutOfMemory`, also if a thread could not be started. Each is reported by one line of the error
/// output, `error: ` and the fault, as soon as it ends the node, whatever the input does. A fault
/// of the error output is ignored. Each `Note` is reported there within a second, after `note: `,
/// and so is a lack of file descriptors, after `warning: `.
pub fn run_node<R, S, I, O, E>(
    rt: &R,
    alloc: Global,
    options: NodeOptions,
    source: &S,
    streams: Streams<&mut I, &mut O, &mut E>,
) -> Result<(), RunningFault>
where
    R: Net<Listener = TcpListener, Stream = TcpStream> + Threads + Wait + Clock + Sync,
    S: RandomSource,
    I: Read + Send,
    O: Write + Send,
    E: Write + Send,
{
    let Streams {
        reader,
        writer,
        err,
    } = streams;
    let told = AtomicBool::new(false);
    let lent = Streams {
        reader: &mut *reader,
        writer: &mut *writer,
        err: &mut *err,
    };
    let ended = run(rt, alloc, options, source, lent, &told);
    if let Err(fault) = &ended
        && !told.load(Ordering::SeqCst)
    {
        tell_fault(*fault, err);
    }
    ended
}
