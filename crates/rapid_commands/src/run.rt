// What the words of the program have it do.

ghost use Rattle.std.specs.Prelude.{◌≡◌, ◌≢◌, ◌≤◌, ◌⊎◌, map, OnOk, OnErr};
ghost use Rattle.std.specs.IoError.{error_kind};
ghost use Rattle.std.specs.declared.io.ErrorKind.TheVariants.{OutOfMemory};
ghost use Rattle.rapid_words.specs.Asked.{AsksForHelp, CanRun, IsAsked};
ghost use Rattle.rapid_words.specs.Refused.{AreRefused};
ghost use Rattle.rapid_commands.specs.Invocations.{Wrote, WroteFront};
ghost use Rattle.rapid_commands.specs.NodeWords.{NamesNode, AreRefusedForNode};
ghost use Rattle.rapid_commands.specs.Statuses.{run_status};

use crate::node::{names_node, node_matches, run_as_node};
use rapid_cluster::{Crew, run_cluster};
use rapid_detect::run_detect;
use rapid_sim::run_sim;
use rapid_text::RunFault;
use rapid_words::{
    DONE, FAILED, Invocation, NO_MEMORY, REFUSED, invocation_of, matches_of, refuse, tell,
};
use std::alloc::Global;
use std::convert::AsStr;
use std::io;
use std::io::{Read, Write};
use std::net::{Net, TcpListener, TcpStream};
use std::random::RandomSource;
use std::sync::Wait;
use std::thread::Threads;
use std::time::Clock;

/// The status of a run.
fn status_of(ran: Result<(), RunFault>) -> u8
    ensures { result ≡ run_status ran }
{
    match ran {
        Ok(()) => DONE,
        Err(RunFault::Read | RunFault::Write) => FAILED,
        Err(RunFault::OutOfMemory) => NO_MEMORY,
    }
}

/// Runs a command over the input.
fn run_invocation<T: Threads + Wait + Sync, R: Read, O: Write>(
    rt: &T,
    alloc: Global,
    invocation: Invocation,
    reader: &mut R,
    out: &mut O,
) -> Result<(), RunFault>
    requires { CanRun invocation }
    ensures written { OnOk result (Wrote invocation (R.remaining reader.old) (O.contents out.old) (O.contents out.new)) }
    ensures begun { OnErr result (WroteFront invocation (R.remaining reader.old) (O.contents out.old) (O.contents out.new)) }
{
    match invocation {
        Invocation::Detect => run_detect(alloc, reader, out),
        Invocation::Sim => {
            run_sim(alloc, reader, out)?;
            Ok(())
        }
        Invocation::Cluster(setting) => run_cluster(
            rt,
            alloc,
            out,
            setting.params,
            setting.nodes,
            Crew {
                workers: usize::from(setting.workers),
                turns: usize::from(setting.turns),
            },
        ),
    }
}

/// Runs a command over the input, and reports a fault. If the status is 0, what the input prints
/// was written, and nothing else; otherwise a beginning of that was.
fn run<T: Threads + Wait + Sync, R: Read, O: Write, E: Write>(
    rt: &T,
    alloc: Global,
    invocation: Invocation,
    reader: &mut R,
    out: &mut O,
    err: &mut E,
) -> u8
    requires { CanRun invocation }
    ensures written { result ≡ 0 → Wrote invocation (R.remaining reader.old) (O.contents out.old) (O.contents out.new) }
    ensures begun { result ≢ 0 → WroteFront invocation (R.remaining reader.old) (O.contents out.old) (O.contents out.new) }
    ensures status { result ≤ 3 }
    ensures taken { result ≢ 2 }
{
    let ran = run_invocation(rt, alloc, invocation, reader, out);
    if let Err(fault) = &ran {
        let _ = writeln!(err, "error: {fault}");
    }
    status_of(ran)
}

/// The status if the arguments of the program could not be read: 3 if out of memory, else 2.
pub fn without_words<E: Write>(error: &io::Error, err: &mut E) -> u8
    ensures memory { error_kind error.now ≡ OutOfMemory → result ≡ 3 }
    ensures other { error_kind error.now ≢ OutOfMemory → result ≡ 2 }
{
    let _ = writeln!(err, "error: {error}");
    match error.kind() {
        io::ErrorKind::OutOfMemory => NO_MEMORY,
        _ => REFUSED,
    }
}

/// Runs a node as the words of the program ask, and answers the status.
fn run_node_words<T, S, R, O, E>(
    rt: &T,
    alloc: Global,
    words: &[S],
    reader: &mut R,
    out: &mut O,
    err: &mut E,
) -> u8
where
    T: Net<Listener = TcpListener, Stream = TcpStream>
        + Threads
        + Wait
        + Clock
        + RandomSource
        + Sync,
    S: AsStr,
    R: Read + Send,
    O: Write + Send,
    E: Write + Send,
    ensures refused { result ≡ 2 → out.new ≡ out.old }
    ensures fault { result ≡ 2 → AreRefusedForNode (map S.text words.now) }
    ensures status { result ≤ 3 }
{
    match matches_of(alloc, words) {
        Err(error) => tell(&error, words, out, err),
        Ok(matches) => match node_matches(&matches) {
            Some(asked) => run_as_node(rt, alloc, asked, reader, out, err),
            None => refuse(&matches, err),
        },
    }
}

/// Does what the words ask for, of which the first is the program's name. The answer is the status.
/// If it is 0, what the input prints by the command that the words name, with its options, was
/// written, and nothing else. Or the words ask for help or the version, and the input was not read.
/// If it is 1, a beginning of that was written, or help or the version could not be written. If it
/// is 2, the words are refused, and nothing was written. If it is 3, a beginning of what the input
/// prints by the command that the words name was written, or nothing. What `node` writes is not
/// promised, unless its words are refused.
pub fn run_words<T, S, R, O, E>(
    rt: &T,
    alloc: Global,
    words: &[S],
    reader: &mut R,
    out: &mut O,
    err: &mut E,
) -> u8
where
    T: Net<Listener = TcpListener, Stream = TcpStream>
        + Threads
        + Wait
        + Clock
        + RandomSource
        + Sync,
    S: AsStr,
    R: Read + Send,
    O: Write + Send,
    E: Write + Send,
    ensures written { result ≡ 0 → NamesNode S.text words.now ⊎
        ((invocation : Invocation) × IsAsked (map S.text words.now) invocation × Wrote invocation (R.remaining reader.old) (O.contents out.old) (O.contents out.new)) ⊎
        ((reader.new ≡ reader.old) × AsksForHelp (map S.text words.now)) }
    ensures failed { result ≡ 1 → NamesNode S.text words.now ⊎
        ((invocation : Invocation) × IsAsked (map S.text words.now) invocation × WroteFront invocation (R.remaining reader.old) (O.contents out.old) (O.contents out.new)) ⊎
        ((reader.new ≡ reader.old) × AsksForHelp (map S.text words.now)) }
    ensures refused { result ≡ 2 → out.new ≡ out.old }
    ensures fault { result ≡ 2 → NamesNode S.text words.now ⊎ AreRefused (map S.text words.now) }
    ensures node { result ≡ 2 → NamesNode S.text words.now → AreRefusedForNode (map S.text words.now) }
    ensures memory { result ≡ 3 → NamesNode S.text words.now ⊎
        ((invocation : Invocation) × IsAsked (map S.text words.now) invocation × WroteFront invocation (R.remaining reader.old) (O.contents out.old) (O.contents out.new)) ⊎
        (out.new ≡ out.old) }
    ensures status { result ≤ 3 }
{
    if names_node(words) {
        return run_node_words(rt, alloc, words, reader, out, err);
    }
    match matches_of(alloc, words) {
        Err(error) => tell(&error, words, out, err),
        Ok(matches) => match invocation_of(&matches) {
            Some(invocation) => run(rt, alloc, invocation, reader, out, err),
            None => refuse(&matches, err),
        },
    }
}
