// A node for which there are too few file descriptors.

use crate::running::rows::{At, ran};
use rapid_run::Polled;
use rapid_service::RunningFault;
use std::alloc::Global;
use std::io::{self, Write};
use std::net::{Ipv4Addr, Net, SocketAddr, SocketAddrV4, TcpListener, TcpStream};
use std::process::Abort;
use std::random::RandomSource;
use std::rt::Files;
use std::sync::Wait;
use std::test::Fail;
use std::thread::{self, Threads};
use std::time::{Clock, Duration, Instant};

/// More file descriptors than a process may have open.
const ALL: u32 = 1_100_000;

/// After how many milliseconds the node is told to end, and within how many it does.
const BEFORE_QUIT: u64 = 300;

const SOON: u64 = 2_500;

/// What is reported if there are too few.
const WARNING: &[u8] =
    b"warning: no file descriptor was left for a connection: messages are lost\n";

/// Takes all file descriptors but this many.
fn hoard<R>(rt: &R, alloc: Global, port: u16, left: usize) -> io::Result<Vec<TcpListener>>
where
    R: Net<Listener = TcpListener, Stream = TcpStream>,
{
    let address = SocketAddrV4::new(Ipv4Addr::new(127, 0, 0, 1), port);
    let listener = TcpListener::bind(rt, SocketAddr::V4(address))?;
    let mut all = Vec::new(alloc);
    for _ in 0..ALL {
        match listener.try_clone() {
            Ok(handle) => all.push(handle)?,
            Err(_) => break,
        }
    }
    all.push(listener)?;
    for _ in 0..left {
        all.swap_remove(0);
    }
    Ok(all)
}

/// Runs a node at this port for which there are this many file descriptors. How it ends, what it
/// reports, and whether it ends soon.
fn among<R>(
    rt: &R,
    alloc: Global,
    port: u16,
    left: usize,
) -> io::Result<(Result<(), RunningFault>, Vec<u8>, bool)>
where
    R: Net<Listener = TcpListener, Stream = TcpStream>
        + Threads
        + Wait
        + Clock
        + RandomSource
        + Files
        + Sync,
{
    let (reader, mut typed) = io::pipe(rt)?;
    let hoard = hoard(rt, alloc, port.saturating_add(1), left)?;
    let mut printed = Vec::new(alloc);
    let mut err = Vec::new(alloc);
    let mut input = Polled::new(reader);
    let begun = Instant::now(rt)?;
    let (ended, _) = thread::join(
        rt,
        || ran(
            rt,
            alloc,
            At { port, seed: None },
            &mut input,
            &mut printed,
            &mut err,
        ),
        || {
            thread::sleep(rt, Duration::from_millis(BEFORE_QUIT));
            typed.write_all(b"quit\n")
        },
    );
    let spent = begun.elapsed(rt)?;
    drop(hoard);
    Ok((ended, err, spent < Duration::from_millis(SOON)))
}

/// With how many descriptors a node ends in which way, and what it reports: the listener takes one,
/// and another accepts a connection.
const ROWS: [(usize, Result<(), RunningFault>, &[u8]); 3] = [
    (
        0,
        Err(RunningFault::NoPort),
        b"error: the port cannot be bound\n",
    ),
    (1, Ok(()), WARNING),
    (2, Ok(()), b""),
];

#[test]
fn a_node_with_few_descriptors_ends(rt: HostRuntime) -> Result<(), Fail> {
    let mut port = 7_485;
    for (left, wanted, told) in &ROWS {
        let (ended, err, soon) = among(&rt, rt.alloc(), port, *left)?;
        assert_eq!(rt; (ended, soon), (*wanted, true), "with {left}");
        assert_eq!(rt; err.as_slice(), *told, "with {left}");
        port = port.saturating_add(2);
    }
    Ok(())
}
