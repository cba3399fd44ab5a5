// Frames that claim a sender at which no peer can be.

use crate::running::rows::{At, ran};
use rapid_config::{Configuration, Params};
use rapid_endpoint::{Endpoint, Process, ProcessId, SharedProcess};
use rapid_message::{Body, Message};
use rapid_run::Polled;
use rapid_service::RunningFault;
use rapid_wire::encode;
use std::alloc::Global;
use std::io::{self, ErrorKind, Write};
use std::net::{Ipv4Addr, Net, SocketAddr, SocketAddrV4, TcpListener, TcpStream};
use std::process::Abort;
use std::random::RandomSource;
use std::rt::Files;
use std::sync::Wait;
use std::test::Fail;
use std::thread::{self, Threads};
use std::time::{Clock, Duration};

/// How often is tried to connect, or looked whether a connection came, and how long is waited
/// between, in milliseconds.
const LOOKS: u32 = 1_000;

const BETWEEN_LOOKS: u64 = 5;

/// How many rings the node has.
const RINGS: u8 = 10;

/// The process of this number at this endpoint.
fn process(number: u8, endpoint: Endpoint) -> Process {
    let id = [0, 0, 0, 0, 0, 0, 0, 0, 0, 0, 0, 0, 0, 0, 0, number];
    Process::new(ProcessId::new(id), endpoint)
}

/// The bytes by which process 2 at this endpoint asks the founder at this port on each ring to let
/// it in. Then process 3 asks whether it may join, which is answered.
fn requests(alloc: Global, port: u16, joiner: Endpoint, last: Endpoint) -> Result<Vec<u8>, Fail> {
    let me = process(1, Endpoint::new([127, 0, 0, 1], port));
    let founding = Configuration::seed(alloc, Params::new(RINGS, 9, 3)?, &[me])?;
    let mut bytes = Vec::new(alloc);
    let asking = SharedProcess::new(alloc, &process(2, joiner))?;
    for ring in 0..RINGS {
        let request = Body::JoinRequest(founding.id(), ring);
        let request = Message::new(asking.share()?, request)?;
        bytes.extend_from_slice(encode(alloc, &request)?.as_slice())?;
    }
    let last = SharedProcess::new(alloc, &process(3, last))?;
    let question = Message::new(last, Body::PreJoin)?;
    bytes.extend_from_slice(encode(alloc, &question)?.as_slice())?;
    Ok(bytes)
}

/// The address of this port.
fn address(port: u16) -> SocketAddr {
    SocketAddr::V4(SocketAddrV4::new(Ipv4Addr::new(127, 0, 0, 1), port))
}

/// Writes these bytes to the node at this port, once it listens.
fn send<R>(rt: &R, port: u16, bytes: &[u8]) -> io::Result<TcpStream>
where
    R: Net<Listener = TcpListener, Stream = TcpStream> + Clock,
{
    for _ in 0..LOOKS {
        if let Ok(mut stream) = TcpStream::connect(rt, address(port)) {
            stream.write_all(bytes)?;
            return Ok(stream);
        }
        thread::sleep(rt, Duration::from_millis(BETWEEN_LOOKS));
    }
    Err(io::Error::from(ErrorKind::TimedOut))
}

/// Waits until somebody connects, for some seconds at most; whether somebody does.
fn is_answered<R: Clock>(rt: &R, listener: &TcpListener) -> bool {
    for _ in 0..LOOKS {
        if listener.accept().is_ok() {
            return true;
        }
        thread::sleep(rt, Duration::from_millis(BETWEEN_LOOKS));
    }
    false
}

/// Runs a founder at this port, to which these bytes are written. When it has answered the last of
/// them its lines are typed: some ticks, `view` and `quit`. How it ends, and what it prints; an
/// error if it has not answered.
fn asked<R>(
    rt: &R,
    alloc: Global,
    port: u16,
    bytes: &[u8],
    answers: &TcpListener,
) -> io::Result<(Result<(), RunningFault>, Vec<u8>)>
where
    R: Net<Listener = TcpListener, Stream = TcpStream>
        + Threads
        + Wait
        + Clock
        + RandomSource
        + Files
        + Sync,
{
    let (reader, mut typed) = io::pipe(rt)?;
    let mut input = Polled::new(reader);
    let mut printed = Vec::new(alloc);
    let mut err = Vec::new(alloc);
    let (ended, answered) = thread::join(
        rt,
        || {
            let at = At { port, seed: None };
            ran(rt, alloc, at, &mut input, &mut printed, &mut err)
        },
        || {
            let sent = send(rt, port, bytes);
            let answered = sent.is_ok() && is_answered(rt, answers);
            let _ = typed.write_all(b"tick 3\nview\nquit\n");
            answered
        },
    );
    if !answered {
        return Err(io::Error::from(ErrorKind::TimedOut));
    }
    Ok((ended, printed))
}

/// Where the process is that asks the founder at port 7501 to let it in, and what the founder prints.
const ROWS: [([u8; 4], u16, &[u8]); 4] = [
    (
        [127, 0, 0, 1],
        7_503,
        b"height 0 members 127.0.0.1:7501\nheight 1 members 127.0.0.1:7501 127.0.0.1:7503\nheight 1 members 127.0.0.1:7501 127.0.0.1:7503\n",
    ),
    (
        [10, 0, 0, 1],
        7_503,
        b"height 0 members 127.0.0.1:7501\nheight 0 members 127.0.0.1:7501\n",
    ),
    (
        [0, 0, 0, 0],
        7_503,
        b"height 0 members 127.0.0.1:7501\nheight 0 members 127.0.0.1:7501\n",
    ),
    (
        [127, 0, 0, 1],
        0,
        b"height 0 members 127.0.0.1:7501\nheight 0 members 127.0.0.1:7501\n",
    ),
];

#[test]
fn nobody_elsewhere_is_let_in(rt: HostRuntime) -> Result<(), Fail> {
    let answers = TcpListener::bind(&rt, address(7_502))?;
    answers.set_nonblocking(true)?;
    let last = Endpoint::new([127, 0, 0, 1], 7_502);
    for (host, port, wanted) in &ROWS {
        let joiner = Endpoint::new(*host, *port);
        let bytes = requests(rt.alloc(), 7_501, joiner, last)?;
        let (ended, printed) = asked(&rt, rt.alloc(), 7_501, bytes.as_slice(), &answers)?;
        assert_eq!(rt; ended, Ok(()), "at {joiner}");
        assert_eq!(rt; printed.as_slice(), *wanted, "at {joiner}");
    }
    Ok(())
}
