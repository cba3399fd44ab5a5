// Incoming connections that are silent, stop within a frame, or are too many.

use crate::peers::{Tally, none_asked, wait_for};
use crate::worked::PRE_JOIN;
use rapid_endpoint::Endpoint;
use rapid_transport::{Counters, Peers};
use std::alloc::{AllocError, Global};
use std::io::{self, Read, Write};
use std::net::{Ipv4Addr, Net, SocketAddr, SocketAddrV4, TcpListener, TcpStream};
use std::process::Abort;
use std::sync::Wait;
use std::test::Fail;
use std::thread;
use std::time::{Clock, Duration, Instant};

/// How many connections are read at most.
const MOST: usize = 256;

/// How long a frame may take, and by how much less or more a reader may be found to wait, in
/// milliseconds.
const PATIENCE: u64 = 5_000;

const EARLIER: u64 = 500;

const LATER: u64 = 3_000;

/// A connection to this port by which these bytes were written.
fn written<R>(rt: &R, port: u16, bytes: &[u8]) -> io::Result<TcpStream>
where
    R: Net<Listener = TcpListener, Stream = TcpStream>,
{
    let address = SocketAddrV4::new(Ipv4Addr::new(127, 0, 0, 1), port);
    let mut stream = TcpStream::connect(rt, SocketAddr::V4(address))?;
    stream.write_all(bytes)?;
    Ok(stream)
}

/// Whether the other end closes the connection within this time.
fn closes_within(stream: &mut TcpStream, time: Duration) -> bool {
    let waits = stream.set_read_timeout(Some(time));
    waits.is_ok() && matches!(stream.read(&mut [0; 8]), Ok(0))
}

/// This many silent connections to this port; fewer if one could not be opened.
fn silent<R>(rt: &R, alloc: Global, port: u16, count: usize) -> Result<Vec<TcpStream>, AllocError>
where
    R: Net<Listener = TcpListener, Stream = TcpStream>,
{
    let mut all = Vec::new(alloc);
    for _ in 0..count {
        if let Ok(stream) = written(rt, port, &[]) {
            all.push(stream)?;
        }
    }
    Ok(all)
}

/// Waits until this many connections were closed since they were late, for ten seconds at most;
/// whether they were.
fn come_late<R: Wait + Clock>(rt: &R, peers: &Peers, count: u64) -> bool {
    for _ in 0..1_000 {
        if peers.counters(rt).late >= count {
            return true;
        }
        thread::sleep(rt, Duration::from_millis(10));
    }
    false
}

/// What was found of the peers to which 257 connections were open.
#[derive(Clone, Copy, Debug, PartialEq, Eq)]
struct Found {
    /// How many connections could be opened before one more.
    opened: usize,
    /// Whether one more was closed at once.
    one_more_closed: bool,
    /// Whether the silent ones were closed later on.
    came_late: bool,
    /// Whether a frame came by a connection that was opened after that.
    came: bool,
}

/// Opens as many silent connections as are read, and one more, and sends a frame when those were
/// closed. Stops the peers then.
fn crowd<R>(rt: &R, alloc: Global, peers: &Peers, port: u16, tally: &Tally) -> Found
where
    R: Net<Listener = TcpListener, Stream = TcpStream> + Wait + Clock,
{
    let crowd = silent(rt, alloc, port, MOST);
    let one_more_closed = match written(rt, port, &[]) {
        Ok(mut stream) => closes_within(&mut stream, Duration::from_millis(EARLIER)),
        Err(_) => false,
    };
    let came_late = come_late(rt, peers, 256);
    let later = written(rt, port, &PRE_JOIN);
    let came = later.is_ok() && wait_for(rt, tally, 1);
    peers.stop(rt);
    Found {
        opened: crowd.map_or(0, |streams| streams.len()),
        one_more_closed,
        came_late,
        came,
    }
}

#[test]
fn one_connection_more_is_closed_at_once(rt: HostRuntime) -> Result<(), Fail> {
    let at = Endpoint::new([127, 0, 0, 1], 7_471);
    let (peers, ends) = Peers::listen(&rt, rt.alloc(), at)?;
    let tally = none_asked();
    let (ran, found) = thread::join(
        &rt,
        || peers.run(&rt, rt.alloc(), ends, &tally),
        || crowd(&rt, rt.alloc(), &peers, at.port(), &tally),
    );
    assert!(rt; ran.is_ok());
    assert_eq!(rt;
        found,
        Found {
            opened: MOST,
            one_more_closed: true,
            came_late: true,
            came: true
        }
    );
    assert_eq!(rt;
        peers.counters(&rt),
        Counters {
            frames_in: 1,
            frames_out: 0,
            losses: 0,
            wire_faults: 0,
            refused: 1,
            late: 256,
            exhausted: 0
        }
    );
    Ok(())
}

/// How long it takes until the other end closes a connection by which a frame and a half came.
fn half<R>(rt: &R, port: u16) -> io::Result<Duration>
where
    R: Net<Listener = TcpListener, Stream = TcpStream> + Clock,
{
    let mut stream = written(rt, port, &PRE_JOIN)?;
    stream.write_all(&PRE_JOIN[..11])?;
    let begun = Instant::now(rt)?;
    if !closes_within(&mut stream, Duration::from_secs(20)) {
        return Err(io::Error::from(io::ErrorKind::TimedOut));
    }
    begun.elapsed(rt)
}

/// Sends frames by a connection that is silent between them for longer than a frame may take. One
/// of them comes in two pieces. Another connection stops within a frame meanwhile. Whether that
/// other was closed in time, and all frames came. Stops the peers then.
fn pause<R>(rt: &R, peers: &Peers, port: u16, tally: &Tally) -> bool
where
    R: Net<Listener = TcpListener, Stream = TcpStream> + Wait + Clock,
{
    let quiet = written(rt, port, &PRE_JOIN);
    let spent = half(rt, port);
    let came = match quiet {
        Ok(mut stream) => {
            let first = stream.write_all(&PRE_JOIN[..11]).is_ok();
            thread::sleep(rt, Duration::from_millis(100));
            first && stream.write_all(&PRE_JOIN[11..]).is_ok() && wait_for(rt, tally, 3)
        }
        Err(_) => false,
    };
    peers.stop(rt);
    match spent {
        Ok(spent) => {
            came && spent >= Duration::from_millis(PATIENCE - EARLIER)
                && spent <= Duration::from_millis(PATIENCE + LATER)
        }
        Err(_) => false,
    }
}

#[test]
fn a_half_frame_held_open_is_ended(rt: HostRuntime) -> Result<(), Fail> {
    let at = Endpoint::new([127, 0, 0, 1], 7_472);
    let (peers, ends) = Peers::listen(&rt, rt.alloc(), at)?;
    let tally = none_asked();
    let (ran, ended) = thread::join(
        &rt,
        || peers.run(&rt, rt.alloc(), ends, &tally),
        || pause(&rt, &peers, at.port(), &tally),
    );
    assert!(rt; ran.is_ok() && ended);
    let counters = peers.counters(&rt);
    assert_eq!(rt; (counters.frames_in, counters.late), (3, 1));
    Ok(())
}
