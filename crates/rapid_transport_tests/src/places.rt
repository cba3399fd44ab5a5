// The endpoints to which frames go, and by which connections.

use crate::peers::{Tally, none_asked, post_all, wait_for};
use crate::worked::PRE_JOIN;
use rapid_endpoint::Endpoint;
use rapid_transport::{Peers, is_local};
use std::alloc::{AllocError, Global};
use std::io::{self, ErrorKind, Read, Write};
use std::net::{Ipv4Addr, Net, SocketAddr, SocketAddrV4, TcpListener, TcpStream};
use std::process::Abort;
use std::sync::Wait;
use std::sync::atomic::{AtomicU64, Ordering};
use std::test::Fail;
use std::thread::{self, Threads};
use std::time::{Clock, Duration};

/// How many connections a sender keeps open at most.
const MOST: u16 = 64;

/// A port of the ephemeral range at which nobody listens. It is even, as those that the system
/// takes first.
const DEAD: u16 = 47_990;

/// How often a dead port is dialled: more often than there are ports that the system may take.
const TRIES: u64 = 40_000;

/// The host's network, threads and clock. It counts how often is dialled.
#[derive(Drop)]
struct Dialled<'a, R> {
    rt: &'a R,
    count: &'a AtomicU64,
}

impl<R> Net for Dialled<'_, R>
where
    R: Net<Listener = TcpListener, Stream = TcpStream>,
{
    type Stream = TcpStream;

    type Listener = TcpListener;

    fn bind(&self, addr: SocketAddr) -> io::Result<TcpListener> {
        self.rt.bind(addr)
    }

    fn connect(&self, addr: SocketAddr) -> io::Result<TcpStream> {
        self.count.fetch_add(1, Ordering::SeqCst);
        self.rt.connect(addr)
    }

    fn connect_timeout(&self, addr: SocketAddr, timeout: Duration) -> io::Result<TcpStream> {
        self.count.fetch_add(1, Ordering::SeqCst);
        self.rt.connect_timeout(addr, timeout)
    }
}

impl<R: Wait> Wait for Dialled<'_, R> {}

impl<R: Threads> Threads for Dialled<'_, R> {}

impl<R: Clock> Clock for Dialled<'_, R> {
    fn monotonic(&self) -> io::Result<Duration> {
        self.rt.monotonic()
    }

    fn since_1970(&self) -> io::Result<Duration> {
        self.rt.since_1970()
    }

    fn sleep(&self, duration: Duration) {
        self.rt.sleep(duration)
    }
}

/// Waits until this many frames were lost, for some seconds at most; whether they were.
fn wait_for_losses<R: Wait + Clock>(rt: &R, peers: &Peers, count: u64) -> bool {
    for _ in 0..4_000 {
        if peers.losses(rt) >= count {
            return true;
        }
        thread::sleep(rt, Duration::from_millis(5));
    }
    false
}

#[test]
fn what_is_local(rt: HostRuntime) {
    for (address, port, local) in [
        ([127, 0, 0, 1], 1, true),
        ([127, 255, 3, 4], 65_535, true),
        ([127, 0, 0, 1], 0, false),
        ([126, 0, 0, 1], 7_000, false),
        ([128, 0, 0, 1], 7_000, false),
        ([10, 0, 0, 1], 80, false),
        ([0, 0, 0, 0], 7_000, false),
    ] {
        assert_eq!(rt; is_local(Endpoint::new(address, port)), local);
    }
}

/// Posts frames to places that are not local, and waits until all were lost; whether they were.
fn post_elsewhere<R>(rt: &R, alloc: Global, peers: &Peers) -> bool
where
    R: Wait + Clock,
{
    let mut posted = true;
    for (address, port) in [
        ([10, 0, 0, 1], 80),
        ([127, 0, 0, 1], 0),
        ([192, 0, 2, 1], 22),
    ] {
        posted = posted && post_all(rt, alloc, peers, Endpoint::new(address, port), 1).is_ok();
    }
    posted && wait_for_losses(rt, peers, 3)
}

#[test]
fn nobody_elsewhere_is_dialled(rt: HostRuntime) -> Result<(), Fail> {
    let at = Endpoint::new([127, 0, 0, 1], 7_473);
    let (peers, ends) = Peers::listen(&rt, rt.alloc(), at)?;
    let tally = none_asked();
    let count = AtomicU64::new(0);
    let dialled = Dialled {
        rt: &rt,
        count: &count,
    };
    let (ran, (lost, dials)) = thread::join(
        &rt,
        || peers.run(&dialled, rt.alloc(), ends, &tally),
        || {
            let lost = post_elsewhere(&rt, rt.alloc(), &peers);
            let dials = count.load(Ordering::SeqCst);
            peers.stop(&rt);
            (lost, dials)
        },
    );
    assert!(rt; ran.is_ok());
    assert_eq!(rt; (lost, dials), (true, 0));
    let counters = peers.counters(&rt);
    assert_eq!(rt; (counters.frames_out, counters.losses), (0, 3));
    Ok(())
}

/// Posts frames to a dead port, no more at a time than a queue has room for, until all were lost.
/// Then stops the peers. The answer is whether they were lost.
fn post_to_dead<R>(rt: &R, alloc: Global, peers: &Peers) -> bool
where
    R: Net<Listener = TcpListener, Stream = TcpStream> + Wait + Clock,
{
    let dead = Endpoint::new([127, 0, 0, 1], DEAD);
    let mut lost = true;
    for round in 1..=TRIES / 4_000 {
        let posted = post_all(rt, alloc, peers, dead, 4_000).is_ok();
        lost = lost && posted && wait_for_losses(rt, peers, round.saturating_mul(4_000));
    }
    peers.stop(rt);
    lost
}

#[test]
fn a_connection_to_itself_is_given_up(rt: HostRuntime) -> Result<(), Fail> {
    let at = Endpoint::new([127, 0, 0, 1], 7_474);
    let (peers, ends) = Peers::listen(&rt, rt.alloc(), at)?;
    let tally = none_asked();
    let (ran, lost) = thread::join(
        &rt,
        || peers.run(&rt, rt.alloc(), ends, &tally),
        || post_to_dead(&rt, rt.alloc(), &peers),
    );
    assert!(rt; ran.is_ok() && lost);
    let counters = peers.counters(&rt);
    assert_eq!(rt; (counters.frames_out, counters.losses), (0, TRIES));
    Ok(())
}

/// Listens at this port.
fn listener<R>(rt: &R, port: u16) -> io::Result<TcpListener>
where
    R: Net<Listener = TcpListener, Stream = TcpStream>,
{
    let address = SocketAddrV4::new(Ipv4Addr::new(127, 0, 0, 1), port);
    let listener = TcpListener::bind(rt, SocketAddr::V4(address))?;
    listener.set_nonblocking(true)?;
    Ok(listener)
}

/// The next connection, which comes within some seconds.
fn accepted<R: Clock>(rt: &R, listener: &TcpListener) -> io::Result<TcpStream> {
    for _ in 0..1_000 {
        if let Ok((stream, _)) = listener.accept() {
            return Ok(stream);
        }
        thread::sleep(rt, Duration::from_millis(5));
    }
    Err(io::Error::from(ErrorKind::TimedOut))
}

/// Whether the worked frame comes by a connection.
fn has_frame(stream: &mut TcpStream) -> bool {
    let mut frame = [0; 29];
    let waits = stream.set_read_timeout(Some(Duration::from_secs(5)));
    waits.is_ok() && stream.read_exact(&mut frame).is_ok() && frame == PRE_JOIN
}

/// Whether the other end closes the connection within this time.
fn closes_within(stream: &mut TcpStream, time: Duration) -> bool {
    let waits = stream.set_read_timeout(Some(time));
    waits.is_ok() && matches!(stream.read(&mut [0; 8]), Ok(0))
}

/// Listeners at 65 ports of which all have the same sender, from this one on.
fn listeners<R>(rt: &R, alloc: Global, first: u16) -> io::Result<Vec<TcpListener>>
where
    R: Net<Listener = TcpListener, Stream = TcpStream>,
{
    let mut all = Vec::new(alloc);
    for number in 0..=MOST {
        let port = first.saturating_add(number.saturating_mul(4));
        all.push(listener(rt, port)?)?;
    }
    Ok(all)
}

/// Posts a frame to each of these listeners, one after the other, each when the one before has got
/// its own. The connections by which they came.
fn post_to_each<R: Wait + Clock>(
    rt: &R,
    alloc: Global,
    peers: &Peers,
    first: u16,
    listeners: &[TcpListener],
) -> io::Result<Vec<TcpStream>> {
    let mut streams = Vec::new(alloc);
    let mut port = first;
    for listener in listeners {
        let to = Endpoint::new([127, 0, 0, 1], port);
        if post_all(rt, alloc, peers, to, 1).is_err() {
            return Err(io::Error::from(ErrorKind::Other));
        }
        let mut stream = accepted(rt, listener)?;
        if !has_frame(&mut stream) {
            return Err(io::Error::from(ErrorKind::InvalidData));
        }
        streams.push(stream)?;
        port = port.saturating_add(4);
    }
    Ok(streams)
}

/// Which of these connections the other end has closed: the first, the second, the last.
fn ends_of(streams: &mut [TcpStream]) -> Option<(bool, bool, bool)> {
    let soon = Duration::from_millis(300);
    let first = closes_within(streams.first_mut()?, soon);
    let second = closes_within(streams.get_mut(1)?, soon);
    let last = closes_within(streams.last_mut()?, soon);
    Some((first, second, last))
}

/// Posts a frame to each of 65 listeners, and says which of the connections are closed then. Stops
/// the peers.
fn visit<R>(rt: &R, alloc: Global, peers: &Peers, first: u16) -> Option<(bool, bool, bool)>
where
    R: Net<Listener = TcpListener, Stream = TcpStream> + Wait + Clock,
{
    let streams = match listeners(rt, alloc, first) {
        Ok(listeners) => post_to_each(rt, alloc, peers, first, listeners.as_slice()),
        Err(error) => Err(error),
    };
    let ends = match streams {
        Ok(mut streams) => ends_of(&mut streams),
        Err(_) => None,
    };
    peers.stop(rt);
    ends
}

#[test]
fn a_65th_destination_closes_the_oldest_connection(rt: HostRuntime) -> Result<(), Fail> {
    let at = Endpoint::new([127, 0, 0, 1], 7_475);
    let (peers, ends) = Peers::listen(&rt, rt.alloc(), at)?;
    let tally = none_asked();
    let (ran, closed) = thread::join(
        &rt,
        || peers.run(&rt, rt.alloc(), ends, &tally),
        || visit(&rt, rt.alloc(), &peers, 7_601),
    );
    assert!(rt; ran.is_ok());
    assert_eq!(rt; closed, Some((true, false, false)));
    let counters = peers.counters(&rt);
    assert_eq!(rt; (counters.frames_out, counters.losses), (65, 0));
    Ok(())
}

/// What a peer does with a connection after its first frame.
#[derive(Clone, Copy, Debug, PartialEq, Eq)]
enum Peer {
    Closes,
    Answers,
}

/// Posts a frame to a peer, which closes the connection then or sends a byte back, and posts
/// another. Whether that one comes by a connection of its own. Stops the peers.
fn post_two<R>(
    rt: &R,
    alloc: Global,
    peers: &Peers,
    to: Endpoint,
    listener: &TcpListener,
    peer: Peer,
) -> io::Result<bool>
where
    R: Net<Listener = TcpListener, Stream = TcpStream> + Wait + Clock,
{
    let mut posted = post_all(rt, alloc, peers, to, 1).is_ok();
    let mut first = accepted(rt, listener)?;
    posted = posted && has_frame(&mut first);
    let kept = match peer {
        Peer::Closes => {
            drop(first);
            None
        }
        Peer::Answers => {
            first.write_all(&[0])?;
            Some(first)
        }
    };
    thread::sleep(rt, Duration::from_millis(20));
    posted = posted && post_all(rt, alloc, peers, to, 1).is_ok();
    let mut second = accepted(rt, listener)?;
    let came = has_frame(&mut second);
    drop(kept);
    Ok(posted && came)
}

/// The frames that were sent and lost by peers at this port, of two to a peer that does so, and
/// whether both came.
fn of_two<R>(rt: &R, alloc: Global, port: u16, peer: Peer) -> Option<(u64, u64, bool)>
where
    R: Net<Listener = TcpListener, Stream = TcpStream> + Threads + Wait + Clock + Sync,
{
    let at = Endpoint::new([127, 0, 0, 1], port);
    let to = Endpoint::new([127, 0, 0, 1], port.saturating_add(1));
    let listener = listener(rt, to.port()).ok()?;
    let (peers, ends) = Peers::listen(rt, alloc, at).ok()?;
    let tally = none_asked();
    let (_, came) = thread::join(
        rt,
        || peers.run(rt, alloc, ends, &tally),
        || {
            let came = post_two(rt, alloc, &peers, to, &listener, peer);
            peers.stop(rt);
            came.unwrap_or(false)
        },
    );
    let counters = peers.counters(rt);
    Some((counters.frames_out, counters.losses, came))
}

#[test]
fn a_connection_that_has_ended_is_not_written_to(rt: HostRuntime) {
    for (port, peer) in [(7_476, Peer::Closes), (7_478, Peer::Answers)] {
        let found = of_two(&rt, rt.alloc(), port, peer);
        assert_eq!(rt; found, Some((2, 0, true)), "at {peer:?}");
    }
}

/// Posts five frames to the peers themselves, each after a rest, and stops them; whether all came.
fn post_after_rests<R>(rt: &R, alloc: Global, peers: &Peers, at: Endpoint, tally: &Tally) -> bool
where
    R: Net<Listener = TcpListener, Stream = TcpStream> + Wait + Clock,
{
    let mut came = true;
    for number in 1..=5 {
        thread::sleep(rt, Duration::from_millis(100));
        came = came && post_all(rt, alloc, peers, at, 1).is_ok() && wait_for(rt, tally, number);
    }
    peers.stop(rt);
    came
}

#[test]
fn a_sender_that_rests_is_woken(rt: HostRuntime) -> Result<(), Fail> {
    let at = Endpoint::new([127, 0, 0, 1], 7_480);
    let (peers, ends) = Peers::listen(&rt, rt.alloc(), at)?;
    let tally = none_asked();
    let begun = std::time::Instant::now(&rt)?;
    let (ran, came) = thread::join(
        &rt,
        || peers.run(&rt, rt.alloc(), ends, &tally),
        || post_after_rests(&rt, rt.alloc(), &peers, at, &tally),
    );
    assert!(rt; ran.is_ok() && came);
    // a sender that is not woken looks at its queue once a second
    assert!(rt; begun.elapsed(&rt)? < Duration::from_secs(3));
    Ok(())
}
