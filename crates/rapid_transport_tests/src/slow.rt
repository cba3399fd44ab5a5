// A peer that reads nothing.

use crate::peers::{Tally, none_asked, post_all, wait_for};
use bytes::Bytes;
use rapid_endpoint::Endpoint;
use rapid_transport::{Peers, TransportError};
use std::alloc::{AllocError, Global};
use std::io::{self, ErrorKind};
use std::net::{Ipv4Addr, Net, SocketAddr, SocketAddrV4, TcpListener, TcpStream};
use std::process::Abort;
use std::sync::Wait;
use std::test::Fail;
use std::thread;
use std::time::{Clock, Duration, Instant};

/// How many bytes a frame of the flood has.
const LARGE: usize = 60_000;

/// How many frames the flood has, far more than fit into the buffers of a connection.
const FLOOD: u64 = 1_000;

/// How long the frames to the other peer may take in all, in milliseconds.
const SOON: u64 = 800;

/// How long is waited until a peer is no longer left alone, in milliseconds.
const AFTER_THE_PAUSE: u64 = 1_200;

/// Listens at this port, and takes no connection in by itself.
fn deaf_listener<R>(rt: &R, port: u16) -> io::Result<TcpListener>
where
    R: Net<Listener = TcpListener, Stream = TcpStream>,
{
    let address = SocketAddrV4::new(Ipv4Addr::new(127, 0, 0, 1), port);
    let listener = TcpListener::bind(rt, SocketAddr::V4(address))?;
    listener.set_nonblocking(true)?;
    Ok(listener)
}

/// A frame of the flood.
fn large(alloc: Global) -> Result<Bytes, AllocError> {
    let mut bytes = Vec::new(alloc);
    bytes.resize(LARGE, 0)?;
    Bytes::copy_from_slice(alloc, bytes.as_slice())
}

/// Posts a frame to this endpoint this many times.
fn flood<R: Wait>(
    rt: &R,
    peers: &Peers,
    to: Endpoint,
    frame: &Bytes,
    count: u64,
) -> Result<(), TransportError> {
    for _ in 0..count {
        peers.post(rt, to, frame.clone()?)?;
    }
    Ok(())
}

/// The endpoints to which frames go.
#[derive(Clone, Copy)]
struct Targets {
    /// To the peers themselves.
    own: Endpoint,
    /// To a peer that reads nothing.
    deaf: Endpoint,
}

/// What became of the frames.
#[derive(Clone, Copy)]
struct Outcome {
    /// Those to the peers themselves came soon.
    soon: bool,
    /// How many were lost.
    losses: u64,
    /// The peer that reads nothing was connected to again.
    again: bool,
}

/// Floods a peer that reads nothing, and posts a hundred frames to the peers themselves, with more
/// for the other one before each of them.
fn post_to_both<R: Wait>(
    rt: &R,
    alloc: Global,
    peers: &Peers,
    to: Targets,
) -> Result<(), TransportError> {
    let frame = large(alloc)?;
    flood(rt, peers, to.deaf, &frame, FLOOD)?;
    for _ in 0..100 {
        flood(rt, peers, to.deaf, &frame, 1)?;
        post_all(rt, alloc, peers, to.own, 1)?;
    }
    Ok(())
}

/// Posts to both, and says whether the frames to the peers themselves came soon.
fn come_soon<R: Wait + Clock>(
    rt: &R,
    alloc: Global,
    peers: &Peers,
    to: Targets,
    tally: &Tally,
) -> bool {
    let Ok(begun) = Instant::now(rt) else {
        return false;
    };
    let posted = post_to_both(rt, alloc, peers, to).is_ok();
    let came = wait_for(rt, tally, 100);
    match begun.elapsed(rt) {
        Ok(spent) => posted && came && spent < Duration::from_millis(SOON),
        Err(_) => false,
    }
}

/// Waits until this many connections came, for some seconds at most; whether they did.
fn connects<R: Clock>(rt: &R, listener: &TcpListener, count: u32) -> bool {
    let mut left = count;
    for _ in 0..1_000 {
        if left == 0 {
            return true;
        }
        match listener.accept() {
            Ok(_) => left -= 1,
            Err(_) => thread::sleep(rt, Duration::from_millis(5)),
        }
    }
    false
}

/// Whether frames to the peers themselves come soon while another peer reads nothing. Frames to
/// that one are lost, and it is connected to again after it was left alone for a while. Stops the
/// peers.
fn is_patient<R>(
    rt: &R,
    alloc: Global,
    peers: &Peers,
    to: Targets,
    listener: &TcpListener,
    tally: &Tally,
) -> Outcome
where
    R: Net<Listener = TcpListener, Stream = TcpStream> + Wait + Clock,
{
    let soon = come_soon(rt, alloc, peers, to, tally);
    let losses = peers.losses(rt);
    thread::sleep(rt, Duration::from_millis(AFTER_THE_PAUSE));
    let posted = post_all(rt, alloc, peers, to.deaf, 1).is_ok();
    let again = posted && connects(rt, listener, 2);
    peers.stop(rt);
    Outcome {
        soon,
        losses,
        again,
    }
}

#[test]
fn a_peer_that_reads_nothing_delays_no_other(rt: HostRuntime) -> Result<(), Fail> {
    // both ports have the same sender
    let to = Targets {
        own: Endpoint::new([127, 0, 0, 1], 7_465),
        deaf: Endpoint::new([127, 0, 0, 1], 7_469),
    };
    let listener = deaf_listener(&rt, 7_469)?;
    let (peers, ends) = Peers::listen(&rt, rt.alloc(), to.own)?;
    let tally = none_asked();
    let (ran, came) = thread::join(
        &rt,
        || peers.run(&rt, rt.alloc(), ends, &tally),
        || is_patient(&rt, rt.alloc(), &peers, to, &listener, &tally),
    );
    assert!(rt; ran.is_ok() && came.soon && came.again);
    assert!(rt;
        0 < came.losses && came.losses <= FLOOD + 100,
        "lost {}",
        came.losses
    );
    Ok(())
}

/// Within how many milliseconds a peer that was too slow is connected to again. It takes some 50, but
/// the machine may be busy.
const AGAIN: u64 = 800;

/// Waits until a frame was lost, for some seconds at most; whether one was.
fn loses<R: Wait + Clock>(rt: &R, peers: &Peers) -> bool {
    for _ in 0..1_000 {
        if peers.losses(rt) > 0 {
            return true;
        }
        thread::sleep(rt, Duration::from_millis(5));
    }
    false
}

/// Posts a frame every ten milliseconds until a connection comes, for some seconds at most; whether
/// one does.
fn posts_until_it_comes<R: Wait + Clock>(
    rt: &R,
    alloc: Global,
    peers: &Peers,
    to: Endpoint,
    listener: &TcpListener,
) -> bool {
    for _ in 0..500 {
        if post_all(rt, alloc, peers, to, 1).is_err() {
            return false;
        }
        thread::sleep(rt, Duration::from_millis(10));
        if listener.accept().is_ok() {
            return true;
        }
    }
    false
}

/// Floods a peer that reads nothing, and then posts a frame for it now and then. How long it takes
/// from the first loss until the peer is connected to again. Stops the peers.
fn tried_again<R>(
    rt: &R,
    alloc: Global,
    peers: &Peers,
    to: Endpoint,
    listener: &TcpListener,
) -> io::Result<Duration>
where
    R: Net<Listener = TcpListener, Stream = TcpStream> + Wait + Clock,
{
    let frame = large(alloc)?;
    let flooded = flood(rt, peers, to, &frame, FLOOD).is_ok();
    let slow = flooded && loses(rt, peers);
    let begun = Instant::now(rt)?;
    // the connection of the flood, which the sender has given up
    let slow = slow && connects(rt, listener, 1);
    let again = slow && posts_until_it_comes(rt, alloc, peers, to, listener);
    let spent = begun.elapsed(rt);
    peers.stop(rt);
    if !again {
        return Err(io::Error::from(ErrorKind::TimedOut));
    }
    spent
}

#[test]
fn a_slow_peer_is_soon_tried_again(rt: HostRuntime) -> Result<(), Fail> {
    let deaf = Endpoint::new([127, 0, 0, 1], 7_505);
    let listener = deaf_listener(&rt, 7_505)?;
    let own = Endpoint::new([127, 0, 0, 1], 7_504);
    let (peers, ends) = Peers::listen(&rt, rt.alloc(), own)?;
    let tally = none_asked();
    let (ran, spent) = thread::join(
        &rt,
        || peers.run(&rt, rt.alloc(), ends, &tally),
        || tried_again(&rt, rt.alloc(), &peers, deaf, &listener),
    );
    assert!(rt; ran.is_ok());
    assert!(rt; spent? < Duration::from_millis(AGAIN));
    Ok(())
}
