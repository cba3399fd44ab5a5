// Peers over loopback TCP.

use crate::worked::{PRE_JOIN, asks_to_join};
use bytes::Bytes;
use rapid_endpoint::Endpoint;
use rapid_message::Message;
use rapid_transport::{Inbox, Peers, TransportError};
use std::alloc::Global;
use std::io::{self, Read, Write};
use std::net::{Ipv4Addr, Net, SocketAddr, SocketAddrV4, TcpListener, TcpStream};
use std::process::Abort;
use std::sync::Wait;
use std::sync::atomic::{AtomicU64, Ordering};
use std::test::Fail;
use std::thread;
use std::thread::Threads;
use std::time::{Clock, Duration};

/// Counts the messages in which the process with the number 2 asks to join.
#[derive(Drop)]
pub(crate) struct Tally {
    asked: AtomicU64,
}

impl<R: Wait> Inbox<R> for Tally {
    fn take(&self, _rt: &R, message: Message) {
        if asks_to_join(&message) {
            self.asked.fetch_add(1, Ordering::SeqCst);
        }
    }
}

/// Waits until this many messages came, for some seconds at most.
pub(crate) fn wait_for<R: Clock>(rt: &R, tally: &Tally, count: u64) -> bool {
    for _ in 0..1_000 {
        if tally.asked.load(Ordering::SeqCst) >= count {
            return true;
        }
        thread::sleep(rt, Duration::from_millis(5));
    }
    false
}

/// A connection to this port by which these bytes were written.
fn written<R>(rt: &R, port: u16, bytes: &[u8]) -> io::Result<TcpStream>
where
    R: Net<Listener = TcpListener, Stream = TcpStream>,
{
    let address = SocketAddrV4::new(Ipv4Addr::new(127, 0, 0, 1), port);
    let mut stream = TcpStream::connect(rt, SocketAddr::V4(address))?;
    stream.write_all(bytes)?;
    Ok(stream)
}

/// Whether the peer closes the connection.
fn is_closed(stream: &mut TcpStream) -> bool {
    let waits = stream.set_read_timeout(Some(Duration::from_secs(5)));
    waits.is_ok() && matches!(stream.read(&mut [0; 8]), Ok(0))
}

/// Posts this many frames that go to this endpoint.
pub(crate) fn post_all<R: Wait>(
    rt: &R,
    alloc: Global,
    peers: &Peers,
    to: Endpoint,
    count: u64,
) -> Result<(), TransportError> {
    let frame = Bytes::copy_from_slice(alloc, &PRE_JOIN)?;
    for _ in 0..count {
        peers.post(rt, to, frame.clone()?)?;
    }
    Ok(())
}

/// Nobody has asked to join yet.
pub(crate) fn none_asked() -> Tally {
    Tally {
        asked: AtomicU64::new(0),
    }
}

/// Posts a thousand frames to the peers themselves, and stops them when all came. Says whether they
/// did.
fn posts_to_itself<R>(rt: &R, alloc: Global, peers: &Peers, at: Endpoint, tally: &Tally) -> bool
where
    R: Net<Listener = TcpListener, Stream = TcpStream> + Wait + Clock,
{
    let posted = post_all(rt, alloc, peers, at, 1_000).is_ok();
    let came = wait_for(rt, tally, 1_000);
    peers.stop(rt);
    posted && came
}

#[test]
fn a_node_posts_to_itself(rt: HostRuntime) -> Result<(), Fail> {
    let at = Endpoint::new([127, 0, 0, 1], 7_461);
    let (peers, ends) = Peers::listen(&rt, rt.alloc(), at)?;
    let tally = none_asked();
    let (ran, came) = thread::join(
        &rt,
        || peers.run(&rt, rt.alloc(), ends, &tally),
        || posts_to_itself(&rt, rt.alloc(), &peers, at, &tally),
    );
    assert!(rt; ran.is_ok() && came);
    assert_eq!(rt; tally.asked.load(Ordering::SeqCst), 1_000);
    assert_eq!(rt; peers.losses(&rt), 0);
    Ok(())
}

/// Connects four times: by the connections come nothing, half a frame, a length that is too great,
/// and a frame. Stops the peers then, and says whether they closed the third and took the fourth.
fn pesters<R>(rt: &R, peers: &Peers, port: u16, tally: &Tally) -> bool
where
    R: Net<Listener = TcpListener, Stream = TcpStream> + Wait + Clock,
{
    let quiet = written(rt, port, &[]);
    let half = written(rt, port, &PRE_JOIN[..11]);
    let long = written(rt, port, &[0, 0x20, 0, 1]);
    let good = written(rt, port, &PRE_JOIN);
    let closed = match long {
        Ok(mut stream) => is_closed(&mut stream),
        Err(_) => false,
    };
    let came = wait_for(rt, tally, 1);
    peers.stop(rt);
    quiet.is_ok() && half.is_ok() && good.is_ok() && closed && came
}

#[test]
fn garbage_closes_its_connection_alone(rt: HostRuntime) -> Result<(), Fail> {
    let at = Endpoint::new([127, 0, 0, 1], 7_462);
    let (peers, ends) = Peers::listen(&rt, rt.alloc(), at)?;
    let tally = none_asked();
    let (ran, came) = thread::join(
        &rt,
        || peers.run(&rt, rt.alloc(), ends, &tally),
        || pesters(&rt, &peers, at.port(), &tally),
    );
    assert!(rt; ran.is_ok() && came);
    Ok(())
}

/// Waits until this many frames were lost, for some seconds at most, and stops the peers.
fn waits_for_losses<R>(rt: &R, peers: &Peers, count: u64)
where
    R: Net<Listener = TcpListener, Stream = TcpStream> + Wait + Clock,
{
    for _ in 0..1_000 {
        if peers.losses(rt) >= count {
            break;
        }
        thread::sleep(rt, Duration::from_millis(5));
    }
    peers.stop(rt);
}

#[test]
fn a_frame_to_nobody_is_lost(rt: HostRuntime) -> Result<(), Fail> {
    let at = Endpoint::new([127, 0, 0, 1], 7_463);
    let (peers, ends) = Peers::listen(&rt, rt.alloc(), at)?;
    let tally = none_asked();
    let nobody = Endpoint::new([127, 0, 0, 1], 7_464);
    post_all(&rt, rt.alloc(), &peers, nobody, 3)?;
    let (ran, _) = thread::join(
        &rt,
        || peers.run(&rt, rt.alloc(), ends, &tally),
        || waits_for_losses(&rt, &peers, 3),
    );
    assert!(rt; ran.is_ok());
    assert_eq!(rt; peers.losses(&rt), 3);
    Ok(())
}
