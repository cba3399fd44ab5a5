// The outgoing connections of a sender.

ghost use Rattle.std.specs.Prelude.{◌≡◌, ◌≤◌, ◌<◌, vec_len, IfSome};
ghost use Rattle.rapid_model.specs.Limits.{most_connections};

use crate::counted::Metered;
use crate::counters::Meters;
use crate::engine::send;
use crate::local::is_local;
use crate::slow::SlowPeers;
use crate::timed::Timed;
use bytes::Bytes;
use rapid_endpoint::Endpoint;
use std::alloc::Global;
use std::io::{self, ErrorKind, Write};
use std::net::{Ipv4Addr, Net, SocketAddr, SocketAddrV4, TcpListener, TcpStream};
use std::time::{Clock, Duration};

/// How many connections a sender keeps open at most.
const MOST_CONNECTIONS: usize = 64;

/// How long connecting takes at most, in milliseconds.
const LONGEST_CONNECT: u64 = 100;

/// How long a write waits at most if there is no room, in milliseconds.
const LONGEST_WAIT: u64 = 50;

/// What became of a frame.
#[derive(Clone, Copy, Debug, PartialEq, Eq)]
enum Outcome {
    /// It was sent.
    Sent,
    /// There was no connection, or that has failed.
    Broken,
    /// The peer was too slow.
    Late,
}

/// An open connection, and the endpoint that it leads to.
#[derive(Drop)]
struct Connection {
    to: Endpoint,
    stream: TcpStream,
}

/// The open connections of a sender, at most 64, from the oldest on, and the peers that it leaves
/// alone.
#[derive(Drop)]
pub(crate) struct Connections {
    all: Vec<Connection>,
    slow: SlowPeers,
    ghost few: { vec_len all ≤ most_connections },
}

/// The address of an endpoint.
pub(crate) fn address_of(endpoint: Endpoint) -> SocketAddr {
    let address = Ipv4Addr::from_octets(endpoint.address());
    SocketAddr::V4(SocketAddrV4::new(address, endpoint.port()))
}

/// Opens a connection. It fails after 0.1 seconds, and a write fails after half of that without
/// room. If nobody listens at a port of the ephemeral range, the system may take that very port for
/// this end. Such a connection leads to itself and is given up at once, else the owner of the port
/// could not listen at it. It is closed with a byte that nobody has read, so it ends by a reset.
/// Otherwise Linux would hold the port for a minute more.
fn connect<R>(rt: &R, to: Endpoint) -> io::Result<TcpStream>
where
    R: Net<Listener = TcpListener, Stream = TcpStream>,
{
    let longest = Duration::from_millis(LONGEST_CONNECT);
    let mut stream = TcpStream::connect_timeout(rt, &address_of(to), longest)?;
    if stream.local_addr()? == stream.peer_addr()? {
        stream.write_all(&[0])?;
        return Err(io::Error::from(ErrorKind::ConnectionRefused));
    }
    // a frame is waited for, and the next may come much later
    stream.set_nodelay(true)?;
    stream.set_write_timeout(Some(Duration::from_millis(LONGEST_WAIT)))?;
    Ok(stream)
}

/// Linux's numbers of the errors that the system, and that a process, has as many open descriptors
/// as it may have.
const TOO_MANY_IN_SYSTEM: i32 = 23;

const TOO_MANY_OPEN: i32 = 24;

/// Whether there was no file descriptor.
pub(crate) fn is_exhausted(error: &io::Error) -> bool {
    matches!(
        error.raw_os_error(),
        Some(TOO_MANY_IN_SYSTEM | TOO_MANY_OPEN)
    )
}

/// Whether the peer has closed the connection. Nothing ever comes by an outgoing connection. So a
/// look at what there is to read finds nothing, or the connection has ended. A peer that sends
/// something back is none of ours.
fn is_closed(stream: &TcpStream) -> io::Result<bool> {
    stream.set_nonblocking(true)?;
    let found = stream.peek(&mut [0]);
    stream.set_nonblocking(false)?;
    match found {
        Ok(_) => Ok(true),
        Err(error) => Ok(error.kind() != ErrorKind::WouldBlock),
    }
}

impl Connections {
    /// No connection is open.
    pub(crate) fn new(alloc: Global) -> Connections {
        Connections {
            all: Vec::new(alloc),
            slow: SlowPeers::new(alloc),
        }
    }

    /// The place of the connection to this endpoint in the list.
    fn place(&self, to: Endpoint) -> Option<usize>
        ensures { IfSome result (λ place. place < vec_len self.now.all) }
    {
        self.all.iter().position(|connection| connection.to == to)
    }

    /// Closes the oldest connection if there is no room for another.
    fn make_room(&mut self)
        ensures { vec_len self.new.all < most_connections }
    {
        if self.all.len() >= MOST_CONNECTIONS {
            self.all.remove(0);
        }
    }

    /// Keeps a connection open, unless there is no memory for that.
    fn keep(&mut self, to: Endpoint, stream: TcpStream) {
        self.make_room();
        let _ = self.all.push(Connection { to, stream });
    }

    /// Sends a frame by the open connection to this endpoint, and closes the connection if that
    /// fails. None if no connection is open, or if the peer has closed it: a write would take the
    /// frame nevertheless, and it would be lost.
    fn send_by_open<R: Clock>(&mut self, rt: &R, to: Endpoint, frame: &Bytes) -> Option<Outcome> {
        let place = self.place(to)?;
        if is_closed(&self.all[place].stream).unwrap_or(true) {
            self.all.remove(place);
            return None;
        }
        let outcome = write(rt, &self.all[place].stream, frame);
        if outcome != Outcome::Sent {
            self.all.remove(place);
        }
        Some(outcome)
    }

    /// Sends a frame by a new connection to this endpoint, which stays open if that succeeds.
    fn send_by_new<R>(&mut self, rt: &R, to: Endpoint, frame: &Bytes, meters: &Meters) -> Outcome
    where
        R: Net<Listener = TcpListener, Stream = TcpStream> + Clock,
    {
        let stream = match connect(rt, to) {
            Ok(stream) => stream,
            Err(error) if error.kind() == ErrorKind::TimedOut => return Outcome::Late,
            Err(error) => {
                if is_exhausted(&error) {
                    meters.exhausted.raise();
                }
                return Outcome::Broken;
            }
        };
        let outcome = write(rt, &stream, frame);
        if outcome == Outcome::Sent {
            self.keep(to, stream);
        }
        outcome
    }

    /// Sends a frame to this endpoint, by the open connection or else by a new one. The answer says
    /// whether it was sent without a fault. If the open one fails, for example since somebody has
    /// cut it, all of the frame goes by a new one. The answer is false then. Nothing is sent to an
    /// endpoint that is not local. A peer that is too slow is left alone for a while: nothing is
    /// sent to it then.
    pub(crate) fn deliver<R>(
        &mut self,
        rt: &R,
        to: Endpoint,
        frame: &Bytes,
        meters: &Meters,
    ) -> bool
    where
        R: Net<Listener = TcpListener, Stream = TcpStream> + Clock,
    {
        if !is_local(to) || self.slow.has(rt, to) {
            return false;
        }
        let by_open = self.send_by_open(rt, to, frame);
        let outcome = match by_open {
            Some(Outcome::Sent) => Outcome::Sent,
            Some(Outcome::Late) => Outcome::Late,
            // of the first try the peer has a part at most, which ends within a frame, so the frame
            // comes only once
            Some(Outcome::Broken) | None => self.send_by_new(rt, to, frame, meters),
        };
        match outcome {
            Outcome::Sent => self.slow.forget(to),
            Outcome::Late => self.slow.add(rt, to),
            Outcome::Broken => {}
        }
        by_open != Some(Outcome::Broken) && outcome == Outcome::Sent
    }

    /// Closes the connections that their peers have closed.
    pub(crate) fn close_ended(&mut self) {
        self.all.retain(|connection| !is_closed(&connection.stream).unwrap_or(true));
    }
}

/// Writes a frame, within 0.1 seconds.
fn write<R: Clock>(rt: &R, stream: &TcpStream, frame: &Bytes) -> Outcome {
    let Ok(timed) = Timed::new(rt, stream) else {
        return Outcome::Broken;
    };
    let mut writer = Metered::new(timed);
    if send(&mut writer, frame).is_ok() {
        return Outcome::Sent;
    }
    if writer.stream().is_late() {
        Outcome::Late
    } else {
        Outcome::Broken
    }
}
