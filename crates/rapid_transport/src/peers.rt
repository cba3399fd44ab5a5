// The peers of a node: it listens to them, reads what they send, and sends to them.

ghost use Rattle.std.specs.Prelude.{◌≡◌, ◌+◌, ◌≤◌, ◌<◌, [], All, vec_len, IfErr, IfOk, OnOk};
ghost use Rattle.rapid_transport.specs.Queues.{IsUnused};
ghost use Rattle.rapid_transport.specs.declared.error.TransportError.TheVariants.{QueueFull};
ghost use Rattle.rapid_transport.specs.declared.error.ListenError.TheVariants as listen;

use crate::connections::{address_of, is_exhausted};
use crate::counted::Metered;
use crate::counters::{Counters, Meters};
use crate::engine::receive;
use crate::error::{ListenError, TransportError};
use crate::inbox::Inbox;
use crate::patient::Patient;
use crate::queue::{SenderEnd, SenderQueue};
use crate::readers::Readers;
use crate::sender::{self, SenderContext};
use bytes::Bytes;
use libc::net::{SHUT_RDWR, shutdown};
use rapid_endpoint::Endpoint;
use rapid_wire::Feed;
use std::alloc::{AllocError, Global};
use std::net::{Net, TcpListener, TcpStream};
use std::os::fd::AsRawFd;
use std::sync::atomic::{AtomicBool, Ordering};
use std::sync::{Mutex, Wait};
use std::thread::{Parker, Scope, Threads};
use std::time::{Clock, Duration};
use std::{io, thread};

/// How many senders there are, each with a queue of its own. A peer that takes nothing holds up only
/// those that go by the same sender.
const SENDERS: u16 = 4;

/// How many frames a sender's queue has room for.
const CAPACITY: usize = 4_096;

/// How long the acceptor waits after a connection could not be accepted, in milliseconds, so that it
/// does not spin while there is no descriptor.
const AFTER_A_FAULT: u64 = 50;

/// The queue of a sender, and what wakes it if there is a frame in it.
#[derive(Drop)]
struct Lane {
    queue: Mutex<SenderQueue>,
    parker: Parker,
}

/// The peers of a node: a listener, the incoming connections, and the senders' queues. It is shared
/// by reference among the threads of a node.
#[derive(Drop)]
pub struct Peers {
    listener: TcpListener,
    lanes: [Lane; 4],
    readers: Mutex<Readers>,
    meters: Meters,
    stop: AtomicBool,
}

/// A queue behind a lock, and the end that takes.
fn make_lane(alloc: Global, ends: &mut Vec<SenderEnd>) -> Result<Lane, AllocError>
    requires { All IsUnused ends.old.items }
    ensures one_more { OnOk result (vec_len ends.new ≡ vec_len ends.old + 1) }
    ensures unused { OnOk result (All IsUnused ends.new.items) }
{
    let (queue, end) = SenderQueue::new(alloc, CAPACITY)?;
    ends.push(end)?;
    Ok(Lane {
        queue: Mutex::new(queue),
        parker: Parker::new(),
    })
}

/// Reads messages and gives them to the inbox, until the connection ends or fails, or a frame takes
/// too long.
fn read_all<R, I>(rt: &R, alloc: Global, stream: &TcpStream, inbox: &I, meters: &Meters)
where
    R: Wait + Clock,
    I: Inbox<R>,
{
    let Ok(mut patient) = Patient::new(rt, stream) else {
        return;
    };
    let mut feed = Feed::new(alloc);
    for _ in rt.forever() {
        let mut reader = Metered::new(&mut patient);
        match receive(rt, &mut reader, &mut feed) {
            Ok(Some(message)) => {
                meters.frames_in.raise();
                inbox.take(rt, message);
            }
            Ok(None) => return,
            Err(error) => return meters.failed(error, patient.is_late()),
        }
        patient.end_frame(!feed.is_empty());
    }
}

impl Peers {
    /// Listens at the endpoint, and makes the senders' queues. No thread runs yet; connections wait
    /// until `run`. The second answer is for `run`: the ends of the four queues, all of them empty.
    ///
    /// # Errors
    ///
    /// `NoPort` if the port could not be bound, and `OutOfMemory`.
    pub fn listen<R>(
        rt: &R,
        alloc: Global,
        at: Endpoint,
    ) -> Result<(Peers, Vec<SenderEnd>), ListenError>
    where
        R: Net<Listener = TcpListener, Stream = TcpStream>,
        ensures ends { IfOk result (λ made. (vec_len made.1 ≡ 4) × All IsUnused made.1.items) }
    {
        let Ok(listener) = TcpListener::bind(rt, address_of(at)) else {
            return Err(ListenError::NoPort);
        };
        let mut ends = Vec::new(alloc);
        let lanes = [
            make_lane(alloc, &mut ends)?,
            make_lane(alloc, &mut ends)?,
            make_lane(alloc, &mut ends)?,
            make_lane(alloc, &mut ends)?,
        ];
        let peers = Peers {
            listener,
            lanes,
            readers: Mutex::new(Readers::new(alloc)),
            meters: Meters::new(),
            stop: AtomicBool::new(false),
        };
        Ok((peers, ends))
    }

    /// Puts a frame that goes to this endpoint into the queue whose number is the port modulo 4.
    ///
    /// # Errors
    ///
    /// `QueueFull` if there was no room: the frame is dropped, and counted as a loss.
    pub fn post<R: Wait>(&self, rt: &R, to: Endpoint, frame: Bytes) -> Result<(), TransportError>
        ensures { IfErr result (λ e. e ≡ QueueFull) }
    {
        let number = usize::from(to.port() % SENDERS);
        let lane = &self.lanes[number];
        let put = lane.queue.lock(rt).put(rt, to, frame);
        lane.parker.unpark();
        put
    }

    /// How many frames were lost: those that found a queue full, and those that could not be sent.
    /// The count goes no further than 2^64 - 1.
    pub fn losses<R: Wait>(&self, rt: &R) -> u64 {
        let mut losses = 0u64;
        for lane in &self.lanes {
            losses = losses.saturating_add(lane.queue.lock(rt).losses());
        }
        losses
    }

    /// What was done so far. Threads go on meanwhile, so the numbers are not of one moment.
    pub fn counters<R: Wait>(&self, rt: &R) -> Counters {
        self.meters.with_losses(self.losses(rt))
    }

    /// What the sender of a lane shares with the other threads.
    fn context<'a>(&'a self, lane: &'a Lane) -> SenderContext<'a> {
        SenderContext {
            parker: &lane.parker,
            stop: &self.stop,
            meters: &self.meters,
        }
    }

    /// Has the senders stop.
    fn stop_senders(&self) -> bool {
        let stops = self.stop.swap(true, Ordering::SeqCst);
        for lane in &self.lanes {
            lane.parker.unpark();
        }
        stops
    }

    /// Accepts connections, gives the messages that come by them to the inbox, and sends what is
    /// posted, until `stop`. The caller's thread is the acceptor. The readers, at most 256, and the
    /// senders have threads of their own, all of which have ended when it returns. The ends are
    /// those that `listen` gave. A connection beyond 256 is closed at once, and so is one by which
    /// something comes that is no frame. A connection is closed too if its first frame is not whole
    /// within 5 seconds. So is one of which a later frame is not whole within 5 seconds from its
    /// first bytes on. Between frames there is no limit.
    ///
    /// # Errors
    ///
    /// `OutOfMemory` if a sender's thread could not be started: nothing runs then.
    pub fn run<R, I>(
        &self,
        rt: &R,
        alloc: Global,
        ends: Vec<SenderEnd>,
        inbox: &I,
    ) -> Result<(), ListenError>
    where
        R: Net<Listener = TcpListener, Stream = TcpStream> + Threads + Wait + Clock + Sync,
        I: Inbox<R> + Sync,
        ensures error { IfErr result (λ e. e ≡ listen.OutOfMemory) }
    {
        thread::scope(thread::scope_env(), rt, |scope| {
            self.start_senders(rt, alloc, scope, ends)?;
            self.accept_all(rt, alloc, scope, inbox);
            Ok(())
        })
    }

    /// Starts a thread for each sender. If one cannot be started, those that run are told to stop.
    fn start_senders<'s, E, R>(
        &'s self,
        rt: &'s R,
        alloc: Global,
        scope: &Scope<'s, E>,
        ends: Vec<SenderEnd>,
    ) -> Result<(), ListenError>
    where
        R: Net<Listener = TcpListener, Stream = TcpStream> + Threads + Wait + Clock + Sync,
        ensures error { IfErr result (λ e. e ≡ listen.OutOfMemory) }
    {
        for (lane, end) in self.lanes.iter().zip(ends) {
            let context = self.context(lane);
            let started = scope.spawn(move || sender::work(rt, alloc, end, &context));
            if started.is_err() {
                self.stop_senders();
                return Err(ListenError::OutOfMemory);
            }
        }
        Ok(())
    }

    /// Accepts connections, and starts a reader for each that is taken in, until `stop`.
    fn accept_all<'s, E, R, I>(
        &'s self,
        rt: &'s R,
        alloc: Global,
        scope: &Scope<'s, E>,
        inbox: &'s I,
    )
    where
        R: Net<Listener = TcpListener, Stream = TcpStream> + Threads + Wait + Clock + Sync,
        I: Inbox<R> + Sync,
    {
        for stream in self.listener.incoming() {
            if self.stop.load(Ordering::SeqCst) {
                break;
            }
            let Some((number, stream)) = self.admit(rt, stream) else {
                continue;
            };
            let started = scope.spawn(move || {
                read_all(rt, alloc, &stream, inbox, &self.meters);
                self.readers.lock(rt).leave(number);
            });
            if started.is_err() {
                self.meters.refused.raise();
                self.readers.lock(rt).leave(number);
            }
        }
    }

    /// Counts an error that says that there was no file descriptor.
    fn note(&self, error: &io::Error) {
        if is_exhausted(error) {
            self.meters.exhausted.raise();
        }
    }

    /// The number under which a connection is read; none if it is closed at once.
    fn number<R: Wait>(&self, rt: &R, stream: &TcpStream) -> Option<u64> {
        match stream.try_clone() {
            Ok(handle) => self.readers.lock(rt).admit(handle),
            Err(error) => {
                self.note(&error);
                None
            }
        }
    }

    /// Takes in a connection that was accepted; none if it is closed at once.
    fn admit<R: Wait + Clock>(
        &self,
        rt: &R,
        accepted: io::Result<TcpStream>,
    ) -> Option<(u64, TcpStream)> {
        let stream = match accepted {
            Ok(stream) => stream,
            Err(error) => {
                self.note(&error);
                thread::sleep(rt, Duration::from_millis(AFTER_A_FAULT));
                return None;
            }
        };
        let Some(number) = self.number(rt, &stream) else {
            self.meters.refused.raise();
            return None;
        };
        // Whoever stops the peers may have looked before this connection was taken in.
        if self.stop.load(Ordering::SeqCst) {
            self.readers.lock(rt).leave(number);
            return None;
        }
        Some((number, stream))
    }

    /// Ends `run`: the acceptor and the readers at once, the senders when what is queued is sent,
    /// or after 0.3 seconds if that takes longer. A frame that is under way takes up to 0.3 seconds
    /// more. It may be called by any thread, also before `run`, and calls after the first do
    /// nothing. It needs no file descriptor.
    pub fn stop<R: Wait>(&self, rt: &R) {
        if self.stop_senders() {
            return;
        }
        self.readers.lock(rt).shut_down();
        // it ends a call that waits for a connection, and those to come
        let _ = shutdown(self.listener.as_raw_fd(), SHUT_RDWR);
    }
}
