// A sender: it takes frames from its queue and sends each to its endpoint.

use crate::connections::Connections;
use crate::counters::Meters;
use crate::queue::SenderEnd;
use crossbeam_utils::Backoff;
use std::alloc::Global;
use std::net::{Net, TcpListener, TcpStream};
use std::sync::Wait;
use std::sync::atomic::{AtomicBool, Ordering};
use std::thread::Parker;
use std::time::{Clock, Duration, Instant};

/// How long a sender goes on with what is queued once it is told to stop, in milliseconds.
const LAST_FRAMES: u64 = 300;

/// How long a sender waits to be woken at most, in milliseconds. As much time lies between two
/// looks for connections that have ended.
const BETWEEN_LOOKS: u64 = 1_000;

/// What a sender shares with the other threads of the peers.
#[derive(Drop)]
pub(crate) struct SenderContext<'a> {
    /// Whoever puts a frame into the sender's queue wakes it by this.
    pub parker: &'a Parker,
    /// Whether it is told to stop.
    pub stop: &'a AtomicBool,
    pub meters: &'a Meters,
}

/// How a sender that finds nothing to send passes the time: it looks again at once for a while, then
/// it waits to be woken.
#[derive(Drop)]
struct Idling {
    backoff: Backoff,
    looked: Option<Instant>,
}

impl Idling {
    fn new() -> Idling {
        Idling {
            backoff: Backoff::new(),
            looked: None,
        }
    }

    /// There was something to send.
    fn end(&mut self) {
        self.backoff.reset();
    }

    /// Whether it is time to look which connections have ended. The sender looks then.
    fn is_due<R: Clock>(&mut self, rt: &R) -> bool {
        let Ok(now) = Instant::now(rt) else {
            return false;
        };
        if let Some(looked) = self.looked
            && now.saturating_duration_since(looked) < Duration::from_millis(BETWEEN_LOOKS)
        {
            return false;
        }
        self.looked = Some(now);
        true
    }

    /// Passes some time, and says whether it is time to look which connections have ended. A frame
    /// that is put while the sender does not wait ends the next wait at once, so none is missed.
    fn pass<R: Wait + Clock>(&mut self, rt: &R, parker: &Parker) -> bool {
        if !self.backoff.is_completed() {
            self.backoff.snooze();
            return false;
        }
        if self.is_due(rt) {
            return true;
        }
        parker.park_timeout(rt, Duration::from_millis(BETWEEN_LOOKS));
        false
    }
}

/// Whether the time for the last frames is over. It begins when the sender first sees that it is
/// told to stop.
fn is_over<R: Clock>(rt: &R, stopped: &mut Option<Instant>) -> bool {
    let Ok(now) = Instant::now(rt) else {
        // without a clock the sender must not wait for ever
        return true;
    };
    match stopped {
        None => {
            *stopped = Some(now);
            false
        }
        Some(since) => now.duration_since(*since) >= Duration::from_millis(LAST_FRAMES),
    }
}

/// Sends what is taken from the queue until it is told to stop, and then what is queued for at most
/// 0.3 seconds more. A frame that could not be sent, or whose connection failed, counts as a loss.
pub(crate) fn work<R>(rt: &R, alloc: Global, mut end: SenderEnd, context: &SenderContext<'_>)
where
    R: Net<Listener = TcpListener, Stream = TcpStream> + Wait + Clock,
{
    let mut connections = Connections::new(alloc);
    let mut idling = Idling::new();
    let mut stopped = None;
    for _ in rt.forever() {
        // asked before the queue is: what was put before the stop is still taken
        let stops = context.stop.load(Ordering::SeqCst);
        if stops && is_over(rt, &mut stopped) {
            return;
        }
        match end.take(rt) {
            Some((to, frame)) => {
                idling.end();
                if connections.deliver(rt, to, &frame, context.meters) {
                    context.meters.frames_out.raise();
                } else {
                    end.lose();
                }
            }
            None => {
                if stops {
                    return;
                }
                if idling.pass(rt, context.parker) {
                    connections.close_ended();
                }
            }
        }
    }
}
