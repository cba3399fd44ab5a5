// The queue of a sender: frames, each with the endpoint that it goes to.

ghost use Rattle.std.specs.Prelude.{◌≡◌, ◌<◌, ◌≤◌, List, [], ◌∷◌, ◌++◌, OnOk, IfOk, IfErr, MatchOption};
ghost use Rattle.rapid_model.specs.Limits.{most_waiting_frames};
ghost use Rattle.rapid_line.specs.Line.{StartsWith, Untaken};
ghost use Rattle.rapid_transport.specs.declared.error.TransportError.TheVariants.{QueueFull};
ghost use Rattle.rapid_transport.specs.Counting.{one_more};

use crate::TransportError;
use bytes::Bytes;
use rapid_endpoint::Endpoint;
use rapid_line::{Order, Sink, Source};
use std::alloc::{AllocError, Global};
use std::marker::Model;
use std::sync::atomic::{AtomicU64, Ordering};
use std::sync::{Arc, Wait};

/// Any frame may follow any other.
pub struct AnyOrder;

impl<T> Order<T> for AnyOrder {
    ghost next = { λ before item. Unit {0} };
}

/// The end of a sender's queue that puts. Contracts see the queue, and the frames that were put,
/// each with its destination. They also see those of them that are known to be taken, for how many
/// there is room, and how many found it full.
#[derive(Drop)]
pub struct SenderQueue {
    sink: Sink<(Endpoint, Bytes), AnyOrder>,
    full: u64,
    // what the other end said to be lost: only that end writes it
    failed: Arc<AtomicU64>,
}

impl Model for SenderQueue {
    ghost use Rattle.rapid_transport.specs.Queues.{Putting};

    ghost Value = { Putting };

    ghost view = { λ q. record { queue = q.sink.queue; put = q.sink.put; known = q.sink.known; room = q.sink.room; full = q.full } };
}

/// The end of a sender's queue that takes. Contracts see the queue, the frames that were taken, and
/// those that are known to be put. They also see how many of the frames taken were said to be lost.
#[derive(Drop)]
pub struct SenderEnd {
    source: Source<(Endpoint, Bytes), AnyOrder>,
    failed: u64,
    // the same number, for the end that puts
    told: Arc<AtomicU64>,
}

impl Model for SenderEnd {
    ghost use Rattle.rapid_transport.specs.Queues.{Taking};

    ghost Value = { Taking };

    ghost view = { λ e. record { queue = e.source.queue; taken = e.source.taken; known = e.source.known; failed = e.failed } };
}

impl SenderQueue {
    /// An empty queue with room for this many frames, 1 to 4,096: the end that puts, and the one
    /// that takes.
    pub fn new(alloc: Global, capacity: usize) -> Result<(SenderQueue, SenderEnd), AllocError>
        requires { (0 < capacity) × (capacity ≤ most_waiting_frames) }
        ensures queue { IfOk result (λ ends. ends.0.queue ≡ ends.1.queue) }
        ensures empty { IfOk result (λ ends. (ends.0.put ≡ []) × (ends.0.known ≡ []) × (ends.1.taken ≡ [])) }
        ensures known { IfOk result (λ ends. ends.1.known ≡ []) }
        ensures room { IfOk result (λ ends. ends.0.room ≡ capacity) }
        ensures no_losses { IfOk result (λ ends. (ends.0.full ≡ 0) × (ends.1.failed ≡ 0)) }
    {
        let (sink, source) = rapid_line::line(alloc, capacity)?;
        let failed = Arc::new(alloc, AtomicU64::new(0))?;
        let told = Arc::try_clone(&failed)?;
        let queue = SenderQueue {
            sink,
            full: 0,
            failed,
        };
        let end = SenderEnd {
            source,
            failed: 0,
            told,
        };
        Ok((queue, end))
    }

    /// Puts a frame that goes to this endpoint.
    ///
    /// # Errors
    ///
    /// `QueueFull` if there was no room: at one moment of the call as many frames as there is room
    /// for were still to be taken. The frame is dropped, and counted as a loss.
    pub fn put<R: Wait>(&mut self, rt: &R, to: Endpoint, frame: Bytes) -> Result<(), TransportError>
        ensures queue { (self.new.queue ≡ self.old.queue) × (self.new.known ≡ self.old.known) × (self.new.room ≡ self.old.room) }
        ensures put { OnOk result ((self.new.put ≡ self.old.put ++ (to, frame) ∷ []) × (self.new.full ≡ self.old.full)) }
        ensures dropped { IfErr result (λ e. (e ≡ QueueFull) × (self.new.put ≡ self.old.put) × (self.new.full ≡ one_more self.old.full)) }
        ensures full { IfErr result (λ _. Untaken self.old.put self.old.known self.old.room) }
    {
        match self.sink.put(rt, (to, frame)) {
            Ok(()) => Ok(()),
            Err(_) => {
                self.full = self.full.saturating_add(1);
                Err(TransportError::QueueFull)
            }
        }
    }

    /// How many frames were lost: those that found the queue full, and those that the other end
    /// said to be lost so far. The count stays at 2^64 - 1.
    pub fn losses(&self) -> u64
        ensures { self.now.full ≤ result }
    {
        self.full.saturating_add(self.failed.load(Ordering::SeqCst))
    }

    /// What was taken is a beginning of what was put: each frame once, and in order. It is known to
    /// be taken from then on.
    pub fn compare(&mut self, end: &mut SenderEnd)
        requires { self.old.queue ≡ end.old.queue }
        ensures known { self.new ≡ record self.old { known = end.old.taken } }
        ensures same { end.new ≡ end.old }
        ensures order { StartsWith self.old.put end.old.taken }
    {
        self.sink.compare(&mut end.source);
    }
}

impl SenderEnd {
    /// Takes the oldest frame and its endpoint. It takes none only if the queue was empty at one
    /// moment of the call. Then each frame that is known to be put was taken before.
    pub fn take<R: Wait>(&mut self, rt: &R) -> Option<(Endpoint, Bytes)>
        ensures queue { (self.new.queue ≡ self.old.queue) × (self.new.known ≡ self.old.known) }
        ensures taken { MatchOption result (self.new.taken ≡ self.old.taken) (λ frame. self.new.taken ≡ self.old.taken ++ frame ∷ []) }
        ensures none { MatchOption result (StartsWith self.old.taken self.old.known) (λ _. Unit {0}) }
        ensures failed { self.new.failed ≡ self.old.failed }
    {
        self.source.take(rt)
    }

    /// What the other end has put is known to be put from then on.
    pub fn compare(&mut self, queue: &mut SenderQueue)
        requires { self.old.queue ≡ queue.old.queue }
        ensures known { self.new ≡ record self.old { known = queue.old.put } }
        ensures same { queue.new ≡ queue.old }
    {
        self.source.compare(&mut queue.sink);
    }

    /// A frame that was taken was not sent: it counts as a loss.
    pub fn lose(&mut self)
        ensures failed { self.new.failed ≡ one_more self.old.failed }
        ensures same { (self.new.queue ≡ self.old.queue) × (self.new.taken ≡ self.old.taken) × (self.new.known ≡ self.old.known) }
    {
        self.failed = self.failed.saturating_add(1);
        // a store suffices: no other thread writes this word
        self.told.store(self.failed, Ordering::SeqCst);
    }
}
