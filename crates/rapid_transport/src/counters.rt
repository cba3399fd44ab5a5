// What the peers have done so far, in numbers.

use crate::TransportError;
use std::sync::atomic::{AtomicU64, Ordering};

/// What the peers of a node have done so far.
#[derive(Clone, Copy, Debug, PartialEq, Eq)]
pub struct Counters {
    /// Frames that came, and were given to the inbox as messages.
    pub frames_in: u64,
    /// Frames that were sent without a fault.
    pub frames_out: u64,
    /// Frames that were lost: the queue was full, or they could not be sent. It stays at 2^64 - 1.
    pub losses: u64,
    /// Incoming connections that were closed since something came that is no frame.
    pub wire_faults: u64,
    /// Incoming connections that were closed at once, since 256 were read already, or there was no
    /// second handle, no memory or no thread for one.
    pub refused: u64,
    /// Incoming connections that were closed since a frame took too long.
    pub late: u64,
    /// How often there was no file descriptor for a connection.
    pub exhausted: u64,
}

/// A number that many threads raise.
#[derive(Drop)]
pub(crate) struct Meter {
    count: AtomicU64,
}

impl Meter {
    fn new() -> Meter {
        Meter {
            count: AtomicU64::new(0),
        }
    }

    /// Once more.
    pub(crate) fn raise(&self) {
        self.count.fetch_add(1, Ordering::SeqCst);
    }

    fn get(&self) -> u64 {
        self.count.load(Ordering::SeqCst)
    }
}

/// The numbers that the threads of the peers raise.
#[derive(Drop)]
pub(crate) struct Meters {
    pub frames_in: Meter,
    pub frames_out: Meter,
    pub wire_faults: Meter,
    pub refused: Meter,
    pub late: Meter,
    pub exhausted: Meter,
}

impl Meters {
    /// Nothing was done yet.
    pub(crate) fn new() -> Meters {
        Meters {
            frames_in: Meter::new(),
            frames_out: Meter::new(),
            wire_faults: Meter::new(),
            refused: Meter::new(),
            late: Meter::new(),
            exhausted: Meter::new(),
        }
    }

    /// An incoming connection has failed by this error, or since a frame was late.
    pub(crate) fn failed(&self, error: TransportError, is_late: bool) {
        if is_late {
            self.late.raise();
        }
        if let TransportError::Wire(_) = error {
            self.wire_faults.raise();
        }
    }

    /// The numbers as they are, with this many losses.
    pub(crate) fn with_losses(&self, losses: u64) -> Counters {
        Counters {
            frames_in: self.frames_in.get(),
            frames_out: self.frames_out.get(),
            losses,
            wire_faults: self.wire_faults.get(),
            refused: self.refused.get(),
            late: self.late.get(),
            exhausted: self.exhausted.get(),
        }
    }
}
