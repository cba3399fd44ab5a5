// Gates.

use rapid_clerks::Gate;
use std::sync::atomic::{AtomicU64, Ordering};

/// How often one who waits looks at most.
const MOST_LOOKS: u64 = 100_000_000;

/// Lets all in up to a turn, and counts who came and who left.
#[derive(Drop)]
pub(crate) struct Door {
    last: u64,
    came: AtomicU64,
    left: AtomicU64,
}

impl Door {
    /// A door that is closed after this turn.
    pub(crate) fn until(last: u64) -> Door {
        Door {
            last,
            came: AtomicU64::new(0),
            left: AtomicU64::new(0),
        }
    }

    /// How often somebody came.
    pub(crate) fn came(&self) -> u64 {
        self.came.load(Ordering::SeqCst)
    }

    /// How often somebody left.
    pub(crate) fn left(&self) -> u64 {
        self.left.load(Ordering::SeqCst)
    }
}

impl Gate for Door {
    fn enter(&self, _worker: usize, turn: u64) -> bool {
        self.came.fetch_add(1, Ordering::SeqCst);
        turn <= self.last
    }

    fn left(&self, _worker: usize, _turn: u64) {
        self.left.fetch_add(1, Ordering::SeqCst);
    }
}

/// At their first turn the workers 0 and 1 each note that they came, and wait until the other came
/// too. One that waited in vain is not let in.
#[derive(Drop)]
pub(crate) struct Meeting {
    first: AtomicU64,
    second: AtomicU64,
}

impl Meeting {
    /// A meeting to which no thread came yet.
    pub(crate) fn new() -> Meeting {
        Meeting {
            first: AtomicU64::new(0),
            second: AtomicU64::new(0),
        }
    }
}

/// Notes that one came, and says whether the other does, within this many looks.
fn meet(mine: &AtomicU64, other: &AtomicU64) -> bool {
    mine.store(1, Ordering::SeqCst);
    for _ in 0..MOST_LOOKS {
        if other.load(Ordering::SeqCst) == 1 {
            return true;
        }
    }
    false
}

impl Gate for Meeting {
    fn enter(&self, worker: usize, turn: u64) -> bool {
        match (worker, turn) {
            (0, 1) => meet(&self.first, &self.second),
            (1, 1) => meet(&self.second, &self.first),
            _ => true,
        }
    }

    fn left(&self, _worker: usize, _turn: u64) {}
}
