// Clerks call the gate while they hold no lock.

ghost use Rattle.std.specs.Prelude.{◌≡◌, ◌≤◌};

use crate::clerks::books::alone;
use rapid_clerks::{Gate, run_clerks};
use std::alloc::Global;
use std::marker::Brand;
use std::sync::atomic::{AtomicU64, Ordering};
use std::sync::ledger::{Blank, Ledger};
use std::sync::{Mutex, Wait};
use std::test::*;
use std::thread::Threads;

/// How often one who waits looks at most.
const MOST_LOOKS: u64 = 100_000_000;

/// Worker 1 comes to its first turn once worker 0 has left its own. Worker 0 does not go on from
/// there before worker 1 comes to its second turn. So a turn of worker 1 is taken while worker 0 is
/// at the gate, which is in vain if that holds the lock.
#[derive(Drop)]
struct Relay {
    first_left: AtomicU64,
    second_came: AtomicU64,
    missed: AtomicU64,
}

impl Relay {
    /// A relay to which no thread came yet.
    fn new() -> Relay {
        Relay {
            first_left: AtomicU64::new(0),
            second_came: AtomicU64::new(0),
            missed: AtomicU64::new(0),
        }
    }

    /// Whether worker 0 waited in vain.
    fn is_missed(&self) -> bool {
        self.missed.load(Ordering::SeqCst) == 1
    }
}

/// Whether this is noted, within this many looks.
fn sees(noted: &AtomicU64) -> bool {
    for _ in 0..MOST_LOOKS {
        if noted.load(Ordering::SeqCst) == 1 {
            return true;
        }
    }
    false
}

impl Gate for Relay {
    fn enter(&self, worker: usize, turn: u64) -> bool {
        match (worker, turn) {
            (1, 1) => sees(&self.first_left),
            (1, 2) => {
                self.second_came.store(1, Ordering::SeqCst);
                true
            }
            _ => true,
        }
    }

    fn left(&self, worker: usize, turn: u64) {
        if (worker, turn) == (0, 1) {
            self.first_left.store(1, Ordering::SeqCst);
            if !sees(&self.second_came) {
                self.missed.store(1, Ordering::SeqCst);
            }
        }
    }
}

/// How many of two turns each of two clerks of this ledger takes in a world of process 1.
fn taken_in<L: Ledger + Send + Sync, R: Threads + Wait + Sync>(
    rt: &R,
    alloc: Global,
    blank: Blank,
    relay: &Relay,
) -> Result<Vec<u64>, Fail>
    requires name { blank.name ≡ L.name }
    requires parts { blank.parts ≡ L.parts }
    requires room { 33 ≤ blank.parts }
{
    let (book, mut share) = alone::<L>(alloc, blank)?;
    let book = Mutex::new(book);
    Ok(run_clerks(rt, alloc, &book, relay, &mut share, 2, 2)?)
}

/// How many of two turns each of two clerks takes in a world of process 1.
fn taken<R: Threads + Wait + Sync>(rt: &R, alloc: Global, relay: &Relay) -> Result<Vec<u64>, Fail> {
    taken_in::<Brand, R>(rt, alloc, Blank::new(33), relay)
}

#[test]
fn a_clerk_at_the_gate_holds_no_lock(rt: HostRuntime) -> Result<(), Fail> {
    let relay = Relay::new();
    let counts = taken(&rt, rt.alloc(), &relay)?;
    assert_eq!(rt; counts.as_slice(), [2, 2].as_slice());
    assert!(rt; !relay.is_missed());
    Ok(())
}
