// What wakes those who wait for a change.

ghost use Rattle.std.specs.Prelude.{◌≡◌, ◌==◌, ◌+◌, ◌%◌, ◌^◌};

use std::sync::{Condvar, Mutex, Wait};
use std::time::{Clock, Duration};

/// The count of rings after one more.
fn after(rings: u64) -> u64
    ensures { result ≡ (rings + 1) % 2 ^ 64 }
{
    rings.wrapping_add(1)
}

/// Whether the bell was not rung since the count was this.
fn is_still(rings: u64, seen: u64) -> bool
    ensures { result ≡ (rings == seen) }
{
    rings == seen
}

/// Wakes those who wait for a change. It counts how often it was rung. Whoever reads the count,
/// looks for a change and finds none, misses no ring when it then waits.
#[derive(Drop)]
pub struct Bell {
    rings: Mutex<u64>,
    changed: Condvar,
}

impl Bell {
    /// It was not rung yet.
    pub fn new() -> Bell {
        Bell {
            rings: Mutex::new(0),
            changed: Condvar::new(),
        }
    }

    /// Wakes all that wait.
    pub fn ring<W: Wait>(&self, rt: &W) {
        let mut rings = self.rings.lock(rt);
        *rings = after(*rings);
        drop(rings);
        self.changed.notify_all();
    }

    /// How often it was rung so far.
    pub fn rings<W: Wait>(&self, rt: &W) -> u64 {
        let rings = self.rings.lock(rt);
        *rings
    }

    /// Waits until it has been rung another number of times than this, at most so long.
    pub fn wait<W: Wait + Clock>(&self, rt: &W, seen: u64, longest: Duration) {
        let rings = self.rings.lock(rt);
        let (rings, _) = self
            .changed
            .wait_timeout_while(rt, rings, longest, |rings| is_still(*rings, seen));
        drop(rings);
    }
}
