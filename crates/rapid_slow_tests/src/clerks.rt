// A clerk stops once its world takes no further event.

ghost use Rattle.std.specs.Prelude.{◌≡◌, ◌≤◌};

use crate::numbered::process;
use rapid_clerks::{ClusterBook, Gate, run_clerks};
use rapid_config::{Configuration, Params};
use std::alloc::Global;
use std::marker::Brand;
use std::sync::atomic::{AtomicU64, Ordering};
use std::sync::ledger::{Blank, Ledger};
use std::sync::{Mutex, Wait};
use std::test::*;
use std::thread::Threads;

/// Lets all in, and counts them.
#[derive(Drop)]
struct Door {
    came: AtomicU64,
}

impl Gate for Door {
    fn enter(&self, _worker: usize, _turn: u64) -> bool {
        self.came.fetch_add(1, Ordering::SeqCst);
        true
    }

    fn left(&self, _worker: usize, _turn: u64) {}
}

/// How many turns one clerk of this ledger takes in a world of process 1, if this many are there to
/// be taken.
fn taken<L: Ledger + Send + Sync, R: Threads + Wait + Sync>(
    rt: &R,
    alloc: Global,
    blank: Blank,
    door: &Door,
    turns: usize,
) -> Result<Vec<u64>, Fail>
    requires name { blank.name ≡ L.name }
    requires parts { blank.parts ≡ L.parts }
    requires room { 33 ≤ blank.parts }
{
    let params = Params::new(3, 3, 1)?;
    let founders = [process(1)];
    let _configuration = Configuration::seed(alloc, params, &founders)?;
    let (book, mut share) = ClusterBook::<L>::new(alloc, params, &founders, blank)?;
    let book = Mutex::new(book);
    Ok(run_clerks(rt, alloc, &book, door, &mut share, 1, turns)?)
}

/// No clerk goes on once no further event is accepted.
#[test]
fn a_full_world_stops_a_clerk(rt: HostRuntime) -> Result<(), Fail> {
    let door = Door {
        came: AtomicU64::new(0),
    };
    let counts = taken::<Brand, HostRuntime>(&rt, rt.alloc(), Blank::new(33), &door, 1_000_003)?;
    assert_eq!(rt; counts.as_slice(), [1_000_000].as_slice());
    assert_eq!(rt; door.came.load(Ordering::SeqCst), 1_000_001);
    Ok(())
}
