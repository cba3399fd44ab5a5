// Clerks out of memory: one stops at a job that is refused, and what was done is stored.

ghost use Rattle.std.specs.Prelude.{◌≡◌, ◌≤◌, IfOk};

use crate::numbered::{endpoint, process};
use rapid_clerks::{Clerk, ClusterBook, Gate, Job, run_clerks};
use rapid_config::{Configuration, Params};
use rapid_world::WorldEvent::{Deliver, Start};
use std::alloc::Global;
use std::marker::Brand;
use std::sync::atomic::{AtomicU64, Ordering};
use std::sync::ledger::{Blank, Ledger, Share};
use std::sync::{Mutex, Wait};
use std::test::*;
use std::thread::Threads;

/// Lets all in up to a turn, and counts who came.
#[derive(Drop)]
struct Door {
    last: u64,
    came: AtomicU64,
}

impl Door {
    /// A door that is closed after this turn.
    fn until(last: u64) -> Door {
        Door {
            last,
            came: AtomicU64::new(0),
        }
    }

    /// How often somebody came.
    fn came(&self) -> u64 {
        self.came.load(Ordering::SeqCst)
    }
}

impl Gate for Door {
    fn enter(&self, _worker: usize, turn: u64) -> bool {
        self.came.fetch_add(1, Ordering::SeqCst);
        turn <= self.last
    }

    fn left(&self, _worker: usize, _turn: u64) {}
}

/// Process 2 starts to join by process 1.
fn joins() -> Job {
    Job::Event(Start(process(2), endpoint(1)))
}

/// The book of a world of process 1 alone, and a share with every part of its ledger. There are 3
/// rings, and the marks are 3 and 1.
fn alone<L: Ledger>(alloc: Global, blank: Blank) -> Result<(ClusterBook<L>, Share<L>), Fail>
    requires name { blank.name ≡ L.name }
    requires parts { blank.parts ≡ L.parts }
    requires room { 33 ≤ blank.parts }
    ensures { IfOk result (λ made. (made.1.parts ≡ L.parts) × (33 ≤ made.1.parts)) }
{
    let params = Params::new(3, 3, 1)?;
    let founders = [process(1)];
    let _configuration = Configuration::seed(alloc, params, &founders)?;
    Ok(ClusterBook::<L>::new(alloc, params, &founders, blank)?)
}

/// How many of these jobs a clerk of this ledger does in a world of process 1.
fn done_in<L: Ledger, R: Wait>(
    rt: &R,
    alloc: Global,
    blank: Blank,
    door: &Door,
    jobs: &[Job],
) -> Result<u64, Fail>
    requires name { blank.name ≡ L.name }
    requires parts { blank.parts ≡ L.parts }
    requires room { 33 ≤ blank.parts }
{
    let (book, share) = alone::<L>(alloc, blank)?;
    let book = Mutex::new(book);
    let mut clerk = Clerk::new(0, share);
    Ok(clerk.run(rt, &book, door, jobs))
}

/// How many of these jobs a clerk does in a world of process 1.
fn done<R: Wait>(rt: &R, alloc: Global, door: &Door, jobs: &[Job]) -> Result<u64, Fail> {
    done_in::<Brand, R>(rt, alloc, Blank::new(33), door, jobs)
}

/// A clerk that was refused a job since memory ran out comes to no further one. The last job is
/// refused for another reason, so that a clerk which went on would have come to more jobs than
/// that.
#[test]
fn a_clerk_stops_if_out_of_memory(rt: HostRuntime) -> Result<(), Fail> {
    let door = Door::until(6);
    let unsent = Job::Event(Deliver(0));
    let jobs = [joins(), Job::Turn, Job::Turn, Job::Turn, Job::Turn, unsent];
    let done = done(&rt, rt.alloc(), &door, &jobs)?;
    assert_eq!(rt; door.came(), done.wrapping_add(1));
    Ok(())
}

/// Whether as many events are stored as were done, after one and the turns of two clerks.
fn adds_up<L: Ledger + Send + Sync, R: Threads + Wait + Sync>(
    rt: &R,
    alloc: Global,
    blank: Blank,
) -> Result<bool, Fail>
    requires name { blank.name ≡ L.name }
    requires parts { blank.parts ≡ L.parts }
    requires room { 33 ≤ blank.parts }
{
    let (mut book, mut share) = alone::<L>(alloc, blank)?;
    let _reports = book.step(&mut share, &joins())?;
    let book = Mutex::new(book);
    let counts = run_clerks(rt, alloc, &book, &Door::until(5), &mut share, 2, 6)?;
    let stored = book.into_inner().stored(&mut share) as u64;
    let done: u64 = counts.iter().fold(1, |sum, count| sum.wrapping_add(*count));
    Ok(stored == done)
}

#[test]
fn what_clerks_did_is_stored_if_out_of_memory(rt: HostRuntime) -> Result<(), Fail> {
    assert!(rt; adds_up::<Brand, HostRuntime>(&rt, rt.alloc(), Blank::new(33))?);
    Ok(())
}
