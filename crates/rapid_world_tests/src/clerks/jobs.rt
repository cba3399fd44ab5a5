// What one clerk does.

ghost use Rattle.std.specs.Prelude.{◌≡◌, ◌≤◌};

use crate::clerks::books::{alone, joins};
use crate::clerks::gates::Door;
use crate::numbered::{endpoint, id, process};
use rapid_clerks::{Clerk, Job};
use rapid_world::WorldEvent::{Crash, Deliver, Start, Tick};
use std::alloc::Global;
use std::marker::Brand;
use std::sync::ledger::{Blank, Ledger};
use std::sync::{Mutex, Wait};
use std::test::*;

/// How many of these jobs a clerk of this ledger does in a world of process 1.
fn done_in<L: Ledger, R: Wait>(
    rt: &R,
    alloc: Global,
    blank: Blank,
    door: &Door,
    jobs: &[Job],
) -> Result<u64, Fail>
    requires name { blank.name ≡ L.name }
    requires parts { blank.parts ≡ L.parts }
    requires room { 33 ≤ blank.parts }
{
    let (book, share) = alone::<L>(alloc, blank)?;
    let book = Mutex::new(book);
    let mut clerk = Clerk::new(0, share);
    Ok(clerk.run(rt, &book, door, jobs))
}

/// How many of these jobs a clerk does in a world of process 1.
fn done<R: Wait>(rt: &R, alloc: Global, door: &Door, jobs: &[Job]) -> Result<u64, Fail> {
    done_in::<Brand, R>(rt, alloc, Blank::new(33), door, jobs)
}

/// The third turn delivers what the second sent, and is answered.
#[test]
fn turns_are_taken(rt: HostRuntime) -> Result<(), Fail> {
    let answer = Job::Event(Deliver(2));
    let jobs = [joins(), Job::Turn, Job::Turn, Job::Turn, answer];
    assert_eq!(rt; done(&rt, rt.alloc(), &Door::until(5), &jobs)?, 5);
    Ok(())
}

/// A clerk goes on after an event that is refused, and after a turn that no node can take. It ends
/// if the gate does not let it in.
#[test]
fn refused_jobs_are_not_counted(rt: HostRuntime) -> Result<(), Fail> {
    let door = Door::until(4);
    let jobs = [
        Job::Event(Deliver(1)),
        Job::Event(Crash(id(1))),
        Job::Turn,
        Job::Event(Start(process(2), endpoint(2))),
        Job::Event(Tick(id(2))),
    ];
    assert_eq!(rt; done(&rt, rt.alloc(), &door, &jobs)?, 2);
    assert_eq!(rt; (door.came(), door.left()), (5, 4));
    Ok(())
}
