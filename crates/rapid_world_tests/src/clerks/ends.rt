// Why a clerk ended.

ghost use Rattle.std.specs.Prelude.{◌≡◌, ◌≤◌};

use crate::clerks::books::{alone, joins};
use crate::clerks::gates::Door;
use rapid_clerks::{Clerk, DoJob, Ended, Job, TurnJob};
use rapid_world::WorldEvent::Deliver;
use rapid_world::{Report, WorldError};
use std::alloc::Global;
use std::marker::Brand;
use std::sync::ledger::{Blank, Ledger, Share};
use std::sync::{Mutex, Wait};
use std::test::*;

/// A clerk of this ledger is given these jobs in a world of process 1. How many it did, how many it
/// passed over, and why it ended.
fn told_in<L: Ledger, R: Wait>(
    rt: &R,
    alloc: Global,
    blank: Blank,
    door: &Door,
    jobs: &[Job],
) -> Result<(u64, u64, Ended), Fail>
    requires name { blank.name ≡ L.name }
    requires parts { blank.parts ≡ L.parts }
    requires room { 33 ≤ blank.parts }
{
    let (book, share) = alone::<L>(alloc, blank)?;
    let book = Mutex::new(book);
    let mut clerk = Clerk::new(0, share);
    let done = clerk.run(rt, &book, door, jobs);
    Ok((done, clerk.passed, clerk.ended))
}

/// What a clerk says of these jobs in a world of process 1.
fn told<R: Wait>(
    rt: &R,
    alloc: Global,
    door: &Door,
    jobs: &[Job],
) -> Result<(u64, u64, Ended), Fail> {
    told_in::<Brand, R>(rt, alloc, Blank::new(33), door, jobs)
}

/// A packet that was never sent is skipped.
#[test]
fn a_clerk_that_came_to_all_its_jobs_is_through(rt: HostRuntime) -> Result<(), Fail> {
    let jobs = [joins(), Job::Event(Deliver(1)), Job::Turn];
    let told = told(&rt, rt.alloc(), &Door::until(3), &jobs)?;
    assert_eq!(rt; told, (2, 1, Ended::Through));
    Ok(())
}

#[test]
fn a_clerk_that_is_not_let_in_says_so(rt: HostRuntime) -> Result<(), Fail> {
    let door = Door::until(2);
    let jobs = [Job::Event(Deliver(1)), Job::Turn, Job::Turn, Job::Turn];
    assert_eq!(rt; told(&rt, rt.alloc(), &door, &jobs)?, (1, 1, Ended::Shut));
    assert_eq!(rt; (door.came(), door.left()), (3, 2));
    Ok(())
}

/// What takes no further event.
#[derive(Clone, Copy, Debug)]
struct FullBook;

impl<L: Ledger> DoJob<L, TurnJob> for FullBook {
    fn do_job(&mut self, _share: &mut Share<L>, _job: &TurnJob) -> Result<Vec<Report>, WorldError> {
        Err(WorldError::EventsFull)
    }
}

/// What a clerk of this ledger says of two turns that find no room for an event.
fn told_when_full<L: Ledger, R: Wait>(
    rt: &R,
    alloc: Global,
    blank: Blank,
    door: &Door,
) -> Result<(u64, u64, Ended), Fail>
    requires name { blank.name ≡ L.name }
    requires parts { blank.parts ≡ L.parts }
    requires room { 33 ≤ blank.parts }
{
    let (_book, share) = alone::<L>(alloc, blank)?;
    let mut clerk = Clerk::new(0, share);
    let done = clerk.run(rt, &Mutex::new(FullBook), door, &[TurnJob, TurnJob]);
    Ok((done, clerk.passed, clerk.ended))
}

/// A clerk ends at the first job for which there is no room.
#[test]
fn a_clerk_says_that_no_further_event_is_accepted(rt: HostRuntime) -> Result<(), Fail> {
    let door = Door::until(2);
    let told = told_when_full::<Brand, HostRuntime>(&rt, rt.alloc(), Blank::new(33), &door)?;
    assert_eq!(rt; told, (0, 0, Ended::Full));
    assert_eq!(rt; (door.came(), door.left()), (1, 1));
    Ok(())
}

/// A clerk ends before its last job only if out of memory, and then at the job that it came to.
#[test]
fn a_clerk_says_why_it_stops_if_out_of_memory(rt: HostRuntime) -> Result<(), Fail> {
    let door = Door::until(6);
    let jobs = [
        joins(),
        Job::Turn,
        Job::Turn,
        Job::Turn,
        Job::Turn,
        Job::Turn,
    ];
    let (done, passed, ended) = told(&rt, rt.alloc(), &door, &jobs)?;
    let expected = if done == 6 {
        Ended::Through
    } else {
        Ended::OutOfMemory
    };
    assert_eq!(rt; (passed, ended), (0, expected));
    assert_eq!(rt; door.came(), done.wrapping_add(u64::from(done != 6)));
    Ok(())
}

/// What refuses each turn, and counts those that are handed in.
#[derive(Drop)]
struct RefusingBook {
    asked: u64,
}

impl<L: Ledger> DoJob<L, TurnJob> for RefusingBook {
    fn do_job(&mut self, _share: &mut Share<L>, _job: &TurnJob) -> Result<Vec<Report>, WorldError> {
        self.asked = self.asked.saturating_add(1);
        Err(WorldError::NoSuchNode)
    }
}

/// How often a clerk of this ledger hands in two turns, each of which is refused.
fn asked_when_refused<L: Ledger, R: Wait>(
    rt: &R,
    alloc: Global,
    blank: Blank,
    door: &Door,
) -> Result<u64, Fail>
    requires name { blank.name ≡ L.name }
    requires parts { blank.parts ≡ L.parts }
    requires room { 33 ≤ blank.parts }
{
    let (_book, share) = alone::<L>(alloc, blank)?;
    let book = Mutex::new(RefusingBook { asked: 0 });
    let _done = Clerk::new(0, share).run(rt, &book, door, &[TurnJob, TurnJob]);
    Ok(book.into_inner().asked)
}

#[test]
fn a_refused_job_is_handed_in_once(rt: HostRuntime) -> Result<(), Fail> {
    let door = Door::until(2);
    let asked = asked_when_refused::<Brand, HostRuntime>(&rt, rt.alloc(), Blank::new(33), &door)?;
    assert_eq!(rt; asked, 2);
    Ok(())
}
