// A desk under a lock, in two threads.

use crate::desk::founding::{alone, edge_down};
use rapid_desk::{Desk, DeskError};
use std::alloc::Global;
use std::sync::{Mutex, Wait};
use std::test::*;
use std::thread::join;

/// Half of the records that a journal has room for.
const HALF: usize = 32_768;

/// Gives an event to the desk under its lock.
fn hand<R: Wait>(rt: &R, alloc: Global, desk: &Mutex<Box<Desk<&R>>>) -> Result<(), DeskError> {
    let event = edge_down(alloc)?;
    desk.lock(rt).step(event)?;
    Ok(())
}

/// Gives this many events to the desk; the answer is whether it took each.
fn hand_over<R: Wait>(rt: &R, alloc: Global, desk: &Mutex<Box<Desk<&R>>>) -> bool {
    let mut all = true;
    for _ in 0..HALF {
        if hand(rt, alloc, desk).is_err() {
            all = false;
        }
    }
    all
}

#[test]
fn two_threads_step_one_desk(rt: HostRuntime) -> Result<(), Fail> {
    let alloc = rt.alloc();
    let desk = Mutex::new(alone(&rt, alloc, 1)?);
    let (one, other) = join(
        &rt,
        || hand_over(&rt, alloc, &desk),
        || hand_over(&rt, alloc, &desk),
    );
    assert!(rt; one && other);
    assert!(rt; matches!(hand(&rt, alloc, &desk), Err(DeskError::JournalFull)));
    Ok(())
}
