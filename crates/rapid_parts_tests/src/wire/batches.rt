// Batches that are read from frames.

use crate::numbered::{process, shared};
use crate::short_lists::{LISTS, list, seven};
use rapid_alerts::{Alert, Batch, Kind};
use rapid_config::ConfigId;
use rapid_endpoint::Process;
use rapid_message::{Body, Message};
use rapid_wire::{encode, read_frame};
use std::alloc::{AllocError, Global};
use std::test::Fail;

/// Alerts of process 1 that are to remove these, on one ring after the other.
fn removals(alloc: Global, subjects: &[Process]) -> Result<Vec<Alert>, AllocError> {
    let mut alerts = Vec::new(alloc);
    for (place, subject) in subjects.iter().enumerate() {
        alerts.push(Alert {
            observer: process(1),
            subject: *subject,
            ring: if place == 0 { 3 } else { 4 },
            kind: Kind::Remove,
            config: ConfigId::zero(),
        })?;
    }
    Ok(alerts)
}

/// Whether a batch has the alerts of the one that is read from its frame.
fn comes_back(alloc: Global, batch: &Batch) -> Result<bool, Fail> {
    let body = Body::Batch(ConfigId::zero(), batch.try_copy(alloc)?);
    let frame = encode(alloc, &Message::new(shared(alloc, &process(1))?, body)?)?;
    let read = read_frame(alloc, None, frame.as_slice())?;
    match read.body() {
        Body::Batch(_, found) => Ok(found.alerts().says_same(batch.alerts())),
        _ => Ok(false),
    }
}

/// Whether the batch of these alerts comes back; not if there are none.
fn batch_comes_back(alloc: Global, alerts: &[Alert]) -> Result<bool, Fail> {
    match Batch::new(alloc, alerts) {
        Ok(batch) => comes_back(alloc, &batch),
        Err(_) => Ok(false),
    }
}

/// A subject that stands twice in a row is compared with the bytes of the one before. Of seven
/// processes, with tags and without, there are 399 lists of one to three.
#[test]
fn a_batch_that_is_read_says_the_same_as_the_one_that_was_written(
    rt: HostRuntime,
) -> Result<(), Fail> {
    let seven = seven()?;
    let mut came = 0usize;
    for number in 0..LISTS {
        let alerts = removals(rt.alloc(), &list(rt.alloc(), &seven, number)?)?;
        came = came.saturating_add(usize::from(batch_comes_back(rt.alloc(), &alerts)?));
    }
    assert!(rt; came == 399);
    Ok(())
}
