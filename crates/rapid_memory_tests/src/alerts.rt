// Outboxes over a table of explicit edges, and batches. Each call says by its error that memory ran
// out and changes nothing, or makes what it makes with memory.

use crate::numbered::{process, shared};
use crate::tables::{Edge, table};
use rapid_alerts::{Alert, Batch, BatchError, Kind, Outbox, RaiseError, Raising};
use rapid_config::ConfigId;
use rapid_rings::Table;
use std::alloc::{AllocError, Global};
use std::test::Fail;

fn alert(kind: Kind, ring: u8, observer: u16, subject: u16) -> Alert {
    Alert {
        observer: process(observer),
        subject: process(subject),
        ring,
        kind,
        config: ConfigId::zero(),
    }
}

/// How many alerts the next batch has; 0 if there is none.
fn flushed(outbox: &mut Outbox<Table>) -> Result<usize, AllocError> {
    match outbox.flush()? {
        Some(batch) => Ok(batch.alerts().len()),
        None => Ok(0),
    }
}

/// A call of an outbox, and what it answers.
#[derive(Clone, Copy, Debug)]
enum Call {
    /// An alert of a kind, on a ring, of an observer, on a subject. It is raised, and once more if
    /// out of memory.
    RaiseAgain(Kind, u8, u16, u16),
    /// A batch of this many alerts, asked for again if out of memory.
    FlushAgain(usize),
}

/// An alert, raised again if out of memory: the outbox is then as it was.
fn raised_again(outbox: &mut Outbox<Table>, alert: &Alert) -> Result<Raising, RaiseError> {
    match outbox.raise(*alert) {
        Err(RaiseError::OutOfMemory) => outbox.raise(*alert),
        answer => answer,
    }
}

/// How many alerts the next batch has, asked for again if out of memory.
fn flushed_again(outbox: &mut Outbox<Table>) -> Result<usize, AllocError> {
    match flushed(outbox) {
        Err(_refused) => flushed(outbox),
        answer => answer,
    }
}

/// Whether a call answers as it has to.
fn answers(outbox: &mut Outbox<Table>, call: &Call) -> Result<bool, AllocError> {
    match call {
        Call::RaiseAgain(kind, ring, observer, subject) => {
            let joining = alert(*kind, *ring, *observer, *subject);
            Ok(raised_again(outbox, &joining) == Ok(Raising::Raised))
        }
        Call::FlushAgain(count) => Ok(flushed_again(outbox)? == *count),
    }
}

/// Sees that all calls answer as they have to, in order.
fn all_answer(outbox: &mut Outbox<Table>, calls: &[Call]) -> Result<(), Fail> {
    for call in calls {
        if !answers(outbox, call)? {
            return Err(Fail::new(format_args!("answered otherwise: {call:?}")));
        }
    }
    Ok(())
}

/// Process 1 observes the joiner 2 on both of two rings, and the member 1000 on the first.
const EDGES: [Edge; 3] = [(0, 1, 1000), (0, 1, 2), (1, 1, 2)];

/// Sees that all calls of the outbox of process 1 answer as they have to, in order.
fn runs(alloc: Global, calls: &[Call]) -> Result<(), Fail> {
    let table = table(alloc, (2, 2, 1), &[2], &EDGES)?;
    let mut outbox = Outbox::new(alloc, table, shared(alloc, &process(1))?);
    all_answer(&mut outbox, calls)
}

const AGAIN: [Call; 2] = [Call::RaiseAgain(Kind::Join, 0, 1, 2), Call::FlushAgain(1)];

/// After a refused growth the outbox is as it was, and the next call works.
#[test]
fn out_of_memory_leaves_the_outbox_as_it_was(rt: HostRuntime) -> Result<(), Fail> {
    runs(rt.alloc(), &AGAIN)
}

/// This many alerts of process 1 on process 5.
fn alerts(alloc: Global, many: usize) -> Result<Vec<Alert>, AllocError> {
    let mut alerts = Vec::new(alloc);
    for _ in 0..many {
        alerts.push(alert(Kind::Remove, 0, 1, 5))?;
    }
    Ok(alerts)
}

/// Whether a copy of a batch of two alerts has two.
fn copy_has_two(alloc: Global) -> Result<bool, BatchError> {
    let batch = Batch::new(alloc, &alerts(alloc, 2)?)?;
    Ok(batch.try_copy(alloc)?.alerts().len() == 2)
}

#[test]
fn out_of_memory_in_batches(rt: HostRuntime) -> Result<(), Fail> {
    assert!(rt; copy_has_two(rt.alloc())?);
    Ok(())
}
