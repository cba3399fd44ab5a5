// Messages to measure with.

use crate::members::{cut, process};
use anyhow::{Context, Result, bail};
use rapid_config::ConfigId;
use rapid_endpoint::{Process, SharedProcess};
use rapid_message::{Body, Message};
use rapid_wire::Feed;
use std::alloc::Global;

/// The fast vote of a member for the cut of the processes up to a number, in a list of its own.
pub fn vote(alloc: Global, sender: Process, id: ConfigId, last: u16) -> Result<Message> {
    let cut = cut(alloc, 1, last)?;
    let sender = SharedProcess::new(alloc, &sender)?;
    Ok(Message::new(sender, Body::FastVote(id, cut))?)
}

/// Adds alerts of a batch that are to remove these members, each on its ring.
fn put_removals(frame: &mut Vec<u8>, subjects: &[(u8, Process)]) -> Result<()> {
    for (ring, subject) in subjects {
        frame.extend_from_slice(&[*ring, 1])?;
        subject.append_to(frame)?;
    }
    Ok(())
}

/// The frame of a batch of an observer that is to remove these members, at most 2,048, each on its
/// ring.
fn batch_frame(
    alloc: Global,
    observer: Process,
    id: ConfigId,
    subjects: &[(u8, Process)],
) -> Result<Vec<u8>> {
    if subjects.len() > 2048 {
        bail!("a batch has at most 2,048 alerts");
    }
    let count = subjects.len() as u16;
    let mut rest = Vec::new(alloc);
    rest.extend_from_slice(&[2, 1])?;
    observer.append_to(&mut rest)?;
    rest.extend_from_slice(&id.bytes())?;
    rest.extend_from_slice(&count.to_be_bytes())?;
    put_removals(&mut rest, subjects)?;
    let mut frame = Vec::new(alloc);
    frame.extend_from_slice(&u32::try_from(rest.len())?.to_be_bytes())?;
    frame.extend_from_slice(rest.as_slice())?;
    Ok(frame)
}

/// The batch of an observer that is to remove these members, each on its ring, as it is read from
/// its frame.
pub fn batch(
    alloc: Global,
    observer: Process,
    id: ConfigId,
    subjects: &[(u8, Process)],
) -> Result<Message> {
    let frame = batch_frame(alloc, observer, id, subjects)?;
    let mut feed = Feed::new(alloc);
    feed.feed(&frame)?;
    feed.next()?.context("the frame is not whole")
}

/// The members from one number to another, each on this many rings.
pub fn on_rings(alloc: Global, first: u16, last: u16, rings: u8) -> Result<Vec<(u8, Process)>> {
    let mut subjects = Vec::new(alloc);
    for n in first..=last {
        for ring in 0..rings {
            subjects.push((ring, process(n)))?;
        }
    }
    Ok(subjects)
}
