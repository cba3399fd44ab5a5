// Messages as frames, and back.
use crate::figure::measure;
use crate::members::process;
use crate::messages::{batch, on_rings, vote};
use crate::work::Work;
use anyhow::{Result, bail};
use rapid_config::ConfigId;
use rapid_message::Message;
use rapid_wire::{Feed, encode};
use std::alloc::Global;
use std::hint::black_box;
use std::time::Clock;

/// About how many bytes a run writes or reads.
const BYTES: usize = 400_000;

/// How often a frame of this many bytes is written or read in a run.
fn times(length: usize) -> usize {
    (BYTES / length.max(1)).max(1)
}

/// How many thousands of bytes this many frames of this length have.
fn thousands(length: usize, times: usize) -> u64 {
    (length.saturating_mul(times) / 1000) as u64
}

/// Encodes a message of this length again and again, and answers how many thousands of bytes that
/// makes.
pub fn encode_often(alloc: Global, message: &Message, length: usize) -> Result<u64> {
    let times = times(length);
    for _ in 0..times {
        let _ = black_box(encode(alloc, black_box(message))?);
    }
    Ok(thousands(length, times))
}

/// Feeds a frame in pieces of this many bytes, asks for a message after each, and answers how many
/// came.
fn feed_frame(feed: &mut Feed, frame: &[u8], piece: usize) -> Result<usize> {
    let mut messages = 0usize;
    for bytes in frame.chunks(piece.max(1)) {
        feed.feed(black_box(bytes))?;
        if let Some(message) = feed.next()? {
            let _ = black_box(message);
            messages = messages.saturating_add(1);
        }
    }
    Ok(messages)
}

/// Feeds a frame again and again in pieces of this many bytes, and answers how many thousands of
/// bytes that makes.
pub fn feed_often(alloc: Global, frame: &[u8], piece: usize) -> Result<u64> {
    let mut feed = Feed::new(alloc);
    let times = times(frame.len());
    for _ in 0..times {
        if feed_frame(&mut feed, frame, piece)? != 1 {
            bail!("a frame is not one message");
        }
    }
    Ok(thousands(frame.len(), times))
}

/// Prints the figure of a frame that is fed in pieces of this many bytes.
fn print_feeding<R: Print + Clock>(
    rt: &R,
    alloc: Global,
    name: &str,
    frame: &[u8],
    piece: usize,
) -> Result<()> {
    measure(rt, alloc, name, 50, &Work::Feed(frame, piece))
}

/// Prints the figures of a vote that is fed whole and in pieces of 1,500, 7 and 1 bytes.
fn print_fed_vote<R: Print + Clock>(rt: &R, alloc: Global, frame: &[u8]) -> Result<()> {
    print_feeding(rt, alloc, "feed_vote_whole", frame, frame.len())?;
    print_feeding(rt, alloc, "feed_vote_1500", frame, 1500)?;
    print_feeding(rt, alloc, "feed_vote_7", frame, 7)?;
    print_feeding(rt, alloc, "feed_vote_1", frame, 1)
}

/// Prints the figures of a batch that is fed in the same ways.
fn print_fed_batch<R: Print + Clock>(rt: &R, alloc: Global, frame: &[u8]) -> Result<()> {
    print_feeding(rt, alloc, "feed_batch_whole", frame, frame.len())?;
    print_feeding(rt, alloc, "feed_batch_1500", frame, 1500)?;
    print_feeding(rt, alloc, "feed_batch_7", frame, 7)?;
    print_feeding(rt, alloc, "feed_batch_1", frame, 1)
}

/// Prints the figures of a vote.
fn print_vote<R: Print + Clock>(rt: &R, alloc: Global, vote: &Message) -> Result<()> {
    let frame = encode(alloc, vote)?;
    print_fed_vote(rt, alloc, &frame)?;
    measure(
        rt,
        alloc,
        "encode_vote",
        50,
        &Work::Encode(vote, frame.len()),
    )
}

/// Prints the figures of a batch.
fn print_batch<R: Print + Clock>(rt: &R, alloc: Global, batch: &Message) -> Result<()> {
    let frame = encode(alloc, batch)?;
    print_fed_batch(rt, alloc, &frame)?;
    measure(
        rt,
        alloc,
        "encode_batch",
        50,
        &Work::Encode(batch, frame.len()),
    )
}

/// The batch of 2,048 alerts.
fn great_batch(alloc: Global, id: ConfigId) -> Result<Message> {
    let subjects = on_rings(alloc, 1, 128, 16)?;
    batch(alloc, process(1), id, &subjects)
}

/// Prints the figures `encode_vote`, `encode_batch`, `feed_vote_whole` and so on: a vote for a cut
/// of 100 processes and a batch of 2,048 alerts.
pub fn print<R: Print + Clock>(rt: &R, alloc: Global) -> Result<()> {
    let id = ConfigId::new([7; 32]);
    let vote = vote(alloc, process(1), id, 100)?;
    print_vote(rt, alloc, &vote)?;
    let batch = great_batch(alloc, id)?;
    print_batch(rt, alloc, &batch)
}
