// Frames alone: messages as bytes, and back.

use anyhow::Result;
use rapid_message::Message;
use rapid_wire::{Feed, encode};
use std::alloc::Global;

/// Writes these messages to the end of a stream, each as a frame.
fn write(alloc: Global, stream: &mut Vec<u8>, messages: &[Message]) -> Result<()> {
    for message in messages {
        stream.extend_from_slice(encode(alloc, message)?.as_slice())?;
    }
    Ok(())
}

/// Reads a piece of a stream. A frame has more than seven bytes, so at most one ends in a piece.
fn read(feed: &mut Feed, come: &mut Vec<Message>, piece: &[u8]) -> Result<()> {
    feed.feed(piece)?;
    if let Some(message) = feed.next()? {
        come.push(message)?;
    }
    Ok(())
}

/// Reads a stream in pieces of seven bytes.
fn read_all(feed: &mut Feed, come: &mut Vec<Message>, stream: &[u8]) -> Result<()> {
    for piece in stream.chunks(7) {
        read(feed, come, piece)?;
    }
    Ok(())
}

/// The messages that come if the bytes of a stream are read in pieces of seven.
fn over(alloc: Global, stream: &[u8]) -> Result<Vec<Message>> {
    let mut feed = Feed::new(alloc);
    let mut come = Vec::new(alloc);
    read_all(&mut feed, &mut come, stream)?;
    Ok(come)
}

/// The messages that come if these are written as frames, one after another, and the bytes are read
/// in pieces of seven.
pub fn over_a_stream(alloc: Global, messages: &[Message]) -> Result<Vec<Message>> {
    let mut stream = Vec::new(alloc);
    write(alloc, &mut stream, messages)?;
    over(alloc, stream.as_slice())
}
