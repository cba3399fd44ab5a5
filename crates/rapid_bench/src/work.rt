// Work whose time is measured.
use crate::frames::{encode_often, feed_often};
use crate::votes::vote;
use anyhow::Result;
use rapid_config::{Configuration, Cut};
use rapid_message::Message;
use rapid_rings::Rings;
use std::alloc::Global;
use std::hint::black_box;

/// Work whose time is measured.
#[derive(Clone, Copy)]
pub enum Work<'a> {
    /// The vote of each member for this cut.
    Votes(&'a Cut),
    /// The rings of the configuration.
    RingsNew(&'a Configuration),
    /// The rings of the configuration, made from those of the one before.
    RingsNext(&'a Rings, &'a Configuration),
    /// The configuration of these bytes.
    FromBytes(&'a [u8]),
    /// The frame of a message, again and again, which is so long.
    Encode(&'a Message, usize),
    /// A frame that is fed again and again, in pieces of this many bytes.
    Feed(&'a [u8], usize),
}

impl Work<'_> {
    /// Does the work once, and answers how many units of work that was.
    pub fn once(&self, alloc: Global) -> Result<u64> {
        match self {
            Work::Votes(cut) => vote(alloc, cut),
            Work::RingsNew(configuration) => make_rings(alloc, configuration),
            Work::RingsNext(before, configuration) => next_rings(alloc, before, configuration),
            Work::FromBytes(bytes) => read_configuration(alloc, bytes),
            Work::Encode(message, length) => encode_often(alloc, message, *length),
            Work::Feed(frame, piece) => feed_often(alloc, frame, *piece),
        }
    }
}

/// Makes the rings of the configuration.
fn make_rings(alloc: Global, configuration: &Configuration) -> Result<u64> {
    let _ = black_box(Rings::new(alloc, black_box(configuration))?);
    Ok(1)
}

/// Makes the rings of the configuration from those of the one before.
fn next_rings(alloc: Global, before: &Rings, configuration: &Configuration) -> Result<u64> {
    let _ = black_box(before.next(alloc, black_box(configuration))?);
    Ok(1)
}

/// Reads a configuration from its bytes.
fn read_configuration(alloc: Global, bytes: &[u8]) -> Result<u64> {
    let _ = black_box(Configuration::from_bytes(alloc, black_box(bytes))?);
    Ok(1)
}
