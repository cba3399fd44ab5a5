// Frames on their way, and a running node: each call says by its error that memory ran out, or works.

use bytes::Bytes;
use rapid_config::Params;
use rapid_endpoint::{Endpoint, ProcessId, Tags};
use rapid_options::NodeOptions;
use rapid_run::{Streams, run_node};
use rapid_service::RunningFault;
use rapid_transport::{Metered, SenderQueue, receive};
use rapid_wire::Feed;
use std::alloc::Global;
use std::io::{self, Read, Write};
use std::net::{Net, TcpListener, TcpStream};
use std::random::RandomSource;
use std::sync::Wait;
use std::test::Fail;
use std::thread::Threads;
use std::time::Clock;

/// The frame in which the process with the number 2 asks to join.
const PRE_JOIN: [u8; 29] = [
    0, 0, 0, 0x19, 2, 8, 0, 0, 0, 0, 0, 0, 0, 0, 0, 0, 0, 0, 0, 0, 0, 2, 0x7f, 0, 0, 1, 0, 2, 0,
];

/// A reader that gives at most this many bytes a call.
#[derive(Drop)]
struct Slow<'a> {
    input: &'a [u8],
    step: usize,
}

impl Read for Slow<'_> {
    fn read(&mut self, buf: &mut [u8]) -> io::Result<usize> {
        let count = self.input.len().min(buf.len()).min(self.step);
        let (front, rest) = self.input.split_at(count);
        buf[..count].copy_from_slice(front);
        self.input = rest;
        Ok(count)
    }
}

#[test]
fn out_of_memory_in_receiving(rt: HostRuntime) -> Result<(), Fail> {
    let mut reader = Metered::new(Slow {
        input: &PRE_JOIN,
        step: 5,
    });
    let mut feed = Feed::new(rt.alloc());
    let message = receive(&rt, &mut reader, &mut feed)?;
    assert!(rt; message.is_some());
    Ok(())
}

#[test]
fn out_of_memory_in_a_queue(rt: HostRuntime) -> Result<(), Fail> {
    let (mut queue, mut end) = SenderQueue::new(rt.alloc(), 3)?;
    let frame = Bytes::copy_from_slice(rt.alloc(), &PRE_JOIN)?;
    queue.put(&rt, Endpoint::new([127, 0, 0, 1], 7), frame.clone()?)?;
    assert!(rt; end.take(&rt).is_some() && queue.losses() == 0);
    Ok(())
}

/// Runs a node at this port, which founds a cluster.
fn ran<R, I, O, E>(
    rt: &R,
    alloc: Global,
    port: u16,
    reader: &mut I,
    writer: &mut O,
    err: &mut E,
) -> Result<(), RunningFault>
where
    R: Net<Listener = TcpListener, Stream = TcpStream>
        + Threads
        + Wait
        + Clock
        + RandomSource
        + Sync,
    I: Read + Send,
    O: Write + Send,
    E: Write + Send,
{
    let Ok(params) = Params::new(10, 9, 3) else {
        return Err(RunningFault::Halted);
    };
    let id = [0, 0, 0, 0, 0, 0, 0, 0, 0, 0, 0, 0, 0, 0, 0, 1];
    let asked = NodeOptions {
        listen: Endpoint::new([127, 0, 0, 1], port),
        id: Some(ProcessId::new(id)),
        tags: Tags::none(),
        join: None,
        params,
        tick_ms: 0,
        probers: 1,
    };
    let streams = Streams {
        reader,
        writer,
        err,
    };
    run_node(rt, alloc, asked, rt, streams)
}

/// What a founder prints for its lines. It has no observer to tell that it leaves.
const WHOLE: &[u8] = b"height 0 members 127.0.0.1:7413\nheight 0 members 127.0.0.1:7413\n";

#[test]
fn out_of_memory_in_a_founder(rt: HostRuntime) -> Result<(), Fail> {
    let mut input = b"tick 3\nleave\nview\nquit\n".as_slice();
    let mut printed = Vec::with_capacity(rt.alloc(), 256)?;
    let mut err = Vec::with_capacity(rt.alloc(), 256)?;
    let ended = ran(&rt, rt.alloc(), 7_413, &mut input, &mut printed, &mut err);
    assert!(rt; WHOLE.starts_with(printed.as_slice()));
    if ended == Err(RunningFault::OutOfMemory) {
        assert_eq!(rt; err.as_slice(), b"error: out of memory\n".as_slice());
    }
    ended?;
    assert!(rt; printed.as_slice() == WHOLE && err.is_empty());
    Ok(())
}
