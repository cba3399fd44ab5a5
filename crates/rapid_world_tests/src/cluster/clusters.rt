// What is written of clusters.

ghost use Rattle.std.specs.Prelude.{◌≤◌};

use rapid_cluster::{Crew, run_cluster};
use rapid_config::Params;
use rapid_text::RunFault;
use std::alloc::Global;
use std::io;
use std::io::{ErrorKind, Write};
use std::sync::Wait;
use std::test::*;
use std::thread::Threads;

/// What stands after the first line, once three nodes have met.
const THREE_NODES: &[u8] = b"node 1 height 1 members 1 2 3
node 2 height 1 members 1 2 3
node 3 height 1 members 1 2 3
agree yes
";

/// The reports here have fewer bytes than this, so that a text with room for this many does not
/// grow.
const ROOM: usize = 200;

/// What is written of a cluster of this many nodes, with 10 rings and the marks 9 and 3.
fn written<R: Threads + Wait + Sync>(
    rt: &R,
    alloc: Global,
    nodes: u16,
    workers: usize,
    turns: usize,
) -> Result<Vec<u8>, Fail>
    requires { workers ≤ 32 }
{
    let mut text = Vec::with_capacity(alloc, ROOM)?;
    let params = Params::new(10, 9, 3)?;
    let crew = Crew { workers, turns };
    run_cluster(rt, alloc, &mut text, params, nodes, crew)?;
    Ok(text)
}

/// What is written of two nodes after nine turns, with these rings and marks.
fn after_nine_turns<R: Threads + Wait + Sync>(
    rt: &R,
    alloc: Global,
    params: Params,
) -> Result<Vec<u8>, Fail> {
    let mut text = Vec::with_capacity(alloc, ROOM)?;
    let crew = Crew {
        workers: 1,
        turns: 9,
    };
    run_cluster(rt, alloc, &mut text, params, 2, crew)?;
    Ok(text)
}

/// Whether a text is these two, one after the other.
fn is_joined(text: &[u8], first: &[u8], rest: &[u8]) -> bool {
    text.strip_prefix(first) == Some(rest)
}

#[test]
fn three_nodes_agree_whoever_takes_the_turns(rt: HostRuntime) -> Result<(), Fail> {
    let alone = written(&rt, rt.alloc(), 3, 1, 40)?;
    assert!(rt; is_joined(alone.as_slice(), b"events 42\n", THREE_NODES));
    let many = written(&rt, rt.alloc(), 3, 32, 2)?;
    assert!(rt; is_joined(many.as_slice(), b"events 66\n", THREE_NODES));
    Ok(())
}

#[test]
fn a_node_without_a_view_is_joining(rt: HostRuntime) -> Result<(), Fail> {
    let text = written(&rt, rt.alloc(), 2, 1, 1)?;
    let expected = b"events 2\nnode 1 height 0 members 1\nnode 2 joining\nagree yes\n";
    assert_eq!(rt; text.as_slice(), expected.as_slice());
    Ok(())
}

/// A joiner asks once a ring: with three rings the last turn of nine delivers its Confirm, with ten
/// the fifth of its ten requests.
#[test]
fn a_cluster_has_the_parameters_that_it_was_given(rt: HostRuntime) -> Result<(), Fail> {
    let few = after_nine_turns(&rt, rt.alloc(), Params::new(3, 3, 1)?)?;
    let met = b"events 10\nnode 1 height 1 members 1 2\nnode 2 height 1 members 1 2\nagree yes\n";
    assert_eq!(rt; few.as_slice(), met.as_slice());
    let many = after_nine_turns(&rt, rt.alloc(), Params::new(10, 9, 3)?)?;
    let waits = b"events 10\nnode 1 height 0 members 1\nnode 2 joining\nagree yes\n";
    assert_eq!(rt; many.as_slice(), waits.as_slice());
    Ok(())
}

/// A writer that takes three bytes at its first call, and fails at every other one.
#[derive(Drop)]
struct Narrow {
    written: Vec<u8>,
}

impl Write for Narrow {
    fn write(&mut self, buf: &[u8]) -> io::Result<usize> {
        if !self.written.is_empty() {
            return Err(io::Error::from(ErrorKind::Other));
        }
        let count = buf.len().min(3);
        self.written.extend_from_slice(&buf[..count])?;
        Ok(count)
    }

    fn flush(&mut self) -> io::Result<()> {
        Ok(())
    }
}

#[test]
fn a_writer_that_fails_ends_the_report(rt: HostRuntime) -> Result<(), Fail> {
    let mut narrow = Narrow {
        written: Vec::new(rt.alloc()),
    };
    let params = Params::new(3, 3, 1)?;
    let crew = Crew {
        workers: 1,
        turns: 1,
    };
    let ended = run_cluster(&rt, rt.alloc(), &mut narrow, params, 1, crew);
    assert!(rt; matches!(ended, Err(RunFault::Write)));
    assert_eq!(rt; narrow.written.as_slice(), b"eve".as_slice());
    Ok(())
}
