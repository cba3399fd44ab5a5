// The engines of `detect` and `cluster`. A run ends with an error that says that memory ran out,
// and has written a beginning of its output.

ghost use Rattle.std.specs.Prelude.{◌≤◌};

use rapid_cluster::{Crew, run_cluster};
use rapid_config::Params;
use rapid_detect::run_detect;
use rapid_text::RunFault;
use std::alloc::Global;
use std::io;
use std::io::Write;
use std::sync::Wait;
use std::test::*;
use std::thread::Threads;

/// A writer that allocates nothing. It has room for this many bytes, and takes none beyond.
#[derive(Drop)]
pub(crate) struct Fixed<'a> {
    pub(crate) bytes: &'a mut [u8],
    pub(crate) length: usize,
}

impl Write for Fixed<'_> {
    fn write(&mut self, buf: &[u8]) -> io::Result<usize> {
        if self.length > self.bytes.len() {
            return Ok(0);
        }
        let room = self.bytes.len() - self.length;
        let count = room.min(buf.len());
        let end = self.length + count;
        self.bytes[self.length..end].copy_from_slice(&buf[..count]);
        self.length = end;
        Ok(count)
    }

    fn flush(&mut self) -> io::Result<()> {
        Ok(())
    }
}

/// Two processes of which the first is an observer of the second on two rings.
const IMPLIED_INPUT: &[u8] =
    b"bad\nwatermarks 4 3 2\nedge 0 1 5\nedge 1 2 5\nedge 2 3 5\nedge 3 4 5\nedge 0 1 6\n\
      edge 1 2 6\nedge 2 5 6\nedge 3 5 6\nremove 0 1 5\nremove 1 2 5\nremove 2 3 5\nremove 0 1 6\n\
      remove 1 2 6\nbatch\n";

/// Wherever memory runs out, the run ends by name, with a beginning of its output.
#[test]
fn ends_by_name_if_out_of_memory(rt: HostRuntime) {
    let whole = b"refused BadLine\ncut 5 6\n";
    let mut output = [0u8; 64];
    let mut writer = Fixed {
        bytes: &mut output,
        length: 0,
    };
    let mut input = IMPLIED_INPUT;
    let ran = run_detect(rt.alloc(), &mut input, &mut writer);
    let length = writer.length;
    assert!(rt; length <= whole.len() && output[..length] == whole[..length]);
    match ran {
        Ok(()) => assert_eq!(rt; length, whole.len()),
        Err(fault) => assert_eq!(rt; fault, RunFault::OutOfMemory),
    }
}

/// The reports here have fewer bytes than this, so that a text with room for this many does not
/// grow.
const ROOM: usize = 200;

/// What is written of a cluster of this many nodes, with 10 rings and the marks 9 and 3.
fn written<R: Threads + Wait + Sync>(
    rt: &R,
    alloc: Global,
    nodes: u16,
    workers: usize,
    turns: usize,
) -> Result<Vec<u8>, Fail>
    requires { workers ≤ 32 }
{
    let mut text = Vec::with_capacity(alloc, ROOM)?;
    let params = Params::new(10, 9, 3)?;
    let crew = Crew { workers, turns };
    run_cluster(rt, alloc, &mut text, params, nodes, crew)?;
    Ok(text)
}

#[test]
fn a_report_may_end_if_out_of_memory(rt: HostRuntime) -> Result<(), Fail> {
    let text = written(&rt, rt.alloc(), 2, 2, 6)?;
    assert!(rt; text.as_slice().ends_with(b"\nagree yes\n"));
    Ok(())
}
