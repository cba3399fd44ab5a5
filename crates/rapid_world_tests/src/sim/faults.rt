// Faults of the input and the output of `sim`.

use crate::sim::worked::joined;
use rapid_sim::{run_sim, run_sim_counted};
use rapid_text::RunFault;
use std::io;
use std::io::{ErrorKind, Read, Write};
use std::test::Fail;

/// A reader that gives its bytes, five at a time, and then fails.
#[derive(Drop)]
struct Faulty<'a> {
    input: &'a [u8],
}

impl Read for Faulty<'_> {
    fn read(&mut self, buf: &mut [u8]) -> io::Result<usize> {
        if self.input.is_empty() {
            return Err(io::Error::from(ErrorKind::Other));
        }
        let count = self.input.len().min(buf.len()).min(5);
        let (front, rest) = self.input.split_at(count);
        buf[..count].copy_from_slice(front);
        self.input = rest;
        Ok(count)
    }
}

/// A writer that has room for this many bytes, and takes none beyond.
#[derive(Drop)]
struct Fixed<'a> {
    bytes: &'a mut [u8],
    length: usize,
}

impl Write for Fixed<'_> {
    fn write(&mut self, buf: &[u8]) -> io::Result<usize> {
        if self.length > self.bytes.len() {
            return Ok(0);
        }
        let room = self.bytes.len() - self.length;
        let count = room.min(buf.len());
        let end = self.length + count;
        self.bytes[self.length..end].copy_from_slice(&buf[..count]);
        self.length = end;
        Ok(count)
    }

    fn flush(&mut self) -> io::Result<()> {
        Ok(())
    }
}

const VIEWS: &[u8] = b"node 1 height 0 members 1 2\nnode 2 height 0 members 1 2\n";

#[test]
fn ends_by_name_if_a_read_fails(rt: HostRuntime) {
    let mut reader = Faulty {
        input: b"params 3 3 1\nfound 1 2\npack",
    };
    let mut output = Vec::new(rt.alloc());
    let ran = run_sim(rt.alloc(), &mut reader, &mut output);
    assert_eq!(rt; ran, Err(RunFault::Read));
    // the line that did not end is not answered
    assert_eq!(rt; output.as_slice(), VIEWS);
}

#[test]
fn ends_by_name_if_a_write_fails(rt: HostRuntime) -> Result<(), Fail> {
    let input = joined(rt.alloc(), "params 3 3 1 / found 1 2")?;
    let mut bytes = [0u8; 40];
    let mut writer = Fixed {
        bytes: &mut bytes,
        length: 0,
    };
    let ran = run_sim(rt.alloc(), &mut input.as_slice(), &mut writer);
    assert_eq!(rt; ran, Err(RunFault::Write));
    assert!(rt; VIEWS.starts_with(bytes.as_slice()));
    Ok(())
}

/// After a fault the count of how often memory ran out is still given. If it is 0, what was
/// written is a beginning of what the input prints.
#[test]
fn a_fault_leaves_the_count(rt: HostRuntime) -> Result<(), Fail> {
    let mut reader = Faulty {
        input: b"params 3 3 1\nfound 1 2\npack",
    };
    let mut output = Vec::new(rt.alloc());
    let unread = run_sim_counted(rt.alloc(), &mut reader, &mut output);
    assert_eq!(rt; unread.ended, Err(RunFault::Read));
    assert_eq!(rt; unread.met, 0);
    assert_eq!(rt; output.as_slice(), VIEWS);
    let input = joined(rt.alloc(), "params 3 3 1 / found 1 2")?;
    let mut bytes = [0u8; 40];
    let mut writer = Fixed {
        bytes: &mut bytes,
        length: 0,
    };
    let unwritten = run_sim_counted(rt.alloc(), &mut input.as_slice(), &mut writer);
    assert_eq!(rt; unwritten.ended, Err(RunFault::Write));
    assert_eq!(rt; unwritten.met, 0);
    assert!(rt; VIEWS.starts_with(bytes.as_slice()));
    Ok(())
}
