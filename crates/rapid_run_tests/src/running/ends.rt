// Nodes that end while their input is open, or while nobody reads their output.

use crate::running::devices::Broken;
use crate::running::rows::{At, ran};
use rapid_run::Polled;
use rapid_service::RunningFault;
use std::alloc::{AllocError, Global};
use std::io::{self, ErrorKind, PipeReader, PipeWriter, Read, Write};
use std::process::Abort;
use std::test::Fail;
use std::time::{Duration, Instant};

/// How many lines are asked for: what they print is more than a pipe has room for.
const LINES: u32 = 2_500;

/// Within how many milliseconds a node ends. It takes far less, but the machine may be busy.
const SOON: u64 = 10_000;

#[test]
fn a_fault_ends_a_node_whose_input_is_open(rt: HostRuntime) -> Result<(), Fail> {
    let begun = Instant::now(&rt)?;
    let (reader, mut typed) = io::pipe(&rt)?;
    typed.write_all(b"view\n")?;
    let mut err = Vec::new(rt.alloc());
    let ended = ran(
        &rt,
        rt.alloc(),
        At {
            port: 7_481,
            seed: Some(7_482),
        },
        &mut Polled::new(reader),
        &mut Broken,
        &mut err,
    );
    assert_eq!(rt; ended, Err(RunningFault::Write));
    assert_eq!(rt;
        err.as_slice(),
        b"error: the output could not be written\n".as_slice()
    );
    drop(typed);
    assert!(rt; begun.elapsed(&rt)? < Duration::from_millis(SOON));
    Ok(())
}

/// Many lines that ask for the view, and one that ends the node.
fn many_views(alloc: Global) -> Result<Vec<u8>, AllocError> {
    let mut lines = Vec::new(alloc);
    for _ in 0..LINES {
        lines.extend_from_slice(b"view\n")?;
    }
    lines.extend_from_slice(b"quit\n")?;
    Ok(lines)
}

#[test]
fn quit_ends_a_node_whose_output_nobody_reads(rt: HostRuntime) -> Result<(), Fail> {
    let begun = Instant::now(&rt)?;
    let (unread, writer) = io::pipe(&rt)?;
    let lines = many_views(rt.alloc())?;
    let mut err = Vec::new(rt.alloc());
    let ended = ran(
        &rt,
        rt.alloc(),
        At {
            port: 7_483,
            seed: None,
        },
        &mut lines.as_slice(),
        &mut Polled::new(writer),
        &mut err,
    );
    assert_eq!(rt; ended, Err(RunningFault::Write));
    assert!(rt; begun.elapsed(&rt)? < Duration::from_millis(SOON));
    drop(unread);
    Ok(())
}

#[test]
fn quit_ends_a_node_whose_input_stays_open(rt: HostRuntime) -> Result<(), Fail> {
    let (reader, mut typed) = io::pipe(&rt)?;
    typed.write_all(b"quit\n")?;
    let mut printed = Vec::new(rt.alloc());
    let mut err = Vec::new(rt.alloc());
    let ended = ran(
        &rt,
        rt.alloc(),
        At {
            port: 7_484,
            seed: None,
        },
        &mut Polled::new(reader),
        &mut printed,
        &mut err,
    );
    assert_eq!(rt; ended, Ok(()));
    assert_eq!(rt;
        printed.as_slice(),
        b"height 0 members 127.0.0.1:7484\n".as_slice()
    );
    drop(typed);
    Ok(())
}

/// Writes until the pipe has no room. How much it took.
fn fill(writer: &mut Polled<PipeWriter>) -> io::Result<usize> {
    let mut taken = 0usize;
    for _ in 0..10_000 {
        match writer.write(&[7; 10_000]) {
            Ok(count) => taken = taken.saturating_add(count),
            Err(error) if error.kind() == ErrorKind::Interrupted => return Ok(taken),
            Err(error) => return Err(error),
        }
    }
    Ok(taken)
}

/// Reads until the pipe is empty. How much it gave.
fn drain(reader: &mut Polled<PipeReader>) -> io::Result<usize> {
    let mut given = 0usize;
    for _ in 0..10_000 {
        match reader.read(&mut [0; 10_000]) {
            Ok(0) => return Ok(given),
            Ok(count) => given = given.saturating_add(count),
            Err(error) if error.kind() == ErrorKind::Interrupted => return Ok(given),
            Err(error) => return Err(error),
        }
    }
    Ok(given)
}

#[test]
fn no_call_of_a_polled_stream_waits(rt: HostRuntime) -> Result<(), Fail> {
    let begun = Instant::now(&rt)?;
    let (reader, writer) = io::pipe(&rt)?;
    let mut reader = Polled::new(reader);
    let mut writer = Polled::new(writer);
    assert_eq!(rt; drain(&mut reader)?, 0);
    let taken = fill(&mut writer)?;
    assert!(rt; taken > 4_096);
    assert_eq!(rt; drain(&mut reader)?, taken);
    assert_eq!(rt; fill(&mut writer)?, taken);
    writer.flush()?;
    assert_eq!(rt; drain(&mut reader)?, taken);
    drop(writer);
    assert_eq!(rt; reader.read(&mut [0; 8])?, 0);
    assert!(rt; begun.elapsed(&rt)? < Duration::from_millis(SOON));
    Ok(())
}
