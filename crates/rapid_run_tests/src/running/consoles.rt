// What waits to be printed.

use rapid_service::{Console, RunningFault};
use std::process::Abort;
use std::test::Fail;

/// How many bytes a line has here, and how many lines may wait: 1 MiB.
const LINE: usize = 1_024;

const LINES: u32 = 1_024;

#[test]
fn at_most_a_mebibyte_waits_to_be_printed(rt: HostRuntime) -> Result<(), Fail> {
    let console = Console::new(rt.alloc());
    let mut line = Vec::new(rt.alloc());
    line.resize(LINE, b'-')?;
    for _ in 0..LINES {
        assert_eq!(rt; console.add(&rt, line.as_slice()), Ok(()));
    }
    assert_eq!(rt; console.add(&rt, b"\n"), Err(RunningFault::Write));
    assert_eq!(rt; console.add(&rt, b""), Ok(()));
    // what waits is printed, and nothing else
    console.close(&rt);
    let mut printed = Vec::new(rt.alloc());
    assert!(rt; console.print(&rt, &mut printed));
    assert_eq!(rt; printed.len(), 1_048_576);
    assert_eq!(rt; console.add(&rt, line.as_slice()), Ok(()));
    Ok(())
}
