// How lines are read, and how many are taken.

use crate::detect::worked::joined;
use rapid_detect::run_detect;
use std::test::Fail;

#[test]
fn reads_lines_by_their_rules(rt: HostRuntime) -> Result<(), Fail> {
    let rows: [(&[u8], &[u8]); 14] = [
        (b"# a comment\n\n   \nbatch", b"refused NoWatermarks\n"),
        (b"watermarks 4 3 2\r\nbatch\r\n", b"none\n"),
        (b"watermarks 4 3 2\r\nbatch\r", b"refused BadLine\n"),
        (b"watermarks 4 3 2\nbatch\r\r\n", b"refused BadLine\n"),
        (b"  watermarks   4 3   2  \n batch \n", b"none\n"),
        (b"watermarks\t4 3 2\n", b"refused BadLine\n"),
        (b" # no comment\n", b"refused BadLine\n"),
        (b"#\x7f\n", b"refused BadLine\n"),
        (
            b"watermarks 04 3 2\nwatermarks 4 3 256\nwatermarks 4 3\nwatermarks 4 3 2 1\n",
            b"refused BadLine\nrefused BadLine\nrefused BadLine\nrefused BadLine\n",
        ),
        (
            b"joiner 0\njoiner 65536\njoiner 065\njoiner 65535\n",
            b"refused BadLine\nrefused BadLine\nrefused BadLine\nrefused NoWatermarks\n",
        ),
        (
            b"edge 256 1 2\nedge 255 1 2\nedge 0 3 3\n",
            b"refused BadLine\nrefused NoWatermarks\nrefused BadLine\n",
        ),
        (
            b"watermarks 1 1 1\nwatermarks 1 1 1\nbatch now\n",
            b"refused BadLine\nrefused BadLine\n",
        ),
        (
            b"Batch\nbatches\n18446744073709551616\n",
            b"refused BadLine\nrefused BadLine\nrefused BadLine\n",
        ),
        (
            b"watermarks 18446744073709551617 1 1\n",
            b"refused BadLine\n",
        ),
    ];
    for (input, wanted) in rows {
        let mut output = Vec::new(rt.alloc());
        run_detect(rt.alloc(), &mut &*input, &mut output)?;
        assert_eq!(rt; output.as_slice(), wanted, "at {input:?}");
    }
    Ok(())
}

#[test]
fn measures_lines(rt: HostRuntime) -> Result<(), Fail> {
    // the length of a comment, what stands at its end, and whether it is skipped
    let rows: [(usize, &[u8], bool); 7] = [
        (256, b"\n", true),
        (257, b"\n", false),
        (256, b"\r\n", true),
        (257, b"\r\n", false),
        (256, b"", true),
        (256, b"\r", false),
        (10_000, b"\r\n", false),
    ];
    for (length, end, passed) in rows {
        let mut input = vec![in rt.alloc(); b'#'; length]?;
        input.extend_from_slice(end)?;
        let mut output = Vec::new(rt.alloc());
        run_detect(rt.alloc(), &mut input.as_slice(), &mut output)?;
        assert_eq!(rt; output.is_empty(), passed, "at {length}, {end:?}");
    }
    Ok(())
}

#[test]
fn keeps_its_limits(rt: HostRuntime) -> Result<(), Fail> {
    let mut input = joined(rt.alloc(), "watermarks 16 9 3")?;
    for _ in 0..513 {
        input.extend_from_slice(b"joiner 9\n")?;
    }
    for ring in 0..16u16 {
        for subject in 1..1026u16 {
            input.extend_from_slice(format!(in rt.alloc();
                "edge {ring} 2000 {subject}\n"
            )?.as_bytes())?;
        }
    }
    for _ in 0..16_385 {
        input.extend_from_slice(b"remove 0 1 2\n")?;
    }
    input.extend_from_slice(b"batch\n")?;
    let mut output = Vec::new(rt.alloc());
    run_detect(rt.alloc(), &mut input.as_slice(), &mut output)?;
    let many = b"refused TooMany\n".len();
    // one joiner line, sixteen edges of which the last is one too many by number, and one alert
    assert_eq!(rt; output.len(), 18 * many + b"none skipped 16384\n".len());
    assert!(rt; output.as_slice().ends_with(b"none skipped 16384\n"));
    Ok(())
}

#[test]
fn counts_observed_members(rt: HostRuntime) -> Result<(), Fail> {
    let mut input = joined(rt.alloc(), "watermarks 1 1 1")?;
    for subject in 1..1026u16 {
        input.extend_from_slice(format!(in rt.alloc(); "edge 0 2000 {subject}\n")?.as_bytes())?;
    }
    // the 1,025th subject is one too many also if the ring is out of range, until one is a joiner
    input.extend_from_slice(b"edge 1 2000 1025\njoiner 1\nedge 0 2000 1025\nedge 0 2001 1025\n")?;
    let mut output = Vec::new(rt.alloc());
    run_detect(rt.alloc(), &mut input.as_slice(), &mut output)?;
    assert_eq!(rt;
        output.as_slice(),
        b"refused TooMany\nrefused TooMany\nrefused EdgeTwice\n".as_slice()
    );
    Ok(())
}
