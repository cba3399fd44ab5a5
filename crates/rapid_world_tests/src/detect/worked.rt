// Worked inputs of `detect`.

use rapid_detect::run_detect;
use std::alloc::{AllocError, Global};
use std::test::Fail;

/// What `detect` writes for these lines, which ` / ` separates.
fn printed(alloc: Global, lines: &str) -> Result<Vec<u8>, Fail> {
    let input = joined(alloc, lines)?;
    let mut output = Vec::new(alloc);
    run_detect(alloc, &mut input.as_slice(), &mut output)?;
    Ok(output)
}

/// These lines with their ends.
pub fn joined(alloc: Global, lines: &str) -> Result<Vec<u8>, AllocError> {
    let mut text = Vec::new(alloc);
    if lines.is_empty() {
        return Ok(text);
    }
    for line in lines.split(" / ") {
        text.extend_from_slice(line.as_bytes())?;
        text.push(b'\n')?;
    }
    Ok(text)
}

const IMPLIED: &str =
    "watermarks 4 3 2 / edge 0 1 5 / edge 1 2 5 / edge 2 3 5 / edge 3 4 5 / edge 0 1 6 / \
     edge 1 2 6 / edge 2 5 6 / edge 3 5 6 / remove 0 1 5 / remove 1 2 5 / remove 2 3 5 / \
     remove 0 1 6 / remove 1 2 6 / batch";

#[test]
fn prints_the_worked_outputs(rt: HostRuntime) -> Result<(), Fail> {
    let rows = [
        ("watermarks 4 3 2 / batch", "none"),
        ("", ""),
        (
            "watermarks 4 3 2 / edge 0 1 5 / edge 1 2 5 / edge 2 3 5 / edge 3 4 5 / \
             remove 0 1 5 / remove 1 2 5 / remove 2 3 5 / batch",
            "cut 5",
        ),
        (
            "watermarks 4 3 2 / edge 0 1 5 / edge 1 2 5 / edge 2 3 5 / edge 3 4 5 / \
             remove 2 3 5 / remove 2 3 5 / batch / remove 1 2 5 / remove 1 2 5 / batch / \
             remove 0 1 5 / remove 0 1 5 / batch",
            "none / none / cut 5",
        ),
        (
            "watermarks 4 3 2 / edge 0 1 5 / edge 1 2 5 / edge 2 3 5 / edge 3 4 5 / edge 0 1 6 / \
             edge 1 2 6 / edge 2 3 6 / edge 3 4 6 / remove 0 1 5 / remove 1 2 5 / remove 2 3 5 / \
             remove 0 1 6 / remove 1 2 6 / batch",
            "none",
        ),
        (IMPLIED, "cut 5 6"),
        (
            "watermarks 4 3 2 / edge 0 1 5 / edge 1 2 5 / edge 2 6 5 / edge 3 4 5 / edge 0 1 6 / \
             edge 1 2 6 / edge 2 5 6 / edge 3 4 6 / remove 0 1 5 / remove 1 2 5 / remove 0 1 6 / \
             remove 1 2 6 / batch",
            "cut 5 6",
        ),
        (
            "watermarks 4 3 2 / edge 0 1 5 / edge 1 2 5 / edge 2 3 5 / edge 3 4 5 / edge 0 1 6 / \
             edge 1 5 6 / edge 2 5 6 / edge 3 5 6 / remove 0 1 5 / remove 1 2 5 / remove 2 3 5 / \
             remove 0 1 6 / batch",
            "cut 5",
        ),
        (
            "batch / watermarks 10 11 3 / watermarks 10 9 0 / watermarks 1 1 1 / joiner 9 / \
             edge 0 1 9 / edge 0 2 9 / edge 1 2 9 / remove 0 1 9 / batch / join 0 1 9 / batch / \
             batch",
            "refused NoWatermarks / refused BadParams / refused BadParams / refused EdgeTwice / \
             refused RingRange / none skipped 1 / cut 9 / none",
        ),
        (
            "watermarks 4 3 2 / edge 0 1 5 / remove 0 1 5 / edge 1 2 5 / joiner 7 / batch",
            "refused TooLate / refused TooLate / none",
        ),
        (
            "watermarks 4 3 2 / edge 0 5 5 / remove 0 300 / remove 9 1 5 / batch",
            "refused BadLine / refused BadLine / none skipped 1",
        ),
    ];
    for (lines, wanted) in rows {
        let wanted = joined(rt.alloc(), wanted)?;
        assert_eq!(rt;
            printed(rt.alloc(), lines)?.as_slice(),
            wanted.as_slice(),
            "at {lines}"
        );
    }
    Ok(())
}
