// All lists of at most three of seven processes, by numbers.

use crate::numbered::{at, full, process, tagged};
use rapid_endpoint::{ParseError, Process};
use std::alloc::{AllocError, Global};
use std::cmp::Ordering;

/// How many processes there are.
const PROCESSES: usize = 7;

/// The most of them in a list.
const MOST: usize = 3;

/// How many lists there are: one of none, 7 of one, 49 of two and 343 of three.
pub const LISTS: usize = 400;

/// How many of them have at most two processes: these have the numbers below.
pub const PAIRS: usize = 57;

/// Seven processes, in order. Four of them have one identifier and one endpoint, and other tags: none,
/// one, and eight of 64 bytes each.
pub fn seven() -> Result<[Process; PROCESSES], ParseError> {
    Ok([
        process(1),
        tagged(1, &[b"db"])?,
        tagged(1, &[b"web"])?,
        full(1)?,
        at(1, 2),
        process(2),
        tagged(2, &[b"db"])?,
    ])
}

/// The list with this number.
pub fn list(alloc: Global, seven: &[Process], number: usize) -> Result<Vec<Process>, AllocError> {
    let mut list = Vec::new(alloc);
    let mut left = number;
    for _ in 0..MOST {
        let Some(others) = left.checked_sub(1) else {
            return Ok(list);
        };
        if let Some(process) = seven.get(others % PROCESSES) {
            list.push(*process)?;
        }
        left = others / PROCESSES;
    }
    Ok(list)
}

/// Whether each process is above the one before it.
pub fn ascend(processes: &[Process]) -> bool {
    for pair in processes.windows(2) {
        if pair[0] >= pair[1] {
            return false;
        }
    }
    true
}

/// How lists of one length compare: as the first processes that differ do.
pub fn order(mine: &[Process], others: &[Process]) -> Ordering {
    for (one, other) in mine.iter().zip(others) {
        if one != other {
            return one.cmp(other);
        }
    }
    Ordering::Equal
}
