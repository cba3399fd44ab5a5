// Cuts of lists that are made elsewhere, each against the cut of the same values.

use crate::config::lists::{bytes_of, has, read};
use crate::numbered::{full, process, processes, tagged};
use crate::short_lists::{LISTS, PAIRS, ascend, list, order, seven};
use rapid_config::{ConfigError, Cut};
use rapid_endpoint::{Process, ProcessList};
use std::alloc::{AllocError, Global};
use std::cmp::Ordering;
use std::test::Fail;

/// Why processes, of which there are not too many, are no cut.
fn fault(processes: &[Process]) -> Option<ConfigError> {
    if processes.is_empty() {
        Some(ConfigError::EmptyCut)
    } else if ascend(processes) {
        None
    } else {
        Some(ConfigError::NotSorted)
    }
}

/// The cut of the list of these processes.
fn of_values(alloc: Global, processes: &[Process]) -> Result<Cut, ConfigError> {
    Cut::of_list(alloc, ProcessList::from_slice(alloc, processes)?)
}

/// The cut of the list of the bytes of these processes.
fn of_bytes(alloc: Global, processes: &[Process]) -> Result<Cut, ConfigError> {
    let bytes = bytes_of(alloc, processes)?;
    match read(alloc, processes.len(), &bytes)? {
        Some(list) => Cut::of_list(alloc, list),
        None => Err(ConfigError::Truncated),
    }
}

/// Whether a cut has these processes, and equals its copy and the cut of a copy of its list.
fn is_of(alloc: Global, cut: &Cut, processes: &[Process]) -> Result<bool, ConfigError> {
    let copy = cut.try_copy(alloc)?;
    let again = Cut::of_list(alloc, cut.processes().try_copy()?)?;
    Ok(has(cut.processes(), processes) && copy == *cut && again == *cut)
}

/// Whether the cuts of these processes that are made in three ways are equal, or all refused for this
/// reason.
fn are_alike(
    alloc: Global,
    processes: &[Process],
    fault: Option<ConfigError>,
) -> Result<bool, Fail> {
    let values = Vec::from_slice(alloc, processes)?;
    match (
        Cut::new(values),
        of_values(alloc, processes),
        of_bytes(alloc, processes),
    ) {
        (Ok(first), Ok(second), Ok(third)) => Ok(
            fault.is_none()
                && first == second
                && second == third
                && is_of(alloc, &first, processes)?
                && is_of(alloc, &second, processes)?
                && is_of(alloc, &third, processes)?,
        ),
        (Err(first), Err(second), Err(third)) => {
            Ok(fault == Some(first) && first == second && second == third)
        }
        _ => Ok(false),
    }
}

#[test]
fn cuts_made_in_different_ways_are_equal(rt: HostRuntime) -> Result<(), Fail> {
    let seven = seven()?;
    for number in 0..LISTS {
        let processes = list(rt.alloc(), &seven, number)?;
        assert!(rt;
            are_alike(rt.alloc(), &processes, fault(&processes))?,
            "at list {number}"
        );
    }
    Ok(())
}

/// More processes are above fewer; of as many, the first that differs decides.
fn expected(mine: &[Process], others: &[Process]) -> Ordering {
    if mine.len() == others.len() {
        order(mine, others)
    } else {
        mine.len().cmp(&others.len())
    }
}

/// Whether the cut of values and a cut of bytes are in the order of their processes.
fn are_ordered(alloc: Global, mine: &[Process], others: &[Process]) -> Result<bool, Fail> {
    let one = Cut::new(Vec::from_slice(alloc, mine)?)?;
    let other = of_bytes(alloc, others)?;
    let order = expected(mine, others);
    Ok(
        one.cmp(&other) == order
            && (one == other) == (order == Ordering::Equal)
            && (one < other) == (order == Ordering::Less),
    )
}

/// The lists of at most two processes that are cuts.
fn short_cuts(alloc: Global, seven: &[Process]) -> Result<Vec<usize>, AllocError> {
    let mut numbers = Vec::new(alloc);
    for number in 0..PAIRS {
        if fault(&list(alloc, seven, number)?).is_none() {
            numbers.push(number)?;
        }
    }
    Ok(numbers)
}

/// Of the seven there are 7 cuts of one process and 21 of two.
#[test]
fn cuts_made_in_different_ways_are_in_order(rt: HostRuntime) -> Result<(), Fail> {
    let seven = seven()?;
    let numbers = short_cuts(rt.alloc(), &seven)?;
    assert!(rt; numbers.len() == 28);
    for one in &numbers {
        for other in &numbers {
            let mine = list(rt.alloc(), &seven, *one)?;
            let others = list(rt.alloc(), &seven, *other)?;
            assert!(rt;
                are_ordered(rt.alloc(), &mine, &others)?,
                "at lists {one} and {other}"
            );
        }
    }
    Ok(())
}

#[test]
fn cuts_of_lists_that_differ_in_tags_alone_are_in_order(rt: HostRuntime) -> Result<(), Fail> {
    let bare = of_values(rt.alloc(), &[process(1), process(2)])?;
    let tagged = of_values(rt.alloc(), &[process(1), tagged(2, &[b"db"])?])?;
    let full = of_values(rt.alloc(), &[process(1), full(2)?])?;
    assert!(rt; bare != tagged && tagged != full && bare != full);
    assert!(rt; bare < tagged && tagged < full && bare < full);
    Ok(())
}

/// Why the cut of the list of the processes from 1 to `n`, and of this one more, is refused.
fn refusal(alloc: Global, n: u16, more: Option<Process>) -> Result<Option<ConfigError>, Fail> {
    let mut list = processes(alloc, n)?;
    if let Some(process) = more {
        list.push(process)?;
    }
    Ok(of_values(alloc, &list).err())
}

/// That there are too many is told before their order.
#[test]
fn a_cut_of_a_list_has_at_most_1536_processes(rt: HostRuntime) -> Result<(), Fail> {
    let low = Some(process(1));
    assert!(rt; refusal(rt.alloc(), 1536, None)?.is_none());
    assert!(rt; refusal(rt.alloc(), 1535, low)? == Some(ConfigError::NotSorted));
    assert!(rt; refusal(rt.alloc(), 1537, None)? == Some(ConfigError::TooMany));
    assert!(rt; refusal(rt.alloc(), 1536, low)? == Some(ConfigError::TooMany));
    Ok(())
}
