// Lists of processes as their bytes, each against the same list of values.

ghost use Rattle.std.specs.Prelude.{◌≡◌, true};
ghost use Rattle.rapid_model.specs.Reading.{processes_at};
ghost use Rattle.rapid_endpoint.specs.Ends.{AreAll};

use crate::config::readings::BITS;
use crate::numbered::{full, process, tagged};
use crate::second::{between, end_of_processes};
use crate::short_lists::{LISTS, PAIRS, ascend, list, order, seven};
use rapid_endpoint::{Process, ProcessList, ReadError};
use std::alloc::{AllocError, Global};
use std::cmp::Ordering;
use std::test::Fail;

/// The processes with the numbers 1, with the tag `db`, 2, with `db` and `web`, and 3, without tags.
const THREE: [u8; 79] = [
    0, 0, 0, 0, 0, 0, 0, 0, 0, 0, 0, 0, 0, 0, 0, 1, 0x7f, 0, 0, 1, 0, 1, 1, 2, b'd', b'b', 0, 0, 0,
    0, 0, 0, 0, 0, 0, 0, 0, 0, 0, 0, 0, 2, 0x7f, 0, 0, 1, 0, 2, 2, 2, b'd', b'b', 3, b'w', b'e',
    b'b', 0, 0, 0, 0, 0, 0, 0, 0, 0, 0, 0, 0, 0, 0, 0, 3, 0x7f, 0, 0, 1, 0, 3, 0,
];

/// How many processes are looked for in their bytes, and where they end.
const ENDS: [(usize, Result<usize, ReadError>); 6] = [
    (0, Ok(0)),
    (1, Ok(26)),
    (2, Ok(56)),
    (3, Ok(79)),
    (4, Err(ReadError::Truncated)),
    (usize::MAX, Err(ReadError::Truncated)),
];

#[test]
fn processes_end_where_their_tags_do(rt: HostRuntime) {
    for (count, end) in &ENDS {
        assert!(rt;
            ProcessList::end_in(*count, &THREE) == *end,
            "of {count} processes"
        );
    }
    assert!(rt; ProcessList::end_in(0, &[]) == Ok(0));
}

/// Whether up to four processes end where the second reader finds them to.
fn end_alike(bytes: &[u8]) -> bool {
    for count in 0..5 {
        if ProcessList::end_in(count, bytes) != end_of_processes(bytes, 0, count) {
            return false;
        }
    }
    true
}

/// Wherever the bit stands.
#[test]
fn each_change_of_a_bit_ends_alike(rt: HostRuntime) {
    for place in 0..THREE.len() {
        for bit in &BITS {
            let mut bytes = THREE;
            bytes[place] ^= *bit;
            assert!(rt; end_alike(&bytes), "with {bit} at {place}");
        }
    }
}

/// Where the tags of the three stand, with their numbers and lengths, and ends.
const TAGS: [(usize, usize); 3] = [(22, 26), (48, 56), (78, 79)];

/// Whether the three end alike with any byte at a place.
fn end_alike_with_any(place: usize) -> bool {
    for byte in 0..=255 {
        let mut bytes = THREE;
        if let Some(at) = bytes.get_mut(place) {
            *at = byte;
        }
        if !end_alike(&bytes) {
            return false;
        }
    }
    true
}

#[test]
fn each_change_of_a_byte_of_tags_ends_alike(rt: HostRuntime) {
    for (start, end) in &TAGS {
        for place in *start..*end {
            assert!(rt; end_alike_with_any(place), "at {place}");
        }
    }
}

#[test]
fn each_beginning_ends_alike(rt: HostRuntime) {
    for length in 0..=THREE.len() {
        assert!(rt; end_alike(between(&THREE, 0, length)), "of {length} bytes");
    }
}

/// Whether these bytes are just this many processes.
fn are_just(count: usize, bytes: &[u8]) -> bool
    ensures { result ≡ true → AreAll (processes_at count bytes.now) }
{
    match ProcessList::end_in(count, bytes) {
        Ok(end) => end == bytes.len(),
        Err(_) => false,
    }
}

/// The list of this many processes, if these are their bytes.
pub fn read(alloc: Global, count: usize, bytes: &[u8]) -> Result<Option<ProcessList>, AllocError> {
    if !are_just(count, bytes) {
        return Ok(None);
    }
    let list = ProcessList::of_bytes(alloc, count, bytes)?;
    Ok(Some(list))
}

/// The bytes of these processes, one after another.
pub fn bytes_of(alloc: Global, processes: &[Process]) -> Result<Vec<u8>, AllocError> {
    let mut bytes = Vec::new(alloc);
    for process in processes {
        bytes.extend_from_slice(process.to_bytes(alloc)?.as_slice())?;
    }
    Ok(bytes)
}

/// Whether these are the processes of a list, in order.
pub fn has(list: &ProcessList, processes: &[Process]) -> bool {
    let mut left = list.iter();
    for process in processes {
        if left.next() != Some(*process) {
            return false;
        }
    }
    left.next().is_none()
}

/// Whether a list appends these bytes to others.
fn appends(alloc: Global, list: &ProcessList, bytes: &[u8]) -> Result<bool, AllocError> {
    let mut out = Vec::from_slice(alloc, b"before")?;
    list.append_to(&mut out)?;
    let (before, appended) = (between(&out, 0, 6), between(&out, 6, out.len()));
    Ok(before == b"before".as_slice() && appended == bytes)
}

/// Whether a list is as these processes are, whose bytes are these.
fn is_as(
    alloc: Global,
    list: &ProcessList,
    processes: &[Process],
    bytes: &[u8],
) -> Result<bool, AllocError> {
    list.tell();
    Ok(
        list.len() == processes.len()
            && list.is_empty() == processes.is_empty()
            && list.bytes_len() == bytes.len()
            && list.ascends() == ascend(processes)
            && has(list, processes)
            && list.to_vec(alloc)?.as_slice() == processes
            && appends(alloc, list, bytes)?,
    )
}

/// Whether the list of these processes, a copy of it and the list of their bytes are as they are, and
/// all three the same.
fn behaves(alloc: Global, processes: &[Process]) -> Result<bool, AllocError> {
    let bytes = bytes_of(alloc, processes)?;
    let list = ProcessList::from_slice(alloc, processes)?;
    let copy = list.try_copy()?;
    let Some(read) = read(alloc, processes.len(), &bytes)? else {
        return Ok(false);
    };
    Ok(
        is_as(alloc, &list, processes, &bytes)?
            && is_as(alloc, &copy, processes, &bytes)?
            && is_as(alloc, &read, processes, &bytes)?
            && list == copy
            && list == read,
    )
}

/// Of the seven, 1 list of none ascends, 7 of one, 21 of two and 35 of three.
#[test]
fn each_short_list_is_as_its_processes_are(rt: HostRuntime) -> Result<(), Fail> {
    let seven = seven()?;
    let mut ascending = 0usize;
    for number in 0..LISTS {
        let processes = list(rt.alloc(), &seven, number)?;
        assert!(rt; behaves(rt.alloc(), &processes)?, "at list {number}");
        ascending = ascending.saturating_add(usize::from(ascend(&processes)));
    }
    assert!(rt; ascending == 64);
    Ok(())
}

/// Whether two lists are equal, and in order if they have one length, just as their processes are.
fn compare_alike(alloc: Global, mine: &[Process], others: &[Process]) -> Result<bool, AllocError> {
    let one = ProcessList::from_slice(alloc, mine)?;
    let other = ProcessList::from_slice(alloc, others)?;
    if one.len() != other.len() {
        return Ok(one != other);
    }
    Ok(one.compare(&other) == order(mine, others) && (one == other) == (mine == others))
}

/// Whether one of the lists compares with each of those of at most two processes as values do.
fn compares_with_each(
    alloc: Global,
    seven: &[Process],
    mine: &[Process],
) -> Result<bool, AllocError> {
    for number in 0..PAIRS {
        let others = list(alloc, seven, number)?;
        if !compare_alike(alloc, mine, &others)? {
            return Ok(false);
        }
    }
    Ok(true)
}

#[test]
fn short_lists_compare_as_their_processes_do(rt: HostRuntime) -> Result<(), Fail> {
    let seven = seven()?;
    for number in 0..PAIRS {
        let mine = list(rt.alloc(), &seven, number)?;
        assert!(rt;
            compares_with_each(rt.alloc(), &seven, &mine)?,
            "at list {number}"
        );
    }
    Ok(())
}

/// How two lists of one length compare; no two others do.
fn compared(one: &ProcessList, other: &ProcessList) -> Option<Ordering> {
    if one.len() == other.len() {
        Some(one.compare(other))
    } else {
        None
    }
}

/// Processes of one identifier and one endpoint, from low to high by their tags.
#[test]
fn lists_that_differ_in_tags_alone_are_not_equal(rt: HostRuntime) -> Result<(), Fail> {
    let bare = ProcessList::from_slice(rt.alloc(), &[process(2), process(3)])?;
    let tagged = ProcessList::from_slice(rt.alloc(), &[tagged(2, &[b"db"])?, process(3)])?;
    let full = ProcessList::from_slice(rt.alloc(), &[full(2)?, process(3)])?;
    assert!(rt; bare != tagged && tagged != full && bare != full);
    assert!(rt; compared(&bare, &tagged) == Some(Ordering::Less));
    assert!(rt; compared(&full, &tagged) == Some(Ordering::Greater));
    assert!(rt; compared(&full, &full) == Some(Ordering::Equal));
    Ok(())
}

/// A process takes 23 bytes without tags and 543 with the longest ones.
#[test]
fn a_list_takes_the_bytes_of_its_processes(rt: HostRuntime) -> Result<(), Fail> {
    let list = ProcessList::from_slice(rt.alloc(), &[process(1), full(2)?, process(3)])?;
    assert!(rt; list.bytes_len() == 589 && list.len() == 3 && list.ascends());
    let none = ProcessList::from_slice(rt.alloc(), &[])?;
    assert!(rt; none.bytes_len() == 0 && none.is_empty() && none.ascends());
    Ok(())
}

/// A list that is gone over can be gone over anew from any place.
#[test]
fn what_is_left_of_a_list_can_be_copied(rt: HostRuntime) -> Result<(), Fail> {
    let list = ProcessList::from_slice(rt.alloc(), &[process(1), full(2)?, process(3)])?;
    let mut left = list.iter();
    assert!(rt; left.next() == Some(process(1)));
    let mut copy = left;
    assert!(rt; left.next() == Some(full(2)?) && left.next() == Some(process(3)));
    assert!(rt; left.next().is_none() && copy.next() == Some(full(2)?));
    Ok(())
}
