// Processes that are shared, and processes compared with bytes that may spell them.

use crate::config::readings::BITS;
use crate::numbered::{full, process, shared, tagged};
use crate::second::between;
use crate::short_lists::seven;
use rapid_endpoint::{ParseError, Process, SharedProcess};
use std::alloc::{AllocError, Global};
use std::test::Fail;

/// Whether what is shared is the process at this place, and none of the others.
fn is_only(one: &SharedProcess, processes: &[Process], place: usize) -> bool {
    for (at, process) in processes.iter().enumerate() {
        let expected = at == place;
        if one.is(process) != expected || (*one.get() == *process) != expected {
            return false;
        }
    }
    true
}

/// Four of the seven differ in tags alone, two of them in the port alone, and two in the identifier
/// alone.
#[test]
fn what_is_shared_is_its_process_alone(rt: HostRuntime) -> Result<(), Fail> {
    let seven = seven()?;
    for (place, process) in seven.iter().enumerate() {
        let one = shared(rt.alloc(), process)?;
        let other = one.share()?;
        assert!(rt; is_only(&one, &seven, place), "at {place}");
        assert!(rt; is_only(&other, &seven, place), "at {place}");
    }
    Ok(())
}

/// Whether what is shared is equal to what shares the process at this place, and to none of the others.
fn equals_only(
    alloc: Global,
    one: &SharedProcess,
    processes: &[Process],
    place: usize,
) -> Result<bool, AllocError> {
    for (at, process) in processes.iter().enumerate() {
        if (*one == shared(alloc, process)?) != (at == place) {
            return Ok(false);
        }
    }
    Ok(true)
}

#[test]
fn shares_are_equal_as_their_processes_are(rt: HostRuntime) -> Result<(), Fail> {
    let seven = seven()?;
    for (place, process) in seven.iter().enumerate() {
        let one = shared(rt.alloc(), process)?;
        let other = one.clone()?;
        assert!(rt; equals_only(rt.alloc(), &one, &seven, place)?, "at {place}");
        assert!(rt;
            equals_only(rt.alloc(), &other, &seven, place)?,
            "at {place}"
        );
    }
    Ok(())
}

/// What shares a process that was shared; the first is gone then.
fn second_share(alloc: Global, process: &Process) -> Result<SharedProcess, AllocError> {
    let first = shared(alloc, process)?;
    first.share()
}

#[test]
fn a_process_stays_while_one_shares_it(rt: HostRuntime) -> Result<(), Fail> {
    let full = full(5)?;
    let share = second_share(rt.alloc(), &full)?;
    assert!(rt; *share.get() == full && share.is(&full));
    Ok(())
}

/// The process with the number 2 without tags, with the tag `db`, with `db` and `web`, and with the
/// longest tags.
fn four() -> Result<[Process; 4], ParseError> {
    Ok([
        process(2),
        tagged(2, &[b"db"])?,
        tagged(2, &[b"db", b"web"])?,
        full(2)?,
    ])
}

/// The bytes of a process, and some more.
fn with_more(alloc: Global, process: &Process) -> Result<Vec<u8>, AllocError> {
    let mut bytes = process.to_bytes(alloc)?;
    bytes.extend_from_slice(b"behind")?;
    Ok(bytes)
}

#[test]
fn a_process_is_spelt_by_its_bytes_whatever_is_behind(rt: HostRuntime) -> Result<(), Fail> {
    for process in &four()? {
        let bytes = process.to_bytes(rt.alloc())?;
        assert!(rt; process.is_spelt_at(&bytes));
        let bytes = with_more(rt.alloc(), process)?;
        assert!(rt; process.is_spelt_at(&bytes));
    }
    Ok(())
}

/// Whether the bytes spell the process at this place, and none of the others.
fn spell_only(bytes: &[u8], processes: &[Process], place: usize) -> bool {
    for (at, process) in processes.iter().enumerate() {
        if process.is_spelt_at(bytes) != (at == place) {
            return false;
        }
    }
    true
}

#[test]
fn the_bytes_of_a_process_spell_no_other(rt: HostRuntime) -> Result<(), Fail> {
    let seven = seven()?;
    for (place, process) in seven.iter().enumerate() {
        let bytes = process.to_bytes(rt.alloc())?;
        assert!(rt; spell_only(&bytes, &seven, place), "at {place}");
        let bytes = with_more(rt.alloc(), process)?;
        assert!(rt; spell_only(&bytes, &seven, place), "at {place}");
    }
    Ok(())
}

/// Whether a process is spelt by none of the beginnings of its bytes.
fn needs_all(alloc: Global, process: &Process) -> Result<bool, AllocError> {
    let bytes = process.to_bytes(alloc)?;
    for length in 0..bytes.len() {
        if process.is_spelt_at(between(&bytes, 0, length)) {
            return Ok(false);
        }
    }
    Ok(true)
}

#[test]
fn no_beginning_of_its_bytes_spells_a_process(rt: HostRuntime) -> Result<(), Fail> {
    for process in &four()? {
        assert!(rt; needs_all(rt.alloc(), process)?, "at {process:?}");
    }
    Ok(())
}

/// The bytes with this one at a place.
fn with_byte(alloc: Global, bytes: &[u8], place: usize, byte: u8) -> Result<Vec<u8>, AllocError> {
    let mut copy = Vec::from_slice(alloc, bytes)?;
    if let Some(at) = copy.get_mut(place) {
        *at = byte;
    }
    Ok(copy)
}

/// Whether a process is spelt with this byte at a place only if the byte is there anyway.
fn tells(
    alloc: Global,
    process: &Process,
    bytes: &[u8],
    (place, byte): (usize, u8),
) -> Result<bool, AllocError> {
    let changed = with_byte(alloc, bytes, place, byte)?;
    Ok(process.is_spelt_at(&changed) == (bytes.get(place) == Some(&byte)))
}

/// Whether a process tells each change of the byte at a place.
fn tells_byte(
    alloc: Global,
    process: &Process,
    bytes: &[u8],
    place: usize,
) -> Result<bool, AllocError> {
    for byte in 0..=255 {
        if !tells(alloc, process, bytes, (place, byte))? {
            return Ok(false);
        }
    }
    Ok(true)
}

/// Whether a process tells each change of a byte of its own, whatever is behind.
fn tells_each_byte(alloc: Global, process: &Process) -> Result<bool, AllocError> {
    let bytes = with_more(alloc, process)?;
    for place in 0..process.length() {
        if !tells_byte(alloc, process, &bytes, place)? {
            return Ok(false);
        }
    }
    Ok(true)
}

/// Of the longest one see below.
#[test]
fn a_process_is_not_spelt_once_a_byte_of_it_is_changed(rt: HostRuntime) -> Result<(), Fail> {
    let four = four()?;
    for process in four.iter().take(3) {
        assert!(rt; tells_each_byte(rt.alloc(), process)?, "at {process:?}");
    }
    Ok(())
}

/// Whether a process tells each change of a bit of this byte, which is its own at a place.
fn tells_bits(
    alloc: Global,
    process: &Process,
    bytes: &[u8],
    (place, byte): (usize, u8),
) -> Result<bool, AllocError> {
    for bit in &BITS {
        if !tells(alloc, process, bytes, (place, byte ^ *bit))? {
            return Ok(false);
        }
    }
    Ok(true)
}

/// Each byte of the shorter ones is changed to any other. Of the 543 bytes here bits are turned.
#[test]
fn a_process_is_not_spelt_once_a_bit_of_it_is_turned(rt: HostRuntime) -> Result<(), Fail> {
    let full = full(2)?;
    let own = full.to_bytes(rt.alloc())?;
    let bytes = with_more(rt.alloc(), &full)?;
    for (place, byte) in own.iter().enumerate() {
        assert!(rt;
            tells_bits(rt.alloc(), &full, &bytes, (place, *byte))?,
            "at {place}"
        );
    }
    Ok(())
}
