// Alerts on processes that are spelt, each against the alert on the process itself.

use crate::numbered::{full, process, shared, tagged};
use crate::short_lists::{LISTS, list, seven};
use rapid_alerts::{AlertList, AlertRef, Kind, SpeltError};
use rapid_config::ConfigId;
use rapid_endpoint::{Process, ReadError};
use std::alloc::{AllocError, Global};
use std::test::Fail;

/// The alerts of process 1 that remove these subjects, in a list.
fn list_on(alloc: Global, subjects: &[Process]) -> Result<AlertList, AllocError> {
    let mut list = AlertList::new(alloc, shared(alloc, &process(1))?, ConfigId::zero());
    for subject in subjects {
        list.push(subject, 0, Kind::Remove)?;
    }
    Ok(list)
}

/// The alert of a list at a place, if there is one.
fn listed(list: &AlertList, at: usize) -> Option<AlertRef<'_>> {
    if at < list.len() {
        Some(list.alert_ref(at))
    } else {
        None
    }
}

/// Whether two lists have the same alerts, one by one.
fn have_the_same(list: &AlertList, other: &AlertList) -> bool {
    for at in 0..list.len() {
        if listed(list, at) != listed(other, at) {
            return false;
        }
    }
    list.len() == other.len() && list.says_same(other)
}

/// Whether an alert that lets in the process in front of these bytes is added as one on this process,
/// which takes this many of them.
fn adds(
    alloc: Global,
    subjects: &[Process],
    bytes: &[u8],
    (subject, length): (&Process, usize),
) -> Result<bool, AllocError> {
    let mut list = list_on(alloc, subjects)?;
    let mut expected = list_on(alloc, subjects)?;
    expected.push(subject, 3, Kind::Join)?;
    let added = list.push_spelt(3, Kind::Join, bytes);
    Ok(added == Ok(length) && have_the_same(&list, &expected))
}

/// Whether an alert on the process in front of these bytes is refused since there is none, and the
/// list stays as it was.
fn refuses(
    alloc: Global,
    subjects: &[Process],
    bytes: &[u8],
    error: ReadError,
) -> Result<bool, AllocError> {
    let mut list = list_on(alloc, subjects)?;
    let refused = list.push_spelt(0, Kind::Remove, bytes);
    let expected = list_on(alloc, subjects)?;
    Ok(refused == Err(SpeltError::NoProcess(error)) && have_the_same(&list, &expected))
}

/// Whether an alert is added just as the process is read that is in front of the bytes.
fn agrees(alloc: Global, subjects: &[Process], bytes: &[u8]) -> Result<bool, AllocError> {
    match Process::read(bytes) {
        Ok((subject, length)) => adds(alloc, subjects, bytes, (&subject, length)),
        Err(error) => refuses(alloc, subjects, bytes, error),
    }
}

/// Whether an alert on this process is added to those on these, whatever follows its bytes.
fn is_added(alloc: Global, subjects: &[Process], subject: &Process) -> Result<bool, AllocError> {
    let mut bytes = subject.to_bytes(alloc)?;
    let length = bytes.len();
    let alone = adds(alloc, subjects, &bytes, (subject, length))?;
    bytes.extend_from_slice(b"behind")?;
    Ok(alone && adds(alloc, subjects, &bytes, (subject, length))?)
}

#[test]
fn a_process_at_the_last_place_is_found(rt: HostRuntime) -> Result<(), Fail> {
    let subjects = [process(5), tagged(6, &[b"db"])?];
    assert!(rt; is_added(rt.alloc(), &subjects, &tagged(6, &[b"db"])?)?);
    assert!(rt; is_added(rt.alloc(), &[full(5)?], &full(5)?)?);
    Ok(())
}

/// Behind the last place is the first one. So the third alert stands there, and process 6 next to it.
#[test]
fn a_process_at_the_next_place_is_found(rt: HostRuntime) -> Result<(), Fail> {
    let two = [process(5), process(6)];
    assert!(rt; is_added(rt.alloc(), &two, &process(5))?);
    let three = [process(5), process(6), process(5)];
    assert!(rt; is_added(rt.alloc(), &three, &process(6))?);
    Ok(())
}

#[test]
fn a_new_process_is_added(rt: HostRuntime) -> Result<(), Fail> {
    assert!(rt; is_added(rt.alloc(), &[], &process(5))?);
    assert!(rt; is_added(rt.alloc(), &[process(5)], &full(6)?)?);
    Ok(())
}

/// Whether an alert on each of the seven is added to those on these.
fn each_is_added(
    alloc: Global,
    seven: &[Process],
    subjects: &[Process],
) -> Result<bool, AllocError> {
    for subject in seven {
        if !is_added(alloc, subjects, subject)? {
            return Ok(false);
        }
    }
    Ok(true)
}

/// Among the seven are four that differ in tags alone.
#[test]
fn alerts_on_each_process_are_added_to_each_short_list(rt: HostRuntime) -> Result<(), Fail> {
    let seven = seven()?;
    for number in 0..LISTS {
        let subjects = list(rt.alloc(), &seven, number)?;
        assert!(rt;
            each_is_added(rt.alloc(), &seven, &subjects)?,
            "at list {number}"
        );
    }
    Ok(())
}

/// The process with the number 2 and the tags `db` and `web`.
const DB_WEB: [u8; 30] = [
    0, 0, 0, 0, 0, 0, 0, 0, 0, 0, 0, 0, 0, 0, 0, 2, 0x7f, 0, 0, 1, 0, 2, 2, 2, b'd', b'b', 3, b'w',
    b'e', b'b',
];

/// No process, and why: what is met first.
const OTHERS: [(&[u8], ReadError); 7] = [
    (&[], ReadError::Truncated),
    (&[9; 22], ReadError::Truncated),
    (&[9; 23], ReadError::BadTags),
    (
        &[
            0, 0, 0, 0, 0, 0, 0, 0, 0, 0, 0, 0, 0, 0, 0, 2, 0x7f, 0, 0, 1, 0, 2,
        ],
        ReadError::Truncated,
    ),
    (
        &[
            0, 0, 0, 0, 0, 0, 0, 0, 0, 0, 0, 0, 0, 0, 0, 2, 0x7f, 0, 0, 1, 0, 2, 1, 65,
        ],
        ReadError::BadTags,
    ),
    (
        &[
            0, 0, 0, 0, 0, 0, 0, 0, 0, 0, 0, 0, 0, 0, 0, 2, 0x7f, 0, 0, 1, 0, 2, 2, 2, b'd', b'b',
        ],
        ReadError::Truncated,
    ),
    (
        &[
            0, 0, 0, 0, 0, 0, 0, 0, 0, 0, 0, 0, 0, 0, 0, 2, 0x7f, 0, 0, 1, 0, 2, 2, 2, b'd', b'b',
            2, b'd', b'b',
        ],
        ReadError::BadTags,
    ),
];

#[test]
fn where_no_process_is_no_alert_is_added(rt: HostRuntime) -> Result<(), Fail> {
    let subjects = [process(1), process(2), tagged(2, &[b"db", b"web"])?];
    for (bytes, error) in &OTHERS {
        assert!(rt; refuses(rt.alloc(), &[], bytes, *error)?, "at {bytes:?}");
        assert!(rt;
            refuses(rt.alloc(), &subjects, bytes, *error)?,
            "at {bytes:?}"
        );
    }
    Ok(())
}

#[test]
fn each_change_of_a_byte_of_a_known_process_is_read_alike(rt: HostRuntime) -> Result<(), Fail> {
    let subjects = [tagged(2, &[b"db"])?, tagged(2, &[b"db", b"web"])?];
    assert!(rt; agrees(rt.alloc(), &subjects, &DB_WEB)?);
    for place in 0..DB_WEB.len() {
        for byte in 0..=255 {
            let mut bytes = DB_WEB;
            bytes[place] = byte;
            assert!(rt;
                agrees(rt.alloc(), &subjects, &bytes)?,
                "with {byte} at {place}"
            );
        }
    }
    Ok(())
}

#[test]
fn each_beginning_of_a_known_process_is_too_short(rt: HostRuntime) -> Result<(), Fail> {
    let subjects = [tagged(2, &[b"db"])?, tagged(2, &[b"db", b"web"])?];
    for length in 0..DB_WEB.len() {
        assert!(rt;
            refuses(
                rt.alloc(),
                &subjects,
                &DB_WEB[..length],
                ReadError::Truncated
            )?,
            "of {length} bytes"
        );
    }
    Ok(())
}

/// The alerts of process 1 that remove the 65,536 processes of all numbers, in a list.
fn list_on_all(alloc: Global) -> Result<AlertList, AllocError> {
    let mut list = AlertList::new(alloc, shared(alloc, &process(1))?, ConfigId::zero());
    for number in 0..=u16::MAX {
        list.push(&process(number), 0, Kind::Remove)?;
    }
    Ok(list)
}

/// What comes of an alert on the bytes of a process.
fn spelt(
    alloc: Global,
    list: &mut AlertList,
    subject: &Process,
) -> Result<Result<usize, SpeltError>, AllocError> {
    let bytes = subject.to_bytes(alloc)?;
    Ok(list.push_spelt(0, Kind::Remove, &bytes))
}

/// There is no place for a 65,537th subject, also for one that stands neither at the last place nor at
/// the next. Alerts more on subjects there are added.
#[test]
fn a_65537th_subject_is_refused(rt: HostRuntime) -> Result<(), Fail> {
    let mut list = list_on_all(rt.alloc())?;
    let full = Err(SpeltError::OutOfMemory);
    assert!(rt; spelt(rt.alloc(), &mut list, &tagged(7, &[b"db"])?)? == full);
    assert!(rt; spelt(rt.alloc(), &mut list, &process(7))? == full);
    let none = list.push_spelt(0, Kind::Remove, &[9; 23]);
    assert!(rt; none == Err(SpeltError::NoProcess(ReadError::BadTags)));
    assert!(rt; list.len() == 65_536);
    assert!(rt; spelt(rt.alloc(), &mut list, &process(65_535))? == Ok(23));
    assert!(rt; spelt(rt.alloc(), &mut list, &process(0))? == Ok(23));
    assert!(rt; spelt(rt.alloc(), &mut list, &process(1))? == Ok(23));
    assert!(rt; spelt(rt.alloc(), &mut list, &process(7))? == full);
    assert!(rt; list.len() == 65_539);
    Ok(())
}

/// Errors, and how they are told.
const TEXTS: [(SpeltError, &str); 3] = [
    (
        SpeltError::NoProcess(ReadError::Truncated),
        "no process stands in front of the bytes: the bytes end too early",
    ),
    (
        SpeltError::NoProcess(ReadError::BadTags),
        "no process stands in front of the bytes: the bytes have wrong tags",
    ),
    (SpeltError::OutOfMemory, "out of memory"),
];

#[test]
fn refusals_are_told(rt: HostRuntime) -> Result<(), Fail> {
    for (error, text) in &TEXTS {
        assert!(rt; error.to_string(rt.alloc())?.as_str() == *text);
    }
    Ok(())
}
