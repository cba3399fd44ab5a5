// Processes that are shared, lists of processes, their cuts, and alerts on processes that are spelt. Each
// call says by its error that memory ran out and changes nothing, or makes what it makes with memory.

ghost use Rattle.std.specs.Prelude.{◌≡◌, true};
ghost use Rattle.rapid_model.specs.Reading.{processes_at};
ghost use Rattle.rapid_endpoint.specs.Ends.{AreAll};

use crate::numbered::{process, shared, tagged};
use rapid_alerts::{AlertList, Kind, SpeltError};
use rapid_config::{ConfigError, ConfigId, Cut};
use rapid_endpoint::{KeptProcess, ParseError, Process, ProcessList, SharedProcess};
use rapid_roster::Roster;
use std::alloc::{AllocError, Global};
use std::test::Fail;

/// The process with the number 1, and the one with the number 2 and the tags `db` and `web`.
fn two() -> Result<[Process; 2], ParseError> {
    Ok([process(1), tagged(2, &[b"db", b"web"])?])
}

/// Their bytes.
const TWO: [u8; 53] = [
    0, 0, 0, 0, 0, 0, 0, 0, 0, 0, 0, 0, 0, 0, 0, 1, 0x7f, 0, 0, 1, 0, 1, 0, 0, 0, 0, 0, 0, 0, 0, 0,
    0, 0, 0, 0, 0, 0, 0, 2, 0x7f, 0, 0, 1, 0, 2, 2, 2, b'd', b'b', 3, b'w', b'e', b'b',
];

/// To share it once more takes no memory.
#[test]
fn out_of_memory_in_shared_processes(rt: HostRuntime) -> Result<(), Fail> {
    let [one, other] = two()?;
    let first = shared(rt.alloc(), &other)?;
    let second = first.share()?;
    assert!(rt; *first.get() == other && *second.get() == other);
    assert!(rt; second.is(&other) && !second.is(&one));
    Ok(())
}

/// What is kept without tags takes no memory, and one with tags no more than to share it.
#[test]
fn out_of_memory_in_kept_processes(rt: HostRuntime) -> Result<(), Fail> {
    for process in &two()? {
        let first = KeptProcess::of(&shared(rt.alloc(), process)?)?;
        let second = KeptProcess::new(rt.alloc(), &process.as_ref())?;
        let copy = second.try_copy()?;
        assert!(rt; first.is(&process.as_ref()) && second.is(&process.as_ref()));
        assert!(rt; copy.share(rt.alloc())?.is(process));
    }
    Ok(())
}

/// Adds a process, unless it is there.
fn add(alloc: Global, roster: &mut Roster, process: &Process) -> Result<(), AllocError> {
    match roster.find(&process.as_ref()) {
        Some(_) => Ok(()),
        None => roster.push(KeptProcess::new(alloc, &process.as_ref())?),
    }
}

/// Adds a process that is not there, again if out of memory: the list is then as it was. Whether it
/// came to stand at the end.
fn add_again(alloc: Global, roster: &mut Roster, process: &Process) -> Result<bool, AllocError> {
    let before = roster.len();
    if add(alloc, roster, process).is_err() {
        if roster.len() != before || roster.find(&process.as_ref()).is_some() {
            return Ok(false);
        }
        add(alloc, roster, process)?;
    }
    Ok(roster.find(&process.as_ref()) == Some(before))
}

/// Two of the three differ in tags alone.
#[test]
fn out_of_memory_leaves_a_roster_as_it_was(rt: HostRuntime) -> Result<(), Fail> {
    let [one, two] = two()?;
    let mut roster = Roster::new(rt.alloc());
    for process in &[one, two, process(2)] {
        assert!(rt; add_again(rt.alloc(), &mut roster, process)?);
    }
    let copy = roster.try_copy(rt.alloc())?;
    assert_eq!(rt; copy.find(&two.as_ref()), Some(1));
    Ok(())
}

/// The process that is made of the bytes of another, to be shared.
fn spelt(alloc: Global, process: &Process) -> Result<SharedProcess, AllocError> {
    let bytes = process.to_bytes(alloc)?;
    SharedProcess::spelt(alloc, &bytes)
}

#[test]
fn out_of_memory_in_processes_made_of_bytes(rt: HostRuntime) -> Result<(), Fail> {
    for process in &two()? {
        let bytes = process.to_bytes(rt.alloc())?;
        assert!(rt; spelt(rt.alloc(), process)?.is(process));
        assert!(rt; KeptProcess::spelt(rt.alloc(), &bytes)?.is(&process.as_ref()));
    }
    Ok(())
}

#[test]
fn out_of_memory_in_lists_of_processes(rt: HostRuntime) -> Result<(), Fail> {
    let two = two()?;
    let list = ProcessList::from_slice(rt.alloc(), &two)?;
    let copy = list.try_copy()?;
    assert!(rt; copy == list);
    let processes = copy.to_vec(rt.alloc())?;
    assert!(rt; processes.as_slice() == two.as_slice());
    Ok(())
}

/// Whether these bytes are just this many processes.
fn are_just(count: usize, bytes: &[u8]) -> bool
    ensures { result ≡ true → AreAll (processes_at count bytes.now) }
{
    match ProcessList::end_in(count, bytes) {
        Ok(end) => end == bytes.len(),
        Err(_) => false,
    }
}

/// The list of this many processes, if these are their bytes.
fn read(alloc: Global, count: usize, bytes: &[u8]) -> Result<Option<ProcessList>, AllocError> {
    if !are_just(count, bytes) {
        return Ok(None);
    }
    let list = ProcessList::of_bytes(alloc, count, bytes)?;
    Ok(Some(list))
}

#[test]
fn out_of_memory_in_lists_of_bytes(rt: HostRuntime) -> Result<(), Fail> {
    let list = ProcessList::from_slice(rt.alloc(), &two()?)?;
    assert!(rt; read(rt.alloc(), 2, &TWO)? == Some(list));
    Ok(())
}

/// Nothing is appended then.
#[test]
fn out_of_memory_while_a_list_is_appended(rt: HostRuntime) -> Result<(), Fail> {
    let list = ProcessList::from_slice(rt.alloc(), &two()?)?;
    let mut bytes = Vec::new(rt.alloc());
    if list.append_to(&mut bytes).is_err() {
        assert!(rt; bytes.is_empty());
        list.append_to(&mut bytes)?;
    }
    assert!(rt; bytes.as_slice() == TWO.as_slice());
    Ok(())
}

/// The cut of the list of these processes, and its copy.
fn cuts(alloc: Global, processes: &[Process]) -> Result<(Cut, Cut), ConfigError> {
    let cut = Cut::of_list(alloc, ProcessList::from_slice(alloc, processes)?)?;
    let copy = cut.try_copy(alloc)?;
    Ok((cut, copy))
}

#[test]
fn out_of_memory_in_cuts_of_lists(rt: HostRuntime) -> Result<(), Fail> {
    let two = two()?;
    let (cut, copy) = cuts(rt.alloc(), &two)?;
    let processes = copy.processes().to_vec(rt.alloc())?;
    assert!(rt; copy == cut && processes.as_slice() == two.as_slice());
    Ok(())
}

/// An alert on the process in front of these bytes, added again if out of memory: the list has as
/// many alerts then as before.
fn added_again(list: &mut AlertList, bytes: &[u8]) -> Result<usize, SpeltError> {
    let before = list.len();
    match list.push_spelt(0, Kind::Remove, bytes) {
        Err(SpeltError::OutOfMemory) if list.len() == before => {
            list.push_spelt(0, Kind::Remove, bytes)
        }
        answer => answer,
    }
}

/// Adds an alert on each of these to a list.
fn add_all(list: &mut AlertList, subjects: &[&[u8]]) -> Result<(), SpeltError> {
    for bytes in subjects {
        added_again(list, bytes)?;
    }
    Ok(())
}

/// The alerts that remove these subjects, in a list.
fn list_on(alloc: Global, subjects: &[Process]) -> Result<AlertList, AllocError> {
    let mut list = AlertList::new(alloc, shared(alloc, &process(1))?, ConfigId::zero());
    for subject in subjects {
        list.push(subject, 0, Kind::Remove)?;
    }
    Ok(list)
}

/// An alert on this process, added again if out of memory: the list has as many alerts then as before.
fn pushed_again(list: &mut AlertList, subject: &Process) -> Result<(), AllocError> {
    let before = list.len();
    match list.push(subject, 0, Kind::Remove) {
        Err(_refused) if list.len() == before => list.push(subject, 0, Kind::Remove),
        answer => answer,
    }
}

/// Adds an alert on each of these to a list.
fn push_all(list: &mut AlertList, subjects: &[Process]) -> Result<(), AllocError> {
    for subject in subjects {
        pushed_again(list, subject)?;
    }
    Ok(())
}

/// A copy of the subject of the last alert.
fn last_subject(list: &AlertList) -> Result<Option<KeptProcess>, AllocError> {
    match list.len().checked_sub(1) {
        Some(last) => Ok(Some(list.subject(last).try_copy()?)),
        None => Ok(None),
    }
}

/// To copy a subject of the list takes no memory.
#[test]
fn out_of_memory_leaves_the_list_that_is_pushed_to_as_it_was(rt: HostRuntime) -> Result<(), Fail> {
    let [one, other] = two()?;
    let mut list = list_on(rt.alloc(), &[])?;
    push_all(&mut list, &[one, one, other])?;
    assert!(rt; list.len() == 3);
    assert!(rt; matches!(&last_subject(&list)?, Some(last) if last.is(&other.as_ref())));
    Ok(())
}

/// After a refused growth the list is as it was. The alerts are on the one process, then on the
/// other, and then on both by turns, which are known.
#[test]
fn out_of_memory_leaves_the_list_of_alerts_as_it_was(rt: HostRuntime) -> Result<(), Fail> {
    let [one, other] = two()?;
    let first = &TWO[..23];
    let second = &TWO[23..];
    let mut list = list_on(rt.alloc(), &[])?;
    let subjects = [first, second, first, second, first, second];
    add_all(&mut list, &subjects)?;
    let expected = list_on(rt.alloc(), &[one, other, one, other, one, other])?;
    assert!(rt; list.len() == 6 && list.says_same(&expected));
    Ok(())
}
