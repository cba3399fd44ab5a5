// Processes that are kept in little room, and those that are made of their bytes.

use crate::numbered::shared;
use crate::short_lists::seven;
use rapid_endpoint::{KeptProcess, Process, ProcessRef, SharedProcess, is_untagged_in_both};
use std::alloc::{AllocError, Global};
use std::test::Fail;

/// Whether what is kept is the process at this place, and none of the others.
fn is_only(one: &KeptProcess, processes: &[Process], place: usize) -> bool {
    for (at, process) in processes.iter().enumerate() {
        let expected = at == place;
        if one.is(&process.as_ref()) != expected || (one.to_process() == *process) != expected {
            return false;
        }
    }
    true
}

/// Four of the seven differ in tags alone, two of them in the port alone, and two in the identifier
/// alone.
#[test]
fn what_is_kept_is_its_process_alone(rt: HostRuntime) -> Result<(), Fail> {
    let seven = seven()?;
    for (place, process) in seven.iter().enumerate() {
        let one = KeptProcess::new(rt.alloc(), &process.as_ref())?;
        let other = KeptProcess::of(&shared(rt.alloc(), process)?)?;
        let copy = other.try_copy()?;
        assert!(rt; is_only(&one, &seven, place), "at {place}");
        assert!(rt; is_only(&other, &seven, place), "at {place}");
        assert!(rt; is_only(&copy, &seven, place), "at {place}");
        assert!(rt; *one.share(rt.alloc())?.get() == *process, "at {place}");
    }
    Ok(())
}

/// A copy of what is kept of a process that was shared; the others are gone then.
fn copy_alone(alloc: Global, process: &Process) -> Result<KeptProcess, AllocError> {
    let first = KeptProcess::of(&shared(alloc, process)?)?;
    first.try_copy()
}

#[test]
fn a_process_stays_while_one_keeps_it(rt: HostRuntime) -> Result<(), Fail> {
    for process in &seven()? {
        let copy = copy_alone(rt.alloc(), process)?;
        assert!(rt; copy.is(&process.as_ref()));
        assert!(rt; copy.share(rt.alloc())?.is(process));
    }
    Ok(())
}

/// The process that is made of the bytes of another, to be shared.
fn spelt(alloc: Global, process: &Process) -> Result<SharedProcess, AllocError> {
    let bytes = process.to_bytes(alloc)?;
    SharedProcess::spelt(alloc, &bytes)
}

#[test]
fn a_process_is_shared_as_its_bytes_spell_it(rt: HostRuntime) -> Result<(), Fail> {
    for process in &seven()? {
        let one = spelt(rt.alloc(), process)?;
        assert!(rt; *one.get() == *process && one.is(process));
        assert!(rt; one == shared(rt.alloc(), process)?);
    }
    Ok(())
}

/// Whether this process is lent.
fn lends(alloc: Global, lent: &ProcessRef<'_>, process: &Process) -> Result<bool, AllocError> {
    let bytes = process.to_bytes(alloc)?;
    let mut spelt = Vec::new(alloc);
    lent.append_to(&mut spelt)?;
    Ok(
        lent.id() == process.id()
            && lent.endpoint() == process.endpoint()
            && lent.has_no_tags() == process.tags().is_empty()
            && lent.length() == bytes.len()
            && lent.key_bytes() == process.key_bytes()
            && lent.is_spelt_at(&bytes)
            && lent.to_process() == *process
            && spelt.as_slice() == bytes.as_slice(),
    )
}

/// What is kept of a process that is made of its bytes.
fn kept(alloc: Global, process: &Process) -> Result<KeptProcess, AllocError> {
    KeptProcess::spelt(alloc, &process.to_bytes(alloc)?)
}

#[test]
fn a_process_is_lent_however_it_is_kept(rt: HostRuntime) -> Result<(), Fail> {
    for process in &seven()? {
        let one = kept(rt.alloc(), process)?;
        assert!(rt; lends(rt.alloc(), &process.as_ref(), process)?);
        assert!(rt; lends(rt.alloc(), &one.as_ref(), process)?);
        assert!(rt; one.clone()? == one && process.as_ref() == one.as_ref());
    }
    Ok(())
}

/// Whether two that are lent compare as these processes do.
fn compare_alike(alloc: Global, one: &Process, other: &Process) -> Result<bool, AllocError> {
    let (first, second) = (kept(alloc, one)?, kept(alloc, other)?);
    let order = first.as_ref().compare(&second.as_ref());
    Ok(
        order == one.cmp(other)
            && first.as_ref().is(&second.as_ref()) == (one == other)
            && (first == second) == (one == other),
    )
}

/// Whether the two begin with the same process without tags if they are one that has none.
fn begin_alike(alloc: Global, one: &Process, other: &Process) -> Result<bool, AllocError> {
    let (first, second) = (one.to_bytes(alloc)?, other.to_bytes(alloc)?);
    let expected = one == other && one.tags().is_empty();
    Ok(is_untagged_in_both(&first, &second) == expected)
}

#[test]
fn two_that_are_lent_compare_as_their_processes_do(rt: HostRuntime) -> Result<(), Fail> {
    let seven = seven()?;
    for one in &seven {
        for other in &seven {
            assert!(rt; compare_alike(rt.alloc(), one, other)?);
            assert!(rt; begin_alike(rt.alloc(), one, other)?);
        }
    }
    Ok(())
}

#[test]
fn too_few_bytes_begin_with_no_process(rt: HostRuntime) -> Result<(), Fail> {
    let [one, ..] = seven()?;
    let bytes = one.to_bytes(rt.alloc())?;
    assert!(rt; is_untagged_in_both(&bytes, &bytes));
    assert!(rt; !is_untagged_in_both(&bytes[..22], &bytes) && !is_untagged_in_both(&bytes, &[]));
    Ok(())
}
