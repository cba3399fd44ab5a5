// Who joined and who left between two views.

use rapid_agent::Changes;
use rapid_config::{Configuration, Params};
use rapid_endpoint::{Endpoint, Process, ProcessId, ProcessList};
use rapid_view::View;
use std::alloc::Global;
use std::process::Abort;
use std::test::*;

/// The process with this number.
fn process(number: u8) -> Process {
    let endpoint = Endpoint::new([127, 0, 0, 1], u16::from(number));
    Process::new(ProcessId::new([number; 16]), endpoint)
}

/// The view of the processes with these numbers.
fn view(alloc: Global, numbers: [u8; 3]) -> Result<View, Fail> {
    let members = numbers.map(process);
    let configuration = Configuration::seed(alloc, Params::new(3, 3, 1)?, &members)?;
    Ok(View::new(configuration))
}

/// Whether a list has just these processes, in order.
pub fn has(list: &ProcessList, processes: &[Process]) -> bool {
    let mut left = list.iter();
    for process in processes {
        if left.next() != Some(*process) {
            return false;
        }
    }
    left.next().is_none()
}

/// Checks that from the one view to the other these join and leave.
fn assert_changes<R: Abort>(
    rt: &R,
    alloc: Global,
    views: [&View; 2],
    joined: &[Process],
    left: &[Process],
) -> Result<(), Fail> {
    let [before, after] = views;
    let changes = Changes::between(alloc, before, after)?;
    assert!(rt; has(&changes.joined, joined));
    assert!(rt; has(&changes.left, left));
    Ok(())
}

/// The view of these processes.
fn view_of(alloc: Global, members: &[Process; 2]) -> Result<View, Fail> {
    let configuration = Configuration::seed(alloc, Params::new(3, 3, 1)?, members)?;
    Ok(View::new(configuration))
}

#[test]
fn who_comes_with_other_tags_is_another(rt: HostRuntime) -> Result<(), Fail> {
    let bare = process(2);
    let tagged = Process::tagged(bare.id(), bare.endpoint(), &[b"db"])?;
    let before = view_of(rt.alloc(), &[process(1), bare])?;
    let after = view_of(rt.alloc(), &[process(1), tagged])?;
    assert_changes(&rt, rt.alloc(), [&before, &after], &[tagged], &[bare])
}

#[test]
fn changes_are_who_joined_and_who_left(rt: HostRuntime) -> Result<(), Fail> {
    let alloc = rt.alloc();
    let before = view(alloc, [1, 2, 4])?;
    let after = view(alloc, [2, 3, 5])?;
    let (came, went) = ([process(3), process(5)], [process(1), process(4)]);
    assert_changes(&rt, alloc, [&before, &after], &came, &went)?;
    assert_changes(&rt, alloc, [&after, &before], &went, &came)?;
    assert_changes(&rt, alloc, [&after, &after], &[], &[])?;
    let first = Changes::first(alloc, &after)?;
    assert!(rt; has(&first.joined, after.configuration().members()));
    assert!(rt; first.left.is_empty());
    Ok(())
}
