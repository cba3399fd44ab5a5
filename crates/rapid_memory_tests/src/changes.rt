// Who joined and who left between two views, out of memory.

use crate::numbered::{process, tagged};
use rapid_agent::Changes;
use rapid_config::{Configuration, Params};
use rapid_endpoint::{Process, ProcessList};
use rapid_view::View;
use std::alloc::{AllocError, Global};
use std::test::*;

/// The view of these processes.
fn view(alloc: Global, members: &[Process; 3]) -> Result<View, Fail> {
    let configuration = Configuration::seed(alloc, Params::new(3, 3, 1)?, members)?;
    Ok(View::new(configuration))
}

/// Whether a list has just these processes.
fn are(alloc: Global, list: &ProcessList, processes: &[Process]) -> Result<bool, AllocError> {
    Ok(*list == ProcessList::from_slice(alloc, processes)?)
}

#[test]
fn changes_are_listed_or_out_of_memory(rt: HostRuntime) -> Result<(), Fail> {
    let alloc = rt.alloc();
    let (db, web) = (tagged(2, &[b"db"])?, tagged(4, &[b"web"])?);
    let before = view(alloc, &[process(1), db, process(3)])?;
    let after = view(alloc, &[process(3), web, process(5)])?;
    let changes = Changes::between(alloc, &before, &after)?;
    assert!(rt; are(alloc, &changes.joined, &[web, process(5)])?);
    assert!(rt; are(alloc, &changes.left, &[process(1), db])?);
    let first = Changes::first(alloc, &after)?;
    assert!(rt; are(alloc, &first.joined, after.configuration().members())?);
    assert!(rt; first.left.is_empty());
    Ok(())
}
