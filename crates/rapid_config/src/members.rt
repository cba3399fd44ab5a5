// Lists of members: whether they may be one, and where a process stands in one.

ghost use Rattle.std.specs.Prelude.{◌≡◌, ◌<◌, ◌≤◌, List, true, None, map, position, length, IsTrue, IfOk, IfErr, IfSome, OnOk};
ghost use Rattle.std.specs.Arc.{arc_slice_items};
ghost use Rattle.rapid_model.specs.Process.{Process as ModelProcess, identifier, same_bytes};
ghost use Rattle.rapid_model.specs.Configuration.{AreMembers, identifiers_ascend};
ghost use Rattle.rapid_model.specs.Limits.{most_members};
ghost use Rattle.rapid_model.specs.Reading.{members_fault};
ghost use Rattle.rapid_config.specs.Faults.{ReportsOfFounders};

use crate::ConfigError;
use crate::endpoints::endpoints_differ;
use crate::told::tell_processes;
use rapid_endpoint::{Process, ProcessId, ProcessRef};
use std::alloc::{AllocError, Global};
use std::sync::ArcSlice;

/// The most members of a configuration.
pub(crate) const MOST_MEMBERS: usize = 1024;

/// Whether the identifiers strictly ascend.
pub(crate) fn identifiers_ascend(processes: &[Process]) -> bool
    ensures { result ≡ identifiers_ascend processes.now }
{
    processes.is_sorted_by(|a, b| a.id() < b.id())
}

/// Ok if these can be the members of a configuration, else why they cannot. The first that holds:
/// `TooMany` if there are more than 1,024, `NotSorted` if their identifiers do not strictly ascend,
/// `EndpointTwice` if two have one endpoint. `OutOfMemory` comes only if neither of the first two
/// holds.
pub(crate) fn check_members(alloc: Global, processes: &[Process]) -> Result<(), ConfigError>
    ensures valid { OnOk result (AreMembers processes.now) }
    ensures allowed { OnOk result (members_fault processes.now ≡ None) }
    ensures refused { IfErr result (ReportsOfFounders (members_fault processes.now)) }
{
    if processes.len() > MOST_MEMBERS {
        return Err(ConfigError::TooMany);
    }
    if !identifiers_ascend(processes) {
        return Err(ConfigError::NotSorted);
    }
    if !endpoints_differ(alloc, processes)? {
        return Err(ConfigError::EndpointTwice);
    }
    tell_processes(processes);
    Ok(())
}

/// Whether these identifiers strictly ascend.
fn ascend(identifiers: &[ProcessId]) -> bool
    ensures { (ps : List ModelProcess) → identifiers.now ≡ map identifier ps → result ≡ identifiers_ascend ps }
{
    identifiers.is_sorted_by(|a, b| a < b)
}

/// Ok if these can be the members of a configuration, as `check_members` says it. There are no more
/// than 1,024, and their identifiers are given: these stand close together, so to go over them reads
/// little memory.
pub(crate) fn check_identified(
    alloc: Global,
    processes: &[Process],
    identifiers: &[ProcessId],
) -> Result<(), ConfigError>
    requires few { length processes.now ≤ most_members }
    requires identifiers { identifiers.now ≡ map identifier processes.now }
    ensures valid { OnOk result (AreMembers processes.now) }
    ensures allowed { OnOk result (members_fault processes.now ≡ None) }
    ensures refused { IfErr result (ReportsOfFounders (members_fault processes.now)) }
{
    if !ascend(identifiers) {
        return Err(ConfigError::NotSorted);
    }
    if !endpoints_differ(alloc, processes)? {
        return Err(ConfigError::EndpointTwice);
    }
    tell_processes(processes);
    Ok(())
}

/// The identifiers of members, in their order. They stand close together, so a search among them
/// reads little memory.
pub(crate) fn identifiers_of(
    alloc: Global,
    members: &[Process],
) -> Result<ArcSlice<ProcessId>, AllocError>
    ensures { IfOk result (λ identifiers. arc_slice_items identifiers ≡ map identifier members.now) }
{
    let mut identifiers = Vec::with_capacity(alloc, members.len())?;
    for member in members {
        identifiers.push(member.id())?;
    }
    ArcSlice::from_vec(identifiers)
}

/// The place of a process among members, from 0. The identifiers are those of the members.
pub(crate) fn place_of(
    identifiers: &[ProcessId],
    members: &[Process],
    process: &ProcessRef<'_>,
) -> Option<usize>
    requires ascend { IsTrue (identifiers_ascend members.now) }
    requires identifiers { identifiers.now ≡ map identifier members.now }
    ensures place { result ≡ position (same_bytes process.now) members.now }
    ensures within { IfSome result (λ place. place < length members.now) }
{
    match identifiers.binary_search(&process.id()) {
        Ok(place) => {
            if process.is(&members[place].as_ref()) {
                Some(place)
            } else {
                None
            }
        }
        Err(_next) => None,
    }
}
