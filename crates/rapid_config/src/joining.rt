// The members that a cut makes of others.

ghost use Rattle.std.specs.Prelude.{◌≡◌, ◌≤◌, ◌&&◌, not, true, false, nat_lt, length, filter, IsTrue, IfOk, OnOk, MatchOption, if◌then◌else◌};
ghost use Rattle.std.specs.List.{list_any, insert};
ghost use Rattle.rapid_model.specs.Process.{is_in, same_identifier};
ghost use Rattle.rapid_model.specs.Cut.{is_ascending};
ghost use Rattle.rapid_model.specs.Configuration.{AreMembers, identifiers_ascend};
ghost use Rattle.rapid_model.specs.Apply.{collides, insert_process, with_joiners, next_members};
ghost use Rattle.rapid_model.specs.Limits.{most_members};
ghost use Rattle.rapid_config.specs.Endpoints.{AreEndpointsOf};

use crate::endpoint_key::EndpointKey;
use crate::endpoints::endpoints_of;
use crate::members::MOST_MEMBERS;
use crate::references::References;
use rapid_endpoint::Process;
use std::alloc::{AllocError, Global};
use std::collections::HashSet;

/// Whether the process is among these, which ascend.
fn contains(processes: &[Process], process: &Process) -> bool
    requires { IsTrue (is_ascending processes.now) }
    ensures { result ≡ is_in processes.now process.now }
{
    match processes.binary_search(process) {
        Ok(_place) => true,
        Err(_next) => false,
    }
}

/// The processes that are not among others, which ascend.
fn without<'a>(
    alloc: Global,
    processes: &'a [Process],
    others: &[Process],
) -> Result<References<'a>, AllocError>
    requires { IsTrue (is_ascending others.now) }
    ensures { IfOk result (λ kept. kept ≡ filter (λ p. not (is_in others.now p)) processes.now) }
{
    let mut kept = References::new(alloc);
    for process in processes {
        if !contains(others, process) {
            kept.push(process)?;
        }
    }
    Ok(kept)
}

/// The place for a joiner among the members; none if its identifier is held.
fn free_place(members: &References<'_>, joiner: &Process) -> Option<usize>
    requires { IsTrue (identifiers_ascend members.now) }
    ensures { MatchOption result (list_any (same_identifier joiner.now) members.now ≡ true)
        (λ place. (place ≤ length members.now) × (list_any (same_identifier joiner.now) members.now ≡ false) × (insert members.now place joiner.now ≡ insert_process joiner.now members.now)) }
{
    match members.search(&joiner.id()) {
        Ok(_place) => None,
        Err(place) => Some(place),
    }
}

/// Lets a joiner in if there is room and nobody holds its identifier or its endpoint.
fn admit<'a>(
    members: &mut References<'a>,
    endpoints: &mut HashSet<EndpointKey>,
    joiner: &'a Process,
) -> Result<(), AllocError>
    requires members { AreMembers members.old }
    requires endpoints { AreEndpointsOf members.old endpoints.old.keys }
    ensures admitted { OnOk result
        (members.new ≡ (if not (collides members.old joiner.now) && nat_lt (length members.old) most_members then insert_process joiner.now members.old else members.old)) }
    ensures members { OnOk result (AreMembers members.new) }
    ensures endpoints { OnOk result (AreEndpointsOf members.new endpoints.new.keys) }
{
    if members.len() >= MOST_MEMBERS {
        return Ok(());
    }
    let Some(place) = free_place(members, joiner) else {
        return Ok(());
    };
    if !endpoints.insert(EndpointKey::new(joiner.endpoint()))? {
        return Ok(());
    }
    joiner.tell();
    members.insert(place, joiner)?;
    Ok(())
}

/// Lets joiners in, one after another.
fn join_all<'a>(
    alloc: Global,
    members: &mut References<'a>,
    joiners: &References<'a>,
) -> Result<(), AllocError>
    requires { AreMembers members.old }
    ensures joined { OnOk result (members.new ≡ with_joiners members.old joiners.now) }
    ensures valid { OnOk result (AreMembers members.new) }
{
    if joiners.len() == 0 {
        return Ok(());
    }
    let mut endpoints = endpoints_of(alloc, members)?;
    for place in 0..joiners.len() {
        admit(members, &mut endpoints, joiners.at(place))?;
    }
    Ok(())
}

/// The members that a cut makes of others: those outside the cut stay, and the others of the cut
/// join in ascending order. One is skipped if its identifier or its endpoint is held, or if there
/// is no room.
pub(crate) fn members_after(
    alloc: Global,
    members: &[Process],
    cut: &[Process],
) -> Result<Vec<Process>, AllocError>
    requires members { AreMembers members.now }
    requires cut { IsTrue (is_ascending cut.now) }
    ensures next { IfOk result (λ next. next.items ≡ next_members members.now cut.now) }
    ensures valid { IfOk result (λ next. AreMembers next.items) }
{
    let mut next = without(alloc, members, cut)?;
    let joiners = without(alloc, cut, members)?;
    join_all(alloc, &mut next, &joiners)?;
    next.to_vec(alloc)
}
