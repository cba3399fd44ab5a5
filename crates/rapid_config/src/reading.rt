// Configurations in bytes.

ghost use Rattle.std.specs.Prelude.{◌≡◌, ◌≢◌, ◌+◌, ◌≤◌, None, length, map, take, drop, IfOk, IfErr, OnOk};
ghost use Rattle.std.specs.Arc.{arc_slice_items};
ghost use Rattle.rapid_model.specs.Process.{identifier, same_bytes, process_at};
ghost use Rattle.rapid_model.specs.Configuration.{magic, AreMembers};
ghost use Rattle.rapid_model.specs.Reading.{params_in, count_in, configuration_in, processes_at, read_in, read_fault, members_fault, bytes_fault};
ghost use Rattle.rapid_model.specs.Limits.{most_members};
ghost use Rattle.rapid_endpoint.specs.Ends.{EndsAt, AreAll};
ghost use Rattle.rapid_endpoint.specs.ReadErrors.{Gives};
ghost use Rattle.rapid_config.specs.Faults.{ReportsOfBytes};

use crate::members::{MOST_MEMBERS, check_identified};
use crate::spelling::{HEAD_BYTES, MAGIC};
use crate::{ConfigError, Params};
use rapid_endpoint::{Endpoint, Process, ProcessId, ProcessList, ReadError};
use std::alloc::{AllocError, Global};
use std::slice;
use std::sync::ArcSlice;

/// Some bytes from a place on.
pub(crate) fn chunk_at<const N: usize>(bytes: &[u8], at: usize) -> [u8; N]
    requires { at + N ≤ length bytes.now }
    ensures { result ≡ take N (drop at bytes.now) }
{
    let rest = &bytes[at..];
    match rest.first_chunk::<N>() {
        Some(chunk) => *chunk,
        None => unreachable!(),
    }
}

/// Whether the bytes begin with the letters of a configuration.
fn has_magic(bytes: &[u8]) -> bool
    requires { 4 ≤ length bytes.now }
    ensures { result ≡ same_bytes (take 4 bytes.now) magic }
{
    let first: [u8; 4] = chunk_at(bytes, 0);
    first == MAGIC
}

/// The parameters in the bytes, and the number of members that they announce.
fn read_head(bytes: &[u8]) -> Result<(Params, usize), ConfigError>
    ensures params { IfOk result (λ r. r.0 ≡ params_in bytes.now) }
    ensures count { IfOk result (λ r. r.1 ≡ count_in bytes.now) }
    ensures few { IfOk result (λ r. r.1 ≤ most_members) }
    ensures long { OnOk result (49 ≤ length bytes.now) }
    ensures fault { OnOk result (bytes_fault bytes.now ≡ read_fault (processes_at (count_in bytes.now) (drop 49 bytes.now))) }
    ensures refused { IfErr result (ReportsOfBytes (bytes_fault bytes.now)) }
    ensures no_memory { IfErr result (λ e. e ≢ ConfigError.OutOfMemory) }
{
    if bytes.len() < MAGIC.len() {
        return Err(ConfigError::Truncated);
    }
    if !has_magic(bytes) {
        return Err(ConfigError::BadMagic);
    }
    if bytes.len() < HEAD_BYTES {
        return Err(ConfigError::Truncated);
    }
    let params = Params::new(bytes[44], bytes[45], bytes[46])?;
    let count = usize::from(u16::from_be_bytes(chunk_at(bytes, 47)));
    if count > MOST_MEMBERS {
        return Err(ConfigError::TooMany);
    }
    Ok((params, count))
}

/// The place behind this many processes, which begin behind the head.
fn end_of_members(count: usize, bytes: &[u8]) -> Result<usize, ReadError>
    requires { 49 ≤ length bytes.now }
    ensures { EndsAt bytes.now result (processes_at count (drop 49 bytes.now)) }
{
    match ProcessList::end_in(count, &bytes[HEAD_BYTES..]) {
        Ok(length) => Ok(HEAD_BYTES + length),
        Err(error) => Err(error),
    }
}

/// Whether this many members are all that stands behind the head.
fn check_end(count: usize, bytes: &[u8]) -> Result<(), ConfigError>
    requires { 49 ≤ length bytes.now }
    ensures all { OnOk result (AreAll (processes_at count (drop 49 bytes.now))) }
    ensures refused { IfErr result (ReportsOfBytes (read_fault (processes_at count (drop 49 bytes.now)))) }
    ensures no_memory { IfErr result (λ e. e ≢ ConfigError.OutOfMemory) }
{
    match end_of_members(count, bytes) {
        Ok(end) if end < bytes.len() => Err(ConfigError::Trailing),
        Ok(_end) => Ok(()),
        Err(error) => Err(ConfigError::from(error)),
    }
}

/// The parameters in the bytes, and the number of members that they announce. An error if members
/// cannot be read, or are not all that follows.
pub(crate) fn check_head(bytes: &[u8]) -> Result<(Params, usize), ConfigError>
    ensures params { IfOk result (λ r. r.0 ≡ params_in bytes.now) }
    ensures count { IfOk result (λ r. r.1 ≡ count_in bytes.now) }
    ensures few { IfOk result (λ r. r.1 ≤ most_members) }
    ensures long { OnOk result (49 ≤ length bytes.now) }
    ensures all { OnOk result (AreAll (processes_at (count_in bytes.now) (drop 49 bytes.now))) }
    ensures fault { OnOk result (bytes_fault bytes.now ≡ members_fault (configuration_in bytes.now).members) }
    ensures refused { IfErr result (ReportsOfBytes (bytes_fault bytes.now)) }
    ensures no_memory { IfErr result (λ e. e ≢ ConfigError.OutOfMemory) }
{
    let (params, count) = read_head(bytes)?;
    check_end(count, bytes)?;
    Ok((params, count))
}

/// Reads the process that begins at a place over this one, and says where it ends.
fn read_from(process: &mut Process, bytes: &[u8], at: usize) -> Result<usize, ReadError>
    requires { at ≤ length bytes.now }
    ensures read { Gives (λ next. (process.new, drop next bytes.now)) result (process_at (drop at bytes.now)) }
    ensures within { IfOk result (λ next. next ≤ length bytes.now) }
{
    match process.read_over(&bytes[at..]) {
        Ok(length) => Ok(at + length),
        Err(error) => Err(error),
    }
}

/// The members behind the head, one after another, and their identifiers. They are read over one
/// process, so that each is copied once, and its identifier is taken while it is at hand.
fn read_members(
    alloc: Global,
    count: usize,
    bytes: &[u8],
) -> Result<(Vec<Process>, Vec<ProcessId>), AllocError>
    requires long { 49 ≤ length bytes.now }
    requires all { AreAll (processes_at count (drop 49 bytes.now)) }
    ensures members { IfOk result (λ r. r.0.items ≡ read_in (processes_at count (drop 49 bytes.now))) }
    ensures identifiers { IfOk result (λ r. r.1.items ≡ map identifier r.0.items) }
{
    let mut members = Vec::with_capacity(alloc, count)?;
    let mut identifiers = Vec::with_capacity(alloc, count)?;
    let mut member = Process::new(ProcessId::new([0; 16]), Endpoint::new([0; 4], 0));
    let mut at = HEAD_BYTES;
    for _ in 0..count {
        let Ok(next) = read_from(&mut member, bytes, at) else {
            unreachable!()
        };
        // from the slice, a process is copied once; `push` copies it twice
        members.extend_from_slice(slice::from_ref(&member))?;
        identifiers.push(member.id())?;
        at = next;
    }
    Ok((members, identifiers))
}

/// The members that the bytes announce, and their identifiers; or why they cannot be members.
pub(crate) fn members_in(
    alloc: Global,
    count: usize,
    bytes: &[u8],
) -> Result<(ArcSlice<Process>, ArcSlice<ProcessId>), ConfigError>
    requires count { count ≡ count_in bytes.now }
    requires few { count ≤ most_members }
    requires long { 49 ≤ length bytes.now }
    requires all { AreAll (processes_at (count_in bytes.now) (drop 49 bytes.now)) }
    ensures members { IfOk result (λ r. arc_slice_items r.0 ≡ (configuration_in bytes.now).members) }
    ensures identifiers { IfOk result (λ r. arc_slice_items r.1 ≡ map identifier (arc_slice_items r.0)) }
    ensures valid { IfOk result (λ r. AreMembers (arc_slice_items r.0)) }
    ensures allowed { OnOk result (members_fault (configuration_in bytes.now).members ≡ None) }
    ensures refused { IfErr result (ReportsOfBytes (members_fault (configuration_in bytes.now).members)) }
{
    let (members, identifiers) = read_members(alloc, count, bytes)?;
    check_identified(alloc, members.as_slice(), identifiers.as_slice())?;
    let members = ArcSlice::from_vec(members)?;
    let identifiers = ArcSlice::from_vec(identifiers)?;
    Ok((members, identifiers))
}
