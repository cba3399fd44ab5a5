// Processes that stand one after another, in a loop.

ghost use Rattle.std.specs.Prelude.{◌≡◌, ◌-◌, ◌≤◌, [], All, length, take, drop, IfOk, OnOk};
ghost use Rattle.std.specs.List.{concat};
ghost use Rattle.rapid_model.specs.Tags as model;
ghost use Rattle.rapid_model.specs.Tags.{ascend_from};
ghost use Rattle.rapid_model.specs.Process.{IsProcess, process_at};
ghost use Rattle.rapid_model.specs.Reading.{processes_at};
ghost use Rattle.rapid_endpoint.specs.Ends.{EndsAt};
ghost use Rattle.rapid_endpoint.specs.ProcessesIn.{processes_in};
ghost use Rattle.rapid_endpoint.specs.ReadErrors.{Gives};

use crate::tag_list::is_below;
use crate::{Process, ReadError, bytes};
use std::alloc::{AllocError, Global};

/// How many bytes a process without tags has.
const LEAST_BYTES: usize = 23;

/// The bytes of processes, one after another.
pub(crate) fn spelled(alloc: Global, processes: &[Process]) -> Result<Vec<u8>, AllocError>
    ensures value { IfOk result (λ bytes. bytes.items ≡ concat processes.now) }
    ensures processes { OnOk result (All IsProcess processes.now) }
{
    let room = processes.len().saturating_mul(LEAST_BYTES);
    let mut bytes = Vec::with_capacity(alloc, room)?;
    for process in processes {
        process.append_to(&mut bytes)?;
    }
    Ok(bytes)
}

/// The place behind the process that begins at a place.
fn place_behind(bytes: &[u8], at: usize) -> Result<usize, ReadError>
    requires { at ≤ length bytes.now }
    ensures read { Gives (λ next. (take (next - at) (drop at bytes.now), drop next bytes.now)) result (process_at (drop at bytes.now)) }
    ensures within { IfOk result (λ next. next ≤ length bytes.now) }
{
    match Process::length_at(&bytes[at..]) {
        Ok(length) => Ok(at + length),
        Err(error) => Err(error),
    }
}

/// The place behind so many processes in front of the bytes.
pub(crate) fn end_in(count: usize, bytes: &[u8]) -> Result<usize, ReadError>
    ensures { EndsAt bytes.now result (processes_at count bytes.now) }
{
    let mut at = 0;
    for _ in 0..count {
        let next = place_behind(bytes, at)?;
        at = next;
    }
    Ok(at)
}

/// Whether the bytes of a process are below those of another. Mostly their identifiers tell, which
/// are compared as numbers.
#[inline(always)]
fn is_process_below(process: &[u8], other: &[u8]) -> bool
    ensures { result ≡ model.is_below process.now other.now }
{
    bytes::tell(process);
    bytes::tell(other);
    let Some((mine, _)) = process.split_first_chunk::<16>() else {
        return is_below(process, other);
    };
    let Some((others, _)) = other.split_first_chunk::<16>() else {
        return is_below(process, other);
    };
    let mine = u128::from_be_bytes(*mine);
    let others = u128::from_be_bytes(*others);
    if mine == others {
        return is_below(process, other);
    }
    mine < others
}

/// Whether each process is above the one before it, and the first above the empty string.
pub(crate) fn ascend_in(count: usize, bytes: &[u8]) -> bool
    ensures { result ≡ ascend_from [] (processes_in count bytes.now) }
{
    let mut before: &[u8] = &[];
    let mut rest = bytes;
    for _ in 0..count {
        let Ok(length) = Process::length_at(rest) else {
            return true;
        };
        let (process, others) = rest.split_at(length);
        if !is_process_below(before, process) {
            return false;
        }
        before = process;
        rest = others;
    }
    true
}
