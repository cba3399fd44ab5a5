// Endpoints, cuts and configurations: each call says by its error that memory ran out, or makes what
// it makes with memory.

use crate::numbered::{Marks, Name, at, named, process, seeded, tagged};
use rapid_config::{ConfigError, Configuration, Cut, Params};
use rapid_endpoint::{Endpoint, Process};
use std::alloc::{AllocError, Global};
use std::test::Fail;

#[test]
fn out_of_memory_in_texts(rt: HostRuntime) -> Result<(), Fail> {
    let printed = Endpoint::new([127, 0, 0, 1], 7000).to_string(rt.alloc())?;
    assert!(rt; printed.as_str() == "127.0.0.1:7000");
    Ok(())
}

/// The bytes of the process with the number 2 and the tags `db` and `web`.
const TAGGED: [u8; 30] = [
    0, 0, 0, 0, 0, 0, 0, 0, 0, 0, 0, 0, 0, 0, 0, 2, 0x7f, 0, 0, 1, 0, 2, 2, 2, b'd', b'b', 3, b'w',
    b'e', b'b',
];

#[test]
fn out_of_memory_in_the_bytes_of_a_process(rt: HostRuntime) -> Result<(), Fail> {
    let made = tagged(2, &[b"db", b"web"])?;
    let bytes = made.to_bytes(rt.alloc())?;
    assert!(rt; bytes.as_slice() == TAGGED.as_slice());
    Ok(())
}

/// Nothing is appended then, or the identifier and the endpoint alone.
#[test]
fn out_of_memory_while_a_process_is_appended(rt: HostRuntime) -> Result<(), Fail> {
    let made = tagged(2, &[b"db", b"web"])?;
    let mut bytes = Vec::new(rt.alloc());
    let appended = made.append_to(&mut bytes);
    let fits = matches!(bytes.len(), 0 | 22) || appended.is_ok() && bytes.len() == 30;
    assert!(rt; fits && TAGGED.as_slice().starts_with(bytes.as_slice()));
    appended?;
    assert!(rt; bytes.as_slice() == TAGGED.as_slice());
    Ok(())
}

/// The cut of the processes with these names.
fn cut(alloc: Global, names: &[Name]) -> Result<Cut, ConfigError> {
    Cut::new(named(alloc, names)?)
}

/// Whether these are the processes with these names.
fn are(processes: &[Process], names: &[Name]) -> bool {
    processes.len() == names.len()
        && processes
            .iter()
            .zip(names)
            .all(|(it, (number, port))| *it == at(*number, *port))
}

#[test]
fn out_of_memory_in_cuts(rt: HostRuntime) -> Result<(), Fail> {
    let copy = cut(rt.alloc(), &[(2, 2), (3, 3)])?.try_copy(rt.alloc())?;
    let processes = copy.processes().to_vec(rt.alloc())?;
    assert!(rt; are(processes.as_slice(), &[(2, 2), (3, 3)]));
    Ok(())
}

/// The processes from 1 to `n`.
fn processes(alloc: Global, n: u16) -> Result<Vec<Process>, AllocError> {
    let mut list = Vec::new(alloc);
    for i in 0..n {
        list.push(process(i.wrapping_add(1)))?;
    }
    Ok(list)
}

/// The founding configuration of the processes from 1 to `n`, at least one, with these parameters.
fn founded(alloc: Global, (k, h, l): Marks, n: u16) -> Result<Configuration, ConfigError> {
    let params = Params::new(k, h, l)?;
    let founders = processes(alloc, n)?;
    seeded(alloc, params, founders.as_slice())
}

/// Whether the bytes of a configuration are read as it, and so is the copy of what was read.
fn is_read_again(alloc: Global, configuration: &Configuration) -> Result<bool, Fail> {
    let bytes = configuration.to_bytes(alloc)?;
    let copy = Configuration::from_bytes(alloc, bytes.as_slice())?.try_copy(alloc)?;
    Ok(copy.id() == configuration.id())
}

#[test]
fn out_of_memory_in_readings(rt: HostRuntime) -> Result<(), Fail> {
    let two = founded(rt.alloc(), (3, 3, 1), 2)?;
    assert!(rt; is_read_again(rt.alloc(), &two)?);
    Ok(())
}

#[test]
fn out_of_memory_in_readings_of_tags(rt: HostRuntime) -> Result<(), Fail> {
    let members = [process(1), tagged(2, &[b"db", b"web"])?];
    let configuration = Configuration::seed(rt.alloc(), Params::new(3, 3, 1)?, &members)?;
    assert!(rt; is_read_again(rt.alloc(), &configuration)?);
    Ok(())
}

#[test]
fn out_of_memory_in_changes(rt: HostRuntime) -> Result<(), Fail> {
    let cut = cut(rt.alloc(), &[(2, 2), (3, 3)])?;
    let next = founded(rt.alloc(), (3, 3, 1), 2)?.apply(rt.alloc(), &cut)?;
    assert!(rt; are(next.members(), &[(1, 1), (3, 3)]));
    Ok(())
}
