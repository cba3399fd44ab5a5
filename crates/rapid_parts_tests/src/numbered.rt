// Processes by their numbers, and configurations of them.

use rapid_config::{ConfigError, Configuration, Params};
use rapid_endpoint::{Endpoint, ParseError, Process, ProcessId, ProcessList, SharedProcess};
use std::alloc::{AllocError, Global};

/// The process of this identifier in 16 bytes, at this port of 127.0.0.1.
pub fn at(number: u16, port: u16) -> Process {
    let id = ProcessId::new(u128::from(number).to_be_bytes());
    Process::new(id, Endpoint::new([127, 0, 0, 1], port))
}

/// The process with this number as identifier and port.
pub fn process(number: u16) -> Process {
    at(number, number)
}

/// This process, to be shared.
pub fn shared(alloc: Global, process: &Process) -> Result<SharedProcess, AllocError> {
    SharedProcess::new(alloc, process)
}

/// The process with this number as identifier and port, and with these tags.
pub fn tagged(number: u16, tags: &[&[u8]]) -> Result<Process, ParseError> {
    let bare = process(number);
    Process::tagged(bare.id(), bare.endpoint(), tags)
}

/// Eight tags of 64 bytes each.
pub const MOST: [[u8; 64]; 8] = [
    [b'1'; 64], [b'2'; 64], [b'3'; 64], [b'4'; 64], [b'5'; 64], [b'6'; 64], [b'7'; 64], [b'8'; 64],
];

/// The process with this number as identifier and port, and with eight tags of 64 bytes each.
pub fn full(number: u16) -> Result<Process, ParseError> {
    let [a, b, c, d, e, f, g, h] = &MOST;
    tagged(number, &[a, b, c, d, e, f, g, h])
}

/// An identifier and a port.
pub type Name = (u16, u16);

/// The processes with these names.
pub fn named(alloc: Global, names: &[Name]) -> Result<Vec<Process>, AllocError> {
    let mut processes = Vec::new(alloc);
    for (number, port) in names {
        processes.push(at(*number, *port))?;
    }
    Ok(processes)
}

/// The processes from 1 to `n`.
pub fn processes(alloc: Global, n: u16) -> Result<Vec<Process>, AllocError> {
    let mut list = Vec::new(alloc);
    for i in 0..n {
        list.push(process(i.wrapping_add(1)))?;
    }
    Ok(list)
}

/// Whether these are the processes with these names.
pub fn are(processes: &[Process], names: &[Name]) -> bool {
    processes.len() == names.len()
        && processes
            .iter()
            .zip(names)
            .all(|(it, (number, port))| *it == at(*number, *port))
}

/// Whether these are the processes with these numbers.
pub fn are_numbered(processes: &ProcessList, numbers: &[u16]) -> bool {
    let mut left = processes.iter();
    for number in numbers {
        if left.next() != Some(process(*number)) {
            return false;
        }
    }
    left.next().is_none()
}

/// Whether it is the process with this number; 0 stands for none.
pub fn is_numbered(found: Option<Process>, number: u16) -> bool {
    match found {
        Some(found) => found == process(number),
        None => number == 0,
    }
}

/// The parameters K, H and L.
pub type Marks = (u8, u8, u8);

/// Three rings.
pub const THREE: Marks = (3, 3, 1);

/// The founding configuration of these processes; of none it is refused.
pub fn seeded(
    alloc: Global,
    params: Params,
    founders: &[Process],
) -> Result<Configuration, ConfigError> {
    if founders.is_empty() {
        return Err(ConfigError::EmptyCut);
    }
    Configuration::seed(alloc, params, founders)
}

/// The founding configuration of the members with these names, who ascend; of none it is refused.
pub fn founded(
    alloc: Global,
    (k, h, l): Marks,
    names: &[Name],
) -> Result<Configuration, ConfigError> {
    let members = named(alloc, names)?;
    seeded(alloc, Params::new(k, h, l)?, members.as_slice())
}
