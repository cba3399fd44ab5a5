// Processes by their numbers, and configurations of them.

use rapid_config::{ConfigError, Configuration, Cut, Params};
use rapid_endpoint::{Endpoint, ParseError, Process, ProcessId, ProcessList, SharedProcess};
use std::alloc::{AllocError, Global};
use std::test::Fail;

/// The identifier with this number.
pub fn id(number: u16) -> ProcessId {
    ProcessId::new(u128::from(number).to_be_bytes())
}

/// The endpoint 127.0.0.1 with this port.
pub fn endpoint(port: u16) -> Endpoint {
    Endpoint::new([127, 0, 0, 1], port)
}

/// The process with this number as identifier, at this port.
pub fn at(number: u16, port: u16) -> Process {
    Process::new(id(number), endpoint(port))
}

/// The process with this number as identifier and port.
pub fn process(number: u16) -> Process {
    at(number, number)
}

/// The process with this number as identifier and port, and with these tags.
pub fn tagged(number: u16, tags: &[&[u8]]) -> Result<Process, ParseError> {
    Process::tagged(id(number), endpoint(number), tags)
}

/// This process, to be shared.
pub fn shared(alloc: Global, process: &Process) -> Result<SharedProcess, AllocError> {
    SharedProcess::new(alloc, process)
}

/// The cut of the process with this number alone.
pub fn cut(alloc: Global, number: u16) -> Result<Cut, Fail> {
    Ok(Cut::new(Vec::from_array(alloc, [process(number)])?)?)
}

/// Whether these are the processes with these numbers.
pub fn are_numbered(processes: &ProcessList, numbers: &[u16]) -> bool {
    let mut left = processes.iter();
    for number in numbers {
        if left.next() != Some(process(*number)) {
            return false;
        }
    }
    left.next().is_none()
}

/// An identifier and a port.
pub type Name = (u16, u16);

/// The processes with these names.
pub fn named(alloc: Global, names: &[Name]) -> Result<Vec<Process>, AllocError> {
    let mut processes = Vec::new(alloc);
    for (number, port) in names {
        processes.push(at(*number, *port))?;
    }
    Ok(processes)
}

/// The parameters K, H and L.
pub type Marks = (u8, u8, u8);

/// Three rings.
pub const THREE: Marks = (3, 3, 1);

/// The founding configuration of these processes; of none it is refused.
pub fn seeded(
    alloc: Global,
    params: Params,
    founders: &[Process],
) -> Result<Configuration, ConfigError> {
    if founders.is_empty() {
        return Err(ConfigError::EmptyCut);
    }
    Configuration::seed(alloc, params, founders)
}

/// The founding configuration of the members with these names, who ascend; of none it is refused.
pub fn founded(
    alloc: Global,
    (k, h, l): Marks,
    names: &[Name],
) -> Result<Configuration, ConfigError> {
    let members = named(alloc, names)?;
    seeded(alloc, Params::new(k, h, l)?, members.as_slice())
}
