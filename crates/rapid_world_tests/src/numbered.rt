// Processes by their numbers.

use rapid_endpoint::{Endpoint, ParseError, Process, ProcessId};

/// The identifier with this number.
pub fn id(number: u16) -> ProcessId {
    ProcessId::new(u128::from(number).to_be_bytes())
}

/// The endpoint 127.0.0.1 with this port.
pub fn endpoint(port: u16) -> Endpoint {
    Endpoint::new([127, 0, 0, 1], port)
}

/// The process with this number.
pub fn process(number: u16) -> Process {
    Process::new(id(number), endpoint(number))
}

/// The process with this number and these tags.
pub fn tagged(number: u16, tags: &[&[u8]]) -> Result<Process, ParseError> {
    Process::tagged(id(number), endpoint(number), tags)
}
