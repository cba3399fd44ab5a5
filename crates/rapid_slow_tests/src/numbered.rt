// Processes by their numbers, and cuts of them.

use rapid_config::Cut;
use rapid_endpoint::{Endpoint, Process, ProcessId, SharedProcess};
use std::alloc::{AllocError, Global};
use std::test::Fail;

/// The process with this number as identifier, in 16 bytes, and as port of 127.0.0.1.
pub fn process(number: u16) -> Process {
    let id = ProcessId::new(u128::from(number).to_be_bytes());
    Process::new(id, Endpoint::new([127, 0, 0, 1], number))
}

/// This process, to be shared.
pub fn shared(alloc: Global, process: &Process) -> Result<SharedProcess, AllocError> {
    SharedProcess::new(alloc, process)
}

/// The cut of the process with this number alone.
pub fn cut(alloc: Global, number: u16) -> Result<Cut, Fail> {
    Ok(Cut::new(Vec::from_array(alloc, [process(number)])?)?)
}
