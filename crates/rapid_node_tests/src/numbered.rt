// Processes by their numbers, and their cuts.

use rapid_config::Cut;
use rapid_endpoint::{Endpoint, ParseError, Process, ProcessId, SharedProcess};
use std::alloc::{AllocError, Global};
use std::test::Fail;

/// The process with this number: its identifier in 16 bytes, and port of 127.0.0.1.
pub fn process(number: u16) -> Process {
    let [high, low] = number.to_be_bytes();
    let mut id = [0; 16];
    id[14] = high;
    id[15] = low;
    Process::new(ProcessId::new(id), Endpoint::new([127, 0, 0, 1], number))
}

/// This process, to be shared.
pub fn shared(alloc: Global, process: &Process) -> Result<SharedProcess, AllocError> {
    SharedProcess::new(alloc, process)
}

/// The process with this number and these tags.
pub fn tagged(number: u16, tags: &[&[u8]]) -> Result<Process, ParseError> {
    let bare = process(number);
    Process::tagged(bare.id(), bare.endpoint(), tags)
}

/// The cut of the process with this number alone.
pub fn cut(alloc: Global, number: u16) -> Result<Cut, Fail> {
    Ok(Cut::new(Vec::from_array(alloc, [process(number)])?)?)
}
