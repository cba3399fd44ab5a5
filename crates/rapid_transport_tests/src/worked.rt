// A worked frame.

use rapid_endpoint::{Endpoint, Process, ProcessId};
use rapid_message::{Body, Message};

/// The frame in which the process with the number 2 asks to join.
pub(crate) const PRE_JOIN: [u8; 29] = [
    0, 0, 0, 0x19, 2, 8, 0, 0, 0, 0, 0, 0, 0, 0, 0, 0, 0, 0, 0, 0, 0, 2, 0x7f, 0, 0, 1, 0, 2, 0,
];

/// The process with this number.
pub(crate) fn process(number: u8) -> Process {
    let id = [0, 0, 0, 0, 0, 0, 0, 0, 0, 0, 0, 0, 0, 0, 0, number];
    Process::new(
        ProcessId::new(id),
        Endpoint::new([127, 0, 0, 1], u16::from(number)),
    )
}

/// Whether the process with the number 2 asks to join.
pub(crate) fn asks_to_join(message: &Message) -> bool {
    *message.sender() == process(2) && matches!(message.body(), Body::PreJoin)
}
