//! Frames on their way: messages received from any reader, frames sent to any writer, the queues of
//! the senders, and peers over loopback TCP.
#![tactic(auto)]

mod connections;
mod counted;
mod counters;
mod engine;
mod error;
mod inbox;
mod local;
mod patient;
mod peers;
mod queue;
mod readers;
mod sender;
mod slow;
mod timed;

pub use counted::{Counted, CountedRead, CountedWrite, Failed, Metered};
pub use counters::Counters;
pub use engine::{receive, send};
pub use error::{ListenError, TransportError};
pub use inbox::Inbox;
pub use local::is_local;
pub use peers::Peers;
pub use queue::{AnyOrder, SenderEnd, SenderQueue};
