//! The messages of the nodes of the membership service (Rapid, USENIX ATC 2018), and their
//! destinations.
#![tactic(auto)]

mod error;
mod message;
mod output;
mod saying;

pub use error::MessageError;
pub use message::{Body, Message};
pub use output::{Destination, Output, Outputs};
