//! The threads that read and print for a node: they answer its lines, print what it says, and
//! report its notes and the fault by which it ends. They know it by a small trait alone.
#![tactic(auto)]

mod node;
mod polled;
mod streams;
mod threads;
mod until;

pub use node::Node;
pub use polled::Polled;
pub use streams::Streams;
pub use threads::{run_threads, tell_fault};
