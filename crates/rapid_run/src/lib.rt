//! One running node of the membership service: its peers over loopback TCP, its lines and its
//! clock, each in threads of their own.
#![tactic(auto)]

mod node;
mod run;

pub use rapid_threads::{Polled, Streams};
pub use run::run_node;
