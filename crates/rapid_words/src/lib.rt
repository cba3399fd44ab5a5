//! The words of the command line of `rapidd`: which of them are taken, what they ask for, what the
//! helps say, and how a fault of them is told.
#![tactic(auto)]

mod explain;
mod help;
mod node;
mod words;

pub use explain::tell_port;
pub use node::{NODE, options_of};
pub use words::{
    DONE, FAILED, Invocation, NO_MEMORY, REFUSED, Setting, invocation_of, matches_of, refuse, tell,
};
