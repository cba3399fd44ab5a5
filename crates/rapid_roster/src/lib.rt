//! Lists of distinct processes, in each of which a process is found without going over the list.
#![tactic(auto)]

mod head;
mod roster;

pub use roster::Roster;
