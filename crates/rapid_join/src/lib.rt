//! The two sides of a two-phase join (Rapid, USENIX ATC 2018).
//!
//! A [`Joiner`] asks its seed who observes it, then asks each of its observers, ring by ring. A
//! [`Host`] is the side of a member. It answers the first question, keeps the joiners that asked it
//! as an observer, and confirms them after the change. What both answer is data, of which a node
//! makes messages and alerts.
#![tactic(auto)]

mod answers;
mod endpoints;
mod host;
mod joiner;
mod observers;
mod pending;
mod reply;
mod tables;

pub use answers::{HostAnswer, JoinRequest, JoinerAnswer};
pub use host::Host;
pub use joiner::Joiner;
pub use observers::RingObservers;
pub use reply::Reply;
pub use tables::HostTables;
