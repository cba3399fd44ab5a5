//! The membership service of one process: a node at a desk, its probes, its lines and its threads.
#![tactic(auto)]

mod fault;
mod frames;
mod journal;
mod post;
mod present;
mod prober;
mod received;
mod service;
mod shared;
mod ticker;

pub use fault::fault_of;
pub use post::Post;
pub use prober::run_prober;
pub use rapid_signals::{Bell, Console, Dealer, Ending, RunningFault, identify};
pub use received::Received;
pub use service::Service;
pub use shared::Shared;
pub use ticker::run_ticker;
