//! A member of a cluster in one's own program. It founds a cluster or joins one over loopback TCP,
//! and runs in threads of its own. It wakes those that are subscribed to its views.
#![tactic(auto)]

mod agent;
mod arrivals;
mod posts;

pub use agent::Agent;
pub use posts::Posts;
pub use rapid_subscriber::{Changes, Next, Subscriber, changes_are_differences};
