//! A world under a lock that many threads drive: a ledger counts each event that they store. So
//! nothing of what they did is lost, and the world is the run of the stored events.
#![tactic(auto)]

mod book;
mod clerk;
mod cluster;
mod crew;
mod gate;
mod job;
mod turn;
mod verdict;

pub use book::ClusterBook;
pub use clerk::Clerk;
pub use crew::run_clerks;
pub use gate::Gate;
pub use job::{DoJob, Job, TurnJob};
pub use verdict::Ended;
