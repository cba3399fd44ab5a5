//! Classic recovery of Fast Paxos (Lamport, 2006): the acceptor, the coordinator and the learner of
//! one member.
#![tactic(auto)]

mod acceptor;
mod ballot;
mod coordinator;
mod learner;
mod notices;
mod quorum;

pub use acceptor::{AcceptError, Acceptor, Promise, PromiseError, copy_vote};
pub use ballot::Ballot;
pub use coordinator::{Accept, Coordinator, RoundsUsed};
pub use learner::Learner;
pub use quorum::classic_size;
