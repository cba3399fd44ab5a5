//! The fast round of Fast Paxos (Lamport, 2006): a cut is decided if a fast quorum of members votes
//! for it.
#![tactic(auto)]

mod counts;
mod positions;
mod quorum;
mod round;
mod votes;

pub use counts::CutCounts;
pub use positions::PositionSet;
pub use quorum::fast_size;
pub use round::{FastRound, HearError};
