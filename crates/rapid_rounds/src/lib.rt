//! The members that a node observes in a view, the parts of their probes, and when rounds of these
//! begin.
#![tactic(auto)]

mod edge_state;
mod observed_edges;
mod part;
mod rounds;

pub use edge_state::EdgeState;
pub use observed_edges::ObservedEdges;
pub use part::{MOST_RINGS, Part, PartRound};
pub use rounds::Rounds;
