//! One node of the membership service (Rapid, USENIX ATC 2018), without input and output. It joins,
//! does its work at each event as a member, and installs views.
#![tactic(auto)]

mod event;
mod fault;
mod installed;
mod node;
mod past;
mod phase;
mod shown;
mod views;

pub use event::Event;
pub use fault::NodeFault;
pub use node::Node;
pub use phase::Phase;
pub use views::Views;
