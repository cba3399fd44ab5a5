//! What the threads of a node share beside its service: whether it goes on and why it ends, what it
//! prints, a bell, and the dealing of its probes. It knows no node, so it is used alone as well.
#![tactic(auto)]

mod bell;
mod console;
mod dealer;
mod ending;
mod fault;
mod identity;

pub use bell::Bell;
pub use console::Console;
pub use dealer::Dealer;
pub use ending::Ending;
pub use fault::RunningFault;
pub use identity::identify;
