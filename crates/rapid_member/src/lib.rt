//! One member of the membership service (Rapid, USENIX ATC 2018) in its configuration: what it does
//! at a tick and with a message. A node, which joins, installs and is removed, is made of it.
#![tactic(auto)]

mod aged;
mod ages;
mod decisions;
mod joining;
mod member;
mod sending;
mod shared_rings;

pub use decisions::Decisions;
pub use joining::{confirm_pending, send_joining};
pub use member::MemberState;
