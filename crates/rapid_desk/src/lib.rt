//! A desk: a node with the journal since it entered its configuration, or since a checkpoint after
//! that, and the views that it publishes. It is kept under a lock, so that many threads hand it
//! events.
#![tactic(auto)]

mod board;
mod desk;
mod error;
mod held;
mod journal;
mod notice;
mod outlet;
mod subscription;

pub use desk::Desk;
pub use error::DeskError;
pub use outlet::Outlet;
pub use subscription::{Subscription, Taken};
