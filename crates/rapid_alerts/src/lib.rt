//! Alerts of cut detection (Rapid, USENIX ATC 2018): an observer asks to remove a member or to let
//! a joiner in. What it asks it raises once in an [`Outbox`], from which it goes out in
//! [`Batch`]es.
#![tactic(auto)]

mod alert;
mod batch;
mod errors;
mod index;
mod list;
mod mark;
mod outbox;
mod ring_mask;

pub use alert::{Alert, AlertRef, Kind};
pub use batch::Batch;
pub use errors::{BatchError, RaiseError, SpeltError};
pub use list::AlertList;
pub use outbox::{Outbox, Raising};
pub use ring_mask::{bit, has_bit};
