//! Messages that change nothing, since an equal one was let through before in the same configuration.
#![tactic(auto)]

mod kept;
mod questions;
mod repeats;
mod said;

pub use repeats::Repeats;
