//! `detect`: who observes whom and alerts are read line by line, and the cuts that they make
//! (Rapid, USENIX ATC 2018) are written.
#![tactic(auto)]

mod command;
mod detect;
mod numbered_alerts;
mod reply;

pub use detect::run_detect;
