//! The lines that drive a node: what each asks of its service, and what is printed for it.
#![tactic(auto)]

mod session;

pub use session::run_lines;
