//! What the command line of `rapidd` has it do: what each command runs, and with which status it
//! ends.
#![tactic(auto)]

mod node;
mod run;

pub use run::{run_words, without_words};
