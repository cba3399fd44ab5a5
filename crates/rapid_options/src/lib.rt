//! What a node is asked to be: where it is, by which identifier, whom it asks to be let in, and how
//! it ticks and probes.
#![tactic(auto)]

mod options;

pub use options::{NodeOptions, NodeWords, OptionsError, judge};
