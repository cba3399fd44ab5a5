//! `sim`: a simulated cluster is driven by lines, and what its nodes report is written.
#![tactic(auto)]

mod command;
mod settled;
mod sim;
mod simulator;
mod view;

pub use sim::{SimRan, run_sim, run_sim_counted};
