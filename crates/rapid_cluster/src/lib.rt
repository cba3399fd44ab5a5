//! `cluster`: many threads drive one simulated cluster, and what its nodes hold at the end is
//! written.
#![tactic(auto)]

mod agreement;
mod cluster;
mod report;

pub use cluster::{Crew, run_cluster};
