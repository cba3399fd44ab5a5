//! Tests that need a program built by LLVM. They are of limits that are reached after tens of
//! thousands of steps, and of a desk of which each allocation is refused. `rt test` proves them.
//! The other tests of what stands here are in `rapid_node_tests` and `rapid_world_tests`.
#![tactic(auto)]

#[cfg(test)]
mod clerks;
#[cfg(test)]
mod desk;
#[cfg(test)]
mod history;
#[cfg(test)]
mod leaving;
#[cfg(test)]
mod numbered;
#[cfg(test)]
mod published;
#[cfg(test)]
mod simulated;
#[cfg(test)]
mod worlds;
