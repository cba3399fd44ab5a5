//! Tests of what each layer does when memory runs out. A call answers with the error that says so
//! and changes nothing, or works as it does with memory. `./check tests` runs them with ample
//! memory, and `./check all` once for each allocation, with that one refused. That needs a program
//! built by LLVM, so they are proved then, and in a crate of their own. Those of a desk are in
//! `rapid_slow_tests`, the other tests in `rapid_parts_tests`, `rapid_node_tests`,
//! `rapid_world_tests`, `rapid_transport_tests` and `rapid_run_tests`.
#![tactic(auto)]

#[cfg(test)]
mod alerts;
#[cfg(test)]
mod changes;
#[cfg(test)]
mod clerks;
#[cfg(test)]
mod config;
#[cfg(test)]
mod cut;
#[cfg(test)]
mod joiner;
#[cfg(test)]
mod joins;
#[cfg(test)]
mod lines;
#[cfg(test)]
mod lists;
#[cfg(test)]
mod node;
#[cfg(test)]
mod numbered;
#[cfg(test)]
mod probes;
#[cfg(test)]
mod rings;
#[cfg(test)]
mod running;
#[cfg(test)]
mod serving;
#[cfg(test)]
mod simulated;
#[cfg(test)]
mod tables;
#[cfg(test)]
mod text;
#[cfg(test)]
mod vote;
#[cfg(test)]
mod wire;
#[cfg(test)]
mod world;
