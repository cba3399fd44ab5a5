//! Tests of what a member is made of: configurations, rings and joins, the cut detector, the vote, and
//! frames. A folder of modules has the tests of neighbouring crates. There is nothing else here, so that
//! the functions below are not proved a second time for their tests.
#![tactic(auto)]

#[cfg(test)]
mod config;
#[cfg(test)]
mod cut;
#[cfg(test)]
mod numbered;
#[cfg(test)]
mod rings;
#[cfg(test)]
mod second;
#[cfg(test)]
mod short_lists;
#[cfg(test)]
mod vote;
#[cfg(test)]
mod wire;
