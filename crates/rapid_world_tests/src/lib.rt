//! Tests of whole worlds, of clerks that drive one, and of `detect`, `sim` and `cluster`, which read
//! and print text. There is nothing else here, so that nothing below is proved a second time for its
//! tests.
#![tactic(auto)]

#[cfg(test)]
mod clerks;
#[cfg(test)]
mod cluster;
#[cfg(test)]
mod detect;
#[cfg(test)]
mod numbered;
#[cfg(test)]
mod sim;
#[cfg(test)]
mod world;
#[cfg(test)]
mod written;
