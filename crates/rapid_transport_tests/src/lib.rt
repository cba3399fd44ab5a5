//! Tests of frames on their way. They have a crate of their own: it needs no more than transport, so
//! it is built while the tests of running nodes are.
#![tactic(auto)]

#[cfg(test)]
mod devices;
#[cfg(test)]
mod kinds;
#[cfg(test)]
mod patience;
#[cfg(test)]
mod peers;
#[cfg(test)]
mod places;
#[cfg(test)]
mod queues;
#[cfg(test)]
mod receiving;
#[cfg(test)]
mod sending;
#[cfg(test)]
mod slow;
#[cfg(test)]
mod worked;
