//! Tests of whole nodes, which hand their messages on to each other, of desks and published views, and
//! of each library used alone (`uses`). There is nothing else here, so that nothing below is proved a
//! second time for its tests.
#![tactic(auto)]

#[cfg(test)]
mod desk;
#[cfg(test)]
mod node;
#[cfg(test)]
mod numbered;
#[cfg(test)]
mod uses;
