//! Tests of running nodes and of the command line. There is nothing else here, so that nothing below
//! is proved a second time for its tests.
#![tactic(auto)]

#[cfg(test)]
mod command_line;
#[cfg(test)]
mod commands;
#[cfg(test)]
mod running;
