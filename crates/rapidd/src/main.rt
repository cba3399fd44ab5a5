//! The program of the membership service (Rapid, USENIX ATC 2018): `rapidd detect` reads who
//! observes whom and alerts, and prints the cuts that they make. `rapidd sim` drives a simulated
//! cluster by lines, and prints its views. `rapidd cluster` lets many threads drive one. `rapidd
//! node` runs a member of a cluster over loopback TCP.
#![tactic(auto)]

use rapid_commands::{run_words, without_words};
use rapid_run::Polled;
use std::process::ExitCode;
use std::{env, io};

fn main(rt: HostRuntime) -> ExitCode {
    match arguments(&rt) {
        Ok(words) => ExitCode::from(run_words(
            &rt,
            rt.alloc(),
            words.as_slice(),
            // so that a node that ends waits for none of them
            &mut Polled::new(rt.reader()),
            &mut Polled::new(rt.stdout()),
            &mut Polled::new(rt.stderr()),
        )),
        Err(error) => ExitCode::from(without_words(&error, &mut rt.stderr())),
    }
}

/// The words that the program was given, its name first.
fn arguments(rt: &HostRuntime) -> io::Result<Vec<String>> {
    Ok(env::args(rt)?.collect(rt.alloc())?)
}
