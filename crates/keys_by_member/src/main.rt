//! A process that serves keys: each of them belongs to one member of the current view. It founds a
//! cluster, or joins one, and prints for each view that it enters which keys it serves from then on.
#![tactic(auto)]

use anyhow::{Context, Result};
use rapid_agent::{Agent, Next, Subscriber};
use rapid_config::Configuration;
use rapid_dealing::owns;
use rapid_endpoint::{Endpoint, Process};
use rapid_options::NodeOptions;
use std::env;
use std::random::RandomSource;
use std::sync::Wait;
use std::time::{Clock, Duration};

/// What the program says of its words.
const USAGE: &str =
    "keys_by_member ENDPOINT [SEED]: serves keys at ENDPOINT, such as 127.0.0.1:7531,
and joins the cluster of the member at SEED, or founds one.
Each view prints: height H members N serves KEY ..";

/// The keys.
const KEYS: [&str; 12] = [
    "apple", "banana", "cherry", "date", "elder", "fig", "grape", "hazel", "iris", "juniper",
    "kiwi", "lemon",
];

/// How many milliseconds lie between two ticks.
const TICK_MS: u16 = 50;

/// How many views wait to be served at most.
const CHANGES: usize = 64;

/// How long to wait for a view before waiting again, in seconds.
const LONGEST: u64 = 60;

/// Prints the keys that a process serves in a configuration: those that it owns.
fn print_served<P: Print>(out: &P, configuration: &Configuration, me: &Process) -> Result<()> {
    let (height, members) = (configuration.height(), configuration.members().len());
    print!(out; "height {height} members {members} serves")?;
    for key in KEYS {
        if owns(configuration, me, key.as_bytes()) {
            print!(out; " {key}")?;
        }
    }
    println!(out; "")?;
    Ok(())
}

/// A member that serves keys: the process that it is, and who follows its views.
#[derive(Drop)]
struct Server<'a, W: Wait> {
    me: Process,
    subscriber: Subscriber<'a, W>,
}

/// The server of an agent, from its current view on.
fn serve_from_now<'a, W: Wait>(agent: &'a Agent<'_, W>) -> Result<Server<'a, W>> {
    let subscriber = agent.subscribe(CHANGES)?;
    let me = agent.process();
    Ok(Server { me, subscriber })
}

impl<W: Wait> Server<'_, W> {
    /// Prints the keys that are served in the last view, if there is one.
    fn print<P: Print>(&self, out: &P) -> Result<()> {
        match self.subscriber.view() {
            Some(view) => print_served(out, view.configuration(), &self.me),
            None => Ok(()),
        }
    }

    /// Where a member of the last view is, if this process is none.
    fn seed(&self) -> Option<Endpoint> {
        let configuration = self.subscriber.view()?.configuration();
        if configuration.is_member(&self.me) {
            return None;
        }
        Some(configuration.members().first()?.endpoint())
    }
}

/// The server after the next view. It is of the same process, or of the one that joins in its place
/// if it was removed. A process that was stopped for a while is removed. None if no further view
/// comes.
fn next_server<'a, W: Wait + Clock + RandomSource + Print>(
    rt: &W,
    agent: &'a Agent<'_, W>,
    mut server: Server<'a, W>,
) -> Result<Option<Server<'a, W>>> {
    match server.subscriber.next(Duration::from_secs(LONGEST))? {
        Next::Change(_) => server.print(rt)?,
        Next::Nothing => return Ok(Some(server)),
        // views were lost: a new subscription begins at the current one
        Next::Lagged => {
            server = serve_from_now(agent)?;
            server.print(rt)?;
        }
        Next::Closed => return Ok(None),
    }
    let Some(seed) = server.seed() else {
        return Ok(Some(server));
    };
    agent.rejoin(seed, rt)?;
    Ok(Some(serve_from_now(agent)?))
}

/// Prints the keys that a member serves at each view, until no further view comes.
fn serve<W: Wait + Clock + RandomSource + Print>(rt: &W, agent: &Agent<'_, W>) -> Result<()> {
    let mut server = serve_from_now(agent)?;
    server.print(rt)?;
    for _ in rt.forever() {
        match next_server(rt, agent, server)? {
            Some(next) => server = next,
            None => return Ok(()),
        }
    }
    unreachable!()
}

/// The options that the words ask for.
fn options(words: &[String]) -> Result<NodeOptions> {
    let listen = words.get(1).context(USAGE)?;
    let options = NodeOptions::at(Endpoint::parse(listen.as_str())?)?.tick_ms(TICK_MS);
    match words.get(2) {
        Some(seed) => Ok(options.join(Endpoint::parse(seed.as_str())?)?),
        None => Ok(options),
    }
}

/// Whether the words ask for help.
fn asks_for_help(words: &[String]) -> bool {
    words.iter().any(|word| word.as_str() == "--help")
}

fn main(rt: HostRuntime) -> Result<()> {
    let alloc = rt.alloc();
    let words: Vec<String> = env::args(&rt)?.collect(alloc)?;
    if asks_for_help(words.as_slice()) {
        println!(rt; "{USAGE}")?;
        return Ok(());
    }
    let agent = Agent::open(&rt, alloc, &options(words.as_slice())?, &rt)?;
    agent.run_while(|| serve(&rt, &agent))
}
