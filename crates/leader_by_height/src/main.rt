//! A process that acts while it leads. The leader of a view is its first member. Each action names
//! the height of that view as its fencing number. With the word `store` the program is what is
//! acted on. It takes an action only if no later leader was heard, and of one leader alone at each
//! height.
#![tactic(auto)]

ghost use Rattle.std.specs.Prelude.{◌≡◌, ◌↔◌, true, Some, slice_get};

mod fence;

use crate::fence::{Action, Answer, Fence, one_leader_acts};
use anyhow::{Context, Result};
use rapid_agent::{Agent, Next, Subscriber};
use rapid_config::Configuration;
use rapid_endpoint::{Endpoint, Process};
use rapid_options::NodeOptions;
use std::env;
use std::random::RandomSource;
use std::sync::Wait;
use std::time::{Clock, Duration};

/// What the program says of its words.
const USAGE: &str = "leader_by_height ENDPOINT [SEED]: acts while it leads at ENDPOINT, such as
127.0.0.1:7541, and joins the cluster of the member at SEED, or founds one. Each view prints
  height H members N leader ENDPOINT
and each action act H ENDPOINT
leader_by_height store: reads such lines, and prints whether each is taken or refused";

/// How many milliseconds lie between two ticks.
const TICK_MS: u16 = 50;

/// How many milliseconds lie between two actions of a leader.
const BETWEEN_ACTIONS: u64 = 100;

/// How many views wait at most.
const CHANGES: usize = 64;

/// Who leads in a configuration: its first member; none if there are no members.
fn leader_of(configuration: &Configuration) -> Option<Process>
    ensures { result ≡ slice_get configuration.now.members 0 }
{
    configuration.members().first().copied()
}

/// Whether a process leads in a configuration.
fn leads(configuration: &Configuration, process: &Process) -> bool
    ensures { (result ≡ true) ↔ (slice_get configuration.now.members 0 ≡ Some process.now) }
{
    match leader_of(configuration) {
        Some(first) => first == *process,
        None => false,
    }
}

/// Prints a view: its height, how many members it has, and who leads.
fn print_view<P: Print>(out: &P, configuration: &Configuration) -> Result<()> {
    let (height, members) = (configuration.height(), configuration.members().len());
    if let Some(leader) = leader_of(configuration) {
        let leader = leader.endpoint();
        println!(out; "height {height} members {members} leader {leader}")?;
    }
    Ok(())
}

/// A member that acts while it leads: the process that it is, and who follows its views.
#[derive(Drop)]
struct Leader<'a, W: Wait> {
    me: Process,
    subscriber: Subscriber<'a, W>,
}

/// The leader of an agent, from its current view on.
fn lead_from_now<'a, W: Wait>(agent: &'a Agent<'_, W>) -> Result<Leader<'a, W>> {
    let subscriber = agent.subscribe(CHANGES)?;
    let me = agent.process();
    Ok(Leader { me, subscriber })
}

impl<W: Wait> Leader<'_, W> {
    /// Prints the last view, if there is one.
    fn print<P: Print>(&self, out: &P) -> Result<()> {
        match self.subscriber.view() {
            Some(view) => print_view(out, view.configuration()),
            None => Ok(()),
        }
    }

    /// Prints an action, with the height of the last view, if it leads in that.
    fn act<P: Print>(&self, out: &P) -> Result<()> {
        if let Some(view) = self.subscriber.view()
            && leads(view.configuration(), &self.me)
        {
            let (height, me) = (view.configuration().height(), self.me.endpoint());
            println!(out; "act {height} {me}")?;
        }
        Ok(())
    }

    /// Where a member of the last view is, if this process is none.
    fn seed(&self) -> Option<Endpoint> {
        let configuration = self.subscriber.view()?.configuration();
        if configuration.is_member(&self.me) {
            return None;
        }
        Some(configuration.members().first()?.endpoint())
    }
}

/// The leader after the next view, or after it acted. It is of the same process, or of the one that
/// joins in its place if it was removed. None if no further view comes.
fn next_leader<'a, W: Wait + Clock + RandomSource + Print>(
    rt: &W,
    agent: &'a Agent<'_, W>,
    mut leader: Leader<'a, W>,
) -> Result<Option<Leader<'a, W>>> {
    match leader
        .subscriber
        .next(Duration::from_millis(BETWEEN_ACTIONS))?
    {
        Next::Change(_) => leader.print(rt)?,
        Next::Nothing => {}
        // views were lost: a new subscription begins at the current one
        Next::Lagged => {
            leader = lead_from_now(agent)?;
            leader.print(rt)?;
        }
        Next::Closed => return Ok(None),
    }
    let Some(seed) = leader.seed() else {
        leader.act(rt)?;
        return Ok(Some(leader));
    };
    agent.rejoin(seed, rt)?;
    Ok(Some(lead_from_now(agent)?))
}

/// Acts while it leads, until no further view comes.
fn lead<W: Wait + Clock + RandomSource + Print>(rt: &W, agent: &Agent<'_, W>) -> Result<()> {
    let mut leader = lead_from_now(agent)?;
    leader.print(rt)?;
    for _ in rt.forever() {
        match next_leader(rt, agent, leader)? {
            Some(next) => leader = next,
            None => return Ok(()),
        }
    }
    unreachable!()
}

/// Answers the actions of the input, a line each, until it ends.
fn store<W: Wait + Input + Print + Alloc>(rt: &W) -> Result<()> {
    one_leader_acts();
    let mut fence = Fence::new();
    for _ in rt.forever() {
        let mut line = String::new(rt.alloc());
        if rt.read_line(&mut line)? == 0 {
            return Ok(());
        }
        let Some(action) = Action::read(line.as_str()) else {
            continue;
        };
        let Action { height, leader } = action;
        match fence.take(action) {
            Answer::Taken => println!(rt; "taken {height} {leader}")?,
            Answer::Refused => println!(rt; "refused {height} {leader}")?,
        }
    }
    unreachable!()
}

/// The options that the words ask for.
fn options(words: &[String]) -> Result<NodeOptions> {
    let listen = words.get(1).context(USAGE)?;
    let options = NodeOptions::at(Endpoint::parse(listen.as_str())?)?.tick_ms(TICK_MS);
    match words.get(2) {
        Some(seed) => Ok(options.join(Endpoint::parse(seed.as_str())?)?),
        None => Ok(options),
    }
}

/// Whether this is one of the words.
fn asks_for(words: &[String], asked: &str) -> bool {
    words.iter().any(|word| word.as_str() == asked)
}

fn main(rt: HostRuntime) -> Result<()> {
    let alloc = rt.alloc();
    let words: Vec<String> = env::args(&rt)?.collect(alloc)?;
    if asks_for(words.as_slice(), "--help") {
        println!(rt; "{USAGE}")?;
        return Ok(());
    }
    if asks_for(words.as_slice(), "store") {
        return store(&rt);
    }
    let agent = Agent::open(&rt, alloc, &options(words.as_slice())?, &rt)?;
    agent.run_while(|| lead(&rt, &agent))
}
