// Members in one's own program, over loopback TCP.

use crate::running::changes::has;
use rapid_agent::{Agent, Changes, Next, Subscriber};
use rapid_config::Params;
use rapid_endpoint::{Endpoint, Process, Tags};
use rapid_node::Phase;
use rapid_options::NodeOptions;
use std::net::{Net, TcpListener, TcpStream};
use std::process::Abort;
use std::random::RandomSource;
use std::sync::Wait;
use std::test::*;
use std::thread::{self, Threads};
use std::time::{Clock, Duration};

/// The ports of the member that founds the cluster, and of the one that joins.
const FOUNDER: u16 = 7_511;

const JOINER: u16 = 7_512;

/// How many milliseconds lie between two ticks. A member is removed once it is silent for some 1.6
/// seconds, which a busy machine does not come to.
const TICK_MS: u16 = 40;

/// How long is waited for a view at most, in milliseconds.
const LONGEST: u64 = 20_000;

/// How long is looked that nothing comes, in milliseconds.
const SHORT: u64 = 50;

fn at(port: u16) -> Endpoint {
    Endpoint::new([127, 0, 0, 1], port)
}

/// Who joined and who left by the next view.
fn next_change<R: Wait + Clock>(subscriber: &mut Subscriber<'_, R>) -> Result<Changes, Fail> {
    match subscriber.next(Duration::from_millis(LONGEST))? {
        Next::Change(changes) => Ok(changes),
        other => Err(Fail::new(format_args!("no change: {other:?}"))),
    }
}

/// Checks that the next view is that of this height, in which these joined and left.
fn assert_next<R: Wait + Clock, A: Abort>(
    rt: &A,
    subscriber: &mut Subscriber<'_, R>,
    height: u64,
    joined: &[Process],
    left: &[Process],
) -> Result<(), Fail> {
    let changes = next_change(subscriber)?;
    assert!(rt; has(&changes.joined, joined), "joined at {height}");
    assert!(rt; has(&changes.left, left), "left at {height}");
    let view = subscriber.view().expect(rt, "it was told a view");
    assert_eq!(rt; view.configuration().height(), height);
    Ok(())
}

/// Checks that nothing more comes soon.
fn assert_nothing<R: Wait + Clock, A: Abort>(
    rt: &A,
    subscriber: &mut Subscriber<'_, R>,
) -> Result<(), Fail> {
    let next = subscriber.next(Duration::from_millis(SHORT))?;
    assert!(rt; matches!(next, Next::Nothing));
    Ok(())
}

/// Both processes, by identifier.
fn in_order(one: Process, other: Process) -> [Process; 2] {
    if one < other {
        [one, other]
    } else {
        [other, one]
    }
}

/// The founder sees the other join, leave and come again as another process.
fn come_and_go<R>(rt: &R, founder: &Agent<'_, R>, joiner: &Agent<'_, R>) -> Result<(), Fail>
where
    R: Wait + Clock + RandomSource + Abort,
{
    let mut seen = founder.subscribe(4)?;
    let mut own = joiner.subscribe(4)?;
    let (first, second) = (founder.process(), joiner.process());
    assert!(rt; first.tags().is_empty() && second.tags().get(1) == Some(b"web"));
    assert_next(rt, &mut seen, 1, &[second], &[])?;
    // the joiner knew no view before, so all have joined for it
    assert_next(rt, &mut own, 1, &in_order(first, second), &[])?;
    assert_nothing(rt, &mut own)?;
    assert!(rt; joiner.phase() == Phase::Member);
    assert!(rt; !joiner.rejoin(first.endpoint(), rt)?);
    joiner.leave()?;
    assert_next(rt, &mut seen, 2, &[], &[second])?;
    assert_next(rt, &mut own, 2, &[], &[second])?;
    assert!(rt; joiner.phase() == Phase::Removed);
    assert!(rt; joiner.rejoin(first.endpoint(), rt)?);
    let again = joiner.process();
    assert!(rt; again.id() != second.id() && again.tags() == second.tags());
    assert!(rt; matches!(own.next(Duration::ZERO)?, Next::Closed));
    assert_next(rt, &mut seen, 3, &[again], &[])
}

/// Both run while the one joins, leaves and joins again.
fn both<R>(rt: &R, founder: &Agent<'_, R>, joiner: &Agent<'_, R>) -> Result<(), Fail>
where
    R: Net<Listener = TcpListener, Stream = TcpStream>
        + Threads
        + Wait
        + Clock
        + RandomSource
        + Abort
        + Sync,
{
    founder.run_while(|| joiner.run_while(|| come_and_go(rt, founder, joiner)))
}

#[test]
fn a_member_is_told_who_joined_and_who_left(rt: HostRuntime) -> Result<(), Fail> {
    let alloc = rt.alloc();
    let founds = NodeOptions::at(at(FOUNDER))?
        .params(Params::new(3, 3, 1)?)
        .tick_ms(TICK_MS);
    let joins = NodeOptions::at(at(JOINER))?
        .tagged(Tags::new(&[b"db", b"web"])?)
        .tick_ms(TICK_MS)
        .join(at(FOUNDER))?;
    let founder = Agent::open(&rt, alloc, &founds, &rt)?;
    let joiner = Agent::open(&rt, alloc, &joins, &rt)?;
    assert!(rt; joiner.seat().is_none() && joiner.phase() == Phase::Joining);
    both(&rt, &founder, &joiner)?;
    let mut seat = founder.seat().expect(&rt, "a seat");
    assert_eq!(rt; seat.stamp().height(), 3);
    assert!(rt; founder.counters().frames_in > 0);
    Ok(())
}

#[test]
fn an_agent_that_is_stopped_closes_its_subscriptions(rt: HostRuntime) -> Result<(), Fail> {
    let options = NodeOptions::at(at(7_513))?;
    let agent = Agent::open(&rt, rt.alloc(), &options, &rt)?;
    let mut subscriber = agent.subscribe(1)?;
    agent.stop();
    assert!(rt; agent.run().is_ok());
    assert!(rt;
        matches!(
            subscriber.next(Duration::from_millis(LONGEST))?,
            Next::Closed
        )
    );
    // so is one that comes too late
    let mut late = agent.subscribe(1)?;
    assert!(rt; matches!(late.next(Duration::from_millis(LONGEST))?, Next::Closed));
    Ok(())
}
