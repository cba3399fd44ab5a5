//! An application that keeps a sharded map: each key belongs to one of those members of the current
//! view that have the tag `store`. If none has it, a key belongs to nobody. The program subscribes
//! to the views of a desk, deals the keys anew at each change, and prints which member owns which
//! key. Here the desk is that of process 1 alone, which has another tag. It gets decisions that let
//! three guests in, two of them with the tag, and then take the first of them out.
#![tactic(auto)]

mod stores;

use crate::stores::{STORE, deal};
use anyhow::{Context, Result, bail};
use rapid_config::{ConfigId, Configuration, Cut, Params};
use rapid_desk::{Desk, Subscription, Taken};
use rapid_endpoint::{Endpoint, Process, ProcessId, SharedProcess};
use rapid_message::{Body, Message};
use rapid_node::Event;
use rapid_view::{View, ViewSeat};
use std::alloc::Global;
use std::str::from_utf8;
use std::sync::Wait;

/// The keys of the map.
const KEYS: [&str; 8] = [
    "apple", "banana", "cherry", "date", "elder", "fig", "grape", "hazel",
];

/// Whom the decisions let in or take out, in turn.
const CHANGES: [u16; 4] = [2, 3, 4, 2];

/// Prints the height of a view and its members.
fn print_view<R: Print>(rt: &R, configuration: &Configuration) -> Result<()> {
    print!(rt; "height {} members", configuration.height())?;
    for member in configuration.members() {
        print_member(rt, member)?;
    }
    println!(rt; "")?;
    Ok(())
}

/// Prints a member: its port and its tags.
fn print_member<R: Print>(rt: &R, member: &Process) -> Result<()> {
    print!(rt; " {}", member.endpoint().port())?;
    let mut before = '[';
    for tag in member.tags().iter() {
        print!(rt; "{before}{}", from_utf8(tag)?)?;
        before = ',';
    }
    if !member.tags().is_empty() {
        print!(rt; "]")?;
    }
    Ok(())
}

/// Prints who owns each of the keys.
fn print_owners<R: Print>(rt: &R, owners: &[Option<Process>]) -> Result<()> {
    for (key, owner) in KEYS.iter().zip(owners) {
        let Some(owner) = owner else {
            // then no key has an owner
            println!(rt; "  no owners: no member has the tag store")?;
            return Ok(());
        };
        println!(rt; "  {key} {}", owner.endpoint().port())?;
    }
    Ok(())
}

/// Deals the keys to the members of a view, and prints these and who owns the keys.
fn show<R: Print>(rt: &R, alloc: Global, view: &View) -> Result<()> {
    let configuration = view.configuration();
    let owners = deal(alloc, configuration, &KEYS)?;
    print_view(rt, configuration)?;
    print_owners(rt, owners.as_slice())
}

/// Takes the changes that are there, and deals the keys at each.
fn follow<R: Wait + Print>(
    rt: &R,
    alloc: Global,
    changes: &mut Subscription,
    seat: &mut ViewSeat,
) -> Result<()> {
    for _ in rt.forever() {
        match changes.take(rt) {
            Taken::Change(view) => show(rt, alloc, &view)?,
            Taken::Empty | Taken::Closed => return Ok(()),
            // changes were lost: the seat has the last view
            Taken::Lagged => return show(rt, alloc, &seat.members(rt)?),
        }
    }
    unreachable!()
}

/// The tags of the process with this number.
fn tags_of(number: u16) -> &'static [&'static [u8]] {
    match number {
        1 => &[b"web"],
        2 => &[STORE],
        3 => &[STORE, b"web"],
        _ => &[],
    }
}

/// The process with this number, at the port of this number.
fn process(number: u16) -> Result<Process> {
    let [high, low] = number.to_be_bytes();
    let mut id = [0; 16];
    id[14] = high;
    id[15] = low;
    let endpoint = Endpoint::new([127, 0, 0, 1], number);
    Ok(Process::tagged(ProcessId::new(id), endpoint, tags_of(number))?)
}

/// Another member says that a cut of this process was decided in the configuration.
fn decision(alloc: Global, id: ConfigId, number: u16) -> Result<Event> {
    let cut = Cut::new(Vec::from_array(alloc, [process(number)?])?)?;
    let sender = SharedProcess::new(alloc, &process(2)?)?;
    let message = Message::new(sender, Body::Decision(id, cut))?;
    Ok(Event::Receive(message))
}

/// The desk of a founder that is alone.
fn open<R: Wait + Copy + Drop>(rt: R, alloc: Global) -> Result<Box<Desk<R>>> {
    let me = process(1)?;
    let founding = Configuration::seed(alloc, Params::new(3, 3, 1)?, &[me])?;
    if !founding.is_member(&me) {
        bail!("the founder is no member");
    }
    let desk = Desk::seed(rt, alloc, &founding, me, 1)?;
    Ok(Box::new(alloc, desk)?)
}

/// The seat at the published views.
fn seat<R: Wait + Copy + Drop>(desk: &mut Desk<R>) -> Result<ViewSeat> {
    let mut seats = desk.take_seats().context("the desk has no seats")?;
    seats.pop().context("the desk has no seat")
}

/// Gives the desk the decision that this process comes or goes. What the node would send is dropped
/// here: there is no other node.
fn decide<R: Wait + Copy + Drop>(
    desk: &mut Desk<R>,
    alloc: Global,
    id: ConfigId,
    number: u16,
) -> Result<()> {
    let _sent = desk.step(decision(alloc, id, number)?)?;
    Ok(())
}

/// Follows a desk through the changes.
fn run<R: Wait + Print + Copy + Drop>(rt: R, alloc: Global, desk: &mut Desk<R>) -> Result<()> {
    let mut changes = desk.subscribe(8)?;
    let mut seat = seat(desk)?;
    show(&rt, alloc, &seat.members(&rt)?)?;
    for number in CHANGES {
        let present = seat.stamp();
        decide(desk, alloc, present.id(), number)?;
        follow(&rt, alloc, &mut changes, &mut seat)?;
    }
    Ok(())
}

fn main(rt: HostRuntime) -> Result<()> {
    let alloc = rt.alloc();
    let mut desk = open(&rt, alloc)?;
    run(&rt, alloc, &mut desk)
}
