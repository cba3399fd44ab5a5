// Steps of a node: if memory runs out in one, the node halts, sends nothing and keeps its
// configuration.

use crate::numbered::{Marks, cut, process, shared};
use rapid_alerts::{Alert, Batch, Kind};
use rapid_config::{ConfigId, Configuration, Cut, Params};
use rapid_endpoint::Process;
use rapid_message::{Body, Destination, Message, Outputs};
use rapid_node::{Event, Node, NodeFault, Phase};
use rapid_rings::{ObserverTable, Rings};
use std::alloc::Global;
use std::process::Abort;
use std::test::Fail;

/// What a message says. A cut of one process is the number of that process, and any other is 0.
#[derive(Clone, Copy, Debug, PartialEq, Eq)]
enum Said {
    /// This many alerts.
    Batch(usize),
    /// A fast vote.
    Vote(u16),
    /// A configuration of this many members.
    Confirm(usize),
    /// A wish to leave, to an observer on this ring.
    Leave(u8),
    /// What no node says here.
    Other,
}

/// To whom a message goes.
#[derive(Clone, Copy, Debug, PartialEq, Eq)]
enum To {
    /// The node at this port.
    Node(u16),
    /// The other members.
    Others,
}

/// What a node hears, in its configuration.
#[derive(Clone, Copy)]
enum Word {
    /// A tick.
    Tick,
    /// Its edge on a ring to the process with this number went down.
    Down(u8, u16),
    /// The process with this number says that the cut of that process is decided.
    Decision(u16),
    /// The third process asks to be let in, on ring 0.
    JoinRequest,
    /// The batch of the one alert of its observer that the third process joins.
    Joining,
    /// That it is to leave.
    Leave,
    /// The process with this number says that it leaves, on this ring.
    Leaves(u8, u16),
}

/// The configuration of a node after a step that has memory.
#[derive(Clone, Copy)]
struct Outcome<'a> {
    /// What it sent: to whom, and what.
    sent: &'a [(To, Said)],
    /// The height of its configuration.
    height: u64,
    /// The members of its configuration.
    members: &'a [u16],
}

/// What happens to a node.
#[derive(Clone, Copy)]
enum Step<'a> {
    /// It hears this and sends nothing.
    Hears(Word),
    /// It hears this, as one of these founders, and has the outcome, or halts out of memory.
    Tries(Word, &'a [u16], Outcome<'a>),
}

/// The number of the only process of a cut, and 0 if there are more.
fn only(cut: &Cut) -> u16 {
    let mut processes = cut.processes().iter();
    match (processes.next(), processes.next()) {
        (Some(only), None) => only.endpoint().port(),
        _ => 0,
    }
}

/// What a message says.
fn said_by(body: &Body) -> Said {
    match body {
        Body::Batch(_, batch) => Said::Batch(batch.alerts().len()),
        Body::FastVote(_, cut) => Said::Vote(only(cut)),
        Body::Confirm(configuration) => Said::Confirm(configuration.members().len()),
        Body::Leave(_, ring) => Said::Leave(*ring),
        _ => Said::Other,
    }
}

/// To whom a message goes.
fn whom(to: Destination) -> To {
    match to {
        Destination::To(endpoint) => To::Node(endpoint.port()),
        Destination::Others => To::Others,
    }
}

/// The founding configuration of the processes with these numbers, with this many rings and these
/// two marks.
fn founding(
    rt: &impl Abort,
    alloc: Global,
    (k, h, l): Marks,
    numbers: &[u16],
) -> Result<Configuration, Fail> {
    let mut founders = Vec::new(alloc);
    for number in numbers {
        founders.push(process(*number))?;
    }
    assert!(rt; !founders.is_empty());
    let params = Params::new(k, h, l)?;
    Ok(Configuration::seed(alloc, params, founders.as_slice())?)
}

/// The node of the founder with this number.
fn founder(
    rt: &impl Abort,
    alloc: Global,
    configuration: &Configuration,
    number: u16,
) -> Result<Node, Fail> {
    let me = process(number);
    assert!(rt; configuration.is_member(&me));
    Ok(Node::seed(alloc, configuration, me)?)
}

/// The node with this number of those founders.
fn member(
    rt: &impl Abort,
    alloc: Global,
    params: Marks,
    founders: &[u16],
    number: u16,
) -> Result<Box<Node>, Fail> {
    let configuration = founding(rt, alloc, params, founders)?;
    let node = founder(rt, alloc, &configuration, number)?;
    Ok(Box::new(alloc, node)?)
}

/// The identifier of a node's configuration.
fn shown(rt: &impl Abort, node: &Node) -> ConfigId {
    node.configuration().expect(rt, "a configuration").id()
}

/// A message of a process reaches a node.
fn heard(alloc: Global, number: u16, body: Body) -> Result<Event, Fail> {
    let sender = shared(alloc, &process(number))?;
    Ok(Event::Receive(Message::new(sender, body)?))
}

/// The observer of a process on ring 0.
fn observer(
    rt: &impl Abort,
    alloc: Global,
    configuration: &Configuration,
    process: &Process,
) -> Result<Process, Fail> {
    let rings = Rings::new(alloc, configuration)?;
    Ok(rings.observer(0, process).expect(rt, "an observer"))
}

/// The batch of the one alert of its observer that a process joins.
fn joining(
    rt: &impl Abort,
    alloc: Global,
    configuration: &Configuration,
    joiner: Process,
) -> Result<Message, Fail> {
    let observer = observer(rt, alloc, configuration, &joiner)?;
    let alert = Alert {
        observer,
        subject: joiner,
        ring: 0,
        kind: Kind::Join,
        config: configuration.id(),
    };
    let batch = Batch::new(alloc, &[alert])?;
    let body = Body::Batch(configuration.id(), batch);
    Ok(Message::new(shared(alloc, &observer)?, body)?)
}

/// The batch of the one alert of its observer that the third process joins.
fn batch(rt: &impl Abort, alloc: Global, node: &Node) -> Result<Event, Fail> {
    let configuration = node.configuration().expect(rt, "a configuration");
    Ok(Event::Receive(joining(rt, alloc, configuration, process(3))?))
}

/// The event of what a node hears.
fn event(rt: &impl Abort, alloc: Global, node: &Node, word: Word) -> Result<Event, Fail> {
    match word {
        Word::Tick => Ok(Event::Tick),
        Word::Down(ring, number) => {
            let subject = shared(alloc, &process(number))?;
            Ok(Event::EdgeDown(shown(rt, node), ring, subject))
        }
        Word::Decision(number) => {
            let cut = cut(alloc, number)?;
            heard(alloc, number, Body::Decision(shown(rt, node), cut))
        }
        Word::JoinRequest => heard(alloc, 3, Body::JoinRequest(shown(rt, node), 0)),
        Word::Joining => batch(rt, alloc, node),
        Word::Leave => Ok(Event::Leave),
        Word::Leaves(ring, number) => heard(alloc, number, Body::Leave(shown(rt, node), ring)),
    }
}

/// Checks that these are the processes with these numbers.
fn assert_members(rt: &impl Abort, shown: &[Process], members: &[u16]) {
    assert_eq!(rt; shown.len(), members.len());
    for (member, number) in shown.iter().zip(members) {
        assert!(rt; *member == process(*number), "at the member {number}");
    }
}

/// Checks that the last configuration that a node installed has this identifier, this height and
/// this many members.
fn assert_last(rt: &impl Abort, node: &Node, id: ConfigId, height: u64, members: usize) {
    let last = node.installed().last().expect(rt, "a stamp");
    assert_eq!(rt; last.height(), height);
    assert_eq!(rt; last.members(), members);
    assert!(rt; last.id() == id);
}

/// Checks that a node's configuration has this height and these members, and that it installed that
/// last.
fn assert_shows(rt: &impl Abort, node: &Node, height: u64, members: &[u16]) {
    let shown = node.configuration().expect(rt, "a configuration");
    assert_eq!(rt; shown.height(), height);
    assert_members(rt, shown.members(), members);
    assert_last(rt, node, shown.id(), height, members.len());
}

/// Checks the phase of a node.
fn assert_phase(rt: &impl Abort, node: &Node, phase: Phase) {
    assert_eq!(rt; node.phase(), phase);
}

/// Gives a node an event, and answers what it sends.
fn told_of(node: &mut Node, event: &Event) -> Result<Outputs, NodeFault> {
    node.step(event)
}

/// Gives a node an event that is not needed any more, and answers what it sends.
fn told(node: &mut Node, event: Event) -> Result<Outputs, NodeFault> {
    told_of(node, &event)
}

/// Checks that a node has halted, and says so at an event.
fn assert_halted(rt: &impl Abort, node: &mut Node, event: &Event) {
    assert_phase(rt, node, Phase::Halted);
    assert!(rt; told_of(node, event).err() == Some(NodeFault::Halted));
}

/// Checks what a node sent in a step, in order: to whom, and what.
fn assert_outputs(rt: &impl Abort, outputs: &Outputs, expected: &[(To, Said)]) {
    for (place, (output, expected)) in outputs.iter().zip(expected).enumerate() {
        let sent = (whom(output.to()), said_by(output.message().body()));
        assert_eq!(rt; sent, *expected, "at {place}");
    }
    assert_eq!(rt; outputs.len(), expected.len());
}

/// Gives a node an event at which it sends nothing.
fn hears(rt: &impl Abort, node: &mut Node, event: Event) -> Result<(), Fail> {
    let outputs = told(node, event)?;
    assert!(rt; outputs.is_empty());
    Ok(())
}

/// Checks the step of a founder among this many founders at an event. It has the outcome. Or the
/// node, out of memory, has halted and keeps the founding configuration.
fn tries(rt: &impl Abort, node: &mut Node, event: Event, founders: &[u16], outcome: Outcome) {
    match told(node, event) {
        Ok(outputs) => {
            assert_phase(rt, node, Phase::Member);
            assert_outputs(rt, &outputs, outcome.sent);
            assert_shows(rt, node, outcome.height, outcome.members);
        }
        Err(fault) => {
            assert!(rt; fault == NodeFault::OutOfMemory);
            assert_shows(rt, node, 0, founders);
            assert!(rt; node.installed().len() == 1);
            assert_halted(rt, node, &Event::Tick);
        }
    }
}

/// Takes a node through a step.
fn take(rt: &impl Abort, alloc: Global, node: &mut Node, step: &Step) -> Result<(), Fail> {
    match *step {
        Step::Hears(word) => {
            let event = event(rt, alloc, &*node, word)?;
            hears(rt, node, event)
        }
        Step::Tries(word, founders, outcome) => {
            let event = event(rt, alloc, &*node, word)?;
            tries(rt, node, event, founders, outcome);
            Ok(())
        }
    }
}

/// Takes a node through these steps, in order.
fn take_all(rt: &impl Abort, alloc: Global, node: &mut Node, steps: &[Step]) -> Result<(), Fail> {
    for step in steps {
        take(rt, alloc, node, step)?;
    }
    Ok(())
}

/// Takes the first of these founders through these steps, in order.
fn lives(
    rt: &impl Abort,
    alloc: Global,
    params: Marks,
    founders: &[u16],
    steps: &[Step],
) -> Result<(), Fail> {
    let mut node = member(rt, alloc, params, founders, 1)?;
    take_all(rt, alloc, &mut *node, steps)
}

/// The first of two founders, of whose three edges to the second one went down, ticks, and one
/// alert goes out.
const TICK: [Step; 2] = [
    Step::Hears(Word::Down(0, 2)),
    Step::Tries(
        Word::Tick,
        &[1, 2],
        Outcome {
            sent: &[(To::Others, Said::Batch(1))],
            height: 0,
            members: &[1, 2],
        },
    ),
];

#[test]
fn out_of_memory_at_a_tick_with_a_batch(rt: HostRuntime) -> Result<(), Fail> {
    lives(&rt, rt.alloc(), (3, 3, 1), &[1, 2], &TICK)
}

/// The first of two founders hears that the third process joins, and a fast vote goes out.
const BATCH: [Step; 1] = [Step::Tries(
    Word::Joining,
    &[1, 2],
    Outcome {
        sent: &[(To::Others, Said::Vote(3))],
        height: 0,
        members: &[1, 2],
    },
)];

#[test]
fn out_of_memory_at_a_batch_with_a_vote(rt: HostRuntime) -> Result<(), Fail> {
    lives(&rt, rt.alloc(), (1, 1, 1), &[1, 2], &BATCH)
}

/// A founder alone, whom the third process asks to join, hears the decision: the joiner is let in
/// and confirmed.
const DECISION: [Step; 2] = [
    Step::Hears(Word::JoinRequest),
    Step::Tries(
        Word::Decision(3),
        &[1],
        Outcome {
            sent: &[(To::Node(3), Said::Confirm(2))],
            height: 1,
            members: &[1, 3],
        },
    ),
];

#[test]
fn out_of_memory_at_a_decision(rt: HostRuntime) -> Result<(), Fail> {
    lives(&rt, rt.alloc(), (1, 1, 1), &[1], &DECISION)
}

/// The second of two founders observes the first on each ring, which leaves.
const LEAVE: [Step; 1] = [Step::Tries(
    Word::Leave,
    &[1, 2],
    Outcome {
        sent: &[
            (To::Node(2), Said::Leave(0)),
            (To::Node(2), Said::Leave(1)),
            (To::Node(2), Said::Leave(2)),
        ],
        height: 0,
        members: &[1, 2],
    },
)];

#[test]
fn out_of_memory_as_it_leaves(rt: HostRuntime) -> Result<(), Fail> {
    lives(&rt, rt.alloc(), (3, 3, 1), &[1, 2], &LEAVE)
}

/// The first of two founders, which observes the second on each ring, hears that it leaves.
const LEAVES: [Step; 1] = [Step::Tries(
    Word::Leaves(0, 2),
    &[1, 2],
    Outcome {
        sent: &[],
        height: 0,
        members: &[1, 2],
    },
)];

#[test]
fn out_of_memory_as_another_leaves(rt: HostRuntime) -> Result<(), Fail> {
    lives(&rt, rt.alloc(), (3, 3, 1), &[1, 2], &LEAVES)
}
