// What happens to one node, in order, and what it answers.

use crate::node::assertions::{assert_answers, assert_outputs, assert_phase, assert_shows, told};
use crate::node::founding::{member, shown};
use crate::node::said::{Said, To};
use crate::numbered::{cut, process, shared, tagged};
use rapid_config::ConfigId;
use rapid_message::{Body, Message, Outputs};
use rapid_node::{Event, Node, Phase};
use std::alloc::Global;
use std::process::Abort;
use std::test::Fail;

/// A configuration that is named.
#[derive(Clone, Copy)]
pub enum Which {
    /// The one before any founding.
    Zero,
    /// The one that the node showed at first.
    First,
    /// That of the node.
    Shown,
}

/// What a node hears, in its configuration unless another is named.
#[derive(Clone, Copy)]
pub enum Word {
    /// A tick.
    Tick,
    /// Its edge on a ring to the process with this number went down in a configuration.
    Down(Which, u8, u16),
    /// The third process asks about a configuration.
    Probe(Which),
    /// The third process says that it got a probe about a configuration.
    ProbeAck(Which),
    /// The process with this number says that the cut of that process is decided.
    Decision(u16),
    /// That it is to leave.
    Leave,
    /// The process with this number says that it leaves a configuration, on a ring.
    Leaves(Which, u8, u16),
    /// The process with this number casts a fast vote for its own cut.
    Vote(u16),
    /// The process with this number and the tag `db` says that it leaves a configuration, on a ring.
    LeavesTagged(Which, u8, u16),
    /// The process with this number and the tag `db` casts a fast vote for the cut of this number.
    VoteTagged(u16),
}

/// What happens to a node, or what is seen of it.
#[derive(Clone, Copy)]
pub enum Step<'a> {
    /// It hears this and sends that: to whom, and what.
    Hears(Word, &'a [(To, Said)]),
    /// It hears this and sends that. The first message acknowledges a probe and names this
    /// configuration; the last one is the decision in that one, if one is given.
    Acknowledges(Word, &'a [(To, Said)], Which, Option<Which>),
    /// Its configuration has this height and these members.
    Shows(u64, &'a [u16]),
    /// It is in this phase.
    Is(Phase),
    /// Whether it knows beforehand that it would send nothing if it heard this.
    IsQuiet(Word, bool),
}

/// The identifier of a configuration, to a node that showed this one at first.
fn identifier(rt: &impl Abort, node: &Node, first: ConfigId, which: Which) -> ConfigId {
    match which {
        Which::Zero => ConfigId::zero(),
        Which::First => first,
        Which::Shown => shown(rt, node),
    }
}

/// A message of a process reaches a node.
fn heard(alloc: Global, number: u16, body: Body) -> Result<Event, Fail> {
    let sender = shared(alloc, &process(number))?;
    Ok(Event::Receive(Message::new(sender, body)?))
}

/// A message of a process with the tag `db` reaches a node.
fn heard_tagged(alloc: Global, number: u16, body: Body) -> Result<Event, Fail> {
    let sender = shared(alloc, &tagged(number, &[b"db"])?)?;
    Ok(Event::Receive(Message::new(sender, body)?))
}

/// The event of what a node hears that showed this configuration at first.
fn event(
    rt: &impl Abort,
    alloc: Global,
    node: &Node,
    first: ConfigId,
    word: Word,
) -> Result<Event, Fail> {
    match word {
        Word::Tick => Ok(Event::Tick),
        Word::Down(which, ring, number) => {
            let id = identifier(rt, node, first, which);
            Ok(Event::EdgeDown(id, ring, shared(alloc, &process(number))?))
        }
        Word::Probe(which) => heard(alloc, 3, Body::Probe(identifier(rt, node, first, which))),
        Word::ProbeAck(which) => heard(
            alloc,
            3,
            Body::ProbeAck(identifier(rt, node, first, which)),
        ),
        Word::Decision(number) => {
            let cut = cut(alloc, number)?;
            heard(alloc, number, Body::Decision(shown(rt, node), cut))
        }
        Word::Leave => Ok(Event::Leave),
        Word::Leaves(which, ring, number) => {
            let id = identifier(rt, node, first, which);
            heard(alloc, number, Body::Leave(id, ring))
        }
        Word::Vote(number) => {
            let cut = cut(alloc, number)?;
            heard(alloc, number, Body::FastVote(shown(rt, node), cut))
        }
        Word::LeavesTagged(which, ring, number) => {
            let id = identifier(rt, node, first, which);
            heard_tagged(alloc, number, Body::Leave(id, ring))
        }
        Word::VoteTagged(number) => {
            let cut = cut(alloc, number)?;
            heard_tagged(alloc, number, Body::FastVote(shown(rt, node), cut))
        }
    }
}

/// The configuration that the first message names, if it says that a probe came.
fn acknowledged(outputs: &Outputs) -> Option<ConfigId> {
    match outputs.first()?.message().body() {
        Body::ProbeAck(id) => Some(*id),
        _ => None,
    }
}

/// The configuration that the last message names, if it is a decision.
fn decided(outputs: &Outputs) -> Option<ConfigId> {
    match outputs.last()?.message().body() {
        Body::Decision(id, _) => Some(*id),
        _ => None,
    }
}

/// Gives an event to a node, checks what it sends, and answers the configurations that the first
/// message acknowledges and the last one decides.
fn named(
    rt: &impl Abort,
    node: &mut Node,
    event: Event,
    expected: &[(To, Said)],
) -> Result<(Option<ConfigId>, Option<ConfigId>), Fail> {
    let outputs = told(node, event)?;
    assert_outputs(rt, &outputs, expected);
    Ok((acknowledged(&outputs), decided(&outputs)))
}

/// Gives an event to a node and checks what it sends.
fn answers(
    rt: &impl Abort,
    node: &mut Node,
    event: Event,
    expected: &[(To, Said)],
) -> Result<(), Fail> {
    assert_answers(rt, node, &event, expected)
}

/// Checks that a node acknowledges a configuration, and sends the decision in another, if one is
/// given.
fn acknowledges(
    rt: &impl Abort,
    node: &mut Node,
    first: ConfigId,
    event: Event,
    step: (&[(To, Said)], Which, Option<Which>),
) -> Result<(), Fail> {
    let (expected, own, other) = step;
    let (acknowledged, decided) = named(rt, node, event, expected)?;
    assert!(rt; acknowledged == Some(identifier(rt, node, first, own)));
    match other {
        Some(which) => assert!(rt; decided == Some(identifier(rt, node, first, which))),
        None => assert!(rt; decided.is_none()),
    }
    Ok(())
}

/// Checks whether a node knows that it would send nothing at an event.
fn assert_quiet(rt: &impl Abort, node: &Node, event: Event, expected: bool) {
    assert!(rt; node.is_quiet(&event) == expected);
}

/// Takes a node, which showed this configuration at first, through a step.
fn take(
    rt: &impl Abort,
    alloc: Global,
    node: &mut Node,
    first: ConfigId,
    step: &Step,
) -> Result<(), Fail> {
    match *step {
        Step::Hears(word, expected) => {
            let event = event(rt, alloc, &*node, first, word)?;
            answers(rt, node, event, expected)
        }
        Step::Acknowledges(word, expected, own, other) => {
            let event = event(rt, alloc, &*node, first, word)?;
            acknowledges(rt, node, first, event, (expected, own, other))
        }
        Step::Shows(height, members) => {
            assert_shows(rt, node, height, members);
            Ok(())
        }
        Step::Is(phase) => {
            assert_phase(rt, node, phase);
            Ok(())
        }
        Step::IsQuiet(word, expected) => {
            let event = event(rt, alloc, &*node, first, word)?;
            assert_quiet(rt, &*node, event, expected);
            Ok(())
        }
    }
}

/// Takes a node through these steps, in order.
pub fn take_all(
    rt: &impl Abort,
    alloc: Global,
    node: &mut Node,
    steps: &[Step],
) -> Result<(), Fail> {
    let first = shown(rt, &*node);
    for step in steps {
        take(rt, alloc, node, first, step)?;
    }
    Ok(())
}

/// Takes the first of these founders through these steps, in order.
pub fn lives(
    rt: &impl Abort,
    alloc: Global,
    params: (u8, u8, u8),
    founders: &[u16],
    steps: &[Step],
) -> Result<(), Fail> {
    let mut node = member(rt, alloc, params, founders, 1)?;
    take_all(rt, alloc, &mut *node, steps)
}
