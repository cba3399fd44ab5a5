// Copies of nodes and of messages, and nodes that are made to halt.

use crate::node::assertions::{assert_halted, assert_shows};
use crate::node::founding::member;
use crate::node::said::{Said, To, said_by, whom};
use crate::node::steps::{Step, Which, Word, take_all};
use crate::numbered::{cut, process, shared};
use rapid_config::ConfigId;
use rapid_message::{Body, Destination, Message, Output};
use rapid_node::{Event, Node, NodeFault};
use std::alloc::Global;
use std::process::Abort;
use std::test::Fail;

/// One of three edges to the second of two founders goes down.
const DOWN: [Step; 1] = [Step::Hears(Word::Down(Which::Shown, 0, 2), &[])];

/// The node reports the edge at a tick.
const TELLS: [Step; 1] = [Step::Hears(Word::Tick, &[(To::Others, Said::Batch(1))])];

/// The node removes the second process at the decision.
const REMOVES: [Step; 2] = [Step::Hears(Word::Decision(2), &[]), Step::Shows(1, &[1])];

/// The node still has the founding configuration, and reports the edge.
const STAYS: [Step; 2] = [
    Step::Shows(0, &[1, 2]),
    Step::Hears(Word::Tick, &[(To::Others, Said::Batch(1))]),
];

/// What a node goes through, and then its copy.
#[derive(Clone, Copy)]
struct Round<'a> {
    node: &'a [Step<'a>],
    copy: &'a [Step<'a>],
}

/// Takes a node and its copy through these rounds.
fn take_both(
    rt: &impl Abort,
    alloc: Global,
    node: &mut Node,
    copy: &mut Node,
    rounds: &[Round],
) -> Result<(), Fail> {
    for round in rounds {
        take_all(rt, alloc, node, round.node)?;
        take_all(rt, alloc, copy, round.copy)?;
    }
    Ok(())
}

/// Takes a node, of whose edges one went down, and its copy through these rounds.
fn copied(rt: &impl Abort, alloc: Global, node: &mut Node, rounds: &[Round]) -> Result<(), Fail> {
    take_all(rt, alloc, node, &DOWN)?;
    let mut copy = Box::new(alloc, node.try_copy()?)?;
    take_both(rt, alloc, node, &mut *copy, rounds)
}

/// Takes the first of two founders, of whose edges one went down, and its copy through these
/// rounds.
fn copies(rt: &impl Abort, alloc: Global, rounds: &[Round]) -> Result<(), Fail> {
    let mut node = member(rt, alloc, (3, 3, 1), &[1, 2], 1)?;
    copied(rt, alloc, &mut *node, rounds)
}

/// A copy stays what it was when the node goes on.
const OWN_WAY: [Round; 1] = [Round {
    node: &REMOVES,
    copy: &STAYS,
}];

#[test]
fn a_copy_goes_its_own_way(rt: HostRuntime) -> Result<(), Fail> {
    copies(&rt, rt.alloc(), &OWN_WAY)
}

/// A node and its copy answer the same.
const SAME: [Round; 2] = [
    Round {
        node: &TELLS,
        copy: &TELLS,
    },
    Round {
        node: &REMOVES,
        copy: &REMOVES,
    },
];

#[test]
fn a_copy_answers_the_same(rt: HostRuntime) -> Result<(), Fail> {
    copies(&rt, rt.alloc(), &SAME)
}

/// Checks what a node is that is made to halt, after one of its edges went down.
fn assert_is_halted(rt: &impl Abort, alloc: Global, node: &mut Node) -> Result<(), Fail> {
    take_all(rt, alloc, node, &DOWN)?;
    node.halt();
    assert_shows(rt, &*node, 0, &[1, 2]);
    assert!(rt; node.installed().len() == 1);
    assert!(rt; *node.process() == process(1));
    assert_halted(rt, node, &Event::Tick);
    Ok(())
}

#[test]
fn a_node_is_made_to_halt(rt: HostRuntime) -> Result<(), Fail> {
    let mut node = member(&rt, rt.alloc(), (3, 3, 1), &[1, 2], 1)?;
    assert_is_halted(&rt, rt.alloc(), &mut *node)
}

/// A fast vote of the first process for the second.
fn vote(alloc: Global) -> Result<Message, Fail> {
    let body = Body::FastVote(ConfigId::zero(), cut(alloc, 2)?);
    Ok(Message::new(shared(alloc, &process(1))?, body)?)
}

/// Checks that a message is that vote.
fn assert_vote(rt: &impl Abort, message: &Message) {
    assert!(rt; *message.sender() == process(1));
    assert!(rt; said_by(message.body()) == Said::Vote(2));
    assert!(rt; message.body().caught_up_by() == Some(ConfigId::zero()));
}

/// Checks that a message that was made is that vote.
fn assert_made(rt: &impl Abort, message: Message) {
    assert_vote(rt, &message);
}

/// Checks that a copy of that vote, and one made of a copy of what it says, are that vote.
fn assert_copies(rt: &impl Abort, alloc: Global, message: &Message) -> Result<(), Fail> {
    assert_made(rt, message.try_copy(alloc)?);
    let body = message.body().try_copy(alloc)?;
    assert_made(rt, Message::new(message.shared_sender().share()?, body)?);
    Ok(())
}

#[test]
fn messages_are_copied(rt: HostRuntime) -> Result<(), Fail> {
    let message = vote(rt.alloc())?;
    assert_copies(&rt, rt.alloc(), &message)
}

/// Checks that this goes to the others and is that vote.
fn assert_goes_out(rt: &impl Abort, output: &Output) {
    assert!(rt; whom(output.to()) == To::Others);
    assert_vote(rt, output.message());
}

/// Checks that an output and its copy go to the others and are that vote.
fn assert_both(rt: &impl Abort, alloc: Global, output: &Output) -> Result<(), Fail> {
    let copy = output.try_copy(alloc)?;
    assert_goes_out(rt, output);
    assert_goes_out(rt, &copy);
    Ok(())
}

#[test]
fn outputs_are_copied(rt: HostRuntime) -> Result<(), Fail> {
    let output = Output::new(Destination::Others, vote(rt.alloc())?);
    assert_both(&rt, rt.alloc(), &output)
}

#[test]
fn faults_have_their_numbers(rt: HostRuntime) {
    assert!(rt; NodeFault::Halted.code() == 1);
    assert!(rt; NodeFault::OutOfMemory.code() == 2);
    assert!(rt; NodeFault::HistoryFull.code() == 3);
}
