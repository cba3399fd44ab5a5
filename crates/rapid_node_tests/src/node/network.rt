// Nodes that hand their messages on.

ghost use Rattle.std.specs.Prelude.{◌<◌, length, IfSome};

use crate::node::assertions::told_of;
use crate::node::founding::{decision, founder, founding, joiner};
use crate::node::said::{Said, To, said_by, whom};
use crate::numbered::{process, shared};
use rapid_alerts::{Alert, Batch, Kind};
use rapid_config::Configuration;
use rapid_endpoint::{Endpoint, Process};
use rapid_message::{Body, Destination, Message, Output};
use rapid_node::{Event, Node};
use rapid_rings::{ObserverTable, Rings};
use std::alloc::Global;
use std::process::Abort;
use std::test::Fail;

/// How many packets are delivered at most in one flow.
const MOST: usize = 1000;

/// A message on its way to an endpoint.
#[derive(Drop)]
struct Packet {
    to: Endpoint,
    message: Message,
    is_settled: bool,
}

/// What is done to a network. Nodes are named by the numbers of their processes, and packets are
/// numbered from 1 in the order sent.
#[derive(Clone, Copy)]
pub enum Action {
    /// A process starts to join by a seed.
    Start { node: u16, seed: u16 },
    /// A node stops for good.
    Crash(u16),
    /// A node ticks so often.
    Tick(u16, usize),
    /// An edge of a node went down.
    Down { node: u16, ring: u8, subject: u16 },
    /// All edges to a process went down.
    Lose(u16),
    /// A packet reaches its node.
    Deliver(usize),
    /// The packets from the first number on, before the other, reach their nodes.
    DeliverAll(usize, usize),
    /// A packet is lost.
    Drop(usize),
    /// All packets that wait reach their nodes, and so do those sent in turn.
    Flow,
    /// The batch of the one alert of its observer that a process joins reaches a node.
    Joining { joiner: u16, node: u16 },
    /// A node hears that the cut of this process is decided in its configuration.
    Decide { node: u16, subject: u16 },
}

/// Some nodes, and what they sent.
#[derive(Drop)]
pub struct Network {
    alloc: Global,
    founding: Configuration,
    nodes: Vec<Node>,
    packets: Vec<Packet>,
    sent: Vec<(u16, To, Said)>,
    installs: Vec<(u16, u64)>,
}

/// The number of the process at an endpoint.
fn number(process: &Process) -> u16 {
    process.endpoint().port()
}

/// The place of the node at an endpoint.
fn place_of(nodes: &[Node], endpoint: Endpoint) -> Option<usize>
    ensures { IfSome result (λ place. place < length nodes.now) }
{
    for place in 0..nodes.len() {
        if nodes[place].process().endpoint() == endpoint {
            return Some(place);
        }
    }
    None
}

/// The endpoints of the other members of a node's configuration, by identifier.
fn others(alloc: Global, node: &Node) -> Result<Vec<Endpoint>, Fail> {
    let mut others = Vec::new(alloc);
    if let Some(configuration) = node.configuration() {
        for member in configuration.members() {
            if member != node.process() {
                others.push(member.endpoint())?;
            }
        }
    }
    Ok(others)
}

/// The packet of a message to an endpoint.
fn packet_to(alloc: Global, to: Endpoint, output: &Output) -> Result<Packet, Fail> {
    let message = output.message().try_copy(alloc)?;
    Ok(Packet {
        to,
        message,
        is_settled: false,
    })
}

/// The observer of a process on ring 0.
fn observer(
    rt: &impl Abort,
    alloc: Global,
    configuration: &Configuration,
    process: &Process,
) -> Result<Process, Fail> {
    let rings = Rings::new(alloc, configuration)?;
    Ok(rings.observer(0, process).expect(rt, "an observer"))
}

/// The batch of the one alert of its observer that a process joins.
fn joining(
    rt: &impl Abort,
    alloc: Global,
    configuration: &Configuration,
    joiner: Process,
) -> Result<Message, Fail> {
    let observer = observer(rt, alloc, configuration, &joiner)?;
    let alert = Alert {
        observer,
        subject: joiner,
        ring: 0,
        kind: Kind::Join,
        config: configuration.id(),
    };
    let batch = Batch::new(alloc, &[alert])?;
    let body = Body::Batch(configuration.id(), batch);
    Ok(Message::new(shared(alloc, &observer)?, body)?)
}

impl Network {
    /// The nodes of these founders.
    pub fn found(
        rt: &impl Abort,
        alloc: Global,
        params: (u8, u8, u8),
        numbers: &[u16],
    ) -> Result<Network, Fail> {
        let founding = founding(rt, alloc, params, numbers)?;
        let mut nodes = Vec::new(alloc);
        for number in numbers {
            nodes.push(founder(rt, alloc, &founding, *number)?)?;
        }
        Ok(Network {
            alloc,
            founding,
            nodes,
            packets: Vec::new(alloc),
            sent: Vec::new(alloc),
            installs: Vec::new(alloc),
        })
    }

    /// The node of the process with this number.
    pub fn node(&self, number: u16) -> Option<&Node> {
        let place = place_of(self.nodes.as_slice(), process(number).endpoint())?;
        self.nodes.get(place)
    }

    /// How many packets were sent.
    pub fn packets(&self) -> usize {
        self.packets.len()
    }

    /// What the nodes sent, in order: who, to whom, and what.
    pub fn sent(&self) -> &[(u16, To, Said)] {
        self.sent.as_slice()
    }

    /// Which node installed a configuration of which height, in order.
    pub fn installs(&self) -> &[(u16, u64)] {
        self.installs.as_slice()
    }

    /// Makes packets of what a node sends.
    fn post(&mut self, output: &Output, others: &[Endpoint]) -> Result<(), Fail> {
        let from = number(output.message().sender());
        self.sent.push((from, whom(output.to()), said_by(output.message().body())))?;
        match output.to() {
            Destination::To(to) => self.packets.push(packet_to(self.alloc, to, output)?)?,
            Destination::Others => {
                for to in others {
                    self.packets.push(packet_to(self.alloc, *to, output)?)?;
                }
            }
        }
        Ok(())
    }

    /// Gives an event to the node at a place.
    fn step(&mut self, place: usize, event: &Event) -> Result<(), Fail> {
        let Some(node) = self.nodes.get_mut(place) else {
            return Ok(());
        };
        let others = others(self.alloc, node)?;
        let before = node.installed().len();
        let outputs = told_of(node, event)?;
        if let Some(stamp) = node.installed().get(before) {
            self.installs
                .push((number(node.process()), stamp.height()))?;
        }
        for output in &outputs {
            self.post(output, others.as_slice())?;
        }
        Ok(())
    }

    /// Gives an event to the node at an endpoint, if there is one.
    fn tell(&mut self, to: Endpoint, event: &Event) -> Result<(), Fail> {
        match place_of(self.nodes.as_slice(), to) {
            Some(place) => self.step(place, event),
            None => Ok(()),
        }
    }

    /// An event reaches the node at an endpoint, if there is one.
    fn reach(&mut self, to: Endpoint, event: Event) -> Result<(), Fail> {
        self.tell(to, &event)
    }

    /// An event reaches the node with this number.
    fn reach_node(&mut self, number: u16, event: Event) -> Result<(), Fail> {
        self.reach(process(number).endpoint(), event)
    }

    /// A process starts to join.
    fn start(&mut self, number: u16, seed: u16) -> Result<(), Fail> {
        self.nodes.push(joiner(self.alloc, number, seed)?)?;
        Ok(())
    }

    /// A node stops for good.
    fn crash(&mut self, number: u16) {
        if let Some(place) = place_of(self.nodes.as_slice(), process(number).endpoint()) {
            self.nodes.remove(place);
        }
    }

    /// A node ticks so often.
    fn tick(&mut self, number: u16, count: usize) -> Result<(), Fail> {
        for _ in 0..count {
            self.reach_node(number, Event::Tick)?;
        }
        Ok(())
    }

    /// An edge of a node went down, in the founding configuration.
    fn down(&mut self, node: u16, ring: u8, subject: u16) -> Result<(), Fail> {
        let id = self.founding.id();
        let subject = shared(self.alloc, &process(subject))?;
        self.reach_node(node, Event::EdgeDown(id, ring, subject))
    }

    /// All edges to a process went down, in the founding configuration.
    fn lose(&mut self, subject: u16) -> Result<(), Fail> {
        let rings = Rings::new(self.alloc, &self.founding)?;
        for ring in 0..rings.params().k() {
            if let Some(observer) = rings.observer(ring, &process(subject)) {
                self.down(number(&observer), ring, subject)?;
            }
        }
        Ok(())
    }

    /// The packet at a place reaches its node.
    fn hand_on(&mut self, place: usize) -> Result<(), Fail> {
        let Some(packet) = self.packets.get_mut(place) else {
            return Ok(());
        };
        packet.is_settled = true;
        let to = packet.to;
        let message = packet.message.try_copy(self.alloc)?;
        self.reach(to, Event::Receive(message))
    }

    /// The packets from the first number on, before the other, reach their nodes.
    fn hand_all_on(&mut self, first: usize, end: usize) -> Result<(), Fail> {
        for number in first..end {
            self.hand_on(number.wrapping_sub(1))?;
        }
        Ok(())
    }

    /// The packet with this number is lost.
    fn lose_packet(&mut self, number: usize) {
        if let Some(packet) = self.packets.get_mut(number.wrapping_sub(1)) {
            packet.is_settled = true;
        }
    }

    /// All packets that wait reach their nodes, and so do those sent in turn.
    fn flow(&mut self) -> Result<(), Fail> {
        for place in 0..MOST {
            let waits = match self.packets.get(place) {
                Some(packet) => !packet.is_settled,
                None => false,
            };
            if waits {
                self.hand_on(place)?;
            }
        }
        Ok(())
    }

    /// The batch of the one alert of its observer that a process joins reaches a node.
    fn join(&mut self, rt: &impl Abort, joiner: u16, number: u16) -> Result<(), Fail> {
        let message = joining(rt, self.alloc, &self.founding, process(joiner))?;
        self.reach_node(number, Event::Receive(message))
    }

    /// That the cut of a process is decided in the configuration of a node.
    fn decision(&self, rt: &impl Abort, number: u16, subject: u16) -> Result<Event, Fail> {
        let node = self.node(number).expect(rt, "a node");
        decision(rt, self.alloc, node, subject)
    }

    /// A node hears a decision in its configuration.
    fn decide(&mut self, rt: &impl Abort, number: u16, subject: u16) -> Result<(), Fail> {
        let event = self.decision(rt, number, subject)?;
        self.reach_node(number, event)
    }

    /// Does this to the network.
    fn act(&mut self, rt: &impl Abort, action: Action) -> Result<(), Fail> {
        match action {
            Action::Start { node, seed } => self.start(node, seed),
            Action::Crash(node) => {
                self.crash(node);
                Ok(())
            }
            Action::Tick(node, count) => self.tick(node, count),
            Action::Down {
                node,
                ring,
                subject,
            } => self.down(node, ring, subject),
            Action::Lose(subject) => self.lose(subject),
            Action::Deliver(packet) => self.hand_on(packet.wrapping_sub(1)),
            Action::DeliverAll(first, end) => self.hand_all_on(first, end),
            Action::Drop(packet) => {
                self.lose_packet(packet);
                Ok(())
            }
            Action::Flow => self.flow(),
            Action::Joining { joiner, node } => self.join(rt, joiner, node),
            Action::Decide { node, subject } => self.decide(rt, node, subject),
        }
    }

    /// Does all this to the network, in order.
    pub fn run(&mut self, rt: &impl Abort, actions: &[Action]) -> Result<(), Fail> {
        for action in actions {
            self.act(rt, *action)?;
        }
        Ok(())
    }
}
