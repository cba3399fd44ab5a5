// The journal of a desk: the events since its node entered its configuration.

ghost use Rattle.std.specs.Prelude.{◌≡◌, ◌≤◌, ◌++◌, [], ◌∷◌, true, false, Option, None, Some, length, vec_len, is_none, IsSome, IfOk, OnOk, OnErr};
ghost use Rattle.rapid_model.specs.Configuration.{Configuration};
ghost use Rattle.rapid_model.specs.Journal as model;
ghost use Rattle.rapid_model.specs.Node.{Receive, configuration_of};
ghost use Rattle.rapid_message.specs.Bodies.{body_of};
ghost use Rattle.rapid_node.specs.Steps.{event_of};
ghost use Rattle.rapid_desk.specs.Records.{record_of, last_ticks, joins, added_by, about, which_of, place_of, place_about, place_in, is_question, ring_asked, edge_in, stays_whole, is_whole, id_in, said_by};

use rapid_alerts::Batch;
use rapid_config::{ConfigId, Cut};
use rapid_endpoint::{KeptProcess, Process};
use rapid_message::{Body, Message};
use rapid_node::{Event, Node};
use rapid_paxos::Ballot;
use std::alloc::{AllocError, Global};
use std::marker::Model;

/// How many records a journal has at most.
pub(crate) const MOST_RECORDS: usize = 65_536;

/// Which configuration a record is about.
#[derive(Clone, Copy, Debug)]
pub enum Which {
    /// That at the journal's entry.
    This,
    /// The one before that.
    Previous,
}

/// A record of a journal.
///
/// Most events are about the configuration at the journal's entry; late ones are about the one before
/// that. If a member of the first says such an event, or it concerns one, the record has the member's
/// place there, and what else the event says. So it is small, however large a process is. What a
/// joiner asks has a box, with the joiner alone, whose tags are shared with its message.
#[derive(Debug, Drop)]
pub enum JournalRecord {
    /// This many successive ticks.
    Ticks(u32),
    /// Alerts of the member at this place.
    Batch(Which, u16, Batch),
    /// The fast vote of the member at this place.
    FastVote(Which, u16, Cut),
    /// The member at this place asks for promises at its ballot.
    Prepare(Which, u16, Ballot),
    /// The member at this place promises to vote at no lower ballot, and tells its last vote.
    Promise(Which, u16, Ballot, Option<(Ballot, Cut)>),
    /// The member at this place asks for votes.
    Accept(Which, u16, Ballot, Cut),
    /// The member at this place has voted.
    Accepted(Which, u16, Ballot, Cut),
    /// The member at this place tells what was decided.
    Decision(Which, u16, Cut),
    /// The member at this place asks its observer on this ring to have it removed.
    Leave(Which, u16, u8),
    /// This process asks whether it may join.
    PreJoin(Box<KeptProcess>),
    /// This process asks its observer on this ring to let it in.
    JoinRequest(Box<KeptProcess>, Which, u8),
    /// The edge to the member at this place on this ring went down.
    EdgeDown(Which, u16, u8),
    /// The node itself is to leave.
    OwnLeave,
    /// Another event.
    Other(Box<Event>),
}

// a record takes at most a quarter of what an event takes, and with a joiner's box at most 88 bytes
const _: () = prove!(4 * size_of::<JournalRecord>() <= size_of::<Event>());

const _: () = prove!(size_of::<JournalRecord>() + size_of::<KeptProcess>() <= 88);

/// A journal: the node where it begins, and what happened since.
#[derive(Drop)]
pub struct Journal {
    entry: Box<Node>,
    records: Vec<JournalRecord>,
}

impl Model for Journal {
    ghost use Rattle.std.specs.Coded.{codes};
    ghost use Rattle.rapid_model.specs.Node.{configuration_of};
    ghost use Rattle.rapid_node.specs.Codes.{node_code};
    ghost use Rattle.rapid_desk.specs.Records.{JournalValue, records_of};

    ghost Value = { JournalValue };

    ghost coded = { Prim.hlevel (codes, node_code) };

    ghost view = { λ j. record { entry = j.entry.value; records = records_of (configuration_of j.entry.value) j.records.items } };
}

/// Whether a message that says this is kept: a Probe and its answer change nothing in a node.
fn is_kept(body: &Body) -> bool
    ensures { result ≡ model.is_kept (body_of body.now) }
{
    !matches!(body, Body::Probe(_) | Body::ProbeAck(_))
}

/// The configuration that the message is about, if its parts can be kept alone.
fn about(body: &Body) -> Option<ConfigId>
    ensures { result ≡ about (body_of body.now) }
{
    match body {
        Body::Batch(id, _)
        | Body::FastVote(id, _)
        | Body::Prepare(id, _)
        | Body::Promise(id, _, _)
        | Body::Accept(id, _, _)
        | Body::Accepted(id, _, _)
        | Body::Decision(id, _)
        | Body::Leave(id, _) => Some(*id),
        Body::PreJoin
        | Body::Reply(..)
        | Body::JoinRequest(..)
        | Body::Confirm(_)
        | Body::Probe(_)
        | Body::ProbeAck(_) => None,
    }
}

/// Which configuration has this identifier: the node's, or the one before it.
fn which_of(entry: &Node, id: &ConfigId) -> Option<Which>
    ensures { result ≡ which_of (configuration_of entry.now) id.now }
{
    let configuration = entry.configuration()?;
    if *id == configuration.id() {
        return Some(Which::This);
    }
    if *id == configuration.previous() {
        return Some(Which::Previous);
    }
    None
}

/// The place of a member of the node's configuration.
fn place_of(entry: &Node, process: &Process) -> Option<u16>
    ensures { result ≡ place_of (configuration_of entry.now) process.now }
{
    let configuration = entry.configuration()?;
    let place = configuration.position(process)?;
    configuration.tell();
    Some(place as u16)
}

/// The place of the process, if it is a member of the node's configuration, and the identifier is that
/// of this one or the one before it.
fn place_about(entry: &Node, id: Option<ConfigId>, process: &Process) -> Option<(Which, u16)>
    ensures { result ≡ place_about (configuration_of entry.now) id process.now }
{
    let id = id?;
    let which = which_of(entry, &id)?;
    let place = place_of(entry, process)?;
    Some((which, place))
}

/// The sender's place, if the message is kept by its parts.
fn place_in(entry: &Node, message: &Message) -> Option<(Which, u16)>
    ensures { result ≡ place_in (configuration_of entry.now) message.now }
{
    place_about(entry, about(message.body()), message.sender())
}

/// Whether the message is a joiner's question.
fn is_question(body: &Body) -> bool
    ensures { result ≡ is_question (body_of body.now) }
{
    matches!(body, Body::PreJoin)
}

/// In which configuration, and on which ring, the sender asks to be let in, if it does.
fn ring_asked(entry: &Node, body: &Body) -> Option<(Which, u8)>
    ensures { result ≡ ring_asked (configuration_of entry.now) (body_of body.now) }
{
    match body {
        Body::JoinRequest(id, ring) => {
            let which = which_of(entry, id)?;
            Some((which, *ring))
        }
        Body::Batch(..)
        | Body::FastVote(..)
        | Body::Prepare(..)
        | Body::Promise(..)
        | Body::Accept(..)
        | Body::Accepted(..)
        | Body::Decision(..)
        | Body::PreJoin
        | Body::Reply(..)
        | Body::Confirm(_)
        | Body::Probe(_)
        | Body::ProbeAck(_)
        | Body::Leave(..) => None,
    }
}

/// How many ticks a record stands for, if it is one of ticks.
fn ticks_of(last: &JournalRecord) -> Option<u32>
    ensures { (c : Option Configuration) → result ≡ last_ticks (record_of c last.now ∷ []) }
{
    match last {
        JournalRecord::Ticks(n) => Some(*n),
        JournalRecord::Batch(..)
        | JournalRecord::FastVote(..)
        | JournalRecord::Prepare(..)
        | JournalRecord::Promise(..)
        | JournalRecord::Accept(..)
        | JournalRecord::Accepted(..)
        | JournalRecord::Decision(..)
        | JournalRecord::Leave(..)
        | JournalRecord::PreJoin(_)
        | JournalRecord::JoinRequest(..)
        | JournalRecord::EdgeDown(..)
        | JournalRecord::OwnLeave
        | JournalRecord::Other(_) => None,
    }
}

/// The record of what the member at this place says of this configuration.
fn record_by_parts(which: Which, place: u16, body: Body) -> JournalRecord
    requires { IsSome (about (body_of body)) }
    ensures parts { is_whole result ≡ false }
    ensures value { (c : Option Configuration) → about (body_of body) ≡ Some (id_in c which) → record_of c result ≡ said_by c place (body_of body) }
{
    match body {
        Body::Batch(_, batch) => JournalRecord::Batch(which, place, batch),
        Body::FastVote(_, cut) => JournalRecord::FastVote(which, place, cut),
        Body::Prepare(_, ballot) => JournalRecord::Prepare(which, place, ballot),
        Body::Promise(_, ballot, vote) => JournalRecord::Promise(which, place, ballot, vote),
        Body::Accept(_, ballot, cut) => JournalRecord::Accept(which, place, ballot, cut),
        Body::Accepted(_, ballot, cut) => JournalRecord::Accepted(which, place, ballot, cut),
        Body::Decision(_, cut) => JournalRecord::Decision(which, place, cut),
        Body::Leave(_, ring) => JournalRecord::Leave(which, place, ring),
        Body::PreJoin
        | Body::Reply(..)
        | Body::JoinRequest(..)
        | Body::Confirm(_)
        | Body::Probe(_)
        | Body::ProbeAck(_) => unreachable!(),
    }
}

/// Who sends a message, in a box. Its tags, if it has some, are shared with the message.
fn boxed_sender(alloc: Global, message: &Message) -> Result<Box<KeptProcess>, AllocError>
    ensures { IfOk result (λ sender. sender.value ≡ message.now.sender) }
{
    let sender = KeptProcess::of(message.shared_sender())?;
    Ok(Box::new(alloc, sender)?)
}

/// The record of a message whose sender has no place. What a joiner asks takes memory for the joiner
/// alone, all else for the whole event. It stands apart, since it is seldom needed.
#[inline(never)]
fn record_without_place(
    alloc: Global,
    entry: &Node,
    message: Message,
) -> Result<JournalRecord, AllocError>
    requires { place_in (configuration_of entry.now) message ≡ None }
    ensures value { IfOk result (λ r. record_of (configuration_of entry.now) r ≡ model.Other (Receive message)) }
    ensures whole { IfOk result (λ r. is_whole r ≡ stays_whole (configuration_of entry.now) message) }
{
    match ring_asked(entry, message.body()) {
        Some((which, ring)) => {
            let sender = boxed_sender(alloc, &message)?;
            Ok(JournalRecord::JoinRequest(sender, which, ring))
        }
        None if is_question(message.body()) => {
            Ok(JournalRecord::PreJoin(boxed_sender(alloc, &message)?))
        }
        None => Ok(JournalRecord::Other(Box::new(alloc, Event::Receive(message))?)),
    }
}

/// The record of a message in a journal with this entry. It takes memory only if the sender has no
/// place.
fn record_of(alloc: Global, entry: &Node, message: Message) -> Result<JournalRecord, AllocError>
    ensures value { IfOk result (λ r. record_of (configuration_of entry.now) r ≡ model.Other (Receive message)) }
    ensures whole { IfOk result (λ r. is_whole r ≡ stays_whole (configuration_of entry.now) message) }
    ensures refused { OnErr result (place_in (configuration_of entry.now) message ≡ None) }
{
    match place_in(entry, &message) {
        Some((which, place)) => Ok(record_by_parts(which, place, message.into_body())),
        None => record_without_place(alloc, entry, message),
    }
}

/// Which configuration, the place of the subject, and the ring, if the event is an edge that went down
/// and has these.
fn edge_in(entry: &Node, event: &Event) -> Option<(Which, u16, u8)>
    ensures { result ≡ edge_in (configuration_of entry.now) (event_of event.now) }
{
    match event {
        Event::EdgeDown(id, ring, subject) => {
            let (which, place) = place_about(entry, Some(*id), subject.get())?;
            Some((which, place, *ring))
        }
        Event::Tick | Event::Receive(_) | Event::Leave => None,
    }
}

/// The record of an edge that went down, in a journal with this entry. It takes memory only if the
/// subject has no place.
fn record_of_edge(alloc: Global, entry: &Node, event: Event) -> Result<JournalRecord, AllocError>
    ensures value { IfOk result (λ r. record_of (configuration_of entry.now) r ≡ model.Other (event_of event)) }
    ensures whole { IfOk result (λ r. is_whole r ≡ is_none (edge_in (configuration_of entry.now) (event_of event))) }
    ensures refused { OnErr result (edge_in (configuration_of entry.now) (event_of event) ≡ None) }
{
    match edge_in(entry, &event) {
        Some((which, place, ring)) => Ok(JournalRecord::EdgeDown(which, place, ring)),
        None => Ok(JournalRecord::Other(Box::new(alloc, event)?)),
    }
}

impl Journal {
    /// The journal that begins at this node.
    pub(crate) fn new(alloc: Global, entry: Box<Node>) -> Journal
        ensures { result ≡ record { entry = entry.value; records = [] } }
    {
        Journal {
            entry,
            records: Vec::new(alloc),
        }
    }

    /// How many records there are.
    pub(crate) fn len(&self) -> usize
        ensures { result ≡ length self.now.records }
    {
        self.records.len()
    }

    /// The journal begins anew at this node. It keeps its room.
    pub(crate) fn begin(&mut self, entry: Box<Node>)
        ensures { self.new ≡ record { entry = entry.value; records = [] } }
    {
        self.records.clear();
        self.entry = entry;
    }

    /// How many ticks the last record stands for, if it is one of ticks.
    #[tactic(auto, using(crate::proofs::Ticking::last_is_at))]
    fn last_ticks(&self) -> Option<u32>
        ensures { result ≡ last_ticks self.now.records }
    {
        match self.records.last() {
            Some(last) => ticks_of(last),
            None => None,
        }
    }

    /// Whether a tick more is joined to the last record.
    #[tactic(auto, using(crate::proofs::Ticking::joins_by_ticks))]
    fn joins_last(&self) -> bool
        ensures { result ≡ joins self.now.records }
    {
        match self.last_ticks() {
            Some(n) => n < u32::MAX,
            None => false,
        }
    }

    /// How many records the event adds: none or one.
    pub(crate) fn added(&self, event: &Event) -> usize
        ensures added { result ≡ added_by self.now.records (event_of event.now) }
        ensures few { result ≤ 1 }
    {
        let joined = match event {
            Event::Tick => self.joins_last(),
            Event::EdgeDown(..) | Event::Leave => false,
            Event::Receive(message) => !is_kept(message.body()),
        };
        if joined { 0 } else { 1 }
    }

    /// Gets room for this many records more.
    pub(crate) fn reserve(&mut self, count: usize) -> Result<(), AllocError>
        ensures { self.new ≡ self.old }
    {
        self.records.reserve(count)?;
        Ok(())
    }

    /// A tick more, which is joined to the last record.
    fn join_tick(&mut self)
        requires { joins self.old.records ≡ true }
        ensures { self.new ≡ record { entry = self.old.entry; records = model.with_tick self.old.records } }
    {
        let Some(n) = self.last_ticks() else {
            unreachable!()
        };
        let _ = self.records.pop();
        self.records.push_reserved(JournalRecord::Ticks(n + 1));
    }

    /// A record more. If out of memory the journal is as it was.
    fn push(&mut self, last: JournalRecord) -> Result<(), AllocError>
        ensures added { OnOk result (self.new ≡ record { entry = self.old.entry; records = self.old.records ++ record_of (configuration_of self.old.entry) last ∷ [] }) }
        ensures unchanged { OnErr result (self.new ≡ self.old) }
    {
        match self.records.push(last) {
            Ok(()) => Ok(()),
            Err(_) => Err(AllocError),
        }
    }

    /// A tick more.
    fn add_tick(&mut self) -> Result<(), AllocError>
        ensures added { OnOk result (self.new ≡ record { entry = self.old.entry; records = model.with_tick self.old.records }) }
        ensures unchanged { OnErr result (self.new ≡ self.old) }
    {
        if self.joins_last() {
            self.join_tick();
            return Ok(());
        }
        self.push(JournalRecord::Ticks(1))
    }

    /// A message more, if it is kept.
    fn add_message(&mut self, alloc: Global, message: Message) -> Result<(), AllocError>
        ensures added { OnOk result (self.new ≡ record { entry = self.old.entry; records = model.with_event self.old.records (Receive message) }) }
        ensures unchanged { OnErr result (self.new ≡ self.old) }
    {
        if !is_kept(message.body()) {
            return Ok(());
        }
        let record = record_of(alloc, &self.entry, message)?;
        self.push(record)
    }

    /// An edge more that went down.
    fn add_edge(&mut self, alloc: Global, event: Event) -> Result<(), AllocError>
        ensures added { OnOk result (self.new ≡ record { entry = self.old.entry; records = self.old.records ++ model.Other (event_of event) ∷ [] }) }
        ensures unchanged { OnErr result (self.new ≡ self.old) }
    {
        let record = record_of_edge(alloc, &self.entry, event)?;
        self.push(record)
    }

    /// An event more. If out of memory the journal is as it was.
    pub(crate) fn add(&mut self, alloc: Global, event: Event) -> Result<(), AllocError>
        ensures added { OnOk result (self.new ≡ record { entry = self.old.entry; records = model.with_event self.old.records (event_of event) }) }
        ensures unchanged { OnErr result (self.new ≡ self.old) }
    {
        match event {
            Event::Tick => self.add_tick(),
            Event::Receive(message) => self.add_message(alloc, message),
            Event::Leave => self.push(JournalRecord::OwnLeave),
            edge => self.add_edge(alloc, edge),
        }
    }
}
