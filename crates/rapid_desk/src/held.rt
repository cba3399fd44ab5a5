// What a desk holds beside what it has published.

ghost use Rattle.std.specs.Prelude.{◌≡◌, ◌≤◌, [], true, false, length, IfOk, IfErr, OnOk, OnErr};
ghost use Rattle.rapid_model.specs.Journal.{with_event};
ghost use Rattle.rapid_model.specs.Node as model;
ghost use Rattle.rapid_model.specs.NodeStep.{node_step};
ghost use Rattle.rapid_model.specs.Limits.{most_entries};
ghost use Rattle.rapid_node.specs.Steps.{event_of, HasOutcome};
ghost use Rattle.rapid_desk.specs.Desks.{is_refused, HasNoRoom, NotTaken, TakesNoEdge, NoCheckpoint};

use crate::DeskError;
use crate::journal::{Journal, MOST_RECORDS};
use rapid_message::Outputs;
use rapid_node::{Event, Node};
use std::alloc::{AllocError, Global};
use std::marker::Model;
use std::mem;

/// What a desk holds: its node, the journal of what happened since the node entered its
/// configuration, and the node as it was there. `next` has room for the node that a step makes, so
/// that a step takes no room for it.
///
/// A step is made in a copy, which then takes the node's place, so an event that is refused changes
/// nothing. One that installs nothing allocates only for the journal, and for what the copy shares
/// no more. The node before stays in `next` until the next step.
#[derive(Drop)]
pub struct Held {
    alloc: Global,
    node: Box<Node>,
    next: Box<Node>,
    journal: Journal,
    full: bool,
}

impl Model for Held {
    ghost use Rattle.std.specs.Coded.{codes};
    ghost use Rattle.rapid_node.specs.Codes.{node_code};
    ghost use Rattle.rapid_desk.specs.Desks.{HeldValue};

    ghost Value = { HeldValue };

    ghost coded = { Prim.hlevel (codes, node_code) };

    ghost view = { λ h. record { entry = h.journal.entry; journal = h.journal.records; full = h.full; node = h.node.value; next = h.next.value } };
}

/// Gets room for the records of an event. `JournalFull` if one was refused so before, or if the
/// event needs a record more than the journal may have.
#[tactic(auto, using(crate::proofs::Stepping::full_is))]
fn get_room(journal: &mut Journal, full: &mut bool, event: &Event) -> Result<(), DeskError>
    requires { length journal.old.records ≤ most_entries }
    ensures same { journal.new ≡ journal.old }
    ensures free { OnOk result ((is_refused full.old journal.old.records (event_of event.now) ≡ false) × (full.new ≡ full.old)) }
    ensures refused { IfErr result (HasNoRoom full.old journal.old.records (event_of event.now) full.new) }
{
    let added = journal.added(event);
    // once full it stays so, also for an event that needs no record: an earlier one was refused
    if *full || journal.len() + added > MOST_RECORDS {
        *full = true;
        return Err(DeskError::JournalFull);
    }
    journal.reserve(added)?;
    Ok(())
}

/// Puts a copy of the node in its place.
fn copy_into(place: &mut Node, node: &Node) -> Result<(), AllocError>
    ensures ok { OnOk result (place.new ≡ node.now) }
{
    *place = node.try_copy()?;
    Ok(())
}

impl Held {
    /// What is held of this node before any event: the journal has no record, and its entry is the
    /// node.
    pub(crate) fn new(alloc: Global, node: Node) -> Result<Held, AllocError>
        ensures { IfOk result (λ h. (h.entry ≡ node) × (h.journal ≡ []) × (h.full ≡ false) × (h.node ≡ node)) }
    {
        let node = Box::new(alloc, node)?;
        let next = Box::new(alloc, node.try_copy()?)?;
        let entry = Box::new(alloc, node.try_copy()?)?;
        Ok(Held {
            alloc,
            node,
            next,
            journal: Journal::new(alloc, entry),
            full: false,
        })
    }

    /// Makes the step in a copy of the node. If the copy has halted it takes the node's place.
    pub(crate) fn prepare(&mut self, event: &Event) -> Result<Outputs, DeskError>
        requires { length self.old.journal ≤ most_entries }
        ensures same { (self.new.entry ≡ self.old.entry) × (self.new.journal ≡ self.old.journal) }
        ensures ok { OnOk result ((is_refused self.old.full self.old.journal (event_of event.now) ≡ false) × (self.new.full ≡ self.old.full) × (self.new.node ≡ self.old.node) × (model.is_halted self.old.node ≡ false)) }
        ensures outputs { IfOk result (λ sent. HasOutcome self.old.node.me (node_step self.old.node (event_of event.now)) self.new.next sent.items) }
        ensures refused { IfErr result (NotTaken self.old (event_of event.now) self.new) }
    {
        get_room(&mut self.journal, &mut self.full, event)?;
        copy_into(&mut self.next, &self.node)?;
        match self.next.step(event) {
            Ok(sent) => Ok(sent),
            Err(fault) => {
                mem::swap(&mut self.node, &mut self.next);
                Err(DeskError::Node(fault))
            }
        }
    }

    /// Refuses an edge that went down, for whose event there was no memory. It needs a record, so a
    /// full journal is the reason if it has no room for one.
    pub(crate) fn refuse_edge(&mut self) -> DeskError
        ensures same { (self.new.entry ≡ self.old.entry) × (self.new.journal ≡ self.old.journal) }
        ensures refused { TakesNoEdge self.old self.new result }
    {
        self.full |= self.journal.len() >= MOST_RECORDS;
        if self.full {
            return DeskError::JournalFull;
        }
        DeskError::OutOfMemory
    }

    /// Whether the step has installed a configuration.
    pub(crate) fn installs(&self) -> bool
        ensures { result ≡ model.has_installed self.now.node self.now.next }
    {
        self.node.installed().len() < self.next.installed().len()
    }

    /// The node.
    pub(crate) fn node(&self) -> &Node
        ensures { result.now ≡ self.now.node }
    {
        &self.node
    }

    /// The node that the step made.
    pub(crate) fn next(&self) -> &Node
        ensures { result.now ≡ self.now.next }
    {
        &self.next
    }

    /// A copy of the node that the step made.
    pub(crate) fn copy_next(&self) -> Result<Box<Node>, AllocError>
        ensures { IfOk result (λ copy. copy.value ≡ self.now.next) }
    {
        Ok(Box::new(self.alloc, self.next.try_copy()?)?)
    }

    /// Takes in the node that the step made: the journal has the event. An error changes nothing.
    pub(crate) fn keep(&mut self, event: Event) -> Result<(), AllocError>
        ensures same { (self.new.entry ≡ self.old.entry) × (self.new.full ≡ self.old.full) }
        ensures ok { OnOk result ((self.new.journal ≡ with_event self.old.journal (event_of event)) × (self.new.node ≡ self.old.next)) }
        ensures unchanged { OnErr result ((self.new.journal ≡ self.old.journal) × (self.new.node ≡ self.old.node)) }
    {
        self.journal.add(self.alloc, event)?;
        mem::swap(&mut self.node, &mut self.next);
        Ok(())
    }

    /// Takes in the node that the step made, at a new entry: the journal begins anew.
    pub(crate) fn begin(&mut self, entry: Box<Node>)
        ensures { (self.new.entry ≡ entry.value) × (self.new.journal ≡ []) × (self.new.full ≡ self.old.full) × (self.new.node ≡ self.old.next) }
    {
        self.journal.begin(entry);
        mem::swap(&mut self.node, &mut self.next);
    }

    /// How many records the journal has.
    pub(crate) fn journal_len(&self) -> usize
        ensures { result ≡ length self.now.journal }
    {
        self.journal.len()
    }

    /// A copy of the node.
    fn copy_node(&self) -> Result<Box<Node>, AllocError>
        ensures { IfOk result (λ copy. copy.value ≡ self.now.node) }
    {
        Ok(Box::new(self.alloc, self.node.try_copy()?)?)
    }

    /// The journal begins anew at the node as it is. An error changes nothing.
    pub(crate) fn checkpoint(&mut self) -> Result<(), DeskError>
        ensures ok { OnOk result ((self.old.full ≡ false) × (self.new.full ≡ false) × (self.new.node ≡ self.old.node)) }
        ensures begun { OnOk result ((self.new.entry ≡ self.old.node) × (self.new.journal ≡ [])) }
        ensures refused { IfErr result (NoCheckpoint self.old.full) }
        ensures unchanged { OnErr result (self.new ≡ self.old) }
    {
        if self.full {
            return Err(DeskError::JournalFull);
        }
        let entry = self.copy_node()?;
        self.journal.begin(entry);
        Ok(())
    }

    /// Takes in the node that the step made, which halts.
    pub(crate) fn halt(&mut self)
        ensures same { (self.new.entry ≡ self.old.entry) × (self.new.journal ≡ self.old.journal) × (self.new.full ≡ self.old.full) }
        ensures node { self.new.node ≡ model.halt self.old.next }
    {
        self.next.halt();
        mem::swap(&mut self.node, &mut self.next);
    }
}
