// All packets that were ever sent.

ghost use Rattle.std.specs.Prelude.{◌≡◌, ◌<◌, ◌-◌, ◌++◌, length, OnOk, IfSome, vec_len, vec_capacity, nat_lt, ℕ, ◌∷◌, [], true, None};
ghost use Rattle.std.specs.Arc.{arc_value};
ghost use Rattle.std.specs.Option.{option_map};
ghost use Rattle.rapid_node.specs.Steps.{event_of};
ghost use Rattle.rapid_world.specs.Arrivals.{AreRead, Brings};
ghost use Rattle.rapid_world.specs.Framed.{frame_to};
ghost use Rattle.rapid_world.specs.Sent.{AreNumbered, HasSent, Tells, all_packets, numbered_packet};

use crate::arrived::Arrived;
use crate::sending::Sending;
use rapid_endpoint::Endpoint;
use rapid_node::Event;
use std::alloc::{AllocError, Global};
use std::marker::Model;
use std::sync::Arc;

/// All packets that were ever sent, by the steps in which they were, each an endpoint and a frame.
/// They are numbered from 1 in the order sent.
#[derive(Drop)]
pub(crate) struct Mail {
    sendings: Vec<Sending>,
    // how many packets there are
    sent: u64,
    // the place of the step whose packet was looked for last: mostly the next one is asked for next
    near: usize,
    // the message that came last: mostly the next one that comes is the same
    arrived: Option<Arrived>,
}

impl Model for Mail {
    ghost use Rattle.std.specs.Arc.{arc_value};
    ghost use Rattle.std.specs.Prelude.{◌-◌, vec_len, vec_capacity, IfSome};
    ghost use Rattle.rapid_node.specs.Steps.{event_of};
    ghost use Rattle.rapid_world.specs.Arrivals.{AreRead};
    ghost use Rattle.rapid_world.specs.Sent.{Mailbox, all_packets, AreNumbered};

    ghost Value = { Mailbox };

    ghost view = { λ m. record { packets = all_packets m.sendings.items; room = vec_capacity m.sendings - vec_len m.sendings } };

    ghost invariant = { λ m. AreNumbered 0 m.sendings.items m.sent × IfSome m.arrived (λ a. AreRead (all_packets m.sendings.items) a.first a.end (event_of (arc_value a.event))) };
}

/// Puts an element after the others, for which there is room.
pub(crate) fn push_within<T: Drop>(elements: &mut Vec<T>, element: T)
    requires { vec_len elements.old < vec_capacity elements.old }
    ensures { elements.new.items ≡ elements.old.items ++ element ∷ [] }
{
    match elements.push(element) {
        Ok(()) => {}
        Err(_) => unreachable!(),
    }
}

/// Whether fewer packets were sent before the step than up to one with this number.
fn is_before(sending: &Sending, number: u64) -> bool
    ensures { result ≡ nat_lt sending.now.first number }
{
    sending.first() < number
}

impl Mail {
    /// No packets.
    pub(crate) fn new(alloc: Global) -> Mail
        ensures { result.packets ≡ [] }
    {
        Mail {
            sendings: Vec::new(alloc),
            sent: 0,
            near: 0,
            arrived: None,
        }
    }

    /// How many packets were sent.
    #[tactic(auto, using(crate::proofs::Mails::sent_are))]
    pub(crate) fn sent(&self) -> u64
        ensures { result ≡ length self.now.packets }
    {
        self.sent
    }

    /// Makes room for what one further step sends.
    pub(crate) fn reserve(&mut self) -> Result<(), AllocError>
        ensures packets { self.new.packets ≡ self.old.packets }
        ensures room { OnOk result (0 < self.new.room) }
    {
        self.sendings.reserve(1)
    }

    /// Puts what one step sent after the others.
    #[tactic(auto, using(crate::proofs::Mails::posted))]
    pub(crate) fn post(&mut self, sending: Sending)
        requires room { 0 < self.old.room }
        requires next { sending.first ≡ length self.old.packets }
        ensures { self.new.packets ≡ self.old.packets ++ sending.packets }
    {
        self.sent = sending.end();
        push_within(&mut self.sendings, sending);
    }

    /// The packet with a number: its endpoint and its frame.
    pub(crate) fn packet(&self, number: u64) -> Option<(Endpoint, &[u8])>
        ensures { option_map (λ x. frame_to x.1.now x.0) result ≡ numbered_packet self.now.packets number }
    {
        find_numbered(self.sendings.as_slice(), self.near, number)
    }

    /// Looks for the packet with a number, so that it and the next ones are found at once. Nothing
    /// else changes.
    pub(crate) fn seek(&mut self, number: u64)
        ensures { self.new ≡ self.old }
    {
        if let Some(place) = place_of(self.sendings.as_slice(), self.near, number) {
            self.near = place;
        }
    }

    /// What a node takes as the message of the packet with a number, if it was read from the frame of
    /// the packet that came last.
    pub(crate) fn event(&self, number: u64) -> Option<&Arc<Event, Global>>
        ensures { IfSome result (λ e. Brings self.now.packets number (event_of (arc_value e.now))) }
    {
        match &self.arrived {
            Some(arrived) => arrived.of(number),
            None => None,
        }
    }

    /// Keeps what was read from the frame of the packet with a number, for those that have the same
    /// frame. Nothing else changes.
    pub(crate) fn keep(&mut self, number: u64, event: &Arc<Event, Global>)
        requires { Brings self.old.packets number (event_of (arc_value event.now)) }
        ensures { self.new ≡ self.old }
    {
        if self.event(number).is_none() {
            self.arrived = arrived_at(self.sendings.as_slice(), self.near, number, event);
        }
    }
}

/// What was read from the frame of the packet with a number, and the packets that have this frame, in
/// steps that are numbered from 1.
fn arrived_at(
    sendings: &[Sending],
    near: usize,
    number: u64,
    event: &Arc<Event, Global>,
) -> Option<Arrived>
    requires numbered { (total : ℕ) × AreNumbered 0 sendings.now total }
    requires read { Brings (all_packets sendings.now) number (event_of (arc_value event.now)) }
    ensures { IfSome result (λ a. AreRead (all_packets sendings.now) a.first a.end (event_of (arc_value a.event))) }
{
    let place = place_of(sendings, near, number)?;
    let (first, end) = sendings[place].span(number)?;
    match Arc::try_clone(event) {
        Ok(event) => Some(Arrived { first, end, event }),
        Err(AllocError) => None,
    }
}

/// Whether the step at a place sent the packet with a number.
fn is_at(sendings: &[Sending], place: usize, number: u64) -> bool
    ensures { result ≡ true → HasSent sendings.now number place }
{
    match sendings.get(place) {
        Some(sending) => sending.first() < number && number <= sending.end(),
        None => false,
    }
}

/// The place of the last step before which fewer packets were sent than up to one with this number.
fn last_before(sendings: &[Sending], number: u64) -> Option<usize>
    requires { (total : ℕ) × AreNumbered 0 sendings.now total }
    ensures found { IfSome result (Tells sendings.now number) }
    ensures none { result ≡ None → numbered_packet (all_packets sendings.now) number ≡ None }
{
    let after = sendings.partition_point(|sending| is_before(sending, number));
    let Some(last) = after.checked_sub(1) else {
        return None;
    };
    Some(last)
}

/// The place of the step that sent the packet with a number, if one did, in steps that are numbered
/// from 1. This place and the next are tried first.
fn place_of(sendings: &[Sending], near: usize, number: u64) -> Option<usize>
    requires { (total : ℕ) × AreNumbered 0 sendings.now total }
    ensures found { IfSome result (Tells sendings.now number) }
    ensures none { result ≡ None → numbered_packet (all_packets sendings.now) number ≡ None }
{
    if is_at(sendings, near, number) {
        return Some(near);
    }
    let next = near.saturating_add(1);
    if is_at(sendings, next, number) {
        return Some(next);
    }
    last_before(sendings, number)
}

/// The packet with a number, in steps that are numbered from 1, by the place of a step that is tried
/// first.
fn find_numbered(sendings: &[Sending], near: usize, number: u64) -> Option<(Endpoint, &[u8])>
    requires { (total : ℕ) × AreNumbered 0 sendings.now total }
    ensures { option_map (λ x. frame_to x.1.now x.0) result ≡ numbered_packet (all_packets sendings.now) number }
{
    match place_of(sendings, near, number) {
        Some(place) => {
            let sending = &sendings[place];
            sending.packet(number - 1 - sending.first())
        }
        None => None,
    }
}
