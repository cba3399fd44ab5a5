// What a world stores.

ghost use Rattle.std.specs.Prelude.{◌≡◌, ◌<◌, length, map, slice_get, false, List, OnOk, Some};
ghost use Rattle.std.specs.Option.{option_map};
ghost use Rattle.rapid_model.specs.Process.{Process as ModelProcess};
ghost use Rattle.rapid_model.specs.StoredWorld.{accepted, new_world, unmarked, with_event};
ghost use Rattle.rapid_model.specs.World as model;
ghost use Rattle.rapid_world.specs.Events.{event_of, marked_of};
ghost use Rattle.rapid_world.specs.Stored.{IsWithin, Names, Says, id_at, is_start, marked_in, started_in, who_of};

use crate::WorldEvent;
use crate::mail::push_within;
use rapid_config::Configuration;
use rapid_endpoint::{Endpoint, KeptProcess, Process, ProcessId};
use std::alloc::{AllocError, Global};
use std::marker::Model;

/// A start: who joins, kept in little room, and the endpoint of its seed.
#[derive(Debug, Drop)]
pub(crate) struct Started {
    pub(crate) process: KeptProcess,
    pub(crate) seed: Endpoint,
}

// a start has at most 64 bytes
const _: () = prove!(size_of::<Started>() <= 64);

/// An event that was accepted, and whether its node halted in it because it was out of memory. Nodes
/// go by their places among all that ever started. The short fields stand first: so it has 16 bytes.
#[derive(Clone, Copy, Debug)]
pub(crate) enum StoredEvent {
    /// The start at a place among the starts.
    Start {
        halts: bool,
        start: usize,
    },
    /// A probe has finished.
    Probe {
        halts: bool,
        ok: bool,
        ring: u8,
        place: usize,
    },
    /// The clock ticks.
    Tick {
        halts: bool,
        place: usize,
    },
    /// The packet with a number comes.
    Deliver {
        halts: bool,
        packet: u64,
    },
    /// The node stops for good.
    Crash {
        halts: bool,
        place: usize,
    },
    /// The node is to leave.
    Leave {
        halts: bool,
        place: usize,
    },
}

// an event that is stored has 16 bytes
const _: () = prove!(size_of::<StoredEvent>() == 16);

/// What a world stores: how it was founded, and the events that it accepted, each with its mark. The
/// founders are the members of the founding configuration. Those who started later stand once, in a
/// list of their own.
#[derive(Drop)]
pub(crate) struct Stored {
    founding: Configuration,
    starts: Vec<Started>,
    events: Vec<StoredEvent>,
}

impl Model for Stored {
    ghost use Rattle.std.specs.Prelude.{◌-◌, map, vec_len, vec_capacity};
    ghost use Rattle.rapid_world.specs.Codes.{store_code};
    ghost use Rattle.rapid_world.specs.Stored.{AreStored, Store, marked_in};

    ghost Value = { Store };

    ghost coded = { store_code };

    ghost view = { λ s. record {
      world = record { founding = s.founding; events = map (marked_in s.founding.members s.starts.items) s.events.items };
      room = vec_capacity s.events - vec_len s.events;
      start_room = vec_capacity s.starts - vec_len s.starts;
    } };

    ghost invariant = { λ s. AreStored s.founding.members s.starts.items s.events.items };
}

/// The identifier of the process at a place among all that ever started: the founders, then these.
fn id_of(founders: &[Process], starts: &[Started], place: usize) -> ProcessId
    requires { place < length (who_of founders.now starts.now) }
    ensures { result ≡ id_at (who_of founders.now starts.now) place }
{
    match founders.get(place) {
        Some(founder) => founder.id(),
        None => starts[place - founders.len()].process.as_ref().id(),
    }
}

/// The event as it is stored. Its node stands at this place. It is no start.
fn placed(event: &WorldEvent, place: usize, halts: bool) -> StoredEvent
    requires { is_start (event_of event.now) ≡ false }
    ensures { (founders : List ModelProcess) (starts : List Started) → Names (slice_get (who_of founders starts) place) (event_of event.now)
        → Says founders starts result (record { event = event_of event.now; halts = halts }) }
{
    match *event {
        WorldEvent::Start(_, _) => unreachable!(),
        WorldEvent::Probe(_, ring, ok) => StoredEvent::Probe {
            halts,
            ok,
            ring,
            place,
        },
        WorldEvent::Tick(_) => StoredEvent::Tick { halts, place },
        WorldEvent::Deliver(packet) => StoredEvent::Deliver { halts, packet },
        WorldEvent::Crash(_) => StoredEvent::Crash { halts, place },
        WorldEvent::Leave(_) => StoredEvent::Leave { halts, place },
    }
}

/// The event that is stored so, with its mark.
fn marked(founders: &[Process], starts: &[Started], event: &StoredEvent) -> (WorldEvent, bool)
    requires { IsWithin founders.now starts.now event.now }
    ensures { marked_of result ≡ marked_in founders.now starts.now event.now }
{
    match *event {
        StoredEvent::Start { halts, start } => {
            let started = &starts[start];
            let process = started.process.to_process();
            (WorldEvent::Start(process, started.seed), halts)
        }
        StoredEvent::Probe {
            halts,
            ok,
            ring,
            place,
        } => {
            let id = id_of(founders, starts, place);
            (WorldEvent::Probe(id, ring, ok), halts)
        }
        StoredEvent::Tick { halts, place } => {
            let id = id_of(founders, starts, place);
            (WorldEvent::Tick(id), halts)
        }
        StoredEvent::Deliver { halts, packet } => (WorldEvent::Deliver(packet), halts),
        StoredEvent::Crash { halts, place } => {
            let id = id_of(founders, starts, place);
            (WorldEvent::Crash(id), halts)
        }
        StoredEvent::Leave { halts, place } => {
            let id = id_of(founders, starts, place);
            (WorldEvent::Leave(id), halts)
        }
    }
}

impl Stored {
    /// Founded so, and no event.
    pub(crate) fn new(alloc: Global, founding: Configuration) -> Stored
        ensures { result.world ≡ new_world founding }
    {
        Stored {
            founding,
            starts: Vec::new(alloc),
            events: Vec::new(alloc),
        }
    }

    /// How the world was founded.
    pub(crate) fn founding(&self) -> &Configuration
        ensures { result.now ≡ self.now.world.founding }
    {
        &self.founding
    }

    /// How many events there are.
    pub(crate) fn len(&self) -> usize
        ensures { result ≡ accepted self.now.world }
    {
        self.events.len()
    }

    /// An event with its mark, from 0 in order.
    pub(crate) fn event(&self, at: usize) -> Option<(WorldEvent, bool)>
        ensures { option_map marked_of result ≡ slice_get self.now.world.events at }
    {
        match self.events.get(at) {
            Some(event) => Some(marked(self.founding.members(), self.starts.as_slice(), event)),
            None => None,
        }
    }

    /// Makes room for an event.
    pub(crate) fn reserve(&mut self) -> Result<(), AllocError>
        ensures world { self.new.world ≡ self.old.world }
        ensures room { OnOk result (0 < self.new.room) }
    {
        self.events.reserve(1)
    }

    /// Makes room for a start.
    pub(crate) fn reserve_start(&mut self) -> Result<(), AllocError>
        ensures world { self.new.world ≡ self.old.world }
        ensures room { OnOk result (0 < self.new.room) }
        ensures start_room { OnOk result (0 < self.new.start_room) }
    {
        self.starts.reserve(1)?;
        self.events.reserve(1)
    }

    /// Puts an event with its mark behind the others. It is no start, and its node is the one at this
    /// place among all that ever started.
    pub(crate) fn push(&mut self, event: &WorldEvent, place: usize, halts: bool)
        requires room { 0 < self.old.room }
        requires names { Names (slice_get (started_in self.old.world) place) (event_of event.now) }
        ensures { self.new.world ≡ with_event self.old.world (record { event = event_of event.now; halts = halts }) }
    {
        push_within(&mut self.events, placed(event, place, halts));
    }

    /// Puts a start behind the other events.
    pub(crate) fn push_start(&mut self, process: KeptProcess, seed: Endpoint)
        requires room { 0 < self.old.room }
        requires start_room { 0 < self.old.start_room }
        ensures { self.new.world ≡ with_event self.old.world (unmarked (model.Start process seed)) }
    {
        let start = self.starts.len();
        push_within(&mut self.starts, Started { process, seed });
        push_within(
            &mut self.events,
            StoredEvent::Start {
                halts: false,
                start,
            },
        );
    }
}
