// What processes asked that want to join, and when.

ghost use Rattle.std.specs.Prelude.{◌≡◌, ◌≤◌, ℕ, [], true, false, Contains, Some, length, slice_get, IfSome};
ghost use Rattle.rapid_model.specs.Bytes.{ConfigurationId};
ghost use Rattle.rapid_model.specs.Limits.{most_kept_of_others};
ghost use Rattle.rapid_repeats.specs.Askers.{StaysIn};
ghost use Rattle.rapid_repeats.specs.Repeating.{IsTimely};
ghost use Rattle.rapid_repeats.specs.Parts.{Adds, asked_in};

use crate::kept::keep;
use crate::said::Asked;
use rapid_endpoint::{KeptProcess, Process, SharedProcess};
use rapid_roster::Roster;
use std::alloc::Global;
use std::collections::BTreeMap;
use std::marker::Model;

/// How many messages of others are kept at most, and how many who say them.
const MOST_OF_OTHERS: usize = 4_096;

/// When each process last asked what. Who asks stands once, whatever it asks. Its tags, if it has some,
/// are shared with its message.
#[derive(Drop)]
pub(crate) struct Questions {
    askers: Roster,
    /// by the place of who asks, and what it asks
    times: BTreeMap<(usize, Asked), u64>,
}

impl Model for Questions {
    ghost use Rattle.std.specs.Prelude.{ℕ, List};
    ghost use Rattle.rapid_model.specs.Process.{Process as ModelProcess};
    ghost use Rattle.rapid_repeats.specs.declared.said.Asked.{Asked};
    ghost use Rattle.rapid_repeats.specs.Askers.{questions_in, ArePlaces};

    ghost Value = { List ((ModelProcess × Asked) × ℕ) };

    ghost view = { λ q. questions_in q.askers q.times.entries };

    ghost invariant = { λ q. ArePlaces q.askers q.times.entries };
}

/// The place of who asks. One that asks for the first time is kept. None if there is no room or no
/// memory for it.
fn place_for(askers: &mut Roster, sender: &SharedProcess) -> Option<usize>
    ensures place { IfSome result (λ place. slice_get askers.new place ≡ Some sender.now) }
    ensures stays { StaysIn askers.old askers.new }
{
    if let Some(place) = askers.find(&sender.get().as_ref()) {
        return Some(place);
    }
    let place = askers.len();
    if place >= MOST_OF_OTHERS {
        return None;
    }
    let Ok(asker) = KeptProcess::of(sender) else {
        return None;
    };
    match askers.push(asker) {
        Ok(()) => Some(place),
        Err(_) => None,
    }
}

impl Questions {
    /// Nothing was asked.
    pub(crate) fn new(alloc: Global) -> Questions
        ensures { result ≡ [] }
    {
        Questions {
            askers: Roster::new(alloc),
            times: BTreeMap::new(alloc),
        }
    }

    /// Whether a process asked this before, so shortly that a repeat is dropped.
    fn was_asked(&self, sender: &Process, asked: Asked, now: u64) -> bool
        ensures before { (here : ConfigurationId) → result ≡ true → (t : ℕ) × Contains self.now ((sender.now, asked), t) × IsTimely (asked_in here asked) t now }
        ensures told { (here : ConfigurationId) (t : ℕ) → Contains self.now ((sender.now, asked), t) → IsTimely (asked_in here asked) t now → result ≡ true }
    {
        self.askers.tell();
        // asked for its clause that no two keys are equal
        let _ = self.times.len();
        let Some(place) = self.askers.find(&sender.as_ref()) else {
            return false;
        };
        match self.times.get(&(place, asked)) {
            Some(before) => asked.is_timely(*before, now),
            None => false,
        }
    }

    /// This is when the process last asked that, if there is memory and room for it.
    fn keep(&mut self, sender: &SharedProcess, asked: Asked, now: u64)
        ensures kept { Adds self.old ((sender.now, asked), now) self.new }
        ensures few { length self.old ≤ most_kept_of_others → length self.new ≤ most_kept_of_others }
    {
        if let Some(place) = place_for(&mut self.askers, sender) {
            keep(&mut self.times, MOST_OF_OTHERS, (place, asked), now);
        }
    }

    /// Lets through what a process asks, unless it asked the same shortly before. From then on this is
    /// when it last asked that, if there is memory and room for it.
    pub(crate) fn passes(&mut self, sender: &SharedProcess, asked: Asked, now: u64) -> bool
        ensures dropped { (here : ConfigurationId) → result ≡ false → (t : ℕ) × Contains self.old ((sender.now, asked), t) × IsTimely (asked_in here asked) t now }
        ensures same { result ≡ false → self.new ≡ self.old }
        ensures repeats { (here : ConfigurationId) (t : ℕ) → Contains self.old ((sender.now, asked), t) → IsTimely (asked_in here asked) t now → result ≡ false }
        ensures kept { Adds self.old ((sender.now, asked), now) self.new }
        ensures few { length self.old ≤ most_kept_of_others → length self.new ≤ most_kept_of_others }
    {
        if self.was_asked(sender.get(), asked, now) {
            return false;
        }
        self.keep(sender, asked, now);
        true
    }
}
