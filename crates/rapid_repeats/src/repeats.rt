// Messages that change nothing, since an equal one was let through before.

ghost use Rattle.std.specs.Prelude.{◌≡◌, ◌⊎◌, ℕ, ◌+◌, ◌-◌, ◌^◌, List, [], true, false, All, map, min, IfOk};
ghost use Rattle.rapid_model.specs.Configuration.{Configuration as ModelConfiguration, configuration_id};
ghost use Rattle.rapid_model.specs.Message as model;
ghost use Rattle.rapid_message.specs.Bodies.{IsFrom};
ghost use Rattle.rapid_repeats.specs.Repeating.{Passed, IsRepeat, passed_after};
ghost use Rattle.rapid_repeats.specs.Parts.{place_in};

use crate::kept::{Batches, Votes, passes_batch, passes_vote};
use crate::questions::Questions;
use crate::said::Asked;
use rapid_alerts::Batch;
use rapid_config::{ConfigId, Configuration, Cut};
use rapid_endpoint::{Process, SharedProcess};
use rapid_message::{Body, Message};
use std::alloc::{AllocError, Global};
use std::collections::BTreeMap;
use std::marker::Model;

/// Finds the messages of a configuration that change nothing, since an equal one was let through
/// before. These are a batch and a fast vote of a member, a joiner's request, and for ten ticks a
/// joiner's question whether it may join. It keeps the last message of each member and kind, and up
/// to 4,096 of others. A new one is made at each view. Contracts see the messages that it keeps, and
/// of those of others when they came.
///
/// A message is kept by its parts. Of a member these are its place in the configuration, and a share
/// of what it said. Of others they are who asked, what, and when. Who asked stands once.
#[derive(Drop)]
pub struct Repeats {
    alloc: Global,
    configuration: Configuration,
    ticks: u64,
    batches: Batches,
    votes: Votes,
    questions: Questions,
}

impl Model for Repeats {
    ghost use Rattle.rapid_repeats.specs.Remembering.{Filter, IsFilter};
    ghost use Rattle.rapid_repeats.specs.Parts.{AreParts, filter_of};

    ghost Value = { Filter };

    ghost view = { λ r. filter_of r.configuration r.ticks r.batches.entries r.votes.entries r.questions };

    ghost invariant = { λ r.
        IsFilter (filter_of r.configuration r.ticks r.batches.entries r.votes.entries r.questions)
        × AreParts r.configuration r.batches.entries r.votes.entries };
}

/// The place of a process that speaks of the configuration with this identifier, if that is this
/// configuration, and the process a member of it.
fn place_in(configuration: &Configuration, id: ConfigId, process: &Process) -> Option<u16>
    ensures { result ≡ place_in configuration.now id process.now }
{
    if id != configuration.id() {
        return None;
    }
    let place = configuration.position(process)?;
    configuration.tell();
    Some(place as u16)
}

impl Repeats {
    ghost use Rattle.rapid_repeats.specs.Remembering.{IsFilter, Remembers, IsRepeatFor, IsSought, KeepsSame};
    ghost use Rattle.rapid_repeats.specs.Parts.{Judges, asked_in};

    /// In this configuration nothing was let through yet.
    pub fn new(alloc: Global, configuration: &Configuration) -> Result<Repeats, AllocError>
        ensures { IfOk result (λ r. Remembers r configuration.now 0 []) }
    {
        Ok(Repeats {
            alloc,
            configuration: configuration.try_copy(alloc)?,
            ticks: 0,
            batches: BTreeMap::new(alloc),
            votes: BTreeMap::new(alloc),
            questions: Questions::new(alloc),
        })
    }

    /// The value is that of a filter. It does nothing: what it ensures is for proofs.
    #[inline(always)]
    fn tell(&self)
        ensures { IsFilter self.now }
    {
        let _ = &self.ticks;
    }

    /// A tick more.
    pub fn tick(&mut self)
        ensures { (c : ModelConfiguration) (now : ℕ) (passed : List Passed) → Remembers self.old c now passed → Remembers self.new c (min (now + 1) (2 ^ 64 - 1)) passed }
    {
        self.ticks = self.ticks.saturating_add(1);
    }

    /// Lets a batch through, unless it is the last one of its sender.
    fn admits_batch(&mut self, sender: &Process, id: ConfigId, batch: &Batch) -> bool
        requires { All (IsFrom sender.now id) batch.now }
        ensures { Judges self.old (record { sender = sender.now; body = model.Batch id (map model.item_of batch.now) }) result self.new }
    {
        match place_in(&self.configuration, id, sender) {
            Some(place) => passes_batch(self.alloc, &mut self.batches, place, batch),
            None => true,
        }
    }

    /// Lets a fast vote through, unless it is the last one of its sender.
    fn admits_vote(&mut self, sender: &Process, id: ConfigId, vote: &Cut) -> bool
        ensures { Judges self.old (record { sender = sender.now; body = model.FastVote id vote.now }) result self.new }
    {
        match place_in(&self.configuration, id, sender) {
            Some(place) => passes_vote(self.alloc, &mut self.votes, place, vote),
            None => true,
        }
    }

    /// Lets through what a process asks, unless it asked the same shortly before.
    fn admits_asked(&mut self, sender: &SharedProcess, asked: Asked) -> bool
        ensures { Judges self.old (record { sender = sender.now; body = asked_in (configuration_id self.old.configuration) asked }) result self.new }
    {
        self.questions.passes(sender, asked, self.ticks)
    }

    /// Lets a request through, unless it is for this configuration and was made before.
    fn admits_request(&mut self, sender: &SharedProcess, id: ConfigId, ring: u8) -> bool
        ensures { Judges self.old (record { sender = sender.now; body = model.JoinRequest id ring }) result self.new }
    {
        if id != self.configuration.id() {
            return true;
        }
        self.admits_asked(sender, Asked::Request(ring))
    }

    /// Lets a message through, unless it repeats the one that is kept of its sender and kind.
    fn judge(&mut self, message: &Message) -> bool
        ensures { Judges self.old message.now result self.new }
    {
        let sender = message.sender();
        match message.body() {
            Body::Batch(id, batch) => self.admits_batch(sender, *id, batch),
            Body::FastVote(id, vote) => self.admits_vote(sender, *id, vote),
            Body::JoinRequest(id, ring) => {
                self.admits_request(message.shared_sender(), *id, *ring)
            }
            Body::PreJoin => self.admits_asked(message.shared_sender(), Asked::Question),
            _ => {
                self.tell();
                true
            }
        }
    }

    /// Whether a message is let through. One that is not let through is equal to one that was since
    /// the view was entered. If it asks whether the sender may join, it is equal to one within ten
    /// ticks. Each that is equal to the one kept of its sender and kind is not let through, such a
    /// question within ten ticks only. If one is let through of which repeats are looked for, it is
    /// kept, unless there is no memory or no room for it.
    pub fn admits(&mut self, message: &Message) -> bool
        ensures dropped { (c : ModelConfiguration) (now : ℕ) (passed : List Passed) → Remembers self.old c now passed → result ≡ false → IsRepeat (configuration_id c) now passed message.now }
        ensures repeats { IsRepeatFor self.old message.now → result ≡ false }
        ensures learned { IsSought self.old.configuration message.now → result ≡ true → IsRepeatFor self.new message.now ⊎ KeepsSame self.old self.new }
        ensures kept { (c : ModelConfiguration) (now : ℕ) (passed : List Passed) → Remembers self.old c now passed → Remembers self.new c now (passed_after result message.now now passed) }
    {
        self.judge(message)
    }
}
