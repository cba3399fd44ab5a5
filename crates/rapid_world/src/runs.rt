// Runs of a world, by a list of events.

ghost use Rattle.std.specs.Prelude.{◌≡◌, ◌≤◌, ◌+◌, ◌++◌, ◌∷◌, [], ℕ, List, map};
ghost use Rattle.rapid_model.specs.Agreement.{NoCollision};
ghost use Rattle.rapid_model.specs.RunHolds.{RunHolds};
ghost use Rattle.rapid_model.specs.StoredWorld.{StoredWorld, RunsTo, run_by, wants_of, last_mark, world_of};
ghost use Rattle.rapid_model.specs.World as model;
ghost use Rattle.rapid_world.specs.Events.{event_of, error_wants};

use crate::{World, WorldError, WorldEvent};
use std::mem;

/// What became of a list of events.
#[derive(Clone, Copy, Debug, PartialEq, Eq)]
pub struct Ran {
    /// How many were accepted.
    pub accepted: usize,
    /// How often memory ran out: in the world, which then skips the event, or in the step of a
    /// node, which halts. If it is 0, the world skipped only events that it refuses.
    pub wanted: usize,
}

/// How often a refused event met a refused allocation.
fn error_wants(error: WorldError) -> usize
    ensures { result ≡ error_wants error }
{
    match error {
        WorldError::OutOfMemory => 1,
        _ => 0,
    }
}

impl World {
    /// How often the last event that was accepted met a refused allocation: once if it is marked,
    /// since its node halted.
    #[tactic(auto, unfolding(rapid_model::specs::StoredWorld::last_mark))]
    fn last_wants(&self) -> usize
        ensures { result ≡ wants_of (last_mark self.now.events) }
    {
        let last = self.accepted().saturating_sub(1);
        match self.event(last) {
            Some((_, true)) => 1,
            Some((_, false)) | None => 0,
        }
    }

    /// Steps by an event, and says what became of it.
    fn try_step(&mut self, event: &WorldEvent) -> Ran
        ensures run { (s : StoredWorld) (es : List model.WorldEvent) (n wanted : ℕ) → RunsTo s es n wanted self.old
            → RunsTo s (es ++ event_of event.now ∷ []) (n + result.accepted) (wanted + result.wanted) self.new }
        ensures one { (result.accepted ≤ 1) × (result.wanted ≤ 1) }
    {
        match self.step(event) {
            Ok(reports) => {
                mem::drop(reports);
                Ran {
                    accepted: 1,
                    wanted: self.last_wants(),
                }
            }
            Err(error) => Ran {
                accepted: 0,
                wanted: error_wants(error),
            },
        }
    }

    /// Steps by these events in order, and counts what became of them.
    fn count(&mut self, events: &[WorldEvent]) -> Ran
        ensures { RunsTo self.old (map event_of events.now) result.accepted result.wanted self.new }
    {
        let mut ran = Ran {
            accepted: 0,
            wanted: 0,
        };
        for event in events {
            let one = self.try_step(event);
            ran.accepted += one.accepted;
            ran.wanted += one.wanted;
        }
        ran
    }

    /// Steps by these events in order, and says how many were accepted, and how often memory ran
    /// out. An event that is not accepted is skipped and changes nothing: the world refuses it, or
    /// had no memory for it, which is counted. If memory ran out 0 times, the world is just what
    /// the definitions make of these events.
    pub fn run_counted(&mut self, events: &[WorldEvent]) -> Ran
        ensures run { RunsTo self.old (map event_of events.now) result.accepted result.wanted self.new }
        ensures exact { result.wanted ≡ 0 → self.new ≡ run_by self.old (map event_of events.now) }
        ensures holds { NoCollision (world_of self.new) → RunHolds (world_of self.new) }
    {
        let ran = self.count(events);
        self.tell();
        ran
    }

    /// Steps by these events in order, and says how many were accepted. The others are skipped:
    /// each changes nothing. It does not say whether an event was skipped because memory ran out:
    /// [`World::run_counted`] does.
    pub fn run(&mut self, events: &[WorldEvent]) -> usize
        ensures run { (wanted : ℕ) × RunsTo self.old (map event_of events.now) result wanted self.new }
        ensures holds { NoCollision (world_of self.new) → RunHolds (world_of self.new) }
    {
        self.run_counted(events).accepted
    }
}
