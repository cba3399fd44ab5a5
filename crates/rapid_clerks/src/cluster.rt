// A world, and what turns remember.

ghost use Rattle.std.specs.Prelude.{◌≡◌, map, IfOk, IfErr, OnErr};
ghost use Rattle.std.specs.Option.{option_map};
ghost use Rattle.rapid_model.specs.StoredWorld.{world_of};
ghost use Rattle.rapid_model.specs.Turn as model;
ghost use Rattle.rapid_world.specs.Events.{event_of, report_of, Refuses};
ghost use Rattle.rapid_clerks.specs.Clusters.{DoesJob, RefusesJob, turn_refusal};
ghost use Rattle.rapid_clerks.specs.Turns.{turn_of};
ghost use Rattle.rapid_clerks.specs.declared.job.Job.TheVariants as job;

use crate::Job;
use crate::turn::Turn;
use rapid_endpoint::ProcessId;
use rapid_world::{Report, World, WorldError, WorldEvent};
use std::marker::Model;

/// A world, and what turns remember.
#[derive(Drop)]
pub(crate) struct Cluster {
    world: World,
    // all packets up to this number were delivered or skipped by turns
    passed: u64,
    // the node that a turn ticked last, if any
    ticked: Option<ProcessId>,
}

impl Model for Cluster {
    ghost use Rattle.rapid_clerks.specs.Clusters.{ClusterState, cluster_code};

    ghost Value = { ClusterState };

    ghost coded = { cluster_code };

    ghost view = { λ c. record { world = c.world; pointer = record { passed = c.passed; ticked = c.ticked } } };
}

impl Cluster {
    /// A world of which no turn was taken yet.
    pub(crate) fn new(world: World) -> Cluster
        ensures { result ≡ record { world = world; pointer = model.first_turn } }
    {
        Cluster {
            world,
            passed: 0,
            ticked: None,
        }
    }

    /// The world.
    pub(crate) fn world(&self) -> &World
        ensures { result.now ≡ self.now.world }
    {
        &self.world
    }

    /// The next turn; none if no node runs.
    #[tactic(auto, unfolding(rapid_model::specs::Turn::next_turn))]
    fn next_turn(&self) -> Option<Turn>
        ensures { option_map turn_of result ≡ model.next_turn (world_of self.now.world) self.now.pointer }
    {
        if let Some(packet) = self.world.next_deliverable(self.passed) {
            return Some(Turn {
                event: WorldEvent::Deliver(packet),
                passed: packet,
                ticked: self.ticked,
            });
        }
        match self.world.next_running(self.ticked) {
            Some(id) => Some(Turn {
                event: WorldEvent::Tick(id),
                passed: self.world.packets(),
                ticked: Some(id),
            }),
            None => None,
        }
    }

    /// Takes a turn: its event is stored.
    #[tactic(auto, using(crate::proofs::Jobs::turn_refused, crate::proofs::Jobs::no_turn, crate::proofs::Jobs::turn_full, crate::proofs::Jobs::turn_done))]
    fn take_turn(&mut self) -> Result<Vec<Report>, WorldError>
        ensures done { IfOk result (λ reports. DoesJob job.Turn self.old self.new (map report_of reports.items)) }
        ensures refused { IfErr result (Refuses (turn_refusal self.old)) }
        ensures unchanged { OnErr result (self.new ≡ self.old) }
    {
        if self.world.accepted() >= World::MOST_EVENTS {
            return Err(WorldError::EventsFull);
        }
        let Some(turn) = self.next_turn() else {
            return Err(WorldError::NoSuchNode);
        };
        let reports = self.world.step(&turn.event)?;
        self.passed = turn.passed;
        self.ticked = turn.ticked;
        Ok(reports)
    }

    /// Does a job: its event is stored.
    pub(crate) fn step(&mut self, job: &Job) -> Result<Vec<Report>, WorldError>
        ensures done { IfOk result (λ reports. DoesJob job.now self.old self.new (map report_of reports.items)) }
        ensures refused { IfErr result (RefusesJob job.now self.old) }
        ensures unchanged { OnErr result (self.new ≡ self.old) }
    {
        match job {
            Job::Event(event) => self.world.step(event),
            Job::Turn => self.take_turn(),
        }
    }
}
