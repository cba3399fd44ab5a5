// The world under the lock, with the book of the ledger that counts its events.

ghost use Rattle.std.specs.Prelude.{◌≡◌, ℕ, ◌+◌, ◌<◌, ◌≤◌, map, length, IfOk, IfErr, OnOk, OnErr, None};
ghost use Rattle.rapid_model.specs.Agreement.{NoCollision};
ghost use Rattle.rapid_model.specs.Reading.{members_fault};
ghost use Rattle.rapid_model.specs.RunHolds.{RunHolds};
ghost use Rattle.rapid_model.specs.StoredWorld.{world_of, accepted};
ghost use Rattle.rapid_world.specs.Events.{report_of};
ghost use Rattle.rapid_clerks.specs.Clusters.{DoesJob, RefusesJob, new_cluster};
ghost use Rattle.rapid_clerks.specs.declared.job.Job.TheVariants as job;

use crate::cluster::Cluster;
use crate::{DoJob, Job, TurnJob};
use rapid_config::Params;
use rapid_endpoint::Process;
use rapid_world::{Report, World, WorldError};
use std::alloc::{AllocError, Global};
use std::marker::Model;
use std::sync::ledger::{Blank, Book, Ledger, Share};

/// A world that many threads drive, with what turns remember and the book of a ledger that counts
/// the stored events. It is kept in a Mutex. Whenever that is free the world is the run of its
/// stored events, and the book's total is their number.
#[derive(Drop)]
pub struct ClusterBook<L: Ledger> {
    cluster: Cluster,
    stored: Book<L>,
}

impl<L: Ledger> Model for ClusterBook<L> {
    ghost use Rattle.std.specs.Prelude.{◌≡◌};
    ghost use Rattle.rapid_model.specs.StoredWorld.{accepted};
    ghost use Rattle.rapid_clerks.specs.Clusters.{ClusterState, cluster_code};

    ghost Value = { ClusterState };

    ghost coded = { cluster_code };

    ghost view = { λ b. b.cluster };

    ghost invariant = { λ b. b.stored.total ≡ accepted b.cluster.world };
}

impl<L: Ledger> ClusterBook<L> {
    /// A world of these founders in the configuration of height 0 with these parameters, and a
    /// share of its ledger that has every part. The caller ensures that they can be founders: at
    /// least one, at most 1,024, with ascending identifiers and no endpoint twice. It also ensures
    /// that the ledger has at least 33 parts.
    pub fn new(
        alloc: Global,
        params: Params,
        founders: &[Process],
        blank: Blank,
    ) -> Result<(ClusterBook<L>, Share<L>), AllocError>
        requires some { 1 ≤ length founders.now }
        requires members { members_fault founders.now ≡ None }
        requires name { blank.name ≡ L.name }
        requires parts { blank.parts ≡ L.parts }
        requires room { 33 ≤ blank.parts }
        ensures book { IfOk result (λ made. made.0 ≡ new_cluster params founders.now) }
        ensures share { IfOk result (λ made. (made.1.parts ≡ L.parts) × (made.1.amount ≡ 0) × (33 ≤ made.1.parts)) }
    {
        let world = World::new(alloc, params, founders)?;
        let (stored, share) = blank.open::<L>();
        let book = ClusterBook {
            cluster: Cluster::new(world),
            stored,
        };
        Ok((book, share))
    }

    /// Does a job: its event is stored, and the share, which is one of this book's ledger, is
    /// raised by one.
    ///
    /// # Errors
    ///
    /// Those of [`World::step`] for the job's event. Of a turn `EventsFull` if 1,000,000 events
    /// were accepted, which is tested first, and `NoSuchNode` if no node runs. Each leaves the book
    /// and the share as they were.
    pub fn step(&mut self, share: &mut Share<L>, job: &Job) -> Result<Vec<Report>, WorldError>
        requires { 0 < share.old.parts }
        ensures done { IfOk result (λ reports. DoesJob job.now self.old self.new (map report_of reports.items)) }
        ensures raised { OnOk result (share.new.amount ≡ share.old.amount + 1) }
        ensures refused { IfErr result (RefusesJob job.now self.old) }
        ensures unchanged { OnErr result (self.new ≡ self.old) }
        ensures kept { OnErr result (share.new.amount ≡ share.old.amount) }
        ensures parts { share.new.parts ≡ share.old.parts }
        ensures holds { NoCollision (world_of self.new.world) → RunHolds (world_of self.new.world) }
    {
        let result = self.store(share, job);
        self.cluster.world().tell();
        result
    }

    /// Does a job, and counts it.
    fn store(&mut self, share: &mut Share<L>, job: &Job) -> Result<Vec<Report>, WorldError>
        requires { 0 < share.old.parts }
        ensures done { IfOk result (λ reports. DoesJob job.now self.old self.new (map report_of reports.items)) }
        ensures raised { OnOk result (share.new.amount ≡ share.old.amount + 1) }
        ensures refused { IfErr result (RefusesJob job.now self.old) }
        ensures unchanged { OnErr result (self.new ≡ self.old) }
        ensures kept { OnErr result (share.new.amount ≡ share.old.amount) }
        ensures parts { share.new.parts ≡ share.old.parts }
    {
        match self.cluster.step(job) {
            Ok(reports) => {
                self.stored.add(share, 1);
                Ok(reports)
            }
            Err(error) => Err(error),
        }
    }

    /// The world.
    pub fn world(&self) -> &World
        ensures world { result.now ≡ self.now.world }
        ensures holds { NoCollision (world_of self.now.world) → RunHolds (world_of self.now.world) }
    {
        let world = self.cluster.world();
        world.tell();
        world
    }

    /// How many events are stored, by a share that has every part: it is the share's amount.
    pub fn stored(&mut self, all: &mut Share<L>) -> usize
        requires { all.old.parts ≡ L.parts }
        ensures events { result ≡ accepted self.old.world }
        ensures counted { result ≡ all.old.amount }
        ensures unchanged { self.new ≡ self.old }
        ensures amount { all.new.amount ≡ all.old.amount }
        ensures parts { all.new.parts ≡ all.old.parts }
    {
        self.stored.audit(all);
        self.cluster.world().accepted()
    }
}

impl<L: Ledger> DoJob<L, Job> for ClusterBook<L> {
    fn do_job(&mut self, share: &mut Share<L>, job: &Job) -> Result<Vec<Report>, WorldError>
        requires { 0 < share.old.parts }
        ensures done { IfOk result (λ reports. DoesJob job.now self.old self.new (map report_of reports.items)) }
        ensures raised { OnOk result (share.new.amount ≡ share.old.amount + 1) }
        ensures refused { IfErr result (RefusesJob job.now self.old) }
        ensures unchanged { OnErr result (self.new ≡ self.old) }
        ensures kept { OnErr result (share.new.amount ≡ share.old.amount) }
        ensures parts { share.new.parts ≡ share.old.parts }
    {
        self.step(share, job)
    }
}

impl<L: Ledger> DoJob<L, TurnJob> for ClusterBook<L> {
    fn do_job(&mut self, share: &mut Share<L>, _job: &TurnJob) -> Result<Vec<Report>, WorldError>
        requires { 0 < share.old.parts }
        ensures done { IfOk result (λ reports. DoesJob job.Turn self.old self.new (map report_of reports.items)) }
        ensures raised { OnOk result (share.new.amount ≡ share.old.amount + 1) }
        ensures refused { IfErr result (RefusesJob job.Turn self.old) }
        ensures unchanged { OnErr result (self.new ≡ self.old) }
        ensures kept { OnErr result (share.new.amount ≡ share.old.amount) }
        ensures parts { share.new.parts ≡ share.old.parts }
    {
        self.step(share, &Job::Turn)
    }
}
